//! Loops.

ghost use Rattle.std.specs.Prelude.{◌≡◌};
ghost use Rattle.std.specs.Result.{OnOk};
ghost use Rattle.swc_ecma_codegen_syntax.specs.StmtForms.{of_start};
ghost use Rattle.swc_ecma_codegen_parentheses.specs.SameStmts.{same_while_stmt, same_do_while_stmt, same_var_decl_or_expr, same_for_stmt, same_for_head, same_for_in_stmt, same_for_of_stmt};

use crate::mends::{Mend, Mends, Stop, Usage, mend_bracketed, mend_optional};
use crate::places::Place;
use std::alloc::Global;
use swc_ecma_codegen_grammar::roles::Role;
use swc_ecma_codegen_syntax::{Answers, Beginning, Lookahead, Nonterminal};
use swc_ecma_codegen_tree::{
    DoWhileStmt, ForHead, ForInStmt, ForOfStmt, ForStmt, VarDeclOrExpr, WhileStmt,
};

/// What the head of a loop begins with.
fn head_begins<N: Answers>(head: &ForHead<N>) -> Beginning {
    match head {
        ForHead::Pat(pat) => pat.target().begins(Role::Pattern),
        ForHead::VarDecl(_) | ForHead::UsingDecl(_) => Beginning::Nothing,
    }
}

/// What may not begin the head of `for (a of b) {}`.
#[tactic(auto, unfolding(swc_ecma_codegen_syntax::specs::StmtForms::of_start))]
fn of_start(is_await: bool) -> Lookahead
    ensures { result ≡ of_start is_await }
{
    if is_await {
        Lookahead::AwaitOfStart
    } else {
        Lookahead::OfStart
    }
}

impl<N: Answers, M: Mends<N>> Mend<N, M> for WhileStmt<N> {
    ghost same = { same_while_stmt };

    #[tactic(auto, unfolding(crate::specs::SameStmts::same_while_stmt))]
    fn mend(&mut self, mender: &M, alloc: Global, place: Place) -> Result<(), Stop> {
        mend_bracketed(
            mender,
            alloc,
            &mut self.test,
            place,
            Nonterminal::Expression,
        )?;
        self.body.mend(mender, alloc, place)
    }
}

impl<N: Answers, M: Mends<N>> Mend<N, M> for DoWhileStmt<N> {
    ghost same = { same_do_while_stmt };

    #[tactic(auto, unfolding(crate::specs::SameStmts::same_do_while_stmt))]
    fn mend(&mut self, mender: &M, alloc: Global, place: Place) -> Result<(), Stop> {
        self.body.mend(mender, alloc, place.listed())?;
        mend_bracketed(
            mender,
            alloc,
            &mut self.test,
            place,
            Nonterminal::Expression,
        )
    }
}

impl<N: Answers, M: Mends<N>> Mend<N, M> for VarDeclOrExpr<N> {
    ghost same = { same_var_decl_or_expr };

    #[tactic(auto, unfolding(crate::specs::SameStmts::same_var_decl_or_expr))]
    fn mend(&mut self, mender: &M, alloc: Global, place: Place) -> Result<(), Stop> {
        match self {
            VarDeclOrExpr::VarDecl(node) => node.mend(mender, alloc, place.without_in()),
            VarDeclOrExpr::Expr(node) => {
                let begins = node.target().begins(Role::Expression);
                let init = place.without_in().restricted(Lookahead::ForStart, begins);
                mender.expr(alloc, node, init, Usage::in_for_head())
            }
        }
    }
}

impl<N: Answers, M: Mends<N>> Mend<N, M> for ForStmt<N> {
    ghost same = { same_for_stmt };

    #[tactic(auto, unfolding(crate::specs::SameStmts::same_for_stmt))]
    fn mend(&mut self, mender: &M, alloc: Global, place: Place) -> Result<(), Stop> {
        self.init.mend(mender, alloc, place)?;
        mend_optional(
            mender,
            alloc,
            &mut self.test,
            place,
            Nonterminal::Expression,
        )?;
        mend_optional(
            mender,
            alloc,
            &mut self.update,
            place,
            Nonterminal::Expression,
        )?;
        self.body.mend(mender, alloc, place)
    }
}

/// Goes into the head of `for (a in b) {}` and `for (a of b) {}`, which may not begin so.
#[tactic(auto, unfolding(crate::specs::SameStmts::same_for_head))]
fn mend_head<N: Answers, M: Mends<N>>(
    mender: &M,
    alloc: Global,
    head: &mut ForHead<N>,
    lookahead: Lookahead,
    place: Place,
) -> Result<(), Stop>
    ensures { OnOk result (same_for_head lookahead (M.mended mender.now) head.old head.new) }
{
    let place = place.restricted(lookahead, head_begins(head));
    match head {
        ForHead::VarDecl(node) => node.mend(mender, alloc, place.without_in()),
        ForHead::Pat(node) => {
            let target = place
                .bracketed(Nonterminal::LeftHandSideExpression)
                .beginning(place);
            mender.pat(alloc, node, target, Usage::Head(lookahead))
        }
        ForHead::UsingDecl(_) => Ok(()),
    }
}

impl<N: Answers, M: Mends<N>> Mend<N, M> for ForInStmt<N> {
    ghost same = { same_for_in_stmt };

    #[tactic(auto, unfolding(crate::specs::SameStmts::same_for_in_stmt))]
    fn mend(&mut self, mender: &M, alloc: Global, place: Place) -> Result<(), Stop> {
        mend_head(mender, alloc, &mut self.left, Lookahead::ForStart, place)?;
        mend_bracketed(
            mender,
            alloc,
            &mut self.right,
            place,
            Nonterminal::Expression,
        )?;
        self.body.mend(mender, alloc, place)
    }
}

impl<N: Answers, M: Mends<N>> Mend<N, M> for ForOfStmt<N> {
    ghost same = { same_for_of_stmt };

    #[tactic(auto, unfolding(crate::specs::SameStmts::same_for_of_stmt))]
    fn mend(&mut self, mender: &M, alloc: Global, place: Place) -> Result<(), Stop> {
        let lookahead = of_start(self.is_await);
        mend_head(mender, alloc, &mut self.left, lookahead, place)?;
        let nonterminal = Nonterminal::AssignmentExpression;
        mend_bracketed(mender, alloc, &mut self.right, place, nonterminal)?;
        self.body.mend(mender, alloc, place)
    }
}
