//! Functions.

ghost use Rattle.swc_ecma_codegen_parentheses.specs.SameDecls.{same_decorator, same_fn_decl, same_param, same_function};
ghost use Rattle.swc_ecma_codegen_parentheses.specs.SameExprs.{same_fn_expr, same_block_stmt_or_expr, same_arrow_expr};

use crate::mends::{Mend, Mends, Stop, Usage};
use crate::operands::{Operand, is_decorator};
use crate::places::Place;
use std::alloc::Global;
use swc_ecma_codegen_grammar::roles::Role;
use swc_ecma_codegen_syntax::{Answers, Lookahead, Nonterminal};
use swc_ecma_codegen_tree::{
    ArrowExpr, BlockStmtOrExpr, Decorator, FnDecl, FnExpr, Function, Param,
};

impl<N: Answers, M: Mends<N>> Mend<N, M> for FnExpr<N> {
    ghost same = { same_fn_expr };

    #[tactic(auto, unfolding(crate::specs::SameExprs::same_fn_expr))]
    fn mend(&mut self, mender: &M, alloc: Global, place: Place) -> Result<(), Stop> {
        self.function.mend(mender, alloc, place)
    }
}

impl<N: Answers, M: Mends<N>> Mend<N, M> for BlockStmtOrExpr<N> {
    ghost same = { same_block_stmt_or_expr };

    #[tactic(auto, unfolding(crate::specs::SameExprs::same_block_stmt_or_expr))]
    fn mend(&mut self, mender: &M, alloc: Global, place: Place) -> Result<(), Stop> {
        match self {
            BlockStmtOrExpr::BlockStmt(node) => node.mend(mender, alloc, place),
            BlockStmtOrExpr::Expr(node) => {
                let begins = node.target().begins(Role::Expression);
                let body = place.here(Nonterminal::AssignmentExpression);
                let body = body.restricted(Lookahead::BodyStart, begins);
                mender.expr(alloc, node, body, Usage::Operand(Operand::Body))
            }
        }
    }
}

impl<N: Answers, M: Mends<N>> Mend<N, M> for ArrowExpr<N> {
    ghost same = { same_arrow_expr };

    #[tactic(auto, unfolding(crate::specs::SameExprs::same_arrow_expr))]
    fn mend(&mut self, mender: &M, alloc: Global, place: Place) -> Result<(), Stop> {
        self.params.mend(mender, alloc, place)?;
        self.body.mend(mender, alloc, place)
    }
}

impl<N: Answers, M: Mends<N>> Mend<N, M> for FnDecl<N> {
    ghost same = { same_fn_decl };

    #[tactic(auto, unfolding(crate::specs::SameDecls::same_fn_decl))]
    fn mend(&mut self, mender: &M, alloc: Global, place: Place) -> Result<(), Stop> {
        self.function.mend(mender, alloc, place)
    }
}

impl<N: Answers, M: Mends<N>> Mend<N, M> for Decorator<N> {
    ghost same = { same_decorator };

    #[tactic(auto, unfolding(crate::specs::SameDecls::same_decorator))]
    fn mend(&mut self, mender: &M, alloc: Global, place: Place) -> Result<(), Stop> {
        let within = place.behind_at(is_decorator(&self.expr));
        mender.expr(alloc, &mut self.expr, within, Usage::Decorator)
    }
}

impl<N: Answers, M: Mends<N>> Mend<N, M> for Param<N> {
    ghost same = { same_param };

    #[tactic(auto, unfolding(crate::specs::SameDecls::same_param))]
    fn mend(&mut self, mender: &M, alloc: Global, place: Place) -> Result<(), Stop> {
        self.decorators.mend(mender, alloc, place)?;
        self.pat.mend(mender, alloc, place)
    }
}

impl<N: Answers, M: Mends<N>> Mend<N, M> for Function<N> {
    ghost same = { same_function };

    #[tactic(auto, unfolding(crate::specs::SameDecls::same_function))]
    fn mend(&mut self, mender: &M, alloc: Global, place: Place) -> Result<(), Stop> {
        self.decorators.mend(mender, alloc, place)?;
        self.params.mend(mender, alloc, place)?;
        self.body.mend(mender, alloc, place)
    }
}
