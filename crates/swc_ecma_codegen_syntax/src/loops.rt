//! Loops.

ghost use Rattle.std.specs.Prelude.{◌≡◌, false};
ghost use Rattle.swc_ecma_codegen_syntax.specs.Forms.{judge};
ghost use Rattle.swc_ecma_codegen_syntax.specs.StmtForms.{optional_form, while_form, do_while_form, for_init_form, for_form, head_form, is_of_head, for_in_form, of_start, for_of_form};

use crate::forms::{Answers, Stands};
use crate::lookahead::Lookahead;
use crate::nonterminals::Nonterminal;
use crate::parameters::{Parameters, in_do_while, may_await, of_for, of_loop, of_targets, with_in};
use crate::verdicts::Verdict;
use swc_ecma_codegen_grammar::roles::Role;
use swc_ecma_codegen_tree::{
    DoWhileStmt, ExprBox, ForHead, ForInStmt, ForOfStmt, ForStmt, VarDeclOrExpr, WhileStmt,
};

/// What an expression gives, where there is one.
#[tactic(auto, unfolding(crate::specs::StmtForms::optional_form, crate::specs::Forms::judge))]
fn optional<N: Answers>(
    so_far: Verdict,
    expr: &Option<ExprBox<N>>,
    parameters: Parameters,
) -> Verdict
    ensures { result ≡ judge N.answers so_far (optional_form parameters expr.now) }
{
    match expr {
        Some(expr) => so_far.expression(expr, parameters),
        None => so_far,
    }
}

impl<N: Answers> Stands for WhileStmt<N> {
    ghost judged = { λ c n v. judge N.answers v (while_form c n) };

    #[tactic(auto, unfolding(crate::specs::StmtForms::while_form, crate::specs::Forms::judge))]
    fn judge(&self, so_far: Verdict, parameters: Parameters) -> Verdict {
        so_far
            .expression(&self.test, parameters)
            .inner(&self.body, parameters)
    }
}

impl<N: Answers> Stands for DoWhileStmt<N> {
    ghost judged = { λ c n v. judge N.answers v (do_while_form c n) };

    #[tactic(auto, unfolding(crate::specs::StmtForms::do_while_form, crate::specs::Forms::judge, crate::specs::Forms::asked))]
    fn judge(&self, so_far: Verdict, parameters: Parameters) -> Verdict {
        so_far
            .by_rule(!parameters.before_empty)
            .part(
                &self.body,
                Nonterminal::Statement,
                in_do_while(parameters),
                Role::Statement,
            )
            .expression(&self.test, parameters)
    }
}

/// What stands first in `for (a; b; c) {}`.
#[tactic(auto, unfolding(crate::specs::StmtForms::for_init_form, crate::specs::Forms::judge))]
fn for_init<N: Answers>(
    so_far: Verdict,
    init: &Option<VarDeclOrExpr<N>>,
    parameters: Parameters,
) -> Verdict
    ensures { result ≡ judge N.answers so_far (for_init_form parameters init.now) }
{
    match init {
        Some(VarDeclOrExpr::VarDecl(decl)) => so_far.part(
            decl,
            Nonterminal::VariableDeclarations,
            of_for(parameters),
            Role::VariableDeclaration,
        ),
        Some(VarDeclOrExpr::Expr(expr)) => so_far.restricted_expr(
            expr,
            Lookahead::ForStart,
            Nonterminal::Expression,
            of_for(parameters),
        ),
        None => so_far,
    }
}

impl<N: Answers> Stands for ForStmt<N> {
    ghost judged = { λ c n v. judge N.answers v (for_form c n) };

    #[tactic(auto, unfolding(crate::specs::StmtForms::for_form, crate::specs::Forms::judge))]
    fn judge(&self, so_far: Verdict, parameters: Parameters) -> Verdict {
        let verdict = for_init(so_far, &self.init, parameters);
        let verdict = optional(verdict, &self.test, parameters);
        let verdict = optional(verdict, &self.update, parameters);
        verdict.inner(&self.body, parameters)
    }
}

/// Whether it is the head of `for (a of b) {}`.
#[tactic(auto, unfolding(crate::specs::StmtForms::is_of_head))]
fn is_of_head(lookahead: Lookahead) -> bool
    ensures { result ≡ is_of_head lookahead }
{
    !matches!(lookahead, Lookahead::ForStart)
}

/// What gets a value from a loop.
#[tactic(auto, unfolding(crate::specs::StmtForms::head_form, crate::specs::Forms::judge, crate::specs::Forms::asked))]
fn head<N: Answers>(
    so_far: Verdict,
    lookahead: Lookahead,
    head: &ForHead<N>,
    parameters: Parameters,
) -> Verdict
    ensures { result ≡ judge N.answers so_far (head_form lookahead parameters head.now) }
{
    match head {
        ForHead::VarDecl(decl) => so_far.part(
            decl,
            Nonterminal::VariableDeclarations,
            of_loop(!is_of_head(lookahead) && !parameters.is_strict, parameters),
            Role::VariableDeclaration,
        ),
        ForHead::UsingDecl(decl) => {
            let verdict = so_far.by_core(false).by_rule(is_of_head(lookahead));
            decl.judge(verdict, of_loop(false, parameters))
        }
        ForHead::Pat(pat) => so_far.restricted_pat(
            pat,
            lookahead,
            Nonterminal::PatternTarget,
            of_targets(parameters),
        ),
    }
}

/// What may not begin the head of `for (a of b) {}`.
#[tactic(auto, unfolding(crate::specs::StmtForms::of_start))]
fn of_start(is_await: bool) -> Lookahead
    ensures { result ≡ of_start is_await }
{
    if is_await {
        Lookahead::AwaitOfStart
    } else {
        Lookahead::OfStart
    }
}

impl<N: Answers> Stands for ForInStmt<N> {
    ghost judged = { λ c n v. judge N.answers v (for_in_form c n) };

    #[tactic(auto, unfolding(crate::specs::StmtForms::for_in_form, crate::specs::Forms::judge))]
    fn judge(&self, so_far: Verdict, parameters: Parameters) -> Verdict {
        head(so_far, Lookahead::ForStart, &self.left, parameters)
            .expression(&self.right, parameters)
            .inner(&self.body, parameters)
    }
}

impl<N: Answers> Stands for ForOfStmt<N> {
    ghost judged = { λ c n v. judge N.answers v (for_of_form c n) };

    #[tactic(auto, unfolding(crate::specs::StmtForms::for_of_form, crate::specs::Forms::judge, crate::specs::Forms::asked))]
    fn judge(&self, so_far: Verdict, parameters: Parameters) -> Verdict {
        let verdict = so_far.by_rule(!self.is_await || may_await(parameters));
        head(verdict, of_start(self.is_await), &self.left, parameters)
            .part(
                &self.right,
                Nonterminal::AssignmentExpression,
                with_in(parameters),
                Role::Expression,
            )
            .inner(&self.body, parameters)
    }
}
