//! Statements but for loops.

ghost use Rattle.std.specs.Prelude.{◌≡◌, ◌&&◌, ◌||◌, false, is_none};
ghost use Rattle.swc_ecma_codegen_syntax.specs.Forms.{judge};
ghost use Rattle.swc_ecma_codegen_syntax.specs.StmtForms.{expression_part, inner_part, block_part, expr_stmt_form, with_form, is_case_block, return_rest_form, return_form, labelled_place, labeled_form, jump_form, branches_form, if_form, case_test_form, clause_item_form, clause_list_form, case_form, switch_form, throw_form, catch_param_form, catch_form, handler_form, finalizer_form, try_form, stmt_form, stmt_nonterminal, is_empty, begins_empty, list_form, block_form, branch_place};

use crate::decls::decl_nonterminal;
use crate::forms::{Answers, Stands, all};
use crate::lookahead::Lookahead;
use crate::names::name;
use crate::nonterminals::Nonterminal;
use crate::parameters::{
    Parameters, Position, behind_label, in_block, in_branch, in_if_else, in_list, in_statement,
    of_bindings, with_in,
};
use crate::verdicts::Verdict;
use swc_ecma_codegen_grammar::roles::Role;
use swc_ecma_codegen_tree::{
    BlockStmt, BlockStmtBox, CatchClause, ExprBox, ExprStmt, Ident, IfStmt, LabeledStmt, PatBox,
    ReturnStmt, Stmt, StmtBox, SwitchCase, SwitchStmt, ThrowStmt, TryStmt, WithStmt,
};

impl Verdict {
    /// The verdict so far, and of an Expression[+In].
    pub(crate) fn expression<N: Answers>(self, link: &ExprBox<N>, parameters: Parameters) -> Verdict
        ensures { result ≡ judge N.answers self (expression_part parameters link.now) }
    {
        self.part(
            link,
            Nonterminal::Expression,
            with_in(parameters),
            Role::Expression,
        )
    }

    /// The verdict so far, and of the statement of another.
    pub(crate) fn inner<N: Answers>(self, link: &StmtBox<N>, parameters: Parameters) -> Verdict
        ensures { result ≡ judge N.answers self (inner_part parameters link.now) }
    {
        self.part(
            link,
            Nonterminal::Statement,
            in_statement(parameters),
            Role::Statement,
        )
    }

    /// The verdict so far, and of a block.
    pub(crate) fn block<N: Answers>(self, link: &BlockStmtBox<N>, parameters: Parameters) -> Verdict
        ensures { result ≡ judge N.answers self (block_part parameters link.now) }
    {
        self.part(link, Nonterminal::Block, parameters, Role::Block)
    }
}

impl<N: Answers> Stands for ExprStmt<N> {
    ghost judged = { λ c n v. judge N.answers v (expr_stmt_form c n) };

    #[tactic(auto, unfolding(crate::specs::StmtForms::expr_stmt_form, crate::specs::Forms::judge))]
    fn judge(&self, so_far: Verdict, parameters: Parameters) -> Verdict {
        so_far.restricted_expr(
            &self.expr,
            Lookahead::StatementStart,
            Nonterminal::Expression,
            with_in(parameters),
        )
    }
}

impl<N: Answers> Stands for WithStmt<N> {
    ghost judged = { λ c n v. judge N.answers v (with_form c n) };

    #[tactic(auto, unfolding(crate::specs::StmtForms::with_form, crate::specs::Forms::judge, crate::specs::Forms::asked))]
    fn judge(&self, so_far: Verdict, parameters: Parameters) -> Verdict {
        so_far
            .by_rule(!parameters.is_strict)
            .expression(&self.obj, parameters)
            .inner(&self.body, parameters)
    }
}

impl<N: Answers> Stands for ReturnStmt<N> {
    ghost judged = { λ c n v. judge N.answers v (return_form c n) };

    #[tactic(auto, unfolding(crate::specs::StmtForms::return_form, crate::specs::StmtForms::return_rest_form, crate::specs::Forms::judge, crate::specs::Forms::asked))]
    fn judge(&self, so_far: Verdict, parameters: Parameters) -> Verdict {
        let verdict = so_far.by_rule(parameters.has_return);
        match &self.arg {
            Some(arg) => verdict.expression(arg, parameters),
            None => verdict,
        }
    }
}

/// What may stand behind a label. ECMA-262, section 14.13.
#[tactic(auto, unfolding(crate::specs::StmtForms::labelled_place))]
fn labelled_place(is_strict: bool, position: Position) -> Nonterminal
    ensures { result ≡ labelled_place is_strict position }
{
    match position {
        Position::Inner | Position::Branch => Nonterminal::Statement,
        Position::Item | Position::Labelled => {
            if is_strict {
                Nonterminal::Statement
            } else {
                Nonterminal::LabelledItem
            }
        }
    }
}

impl<N: Answers> Stands for LabeledStmt<N> {
    ghost judged = { λ c n v. judge N.answers v (labeled_form c n) };

    #[tactic(auto, unfolding(crate::specs::StmtForms::labeled_form, crate::specs::Forms::judge))]
    fn judge(&self, so_far: Verdict, parameters: Parameters) -> Verdict {
        name::<N>(so_far, &self.label, parameters).part(
            &self.body,
            labelled_place(parameters.is_strict, parameters.position),
            behind_label(parameters),
            Role::Statement,
        )
    }
}

/// A label, where there is one.
#[tactic(auto, unfolding(crate::specs::StmtForms::jump_form, crate::specs::Forms::judge))]
fn jump<N: Answers>(so_far: Verdict, label: &Option<Ident>, parameters: Parameters) -> Verdict
    ensures { result ≡ judge N.answers so_far (jump_form parameters label.now) }
{
    match label {
        Some(label) => name::<N>(so_far, label, parameters),
        None => so_far,
    }
}

/// What may stand in an `if`: a function too, in code that isn't strict. ECMA-262, section B.3.3.
#[tactic(auto, unfolding(crate::specs::StmtForms::branch_place))]
fn branch_place(is_strict: bool) -> Nonterminal
    ensures { result ≡ branch_place is_strict }
{
    if !is_strict {
        Nonterminal::LabelledItem
    } else {
        Nonterminal::Statement
    }
}

impl<N: Answers> Stands for IfStmt<N> {
    ghost judged = { λ c n v. judge N.answers v (if_form c n) };

    #[tactic(auto, unfolding(crate::specs::StmtForms::if_form, crate::specs::StmtForms::branches_form, crate::specs::Forms::judge, crate::specs::Forms::asked))]
    fn judge(&self, so_far: Verdict, parameters: Parameters) -> Verdict {
        let verdict = so_far.expression(&self.test, parameters);
        let place = branch_place(parameters.is_strict);
        let branch = in_branch(parameters);
        match &self.alt {
            Some(alt) => verdict
                .part(&self.cons, place, in_if_else(parameters), Role::Statement)
                .part(alt, place, branch, Role::Statement),
            None => verdict
                .by_place(!parameters.before_else)
                .part(&self.cons, place, branch, Role::Statement),
        }
    }
}

/// `case a`, or `default`.
#[tactic(auto, unfolding(crate::specs::StmtForms::case_test_form, crate::specs::Forms::judge))]
fn case_test<N: Answers>(
    so_far: Verdict,
    test: &Option<ExprBox<N>>,
    parameters: Parameters,
) -> Verdict
    ensures { result ≡ judge N.answers so_far (case_test_form parameters test.now) }
{
    match test {
        Some(test) => so_far.expression(test, parameters),
        None => so_far,
    }
}

/// A statement of a clause, by what stands behind it.
#[tactic(auto, unfolding(crate::specs::StmtForms::clause_item_form))]
fn clause_item<N: Answers>(
    so_far: Verdict,
    stmt: &StmtBox<N>,
    rest: &[StmtBox<N>],
    parameters: Parameters,
) -> Verdict
    ensures { result ≡ judge N.answers so_far (clause_item_form parameters stmt.now rest.now) }
{
    let place = Nonterminal::StatementListItem;
    let parameters = in_list(false, parameters);
    match rest.first() {
        Some(next) => so_far.followed(stmt, next, place, parameters),
        None => so_far.part(stmt, place, parameters, Role::Statement),
    }
}

/// The verdict so far, and of the StatementList of a clause.
#[tactic(auto, unfolding(crate::specs::StmtForms::clause_list_form, crate::specs::Forms::judge))]
fn clause_list<N: Answers>(so_far: Verdict, stmts: &[StmtBox<N>], parameters: Parameters) -> Verdict
    ensures { result ≡ judge N.answers so_far (clause_list_form parameters stmts.now) }
{
    let mut verdict = so_far;
    for index in 0..stmts.len() {
        verdict = clause_item(verdict, &stmts[index], &stmts[index + 1..], parameters);
    }
    verdict
}

impl<N: Answers> Stands for SwitchCase<N> {
    ghost judged = { λ c n v. judge N.answers v (case_form c n) };

    #[tactic(auto, unfolding(crate::specs::StmtForms::case_form, crate::specs::Forms::judge))]
    fn judge(&self, so_far: Verdict, parameters: Parameters) -> Verdict {
        let verdict = case_test(so_far, &self.test, parameters);
        clause_list(verdict, &self.cons, parameters)
    }
}

/// Whether a clause is `default`.
fn is_default<N: Answers>(case: &SwitchCase<N>) -> bool
    ensures { result ≡ is_none case.now.test }
{
    case.test.is_none()
}

/// Whether a clause is a second `default`.
fn clashes(with_default: bool, is_default: bool) -> bool
    ensures { result ≡ (with_default && is_default) }
{
    with_default && is_default
}

/// Whether a `default` stands among the clauses up to this one.
fn is_behind_default(with_default: bool, is_default: bool) -> bool
    ensures { result ≡ (with_default || is_default) }
{
    with_default || is_default
}

/// Whether `default` stands once at most. ECMA-262, section 14.12.
#[tactic(auto, using(crate::proofs::StmtsJudged::case_block_stops), unfolding(crate::specs::StmtForms::is_case_block))]
fn is_case_block<N: Answers>(cases: &[SwitchCase<N>]) -> bool
    ensures { result ≡ is_case_block false cases.now }
{
    let mut with_default = false;
    for case in cases {
        let default = is_default(case);
        let clash = clashes(with_default, default);
        if clash {
            return false;
        }
        with_default = is_behind_default(with_default, default);
    }
    true
}

impl<N: Answers> Stands for SwitchStmt<N> {
    ghost judged = { λ c n v. judge N.answers v (switch_form c n) };

    fn judge(&self, so_far: Verdict, parameters: Parameters) -> Verdict {
        all(
            so_far
                .by_rule(is_case_block(&self.cases))
                .expression(&self.discriminant, parameters),
            &self.cases,
            parameters,
        )
    }
}

impl<N: Answers> Stands for ThrowStmt<N> {
    ghost judged = { λ c n v. judge N.answers v (throw_form c n) };

    #[tactic(auto, unfolding(crate::specs::StmtForms::throw_form, crate::specs::Forms::judge))]
    fn judge(&self, so_far: Verdict, parameters: Parameters) -> Verdict {
        so_far.expression(&self.arg, parameters)
    }
}

/// What `catch (a)` binds, where it does.
#[tactic(auto, unfolding(crate::specs::StmtForms::catch_param_form, crate::specs::Forms::judge))]
fn catch_param<N: Answers>(
    so_far: Verdict,
    param: &Option<PatBox<N>>,
    parameters: Parameters,
) -> Verdict
    ensures { result ≡ judge N.answers so_far (catch_param_form parameters param.now) }
{
    match param {
        Some(param) => so_far.part(
            param,
            Nonterminal::PatternTarget,
            of_bindings(parameters),
            Role::Pattern,
        ),
        None => so_far,
    }
}

impl<N: Answers> Stands for CatchClause<N> {
    ghost judged = { λ c n v. judge N.answers v (catch_form c n) };

    #[tactic(auto, unfolding(crate::specs::StmtForms::catch_form, crate::specs::Forms::judge))]
    fn judge(&self, so_far: Verdict, parameters: Parameters) -> Verdict {
        catch_param(so_far, &self.param, parameters).block(&self.body, parameters)
    }
}

#[tactic(auto, unfolding(crate::specs::StmtForms::handler_form, crate::specs::Forms::judge))]
fn handler<N: Answers>(
    so_far: Verdict,
    handler: &Option<CatchClause<N>>,
    parameters: Parameters,
) -> Verdict
    ensures { result ≡ judge N.answers so_far (handler_form parameters handler.now) }
{
    match handler {
        Some(clause) => clause.judge(so_far, parameters),
        None => so_far,
    }
}

#[tactic(auto, unfolding(crate::specs::StmtForms::finalizer_form, crate::specs::Forms::judge))]
fn finalizer<N: Answers>(
    so_far: Verdict,
    finalizer: &Option<BlockStmtBox<N>>,
    parameters: Parameters,
) -> Verdict
    ensures { result ≡ judge N.answers so_far (finalizer_form parameters finalizer.now) }
{
    match finalizer {
        Some(block) => so_far.block(block, parameters),
        None => so_far,
    }
}

impl<N: Answers> Stands for TryStmt<N> {
    ghost judged = { λ c n v. judge N.answers v (try_form c n) };

    #[tactic(auto, unfolding(crate::specs::StmtForms::try_form, crate::specs::Forms::judge, crate::specs::Forms::asked))]
    fn judge(&self, so_far: Verdict, parameters: Parameters) -> Verdict {
        let verdict = so_far
            .by_rule(self.handler.is_some() || self.finalizer.is_some())
            .block(&self.block, parameters);
        let verdict = handler(verdict, &self.handler, parameters);
        finalizer(verdict, &self.finalizer, parameters)
    }
}

impl<N: Answers> Stands for Stmt<N> {
    ghost judged = { λ c n v. judge N.answers v (stmt_form c n) };

    #[tactic(auto, unfolding(crate::specs::StmtForms::stmt_form, crate::specs::StmtForms::break_form, crate::specs::StmtForms::continue_form, crate::specs::Forms::judge))]
    fn judge(&self, so_far: Verdict, parameters: Parameters) -> Verdict {
        match self {
            Stmt::Block(node) => so_far.block(node, parameters),
            Stmt::Empty(_) | Stmt::Debugger(_) => so_far,
            Stmt::With(node) => node.judge(so_far, parameters),
            Stmt::Return(node) => node.judge(so_far, parameters),
            Stmt::Labeled(node) => node.judge(so_far, parameters),
            Stmt::Break(node) => jump::<N>(so_far, &node.label, parameters),
            Stmt::Continue(node) => jump::<N>(so_far, &node.label, parameters),
            Stmt::If(node) => node.judge(so_far, parameters),
            Stmt::Switch(node) => node.judge(so_far, parameters),
            Stmt::Throw(node) => node.judge(so_far, parameters),
            Stmt::Try(node) => node.judge(so_far, parameters),
            Stmt::While(node) => node.judge(so_far, parameters),
            Stmt::DoWhile(node) => node.judge(so_far, parameters),
            Stmt::For(node) => node.judge(so_far, parameters),
            Stmt::ForIn(node) => node.judge(so_far, parameters),
            Stmt::ForOf(node) => node.judge(so_far, parameters),
            Stmt::Decl(node) => node.judge(so_far, parameters),
            Stmt::Expr(node) => node.judge(so_far, parameters),
        }
    }
}

/// What a statement is: a Statement or a Declaration.
#[tactic(auto, unfolding(crate::specs::StmtForms::stmt_nonterminal))]
pub(crate) fn stmt_nonterminal<N: Answers>(stmt: &Stmt<N>) -> Nonterminal
    ensures { result ≡ stmt_nonterminal stmt.now }
{
    match stmt {
        Stmt::Decl(node) => decl_nonterminal(node),
        _ => Nonterminal::Statement,
    }
}

/// Whether it is a semicolon alone.
#[tactic(auto, unfolding(crate::specs::StmtForms::is_empty))]
pub(crate) fn is_empty<N: Answers>(stmt: &Stmt<N>) -> bool
    ensures { result ≡ is_empty stmt.now }
{
    matches!(stmt, Stmt::Empty(_))
}

/// Whether the first is one.
#[tactic(auto, unfolding(crate::specs::StmtForms::begins_empty))]
fn begins_empty<N: Answers>(stmts: &[Stmt<N>]) -> bool
    ensures { result ≡ begins_empty stmts.now }
{
    match stmts.first() {
        Some(stmt) => is_empty(stmt),
        None => false,
    }
}

/// The verdict so far, and of a StatementList.
#[tactic(auto, unfolding(crate::specs::StmtForms::list_form, crate::specs::Forms::judge))]
pub(crate) fn list<N: Answers>(
    so_far: Verdict,
    stmts: &[Stmt<N>],
    parameters: Parameters,
) -> Verdict
    ensures { result ≡ judge N.answers so_far (list_form parameters stmts.now) }
{
    let mut verdict = so_far;
    for index in 0..stmts.len() {
        let before_empty = begins_empty(&stmts[index + 1..]);
        verdict = stmts[index].judge(verdict, in_list(before_empty, parameters));
    }
    verdict
}

impl<N: Answers> Stands for BlockStmt<N> {
    ghost judged = { λ c n v. judge N.answers v (block_form c n) };

    #[tactic(auto, unfolding(crate::specs::StmtForms::block_form, crate::specs::Forms::judge))]
    fn judge(&self, so_far: Verdict, parameters: Parameters) -> Verdict {
        list(so_far, &self.stmts, in_block(parameters))
    }
}
