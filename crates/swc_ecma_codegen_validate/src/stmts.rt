//! Statements and programs.

ghost use Rattle.std.specs.Prelude.{◌≡◌};
ghost use Rattle.swc_ecma_codegen_grammar.specs.Phrases.{is_possible};
ghost use Rattle.swc_ecma_codegen_grammar.specs.StmtPhrases.{optional_value, block_stmt, empty_stmt, expr_stmt, debugger_stmt, with_stmt, return_rest, return_stmt, labeled_stmt, break_stmt, continue_stmt, else_branch, if_stmt, case_test, switch_case, switch_stmt, throw_stmt, catch_param, catch_clause, handler, finalizer, try_stmt, while_stmt, do_while_stmt, var_decl_or_expr, for_init, for_stmt, for_head, for_in_stmt, for_of_stmt, stmt, shebang, script, program};

use crate::forms::{Fits, WellFormed, all_well_formed};
use crate::functions::is_optional_name;
use crate::texts::is_one_line;
use swc_ecma_codegen_tree::{
    BlockStmt, BlockStmtBox, BreakStmt, CatchClause, ContinueStmt, DebuggerStmt, DoWhileStmt,
    EmptyStmt, ExprBox, ExprStmt, ForHead, ForInStmt, ForOfStmt, ForStmt, IfStmt, LabeledStmt,
    PatBox, Program, ReturnStmt, Script, Stmt, StmtBox, SwitchCase, SwitchStmt, ThrowStmt, TryStmt,
    VarDeclOrExpr, WhileStmt, WithStmt,
};

impl<N: Fits> WellFormed for BlockStmt<N> {
    ghost phrase = { block_stmt N.reads };

    #[tactic(auto, using(crate::proofs::FunctionsPossible::block_possible))]
    fn is_well_formed(&self) -> bool {
        all_well_formed(&self.stmts)
    }
}

impl WellFormed for EmptyStmt {
    ghost phrase = { empty_stmt };

    #[tactic(auto, unfolding(swc_ecma_codegen_grammar::specs::StmtPhrases::empty_stmt, swc_ecma_codegen_grammar::specs::Phrases::is_possible))]
    fn is_well_formed(&self) -> bool {
        true
    }
}

impl<N: Fits> WellFormed for ExprStmt<N> {
    ghost phrase = { expr_stmt N.reads };

    #[tactic(auto, unfolding(swc_ecma_codegen_grammar::specs::StmtPhrases::expr_stmt, swc_ecma_codegen_grammar::specs::Phrases::is_possible))]
    fn is_well_formed(&self) -> bool {
        self.expr.is_well_formed()
    }
}

impl WellFormed for DebuggerStmt {
    ghost phrase = { debugger_stmt };

    #[tactic(auto, unfolding(swc_ecma_codegen_grammar::specs::StmtPhrases::debugger_stmt, swc_ecma_codegen_grammar::specs::Phrases::is_possible))]
    fn is_well_formed(&self) -> bool {
        true
    }
}

impl<N: Fits> WellFormed for WithStmt<N> {
    ghost phrase = { with_stmt N.reads };

    #[tactic(auto, unfolding(swc_ecma_codegen_grammar::specs::StmtPhrases::with_stmt, swc_ecma_codegen_grammar::specs::Phrases::is_possible))]
    fn is_well_formed(&self) -> bool {
        self.obj.is_well_formed() && self.body.is_well_formed()
    }
}

/// Whether an expression is well-formed, or there is none.
#[tactic(auto, unfolding(swc_ecma_codegen_grammar::specs::StmtPhrases::optional_value, swc_ecma_codegen_grammar::specs::Phrases::is_possible))]
fn is_optional_value<N: Fits>(node: &Option<ExprBox<N>>) -> bool
    ensures { result ≡ is_possible (optional_value N.reads node.now) }
{
    match node {
        Some(node) => node.is_well_formed(),
        None => true,
    }
}

/// Whether what comes after `return` is well-formed: an argument, or none.
#[tactic(auto, unfolding(swc_ecma_codegen_grammar::specs::StmtPhrases::return_rest, swc_ecma_codegen_grammar::specs::Phrases::is_possible))]
fn is_return_rest<N: Fits>(node: &Option<ExprBox<N>>) -> bool
    ensures { result ≡ is_possible (return_rest N.reads node.now) }
{
    match node {
        Some(node) => node.is_well_formed(),
        None => true,
    }
}

impl<N: Fits> WellFormed for ReturnStmt<N> {
    ghost phrase = { return_stmt N.reads };

    #[tactic(auto, unfolding(swc_ecma_codegen_grammar::specs::StmtPhrases::return_stmt, swc_ecma_codegen_grammar::specs::Phrases::is_possible))]
    fn is_well_formed(&self) -> bool {
        is_return_rest(&self.arg)
    }
}

impl<N: Fits> WellFormed for LabeledStmt<N> {
    ghost phrase = { labeled_stmt N.reads };

    #[tactic(auto, unfolding(swc_ecma_codegen_grammar::specs::StmtPhrases::labeled_stmt, swc_ecma_codegen_grammar::specs::Phrases::is_possible))]
    fn is_well_formed(&self) -> bool {
        self.label.is_well_formed() && self.body.is_well_formed()
    }
}

impl WellFormed for BreakStmt {
    ghost phrase = { break_stmt };

    #[tactic(auto, using(crate::proofs::StmtsPossible::jump_possible), unfolding(swc_ecma_codegen_grammar::specs::StmtPhrases::break_stmt, swc_ecma_codegen_grammar::specs::Phrases::is_possible))]
    fn is_well_formed(&self) -> bool {
        is_optional_name(&self.label)
    }
}

impl WellFormed for ContinueStmt {
    ghost phrase = { continue_stmt };

    #[tactic(auto, using(crate::proofs::StmtsPossible::jump_possible), unfolding(swc_ecma_codegen_grammar::specs::StmtPhrases::continue_stmt, swc_ecma_codegen_grammar::specs::Phrases::is_possible))]
    fn is_well_formed(&self) -> bool {
        is_optional_name(&self.label)
    }
}

/// Whether the statement after `else` is well-formed, or there is none.
#[tactic(auto, unfolding(swc_ecma_codegen_grammar::specs::StmtPhrases::else_branch, swc_ecma_codegen_grammar::specs::Phrases::is_possible))]
fn is_else_branch<N: Fits>(node: &Option<StmtBox<N>>) -> bool
    ensures { result ≡ is_possible (else_branch N.reads node.now) }
{
    match node {
        Some(node) => node.is_well_formed(),
        None => true,
    }
}

impl<N: Fits> WellFormed for IfStmt<N> {
    ghost phrase = { if_stmt N.reads };

    #[tactic(auto, unfolding(swc_ecma_codegen_grammar::specs::StmtPhrases::if_stmt, swc_ecma_codegen_grammar::specs::Phrases::is_possible))]
    fn is_well_formed(&self) -> bool {
        self.test.is_well_formed() && self.cons.is_well_formed() && is_else_branch(&self.alt)
    }
}

/// Whether the expression after `case` is well-formed, or `default` stands there.
#[tactic(auto, unfolding(swc_ecma_codegen_grammar::specs::StmtPhrases::case_test, swc_ecma_codegen_grammar::specs::Phrases::is_possible))]
fn is_case_test<N: Fits>(node: &Option<ExprBox<N>>) -> bool
    ensures { result ≡ is_possible (case_test N.reads node.now) }
{
    match node {
        Some(node) => node.is_well_formed(),
        None => true,
    }
}

impl<N: Fits> WellFormed for SwitchCase<N> {
    ghost phrase = { switch_case N.reads };

    #[tactic(auto, using(crate::proofs::StmtsPossible::switch_case_possible))]
    fn is_well_formed(&self) -> bool {
        is_case_test(&self.test) && all_well_formed(&self.cons)
    }
}

impl<N: Fits> WellFormed for SwitchStmt<N> {
    ghost phrase = { switch_stmt N.reads };

    #[tactic(auto, using(crate::proofs::StmtsPossible::switch_stmt_possible))]
    fn is_well_formed(&self) -> bool {
        self.discriminant.is_well_formed() && all_well_formed(&self.cases)
    }
}

impl<N: Fits> WellFormed for ThrowStmt<N> {
    ghost phrase = { throw_stmt N.reads };

    #[tactic(auto, unfolding(swc_ecma_codegen_grammar::specs::StmtPhrases::throw_stmt, swc_ecma_codegen_grammar::specs::Phrases::is_possible))]
    fn is_well_formed(&self) -> bool {
        self.arg.is_well_formed()
    }
}

/// Whether what is caught is well-formed, or there is none.
#[tactic(auto, unfolding(swc_ecma_codegen_grammar::specs::StmtPhrases::catch_param, swc_ecma_codegen_grammar::specs::Phrases::is_possible))]
fn is_catch_param<N: Fits>(node: &Option<PatBox<N>>) -> bool
    ensures { result ≡ is_possible (catch_param N.reads node.now) }
{
    match node {
        Some(node) => node.is_well_formed(),
        None => true,
    }
}

impl<N: Fits> WellFormed for CatchClause<N> {
    ghost phrase = { catch_clause N.reads };

    #[tactic(auto, unfolding(swc_ecma_codegen_grammar::specs::StmtPhrases::catch_clause, swc_ecma_codegen_grammar::specs::Phrases::is_possible))]
    fn is_well_formed(&self) -> bool {
        is_catch_param(&self.param) && self.body.is_well_formed()
    }
}

/// Whether `catch { a; }` is well-formed, or there is none.
#[tactic(auto, unfolding(swc_ecma_codegen_grammar::specs::StmtPhrases::handler, swc_ecma_codegen_grammar::specs::Phrases::is_possible))]
fn is_handler<N: Fits>(node: &Option<CatchClause<N>>) -> bool
    ensures { result ≡ is_possible (handler N.reads node.now) }
{
    match node {
        Some(node) => node.is_well_formed(),
        None => true,
    }
}

/// Whether the block after `finally` is well-formed, or there is none.
#[tactic(auto, unfolding(swc_ecma_codegen_grammar::specs::StmtPhrases::finalizer, swc_ecma_codegen_grammar::specs::Phrases::is_possible))]
fn is_finalizer<N: Fits>(node: &Option<BlockStmtBox<N>>) -> bool
    ensures { result ≡ is_possible (finalizer N.reads node.now) }
{
    match node {
        Some(node) => node.is_well_formed(),
        None => true,
    }
}

impl<N: Fits> WellFormed for TryStmt<N> {
    ghost phrase = { try_stmt N.reads };

    #[tactic(auto, unfolding(swc_ecma_codegen_grammar::specs::StmtPhrases::try_stmt, swc_ecma_codegen_grammar::specs::Phrases::is_possible))]
    fn is_well_formed(&self) -> bool {
        self.block.is_well_formed() && is_handler(&self.handler) && is_finalizer(&self.finalizer)
    }
}

impl<N: Fits> WellFormed for WhileStmt<N> {
    ghost phrase = { while_stmt N.reads };

    #[tactic(auto, unfolding(swc_ecma_codegen_grammar::specs::StmtPhrases::while_stmt, swc_ecma_codegen_grammar::specs::Phrases::is_possible))]
    fn is_well_formed(&self) -> bool {
        self.test.is_well_formed() && self.body.is_well_formed()
    }
}

impl<N: Fits> WellFormed for DoWhileStmt<N> {
    ghost phrase = { do_while_stmt N.reads };

    #[tactic(auto, unfolding(swc_ecma_codegen_grammar::specs::StmtPhrases::do_while_stmt, swc_ecma_codegen_grammar::specs::Phrases::is_possible))]
    fn is_well_formed(&self) -> bool {
        self.body.is_well_formed() && self.test.is_well_formed()
    }
}

impl<N: Fits> WellFormed for VarDeclOrExpr<N> {
    ghost phrase = { var_decl_or_expr N.reads };

    #[tactic(auto, unfolding(swc_ecma_codegen_grammar::specs::StmtPhrases::var_decl_or_expr, swc_ecma_codegen_grammar::specs::Phrases::is_possible))]
    fn is_well_formed(&self) -> bool {
        match self {
            VarDeclOrExpr::VarDecl(node) => node.is_well_formed(),
            VarDeclOrExpr::Expr(node) => node.is_well_formed(),
        }
    }
}

/// Whether what the head of a `for` begins with is well-formed, or there is none.
#[tactic(auto, unfolding(swc_ecma_codegen_grammar::specs::StmtPhrases::for_init, swc_ecma_codegen_grammar::specs::Phrases::is_possible))]
fn is_for_init<N: Fits>(node: &Option<VarDeclOrExpr<N>>) -> bool
    ensures { result ≡ is_possible (for_init N.reads node.now) }
{
    match node {
        Some(node) => node.is_well_formed(),
        None => true,
    }
}

impl<N: Fits> WellFormed for ForStmt<N> {
    ghost phrase = { for_stmt N.reads };

    #[tactic(auto, unfolding(swc_ecma_codegen_grammar::specs::StmtPhrases::for_stmt, swc_ecma_codegen_grammar::specs::Phrases::is_possible))]
    fn is_well_formed(&self) -> bool {
        is_for_init(&self.init)
            && is_optional_value(&self.test)
            && is_optional_value(&self.update)
            && self.body.is_well_formed()
    }
}

impl<N: Fits> WellFormed for ForHead<N> {
    ghost phrase = { for_head N.reads };

    #[tactic(auto, unfolding(swc_ecma_codegen_grammar::specs::StmtPhrases::for_head, swc_ecma_codegen_grammar::specs::Phrases::is_possible))]
    fn is_well_formed(&self) -> bool {
        match self {
            ForHead::VarDecl(node) => node.is_well_formed(),
            ForHead::UsingDecl(node) => node.is_well_formed(),
            ForHead::Pat(node) => node.is_well_formed(),
        }
    }
}

impl<N: Fits> WellFormed for ForInStmt<N> {
    ghost phrase = { for_in_stmt N.reads };

    #[tactic(auto, unfolding(swc_ecma_codegen_grammar::specs::StmtPhrases::for_in_stmt, swc_ecma_codegen_grammar::specs::Phrases::is_possible))]
    fn is_well_formed(&self) -> bool {
        self.left.is_well_formed() && self.right.is_well_formed() && self.body.is_well_formed()
    }
}

impl<N: Fits> WellFormed for ForOfStmt<N> {
    ghost phrase = { for_of_stmt N.reads };

    #[tactic(auto, using(crate::proofs::StmtsPossible::for_of_stmt_possible))]
    fn is_well_formed(&self) -> bool {
        self.left.is_well_formed() && self.right.is_well_formed() && self.body.is_well_formed()
    }
}

impl<N: Fits> WellFormed for Stmt<N> {
    ghost phrase = { stmt N.reads };

    #[tactic(auto, unfolding(swc_ecma_codegen_grammar::specs::StmtPhrases::stmt, swc_ecma_codegen_grammar::specs::Phrases::is_possible))]
    fn is_well_formed(&self) -> bool {
        match self {
            Stmt::Block(node) => node.is_well_formed(),
            Stmt::Empty(node) => node.is_well_formed(),
            Stmt::Debugger(node) => node.is_well_formed(),
            Stmt::With(node) => node.is_well_formed(),
            Stmt::Return(node) => node.is_well_formed(),
            Stmt::Labeled(node) => node.is_well_formed(),
            Stmt::Break(node) => node.is_well_formed(),
            Stmt::Continue(node) => node.is_well_formed(),
            Stmt::If(node) => node.is_well_formed(),
            Stmt::Switch(node) => node.is_well_formed(),
            Stmt::Throw(node) => node.is_well_formed(),
            Stmt::Try(node) => node.is_well_formed(),
            Stmt::While(node) => node.is_well_formed(),
            Stmt::DoWhile(node) => node.is_well_formed(),
            Stmt::For(node) => node.is_well_formed(),
            Stmt::ForIn(node) => node.is_well_formed(),
            Stmt::ForOf(node) => node.is_well_formed(),
            Stmt::Decl(node) => node.is_well_formed(),
            Stmt::Expr(node) => node.is_well_formed(),
        }
    }
}

/// Whether what stands behind `#!` is one line, where there is such.
#[tactic(auto, using(crate::proofs::Possible::where_possible), unfolding(swc_ecma_codegen_grammar::specs::StmtPhrases::shebang, swc_ecma_codegen_grammar::specs::Phrases::is_possible))]
pub(crate) fn is_shebang(text: &Option<String>) -> bool
    ensures { result ≡ is_possible (shebang text.now) }
{
    match text {
        Some(text) => is_one_line(text),
        None => true,
    }
}

impl<N: Fits> WellFormed for Script<N> {
    ghost phrase = { script N.reads };

    #[tactic(auto, using(crate::proofs::Lists::in_order_possible), unfolding(swc_ecma_codegen_grammar::specs::StmtPhrases::script, swc_ecma_codegen_grammar::specs::Phrases::is_possible))]
    fn is_well_formed(&self) -> bool {
        is_shebang(&self.shebang) && all_well_formed(&self.body)
    }
}

impl<N: Fits> WellFormed for Program<N> {
    ghost phrase = { program N.reads };

    #[tactic(auto, unfolding(swc_ecma_codegen_grammar::specs::StmtPhrases::program, swc_ecma_codegen_grammar::specs::Phrases::is_possible))]
    fn is_well_formed(&self) -> bool {
        match self {
            Program::Module(node) => node.is_well_formed(),
            Program::Script(node) => node.is_well_formed(),
        }
    }
}
