//! Statements, programs and modules.

ghost use Rattle.std.specs.Prelude.{◌≡◌, IfOk};
ghost use Rattle.swc_ecma_codegen_validate.specs.Rules.{findings, no_links, Finds};
ghost use Rattle.swc_ecma_codegen_validate.specs.StmtRules.{block_stmt, empty_stmt, expr_stmt, debugger_stmt, with_stmt, return_stmt, labeled_stmt, break_stmt, continue_stmt, if_stmt, switch_case, switch_stmt, throw_stmt, catch_clause, try_stmt, while_stmt, do_while_stmt, var_decl_or_expr, for_stmt, for_head, for_in_stmt, for_of_stmt, stmt, script, program, module_export_name, import_named_specifier, import_specifier, import_decl, export_named_specifier, export_specifier, named_export, export_all, export_decl, default_decl, export_default_decl, export_default_expr, module_decl, module_item, whole_module, is_named, are_named, are_bindings, are_imports_in_order, is_namespace, has_no_namespace, are_exports_in_order};
ghost use Rattle.swc_ecma_codegen_validate.specs.DeclRules.{exported_head, exported_tail};

use crate::faults::{
    FaultIn, FindsFault, Found, broken_unless, in_turn, not_here, stands_with, under, under_as,
    within,
};
use crate::stmts::is_shebang;
use std::alloc::Global;
use swc_ecma_codegen_grammar::roles::Role;
use swc_ecma_codegen_tree::{
    BlockStmt, BreakStmt, CatchClause, ContinueStmt, DebuggerStmt, Decl, DefaultDecl, DoWhileStmt,
    EmptyStmt, ExportAll, ExportDecl, ExportDefaultDecl, ExportDefaultExpr, ExportNamedSpecifier,
    ExportSpecifier, ExprStmt, ForHead, ForInStmt, ForOfStmt, ForStmt, IfStmt, ImportDecl,
    ImportNamedSpecifier, ImportSpecifier, LabeledStmt, Module, ModuleDecl, ModuleExportName,
    ModuleItem, NamedExport, Program, ReturnStmt, Script, Stmt, SwitchCase, SwitchStmt, ThrowStmt,
    TryStmt, VarDeclOrExpr, WhileStmt, WithStmt,
};

impl<N: FaultIn> FindsFault for BlockStmt<N> {
    ghost found = { λ n. findings N.found_as (block_stmt n) };

    #[tactic(auto, unfolding(crate::specs::StmtRules::block_stmt, crate::specs::Rules::findings))]
    fn fault(&self, alloc: Global) -> Found {
        within!(self, alloc; stmts)
    }
}

impl FindsFault for EmptyStmt {
    ghost found = { λ n. findings no_links (empty_stmt n) };

    #[tactic(auto, unfolding(crate::specs::StmtRules::empty_stmt, crate::specs::Rules::findings))]
    fn fault(&self, _alloc: Global) -> Found {
        Ok(None)
    }
}

impl<N: FaultIn> FindsFault for ExprStmt<N> {
    ghost found = { λ n. findings N.found_as (expr_stmt n) };

    #[tactic(auto, unfolding(crate::specs::StmtRules::expr_stmt, crate::specs::Rules::findings))]
    fn fault(&self, alloc: Global) -> Found {
        within!(self, alloc; expr)
    }
}

impl FindsFault for DebuggerStmt {
    ghost found = { λ n. findings no_links (debugger_stmt n) };

    #[tactic(auto, unfolding(crate::specs::StmtRules::debugger_stmt, crate::specs::Rules::findings))]
    fn fault(&self, _alloc: Global) -> Found {
        Ok(None)
    }
}

impl<N: FaultIn> FindsFault for WithStmt<N> {
    ghost found = { λ n. findings N.found_as (with_stmt n) };

    #[tactic(auto, unfolding(crate::specs::StmtRules::with_stmt, crate::specs::Rules::findings))]
    fn fault(&self, alloc: Global) -> Found {
        within!(self, alloc; obj body)
    }
}

impl<N: FaultIn> FindsFault for ReturnStmt<N> {
    ghost found = { λ n. findings N.found_as (return_stmt n) };

    #[tactic(auto, unfolding(crate::specs::StmtRules::return_stmt, crate::specs::Rules::findings))]
    fn fault(&self, alloc: Global) -> Found {
        within!(self, alloc; arg)
    }
}

impl<N: FaultIn> FindsFault for LabeledStmt<N> {
    ghost found = { λ n. findings N.found_as (labeled_stmt n) };

    #[tactic(auto, unfolding(crate::specs::StmtRules::labeled_stmt, crate::specs::Rules::findings))]
    fn fault(&self, alloc: Global) -> Found {
        within!(self, alloc; label body)
    }
}

impl FindsFault for BreakStmt {
    ghost found = { λ n. findings no_links (break_stmt n) };

    #[tactic(auto, unfolding(crate::specs::StmtRules::break_stmt, crate::specs::Rules::findings))]
    fn fault(&self, alloc: Global) -> Found {
        within!(self, alloc; label)
    }
}

impl FindsFault for ContinueStmt {
    ghost found = { λ n. findings no_links (continue_stmt n) };

    #[tactic(auto, unfolding(crate::specs::StmtRules::continue_stmt, crate::specs::Rules::findings))]
    fn fault(&self, alloc: Global) -> Found {
        within!(self, alloc; label)
    }
}

impl<N: FaultIn> FindsFault for IfStmt<N> {
    ghost found = { λ n. findings N.found_as (if_stmt n) };

    #[tactic(auto, unfolding(crate::specs::StmtRules::if_stmt, crate::specs::Rules::findings))]
    fn fault(&self, alloc: Global) -> Found {
        within!(self, alloc; test cons alt)
    }
}

impl<N: FaultIn> FindsFault for SwitchCase<N> {
    ghost found = { λ n. findings N.found_as (switch_case n) };

    #[tactic(auto, unfolding(crate::specs::StmtRules::switch_case, crate::specs::Rules::findings))]
    fn fault(&self, alloc: Global) -> Found {
        within!(self, alloc; test cons)
    }
}

impl<N: FaultIn> FindsFault for SwitchStmt<N> {
    ghost found = { λ n. findings N.found_as (switch_stmt n) };

    #[tactic(auto, unfolding(crate::specs::StmtRules::switch_stmt, crate::specs::Rules::findings))]
    fn fault(&self, alloc: Global) -> Found {
        within!(self, alloc; discriminant cases)
    }
}

impl<N: FaultIn> FindsFault for ThrowStmt<N> {
    ghost found = { λ n. findings N.found_as (throw_stmt n) };

    #[tactic(auto, unfolding(crate::specs::StmtRules::throw_stmt, crate::specs::Rules::findings))]
    fn fault(&self, alloc: Global) -> Found {
        within!(self, alloc; arg)
    }
}

impl<N: FaultIn> FindsFault for CatchClause<N> {
    ghost found = { λ n. findings N.found_as (catch_clause n) };

    #[tactic(auto, unfolding(crate::specs::StmtRules::catch_clause, crate::specs::Rules::findings))]
    fn fault(&self, alloc: Global) -> Found {
        within!(self, alloc; param body)
    }
}

impl<N: FaultIn> FindsFault for TryStmt<N> {
    ghost found = { λ n. findings N.found_as (try_stmt n) };

    #[tactic(auto, unfolding(crate::specs::StmtRules::try_stmt, crate::specs::Rules::findings))]
    fn fault(&self, alloc: Global) -> Found {
        within!(self, alloc; block handler finalizer)
    }
}

impl<N: FaultIn> FindsFault for WhileStmt<N> {
    ghost found = { λ n. findings N.found_as (while_stmt n) };

    #[tactic(auto, unfolding(crate::specs::StmtRules::while_stmt, crate::specs::Rules::findings))]
    fn fault(&self, alloc: Global) -> Found {
        within!(self, alloc; test body)
    }
}

impl<N: FaultIn> FindsFault for DoWhileStmt<N> {
    ghost found = { λ n. findings N.found_as (do_while_stmt n) };

    #[tactic(auto, unfolding(crate::specs::StmtRules::do_while_stmt, crate::specs::Rules::findings))]
    fn fault(&self, alloc: Global) -> Found {
        within!(self, alloc; body test)
    }
}

impl<N: FaultIn> FindsFault for VarDeclOrExpr<N> {
    ghost found = { λ n. findings N.found_as (var_decl_or_expr n) };

    #[tactic(auto, unfolding(crate::specs::StmtRules::var_decl_or_expr, crate::specs::Rules::findings))]
    fn fault(&self, alloc: Global) -> Found {
        match self {
            VarDeclOrExpr::VarDecl(node) => node.fault(alloc),
            VarDeclOrExpr::Expr(node) => node.fault(alloc),
        }
    }
}

impl<N: FaultIn> FindsFault for ForStmt<N> {
    ghost found = { λ n. findings N.found_as (for_stmt n) };

    #[tactic(auto, unfolding(crate::specs::StmtRules::for_stmt, crate::specs::Rules::findings))]
    fn fault(&self, alloc: Global) -> Found {
        within!(self, alloc; init test update body)
    }
}

impl<N: FaultIn> FindsFault for ForHead<N> {
    ghost found = { λ n. findings N.found_as (for_head n) };

    #[tactic(auto, unfolding(crate::specs::StmtRules::for_head, crate::specs::Rules::findings))]
    fn fault(&self, alloc: Global) -> Found {
        match self {
            ForHead::VarDecl(node) => node.fault(alloc),
            ForHead::UsingDecl(node) => node.fault(alloc),
            ForHead::Pat(node) => node.fault(alloc),
        }
    }
}

impl<N: FaultIn> FindsFault for ForInStmt<N> {
    ghost found = { λ n. findings N.found_as (for_in_stmt n) };

    #[tactic(auto, unfolding(crate::specs::StmtRules::for_in_stmt, crate::specs::Rules::findings))]
    fn fault(&self, alloc: Global) -> Found {
        within!(self, alloc; left right body)
    }
}

impl<N: FaultIn> FindsFault for ForOfStmt<N> {
    ghost found = { λ n. findings N.found_as (for_of_stmt n) };

    #[tactic(auto, unfolding(crate::specs::StmtRules::for_of_stmt, crate::specs::Rules::findings))]
    fn fault(&self, alloc: Global) -> Found {
        within!(self, alloc; left right body)
    }
}

impl<N: FaultIn> FindsFault for Stmt<N> {
    ghost found = { λ n. findings N.found_as (stmt n) };

    #[tactic(auto, unfolding(crate::specs::StmtRules::stmt, crate::specs::Rules::findings))]
    fn fault(&self, alloc: Global) -> Found {
        match self {
            Stmt::Block(node) => node.fault(alloc),
            Stmt::Empty(node) => node.fault(alloc),
            Stmt::Debugger(node) => node.fault(alloc),
            Stmt::With(node) => node.fault(alloc),
            Stmt::Return(node) => node.fault(alloc),
            Stmt::Labeled(node) => node.fault(alloc),
            Stmt::Break(node) => node.fault(alloc),
            Stmt::Continue(node) => node.fault(alloc),
            Stmt::If(node) => node.fault(alloc),
            Stmt::Switch(node) => node.fault(alloc),
            Stmt::Throw(node) => node.fault(alloc),
            Stmt::Try(node) => node.fault(alloc),
            Stmt::While(node) => node.fault(alloc),
            Stmt::DoWhile(node) => node.fault(alloc),
            Stmt::For(node) => node.fault(alloc),
            Stmt::ForIn(node) => node.fault(alloc),
            Stmt::ForOf(node) => node.fault(alloc),
            Stmt::Decl(node) => node.fault(alloc),
            Stmt::Expr(node) => node.fault(alloc),
        }
    }
}

impl<N: FaultIn> FindsFault for Script<N> {
    ghost found = { λ n. findings N.found_as (script n) };

    #[tactic(auto, unfolding(crate::specs::StmtRules::script, crate::specs::Rules::findings))]
    fn fault(&self, alloc: Global) -> Found {
        in_turn! {
            broken_unless(alloc, is_shebang(&self.shebang), "a hashbang has several lines"),
            under(alloc, "body", &self.body),
        }
    }
}

impl<N: FaultIn> FindsFault for Program<N> {
    ghost found = { λ n. findings N.found_as (program n) };

    #[tactic(auto, unfolding(crate::specs::StmtRules::program, crate::specs::Rules::findings))]
    fn fault(&self, alloc: Global) -> Found {
        match self {
            Program::Module(node) => node.fault(alloc),
            Program::Script(node) => node.fault(alloc),
        }
    }
}

impl FindsFault for ModuleExportName {
    ghost found = { λ n. findings no_links (module_export_name n) };

    #[tactic(auto, unfolding(crate::specs::StmtRules::module_export_name, crate::specs::Rules::findings))]
    fn fault(&self, alloc: Global) -> Found {
        match self {
            ModuleExportName::Ident(node) => node.fault(alloc),
            ModuleExportName::Str(node) => node.fault(alloc),
        }
    }
}

impl FindsFault for ImportNamedSpecifier {
    ghost found = { λ n. findings no_links (import_named_specifier n) };

    #[tactic(auto, unfolding(crate::specs::StmtRules::import_named_specifier, crate::specs::Rules::findings))]
    fn fault(&self, alloc: Global) -> Found {
        within!(self, alloc; imported local)
    }
}

impl FindsFault for ImportSpecifier {
    ghost found = { λ n. findings no_links (import_specifier n) };

    #[tactic(auto, unfolding(crate::specs::StmtRules::import_specifier, crate::specs::Rules::findings))]
    fn fault(&self, alloc: Global) -> Found {
        match self {
            ImportSpecifier::Named(node) => node.fault(alloc),
            ImportSpecifier::Default(node) => within!(node, alloc; local),
            ImportSpecifier::Namespace(node) => within!(node, alloc; local),
        }
    }
}

impl<N: FaultIn> FindsFault for ImportDecl<N> {
    ghost found = { λ n. findings N.found_as (import_decl n) };

    #[tactic(auto, unfolding(crate::specs::StmtRules::import_decl, crate::specs::Rules::findings))]
    fn fault(&self, alloc: Global) -> Found {
        in_turn! {
            broken_unless(alloc, are_imports_in_order(&self.specifiers), "what is imported stands in an order that no import has"),
            under(alloc, "specifiers", &self.specifiers),
            under(alloc, "src", &self.src),
            under(alloc, "with", &self.with),
        }
    }
}

impl FindsFault for ExportNamedSpecifier {
    ghost found = { λ n. findings no_links (export_named_specifier n) };

    #[tactic(auto, unfolding(crate::specs::StmtRules::export_named_specifier, crate::specs::Rules::findings))]
    fn fault(&self, alloc: Global) -> Found {
        within!(self, alloc; orig exported)
    }
}

impl FindsFault for ExportSpecifier {
    ghost found = { λ n. findings no_links (export_specifier n) };

    #[tactic(auto, unfolding(crate::specs::StmtRules::export_specifier, crate::specs::Rules::findings))]
    fn fault(&self, alloc: Global) -> Found {
        match self {
            ExportSpecifier::Namespace(node) => within!(node, alloc; name),
            ExportSpecifier::Default(_) => not_here(alloc),
            ExportSpecifier::Named(node) => node.fault(alloc),
        }
    }
}

impl<N: FaultIn> FindsFault for NamedExport<N> {
    ghost found = { λ n. findings N.found_as (named_export n) };

    #[tactic(auto, unfolding(crate::specs::StmtRules::named_export, crate::specs::Rules::findings))]
    fn fault(&self, alloc: Global) -> Found {
        in_turn! {
            broken_unless(alloc, stands_with(&self.src, &self.with), "an export from no module has attributes"),
            broken_unless(alloc, are_exports_in_order(&self.specifiers), "what is exported stands in an order that no export has"),
            under(alloc, "specifiers", &self.specifiers),
            under(alloc, "src", &self.src),
            under(alloc, "with", &self.with),
        }
    }
}

impl<N: FaultIn> FindsFault for ExportAll<N> {
    ghost found = { λ n. findings N.found_as (export_all n) };

    #[tactic(auto, unfolding(crate::specs::StmtRules::export_all, crate::specs::Rules::findings))]
    fn fault(&self, alloc: Global) -> Found {
        within!(self, alloc; src with)
    }
}

impl<N: FaultIn> FindsFault for ExportDecl<N> {
    ghost found = { λ n. findings N.found_as (export_decl n) };

    #[tactic(auto, unfolding(crate::specs::StmtRules::export_decl, crate::specs::Rules::findings))]
    fn fault(&self, alloc: Global) -> Found {
        in_turn! {
            under_as(alloc, "decl", &self.decl, Role::ExportedHead),
            under_as(alloc, "decl", &self.decl, Role::ExportedTail),
        }
    }
}

impl<N: FaultIn> FindsFault for DefaultDecl<N> {
    ghost found = { λ n. findings N.found_as (default_decl n) };

    #[tactic(auto, unfolding(crate::specs::StmtRules::default_decl, crate::specs::Rules::findings))]
    fn fault(&self, alloc: Global) -> Found {
        match self {
            DefaultDecl::Class(node) => node.fault(alloc),
            DefaultDecl::Fn(node) => node.fault(alloc),
            DefaultDecl::TsInterfaceDecl(node) => node.fault(alloc),
        }
    }
}

impl<N: FaultIn> FindsFault for ExportDefaultDecl<N> {
    ghost found = { λ n. findings N.found_as (export_default_decl n) };

    #[tactic(auto, unfolding(crate::specs::StmtRules::export_default_decl, crate::specs::Rules::findings))]
    fn fault(&self, alloc: Global) -> Found {
        within!(self, alloc; decl)
    }
}

impl<N: FaultIn> FindsFault for ExportDefaultExpr<N> {
    ghost found = { λ n. findings N.found_as (export_default_expr n) };

    #[tactic(auto, unfolding(crate::specs::StmtRules::export_default_expr, crate::specs::Rules::findings))]
    fn fault(&self, alloc: Global) -> Found {
        within!(self, alloc; expr)
    }
}

impl<N: FaultIn> FindsFault for ModuleDecl<N> {
    ghost found = { λ n. findings N.found_as (module_decl n) };

    #[tactic(auto, unfolding(crate::specs::StmtRules::module_decl, crate::specs::Rules::findings))]
    fn fault(&self, alloc: Global) -> Found {
        match self {
            ModuleDecl::Import(node) => node.fault(alloc),
            ModuleDecl::ExportDecl(node) => node.fault(alloc),
            ModuleDecl::ExportNamed(node) => node.fault(alloc),
            ModuleDecl::ExportDefaultDecl(node) => node.fault(alloc),
            ModuleDecl::ExportDefaultExpr(node) => node.fault(alloc),
            ModuleDecl::ExportAll(node) => node.fault(alloc),
            ModuleDecl::TsImportEquals(node) => node.fault(alloc),
            ModuleDecl::TsExportAssignment(node) => node.fault(alloc),
            ModuleDecl::TsNamespaceExport(node) => node.fault(alloc),
        }
    }
}

impl<N: FaultIn> FindsFault for ModuleItem<N> {
    ghost found = { λ n. findings N.found_as (module_item n) };

    #[tactic(auto, unfolding(crate::specs::StmtRules::module_item, crate::specs::Rules::findings))]
    fn fault(&self, alloc: Global) -> Found {
        match self {
            ModuleItem::ModuleDecl(node) => node.fault(alloc),
            ModuleItem::Stmt(node) => node.fault(alloc),
        }
    }
}

impl<N: FaultIn> FindsFault for Module<N> {
    ghost found = { λ n. findings N.found_as (whole_module n) };

    #[tactic(auto, unfolding(crate::specs::StmtRules::whole_module, crate::specs::Rules::findings))]
    fn fault(&self, alloc: Global) -> Found {
        in_turn! {
            broken_unless(alloc, is_shebang(&self.shebang), "a hashbang has several lines"),
            under(alloc, "body", &self.body),
        }
    }
}

/// What is wrong with what of a declaration stands before `export`.
#[tactic(auto, unfolding(crate::specs::DeclRules::exported_head, crate::specs::Rules::findings))]
pub(crate) fn exported_head_fault<N: FaultIn>(alloc: Global, node: &Decl<N>) -> Found
    ensures { IfOk result (Finds (findings N.found_as (exported_head node.now))) }
{
    match node {
        Decl::Class(node) => under_as(alloc, "class", &node.class, Role::ClassHead),
        _ => Ok(None),
    }
}

/// What is wrong with what stands after it.
#[tactic(auto, unfolding(crate::specs::DeclRules::exported_tail, crate::specs::Rules::findings))]
pub(crate) fn exported_tail_fault<N: FaultIn>(alloc: Global, node: &Decl<N>) -> Found
    ensures { IfOk result (Finds (findings N.found_as (exported_tail node.now))) }
{
    match node {
        Decl::Class(node) => in_turn! {
            under(alloc, "ident", &node.ident),
            under_as(alloc, "class", &node.class, Role::ClassTail),
        },
        _ => node.fault(alloc),
    }
}

/// Whether a default name stands first at most, and then all as a namespace, or names in braces.
#[tactic(auto, unfolding(crate::specs::StmtRules::are_imports_in_order))]
fn are_imports_in_order(specifiers: &[ImportSpecifier]) -> bool
    ensures { result ≡ are_imports_in_order specifiers.now }
{
    match specifiers {
        [ImportSpecifier::Default(_), others @ ..] => are_bindings(others),
        _ => are_bindings(specifiers),
    }
}

/// Whether they stand as a namespace, or as names in braces.
#[tactic(auto, unfolding(crate::specs::StmtRules::are_bindings))]
fn are_bindings(specifiers: &[ImportSpecifier]) -> bool
    ensures { result ≡ are_bindings specifiers.now }
{
    match specifiers {
        [ImportSpecifier::Namespace(_)] => true,
        _ => are_named(specifiers),
    }
}

/// Whether it stands in braces.
#[tactic(auto, unfolding(crate::specs::StmtRules::is_named))]
fn is_named(specifier: &ImportSpecifier) -> bool
    ensures { result ≡ is_named specifier.now }
{
    matches!(specifier, ImportSpecifier::Named(_))
}

/// Whether all of these stand in braces.
#[tactic(auto, unfolding(crate::specs::StmtRules::are_named))]
fn are_named(specifiers: &[ImportSpecifier]) -> bool
    ensures { result ≡ are_named specifiers.now }
{
    for specifier in specifiers {
        if !is_named(specifier) {
            return false;
        }
    }
    true
}

/// Whether a namespace stands first at most.
#[tactic(auto, unfolding(crate::specs::StmtRules::are_exports_in_order))]
fn are_exports_in_order(specifiers: &[ExportSpecifier]) -> bool
    ensures { result ≡ are_exports_in_order specifiers.now }
{
    match specifiers {
        [ExportSpecifier::Namespace(_), others @ ..] => has_no_namespace(others),
        _ => has_no_namespace(specifiers),
    }
}

/// Whether it is a namespace.
#[tactic(auto, unfolding(crate::specs::StmtRules::is_namespace))]
fn is_namespace(specifier: &ExportSpecifier) -> bool
    ensures { result ≡ is_namespace specifier.now }
{
    matches!(specifier, ExportSpecifier::Namespace(_))
}

/// Whether none of these is a namespace.
#[tactic(auto, unfolding(crate::specs::StmtRules::has_no_namespace))]
fn has_no_namespace(specifiers: &[ExportSpecifier]) -> bool
    ensures { result ≡ has_no_namespace specifiers.now }
{
    for specifier in specifiers {
        if is_namespace(specifier) {
            return false;
        }
    }
    true
}
