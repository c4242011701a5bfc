//! Imports and exports.

ghost use Rattle.std.specs.Prelude.{◌≡◌};
ghost use Rattle.swc_ecma_codegen_syntax.specs.Forms.{judge};
ghost use Rattle.swc_ecma_codegen_syntax.specs.ModuleForms.{is_plain, is_export_name, is_optional_name, is_bound, local_of, is_plain_import, are_bound, are_plain_imports, attributes_form, import_form, is_declared_name, is_declared, are_declared, is_named, are_named, is_namespace, begins_namespace, are_reexported, are_exported, is_plain_name, is_plain_export, are_plain_exports, from_form, export_named_form, export_all_form, exported_head_form, exported_tail_form, export_decl_form, export_default_form, module_decl_form, default_form, default_decl_form};

use crate::calls::is_evaluation;
use crate::classes::class_rest;
use crate::forms::{Answers, Stands};
use crate::functions::fn_default;
use crate::lookahead::Lookahead;
use crate::names::{has_no_escape, is_assignable, is_free};
use crate::nonterminals::Nonterminal;
use crate::parameters::{Parameters, with_in};
use crate::verdicts::{Shape, Verdict};
use swc_ecma_codegen_grammar::roles::Role;
use swc_ecma_codegen_tree::{
    Decl, DefaultDecl, ExportAll, ExportDecl, ExportDefaultDecl, ExportDefaultExpr,
    ExportSpecifier, Ident, ImportDecl, ImportSpecifier, ModuleDecl, ModuleExportName, NamedExport,
    ObjectLitBox, Str,
};

/// Whether a name has neither an escape nor a `?` behind it.
#[tactic(auto, unfolding(crate::specs::ModuleForms::is_plain))]
fn is_plain(name: &Ident) -> bool
    ensures { result ≡ is_plain name.now }
{
    has_no_escape(&name.sym) && !name.optional
}

/// Whether it may stand among what is exported.
#[tactic(auto, unfolding(crate::specs::ModuleForms::is_export_name))]
fn is_export_name(name: &ModuleExportName) -> bool
    ensures { result ≡ is_export_name name.now }
{
    match name {
        ModuleExportName::Ident(name) => !name.optional,
        ModuleExportName::Str(_) => true,
    }
}

/// Whether a name may stand among what is exported, where there is one.
#[tactic(auto, unfolding(crate::specs::ModuleForms::is_optional_name))]
fn is_optional_name(name: &Option<ModuleExportName>) -> bool
    ensures { result ≡ is_optional_name name.now }
{
    match name {
        Some(name) => is_export_name(name),
        None => true,
    }
}

/// Whether a name may be bound.
#[tactic(auto, unfolding(crate::specs::ModuleForms::is_bound))]
fn is_bound(name: &Ident, parameters: Parameters) -> bool
    ensures { result ≡ is_bound parameters name.now }
{
    is_free(&name.sym, parameters) && is_assignable(&name.sym, parameters.is_strict)
}

/// What an import binds.
#[tactic(auto, unfolding(crate::specs::ModuleForms::local_of))]
fn local_of(specifier: &ImportSpecifier) -> &Ident
    ensures { result.now ≡ local_of specifier.now }
{
    match specifier {
        ImportSpecifier::Named(node) => &node.local,
        ImportSpecifier::Default(node) => &node.local,
        ImportSpecifier::Namespace(node) => &node.local,
    }
}

/// Whether what is imported has nothing of TypeScript, and its name no escape.
#[tactic(auto, unfolding(crate::specs::ModuleForms::is_plain_import))]
fn is_plain_import(specifier: &ImportSpecifier) -> bool
    ensures { result ≡ is_plain_import specifier.now }
{
    match specifier {
        ImportSpecifier::Named(node) => !node.is_type_only
            && is_plain(&node.local)
            && is_optional_name(&node.imported),
        ImportSpecifier::Default(node) => is_plain(&node.local),
        ImportSpecifier::Namespace(node) => is_plain(&node.local),
    }
}

/// Whether each name may be bound.
#[tactic(auto, unfolding(crate::specs::ModuleForms::are_bound))]
fn are_bound(specifiers: &[ImportSpecifier], parameters: Parameters) -> bool
    ensures { result ≡ are_bound parameters specifiers.now }
{
    for specifier in specifiers {
        if !is_bound(local_of(specifier), parameters) {
            return false;
        }
    }
    true
}

/// Whether each has nothing of TypeScript.
#[tactic(auto, unfolding(crate::specs::ModuleForms::are_plain_imports))]
fn are_plain_imports(specifiers: &[ImportSpecifier]) -> bool
    ensures { result ≡ are_plain_imports specifiers.now }
{
    for specifier in specifiers {
        if !is_plain_import(specifier) {
            return false;
        }
    }
    true
}

/// Import attributes.
#[tactic(auto, unfolding(crate::specs::ModuleForms::attributes_form, crate::specs::Forms::judge, crate::specs::Forms::asked))]
fn attributes<N: Answers>(
    so_far: Verdict,
    attributes: &Option<ObjectLitBox<N>>,
    parameters: Parameters,
) -> Verdict
    ensures { result ≡ judge N.answers so_far (attributes_form parameters attributes.now) }
{
    match attributes {
        Some(link) => so_far.by_core(false).shaped(
            link,
            Shape::Attribute,
            Nonterminal::PrimaryExpression,
            with_in(parameters),
            Role::ObjectLiteral,
        ),
        None => so_far,
    }
}

impl<N: Answers> Stands for ImportDecl<N> {
    ghost judged = { λ c n v. judge N.answers v (import_form c n) };

    #[tactic(auto, unfolding(crate::specs::ModuleForms::import_form, crate::specs::Forms::judge, crate::specs::Forms::asked))]
    fn judge(&self, so_far: Verdict, parameters: Parameters) -> Verdict {
        let is_covered = !self.type_only
            && is_evaluation(self.phase)
            && are_plain_imports(&self.specifiers);
        let verdict = so_far
            .by_scope(is_covered)
            .by_rule(are_bound(&self.specifiers, parameters));
        attributes(verdict, &self.with, parameters)
    }
}

/// Whether a name is one that a module may declare.
#[tactic(auto, unfolding(crate::specs::ModuleForms::is_declared_name))]
fn is_declared_name(name: &ModuleExportName, parameters: Parameters) -> bool
    ensures { result ≡ is_declared_name parameters name.now }
{
    match name {
        ModuleExportName::Ident(name) => is_free(&name.sym, parameters),
        ModuleExportName::Str(_) => false,
    }
}

/// Whether what is exported is one.
#[tactic(auto, unfolding(crate::specs::ModuleForms::is_declared))]
fn is_declared(specifier: &ExportSpecifier, parameters: Parameters) -> bool
    ensures { result ≡ is_declared parameters specifier.now }
{
    match specifier {
        ExportSpecifier::Named(node) => is_declared_name(&node.orig, parameters),
        ExportSpecifier::Namespace(_) | ExportSpecifier::Default(_) => false,
    }
}

/// Whether each is one.
#[tactic(auto, unfolding(crate::specs::ModuleForms::are_declared))]
fn are_declared(specifiers: &[ExportSpecifier], parameters: Parameters) -> bool
    ensures { result ≡ are_declared parameters specifiers.now }
{
    for specifier in specifiers {
        if !is_declared(specifier, parameters) {
            return false;
        }
    }
    true
}

/// Whether it stands in braces.
#[tactic(auto, unfolding(crate::specs::ModuleForms::is_named))]
fn is_named(specifier: &ExportSpecifier) -> bool
    ensures { result ≡ is_named specifier.now }
{
    matches!(specifier, ExportSpecifier::Named(_))
}

/// Whether each stands in braces.
#[tactic(auto, unfolding(crate::specs::ModuleForms::are_named))]
fn are_named(specifiers: &[ExportSpecifier]) -> bool
    ensures { result ≡ are_named specifiers.now }
{
    for specifier in specifiers {
        if !is_named(specifier) {
            return false;
        }
    }
    true
}

/// Whether it is `* as a`.
#[tactic(auto, unfolding(crate::specs::ModuleForms::is_namespace))]
fn is_namespace(specifier: &ExportSpecifier) -> bool
    ensures { result ≡ is_namespace specifier.now }
{
    matches!(specifier, ExportSpecifier::Namespace(_))
}

/// Whether the first is one.
#[tactic(auto, unfolding(crate::specs::ModuleForms::begins_namespace))]
fn begins_namespace(specifiers: &[ExportSpecifier]) -> bool
    ensures { result ≡ begins_namespace specifiers.now }
{
    match specifiers.first() {
        Some(specifier) => is_namespace(specifier),
        None => false,
    }
}

/// Whether they may stand before `from`.
#[tactic(auto, unfolding(crate::specs::ModuleForms::are_reexported))]
fn are_reexported(specifiers: &[ExportSpecifier]) -> bool
    ensures { result ≡ are_reexported specifiers.now }
{
    (specifiers.len() == 1 && begins_namespace(specifiers)) || are_named(specifiers)
}

/// Whether they may be exported so.
#[tactic(auto, unfolding(crate::specs::ModuleForms::are_exported))]
fn are_exported(from: &Option<Str>, specifiers: &[ExportSpecifier], parameters: Parameters) -> bool
    ensures { result ≡ are_exported parameters from.now specifiers.now }
{
    match from {
        Some(_) => are_reexported(specifiers),
        None => are_declared(specifiers, parameters),
    }
}

/// Whether a name that is exported has no escape.
#[tactic(auto, unfolding(crate::specs::ModuleForms::is_plain_name))]
fn is_plain_name(name: &ModuleExportName) -> bool
    ensures { result ≡ is_plain_name name.now }
{
    match name {
        ModuleExportName::Ident(name) => is_plain(name),
        ModuleExportName::Str(_) => true,
    }
}

/// Whether what is exported has nothing of TypeScript, and its name no escape.
#[tactic(auto, unfolding(crate::specs::ModuleForms::is_plain_export))]
fn is_plain_export(specifier: &ExportSpecifier) -> bool
    ensures { result ≡ is_plain_export specifier.now }
{
    match specifier {
        ExportSpecifier::Named(node) => !node.is_type_only
            && is_plain_name(&node.orig)
            && is_optional_name(&node.exported),
        ExportSpecifier::Namespace(node) => is_export_name(&node.name),
        ExportSpecifier::Default(_) => true,
    }
}

/// Whether each has nothing of TypeScript.
#[tactic(auto, unfolding(crate::specs::ModuleForms::are_plain_exports))]
fn are_plain_exports(specifiers: &[ExportSpecifier]) -> bool
    ensures { result ≡ are_plain_exports specifiers.now }
{
    for specifier in specifiers {
        if !is_plain_export(specifier) {
            return false;
        }
    }
    true
}

/// `from 'a'`, where it is so.
#[tactic(auto, unfolding(crate::specs::ModuleForms::from_form, crate::specs::Forms::judge))]
fn from<N: Answers>(
    so_far: Verdict,
    with: &Option<ObjectLitBox<N>>,
    from: &Option<Str>,
    parameters: Parameters,
) -> Verdict
    ensures { result ≡ judge N.answers so_far (from_form parameters with.now from.now) }
{
    match (from, with) {
        (Some(_), _) => attributes(so_far, with, parameters),
        (None, Some(_)) => so_far,
        (None, None) => so_far,
    }
}

impl<N: Answers> Stands for NamedExport<N> {
    ghost judged = { λ c n v. judge N.answers v (export_named_form c n) };

    #[tactic(auto, unfolding(crate::specs::ModuleForms::export_named_form, crate::specs::Forms::judge, crate::specs::Forms::asked))]
    fn judge(&self, so_far: Verdict, parameters: Parameters) -> Verdict {
        let verdict = so_far
            .by_scope(!self.type_only && are_plain_exports(&self.specifiers))
            .by_rule(are_exported(&self.src, &self.specifiers, parameters));
        from(verdict, &self.with, &self.src, parameters)
    }
}

impl<N: Answers> Stands for ExportAll<N> {
    ghost judged = { λ c n v. judge N.answers v (export_all_form c n) };

    #[tactic(auto, unfolding(crate::specs::ModuleForms::export_all_form, crate::specs::Forms::judge, crate::specs::Forms::asked))]
    fn judge(&self, so_far: Verdict, parameters: Parameters) -> Verdict {
        attributes(so_far.by_scope(!self.type_only), &self.with, parameters)
    }
}

/// What of a declaration stands before `export`.
#[tactic(auto, unfolding(crate::specs::ModuleForms::exported_head_form, crate::specs::Forms::judge, crate::specs::Forms::asked))]
pub(crate) fn exported_head<N: Answers>(
    so_far: Verdict,
    decl: &Decl<N>,
    parameters: Parameters,
) -> Verdict
    ensures { result ≡ judge N.answers so_far (exported_head_form parameters decl.now) }
{
    match decl {
        Decl::Class(node) => so_far.part(
            &node.class,
            Nonterminal::DecoratorList,
            parameters,
            Role::ClassHead,
        ),
        _ => so_far,
    }
}

/// What of it stands behind `export`: no `using` does.
#[tactic(auto, unfolding(crate::specs::ModuleForms::exported_tail_form, crate::specs::Forms::judge, crate::specs::Forms::asked))]
pub(crate) fn exported_tail<N: Answers>(
    so_far: Verdict,
    decl: &Decl<N>,
    parameters: Parameters,
) -> Verdict
    ensures { result ≡ judge N.answers so_far (exported_tail_form parameters decl.now) }
{
    match decl {
        Decl::Class(node) => class_rest(so_far, node, parameters),
        Decl::Using(_) => so_far.by_rule(false),
        _ => decl.judge(so_far, parameters),
    }
}

impl<N: Answers> Stands for ExportDecl<N> {
    ghost judged = { λ c n v. judge N.answers v (export_decl_form c n) };

    #[tactic(auto, unfolding(crate::specs::ModuleForms::export_decl_form, crate::specs::Forms::judge))]
    fn judge(&self, so_far: Verdict, parameters: Parameters) -> Verdict {
        so_far
            .part(
                &self.decl,
                Nonterminal::ExportedHead,
                parameters,
                Role::ExportedHead,
            )
            .part(
                &self.decl,
                Nonterminal::StatementListItem,
                parameters,
                Role::ExportedTail,
            )
    }
}

impl<N: Answers> Stands for ExportDefaultExpr<N> {
    ghost judged = { λ c n v. judge N.answers v (export_default_form c n) };

    #[tactic(auto, unfolding(crate::specs::ModuleForms::export_default_form, crate::specs::Forms::judge))]
    fn judge(&self, so_far: Verdict, parameters: Parameters) -> Verdict {
        so_far.restricted_expr(
            &self.expr,
            Lookahead::DefaultStart,
            Nonterminal::AssignmentExpression,
            with_in(parameters),
        )
    }
}

impl<N: Answers> Stands for DefaultDecl<N> {
    ghost judged = { λ c n v. judge N.answers v (default_form c n) };

    #[tactic(auto, unfolding(crate::specs::ModuleForms::default_form, crate::specs::Forms::judge, crate::specs::Forms::asked))]
    fn judge(&self, so_far: Verdict, parameters: Parameters) -> Verdict {
        match self {
            DefaultDecl::Class(node) => node.judge(so_far, parameters),
            DefaultDecl::Fn(node) => fn_default(so_far, node, parameters),
            DefaultDecl::TsInterfaceDecl(_) => so_far.by_scope(false),
        }
    }
}

impl<N: Answers> Stands for ExportDefaultDecl<N> {
    ghost judged = { λ c n v. judge N.answers v (default_decl_form c n) };

    #[tactic(auto, unfolding(crate::specs::ModuleForms::default_decl_form, crate::specs::Forms::judge))]
    fn judge(&self, so_far: Verdict, parameters: Parameters) -> Verdict {
        self.decl.judge(so_far, parameters)
    }
}

impl<N: Answers> Stands for ModuleDecl<N> {
    ghost judged = { λ c n v. judge N.answers v (module_decl_form c n) };

    #[tactic(auto, unfolding(crate::specs::ModuleForms::module_decl_form, crate::specs::Forms::judge, crate::specs::Forms::asked))]
    fn judge(&self, so_far: Verdict, parameters: Parameters) -> Verdict {
        match self {
            ModuleDecl::Import(node) => node.judge(so_far, parameters),
            ModuleDecl::ExportDecl(node) => node.judge(so_far, parameters),
            ModuleDecl::ExportNamed(node) => node.judge(so_far, parameters),
            ModuleDecl::ExportDefaultDecl(node) => node.judge(so_far, parameters),
            ModuleDecl::ExportDefaultExpr(node) => node.judge(so_far, parameters),
            ModuleDecl::ExportAll(node) => node.judge(so_far, parameters),
            _ => so_far.by_scope(false),
        }
    }
}
