//! Modules, imports and exports.

ghost use Rattle.std.specs.Prelude.{◌≡◌};
ghost use Rattle.swc_ecma_codegen_grammar.specs.Phrases.{is_possible};
ghost use Rattle.swc_ecma_codegen_grammar.specs.ModulePhrases.{attributes, module_export_name, imported_as, import_named, import_specifier, import_decl, exported_as, export_named_specifier, export_specifier, from_clause, export_named, export_all, exported_head, exported_tail, export_decl, default_decl, export_default_decl, export_default_expr, module_decl};
ghost use Rattle.swc_ecma_codegen_grammar.specs.StmtPhrases.{module_item, whole_module};
ghost use Rattle.swc_ecma_codegen_validate.specs.ModuleForms.{bindings_fit, others_fit, imports_fit, exports_fit};

use crate::forms::{Fits, WellFormed, all_well_formed};
use crate::stmts::is_shebang;
use swc_ecma_codegen_grammar::roles::Role;
use swc_ecma_codegen_tree::{
    Decl, DefaultDecl, ExportAll, ExportDecl, ExportDefaultDecl, ExportDefaultExpr,
    ExportNamedSpecifier, ExportSpecifier, ImportDecl, ImportNamedSpecifier, ImportSpecifier,
    Module, ModuleDecl, ModuleExportName, ModuleItem, NamedExport, ObjectLitBox, Str,
};

impl WellFormed for ModuleExportName {
    ghost phrase = { module_export_name };

    #[tactic(auto, unfolding(swc_ecma_codegen_grammar::specs::ModulePhrases::module_export_name))]
    fn is_well_formed(&self) -> bool {
        match self {
            ModuleExportName::Ident(node) => node.is_well_formed(),
            ModuleExportName::Str(node) => node.is_well_formed(),
        }
    }
}

/// Whether the name that a module gives to what is imported is well-formed, or there is none.
#[tactic(auto, using(crate::proofs::ModulesPossible::imported_as_possible), unfolding(swc_ecma_codegen_grammar::specs::ModulePhrases::imported_as, swc_ecma_codegen_grammar::specs::Phrases::is_possible))]
fn is_imported_as(name: &Option<ModuleExportName>) -> bool
    ensures { result ≡ is_possible (imported_as name.now) }
{
    match name {
        Some(name) => name.is_well_formed(),
        None => true,
    }
}

impl WellFormed for ImportNamedSpecifier {
    ghost phrase = { import_named };

    #[tactic(auto, using(crate::proofs::ModulesPossible::import_named_possible))]
    fn is_well_formed(&self) -> bool {
        is_imported_as(&self.imported) && self.local.is_well_formed()
    }
}

impl WellFormed for ImportSpecifier {
    ghost phrase = { import_specifier };

    #[tactic(auto, unfolding(swc_ecma_codegen_grammar::specs::ModulePhrases::import_specifier, swc_ecma_codegen_grammar::specs::Phrases::is_possible))]
    fn is_well_formed(&self) -> bool {
        match self {
            ImportSpecifier::Named(node) => node.is_well_formed(),
            _ => false,
        }
    }
}

/// Whether what is imported among braces, or as a whole, is well-formed.
#[tactic(auto, unfolding(crate::specs::ModuleForms::bindings_fit))]
fn bindings_fit(specifiers: &[ImportSpecifier]) -> bool
    ensures { result ≡ bindings_fit specifiers.now }
{
    match specifiers {
        [ImportSpecifier::Namespace(node)] => node.local.is_well_formed(),
        _ => all_well_formed(specifiers),
    }
}

/// Whether what stands after the default name is well-formed.
#[tactic(auto, unfolding(crate::specs::ModuleForms::others_fit))]
fn others_fit(specifiers: &[ImportSpecifier]) -> bool
    ensures { result ≡ others_fit specifiers.now }
{
    match specifiers {
        [] => true,
        [_, ..] => bindings_fit(specifiers),
    }
}

/// Whether what is imported is well-formed.
#[tactic(auto, unfolding(crate::specs::ModuleForms::imports_fit))]
fn imports_fit(specifiers: &[ImportSpecifier]) -> bool
    ensures { result ≡ imports_fit specifiers.now }
{
    match specifiers {
        [] => true,
        [ImportSpecifier::Default(node), others @ ..] => {
            node.local.is_well_formed() && others_fit(others)
        }
        _ => bindings_fit(specifiers),
    }
}

/// Whether the attributes of an import or an export are well-formed, or there are none.
#[tactic(auto, unfolding(swc_ecma_codegen_grammar::specs::ModulePhrases::attributes, swc_ecma_codegen_grammar::specs::Phrases::is_possible))]
fn are_attributes<N: Fits>(with: &Option<ObjectLitBox<N>>) -> bool
    ensures { result ≡ is_possible (attributes N.reads with.now) }
{
    match with {
        Some(with) => with.is_well_formed(),
        None => true,
    }
}

impl<N: Fits> WellFormed for ImportDecl<N> {
    ghost phrase = { import_decl N.reads };

    #[tactic(auto, using(crate::proofs::ModulesPossible::import_decl_possible))]
    fn is_well_formed(&self) -> bool {
        imports_fit(&self.specifiers) && self.src.is_well_formed() && are_attributes(&self.with)
    }
}

/// Whether the name that is given to what is exported is well-formed, or there is none.
#[tactic(auto, unfolding(swc_ecma_codegen_grammar::specs::ModulePhrases::exported_as, swc_ecma_codegen_grammar::specs::Phrases::is_possible))]
fn is_exported_as(name: &Option<ModuleExportName>) -> bool
    ensures { result ≡ is_possible (exported_as name.now) }
{
    match name {
        Some(name) => name.is_well_formed(),
        None => true,
    }
}

impl WellFormed for ExportNamedSpecifier {
    ghost phrase = { export_named_specifier };

    #[tactic(auto, using(crate::proofs::ModulesPossible::export_named_specifier_possible))]
    fn is_well_formed(&self) -> bool {
        self.orig.is_well_formed() && is_exported_as(&self.exported)
    }
}

impl WellFormed for ExportSpecifier {
    ghost phrase = { export_specifier };

    #[tactic(auto, unfolding(swc_ecma_codegen_grammar::specs::ModulePhrases::export_specifier, swc_ecma_codegen_grammar::specs::Phrases::is_possible))]
    fn is_well_formed(&self) -> bool {
        match self {
            ExportSpecifier::Named(node) => node.is_well_formed(),
            _ => false,
        }
    }
}

/// Whether what is exported is well-formed.
#[tactic(auto, unfolding(crate::specs::ModuleForms::exports_fit))]
fn exports_fit(specifiers: &[ExportSpecifier]) -> bool
    ensures { result ≡ exports_fit specifiers.now }
{
    match specifiers {
        [ExportSpecifier::Namespace(node)] => node.name.is_well_formed(),
        [ExportSpecifier::Namespace(node), others @ ..] => {
            node.name.is_well_formed() && all_well_formed(others)
        }
        _ => all_well_formed(specifiers),
    }
}

/// Whether the name of another module, with its attributes, is well-formed, or there is none.
#[tactic(auto, using(crate::proofs::ModulesPossible::no_module_possible), unfolding(swc_ecma_codegen_grammar::specs::ModulePhrases::from_clause, swc_ecma_codegen_grammar::specs::Phrases::is_possible))]
fn is_from_clause<N: Fits>(with: &Option<ObjectLitBox<N>>, src: &Option<Str>) -> bool
    ensures { result ≡ is_possible (from_clause N.reads with.now src.now) }
{
    match src {
        Some(src) => src.is_well_formed() && are_attributes(with),
        None => with.is_none(),
    }
}

impl<N: Fits> WellFormed for NamedExport<N> {
    ghost phrase = { export_named N.reads };

    #[tactic(auto, using(crate::proofs::ModulesPossible::export_named_possible))]
    fn is_well_formed(&self) -> bool {
        exports_fit(&self.specifiers) && is_from_clause(&self.with, &self.src)
    }
}

impl<N: Fits> WellFormed for ExportAll<N> {
    ghost phrase = { export_all N.reads };

    #[tactic(auto, using(crate::proofs::ModulesPossible::export_all_possible))]
    fn is_well_formed(&self) -> bool {
        self.src.is_well_formed() && are_attributes(&self.with)
    }
}

/// Whether what of a declaration stands before `export` is well-formed.
#[tactic(auto, unfolding(swc_ecma_codegen_grammar::specs::ModulePhrases::exported_head, swc_ecma_codegen_grammar::specs::Phrases::is_possible))]
pub(crate) fn is_exported_head<N: Fits>(node: &Decl<N>) -> bool
    ensures { result ≡ is_possible (exported_head N.reads node.now) }
{
    match node {
        Decl::Class(node) => node.class.target().fits(Role::ClassHead),
        _ => true,
    }
}

/// Whether what stands after it is well-formed.
#[tactic(auto, using(crate::proofs::ModulesPossible::exported_class_possible), unfolding(swc_ecma_codegen_grammar::specs::ModulePhrases::exported_tail))]
pub(crate) fn is_exported_tail<N: Fits>(node: &Decl<N>) -> bool
    ensures { result ≡ is_possible (exported_tail N.reads node.now) }
{
    match node {
        Decl::Class(class) => {
            class.class.target().fits(Role::ClassWord)
                && class.ident.is_well_formed()
                && class.class.target().fits(Role::ClassTail)
        }
        _ => node.is_well_formed(),
    }
}

impl<N: Fits> WellFormed for ExportDecl<N> {
    ghost phrase = { export_decl N.reads };

    #[tactic(auto, unfolding(swc_ecma_codegen_grammar::specs::ModulePhrases::export_decl, swc_ecma_codegen_grammar::specs::Phrases::is_possible))]
    fn is_well_formed(&self) -> bool {
        self.decl.target().fits(Role::ExportedHead) && self.decl.target().fits(Role::ExportedTail)
    }
}

impl<N: Fits> WellFormed for DefaultDecl<N> {
    ghost phrase = { default_decl N.reads };

    #[tactic(auto, unfolding(swc_ecma_codegen_grammar::specs::ModulePhrases::default_decl, swc_ecma_codegen_grammar::specs::Phrases::is_possible))]
    fn is_well_formed(&self) -> bool {
        match self {
            DefaultDecl::Class(node) => node.is_well_formed(),
            DefaultDecl::Fn(node) => node.is_well_formed(),
            DefaultDecl::TsInterfaceDecl(node) => node.is_well_formed(),
        }
    }
}

impl<N: Fits> WellFormed for ExportDefaultDecl<N> {
    ghost phrase = { export_default_decl N.reads };

    #[tactic(auto, unfolding(swc_ecma_codegen_grammar::specs::ModulePhrases::export_default_decl, swc_ecma_codegen_grammar::specs::Phrases::is_possible))]
    fn is_well_formed(&self) -> bool {
        self.decl.is_well_formed()
    }
}

impl<N: Fits> WellFormed for ExportDefaultExpr<N> {
    ghost phrase = { export_default_expr N.reads };

    #[tactic(auto, unfolding(swc_ecma_codegen_grammar::specs::ModulePhrases::export_default_expr, swc_ecma_codegen_grammar::specs::Phrases::is_possible))]
    fn is_well_formed(&self) -> bool {
        self.expr.is_well_formed()
    }
}

impl<N: Fits> WellFormed for ModuleDecl<N> {
    ghost phrase = { module_decl N.reads };

    #[tactic(auto, unfolding(swc_ecma_codegen_grammar::specs::ModulePhrases::module_decl, swc_ecma_codegen_grammar::specs::Phrases::is_possible))]
    fn is_well_formed(&self) -> bool {
        match self {
            ModuleDecl::Import(node) => node.is_well_formed(),
            ModuleDecl::ExportDecl(node) => node.is_well_formed(),
            ModuleDecl::ExportNamed(node) => node.is_well_formed(),
            ModuleDecl::ExportDefaultDecl(node) => node.is_well_formed(),
            ModuleDecl::ExportDefaultExpr(node) => node.is_well_formed(),
            ModuleDecl::ExportAll(node) => node.is_well_formed(),
            ModuleDecl::TsImportEquals(node) => node.is_well_formed(),
            ModuleDecl::TsExportAssignment(node) => node.is_well_formed(),
            ModuleDecl::TsNamespaceExport(node) => node.is_well_formed(),
        }
    }
}

impl<N: Fits> WellFormed for ModuleItem<N> {
    ghost phrase = { module_item N.reads };

    #[tactic(auto, unfolding(swc_ecma_codegen_grammar::specs::StmtPhrases::module_item))]
    fn is_well_formed(&self) -> bool {
        match self {
            ModuleItem::ModuleDecl(node) => node.is_well_formed(),
            ModuleItem::Stmt(node) => node.is_well_formed(),
        }
    }
}

impl<N: Fits> WellFormed for Module<N> {
    ghost phrase = { whole_module N.reads };

    #[tactic(auto, using(crate::proofs::Lists::in_order_possible), unfolding(swc_ecma_codegen_grammar::specs::StmtPhrases::whole_module, swc_ecma_codegen_grammar::specs::Phrases::is_possible))]
    fn is_well_formed(&self) -> bool {
        is_shebang(&self.shebang) && all_well_formed(&self.body)
    }
}
