//! Declarations.

ghost use Rattle.std.specs.Prelude.{◌≡◌, map, codes};
ghost use Rattle.swc_ecma_codegen_grammar.specs.Phrases.{is_possible, some_listed};
ghost use Rattle.swc_ecma_codegen_grammar.specs.DeclPhrases.{fn_decl, definite_pat, declared_pat, var_declarator, var_decl, using_decl, decl};

use crate::forms::{Fits, WellFormed, all_well_formed};
use crate::pats::is_initializer;
use swc_ecma_codegen_grammar::roles::Role;
use swc_ecma_codegen_tree::{Decl, FnDecl, Pat, UsingDecl, VarDecl, VarDeclarator};

impl<N: Fits> WellFormed for FnDecl<N> {
    ghost phrase = { fn_decl N.reads };

    #[tactic(auto, using(crate::proofs::DeclsPossible::fn_decl_possible))]
    fn is_well_formed(&self) -> bool {
        self.function.target().fits(Role::FunctionHead)
            && self.ident.is_well_formed()
            && self.function.is_well_formed()
    }
}

/// Whether a pattern that is said to have a value is well-formed: it is a name alone.
#[tactic(auto, using(crate::proofs::DeclsPossible::definite_ident_possible), unfolding(swc_ecma_codegen_grammar::specs::DeclPhrases::definite_pat, swc_ecma_codegen_grammar::specs::Phrases::is_possible))]
fn is_definite_pat<N: Fits>(node: &Pat<N>) -> bool
    ensures { result ≡ is_possible (definite_pat N.reads node.now) }
{
    match node {
        Pat::Ident(node) => node.is_well_formed(),
        _ => false,
    }
}

/// Whether what is declared is well-formed.
#[tactic(auto, unfolding(swc_ecma_codegen_grammar::specs::DeclPhrases::declared_pat))]
fn is_declared_pat<N: Fits>(definite: bool, node: &Pat<N>) -> bool
    ensures { result ≡ is_possible (declared_pat N.reads definite node.now) }
{
    if definite {
        return is_definite_pat(node);
    }
    node.is_well_formed()
}

impl<N: Fits> WellFormed for VarDeclarator<N> {
    ghost phrase = { var_declarator N.reads };

    #[tactic(auto, unfolding(swc_ecma_codegen_grammar::specs::DeclPhrases::var_declarator, swc_ecma_codegen_grammar::specs::Phrases::is_possible))]
    fn is_well_formed(&self) -> bool {
        is_declared_pat(self.definite, &self.name) && is_initializer(&self.init)
    }
}

/// Whether declarators are well-formed, and there is one at least.
#[tactic(auto, using(crate::proofs::DeclsPossible::declarators_possible))]
fn are_declarators<N: Fits>(declarators: &[VarDeclarator<N>]) -> bool
    ensures { result ≡ is_possible (some_listed (codes ",")
        (map (var_declarator N.reads) declarators.now)) }
{
    !declarators.is_empty() && all_well_formed(declarators)
}

impl<N: Fits> WellFormed for VarDecl<N> {
    ghost phrase = { var_decl N.reads };

    #[tactic(auto, using(crate::proofs::DeclsPossible::var_decl_possible))]
    fn is_well_formed(&self) -> bool {
        are_declarators(&self.decls)
    }
}

impl<N: Fits> WellFormed for UsingDecl<N> {
    ghost phrase = { using_decl N.reads };

    #[tactic(auto, using(crate::proofs::DeclsPossible::using_decl_possible))]
    fn is_well_formed(&self) -> bool {
        are_declarators(&self.decls)
    }
}

impl<N: Fits> WellFormed for Decl<N> {
    ghost phrase = { decl N.reads };

    #[tactic(auto, unfolding(swc_ecma_codegen_grammar::specs::DeclPhrases::decl, swc_ecma_codegen_grammar::specs::Phrases::is_possible))]
    fn is_well_formed(&self) -> bool {
        match self {
            Decl::Class(node) => node.is_well_formed(),
            Decl::Fn(node) => node.is_well_formed(),
            Decl::Var(node) => node.is_well_formed(),
            Decl::Using(node) => node.is_well_formed(),
            Decl::TsInterface(node) => node.is_well_formed(),
            Decl::TsTypeAlias(node) => node.is_well_formed(),
            Decl::TsEnum(node) => node.is_well_formed(),
            Decl::TsModule(node) => node.is_well_formed(),
        }
    }
}
