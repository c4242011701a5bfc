//! Declarations of TypeScript.

ghost use Rattle.std.specs.Prelude.{◌≡◌};
ghost use Rattle.swc_ecma_codegen_grammar.specs.Phrases.{is_possible};
ghost use Rattle.swc_ecma_codegen_grammar.specs.NamespacePhrases.{dotted_namespace, dotted_body, ts_module_block, ts_namespace_body};
ghost use Rattle.swc_ecma_codegen_grammar.specs.TsDeclPhrases.{ts_expr_with_type_args, ts_interface_decl, ts_type_alias_decl, ts_enum_member_id, ts_enum_member, ts_enum_decl, ts_module_name, module_tail, ts_module_decl, ts_external_module_ref, ts_module_ref, ts_import_equals_decl, ts_export_assignment, ts_namespace_export_decl};

use crate::forms::{Fits, WellFormed, all_well_formed};
use crate::pats::is_initializer;
use swc_ecma_codegen_grammar::roles::Role;
use swc_ecma_codegen_tree::{
    TsEnumDecl, TsEnumMember, TsEnumMemberId, TsExportAssignment, TsExprWithTypeArgs,
    TsExternalModuleRef, TsImportEqualsDecl, TsInterfaceDecl, TsModuleBlock, TsModuleDecl,
    TsModuleName, TsModuleRef, TsNamespaceBody, TsNamespaceBodyBox, TsNamespaceDecl,
    TsNamespaceExportDecl, TsTypeAliasDecl,
};

impl<N: Fits> WellFormed for TsExprWithTypeArgs<N> {
    ghost phrase = { ts_expr_with_type_args N.reads };

    #[tactic(auto, using(crate::proofs::TsDeclsPossible::expr_with_type_args_possible))]
    fn is_well_formed(&self) -> bool {
        self.expr.is_well_formed() && self.type_args.is_well_formed()
    }
}

impl<N: Fits> WellFormed for TsInterfaceDecl<N> {
    ghost phrase = { ts_interface_decl N.reads };

    #[tactic(auto, using(crate::proofs::TsDeclsPossible::interface_decl_possible))]
    fn is_well_formed(&self) -> bool {
        self.id.is_well_formed()
            && self.type_params.is_well_formed()
            && all_well_formed(&self.extends)
            && self.body.is_well_formed()
    }
}

impl<N: Fits> WellFormed for TsTypeAliasDecl<N> {
    ghost phrase = { ts_type_alias_decl N.reads };

    #[tactic(auto, using(crate::proofs::TsDeclsPossible::alias_possible))]
    fn is_well_formed(&self) -> bool {
        self.id.is_well_formed()
            && self.type_params.is_well_formed()
            && self.type_ann.is_well_formed()
    }
}

impl WellFormed for TsEnumMemberId {
    ghost phrase = { ts_enum_member_id };

    #[tactic(auto, unfolding(swc_ecma_codegen_grammar::specs::TsDeclPhrases::ts_enum_member_id, swc_ecma_codegen_grammar::specs::Phrases::is_possible))]
    fn is_well_formed(&self) -> bool {
        match self {
            TsEnumMemberId::Ident(node) => node.is_well_formed(),
            TsEnumMemberId::Str(node) => node.is_well_formed(),
        }
    }
}

impl<N: Fits> WellFormed for TsEnumMember<N> {
    ghost phrase = { ts_enum_member N.reads };

    #[tactic(auto, unfolding(swc_ecma_codegen_grammar::specs::TsDeclPhrases::ts_enum_member, swc_ecma_codegen_grammar::specs::Phrases::is_possible))]
    fn is_well_formed(&self) -> bool {
        self.id.is_well_formed() && is_initializer(&self.init)
    }
}

impl<N: Fits> WellFormed for TsEnumDecl<N> {
    ghost phrase = { ts_enum_decl N.reads };

    #[tactic(auto, using(crate::proofs::TsDeclsPossible::enum_possible))]
    fn is_well_formed(&self) -> bool {
        self.id.is_well_formed() && all_well_formed(&self.members)
    }
}

impl WellFormed for TsModuleName {
    ghost phrase = { ts_module_name };

    #[tactic(auto, unfolding(swc_ecma_codegen_grammar::specs::TsDeclPhrases::ts_module_name, swc_ecma_codegen_grammar::specs::Phrases::is_possible))]
    fn is_well_formed(&self) -> bool {
        match self {
            TsModuleName::Ident(node) => node.is_well_formed(),
            TsModuleName::Str(node) => node.is_well_formed(),
        }
    }
}

/// Whether the body of a module is well-formed, or there is none.
#[tactic(auto, unfolding(swc_ecma_codegen_grammar::specs::TsDeclPhrases::module_tail, swc_ecma_codegen_grammar::specs::Phrases::is_possible))]
fn is_module_tail<N: Fits>(body: &Option<TsNamespaceBodyBox<N>>) -> bool
    ensures { result ≡ is_possible (module_tail N.reads body.now) }
{
    match body {
        Some(node) => node.target().fits(Role::DottedBody),
        None => true,
    }
}

impl<N: Fits> WellFormed for TsModuleDecl<N> {
    ghost phrase = { ts_module_decl N.reads };

    #[tactic(auto, using(crate::proofs::TsDeclsPossible::module_decl_possible))]
    fn is_well_formed(&self) -> bool {
        self.id.is_well_formed() && is_module_tail(&self.body)
    }
}

impl<N: Fits> WellFormed for TsModuleBlock<N> {
    ghost phrase = { ts_module_block N.reads };

    #[tactic(auto, using(crate::proofs::TsDeclsPossible::module_block_possible))]
    fn is_well_formed(&self) -> bool {
        all_well_formed(&self.body)
    }
}

/// Whether a further name of a namespace is well-formed, with what stands behind it.
#[tactic(auto, using(crate::proofs::TsDeclsPossible::dotted_namespace_possible))]
fn is_dotted_namespace<N: Fits>(node: &TsNamespaceDecl<N>) -> bool
    ensures { result ≡ is_possible (dotted_namespace N.reads node.now) }
{
    !node.declare && node.id.is_well_formed() && node.body.target().fits(Role::DottedBody)
}

/// Whether a body is well-formed behind the name of its namespace.
#[tactic(auto, unfolding(swc_ecma_codegen_grammar::specs::NamespacePhrases::dotted_body))]
pub(crate) fn is_dotted_body<N: Fits>(node: &TsNamespaceBody<N>) -> bool
    ensures { result ≡ is_possible (dotted_body N.reads node.now) }
{
    match node {
        TsNamespaceBody::TsModuleBlock(node) => node.is_well_formed(),
        TsNamespaceBody::TsNamespaceDecl(node) => is_dotted_namespace(node),
    }
}

impl<N: Fits> WellFormed for TsNamespaceBody<N> {
    ghost phrase = { ts_namespace_body N.reads };

    #[tactic(auto, unfolding(swc_ecma_codegen_grammar::specs::NamespacePhrases::ts_namespace_body, swc_ecma_codegen_grammar::specs::Phrases::is_possible))]
    fn is_well_formed(&self) -> bool {
        match self {
            TsNamespaceBody::TsModuleBlock(node) => node.is_well_formed(),
            TsNamespaceBody::TsNamespaceDecl(_) => false,
        }
    }
}

impl WellFormed for TsExternalModuleRef {
    ghost phrase = { ts_external_module_ref };

    #[tactic(auto, using(crate::proofs::TsDeclsPossible::external_ref_possible))]
    fn is_well_formed(&self) -> bool {
        self.expr.is_well_formed()
    }
}

impl<N: Fits> WellFormed for TsModuleRef<N> {
    ghost phrase = { ts_module_ref N.reads };

    #[tactic(auto, unfolding(swc_ecma_codegen_grammar::specs::TsDeclPhrases::ts_module_ref, swc_ecma_codegen_grammar::specs::Phrases::is_possible))]
    fn is_well_formed(&self) -> bool {
        match self {
            TsModuleRef::TsEntityName(node) => node.is_well_formed(),
            TsModuleRef::TsExternalModuleRef(node) => node.is_well_formed(),
        }
    }
}

impl<N: Fits> WellFormed for TsImportEqualsDecl<N> {
    ghost phrase = { ts_import_equals_decl N.reads };

    #[tactic(auto, using(crate::proofs::TsDeclsPossible::import_equals_possible))]
    fn is_well_formed(&self) -> bool {
        self.id.is_well_formed() && self.module_ref.is_well_formed()
    }
}

impl<N: Fits> WellFormed for TsExportAssignment<N> {
    ghost phrase = { ts_export_assignment N.reads };

    #[tactic(auto, using(crate::proofs::TsDeclsPossible::export_assignment_possible))]
    fn is_well_formed(&self) -> bool {
        self.expr.is_well_formed()
    }
}

impl WellFormed for TsNamespaceExportDecl {
    ghost phrase = { ts_namespace_export_decl };

    #[tactic(auto, using(crate::proofs::TsDeclsPossible::namespace_export_possible))]
    fn is_well_formed(&self) -> bool {
        self.id.is_well_formed()
    }
}
