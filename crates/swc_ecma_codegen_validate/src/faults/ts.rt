//! Declarations, expressions and members of TypeScript.

ghost use Rattle.std.specs.Prelude.{IfOk, codes};
ghost use Rattle.swc_ecma_codegen_grammar.specs.declared.roles.Role.TheVariants.{DottedBody};
ghost use Rattle.swc_ecma_codegen_validate.specs.Rules.{findings, no_links, Finds, below, in_some, Named};
ghost use Rattle.swc_ecma_codegen_validate.specs.TreeRules.{ts_module_block, ts_namespace_body, dotted_body};
ghost use Rattle.swc_ecma_codegen_validate.specs.TsRules.{ts_expr_with_type_args, ts_interface_decl, ts_type_alias_decl, ts_enum_member_id, ts_enum_member, ts_enum_decl, ts_module_name, ts_module_decl, ts_external_module_ref, ts_module_ref, ts_import_equals_decl, ts_export_assignment, ts_namespace_export_decl, ts_as_expr, ts_const_assertion, ts_satisfies_expr, ts_non_null_expr, ts_type_assertion, ts_instantiation, ts_call_signature_decl, ts_construct_signature_decl, ts_property_signature, ts_getter_signature, ts_setter_signature, ts_method_signature, ts_index_signature, ts_type_element, ts_interface_body};

use crate::faults::{
    FaultIn, FindsFault, Found, broken_unless, in_turn, not_here, under, under_as, within,
};
use std::alloc::Global;
use swc_ecma_codegen_grammar::roles::Role;
use swc_ecma_codegen_tree::{
    TsAsExpr, TsCallSignatureDecl, TsConstAssertion, TsConstructSignatureDecl, TsEnumDecl,
    TsEnumMember, TsEnumMemberId, TsExportAssignment, TsExprWithTypeArgs, TsExternalModuleRef,
    TsGetterSignature, TsImportEqualsDecl, TsIndexSignature, TsInstantiation, TsInterfaceBody,
    TsInterfaceDecl, TsMethodSignature, TsModuleBlock, TsModuleDecl, TsModuleName, TsModuleRef,
    TsNamespaceBody, TsNamespaceBodyBox, TsNamespaceExportDecl, TsNonNullExpr, TsPropertySignature,
    TsSatisfiesExpr, TsSetterSignature, TsTypeAliasDecl, TsTypeAssertion, TsTypeElement,
};

impl<N: FaultIn> FindsFault for TsExprWithTypeArgs<N> {
    ghost found = { λ n. findings N.found_as (ts_expr_with_type_args n) };

    #[tactic(auto, unfolding(crate::specs::TsRules::ts_expr_with_type_args, crate::specs::Rules::findings))]
    fn fault(&self, alloc: Global) -> Found {
        within!(self, alloc; expr type_args)
    }
}

impl<N: FaultIn> FindsFault for TsInterfaceDecl<N> {
    ghost found = { λ n. findings N.found_as (ts_interface_decl n) };

    #[tactic(auto, unfolding(crate::specs::TsRules::ts_interface_decl, crate::specs::Rules::findings))]
    fn fault(&self, alloc: Global) -> Found {
        within!(self, alloc; id type_params extends body)
    }
}

impl<N: FaultIn> FindsFault for TsTypeAliasDecl<N> {
    ghost found = { λ n. findings N.found_as (ts_type_alias_decl n) };

    #[tactic(auto, unfolding(crate::specs::TsRules::ts_type_alias_decl, crate::specs::Rules::findings))]
    fn fault(&self, alloc: Global) -> Found {
        within!(self, alloc; id type_params type_ann)
    }
}

impl FindsFault for TsEnumMemberId {
    ghost found = { λ n. findings no_links (ts_enum_member_id n) };

    #[tactic(auto, unfolding(crate::specs::TsRules::ts_enum_member_id, crate::specs::Rules::findings))]
    fn fault(&self, alloc: Global) -> Found {
        match self {
            TsEnumMemberId::Ident(node) => node.fault(alloc),
            TsEnumMemberId::Str(node) => node.fault(alloc),
        }
    }
}

impl<N: FaultIn> FindsFault for TsEnumMember<N> {
    ghost found = { λ n. findings N.found_as (ts_enum_member n) };

    #[tactic(auto, unfolding(crate::specs::TsRules::ts_enum_member, crate::specs::Rules::findings))]
    fn fault(&self, alloc: Global) -> Found {
        within!(self, alloc; id init)
    }
}

impl<N: FaultIn> FindsFault for TsEnumDecl<N> {
    ghost found = { λ n. findings N.found_as (ts_enum_decl n) };

    #[tactic(auto, unfolding(crate::specs::TsRules::ts_enum_decl, crate::specs::Rules::findings))]
    fn fault(&self, alloc: Global) -> Found {
        within!(self, alloc; id members)
    }
}

impl FindsFault for TsModuleName {
    ghost found = { λ n. findings no_links (ts_module_name n) };

    #[tactic(auto, unfolding(crate::specs::TsRules::ts_module_name, crate::specs::Rules::findings))]
    fn fault(&self, alloc: Global) -> Found {
        match self {
            TsModuleName::Ident(node) => node.fault(alloc),
            TsModuleName::Str(node) => node.fault(alloc),
        }
    }
}

impl<N: FaultIn> FindsFault for TsModuleDecl<N> {
    ghost found = { λ n. findings N.found_as (ts_module_decl n) };

    #[tactic(auto, unfolding(crate::specs::TsRules::ts_module_decl, crate::specs::Rules::findings))]
    fn fault(&self, alloc: Global) -> Found {
        in_turn! {
            under(alloc, "id", &self.id),
            dotted_body_fault(alloc, &self.body),
        }
    }
}

impl<N: FaultIn> FindsFault for TsModuleBlock<N> {
    ghost found = { λ n. findings N.found_as (ts_module_block n) };

    #[tactic(auto, unfolding(crate::specs::TreeRules::ts_module_block, crate::specs::Rules::findings))]
    fn fault(&self, alloc: Global) -> Found {
        within!(self, alloc; body)
    }
}

impl<N: FaultIn> FindsFault for TsNamespaceBody<N> {
    ghost found = { λ n. findings N.found_as (ts_namespace_body n) };

    #[tactic(auto, unfolding(crate::specs::TreeRules::ts_namespace_body, crate::specs::Rules::findings))]
    fn fault(&self, alloc: Global) -> Found {
        match self {
            TsNamespaceBody::TsModuleBlock(node) => node.fault(alloc),
            TsNamespaceBody::TsNamespaceDecl(_) => not_here(alloc),
        }
    }
}

impl FindsFault for TsExternalModuleRef {
    ghost found = { λ n. findings no_links (ts_external_module_ref n) };

    #[tactic(auto, unfolding(crate::specs::TsRules::ts_external_module_ref, crate::specs::Rules::findings))]
    fn fault(&self, alloc: Global) -> Found {
        within!(self, alloc; expr)
    }
}

impl<N: FaultIn> FindsFault for TsModuleRef<N> {
    ghost found = { λ n. findings N.found_as (ts_module_ref n) };

    #[tactic(auto, unfolding(crate::specs::TsRules::ts_module_ref, crate::specs::Rules::findings))]
    fn fault(&self, alloc: Global) -> Found {
        match self {
            TsModuleRef::TsEntityName(node) => node.fault(alloc),
            TsModuleRef::TsExternalModuleRef(node) => node.fault(alloc),
        }
    }
}

impl<N: FaultIn> FindsFault for TsImportEqualsDecl<N> {
    ghost found = { λ n. findings N.found_as (ts_import_equals_decl n) };

    #[tactic(auto, unfolding(crate::specs::TsRules::ts_import_equals_decl, crate::specs::Rules::findings))]
    fn fault(&self, alloc: Global) -> Found {
        within!(self, alloc; id module_ref)
    }
}

impl<N: FaultIn> FindsFault for TsExportAssignment<N> {
    ghost found = { λ n. findings N.found_as (ts_export_assignment n) };

    #[tactic(auto, unfolding(crate::specs::TsRules::ts_export_assignment, crate::specs::Rules::findings))]
    fn fault(&self, alloc: Global) -> Found {
        within!(self, alloc; expr)
    }
}

impl FindsFault for TsNamespaceExportDecl {
    ghost found = { λ n. findings no_links (ts_namespace_export_decl n) };

    #[tactic(auto, unfolding(crate::specs::TsRules::ts_namespace_export_decl, crate::specs::Rules::findings))]
    fn fault(&self, alloc: Global) -> Found {
        within!(self, alloc; id)
    }
}

impl<N: FaultIn> FindsFault for TsAsExpr<N> {
    ghost found = { λ n. findings N.found_as (ts_as_expr n) };

    #[tactic(auto, unfolding(crate::specs::TsRules::ts_as_expr, crate::specs::Rules::findings))]
    fn fault(&self, alloc: Global) -> Found {
        within!(self, alloc; expr type_ann)
    }
}

impl<N: FaultIn> FindsFault for TsConstAssertion<N> {
    ghost found = { λ n. findings N.found_as (ts_const_assertion n) };

    #[tactic(auto, unfolding(crate::specs::TsRules::ts_const_assertion, crate::specs::Rules::findings))]
    fn fault(&self, alloc: Global) -> Found {
        within!(self, alloc; expr)
    }
}

impl<N: FaultIn> FindsFault for TsSatisfiesExpr<N> {
    ghost found = { λ n. findings N.found_as (ts_satisfies_expr n) };

    #[tactic(auto, unfolding(crate::specs::TsRules::ts_satisfies_expr, crate::specs::Rules::findings))]
    fn fault(&self, alloc: Global) -> Found {
        within!(self, alloc; expr type_ann)
    }
}

impl<N: FaultIn> FindsFault for TsNonNullExpr<N> {
    ghost found = { λ n. findings N.found_as (ts_non_null_expr n) };

    #[tactic(auto, unfolding(crate::specs::TsRules::ts_non_null_expr, crate::specs::Rules::findings))]
    fn fault(&self, alloc: Global) -> Found {
        within!(self, alloc; expr)
    }
}

impl<N: FaultIn> FindsFault for TsTypeAssertion<N> {
    ghost found = { λ n. findings N.found_as (ts_type_assertion n) };

    #[tactic(auto, unfolding(crate::specs::TsRules::ts_type_assertion, crate::specs::Rules::findings))]
    fn fault(&self, alloc: Global) -> Found {
        within!(self, alloc; type_ann expr)
    }
}

impl<N: FaultIn> FindsFault for TsInstantiation<N> {
    ghost found = { λ n. findings N.found_as (ts_instantiation n) };

    #[tactic(auto, unfolding(crate::specs::TsRules::ts_instantiation, crate::specs::Rules::findings))]
    fn fault(&self, alloc: Global) -> Found {
        within!(self, alloc; expr type_args)
    }
}

impl<N: FaultIn> FindsFault for TsCallSignatureDecl<N> {
    ghost found = { λ n. findings N.found_as (ts_call_signature_decl n) };

    #[tactic(auto, unfolding(crate::specs::TsRules::ts_call_signature_decl, crate::specs::Rules::findings))]
    fn fault(&self, alloc: Global) -> Found {
        within!(self, alloc; type_params params type_ann)
    }
}

impl<N: FaultIn> FindsFault for TsConstructSignatureDecl<N> {
    ghost found = { λ n. findings N.found_as (ts_construct_signature_decl n) };

    #[tactic(auto, unfolding(crate::specs::TsRules::ts_construct_signature_decl, crate::specs::Rules::findings))]
    fn fault(&self, alloc: Global) -> Found {
        within!(self, alloc; type_params params type_ann)
    }
}

impl<N: FaultIn> FindsFault for TsPropertySignature<N> {
    ghost found = { λ n. findings N.found_as (ts_property_signature n) };

    #[tactic(auto, unfolding(crate::specs::TsRules::ts_property_signature, crate::specs::Rules::findings))]
    fn fault(&self, alloc: Global) -> Found {
        within!(self, alloc; key type_ann)
    }
}

impl<N: FaultIn> FindsFault for TsGetterSignature<N> {
    ghost found = { λ n. findings N.found_as (ts_getter_signature n) };

    #[tactic(auto, unfolding(crate::specs::TsRules::ts_getter_signature, crate::specs::Rules::findings))]
    fn fault(&self, alloc: Global) -> Found {
        within!(self, alloc; key type_ann)
    }
}

impl<N: FaultIn> FindsFault for TsSetterSignature<N> {
    ghost found = { λ n. findings N.found_as (ts_setter_signature n) };

    #[tactic(auto, unfolding(crate::specs::TsRules::ts_setter_signature, crate::specs::Rules::findings))]
    fn fault(&self, alloc: Global) -> Found {
        within!(self, alloc; key param)
    }
}

impl<N: FaultIn> FindsFault for TsMethodSignature<N> {
    ghost found = { λ n. findings N.found_as (ts_method_signature n) };

    #[tactic(auto, unfolding(crate::specs::TsRules::ts_method_signature, crate::specs::Rules::findings))]
    fn fault(&self, alloc: Global) -> Found {
        within!(self, alloc; key type_params params type_ann)
    }
}

impl<N: FaultIn> FindsFault for TsIndexSignature<N> {
    ghost found = { λ n. findings N.found_as (ts_index_signature n) };

    #[tactic(auto, unfolding(crate::specs::TsRules::ts_index_signature, crate::specs::Rules::findings))]
    fn fault(&self, alloc: Global) -> Found {
        within!(self, alloc; params type_ann)
    }
}

impl<N: FaultIn> FindsFault for TsTypeElement<N> {
    ghost found = { λ n. findings N.found_as (ts_type_element n) };

    #[tactic(auto, unfolding(crate::specs::TsRules::ts_type_element, crate::specs::Rules::findings))]
    fn fault(&self, alloc: Global) -> Found {
        match self {
            TsTypeElement::TsCallSignatureDecl(node) => node.fault(alloc),
            TsTypeElement::TsConstructSignatureDecl(node) => node.fault(alloc),
            TsTypeElement::TsPropertySignature(node) => node.fault(alloc),
            TsTypeElement::TsGetterSignature(node) => node.fault(alloc),
            TsTypeElement::TsSetterSignature(node) => node.fault(alloc),
            TsTypeElement::TsMethodSignature(node) => node.fault(alloc),
            TsTypeElement::TsIndexSignature(node) => node.fault(alloc),
        }
    }
}

impl<N: FaultIn> FindsFault for TsInterfaceBody<N> {
    ghost found = { λ n. findings N.found_as (ts_interface_body n) };

    #[tactic(auto, unfolding(crate::specs::TsRules::ts_interface_body, crate::specs::Rules::findings))]
    fn fault(&self, alloc: Global) -> Found {
        within!(self, alloc; body)
    }
}

/// What is wrong with the body of a module, or of a namespace, where there is one.
#[tactic(auto, unfolding(crate::specs::Rules::in_some))]
fn dotted_body_fault<N: FaultIn>(alloc: Global, body: &Option<TsNamespaceBodyBox<N>>) -> Found
    ensures { IfOk result (Finds (below (Named (codes "body"))
        (in_some (λ n. N.found_as n.node.value DottedBody) body.now))) }
{
    match body {
        Some(body) => under_as(alloc, "body", body, Role::DottedBody),
        None => Ok(None),
    }
}

/// What is wrong with a body behind the name of its namespace.
#[tactic(auto, unfolding(crate::specs::TreeRules::dotted_body, crate::specs::Rules::findings))]
pub(crate) fn dotted_fault<N: FaultIn>(alloc: Global, node: &TsNamespaceBody<N>) -> Found
    ensures { IfOk result (Finds (findings N.found_as (dotted_body node.now))) }
{
    match node {
        TsNamespaceBody::TsModuleBlock(node) => node.fault(alloc),
        TsNamespaceBody::TsNamespaceDecl(node) => in_turn! {
            broken_unless(
                alloc,
                !node.declare,
                "a further name of a namespace has `declare`",
            ),
            under(alloc, "id", &node.id),
            under_as(alloc, "body", &node.body, Role::DottedBody),
        },
    }
}
