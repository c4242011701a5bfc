//! Types of TypeScript.

ghost use Rattle.std.specs.Prelude.{◌≡◌, ◌&&◌, not};
ghost use Rattle.swc_ecma_codegen_validate.specs.Rules.{findings, no_links};
ghost use Rattle.swc_ecma_codegen_validate.specs.TypeRules.{ts_qualified_name, ts_entity_name, ts_type_ref, ts_type_param_instantiation, ts_type_param, ts_type_param_decl, ts_fn_param, ts_fn_type, ts_constructor_type, ts_fn_or_constructor_type, ts_tpl_lit_type, ts_lit, ts_lit_type, ts_import_type, ts_type_query_expr, ts_type_query, ts_type_lit, ts_array_type, ts_tuple_element, ts_tuple_type, ts_optional_type, ts_rest_type, ts_mapped_type, ts_union_type, ts_intersection_type, ts_union_or_intersection_type, ts_parenthesized_type, ts_type_operator, ts_indexed_access_type, ts_conditional_type, ts_infer_type, ts_this_type_or_ident, ts_type_predicate, ts_type, ts_type_ann};

use crate::faults::exprs::{count_fault, elements_fault};
use crate::faults::{FaultIn, FindsFault, Found, broken_unless, in_turn, under, within};
use crate::templates::is_counted;
use std::alloc::Global;
use swc_ecma_codegen_tree::{
    TsArrayType, TsConditionalType, TsConstructorType, TsEntityName, TsFnOrConstructorType,
    TsFnParam, TsFnType, TsImportType, TsIndexedAccessType, TsInferType, TsIntersectionType, TsLit,
    TsLitType, TsMappedType, TsOptionalType, TsParenthesizedType, TsQualifiedName, TsRestType,
    TsThisTypeOrIdent, TsTplLitType, TsTupleElement, TsTupleType, TsType, TsTypeAnn, TsTypeLit,
    TsTypeOperator, TsTypeParam, TsTypeParamDecl, TsTypeParamInstantiation, TsTypePredicate,
    TsTypeQuery, TsTypeQueryExpr, TsTypeRef, TsUnionOrIntersectionType, TsUnionType,
};

impl<N: FaultIn> FindsFault for TsQualifiedName<N> {
    ghost found = { λ n. findings N.found_as (ts_qualified_name n) };

    #[tactic(auto, unfolding(crate::specs::TypeRules::ts_qualified_name, crate::specs::Rules::findings))]
    fn fault(&self, alloc: Global) -> Found {
        within!(self, alloc; left right)
    }
}

impl<N: FaultIn> FindsFault for TsEntityName<N> {
    ghost found = { λ n. findings N.found_as (ts_entity_name n) };

    #[tactic(auto, unfolding(crate::specs::TypeRules::ts_entity_name, crate::specs::Rules::findings))]
    fn fault(&self, alloc: Global) -> Found {
        match self {
            TsEntityName::TsQualifiedName(node) => node.fault(alloc),
            TsEntityName::Ident(node) => node.fault(alloc),
        }
    }
}

impl<N: FaultIn> FindsFault for TsTypeRef<N> {
    ghost found = { λ n. findings N.found_as (ts_type_ref n) };

    #[tactic(auto, unfolding(crate::specs::TypeRules::ts_type_ref, crate::specs::Rules::findings))]
    fn fault(&self, alloc: Global) -> Found {
        within!(self, alloc; type_name type_params)
    }
}

impl<N: FaultIn> FindsFault for TsTypeParamInstantiation<N> {
    ghost found = { λ n. findings N.found_as (ts_type_param_instantiation n) };

    #[tactic(auto, unfolding(crate::specs::TypeRules::ts_type_param_instantiation, crate::specs::Rules::findings))]
    fn fault(&self, alloc: Global) -> Found {
        in_turn! {
            broken_unless(alloc, !self.params.is_empty(), "a list of arguments of types is empty"),
            under(alloc, "params", &self.params),
        }
    }
}

impl<N: FaultIn> FindsFault for TsTypeParam<N> {
    ghost found = { λ n. findings N.found_as (ts_type_param n) };

    #[tactic(auto, unfolding(crate::specs::TypeRules::ts_type_param, crate::specs::Rules::findings))]
    fn fault(&self, alloc: Global) -> Found {
        within!(self, alloc; name constraint default)
    }
}

impl<N: FaultIn> FindsFault for TsTypeParamDecl<N> {
    ghost found = { λ n. findings N.found_as (ts_type_param_decl n) };

    #[tactic(auto, unfolding(crate::specs::TypeRules::ts_type_param_decl, crate::specs::Rules::findings))]
    fn fault(&self, alloc: Global) -> Found {
        in_turn! {
            broken_unless(alloc, !self.params.is_empty(), "a list of type parameters is empty"),
            under(alloc, "params", &self.params),
        }
    }
}

impl<N: FaultIn> FindsFault for TsFnParam<N> {
    ghost found = { λ n. findings N.found_as (ts_fn_param n) };

    #[tactic(auto, unfolding(crate::specs::TypeRules::ts_fn_param, crate::specs::Rules::findings))]
    fn fault(&self, alloc: Global) -> Found {
        match self {
            TsFnParam::Ident(node) => node.fault(alloc),
            TsFnParam::Array(node) => node.fault(alloc),
            TsFnParam::Rest(node) => node.fault(alloc),
            TsFnParam::Object(node) => node.fault(alloc),
        }
    }
}

impl<N: FaultIn> FindsFault for TsFnType<N> {
    ghost found = { λ n. findings N.found_as (ts_fn_type n) };

    #[tactic(auto, unfolding(crate::specs::TypeRules::ts_fn_type, crate::specs::Rules::findings))]
    fn fault(&self, alloc: Global) -> Found {
        within!(self, alloc; type_params params type_ann)
    }
}

impl<N: FaultIn> FindsFault for TsConstructorType<N> {
    ghost found = { λ n. findings N.found_as (ts_constructor_type n) };

    #[tactic(auto, unfolding(crate::specs::TypeRules::ts_constructor_type, crate::specs::Rules::findings))]
    fn fault(&self, alloc: Global) -> Found {
        within!(self, alloc; type_params params type_ann)
    }
}

impl<N: FaultIn> FindsFault for TsFnOrConstructorType<N> {
    ghost found = { λ n. findings N.found_as (ts_fn_or_constructor_type n) };

    #[tactic(auto, unfolding(crate::specs::TypeRules::ts_fn_or_constructor_type, crate::specs::Rules::findings))]
    fn fault(&self, alloc: Global) -> Found {
        match self {
            TsFnOrConstructorType::TsFnType(node) => node.fault(alloc),
            TsFnOrConstructorType::TsConstructorType(node) => node.fault(alloc),
        }
    }
}

impl<N: FaultIn> FindsFault for TsTplLitType<N> {
    ghost found = { λ n. findings N.found_as (ts_tpl_lit_type n) };

    #[tactic(auto, unfolding(crate::specs::TypeRules::ts_tpl_lit_type, crate::specs::Rules::findings))]
    fn fault(&self, alloc: Global) -> Found {
        if let Some(broken) = count_fault(alloc, is_counted(&self.types, &self.quasis))? {
            return Ok(Some(broken));
        }
        if let Some(broken) = elements_fault::<N>(alloc, false, &self.quasis)? {
            return Ok(Some(broken));
        }
        if let Some(broken) = under(alloc, "types", &self.types)? {
            return Ok(Some(broken));
        }
        Ok(None)
    }
}

impl<N: FaultIn> FindsFault for TsLit<N> {
    ghost found = { λ n. findings N.found_as (ts_lit n) };

    #[tactic(auto, unfolding(crate::specs::TypeRules::ts_lit, crate::specs::Rules::findings))]
    fn fault(&self, alloc: Global) -> Found {
        match self {
            TsLit::Number(node) => node.fault(alloc),
            TsLit::Str(node) => node.fault(alloc),
            TsLit::Bool(node) => node.fault(alloc),
            TsLit::BigInt(node) => node.fault(alloc),
            TsLit::Tpl(node) => node.fault(alloc),
        }
    }
}

impl<N: FaultIn> FindsFault for TsLitType<N> {
    ghost found = { λ n. findings N.found_as (ts_lit_type n) };

    #[tactic(auto, unfolding(crate::specs::TypeRules::ts_lit_type, crate::specs::Rules::findings))]
    fn fault(&self, alloc: Global) -> Found {
        within!(self, alloc; lit)
    }
}

impl<N: FaultIn> FindsFault for TsImportType<N> {
    ghost found = { λ n. findings N.found_as (ts_import_type n) };

    #[tactic(auto, unfolding(crate::specs::TypeRules::ts_import_type, crate::specs::Rules::findings))]
    fn fault(&self, alloc: Global) -> Found {
        within!(self, alloc; arg qualifier type_args)
    }
}

impl<N: FaultIn> FindsFault for TsTypeQueryExpr<N> {
    ghost found = { λ n. findings N.found_as (ts_type_query_expr n) };

    #[tactic(auto, unfolding(crate::specs::TypeRules::ts_type_query_expr, crate::specs::Rules::findings))]
    fn fault(&self, alloc: Global) -> Found {
        match self {
            TsTypeQueryExpr::TsEntityName(node) => node.fault(alloc),
            TsTypeQueryExpr::Import(node) => node.fault(alloc),
        }
    }
}

impl<N: FaultIn> FindsFault for TsTypeQuery<N> {
    ghost found = { λ n. findings N.found_as (ts_type_query n) };

    #[tactic(auto, unfolding(crate::specs::TypeRules::ts_type_query, crate::specs::Rules::findings))]
    fn fault(&self, alloc: Global) -> Found {
        within!(self, alloc; expr_name type_args)
    }
}

impl<N: FaultIn> FindsFault for TsTypeLit<N> {
    ghost found = { λ n. findings N.found_as (ts_type_lit n) };

    #[tactic(auto, unfolding(crate::specs::TypeRules::ts_type_lit, crate::specs::Rules::findings))]
    fn fault(&self, alloc: Global) -> Found {
        within!(self, alloc; members)
    }
}

impl<N: FaultIn> FindsFault for TsArrayType<N> {
    ghost found = { λ n. findings N.found_as (ts_array_type n) };

    #[tactic(auto, unfolding(crate::specs::TypeRules::ts_array_type, crate::specs::Rules::findings))]
    fn fault(&self, alloc: Global) -> Found {
        within!(self, alloc; elem_type)
    }
}

impl<N: FaultIn> FindsFault for TsTupleElement<N> {
    ghost found = { λ n. findings N.found_as (ts_tuple_element n) };

    #[tactic(auto, unfolding(crate::specs::TypeRules::ts_tuple_element, crate::specs::Rules::findings))]
    fn fault(&self, alloc: Global) -> Found {
        within!(self, alloc; label ty)
    }
}

impl<N: FaultIn> FindsFault for TsTupleType<N> {
    ghost found = { λ n. findings N.found_as (ts_tuple_type n) };

    #[tactic(auto, unfolding(crate::specs::TypeRules::ts_tuple_type, crate::specs::Rules::findings))]
    fn fault(&self, alloc: Global) -> Found {
        within!(self, alloc; elem_types)
    }
}

impl<N: FaultIn> FindsFault for TsOptionalType<N> {
    ghost found = { λ n. findings N.found_as (ts_optional_type n) };

    #[tactic(auto, unfolding(crate::specs::TypeRules::ts_optional_type, crate::specs::Rules::findings))]
    fn fault(&self, alloc: Global) -> Found {
        within!(self, alloc; type_ann)
    }
}

impl<N: FaultIn> FindsFault for TsRestType<N> {
    ghost found = { λ n. findings N.found_as (ts_rest_type n) };

    #[tactic(auto, unfolding(crate::specs::TypeRules::ts_rest_type, crate::specs::Rules::findings))]
    fn fault(&self, alloc: Global) -> Found {
        within!(self, alloc; type_ann)
    }
}

impl<N: FaultIn> FindsFault for TsMappedType<N> {
    ghost found = { λ n. findings N.found_as (ts_mapped_type n) };

    #[tactic(auto, unfolding(crate::specs::TypeRules::ts_mapped_type, crate::specs::Rules::findings))]
    fn fault(&self, alloc: Global) -> Found {
        in_turn! {
            broken_unless(alloc, has_no_modifier(&self.type_param), "the parameter of a mapped type has a modifier"),
            under(alloc, "type_param", &self.type_param),
            under(alloc, "name_type", &self.name_type),
            under(alloc, "type_ann", &self.type_ann),
        }
    }
}

impl<N: FaultIn> FindsFault for TsUnionType<N> {
    ghost found = { λ n. findings N.found_as (ts_union_type n) };

    #[tactic(auto, unfolding(crate::specs::TypeRules::ts_union_type, crate::specs::Rules::findings))]
    fn fault(&self, alloc: Global) -> Found {
        in_turn! {
            broken_unless(alloc, !self.types.is_empty(), "a union or an intersection has no type"),
            under(alloc, "types", &self.types),
        }
    }
}

impl<N: FaultIn> FindsFault for TsIntersectionType<N> {
    ghost found = { λ n. findings N.found_as (ts_intersection_type n) };

    #[tactic(auto, unfolding(crate::specs::TypeRules::ts_intersection_type, crate::specs::Rules::findings))]
    fn fault(&self, alloc: Global) -> Found {
        in_turn! {
            broken_unless(alloc, !self.types.is_empty(), "a union or an intersection has no type"),
            under(alloc, "types", &self.types),
        }
    }
}

impl<N: FaultIn> FindsFault for TsUnionOrIntersectionType<N> {
    ghost found = { λ n. findings N.found_as (ts_union_or_intersection_type n) };

    #[tactic(auto, unfolding(crate::specs::TypeRules::ts_union_or_intersection_type, crate::specs::Rules::findings))]
    fn fault(&self, alloc: Global) -> Found {
        match self {
            TsUnionOrIntersectionType::TsUnionType(node) => node.fault(alloc),
            TsUnionOrIntersectionType::TsIntersectionType(node) => node.fault(alloc),
        }
    }
}

impl<N: FaultIn> FindsFault for TsParenthesizedType<N> {
    ghost found = { λ n. findings N.found_as (ts_parenthesized_type n) };

    #[tactic(auto, unfolding(crate::specs::TypeRules::ts_parenthesized_type, crate::specs::Rules::findings))]
    fn fault(&self, alloc: Global) -> Found {
        within!(self, alloc; type_ann)
    }
}

impl<N: FaultIn> FindsFault for TsTypeOperator<N> {
    ghost found = { λ n. findings N.found_as (ts_type_operator n) };

    #[tactic(auto, unfolding(crate::specs::TypeRules::ts_type_operator, crate::specs::Rules::findings))]
    fn fault(&self, alloc: Global) -> Found {
        within!(self, alloc; type_ann)
    }
}

impl<N: FaultIn> FindsFault for TsIndexedAccessType<N> {
    ghost found = { λ n. findings N.found_as (ts_indexed_access_type n) };

    #[tactic(auto, unfolding(crate::specs::TypeRules::ts_indexed_access_type, crate::specs::Rules::findings))]
    fn fault(&self, alloc: Global) -> Found {
        within!(self, alloc; obj_type index_type)
    }
}

impl<N: FaultIn> FindsFault for TsConditionalType<N> {
    ghost found = { λ n. findings N.found_as (ts_conditional_type n) };

    #[tactic(auto, unfolding(crate::specs::TypeRules::ts_conditional_type, crate::specs::Rules::findings))]
    fn fault(&self, alloc: Global) -> Found {
        within!(self, alloc; check_type extends_type true_type false_type)
    }
}

impl<N: FaultIn> FindsFault for TsInferType<N> {
    ghost found = { λ n. findings N.found_as (ts_infer_type n) };

    #[tactic(auto, unfolding(crate::specs::TypeRules::ts_infer_type, crate::specs::Rules::findings))]
    fn fault(&self, alloc: Global) -> Found {
        within!(self, alloc; type_param)
    }
}

impl FindsFault for TsThisTypeOrIdent {
    ghost found = { λ n. findings no_links (ts_this_type_or_ident n) };

    #[tactic(auto, unfolding(crate::specs::TypeRules::ts_this_type_or_ident, crate::specs::Rules::findings))]
    fn fault(&self, alloc: Global) -> Found {
        match self {
            TsThisTypeOrIdent::TsThisType(_) => Ok(None),
            TsThisTypeOrIdent::Ident(node) => node.fault(alloc),
        }
    }
}

impl<N: FaultIn> FindsFault for TsTypePredicate<N> {
    ghost found = { λ n. findings N.found_as (ts_type_predicate n) };

    #[tactic(auto, unfolding(crate::specs::TypeRules::ts_type_predicate, crate::specs::Rules::findings))]
    fn fault(&self, alloc: Global) -> Found {
        within!(self, alloc; param_name type_ann)
    }
}

impl<N: FaultIn> FindsFault for TsType<N> {
    ghost found = { λ n. findings N.found_as (ts_type n) };

    #[tactic(auto, unfolding(crate::specs::TypeRules::ts_type, crate::specs::Rules::findings))]
    fn fault(&self, alloc: Global) -> Found {
        match self {
            TsType::TsKeywordType(_) | TsType::TsThisType(_) => Ok(None),
            TsType::TsFnOrConstructorType(node) => node.fault(alloc),
            TsType::TsTypeRef(node) => node.fault(alloc),
            TsType::TsTypeQuery(node) => node.fault(alloc),
            TsType::TsTypeLit(node) => node.fault(alloc),
            TsType::TsArrayType(node) => node.fault(alloc),
            TsType::TsTupleType(node) => node.fault(alloc),
            TsType::TsOptionalType(node) => node.fault(alloc),
            TsType::TsRestType(node) => node.fault(alloc),
            TsType::TsUnionOrIntersectionType(node) => node.fault(alloc),
            TsType::TsConditionalType(node) => node.fault(alloc),
            TsType::TsInferType(node) => node.fault(alloc),
            TsType::TsParenthesizedType(node) => node.fault(alloc),
            TsType::TsTypeOperator(node) => node.fault(alloc),
            TsType::TsIndexedAccessType(node) => node.fault(alloc),
            TsType::TsMappedType(node) => node.fault(alloc),
            TsType::TsLitType(node) => node.fault(alloc),
            TsType::TsTypePredicate(node) => node.fault(alloc),
            TsType::TsImportType(node) => node.fault(alloc),
        }
    }
}

impl<N: FaultIn> FindsFault for TsTypeAnn<N> {
    ghost found = { λ n. findings N.found_as (ts_type_ann n) };

    #[tactic(auto, unfolding(crate::specs::TypeRules::ts_type_ann, crate::specs::Rules::findings))]
    fn fault(&self, alloc: Global) -> Found {
        within!(self, alloc; type_ann)
    }
}

/// Whether a type parameter has no modifier.
fn has_no_modifier<N>(node: &TsTypeParam<N>) -> bool
    ensures { result
        ≡ (not node.now.is_in && (not node.now.is_out && not node.now.is_const)) }
{
    !node.is_in && !node.is_out && !node.is_const
}
