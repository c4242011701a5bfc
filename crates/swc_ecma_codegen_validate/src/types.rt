//! Types of TypeScript.

ghost use Rattle.std.specs.Prelude.{◌≡◌};
ghost use Rattle.swc_ecma_codegen_grammar.specs.Phrases.{is_possible};
ghost use Rattle.swc_ecma_codegen_grammar.specs.TypePhrases.{ts_qualified_name, ts_entity_name, ts_type_ref, ts_type_param_instantiation, ts_type_param, ts_type_param_decl, ts_fn_param, ts_fn_type, ts_constructor_type, ts_fn_or_constructor_type, ts_tpl_lit_type, ts_lit, ts_lit_type, ts_import_type, ts_type_query_expr, ts_type_query, ts_type_lit, ts_array_type, ts_tuple_element, ts_tuple_type, ts_optional_type, ts_rest_type, mapped_param, ts_mapped_type, ts_union_type, ts_intersection_type, ts_union_or_intersection_type, ts_parenthesized_type, ts_type_operator, ts_indexed_access_type, ts_conditional_type, ts_infer_type, ts_this_type_or_ident, ts_type_predicate, ts_type, ts_type_ann};

use crate::forms::{Fits, WellFormed, all_well_formed};
use crate::templates::{all_elements, is_counted};
use swc_ecma_codegen_tree::{
    TsArrayType, TsConditionalType, TsConstructorType, TsEntityName, TsFnOrConstructorType,
    TsFnParam, TsFnType, TsImportType, TsIndexedAccessType, TsInferType, TsIntersectionType, TsLit,
    TsLitType, TsMappedType, TsOptionalType, TsParenthesizedType, TsQualifiedName, TsRestType,
    TsThisTypeOrIdent, TsTplLitType, TsTupleElement, TsTupleType, TsType, TsTypeAnn, TsTypeBox,
    TsTypeLit, TsTypeOperator, TsTypeParam, TsTypeParamDecl, TsTypeParamInstantiation,
    TsTypePredicate, TsTypeQuery, TsTypeQueryExpr, TsTypeRef, TsUnionOrIntersectionType,
    TsUnionType,
};

impl<N: Fits> WellFormed for TsQualifiedName<N> {
    ghost phrase = { ts_qualified_name N.reads };

    #[tactic(auto, unfolding(swc_ecma_codegen_grammar::specs::TypePhrases::ts_qualified_name, swc_ecma_codegen_grammar::specs::Phrases::is_possible))]
    fn is_well_formed(&self) -> bool {
        self.left.is_well_formed() && self.right.is_well_formed()
    }
}

impl<N: Fits> WellFormed for TsEntityName<N> {
    ghost phrase = { ts_entity_name N.reads };

    #[tactic(auto, unfolding(swc_ecma_codegen_grammar::specs::TypePhrases::ts_entity_name, swc_ecma_codegen_grammar::specs::Phrases::is_possible))]
    fn is_well_formed(&self) -> bool {
        match self {
            TsEntityName::TsQualifiedName(node) => node.is_well_formed(),
            TsEntityName::Ident(node) => node.is_well_formed(),
        }
    }
}

impl<N: Fits> WellFormed for TsTypeRef<N> {
    ghost phrase = { ts_type_ref N.reads };

    #[tactic(auto, using(crate::proofs::TypesPossible::ref_possible))]
    fn is_well_formed(&self) -> bool {
        self.type_name.is_well_formed() && self.type_params.is_well_formed()
    }
}

impl<N: Fits> WellFormed for TsTypeParamInstantiation<N> {
    ghost phrase = { ts_type_param_instantiation N.reads };

    #[tactic(auto, using(crate::proofs::TypesPossible::arguments_possible))]
    fn is_well_formed(&self) -> bool {
        !self.params.is_empty() && all_well_formed(&self.params)
    }
}

impl<N: Fits> WellFormed for TsTypeParam<N> {
    ghost phrase = { ts_type_param N.reads };

    #[tactic(auto, using(crate::proofs::TypesPossible::param_possible))]
    fn is_well_formed(&self) -> bool {
        self.name.is_well_formed()
            && self.constraint.is_well_formed()
            && self.default.is_well_formed()
    }
}

impl<N: Fits> WellFormed for TsTypeParamDecl<N> {
    ghost phrase = { ts_type_param_decl N.reads };

    #[tactic(auto, using(crate::proofs::TypesPossible::params_possible))]
    fn is_well_formed(&self) -> bool {
        !self.params.is_empty() && all_well_formed(&self.params)
    }
}

impl<N: Fits> WellFormed for TsFnParam<N> {
    ghost phrase = { ts_fn_param N.reads };

    #[tactic(auto, unfolding(swc_ecma_codegen_grammar::specs::TypePhrases::ts_fn_param, swc_ecma_codegen_grammar::specs::Phrases::is_possible))]
    fn is_well_formed(&self) -> bool {
        match self {
            TsFnParam::Ident(node) => node.is_well_formed(),
            TsFnParam::Array(node) => node.is_well_formed(),
            TsFnParam::Rest(node) => node.is_well_formed(),
            TsFnParam::Object(node) => node.is_well_formed(),
        }
    }
}

impl<N: Fits> WellFormed for TsFnType<N> {
    ghost phrase = { ts_fn_type N.reads };

    #[tactic(auto, using(crate::proofs::TypesPossible::fn_type_possible))]
    fn is_well_formed(&self) -> bool {
        self.type_params.is_well_formed()
            && all_well_formed(&self.params)
            && self.type_ann.is_well_formed()
    }
}

impl<N: Fits> WellFormed for TsConstructorType<N> {
    ghost phrase = { ts_constructor_type N.reads };

    #[tactic(auto, using(crate::proofs::TypesPossible::constructor_type_possible))]
    fn is_well_formed(&self) -> bool {
        self.type_params.is_well_formed()
            && all_well_formed(&self.params)
            && self.type_ann.is_well_formed()
    }
}

impl<N: Fits> WellFormed for TsFnOrConstructorType<N> {
    ghost phrase = { ts_fn_or_constructor_type N.reads };

    #[tactic(auto, unfolding(swc_ecma_codegen_grammar::specs::TypePhrases::ts_fn_or_constructor_type, swc_ecma_codegen_grammar::specs::Phrases::is_possible))]
    fn is_well_formed(&self) -> bool {
        match self {
            TsFnOrConstructorType::TsFnType(node) => node.is_well_formed(),
            TsFnOrConstructorType::TsConstructorType(node) => node.is_well_formed(),
        }
    }
}

impl<N: Fits> WellFormed for TsTplLitType<N> {
    ghost phrase = { ts_tpl_lit_type N.reads };

    #[tactic(auto, using(crate::proofs::TypesPossible::tpl_type_possible))]
    fn is_well_formed(&self) -> bool {
        is_counted(&self.types, &self.quasis)
            && all_elements(false, &self.quasis)
            && all_well_formed(&self.types)
    }
}

impl<N: Fits> WellFormed for TsLit<N> {
    ghost phrase = { ts_lit N.reads };

    #[tactic(auto, unfolding(swc_ecma_codegen_grammar::specs::TypePhrases::ts_lit, swc_ecma_codegen_grammar::specs::Phrases::is_possible))]
    fn is_well_formed(&self) -> bool {
        match self {
            TsLit::Number(node) => node.is_well_formed(),
            TsLit::Str(node) => node.is_well_formed(),
            TsLit::Bool(node) => node.is_well_formed(),
            TsLit::BigInt(node) => node.is_well_formed(),
            TsLit::Tpl(node) => node.is_well_formed(),
        }
    }
}

impl<N: Fits> WellFormed for TsLitType<N> {
    ghost phrase = { ts_lit_type N.reads };

    #[tactic(auto, unfolding(swc_ecma_codegen_grammar::specs::TypePhrases::ts_lit_type, swc_ecma_codegen_grammar::specs::Phrases::is_possible))]
    fn is_well_formed(&self) -> bool {
        self.lit.is_well_formed()
    }
}

impl<N: Fits> WellFormed for TsImportType<N> {
    ghost phrase = { ts_import_type N.reads };

    #[tactic(auto, using(crate::proofs::TypesPossible::import_type_possible))]
    fn is_well_formed(&self) -> bool {
        self.arg.is_well_formed()
            && self.qualifier.is_well_formed()
            && self.type_args.is_well_formed()
    }
}

impl<N: Fits> WellFormed for TsTypeQueryExpr<N> {
    ghost phrase = { ts_type_query_expr N.reads };

    #[tactic(auto, unfolding(swc_ecma_codegen_grammar::specs::TypePhrases::ts_type_query_expr, swc_ecma_codegen_grammar::specs::Phrases::is_possible))]
    fn is_well_formed(&self) -> bool {
        match self {
            TsTypeQueryExpr::TsEntityName(node) => node.is_well_formed(),
            TsTypeQueryExpr::Import(node) => node.is_well_formed(),
        }
    }
}

impl<N: Fits> WellFormed for TsTypeQuery<N> {
    ghost phrase = { ts_type_query N.reads };

    #[tactic(auto, using(crate::proofs::TypesPossible::query_possible))]
    fn is_well_formed(&self) -> bool {
        self.expr_name.is_well_formed() && self.type_args.is_well_formed()
    }
}

impl<N: Fits> WellFormed for TsTypeLit<N> {
    ghost phrase = { ts_type_lit N.reads };

    #[tactic(auto, using(crate::proofs::TypesPossible::type_lit_possible))]
    fn is_well_formed(&self) -> bool {
        all_well_formed(&self.members)
    }
}

impl<N: Fits> WellFormed for TsArrayType<N> {
    ghost phrase = { ts_array_type N.reads };

    #[tactic(auto, using(crate::proofs::TypesPossible::array_type_possible))]
    fn is_well_formed(&self) -> bool {
        self.elem_type.is_well_formed()
    }
}

impl<N: Fits> WellFormed for TsTupleElement<N> {
    ghost phrase = { ts_tuple_element N.reads };

    #[tactic(auto, using(crate::proofs::TypesPossible::tuple_element_possible))]
    fn is_well_formed(&self) -> bool {
        self.label.is_well_formed() && self.ty.is_well_formed()
    }
}

impl<N: Fits> WellFormed for TsTupleType<N> {
    ghost phrase = { ts_tuple_type N.reads };

    #[tactic(auto, using(crate::proofs::TypesPossible::tuple_possible))]
    fn is_well_formed(&self) -> bool {
        all_well_formed(&self.elem_types)
    }
}

impl<N: Fits> WellFormed for TsOptionalType<N> {
    ghost phrase = { ts_optional_type N.reads };

    #[tactic(auto, using(crate::proofs::TypesPossible::optional_type_possible))]
    fn is_well_formed(&self) -> bool {
        self.type_ann.is_well_formed()
    }
}

impl<N: Fits> WellFormed for TsRestType<N> {
    ghost phrase = { ts_rest_type N.reads };

    #[tactic(auto, unfolding(swc_ecma_codegen_grammar::specs::TypePhrases::ts_rest_type, swc_ecma_codegen_grammar::specs::Phrases::is_possible))]
    fn is_well_formed(&self) -> bool {
        self.type_ann.is_well_formed()
    }
}

/// Whether the parameter of a mapped type is well-formed, with the type behind `as`.
#[tactic(auto, using(crate::proofs::TypesPossible::mapped_param_possible))]
fn is_mapped_param<N: Fits>(node: &TsTypeParam<N>, name_type: &Option<TsTypeBox<N>>) -> bool
    ensures { result ≡ is_possible (mapped_param N.reads node.now name_type.now) }
{
    !(node.is_in || node.is_out || node.is_const)
        && node.name.is_well_formed()
        && node.constraint.is_well_formed()
        && node.default.is_well_formed()
        && name_type.is_well_formed()
}

impl<N: Fits> WellFormed for TsMappedType<N> {
    ghost phrase = { ts_mapped_type N.reads };

    #[tactic(auto, using(crate::proofs::TypesPossible::mapped_type_possible))]
    fn is_well_formed(&self) -> bool {
        is_mapped_param(&self.type_param, &self.name_type) && self.type_ann.is_well_formed()
    }
}

impl<N: Fits> WellFormed for TsUnionType<N> {
    ghost phrase = { ts_union_type N.reads };

    #[tactic(auto, using(crate::proofs::TypesPossible::union_possible))]
    fn is_well_formed(&self) -> bool {
        !self.types.is_empty() && all_well_formed(&self.types)
    }
}

impl<N: Fits> WellFormed for TsIntersectionType<N> {
    ghost phrase = { ts_intersection_type N.reads };

    #[tactic(auto, using(crate::proofs::TypesPossible::intersection_possible))]
    fn is_well_formed(&self) -> bool {
        !self.types.is_empty() && all_well_formed(&self.types)
    }
}

impl<N: Fits> WellFormed for TsUnionOrIntersectionType<N> {
    ghost phrase = { ts_union_or_intersection_type N.reads };

    #[tactic(auto, unfolding(swc_ecma_codegen_grammar::specs::TypePhrases::ts_union_or_intersection_type, swc_ecma_codegen_grammar::specs::Phrases::is_possible))]
    fn is_well_formed(&self) -> bool {
        match self {
            TsUnionOrIntersectionType::TsUnionType(node) => node.is_well_formed(),
            TsUnionOrIntersectionType::TsIntersectionType(node) => node.is_well_formed(),
        }
    }
}

impl<N: Fits> WellFormed for TsParenthesizedType<N> {
    ghost phrase = { ts_parenthesized_type N.reads };

    #[tactic(auto, using(crate::proofs::TypesPossible::parenthesized_possible))]
    fn is_well_formed(&self) -> bool {
        self.type_ann.is_well_formed()
    }
}

impl<N: Fits> WellFormed for TsTypeOperator<N> {
    ghost phrase = { ts_type_operator N.reads };

    #[tactic(auto, unfolding(swc_ecma_codegen_grammar::specs::TypePhrases::ts_type_operator, swc_ecma_codegen_grammar::specs::Phrases::is_possible))]
    fn is_well_formed(&self) -> bool {
        self.type_ann.is_well_formed()
    }
}

impl<N: Fits> WellFormed for TsIndexedAccessType<N> {
    ghost phrase = { ts_indexed_access_type N.reads };

    #[tactic(auto, using(crate::proofs::TypesPossible::indexed_possible))]
    fn is_well_formed(&self) -> bool {
        self.obj_type.is_well_formed() && self.index_type.is_well_formed()
    }
}

impl<N: Fits> WellFormed for TsConditionalType<N> {
    ghost phrase = { ts_conditional_type N.reads };

    #[tactic(auto, unfolding(swc_ecma_codegen_grammar::specs::TypePhrases::ts_conditional_type, swc_ecma_codegen_grammar::specs::Phrases::is_possible))]
    fn is_well_formed(&self) -> bool {
        self.check_type.is_well_formed()
            && self.extends_type.is_well_formed()
            && self.true_type.is_well_formed()
            && self.false_type.is_well_formed()
    }
}

impl<N: Fits> WellFormed for TsInferType<N> {
    ghost phrase = { ts_infer_type N.reads };

    #[tactic(auto, unfolding(swc_ecma_codegen_grammar::specs::TypePhrases::ts_infer_type, swc_ecma_codegen_grammar::specs::Phrases::is_possible))]
    fn is_well_formed(&self) -> bool {
        self.type_param.is_well_formed()
    }
}

impl WellFormed for TsThisTypeOrIdent {
    ghost phrase = { ts_this_type_or_ident };

    #[tactic(auto, unfolding(swc_ecma_codegen_grammar::specs::TypePhrases::ts_this_type_or_ident, swc_ecma_codegen_grammar::specs::TypePhrases::ts_this_type, swc_ecma_codegen_grammar::specs::Phrases::is_possible))]
    fn is_well_formed(&self) -> bool {
        match self {
            TsThisTypeOrIdent::TsThisType(_) => true,
            TsThisTypeOrIdent::Ident(node) => node.is_well_formed(),
        }
    }
}

impl<N: Fits> WellFormed for TsTypePredicate<N> {
    ghost phrase = { ts_type_predicate N.reads };

    #[tactic(auto, using(crate::proofs::TypesPossible::predicate_possible))]
    fn is_well_formed(&self) -> bool {
        self.param_name.is_well_formed() && self.type_ann.is_well_formed()
    }
}

impl<N: Fits> WellFormed for TsType<N> {
    ghost phrase = { ts_type N.reads };

    #[tactic(auto, unfolding(swc_ecma_codegen_grammar::specs::TypePhrases::ts_type, swc_ecma_codegen_grammar::specs::TypePhrases::ts_keyword_type, swc_ecma_codegen_grammar::specs::TypePhrases::ts_this_type, swc_ecma_codegen_grammar::specs::Phrases::is_possible))]
    fn is_well_formed(&self) -> bool {
        match self {
            TsType::TsKeywordType(_) | TsType::TsThisType(_) => true,
            TsType::TsFnOrConstructorType(node) => node.is_well_formed(),
            TsType::TsTypeRef(node) => node.is_well_formed(),
            TsType::TsTypeQuery(node) => node.is_well_formed(),
            TsType::TsTypeLit(node) => node.is_well_formed(),
            TsType::TsArrayType(node) => node.is_well_formed(),
            TsType::TsTupleType(node) => node.is_well_formed(),
            TsType::TsOptionalType(node) => node.is_well_formed(),
            TsType::TsRestType(node) => node.is_well_formed(),
            TsType::TsUnionOrIntersectionType(node) => node.is_well_formed(),
            TsType::TsConditionalType(node) => node.is_well_formed(),
            TsType::TsInferType(node) => node.is_well_formed(),
            TsType::TsParenthesizedType(node) => node.is_well_formed(),
            TsType::TsTypeOperator(node) => node.is_well_formed(),
            TsType::TsIndexedAccessType(node) => node.is_well_formed(),
            TsType::TsMappedType(node) => node.is_well_formed(),
            TsType::TsLitType(node) => node.is_well_formed(),
            TsType::TsTypePredicate(node) => node.is_well_formed(),
            TsType::TsImportType(node) => node.is_well_formed(),
        }
    }
}

impl<N: Fits> WellFormed for TsTypeAnn<N> {
    ghost phrase = { ts_type_ann N.reads };

    #[tactic(auto, unfolding(swc_ecma_codegen_grammar::specs::TypePhrases::ts_type_ann, swc_ecma_codegen_grammar::specs::Phrases::is_possible))]
    fn is_well_formed(&self) -> bool {
        self.type_ann.is_well_formed()
    }
}
