//! Where types stand.

ghost use Rattle.swc_ecma_codegen_spans.specs.Spans.{ts_type_span, ts_fn_or_constructor_type_span, ts_union_or_intersection_type_span, ts_this_type_or_ident_span, ts_lit_span, ts_type_query_expr_span, ts_entity_name_span, ts_fn_param_span};

use crate::spanned::Spanned;
use swc_ecma_codegen_common::Span;
use swc_ecma_codegen_tree::{
    TsArrayType, TsConditionalType, TsConstructorType, TsEntityName, TsFnOrConstructorType,
    TsFnParam, TsFnType, TsImportType, TsIndexedAccessType, TsInferType, TsIntersectionType,
    TsKeywordType, TsLit, TsLitType, TsMappedType, TsOptionalType, TsParenthesizedType,
    TsQualifiedName, TsRestType, TsThisType, TsThisTypeOrIdent, TsTplLitType, TsTupleElement,
    TsTupleType, TsType, TsTypeAnn, TsTypeLit, TsTypeOperator, TsTypeParam, TsTypeParamDecl,
    TsTypeParamInstantiation, TsTypePredicate, TsTypeQuery, TsTypeQueryExpr, TsTypeRef,
    TsUnionOrIntersectionType, TsUnionType,
};

impl<N> Spanned for TsTypeAnn<N> {
    ghost place = { λ n. n.span };

    fn span(&self) -> Span {
        self.span
    }
}

impl<N> Spanned for TsType<N> {
    ghost place = { ts_type_span };

    #[tactic(auto, unfolding(crate::specs::Spans::ts_type_span))]
    fn span(&self) -> Span {
        match self {
            TsType::TsKeywordType(node) => node.span(),
            TsType::TsThisType(node) => node.span(),
            TsType::TsFnOrConstructorType(node) => node.span(),
            TsType::TsTypeRef(node) => node.span(),
            TsType::TsTypeQuery(node) => node.span(),
            TsType::TsTypeLit(node) => node.span(),
            TsType::TsArrayType(node) => node.span(),
            TsType::TsTupleType(node) => node.span(),
            TsType::TsOptionalType(node) => node.span(),
            TsType::TsRestType(node) => node.span(),
            TsType::TsUnionOrIntersectionType(node) => node.span(),
            TsType::TsConditionalType(node) => node.span(),
            TsType::TsInferType(node) => node.span(),
            TsType::TsParenthesizedType(node) => node.span(),
            TsType::TsTypeOperator(node) => node.span(),
            TsType::TsIndexedAccessType(node) => node.span(),
            TsType::TsMappedType(node) => node.span(),
            TsType::TsLitType(node) => node.span(),
            TsType::TsTypePredicate(node) => node.span(),
            TsType::TsImportType(node) => node.span(),
        }
    }
}

impl Spanned for TsKeywordType {
    ghost place = { λ n. n.span };

    fn span(&self) -> Span {
        self.span
    }
}

impl Spanned for TsThisType {
    ghost place = { λ n. n.span };

    fn span(&self) -> Span {
        self.span
    }
}

impl<N> Spanned for TsFnOrConstructorType<N> {
    ghost place = { ts_fn_or_constructor_type_span };

    #[tactic(auto, unfolding(crate::specs::Spans::ts_fn_or_constructor_type_span))]
    fn span(&self) -> Span {
        match self {
            TsFnOrConstructorType::TsFnType(node) => node.span(),
            TsFnOrConstructorType::TsConstructorType(node) => node.span(),
        }
    }
}

impl<N> Spanned for TsConstructorType<N> {
    ghost place = { λ n. n.span };

    fn span(&self) -> Span {
        self.span
    }
}

impl<N> Spanned for TsTypeRef<N> {
    ghost place = { λ n. n.span };

    fn span(&self) -> Span {
        self.span
    }
}

impl<N> Spanned for TsTypeQuery<N> {
    ghost place = { λ n. n.span };

    fn span(&self) -> Span {
        self.span
    }
}

impl<N> Spanned for TsTypeLit<N> {
    ghost place = { λ n. n.span };

    fn span(&self) -> Span {
        self.span
    }
}

impl<N> Spanned for TsArrayType<N> {
    ghost place = { λ n. n.span };

    fn span(&self) -> Span {
        self.span
    }
}

impl<N> Spanned for TsTupleType<N> {
    ghost place = { λ n. n.span };

    fn span(&self) -> Span {
        self.span
    }
}

impl<N> Spanned for TsOptionalType<N> {
    ghost place = { λ n. n.span };

    fn span(&self) -> Span {
        self.span
    }
}

impl<N> Spanned for TsRestType<N> {
    ghost place = { λ n. n.span };

    fn span(&self) -> Span {
        self.span
    }
}

impl<N> Spanned for TsUnionOrIntersectionType<N> {
    ghost place = { ts_union_or_intersection_type_span };

    #[tactic(auto, unfolding(crate::specs::Spans::ts_union_or_intersection_type_span))]
    fn span(&self) -> Span {
        match self {
            TsUnionOrIntersectionType::TsUnionType(node) => node.span(),
            TsUnionOrIntersectionType::TsIntersectionType(node) => node.span(),
        }
    }
}

impl<N> Spanned for TsUnionType<N> {
    ghost place = { λ n. n.span };

    fn span(&self) -> Span {
        self.span
    }
}

impl<N> Spanned for TsIntersectionType<N> {
    ghost place = { λ n. n.span };

    fn span(&self) -> Span {
        self.span
    }
}

impl<N> Spanned for TsConditionalType<N> {
    ghost place = { λ n. n.span };

    fn span(&self) -> Span {
        self.span
    }
}

impl<N> Spanned for TsInferType<N> {
    ghost place = { λ n. n.span };

    fn span(&self) -> Span {
        self.span
    }
}

impl<N> Spanned for TsParenthesizedType<N> {
    ghost place = { λ n. n.span };

    fn span(&self) -> Span {
        self.span
    }
}

impl<N> Spanned for TsTypeOperator<N> {
    ghost place = { λ n. n.span };

    fn span(&self) -> Span {
        self.span
    }
}

impl<N> Spanned for TsIndexedAccessType<N> {
    ghost place = { λ n. n.span };

    fn span(&self) -> Span {
        self.span
    }
}

impl<N> Spanned for TsMappedType<N> {
    ghost place = { λ n. n.span };

    fn span(&self) -> Span {
        self.span
    }
}

impl<N> Spanned for TsLitType<N> {
    ghost place = { λ n. n.span };

    fn span(&self) -> Span {
        self.span
    }
}

impl<N> Spanned for TsTypePredicate<N> {
    ghost place = { λ n. n.span };

    fn span(&self) -> Span {
        self.span
    }
}

impl<N> Spanned for TsImportType<N> {
    ghost place = { λ n. n.span };

    fn span(&self) -> Span {
        self.span
    }
}

impl Spanned for TsThisTypeOrIdent {
    ghost place = { ts_this_type_or_ident_span };

    #[tactic(auto, unfolding(crate::specs::Spans::ts_this_type_or_ident_span))]
    fn span(&self) -> Span {
        match self {
            TsThisTypeOrIdent::TsThisType(node) => node.span(),
            TsThisTypeOrIdent::Ident(node) => node.span(),
        }
    }
}

impl<N> Spanned for TsLit<N> {
    ghost place = { ts_lit_span };

    #[tactic(auto, unfolding(crate::specs::Spans::ts_lit_span))]
    fn span(&self) -> Span {
        match self {
            TsLit::Number(node) => node.span(),
            TsLit::Str(node) => node.span(),
            TsLit::Bool(node) => node.span(),
            TsLit::BigInt(node) => node.span(),
            TsLit::Tpl(node) => node.span(),
        }
    }
}

impl<N> Spanned for TsTplLitType<N> {
    ghost place = { λ n. n.span };

    fn span(&self) -> Span {
        self.span
    }
}

impl<N> Spanned for TsTupleElement<N> {
    ghost place = { λ n. n.span };

    fn span(&self) -> Span {
        self.span
    }
}

impl<N: Spanned> Spanned for TsTypeQueryExpr<N> {
    ghost place = { ts_type_query_expr_span N.place };

    #[tactic(auto, unfolding(crate::specs::Spans::ts_type_query_expr_span))]
    fn span(&self) -> Span {
        match self {
            TsTypeQueryExpr::TsEntityName(node) => node.span(),
            TsTypeQueryExpr::Import(node) => node.span(),
        }
    }
}

impl<N> Spanned for TsEntityName<N> {
    ghost place = { ts_entity_name_span };

    #[tactic(auto, unfolding(crate::specs::Spans::ts_entity_name_span))]
    fn span(&self) -> Span {
        match self {
            TsEntityName::TsQualifiedName(node) => node.span(),
            TsEntityName::Ident(node) => node.span(),
        }
    }
}

impl<N> Spanned for TsQualifiedName<N> {
    ghost place = { λ n. n.span };

    fn span(&self) -> Span {
        self.span
    }
}

impl<N> Spanned for TsFnType<N> {
    ghost place = { λ n. n.span };

    fn span(&self) -> Span {
        self.span
    }
}

impl<N> Spanned for TsFnParam<N> {
    ghost place = { ts_fn_param_span };

    #[tactic(auto, unfolding(crate::specs::Spans::ts_fn_param_span))]
    fn span(&self) -> Span {
        match self {
            TsFnParam::Ident(node) => node.span(),
            TsFnParam::Array(node) => node.span(),
            TsFnParam::Rest(node) => node.span(),
            TsFnParam::Object(node) => node.span(),
        }
    }
}

impl<N> Spanned for TsTypeParamDecl<N> {
    ghost place = { λ n. n.span };

    fn span(&self) -> Span {
        self.span
    }
}

impl<N> Spanned for TsTypeParamInstantiation<N> {
    ghost place = { λ n. n.span };

    fn span(&self) -> Span {
        self.span
    }
}

impl<N> Spanned for TsTypeParam<N> {
    ghost place = { λ n. n.span };

    fn span(&self) -> Span {
        self.span
    }
}
