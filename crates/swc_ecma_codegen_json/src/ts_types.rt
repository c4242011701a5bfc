//! Types of TypeScript.

use crate::objects::Both;
use crate::reading::{Make, ReadFrom, Variant, Whole, members};
use crate::source::{Failed, Source};
use crate::{held, made, names, values};
use serde::Name;
use swc_ecma_codegen_common::Span;
use swc_ecma_codegen_tree::{
    Str, TruePlusMinus, TsArrayType, TsConditionalType, TsConstructorType, TsEntityNameBox,
    TsFnOrConstructorType, TsFnParamBox, TsFnType, TsImportType, TsIndexedAccessType, TsInferType,
    TsIntersectionType, TsKeywordType, TsKeywordTypeKind, TsLit, TsLitType, TsMappedType,
    TsOptionalType, TsParenthesizedType, TsRestType, TsThisType, TsThisTypeOrIdent, TsTupleElement,
    TsTupleType, TsType, TsTypeAnn, TsTypeAnnBox, TsTypeBox, TsTypeElement, TsTypeLit,
    TsTypeOperator, TsTypeOperatorOp, TsTypeParam, TsTypeParamDecl, TsTypeParamDeclBox,
    TsTypeParamInstantiation, TsTypeParamInstantiationBox, TsTypePredicate, TsTypeQuery,
    TsTypeQueryExpr, TsTypeRef, TsUnionOrIntersectionType, TsUnionType,
};

impl<N: Drop> ReadFrom<N> for TsTypeAnn<N> {
    type Parts = (Span, (TsType<N>, ()));

    fn names() -> &'static [Name<'static>] {
        names!(span, type_ann)
    }

    fn of<S: Source, M: Make<N>>(
        values: Self::Parts,
        _source: &mut S,
        _make: &M,
    ) -> Result<TsTypeAnn<N>, Failed> {
        made!(values => TsTypeAnn { span, type_ann })
    }
}

impl<N: Drop> ReadFrom<N> for TsKeywordType {
    type Parts = (Span, (TsKeywordTypeKind, ()));

    fn names() -> &'static [Name<'static>] {
        names!(span, kind)
    }

    fn of<S: Source, M: Make<N>>(
        values: Self::Parts,
        _source: &mut S,
        _make: &M,
    ) -> Result<TsKeywordType, Failed> {
        made!(values => TsKeywordType { span, kind })
    }
}

impl<N: Drop> ReadFrom<N> for TsThisType {
    type Parts = (Span, ());

    fn names() -> &'static [Name<'static>] {
        names!(span)
    }

    fn of<S: Source, M: Make<N>>(
        values: Self::Parts,
        _source: &mut S,
        _make: &M,
    ) -> Result<TsThisType, Failed> {
        made!(values => TsThisType { span })
    }
}

impl<N: Drop> ReadFrom<N> for TsFnOrConstructorType<N> {
    type Parts = Variant;

    fn names() -> &'static [Name<'static>] {
        names!(TsFnType, TsConstructorType)
    }

    fn of<S: Source, M: Make<N>>(
        variant: Variant,
        source: &mut S,
        make: &M,
    ) -> Result<TsFnOrConstructorType<N>, Failed> {
        held!(variant, source, make => TsFnOrConstructorType {
            TsFnType, TsConstructorType,
        })
    }
}

impl<N: Drop> ReadFrom<N> for TsConstructorType<N> {
    type Parts = Both<
        (
            Span,
            (Vec<TsFnParamBox<N>>, (Option<TsTypeParamDeclBox<N>>, ())),
        ),
        (TsTypeAnnBox<N>, (bool, ())),
    >;

    fn names() -> &'static [Name<'static>] {
        names!(span, params, type_params, type_ann, is_abstract)
    }

    fn of<S: Source, M: Make<N>>(
        values: Self::Parts,
        _source: &mut S,
        _make: &M,
    ) -> Result<TsConstructorType<N>, Failed> {
        made!(values => TsConstructorType { span, params, type_params; type_ann, is_abstract })
    }
}

impl<N: Drop> ReadFrom<N> for TsTypeRef<N> {
    type Parts = (
        Span,
        (
            TsEntityNameBox<N>,
            (Option<TsTypeParamInstantiationBox<N>>, ()),
        ),
    );

    fn names() -> &'static [Name<'static>] {
        names!(span, type_name, type_params)
    }

    fn of<S: Source, M: Make<N>>(
        values: Self::Parts,
        _source: &mut S,
        _make: &M,
    ) -> Result<TsTypeRef<N>, Failed> {
        made!(values => TsTypeRef { span, type_name, type_params })
    }
}

impl<N: Drop> ReadFrom<N> for TsTypeQuery<N> {
    type Parts = (
        Span,
        (
            TsTypeQueryExpr<N>,
            (Option<TsTypeParamInstantiationBox<N>>, ()),
        ),
    );

    fn names() -> &'static [Name<'static>] {
        names!(span, expr_name, type_args)
    }

    fn of<S: Source, M: Make<N>>(
        values: Self::Parts,
        _source: &mut S,
        _make: &M,
    ) -> Result<TsTypeQuery<N>, Failed> {
        made!(values => TsTypeQuery { span, expr_name, type_args })
    }
}

impl<N: Drop> ReadFrom<N> for TsTypeLit<N> {
    type Parts = (Span, (Vec<TsTypeElement<N>>, ()));

    fn names() -> &'static [Name<'static>] {
        names!(span, members)
    }

    fn of<S: Source, M: Make<N>>(
        values: Self::Parts,
        _source: &mut S,
        _make: &M,
    ) -> Result<TsTypeLit<N>, Failed> {
        made!(values => TsTypeLit { span, members })
    }
}

impl<N: Drop> ReadFrom<N> for TsArrayType<N> {
    type Parts = (Span, (TsTypeBox<N>, ()));

    fn names() -> &'static [Name<'static>] {
        names!(span, elem_type)
    }

    fn of<S: Source, M: Make<N>>(
        values: Self::Parts,
        _source: &mut S,
        _make: &M,
    ) -> Result<TsArrayType<N>, Failed> {
        made!(values => TsArrayType { span, elem_type })
    }
}

impl<N: Drop> ReadFrom<N> for TsTupleType<N> {
    type Parts = (Span, (Vec<TsTupleElement<N>>, ()));

    fn names() -> &'static [Name<'static>] {
        names!(span, elem_types)
    }

    fn of<S: Source, M: Make<N>>(
        values: Self::Parts,
        _source: &mut S,
        _make: &M,
    ) -> Result<TsTupleType<N>, Failed> {
        made!(values => TsTupleType { span, elem_types })
    }
}

impl<N: Drop> ReadFrom<N> for TsOptionalType<N> {
    type Parts = (Span, (TsTypeBox<N>, ()));

    fn names() -> &'static [Name<'static>] {
        names!(span, type_ann)
    }

    fn of<S: Source, M: Make<N>>(
        values: Self::Parts,
        _source: &mut S,
        _make: &M,
    ) -> Result<TsOptionalType<N>, Failed> {
        made!(values => TsOptionalType { span, type_ann })
    }
}

impl<N: Drop> ReadFrom<N> for TsRestType<N> {
    type Parts = (Span, (TsTypeBox<N>, ()));

    fn names() -> &'static [Name<'static>] {
        names!(span, type_ann)
    }

    fn of<S: Source, M: Make<N>>(
        values: Self::Parts,
        _source: &mut S,
        _make: &M,
    ) -> Result<TsRestType<N>, Failed> {
        made!(values => TsRestType { span, type_ann })
    }
}

impl<N: Drop> ReadFrom<N> for TsUnionOrIntersectionType<N> {
    type Parts = Variant;

    fn names() -> &'static [Name<'static>] {
        names!(TsUnionType, TsIntersectionType)
    }

    fn of<S: Source, M: Make<N>>(
        variant: Variant,
        source: &mut S,
        make: &M,
    ) -> Result<TsUnionOrIntersectionType<N>, Failed> {
        held!(variant, source, make => TsUnionOrIntersectionType {
            TsUnionType, TsIntersectionType,
        })
    }
}

impl<N: Drop> ReadFrom<N> for TsUnionType<N> {
    type Parts = (Span, (Vec<TsTypeBox<N>>, ()));

    fn names() -> &'static [Name<'static>] {
        names!(span, types)
    }

    fn of<S: Source, M: Make<N>>(
        values: Self::Parts,
        _source: &mut S,
        _make: &M,
    ) -> Result<TsUnionType<N>, Failed> {
        made!(values => TsUnionType { span, types })
    }
}

impl<N: Drop> ReadFrom<N> for TsIntersectionType<N> {
    type Parts = (Span, (Vec<TsTypeBox<N>>, ()));

    fn names() -> &'static [Name<'static>] {
        names!(span, types)
    }

    fn of<S: Source, M: Make<N>>(
        values: Self::Parts,
        _source: &mut S,
        _make: &M,
    ) -> Result<TsIntersectionType<N>, Failed> {
        made!(values => TsIntersectionType { span, types })
    }
}

impl<N: Drop> ReadFrom<N> for TsConditionalType<N> {
    type Parts = Both<
        (Span, (TsTypeBox<N>, (TsTypeBox<N>, ()))),
        (TsTypeBox<N>, (TsTypeBox<N>, ())),
    >;

    fn names() -> &'static [Name<'static>] {
        names!(span, check_type, extends_type, true_type, false_type)
    }

    fn of<S: Source, M: Make<N>>(
        values: Self::Parts,
        _source: &mut S,
        _make: &M,
    ) -> Result<TsConditionalType<N>, Failed> {
        made!(values => TsConditionalType { span, check_type, extends_type; true_type, false_type })
    }
}

impl<N: Drop> ReadFrom<N> for TsInferType<N> {
    type Parts = (Span, (TsTypeParam<N>, ()));

    fn names() -> &'static [Name<'static>] {
        names!(span, type_param)
    }

    fn of<S: Source, M: Make<N>>(
        values: Self::Parts,
        _source: &mut S,
        _make: &M,
    ) -> Result<TsInferType<N>, Failed> {
        made!(values => TsInferType { span, type_param })
    }
}

impl<N: Drop> ReadFrom<N> for TsParenthesizedType<N> {
    type Parts = (Span, (TsTypeBox<N>, ()));

    fn names() -> &'static [Name<'static>] {
        names!(span, type_ann)
    }

    fn of<S: Source, M: Make<N>>(
        values: Self::Parts,
        _source: &mut S,
        _make: &M,
    ) -> Result<TsParenthesizedType<N>, Failed> {
        made!(values => TsParenthesizedType { span, type_ann })
    }
}

impl<N: Drop> ReadFrom<N> for TsTypeOperator<N> {
    type Parts = (Span, (TsTypeOperatorOp, (TsTypeBox<N>, ())));

    fn names() -> &'static [Name<'static>] {
        names!(span, op, type_ann)
    }

    fn of<S: Source, M: Make<N>>(
        values: Self::Parts,
        _source: &mut S,
        _make: &M,
    ) -> Result<TsTypeOperator<N>, Failed> {
        made!(values => TsTypeOperator { span, op, type_ann })
    }
}

impl<N: Drop> ReadFrom<N> for TsIndexedAccessType<N> {
    type Parts = (Span, (TsTypeBox<N>, (TsTypeBox<N>, ())));

    fn names() -> &'static [Name<'static>] {
        names!(span, obj_type, index_type)
    }

    fn of<S: Source, M: Make<N>>(
        values: Self::Parts,
        _source: &mut S,
        _make: &M,
    ) -> Result<TsIndexedAccessType<N>, Failed> {
        made!(values => TsIndexedAccessType { span, obj_type, index_type })
    }
}

impl<N: Drop> ReadFrom<N> for TsMappedType<N> {
    type Parts = Both<
        (Span, (Option<TruePlusMinus>, (TsTypeParam<N>, ()))),
        (
            Option<TsTypeBox<N>>,
            (Option<TruePlusMinus>, (Option<TsTypeBox<N>>, ())),
        ),
    >;

    fn names() -> &'static [Name<'static>] {
        names!(span, readonly, type_param, name_type, optional, type_ann)
    }

    fn of<S: Source, M: Make<N>>(
        values: Self::Parts,
        _source: &mut S,
        _make: &M,
    ) -> Result<TsMappedType<N>, Failed> {
        made!(values => TsMappedType { span, readonly, type_param; name_type, optional, type_ann })
    }
}

impl<N: Drop> ReadFrom<N> for TsLitType<N> {
    type Parts = (Span, (TsLit<N>, ()));

    fn names() -> &'static [Name<'static>] {
        names!(span, lit)
    }

    fn of<S: Source, M: Make<N>>(
        values: Self::Parts,
        _source: &mut S,
        _make: &M,
    ) -> Result<TsLitType<N>, Failed> {
        made!(values => TsLitType { span, lit })
    }
}

impl<N: Drop> ReadFrom<N> for TsTypePredicate<N> {
    type Parts = (
        Span,
        (bool, (TsThisTypeOrIdent, (Option<TsTypeAnnBox<N>>, ()))),
    );

    fn names() -> &'static [Name<'static>] {
        names!(span, asserts, param_name, type_ann)
    }

    fn of<S: Source, M: Make<N>>(
        values: Self::Parts,
        _source: &mut S,
        _make: &M,
    ) -> Result<TsTypePredicate<N>, Failed> {
        made!(values => TsTypePredicate { span, asserts, param_name, type_ann })
    }
}

impl<N: Drop> ReadFrom<N> for TsImportType<N> {
    type Parts = (
        Span,
        (
            Str,
            (
                Option<TsEntityNameBox<N>>,
                (Option<TsTypeParamInstantiationBox<N>>, ()),
            ),
        ),
    );

    fn names() -> &'static [Name<'static>] {
        names!(span, arg, qualifier, type_args)
    }

    fn of<S: Source, M: Make<N>>(
        values: Self::Parts,
        _source: &mut S,
        _make: &M,
    ) -> Result<TsImportType<N>, Failed> {
        made!(values => TsImportType { span, arg, qualifier, type_args })
    }
}

impl<N: Drop> ReadFrom<N> for TsTypeParamDecl<N> {
    type Parts = (Span, (Vec<TsTypeParam<N>>, ()));

    fn names() -> &'static [Name<'static>] {
        names!(span, params)
    }

    fn of<S: Source, M: Make<N>>(
        values: Self::Parts,
        _source: &mut S,
        _make: &M,
    ) -> Result<TsTypeParamDecl<N>, Failed> {
        made!(values => TsTypeParamDecl { span, params })
    }
}

impl<N: Drop> ReadFrom<N> for TsTypeParamInstantiation<N> {
    type Parts = (Span, (Vec<TsTypeBox<N>>, ()));

    fn names() -> &'static [Name<'static>] {
        names!(span, params)
    }

    fn of<S: Source, M: Make<N>>(
        values: Self::Parts,
        _source: &mut S,
        _make: &M,
    ) -> Result<TsTypeParamInstantiation<N>, Failed> {
        made!(values => TsTypeParamInstantiation { span, params })
    }
}

impl<N: Drop> ReadFrom<N> for TsTypeParam<N> {
    type Parts = Whole;

    fn of<S: Source, M: Make<N>>(
        _whole: Whole,
        source: &mut S,
        make: &M,
    ) -> Result<TsTypeParam<N>, Failed> {
        let values!(span, name, is_in, is_out, is_const, constraint, default) = members(
            names!(span, name, is_in, is_out, is_const, constraint, default),
            source,
            make,
        )?;
        Ok(TsTypeParam {
            span,
            name,
            is_in,
            is_out,
            is_const,
            constraint,
            default,
        })
    }
}
