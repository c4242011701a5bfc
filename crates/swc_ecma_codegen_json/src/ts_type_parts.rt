//! What types of TypeScript are made of.

use crate::reading::{Make, ReadFrom, Variant, Whole, Word, members};
use crate::source::{Failed, Source};
use crate::{held, made, names, spelled, values};
use serde::Name;
use swc_ecma_codegen_common::Span;
use swc_ecma_codegen_tree::{
    IdentName, Str, TplElement, TruePlusMinus, TsEntityName, TsEntityNameBox, TsFnParam,
    TsFnParamBox, TsFnType, TsKeywordTypeKind, TsLit, TsQualifiedName, TsThisType,
    TsThisTypeOrIdent, TsTplLitType, TsTupleElement, TsTypeAnnBox, TsTypeBox, TsTypeOperatorOp,
    TsTypeParamDeclBox, TsTypeQueryExpr,
};

impl<N: Drop> ReadFrom<N> for TsKeywordTypeKind {
    type Parts = Word;

    fn names() -> &'static [Name<'static>] {
        names!(
            TsAnyKeyword,
            TsUnknownKeyword,
            TsNumberKeyword,
            TsObjectKeyword,
            TsBooleanKeyword,
            TsBigIntKeyword,
            TsStringKeyword,
            TsSymbolKeyword,
            TsVoidKeyword,
            TsUndefinedKeyword,
            TsNullKeyword,
            TsNeverKeyword,
            TsIntrinsicKeyword
        )
    }

    fn of<S: Source, M: Make<N>>(
        word: Word,
        source: &mut S,
        _make: &M,
    ) -> Result<TsKeywordTypeKind, Failed> {
        spelled!(word, source => TsKeywordTypeKind {
            TsAnyKeyword, TsUnknownKeyword, TsNumberKeyword, TsObjectKeyword, TsBooleanKeyword,
            TsBigIntKeyword, TsStringKeyword, TsSymbolKeyword, TsVoidKeyword, TsUndefinedKeyword,
            TsNullKeyword, TsNeverKeyword, TsIntrinsicKeyword,
        })
    }
}

impl<N: Drop> ReadFrom<N> for TsTypeOperatorOp {
    type Parts = Word;

    fn names() -> &'static [Name<'static>] {
        names!(KeyOf, Unique, ReadOnly)
    }

    fn of<S: Source, M: Make<N>>(
        word: Word,
        source: &mut S,
        _make: &M,
    ) -> Result<TsTypeOperatorOp, Failed> {
        spelled!(word, source => TsTypeOperatorOp { KeyOf, Unique, ReadOnly })
    }
}

impl<N: Drop> ReadFrom<N> for TruePlusMinus {
    type Parts = Word;

    fn names() -> &'static [Name<'static>] {
        names!(True, Plus, Minus)
    }

    fn of<S: Source, M: Make<N>>(
        word: Word,
        source: &mut S,
        _make: &M,
    ) -> Result<TruePlusMinus, Failed> {
        spelled!(word, source => TruePlusMinus { True, Plus, Minus })
    }
}

impl<N: Drop> ReadFrom<N> for TsThisTypeOrIdent {
    type Parts = Variant;

    fn names() -> &'static [Name<'static>] {
        names!(TsThisType, Ident)
    }

    fn of<S: Source, M: Make<N>>(
        variant: Variant,
        source: &mut S,
        make: &M,
    ) -> Result<TsThisTypeOrIdent, Failed> {
        held!(variant, source, make => TsThisTypeOrIdent { TsThisType, Ident })
    }
}

impl<N: Drop> ReadFrom<N> for TsLit<N> {
    type Parts = Variant;

    fn names() -> &'static [Name<'static>] {
        names!(Number, Str, Bool, BigInt, Tpl)
    }

    fn of<S: Source, M: Make<N>>(
        variant: Variant,
        source: &mut S,
        make: &M,
    ) -> Result<TsLit<N>, Failed> {
        held!(variant, source, make => TsLit { Number, Str, Bool, BigInt, Tpl })
    }
}

impl<N: Drop> ReadFrom<N> for TsTplLitType<N> {
    type Parts = (Span, (Vec<TsTypeBox<N>>, (Vec<TplElement>, ())));

    fn names() -> &'static [Name<'static>] {
        names!(span, types, quasis)
    }

    fn of<S: Source, M: Make<N>>(
        values: Self::Parts,
        _source: &mut S,
        _make: &M,
    ) -> Result<TsTplLitType<N>, Failed> {
        made!(values => TsTplLitType { span, types, quasis })
    }
}

impl<N: Drop> ReadFrom<N> for TsTupleElement<N> {
    type Parts = Whole;

    fn of<S: Source, M: Make<N>>(
        _whole: Whole,
        source: &mut S,
        make: &M,
    ) -> Result<TsTupleElement<N>, Failed> {
        let values!(span, label, ty) = members(names!(span, label, ty), source, make)?;
        Ok(TsTupleElement { span, label, ty })
    }
}

impl<N: Drop> ReadFrom<N> for TsTypeQueryExpr<N> {
    type Parts = Variant;

    fn names() -> &'static [Name<'static>] {
        names!(TsEntityName, Import)
    }

    fn of<S: Source, M: Make<N>>(
        variant: Variant,
        source: &mut S,
        make: &M,
    ) -> Result<TsTypeQueryExpr<N>, Failed> {
        held!(variant, source, make => TsTypeQueryExpr { TsEntityName, Import })
    }
}

impl<N: Drop> ReadFrom<N> for TsEntityName<N> {
    type Parts = Variant;

    fn names() -> &'static [Name<'static>] {
        names!(TsQualifiedName, Ident)
    }

    fn of<S: Source, M: Make<N>>(
        variant: Variant,
        source: &mut S,
        make: &M,
    ) -> Result<TsEntityName<N>, Failed> {
        held!(variant, source, make => TsEntityName { TsQualifiedName, Ident })
    }
}

impl<N: Drop> ReadFrom<N> for TsQualifiedName<N> {
    type Parts = (Span, (TsEntityNameBox<N>, (IdentName, ())));

    fn names() -> &'static [Name<'static>] {
        names!(span, left, right)
    }

    fn of<S: Source, M: Make<N>>(
        values: Self::Parts,
        _source: &mut S,
        _make: &M,
    ) -> Result<TsQualifiedName<N>, Failed> {
        made!(values => TsQualifiedName { span, left, right })
    }
}

impl<N: Drop> ReadFrom<N> for TsFnType<N> {
    type Parts = (
        Span,
        (
            Vec<TsFnParamBox<N>>,
            (Option<TsTypeParamDeclBox<N>>, (TsTypeAnnBox<N>, ())),
        ),
    );

    fn names() -> &'static [Name<'static>] {
        names!(span, params, type_params, type_ann)
    }

    fn of<S: Source, M: Make<N>>(
        values: Self::Parts,
        _source: &mut S,
        _make: &M,
    ) -> Result<TsFnType<N>, Failed> {
        made!(values => TsFnType { span, params, type_params, type_ann })
    }
}

impl<N: Drop> ReadFrom<N> for TsFnParam<N> {
    type Parts = Variant;

    fn names() -> &'static [Name<'static>] {
        names!(Ident, Array, Rest, Object)
    }

    fn of<S: Source, M: Make<N>>(
        variant: Variant,
        source: &mut S,
        make: &M,
    ) -> Result<TsFnParam<N>, Failed> {
        held!(variant, source, make => TsFnParam { Ident, Array, Rest, Object })
    }
}
