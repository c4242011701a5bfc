//! What object types and interfaces hold.

use crate::objects::Both;
use crate::reading::{Make, ReadFrom, Variant, Whole, members};
use crate::source::{Failed, Source};
use crate::{held, made, names, values};
use serde::Name;
use swc_ecma_codegen_common::Span;
use swc_ecma_codegen_tree::{
    ExprBox, TsCallSignatureDecl, TsConstructSignatureDecl, TsFnParamBox, TsGetterSignature,
    TsIndexSignature, TsInterfaceBody, TsMethodSignature, TsPropertySignature, TsSetterSignature,
    TsTypeAnnBox, TsTypeElement, TsTypeParamDeclBox,
};

impl<N: Drop> ReadFrom<N> for TsTypeElement<N> {
    type Parts = Variant;

    fn names() -> &'static [Name<'static>] {
        names!(
            TsCallSignatureDecl,
            TsConstructSignatureDecl,
            TsPropertySignature,
            TsGetterSignature,
            TsSetterSignature,
            TsMethodSignature,
            TsIndexSignature
        )
    }

    fn of<S: Source, M: Make<N>>(
        variant: Variant,
        source: &mut S,
        make: &M,
    ) -> Result<TsTypeElement<N>, Failed> {
        held!(variant, source, make => TsTypeElement {
            TsCallSignatureDecl, TsConstructSignatureDecl, TsPropertySignature, TsGetterSignature,
            TsSetterSignature, TsMethodSignature, TsIndexSignature,
        })
    }
}

impl<N: Drop> ReadFrom<N> for TsCallSignatureDecl<N> {
    type Parts = (
        Span,
        (
            Vec<TsFnParamBox<N>>,
            (Option<TsTypeAnnBox<N>>, (Option<TsTypeParamDeclBox<N>>, ())),
        ),
    );

    fn names() -> &'static [Name<'static>] {
        names!(span, params, type_ann, type_params)
    }

    fn of<S: Source, M: Make<N>>(
        values: Self::Parts,
        _source: &mut S,
        _make: &M,
    ) -> Result<TsCallSignatureDecl<N>, Failed> {
        made!(values => TsCallSignatureDecl { span, params, type_ann, type_params })
    }
}

impl<N: Drop> ReadFrom<N> for TsConstructSignatureDecl<N> {
    type Parts = (
        Span,
        (
            Vec<TsFnParamBox<N>>,
            (Option<TsTypeAnnBox<N>>, (Option<TsTypeParamDeclBox<N>>, ())),
        ),
    );

    fn names() -> &'static [Name<'static>] {
        names!(span, params, type_ann, type_params)
    }

    fn of<S: Source, M: Make<N>>(
        values: Self::Parts,
        _source: &mut S,
        _make: &M,
    ) -> Result<TsConstructSignatureDecl<N>, Failed> {
        made!(values => TsConstructSignatureDecl { span, params, type_ann, type_params })
    }
}

impl<N: Drop> ReadFrom<N> for TsPropertySignature<N> {
    type Parts = Both<
        (Span, (bool, (ExprBox<N>, ()))),
        (bool, (bool, (Option<TsTypeAnnBox<N>>, ()))),
    >;

    fn names() -> &'static [Name<'static>] {
        names!(span, readonly, key, computed, optional, type_ann)
    }

    fn of<S: Source, M: Make<N>>(
        values: Self::Parts,
        _source: &mut S,
        _make: &M,
    ) -> Result<TsPropertySignature<N>, Failed> {
        made!(values => TsPropertySignature { span, readonly, key; computed, optional, type_ann })
    }
}

impl<N: Drop> ReadFrom<N> for TsGetterSignature<N> {
    type Parts = (Span, (ExprBox<N>, (bool, (Option<TsTypeAnnBox<N>>, ()))));

    fn names() -> &'static [Name<'static>] {
        names!(span, key, computed, type_ann)
    }

    fn of<S: Source, M: Make<N>>(
        values: Self::Parts,
        _source: &mut S,
        _make: &M,
    ) -> Result<TsGetterSignature<N>, Failed> {
        made!(values => TsGetterSignature { span, key, computed, type_ann })
    }
}

impl<N: Drop> ReadFrom<N> for TsSetterSignature<N> {
    type Parts = (Span, (ExprBox<N>, (bool, (TsFnParamBox<N>, ()))));

    fn names() -> &'static [Name<'static>] {
        names!(span, key, computed, param)
    }

    fn of<S: Source, M: Make<N>>(
        values: Self::Parts,
        _source: &mut S,
        _make: &M,
    ) -> Result<TsSetterSignature<N>, Failed> {
        made!(values => TsSetterSignature { span, key, computed, param })
    }
}

impl<N: Drop> ReadFrom<N> for TsMethodSignature<N> {
    type Parts = Both<
        (Span, (ExprBox<N>, (bool, (bool, ())))),
        (
            Vec<TsFnParamBox<N>>,
            (Option<TsTypeAnnBox<N>>, (Option<TsTypeParamDeclBox<N>>, ())),
        ),
    >;

    fn names() -> &'static [Name<'static>] {
        names!(span, key, computed, optional, params, type_ann, type_params)
    }

    fn of<S: Source, M: Make<N>>(
        values: Self::Parts,
        _source: &mut S,
        _make: &M,
    ) -> Result<TsMethodSignature<N>, Failed> {
        made!(values => TsMethodSignature {
            span, key, computed, optional;
            params, type_ann, type_params
        })
    }
}

impl<N: Drop> ReadFrom<N> for TsIndexSignature<N> {
    type Parts = Both<
        (Span, (Vec<TsFnParamBox<N>>, (Option<TsTypeAnnBox<N>>, ()))),
        (bool, (bool, ())),
    >;

    fn names() -> &'static [Name<'static>] {
        names!(span, params, type_ann, readonly, is_static)
    }

    fn of<S: Source, M: Make<N>>(
        values: Self::Parts,
        _source: &mut S,
        _make: &M,
    ) -> Result<TsIndexSignature<N>, Failed> {
        made!(values => TsIndexSignature { span, params, type_ann; readonly, is_static })
    }
}

impl<N: Drop> ReadFrom<N> for TsInterfaceBody<N> {
    type Parts = Whole;

    fn of<S: Source, M: Make<N>>(
        _whole: Whole,
        source: &mut S,
        make: &M,
    ) -> Result<TsInterfaceBody<N>, Failed> {
        let values!(span, body) = members(names!(span, body), source, make)?;
        Ok(TsInterfaceBody { span, body })
    }
}
