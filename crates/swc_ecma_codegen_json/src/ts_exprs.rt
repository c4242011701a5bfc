//! Expressions of TypeScript.

use crate::reading::{Make, ReadFrom};
use crate::source::{Failed, Source};
use crate::{made, names};
use serde::Name;
use swc_ecma_codegen_common::Span;
use swc_ecma_codegen_tree::{
    ExprBox, TsAsExpr, TsConstAssertion, TsInstantiation, TsNonNullExpr, TsSatisfiesExpr,
    TsTypeAssertion, TsTypeBox, TsTypeParamInstantiationBox,
};

impl<N: Drop> ReadFrom<N> for TsAsExpr<N> {
    type Parts = (Span, (ExprBox<N>, (TsTypeBox<N>, ())));

    fn names() -> &'static [Name<'static>] {
        names!(span, expr, type_ann)
    }

    fn of<S: Source, M: Make<N>>(
        values: Self::Parts,
        _source: &mut S,
        _make: &M,
    ) -> Result<TsAsExpr<N>, Failed> {
        made!(values => TsAsExpr { span, expr, type_ann })
    }
}

impl<N: Drop> ReadFrom<N> for TsSatisfiesExpr<N> {
    type Parts = (Span, (ExprBox<N>, (TsTypeBox<N>, ())));

    fn names() -> &'static [Name<'static>] {
        names!(span, expr, type_ann)
    }

    fn of<S: Source, M: Make<N>>(
        values: Self::Parts,
        _source: &mut S,
        _make: &M,
    ) -> Result<TsSatisfiesExpr<N>, Failed> {
        made!(values => TsSatisfiesExpr { span, expr, type_ann })
    }
}

impl<N: Drop> ReadFrom<N> for TsNonNullExpr<N> {
    type Parts = (Span, (ExprBox<N>, ()));

    fn names() -> &'static [Name<'static>] {
        names!(span, expr)
    }

    fn of<S: Source, M: Make<N>>(
        values: Self::Parts,
        _source: &mut S,
        _make: &M,
    ) -> Result<TsNonNullExpr<N>, Failed> {
        made!(values => TsNonNullExpr { span, expr })
    }
}

impl<N: Drop> ReadFrom<N> for TsTypeAssertion<N> {
    type Parts = (Span, (ExprBox<N>, (TsTypeBox<N>, ())));

    fn names() -> &'static [Name<'static>] {
        names!(span, expr, type_ann)
    }

    fn of<S: Source, M: Make<N>>(
        values: Self::Parts,
        _source: &mut S,
        _make: &M,
    ) -> Result<TsTypeAssertion<N>, Failed> {
        made!(values => TsTypeAssertion { span, expr, type_ann })
    }
}

impl<N: Drop> ReadFrom<N> for TsConstAssertion<N> {
    type Parts = (Span, (ExprBox<N>, ()));

    fn names() -> &'static [Name<'static>] {
        names!(span, expr)
    }

    fn of<S: Source, M: Make<N>>(
        values: Self::Parts,
        _source: &mut S,
        _make: &M,
    ) -> Result<TsConstAssertion<N>, Failed> {
        made!(values => TsConstAssertion { span, expr })
    }
}

impl<N: Drop> ReadFrom<N> for TsInstantiation<N> {
    type Parts = (Span, (ExprBox<N>, (TsTypeParamInstantiationBox<N>, ())));

    fn names() -> &'static [Name<'static>] {
        names!(span, expr, type_args)
    }

    fn of<S: Source, M: Make<N>>(
        values: Self::Parts,
        _source: &mut S,
        _make: &M,
    ) -> Result<TsInstantiation<N>, Failed> {
        made!(values => TsInstantiation { span, expr, type_args })
    }
}
