//! What stands in place in nodes of several areas.

use crate::reading::{Make, ReadFrom, Whole, Word, members};
use crate::source::{Failed, Source};
use crate::{made, names, spelled, values};
use serde::Name;
use swc_ecma_codegen_common::Span;
use swc_ecma_codegen_tree::{
    ClassBox, ClassExpr, Decorator, ExprBox, FnExpr, FunctionBox, Ident, ImportPhase,
    SpreadElement, TplElement, TsExprWithTypeArgs,
};

impl<N: Drop> ReadFrom<N> for Decorator<N> {
    type Parts = Whole;

    fn of<S: Source, M: Make<N>>(
        _whole: Whole,
        source: &mut S,
        make: &M,
    ) -> Result<Decorator<N>, Failed> {
        let values!(span, expr) = members(names!(span, expr), source, make)?;
        Ok(Decorator { span, expr })
    }
}

impl<N: Drop> ReadFrom<N> for SpreadElement<N> {
    type Parts = (Span, (ExprBox<N>, ()));

    fn names() -> &'static [Name<'static>] {
        names!(dot3_token, expr)
    }

    fn of<S: Source, M: Make<N>>(
        values: Self::Parts,
        _source: &mut S,
        _make: &M,
    ) -> Result<SpreadElement<N>, Failed> {
        made!(values => SpreadElement { dot3_token, expr })
    }
}

impl<N: Drop> ReadFrom<N> for FnExpr<N> {
    type Parts = (Option<Ident>, (FunctionBox<N>, ()));

    fn names() -> &'static [Name<'static>] {
        names!(ident, function)
    }

    fn of<S: Source, M: Make<N>>(
        values: Self::Parts,
        _source: &mut S,
        _make: &M,
    ) -> Result<FnExpr<N>, Failed> {
        made!(values => FnExpr { ident, function })
    }
}

impl<N: Drop> ReadFrom<N> for ClassExpr<N> {
    type Parts = (Option<Ident>, (ClassBox<N>, ()));

    fn names() -> &'static [Name<'static>] {
        names!(ident, class)
    }

    fn of<S: Source, M: Make<N>>(
        values: Self::Parts,
        _source: &mut S,
        _make: &M,
    ) -> Result<ClassExpr<N>, Failed> {
        made!(values => ClassExpr { ident, class })
    }
}

impl<N: Drop> ReadFrom<N> for TplElement {
    type Parts = Whole;

    fn of<S: Source, M: Make<N>>(
        _whole: Whole,
        source: &mut S,
        make: &M,
    ) -> Result<TplElement, Failed> {
        let values!(span, raw) = members(names!(span, raw), source, make)?;
        Ok(TplElement { span, raw })
    }
}

impl<N: Drop> ReadFrom<N> for ImportPhase {
    type Parts = Word;

    fn names() -> &'static [Name<'static>] {
        names!(Evaluation, Source, Defer)
    }

    fn of<S: Source, M: Make<N>>(
        word: Word,
        source: &mut S,
        _make: &M,
    ) -> Result<ImportPhase, Failed> {
        spelled!(word, source => ImportPhase { Evaluation, Source, Defer })
    }
}

impl<N: Drop> ReadFrom<N> for TsExprWithTypeArgs<N> {
    type Parts = Whole;

    fn of<S: Source, M: Make<N>>(
        _whole: Whole,
        source: &mut S,
        make: &M,
    ) -> Result<TsExprWithTypeArgs<N>, Failed> {
        let values!(span, expr, type_args) = members(names!(span, expr, type_args), source, make)?;
        Ok(TsExprWithTypeArgs {
            span,
            expr,
            type_args,
        })
    }
}
