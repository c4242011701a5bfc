//! Patterns.

use crate::reading::{Make, ReadFrom, Variant};
use crate::source::{Failed, Source};
use crate::{held, made, names};
use serde::Name;
use swc_ecma_codegen_common::Span;
use swc_ecma_codegen_tree::{
    ArrayPat, AssignPat, AssignPatProp, AssignTargetPat, BindingIdent, ExprBox, KeyValuePatProp,
    ObjectPat, ObjectPatProp, Pat, PatBox, PropName, RestPat, TsTypeAnnBox,
};

impl<N: Drop> ReadFrom<N> for Pat<N> {
    type Parts = Variant;

    fn names() -> &'static [Name<'static>] {
        names!(Ident, Array, Rest, Object, Assign, Invalid, Expr)
    }

    fn of<S: Source, M: Make<N>>(
        variant: Variant,
        source: &mut S,
        make: &M,
    ) -> Result<Pat<N>, Failed> {
        held!(variant, source, make => Pat { Ident, Array, Rest, Object, Assign, Invalid, Expr })
    }
}

impl<N: Drop> ReadFrom<N> for ArrayPat<N> {
    type Parts = (
        Span,
        (
            Vec<Option<PatBox<N>>>,
            (bool, (Option<TsTypeAnnBox<N>>, ())),
        ),
    );

    fn names() -> &'static [Name<'static>] {
        names!(span, elems, optional, type_ann)
    }

    fn of<S: Source, M: Make<N>>(
        values: Self::Parts,
        _source: &mut S,
        _make: &M,
    ) -> Result<ArrayPat<N>, Failed> {
        made!(values => ArrayPat { span, elems, optional, type_ann })
    }
}

impl<N: Drop> ReadFrom<N> for ObjectPat<N> {
    type Parts = (
        Span,
        (Vec<ObjectPatProp<N>>, (bool, (Option<TsTypeAnnBox<N>>, ()))),
    );

    fn names() -> &'static [Name<'static>] {
        names!(span, props, optional, type_ann)
    }

    fn of<S: Source, M: Make<N>>(
        values: Self::Parts,
        _source: &mut S,
        _make: &M,
    ) -> Result<ObjectPat<N>, Failed> {
        made!(values => ObjectPat { span, props, optional, type_ann })
    }
}

impl<N: Drop> ReadFrom<N> for RestPat<N> {
    type Parts = (Span, (Span, (PatBox<N>, (Option<TsTypeAnnBox<N>>, ()))));

    fn names() -> &'static [Name<'static>] {
        names!(span, dot3_token, arg, type_ann)
    }

    fn of<S: Source, M: Make<N>>(
        values: Self::Parts,
        _source: &mut S,
        _make: &M,
    ) -> Result<RestPat<N>, Failed> {
        made!(values => RestPat { span, dot3_token, arg, type_ann })
    }
}

impl<N: Drop> ReadFrom<N> for AssignPat<N> {
    type Parts = (Span, (PatBox<N>, (ExprBox<N>, ())));

    fn names() -> &'static [Name<'static>] {
        names!(span, left, right)
    }

    fn of<S: Source, M: Make<N>>(
        values: Self::Parts,
        _source: &mut S,
        _make: &M,
    ) -> Result<AssignPat<N>, Failed> {
        made!(values => AssignPat { span, left, right })
    }
}

impl<N: Drop> ReadFrom<N> for ObjectPatProp<N> {
    type Parts = Variant;

    fn names() -> &'static [Name<'static>] {
        names!(KeyValue, Assign, Rest)
    }

    fn of<S: Source, M: Make<N>>(
        variant: Variant,
        source: &mut S,
        make: &M,
    ) -> Result<ObjectPatProp<N>, Failed> {
        held!(variant, source, make => ObjectPatProp { KeyValue, Assign, Rest })
    }
}

impl<N: Drop> ReadFrom<N> for KeyValuePatProp<N> {
    type Parts = (PropName<N>, (PatBox<N>, ()));

    fn names() -> &'static [Name<'static>] {
        names!(key, value)
    }

    fn of<S: Source, M: Make<N>>(
        values: Self::Parts,
        _source: &mut S,
        _make: &M,
    ) -> Result<KeyValuePatProp<N>, Failed> {
        made!(values => KeyValuePatProp { key, value })
    }
}

impl<N: Drop> ReadFrom<N> for AssignPatProp<N> {
    type Parts = (Span, (BindingIdent<N>, (Option<ExprBox<N>>, ())));

    fn names() -> &'static [Name<'static>] {
        names!(span, key, value)
    }

    fn of<S: Source, M: Make<N>>(
        values: Self::Parts,
        _source: &mut S,
        _make: &M,
    ) -> Result<AssignPatProp<N>, Failed> {
        made!(values => AssignPatProp { span, key, value })
    }
}

impl<N: Drop> ReadFrom<N> for AssignTargetPat<N> {
    type Parts = Variant;

    fn names() -> &'static [Name<'static>] {
        names!(Array, Object, Invalid)
    }

    fn of<S: Source, M: Make<N>>(
        variant: Variant,
        source: &mut S,
        make: &M,
    ) -> Result<AssignTargetPat<N>, Failed> {
        held!(variant, source, make => AssignTargetPat { Array, Object, Invalid })
    }
}
