//! Objects and their properties.

use crate::objects::Both;
use crate::reading::{Make, ReadFrom, Variant};
use crate::source::{Failed, Source};
use crate::{held, made, names, values};
use serde::Name;
use swc_ecma_codegen_common::Span;
use swc_ecma_codegen_tree::{
    AssignProp, BlockStmtBox, ComputedPropName, ExprBox, FunctionBox, GetterProp, Ident,
    KeyValueProp, MethodProp, ObjectLit, PatBox, Prop, PropName, PropNameBox, PropOrSpread,
    SetterProp, TsTypeAnnBox,
};

impl<N: Drop> ReadFrom<N> for ObjectLit<N> {
    type Parts = (Span, (Vec<PropOrSpread<N>>, ()));

    fn names() -> &'static [Name<'static>] {
        names!(span, props)
    }

    fn of<S: Source, M: Make<N>>(
        values: Self::Parts,
        _source: &mut S,
        _make: &M,
    ) -> Result<ObjectLit<N>, Failed> {
        made!(values => ObjectLit { span, props })
    }
}

impl<N: Drop> ReadFrom<N> for PropOrSpread<N> {
    type Parts = Variant;

    fn names() -> &'static [Name<'static>] {
        names!(Spread, Prop)
    }

    fn of<S: Source, M: Make<N>>(
        variant: Variant,
        source: &mut S,
        make: &M,
    ) -> Result<PropOrSpread<N>, Failed> {
        held!(variant, source, make => PropOrSpread { Spread, Prop })
    }
}

impl<N: Drop> ReadFrom<N> for Prop<N> {
    type Parts = Variant;

    fn names() -> &'static [Name<'static>] {
        names!(Shorthand, KeyValue, Assign, Getter, Setter, Method)
    }

    fn of<S: Source, M: Make<N>>(
        variant: Variant,
        source: &mut S,
        make: &M,
    ) -> Result<Prop<N>, Failed> {
        held!(variant, source, make => Prop {
            Shorthand, KeyValue, Assign, Getter, Setter, Method,
        })
    }
}

impl<N: Drop> ReadFrom<N> for KeyValueProp<N> {
    type Parts = (PropName<N>, (ExprBox<N>, ()));

    fn names() -> &'static [Name<'static>] {
        names!(key, value)
    }

    fn of<S: Source, M: Make<N>>(
        values: Self::Parts,
        _source: &mut S,
        _make: &M,
    ) -> Result<KeyValueProp<N>, Failed> {
        made!(values => KeyValueProp { key, value })
    }
}

impl<N: Drop> ReadFrom<N> for AssignProp<N> {
    type Parts = (Ident, (ExprBox<N>, ()));

    fn names() -> &'static [Name<'static>] {
        names!(key, value)
    }

    fn of<S: Source, M: Make<N>>(
        values: Self::Parts,
        _source: &mut S,
        _make: &M,
    ) -> Result<AssignProp<N>, Failed> {
        made!(values => AssignProp { key, value })
    }
}

impl<N: Drop> ReadFrom<N> for GetterProp<N> {
    type Parts = (
        Span,
        (
            PropNameBox<N>,
            (Option<TsTypeAnnBox<N>>, (Option<BlockStmtBox<N>>, ())),
        ),
    );

    fn names() -> &'static [Name<'static>] {
        names!(span, key, type_ann, body)
    }

    fn of<S: Source, M: Make<N>>(
        values: Self::Parts,
        _source: &mut S,
        _make: &M,
    ) -> Result<GetterProp<N>, Failed> {
        made!(values => GetterProp { span, key, type_ann, body })
    }
}

impl<N: Drop> ReadFrom<N> for SetterProp<N> {
    type Parts = Both<
        (Span, (PropNameBox<N>, (Option<PatBox<N>>, ()))),
        (PatBox<N>, (Option<BlockStmtBox<N>>, ())),
    >;

    fn names() -> &'static [Name<'static>] {
        names!(span, key, this_param, param, body)
    }

    fn of<S: Source, M: Make<N>>(
        values: Self::Parts,
        _source: &mut S,
        _make: &M,
    ) -> Result<SetterProp<N>, Failed> {
        made!(values => SetterProp { span, key, this_param; param, body })
    }
}

impl<N: Drop> ReadFrom<N> for MethodProp<N> {
    type Parts = (PropName<N>, (FunctionBox<N>, ()));

    fn names() -> &'static [Name<'static>] {
        names!(key, function)
    }

    fn of<S: Source, M: Make<N>>(
        values: Self::Parts,
        _source: &mut S,
        _make: &M,
    ) -> Result<MethodProp<N>, Failed> {
        made!(values => MethodProp { key, function })
    }
}

impl<N: Drop> ReadFrom<N> for PropName<N> {
    type Parts = Variant;

    fn names() -> &'static [Name<'static>] {
        names!(Ident, Str, Num, BigInt, Computed)
    }

    fn of<S: Source, M: Make<N>>(
        variant: Variant,
        source: &mut S,
        make: &M,
    ) -> Result<PropName<N>, Failed> {
        held!(variant, source, make => PropName { Ident, Str, Num, BigInt, Computed })
    }
}

impl<N: Drop> ReadFrom<N> for ComputedPropName<N> {
    type Parts = (Span, (ExprBox<N>, ()));

    fn names() -> &'static [Name<'static>] {
        names!(span, expr)
    }

    fn of<S: Source, M: Make<N>>(
        values: Self::Parts,
        _source: &mut S,
        _make: &M,
    ) -> Result<ComputedPropName<N>, Failed> {
        made!(values => ComputedPropName { span, expr })
    }
}
