//! Classes.

use crate::objects::Both;
use crate::reading::{Make, ReadFrom, Variant, Word};
use crate::source::{Failed, Source};
use crate::{held, made, names, spelled};
use serde::Name;
use swc_ecma_codegen_common::Span;
use swc_ecma_codegen_tree::{
    Accessibility, AutoAccessor, BlockStmtBox, Class, ClassMember, ClassMemberBox, ClassMethod,
    ClassProp, Constructor, Decorator, ExprBox, FunctionBox, Key, MethodKind, ParamOrTsParamProp,
    PrivateMethod, PrivateName, PrivateProp, PropNameBox, StaticBlock, TsExprWithTypeArgs,
    TsParamProp, TsParamPropParam, TsTypeAnnBox, TsTypeParamDeclBox, TsTypeParamInstantiationBox,
};

impl<N: Drop> ReadFrom<N> for Class<N> {
    type Parts = Both<
        (
            Span,
            (
                Vec<Decorator<N>>,
                (Vec<ClassMemberBox<N>>, (Option<ExprBox<N>>, ())),
            ),
        ),
        (
            bool,
            (
                Option<TsTypeParamDeclBox<N>>,
                (
                    Option<TsTypeParamInstantiationBox<N>>,
                    (Vec<TsExprWithTypeArgs<N>>, ()),
                ),
            ),
        ),
    >;

    fn names() -> &'static [Name<'static>] {
        names!(
            span,
            decorators,
            body,
            super_class,
            is_abstract,
            type_params,
            super_type_params,
            implements
        )
    }

    fn of<S: Source, M: Make<N>>(
        values: Self::Parts,
        _source: &mut S,
        _make: &M,
    ) -> Result<Class<N>, Failed> {
        made!(values => Class {
            span, decorators, body, super_class;
            is_abstract, type_params, super_type_params, implements
        })
    }
}

impl<N: Drop> ReadFrom<N> for ClassMember<N> {
    type Parts = Variant;

    fn names() -> &'static [Name<'static>] {
        names!(
            Constructor,
            Method,
            PrivateMethod,
            ClassProp,
            PrivateProp,
            TsIndexSignature,
            Empty,
            StaticBlock,
            AutoAccessor
        )
    }

    fn of<S: Source, M: Make<N>>(
        variant: Variant,
        source: &mut S,
        make: &M,
    ) -> Result<ClassMember<N>, Failed> {
        held!(variant, source, make => ClassMember {
            Constructor, Method, PrivateMethod,
        } else fields)
    }
}

/// Fields.
#[inline(always)]
fn fields<N: Drop, S: Source, M: Make<N>>(
    variant: Variant,
    source: &mut S,
    make: &M,
) -> Result<ClassMember<N>, Failed> {
    held!(variant, source, make => ClassMember { ClassProp, PrivateProp } else other_members)
}

/// The other members.
#[inline(always)]
fn other_members<N: Drop, S: Source, M: Make<N>>(
    variant: Variant,
    source: &mut S,
    make: &M,
) -> Result<ClassMember<N>, Failed> {
    held!(variant, source, make => ClassMember {
        TsIndexSignature, Empty, StaticBlock, AutoAccessor,
    })
}

impl<N: Drop> ReadFrom<N> for PrivateMethod<N> {
    type Parts = Both<
        (Span, (PrivateName, (FunctionBox<N>, ()))),
        Both<(MethodKind, (bool, (Option<Accessibility>, ()))), (bool, (bool, (bool, ())))>,
    >;

    fn names() -> &'static [Name<'static>] {
        names!(
            span,
            key,
            function,
            kind,
            is_static,
            accessibility,
            is_abstract,
            is_optional,
            is_override
        )
    }

    fn of<S: Source, M: Make<N>>(
        values: Self::Parts,
        _source: &mut S,
        _make: &M,
    ) -> Result<PrivateMethod<N>, Failed> {
        made!(values => PrivateMethod {
            span, key, function;
            kind, is_static, accessibility;
            is_abstract, is_optional, is_override
        })
    }
}

impl<N: Drop> ReadFrom<N> for Constructor<N> {
    type Parts = (
        Span,
        (
            Option<Accessibility>,
            (Vec<ParamOrTsParamProp<N>>, (Option<BlockStmtBox<N>>, ())),
        ),
    );

    fn names() -> &'static [Name<'static>] {
        names!(span, accessibility, params, body)
    }

    fn of<S: Source, M: Make<N>>(
        values: Self::Parts,
        _source: &mut S,
        _make: &M,
    ) -> Result<Constructor<N>, Failed> {
        made!(values => Constructor { span, accessibility, params, body })
    }
}

impl<N: Drop> ReadFrom<N> for ParamOrTsParamProp<N> {
    type Parts = Variant;

    fn names() -> &'static [Name<'static>] {
        names!(TsParamProp, Param)
    }

    fn of<S: Source, M: Make<N>>(
        variant: Variant,
        source: &mut S,
        make: &M,
    ) -> Result<ParamOrTsParamProp<N>, Failed> {
        held!(variant, source, make => ParamOrTsParamProp { TsParamProp, Param })
    }
}

impl<N: Drop> ReadFrom<N> for TsParamProp<N> {
    type Parts = Both<
        (Span, (Vec<Decorator<N>>, (Option<Accessibility>, ()))),
        (bool, (bool, (TsParamPropParam<N>, ()))),
    >;

    fn names() -> &'static [Name<'static>] {
        names!(
            span,
            decorators,
            accessibility,
            is_override,
            readonly,
            param
        )
    }

    fn of<S: Source, M: Make<N>>(
        values: Self::Parts,
        _source: &mut S,
        _make: &M,
    ) -> Result<TsParamProp<N>, Failed> {
        made!(values => TsParamProp {
            span, decorators, accessibility;
            is_override, readonly, param
        })
    }
}

impl<N: Drop> ReadFrom<N> for TsParamPropParam<N> {
    type Parts = Variant;

    fn names() -> &'static [Name<'static>] {
        names!(Ident, Assign)
    }

    fn of<S: Source, M: Make<N>>(
        variant: Variant,
        source: &mut S,
        make: &M,
    ) -> Result<TsParamPropParam<N>, Failed> {
        held!(variant, source, make => TsParamPropParam { Ident, Assign })
    }
}

impl<N: Drop> ReadFrom<N> for ClassMethod<N> {
    type Parts = Both<
        (Span, (PropNameBox<N>, (FunctionBox<N>, ()))),
        Both<(MethodKind, (bool, (Option<Accessibility>, ()))), (bool, (bool, (bool, ())))>,
    >;

    fn names() -> &'static [Name<'static>] {
        names!(
            span,
            key,
            function,
            kind,
            is_static,
            accessibility,
            is_abstract,
            is_optional,
            is_override
        )
    }

    fn of<S: Source, M: Make<N>>(
        values: Self::Parts,
        _source: &mut S,
        _make: &M,
    ) -> Result<ClassMethod<N>, Failed> {
        made!(values => ClassMethod {
            span, key, function;
            kind, is_static, accessibility;
            is_abstract, is_optional, is_override
        })
    }
}

impl<N: Drop> ReadFrom<N> for MethodKind {
    type Parts = Word;

    fn names() -> &'static [Name<'static>] {
        names!(Method, Getter, Setter)
    }

    fn of<S: Source, M: Make<N>>(
        word: Word,
        source: &mut S,
        _make: &M,
    ) -> Result<MethodKind, Failed> {
        spelled!(word, source => MethodKind { Method, Getter, Setter })
    }
}

impl<N: Drop> ReadFrom<N> for Accessibility {
    type Parts = Word;

    fn names() -> &'static [Name<'static>] {
        names!(Public, Protected, Private)
    }

    fn of<S: Source, M: Make<N>>(
        word: Word,
        source: &mut S,
        _make: &M,
    ) -> Result<Accessibility, Failed> {
        spelled!(word, source => Accessibility { Public, Protected, Private })
    }
}

impl<N: Drop> ReadFrom<N> for ClassProp<N> {
    type Parts = Both<
        (
            Span,
            (
                PropNameBox<N>,
                (Option<ExprBox<N>>, (Option<TsTypeAnnBox<N>>, ())),
            ),
        ),
        Both<
            (bool, (Vec<Decorator<N>>, (Option<Accessibility>, ()))),
            Both<(bool, (bool, (bool, ()))), (bool, (bool, (bool, ())))>,
        >,
    >;

    fn names() -> &'static [Name<'static>] {
        names!(
            span,
            key,
            value,
            type_ann,
            is_static,
            decorators,
            accessibility,
            is_abstract,
            is_optional,
            is_override,
            readonly,
            declare,
            definite
        )
    }

    fn of<S: Source, M: Make<N>>(
        values: Self::Parts,
        _source: &mut S,
        _make: &M,
    ) -> Result<ClassProp<N>, Failed> {
        made!(values => ClassProp {
            span, key, value, type_ann;
            is_static, decorators, accessibility;
            is_abstract, is_optional, is_override;
            readonly, declare, definite
        })
    }
}

impl<N: Drop> ReadFrom<N> for PrivateProp<N> {
    type Parts = Both<
        (
            Span,
            (
                PrivateName,
                (Option<ExprBox<N>>, (Option<TsTypeAnnBox<N>>, ())),
            ),
        ),
        Both<
            (
                bool,
                (Vec<Decorator<N>>, (Option<Accessibility>, (bool, ()))),
            ),
            (bool, (bool, (bool, ()))),
        >,
    >;

    fn names() -> &'static [Name<'static>] {
        names!(
            span,
            key,
            value,
            type_ann,
            is_static,
            decorators,
            accessibility,
            is_optional,
            is_override,
            readonly,
            definite
        )
    }

    fn of<S: Source, M: Make<N>>(
        values: Self::Parts,
        _source: &mut S,
        _make: &M,
    ) -> Result<PrivateProp<N>, Failed> {
        made!(values => PrivateProp {
            span, key, value, type_ann;
            is_static, decorators, accessibility, is_optional;
            is_override, readonly, definite
        })
    }
}

impl<N: Drop> ReadFrom<N> for AutoAccessor<N> {
    type Parts = Both<
        (
            Span,
            (Key<N>, (Option<ExprBox<N>>, (Option<TsTypeAnnBox<N>>, ()))),
        ),
        Both<(bool, (Vec<Decorator<N>>, (Option<Accessibility>, ()))), (bool, (bool, (bool, ())))>,
    >;

    fn names() -> &'static [Name<'static>] {
        names!(
            span,
            key,
            value,
            type_ann,
            is_static,
            decorators,
            accessibility,
            is_abstract,
            is_override,
            definite
        )
    }

    fn of<S: Source, M: Make<N>>(
        values: Self::Parts,
        _source: &mut S,
        _make: &M,
    ) -> Result<AutoAccessor<N>, Failed> {
        made!(values => AutoAccessor {
            span, key, value, type_ann;
            is_static, decorators, accessibility;
            is_abstract, is_override, definite
        })
    }
}

impl<N: Drop> ReadFrom<N> for Key<N> {
    type Parts = Variant;

    fn names() -> &'static [Name<'static>] {
        names!(Private, Public)
    }

    fn of<S: Source, M: Make<N>>(
        variant: Variant,
        source: &mut S,
        make: &M,
    ) -> Result<Key<N>, Failed> {
        held!(variant, source, make => Key { Private, Public })
    }
}

impl<N: Drop> ReadFrom<N> for StaticBlock<N> {
    type Parts = (Span, (BlockStmtBox<N>, ()));

    fn names() -> &'static [Name<'static>] {
        names!(span, body)
    }

    fn of<S: Source, M: Make<N>>(
        values: Self::Parts,
        _source: &mut S,
        _make: &M,
    ) -> Result<StaticBlock<N>, Failed> {
        made!(values => StaticBlock { span, body })
    }
}
