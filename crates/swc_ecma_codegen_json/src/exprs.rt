//! What stands in expressions.

use crate::objects::Both;
use crate::reading::{Make, ReadFrom, Variant, Whole, Word, members};
use crate::source::{Failed, Source};
use crate::{held, made, names, spelled, values};
use serde::Name;
use swc_ecma_codegen_common::{AssignOp, BinaryOp, Span, UnaryOp, UpdateOp};
use swc_ecma_codegen_tree::{
    ArrayLit, ArrowExpr, AssignExpr, AssignTargetBox, AwaitExpr, BinExpr, BlockStmtOrExpr,
    CallExpr, Callee, CondExpr, ExprBox, ExprOrSpread, Ident, Import, ImportPhase, MemberExpr,
    MemberProp, MetaPropExpr, MetaPropKind, NewExpr, OptCall, OptChainBase, OptChainExpr,
    ParenExpr, PatBox, SeqExpr, Super, SuperProp, SuperPropExpr, TaggedTpl, ThisExpr, Tpl, TplBox,
    TplElement, TsTypeAnnBox, TsTypeParamDeclBox, TsTypeParamInstantiationBox, UnaryExpr,
    UpdateExpr, YieldExpr,
};

impl<N: Drop> ReadFrom<N> for ThisExpr {
    type Parts = (Span, ());

    fn names() -> &'static [Name<'static>] {
        names!(span)
    }

    fn of<S: Source, M: Make<N>>(
        values: Self::Parts,
        _source: &mut S,
        _make: &M,
    ) -> Result<ThisExpr, Failed> {
        made!(values => ThisExpr { span })
    }
}

impl<N: Drop> ReadFrom<N> for ArrayLit<N> {
    type Parts = (Span, (Vec<Option<ExprOrSpread<N>>>, ()));

    fn names() -> &'static [Name<'static>] {
        names!(span, elems)
    }

    fn of<S: Source, M: Make<N>>(
        values: Self::Parts,
        _source: &mut S,
        _make: &M,
    ) -> Result<ArrayLit<N>, Failed> {
        made!(values => ArrayLit { span, elems })
    }
}

impl<N: Drop> ReadFrom<N> for ExprOrSpread<N> {
    type Parts = Whole;

    fn of<S: Source, M: Make<N>>(
        _whole: Whole,
        source: &mut S,
        make: &M,
    ) -> Result<ExprOrSpread<N>, Failed> {
        let values!(spread, expr) = members(names!(spread, expr), source, make)?;
        Ok(ExprOrSpread { spread, expr })
    }
}

impl<N: Drop> ReadFrom<N> for UnaryExpr<N> {
    type Parts = (Span, (UnaryOp, (ExprBox<N>, ())));

    fn names() -> &'static [Name<'static>] {
        names!(span, op, arg)
    }

    fn of<S: Source, M: Make<N>>(
        values: Self::Parts,
        _source: &mut S,
        _make: &M,
    ) -> Result<UnaryExpr<N>, Failed> {
        made!(values => UnaryExpr { span, op, arg })
    }
}

impl<N: Drop> ReadFrom<N> for UpdateExpr<N> {
    type Parts = (Span, (UpdateOp, (bool, (ExprBox<N>, ()))));

    fn names() -> &'static [Name<'static>] {
        names!(span, op, prefix, arg)
    }

    fn of<S: Source, M: Make<N>>(
        values: Self::Parts,
        _source: &mut S,
        _make: &M,
    ) -> Result<UpdateExpr<N>, Failed> {
        made!(values => UpdateExpr { span, op, prefix, arg })
    }
}

impl<N: Drop> ReadFrom<N> for BinExpr<N> {
    type Parts = (Span, (BinaryOp, (ExprBox<N>, (ExprBox<N>, ()))));

    fn names() -> &'static [Name<'static>] {
        names!(span, op, left, right)
    }

    fn of<S: Source, M: Make<N>>(
        values: Self::Parts,
        _source: &mut S,
        _make: &M,
    ) -> Result<BinExpr<N>, Failed> {
        made!(values => BinExpr { span, op, left, right })
    }
}

impl<N: Drop> ReadFrom<N> for AssignExpr<N> {
    type Parts = (Span, (AssignOp, (AssignTargetBox<N>, (ExprBox<N>, ()))));

    fn names() -> &'static [Name<'static>] {
        names!(span, op, left, right)
    }

    fn of<S: Source, M: Make<N>>(
        values: Self::Parts,
        _source: &mut S,
        _make: &M,
    ) -> Result<AssignExpr<N>, Failed> {
        made!(values => AssignExpr { span, op, left, right })
    }
}

impl<N: Drop> ReadFrom<N> for MemberExpr<N> {
    type Parts = (Span, (ExprBox<N>, (MemberProp<N>, ())));

    fn names() -> &'static [Name<'static>] {
        names!(span, obj, prop)
    }

    fn of<S: Source, M: Make<N>>(
        values: Self::Parts,
        _source: &mut S,
        _make: &M,
    ) -> Result<MemberExpr<N>, Failed> {
        made!(values => MemberExpr { span, obj, prop })
    }
}

impl<N: Drop> ReadFrom<N> for MemberProp<N> {
    type Parts = Variant;

    fn names() -> &'static [Name<'static>] {
        names!(Ident, PrivateName, Computed)
    }

    fn of<S: Source, M: Make<N>>(
        variant: Variant,
        source: &mut S,
        make: &M,
    ) -> Result<MemberProp<N>, Failed> {
        held!(variant, source, make => MemberProp { Ident, PrivateName, Computed })
    }
}

impl<N: Drop> ReadFrom<N> for SuperPropExpr<N> {
    type Parts = (Span, (Super, (SuperProp<N>, ())));

    fn names() -> &'static [Name<'static>] {
        names!(span, obj, prop)
    }

    fn of<S: Source, M: Make<N>>(
        values: Self::Parts,
        _source: &mut S,
        _make: &M,
    ) -> Result<SuperPropExpr<N>, Failed> {
        made!(values => SuperPropExpr { span, obj, prop })
    }
}

impl<N: Drop> ReadFrom<N> for SuperProp<N> {
    type Parts = Variant;

    fn names() -> &'static [Name<'static>] {
        names!(Ident, Computed)
    }

    fn of<S: Source, M: Make<N>>(
        variant: Variant,
        source: &mut S,
        make: &M,
    ) -> Result<SuperProp<N>, Failed> {
        held!(variant, source, make => SuperProp { Ident, Computed })
    }
}

impl<N: Drop> ReadFrom<N> for Super {
    type Parts = Whole;

    fn of<S: Source, M: Make<N>>(_whole: Whole, source: &mut S, make: &M) -> Result<Super, Failed> {
        let values!(span) = members(names!(span), source, make)?;
        Ok(Super { span })
    }
}

impl<N: Drop> ReadFrom<N> for Import {
    type Parts = (Span, (ImportPhase, ()));

    fn names() -> &'static [Name<'static>] {
        names!(span, phase)
    }

    fn of<S: Source, M: Make<N>>(
        values: Self::Parts,
        _source: &mut S,
        _make: &M,
    ) -> Result<Import, Failed> {
        made!(values => Import { span, phase })
    }
}

impl<N: Drop> ReadFrom<N> for CondExpr<N> {
    type Parts = (Span, (ExprBox<N>, (ExprBox<N>, (ExprBox<N>, ()))));

    fn names() -> &'static [Name<'static>] {
        names!(span, test, cons, alt)
    }

    fn of<S: Source, M: Make<N>>(
        values: Self::Parts,
        _source: &mut S,
        _make: &M,
    ) -> Result<CondExpr<N>, Failed> {
        made!(values => CondExpr { span, test, cons, alt })
    }
}

impl<N: Drop> ReadFrom<N> for CallExpr<N> {
    type Parts = (
        Span,
        (
            Callee<N>,
            (
                Vec<ExprOrSpread<N>>,
                (Option<TsTypeParamInstantiationBox<N>>, ()),
            ),
        ),
    );

    fn names() -> &'static [Name<'static>] {
        names!(span, callee, args, type_args)
    }

    fn of<S: Source, M: Make<N>>(
        values: Self::Parts,
        _source: &mut S,
        _make: &M,
    ) -> Result<CallExpr<N>, Failed> {
        made!(values => CallExpr { span, callee, args, type_args })
    }
}

impl<N: Drop> ReadFrom<N> for Callee<N> {
    type Parts = Variant;

    fn names() -> &'static [Name<'static>] {
        names!(Super, Import, Expr)
    }

    fn of<S: Source, M: Make<N>>(
        variant: Variant,
        source: &mut S,
        make: &M,
    ) -> Result<Callee<N>, Failed> {
        held!(variant, source, make => Callee { Super, Import, Expr })
    }
}

impl<N: Drop> ReadFrom<N> for NewExpr<N> {
    type Parts = (
        Span,
        (
            ExprBox<N>,
            (
                Option<Vec<ExprOrSpread<N>>>,
                (Option<TsTypeParamInstantiationBox<N>>, ()),
            ),
        ),
    );

    fn names() -> &'static [Name<'static>] {
        names!(span, callee, args, type_args)
    }

    fn of<S: Source, M: Make<N>>(
        values: Self::Parts,
        _source: &mut S,
        _make: &M,
    ) -> Result<NewExpr<N>, Failed> {
        made!(values => NewExpr { span, callee, args, type_args })
    }
}

impl<N: Drop> ReadFrom<N> for OptChainExpr<N> {
    type Parts = (Span, (bool, (OptChainBase<N>, ())));

    fn names() -> &'static [Name<'static>] {
        names!(span, optional, base)
    }

    fn of<S: Source, M: Make<N>>(
        values: Self::Parts,
        _source: &mut S,
        _make: &M,
    ) -> Result<OptChainExpr<N>, Failed> {
        made!(values => OptChainExpr { span, optional, base })
    }
}

impl<N: Drop> ReadFrom<N> for OptChainBase<N> {
    type Parts = Variant;

    fn names() -> &'static [Name<'static>] {
        names!(Member, Call)
    }

    fn of<S: Source, M: Make<N>>(
        variant: Variant,
        source: &mut S,
        make: &M,
    ) -> Result<OptChainBase<N>, Failed> {
        held!(variant, source, make => OptChainBase { Member, Call })
    }
}

impl<N: Drop> ReadFrom<N> for OptCall<N> {
    type Parts = (
        Span,
        (
            ExprBox<N>,
            (
                Vec<ExprOrSpread<N>>,
                (Option<TsTypeParamInstantiationBox<N>>, ()),
            ),
        ),
    );

    fn names() -> &'static [Name<'static>] {
        names!(span, callee, args, type_args)
    }

    fn of<S: Source, M: Make<N>>(
        values: Self::Parts,
        _source: &mut S,
        _make: &M,
    ) -> Result<OptCall<N>, Failed> {
        made!(values => OptCall { span, callee, args, type_args })
    }
}

impl<N: Drop> ReadFrom<N> for SeqExpr<N> {
    type Parts = (Span, (Vec<ExprBox<N>>, ()));

    fn names() -> &'static [Name<'static>] {
        names!(span, exprs)
    }

    fn of<S: Source, M: Make<N>>(
        values: Self::Parts,
        _source: &mut S,
        _make: &M,
    ) -> Result<SeqExpr<N>, Failed> {
        made!(values => SeqExpr { span, exprs })
    }
}

impl<N: Drop> ReadFrom<N> for ArrowExpr<N> {
    type Parts = Both<
        (Span, (Vec<PatBox<N>>, (BlockStmtOrExpr<N>, (bool, ())))),
        (
            bool,
            (Option<TsTypeParamDeclBox<N>>, (Option<TsTypeAnnBox<N>>, ())),
        ),
    >;

    fn names() -> &'static [Name<'static>] {
        names!(
            span,
            params,
            body,
            is_async,
            is_generator,
            type_params,
            return_type
        )
    }

    fn of<S: Source, M: Make<N>>(
        values: Self::Parts,
        _source: &mut S,
        _make: &M,
    ) -> Result<ArrowExpr<N>, Failed> {
        made!(values => ArrowExpr {
            span, params, body, is_async;
            is_generator, type_params, return_type
        })
    }
}

impl<N: Drop> ReadFrom<N> for BlockStmtOrExpr<N> {
    type Parts = Variant;

    fn names() -> &'static [Name<'static>] {
        names!(BlockStmt, Expr)
    }

    fn of<S: Source, M: Make<N>>(
        variant: Variant,
        source: &mut S,
        make: &M,
    ) -> Result<BlockStmtOrExpr<N>, Failed> {
        held!(variant, source, make => BlockStmtOrExpr { BlockStmt, Expr })
    }
}

impl<N: Drop> ReadFrom<N> for YieldExpr<N> {
    type Parts = (Span, (Option<ExprBox<N>>, (bool, ())));

    fn names() -> &'static [Name<'static>] {
        names!(span, arg, delegate)
    }

    fn of<S: Source, M: Make<N>>(
        values: Self::Parts,
        _source: &mut S,
        _make: &M,
    ) -> Result<YieldExpr<N>, Failed> {
        made!(values => YieldExpr { span, arg, delegate })
    }
}

impl<N: Drop> ReadFrom<N> for AwaitExpr<N> {
    type Parts = (Span, (ExprBox<N>, ()));

    fn names() -> &'static [Name<'static>] {
        names!(span, arg)
    }

    fn of<S: Source, M: Make<N>>(
        values: Self::Parts,
        _source: &mut S,
        _make: &M,
    ) -> Result<AwaitExpr<N>, Failed> {
        made!(values => AwaitExpr { span, arg })
    }
}

impl<N: Drop> ReadFrom<N> for MetaPropExpr {
    type Parts = (Span, (MetaPropKind, ()));

    fn names() -> &'static [Name<'static>] {
        names!(span, kind)
    }

    fn of<S: Source, M: Make<N>>(
        values: Self::Parts,
        _source: &mut S,
        _make: &M,
    ) -> Result<MetaPropExpr, Failed> {
        made!(values => MetaPropExpr { span, kind })
    }
}

impl<N: Drop> ReadFrom<N> for MetaPropKind {
    type Parts = Word;

    fn names() -> &'static [Name<'static>] {
        names!(NewTarget, ImportMeta)
    }

    fn of<S: Source, M: Make<N>>(
        word: Word,
        source: &mut S,
        _make: &M,
    ) -> Result<MetaPropKind, Failed> {
        spelled!(word, source => MetaPropKind { NewTarget, ImportMeta })
    }
}

impl<N: Drop> ReadFrom<N> for ParenExpr<N> {
    type Parts = (Span, (ExprBox<N>, ()));

    fn names() -> &'static [Name<'static>] {
        names!(span, expr)
    }

    fn of<S: Source, M: Make<N>>(
        values: Self::Parts,
        _source: &mut S,
        _make: &M,
    ) -> Result<ParenExpr<N>, Failed> {
        made!(values => ParenExpr { span, expr })
    }
}

impl<N: Drop> ReadFrom<N> for Tpl<N> {
    type Parts = (Span, (Vec<ExprBox<N>>, (Vec<TplElement>, ())));

    fn names() -> &'static [Name<'static>] {
        names!(span, exprs, quasis)
    }

    fn of<S: Source, M: Make<N>>(
        values: Self::Parts,
        _source: &mut S,
        _make: &M,
    ) -> Result<Tpl<N>, Failed> {
        made!(values => Tpl { span, exprs, quasis })
    }
}

impl<N: Drop> ReadFrom<N> for TaggedTpl<N> {
    type Parts = (
        Span,
        (
            ExprBox<N>,
            (Option<TsTypeParamInstantiationBox<N>>, (TplBox<N>, ())),
        ),
    );

    fn names() -> &'static [Name<'static>] {
        names!(span, tag, type_params, tpl)
    }

    fn of<S: Source, M: Make<N>>(
        values: Self::Parts,
        _source: &mut S,
        _make: &M,
    ) -> Result<TaggedTpl<N>, Failed> {
        made!(values => TaggedTpl { span, tag, type_params, tpl })
    }
}
