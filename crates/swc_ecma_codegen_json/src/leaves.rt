//! Positions, operators and the digits of numbers.

use crate::reading::{Make, OrDefault, ReadFrom, Whole, Word, members};
use crate::source::{Failed, Fault, Source};
use crate::{names, spelled, values};
use serde::Name;
use swc_ecma_codegen_common::{
    AssignOp, BinaryOp, BytePos, DUMMY_SP, Decimal, Span, UnaryOp, UpdateOp,
};

impl<N: Drop> ReadFrom<N> for Span {
    type Parts = OrDefault;

    fn of<S: Source, M: Make<N>>(
        member: OrDefault,
        source: &mut S,
        make: &M,
    ) -> Result<Span, Failed> {
        if member == OrDefault::LeftOut {
            return Ok(DUMMY_SP);
        }
        let values!(lo, hi) = members(names!(lo, hi), source, make)?;
        Ok(Span { lo, hi })
    }
}

impl<N: Drop> ReadFrom<N> for UnaryOp {
    type Parts = Word;

    fn names() -> &'static [Name<'static>] {
        names!(Minus, Plus, Bang, Tilde, TypeOf, Void, Delete)
    }

    fn of<S: Source, M: Make<N>>(word: Word, source: &mut S, _make: &M) -> Result<UnaryOp, Failed> {
        spelled!(word, source => UnaryOp { Minus, Plus, Bang, Tilde, TypeOf, Void, Delete })
    }
}

impl<N: Drop> ReadFrom<N> for UpdateOp {
    type Parts = Word;

    fn names() -> &'static [Name<'static>] {
        names!(PlusPlus, MinusMinus)
    }

    fn of<S: Source, M: Make<N>>(
        word: Word,
        source: &mut S,
        _make: &M,
    ) -> Result<UpdateOp, Failed> {
        spelled!(word, source => UpdateOp { PlusPlus, MinusMinus })
    }
}

impl<N: Drop> ReadFrom<N> for BinaryOp {
    type Parts = Word;

    fn names() -> &'static [Name<'static>] {
        names!(
            EqEq,
            NotEq,
            EqEqEq,
            NotEqEq,
            Lt,
            LtEq,
            Gt,
            GtEq,
            LShift,
            RShift,
            ZeroFillRShift,
            Add,
            Sub,
            Mul,
            Div,
            Mod,
            BitOr,
            BitXor,
            BitAnd,
            LogicalOr,
            LogicalAnd,
            In,
            InstanceOf,
            Exp,
            NullishCoalescing
        )
    }

    fn of<S: Source, M: Make<N>>(
        word: Word,
        source: &mut S,
        _make: &M,
    ) -> Result<BinaryOp, Failed> {
        spelled!(word, source => BinaryOp {
            EqEq, NotEq, EqEqEq, NotEqEq, Lt, LtEq, Gt, GtEq, LShift, RShift, ZeroFillRShift, Add,
            Sub, Mul, Div, Mod, BitOr, BitXor, BitAnd, LogicalOr, LogicalAnd, In, InstanceOf, Exp,
            NullishCoalescing,
        })
    }
}

impl<N: Drop> ReadFrom<N> for AssignOp {
    type Parts = Word;

    fn names() -> &'static [Name<'static>] {
        names!(
            Assign,
            AddAssign,
            SubAssign,
            MulAssign,
            DivAssign,
            ModAssign,
            LShiftAssign,
            RShiftAssign,
            ZeroFillRShiftAssign,
            BitOrAssign,
            BitXorAssign,
            BitAndAssign,
            ExpAssign,
            AndAssign,
            OrAssign,
            NullishAssign
        )
    }

    fn of<S: Source, M: Make<N>>(
        word: Word,
        source: &mut S,
        _make: &M,
    ) -> Result<AssignOp, Failed> {
        spelled!(word, source => AssignOp {
            Assign, AddAssign, SubAssign, MulAssign, DivAssign, ModAssign, LShiftAssign,
            RShiftAssign, ZeroFillRShiftAssign, BitOrAssign, BitXorAssign, BitAndAssign, ExpAssign,
            AndAssign, OrAssign, NullishAssign,
        })
    }
}

impl<N: Drop> ReadFrom<N> for BytePos {
    type Parts = Whole;

    #[inline(always)]
    fn of<S: Source, M: Make<N>>(
        _whole: Whole,
        source: &mut S,
        _make: &M,
    ) -> Result<BytePos, Failed> {
        Ok(BytePos(source.unsigned()?))
    }
}

impl<N: Drop> ReadFrom<N> for Decimal {
    type Parts = (bool, (String, (i32, ())));

    fn names() -> &'static [Name<'static>] {
        names!(negative, digits, exponent)
    }

    fn of<S: Source, M: Make<N>>(
        values: Self::Parts,
        source: &mut S,
        _make: &M,
    ) -> Result<Decimal, Failed> {
        let values!(negative, digits, exponent) = values;
        match Decimal::new(negative, digits, exponent) {
            Some(number) => Ok(number),
            None => Err(source.fail(Fault::NotInItsForm)),
        }
    }
}
