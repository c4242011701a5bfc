//! Literals.

use crate::objects::Both;
use crate::reading::{Make, Parts, ReadFrom, Variant, Whole, Word, members, read};
use crate::source::{Failed, Fault, Source};
use crate::{held, made, names, spelled, values};
use serde::Name;
use swc_ecma_codegen_common::Span;
use swc_ecma_codegen_tree::{
    BigInt, Bool, JSXText, Lit, Null, Number, NumberValue, Radix, Regex, Str,
};

impl<N: Drop> ReadFrom<N> for Lit {
    type Parts = Variant;

    fn names() -> &'static [Name<'static>] {
        names!(Str, Bool, Null, Num, BigInt, Regex, JSXText)
    }

    fn of<S: Source, M: Make<N>>(
        variant: Variant,
        source: &mut S,
        make: &M,
    ) -> Result<Lit, Failed> {
        held!(variant, source, make => Lit { Str, Bool, Null, Num, BigInt, Regex, JSXText })
    }
}

impl<N: Drop> ReadFrom<N> for Str {
    type Parts = Whole;

    fn of<S: Source, M: Make<N>>(_whole: Whole, source: &mut S, make: &M) -> Result<Str, Failed> {
        let values!(span, value, raw) = members(names!(span, value, raw), source, make)?;
        Ok(Str { span, value, raw })
    }
}

impl<N: Drop> ReadFrom<N> for Bool {
    type Parts = (Span, (bool, ()));

    fn names() -> &'static [Name<'static>] {
        names!(span, value)
    }

    fn of<S: Source, M: Make<N>>(
        values: Self::Parts,
        _source: &mut S,
        _make: &M,
    ) -> Result<Bool, Failed> {
        made!(values => Bool { span, value })
    }
}

impl<N: Drop> ReadFrom<N> for Null {
    type Parts = (Span, ());

    fn names() -> &'static [Name<'static>] {
        names!(span)
    }

    fn of<S: Source, M: Make<N>>(
        values: Self::Parts,
        _source: &mut S,
        _make: &M,
    ) -> Result<Null, Failed> {
        made!(values => Null { span })
    }
}

impl<N: Drop> ReadFrom<N> for Number {
    type Parts = (Span, (NumberValue, (Option<String>, ())));

    fn names() -> &'static [Name<'static>] {
        names!(span, value, raw)
    }

    fn of<S: Source, M: Make<N>>(
        values: Self::Parts,
        _source: &mut S,
        _make: &M,
    ) -> Result<Number, Failed> {
        made!(values => Number { span, value, raw })
    }
}

impl<N: Drop> ReadFrom<N> for BigInt {
    type Parts = Both<(Span, (bool, (Radix, ()))), (String, (Option<String>, ()))>;

    fn names() -> &'static [Name<'static>] {
        names!(span, negative, radix, digits, raw)
    }

    fn of<S: Source, M: Make<N>>(
        values: Self::Parts,
        _source: &mut S,
        _make: &M,
    ) -> Result<BigInt, Failed> {
        made!(values => BigInt { span, negative, radix; digits, raw })
    }
}

impl<N: Drop> ReadFrom<N> for Radix {
    type Parts = Word;

    fn names() -> &'static [Name<'static>] {
        names!(Binary, Octal, Decimal, Hex)
    }

    fn of<S: Source, M: Make<N>>(word: Word, source: &mut S, _make: &M) -> Result<Radix, Failed> {
        spelled!(word, source => Radix { Binary, Octal, Decimal, Hex })
    }
}

impl<N: Drop> ReadFrom<N> for Regex {
    type Parts = (Span, (String, (String, ())));

    fn names() -> &'static [Name<'static>] {
        names!(span, exp, flags)
    }

    fn of<S: Source, M: Make<N>>(
        values: Self::Parts,
        _source: &mut S,
        _make: &M,
    ) -> Result<Regex, Failed> {
        made!(values => Regex { span, exp, flags })
    }
}

impl<N: Drop> ReadFrom<N> for JSXText {
    type Parts = (Span, (String, (String, ())));

    fn names() -> &'static [Name<'static>] {
        names!(span, value, raw)
    }

    fn of<S: Source, M: Make<N>>(
        values: Self::Parts,
        _source: &mut S,
        _make: &M,
    ) -> Result<JSXText, Failed> {
        made!(values => JSXText { span, value, raw })
    }
}

impl<N: Drop> ReadFrom<N> for NumberValue {
    type Parts = Whole;

    fn of<S: Source, M: Make<N>>(
        _whole: Whole,
        source: &mut S,
        make: &M,
    ) -> Result<NumberValue, Failed> {
        if source.is_at_text()? {
            return match source.word(names!(Infinity, NegInfinity, NaN))? {
                0 => Ok(NumberValue::Infinity),
                1 => Ok(NumberValue::NegInfinity),
                2 => Ok(NumberValue::NaN),
                _ => Err(source.fail(Fault::UnknownVariant)),
            };
        }
        let variant = <Variant as Parts<N>>::begin(names!(Finite), source, make)?;
        if variant != Variant(0) {
            return Err(source.fail(Fault::UnknownVariant));
        }
        let number = read(source, make)?;
        <Variant as Parts<N>>::end(source);
        Ok(NumberValue::Finite(number))
    }
}
