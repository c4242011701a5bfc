//! Numbers.

ghost use Rattle.std.specs.Prelude.{◌≡◌, ◌+◌, ◌*◌, ◌^◌, ◌==◌, ◌&&◌, ◌<◌, ◌≤◌, nat_lt, [], length, true, false, None, IfSome, IfNone};
ghost use Rattle.std.specs.Str.{chars};
ghost use Rattle.swc_ecma_codegen_grammar.specs.DecimalValues.{decimal_digits, exact_size, size_value};
ghost use Rattle.swc_ecma_codegen_grammar.specs.LitPhrases as lits;
ghost use Rattle.swc_ecma_codegen_grammar.specs.NumberValues as values;
ghost use Rattle.swc_ecma_codegen_validate.specs.Mantissas as parts;

use crate::numerals::is_number;
use crate::texts::after_first;
use swc_ecma_codegen_common::Decimal;
use swc_ecma_codegen_grammar::characters::is_digit;
use swc_ecma_codegen_grammar::number_values::with_digit;
use swc_ecma_codegen_grammar::numerals::{hex_digit, is_either, is_octal};
use swc_ecma_codegen_grammar::texts::{is_empty, split_first};

/// What stands after the dot, up to an exponent.
#[tactic(auto, unfolding(crate::specs::Mantissas::after_dot, crate::specs::Mantissas::mantissa))]
fn after_dot(text: &str) -> &str
    ensures { parts.mantissa (chars result.now) ≡ parts.mantissa
        (parts.after_dot (chars text.now)) }
{
    let mut rest = text;
    while let Some((c, more)) = split_first(rest) {
        if !is_digit(c) {
            if c == '.' {
                return more;
            }
            if is_either('e', 'E', c) {
                return rest;
            }
        }
        rest = more;
    }
    rest
}

/// What stands after `e`.
#[tactic(auto, unfolding(crate::specs::Mantissas::after_mark))]
fn after_mark(text: &str) -> &str
    ensures { chars result.now ≡ parts.after_mark (chars text.now) }
{
    let mut rest = text;
    while let Some((c, more)) = split_first(rest) {
        if !is_digit(c) && is_either('e', 'E', c) {
            return more;
        }
        rest = more;
    }
    rest
}

/// How many digits come before any exponent.
#[tactic(auto, using(crate::proofs::DigitCounts::few_characters), unfolding(crate::specs::Mantissas::mantissa))]
fn count_digits(text: &str) -> usize
    ensures { result ≡ length (parts.mantissa (chars text.now)) }
{
    let _size = text.len();
    let mut rest = text;
    let mut count = 0;
    while let Some((c, more)) = split_first(rest) {
        if is_digit(c) {
            count += 1;
        } else if is_either('e', 'E', c) {
            return count;
        }
        rest = more;
    }
    count
}

/// What follows the zeros that a number begins with.
#[tactic(auto, unfolding(crate::specs::Mantissas::mantissa, crate::specs::Mantissas::stripped))]
fn without_zeros(text: &str) -> &str
    ensures { parts.mantissa (chars result.now) ≡ parts.stripped (parts.mantissa (chars text.now)) }
{
    let mut rest = text;
    while let Some((c, more)) = split_first(rest) {
        if is_digit(c) {
            if c != '0' {
                return rest;
            }
        } else if is_either('e', 'E', c) {
            return rest;
        }
        rest = more;
    }
    rest
}

/// What follows these digits, or `None` where others come first.
#[tactic(auto, using(crate::proofs::DigitCounts::zeros_step, crate::proofs::DigitCounts::zeros_short), unfolding(crate::specs::Mantissas::mantissa))]
fn after_digits<'a>(digits: &str, text: &'a str) -> Option<&'a str>
    ensures some { IfSome result (λ rest.
        parts.zeros_after (chars digits.now) (parts.mantissa (chars text.now))
        ≡ parts.zeros_after [] (parts.mantissa (chars rest.now))) }
    ensures none { IfNone result (parts.zeros_after (chars digits.now)
        (parts.mantissa (chars text.now)) ≡ None) }
{
    let mut rest = text;
    let mut left = digits;
    while let Some((c, more)) = split_first(rest) {
        if is_empty(left) {
            return Some(rest);
        }
        if is_digit(c) {
            match after_first(left, c) {
                Some(after) => left = after,
                None => return None,
            }
        } else if is_either('e', 'E', c) {
            return None;
        }
        rest = more;
    }
    if is_empty(left) { Some(rest) } else { None }
}

/// How many zeros follow these digits before any exponent, or `None` where other digits follow.
#[tactic(auto, using(crate::proofs::DigitCounts::zeros_counted))]
fn zeros_after(digits: &str, text: &str) -> Option<usize>
    ensures { result ≡ parts.zeros_after (chars digits.now) (parts.mantissa (chars text.now)) }
{
    let rest = after_digits(digits, text)?;
    if count_digits(without_zeros(rest)) == 0 {
        Some(count_digits(rest))
    } else {
        None
    }
}

/// The number that digits stand for, with any `_` between. `None`: 2^128 or more.
#[tactic(auto, using(swc_ecma_codegen_grammar::proofs::NumberGrowth::digits_grow), unfolding(swc_ecma_codegen_grammar::specs::NumberValues::digits_after))]
fn digits_value(radix: u128, text: &str) -> Option<u128>
    requires { 0 < radix }
    ensures value { IfSome result (λ value. value ≡ values.digits_after radix 0 (chars text.now)) }
    ensures none { IfNone result (2 ^ 128 ≤ values.digits_after radix 0 (chars text.now)) }
{
    let mut rest = text;
    let mut value = 0;
    while let Some((c, more)) = split_first(rest) {
        if let Some(digit) = hex_digit(c) {
            match with_digit(value, radix, digit as u128) {
                Some(sum) => value = sum,
                None => return None,
            }
        }
        rest = more;
    }
    Some(value)
}

/// Whether the first number is larger than the second by an exponent.
fn exceeds(more: u128, less: u128, power: &str) -> bool
    ensures { result ≡ (more == less + values.digits_after 10 0 (chars power.now)) }
{
    match digits_value(10, power) {
        Some(size) => match less.checked_add(size) {
            Some(sum) => more == sum,
            None => false,
        },
        None => false,
    }
}

/// Whether ten to one power, times what stands after `e`, is ten to the other.
fn is_balanced(low: u128, high: u128, mark: &str) -> bool
    ensures { result ≡ (low + (values.exponent_value 0 0 (chars mark.now)).tens == high
        + (values.exponent_value 0 0 (chars mark.now)).tenths) }
{
    match after_first(mark, '-') {
        Some(power) => exceeds(low, high, power),
        None => exceeds(high, low, mark),
    }
}

/// The power of ten that the digits of a number are taken times.
#[tactic(auto, unfolding(swc_ecma_codegen_grammar::specs::DecimalValues::size_value, swc_ecma_codegen_grammar::specs::NumberValues::times_ten, swc_ecma_codegen_grammar::specs::NumberValues::over_ten))]
fn tens(number: &Decimal) -> u32
    ensures { result ≡ (size_value (decimal_digits number.now) number.now.exponent).tens }
{
    if number.exponent() < 0 {
        0
    } else {
        number.exponent().unsigned_abs()
    }
}

/// The power of ten that they are divided by.
#[tactic(auto, unfolding(swc_ecma_codegen_grammar::specs::DecimalValues::size_value, swc_ecma_codegen_grammar::specs::NumberValues::times_ten, swc_ecma_codegen_grammar::specs::NumberValues::over_ten))]
fn tenths(number: &Decimal) -> u32
    ensures { result ≡ (size_value (decimal_digits number.now) number.now.exponent).tenths }
{
    if number.exponent() < 0 {
        number.exponent().unsigned_abs()
    } else {
        0
    }
}

/// Whether a decimal literal stands for the size of a number.
#[tactic(auto, unfolding(swc_ecma_codegen_grammar::specs::DecimalValues::exact_size))]
fn decimal_has_size(number: &Decimal, text: &str) -> bool
    ensures { result ≡ lits.is_same_number (values.exact_value
        (values.decimal_value 0 (chars text.now))) (exact_size number.now) }
{
    let digits = number.digits();
    let significant = without_zeros(text);
    match after_first(digits, '0') {
        Some(_) => count_digits(significant) == 0,
        None => match zeros_after(digits, significant) {
            Some(zeros) => {
                let low = zeros as u128 + tenths(number) as u128;
                let high = count_digits(after_dot(text)) as u128 + tens(number) as u128;
                is_balanced(low, high, after_mark(text))
            }
            None => false,
        },
    }
}

#[tactic(auto, unfolding(swc_ecma_codegen_grammar::specs::NumberValues::all_octal))]
fn all_octal(text: &str) -> bool
    ensures { result ≡ values.all_octal (chars text.now) }
{
    let mut rest = text;
    while let Some((c, more)) = split_first(rest) {
        if !is_octal(c) {
            return false;
        }
        rest = more;
    }
    true
}

/// The radix and the digits of a number, by what stands after its `0`; `None` where it is decimal.
#[tactic(auto, unfolding(swc_ecma_codegen_grammar::specs::LitPhrases::is_in_radix, swc_ecma_codegen_grammar::specs::NumberValues::zero_value, swc_ecma_codegen_grammar::specs::NumberValues::digits_after))]
fn radix_digits(text: &str) -> Option<(u128, &str)>
    ensures some { IfSome result (λ r. (lits.is_in_radix (chars text.now) ≡ true) × (0 < r.0)
        × (values.zero_value (chars text.now) ≡ values.times_ten
        (values.digits_after r.0 0 (chars r.1.now)) 0)) }
    ensures none { IfNone result ((lits.is_in_radix (chars text.now) ≡ false)
        × (values.zero_value (chars text.now) ≡ values.decimal_value 0 (chars text.now))) }
{
    let Some((c, rest)) = split_first(text) else {
        return Some((8, text));
    };
    match c {
        _ if is_either('x', 'X', c) => Some((16, rest)),
        _ if is_either('o', 'O', c) => Some((8, rest)),
        _ if is_either('b', 'B', c) => Some((2, rest)),
        _ if all_octal(text) => Some((8, text)),
        _ => None,
    }
}

/// A number times ten to a power. `None`: 2^128 or more.
#[tactic(auto, using(crate::proofs::WholeSizes::one_power, crate::proofs::WholeSizes::no_power, crate::proofs::WholeSizes::too_large))]
fn times_power(number: u128, tens: u32) -> Option<u128>
    ensures some { IfSome result (λ value. value ≡ number * 10 ^ tens) }
    ensures none { IfNone result (2 ^ 128 ≤ number * 10 ^ tens) }
{
    let mut value = number;
    let mut left = tens;
    while left > 0 {
        match value.checked_mul(10) {
            Some(more) => value = more,
            None => return None,
        }
        left -= 1;
    }
    Some(value)
}

/// Whether a whole number is the size of a number.
fn is_size(value: u128, number: &Decimal) -> bool
    ensures size { result ≡ lits.is_same_number (values.exact_value (values.times_ten value 0))
        (exact_size number.now) }
    ensures held { value < 2 ^ 128 }
{
    if tenths(number) > 0 {
        return false;
    }
    match digits_value(10, number.digits()) {
        Some(digits) => match times_power(digits, tens(number)) {
            Some(size) => value == size,
            None => false,
        },
        None => false,
    }
}

/// Whether digits in another radix stand for the size of a number, below 2^128.
#[tactic(auto, using(crate::proofs::WholeSizes::radix_held, crate::proofs::WholeSizes::radix_too_large))]
fn radix_has_size(number: &Decimal, radix: u128, digits: &str) -> bool
    requires { 0 < radix }
    ensures { result ≡ (nat_lt (values.digits_after radix 0 (chars digits.now)) (2 ^ 128)
        && lits.is_same_number (values.exact_value
        (values.times_ten (values.digits_after radix 0 (chars digits.now)) 0))
        (exact_size number.now)) }
{
    match digits_value(radix, digits) {
        Some(value) => is_size(value, number),
        None => false,
    }
}

/// Whether a numeric literal stands for the size of a number; where it isn't decimal, below 2^128.
fn has_size(number: &Decimal, text: &str) -> bool
    ensures { result ≡ (lits.is_compared (chars text.now)
        && lits.is_same_number (values.exact_value (values.numeric_value (chars text.now)))
        (exact_size number.now)) }
{
    match after_first(text, '0') {
        Some(rest) => match radix_digits(rest) {
            Some((radix, digits)) => radix_has_size(number, radix, digits),
            None => decimal_has_size(number, rest),
        },
        None => decimal_has_size(number, text),
    }
}

/// Whether a text is one numeric token of the size of a number.
#[tactic(auto, unfolding(swc_ecma_codegen_grammar::specs::LitPhrases::spells_size))]
pub(crate) fn spells_size(number: &Decimal, text: &str) -> bool
    ensures { result ≡ lits.spells_size (exact_size number.now) (chars text.now) }
{
    is_number(text) && has_size(number, text)
}
