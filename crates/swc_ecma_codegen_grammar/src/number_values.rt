//! What numeric literals stand for, as plain programs. ECMA-262, sections 12.9.3 and B.1.1, "MV"
//! and "NumericValue".

ghost use Rattle.std.specs.Prelude.{◌≡◌, ◌<◌, ◌≤◌, ◌+◌, ◌*◌, ◌^◌, true, false, IfSome, IfNone};
ghost use Rattle.std.specs.Char.{digit_value};
ghost use Rattle.swc_ecma_codegen_grammar.specs.Chars as chars;
ghost use Rattle.swc_ecma_codegen_grammar.specs.HeldNumbers.{IsHeld, largest_part};
ghost use Rattle.swc_ecma_codegen_grammar.specs.NumberValues as values;

use crate::numerals::{hex_digit, is_either, is_octal};

/// A number that a numeric literal stands for, exactly: `whole` times ten to the power `tens`,
/// divided by ten to the power `tenths`. `2.5e3` is 25 with `tens` 3 and `tenths` 1.
#[derive(Clone, Copy, PartialEq, Eq, Debug)]
pub struct HeldNumber {
    /// The digits, without dot and exponent.
    pub whole: u128,
    /// The exponent, where it isn't negative.
    pub tens: u128,
    /// How many digits stand after the dot, and what a negative exponent adds to them.
    pub tenths: u128,
}

/// The value of a decimal digit.
#[tactic(auto, unfolding(crate::specs::Chars::is_digit))]
fn decimal_digit(c: char) -> Option<u128>
    ensures digit { IfSome result (λ digit. (chars.is_digit c ≡ true) × (digit ≡ digit_value c)
        × (digit < 10)) }
    ensures none { IfNone result (chars.is_digit c ≡ false) }
{
    Some(c.to_digit(10)? as u128)
}

/// One more digit: 25 and 3 are 253. `None`: there is no room.
pub fn with_digit(n: u128, radix: u128, digit: u128) -> Option<u128>
    ensures sum { IfSome result (λ sum. sum ≡ n * radix + digit) }
    ensures none { IfNone result (2 ^ 128 ≤ n * radix + digit) }
{
    n.checked_mul(radix)?.checked_add(digit)
}

/// The digits of a text, after those of `n`. `None`: there is no room.
#[tactic(auto, unfolding(crate::specs::NumberValues::digits_after), using(crate::proofs::NumberGrowth::digits_grow))]
fn digits_after(radix: u128, n: u128, text: &[char]) -> Option<u128>
    requires { 0 < radix }
    ensures value { IfSome result (λ value. value ≡ values.digits_after radix n text.now) }
    ensures none { IfNone result (2 ^ 128 ≤ values.digits_after radix n text.now) }
{
    let [c, rest @ ..] = text else {
        return Some(n);
    };
    match hex_digit(*c) {
        Some(digit) => digits_after(radix, with_digit(n, radix, digit as u128)?, rest),
        None => digits_after(radix, n, rest),
    }
}

/// What stands after `e`, of a number of so many decimal places.
#[tactic(auto, unfolding(crate::specs::NumberValues::exponent_value, crate::specs::NumberValues::over_ten))]
fn exponent_value(whole: u128, places: u128, text: &[char]) -> Option<HeldNumber>
    ensures value { IfSome result (λ value.
        IsHeld value (values.exponent_value whole places text.now)) }
    ensures none { IfNone result (2 ^ 128
        ≤ largest_part (values.exponent_value whole places text.now)) }
{
    let (tens, tenths) = match text {
        [] => (0, places),
        [c, rest @ ..] if *c == '-' => (0, places.checked_add(digits_after(10, 0, rest)?)?),
        _ => (digits_after(10, 0, text)?, places),
    };
    Some(HeldNumber {
        whole,
        tens,
        tenths,
    })
}

/// What stands after the dot: `whole` are the digits so far, `places` of which stand after the dot.
#[tactic(auto, unfolding(crate::specs::NumberValues::fraction_value, crate::specs::NumberValues::over_ten), using(crate::proofs::NumberGrowth::fraction_whole, crate::proofs::NumberGrowth::fraction_tenths))]
fn fraction_value(whole: u128, places: u128, text: &[char]) -> Option<HeldNumber>
    ensures value { IfSome result (λ value.
        IsHeld value (values.fraction_value whole places text.now)) }
    ensures none { IfNone result (2 ^ 128
        ≤ largest_part (values.fraction_value whole places text.now)) }
{
    let [c, rest @ ..] = text else {
        return Some(HeldNumber {
            whole,
            tens: 0,
            tenths: places,
        });
    };
    match decimal_digit(*c) {
        Some(digit) => {
            fraction_value(with_digit(whole, 10, digit)?, places.checked_add(1)?, rest)
        }
        None if is_either('e', 'E', *c) => exponent_value(whole, places, rest),
        None => fraction_value(whole, places, rest),
    }
}

/// A decimal number: `whole` are the digits so far.
#[tactic(auto, unfolding(crate::specs::NumberValues::decimal_value, crate::specs::NumberValues::times_ten), using(crate::proofs::NumberGrowth::decimal_whole))]
fn decimal_value(whole: u128, text: &[char]) -> Option<HeldNumber>
    ensures value { IfSome result (λ value. IsHeld value (values.decimal_value whole text.now)) }
    ensures none { IfNone result (2 ^ 128 ≤ largest_part (values.decimal_value whole text.now)) }
{
    let [c, rest @ ..] = text else {
        return Some(integer(whole));
    };
    match decimal_digit(*c) {
        Some(digit) => decimal_value(with_digit(whole, 10, digit)?, rest),
        None if *c == '.' => fraction_value(whole, 0, rest),
        None if is_either('e', 'E', *c) => exponent_value(whole, 0, rest),
        None => decimal_value(whole, rest),
    }
}

#[tactic(auto, unfolding(crate::specs::NumberValues::times_ten))]
fn integer(whole: u128) -> HeldNumber
    ensures { IsHeld result (values.times_ten whole 0) }
{
    HeldNumber {
        whole,
        tens: 0,
        tenths: 0,
    }
}

#[tactic(auto, unfolding(crate::specs::NumberValues::all_octal))]
fn all_octal(text: &[char]) -> bool
    ensures { result ≡ values.all_octal text.now }
{
    match text {
        [] => true,
        [c, rest @ ..] => is_octal(*c) && all_octal(rest),
    }
}

/// What stands after a zero.
#[tactic(auto, unfolding(crate::specs::NumberValues::zero_value, crate::specs::NumberValues::times_ten))]
fn zero_value(text: &[char]) -> Option<HeldNumber>
    ensures value { IfSome result (λ value. IsHeld value (values.zero_value text.now)) }
    ensures none { IfNone result (2 ^ 128 ≤ largest_part (values.zero_value text.now)) }
{
    match text {
        [] => Some(integer(0)),
        [c, rest @ ..] if is_either('x', 'X', *c) => Some(integer(digits_after(16, 0, rest)?)),
        [c, rest @ ..] if is_either('o', 'O', *c) => Some(integer(digits_after(8, 0, rest)?)),
        [c, rest @ ..] if is_either('b', 'B', *c) => Some(integer(digits_after(2, 0, rest)?)),
        _ if all_octal(text) => Some(integer(digits_after(8, 0, text)?)),
        _ => decimal_value(0, text),
    }
}

/// The number that a numeric literal stands for: NumericValue. `None`: one of its three parts is
/// 2^128 or more.
#[tactic(auto, unfolding(crate::specs::NumberValues::numeric_value, crate::specs::NumberValues::times_ten))]
pub fn numeric_value(text: &[char]) -> Option<HeldNumber>
    ensures value { IfSome result (λ value. IsHeld value (values.numeric_value text.now)) }
    ensures none { IfNone result (2 ^ 128 ≤ largest_part (values.numeric_value text.now)) }
{
    match text {
        [] => Some(integer(0)),
        [c, rest @ ..] if *c == '0' => zero_value(rest),
        _ => decimal_value(0, text),
    }
}
