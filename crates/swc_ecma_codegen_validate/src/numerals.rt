//! Which texts are numeric literals. ECMA-262, sections 12.9.3 and B.1.1.

ghost use Rattle.std.specs.Prelude.{◌≡◌, true, false};
ghost use Rattle.std.specs.Str.{chars};
ghost use Rattle.swc_ecma_codegen_grammar.specs.LitPhrases.{is_digit_of};
ghost use Rattle.swc_ecma_codegen_grammar.specs.Numbers as numbers;

use crate::big_integers::is_digit_of;
use swc_ecma_codegen_grammar::characters::is_digit;
use swc_ecma_codegen_grammar::numerals::{is_either, is_octal};
use swc_ecma_codegen_grammar::texts::{is_empty, split_first};
use swc_ecma_codegen_tree::Radix;

/// The digits of an exponent.
#[tactic(auto, unfolding(swc_ecma_codegen_grammar::specs::Numbers::power))]
fn is_power(first_due: bool, text: &str) -> bool
    ensures { result ≡ numbers.power first_due (chars text.now) }
{
    let mut rest = text;
    let mut due = first_due;
    while let Some((c, more)) = split_first(rest) {
        if is_digit(c) {
            due = false;
        } else {
            if c != '_' || due {
                return false;
            }
            due = true;
        }
        rest = more;
    }
    !due
}

/// What stands after `e`.
#[tactic(auto, unfolding(swc_ecma_codegen_grammar::specs::Numbers::exponent))]
fn is_exponent(text: &str) -> bool
    ensures { result ≡ numbers.exponent (chars text.now) }
{
    match split_first(text) {
        Some((c, rest)) => {
            if is_either('+', '-', c) {
                is_power(true, rest)
            } else {
                is_digit(c) && is_power(false, rest)
            }
        }
        None => false,
    }
}

/// What stands after the dot.
#[tactic(auto, unfolding(swc_ecma_codegen_grammar::specs::Numbers::fraction))]
fn is_fraction(first_due: bool, text: &str) -> bool
    ensures { result ≡ numbers.fraction false first_due (chars text.now) }
{
    let mut rest = text;
    let mut joins = false;
    let mut due = first_due;
    while let Some((c, more)) = split_first(rest) {
        if is_digit(c) {
            joins = true;
            due = false;
        } else if is_either('e', 'E', c) {
            return !due && is_exponent(more);
        } else {
            if c != '_' || !joins {
                return false;
            }
            joins = false;
            due = true;
        }
        rest = more;
    }
    !due
}

/// The digits of a decimal integer, and what may come after them.
#[tactic(auto, unfolding(swc_ecma_codegen_grammar::specs::Numbers::integer, swc_ecma_codegen_grammar::specs::Texts::is_empty))]
fn is_integer(text: &str) -> bool
    ensures { result ≡ numbers.integer false (chars text.now) }
{
    let mut rest = text;
    let mut due = false;
    while let Some((c, more)) = split_first(rest) {
        if is_digit(c) {
            due = false;
        } else if c == '_' {
            if due {
                return false;
            }
            due = true;
        } else if c == '.' {
            return !due && is_fraction(false, more);
        } else if is_either('e', 'E', c) {
            return !due && is_exponent(more);
        } else {
            return c == 'n' && !due && is_empty(more);
        }
        rest = more;
    }
    !due
}

/// The digits after `0x`, `0o` or `0b`.
#[tactic(auto, unfolding(swc_ecma_codegen_grammar::specs::Numbers::radix, swc_ecma_codegen_grammar::specs::Texts::is_empty))]
fn is_in_radix(radix: Radix, text: &str) -> bool
    ensures { result ≡ numbers.radix (is_digit_of radix) true (chars text.now) }
{
    let mut rest = text;
    let mut due = true;
    while let Some((c, more)) = split_first(rest) {
        if is_digit_of(radix, c) {
            due = false;
        } else if c == '_' {
            if due {
                return false;
            }
            due = true;
        } else {
            return c == 'n' && !due && is_empty(more);
        }
        rest = more;
    }
    !due
}

/// The digits after a leading zero.
#[tactic(auto, unfolding(swc_ecma_codegen_grammar::specs::Numbers::legacy))]
fn is_legacy(first_octal: bool, text: &str) -> bool
    ensures { result ≡ numbers.legacy first_octal (chars text.now) }
{
    let mut rest = text;
    let mut octal = first_octal;
    while let Some((c, more)) = split_first(rest) {
        if is_digit(c) {
            octal = octal && is_octal(c);
        } else if c == '.' {
            return !octal && is_fraction(false, more);
        } else {
            return is_either('e', 'E', c) && !octal && is_exponent(more);
        }
        rest = more;
    }
    true
}

/// What may stand after a leading zero.
#[tactic(auto, unfolding(swc_ecma_codegen_grammar::specs::Numbers::after_zero, swc_ecma_codegen_grammar::specs::Texts::is_empty, swc_ecma_codegen_grammar::specs::LitPhrases::is_digit_of))]
fn is_after_zero(text: &str) -> bool
    ensures { result ≡ numbers.after_zero (chars text.now) }
{
    let Some((c, rest)) = split_first(text) else {
        return true;
    };
    match c {
        _ if is_digit(c) => is_legacy(is_octal(c), rest),
        '.' => is_fraction(false, rest),
        _ if is_either('e', 'E', c) => is_exponent(rest),
        _ if is_either('x', 'X', c) => is_in_radix(Radix::Hex, rest),
        _ if is_either('o', 'O', c) => is_in_radix(Radix::Octal, rest),
        _ if is_either('b', 'B', c) => is_in_radix(Radix::Binary, rest),
        _ => c == 'n' && is_empty(rest),
    }
}

/// A numeric literal.
#[tactic(auto, unfolding(swc_ecma_codegen_grammar::specs::Numbers::is_numeric))]
fn is_numeric(text: &str) -> bool
    ensures { result ≡ numbers.is_numeric (chars text.now) }
{
    match split_first(text) {
        None => false,
        Some((c, rest)) => {
            if c == '0' {
                is_after_zero(rest)
            } else if is_digit(c) {
                is_integer(rest)
            } else {
                c == '.' && is_fraction(true, rest)
            }
        }
    }
}

/// Whether a text ends with `n`.
#[tactic(auto, using(crate::proofs::LastSuffix::suffix_last), unfolding(crate::specs::Suffixes::ends_with_n))]
fn has_suffix(text: &str) -> bool
    ensures { result ≡ numbers.has_suffix (chars text.now) }
{
    let mut rest = text;
    let mut last = false;
    while let Some((c, more)) = split_first(rest) {
        last = c == 'n';
        rest = more;
    }
    last
}

/// A numeric literal without suffix.
#[tactic(auto, unfolding(swc_ecma_codegen_grammar::specs::Numbers::is_number))]
pub(crate) fn is_number(text: &str) -> bool
    ensures { result ≡ numbers.is_number (chars text.now) }
{
    is_numeric(text) && !has_suffix(text)
}
