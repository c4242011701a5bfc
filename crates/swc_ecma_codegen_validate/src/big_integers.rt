//! Big integers.

ghost use Rattle.std.specs.Prelude.{◌≡◌, ◌&&◌, codes, true, false};
ghost use Rattle.std.specs.List.{list_all};
ghost use Rattle.std.specs.Str.{chars};
ghost use Rattle.swc_ecma_codegen_grammar.specs.LitPhrases as lits;
ghost use Rattle.swc_ecma_codegen_grammar.specs.Texts as texts;
ghost use Rattle.swc_ecma_codegen_validate.specs.BigDigits as big;

use crate::texts::after_first;
use swc_ecma_codegen_grammar::characters::is_digit;
use swc_ecma_codegen_grammar::numerals::{is_binary, is_either, is_hex, is_octal};
use swc_ecma_codegen_grammar::texts::{is_empty, split_first};
use swc_ecma_codegen_tree::Radix;

#[tactic(auto, unfolding(swc_ecma_codegen_grammar::specs::LitPhrases::is_digit_of))]
pub(crate) fn is_digit_of(radix: Radix, c: char) -> bool
    ensures { result ≡ lits.is_digit_of radix c }
{
    match radix {
        Radix::Binary => is_binary(c),
        Radix::Octal => is_octal(c),
        Radix::Decimal => is_digit(c),
        Radix::Hex => is_hex(c),
    }
}

#[tactic(auto)]
fn all_digits(radix: Radix, digits: &str) -> bool
    ensures { result ≡ list_all (lits.is_digit_of radix) (chars digits.now) }
{
    let mut rest = digits;
    while let Some((c, more)) = split_first(rest) {
        if !is_digit_of(radix, c) {
            return false;
        }
        rest = more;
    }
    true
}

/// Whether it is `0`, or no zero comes first.
#[tactic(auto, unfolding(swc_ecma_codegen_grammar::specs::LitPhrases::has_no_leading_zero, swc_ecma_codegen_grammar::specs::Texts::is_empty))]
fn has_no_leading_zero(digits: &str) -> bool
    ensures { result ≡ lits.has_no_leading_zero (chars digits.now) }
{
    match split_first(digits) {
        None => true,
        Some((c, rest)) => c != '0' || is_empty(rest),
    }
}

/// Whether they are digits of this radix, decimal ones without a leading zero.
#[tactic(auto, unfolding(swc_ecma_codegen_grammar::specs::LitPhrases::are_digits))]
pub(crate) fn are_digits(radix: Radix, digits: &str) -> bool
    ensures { result ≡ lits.are_digits radix (chars digits.now) }
{
    !is_empty(digits)
        && all_digits(radix, digits)
        && (!matches!(radix, Radix::Decimal) || has_no_leading_zero(digits))
}

/// Whether `0` and this character come before the digits of a radix, as `x`.
#[tactic(auto, unfolding(crate::specs::BigDigits::is_prefix))]
fn is_prefix(radix: Radix, c: char) -> bool
    ensures { result ≡ big.is_prefix radix c }
{
    match radix {
        Radix::Binary => is_either('b', 'B', c),
        Radix::Octal => is_either('o', 'O', c),
        Radix::Decimal => false,
        Radix::Hex => is_either('x', 'X', c),
    }
}

/// Whether these digits follow, with single `_` between, and then `n`: `F_Fn`.
#[tactic(auto, unfolding(crate::specs::BigDigits::follow, swc_ecma_codegen_grammar::specs::Texts::is_empty))]
fn digits_follow(radix: Radix, text: &str, digits: &str) -> bool
    ensures { result ≡ big.follow radix true (chars text.now) (chars digits.now) }
{
    let mut rest = text;
    let mut left = digits;
    let mut due = true;
    while let Some((c, more)) = split_first(rest) {
        if is_digit_of(radix, c) {
            match after_first(left, c) {
                Some(after) => left = after,
                None => return false,
            }
            due = false;
        } else if c == '_' {
            if due {
                return false;
            }
            due = true;
        } else {
            return c == 'n' && !due && is_empty(more) && is_empty(left);
        }
        rest = more;
    }
    false
}

#[tactic(auto, unfolding(crate::specs::BigDigits::follow_prefix))]
fn digits_follow_prefix(radix: Radix, text: &str, digits: &str) -> bool
    ensures { result ≡ big.follow_prefix radix (chars text.now) (chars digits.now) }
{
    match split_first(text) {
        Some((c, rest)) => match split_first(rest) {
            Some((p, rest)) => c == '0'
                && is_prefix(radix, p)
                && digits_follow(radix, rest, digits),
            None => false,
        },
        None => false,
    }
}

/// Whether it is `0n`.
#[tactic(auto, using(crate::proofs::BigSpellings::zero_by_parts))]
fn is_zero(text: &str) -> bool
    ensures { result ≡ texts.is_same (chars text.now) (codes "0n") }
{
    match after_first(text, '0') {
        Some(rest) => match after_first(rest, 'n') {
            Some(rest) => is_empty(rest),
            None => false,
        },
        None => false,
    }
}

/// Whether a text is one big integer of these digits.
#[tactic(auto)]
pub(crate) fn spells_digits(radix: Radix, digits: &str, text: &str) -> bool
    requires { lits.are_digits radix (chars digits.now) ≡ true }
    ensures { result ≡ lits.spells_digits radix (chars digits.now) (chars text.now) }
{
    match radix {
        Radix::Decimal => match after_first(digits, '0') {
            Some(_) => is_zero(text),
            None => digits_follow(radix, text, digits),
        },
        _ => digits_follow_prefix(radix, text, digits),
    }
}
