//! Which texts are numeric literals, as plain programs. ECMA-262, sections 12.9.3 and B.1.1.

ghost use Rattle.std.specs.Prelude.{◌≡◌, ◌<◌, true, false, IfSome, IfNone};
ghost use Rattle.std.specs.Char.{digit_value};
ghost use Rattle.swc_ecma_codegen_grammar.specs.Numbers as numbers;

use crate::characters::is_digit;

/// An octal digit.
#[tactic(auto, unfolding(crate::specs::Numbers::is_octal))]
pub fn is_octal(c: char) -> bool
    ensures { result ≡ numbers.is_octal c }
{
    '0' <= c && c <= '7'
}

/// A hexadecimal digit.
#[tactic(auto, unfolding(crate::specs::Numbers::is_hex))]
pub fn is_hex(c: char) -> bool
    ensures { result ≡ numbers.is_hex c }
{
    is_digit(c) || ('A' <= c && c <= 'F') || ('a' <= c && c <= 'f')
}

/// The value of a hexadecimal digit.
#[tactic(auto, unfolding(crate::specs::Numbers::is_hex, crate::specs::Chars::is_digit))]
pub fn hex_digit(c: char) -> Option<u32>
    ensures digit { IfSome result (λ digit. (numbers.is_hex c ≡ true) × (digit ≡ digit_value c)
        × (digit < 16)) }
    ensures none { IfNone result (numbers.is_hex c ≡ false) }
{
    c.to_digit(16)
}

/// A binary digit.
#[tactic(auto, unfolding(crate::specs::Numbers::is_binary))]
pub fn is_binary(c: char) -> bool
    ensures { result ≡ numbers.is_binary c }
{
    c == '0' || c == '1'
}

/// One of two characters.
#[tactic(auto, unfolding(crate::specs::Numbers::is_either))]
pub fn is_either(a: char, b: char, c: char) -> bool
    ensures { result ≡ numbers.is_either a b c }
{
    c == a || c == b
}

#[tactic(auto, unfolding(crate::specs::Numbers::power))]
fn power(due: bool, text: &[char]) -> bool
    ensures { result ≡ numbers.power due text.now }
{
    match text {
        [] => !due,
        [c, rest @ ..] if is_digit(*c) => power(false, rest),
        [c, rest @ ..] => *c == '_' && !due && power(true, rest),
    }
}

#[tactic(auto, unfolding(crate::specs::Numbers::exponent))]
fn exponent(text: &[char]) -> bool
    ensures { result ≡ numbers.exponent text.now }
{
    match text {
        [] => false,
        [c, rest @ ..] if is_either('+', '-', *c) => power(true, rest),
        [c, rest @ ..] => is_digit(*c) && power(false, rest),
    }
}

#[tactic(auto, unfolding(crate::specs::Numbers::fraction))]
fn fraction(joins: bool, due: bool, text: &[char]) -> bool
    ensures { result ≡ numbers.fraction joins due text.now }
{
    match text {
        [] => !due,
        [c, rest @ ..] if is_digit(*c) => fraction(true, false, rest),
        [c, rest @ ..] if is_either('e', 'E', *c) => !due && exponent(rest),
        [c, rest @ ..] => *c == '_' && joins && fraction(false, true, rest),
    }
}

#[tactic(auto, unfolding(crate::specs::Numbers::integer, crate::specs::Texts::is_empty))]
fn integer(due: bool, text: &[char]) -> bool
    ensures { result ≡ numbers.integer due text.now }
{
    match text {
        [] => !due,
        [c, rest @ ..] if is_digit(*c) => integer(false, rest),
        [c, rest @ ..] if *c == '_' => !due && integer(true, rest),
        [c, rest @ ..] if *c == '.' => !due && fraction(false, false, rest),
        [c, rest @ ..] if is_either('e', 'E', *c) => !due && exponent(rest),
        [c, rest @ ..] => *c == 'n' && !due && rest.is_empty(),
    }
}

#[tactic(auto, unfolding(crate::specs::Numbers::radix, crate::specs::Texts::is_empty))]
fn hex_digits(due: bool, text: &[char]) -> bool
    ensures { result ≡ numbers.radix numbers.is_hex due text.now }
{
    match text {
        [] => !due,
        [c, rest @ ..] if is_hex(*c) => hex_digits(false, rest),
        [c, rest @ ..] if *c == '_' => !due && hex_digits(true, rest),
        [c, rest @ ..] => *c == 'n' && !due && rest.is_empty(),
    }
}

#[tactic(auto, unfolding(crate::specs::Numbers::radix, crate::specs::Texts::is_empty))]
fn octal_digits(due: bool, text: &[char]) -> bool
    ensures { result ≡ numbers.radix numbers.is_octal due text.now }
{
    match text {
        [] => !due,
        [c, rest @ ..] if is_octal(*c) => octal_digits(false, rest),
        [c, rest @ ..] if *c == '_' => !due && octal_digits(true, rest),
        [c, rest @ ..] => *c == 'n' && !due && rest.is_empty(),
    }
}

#[tactic(auto, unfolding(crate::specs::Numbers::radix, crate::specs::Texts::is_empty))]
fn binary_digits(due: bool, text: &[char]) -> bool
    ensures { result ≡ numbers.radix numbers.is_binary due text.now }
{
    match text {
        [] => !due,
        [c, rest @ ..] if is_binary(*c) => binary_digits(false, rest),
        [c, rest @ ..] if *c == '_' => !due && binary_digits(true, rest),
        [c, rest @ ..] => *c == 'n' && !due && rest.is_empty(),
    }
}

#[tactic(auto, unfolding(crate::specs::Numbers::legacy))]
fn legacy(octal: bool, text: &[char]) -> bool
    ensures { result ≡ numbers.legacy octal text.now }
{
    match text {
        [] => true,
        [c, rest @ ..] if is_digit(*c) => legacy(octal && is_octal(*c), rest),
        [c, rest @ ..] if *c == '.' => !octal && fraction(false, false, rest),
        [c, rest @ ..] => is_either('e', 'E', *c) && !octal && exponent(rest),
    }
}

#[tactic(auto, unfolding(crate::specs::Numbers::after_zero, crate::specs::Texts::is_empty))]
fn after_zero(text: &[char]) -> bool
    ensures { result ≡ numbers.after_zero text.now }
{
    match text {
        [] => true,
        [c, rest @ ..] if is_digit(*c) => legacy(is_octal(*c), rest),
        [c, rest @ ..] if *c == '.' => fraction(false, false, rest),
        [c, rest @ ..] if is_either('e', 'E', *c) => exponent(rest),
        [c, rest @ ..] if is_either('x', 'X', *c) => hex_digits(true, rest),
        [c, rest @ ..] if is_either('o', 'O', *c) => octal_digits(true, rest),
        [c, rest @ ..] if is_either('b', 'B', *c) => binary_digits(true, rest),
        [c, rest @ ..] => *c == 'n' && rest.is_empty(),
    }
}

#[tactic(auto, unfolding(crate::specs::Numbers::is_numeric))]
fn is_numeric(text: &[char]) -> bool
    ensures { result ≡ numbers.is_numeric text.now }
{
    match text {
        [] => false,
        [c, rest @ ..] if *c == '0' => after_zero(rest),
        [c, rest @ ..] if is_digit(*c) => integer(false, rest),
        [c, rest @ ..] => *c == '.' && fraction(false, true, rest),
    }
}

#[tactic(auto, unfolding(crate::specs::Numbers::has_suffix))]
fn has_suffix(text: &[char]) -> bool
    ensures { result ≡ numbers.has_suffix text.now }
{
    match text {
        [] => false,
        [c, rest @ ..] => {
            if rest.is_empty() {
                *c == 'n'
            } else {
                has_suffix(rest)
            }
        }
    }
}

/// A numeric literal without suffix.
#[tactic(auto, unfolding(crate::specs::Numbers::is_number))]
pub fn is_number(text: &[char]) -> bool
    ensures { result ≡ numbers.is_number text.now }
{
    is_numeric(text) && !has_suffix(text)
}

/// A numeric literal with the suffix `n`.
#[tactic(auto, unfolding(crate::specs::Numbers::is_big_integer))]
pub fn is_big_integer(text: &[char]) -> bool
    ensures { result ≡ numbers.is_big_integer text.now }
{
    is_numeric(text) && has_suffix(text)
}
