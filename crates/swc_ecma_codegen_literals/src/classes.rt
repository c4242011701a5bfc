//! Classes of tokens.

ghost use Rattle.std.specs.Prelude.{◌≡◌, if◌then◌else◌};
ghost use Rattle.std.specs.Str.{chars};
ghost use Rattle.swc_ecma_codegen_grammar.specs.Numbers.{is_octal, takes_dot};
ghost use Rattle.swc_ecma_codegen_literals.specs.Integers.{after_zero, decimal, digits, is_integer};

use crate::punctuators::Punctuator;

/// The class of a token, as far as what comes after may fuse with it.
#[derive(Debug, Clone, Copy, PartialEq, Eq)]
pub enum TokenClass {
    /// A punctuator.
    Punctuator(Punctuator),
    /// `!` right after `<`.
    LessBang,
    /// A keyword, a name, a regular expression, or a number that a dot after it wouldn't belong to.
    Word,
    /// A decimal integer: a dot after it would belong to it.
    Integer,
    /// The `>` that closes a list of types, a type assertion or a tag.
    Closing,
    /// Whatever nothing fuses with.
    Rest,
}

/// The class of a number that is spelled so: `Integer` where a dot after it would belong to it, as
/// after `5` and `08`, and not after `5.`, `5e3`, `0x5`, `05` or `5n`; else `Word`.
pub fn number_class(spelling: &str) -> TokenClass
    ensures { result ≡ (if takes_dot (chars spelling.now) then TokenClass.Integer
        else TokenClass.Word) }
{
    if spelling.is_ascii() && is_integer(spelling.as_bytes()) {
        TokenClass::Integer
    } else {
        TokenClass::Word
    }
}

#[tactic(auto, unfolding(crate::specs::Integers::is_integer, swc_ecma_codegen_grammar::specs::Chars::is_digit))]
fn is_integer(text: &[u8]) -> bool
    ensures { result ≡ is_integer text.now }
{
    match text {
        [] => false,
        [b'0', rest @ ..] => after_zero(rest),
        [c, rest @ ..] => c.is_ascii_digit() && digits(false, rest),
    }
}

#[tactic(auto, unfolding(crate::specs::Integers::digits, swc_ecma_codegen_grammar::specs::Chars::is_digit))]
fn digits(due: bool, text: &[u8]) -> bool
    ensures { result ≡ digits due text.now }
{
    match text {
        [] => !due,
        [c, rest @ ..] if c.is_ascii_digit() => digits(false, rest),
        [c, rest @ ..] => *c == b'_' && !due && digits(true, rest),
    }
}

#[tactic(auto, unfolding(crate::specs::Integers::after_zero, swc_ecma_codegen_grammar::specs::Chars::is_digit))]
fn after_zero(text: &[u8]) -> bool
    ensures { result ≡ after_zero text.now }
{
    match text {
        [] => true,
        [c, rest @ ..] => c.is_ascii_digit() && decimal(is_octal(*c), rest),
    }
}

#[tactic(auto, unfolding(crate::specs::Integers::decimal, swc_ecma_codegen_grammar::specs::Chars::is_digit))]
fn decimal(octal: bool, text: &[u8]) -> bool
    ensures { result ≡ decimal octal text.now }
{
    match text {
        [] => !octal,
        [c, rest @ ..] => c.is_ascii_digit() && decimal(octal && is_octal(*c), rest),
    }
}

#[tactic(auto, unfolding(swc_ecma_codegen_grammar::specs::Numbers::is_octal))]
fn is_octal(c: u8) -> bool
    ensures { result ≡ is_octal c }
{
    b'0' <= c && c <= b'7'
}
