//! How single characters are spelled in strings.

ghost use Rattle.std.specs.Prelude.{◌≡◌, ◌++◌, ◌<◌, ◌&&◌, true, false, nat_lt, OnOk};
ghost use Rattle.std.specs.Fmt.{digit_glyph};
ghost use Rattle.std.specs.Str.{chars};
ghost use Rattle.std.specs.String.{string_bytes};
ghost use Rattle.swc_ecma_codegen_grammar.specs.Chars.{begins_digit};
ghost use Rattle.swc_ecma_codegen_grammar.specs.Numbers.{is_hex, is_either};
ghost use Rattle.swc_ecma_codegen_grammar.specs.CodeUnits.{escape_length, is_high_digit, begins_like, short_escape, long_escape};
ghost use Rattle.swc_ecma_codegen_literals.specs.StringTexts.{up_to_es5, below_es5, stands, is_unseen, escape_text, null_escape, backslash_escape, code_escape, hex_escape, unit_escape, braced_escape};

use std::alloc::AllocError;
use swc_ecma_codegen_common::EsVersion;

/// How a string is spelled: its quote, whether all in ASCII, and for which version of the language.
#[derive(Clone, Copy)]
pub(crate) struct Style {
    pub(crate) quote: char,
    pub(crate) ascii_only: bool,
    pub(crate) target: EsVersion,
}

/// Whether a character stands for itself in a string of this style.
#[tactic(auto, unfolding(crate::specs::StringTexts::stands))]
pub(crate) fn stands(c: char, style: Style) -> bool
    ensures { result ≡ stands style.quote style.ascii_only style.target c }
{
    let old = is_up_to_es5(style.target);
    if c < '\u{7F}' {
        (c >= ' ' || c == '\t') && c != style.quote && c != '\\'
    } else if c < '\u{100}' {
        !style.ascii_only && !old
    } else if c < '\u{10000}' {
        !style.ascii_only && !is_unseen(c)
    } else {
        !style.ascii_only && !old
    }
}

/// Whether it is a version before 2015.
#[tactic(auto, unfolding(crate::specs::StringTexts::up_to_es5))]
pub(crate) fn is_up_to_es5(target: EsVersion) -> bool
    ensures { result ≡ up_to_es5 target }
{
    matches!(target, EsVersion::Es3 | EsVersion::Es5)
}

#[tactic(auto, unfolding(crate::specs::StringTexts::below_es5))]
fn is_below_es5(target: EsVersion) -> bool
    ensures { result ≡ below_es5 target }
{
    matches!(target, EsVersion::Es3)
}

// U+2028 and U+2029, which end lines, and U+FEFF, which editors drop.
#[tactic(auto, unfolding(crate::specs::StringTexts::is_unseen))]
pub(crate) fn is_unseen(c: char) -> bool
    ensures { result ≡ is_unseen c }
{
    c == '\u{2028}' || c == '\u{2029}' || c == '\u{FEFF}'
}

/// The escape of a character that doesn't stand for itself, which `rest` follows. A backslash that
/// begins a surrogate escape that is written in plain characters stays alone.
#[tactic(auto, unfolding(crate::specs::StringTexts::escape_text))]
pub(crate) fn push_escape(
    literal: &mut String,
    c: char,
    rest: &str,
    target: EsVersion,
) -> Result<(), AllocError>
    ensures { OnOk result (string_bytes literal.new
        ≡ string_bytes literal.old ++ escape_text target c (chars rest.now)) }
{
    match c {
        '\0' => push_null(literal, rest, target),
        '\u{8}' => literal.push_str("\\b"),
        '\n' => literal.push_str("\\n"),
        '\u{B}' => literal.push_str("\\v"),
        '\u{C}' => literal.push_str("\\f"),
        '\r' => literal.push_str("\\r"),
        '\\' => push_backslash(literal, rest),
        '"' => literal.push_str("\\\""),
        '\'' => literal.push_str("\\'"),
        _ => push_code(literal, c as u32, target),
    }
}

// `\0`, but not before a digit, where it would be an octal escape, nor for ECMAScript 3.
#[tactic(auto, unfolding(crate::specs::StringTexts::null_escape))]
fn push_null(literal: &mut String, rest: &str, target: EsVersion) -> Result<(), AllocError>
    ensures { OnOk result (string_bytes literal.new
        ≡ string_bytes literal.old ++ null_escape target (chars rest.now)) }
{
    if is_below_es5(target) || begins_digit(rest) {
        literal.push_str("\\x00")
    } else {
        literal.push_str("\\0")
    }
}

#[tactic(auto, unfolding(crate::specs::StringTexts::backslash_escape))]
fn push_backslash(literal: &mut String, rest: &str) -> Result<(), AllocError>
    ensures { OnOk result (string_bytes literal.new
        ≡ string_bytes literal.old ++ backslash_escape (chars rest.now)) }
{
    if begins_surrogate(rest) {
        literal.push('\\')
    } else {
        literal.push_str("\\\\")
    }
}

#[tactic(auto, unfolding(swc_ecma_codegen_grammar::specs::Chars::is_digit))]
fn begins_digit(text: &str) -> bool
    ensures { result ≡ begins_digit (chars text.now) }
{
    let bytes = text.as_bytes();
    !bytes.is_empty() && bytes[0].is_ascii_digit()
}

// A surrogate escape after its backslash: `ud83d` or `u{d83d}`, from D800 to DFFF.
fn begins_surrogate(text: &str) -> bool
    ensures { result ≡ nat_lt 0 (escape_length (chars text.now)) }
{
    let bytes = text.as_bytes();
    is_short_escape(bytes) || is_long_escape(bytes)
}

#[tactic(auto, using(crate::proofs::Fronts::short_places, crate::proofs::Fronts::short_none))]
fn is_short_escape(text: &[u8]) -> bool
    ensures { result ≡ begins_like short_escape text.now }
{
    text.len() >= 5 && text[0] == b'u' && is_surrogate(text[1], text[2], text[3], text[4])
}

#[tactic(auto, using(crate::proofs::Fronts::long_places, crate::proofs::Fronts::long_none))]
fn is_long_escape(text: &[u8]) -> bool
    ensures { result ≡ begins_like long_escape text.now }
{
    text.len() >= 7
        && text[0] == b'u'
        && text[1] == b'{'
        && is_surrogate(text[2], text[3], text[4], text[5])
        && text[6] == b'}'
}

fn is_surrogate(first: u8, second: u8, third: u8, fourth: u8) -> bool
    ensures { result ≡ (is_either 68 100 first
        && (is_high_digit second && (is_hex third && is_hex fourth))) }
{
    is_letter_d(first) && is_high_digit(second) && is_hex(third) && is_hex(fourth)
}

#[tactic(auto, unfolding(swc_ecma_codegen_grammar::specs::Numbers::is_either))]
fn is_letter_d(c: u8) -> bool
    ensures { result ≡ is_either 68 100 c }
{
    c == b'D' || c == b'd'
}

#[tactic(auto, unfolding(swc_ecma_codegen_grammar::specs::CodeUnits::is_high_digit))]
fn is_high_digit(c: u8) -> bool
    ensures { result ≡ is_high_digit c }
{
    is_hex(c) && c >= b'8'
}

#[tactic(auto, unfolding(swc_ecma_codegen_grammar::specs::Numbers::is_hex, swc_ecma_codegen_grammar::specs::Chars::is_digit))]
fn is_hex(c: u8) -> bool
    ensures { result ≡ is_hex c }
{
    c.is_ascii_hexdigit()
}

// `\x1b`, `\u2028`, `\uD83D\uDE00` or `\u{1F600}`.
#[tactic(auto, unfolding(crate::specs::StringTexts::code_escape, crate::specs::StringTexts::pair_escape))]
pub(crate) fn push_code(
    literal: &mut String,
    code: u32,
    target: EsVersion,
) -> Result<(), AllocError>
    requires { code < 1114112 }
    ensures { OnOk result (string_bytes literal.new
        ≡ string_bytes literal.old ++ code_escape target code) }
{
    if code < 0x100 {
        push_hex_escape(literal, code)
    } else if code < 0x10000 {
        push_unit_escape(literal, code)
    } else if is_up_to_es5(target) {
        push_unit_escape(literal, 0xD800 + (code - 0x10000) / 0x400)?;
        push_unit_escape(literal, 0xDC00 + (code - 0x10000) % 0x400)
    } else {
        push_braced_escape(literal, code)
    }
}

// `\x1b`
#[tactic(auto, unfolding(crate::specs::StringTexts::hex_escape))]
pub(crate) fn push_hex_escape(literal: &mut String, code: u32) -> Result<(), AllocError>
    requires { code < 256 }
    ensures { OnOk result (string_bytes literal.new ≡ string_bytes literal.old ++ hex_escape code) }
{
    literal.push_str("\\x")?;
    literal.push(lower_digit(code / 16))?;
    literal.push(lower_digit(code % 16))
}

// `\u2028`
#[tactic(auto, unfolding(crate::specs::StringTexts::unit_escape))]
pub(crate) fn push_unit_escape(literal: &mut String, code: u32) -> Result<(), AllocError>
    requires { code < 65536 }
    ensures { OnOk result (string_bytes literal.new
        ≡ string_bytes literal.old ++ unit_escape code) }
{
    literal.push_str("\\u")?;
    literal.push(upper_digit(code / 4096))?;
    literal.push(upper_digit(code / 256 % 16))?;
    literal.push(upper_digit(code / 16 % 16))?;
    literal.push(upper_digit(code % 16))
}

// `\u{1F600}`
#[tactic(auto, unfolding(crate::specs::StringTexts::braced_escape))]
pub(crate) fn push_braced_escape(literal: &mut String, code: u32) -> Result<(), AllocError>
    ensures { OnOk result (string_bytes literal.new
        ≡ string_bytes literal.old ++ braced_escape code) }
{
    write!(literal, "\\u{{{code:X}}}")
}

pub(crate) fn lower_digit(value: u32) -> char
    requires { value < 16 }
    ensures { result ≡ digit_glyph false value }
{
    if value < 10 {
        (b'0' + value as u8) as char
    } else {
        (b'a' - 10 + value as u8) as char
    }
}

fn upper_digit(value: u32) -> char
    requires { value < 16 }
    ensures { result ≡ digit_glyph true value }
{
    if value < 10 {
        (b'0' + value as u8) as char
    } else {
        (b'A' - 10 + value as u8) as char
    }
}
