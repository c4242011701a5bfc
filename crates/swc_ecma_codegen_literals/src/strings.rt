//! Strings.

ghost use Rattle.std.specs.Prelude.{◌≡◌, ◌++◌, ◌∷◌, [], ℕ, true, false, List, OnOk, IfOk, IfErr, Some, count_by, ◌==◌, ◌<◌, ◌≤◌, drop, length};
ghost use Rattle.std.specs.List.{list_all};
ghost use Rattle.std.specs.Str.{encode_utf8_all};
ghost use Rattle.std.specs.Str.{chars, IsUtf8, IsAscii};
ghost use Rattle.std.specs.String.{string_bytes};
ghost use Rattle.swc_ecma_codegen_common.specs.declared.errors.Error.TheVariants.{OutOfMemory};
ghost use Rattle.swc_ecma_codegen_grammar.specs.Strings.{is_string};
ghost use Rattle.swc_ecma_codegen_grammar.specs.CodeUnits.{units};
ghost use Rattle.swc_ecma_codegen_grammar.specs.StringValues.{string_value};
ghost use Rattle.swc_ecma_codegen_literals.specs.StringTexts.{stands, is_plain_ascii, spelled_all, first_escape, quote_of, quoted_text};

use crate::escapes::{Style, push_escape, stands};
use std::alloc::{AllocError, Global};
use swc_ecma_codegen_common::{Error, EsVersion};

/// The string literal of a text: in `'` where it has more `"` than `'`, else in `"`. A surrogate
/// escape that is written in the text in plain characters, as `\ud83d`, stands for its code unit
/// and is copied. `Error::OutOfMemory` where there is no room for the literal.
///
/// Source: `get_quoted_utf16` of swc, but a written surrogate escape must be complete.
pub fn quoted_utf16(
    alloc: Global,
    text: &str,
    ascii_only: bool,
    target: EsVersion,
) -> std::result::Result<String, Error>
    ensures exactly { IfOk result (λ literal. string_bytes literal
        ≡ encode_utf8_all (quoted_text ascii_only target (chars text.now))) }
    ensures value { IfOk result (λ literal. string_value false (chars (string_bytes literal))
        ≡ Some (units (chars text.now))) }
    ensures token { IfOk result (λ literal. is_string (chars (string_bytes literal)) ≡ true) }
    ensures ascii { ascii_only ≡ true → IfOk result (λ literal. IsAscii (string_bytes literal)) }
    ensures refused { IfErr result (λ error. error ≡ OutOfMemory) }
{
    if is_plain(text, ascii_only, target) {
        return Ok(plain_literal(alloc, text)?);
    }
    Ok(spelled_literal(alloc, text, ascii_only, target)?)
}

// Whether each character of a text stands for itself between `"`.
fn is_plain(text: &str, ascii_only: bool, target: EsVersion) -> bool
    ensures { result ≡ list_all (stands 34 ascii_only target) (chars text.now) }
{
    if is_plain_ascii(text.as_bytes()) {
        return true;
    }
    let style = Style {
        quote: '"',
        ascii_only,
        target,
    };
    text.chars().all(|c| stands(c, style))
}

// Whether a text stands for itself between `"` in each style: `it's`, but not `say "no"`,
// `C:\\temp` or `café`.
fn is_plain_ascii(text: &[u8]) -> bool
    ensures { result ≡ list_all is_plain_ascii text.now }
{
    text.iter().all(|c| is_plain_byte(*c))
}

#[tactic(auto, unfolding(crate::specs::StringTexts::is_plain_ascii))]
fn is_plain_byte(c: u8) -> bool
    ensures { result ≡ is_plain_ascii c }
{
    c >= b' ' && c < 0x7F && c != b'"' && c != b'\\'
}

// `"it's"`
fn plain_literal(alloc: Global, text: &str) -> Result<String, AllocError>
    ensures { IfOk result (λ literal. string_bytes literal ≡ 34 ∷ (text.now ++ 34 ∷ [])) }
{
    let mut literal = String::with_capacity(alloc, text.len() + 2)?;
    literal.push('"')?;
    literal.push_str(text)?;
    literal.push('"')?;
    Ok(literal)
}

// `'say "no"'` or `"C:\\temp"`
fn spelled_literal(
    alloc: Global,
    text: &str,
    ascii_only: bool,
    target: EsVersion,
) -> Result<String, AllocError>
    ensures { IfOk result (λ literal. string_bytes literal
        ≡ encode_utf8_all (quoted_text ascii_only target (chars text.now))) }
{
    let quote = quote_of(text);
    let style = Style {
        quote,
        ascii_only,
        target,
    };
    let mut literal = String::with_capacity(alloc, text.len() + 2)?;
    literal.push(quote)?;
    push_spelled(&mut literal, text, style)?;
    literal.push(quote)?;
    Ok(literal)
}

#[tactic(auto, unfolding(crate::specs::StringTexts::quote_of))]
fn quote_of(text: &str) -> char
    ensures { result ≡ quote_of (chars text.now) }
{
    if count(text, '\'') < count(text, '"') {
        '\''
    } else {
        '"'
    }
}

fn count(text: &str, quote: char) -> usize
    ensures { result ≡ count_by (λ c. c == quote) (chars text.now) }
{
    text.chars().filter(|c| *c == quote).count()
}

// The characters of a text, each as it is spelled. Those that stand for themselves are copied a run
// at a time.
fn push_spelled(literal: &mut String, text: &str, style: Style) -> Result<(), AllocError>
    ensures { OnOk result (string_bytes literal.new
        ≡ string_bytes literal.old ++ encode_utf8_all
        (spelled_all style.quote style.ascii_only style.target (chars text.now))) }
{
    let mut rest = text;
    while !rest.is_empty() {
        let (run, after) = split_run(rest, style);
        literal.push_str(run)?;
        rest = push_first_escape(literal, after, style.target)?;
    }
    Ok(())
}

// The escape of the first character of a text, which gives what follows it.
fn push_first_escape<'a>(
    literal: &mut String,
    text: &'a str,
    target: EsVersion,
) -> Result<&'a str, AllocError>
    ensures literal { OnOk result (string_bytes literal.new
        ≡ string_bytes literal.old ++ first_escape target (chars text.now)) }
    ensures text { IfOk result (λ rest. IsUtf8 rest.now) }
    ensures rest { IfOk result (λ rest. chars rest.now ≡ drop 1 (chars text.now)) }
    ensures shorter { IfOk result (λ rest. (length rest.now ≤ length text.now)
        × (0 < length text.now → length rest.now < length text.now)) }
{
    let mut chars = text.chars();
    match chars.next() {
        Some(c) => {
            push_escape(literal, c, chars.as_str(), target)?;
            Ok(chars.as_str())
        }
        None => Ok(text),
    }
}

// The characters at the start of a text that stand for themselves, and what follows.
fn split_run(text: &str, style: Style) -> (&str, &str)
    ensures texts { IsUtf8 result.0.now × IsUtf8 result.1.now }
    ensures parts { text.now ≡ result.0.now ++ result.1.now }
    ensures run { list_all (stands style.quote style.ascii_only style.target) (chars result.0.now)
        ≡ true }
    ensures stops { (c : ℕ) → (cs : List ℕ) → chars result.1.now ≡ c ∷ cs →
        stands style.quote style.ascii_only style.target c ≡ false }
{
    let mut rest = text;
    let mut chars = text.chars();
    while let Some(c) = chars.next() {
        if !stands(c, style) {
            return text.split_at(text.len() - rest.len());
        }
        rest = chars.as_str();
    }
    (text, "")
}
