//! Strings for scripts inside HTML.

ghost use Rattle.std.specs.Prelude.{◌≡◌, ◌++◌, ◌+◌, ◌-◌, ◌<◌, ◌≤◌, ◌^◌, true, false, IfOk, IfErr, IfSome, Some, None, drop, length, take, slice_index};
ghost use Rattle.std.specs.Str.{encode_utf8_all};
ghost use Rattle.std.specs.Str.{chars, IsAscii};
ghost use Rattle.std.specs.String.{string_bytes};
ghost use Rattle.swc_ecma_codegen_common.specs.declared.errors.Error.TheVariants.{OutOfMemory};
ghost use Rattle.swc_ecma_codegen_grammar.specs.Numbers.{is_either};
ghost use Rattle.swc_ecma_codegen_grammar.specs.Strings.{is_string};
ghost use Rattle.swc_ecma_codegen_grammar.specs.CodeUnits.{units, begins_like};
ghost use Rattle.swc_ecma_codegen_literals.specs.StringTexts.{quoted_text};
ghost use Rattle.swc_ecma_codegen_grammar.specs.StringValues.{string_value};
ghost use Rattle.swc_ecma_codegen_literals.specs.InlineScripts.{is_tag_end, comment_start, script_end, dashes_after, inline_text, mark_text, marked, IsInlineSafe};

use crate::strings::quoted_utf16;
use std::alloc::{AllocError, Global};
use swc_ecma_codegen_common::{Error, EsVersion};

/// The string literal of a text, as `quoted_utf16` gives it, for a script inside HTML: `</script`
/// before the end of a tag's name is written `<\/script`, `<!--` is `\x3c!--` and `-->` is
/// `--\x3e`. `Error::OutOfMemory` where there is no room for the literal.
///
/// Source: `replace_close_inline_script` and `emit_str_lit` of swc.
pub fn quoted_for_inline_script(
    alloc: Global,
    text: &str,
    ascii_only: bool,
    target: EsVersion,
) -> std::result::Result<String, Error>
    ensures exactly { IfOk result (λ literal. string_bytes literal
        ≡ encode_utf8_all (inline_text (quoted_text ascii_only target (chars text.now)))) }
    ensures value { IfOk result (λ literal. string_value false (chars (string_bytes literal))
        ≡ Some (units (chars text.now))) }
    ensures token { IfOk result (λ literal. is_string (chars (string_bytes literal)) ≡ true) }
    ensures safe { IfOk result (λ literal. IsInlineSafe (chars (string_bytes literal))) }
    ensures ascii { ascii_only ≡ true → IfOk result (λ literal. IsAscii (string_bytes literal)) }
    ensures refused { IfErr result (λ error. error ≡ OutOfMemory) }
{
    let literal = quoted_utf16(alloc, text, ascii_only, target)?;
    match first_mark(literal.as_bytes()) {
        Some(_) => Ok(marked(alloc, literal.as_str())?),
        None => Ok(literal),
    }
}

// A literal with all that may not stand in it written in another way.
fn marked(alloc: Global, literal: &str) -> Result<String, AllocError>
    ensures { IfOk result (λ text. string_bytes text ≡ marked 0 literal.now) }
{
    let mut safe = String::with_capacity(alloc, literal.len() + 4)?;
    let mut rest = literal;
    while let Some((at, escape)) = first_mark(rest.as_bytes()) {
        safe.push_str(&rest[..at])?;
        safe.push_str(escape)?;
        rest = &rest[at + 1..];
    }
    safe.push_str(rest)?;
    Ok(safe)
}

// The first character that may not stand in a literal, and what is written in its place.
fn first_mark(literal: &[u8]) -> Option<(usize, &'static str)>
    ensures none { result ≡ None → marked 0 literal.now ≡ literal.now }
    ensures place { IfSome result (λ mark. mark.0 < length literal.now) }
    ensures ascii { IfSome result (λ mark. slice_index literal.now mark.0 < 128) }
    ensures parts { IfSome result (λ mark. marked 0 literal.now
        ≡ take mark.0 literal.now ++ (mark.1.now ++ marked 0 (drop (mark.0 + 1) literal.now))) }
{
    let mut dashes = 0;
    for at in 0..literal.len() {
        let c = literal[at];
        if let Some(escape) = mark_text(c, dashes, &literal[at + 1..]) {
            return Some((at, escape));
        }
        dashes = dashes_after(dashes, c);
    }
    None
}

// How many `-` stand side by side up to a character.
fn dashes_after(dashes: usize, c: u8) -> usize
    requires { dashes < 2 ^ 63 }
    ensures { result ≡ dashes_after dashes c }
{
    if c == b'-' { dashes + 1 } else { 0 }
}

// What is written for a character after so many `-`, before `next`, where it may not stand.
#[tactic(auto, unfolding(crate::specs::InlineScripts::mark_text))]
fn mark_text(c: u8, dashes: usize, next: &[u8]) -> Option<&'static str>
    ensures none { result ≡ None → mark_text dashes c next.now ≡ None }
    ensures some { IfSome result (λ text. mark_text dashes c next.now ≡ Some text.now) }
{
    match c {
        b'<' if begins_comment(next) => Some("\\x3c"),
        b'<' if ends_script(next) => Some("<\\"),
        b'>' if dashes >= 2 => Some("\\x3e"),
        _ => None,
    }
}

// `!--`
#[tactic(auto, using(crate::proofs::InlineMarks::start_places, crate::proofs::InlineMarks::start_none))]
fn begins_comment(text: &[u8]) -> bool
    ensures { result ≡ begins_like comment_start text.now }
{
    text.len() >= 3 && text[0] == b'!' && text[1] == b'-' && text[2] == b'-'
}

// `/script`, and the end of the tag's name.
#[tactic(auto, using(crate::proofs::InlineMarks::end_places, crate::proofs::InlineMarks::end_none))]
fn ends_script(text: &[u8]) -> bool
    ensures { result ≡ begins_like script_end text.now }
{
    text.len() >= 8
        && text[0] == b'/'
        && is_letter(text[1], b's')
        && is_letter(text[2], b'c')
        && is_letter(text[3], b'r')
        && is_letter(text[4], b'i')
        && is_letter(text[5], b'p')
        && is_letter(text[6], b't')
        && is_tag_end(text[7])
}

// A letter in either case.
#[tactic(auto, unfolding(swc_ecma_codegen_grammar::specs::Numbers::is_either))]
fn is_letter(c: u8, lower: u8) -> bool
    requires { 97 ≤ lower }
    ensures { result ≡ is_either lower (lower - 32) c }
{
    c == lower || c == lower - 32
}

#[tactic(auto, unfolding(crate::specs::InlineScripts::is_tag_end))]
fn is_tag_end(c: u8) -> bool
    ensures { result ≡ is_tag_end c }
{
    matches!(c, b'>' | b' ' | b'\t' | b'\n' | 0xC | b'\r')
}
