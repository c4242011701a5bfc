//! Names in ASCII.

ghost use Rattle.std.specs.Prelude.{◌≡◌, ◌++◌, ◌∷◌, [], ◌<◌, ◌≤◌, ◌&&◌, ℕ, nat_le, true, false, List, length, take, drop, OnOk, IfOk, IfErr, Err, Some, IsErrAnd};
ghost use Rattle.std.specs.List.{list_all, list_any};
ghost use Rattle.std.specs.Str.{chars, IsAscii, IsUtf8};
ghost use Rattle.std.specs.String.{string_bytes};
ghost use Rattle.swc_ecma_codegen_common.specs.declared.errors.Error.TheVariants.{OutOfMemory, NameOutOfTarget};
ghost use Rattle.swc_ecma_codegen_grammar.specs.Names.{is_name, name_value};
ghost use Rattle.swc_ecma_codegen_grammar.specs.Strings.{is_string};
ghost use Rattle.swc_ecma_codegen_grammar.specs.CodeUnits.{all_utf16};
ghost use Rattle.swc_ecma_codegen_grammar.specs.StringValues.{string_value};
ghost use Rattle.swc_ecma_codegen_literals.specs.AsciiNames.{is_plain, lower_unit_escape, name_escape, name_escapes, wants_quotes, is_quoted_key, is_out_of_target, ascii_name};

use crate::escapes::{is_up_to_es5, lower_digit, push_code};
use std::alloc::{AllocError, Global};
use swc_ecma_codegen_common::{Error, EsVersion};

/// A name in ASCII alone. What isn't ASCII is escaped: `\u00e9`, `\u0301`, `\u{1D4AB}`. A key of an
/// object or a class may be quoted; it is, where a character has a shorter escape in a string,
/// `"\xe9"`, or one there alone, `"\uD835\uDCAB"` up to ECMAScript 5. A name that holds escapes
/// already keeps them. `Error::NameOutOfTarget` for a character above U+FFFF, not spelled by an
/// escape, in a name that may not be quoted, up to ECMAScript 5; `Error::OutOfMemory` where there
/// is no room for the text.
///
/// Source: `get_ascii_only_ident` of swc, but quotes stand only round the whole name, and
/// backslashes stay.
pub fn ascii_only_ident(
    alloc: Global,
    text: &str,
    may_be_quoted: bool,
    target: EsVersion,
) -> std::result::Result<String, Error>
    ensures exactly { IfOk result (λ name. string_bytes name
        ≡ ascii_name may_be_quoted target (chars text.now)) }
    ensures name { is_quoted_key may_be_quoted target (chars text.now) ≡ false →
        IfOk result (λ name. is_name (chars (string_bytes name)) ≡ is_name (chars text.now)) }
    ensures value { is_quoted_key may_be_quoted target (chars text.now) ≡ false →
        is_name (chars text.now) ≡ true →
        IfOk result (λ name. name_value (chars (string_bytes name)) ≡ name_value (chars text.now)) }
    ensures key { is_quoted_key may_be_quoted target (chars text.now) ≡ true →
        is_name (chars text.now) ≡ true →
        IfOk result (λ name. string_value false (chars (string_bytes name))
        ≡ Some (all_utf16 (name_value (chars text.now)))) }
    ensures token { is_quoted_key may_be_quoted target (chars text.now) ≡ true →
        is_name (chars text.now) ≡ true →
        IfOk result (λ name. is_string (chars (string_bytes name)) ≡ true) }
    ensures ascii { IfOk result (λ name. IsAscii (string_bytes name)) }
    ensures out_of_target { is_out_of_target may_be_quoted target (chars text.now) ≡ true →
        IsErrAnd result (λ error. error ≡ NameOutOfTarget) }
    ensures refused { is_out_of_target may_be_quoted target (chars text.now) ≡ false →
        IfErr result (λ error. error ≡ OutOfMemory) }
{
    if text.is_ascii() {
        return Ok(String::from_str(alloc, text)?);
    }
    if is_out_of_target(text, may_be_quoted, target) {
        return Err(Error::NameOutOfTarget);
    }
    if is_better_quoted(text, may_be_quoted, target) {
        return Ok(quoted_key(alloc, text, target)?);
    }
    Ok(escaped_name(alloc, text, may_be_quoted, target)?)
}

// `"a\xf3b"`
fn quoted_key(alloc: Global, text: &str, target: EsVersion) -> Result<String, AllocError>
    ensures { IfOk result (λ name. string_bytes name
        ≡ 34 ∷ (name_escapes true target (chars text.now) ++ 34 ∷ [])) }
{
    let mut name = String::with_capacity(alloc, text.len() + 8)?;
    name.push('"')?;
    push_escapes(&mut name, text, true, target)?;
    name.push('"')?;
    Ok(name)
}

// `a\u00f3b`
fn escaped_name(
    alloc: Global,
    text: &str,
    key: bool,
    target: EsVersion,
) -> Result<String, AllocError>
    ensures { IfOk result (λ name. string_bytes name ≡ name_escapes key target (chars text.now)) }
{
    let mut name = String::with_capacity(alloc, text.len() + 8)?;
    push_escapes(&mut name, text, key, target)?;
    Ok(name)
}

// Some character has no escape in a name for this target.
#[tactic(auto, unfolding(crate::specs::AsciiNames::is_out_of_target))]
fn is_out_of_target(text: &str, key: bool, target: EsVersion) -> bool
    ensures { result ≡ is_out_of_target key target (chars text.now) }
{
    !key && is_up_to_es5(target) && has_wide(text)
}

// A character above U+FFFF.
fn has_wide(text: &str) -> bool
    ensures { result ≡ list_any (nat_le 65536) (chars text.now) }
{
    text.chars().any(|c| c >= '\u{10000}')
}

// A key some character of which has a shorter escape in a string, or one there alone.
fn is_better_quoted(text: &str, key: bool, target: EsVersion) -> bool
    ensures { result ≡ (key && list_any (wants_quotes target) (chars text.now)) }
{
    key && wants_quotes(text, target)
}

/// Whether some character has a shorter escape in a string than in a name, or one there alone:
/// U+007F to U+00FF, and up to ECMAScript 5 one above U+FFFF. So a key of an object or a class that
/// isn't ASCII is quoted in ASCII.
pub fn wants_quotes(text: &str, target: EsVersion) -> bool
    ensures { result ≡ list_any (wants_quotes target) (chars text.now) }
{
    text.chars().any(|c| asks_quotes(c, target))
}

#[tactic(auto, unfolding(crate::specs::AsciiNames::wants_quotes))]
fn asks_quotes(c: char, target: EsVersion) -> bool
    ensures { result ≡ wants_quotes target c }
{
    matches!(c, '\u{7F}'..='\u{FF}') || (c >= '\u{10000}' && is_up_to_es5(target))
}

// The characters of a name, each as it is spelled. Those that stand for themselves are copied a run
// at a time.
fn push_escapes(
    name: &mut String,
    text: &str,
    key: bool,
    target: EsVersion,
) -> Result<(), AllocError>
    ensures { OnOk result (string_bytes name.new
        ≡ string_bytes name.old ++ name_escapes key target (chars text.now)) }
{
    let mut rest = text;
    while !rest.is_empty() {
        let (run, after) = split_plain(rest);
        name.push_str(run)?;
        rest = push_first(name, after, key, target)?;
    }
    Ok(())
}

// The characters at the start of a text that stand for themselves, and what follows.
fn split_plain(text: &str) -> (&str, &str)
    ensures texts { IsUtf8 result.0.now × IsUtf8 result.1.now }
    ensures parts { text.now ≡ result.0.now ++ result.1.now }
    ensures run { list_all is_plain (chars result.0.now) ≡ true }
    ensures stops { (c : ℕ) → (cs : List ℕ) → chars result.1.now ≡ c ∷ cs → is_plain c ≡ false }
{
    let mut rest = text;
    let mut chars = text.chars();
    while let Some(c) = chars.next() {
        if !is_plain(c) {
            return text.split_at(text.len() - rest.len());
        }
        rest = chars.as_str();
    }
    (text, "")
}

fn is_plain(c: char) -> bool
    ensures { result ≡ is_plain c }
{
    c < '\u{7F}'
}

// The spelling of the first character of a text, which gives what follows it.
fn push_first<'a>(
    name: &mut String,
    text: &'a str,
    key: bool,
    target: EsVersion,
) -> Result<&'a str, AllocError>
    ensures name { OnOk result (string_bytes name.new
        ≡ string_bytes name.old ++ name_escapes key target (take 1 (chars text.now))) }
    ensures text { IfOk result (λ rest. IsUtf8 rest.now) }
    ensures rest { IfOk result (λ rest. chars rest.now ≡ drop 1 (chars text.now)) }
    ensures shorter { IfOk result (λ rest. (length rest.now ≤ length text.now)
        × (0 < length text.now → length rest.now < length text.now)) }
{
    let mut chars = text.chars();
    match chars.next() {
        Some(c) => {
            push_character(name, c, key, target)?;
            Ok(chars.as_str())
        }
        None => Ok(text),
    }
}

// `a`, `\u00e9` or `\xe9`, `\u0301`, `\u{1D4AB}` or `\uD835\uDCAB`.
#[tactic(auto, unfolding(crate::specs::AsciiNames::name_escape))]
fn push_character(
    name: &mut String,
    c: char,
    key: bool,
    target: EsVersion,
) -> Result<(), AllocError>
    ensures { OnOk result (string_bytes name.new
        ≡ string_bytes name.old ++ name_escape key target c) }
{
    if is_plain(c) {
        name.push(c)
    } else if c < '\u{100}' && !key {
        push_lower_unit_escape(name, c as u32)
    } else {
        push_code(name, c as u32, target)
    }
}

// `\u00e9`
#[tactic(auto, unfolding(crate::specs::AsciiNames::lower_unit_escape))]
fn push_lower_unit_escape(name: &mut String, code: u32) -> Result<(), AllocError>
    requires { code < 256 }
    ensures { OnOk result (string_bytes name.new
        ≡ string_bytes name.old ++ lower_unit_escape code) }
{
    name.push_str("\\u00")?;
    name.push(lower_digit(code / 16))?;
    name.push(lower_digit(code % 16))
}
