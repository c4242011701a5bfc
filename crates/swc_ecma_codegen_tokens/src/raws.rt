//! Raws of literals: whether the settings take them, and what a version makes of them.

ghost use Rattle.std.specs.Prelude.{◌≡◌, true, IfOk, IfErr};
ghost use Rattle.std.specs.Cow.{cow_str_bytes};
ghost use Rattle.swc_ecma_codegen_common.specs.declared.errors.Error.TheVariants.{OutOfMemory};
ghost use Rattle.swc_ecma_codegen_literals.specs.AsciiNames.{is_ascii_text};
ghost use Rattle.swc_ecma_codegen_literals.specs.StringTexts.{up_to_es5};
ghost use Rattle.swc_ecma_codegen_literals.specs.ValidNames.{has_byte};
ghost use Rattle.swc_ecma_codegen_tokens.specs.Lits.{raw_is, raw_text, below_es2021, may_join, joined, makes_joined, is_new_radix, suits};

use std::alloc::Global;
use std::borrow::CowStr;
use swc_ecma_codegen_common::{Error, EsVersion};
use swc_ecma_codegen_literals::{holds_backslash, without_separators};

/// The text of a raw, empty where there is none.
#[tactic(auto, unfolding(crate::specs::Lits::raw_text))]
pub(crate) fn raw_text(raw: &Option<String>) -> &str
    ensures { result.now ≡ raw_text raw.now }
{
    match raw {
        Some(raw) => raw.as_str(),
        None => "",
    }
}

/// Whether there is a raw that holds a backslash.
#[tactic(auto, unfolding(crate::specs::Lits::raw_is))]
pub(crate) fn is_escaped(raw: &Option<String>) -> bool
    ensures { result ≡ raw_is (has_byte 92) raw.now }
{
    match raw {
        Some(raw) => holds_backslash(raw.as_str()),
        None => false,
    }
}

/// Whether a text is ASCII.
#[inline(never)]
pub(crate) fn is_ascii(text: &str) -> bool
    ensures { result ≡ is_ascii_text text.now }
{
    text.is_ascii()
}

#[tactic(auto, unfolding(swc_ecma_codegen_literals::specs::StringTexts::up_to_es5))]
fn is_up_to_es5(version: EsVersion) -> bool
    ensures { result ≡ up_to_es5 version }
{
    matches!(version, EsVersion::Es3 | EsVersion::Es5)
}

/// A version before that of `_` between digits.
#[tactic(auto, unfolding(crate::specs::Lits::below_es2021))]
fn is_below_es2021(version: EsVersion) -> bool
    ensures { result ≡ below_es2021 version }
{
    !matches!(
        version,
        EsVersion::Es2021 | EsVersion::Es2022 | EsVersion::EsNext
    )
}

/// `0b11`, `0o17`
#[tactic(auto, unfolding(crate::specs::Lits::is_new_radix, swc_ecma_codegen_grammar::specs::Numbers::is_either))]
fn is_new_radix(raw: &[u8]) -> bool
    ensures { result ≡ is_new_radix raw.now }
{
    match raw {
        [zero, letter, _, ..] => *zero == b'0' && matches!(*letter, b'b' | b'B' | b'o' | b'O'),
        _ => false,
    }
}

/// Whether a version has this spelling of a number, as not every one has `0b11`.
#[tactic(auto, unfolding(crate::specs::Lits::suits))]
pub(crate) fn suits(version: EsVersion, raw: &str) -> bool
    ensures { result ≡ suits version raw.now }
{
    !(is_up_to_es5(version) && is_new_radix(raw.as_bytes()))
}

/// A raw as a version has it: `1000` of `1_000` for one before 2021. `Error::OutOfMemory` where there is no room for a new
/// text; another is lent as it is.
#[tactic(auto, unfolding(crate::specs::Lits::joined, crate::specs::Lits::may_join, crate::specs::Lits::makes_joined))]
pub(crate) fn joined(
    alloc: Global,
    version: EsVersion,
    raw: &str,
) -> std::result::Result<CowStr<'_>, Error>
    ensures exactly { IfOk result (λ text. cow_str_bytes text ≡ joined version raw.now) }
    ensures refused { IfErr result (λ error. error ≡ OutOfMemory) }
    ensures due { IfErr result (λ error. makes_joined version raw.now ≡ true) }
{
    if is_below_es2021(version) && raw.len() > 2 {
        without_separators(alloc, raw)
    } else {
        Ok(CowStr::Borrowed(raw))
    }
}
