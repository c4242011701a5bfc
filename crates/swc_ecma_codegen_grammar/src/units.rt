//! The UTF-16 code units that strings and templates stand for.

ghost use Rattle.std.specs.Prelude.{◌≡◌, ◌<◌, ◌≤◌, ◌∷◌, ◌++◌, [], true, false, IfOk, OnOk, IfSome, IfNone};
ghost use Rattle.swc_ecma_codegen_grammar.specs.CodeUnits as code_units;
ghost use Rattle.swc_ecma_codegen_grammar.specs.WrittenUnits.{IsSurrogate, IsWrittenUnit};
ghost use Rattle.std.specs.Str.Parse.{digits_value};

use crate::numerals::hex_digit;
use crate::shapes::begins;
use std::alloc::{AllocError, Global};

/// Where the reading of a string or a template stands.
#[derive(Clone, Copy)]
pub enum Place {
    /// Between characters.
    Between,
    /// After a backslash.
    Escaped,
    /// In digits of which so many are due, those before with this value.
    Due { digits: u32, value: u32 },
    /// After `\u`.
    Unicode,
    /// In `\u{..}`, with or without a digit so far.
    Braced { some: bool, value: u32 },
    /// In an octal escape, of which so many digits may come.
    Octal { more: u32, value: u32 },
    /// At the LF of a line continuation.
    Continued,
}

/// The code units of one character: UTF16EncodeCodePoint, ECMA-262, section 11.1.1. `AllocError`: a
/// growth was refused.
#[tactic(auto, unfolding(crate::specs::CodeUnits::utf16))]
pub fn utf16(alloc: Global, c: char) -> Result<Vec<u16>, AllocError>
    ensures { IfOk result (λ units. units.items ≡ code_units.utf16 c) }
{
    let mut units = Vec::new(alloc);
    push_utf16(&mut units, c as u32)?;
    Ok(units)
}

/// Appends the code units of a code point, which may be a surrogate. `AllocError`: a growth was
/// refused.
#[tactic(auto, unfolding(crate::specs::CodeUnits::utf16))]
pub(crate) fn push_utf16(units: &mut Vec<u16>, code: u32) -> Result<(), AllocError>
    requires { code ≤ 1114111 }
    ensures { OnOk result (units.new.items ≡ units.old.items ++ code_units.utf16 code) }
{
    if code < 0x10000 {
        units.push(code as u16)?;
    } else {
        units.push((0xD800 + (code - 0x10000) / 0x400) as u16)?;
        units.push((0xDC00 + (code - 0x10000) % 0x400) as u16)?;
    }
    Ok(())
}

/// The value of four hexadecimal digits, where it is from D800 to DFFF.
#[tactic(auto, unfolding(crate::specs::CodeUnits::begins_like, crate::specs::CodeUnits::is_high_digit, crate::specs::Numbers::is_either))]
pub fn surrogate_value(a: char, b: char, c: char, d: char) -> Option<u32>
    ensures some { IfSome result (λ unit.
        (code_units.begins_like (code_units.four_digits []) (a ∷ b ∷ c ∷ d ∷ []) ≡ true)
        × (unit ≡ digits_value 16 (a ∷ b ∷ c ∷ d ∷ [])) × (unit < 65536)) }
    ensures none { IfNone result (code_units.begins_like (code_units.four_digits [])
        (a ∷ b ∷ c ∷ d ∷ []) ≡ false) }
{
    if !(a == 'D' || a == 'd') || b < '8' {
        return None;
    }
    let (second, third, fourth) = (hex_digit(b)?, hex_digit(c)?, hex_digit(d)?);
    Some(((0xD * 16 + second) * 16 + third) * 16 + fourth)
}

/// Four hexadecimal digits from D800 to DFFF: their value, and the rest of the text.
#[tactic(auto, unfolding(crate::specs::CodeUnits::begins_like))]
fn surrogate(text: &[char]) -> Option<(u32, &[char])>
    ensures some { IfSome result (λ found. IsSurrogate text.now found.0 found.1.now) }
    ensures none { IfNone result (code_units.begins_like (code_units.four_digits []) text.now
        ≡ false) }
{
    match text {
        [a, b, c, d, rest @ ..] => Some((surrogate_value(*a, *b, *c, *d)?, rest)),
        _ => None,
    }
}

/// What follows `u{` of a written surrogate escape, as `d83d}`: its unit, and the rest of the text.
#[tactic(auto, using(crate::proofs::UnitLaws::long_undigit, crate::proofs::UnitLaws::long_unclosed, crate::proofs::UnitLaws::closed_length))]
fn braced_unit(text: &[char]) -> Option<(u32, &[char])>
    ensures some { IfSome result (λ found.
        IsWrittenUnit (117 ∷ 123 ∷ text.now) found.0 found.1.now) }
    ensures none { IfNone result (code_units.escape_length (117 ∷ 123 ∷ text.now) ≡ 0) }
{
    let (unit, rest) = surrogate(text)?;
    if begins(&['}'], rest) {
        Some((unit, &rest[1..]))
    } else {
        None
    }
}

/// What follows the `u` of a written surrogate escape, as `d83d` or `{d83d}`: its unit, and the
/// rest of the text.
#[tactic(auto, unfolding(crate::specs::CodeUnits::begins_like, crate::specs::CodeUnits::short_escape, crate::specs::CodeUnits::long_escape, crate::specs::CodeUnits::escape_length, crate::specs::CodeUnits::escape_unit))]
fn unicode_unit(text: &[char]) -> Option<(u32, &[char])>
    ensures some { IfSome result (λ found. IsWrittenUnit (117 ∷ text.now) found.0 found.1.now) }
    ensures none { IfNone result (code_units.escape_length (117 ∷ text.now) ≡ 0) }
{
    match text {
        [c, rest @ ..] if *c == '{' => braced_unit(rest),
        _ => surrogate(text),
    }
}

/// A complete written surrogate escape after its backslash: its unit, and the rest of the text.
#[tactic(auto, unfolding(crate::specs::CodeUnits::begins_like, crate::specs::CodeUnits::short_escape, crate::specs::CodeUnits::long_escape, crate::specs::CodeUnits::escape_length))]
fn written_unit(text: &[char]) -> Option<(u32, &[char])>
    ensures some { IfSome result (λ found. IsWrittenUnit text.now found.0 found.1.now) }
    ensures none { IfNone result (code_units.escape_length text.now ≡ 0) }
{
    match text {
        [c, rest @ ..] if *c == 'u' => unicode_unit(rest),
        _ => None,
    }
}

#[tactic(auto, unfolding(crate::specs::CodeUnits::units_after))]
fn push_units(units: &mut Vec<u16>, text: &[char]) -> Result<(), AllocError>
    ensures { OnOk result (units.new.items ≡ units.old.items ++ code_units.units text.now) }
{
    let [c, rest @ ..] = text else {
        return Ok(());
    };
    match written_unit(rest) {
        Some((unit, after)) if *c == '\\' => {
            push_utf16(units, unit)?;
            push_units(units, after)
        }
        _ => {
            push_utf16(units, *c as u32)?;
            push_units(units, rest)
        }
    }
}

/// The code units of a text, in which complete written surrogate escapes stand for their units.
/// `AllocError`: a growth was refused.
pub fn units(alloc: Global, text: &[char]) -> Result<Vec<u16>, AllocError>
    ensures { IfOk result (λ units. units.items ≡ code_units.units text.now) }
{
    let mut units = Vec::new(alloc);
    push_units(&mut units, text)?;
    Ok(units)
}
