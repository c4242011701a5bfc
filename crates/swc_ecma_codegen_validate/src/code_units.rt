//! The code units of the value of a string, one after another.

ghost use Rattle.std.specs.Prelude.{◌≡◌, ◌≤◌, ℕ, List, [], ◌∷◌, ◌++◌, is_none, option_to_list, false, IfSome, IfNone};
ghost use Rattle.std.specs.Str.{chars};
ghost use Rattle.swc_ecma_codegen_grammar.specs.CodeUnits as code_units;
ghost use Rattle.swc_ecma_codegen_grammar.specs.Texts as texts;
ghost use Rattle.swc_ecma_codegen_grammar.specs.WrittenUnits.{IsSurrogate, IsWrittenUnit};
ghost use Rattle.swc_ecma_codegen_validate.specs.UnitStates.{left_units};

use crate::texts::after_first;
use swc_ecma_codegen_grammar::texts::{is_empty, split_first};
use swc_ecma_codegen_grammar::units::surrogate_value;

/// Four hexadecimal digits from D800 to DFFF: their value, and the rest of the text.
#[tactic(auto, unfolding(swc_ecma_codegen_grammar::specs::CodeUnits::begins_like))]
fn surrogate(text: &str) -> Option<(u32, &str)>
    ensures some { IfSome result (λ found.
        IsSurrogate (chars text.now) found.0 (chars found.1.now)) }
    ensures none { IfNone result (code_units.begins_like (code_units.four_digits [])
        (chars text.now) ≡ false) }
{
    let (a, rest) = split_first(text)?;
    let (b, rest) = split_first(rest)?;
    let (c, rest) = split_first(rest)?;
    let (d, rest) = split_first(rest)?;
    Some((surrogate_value(a, b, c, d)?, rest))
}

/// What follows `u{` of a written surrogate escape, as `d83d}`: its unit, and the rest of the text.
#[tactic(auto, using(swc_ecma_codegen_grammar::proofs::UnitLaws::long_undigit, swc_ecma_codegen_grammar::proofs::UnitLaws::long_unclosed, swc_ecma_codegen_grammar::proofs::UnitLaws::long_unit))]
fn braced_unit(text: &str) -> Option<(u32, &str)>
    ensures some { IfSome result (λ found.
        IsWrittenUnit (117 ∷ 123 ∷ chars text.now) found.0 (chars found.1.now)) }
    ensures none { IfNone result (code_units.escape_length (117 ∷ 123 ∷ chars text.now) ≡ 0) }
{
    let (unit, rest) = surrogate(text)?;
    Some((unit, after_first(rest, '}')?))
}

/// What follows the `u` of a written surrogate escape, as `d83d` or `{d83d}`: its unit, and the
/// rest of the text.
#[tactic(auto, unfolding(swc_ecma_codegen_grammar::specs::CodeUnits::begins_like, swc_ecma_codegen_grammar::specs::CodeUnits::short_escape, swc_ecma_codegen_grammar::specs::CodeUnits::long_escape, swc_ecma_codegen_grammar::specs::CodeUnits::escape_length, swc_ecma_codegen_grammar::specs::CodeUnits::escape_unit))]
fn unicode_unit(text: &str) -> Option<(u32, &str)>
    ensures some { IfSome result (λ found.
        IsWrittenUnit (117 ∷ chars text.now) found.0 (chars found.1.now)) }
    ensures none { IfNone result (code_units.escape_length (117 ∷ chars text.now) ≡ 0) }
{
    match split_first(text) {
        Some((c, rest)) if c == '{' => braced_unit(rest),
        _ => surrogate(text),
    }
}

/// A complete written surrogate escape after its backslash: its unit, and the rest of the text.
#[tactic(auto, unfolding(swc_ecma_codegen_grammar::specs::CodeUnits::begins_like, swc_ecma_codegen_grammar::specs::CodeUnits::short_escape, swc_ecma_codegen_grammar::specs::CodeUnits::long_escape, swc_ecma_codegen_grammar::specs::CodeUnits::escape_length))]
fn written_unit(text: &str) -> Option<(u32, &str)>
    ensures some { IfSome result (λ found.
        IsWrittenUnit (chars text.now) found.0 (chars found.1.now)) }
    ensures none { IfNone result (code_units.escape_length (chars text.now) ≡ 0) }
{
    match split_first(text) {
        Some((c, rest)) if c == 'u' => unicode_unit(rest),
        _ => None,
    }
}

/// The first unit of a character, and the second of one above U+FFFF.
#[tactic(auto, unfolding(swc_ecma_codegen_grammar::specs::CodeUnits::utf16))]
fn split_units(c: u32) -> (u32, Option<u32>)
    requires { c ≤ 1114111 }
    ensures { code_units.utf16 c ≡ result.0 ∷ option_to_list result.1 }
{
    if c < 0x10000 {
        (c, None)
    } else {
        (
            0xD800 + (c - 0x10000) / 0x400,
            Some(0xDC00 + (c - 0x10000) % 0x400),
        )
    }
}

/// Whether a character begins a written surrogate escape: its unit, and the rest of the text.
#[tactic(auto, using(crate::proofs::UnitsLeft::escaped, crate::proofs::UnitsLeft::unescaped, crate::proofs::UnitsLeft::plain))]
fn escape_unit(c: char, more: &str) -> Option<(u32, &str)>
    ensures some { IfSome result (λ r. code_units.units (c ∷ chars more.now)
        ≡ r.0 ∷ code_units.units (chars r.1.now)) }
    ensures none { IfNone result (code_units.units (c ∷ chars more.now)
        ≡ code_units.utf16 c ++ code_units.units (chars more.now)) }
{
    if c == '\\' { written_unit(more) } else { None }
}

/// The first unit of a text, and what is left after it.
#[tactic(auto, using(crate::proofs::UnitsLeft::split), unfolding(crate::specs::UnitStates::left_units))]
fn first_unit(text: &str) -> Option<(u32, Option<u32>, &str)>
    ensures some { IfSome result (λ r. code_units.units (chars text.now)
        ≡ r.0 ∷ left_units r.1 (chars r.2.now)) }
    ensures none { IfNone result (chars text.now ≡ []) }
{
    let (c, more) = split_first(text)?;
    match escape_unit(c, more) {
        Some((unit, after)) => Some((unit, None, after)),
        None => {
            let (unit, low) = split_units(c as u32);
            Some((unit, low, more))
        }
    }
}

/// The first unit that is left, and what is left after it.
#[tactic(auto, using(crate::proofs::UnitsLeft::none_left), unfolding(crate::specs::UnitStates::left_units))]
fn next_unit(low: Option<u32>, rest: &str) -> Option<(u32, Option<u32>, &str)>
    ensures some { IfSome result (λ r. left_units low (chars rest.now)
        ≡ r.0 ∷ left_units r.1 (chars r.2.now)) }
    ensures none { IfNone result (left_units low (chars rest.now) ≡ []) }
{
    match low {
        Some(unit) => Some((unit, None, rest)),
        None => first_unit(rest),
    }
}

/// What is left after this unit, or `None` where another comes first.
#[tactic(auto, unfolding(swc_ecma_codegen_grammar::specs::Texts::is_same))]
fn after_unit(unit: u32, low: Option<u32>, rest: &str) -> Option<(Option<u32>, &str)>
    ensures some { IfSome result (λ r. left_units low (chars rest.now)
        ≡ unit ∷ left_units r.0 (chars r.1.now)) }
    ensures none { IfNone result ((us : List ℕ) →
        texts.is_same (unit ∷ us) (left_units low (chars rest.now)) ≡ false) }
{
    match next_unit(low, rest) {
        Some((first, low, rest)) if first == unit => Some((low, rest)),
        _ => None,
    }
}

/// What is left after the units of a character, or `None` where others come first.
#[tactic(auto, unfolding(swc_ecma_codegen_grammar::specs::Texts::is_same))]
pub(crate) fn after_character(c: u32, low: Option<u32>, rest: &str) -> Option<(Option<u32>, &str)>
    requires { c ≤ 1114111 }
    ensures some { IfSome result (λ r. left_units low (chars rest.now)
        ≡ code_units.utf16 c ++ left_units r.0 (chars r.1.now)) }
    ensures none { IfNone result ((us : List ℕ) →
        texts.is_same (code_units.utf16 c ++ us) (left_units low (chars rest.now)) ≡ false) }
{
    let (first, second) = split_units(c);
    let (low, rest) = after_unit(first, low, rest)?;
    match second {
        Some(unit) => after_unit(unit, low, rest),
        None => Some((low, rest)),
    }
}

/// Whether no unit is left.
#[tactic(auto, unfolding(crate::specs::UnitStates::left_units, swc_ecma_codegen_grammar::specs::Texts::is_empty))]
pub(crate) fn is_at_end(low: Option<u32>, rest: &str) -> bool
    ensures { result ≡ texts.is_empty (left_units low (chars rest.now)) }
{
    next_unit(low, rest).is_none()
}
