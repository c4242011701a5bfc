//! What the text of a template stands for, as plain programs. ECMA-262, section 12.9.6.

ghost use Rattle.std.specs.Prelude.{ℕ, List, ◌≡◌, ◌∷◌, true, is_some, Some, None, IfOk, IfSome, IfNone, if◌then◌else◌};
ghost use Rattle.swc_ecma_codegen_grammar.specs.declared.units.Place.TheVariants.{Between, Escaped};
ghost use Rattle.swc_ecma_codegen_grammar.specs.Chars as chars;
ghost use Rattle.swc_ecma_codegen_grammar.specs.StringValues.{before};
ghost use Rattle.swc_ecma_codegen_grammar.specs.TemplateValues as values;
ghost use Rattle.swc_ecma_codegen_grammar.specs.Turns.{IsReached, IsTemplateTurn, ahead};

use crate::characters::is_digit;
use crate::shapes::begins;
use crate::turns::{Turn, braced_turn, due_turn, escape_turn, first, is_digit_next, unicode_turn};
use crate::units::{Place, push_utf16};
use std::alloc::{AllocError, Global};

/// A character that no backslash stands before.
#[tactic(auto, using(crate::proofs::TurnLaws::utf16_one), unfolding(crate::specs::TemplateValues::cooked_rest, crate::specs::Turns::after, crate::specs::Turns::IsReached, crate::specs::Turns::LeadsOn))]
fn between_turn(c: char, rest: &[char]) -> Turn
    ensures { IsTemplateTurn Between c rest.now result }
{
    match c {
        '`' => Turn::Malformed,
        '$' if begins(&['{'], rest) => Turn::Malformed,
        '\\' => Turn::Goes(Place::Escaped),
        '\r' if begins(&['\n'], rest) => Turn::Goes(Place::Between),
        '\r' => Turn::Gives('\n' as u32, Place::Between),
        _ => Turn::Gives(c as u32, Place::Between),
    }
}

/// A digit after a backslash.
#[tactic(auto, using(crate::proofs::TurnLaws::utf16_one, crate::proofs::TurnLaws::digit_ahead), unfolding(crate::specs::TemplateValues::cooked_rest, crate::specs::Chars::is_digit, crate::specs::Turns::after, crate::specs::Turns::IsReached, crate::specs::Turns::LeadsOn))]
fn digit_turn(c: char, next: Option<char>) -> Turn
    requires { chars.is_digit c ≡ true }
    ensures { (tail : List ℕ) → IsTemplateTurn Escaped c (ahead next tail) result }
{
    match c {
        '0' if !is_digit_next(next) => Turn::Gives(0, Place::Between),
        _ => Turn::Malformed,
    }
}

/// What one character does.
#[tactic(auto, unfolding(crate::specs::TemplateValues::cooked_rest, crate::specs::Turns::after, crate::specs::Turns::IsReached, crate::specs::Turns::LeadsOn))]
fn turn(place: Place, c: char, rest: &[char]) -> Turn
    requires { IsReached place (c ∷ rest.now) }
    ensures { IsTemplateTurn place c rest.now result }
{
    match place {
        Place::Between => between_turn(c, rest),
        Place::Escaped if is_digit(c) => digit_turn(c, first(rest)),
        Place::Escaped => escape_turn(c, first(rest)),
        Place::Due { digits, value } => due_turn(digits, value, c),
        Place::Unicode => unicode_turn(c),
        Place::Braced { some, value } => braced_turn(some, value, c),
        Place::Octal { .. } => Turn::Malformed,
        Place::Continued => Turn::Goes(Place::Between),
    }
}

#[tactic(auto, unfolding(crate::specs::TemplateValues::cooked_rest, crate::specs::Turns::after, crate::specs::Turns::LeadsOn))]
fn has_cooked_rest(place: Place, text: &[char]) -> bool
    requires { IsReached place text.now }
    ensures { result ≡ is_some (values.cooked_rest place text.now) }
{
    let [c, rest @ ..] = text else {
        return matches!(place, Place::Between);
    };
    match turn(place, *c, rest) {
        Turn::Malformed => false,
        Turn::Ends => true,
        Turn::Goes(next) => has_cooked_rest(next, rest),
        Turn::Gives(_, next) => has_cooked_rest(next, rest),
    }
}

/// Whether a template's text has no malformed escape, nor a bare back quote or `${`.
#[tactic(auto, unfolding(crate::specs::Turns::IsReached))]
pub fn has_cooked_value(text: &[char]) -> bool
    ensures { result ≡ is_some (values.cooked_value text.now) }
{
    has_cooked_rest(Place::Between, text)
}

/// Appends the code units of the rest of a text. `false`: it has no value.
#[tactic(auto, unfolding(crate::specs::TemplateValues::cooked_rest, crate::specs::StringValues::before, crate::specs::Turns::after, crate::specs::Turns::LeadsOn))]
fn push_cooked_rest(units: &mut Vec<u16>, place: Place, text: &[char]) -> Result<bool, AllocError>
    requires { IsReached place text.now }
    ensures { IfOk result (λ whole. before units.old.items (values.cooked_rest place text.now)
        ≡ (if whole then Some units.new.items else None)) }
{
    let [c, rest @ ..] = text else {
        return Ok(matches!(place, Place::Between));
    };
    match turn(place, *c, rest) {
        Turn::Malformed => Ok(false),
        Turn::Ends => Ok(true),
        Turn::Goes(next) => push_cooked_rest(units, next, rest),
        Turn::Gives(code, next) => {
            push_utf16(units, code)?;
            push_cooked_rest(units, next, rest)
        }
    }
}

/// The code units that a template's text stands for: "TV". `None`: it has a malformed escape, a
/// bare back quote or a bare `${`. `AllocError`: a growth was refused.
#[tactic(auto, unfolding(crate::specs::StringValues::before, crate::specs::Turns::IsReached))]
pub fn cooked_value(alloc: Global, text: &[char]) -> Result<Option<Vec<u16>>, AllocError>
    ensures some { IfOk result (λ value.
        IfSome value (λ units. values.cooked_value text.now ≡ Some units.items)) }
    ensures none { IfOk result (λ value. IfNone value (values.cooked_value text.now ≡ None)) }
{
    let mut units = Vec::new(alloc);
    let whole = push_cooked_rest(&mut units, Place::Between, text)?;
    Ok(whole.then_some(units))
}
