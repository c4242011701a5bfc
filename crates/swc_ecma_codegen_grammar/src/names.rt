//! Names and words, as plain programs.

ghost use Rattle.std.specs.Prelude.{ℕ, List, ◌≡◌, ◌<◌, ◌+◌, ◌*◌, ◌++◌, [], ◌&&◌, true, false, IfSome, IfNone, IfOk, is_some};
ghost use Rattle.swc_ecma_codegen_grammar.specs.Names as names;
ghost use Rattle.swc_ecma_codegen_grammar.specs.NameTurns.{IsNameTurn, LeadsOn};

use crate::characters::{is_part, is_start};
use crate::numerals::hex_digit;
use std::alloc::{AllocError, Global};

/// Where the reading of a name stands.
#[derive(Clone, Copy)]
pub enum Place {
    /// Between characters.
    Between,
    /// After a backslash.
    Escaped,
    /// After `\u`.
    Unicode,
    /// After one digit of four, which have this value.
    One(u32),
    /// After two.
    Two(u32),
    /// After three.
    Three(u32),
    /// In `\u{..}`, with or without a digit so far.
    Braced { some: bool, value: u32 },
}

/// What one character of a name does.
#[derive(Clone, Copy)]
pub enum NameTurn {
    /// No name goes on like this.
    Unfit,
    /// It is no character yet.
    Goes(Place),
    /// A character is complete.
    Gives(char),
}

#[tactic(auto, unfolding(crate::specs::Names::all_part))]
pub(crate) fn all_part(text: &[char]) -> bool
    ensures { result ≡ names.all_part text.now }
{
    match text {
        [] => true,
        [c, rest @ ..] => is_part(*c) && all_part(rest),
    }
}

/// A word of the grammar. ECMA-262, section 12.7.2.
#[tactic(auto, unfolding(crate::specs::Names::is_word))]
pub fn is_word(text: &[char]) -> bool
    ensures { result ≡ names.is_word text.now }
{
    match text {
        [] => false,
        [c, rest @ ..] => is_start(*c) && all_part(rest),
    }
}

#[tactic(auto, unfolding(crate::specs::Names::fits))]
fn fits(first: bool, c: char) -> bool
    ensures { result ≡ names.fits first c }
{
    if first { is_start(c) } else { is_part(c) }
}

/// The character of this code, where a name may have it here.
#[tactic(auto, unfolding(crate::specs::Names::fits_code, crate::specs::Chars::is_scalar))]
fn fitting(first: bool, code: u32) -> Option<char>
    ensures some { IfSome result (λ c. (names.fits_code first code ≡ true) × (c ≡ code)) }
    ensures none { IfNone result (names.fits_code first code ≡ false) }
{
    char::from_u32(code).filter(|c| fits(first, *c))
}

/// What the last character of an escape does.
#[tactic(auto)]
fn given(c: Option<char>) -> NameTurn
    ensures some { IfSome c (λ c. result ≡ NameTurn.Gives c) }
    ensures none { IfNone c (result ≡ NameTurn.Unfit) }
{
    match c {
        Some(c) => NameTurn::Gives(c),
        None => NameTurn::Unfit,
    }
}

/// What one character does.
#[tactic(auto, unfolding(crate::specs::NameTurns::IsNameTurn, crate::specs::NameTurns::LeadsOn, crate::specs::Names::name_rest, crate::specs::Names::name_characters, crate::specs::Names::IsSmall))]
pub fn turn(first: bool, place: Place, c: char) -> NameTurn
    requires { names.IsSmall place }
    ensures turn { (rest : List ℕ) → IsNameTurn first place c rest result }
    ensures small { LeadsOn result }
{
    match (place, hex_digit(c)) {
        (Place::Between, _) if c == '\\' => NameTurn::Goes(Place::Escaped),
        (Place::Between, _) if fits(first, c) => NameTurn::Gives(c),
        (Place::Escaped, _) if c == 'u' => NameTurn::Goes(Place::Unicode),
        (Place::Between | Place::Escaped, _) => NameTurn::Unfit,
        (Place::Unicode, _) if c == '{' => {
            let (some, value) = (false, 0);
            NameTurn::Goes(Place::Braced { some, value })
        }
        (Place::Unicode, Some(digit)) => NameTurn::Goes(Place::One(digit)),
        (Place::One(value), Some(digit)) => NameTurn::Goes(Place::Two(value * 16 + digit)),
        (Place::Two(value), Some(digit)) => NameTurn::Goes(Place::Three(value * 16 + digit)),
        (Place::Three(value), Some(digit)) => given(fitting(first, value * 16 + digit)),
        (Place::Braced { some: _, value }, Some(digit)) => {
            let (some, value) = (true, value * 16 + digit);
            if value <= 0x10FFFF {
                NameTurn::Goes(Place::Braced { some, value })
            } else {
                NameTurn::Unfit
            }
        }
        (Place::Braced { some, value }, None) if c == '}' && some => given(fitting(first, value)),
        (_, None) => NameTurn::Unfit,
    }
}

/// Whether the rest of a name is one.
#[tactic(auto, unfolding(crate::specs::NameTurns::IsNameTurn, crate::specs::NameTurns::LeadsOn, crate::specs::Names::name_rest, crate::specs::Names::IsSmall))]
fn is_name_rest(first: bool, place: Place, text: &[char]) -> bool
    requires { names.IsSmall place }
    ensures { result ≡ names.name_rest first place text.now }
{
    let [c, rest @ ..] = text else {
        return matches!(place, Place::Between) && !first;
    };
    match turn(first, place, *c) {
        NameTurn::Unfit => false,
        NameTurn::Goes(next) => is_name_rest(first, next, rest),
        NameTurn::Gives(_) => is_name_rest(false, Place::Between, rest),
    }
}

/// A name, with or without escapes. Section 12.7.
#[tactic(auto, unfolding(crate::specs::Names::is_name, crate::specs::Names::IsSmall))]
pub fn is_name(text: &[char]) -> bool
    ensures { result ≡ names.is_name text.now }
{
    is_name_rest(true, Place::Between, text)
}

/// Adds the characters of the rest of a name. `false`: the text isn't one.
#[tactic(auto, unfolding(crate::specs::NameTurns::IsNameTurn, crate::specs::NameTurns::LeadsOn, crate::specs::Names::name_rest, crate::specs::Names::name_characters, crate::specs::Names::IsSmall))]
fn push_rest(
    found: &mut Vec<char>,
    first: bool,
    place: Place,
    text: &[char],
) -> Result<bool, AllocError>
    requires { names.IsSmall place }
    ensures name { IfOk result (λ is_rest. is_rest ≡ names.name_rest first place text.now) }
    ensures found { IfOk result (λ is_rest. is_rest ≡ true →
        found.new.items ≡ found.old.items ++ names.name_characters place text.now) }
{
    let [c, rest @ ..] = text else {
        return Ok(matches!(place, Place::Between) && !first);
    };
    match turn(first, place, *c) {
        NameTurn::Unfit => Ok(false),
        NameTurn::Goes(next) => push_rest(found, first, next, rest),
        NameTurn::Gives(c) => {
            found.push(c)?;
            push_rest(found, false, Place::Between, rest)
        }
    }
}

/// The characters of a name, its escapes decoded. `None`: the text isn't a name. `AllocError`: a
/// growth was refused. Section 12.7.1.2.
#[tactic(auto, unfolding(crate::specs::Names::is_name, crate::specs::Names::name_value, crate::specs::Names::IsSmall))]
pub fn name_value(alloc: Global, text: &[char]) -> Result<Option<Vec<char>>, AllocError>
    ensures name { IfOk result (λ value. is_some value ≡ names.is_name text.now) }
    ensures value { IfOk result (λ value.
        IfSome value (λ characters. characters.items ≡ names.name_value text.now)) }
{
    let mut found = Vec::new(alloc);
    Ok(push_rest(&mut found, true, Place::Between, text)?.then_some(found))
}

/// A private name. Section 12.7.
#[tactic(auto, unfolding(crate::specs::Names::is_private_name))]
pub fn is_private_name(text: &[char]) -> bool
    ensures { result ≡ names.is_private_name text.now }
{
    match text {
        [] => false,
        [c, rest @ ..] => *c == '#' && is_name(rest),
    }
}
