//! What strings stand for, as plain programs. ECMA-262, sections 12.9.4 and B.1.2.

ghost use Rattle.std.specs.Prelude.{ℕ, Bool, List, ◌≡◌, ◌&&◌, ◌==◌, [], ◌∷◌, true, false, not, is_some, Some, None, IfOk, IfSome, IfNone, if◌then◌else◌};
ghost use Rattle.swc_ecma_codegen_grammar.specs.declared.units.Place.TheVariants.{Between, Escaped, Octal};
ghost use Rattle.swc_ecma_codegen_grammar.specs.Chars as chars;
ghost use Rattle.swc_ecma_codegen_grammar.specs.Numbers as numbers;
ghost use Rattle.swc_ecma_codegen_grammar.specs.StringValues as values;
ghost use Rattle.swc_ecma_codegen_grammar.specs.Turns.{IsOctalDue, IsReached, IsStringTurn, ahead};

use crate::characters::{is_digit, is_quote};
use crate::turns::{
    Turn, braced_turn, due_turn, escape_turn, first, is_digit_next, is_octal_next, unicode_turn,
};
use crate::units::{Place, push_utf16};
use std::alloc::{AllocError, Global};

/// A character that no backslash stands before.
#[tactic(auto, using(crate::proofs::TurnLaws::empty_ahead), unfolding(crate::specs::StringValues::string_rest, crate::specs::Numbers::is_either, crate::specs::Turns::after, crate::specs::Turns::IsReached, crate::specs::Turns::LeadsOn))]
fn between_turn(quote: char, c: char, next: Option<char>) -> Turn
    ensures { (sloppy : Bool) (tail : List ℕ) →
        IsStringTurn quote sloppy Between c (ahead next tail) result }
{
    match c {
        _ if c == quote && next.is_none() => Turn::Ends,
        _ if c == quote => Turn::Malformed,
        '\\' => Turn::Goes(Place::Escaped),
        '\n' | '\r' => Turn::Malformed,
        _ => Turn::Gives(c as u32, Place::Between),
    }
}

/// The first digit of an octal escape.
#[tactic(auto, using(crate::proofs::TurnLaws::utf16_one, crate::proofs::TurnLaws::digit_ahead, crate::proofs::TurnLaws::octal_ahead), unfolding(crate::specs::StringValues::string_rest, crate::specs::Numbers::is_octal, crate::specs::Turns::after, crate::specs::Turns::IsReached, crate::specs::Turns::IsOctalDue, crate::specs::Turns::LeadsOn))]
fn octal_start(c: char, next: Option<char>) -> Turn
    requires octal { numbers.is_octal c ≡ true }
    requires some { ((c == 48) && not (chars.begins_digit (ahead next []))) ≡ false }
    ensures { (q : ℕ) (tail : List ℕ) → IsStringTurn q true Escaped c (ahead next tail) result }
{
    let value = c as u32 - '0' as u32;
    if !is_octal_next(next) {
        Turn::Gives(value, Place::Between)
    } else if c <= '3' {
        Turn::Goes(Place::Octal { more: 1, value })
    } else {
        Turn::Goes(Place::Octal { more: 0, value })
    }
}

/// A digit after a backslash.
#[tactic(auto, using(crate::proofs::TurnLaws::utf16_one, crate::proofs::TurnLaws::digit_ahead), unfolding(crate::specs::StringValues::string_rest, crate::specs::Chars::is_digit, crate::specs::Numbers::is_octal, crate::specs::Turns::after, crate::specs::Turns::IsReached, crate::specs::Turns::LeadsOn))]
fn digit_turn(sloppy: bool, c: char, next: Option<char>) -> Turn
    requires { chars.is_digit c ≡ true }
    ensures { (q : ℕ) (tail : List ℕ) → IsStringTurn q sloppy Escaped c (ahead next tail) result }
{
    match c {
        '0' if !is_digit_next(next) => Turn::Gives(0, Place::Between),
        _ if !sloppy => Turn::Malformed,
        '8' | '9' => Turn::Gives(c as u32, Place::Between),
        _ => octal_start(c, next),
    }
}

/// A further digit of an octal escape.
#[tactic(auto, using(crate::proofs::TurnLaws::utf16_one, crate::proofs::TurnLaws::octal_ahead), unfolding(crate::specs::StringValues::string_rest, crate::specs::Numbers::is_octal, crate::specs::Turns::after, crate::specs::Turns::IsReached, crate::specs::Turns::IsOctalDue, crate::specs::Turns::LeadsOn))]
fn octal_turn(more: u32, value: u32, c: char, next: Option<char>) -> Turn
    requires due { IsOctalDue more value }
    requires octal { numbers.is_octal c ≡ true }
    ensures { (q : ℕ) (sloppy : Bool) (tail : List ℕ) →
        IsStringTurn q sloppy (Octal more value) c (ahead next tail) result }
{
    let value = value * 8 + (c as u32 - '0' as u32);
    match more {
        1 if is_octal_next(next) => Turn::Goes(Place::Octal { more: 0, value }),
        _ => Turn::Gives(value, Place::Between),
    }
}

/// What one character does; `next` is the one after it, if there is one.
#[tactic(auto, unfolding(crate::specs::StringValues::string_rest, crate::specs::StringValues::begins_octal, crate::specs::Turns::after, crate::specs::Turns::IsReached, crate::specs::Turns::LeadsOn))]
pub fn string_turn(quote: char, sloppy: bool, place: Place, c: char, next: Option<char>) -> Turn
    requires { IsReached place (c ∷ []) }
    ensures { (tail : List ℕ) → IsStringTurn quote sloppy place c (ahead next tail) result }
{
    match place {
        Place::Between => between_turn(quote, c, next),
        Place::Escaped if is_digit(c) => digit_turn(sloppy, c, next),
        Place::Escaped => escape_turn(c, next),
        Place::Due { digits, value } => due_turn(digits, value, c),
        Place::Unicode => unicode_turn(c),
        Place::Braced { some, value } => braced_turn(some, value, c),
        Place::Octal { more, value } => octal_turn(more, value, c, next),
        Place::Continued => Turn::Goes(Place::Between),
    }
}

/// What one character does before the rest.
#[tactic(auto, using(crate::proofs::TurnLaws::reached_first))]
fn turn(quote: char, sloppy: bool, place: Place, c: char, rest: &[char]) -> Turn
    requires { IsReached place (c ∷ rest.now) }
    ensures { IsStringTurn quote sloppy place c rest.now result }
{
    string_turn(quote, sloppy, place, c, first(rest))
}

#[tactic(auto, unfolding(crate::specs::StringValues::string_rest, crate::specs::Turns::after, crate::specs::Turns::LeadsOn))]
fn has_string_rest(quote: char, sloppy: bool, place: Place, text: &[char]) -> bool
    requires { IsReached place text.now }
    ensures { result ≡ is_some (values.string_rest quote sloppy place text.now) }
{
    let [c, rest @ ..] = text else {
        return false;
    };
    match turn(quote, sloppy, place, *c, rest) {
        Turn::Malformed => false,
        Turn::Ends => true,
        Turn::Goes(next) => has_string_rest(quote, sloppy, next, rest),
        Turn::Gives(_, next) => has_string_rest(quote, sloppy, next, rest),
    }
}

/// Whether a text is a string whose escapes are well formed. `sloppy` says that it may have the
/// octal escapes of section B.1.2.
#[tactic(auto, unfolding(crate::specs::StringValues::string_value, crate::specs::Turns::IsReached))]
pub fn has_string_value(sloppy: bool, text: &[char]) -> bool
    ensures { result ≡ is_some (values.string_value sloppy text.now) }
{
    match text {
        [] => false,
        [quote, rest @ ..] => {
            is_quote(*quote) && has_string_rest(*quote, sloppy, Place::Between, rest)
        }
    }
}

/// Appends the code units of the rest of a string. `false`: it has no value.
#[tactic(auto, unfolding(crate::specs::StringValues::string_rest, crate::specs::StringValues::before, crate::specs::Turns::after, crate::specs::Turns::LeadsOn))]
fn push_string_rest(
    units: &mut Vec<u16>,
    quote: char,
    sloppy: bool,
    place: Place,
    text: &[char],
) -> Result<bool, AllocError>
    requires { IsReached place text.now }
    ensures { IfOk result (λ whole.
        values.before units.old.items (values.string_rest quote sloppy place text.now)
        ≡ (if whole then Some units.new.items else None)) }
{
    let [c, rest @ ..] = text else {
        return Ok(false);
    };
    match turn(quote, sloppy, place, *c, rest) {
        Turn::Malformed => Ok(false),
        Turn::Ends => Ok(true),
        Turn::Goes(next) => push_string_rest(units, quote, sloppy, next, rest),
        Turn::Gives(code, next) => {
            push_utf16(units, code)?;
            push_string_rest(units, quote, sloppy, next, rest)
        }
    }
}

/// The code units that a string stands for: "SV". `None`: it is no string, or it has a malformed
/// escape. `sloppy` says that it may have the octal escapes of section B.1.2. `AllocError`: a
/// growth was refused.
#[tactic(auto, unfolding(crate::specs::StringValues::string_value, crate::specs::StringValues::before, crate::specs::Turns::IsReached))]
pub fn string_value(
    alloc: Global,
    sloppy: bool,
    text: &[char],
) -> Result<Option<Vec<u16>>, AllocError>
    ensures some { IfOk result (λ value.
        IfSome value (λ units. values.string_value sloppy text.now ≡ Some units.items)) }
    ensures none { IfOk result (λ value.
        IfNone value (values.string_value sloppy text.now ≡ None)) }
{
    let mut units = Vec::new(alloc);
    match text {
        [quote, rest @ ..] if is_quote(*quote) => {
            let whole = push_string_rest(&mut units, *quote, sloppy, Place::Between, rest)?;
            Ok(whole.then_some(units))
        }
        _ => Ok(None),
    }
}
