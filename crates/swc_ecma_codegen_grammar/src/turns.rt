//! What one character of a string or a template does, as plain programs: the rules that both share.
//! `next` is the character after it, if there is one.

ghost use Rattle.std.specs.Prelude.{ℕ, ◌≡◌, ◌<◌, ◌≤◌, List, [], ◌∷◌, drop, true, false};
ghost use Rattle.swc_ecma_codegen_grammar.specs.declared.units.Place.TheVariants.{Escaped, Due, Unicode, Braced};
ghost use Rattle.swc_ecma_codegen_grammar.specs.Chars as chars;
ghost use Rattle.swc_ecma_codegen_grammar.specs.StringValues as values;
ghost use Rattle.swc_ecma_codegen_grammar.specs.Texts as texts;
ghost use Rattle.swc_ecma_codegen_grammar.specs.Turns.{IsDue, IsTurn, ahead};

use crate::characters::is_digit;
use crate::numerals::{hex_digit, is_octal};
use crate::units::Place;

/// What one character does.
#[derive(Clone, Copy)]
pub enum Turn {
    /// No text goes on like this.
    Malformed,
    /// The text ends here.
    Ends,
    /// It stands for nothing yet.
    Goes(Place),
    /// A code point is complete.
    Gives(u32, Place),
}

/// The first character of a text.
#[tactic(auto, using(crate::proofs::TurnLaws::ahead_first), unfolding(crate::specs::Turns::ahead))]
pub(crate) fn first(text: &[char]) -> Option<char>
    ensures { text.now ≡ ahead result (drop 1 text.now) }
{
    match text {
        [] => None,
        [c, ..] => Some(*c),
    }
}

/// Whether a decimal digit is next.
#[tactic(auto, unfolding(crate::specs::Chars::begins_digit, crate::specs::Turns::ahead))]
pub fn is_digit_next(next: Option<char>) -> bool
    ensures { result ≡ chars.begins_digit (ahead next []) }
{
    match next {
        None => false,
        Some(c) => is_digit(c),
    }
}

/// Whether an octal digit is next.
#[tactic(auto, unfolding(crate::specs::StringValues::begins_octal, crate::specs::Turns::ahead))]
pub fn is_octal_next(next: Option<char>) -> bool
    ensures { result ≡ values.begins_octal (ahead next []) }
{
    match next {
        None => false,
        Some(c) => is_octal(c),
    }
}

/// Whether it is LF.
#[tactic(auto, unfolding(crate::specs::Texts::begins, crate::specs::Turns::ahead))]
pub fn is_line_feed_next(next: Option<char>) -> bool
    ensures { result ≡ texts.begins (10 ∷ []) (ahead next []) }
{
    match next {
        None => false,
        Some(c) => c == '\n',
    }
}

/// A digit of `\x41` or `\u0041`.
#[tactic(auto, using(crate::proofs::TurnLaws::utf16_one), unfolding(crate::specs::StringValues::string_rest, crate::specs::TemplateValues::cooked_rest, crate::specs::Turns::after, crate::specs::Turns::IsReached, crate::specs::Turns::IsDue, crate::specs::Turns::LeadsOn))]
pub fn due_turn(digits: u32, value: u32, c: char) -> Turn
    requires { IsDue digits value }
    ensures { (rest : List ℕ) → IsTurn (Due digits value) c rest result }
{
    let Some(digit) = hex_digit(c) else {
        return Turn::Malformed;
    };
    let value = value * 16 + digit;
    match digits {
        1 => Turn::Gives(value, Place::Between),
        2 => Turn::Goes(Place::Due { digits: 1, value }),
        _ => Turn::Goes(Place::Due { digits: 2, value }),
    }
}

/// What follows `\u`.
#[tactic(auto, unfolding(crate::specs::StringValues::string_rest, crate::specs::TemplateValues::cooked_rest, crate::specs::Turns::after, crate::specs::Turns::IsReached, crate::specs::Turns::IsDue, crate::specs::Turns::LeadsOn))]
pub fn unicode_turn(c: char) -> Turn
    ensures { (rest : List ℕ) → IsTurn Unicode c rest result }
{
    match hex_digit(c) {
        _ if c == '{' => Turn::Goes(Place::Braced {
            some: false,
            value: 0,
        }),
        Some(value) => Turn::Goes(Place::Due { digits: 3, value }),
        None => Turn::Malformed,
    }
}

/// A digit of `\u{1f600}`, or its brace.
#[tactic(auto, using(crate::proofs::TurnLaws::string_too_large, crate::proofs::TurnLaws::cooked_too_large), unfolding(crate::specs::StringValues::string_rest, crate::specs::TemplateValues::cooked_rest, crate::specs::Turns::after, crate::specs::Turns::IsReached, crate::specs::Turns::LeadsOn))]
pub fn braced_turn(some: bool, value: u32, c: char) -> Turn
    requires { value ≤ 1114111 }
    ensures { (rest : List ℕ) → IsTurn (Braced some value) c rest result }
{
    match hex_digit(c) {
        Some(digit) => {
            let value = value * 16 + digit;
            if value > 0x10FFFF {
                Turn::Malformed
            } else {
                Turn::Goes(Place::Braced { some: true, value })
            }
        }
        None if c == '}' && some => Turn::Gives(value, Place::Between),
        None => Turn::Malformed,
    }
}

/// A character after a backslash, but no digit.
#[tactic(auto, using(crate::proofs::TurnLaws::utf16_one, crate::proofs::TurnLaws::feed_ahead), unfolding(crate::specs::StringValues::string_rest, crate::specs::StringValues::single_escape, crate::specs::TemplateValues::cooked_rest, crate::specs::Chars::is_digit, crate::specs::Numbers::is_octal, crate::specs::Turns::after, crate::specs::Turns::IsReached, crate::specs::Turns::IsDue, crate::specs::Turns::LeadsOn))]
pub fn escape_turn(c: char, next: Option<char>) -> Turn
    requires { chars.is_digit c ≡ false }
    ensures { (tail : List ℕ) → IsTurn Escaped c (ahead next tail) result }
{
    match c {
        'x' => Turn::Goes(Place::Due {
            digits: 2,
            value: 0,
        }),
        'u' => Turn::Goes(Place::Unicode),
        '\r' if is_line_feed_next(next) => Turn::Goes(Place::Continued),
        '\r' | '\n' | '\u{2028}' | '\u{2029}' => Turn::Goes(Place::Between),
        'b' => Turn::Gives(8, Place::Between),
        't' => Turn::Gives(9, Place::Between),
        'n' => Turn::Gives(10, Place::Between),
        'v' => Turn::Gives(11, Place::Between),
        'f' => Turn::Gives(12, Place::Between),
        'r' => Turn::Gives(13, Place::Between),
        _ => Turn::Gives(c as u32, Place::Between),
    }
}
