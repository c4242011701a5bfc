//! Strings.

ghost use Rattle.std.specs.Prelude.{◌≡◌, ◌∷◌, true, drop};
ghost use Rattle.std.specs.Str.{chars};
ghost use Rattle.swc_ecma_codegen_grammar.specs.CodeUnits.{units};
ghost use Rattle.swc_ecma_codegen_grammar.specs.LitPhrases as lits;
ghost use Rattle.swc_ecma_codegen_grammar.specs.StringValues.{string_rest};
ghost use Rattle.swc_ecma_codegen_grammar.specs.Turns.{IsReached, IsStringTurn, ahead};
ghost use Rattle.swc_ecma_codegen_grammar.specs.declared.units.Place.TheVariants.{Between};

use crate::code_units::{after_character, is_at_end};
use swc_ecma_codegen_grammar::characters::is_quote;
use swc_ecma_codegen_grammar::string_values::string_turn;
use swc_ecma_codegen_grammar::texts::split_first;
use swc_ecma_codegen_grammar::turns::Turn;
use swc_ecma_codegen_grammar::units::Place;

/// The first character of a text.
#[tactic(auto, unfolding(swc_ecma_codegen_grammar::specs::Turns::ahead))]
pub(crate) fn first(text: &str) -> Option<char>
    ensures { chars text.now ≡ ahead result (drop 1 (chars text.now)) }
{
    match split_first(text) {
        Some((c, _)) => Some(c),
        None => None,
    }
}

/// What one character does before the rest.
#[tactic(auto, using(swc_ecma_codegen_grammar::proofs::TurnLaws::reached_first))]
fn turn(quote: char, place: Place, c: char, rest: &str) -> Turn
    requires { IsReached place (c ∷ chars rest.now) }
    ensures { IsStringTurn quote true place c (chars rest.now) result }
{
    string_turn(quote, true, place, c, first(rest))
}

/// Whether the rest of a string, after its quote, has the units of this value.
#[tactic(auto, unfolding(swc_ecma_codegen_grammar::specs::Turns::after, swc_ecma_codegen_grammar::specs::Turns::LeadsOn, swc_ecma_codegen_grammar::specs::Turns::IsReached, swc_ecma_codegen_grammar::specs::LitPhrases::are_units, swc_ecma_codegen_grammar::specs::StringValues::string_rest, crate::specs::UnitStates::left_units))]
fn rest_spells(quote: char, text: &str, value: &str) -> bool
    ensures { result ≡ lits.are_units (string_rest quote true Between (chars text.now))
        (units (chars value.now)) }
{
    let mut rest = text;
    let mut place = Place::Between;
    let mut low = None;
    let mut left = value;
    while let Some((c, more)) = split_first(rest) {
        match turn(quote, place, c, more) {
            Turn::Malformed => return false,
            Turn::Ends => return is_at_end(low, left),
            Turn::Goes(next) => place = next,
            Turn::Gives(code, next) => {
                match after_character(code, low, left) {
                    Some((after, units)) => {
                        low = after;
                        left = units;
                    }
                    None => return false,
                }
                place = next;
            }
        }
        rest = more;
    }
    false
}

/// Whether a text is a string of the units of this value: `'\x41'` for `A`.
#[tactic(auto, unfolding(swc_ecma_codegen_grammar::specs::LitPhrases::spells_units, swc_ecma_codegen_grammar::specs::LitPhrases::are_units, swc_ecma_codegen_grammar::specs::StringValues::string_value))]
pub(crate) fn spells_units(value: &str, text: &str) -> bool
    ensures { result ≡ lits.spells_units (units (chars value.now)) (chars text.now) }
{
    match split_first(text) {
        Some((quote, rest)) => is_quote(quote) && rest_spells(quote, rest, value),
        None => false,
    }
}
