//! Templates.

ghost use Rattle.std.specs.Prelude.{◌≡◌, ℕ, List, ◌∷◌, ◌&&◌, is_some, true, false, IfSome, IfNone};
ghost use Rattle.std.specs.Str.{chars};
ghost use Rattle.swc_ecma_codegen_grammar.specs.Chars as characters;
ghost use Rattle.swc_ecma_codegen_grammar.specs.Phrases.{is_possible};
ghost use Rattle.swc_ecma_codegen_grammar.specs.TemplatePhrases.{is_counted, tpl, tagged_tpl};
ghost use Rattle.swc_ecma_codegen_grammar.specs.TemplateValues.{cooked_value};
ghost use Rattle.swc_ecma_codegen_grammar.specs.Turns.{IsReached, IsTemplateTurn, ahead};
ghost use Rattle.swc_ecma_codegen_grammar.specs.declared.units.Place.TheVariants.{Between, Escaped};
ghost use Rattle.swc_ecma_codegen_validate.specs.TemplateStates.{inside, is_element, all_elements};

use crate::forms::{Fits, WellFormed, all_well_formed};
use crate::strings::first;
use crate::texts::begins_with;
use swc_ecma_codegen_grammar::characters::is_digit;
use swc_ecma_codegen_grammar::roles::Role;
use swc_ecma_codegen_grammar::texts::split_first;
use swc_ecma_codegen_grammar::turns::{
    Turn, braced_turn, due_turn, escape_turn, is_digit_next, unicode_turn,
};
use swc_ecma_codegen_grammar::units::Place;
use swc_ecma_codegen_tree::{TaggedTpl, Tpl, TplElement};

/// After one more character of a part, or `None` where the part ends before it.
#[tactic(auto, unfolding(crate::specs::TemplateStates::inside))]
fn next(escaped: bool, c: char, more: &str) -> Option<bool>
    ensures some { IfSome result (λ e. inside escaped (c ∷ chars more.now)
        ≡ inside e (chars more.now)) }
    ensures none { IfNone result (inside escaped (c ∷ chars more.now) ≡ false) }
{
    match c {
        _ if escaped => Some(false),
        '`' => None,
        '$' if begins_with(more, '{') => None,
        _ => Some(c == '\\'),
    }
}

/// Whether a raw ends where its part does: it holds neither a bare back quote nor a bare `${`, and
/// no backslash is last.
#[tactic(auto, unfolding(crate::specs::TemplateStates::inside))]
fn is_inside(raw: &str) -> bool
    ensures { result ≡ inside false (chars raw.now) }
{
    let mut rest = raw;
    let mut escaped = false;
    while let Some((c, more)) = split_first(rest) {
        match next(escaped, c, more) {
            Some(after) => escaped = after,
            None => return false,
        }
        rest = more;
    }
    !escaped
}

/// A character that no backslash stands before.
#[tactic(auto, using(swc_ecma_codegen_grammar::proofs::TurnLaws::utf16_one), unfolding(swc_ecma_codegen_grammar::specs::TemplateValues::cooked_rest, swc_ecma_codegen_grammar::specs::Turns::after, swc_ecma_codegen_grammar::specs::Turns::IsReached, swc_ecma_codegen_grammar::specs::Turns::LeadsOn))]
fn between_turn(c: char, rest: &str) -> Turn
    ensures { IsTemplateTurn Between c (chars rest.now) result }
{
    match c {
        '`' => Turn::Malformed,
        '$' if begins_with(rest, '{') => Turn::Malformed,
        '\\' => Turn::Goes(Place::Escaped),
        '\r' if begins_with(rest, '\n') => Turn::Goes(Place::Between),
        '\r' => Turn::Gives('\n' as u32, Place::Between),
        _ => Turn::Gives(c as u32, Place::Between),
    }
}

/// A digit after a backslash.
#[tactic(auto, using(swc_ecma_codegen_grammar::proofs::TurnLaws::utf16_one, swc_ecma_codegen_grammar::proofs::TurnLaws::digit_ahead), unfolding(swc_ecma_codegen_grammar::specs::TemplateValues::cooked_rest, swc_ecma_codegen_grammar::specs::Chars::is_digit, swc_ecma_codegen_grammar::specs::Turns::after, swc_ecma_codegen_grammar::specs::Turns::IsReached, swc_ecma_codegen_grammar::specs::Turns::LeadsOn))]
fn digit_turn(c: char, next: Option<char>) -> Turn
    requires { characters.is_digit c ≡ true }
    ensures { (tail : List ℕ) → IsTemplateTurn Escaped c (ahead next tail) result }
{
    match c {
        '0' if !is_digit_next(next) => Turn::Gives(0, Place::Between),
        _ => Turn::Malformed,
    }
}

/// What one character does before the rest.
#[tactic(auto, unfolding(swc_ecma_codegen_grammar::specs::TemplateValues::cooked_rest, swc_ecma_codegen_grammar::specs::Turns::after, swc_ecma_codegen_grammar::specs::Turns::IsReached, swc_ecma_codegen_grammar::specs::Turns::LeadsOn))]
fn turn(place: Place, c: char, rest: &str) -> Turn
    requires { IsReached place (c ∷ chars rest.now) }
    ensures { IsTemplateTurn place c (chars rest.now) result }
{
    match place {
        Place::Between => between_turn(c, rest),
        Place::Escaped if is_digit(c) => digit_turn(c, first(rest)),
        Place::Escaped => escape_turn(c, first(rest)),
        Place::Due { digits, value } => due_turn(digits, value, c),
        Place::Unicode => unicode_turn(c),
        Place::Braced { some, value } => braced_turn(some, value, c),
        Place::Octal { .. } => Turn::Malformed,
        Place::Continued => Turn::Goes(Place::Between),
    }
}

/// Whether a raw has no malformed escape, nor a bare back quote or a bare `${`.
#[tactic(auto, unfolding(swc_ecma_codegen_grammar::specs::Turns::after, swc_ecma_codegen_grammar::specs::Turns::LeadsOn, swc_ecma_codegen_grammar::specs::Turns::IsReached, swc_ecma_codegen_grammar::specs::TemplateValues::cooked_rest))]
fn has_cooked_value(raw: &str) -> bool
    ensures { result ≡ is_some (cooked_value (chars raw.now)) }
{
    let mut rest = raw;
    let mut place = Place::Between;
    while let Some((c, more)) = split_first(rest) {
        match turn(place, c, more) {
            Turn::Malformed => return false,
            Turn::Ends => return true,
            Turn::Goes(next) => place = next,
            Turn::Gives(_, next) => place = next,
        }
        rest = more;
    }
    matches!(place, Place::Between)
}

/// Whether a raw is the inside of a part of a template: without malformed escapes, unless the
/// template has a tag.
#[tactic(auto, unfolding(crate::specs::TemplateStates::is_element))]
pub(crate) fn is_element(tagged: bool, element: &TplElement) -> bool
    ensures { result ≡ is_element tagged element.now }
{
    is_inside(&element.raw) && (tagged || has_cooked_value(&element.raw))
}

/// Whether all of them are.
#[tactic(auto, unfolding(crate::specs::TemplateStates::all_elements))]
pub(crate) fn all_elements(tagged: bool, elements: &[TplElement]) -> bool
    ensures { result ≡ all_elements tagged elements.now }
{
    for element in elements {
        if !is_element(tagged, element) {
            return false;
        }
    }
    true
}

/// Whether there is one part more than expressions, or types.
pub(crate) fn is_counted<T>(nodes: &[T], elements: &[TplElement]) -> bool
    ensures { result ≡ is_counted nodes.now elements.now }
{
    !elements.is_empty() && elements.len() - 1 == nodes.len()
}

/// Whether a template is well-formed, with a tag or without.
#[tactic(auto, using(crate::proofs::TemplatesPossible::tpl_possible))]
pub(crate) fn is_template<N: Fits>(tagged: bool, node: &Tpl<N>) -> bool
    ensures { result ≡ is_possible (tpl N.reads tagged node.now) }
{
    is_counted(&node.exprs, &node.quasis)
        && all_elements(tagged, &node.quasis)
        && all_well_formed(&node.exprs)
}

impl<N: Fits> WellFormed for TaggedTpl<N> {
    ghost phrase = { tagged_tpl N.reads };

    #[tactic(auto, using(crate::proofs::TemplatesPossible::tagged_possible))]
    fn is_well_formed(&self) -> bool {
        self.tag.target().fits(Role::Callee)
            && self.type_params.is_well_formed()
            && self.tpl.target().fits(Role::TaggedTemplate)
    }
}
