//! Names in tags and strings of attributes: none has escapes.

ghost use Rattle.std.specs.Prelude.{◌≡◌};
ghost use Rattle.std.specs.Str.{chars};
ghost use Rattle.swc_ecma_codegen_grammar.specs.Jsx as jsx;
ghost use Rattle.swc_ecma_codegen_grammar.specs.JsxPhrases.{jsx_quoted};
ghost use Rattle.swc_ecma_codegen_grammar.specs.SpelledNames.{is_well_formed_tag_name};
ghost use Rattle.swc_ecma_codegen_validate.specs.JsxForms as forms;

use swc_ecma_codegen_grammar::characters::{is_part, is_quote, is_start};
use swc_ecma_codegen_grammar::texts::{is_empty, split_first};

/// Whether a name in a tag goes on like this: `b-c` after the first character of `ab-c`.
#[tactic(auto, unfolding(swc_ecma_codegen_grammar::specs::Jsx::all_tag))]
fn is_tag_rest(text: &str) -> bool
    ensures { result ≡ jsx.all_tag (chars text.now) }
{
    let mut rest = text;
    while let Some((c, more)) = split_first(rest) {
        if !is_part(c) && c != '-' {
            return false;
        }
        rest = more;
    }
    true
}

/// Whether it is a name in a tag.
#[tactic(auto, using(crate::proofs::JsxPossible::tag_name_by_characters), unfolding(swc_ecma_codegen_grammar::specs::Jsx::is_jsx_name))]
pub(crate) fn is_tag_name(name: &str) -> bool
    ensures { result ≡ is_well_formed_tag_name name.now }
{
    match split_first(name) {
        Some((c, rest)) => is_start(c) && is_tag_rest(rest),
        None => false,
    }
}

/// Whether a string ends like this, after the quote with which it begins.
#[tactic(auto, unfolding(swc_ecma_codegen_grammar::specs::Jsx::ends_jsx_string))]
fn ends_string(quote: char, text: &str) -> bool
    ensures { result ≡ jsx.ends_jsx_string quote (chars text.now) }
{
    let mut rest = text;
    while let Some((c, more)) = split_first(rest) {
        if c == quote {
            return is_empty(more);
        }
        rest = more;
    }
    false
}

/// Whether a text is one string of an attribute.
#[tactic(auto, unfolding(swc_ecma_codegen_grammar::specs::Jsx::is_jsx_string))]
pub(crate) fn is_jsx_string(text: &str) -> bool
    ensures { result ≡ jsx.is_jsx_string (chars text.now) }
{
    match split_first(text) {
        Some((quote, rest)) => is_quote(quote) && ends_string(quote, rest),
        None => false,
    }
}

/// Whether a character stands in a text.
#[tactic(auto, unfolding(crate::specs::JsxForms::holds_character))]
fn holds(text: &str, character: char) -> bool
    ensures { result ≡ forms.holds_character character (chars text.now) }
{
    let mut rest = text;
    while let Some((c, more)) = split_first(rest) {
        if c == character {
            return true;
        }
        rest = more;
    }
    false
}

/// Whether a value is one string of an attribute in `"` or in `'`: it lacks one of the two.
#[tactic(auto, using(crate::proofs::JsxPossible::quoted_by_characters))]
pub(crate) fn has_quotes(value: &str) -> bool
    ensures { result ≡ jsx.is_jsx_string (chars (jsx_quoted value.now)) }
{
    !(holds(value, '"') && holds(value, '\''))
}
