//! Texts, one character after another.

ghost use Rattle.std.specs.Prelude.{◌≡◌, [], ◌∷◌, drop, true, false, IfSome, IfNone};
ghost use Rattle.std.specs.Str.{chars};
ghost use Rattle.swc_ecma_codegen_grammar.specs.Chars as characters;
ghost use Rattle.swc_ecma_codegen_grammar.specs.Texts as texts;

use swc_ecma_codegen_grammar::characters::is_line_end;
use swc_ecma_codegen_grammar::texts::split_first;

/// What follows this character at the beginning of a text, or `None` where another stands there.
#[tactic(auto, unfolding(swc_ecma_codegen_grammar::specs::Texts::begins))]
pub(crate) fn after_first(text: &str, c: char) -> Option<&str>
    ensures some { IfSome result (λ rest. (texts.begins (c ∷ []) (chars text.now) ≡ true)
        × (chars rest.now ≡ drop 1 (chars text.now))) }
    ensures none { IfNone result (texts.begins (c ∷ []) (chars text.now) ≡ false) }
{
    match split_first(text) {
        Some((d, rest)) if c == d => Some(rest),
        _ => None,
    }
}

/// Whether a text begins with this character.
pub(crate) fn begins_with(text: &str, c: char) -> bool
    ensures { result ≡ texts.begins (c ∷ []) (chars text.now) }
{
    after_first(text, c).is_some()
}

/// Whether no line ends in a text.
#[tactic(auto, unfolding(swc_ecma_codegen_grammar::specs::Chars::is_one_line))]
pub(crate) fn is_one_line(text: &str) -> bool
    ensures { result ≡ characters.is_one_line (chars text.now) }
{
    let mut rest = text;
    while let Some((c, more)) = split_first(rest) {
        if is_line_end(c) {
            return false;
        }
        rest = more;
    }
    true
}
