//! Which texts are punctuators, as a plain program. ECMA-262, section 12.8.

ghost use Rattle.std.specs.Prelude.{◌≡◌, map};
ghost use Rattle.swc_ecma_codegen_grammar.specs.Texts as texts;
ghost use Rattle.swc_ecma_codegen_grammar.specs.Punctuators as punctuators;

use crate::shapes::is_same;

const PUNCTUATORS: &[&[char]] = &[
    &['{'],
    &['}'],
    &['('],
    &[')'],
    &['['],
    &[']'],
    &['.'],
    &['.', '.', '.'],
    &[';'],
    &[','],
    &['<'],
    &['>'],
    &['<', '='],
    &['>', '='],
    &['=', '='],
    &['!', '='],
    &['=', '=', '='],
    &['!', '=', '='],
    &['+'],
    &['-'],
    &['*'],
    &['%'],
    &['*', '*'],
    &['+', '+'],
    &['-', '-'],
    &['<', '<'],
    &['>', '>'],
    &['>', '>', '>'],
    &['&'],
    &['|'],
    &['^'],
    &['!'],
    &['~'],
    &['&', '&'],
    &['|', '|'],
    &['?', '?'],
    &['?'],
    &[':'],
    &['='],
    &['+', '='],
    &['-', '='],
    &['*', '='],
    &['%', '='],
    &['*', '*', '='],
    &['<', '<', '='],
    &['>', '>', '='],
    &['>', '>', '>', '='],
    &['&', '='],
    &['|', '='],
    &['^', '='],
    &['&', '&', '='],
    &['|', '|', '='],
    &['?', '?', '='],
    &['=', '>'],
    &['/'],
    &['/', '='],
    &['?', '.'],
    &['@'],
];

#[tactic(auto, unfolding(crate::specs::Texts::is_among))]
fn is_among(text: &[char], table: &[&[char]]) -> bool
    ensures { result ≡ texts.is_among text.now (map (λ p. p.now) table.now) }
{
    match table {
        [] => false,
        [other, rest @ ..] => is_same(text, other) || is_among(text, rest),
    }
}

/// A punctuator.
#[tactic(auto, unfolding(crate::specs::Punctuators::is_punctuator, crate::specs::Punctuators::punctuators))]
pub fn is_punctuator(text: &[char]) -> bool
    ensures { result ≡ punctuators.is_punctuator text.now }
{
    is_among(text, PUNCTUATORS)
}
