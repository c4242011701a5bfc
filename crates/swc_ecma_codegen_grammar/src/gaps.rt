//! The trivia at the start of a text, as plain programs. ECMA-262, sections 12.2 to 12.4.

ghost use Rattle.std.specs.Prelude.{◌≡◌};
ghost use Rattle.std.specs.Option.{option_copied};
ghost use Rattle.swc_ecma_codegen_grammar.specs.Skipping as skipping;

use crate::characters::{is_blank, is_line_end};

/// What stands after the first `*/`.
#[tactic(auto, unfolding(crate::specs::Skipping::after_block))]
fn after_block(text: &[char]) -> Option<&[char]>
    ensures { option_copied result ≡ skipping.after_block text.now }
{
    match text {
        [] => None,
        ['*', '/', rest @ ..] => Some(rest),
        [_, rest @ ..] => after_block(rest),
    }
}

/// What stands after the first line terminator.
#[tactic(auto, unfolding(crate::specs::Skipping::after_line))]
fn after_line(text: &[char]) -> Option<&[char]>
    ensures { option_copied result ≡ skipping.after_line text.now }
{
    match text {
        [] => None,
        [c, rest @ ..] if is_line_end(*c) => Some(rest),
        [_, rest @ ..] => after_line(rest),
    }
}

/// What stands after a blank or a comment, where one begins here.
#[tactic(auto, unfolding(crate::specs::Skipping::after_piece))]
fn after_piece(text: &[char]) -> Option<&[char]>
    ensures { option_copied result ≡ skipping.after_piece text.now }
{
    match text {
        [c, rest @ ..] if is_blank(*c) => Some(rest),
        ['/', '*', rest @ ..] => after_block(rest),
        ['/', '/', rest @ ..] => after_line(rest),
        _ => None,
    }
}

/// What stands after all the trivia at the start of a text.
#[tactic(auto, using(crate::proofs::Skips::skips_none, crate::proofs::Skips::skips_more))]
pub fn skip(text: &[char]) -> &[char]
    ensures { skipping.Skips text.now result.now }
{
    match after_piece(text) {
        None => text,
        Some(rest) => skip(rest),
    }
}
