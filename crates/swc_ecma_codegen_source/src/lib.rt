//! A source text as an emission asks for it: which positions stand on one line, and what the text
//! of a span is.
#![tactic(auto)]

pub mod laws;
mod line_index;
#[cfg(test)]
mod tests;

ghost use Rattle.std.specs.Prelude.{◌≡◌, true, IfOk, IfErr};
ghost use Rattle.std.specs.Option.{option_copied};
ghost use Rattle.std.specs.Str.{chars, IsCharBoundary};
ghost use Rattle.swc_ecma_codegen_common.specs.declared.errors.Error.TheVariants.{OutOfMemory};
ghost use Rattle.swc_ecma_codegen_source.specs.SourceTexts as texts;

use crate::line_index::{has_between, line_ends};
use std::alloc::Global;
use swc_ecma_codegen_common::{BytePos, Error, Span};
use swc_ecma_codegen_grammar::mapper::SourceMapper;

/// Whether a character of a text begins at a place, or the text ends there.
#[tactic(auto, unfolding(crate::specs::SourceTexts::is_at_character))]
fn is_at_character(text: &str, place: usize) -> bool
    ensures exactly { result ≡ texts.is_at_character text.now place }
    ensures boundary { result ≡ true → IsCharBoundary text.now place }
{
    text.is_char_boundary(place)
}

/// The text from one place to another, where they stand in this order, each at a character.
#[tactic(auto, unfolding(crate::specs::SourceTexts::between))]
fn between(text: &str, left: usize, right: usize) -> Option<&str>
    ensures { option_copied result ≡ texts.between text.now left right }
{
    if left <= right && is_at_character(text, left) && is_at_character(text, right) {
        Some(&text[left..right])
    } else {
        None
    }
}

/// A source text whose first byte stands at a position, with an index of its line ends. Lines end
/// with LF, CR, CR LF, U+2028 or U+2029 (ECMA-262, section 12.3). No position outside of the text
/// stands on a line, nor has a span outside of it a text.
///
/// Over `[` LF `a, b]` with its first byte at 1 the bracket and `a` stand on two lines, 1 and 3,
/// and `a` and `b`, 3 and 6, on one; the text of the span from 3 to 7 is `a, b`.
#[derive(Drop)]
pub struct SourceText<'a> {
    text: &'a str,
    first: BytePos,
    ends: Vec<usize>,
    ghost indexed: { ends.items ≡ texts.line_ends 0 (chars text.now) },
}

impl<'a> SourceText<'a> {
    /// Goes through the text once, for its line ends: eight bytes of memory for each. `first` is
    /// the position of the first byte, mostly `BytePos(1)`, where parsers let a file begin.
    /// `Error::OutOfMemory`: a growth was refused.
    #[tactic(auto, unfolding(crate::specs::SourceTexts::lines_of))]
    pub fn new(alloc: Global, text: &'a str, first: BytePos) -> Result<SourceText<'a>, Error>
        ensures lines { IfOk result (λ source. ⟦<SourceText<'a> as SourceMapper>⟧.lines source
            ≡ texts.lines_of text.now first.0) }
        ensures no_memory { IfErr result (λ error. error ≡ OutOfMemory) }
    {
        let ends = line_ends(alloc, text)?;
        Ok(SourceText { text, first, ends })
    }

    /// How many bytes of the text stand before a position, where that is in the text or at its end.
    #[tactic(auto, unfolding(crate::specs::SourceTexts::place_of))]
    fn place_of(&self, pos: BytePos) -> Option<usize>
        ensures { result ≡ texts.place_of self.now.text.now self.now.first.0 pos }
    {
        let place = pos.0.checked_sub(self.first.0)? as usize;
        if place <= self.text.len() {
            Some(place)
        } else {
            None
        }
    }
}

impl<'a> SourceMapper for SourceText<'a> {
    ghost lines = { λ source. texts.lines_of source.text.now source.first.0 };

    /// Whether no line end stands between two places of the text, whichever is first. By a binary
    /// search.
    #[tactic(auto, unfolding(crate::specs::SourceTexts::lines_of, crate::specs::SourceTexts::share_line))]
    fn is_on_same_line(&self, lo: BytePos, hi: BytePos) -> bool {
        match (self.place_of(lo), self.place_of(hi)) {
            (Some(left), Some(right)) => !has_between(&self.ends, left, right),
            _ => false,
        }
    }

    /// The text of a span, which is all that takes memory; `None` where an end of it is out of the
    /// text or inside a character, or they stand the other way round.
    #[tactic(auto, unfolding(crate::specs::SourceTexts::lines_of, crate::specs::SourceTexts::text_between))]
    fn span_to_snippet(&self, alloc: Global, span: Span) -> Result<Option<String>, Error> {
        match (self.place_of(span.lo), self.place_of(span.hi)) {
            (Some(left), Some(right)) => match between(self.text, left, right) {
                Some(text) => Ok(Some(String::from_str(alloc, text)?)),
                None => Ok(None),
            },
            _ => Ok(None),
        }
    }
}
