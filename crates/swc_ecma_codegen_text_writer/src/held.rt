//! What is held while lines are filled: a text, and positions by their offsets in it. A position is recorded when the text goes
//! out, so that it has the place that it has then.

ghost use Rattle.std.specs.Prelude.{◌≡◌, ◌≤◌, true, slice_range, length, string_bytes, Ok, OnOk, IfErr};
ghost use Rattle.std.specs.Str.{IsCharBoundary};
ghost use Rattle.std.proofs.Props.{props};
ghost use Rattle.swc_ecma_codegen_common.specs.declared.errors.Refusal.TheVariants.{OutOfMemory};
ghost use Rattle.swc_ecma_codegen_text_writer.specs.Notes.{are_in_order, AreBoundaries};

use crate::filling::{first_units, units_in_line};
use crate::positions::is_in_line;
use std::alloc::Global;
use swc_ecma_codegen_common::{Answer, BytePos, Refusal};

/// A position of the source, and how many bytes of the text stand before it.
#[derive(Clone, Copy, Drop)]
pub struct Note {
    pub offset: usize,
    pub pos: BytePos,
}

/// A text that is held, with positions in it.
#[derive(Drop)]
pub struct HeldText {
    pub text: String,
    pub notes: Vec<Note>,
    ghost in_order: { are_in_order 0 notes.items (length (string_bytes text)) ≡ true },
    ghost cuts: { AreBoundaries (string_bytes text) notes.items } by { Prim.hlevel props },
}

impl HeldText {
    ghost use Rattle.std.specs.Prelude.{◌^◌, min};
    ghost use Rattle.swc_ecma_codegen_text_writer.specs.Filling.{first_units};
    ghost use Rattle.swc_ecma_codegen_text_writer.specs.Reach.{is_in_line};
    ghost use Rattle.swc_ecma_codegen_text_writer.specs.Sheet.{no_segment, text_in, with_text, with_note};
    ghost use Rattle.swc_ecma_codegen_text_writer.specs.Held.{segment_in};

    /// Nothing is held.
    #[tactic(auto, unfolding(crate::specs::Notes::segment_of, crate::specs::Notes::noted_of, crate::specs::Notes::last_of, crate::specs::Notes::are_in_order, crate::specs::Notes::AreBoundaries))]
    pub fn new(alloc: Global) -> HeldText
        ensures segment { segment_in result ≡ no_segment }
        ensures notes { length result.notes.items ≡ 0 }
    {
        HeldText {
            text: String::new(alloc),
            notes: Vec::new(alloc),
        }
    }

    /// Nothing is held any more. The memory is kept for what comes next.
    #[tactic(auto, unfolding(crate::specs::Notes::segment_of, crate::specs::Notes::noted_of, crate::specs::Notes::last_of, crate::specs::Notes::are_in_order, crate::specs::Notes::AreBoundaries))]
    pub fn clear(&mut self)
        ensures segment { segment_in self.new ≡ no_segment }
        ensures notes { length self.new.notes.items ≡ 0 }
    {
        self.notes.clear();
        self.text.clear();
    }

    /// Whether all of it stays in its line.
    #[inline(always)]
    pub fn stays_in_line(&self) -> bool
        ensures { result ≡ is_in_line (string_bytes self.now.text) }
    {
        is_in_line(self.text.as_bytes())
    }

    /// The UTF-16 units of its first line, as far as they are counted.
    #[inline(always)]
    pub fn first_units(&self, stays_in_line: bool) -> u64
        requires { stays_in_line ≡ is_in_line (string_bytes self.now.text) }
        ensures { result ≡ min (first_units (text_in (segment_in self.now))) (2 ^ 32) }
    {
        let text = self.text.as_str();
        if stays_in_line {
            return units_in_line(text);
        }
        first_units(text)
    }

    /// A text more.
    #[inline(always)]
    pub fn push_text(&mut self, text: &str) -> Answer
        ensures ok { OnOk result (segment_in self.new ≡ with_text text.now (segment_in self.old)) }
        ensures err { IfErr result (λ e. e ≡ OutOfMemory) }
        ensures notes { self.new.notes ≡ self.old.notes }
    {
        let _before = self.text.as_str();
        match self.text.push_str(text) {
            Ok(()) => Ok(()),
            Err(_) => Err(Refusal::OutOfMemory),
        }
    }

    /// A position more.
    pub fn push_note(&mut self, pos: BytePos) -> Answer
        ensures ok { OnOk result (segment_in self.new ≡ with_note pos (segment_in self.old)) }
        ensures err { IfErr result (λ e. e ≡ OutOfMemory) }
    {
        let bytes = self.text.as_bytes();
        let offset = bytes.len();
        match self.notes.push(Note { offset, pos }) {
            Ok(()) => Ok(()),
            Err(_) => Err(Refusal::OutOfMemory),
        }
    }
}

/// A part of a text.
pub fn part(text: &str, from: usize, to: usize) -> &str
    requires order { from ≤ to }
    requires from { IsCharBoundary text.now from }
    requires to { IsCharBoundary text.now to }
    ensures { result.now ≡ slice_range text.now from to }
{
    &text[from..to]
}

/// What is held while lines of at most `max` units are filled; `first`: nothing went out since lines began.
#[derive(Drop)]
pub struct Held {
    pub max: u32,
    pub first: bool,
    pub segment: HeldText,
}
