//! Positions, where a writer keeps them.

ghost use Rattle.std.specs.Prelude.{◌≡◌, Bool, true, false, [], List, is_some, Option, Some, None};
ghost use Rattle.swc_ecma_codegen_common.specs.declared.positions.BytePos.{BytePos};
ghost use Rattle.swc_ecma_codegen_text_writer.specs.Places.{Place, origin, after_text};
ghost use Rattle.swc_ecma_codegen_text_writer.specs.Reach.{is_in_line};
ghost use Rattle.swc_ecma_codegen_text_writer.specs.Sheet.{Pair};
ghost use Rattle.swc_ecma_codegen_text_writer.specs.declared.positions.Reached.{Reached};
ghost use Rattle.swc_ecma_codegen_text_writer.specs.KeptPositions.{IsCounted, RecordsIn};

use crate::positions::Positions;
use std::alloc::Global;
use swc_ecma_codegen_common::{Answer, BytePos, LineCol};

/// What keeps positions for a writer, or keeps none: each call says what was written, or where a position is to be recorded.
pub trait KeepsPositions: Drop {
    ghost keeps: { Self → Bool };

    ghost pairs: { Self → List Pair };

    ghost pending: { Self → Option BytePos };

    ghost reached: { Self → Reached };

    /// Whether positions are kept.
    fn is_kept(&self) -> bool
        ensures { result ≡ keeps self.now };

    /// A text was written.
    fn pass(&mut self, text: &str)
        ensures counted { (p : Place) → IsCounted (keeps self.old) (reached self.old) p →
            IsCounted (keeps self.new) (reached self.new) (after_text text.now p) }
        ensures keeps { keeps self.new ≡ keeps self.old }
        ensures pairs { pairs self.new ≡ pairs self.old }
        ensures pending { pending self.new ≡ pending self.old };

    /// The same where it is known whether it stays in its line.
    fn pass_known(&mut self, text: &str, stays_in_line: bool)
        requires { stays_in_line ≡ is_in_line text.now }
        ensures counted { (p : Place) → IsCounted (keeps self.old) (reached self.old) p →
            IsCounted (keeps self.new) (reached self.new) (after_text text.now p) }
        ensures keeps { keeps self.new ≡ keeps self.old }
        ensures pairs { pairs self.new ≡ pairs self.old }
        ensures pending { pending self.new ≡ pending self.old };

    /// Records a position at the place reached, where positions are kept.
    fn record(&mut self, pos: BytePos) -> Answer
        ensures pairs { (p : Place) → IsCounted (keeps self.old) (reached self.old) p →
            RecordsIn pos p (keeps self.old) (pairs self.old) (pairs self.new) result }
        ensures counted { (p : Place) → IsCounted (keeps self.old) (reached self.old) p →
            IsCounted (keeps self.new) (reached self.new) p }
        ensures keeps { keeps self.new ≡ keeps self.old }
        ensures pending { pending self.new ≡ pending self.old };

    /// What is written next, once the line has begun, stands at `pos`, where positions are kept.
    fn point(&mut self, pos: BytePos)
        ensures pending { keeps self.old ≡ true → pending self.new ≡ Some pos }
        ensures none { keeps self.old ≡ false → pending self.new ≡ None }
        ensures counted { (p : Place) → IsCounted (keeps self.old) (reached self.old) p →
            IsCounted (keeps self.new) (reached self.new) p }
        ensures keeps { keeps self.new ≡ keeps self.old }
        ensures pairs { pairs self.new ≡ pairs self.old };

    /// The pending position, which is pending no more.
    fn take_pending(&mut self) -> Option<BytePos>
        ensures result { result ≡ pending self.old }
        ensures pending { pending self.new ≡ None }
        ensures counted { (p : Place) → IsCounted (keeps self.old) (reached self.old) p →
            IsCounted (keeps self.new) (reached self.new) p }
        ensures keeps { keeps self.new ≡ keeps self.old }
        ensures pairs { pairs self.new ≡ pairs self.old };
}

/// The positions that are kept, or nothing where none are.
#[derive(Drop)]
pub struct OptionalPositions<'a> {
    positions: Option<Positions<&'a mut Vec<(BytePos, LineCol)>>>,
}

impl<'a> OptionalPositions<'a> {
    ghost use Rattle.swc_ecma_codegen_text_writer.specs.KeptPositions.{keeps, kept_pairs, kept_pending, kept_reached};

    /// Nothing is written yet, and nothing is pending.
    #[tactic(auto, unfolding(crate::specs::KeptPositions::pairs_in, crate::specs::KeptPositions::pending_in, crate::specs::KeptPositions::reached_in))]
    pub fn new(list: Option<&'a mut Vec<(BytePos, LineCol)>>) -> OptionalPositions<'a>
        ensures keeps { keeps result ≡ is_some list.entry }
        ensures none { list.entry ≡ None → kept_pairs result ≡ [] }
        ensures some { (lent : _) → list.entry ≡ Some lent → kept_pairs result ≡ lent.now.items }
        ensures pending { kept_pending result ≡ None }
        ensures counted { IsCounted (keeps result) (kept_reached result) origin }
    {
        let positions = match list {
            None => None,
            Some(list) => Some(Positions::new(list)),
        };
        OptionalPositions { positions }
    }
}

impl KeepsPositions for OptionalPositions<'_> {
    ghost use Rattle.swc_ecma_codegen_text_writer.specs.KeptPositions.{keeps, kept_pairs, kept_pending, kept_reached};

    ghost keeps = { keeps };

    ghost pairs = { kept_pairs };

    ghost pending = { kept_pending };

    ghost reached = { kept_reached };

    fn is_kept(&self) -> bool {
        self.positions.is_some()
    }

    #[tactic(auto, unfolding(crate::specs::KeptPositions::pairs_in, crate::specs::KeptPositions::pending_in, crate::specs::KeptPositions::reached_in, crate::specs::KeptPositions::RecordsIn))]
    #[inline(always)]
    fn pass(&mut self, text: &str) {
        if let Some(positions) = &mut self.positions {
            positions.pass(text);
        }
    }

    #[tactic(auto, unfolding(crate::specs::KeptPositions::pairs_in, crate::specs::KeptPositions::pending_in, crate::specs::KeptPositions::reached_in, crate::specs::KeptPositions::RecordsIn))]
    #[inline(always)]
    fn pass_known(&mut self, text: &str, stays_in_line: bool) {
        if let Some(positions) = &mut self.positions {
            positions.pass_known(text, stays_in_line);
        }
    }

    #[tactic(auto, unfolding(crate::specs::KeptPositions::pairs_in, crate::specs::KeptPositions::pending_in, crate::specs::KeptPositions::reached_in, crate::specs::KeptPositions::RecordsIn))]
    #[inline(always)]
    fn record(&mut self, pos: BytePos) -> Answer {
        match &mut self.positions {
            None => Ok(()),
            Some(positions) => positions.record(pos),
        }
    }

    #[tactic(auto, unfolding(crate::specs::KeptPositions::pairs_in, crate::specs::KeptPositions::pending_in, crate::specs::KeptPositions::reached_in, crate::specs::KeptPositions::RecordsIn))]
    fn point(&mut self, pos: BytePos) {
        if let Some(positions) = &mut self.positions {
            positions.point(pos);
        }
    }

    #[tactic(auto, unfolding(crate::specs::KeptPositions::pairs_in, crate::specs::KeptPositions::pending_in, crate::specs::KeptPositions::reached_in, crate::specs::KeptPositions::RecordsIn))]
    fn take_pending(&mut self) -> Option<BytePos> {
        match &mut self.positions {
            None => None,
            Some(positions) => positions.take_pending(),
        }
    }
}

/// A list of positions that a writer owns: it gives the list back.
#[derive(Drop)]
pub struct OwnedPositions {
    positions: Positions<Vec<(BytePos, LineCol)>>,
}

impl OwnedPositions {
    ghost use Rattle.swc_ecma_codegen_text_writer.specs.KeptPositions.{always, owned_pairs, owned_pending, owned_reached};

    /// Nothing is written yet, nothing is pending, and the list is empty.
    pub fn new(alloc: Global) -> OwnedPositions
        ensures pairs { owned_pairs result ≡ [] }
        ensures pending { owned_pending result ≡ None }
        ensures counted { IsCounted (always result) (owned_reached result) origin }
    {
        OwnedPositions {
            positions: Positions::new(Vec::new(alloc)),
        }
    }

    /// The list.
    pub fn into_list(self) -> Vec<(BytePos, LineCol)>
        ensures { result.items ≡ owned_pairs self }
    {
        let OwnedPositions { positions } = self;
        positions.into_list()
    }
}

#[tactic(auto, unfolding(crate::specs::KeptPositions::RecordsIn))]
impl KeepsPositions for OwnedPositions {
    ghost use Rattle.swc_ecma_codegen_text_writer.specs.KeptPositions.{always, owned_pairs, owned_pending, owned_reached};

    ghost keeps = { always };

    ghost pairs = { owned_pairs };

    ghost pending = { owned_pending };

    ghost reached = { owned_reached };

    fn is_kept(&self) -> bool {
        true
    }

    #[inline(always)]
    fn pass(&mut self, text: &str) {
        self.positions.pass(text);
    }

    #[inline(always)]
    fn pass_known(&mut self, text: &str, stays_in_line: bool) {
        self.positions.pass_known(text, stays_in_line);
    }

    #[inline(always)]
    fn record(&mut self, pos: BytePos) -> Answer {
        self.positions.record(pos)
    }

    fn point(&mut self, pos: BytePos) {
        self.positions.point(pos);
    }

    fn take_pending(&mut self) -> Option<BytePos> {
        self.positions.take_pending()
    }
}
