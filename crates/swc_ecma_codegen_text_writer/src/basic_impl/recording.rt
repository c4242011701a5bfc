//! Which positions are recorded, and when: the start and the end of a span, and one for what comes next.

ghost use Rattle.std.specs.Prelude.{◌≡◌, true, false, None};

use crate::basic_impl::Lines;
use crate::kept::KeepsPositions;
use std::io::Write;
use swc_ecma_codegen_common::{Answer, BytePos, Refusal, Span};

impl<W: Write, K: KeepsPositions> Lines<'_, W, K> {
    ghost use Rattle.swc_ecma_codegen_text_writer.specs.Sheet.{noted, is_recorded, recorded, start_recorded, end_recorded, pending_recorded};
    ghost use Rattle.swc_ecma_codegen_text_writer.specs.View.{sheet_of, Reaches, WritesPosition};

    /// Records a position, where positions are kept: while lines are filled it is held.
    #[inline(always)]
    pub(super) fn record(&mut self, pos: BytePos) -> Answer
        requires { (sheet_of self.old).refused ≡ false }
        ensures { Reaches (recorded pos (sheet_of self.old)) (sheet_of self.old) (sheet_of self.new)
            result }
    {
        if pos.0 == 0 || !self.kept.is_kept() {
            return Ok(());
        }
        self.record_or_hold(pos)
    }

    /// The same where positions are kept, of one that isn't 0.
    #[inline(always)]
    fn record_or_hold(&mut self, pos: BytePos) -> Answer
        requires fresh { (sheet_of self.old).refused ≡ false }
        requires recorded { is_recorded pos (sheet_of self.old) ≡ true }
        ensures { Reaches (recorded pos (sheet_of self.old)) (sheet_of self.old) (sheet_of self.new)
            result }
    {
        match &mut self.held {
            None => self.note(pos),
            Some(held) => match held.segment.push_note(pos) {
                Ok(()) => Ok(()),
                Err(refusal) => {
                    self.failed = true;
                    self.plain = false;
                    Err(refusal)
                }
            },
        }
    }

    /// Records a position where the text ends that is out.
    #[inline(always)]
    pub(super) fn note(&mut self, pos: BytePos) -> Answer
        requires fresh { (sheet_of self.old).refused ≡ false }
        requires keeps { (sheet_of self.old).keeps_positions ≡ true }
        ensures { Reaches (noted pos (sheet_of self.old)) (sheet_of self.old) (sheet_of self.new)
            result }
    {
        match self.kept.record(pos) {
            Ok(()) => Ok(()),
            Err(refusal) => {
                self.failed = true;
                self.plain = false;
                Err(refusal)
            }
        }
    }

    /// Records the position that is pending.
    #[inline(always)]
    pub(super) fn record_pending(&mut self) -> Answer
        requires { (sheet_of self.old).refused ≡ false }
        ensures { Reaches (pending_recorded (sheet_of self.old).pending (sheet_of self.old))
            (sheet_of self.old) (sheet_of self.new) result }
    {
        match self.kept.take_pending() {
            None => Ok(()),
            Some(pos) => self.record_taken(pos),
        }
    }

    /// Records the position that was pending.
    #[inline(never)]
    fn record_taken(&mut self, pos: BytePos) -> Answer
        requires { (sheet_of self.old).refused ≡ false }
        ensures { Reaches (recorded pos (sheet_of self.old)) (sheet_of self.old) (sheet_of self.new)
            result }
    {
        self.record(pos)
    }

    /// Forgets the position that is pending.
    #[tactic(auto, unfolding(crate::specs::View::sheet_of))]
    pub(super) fn drop_pending(&mut self)
        ensures { sheet_of self.new ≡ record (sheet_of self.old) { pending = None } }
    {
        let _ = self.kept.take_pending();
    }

    /// Records where a span starts.
    #[inline(always)]
    #[tactic(auto, unfolding(crate::specs::View::Reaches, crate::specs::Sheet::start_recorded))]
    pub(super) fn record_start(&mut self, span: Option<Span>) -> Answer
        requires { (sheet_of self.old).refused ≡ false }
        ensures { Reaches (start_recorded span (sheet_of self.old)) (sheet_of self.old)
            (sheet_of self.new) result }
    {
        match span {
            None => Ok(()),
            Some(span) => self.record(span.lo),
        }
    }

    /// Records where a span ends.
    #[inline(always)]
    #[tactic(auto, unfolding(crate::specs::View::Reaches, crate::specs::Sheet::end_recorded))]
    pub(super) fn record_end(&mut self, span: Option<Span>) -> Answer
        requires { (sheet_of self.old).refused ≡ false }
        ensures { Reaches (end_recorded span (sheet_of self.old)) (sheet_of self.old)
            (sheet_of self.new) result }
    {
        match span {
            None => Ok(()),
            Some(span) => self.record(span.hi),
        }
    }

    /// Records a position for what comes next: at a line's start, once the line has begun.
    pub(super) fn point(&mut self, pos: BytePos) -> Answer
        ensures { WritesPosition pos (sheet_of self.old) (sheet_of self.new) result }
    {
        if self.failed {
            return Err(Refusal::Failed);
        }
        if self.kept.is_kept() && self.line_start {
            self.kept.point(pos);
            return Ok(());
        }
        self.record(pos)
    }
}
