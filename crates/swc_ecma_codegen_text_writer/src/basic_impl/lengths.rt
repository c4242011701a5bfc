//! Lines of a greatest length: what is written is held, and goes out where a line may end.

ghost use Rattle.std.specs.Prelude.{◌≡◌, true, false};

use crate::basic_impl::Lines;
use crate::filling::is_due;
use crate::held::{Held, HeldText, part};
use crate::kept::KeepsPositions;
use std::io::Write;
use swc_ecma_codegen_common::{Answer, BytePos, Refusal};

impl<W: Write, K: KeepsPositions> Lines<'_, W, K> {
    ghost use Rattle.std.specs.Prelude.{length, string_bytes, Some, IfSome};
    ghost use Rattle.swc_ecma_codegen_text_writer.specs.Held.{segment_in, GoesOn};
    ghost use Rattle.swc_ecma_codegen_text_writer.specs.InPlace.{GoesInLine, IsHeldInLine, held_released};
    ghost use Rattle.swc_ecma_codegen_text_writer.specs.Reach.{is_in_line};
    ghost use Rattle.swc_ecma_codegen_text_writer.specs.Sheet.{Writes, BeginLines, AllowBreak, EndLines, Filling, released, noted, notes_released, ends_before, line_ended, segment_released, allowed_by, allowed};
    ghost use Rattle.swc_ecma_codegen_text_writer.specs.View.{sheet_of, Reaches};

    /// Whether a line end is due before what is held.
    #[inline(always)]
    fn ends_before(&self, held: &Held, stays_in_line: bool) -> bool
        requires fresh { (sheet_of self.now).refused ≡ false }
        requires looked { stays_in_line ≡ is_in_line (string_bytes held.now.segment.text) }
        ensures { result ≡ ends_before held.now.max held.now.first (segment_in held.now.segment)
            (sheet_of self.now) }
    {
        if held.first {
            return false;
        }
        is_due(
            held.max,
            self.column.units(),
            held.segment.first_units(stays_in_line),
        )
    }

    /// Sends a line end out where one is due.
    #[tactic(auto, unfolding(crate::specs::View::Reaches, crate::specs::Sheet::line_ended))]
    fn release_line_end(&mut self, due: bool) -> Answer
        requires { (sheet_of self.old).refused ≡ false }
        ensures { Reaches (line_ended due (sheet_of self.old)) (sheet_of self.old)
            (sheet_of self.new) result }
    {
        if !due {
            return Ok(());
        }
        let text = self.new_line;
        self.release(text)
    }

    /// Sends a text out, and records a position behind it.
    fn release_noted(&mut self, text: &str, pos: BytePos) -> Answer
        requires fresh { (sheet_of self.old).refused ≡ false }
        requires keeps { (sheet_of self.old).keeps_positions ≡ true }
        ensures { Reaches (noted pos (released text.now (sheet_of self.old))) (sheet_of self.old)
            (sheet_of self.new) result }
    {
        self.release(text)?;
        self.note(pos)
    }

    /// Sends a text out that was held, and records each position where it stands.
    fn release_held(&mut self, held: &HeldText) -> Answer
        requires fresh { (sheet_of self.old).refused ≡ false }
        requires bare { (sheet_of self.old).keeps_positions ≡ false →
            length held.now.notes.items ≡ 0 }
        ensures { Reaches (released (segment_in held.now).rest
            (notes_released (segment_in held.now).noted (sheet_of self.old)))
            (sheet_of self.old) (sheet_of self.new) result }
    {
        let text = held.text.as_str();
        let mut from: usize = 0;
        for note in &held.notes {
            self.release_noted(part(text, from, note.offset), note.pos)?;
            from = note.offset;
        }
        self.release(part(text, from, text.len()))
    }

    /// Sends out what was held, after a line end where one is due.
    fn flush(&mut self, held: &Held) -> Answer
        requires fresh { (sheet_of self.old).refused ≡ false }
        requires bare { (sheet_of self.old).keeps_positions ≡ false →
            length held.now.segment.notes.items ≡ 0 }
        ensures { Reaches (segment_released held.now.max held.now.first
            (segment_in held.now.segment) (sheet_of self.old)) (sheet_of self.old)
            (sheet_of self.new) result }
    {
        let stays_in_line = held.segment.stays_in_line();
        let due = self.ends_before(held, stays_in_line);
        self.release_line_end(due)?;
        self.release_segment(&held.segment, stays_in_line)
    }

    /// Sends a text out that was held, with its positions. Most stay in their line and have none.
    #[inline(always)]
    fn release_segment(&mut self, held: &HeldText, stays_in_line: bool) -> Answer
        requires fresh { (sheet_of self.old).refused ≡ false }
        requires looked { stays_in_line ≡ is_in_line (string_bytes held.now.text) }
        requires bare { (sheet_of self.old).keeps_positions ≡ false →
            length held.now.notes.items ≡ 0 }
        ensures { Reaches (released (segment_in held.now).rest
            (notes_released (segment_in held.now).noted (sheet_of self.old)))
            (sheet_of self.old) (sheet_of self.new) result }
    {
        if stays_in_line && held.notes.is_empty() {
            return self.release_in_line(held);
        }
        self.release_held(held)
    }

    /// Sends a text out that was held, that stays in its line and has no positions.
    #[inline(always)]
    fn release_in_line(&mut self, held: &HeldText) -> Answer
        requires fresh { (sheet_of self.old).refused ≡ false }
        requires looked { is_in_line (string_bytes held.now.text) ≡ true }
        requires bare { length held.now.notes.items ≡ 0 }
        ensures { Reaches (released (segment_in held.now).rest
            (notes_released (segment_in held.now).noted (sheet_of self.old)))
            (sheet_of self.old) (sheet_of self.new) result }
    {
        self.release_known(held.text.as_str(), true)
    }

    /// Lines are filled from here on.
    pub(super) fn begin(&mut self, max: u32) -> Answer
        ensures { Writes (BeginLines max) (sheet_of self.old) (sheet_of self.new) result }
    {
        if self.failed {
            return Err(Refusal::Failed);
        }
        self.plain = false;
        match &mut self.held {
            None => {
                self.held = Some(Held {
                    max,
                    first: true,
                    segment: HeldText::new(self.alloc),
                });
                Ok(())
            }
            Some(held) => {
                held.max = max;
                Ok(())
            }
        }
    }

    /// Here a line may end. Mostly what is held stays in its line, and goes out where it stands.
    #[inline(never)]
    pub(super) fn allow(&mut self) -> Answer
        ensures { Writes AllowBreak (sheet_of self.old) (sheet_of self.new) result }
    {
        if self.failed {
            return Err(Refusal::Failed);
        }
        match self.goes_in_line() {
            None => self.allow_any(),
            Some(due) => self.allow_in_line(due),
        }
    }

    /// Whether a line end is due before what is held, where that stays in its line and no positions are kept.
    #[inline(always)]
    fn goes_in_line(&self) -> Option<bool>
        requires { (sheet_of self.now).refused ≡ false }
        ensures { IfSome result (λ due. GoesInLine due self.now.held (sheet_of self.now)) }
    {
        match &self.held {
            None => None,
            Some(held) => self.goes_in_line_with(held),
        }
    }

    /// The same of what is held.
    #[inline(always)]
    fn goes_in_line_with(&self, held: &Held) -> Option<bool>
        requires fresh { (sheet_of self.now).refused ≡ false }
        requires bare { (sheet_of self.now).keeps_positions ≡ false →
            length held.now.segment.notes.items ≡ 0 }
        ensures { IfSome result (λ due. GoesInLine due (Some held.now) (sheet_of self.now)) }
    {
        if self.kept.is_kept() || !held.segment.stays_in_line() {
            return None;
        }
        Some(self.ends_before(held, true))
    }

    /// Sends a line end out where one is due, and then what was held, where it stands.
    #[inline(always)]
    fn allow_in_line(&mut self, due: bool) -> Answer
        requires fresh { (sheet_of self.old).refused ≡ false }
        requires goes { GoesInLine due self.old.held (sheet_of self.old) }
        ensures { Reaches (allowed (sheet_of self.old)) (sheet_of self.old) (sheet_of self.new)
            result }
    {
        if due {
            return self.allow_in_next_line();
        }
        self.release_in_place()
    }

    /// Sends a line end out, and then what was held, where it stands.
    #[inline(never)]
    fn allow_in_next_line(&mut self) -> Answer
        requires fresh { (sheet_of self.old).refused ≡ false }
        requires goes { GoesInLine true self.old.held (sheet_of self.old) }
        ensures { Reaches (allowed (sheet_of self.old)) (sheet_of self.old) (sheet_of self.new)
            result }
    {
        self.end_due_line()?;
        self.release_in_place()
    }

    /// Sends a line end out. What is held stays held.
    #[inline(always)]
    fn end_due_line(&mut self) -> Answer
        requires { (sheet_of self.old).refused ≡ false }
        ensures reaches { Reaches (line_ended true (sheet_of self.old)) (sheet_of self.old)
            (sheet_of self.new) result }
        ensures held { self.new.held ≡ self.old.held }
    {
        let text = self.new_line;
        match self.outlet.write_text(text) {
            Ok(()) => {
                self.kept.pass(text);
                self.column.pass_sent(text);
                Ok(())
            }
            Err(_) => {
                self.failed = true;
                self.plain = false;
                Err(Refusal::Writer)
            }
        }
    }

    /// Sends out what is held, where it stands: no positions are kept.
    #[inline(always)]
    fn release_in_place(&mut self) -> Answer
        requires fresh { (sheet_of self.old).refused ≡ false }
        requires goes { IsHeldInLine self.old.held (sheet_of self.old) }
        ensures { Reaches (held_released self.old.held (sheet_of self.old)) (sheet_of self.old)
            (sheet_of self.new) result }
    {
        match &mut self.held {
            None => Ok(()),
            Some(held) => {
                held.first = false;
                let text = held.segment.text.as_str();
                self.column.pass_known(text, true);
                match self.outlet.write_text(text) {
                    Ok(()) => {
                        held.segment.clear();
                        Ok(())
                    }
                    Err(_) => {
                        self.failed = true;
                        self.plain = false;
                        Err(Refusal::Writer)
                    }
                }
            }
        }
    }

    /// An allowed break, whatever is held.
    #[inline(never)]
    fn allow_any(&mut self) -> Answer
        requires { (sheet_of self.old).refused ≡ false }
        ensures { Writes AllowBreak (sheet_of self.old) (sheet_of self.new) result }
    {
        match self.goes_on() {
            None => self.allow_taking(),
            Some(stays_in_line) => self.allow_here(stays_in_line),
        }
    }

    /// The same, also where a line end is due.
    #[inline(never)]
    fn allow_taking(&mut self) -> Answer
        requires { (sheet_of self.old).refused ≡ false }
        ensures { Writes AllowBreak (sheet_of self.old) (sheet_of self.new) result }
    {
        match self.held.take() {
            None => Ok(()),
            Some(held) => self.allow_after(held),
        }
    }

    /// Where what is held goes out as it is, whether it stays in its line: it has no positions, and no line end is due before it.
    #[inline(always)]
    fn goes_on(&self) -> Option<bool>
        requires { (sheet_of self.now).refused ≡ false }
        ensures { IfSome result (λ stays_in_line. GoesOn stays_in_line self.now.held
            (sheet_of self.now)) }
    {
        match &self.held {
            None => None,
            Some(held) => self.goes_on_with(held),
        }
    }

    /// The same of what is held.
    #[inline(always)]
    fn goes_on_with(&self, held: &Held) -> Option<bool>
        requires { (sheet_of self.now).refused ≡ false }
        ensures { IfSome result (λ stays_in_line. GoesOn stays_in_line (Some held.now)
            (sheet_of self.now)) }
    {
        if !held.segment.notes.is_empty() {
            return None;
        }
        let stays_in_line = held.segment.stays_in_line();
        if self.ends_before(held, stays_in_line) {
            return None;
        }
        Some(stays_in_line)
    }

    /// Sends out what was held, as it is, where it stands.
    #[inline(always)]
    fn allow_here(&mut self, stays_in_line: bool) -> Answer
        requires fresh { (sheet_of self.old).refused ≡ false }
        requires goes { GoesOn stays_in_line self.old.held (sheet_of self.old) }
        ensures { Reaches (allowed (sheet_of self.old)) (sheet_of self.old) (sheet_of self.new)
            result }
    {
        match &mut self.held {
            None => Ok(()),
            Some(held) => {
                let text = held.segment.text.as_str();
                match self.outlet.write_text(text) {
                    Ok(()) => {
                        self.kept.pass(text);
                        self.column.pass_known(text, stays_in_line);
                        held.first = false;
                        held.segment.clear();
                        Ok(())
                    }
                    Err(_) => {
                        self.failed = true;
                        self.plain = false;
                        Err(Refusal::Writer)
                    }
                }
            }
        }
    }

    /// The same after what was held, which is held no more.
    fn allow_after(&mut self, mut held: Held) -> Answer
        requires fresh { (sheet_of self.old).refused ≡ false }
        requires bare { (sheet_of self.old).keeps_positions ≡ false →
            length held.segment.notes.items ≡ 0 }
        ensures { Reaches (allowed_by (Filling held.max held.first
            (segment_in held.segment)) (sheet_of self.old)) (sheet_of self.old)
            (sheet_of self.new) result }
    {
        self.flush(&held)?;
        held.first = false;
        held.segment.clear();
        self.held = Some(held);
        self.plain = false;
        Ok(())
    }

    /// Lines are filled no more.
    pub(super) fn close(&mut self) -> Answer
        ensures { Writes EndLines (sheet_of self.old) (sheet_of self.new) result }
    {
        if self.failed {
            return Err(Refusal::Failed);
        }
        match self.held.take() {
            None => Ok(()),
            Some(held) => self.flush(&held),
        }
    }
}
