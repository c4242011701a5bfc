//! Texts, literals and line ends, each written in the shortest way: most are only sent.

ghost use Rattle.std.specs.Prelude.{◌≡◌, ◌<◌, true, false};

use crate::basic_impl::Lines;
use crate::kept::KeepsPositions;
use crate::positions::is_in_line;
use std::io::Write;
use swc_ecma_codegen_common::{Answer, Refusal, Span};

/// Whether nothing of a span is recorded, as of one that stands nowhere: position 0 never is.
#[inline(always)]
fn is_nowhere(span: Span) -> bool
    ensures { result ≡ true → (span.lo.0 ≡ 0) × (span.hi.0 ≡ 0) }
{
    span.lo.0 == 0 && span.hi.0 == 0
}

impl<W: Write, K: KeepsPositions> Lines<'_, W, K> {
    ghost use Rattle.std.specs.Prelude.{length, Some, None};
    ghost use Rattle.swc_ecma_codegen_text_writer.specs.Reach.{is_in_line};
    ghost use Rattle.swc_ecma_codegen_text_writer.specs.Sheet.{answered, appended, started, written};
    ghost use Rattle.swc_ecma_codegen_text_writer.specs.View.{sheet_of, Reaches, WritesText, WritesLiteral, WritesLine};

    /// Writes a text, after the indentation at a line's start.
    #[inline(always)]
    pub(super) fn write(&mut self, span: Option<Span>, text: &str) -> Answer
        ensures { WritesText span text.now (sheet_of self.old) (sheet_of self.new) result }
    {
        match span {
            None => self.write_plain(text),
            Some(span) => self.write_with(span, text),
        }
    }

    /// The same with a span. One that stands nowhere, as that of each name does, takes the shorter way, since none of it is recorded.
    #[inline(always)]
    fn write_with(&mut self, span: Span, text: &str) -> Answer
        ensures { WritesText (Some span) text.now (sheet_of self.old) (sheet_of self.new) result }
    {
        if is_nowhere(span) {
            return self.write_bytes(text);
        }
        self.write_spanned(span, text)
    }

    /// The same without a span. Most texts are one byte, as a blank and most punctuators are.
    #[inline(always)]
    fn write_plain(&mut self, text: &str) -> Answer
        ensures { WritesText None text.now (sheet_of self.old) (sheet_of self.new) result }
    {
        if text.len() == 1 {
            self.write_byte(text)
        } else {
            self.write_bytes(text)
        }
    }

    /// Writes a text of one byte: in most calls it is only sent.
    #[inline(always)]
    fn write_byte(&mut self, text: &str) -> Answer
        requires { length text.now ≡ 1 }
        ensures { WritesText None text.now (sheet_of self.old) (sheet_of self.new) result }
    {
        if !self.plain {
            return self.write_first_byte(text);
        }
        self.send_byte(text)
    }

    /// The same where it is only sent.
    #[inline(always)]
    fn send_byte(&mut self, text: &str) -> Answer
        requires plain { self.old.plain ≡ true }
        requires length { length text.now ≡ 1 }
        ensures { WritesText None text.now (sheet_of self.old) (sheet_of self.new) result }
    {
        self.send_few::<1>(text)
    }

    /// Sends a text of N bytes, where it is only sent. Most stay in their line.
    #[inline(always)]
    fn send_few<const N: usize>(&mut self, text: &str) -> Answer
        requires plain { self.old.plain ≡ true }
        requires length { length text.now ≡ N }
        ensures { Reaches (appended text.now (sheet_of self.old)) (sheet_of self.old)
            (sheet_of self.new) result }
    {
        if text.len() != N {
            unreachable!();
        }
        if !is_in_line(text.as_bytes()) {
            return self.send(text);
        }
        self.release_array::<N>(text)
    }

    /// Sends a text of any length, where it is only sent. Most names and keywords have up to sixteen bytes.
    #[inline(never)]
    fn send_by_length(&mut self, text: &str) -> Answer
        requires { self.old.plain ≡ true }
        ensures { Reaches (appended text.now (sheet_of self.old)) (sheet_of self.old)
            (sheet_of self.new) result }
    {
        match text.len() {
            0 => Ok(()),
            1 => self.send_few::<1>(text),
            2 => self.send_few::<2>(text),
            3 => self.send_few::<3>(text),
            4 => self.send_few::<4>(text),
            5 => self.send_few::<5>(text),
            6 => self.send_few::<6>(text),
            7 => self.send_few::<7>(text),
            8 => self.send_few::<8>(text),
            9 => self.send_few::<9>(text),
            10 => self.send_few::<10>(text),
            11 => self.send_few::<11>(text),
            12 => self.send_few::<12>(text),
            13 => self.send_few::<13>(text),
            14 => self.send_few::<14>(text),
            15 => self.send_few::<15>(text),
            16 => self.send_few::<16>(text),
            _ => self.send(text),
        }
    }

    /// The same at a line's start, while lines are filled, or after a refusal.
    #[inline(never)]
    #[tactic(auto, unfolding(crate::specs::View::sheet_of))]
    fn write_first_byte(&mut self, text: &str) -> Answer
        requires { length text.now ≡ 1 }
        ensures { WritesText None text.now (sheet_of self.old) (sheet_of self.new) result }
    {
        if text.len() != 1 {
            unreachable!();
        }
        if self.failed || self.line_start {
            return self.write_byte_anyhow(text);
        }
        self.write_begun(text)
    }

    /// Writes a text that isn't empty in a line that has begun: while lines are filled it is held.
    #[inline(always)]
    fn write_begun(&mut self, text: &str) -> Answer
        requires fresh { (sheet_of self.old).refused ≡ false }
        requires begun { (sheet_of self.old).at_line_start ≡ false }
        requires some { 0 < length text.now }
        ensures { WritesText None text.now (sheet_of self.old) (sheet_of self.new) result }
    {
        self.hold(text)
    }

    /// Holds a text, and sends it out where lines aren't filled.
    #[inline(always)]
    fn hold(&mut self, text: &str) -> Answer
        requires { (sheet_of self.old).refused ≡ false }
        ensures { Reaches (appended text.now (sheet_of self.old)) (sheet_of self.old)
            (sheet_of self.new) result }
    {
        match &mut self.held {
            None => self.send_counted(text),
            Some(held) => match held.segment.push_text(text) {
                Ok(()) => Ok(()),
                Err(refusal) => {
                    self.failed = true;
                    self.plain = false;
                    Err(refusal)
                }
            },
        }
    }

    /// Sends a text out where positions are kept: of one byte, as most are, in a function of its own.
    #[inline(always)]
    fn send_counted(&mut self, text: &str) -> Answer
        requires { (sheet_of self.old).refused ≡ false }
        ensures { Reaches (appended text.now (sheet_of self.old)) (sheet_of self.old)
            (sheet_of self.new) result }
    {
        if text.len() == 1 {
            return self.send_one(text);
        }
        self.send(text)
    }

    /// The same of a text of one byte: that takes no call that copies bytes.
    #[inline(never)]
    fn send_one(&mut self, text: &str) -> Answer
        requires fresh { (sheet_of self.old).refused ≡ false }
        requires byte { length text.now ≡ 1 }
        ensures { Reaches (appended text.now (sheet_of self.old)) (sheet_of self.old)
            (sheet_of self.new) result }
    {
        if text.len() != 1 {
            unreachable!();
        }
        self.hand_on(text)
    }

    /// Writes a text of one byte, also at a line's start or after a refusal.
    #[inline(never)]
    fn write_byte_anyhow(&mut self, text: &str) -> Answer
        requires { length text.now ≡ 1 }
        ensures { WritesText None text.now (sheet_of self.old) (sheet_of self.new) result }
    {
        if text.len() != 1 {
            unreachable!();
        }
        self.write_here(None, text)
    }

    /// Writes a text, also at a line's start or after a refusal.
    #[inline(never)]
    fn write_anyhow(&mut self, text: &str) -> Answer
        ensures { WritesText None text.now (sheet_of self.old) (sheet_of self.new) result }
    {
        if self.failed {
            return Err(Refusal::Failed);
        }
        if text.is_empty() {
            return Ok(());
        }
        self.put_text(text)
    }

    /// Writes a text that isn't empty: once its line has begun, it is mostly only sent.
    #[inline(always)]
    fn put_text(&mut self, text: &str) -> Answer
        requires fresh { (sheet_of self.old).refused ≡ false }
        requires some { 0 < length text.now }
        ensures { Reaches (written None text.now (sheet_of self.old)) (sheet_of self.old)
            (sheet_of self.new) result }
    {
        self.start_line()?;
        self.send_begun(text)
    }

    /// Sends a text in a line that has begun.
    #[inline(always)]
    fn send_begun(&mut self, text: &str) -> Answer
        requires { (sheet_of self.old).refused ≡ false }
        ensures { Reaches (appended text.now (sheet_of self.old)) (sheet_of self.old)
            (sheet_of self.new) result }
    {
        if !self.plain {
            return self.send(text);
        }
        self.send_by_length(text)
    }

    /// Writes a text of any length, without a span. Each way is a function of its own, so that none goes through the other.
    #[inline(always)]
    fn write_bytes(&mut self, text: &str) -> Answer
        ensures { WritesText None text.now (sheet_of self.old) (sheet_of self.new) result }
    {
        if !self.plain {
            return self.write_first_bytes(text);
        }
        self.send_bytes(text)
    }

    /// The same where it is only sent.
    #[inline(always)]
    fn send_bytes(&mut self, text: &str) -> Answer
        requires { self.old.plain ≡ true }
        ensures { WritesText None text.now (sheet_of self.old) (sheet_of self.new) result }
    {
        self.send_by_length(text)
    }

    /// The same at a line's start, while lines are filled, or after a refusal.
    #[inline(never)]
    #[tactic(auto, unfolding(crate::specs::View::sheet_of))]
    fn write_first_bytes(&mut self, text: &str) -> Answer
        ensures { WritesText None text.now (sheet_of self.old) (sheet_of self.new) result }
    {
        if text.len() == 1 {
            return self.write_first_byte(text);
        }
        if text.is_empty() || self.failed || self.line_start {
            return self.write_anyhow(text);
        }
        self.write_begun(text)
    }

    /// Writes a text, and records its span.
    #[inline(never)]
    fn write_spanned(&mut self, span: Span, text: &str) -> Answer
        ensures { WritesText (Some span) text.now (sheet_of self.old) (sheet_of self.new) result }
    {
        self.write_here(Some(span), text)
    }

    /// Writes a text, where it is called.
    #[inline(always)]
    fn write_here(&mut self, span: Option<Span>, text: &str) -> Answer
        ensures { WritesText span text.now (sheet_of self.old) (sheet_of self.new) result }
    {
        if self.failed {
            return Err(Refusal::Failed);
        }
        if text.is_empty() {
            return Ok(());
        }
        self.put(span, text)
    }

    /// Writes a text that stays in its line, without a span: a blank or a punctuator of one byte where it is called. Whether it was
    /// written: else `reason` says why not.
    #[inline(always)]
    pub(super) fn writes_known(&mut self, text: &str) -> bool
        requires { is_in_line text.now ≡ true }
        ensures { WritesText None text.now (sheet_of self.old) (sheet_of self.new)
            (answered result self.new.reason) }
    {
        if text.len() == 1 {
            self.writes_known_byte(text)
        } else {
            self.writes_known_bytes(text)
        }
    }

    /// The same of one byte.
    #[inline(always)]
    fn writes_known_byte(&mut self, text: &str) -> bool
        requires looked { is_in_line text.now ≡ true }
        requires length { length text.now ≡ 1 }
        ensures { WritesText None text.now (sheet_of self.old) (sheet_of self.new)
            (answered result self.new.reason) }
    {
        if !self.plain {
            return self.writes_first_byte(text);
        }
        self.sends_known_byte(text)
    }

    /// The same where it is only sent.
    #[inline(always)]
    fn sends_known_byte(&mut self, text: &str) -> bool
        requires plain { self.old.plain ≡ true }
        requires looked { is_in_line text.now ≡ true }
        requires length { length text.now ≡ 1 }
        ensures { WritesText None text.now (sheet_of self.old) (sheet_of self.new)
            (answered result self.new.reason) }
    {
        self.sends_known::<1>(text)
    }

    /// The same of any length.
    #[inline(always)]
    fn writes_known_bytes(&mut self, text: &str) -> bool
        requires { is_in_line text.now ≡ true }
        ensures { WritesText None text.now (sheet_of self.old) (sheet_of self.new)
            (answered result self.new.reason) }
    {
        if !self.plain {
            return self.writes_first_bytes(text);
        }
        self.sends_known_bytes(text)
    }

    /// The same where it is only sent.
    #[inline(always)]
    fn sends_known_bytes(&mut self, text: &str) -> bool
        requires plain { self.old.plain ≡ true }
        requires looked { is_in_line text.now ≡ true }
        ensures { WritesText None text.now (sheet_of self.old) (sheet_of self.new)
            (answered result self.new.reason) }
    {
        self.sends_known_by_length(text)
    }

    /// The same at a line's start, while lines are filled, or after a refusal: of one byte.
    #[inline(never)]
    #[tactic(auto, unfolding(crate::specs::View::sheet_of))]
    fn writes_first_byte(&mut self, text: &str) -> bool
        requires looked { is_in_line text.now ≡ true }
        requires length { length text.now ≡ 1 }
        ensures { WritesText None text.now (sheet_of self.old) (sheet_of self.new)
            (answered result self.new.reason) }
    {
        if text.len() != 1 {
            unreachable!();
        }
        if self.failed {
            let answer = self.write_byte_anyhow(text);
            return self.notes_reason(answer);
        }
        if !self.line_start {
            let answer = self.write_begun(text);
            return self.notes_reason(answer);
        }
        self.starts_line_by_byte(text)
    }

    /// The same of any length.
    #[inline(never)]
    #[tactic(auto, unfolding(crate::specs::View::sheet_of))]
    fn writes_first_bytes(&mut self, text: &str) -> bool
        requires { is_in_line text.now ≡ true }
        ensures { WritesText None text.now (sheet_of self.old) (sheet_of self.new)
            (answered result self.new.reason) }
    {
        if text.is_empty() || self.failed {
            let answer = self.write_anyhow(text);
            return self.notes_reason(answer);
        }
        if !self.line_start {
            let answer = self.write_begun(text);
            return self.notes_reason(answer);
        }
        self.starts_line_by(text)
    }

    /// Sends the indentation of a line, and then a text of one byte.
    #[inline(never)]
    fn starts_line_by_byte(&mut self, text: &str) -> bool
        requires fresh { (sheet_of self.old).refused ≡ false }
        requires start { (sheet_of self.old).at_line_start ≡ true }
        requires looked { is_in_line text.now ≡ true }
        requires length { length text.now ≡ 1 }
        ensures { Reaches (written None text.now (sheet_of self.old)) (sheet_of self.old)
            (sheet_of self.new) (answered result self.new.reason) }
    {
        if !self.begins_line() {
            return false;
        }
        self.sends_begun_byte(text)
    }

    /// The same of a text of any length that isn't empty.
    #[inline(never)]
    fn starts_line_by(&mut self, text: &str) -> bool
        requires fresh { (sheet_of self.old).refused ≡ false }
        requires start { (sheet_of self.old).at_line_start ≡ true }
        requires looked { is_in_line text.now ≡ true }
        requires some { 0 < length text.now }
        ensures { Reaches (written None text.now (sheet_of self.old)) (sheet_of self.old)
            (sheet_of self.new) (answered result self.new.reason) }
    {
        if !self.begins_line() {
            return false;
        }
        self.sends_begun(text)
    }

    /// Begins a line. Whether that was done: else `reason` says why not.
    #[inline(always)]
    fn begins_line(&mut self) -> bool
        requires fresh { (sheet_of self.old).refused ≡ false }
        requires start { (sheet_of self.old).at_line_start ≡ true }
        ensures { Reaches (started (sheet_of self.old)) (sheet_of self.old) (sheet_of self.new)
            (answered result self.new.reason) }
    {
        let answer = self.begin_line();
        self.notes_reason(answer)
    }

    /// Sends a text of one byte that stays in its line, in a line that has begun.
    #[inline(always)]
    fn sends_begun_byte(&mut self, text: &str) -> bool
        requires fresh { (sheet_of self.old).refused ≡ false }
        requires looked { is_in_line text.now ≡ true }
        requires length { length text.now ≡ 1 }
        ensures { Reaches (appended text.now (sheet_of self.old)) (sheet_of self.old)
            (sheet_of self.new) (answered result self.new.reason) }
    {
        if !self.plain {
            return self.sends_any(text);
        }
        self.sends_known::<1>(text)
    }

    /// The same of any length.
    #[inline(always)]
    fn sends_begun(&mut self, text: &str) -> bool
        requires fresh { (sheet_of self.old).refused ≡ false }
        requires looked { is_in_line text.now ≡ true }
        ensures { Reaches (appended text.now (sheet_of self.old)) (sheet_of self.old)
            (sheet_of self.new) (answered result self.new.reason) }
    {
        if !self.plain {
            return self.sends_any(text);
        }
        self.sends_known_by_length(text)
    }

    /// The same of a long one, or while lines are filled.
    #[inline(never)]
    fn sends_any(&mut self, text: &str) -> bool
        requires { (sheet_of self.old).refused ≡ false }
        ensures { Reaches (appended text.now (sheet_of self.old)) (sheet_of self.old)
            (sheet_of self.new) (answered result self.new.reason) }
    {
        let answer = self.send(text);
        self.notes_reason(answer)
    }

    /// Whether a call did what it was to do. Why it was refused is kept.
    #[inline(always)]
    #[tactic(auto, unfolding(crate::specs::View::sheet_of))]
    fn notes_reason(&mut self, answer: Answer) -> bool
        ensures answer { answer ≡ answered result self.new.reason }
        ensures same { sheet_of self.new ≡ sheet_of self.old }
    {
        match answer {
            Ok(()) => true,
            Err(refusal) => {
                self.reason = refusal;
                false
            }
        }
    }

    /// Sends a text of N bytes that stays in its line, where it is only sent.
    #[inline(always)]
    fn sends_known<const N: usize>(&mut self, text: &str) -> bool
        requires plain { self.old.plain ≡ true }
        requires looked { is_in_line text.now ≡ true }
        requires length { length text.now ≡ N }
        ensures { Reaches (appended text.now (sheet_of self.old)) (sheet_of self.old)
            (sheet_of self.new) (answered result self.new.reason) }
    {
        if self.sends_array::<N>(text) {
            return true;
        }
        self.reason = Refusal::Writer;
        false
    }

    /// The same of any length.
    #[inline(never)]
    fn sends_known_by_length(&mut self, text: &str) -> bool
        requires plain { self.old.plain ≡ true }
        requires looked { is_in_line text.now ≡ true }
        ensures { Reaches (appended text.now (sheet_of self.old)) (sheet_of self.old)
            (sheet_of self.new) (answered result self.new.reason) }
    {
        match text.len() {
            0 => true,
            1 => self.sends_known::<1>(text),
            2 => self.sends_known::<2>(text),
            3 => self.sends_known::<3>(text),
            4 => self.sends_known::<4>(text),
            5 => self.sends_known::<5>(text),
            6 => self.sends_known::<6>(text),
            7 => self.sends_known::<7>(text),
            8 => self.sends_known::<8>(text),
            9 => self.sends_known::<9>(text),
            10 => self.sends_known::<10>(text),
            11 => self.sends_known::<11>(text),
            12 => self.sends_known::<12>(text),
            13 => self.sends_known::<13>(text),
            14 => self.sends_known::<14>(text),
            15 => self.sends_known::<15>(text),
            16 => self.sends_known::<16>(text),
            _ => self.sends_any(text),
        }
    }

    /// Writes a literal: its start is recorded before the line begins.
    pub(super) fn literal(&mut self, span: Span, text: &str) -> Answer
        ensures { WritesLiteral span text.now (sheet_of self.old) (sheet_of self.new) result }
    {
        if self.is_bare() {
            return self.send_literal(span, text);
        }
        self.write_first_literal(span, text)
    }

    /// Whether a text is only sent, and no positions are kept.
    #[inline(always)]
    #[tactic(auto, unfolding(crate::specs::View::sheet_of))]
    fn is_bare(&self) -> bool
        ensures plain { result ≡ true → self.now.plain ≡ true }
        ensures bare { result ≡ true → (sheet_of self.now).keeps_positions ≡ false }
    {
        self.plain && !self.kept.is_kept()
    }

    /// Writes a literal that is only sent.
    #[inline(always)]
    fn send_literal(&mut self, span: Span, text: &str) -> Answer
        requires plain { self.old.plain ≡ true }
        requires bare { (sheet_of self.old).keeps_positions ≡ false }
        ensures { WritesLiteral span text.now (sheet_of self.old) (sheet_of self.new) result }
    {
        let _ = span;
        if text.is_empty() {
            return Ok(());
        }
        self.send_by_length(text)
    }

    /// The same at a line's start, where positions are kept, or after a refusal.
    #[inline(never)]
    fn write_first_literal(&mut self, span: Span, text: &str) -> Answer
        ensures { WritesLiteral span text.now (sheet_of self.old) (sheet_of self.new) result }
    {
        if self.failed {
            return Err(Refusal::Failed);
        }
        if text.is_empty() {
            return Ok(());
        }
        self.put_literal(span, text)
    }

    /// Writes the line's end, unless at a line's start. Mostly it is one byte, which is only sent.
    #[inline(always)]
    pub(super) fn end_line(&mut self) -> Answer
        ensures { WritesLine (sheet_of self.old) (sheet_of self.new) result }
    {
        let text = self.new_line;
        if !self.plain || text.len() != 1 {
            return self.end_any_line();
        }
        self.send_plainly::<1>(text)?;
        self.set_line_start();
        Ok(())
    }

    /// The same of any line: at a line's start the position that is pending is forgotten.
    #[inline(never)]
    fn end_any_line(&mut self) -> Answer
        ensures { WritesLine (sheet_of self.old) (sheet_of self.new) result }
    {
        if self.failed {
            return Err(Refusal::Failed);
        }
        if self.line_start {
            self.drop_pending();
            return Ok(());
        }
        self.send_line_end()?;
        self.set_line_start();
        Ok(())
    }

    /// Sends the line's end.
    #[inline(always)]
    #[tactic(auto, unfolding(crate::specs::View::sheet_of))]
    fn send_line_end(&mut self) -> Answer
        requires { (sheet_of self.old).refused ≡ false }
        ensures { Reaches (appended (sheet_of self.old).line_end (sheet_of self.old))
            (sheet_of self.old) (sheet_of self.new) result }
    {
        let text = self.new_line;
        self.send(text)
    }
}
