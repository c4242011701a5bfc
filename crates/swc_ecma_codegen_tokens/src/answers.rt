//! What a call of the writer answered: the last token is noted, or the error of a refusal.

ghost use Rattle.std.specs.Prelude.{◌≡◌, OnOk, OnErr, true, false};
ghost use Rattle.swc_ecma_codegen_common.specs.Refusals.{in_short, reason_of};
ghost use Rattle.swc_ecma_codegen_text_writer.specs.Reach.{is_in_line};
ghost use Rattle.swc_ecma_codegen_text_writer.specs.Sheet.{Str, Writes, answered, is_settled};

use crate::LowerEmitter;
use crate::guard::{REFUSED, row};
use crate::previous::PreviousToken;
use std::mem::replace;
use std::snapshot::Snapshot;
use swc_ecma_codegen_common::{Answer, Error, Refusal, Result};
use swc_ecma_codegen_text_writer::WriteJs;

impl LowerEmitter {
    /// What a call of the writer that leaves the last token answered is passed on in short.
    pub(crate) fn keep(&mut self, answer: Result) -> Answer
        ensures same { result ≡ in_short answer }
        ensures token { self.new.token.value ≡ self.old.token.value }
        ensures ok { OnOk result (self.new.failed ≡ self.old.failed) }
        ensures err { OnErr result (self.new.failed ≡ true) }
    {
        match answer {
            Ok(()) => Ok(()),
            Err(error) => Err(self.give_up(error)),
        }
    }

    /// Notes the error that a call of the writer was refused with, and says it in short.
    #[cold]
    #[inline(never)]
    fn give_up(&mut self, error: Error) -> Refusal
        ensures same { result ≡ reason_of error }
        ensures token { self.new.token.value ≡ self.old.token.value }
        ensures failed { self.new.failed ≡ true }
    {
        let refusal = error.refusal();
        self.failed = true;
        self.row = REFUSED;
        self.fault = error.into_fault();
        refusal
    }

    /// What a call of the writer answered is noted, with the last token, and passed on in short.
    pub(crate) fn settle(&mut self, answer: Result, last: PreviousToken) -> Answer
        requires unfailed { self.old.failed ≡ false }
        ensures same { result ≡ in_short answer }
        ensures ok { OnOk result ((self.new.token.value ≡ last)
            × (self.new.failed ≡ self.old.failed)) }
        ensures err { OnErr result ((self.new.token.value ≡ self.old.token.value)
            × (self.new.failed ≡ true)) }
    {
        self.keep(answer)?;
        self.last = last.class();
        self.row = row(self.last);
        self.token = Snapshot::of(&last);
        Ok(())
    }

    /// Sends a text that stays in its line, after which this is the last token, where no semicolon is held back. Whether it was sent: else
    /// `reason` says why not.
    #[inline(always)]
    pub(crate) fn sends<W: WriteJs>(&mut self, wr: &mut W, text: &str, last: PreviousToken) -> bool
        requires unfailed { self.old.failed ≡ false }
        requires settled { (W.sheet wr.old).refused ≡ false →
            is_settled (W.sheet wr.old).semicolons ≡ true }
        requires in_line { is_in_line text.now ≡ true }
        ensures writes { Writes (Str text.now) (W.sheet wr.old) (W.sheet wr.new)
            (answered result self.new.reason) }
        ensures ok { OnOk (answered result self.new.reason) ((self.new.token.value ≡ last)
            × (self.new.failed ≡ self.old.failed)) }
        ensures err { OnErr (answered result self.new.reason) (
            (self.new.token.value ≡ self.old.token.value) × (self.new.failed ≡ true)) }
    {
        let before = self.note(last);
        if wr.writes_in_line(text) {
            return true;
        }
        self.give_up_sent(wr, before);
        false
    }

    /// Notes that a text wasn't sent, whose token was noted ahead, with the reason and the error that the writer keeps.
    #[cold]
    #[inline(never)]
    pub(crate) fn give_up_sent<W: WriteJs>(&mut self, wr: &mut W, before: Snapshot<PreviousToken>)
        ensures reason { self.new.reason ≡ W.reason wr.old }
        ensures sheet { W.sheet wr.new ≡ W.sheet wr.old }
        ensures token { self.new.token.value ≡ before.value }
        ensures failed { self.new.failed ≡ true }
    {
        let error = wr.take_reason();
        self.reason = self.give_up_noted(error, before);
    }

    /// The answer of a call that only says whether it was refused.
    #[inline(always)]
    pub(crate) fn answer(&self, done: bool) -> Answer
        ensures { result ≡ answered done self.now.reason }
    {
        if done { Ok(()) } else { Err(self.reason) }
    }

    /// Notes the last token ahead of the call that writes it, so that nothing of it is kept over that call, and answers which one
    /// it was before.
    pub(crate) fn note(&mut self, last: PreviousToken) -> Snapshot<PreviousToken>
        requires unfailed { self.old.failed ≡ false }
        ensures before { result.value ≡ self.old.token.value }
        ensures token { self.new.token.value ≡ last }
        ensures failed { self.new.failed ≡ self.old.failed }
    {
        self.last = last.class();
        self.row = row(self.last);
        replace(&mut self.token, Snapshot::of(&last))
    }

    /// Whether a call of the writer did what it was to do whose token was noted ahead: a refused one wrote no token, and `reason` says why.
    pub(crate) fn settles_noted(&mut self, answer: Result, before: Snapshot<PreviousToken>) -> bool
        ensures same { answered result self.new.reason ≡ in_short answer }
        ensures ok { OnOk (answered result self.new.reason) (
            (self.new.token.value ≡ self.old.token.value) × (self.new.failed ≡ self.old.failed)) }
        ensures err { OnErr (answered result self.new.reason) (
            (self.new.token.value ≡ before.value) × (self.new.failed ≡ true)) }
    {
        match answer {
            Ok(()) => true,
            Err(error) => {
                self.reason = self.give_up_noted(error, before);
                false
            }
        }
    }

    /// The same, passed on in short.
    pub(crate) fn settle_noted(&mut self, answer: Result, before: Snapshot<PreviousToken>) -> Answer
        ensures same { result ≡ in_short answer }
        ensures ok { OnOk result ((self.new.token.value ≡ self.old.token.value)
            × (self.new.failed ≡ self.old.failed)) }
        ensures err { OnErr result ((self.new.token.value ≡ before.value)
            × (self.new.failed ≡ true)) }
    {
        let done = self.settles_noted(answer, before);
        self.answer(done)
    }

    /// Notes the error that a call of the writer was refused with, whose token was noted ahead, and says it in short.
    #[cold]
    #[inline(never)]
    fn give_up_noted(&mut self, error: Error, before: Snapshot<PreviousToken>) -> Refusal
        ensures same { result ≡ reason_of error }
        ensures token { self.new.token.value ≡ before.value }
        ensures failed { self.new.failed ≡ true }
    {
        let refusal = self.give_up(error);
        self.token = before;
        refusal
    }
}
