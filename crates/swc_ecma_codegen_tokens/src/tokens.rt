//! One call of the writer, and the blank that is due before it.
//!
//! What writes a token is inlined into the emitter's function of that name, which is not: the room for the error of a writer would be
//! part of the frames of nodes, which are there once for each level of a tree. So a token takes one call or two. What else calls the
//! writer is never inlined.

ghost use Rattle.std.specs.Prelude.{◌≡◌, None, OnOk, Option, [], ◌∷◌, true, false};
ghost use Rattle.std.specs.Str.{chars};
ghost use Rattle.swc_ecma_codegen_literals.specs.Punctuators.{spelling};
ghost use Rattle.swc_ecma_codegen_tokens.specs.Starts.{begins_letter, start_class};
ghost use Rattle.swc_ecma_codegen_text_writer.specs.Sheet.{Position, answered};
ghost use Rattle.swc_ecma_codegen_grammar.specs.GapRules.{fuses};
ghost use Rattle.swc_ecma_codegen_grammar.specs.Tokens as lexical;
ghost use Rattle.swc_ecma_codegen_tokens.specs.PreviousToken.{last_at};
ghost use Rattle.swc_ecma_codegen_tokens.specs.Run.{Does, step, Guard, Plain, Stays};
ghost use Rattle.swc_ecma_codegen_tokens.specs.Words.{bare_punct, bare_semi, keyword, word_operator, punct, placed_punct, formatting_space, commit_pending_semi, position, position_before};
ghost use Rattle.swc_ecma_codegen_tokens.specs.Written.{IsWord};
ghost use Rattle.swc_ecma_codegen_tokens.specs.Adds.{Adds};
ghost use Rattle.swc_ecma_codegen_tokens.specs.View.{state_of};

use crate::LowerEmitter;
use crate::previous::PreviousToken;
use crate::starts::StartClass;
use swc_ecma_codegen_common::{Answer, BytePos, Refusal, Span};
use swc_ecma_codegen_literals::Punctuator;
use swc_ecma_codegen_settings::config::Config;
use swc_ecma_codegen_text_writer::WriteJs;

impl LowerEmitter {
    /// Whether a punctuator doesn't go the shortest way: it is `!`, or a blank is due before it, as before the second `-` of `a - -b`, or
    /// an earlier call was refused.
    #[inline(always)]
    pub(crate) fn is_apart(&self, mark: Punctuator) -> bool {
        match mark {
            Punctuator::Bang => true,
            _ => !self.may_go_on(StartClass::of_mark(mark)),
        }
    }

    /// Writes a blank where the last token and `text`, which begins so, would fuse.
    #[inline(always)]
    #[tactic(auto, using(crate::proofs::Emission::Emitting::does_failed))]
    pub(crate) fn guard<W: WriteJs>(
        &mut self,
        cfg: &Config,
        wr: &mut W,
        text: &str,
        next: StartClass,
    ) -> Answer
        requires { start_class (chars text.now) ≡ next }
        ensures items { Does (step (Guard text.now)) (state_of cfg.now (W.sheet wr.old) self.old)
            (state_of cfg.now (W.sheet wr.new) self.new) result }
        ensures level { Stays (W.sheet wr.old) (W.sheet wr.new) result }
        ensures fresh { OnOk result (self.new.failed ≡ false) }
    {
        if self.may_go_on(next) {
            return Ok(());
        }
        if self.failed {
            return Err(Refusal::Failed);
        }
        self.put_blank(cfg, wr, text)
    }

    /// The call of the blank between the last token and `text`, which would fuse.
    #[inline(never)]
    fn put_blank<W: WriteJs>(&mut self, cfg: &Config, wr: &mut W, text: &str) -> Answer
        requires unfailed { self.old.failed ≡ false }
        requires due { fuses (last_at self.old.token.value) (chars text.now) ≡ true }
        ensures items { Does (step (Guard text.now)) (state_of cfg.now (W.sheet wr.old) self.old)
            (state_of cfg.now (W.sheet wr.new) self.new) result }
        ensures level { Stays (W.sheet wr.old) (W.sheet wr.new) result }
        ensures fresh { OnOk result (self.new.failed ≡ false) }
    {
        let _ = cfg;
        let _ = text;
        let answer = wr.write_space();
        self.settle(answer, PreviousToken::Separated)
    }

    /// The same before a punctuator.
    pub(crate) fn guard_mark<W: WriteJs>(
        &mut self,
        cfg: &Config,
        wr: &mut W,
        mark: Punctuator,
    ) -> Answer
        ensures items { Does (step (Guard (spelling mark)))
            (state_of cfg.now (W.sheet wr.old) self.old)
            (state_of cfg.now (W.sheet wr.new) self.new) result }
        ensures level { Stays (W.sheet wr.old) (W.sheet wr.new) result }
        ensures fresh { OnOk result (self.new.failed ≡ false) }
    {
        self.guard(cfg, wr, mark.as_str(), StartClass::of_mark(mark))
    }

    /// The same before a word of the grammar.
    #[tactic(auto, using(crate::proofs::Gaps::Starting::letter_start))]
    pub(crate) fn guard_word<W: WriteJs>(
        &mut self,
        cfg: &Config,
        wr: &mut W,
        word: &'static str,
    ) -> Answer
        requires { begins_letter word.now ≡ true }
        ensures items { Does (step (Guard word.now)) (state_of cfg.now (W.sheet wr.old) self.old)
            (state_of cfg.now (W.sheet wr.new) self.new) result }
        ensures level { Stays (W.sheet wr.old) (W.sheet wr.new) result }
        ensures fresh { OnOk result (self.new.failed ≡ false) }
    {
        self.guard(cfg, wr, word, StartClass::NameCharacter)
    }

    /// Writes a keyword.
    #[inline(always)]
    pub fn keyword<W: WriteJs>(
        &mut self,
        cfg: &Config,
        wr: &mut W,
        span: Option<Span>,
        word: &'static str,
    ) -> Answer
        requires { begins_letter word.now ≡ true }
        ensures items { Does (keyword span word.now) (state_of cfg.now (W.sheet wr.old) self.old)
            (state_of cfg.now (W.sheet wr.new) self.new) result }
        // The text reads as the tokens so far and this one, whatever follows that doesn't fuse.
        ensures reads { IsWord word.now → Adds (lexical.word word.now ∷ [])
            cfg.now (W.sheet wr.old) self.old (W.sheet wr.new) self.new result }
        ensures level { Stays (W.sheet wr.old) (W.sheet wr.new) result }
    {
        let done = self.writes_keyword(cfg, wr, span, word);
        self.answer(done)
    }

    /// Writes an operator that is a word, as `in`.
    #[inline(always)]
    #[tactic(auto, unfolding(crate::specs::Words::word_operator))]
    pub fn word_operator<W: WriteJs>(
        &mut self,
        cfg: &Config,
        wr: &mut W,
        text: &'static str,
    ) -> Answer
        requires { begins_letter text.now ≡ true }
        ensures items { Does (word_operator text.now) (state_of cfg.now (W.sheet wr.old) self.old)
            (state_of cfg.now (W.sheet wr.new) self.new) result }
        // The text reads as the tokens so far and this one, whatever follows that doesn't fuse.
        ensures reads { IsWord text.now → Adds (lexical.word text.now ∷ [])
            cfg.now (W.sheet wr.old) self.old (W.sheet wr.new) self.new result }
        ensures level { Stays (W.sheet wr.old) (W.sheet wr.new) result }
    {
        self.guard_word(cfg, wr, text)?;
        self.put_word_operator(cfg, wr, text)?;
        Ok(())
    }

    /// Writes a punctuator.
    #[inline(always)]
    pub fn punct<W: WriteJs>(&mut self, cfg: &Config, wr: &mut W, mark: Punctuator) -> Answer
        ensures items { Does (punct (spelling mark)) (state_of cfg.now (W.sheet wr.old) self.old)
            (state_of cfg.now (W.sheet wr.new) self.new) result }
        // The text reads as the tokens so far and this one, whatever follows that doesn't fuse.
        ensures reads { Adds (lexical.punctuator (spelling mark) ∷ [])
            cfg.now (W.sheet wr.old) self.old (W.sheet wr.new) self.new result }
        ensures level { Stays (W.sheet wr.old) (W.sheet wr.new) result }
    {
        let done = self.writes_punct(cfg, wr, mark);
        self.answer(done)
    }

    /// Writes a punctuator behind which no line may be ended, whichever it is: the `{` of `<a b={c}/>`.
    #[inline(always)]
    pub fn bare_punct<W: WriteJs>(&mut self, cfg: &Config, wr: &mut W, mark: Punctuator) -> Answer
        ensures items { Does (bare_punct (spelling mark))
            (state_of cfg.now (W.sheet wr.old) self.old)
            (state_of cfg.now (W.sheet wr.new) self.new) result }
        ensures reads { Adds (lexical.punctuator (spelling mark) ∷ [])
            cfg.now (W.sheet wr.old) self.old (W.sheet wr.new) self.new result }
        ensures level { Stays (W.sheet wr.old) (W.sheet wr.new) result }
    {
        let done = self.writes_bare_punct(cfg, wr, mark);
        self.answer(done)
    }

    /// Writes a punctuator, and records where it begins and ends.
    #[inline(always)]
    #[tactic(auto, unfolding(crate::specs::Words::placed_punct))]
    pub fn placed_punct<W: WriteJs>(
        &mut self,
        cfg: &Config,
        wr: &mut W,
        span: Span,
        mark: Punctuator,
    ) -> Answer
        ensures items { Does (placed_punct span (spelling mark))
            (state_of cfg.now (W.sheet wr.old) self.old)
            (state_of cfg.now (W.sheet wr.new) self.new) result }
        ensures reads { Adds (lexical.punctuator (spelling mark) ∷ [])
            cfg.now (W.sheet wr.old) self.old (W.sheet wr.new) self.new result }
        ensures level { Stays (W.sheet wr.old) (W.sheet wr.new) result }
    {
        self.guard_mark(cfg, wr, mark)?;
        self.put_placed_punct(cfg, wr, span, mark)?;
        Ok(())
    }

    /// Writes a semicolon behind which no line may be ended: that of a function without a body.
    #[inline(never)]
    pub fn bare_semi<W: WriteJs>(&mut self, cfg: &Config, wr: &mut W) -> Answer
        ensures items { Does (bare_semi) (state_of cfg.now (W.sheet wr.old) self.old)
            (state_of cfg.now (W.sheet wr.new) self.new) result }
        ensures reads { Adds (lexical.ending ∷ [])
            cfg.now (W.sheet wr.old) self.old (W.sheet wr.new) self.new result }
        ensures level { Stays (W.sheet wr.old) (W.sheet wr.new) result }
    {
        let done = self.writes_bare_semi(cfg, wr);
        self.answer(done)
    }

    /// Writes a semicolon that is held back. Where none is, that takes no call.
    #[inline(always)]
    pub fn commit_pending_semi<W: WriteJs>(&mut self, cfg: &Config, wr: &mut W) -> Answer
        ensures items { Does (commit_pending_semi) (state_of cfg.now (W.sheet wr.old) self.old)
            (state_of cfg.now (W.sheet wr.new) self.new) result }
        ensures level { Stays (W.sheet wr.old) (W.sheet wr.new) result }
    {
        self.put_pending_semi(cfg, wr)
    }

    /// The same, where it is called.
    #[inline(always)]
    pub(crate) fn put_pending_semi<W: WriteJs>(&mut self, cfg: &Config, wr: &mut W) -> Answer
        ensures items { Does (commit_pending_semi) (state_of cfg.now (W.sheet wr.old) self.old)
            (state_of cfg.now (W.sheet wr.new) self.new) result }
        ensures level { Stays (W.sheet wr.old) (W.sheet wr.new) result }
    {
        if wr.is_settled() {
            return Ok(());
        }
        if self.failed {
            return Err(Refusal::Failed);
        }
        self.call_pending_semi(cfg, wr)
    }

    /// The same where one may be held.
    #[inline(never)]
    fn call_pending_semi<W: WriteJs>(&mut self, cfg: &Config, wr: &mut W) -> Answer
        requires { self.old.failed ≡ false }
        ensures items { Does (commit_pending_semi) (state_of cfg.now (W.sheet wr.old) self.old)
            (state_of cfg.now (W.sheet wr.new) self.new) result }
        ensures level { Stays (W.sheet wr.old) (W.sheet wr.new) result }
    {
        let _ = cfg;
        let answer = wr.commit_pending_semi();
        self.keep(answer)
    }

    /// Records a position. A writer that keeps none isn't asked to.
    pub(crate) fn record<W: WriteJs>(&mut self, cfg: &Config, wr: &mut W, pos: BytePos) -> Answer
        ensures items { Does (step (Plain (Position pos)))
            (state_of cfg.now (W.sheet wr.old) self.old)
            (state_of cfg.now (W.sheet wr.new) self.new) result }
        ensures level { Stays (W.sheet wr.old) (W.sheet wr.new) result }
        ensures fresh { OnOk result (self.new.failed ≡ false) }
    {
        if self.failed {
            return Err(Refusal::Failed);
        }
        if !wr.care_about_srcmap() {
            return Ok(());
        }
        self.put_position(cfg, wr, pos)
    }

    /// The call of a position.
    #[inline(never)]
    fn put_position<W: WriteJs>(&mut self, cfg: &Config, wr: &mut W, pos: BytePos) -> Answer
        requires { self.old.failed ≡ false }
        ensures items { Does (step (Plain (Position pos)))
            (state_of cfg.now (W.sheet wr.old) self.old)
            (state_of cfg.now (W.sheet wr.new) self.new) result }
        ensures level { Stays (W.sheet wr.old) (W.sheet wr.new) result }
        ensures fresh { OnOk result (self.new.failed ≡ false) }
    {
        let _ = cfg;
        let answer = wr.add_srcmap(pos);
        self.keep(answer)
    }

    /// Writes a blank, unless the settings are to minify. Whether that was done: else `reason` says why not.
    #[inline(always)]
    #[tactic(auto, unfolding(crate::specs::Words::formatting_space), using(crate::proofs::Emission::Calls::skipped, crate::proofs::Emission::Calls::not_skipped))]
    pub fn writes_formatting_space<W: WriteJs>(&mut self, cfg: &Config, wr: &mut W) -> bool
        ensures items { Does formatting_space (state_of cfg.now (W.sheet wr.old) self.old)
            (state_of cfg.now (W.sheet wr.new) self.new) (answered result self.new.reason) }
        ensures level { Stays (W.sheet wr.old) (W.sheet wr.new) (answered result self.new.reason) }
    {
        if cfg.minify {
            return true;
        }
        self.writes_space(cfg, wr)
    }

    /// The same, with the reason.
    pub fn formatting_space<W: WriteJs>(&mut self, cfg: &Config, wr: &mut W) -> Answer
        ensures items { Does formatting_space (state_of cfg.now (W.sheet wr.old) self.old)
            (state_of cfg.now (W.sheet wr.new) self.new) result }
        ensures level { Stays (W.sheet wr.old) (W.sheet wr.new) result }
    {
        let done = self.writes_formatting_space(cfg, wr);
        self.answer(done)
    }

    /// Records a position, unless it is none.
    #[tactic(auto, unfolding(crate::specs::Words::position))]
    pub fn position<W: WriteJs>(&mut self, cfg: &Config, wr: &mut W, pos: BytePos) -> Answer
        ensures items { Does (position pos) (state_of cfg.now (W.sheet wr.old) self.old)
            (state_of cfg.now (W.sheet wr.new) self.new) result }
        ensures level { Stays (W.sheet wr.old) (W.sheet wr.new) result }
        ensures fresh { self.old.failed ≡ false → OnOk result (self.new.failed ≡ false) }
    {
        if pos.0 == 0 {
            return Ok(());
        }
        self.record(cfg, wr, pos)
    }

    /// Records the position before one, unless that one is none.
    #[tactic(auto, unfolding(crate::specs::Words::position_before))]
    pub fn position_before<W: WriteJs>(&mut self, cfg: &Config, wr: &mut W, pos: BytePos) -> Answer
        ensures items { Does (position_before pos) (state_of cfg.now (W.sheet wr.old) self.old)
            (state_of cfg.now (W.sheet wr.new) self.new) result }
        ensures level { Stays (W.sheet wr.old) (W.sheet wr.new) result }
    {
        if pos.0 == 0 {
            return Ok(());
        }
        self.record(cfg, wr, BytePos(pos.0 - 1))
    }
}
