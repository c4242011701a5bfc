//! The calls of the writer that write a token. Where no semicolon is held back, a text that stays in its line goes by a call whose answer is
//! short; else it goes by the call of its kind, in a function of its own, which has the room for the error of a writer.

ghost use Rattle.std.specs.Prelude.{◌≡◌, Some, None, false, true};
ghost use Rattle.swc_ecma_codegen_literals.specs.Punctuators.{spelling};
ghost use Rattle.swc_ecma_codegen_spans.specs.Spans.{dummy_span};
ghost use Rattle.swc_ecma_codegen_text_writer.specs.Reach.{is_in_line};
ghost use Rattle.swc_ecma_codegen_text_writer.specs.Sheet.{Semi, Keyword, Operator, Symbol, Punct, answered, holds_semicolons, is_settled};
ghost use Rattle.swc_ecma_codegen_grammar.specs.declared.kinds.Kind.TheVariants as kind;
ghost use Rattle.swc_ecma_codegen_tokens.specs.Run.{Does, step, Token, Stays};
ghost use Rattle.swc_ecma_codegen_tokens.specs.Words.{space};
ghost use Rattle.swc_ecma_codegen_tokens.specs.View.{state_of};

use crate::LowerEmitter;
use crate::previous::PreviousToken;
use swc_ecma_codegen_common::{Answer, DUMMY_SP, Refusal, Span};
use swc_ecma_codegen_literals::Punctuator;
use swc_ecma_codegen_settings::config::Config;
use swc_ecma_codegen_text_writer::{WriteJs, is_in_line};

impl LowerEmitter {
    /// The call of an operator that is a punctuator. Whether it was written: else `reason` says why not.
    #[inline(always)]
    pub(crate) fn puts_operator<W: WriteJs>(
        &mut self,
        cfg: &Config,
        wr: &mut W,
        mark: Punctuator,
    ) -> bool
        requires { self.old.failed ≡ false }
        ensures items { Does (step (Token kind.Punctuator (Operator None (spelling mark))))
            (state_of cfg.now (W.sheet wr.old) self.old)
            (state_of cfg.now (W.sheet wr.new) self.new) (answered result self.new.reason) }
        ensures level { Stays (W.sheet wr.old) (W.sheet wr.new) (answered result self.new.reason) }
    {
        if !wr.is_settled() {
            return self.call_operator(cfg, wr, mark);
        }
        self.sends_operator(cfg, wr, mark)
    }

    /// The same in a function of its own, which has the room for an error.
    #[inline(never)]
    fn call_operator<W: WriteJs>(&mut self, cfg: &Config, wr: &mut W, mark: Punctuator) -> bool
        requires { self.old.failed ≡ false }
        ensures items { Does (step (Token kind.Punctuator (Operator None (spelling mark))))
            (state_of cfg.now (W.sheet wr.old) self.old)
            (state_of cfg.now (W.sheet wr.new) self.new) (answered result self.new.reason) }
        ensures level { Stays (W.sheet wr.old) (W.sheet wr.new) (answered result self.new.reason) }
    {
        let _ = cfg;
        let last = PreviousToken::after(self.last, mark);
        let before = self.note(last);
        let answer = wr.write_operator(None, mark.as_str());
        self.settles_noted(answer, before)
    }

    /// The same where no semicolon is held back.
    #[inline(always)]
    fn sends_operator<W: WriteJs>(&mut self, cfg: &Config, wr: &mut W, mark: Punctuator) -> bool
        requires unfailed { self.old.failed ≡ false }
        requires settled { is_settled (W.sheet wr.old).semicolons ≡ true }
        ensures items { Does (step (Token kind.Punctuator (Operator None (spelling mark))))
            (state_of cfg.now (W.sheet wr.old) self.old)
            (state_of cfg.now (W.sheet wr.new) self.new) (answered result self.new.reason) }
        ensures level { Stays (W.sheet wr.old) (W.sheet wr.new) (answered result self.new.reason) }
    {
        let _ = cfg;
        let last = PreviousToken::after(self.last, mark);
        self.sends(wr, mark.as_str(), last)
    }

    /// The call of an operator that is a word. Whether it was written: else `reason` says why not.
    #[inline(always)]
    pub(crate) fn puts_word_operator<W: WriteJs>(
        &mut self,
        cfg: &Config,
        wr: &mut W,
        text: &'static str,
    ) -> bool
        requires { self.old.failed ≡ false }
        ensures items { Does (step (Token kind.Word (Operator None text.now)))
            (state_of cfg.now (W.sheet wr.old) self.old)
            (state_of cfg.now (W.sheet wr.new) self.new) (answered result self.new.reason) }
        ensures level { Stays (W.sheet wr.old) (W.sheet wr.new) (answered result self.new.reason) }
    {
        if !wr.is_settled() || !is_in_line(text.as_bytes()) {
            return self.call_word_operator(cfg, wr, text);
        }
        self.sends_word_operator(cfg, wr, text)
    }

    /// The same, with the reason.
    #[inline(always)]
    pub(crate) fn put_word_operator<W: WriteJs>(
        &mut self,
        cfg: &Config,
        wr: &mut W,
        text: &'static str,
    ) -> Answer
        requires { self.old.failed ≡ false }
        ensures items { Does (step (Token kind.Word (Operator None text.now)))
            (state_of cfg.now (W.sheet wr.old) self.old)
            (state_of cfg.now (W.sheet wr.new) self.new) result }
        ensures level { Stays (W.sheet wr.old) (W.sheet wr.new) result }
    {
        let done = self.puts_word_operator(cfg, wr, text);
        self.answer(done)
    }

    /// The same in a function of its own, which has the room for an error.
    #[inline(never)]
    fn call_word_operator<W: WriteJs>(
        &mut self,
        cfg: &Config,
        wr: &mut W,
        text: &'static str,
    ) -> bool
        requires { self.old.failed ≡ false }
        ensures items { Does (step (Token kind.Word (Operator None text.now)))
            (state_of cfg.now (W.sheet wr.old) self.old)
            (state_of cfg.now (W.sheet wr.new) self.new) (answered result self.new.reason) }
        ensures level { Stays (W.sheet wr.old) (W.sheet wr.new) (answered result self.new.reason) }
    {
        let _ = cfg;
        let last = PreviousToken::WordEnd;
        let before = self.note(last);
        let answer = wr.write_operator(None, text);
        self.settles_noted(answer, before)
    }

    /// The same of a text that stays in its line, where no semicolon is held back.
    #[inline(always)]
    fn sends_word_operator<W: WriteJs>(
        &mut self,
        cfg: &Config,
        wr: &mut W,
        text: &'static str,
    ) -> bool
        requires unfailed { self.old.failed ≡ false }
        requires settled { is_settled (W.sheet wr.old).semicolons ≡ true }
        requires in_line { is_in_line text.now ≡ true }
        ensures items { Does (step (Token kind.Word (Operator None text.now)))
            (state_of cfg.now (W.sheet wr.old) self.old)
            (state_of cfg.now (W.sheet wr.new) self.new) (answered result self.new.reason) }
        ensures level { Stays (W.sheet wr.old) (W.sheet wr.new) (answered result self.new.reason) }
    {
        let _ = cfg;
        let last = PreviousToken::WordEnd;
        self.sends(wr, text, last)
    }

    /// The call of a semicolon. Whether it was written: else `reason` says why not.
    #[inline(always)]
    pub(crate) fn puts_semi<W: WriteJs>(&mut self, cfg: &Config, wr: &mut W) -> bool
        requires { self.old.failed ≡ false }
        ensures items { Does (step (Token kind.Ending (Semi None)))
            (state_of cfg.now (W.sheet wr.old) self.old)
            (state_of cfg.now (W.sheet wr.new) self.new) (answered result self.new.reason) }
        ensures level { Stays (W.sheet wr.old) (W.sheet wr.new) (answered result self.new.reason) }
    {
        if wr.holds_semi() || !wr.is_settled() {
            return self.call_semi(cfg, wr);
        }
        self.sends_semi(cfg, wr)
    }

    /// The same in a function of its own, which has the room for an error.
    #[inline(never)]
    fn call_semi<W: WriteJs>(&mut self, cfg: &Config, wr: &mut W) -> bool
        requires { self.old.failed ≡ false }
        ensures items { Does (step (Token kind.Ending (Semi None)))
            (state_of cfg.now (W.sheet wr.old) self.old)
            (state_of cfg.now (W.sheet wr.new) self.new) (answered result self.new.reason) }
        ensures level { Stays (W.sheet wr.old) (W.sheet wr.new) (answered result self.new.reason) }
    {
        let _ = cfg;
        let last = PreviousToken::after(self.last, Punctuator::Semicolon);
        let before = self.note(last);
        let answer = wr.write_semi(None);
        self.settles_noted(answer, before)
    }

    /// The same where semicolons are written at once.
    #[inline(always)]
    fn sends_semi<W: WriteJs>(&mut self, cfg: &Config, wr: &mut W) -> bool
        requires unfailed { self.old.failed ≡ false }
        requires settled { is_settled (W.sheet wr.old).semicolons ≡ true }
        requires at_once { holds_semicolons (W.sheet wr.old).semicolons ≡ false }
        ensures items { Does (step (Token kind.Ending (Semi None)))
            (state_of cfg.now (W.sheet wr.old) self.old)
            (state_of cfg.now (W.sheet wr.new) self.new) (answered result self.new.reason) }
        ensures level { Stays (W.sheet wr.old) (W.sheet wr.new) (answered result self.new.reason) }
    {
        let _ = cfg;
        let last = PreviousToken::after(self.last, Punctuator::Semicolon);
        self.sends(wr, ";", last)
    }

    /// The call of a name that stays in its line. Whether it was written: else `reason` says why not.
    #[inline(always)]
    pub(crate) fn puts_known_symbol<W: WriteJs>(
        &mut self,
        cfg: &Config,
        wr: &mut W,
        text: &str,
    ) -> bool
        requires unfailed { self.old.failed ≡ false }
        requires in_line { is_in_line text.now ≡ true }
        ensures items { Does (step (Token kind.Name (Symbol dummy_span text.now)))
            (state_of cfg.now (W.sheet wr.old) self.old)
            (state_of cfg.now (W.sheet wr.new) self.new) (answered result self.new.reason) }
        ensures level { Stays (W.sheet wr.old) (W.sheet wr.new) (answered result self.new.reason) }
    {
        if !wr.is_settled() {
            return self.call_symbol(cfg, wr, text);
        }
        self.sends_symbol(cfg, wr, text)
    }

    /// The call of any name, with the reason.
    #[inline(always)]
    pub(crate) fn put_symbol<W: WriteJs>(&mut self, cfg: &Config, wr: &mut W, text: &str) -> Answer
        requires { self.old.failed ≡ false }
        ensures items { Does (step (Token kind.Name (Symbol dummy_span text.now)))
            (state_of cfg.now (W.sheet wr.old) self.old)
            (state_of cfg.now (W.sheet wr.new) self.new) result }
        ensures level { Stays (W.sheet wr.old) (W.sheet wr.new) result }
    {
        let done = self.call_symbol(cfg, wr, text);
        self.answer(done)
    }

    /// The same in a function of its own, which has the room for an error.
    #[inline(never)]
    fn call_symbol<W: WriteJs>(&mut self, cfg: &Config, wr: &mut W, text: &str) -> bool
        requires { self.old.failed ≡ false }
        ensures items { Does (step (Token kind.Name (Symbol dummy_span text.now)))
            (state_of cfg.now (W.sheet wr.old) self.old)
            (state_of cfg.now (W.sheet wr.new) self.new) (answered result self.new.reason) }
        ensures level { Stays (W.sheet wr.old) (W.sheet wr.new) (answered result self.new.reason) }
    {
        let _ = cfg;
        let last = PreviousToken::WordEnd;
        let before = self.note(last);
        let answer = wr.write_symbol(DUMMY_SP, text);
        self.settles_noted(answer, before)
    }

    /// The same of a text that stays in its line, where no semicolon is held back.
    #[inline(always)]
    pub(crate) fn sends_symbol<W: WriteJs>(&mut self, cfg: &Config, wr: &mut W, text: &str) -> bool
        requires unfailed { self.old.failed ≡ false }
        requires settled { is_settled (W.sheet wr.old).semicolons ≡ true }
        requires in_line { is_in_line text.now ≡ true }
        ensures items { Does (step (Token kind.Name (Symbol dummy_span text.now)))
            (state_of cfg.now (W.sheet wr.old) self.old)
            (state_of cfg.now (W.sheet wr.new) self.new) (answered result self.new.reason) }
        ensures level { Stays (W.sheet wr.old) (W.sheet wr.new) (answered result self.new.reason) }
    {
        let _ = cfg;
        let last = PreviousToken::WordEnd;
        self.sends(wr, text, last)
    }

    /// The call of a punctuator without a span. Whether it was written: else `reason` says why not.
    #[inline(always)]
    pub(crate) fn puts_punct<W: WriteJs>(
        &mut self,
        cfg: &Config,
        wr: &mut W,
        mark: Punctuator,
    ) -> bool
        requires { self.old.failed ≡ false }
        ensures items { Does (step (Token kind.Punctuator (Punct None (spelling mark))))
            (state_of cfg.now (W.sheet wr.old) self.old)
            (state_of cfg.now (W.sheet wr.new) self.new) (answered result self.new.reason) }
        ensures level { Stays (W.sheet wr.old) (W.sheet wr.new) (answered result self.new.reason) }
    {
        if !wr.is_settled() {
            return self.call_punct(cfg, wr, None, mark);
        }
        self.sends_punct(cfg, wr, mark)
    }

    /// The same with a span, in a function of its own, which has the room for an error.
    #[inline(never)]
    fn call_punct<W: WriteJs>(
        &mut self,
        cfg: &Config,
        wr: &mut W,
        span: Option<Span>,
        mark: Punctuator,
    ) -> bool
        requires { self.old.failed ≡ false }
        ensures items { Does (step (Token kind.Punctuator (Punct span (spelling mark))))
            (state_of cfg.now (W.sheet wr.old) self.old)
            (state_of cfg.now (W.sheet wr.new) self.new) (answered result self.new.reason) }
        ensures level { Stays (W.sheet wr.old) (W.sheet wr.new) (answered result self.new.reason) }
    {
        let _ = cfg;
        let last = PreviousToken::after(self.last, mark);
        let before = self.note(last);
        let answer = wr.write_punct(span, mark.as_str());
        self.settles_noted(answer, before)
    }

    /// The same, with the reason.
    #[inline(always)]
    pub(crate) fn put_placed_punct<W: WriteJs>(
        &mut self,
        cfg: &Config,
        wr: &mut W,
        span: Span,
        mark: Punctuator,
    ) -> Answer
        requires { self.old.failed ≡ false }
        ensures items { Does (step (Token kind.Punctuator (Punct (Some span) (spelling mark))))
            (state_of cfg.now (W.sheet wr.old) self.old)
            (state_of cfg.now (W.sheet wr.new) self.new) result }
        ensures level { Stays (W.sheet wr.old) (W.sheet wr.new) result }
    {
        let done = self.call_punct(cfg, wr, Some(span), mark);
        self.answer(done)
    }

    /// The same without a span, where no semicolon is held back.
    #[inline(always)]
    fn sends_punct<W: WriteJs>(&mut self, cfg: &Config, wr: &mut W, mark: Punctuator) -> bool
        requires unfailed { self.old.failed ≡ false }
        requires settled { is_settled (W.sheet wr.old).semicolons ≡ true }
        ensures items { Does (step (Token kind.Punctuator (Punct None (spelling mark))))
            (state_of cfg.now (W.sheet wr.old) self.old)
            (state_of cfg.now (W.sheet wr.new) self.new) (answered result self.new.reason) }
        ensures level { Stays (W.sheet wr.old) (W.sheet wr.new) (answered result self.new.reason) }
    {
        let _ = cfg;
        let last = PreviousToken::after(self.last, mark);
        self.sends(wr, mark.as_str(), last)
    }

    /// The call of a keyword without a span. Whether it was written: else `reason` says why not.
    #[inline(always)]
    pub(crate) fn puts_keyword<W: WriteJs>(
        &mut self,
        cfg: &Config,
        wr: &mut W,
        text: &'static str,
    ) -> bool
        requires { self.old.failed ≡ false }
        ensures items { Does (step (Token kind.Word (Keyword None text.now)))
            (state_of cfg.now (W.sheet wr.old) self.old)
            (state_of cfg.now (W.sheet wr.new) self.new) (answered result self.new.reason) }
        ensures level { Stays (W.sheet wr.old) (W.sheet wr.new) (answered result self.new.reason) }
    {
        if !wr.is_settled() || !is_in_line(text.as_bytes()) {
            return self.call_keyword(cfg, wr, None, text);
        }
        self.sends_keyword(cfg, wr, text)
    }

    /// The same with a span, in a function of its own, which has the room for an error.
    #[inline(never)]
    pub(crate) fn call_keyword<W: WriteJs>(
        &mut self,
        cfg: &Config,
        wr: &mut W,
        span: Option<Span>,
        text: &'static str,
    ) -> bool
        requires { self.old.failed ≡ false }
        ensures items { Does (step (Token kind.Word (Keyword span text.now)))
            (state_of cfg.now (W.sheet wr.old) self.old)
            (state_of cfg.now (W.sheet wr.new) self.new) (answered result self.new.reason) }
        ensures level { Stays (W.sheet wr.old) (W.sheet wr.new) (answered result self.new.reason) }
    {
        let _ = cfg;
        let last = PreviousToken::WordEnd;
        let before = self.note(last);
        let answer = wr.write_keyword(span, text);
        self.settles_noted(answer, before)
    }

    /// The same without a span, of a text that stays in its line, where no semicolon is held back.
    #[inline(always)]
    fn sends_keyword<W: WriteJs>(&mut self, cfg: &Config, wr: &mut W, text: &'static str) -> bool
        requires unfailed { self.old.failed ≡ false }
        requires settled { is_settled (W.sheet wr.old).semicolons ≡ true }
        requires in_line { is_in_line text.now ≡ true }
        ensures items { Does (step (Token kind.Word (Keyword None text.now)))
            (state_of cfg.now (W.sheet wr.old) self.old)
            (state_of cfg.now (W.sheet wr.new) self.new) (answered result self.new.reason) }
        ensures level { Stays (W.sheet wr.old) (W.sheet wr.new) (answered result self.new.reason) }
    {
        let _ = cfg;
        let last = PreviousToken::WordEnd;
        self.sends(wr, text, last)
    }

    /// The call of a blank. Whether it was written: else `reason` says why not.
    #[inline(always)]
    pub(crate) fn puts_space<W: WriteJs>(&mut self, cfg: &Config, wr: &mut W) -> bool
        ensures items { Does (space) (state_of cfg.now (W.sheet wr.old) self.old)
            (state_of cfg.now (W.sheet wr.new) self.new) (answered result self.new.reason) }
        ensures level { Stays (W.sheet wr.old) (W.sheet wr.new) (answered result self.new.reason) }
    {
        if self.failed {
            self.reason = Refusal::Failed;
            return false;
        }
        if !wr.is_settled() {
            return self.call_space(cfg, wr);
        }
        self.sends_space(cfg, wr)
    }

    /// The same in a function of its own, which has the room for an error.
    #[inline(never)]
    fn call_space<W: WriteJs>(&mut self, cfg: &Config, wr: &mut W) -> bool
        requires { self.old.failed ≡ false }
        ensures items { Does (space) (state_of cfg.now (W.sheet wr.old) self.old)
            (state_of cfg.now (W.sheet wr.new) self.new) (answered result self.new.reason) }
        ensures level { Stays (W.sheet wr.old) (W.sheet wr.new) (answered result self.new.reason) }
    {
        let _ = cfg;
        let before = self.note(PreviousToken::Separated);
        let answer = wr.write_space();
        self.settles_noted(answer, before)
    }

    /// The same where no semicolon is held back.
    #[inline(always)]
    fn sends_space<W: WriteJs>(&mut self, cfg: &Config, wr: &mut W) -> bool
        requires unfailed { self.old.failed ≡ false }
        requires settled { is_settled (W.sheet wr.old).semicolons ≡ true }
        ensures items { Does (space) (state_of cfg.now (W.sheet wr.old) self.old)
            (state_of cfg.now (W.sheet wr.new) self.new) (answered result self.new.reason) }
        ensures level { Stays (W.sheet wr.old) (W.sheet wr.new) (answered result self.new.reason) }
    {
        let _ = cfg;
        self.sends(wr, " ", PreviousToken::Separated)
    }
}
