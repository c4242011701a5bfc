//! Names.

ghost use Rattle.std.specs.Prelude.{◌≡◌, OnOk, false, true};
ghost use Rattle.std.specs.Str.{chars};
ghost use Rattle.swc_ecma_codegen_grammar.specs.GapRules.{fuses};
ghost use Rattle.swc_ecma_codegen_tokens.specs.PreviousToken.{last_at};
ghost use Rattle.swc_ecma_codegen_tokens.specs.Run.{Does, Stays};
ghost use Rattle.swc_ecma_codegen_tokens.specs.Targets.{wants_escapes};
ghost use Rattle.swc_ecma_codegen_tokens.specs.Words.{name_text, symbol, spelled_symbol, valid_symbol, question};
ghost use Rattle.swc_ecma_codegen_tokens.specs.View.{state_of};

use crate::LowerEmitter;
use crate::guard::REFUSED;
use crate::raws::is_ascii;
use crate::short_names::has_backslash;
use crate::starts::StartClass;
use swc_ecma_codegen_common::{Answer, Refusal, Span};
use swc_ecma_codegen_literals::{Punctuator, ascii_only_ident, valid_name};
use swc_ecma_codegen_settings::config::Config;
use swc_ecma_codegen_text_writer::WriteJs;

/// Whether a text of a name is made anew in ASCII.
#[tactic(auto, unfolding(crate::specs::Targets::wants_escapes))]
pub(crate) fn wants_escapes(cfg: &Config, text: &str) -> bool
    ensures { result ≡ wants_escapes cfg.now text.now }
{
    cfg.ascii_only && !is_ascii(text)
}

impl LowerEmitter {
    /// Writes a name by a text, and records its position. Mostly no blank is due before it.
    #[inline(always)]
    pub(crate) fn symbol<W: WriteJs>(
        &mut self,
        cfg: &Config,
        wr: &mut W,
        span: Span,
        text: &str,
    ) -> Answer
        ensures items { Does (symbol span text.now) (state_of cfg.now (W.sheet wr.old) self.old)
            (state_of cfg.now (W.sheet wr.new) self.new) result }
        ensures level { Stays (W.sheet wr.old) (W.sheet wr.new) result }
    {
        if !self.may_follow(text) {
            return self.symbol_apart(cfg, wr, span, text);
        }
        self.symbol_here(cfg, wr, span, text)
    }

    /// Whether a text may follow without a blank. Behind a blank and most punctuators every text may, so it isn't looked at.
    #[inline(always)]
    fn may_follow(&self, text: &str) -> bool
        ensures unfailed { result ≡ true → self.now.failed ≡ false }
        ensures passes { result ≡ true →
            fuses (last_at self.now.token.value) (chars text.now) ≡ false }
    {
        if self.may_go_on_anyhow() {
            return true;
        }
        self.may_go_on(StartClass::of_text(text))
    }

    /// The same whatever is due before it, in a function of its own: a name before which nothing is due takes fewer registers.
    #[inline(never)]
    #[tactic(auto, unfolding(crate::specs::Words::symbol))]
    fn symbol_apart<W: WriteJs>(
        &mut self,
        cfg: &Config,
        wr: &mut W,
        span: Span,
        text: &str,
    ) -> Answer
        ensures items { Does (symbol span text.now) (state_of cfg.now (W.sheet wr.old) self.old)
            (state_of cfg.now (W.sheet wr.new) self.new) result }
        ensures level { Stays (W.sheet wr.old) (W.sheet wr.new) result }
    {
        self.guard(cfg, wr, text, StartClass::of_text(text))?;
        self.position(cfg, wr, span.lo)?;
        self.put_symbol(cfg, wr, text)?;
        Ok(())
    }

    /// The same where nothing is due.
    #[inline(always)]
    fn symbol_here<W: WriteJs>(
        &mut self,
        cfg: &Config,
        wr: &mut W,
        span: Span,
        text: &str,
    ) -> Answer
        requires unfailed { self.old.failed ≡ false }
        requires passes { fuses (last_at self.old.token.value) (chars text.now) ≡ false }
        ensures items { Does (symbol span text.now) (state_of cfg.now (W.sheet wr.old) self.old)
            (state_of cfg.now (W.sheet wr.new) self.new) result }
        ensures level { Stays (W.sheet wr.old) (W.sheet wr.new) result }
    {
        match self.position(cfg, wr, span.lo) {
            Ok(()) => (),
            Err(refusal) => return Err(refusal),
        }
        self.put_symbol(cfg, wr, text)
    }

    /// Writes a name by a text that isn't ASCII, in ASCII.
    #[inline(never)]
    fn ascii_symbol<W: WriteJs>(
        &mut self,
        cfg: &Config,
        wr: &mut W,
        span: Span,
        text: &str,
    ) -> Answer
        requires { wants_escapes cfg.now text.now ≡ true }
        ensures items { Does (spelled_symbol span text.now)
            (state_of cfg.now (W.sheet wr.old) self.old)
            (state_of cfg.now (W.sheet wr.new) self.new) result }
        ensures level { Stays (W.sheet wr.old) (W.sheet wr.new) result }
    {
        if self.failed {
            return Err(Refusal::Failed);
        }
        match ascii_only_ident(self.alloc, text, false, cfg.target) {
            Ok(name) => self.symbol(cfg, wr, span, &name),
            Err(error) => {
                self.failed = true;
                self.row = REFUSED;
                Err(error.refusal())
            }
        }
    }

    /// Writes a name by a text, which is escaped where the settings ask for ASCII.
    #[inline(always)]
    fn spelled_symbol<W: WriteJs>(
        &mut self,
        cfg: &Config,
        wr: &mut W,
        span: Span,
        text: &str,
    ) -> Answer
        ensures items { Does (spelled_symbol span text.now)
            (state_of cfg.now (W.sheet wr.old) self.old)
            (state_of cfg.now (W.sheet wr.new) self.new) result }
        ensures level { Stays (W.sheet wr.old) (W.sheet wr.new) result }
    {
        if wants_escapes(cfg, text) {
            return self.ascii_symbol(cfg, wr, span, text);
        }
        self.symbol(cfg, wr, span, text)
    }

    /// Writes a name in which U+0000 after a backslash is left out.
    #[inline(always)]
    #[tactic(auto, unfolding(crate::specs::Words::valid_symbol))]
    fn valid_symbol<W: WriteJs>(
        &mut self,
        cfg: &Config,
        wr: &mut W,
        span: Span,
        name: &str,
    ) -> Answer
        ensures items { Does (valid_symbol span name.now)
            (state_of cfg.now (W.sheet wr.old) self.old)
            (state_of cfg.now (W.sheet wr.new) self.new) result }
        ensures level { Stays (W.sheet wr.old) (W.sheet wr.new) result }
    {
        if !has_backslash(name) {
            return self.spelled_symbol(cfg, wr, span, name);
        }
        self.mended_symbol(cfg, wr, span, name)
    }

    /// The same of a name that may hold a backslash.
    #[inline(never)]
    #[tactic(auto, unfolding(crate::specs::Words::valid_symbol))]
    fn mended_symbol<W: WriteJs>(
        &mut self,
        cfg: &Config,
        wr: &mut W,
        span: Span,
        name: &str,
    ) -> Answer
        ensures items { Does (valid_symbol span name.now)
            (state_of cfg.now (W.sheet wr.old) self.old)
            (state_of cfg.now (W.sheet wr.new) self.new) result }
        ensures level { Stays (W.sheet wr.old) (W.sheet wr.new) result }
    {
        if self.failed {
            return Err(Refusal::Failed);
        }
        match valid_name(self.alloc, name) {
            Ok(text) => self.spelled_symbol(cfg, wr, span, &text),
            Err(error) => {
                self.failed = true;
                self.row = REFUSED;
                Err(error.refusal())
            }
        }
    }

    /// Writes the text of a name, as the writer takes names.
    #[inline(always)]
    #[tactic(auto, unfolding(crate::specs::Words::name_text))]
    pub(crate) fn name_text<W: WriteJs>(
        &mut self,
        cfg: &Config,
        wr: &mut W,
        span: Span,
        sym: &str,
    ) -> Answer
        ensures items { Does (name_text span sym.now) (state_of cfg.now (W.sheet wr.old) self.old)
            (state_of cfg.now (W.sheet wr.new) self.new) result }
        ensures level { Stays (W.sheet wr.old) (W.sheet wr.new) result }
    {
        if wr.can_ignore_invalid_unicodes() {
            return self.spelled_symbol(cfg, wr, span, sym);
        }
        self.valid_symbol(cfg, wr, span, sym)
    }

    /// Writes `?` after an optional name.
    #[tactic(auto, unfolding(crate::specs::Words::question))]
    pub(crate) fn question<W: WriteJs>(
        &mut self,
        cfg: &Config,
        wr: &mut W,
        optional: bool,
    ) -> Answer
        ensures items { Does (question optional) (state_of cfg.now (W.sheet wr.old) self.old)
            (state_of cfg.now (W.sheet wr.new) self.new) result }
        ensures level { Stays (W.sheet wr.old) (W.sheet wr.new) result }
    {
        if optional {
            let done = self.writes_punct_apart(cfg, wr, Punctuator::Question);
            return self.answer(done);
        }
        Ok(())
    }
}
