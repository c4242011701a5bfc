//! Line ends, lines of a greatest length, and where those may be ended.

ghost use Rattle.std.specs.Prelude.{◌≡◌, ◌&&◌, is_some};
ghost use Rattle.swc_ecma_codegen_literals.specs.Punctuators.{spelling};
ghost use Rattle.swc_ecma_codegen_text_writer.specs.Sheet.{AllowBreak, answered};
ghost use Rattle.swc_ecma_codegen_tokens.specs.Run.{Does, step, Plain, Stays};
ghost use Rattle.swc_ecma_codegen_tokens.specs.Words.{formatting_line, line_end, begin_lines, end_lines, allow_break, allows_break, break_behind};
ghost use Rattle.swc_ecma_codegen_tokens.specs.View.{state_of};

use crate::LowerEmitter;
use crate::previous::PreviousToken;
use swc_ecma_codegen_common::{Answer, Refusal};
use swc_ecma_codegen_literals::Punctuator;
use swc_ecma_codegen_settings::config::Config;
use swc_ecma_codegen_text_writer::WriteJs;

/// Whether lines are bounded: there is a greatest length, and the settings are to minify.
#[inline(always)]
pub(crate) fn is_bounded(cfg: &Config) -> bool
    ensures { result ≡ is_some cfg.now.max_line && cfg.now.minify }
{
    cfg.max_line.is_some() && cfg.minify
}

/// Whether a line may be ended behind a punctuator.
#[inline(always)]
#[tactic(auto, unfolding(swc_ecma_codegen_literals::specs::Punctuators::spelling))]
pub(crate) fn allows_break(mark: Punctuator) -> bool
    ensures { result ≡ allows_break (spelling mark) }
{
    matches!(
        mark,
        Punctuator::LeftParenthesis
            | Punctuator::Comma
            | Punctuator::Semicolon
            | Punctuator::LeftBracket
            | Punctuator::LeftBrace
    )
}

impl LowerEmitter {
    /// Ends the line, unless at a line's start. Whether that was done: else `reason` says why not.
    #[inline(never)]
    pub fn writes_line<W: WriteJs>(&mut self, cfg: &Config, wr: &mut W) -> bool
        ensures items { Does (line_end) (state_of cfg.now (W.sheet wr.old) self.old)
            (state_of cfg.now (W.sheet wr.new) self.new) (answered result self.new.reason) }
        ensures level { Stays (W.sheet wr.old) (W.sheet wr.new) (answered result self.new.reason) }
    {
        let _ = cfg;
        if self.failed {
            self.reason = Refusal::Failed;
            return false;
        }
        let before = self.note(PreviousToken::Separated);
        let answer = wr.write_line();
        self.settles_noted(answer, before)
    }

    /// The same, with the reason.
    #[inline(always)]
    pub fn line<W: WriteJs>(&mut self, cfg: &Config, wr: &mut W) -> Answer
        ensures items { Does (line_end) (state_of cfg.now (W.sheet wr.old) self.old)
            (state_of cfg.now (W.sheet wr.new) self.new) result }
        ensures level { Stays (W.sheet wr.old) (W.sheet wr.new) result }
    {
        let done = self.writes_line(cfg, wr);
        self.answer(done)
    }

    /// From here on lines have at most `max` UTF-16 units, as far as breaks are allowed.
    #[inline(never)]
    pub fn begin_lines<W: WriteJs>(&mut self, cfg: &Config, wr: &mut W, max: u32) -> Answer
        ensures items { Does (begin_lines max) (state_of cfg.now (W.sheet wr.old) self.old)
            (state_of cfg.now (W.sheet wr.new) self.new) result }
        ensures level { Stays (W.sheet wr.old) (W.sheet wr.new) result }
    {
        let _ = cfg;
        if self.failed {
            return Err(Refusal::Failed);
        }
        let answer = wr.begin_lines(max);
        self.keep(answer)
    }

    /// Lines are filled no more.
    #[inline(never)]
    pub fn end_lines<W: WriteJs>(&mut self, cfg: &Config, wr: &mut W) -> Answer
        ensures items { Does (end_lines) (state_of cfg.now (W.sheet wr.old) self.old)
            (state_of cfg.now (W.sheet wr.new) self.new) result }
        ensures level { Stays (W.sheet wr.old) (W.sheet wr.new) result }
    {
        let _ = cfg;
        if self.failed {
            return Err(Refusal::Failed);
        }
        let answer = wr.end_lines();
        self.keep(answer)
    }

    /// Here a line may be ended, where lines are bounded: right behind a token that was written.
    #[inline(always)]
    #[tactic(auto, using(crate::proofs::Emission::Calls::passes_break, crate::proofs::Emission::Calls::allows_one))]
    pub fn allow_break<W: WriteJs>(&mut self, cfg: &Config, wr: &mut W) -> Answer
        ensures items { Does allow_break (state_of cfg.now (W.sheet wr.old) self.old)
            (state_of cfg.now (W.sheet wr.new) self.new) result }
        ensures level { Stays (W.sheet wr.old) (W.sheet wr.new) result }
    {
        if !is_bounded(cfg) {
            return Ok(());
        }
        self.put_break(cfg, wr)
    }

    /// The same behind a punctuator: a line may be ended behind `,` and not behind `.`.
    #[inline(always)]
    #[tactic(auto, using(crate::proofs::Emission::Calls::unbounded_behind, crate::proofs::Emission::Calls::no_break, crate::proofs::Emission::Calls::has_break))]
    pub(crate) fn break_behind<W: WriteJs>(
        &mut self,
        cfg: &Config,
        wr: &mut W,
        mark: Punctuator,
    ) -> Answer
        ensures items { Does (break_behind (spelling mark))
            (state_of cfg.now (W.sheet wr.old) self.old)
            (state_of cfg.now (W.sheet wr.new) self.new) result }
        ensures level { Stays (W.sheet wr.old) (W.sheet wr.new) result }
    {
        // Asked first, since mostly lines aren't bounded.
        if !is_bounded(cfg) {
            return Ok(());
        }
        if !allows_break(mark) {
            return Ok(());
        }
        self.allow_break(cfg, wr)
    }

    /// The call of an allowed break.
    #[inline(never)]
    fn put_break<W: WriteJs>(&mut self, cfg: &Config, wr: &mut W) -> Answer
        ensures items { Does (step (Plain AllowBreak)) (state_of cfg.now (W.sheet wr.old) self.old)
            (state_of cfg.now (W.sheet wr.new) self.new) result }
        ensures level { Stays (W.sheet wr.old) (W.sheet wr.new) result }
    {
        let _ = cfg;
        if self.failed {
            return Err(Refusal::Failed);
        }
        let answer = wr.allow_break();
        self.keep(answer)
    }

    /// Ends the line, unless the settings are to minify. Whether that was done: else `reason` says why not.
    #[inline(always)]
    #[tactic(auto, unfolding(crate::specs::Words::formatting_line), using(crate::proofs::Emission::Calls::skipped, crate::proofs::Emission::Calls::not_skipped))]
    pub fn writes_formatting_line<W: WriteJs>(&mut self, cfg: &Config, wr: &mut W) -> bool
        ensures items { Does formatting_line (state_of cfg.now (W.sheet wr.old) self.old)
            (state_of cfg.now (W.sheet wr.new) self.new) (answered result self.new.reason) }
        ensures level { Stays (W.sheet wr.old) (W.sheet wr.new) (answered result self.new.reason) }
    {
        if cfg.minify {
            return true;
        }
        self.writes_line(cfg, wr)
    }

    /// The same, with the reason.
    pub fn formatting_line<W: WriteJs>(&mut self, cfg: &Config, wr: &mut W) -> Answer
        ensures items { Does formatting_line (state_of cfg.now (W.sheet wr.old) self.old)
            (state_of cfg.now (W.sheet wr.new) self.new) result }
        ensures level { Stays (W.sheet wr.old) (W.sheet wr.new) result }
    {
        let done = self.writes_formatting_line(cfg, wr);
        self.answer(done)
    }
}
