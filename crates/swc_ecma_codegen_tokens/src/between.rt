//! A punctuator with the blanks round it: ` = `. Where no positions are kept it is one text.

ghost use Rattle.std.specs.Prelude.{◌≡◌, ◌&&◌, ℕ, List, [], ◌∷◌, OnOk, OnErr, is_some, true, false};
ghost use Rattle.swc_ecma_codegen_grammar.specs.GapRules.{fuses};
ghost use Rattle.swc_ecma_codegen_grammar.specs.Tokens as lexical;
ghost use Rattle.swc_ecma_codegen_literals.specs.Punctuators.{spelling};
ghost use Rattle.swc_ecma_codegen_text_writer.specs.Sheet.{Str, Writes, answered, is_settled};
ghost use Rattle.swc_ecma_codegen_tokens.specs.Adds.{Adds};
ghost use Rattle.swc_ecma_codegen_tokens.specs.Between.{in_blanks, last_between};
ghost use Rattle.swc_ecma_codegen_tokens.specs.PreviousToken.{last_at};
ghost use Rattle.swc_ecma_codegen_tokens.specs.Run.{Does, Stays};
ghost use Rattle.swc_ecma_codegen_tokens.specs.Words.{operator, operator_between, punct_between};
ghost use Rattle.swc_ecma_codegen_tokens.specs.View.{state_of};
ghost use Rattle.swc_ecma_codegen_tokens.specs.declared.previous.PreviousToken.{PreviousToken};

use crate::LowerEmitter;
use crate::lines::is_bounded;
use crate::previous::PreviousToken;
use std::snapshot::Snapshot;
use swc_ecma_codegen_literals::Punctuator;
use swc_ecma_codegen_settings::config::Config;
use swc_ecma_codegen_text_writer::WriteJs;

/// Each punctuator between two blanks.
const IN_BLANKS: [&str; 58] = [
    " { ", " } ", " ( ", " ) ", " [ ", " ] ", " . ", " ... ", " ; ", " , ", " < ", " > ", " <= ",
    " >= ", " == ", " != ", " === ", " !== ", " + ", " - ", " * ", " % ", " ** ", " ++ ", " -- ",
    " << ", " >> ", " >>> ", " & ", " | ", " ^ ", " ! ", " ~ ", " && ", " || ", " ?? ", " ? ",
    " : ", " = ", " += ", " -= ", " *= ", " %= ", " **= ", " <<= ", " >>= ", " >>>= ", " &= ",
    " |= ", " ^= ", " &&= ", " ||= ", " ??= ", " => ", " / ", " /= ", " ?. ", " @ ",
];

const _: () = prove!(IN_BLANKS.len() == Punctuator::At as usize + 1);

/// A punctuator between two blanks: ` = `.
#[inline(always)]
fn in_blanks(mark: Punctuator) -> &'static str
    ensures { result.now ≡ in_blanks (spelling mark) }
{
    IN_BLANKS[mark as usize]
}

/// Passes the last token on, as any other one. It exists only in proofs, and so does the choice: it is no more than what proofs say of
/// an emission that was refused.
#[inline(always)]
fn shown_as(before: Snapshot<PreviousToken>) -> Snapshot<PreviousToken>
    ghost shown: { PreviousToken }
    ensures { result.value ≡ shown }
{
    before
}

impl LowerEmitter {
    /// Sends a punctuator between two blanks, where no semicolon is held back. Whether it was sent: else `reason` says why not.
    #[inline(always)]
    fn sends_between<W: WriteJs>(&mut self, wr: &mut W, mark: Punctuator) -> bool
        requires unfailed { self.old.failed ≡ false }
        requires settled { is_settled (W.sheet wr.old).semicolons ≡ true }
        ensures writes { Writes (Str (in_blanks (spelling mark))) (W.sheet wr.old) (W.sheet wr.new)
            (answered result self.new.reason) }
        ensures ok { OnOk (answered result self.new.reason) (
            (self.new.token.value ≡ PreviousToken.Separated)
            × (self.new.failed ≡ self.old.failed)) }
        ensures err { OnErr (answered result self.new.reason) (
            (self.new.token.value ≡ last_between mark self.old.token.value
            (W.sheet wr.old) (W.sheet wr.new)) × (self.new.failed ≡ true)) }
    {
        let was = Snapshot::of(&*wr);
        let before = self.note(PreviousToken::Separated);
        if wr.writes_in_line(in_blanks(mark)) {
            return true;
        }
        self.give_up_between(wr, before, was, mark);
        false
    }

    /// Notes that such a text wasn't sent. It stands for three calls, one of which was stopped: where ` =` of ` = ` is out, that of `=`. So
    /// which token was the last one depends on how much went out, which proofs alone know.
    #[cold]
    #[inline(never)]
    fn give_up_between<W: WriteJs>(
        &mut self,
        wr: &mut W,
        before: Snapshot<PreviousToken>,
        was: Snapshot<W>,
        mark: Punctuator,
    )
        ghost shown: { PreviousToken }
        ensures reason { self.new.reason ≡ W.reason wr.old }
        ensures sheet { W.sheet wr.new ≡ W.sheet wr.old }
        ensures token { self.new.token.value ≡ shown }
        ensures failed { self.new.failed ≡ true }
    {
        let _ = was;
        let _ = mark;
        self.give_up_sent(wr, shown_as(before));
    }

    /// Writes an operator that is a punctuator, between two blanks: ` + `. Where no positions are kept it is one text.
    #[inline(always)]
    pub fn writes_operator_between<W: WriteJs>(
        &mut self,
        cfg: &Config,
        wr: &mut W,
        mark: Punctuator,
    ) -> bool
        ensures items { Does (operator_between (spelling mark))
            (state_of cfg.now (W.sheet wr.old) self.old)
            (state_of cfg.now (W.sheet wr.new) self.new) (answered result self.new.reason) }
        ensures reads { Adds (lexical.punctuator (spelling mark) ∷ [])
            cfg.now (W.sheet wr.old) self.old (W.sheet wr.new) self.new
            (answered result self.new.reason) }
        ensures level { Stays (W.sheet wr.old) (W.sheet wr.new) (answered result self.new.reason) }
    {
        if self.failed || !wr.is_settled() || wr.care_about_srcmap() {
            return self.writes_operator_and_blanks_apart(cfg, wr, mark);
        }
        self.sends_operator_between(cfg, wr, mark)
    }

    /// The same in a function of its own.
    #[inline(never)]
    fn writes_operator_and_blanks_apart<W: WriteJs>(
        &mut self,
        cfg: &Config,
        wr: &mut W,
        mark: Punctuator,
    ) -> bool
        ensures items { Does (operator_between (spelling mark))
            (state_of cfg.now (W.sheet wr.old) self.old)
            (state_of cfg.now (W.sheet wr.new) self.new) (answered result self.new.reason) }
        ensures level { Stays (W.sheet wr.old) (W.sheet wr.new) (answered result self.new.reason) }
    {
        self.writes_operator_and_blanks_here(cfg, wr, mark)
    }

    /// The same, text by text.
    #[inline(always)]
    pub fn writes_operator_and_blanks<W: WriteJs>(
        &mut self,
        cfg: &Config,
        wr: &mut W,
        mark: Punctuator,
    ) -> bool
        ensures items { Does (operator_between (spelling mark))
            (state_of cfg.now (W.sheet wr.old) self.old)
            (state_of cfg.now (W.sheet wr.new) self.new) (answered result self.new.reason) }
        ensures reads { Adds (lexical.punctuator (spelling mark) ∷ [])
            cfg.now (W.sheet wr.old) self.old (W.sheet wr.new) self.new
            (answered result self.new.reason) }
        ensures level { Stays (W.sheet wr.old) (W.sheet wr.new) (answered result self.new.reason) }
    {
        self.writes_operator_and_blanks_here(cfg, wr, mark)
    }

    /// The same, where it is called.
    #[inline(always)]
    #[tactic(auto, unfolding(crate::specs::Words::operator_between))]
    fn writes_operator_and_blanks_here<W: WriteJs>(
        &mut self,
        cfg: &Config,
        wr: &mut W,
        mark: Punctuator,
    ) -> bool
        ensures items { Does (operator_between (spelling mark))
            (state_of cfg.now (W.sheet wr.old) self.old)
            (state_of cfg.now (W.sheet wr.new) self.new) (answered result self.new.reason) }
        ensures level { Stays (W.sheet wr.old) (W.sheet wr.new) (answered result self.new.reason) }
    {
        if !self.puts_space(cfg, wr) {
            return false;
        }
        if !self.writes_operator_behind(cfg, wr, mark) {
            return false;
        }
        self.puts_space(cfg, wr)
    }

    /// Writes an operator that is a punctuator where mostly no blank is due, whatever it is: behind a blank.
    #[inline(always)]
    fn writes_operator_behind<W: WriteJs>(
        &mut self,
        cfg: &Config,
        wr: &mut W,
        mark: Punctuator,
    ) -> bool
        ensures items { Does (operator (spelling mark)) (state_of cfg.now (W.sheet wr.old) self.old)
            (state_of cfg.now (W.sheet wr.new) self.new) (answered result self.new.reason) }
        ensures level { Stays (W.sheet wr.old) (W.sheet wr.new) (answered result self.new.reason) }
    {
        if matches!(mark, Punctuator::Bang) || !self.may_go_on_anyhow() {
            return self.writes_operator_apart(cfg, wr, mark);
        }
        self.writes_operator_undue(cfg, wr, mark)
    }

    /// The same where none is due.
    #[inline(always)]
    fn writes_operator_undue<W: WriteJs>(
        &mut self,
        cfg: &Config,
        wr: &mut W,
        mark: Punctuator,
    ) -> bool
        requires unfailed { self.old.failed ≡ false }
        requires passes { (text : List ℕ) → fuses (last_at self.old.token.value) text ≡ false }
        ensures items { Does (operator (spelling mark)) (state_of cfg.now (W.sheet wr.old) self.old)
            (state_of cfg.now (W.sheet wr.new) self.new) (answered result self.new.reason) }
        ensures level { Stays (W.sheet wr.old) (W.sheet wr.new) (answered result self.new.reason) }
    {
        self.puts_operator(cfg, wr, mark)
    }

    /// Writes an operator between two blanks as one text, where no semicolon is held back and no positions are kept.
    #[inline(always)]
    fn sends_operator_between<W: WriteJs>(
        &mut self,
        cfg: &Config,
        wr: &mut W,
        mark: Punctuator,
    ) -> bool
        requires unfailed { self.old.failed ≡ false }
        requires settled { is_settled (W.sheet wr.old).semicolons ≡ true }
        requires unplaced { (W.sheet wr.old).keeps_positions ≡ false }
        ensures items { Does (operator_between (spelling mark))
            (state_of cfg.now (W.sheet wr.old) self.old)
            (state_of cfg.now (W.sheet wr.new) self.new) (answered result self.new.reason) }
        ensures level { Stays (W.sheet wr.old) (W.sheet wr.new) (answered result self.new.reason) }
    {
        let _ = cfg;
        self.sends_between(wr, mark)
    }

    /// Writes a punctuator between two blanks: ` ? `. Where no positions are kept and lines aren't bounded it is one text.
    #[inline(always)]
    pub fn writes_punct_between<W: WriteJs>(
        &mut self,
        cfg: &Config,
        wr: &mut W,
        mark: Punctuator,
    ) -> bool
        ensures items { Does (punct_between (spelling mark))
            (state_of cfg.now (W.sheet wr.old) self.old)
            (state_of cfg.now (W.sheet wr.new) self.new) (answered result self.new.reason) }
        ensures reads { Adds (lexical.punctuator (spelling mark) ∷ [])
            cfg.now (W.sheet wr.old) self.old (W.sheet wr.new) self.new
            (answered result self.new.reason) }
        ensures level { Stays (W.sheet wr.old) (W.sheet wr.new) (answered result self.new.reason) }
    {
        if self.failed || !wr.is_settled() || wr.care_about_srcmap() || is_bounded(cfg) {
            return self.writes_punct_and_blanks_apart(cfg, wr, mark);
        }
        self.sends_punct_between(cfg, wr, mark)
    }

    /// The same in a function of its own.
    #[inline(never)]
    fn writes_punct_and_blanks_apart<W: WriteJs>(
        &mut self,
        cfg: &Config,
        wr: &mut W,
        mark: Punctuator,
    ) -> bool
        ensures items { Does (punct_between (spelling mark))
            (state_of cfg.now (W.sheet wr.old) self.old)
            (state_of cfg.now (W.sheet wr.new) self.new) (answered result self.new.reason) }
        ensures level { Stays (W.sheet wr.old) (W.sheet wr.new) (answered result self.new.reason) }
    {
        self.writes_punct_and_blanks_here(cfg, wr, mark)
    }

    /// The same, text by text.
    #[inline(always)]
    pub fn writes_punct_and_blanks<W: WriteJs>(
        &mut self,
        cfg: &Config,
        wr: &mut W,
        mark: Punctuator,
    ) -> bool
        ensures items { Does (punct_between (spelling mark))
            (state_of cfg.now (W.sheet wr.old) self.old)
            (state_of cfg.now (W.sheet wr.new) self.new) (answered result self.new.reason) }
        ensures reads { Adds (lexical.punctuator (spelling mark) ∷ [])
            cfg.now (W.sheet wr.old) self.old (W.sheet wr.new) self.new
            (answered result self.new.reason) }
        ensures level { Stays (W.sheet wr.old) (W.sheet wr.new) (answered result self.new.reason) }
    {
        self.writes_punct_and_blanks_here(cfg, wr, mark)
    }

    /// The same, where it is called.
    #[inline(always)]
    #[tactic(auto, unfolding(crate::specs::Words::punct_between))]
    fn writes_punct_and_blanks_here<W: WriteJs>(
        &mut self,
        cfg: &Config,
        wr: &mut W,
        mark: Punctuator,
    ) -> bool
        ensures items { Does (punct_between (spelling mark))
            (state_of cfg.now (W.sheet wr.old) self.old)
            (state_of cfg.now (W.sheet wr.new) self.new) (answered result self.new.reason) }
        ensures level { Stays (W.sheet wr.old) (W.sheet wr.new) (answered result self.new.reason) }
    {
        if !self.puts_space(cfg, wr) {
            return false;
        }
        if !self.writes_punct(cfg, wr, mark) {
            return false;
        }
        self.puts_space(cfg, wr)
    }

    /// Writes such a punctuator as one text, where lines aren't bounded.
    #[inline(always)]
    fn sends_punct_between<W: WriteJs>(
        &mut self,
        cfg: &Config,
        wr: &mut W,
        mark: Punctuator,
    ) -> bool
        requires unfailed { self.old.failed ≡ false }
        requires settled { is_settled (W.sheet wr.old).semicolons ≡ true }
        requires unplaced { (W.sheet wr.old).keeps_positions ≡ false }
        requires unbounded { (is_some cfg.now.max_line && cfg.now.minify) ≡ false }
        ensures items { Does (punct_between (spelling mark))
            (state_of cfg.now (W.sheet wr.old) self.old)
            (state_of cfg.now (W.sheet wr.new) self.new) (answered result self.new.reason) }
        ensures level { Stays (W.sheet wr.old) (W.sheet wr.new) (answered result self.new.reason) }
    {
        let _ = cfg;
        self.sends_between(wr, mark)
    }
}
