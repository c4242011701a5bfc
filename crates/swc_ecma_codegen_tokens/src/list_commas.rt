//! The trailing comma of a list.

ghost use Rattle.std.specs.Prelude.{◌≡◌, ◌==◌, if◌then◌else◌, false, true, IfOk, IfErr};
ghost use Rattle.std.specs.Char.{is_whitespace};
ghost use Rattle.std.specs.Str.{chars};
ghost use Rattle.swc_ecma_codegen_common.specs.declared.errors.Error.TheVariants.{OutOfMemory};
ghost use Rattle.swc_ecma_codegen_grammar.specs.CommentMaps.{Maps};
ghost use Rattle.swc_ecma_codegen_tokens.specs.Adds.{Adds, comma_tokens, stands_with_comma, wants_comma, ends_with_comma};
ghost use Rattle.swc_ecma_codegen_tokens.specs.Run.{Does, Emits, at_source, Stays};
ghost use Rattle.swc_ecma_codegen_tokens.specs.Lists.{comma_before_end, has_trailing_comma, source_has_comma, comma_if, source_comma, wanted_comma, may_have_comma, trailing_comma};
ghost use Rattle.swc_ecma_codegen_tokens.specs.View.{state_of};

use crate::LowerEmitter;
use crate::guard::REFUSED;
use bitflags::Flags;
use std::alloc::Global;
use swc_ecma_codegen_common::{Answer, Error, Refusal, Span};
use swc_ecma_codegen_grammar::list_format::ListFormat;
use swc_ecma_codegen_grammar::mapper::SourceMapper;
use swc_ecma_codegen_literals::Punctuator;
use swc_ecma_codegen_settings::config::Config;
use swc_ecma_codegen_text_writer::WriteJs;

/// Whether a text without its last character ends in a comma, white space aside.
fn comma_before_end(text: &str) -> bool
    ensures { result ≡ comma_before_end false false (chars text.now) }
{
    let mut before = false;
    let mut here = false;
    for c in text.chars() {
        before = here;
        here = ends_in_comma(here, c);
    }
    before
}

/// Whether a text and a character more end in a comma, white space aside; `here` says it of the text.
fn ends_in_comma(here: bool, c: char) -> bool
    ensures { result ≡ (if is_whitespace c then here else c == 44) }
{
    if c.is_whitespace() { here } else { c == ',' }
}

/// Whether the source text of a list has a trailing comma: `[a, ]` has one.
#[tactic(auto, unfolding(crate::specs::Lists::has_trailing_comma))]
fn has_trailing_comma(text: &str) -> bool
    ensures { result ≡ has_trailing_comma text.now }
{
    text.len() >= 3 && comma_before_end(text)
}

/// The same, of what stands at a span.
#[tactic(auto, unfolding(crate::specs::Lists::source_has_comma))]
fn source_has_comma<S: SourceMapper>(
    alloc: Global,
    cm: &S,
    span: Span,
) -> std::result::Result<bool, Error>
    ensures exactly { IfOk result (λ answer. answer
        ≡ source_has_comma ((S.lines cm.now).snippet span)) }
    ensures refused { IfErr result (λ error. error ≡ OutOfMemory) }
{
    match cm.span_to_snippet(alloc, span) {
        Ok(Some(text)) => Ok(has_trailing_comma(&text)),
        Ok(None) => Ok(false),
        Err(error) => Err(error),
    }
}

/// Whether a list may have a trailing comma.
#[inline(always)]
fn may_have_comma(cfg: &Config, format: ListFormat) -> bool
    ensures { result ≡ may_have_comma format.0 cfg.now }
{
    format.contains(ListFormat::CommaDelimited)
        && !(format.contains(ListFormat::CanSkipTrailingComma) && cfg.minify)
}

impl LowerEmitter {
    /// Writes a comma and a blank, where they are wanted.
    #[inline(always)]
    #[tactic(auto, unfolding(crate::specs::Lists::comma_if))]
    fn comma_if<W: WriteJs>(&mut self, cfg: &Config, wr: &mut W, wanted: bool) -> Answer
        ensures items { Does (comma_if wanted) (state_of cfg.now (W.sheet wr.old) self.old)
            (state_of cfg.now (W.sheet wr.new) self.new) result }
        ensures reads { Adds (comma_tokens wanted)
            cfg.now (W.sheet wr.old) self.old (W.sheet wr.new) self.new result }
        ensures level { Stays (W.sheet wr.old) (W.sheet wr.new) result }
    {
        if wanted {
            self.punct(cfg, wr, Punctuator::Comma)?;
            self.formatting_space(cfg, wr)?;
        }
        Ok(())
    }

    /// Writes a trailing comma where the source text has one.
    #[inline(never)]
    #[tactic(auto, unfolding(crate::specs::Lists::source_comma))]
    fn source_comma<W: WriteJs, S: SourceMapper>(
        &mut self,
        cfg: &Config,
        cm: &S,
        wr: &mut W,
        parent: Span,
    ) -> Answer
        ensures items { (maps : Maps) →
            Emits (source_comma parent) (at_source (S.lines cm.now) maps
            (state_of cfg.now (W.sheet wr.old) self.old))
            (at_source (S.lines cm.now) maps (state_of cfg.now (W.sheet wr.new) self.new)) result }
        ensures reads { Adds (comma_tokens (stands_with_comma (S.lines cm.now) parent))
            cfg.now (W.sheet wr.old) self.old (W.sheet wr.new) self.new result }
        ensures level { Stays (W.sheet wr.old) (W.sheet wr.new) result }
    {
        if parent.lo.0 == 0 {
            return Ok(());
        }
        if self.failed {
            return Err(Refusal::Failed);
        }
        match source_has_comma(self.alloc, cm, parent) {
            Ok(wanted) => self.comma_if(cfg, wr, wanted),
            Err(error) => {
                self.failed = true;
                self.row = REFUSED;
                Err(error.refusal())
            }
        }
    }

    /// Writes a trailing comma where the format forces one, or allows it and the source text has one.
    #[inline(always)]
    #[tactic(auto, unfolding(crate::specs::Lists::wanted_comma))]
    fn wanted_comma<W: WriteJs, S: SourceMapper>(
        &mut self,
        cfg: &Config,
        cm: &S,
        wr: &mut W,
        format: ListFormat,
        parent: Span,
    ) -> Answer
        ensures items { (maps : Maps) →
            Emits (wanted_comma format.0 parent) (at_source (S.lines cm.now) maps
            (state_of cfg.now (W.sheet wr.old) self.old))
            (at_source (S.lines cm.now) maps (state_of cfg.now (W.sheet wr.new) self.new)) result }
        ensures reads { Adds (comma_tokens (wants_comma (S.lines cm.now) format.0 parent))
            cfg.now (W.sheet wr.old) self.old (W.sheet wr.new) self.new result }
        ensures level { Stays (W.sheet wr.old) (W.sheet wr.new) result }
    {
        if format.contains(ListFormat::ForceTrailingComma) {
            return self.comma_if(cfg, wr, true);
        }
        if format.contains(ListFormat::AllowTrailingComma) {
            return self.source_comma(cfg, cm, wr, parent);
        }
        Ok(())
    }

    /// Writes the trailing comma of a list, where it has one.
    #[inline(always)]
    #[tactic(auto, using(crate::proofs::Listing::ListCommas::comma_written, crate::proofs::Listing::ListCommas::comma_left_out))]
    pub fn trailing_comma<W: WriteJs, S: SourceMapper>(
        &mut self,
        cfg: &Config,
        cm: &S,
        wr: &mut W,
        format: ListFormat,
        parent: Span,
    ) -> Answer
        ensures items { (maps : Maps) →
            Emits (trailing_comma format.0 parent) (at_source (S.lines cm.now) maps
            (state_of cfg.now (W.sheet wr.old) self.old))
            (at_source (S.lines cm.now) maps (state_of cfg.now (W.sheet wr.new) self.new)) result }
        ensures reads { Adds (comma_tokens
            (ends_with_comma (S.lines cm.now) cfg.now format.0 parent))
            cfg.now (W.sheet wr.old) self.old (W.sheet wr.new) self.new result }
        ensures level { Stays (W.sheet wr.old) (W.sheet wr.new) result }
    {
        if !may_have_comma(cfg, format) {
            return Ok(());
        }
        self.wanted_comma(cfg, cm, wr, format, parent)
    }
}
