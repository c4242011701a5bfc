//! The brackets, separators and blanks of a list, by its format. Most of it is inlined where the format is named.

ghost use Rattle.std.specs.Prelude.{◌≡◌, true, ◌+◌, ◌<◌, ◌≤◌, OnOk};
ghost use Rattle.swc_ecma_codegen_grammar.specs.Comments.{maps_in};
ghost use Rattle.swc_ecma_codegen_tokens.specs.Adds.{Adds, tokens_between};
ghost use Rattle.swc_ecma_codegen_tokens.specs.Run.{DoesTaking, Does, Stays};
ghost use Rattle.swc_ecma_codegen_tokens.specs.Lists.{blank_if, line_or_blank, deeper, formatting_deeper, deeper_if, shallower, formatting_shallower, shallower_if, opening, delimiter, separator, child_comments, closing, empty_list, level_if, list_levels};
ghost use Rattle.swc_ecma_codegen_tokens.specs.View.{state_of};

use crate::LowerEmitter;
use bitflags::Flags;
use swc_ecma_codegen_common::{Answer, Refusal, Span};
use swc_ecma_codegen_grammar::comments::Comments;
use swc_ecma_codegen_grammar::list_format::ListFormat;
use swc_ecma_codegen_literals::Punctuator;
use swc_ecma_codegen_settings::config::Config;
use swc_ecma_codegen_text_writer::WriteJs;

impl LowerEmitter {
    /// Writes a blank where one is wanted, unless the settings are to minify.
    #[inline(always)]
    #[tactic(auto, unfolding(crate::specs::Lists::blank_if))]
    fn blank_if<W: WriteJs>(&mut self, cfg: &Config, wr: &mut W, wanted: bool) -> Answer
        ensures items { Does (blank_if wanted) (state_of cfg.now (W.sheet wr.old) self.old)
            (state_of cfg.now (W.sheet wr.new) self.new) result }
        ensures level { Stays (W.sheet wr.old) (W.sheet wr.new) result }
    {
        if wanted {
            self.formatting_space(cfg, wr)?;
        }
        Ok(())
    }

    /// Ends the line, or else writes a blank where one is wanted; neither where the settings are to minify.
    #[inline(always)]
    #[tactic(auto, unfolding(crate::specs::Lists::line_or_blank))]
    fn line_or_blank<W: WriteJs>(
        &mut self,
        cfg: &Config,
        wr: &mut W,
        line: bool,
        wanted: bool,
    ) -> Answer
        ensures items { Does (line_or_blank line wanted)
            (state_of cfg.now (W.sheet wr.old) self.old)
            (state_of cfg.now (W.sheet wr.new) self.new) result }
        ensures level { Stays (W.sheet wr.old) (W.sheet wr.new) result }
    {
        if line {
            self.formatting_line(cfg, wr)
        } else {
            self.blank_if(cfg, wr, wanted)
        }
    }

    /// One level of indentation more.
    #[inline(never)]
    pub fn deeper<W: WriteJs>(&mut self, cfg: &Config, wr: &mut W) -> Answer
        ensures items { Does deeper (state_of cfg.now (W.sheet wr.old) self.old)
            (state_of cfg.now (W.sheet wr.new) self.new) result }
        ensures level { OnOk result ((W.sheet wr.new).indentation
            ≡ (W.sheet wr.old).indentation + 1) }
    {
        let _ = cfg;
        if self.failed {
            return Err(Refusal::Failed);
        }
        let answer = wr.increase_indent();
        self.keep(answer)
    }

    /// One level of indentation less.
    #[inline(never)]
    pub fn shallower<W: WriteJs>(&mut self, cfg: &Config, wr: &mut W) -> Answer
        requires { 0 < (W.sheet wr.old).indentation }
        ensures items { Does shallower (state_of cfg.now (W.sheet wr.old) self.old)
            (state_of cfg.now (W.sheet wr.new) self.new) result }
        ensures level { OnOk result ((W.sheet wr.new).indentation + 1
            ≡ (W.sheet wr.old).indentation) }
    {
        let _ = cfg;
        if self.failed {
            return Err(Refusal::Failed);
        }
        let answer = wr.decrease_indent();
        self.keep(answer)
    }

    /// One level of indentation more, unless the settings are to minify.
    #[inline(always)]
    #[tactic(auto, unfolding(crate::specs::Lists::formatting_deeper), using(crate::proofs::Emission::Calls::skipped, crate::proofs::Emission::Calls::not_skipped))]
    fn formatting_deeper<W: WriteJs>(&mut self, cfg: &Config, wr: &mut W) -> Answer
        ensures items { Does formatting_deeper (state_of cfg.now (W.sheet wr.old) self.old)
            (state_of cfg.now (W.sheet wr.new) self.new) result }
        ensures level { OnOk result ((W.sheet wr.new).indentation
            ≡ (W.sheet wr.old).indentation + level_if true cfg.now) }
    {
        if cfg.minify {
            return Ok(());
        }
        self.deeper(cfg, wr)
    }

    /// One level of indentation less, unless the settings are to minify.
    #[inline(always)]
    #[tactic(auto, unfolding(crate::specs::Lists::formatting_shallower), using(crate::proofs::Emission::Calls::skipped, crate::proofs::Emission::Calls::not_skipped))]
    fn formatting_shallower<W: WriteJs>(&mut self, cfg: &Config, wr: &mut W) -> Answer
        requires { level_if true cfg.now ≤ (W.sheet wr.old).indentation }
        ensures items { Does formatting_shallower (state_of cfg.now (W.sheet wr.old) self.old)
            (state_of cfg.now (W.sheet wr.new) self.new) result }
        ensures level { OnOk result ((W.sheet wr.new).indentation + level_if true
            cfg.now ≡ (W.sheet wr.old).indentation) }
    {
        if cfg.minify {
            return Ok(());
        }
        self.shallower(cfg, wr)
    }

    /// One level of indentation more where it is wanted, unless the settings are to minify.
    #[inline(always)]
    #[tactic(auto, unfolding(crate::specs::Lists::deeper_if))]
    fn deeper_if<W: WriteJs>(&mut self, cfg: &Config, wr: &mut W, wanted: bool) -> Answer
        ensures items { Does (deeper_if wanted) (state_of cfg.now (W.sheet wr.old) self.old)
            (state_of cfg.now (W.sheet wr.new) self.new) result }
        ensures level { OnOk result ((W.sheet wr.new).indentation
            ≡ (W.sheet wr.old).indentation + level_if wanted cfg.now) }
    {
        if wanted {
            self.formatting_deeper(cfg, wr)?;
        }
        Ok(())
    }

    /// One level of indentation less where it is wanted, unless the settings are to minify.
    #[inline(always)]
    #[tactic(auto, unfolding(crate::specs::Lists::shallower_if))]
    fn shallower_if<W: WriteJs>(&mut self, cfg: &Config, wr: &mut W, wanted: bool) -> Answer
        requires { level_if wanted cfg.now ≤ (W.sheet wr.old).indentation }
        ensures items { Does (shallower_if wanted) (state_of cfg.now (W.sheet wr.old) self.old)
            (state_of cfg.now (W.sheet wr.new) self.new) result }
        ensures level { OnOk result ((W.sheet wr.new).indentation + level_if wanted
            cfg.now ≡ (W.sheet wr.old).indentation) }
    {
        if wanted {
            self.formatting_shallower(cfg, wr)?;
        }
        Ok(())
    }

    /// Writes what stands before the first child.
    #[inline(always)]
    #[tactic(auto, unfolding(crate::specs::Lists::opening))]
    pub fn list_opening<W: WriteJs>(
        &mut self,
        cfg: &Config,
        wr: &mut W,
        format: ListFormat,
        line: bool,
    ) -> Answer
        ensures items { Does (opening format.0 line) (state_of cfg.now (W.sheet wr.old) self.old)
            (state_of cfg.now (W.sheet wr.new) self.new) result }
        ensures level { OnOk result ((W.sheet wr.new).indentation
            ≡ (W.sheet wr.old).indentation + list_levels format.0 cfg.now) }
    {
        self.line_or_blank(
            cfg,
            wr,
            line,
            format.contains(ListFormat::SpaceBetweenBraces),
        )?;
        self.deeper_if(cfg, wr, format.contains(ListFormat::Indented))?;
        Ok(())
    }

    /// Writes the delimiter of a list.
    #[inline(always)]
    #[tactic(auto, unfolding(crate::specs::Lists::delimiter))]
    fn delimiter<W: WriteJs>(&mut self, cfg: &Config, wr: &mut W, format: ListFormat) -> Answer
        ensures items { Does (delimiter format.0) (state_of cfg.now (W.sheet wr.old) self.old)
            (state_of cfg.now (W.sheet wr.new) self.new) result }
        ensures reads { Adds (tokens_between format.0)
            cfg.now (W.sheet wr.old) self.old (W.sheet wr.new) self.new result }
        ensures level { Stays (W.sheet wr.old) (W.sheet wr.new) result }
    {
        if format.contains(ListFormat::CommaDelimited) {
            self.punct(cfg, wr, Punctuator::Comma)?;
        } else if format.contains(ListFormat::BarDelimited) {
            self.formatting_space(cfg, wr)?;
            self.punct(cfg, wr, Punctuator::Bar)?;
        } else if format.contains(ListFormat::AmpersandDelimited) {
            self.formatting_space(cfg, wr)?;
            self.punct(cfg, wr, Punctuator::Ampersand)?;
        }
        Ok(())
    }

    /// Writes what stands between two children.
    #[inline(always)]
    #[tactic(auto, unfolding(crate::specs::Lists::separator))]
    pub fn list_separator<W: WriteJs>(
        &mut self,
        cfg: &Config,
        wr: &mut W,
        format: ListFormat,
        line: bool,
    ) -> Answer
        ensures items { Does (separator format.0 line) (state_of cfg.now (W.sheet wr.old) self.old)
            (state_of cfg.now (W.sheet wr.new) self.new) result }
        ensures reads { Adds (tokens_between format.0)
            cfg.now (W.sheet wr.old) self.old (W.sheet wr.new) self.new result }
        ensures level { Stays (W.sheet wr.old) (W.sheet wr.new) result }
    {
        self.delimiter(cfg, wr, format)?;
        self.line_or_blank(
            cfg,
            wr,
            line,
            format.contains(ListFormat::SpaceBetweenSiblings),
        )?;
        Ok(())
    }

    /// Writes the comments right after a child.
    #[tactic(auto, unfolding(crate::specs::Lists::child_comments))]
    pub fn child_comments<W: WriteJs, C: Comments>(
        &mut self,
        cfg: &Config,
        comments: &mut Option<C>,
        wr: &mut W,
        format: ListFormat,
        line: bool,
        place: Span,
    ) -> Answer
        ensures items { DoesTaking (child_comments format.0 line place)
            (maps_in C.maps comments.old) (maps_in C.maps comments.new)
            (state_of cfg.now (W.sheet wr.old) self.old)
            (state_of cfg.now (W.sheet wr.new) self.new) result }
        ensures level { Stays (W.sheet wr.old) (W.sheet wr.new) result }
    {
        if format.contains(ListFormat::NoInterveningComments) {
            return Ok(());
        }
        if line {
            return Ok(());
        }
        self.trailing_comments(cfg, comments, wr, place.hi, false)
    }

    /// Writes what stands after the last child, behind a trailing comma.
    #[inline(always)]
    #[tactic(auto, unfolding(crate::specs::Lists::closing))]
    pub fn list_closing<W: WriteJs>(
        &mut self,
        cfg: &Config,
        wr: &mut W,
        format: ListFormat,
        line: bool,
    ) -> Answer
        requires { list_levels format.0 cfg.now ≤ (W.sheet wr.old).indentation }
        ensures items { Does (closing format.0 line) (state_of cfg.now (W.sheet wr.old) self.old)
            (state_of cfg.now (W.sheet wr.new) self.new) result }
        ensures level { OnOk result ((W.sheet wr.new).indentation + list_levels format.0
            cfg.now ≡ (W.sheet wr.old).indentation) }
    {
        self.shallower_if(cfg, wr, format.contains(ListFormat::Indented))?;
        self.line_or_blank(
            cfg,
            wr,
            line,
            format.contains(ListFormat::SpaceBetweenBraces),
        )?;
        Ok(())
    }

    /// Writes what stands for a list without children.
    #[inline(always)]
    #[tactic(auto, unfolding(crate::specs::Lists::empty_list))]
    pub fn empty_list<W: WriteJs>(&mut self, cfg: &Config, wr: &mut W, format: ListFormat) -> Answer
        ensures items { Does (empty_list format.0) (state_of cfg.now (W.sheet wr.old) self.old)
            (state_of cfg.now (W.sheet wr.new) self.new) result }
        ensures level { Stays (W.sheet wr.old) (W.sheet wr.new) result }
    {
        if format.contains(ListFormat::MultiLine) {
            return self.formatting_line(cfg, wr);
        }
        let wanted = format.contains(ListFormat::SpaceBetweenBraces)
            && !format.contains(ListFormat::NoSpaceIfEmpty);
        self.blank_if(cfg, wr, wanted)
    }
}
