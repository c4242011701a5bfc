//! Calls of the lower emitter.

ghost use Rattle.std.specs.Prelude.{◌≡◌, ◌<◌, Option, is_some, true};
ghost use Rattle.swc_ecma_codegen_literals.specs.Punctuators.{spelling};
ghost use Rattle.swc_ecma_codegen_tokens.specs.Starts.{begins_letter};
ghost use Rattle.swc_ecma_codegen_emit.specs.Standing.{HasLevels, standing_of, Performs, PerformsDeeper, PerformsShallower};
ghost use Rattle.swc_ecma_codegen_tokens.specs.Words.{allow_break, bare_punct, bare_semi, begin_lines, end_lines, keyword, operator, operator_between, punct_between, word_operator, punct, placed_punct, semi, space, formatting_space, formatting_line, line_end, commit_pending_semi, position, position_before, start_of, end_of, last_of, leading_comments, trailing_comments, comments_before_end};
ghost use Rattle.swc_ecma_codegen_tokens.specs.Literals.{hashbang};
ghost use Rattle.swc_ecma_codegen_tokens.specs.Lists.{deeper, shallower};
ghost use Rattle.swc_ecma_codegen_emit.specs.Exprs.{blank, space_if, spaced_punct, formatted_operator, opened, comments_before};
ghost use Rattle.swc_ecma_codegen_emit.specs.Lists.{unsupported};
ghost use Rattle.swc_ecma_codegen_emit.specs.Programs.{last_semi};

use crate::emitter::Emitter;
use crate::refusals::{keep, keep_reason};
use swc_ecma_codegen_common::{BytePos, Span};
use swc_ecma_codegen_grammar::comments::Comments;
use swc_ecma_codegen_grammar::mapper::SourceMapper;
use swc_ecma_codegen_literals::Punctuator;
use swc_ecma_codegen_text_writer::WriteJs;
use swc_ecma_codegen_tokens::{Unprintable, leads, trails};

impl<W: WriteJs, S: SourceMapper, C: Comments> Emitter<'_, W, S, C> {
    /// Refuses a node that has no text, as `Invalid`.
    #[tactic(auto, using(crate::proofs::Standings::refused_makes), unfolding(crate::specs::Lists::unsupported))]
    pub(crate) fn unsupported(&mut self)
        ensures items { Performs unsupported S.lines C.maps W.sheet self.old self.new }
    {
        if self.refusal.is_some() {
            return;
        }
        keep(
            &mut self.refusal,
            self.lower
                .refuse(&self.cfg, &self.wr, Unprintable::UnsupportedNode),
        );
    }

    /// Writes a keyword.
    #[inline(never)]
    #[tactic(auto, using(crate::proofs::Standings::refused_makes))]
    pub(crate) fn keyword(&mut self, span: Option<Span>, text: &'static str)
        requires { begins_letter text.now ≡ true }
        ensures items { Performs (keyword span text.now) S.lines C.maps W.sheet self.old self.new }
    {
        if self.refusal.is_some() {
            return;
        }
        let done = self
            .lower
            .writes_keyword(&self.cfg, &mut self.wr, span, text);
        keep_reason(&mut self.refusal, done, &self.lower);
    }

    /// Writes an operator that is a punctuator.
    #[inline(never)]
    #[tactic(auto, using(crate::proofs::Standings::refused_makes))]
    pub(crate) fn operator(&mut self, mark: Punctuator)
        ensures items { Performs (operator (spelling mark))
            S.lines C.maps W.sheet self.old self.new }
    {
        if self.refusal.is_some() {
            return;
        }
        let done = self.lower.writes_operator(&self.cfg, &mut self.wr, mark);
        keep_reason(&mut self.refusal, done, &self.lower);
    }

    /// Writes an operator that is a word.
    #[inline(never)]
    #[tactic(auto, using(crate::proofs::Standings::refused_makes))]
    pub(crate) fn word_operator(&mut self, text: &'static str)
        requires { begins_letter text.now ≡ true }
        ensures items { Performs (word_operator text.now) S.lines C.maps W.sheet self.old self.new }
    {
        if self.refusal.is_some() {
            return;
        }
        keep(
            &mut self.refusal,
            self.lower.word_operator(&self.cfg, &mut self.wr, text),
        );
    }

    /// Writes a punctuator. Where lines may have a greatest length, a break may be due behind it.
    #[inline(never)]
    pub(crate) fn punct(&mut self, mark: Punctuator)
        ensures items { Performs (punct (spelling mark)) S.lines C.maps W.sheet self.old self.new }
    {
        if self.cfg.max_line.is_some() {
            return self.punct_in_bounds(mark);
        }
        self.punct_here(mark)
    }

    /// Writes a punctuator where lines have a greatest length. A function of its own: where there
    /// is none it takes fewer registers.
    #[inline(never)]
    fn punct_in_bounds(&mut self, mark: Punctuator)
        ensures items { Performs (punct (spelling mark)) S.lines C.maps W.sheet self.old self.new }
    {
        self.punct_here(mark)
    }

    /// Writes a punctuator. Inlined where it is called.
    #[inline(always)]
    #[tactic(auto, using(crate::proofs::Standings::refused_makes))]
    fn punct_here(&mut self, mark: Punctuator)
        ensures items { Performs (punct (spelling mark)) S.lines C.maps W.sheet self.old self.new }
    {
        if self.refusal.is_some() {
            return;
        }
        let done = self.lower.writes_punct(&self.cfg, &mut self.wr, mark);
        keep_reason(&mut self.refusal, done, &self.lower);
    }

    /// Writes a punctuator of an element, behind which no line may be ended.
    #[inline(never)]
    #[tactic(auto, using(crate::proofs::Standings::refused_makes))]
    pub(crate) fn bare_punct(&mut self, mark: Punctuator)
        ensures items { Performs (bare_punct (spelling mark))
            S.lines C.maps W.sheet self.old self.new }
    {
        if self.refusal.is_some() {
            return;
        }
        keep(
            &mut self.refusal,
            self.lower.bare_punct(&self.cfg, &mut self.wr, mark),
        );
    }

    /// Writes a semicolon behind which no line may be ended.
    #[tactic(auto, using(crate::proofs::Standings::refused_makes))]
    pub(crate) fn bare_semi(&mut self)
        ensures items { Performs bare_semi S.lines C.maps W.sheet self.old self.new }
    {
        if self.refusal.is_some() {
            return;
        }
        keep(
            &mut self.refusal,
            self.lower.bare_semi(&self.cfg, &mut self.wr),
        );
    }

    /// Here a line may be ended, where lines are bounded.
    #[inline(always)]
    #[tactic(auto, using(crate::proofs::Standings::refused_makes))]
    pub(crate) fn allow_break(&mut self)
        ensures items { Performs allow_break S.lines C.maps W.sheet self.old self.new }
    {
        if self.refusal.is_some() {
            return;
        }
        keep(
            &mut self.refusal,
            self.lower.allow_break(&self.cfg, &mut self.wr),
        );
    }

    /// Lines have at most `max` UTF-16 units from here on, as far as breaks are allowed.
    #[tactic(auto, using(crate::proofs::Standings::refused_makes))]
    pub(crate) fn begin_lines(&mut self, max: u32)
        ensures items { Performs (begin_lines max) S.lines C.maps W.sheet self.old self.new }
        ensures settings { self.new.cfg ≡ self.old.cfg }
    {
        if self.refusal.is_some() {
            return;
        }
        keep(
            &mut self.refusal,
            self.lower.begin_lines(&self.cfg, &mut self.wr, max),
        );
    }

    /// Lines are filled no more.
    #[tactic(auto, using(crate::proofs::Standings::refused_makes))]
    pub(crate) fn end_lines(&mut self)
        ensures items { Performs end_lines S.lines C.maps W.sheet self.old self.new }
    {
        if self.refusal.is_some() {
            return;
        }
        keep(
            &mut self.refusal,
            self.lower.end_lines(&self.cfg, &mut self.wr),
        );
    }

    /// Writes a punctuator, and records where it stands.
    #[inline(never)]
    #[tactic(auto, using(crate::proofs::Standings::refused_makes))]
    pub(crate) fn placed_punct(&mut self, span: Span, mark: Punctuator)
        ensures items { Performs (placed_punct span (spelling mark))
            S.lines C.maps W.sheet self.old self.new }
    {
        if self.refusal.is_some() {
            return;
        }
        keep(
            &mut self.refusal,
            self.lower.placed_punct(&self.cfg, &mut self.wr, span, mark),
        );
    }

    /// Writes a hashbang by what stands behind `#!`, and ends its line.
    #[tactic(auto, using(crate::proofs::Standings::refused_makes))]
    pub(crate) fn hashbang(&mut self, text: &str)
        ensures items { Performs (hashbang text.now) S.lines C.maps W.sheet self.old self.new }
    {
        if self.refusal.is_some() {
            return;
        }
        keep(
            &mut self.refusal,
            self.lower.hashbang(&self.cfg, &mut self.wr, text),
        );
    }

    /// Ends the line.
    #[tactic(auto, using(crate::proofs::Standings::refused_makes))]
    pub(crate) fn line(&mut self)
        ensures items { Performs line_end S.lines C.maps W.sheet self.old self.new }
    {
        if self.refusal.is_some() {
            return;
        }
        let done = self.lower.writes_line(&self.cfg, &mut self.wr);
        keep_reason(&mut self.refusal, done, &self.lower);
    }

    /// One level of indentation more.
    #[tactic(auto, using(crate::proofs::Standings::refused_deeper))]
    pub(crate) fn deeper(&mut self)
        ensures items { PerformsDeeper 1 deeper S.lines C.maps W.sheet self.old self.new }
        ensures level { HasLevels 1 (standing_of S.lines C.maps W.sheet self.new) }
    {
        if self.refusal.is_some() {
            return;
        }
        keep(
            &mut self.refusal,
            self.lower.deeper(&self.cfg, &mut self.wr),
        );
    }

    /// One level of indentation less.
    #[tactic(auto, using(crate::proofs::Standings::refused_shallower))]
    pub(crate) fn shallower(&mut self)
        requires { HasLevels 1 (standing_of S.lines C.maps W.sheet self.old) }
        ensures items { PerformsShallower 1 shallower S.lines C.maps W.sheet self.old self.new }
    {
        if self.refusal.is_some() {
            return;
        }
        keep(
            &mut self.refusal,
            self.lower.shallower(&self.cfg, &mut self.wr),
        );
    }

    /// Writes a semicolon that may be left out where it isn't needed. Where lines may have a
    /// greatest length, a break may be due behind it.
    #[inline(never)]
    pub(crate) fn semi(&mut self)
        ensures items { Performs (semi) S.lines C.maps W.sheet self.old self.new }
    {
        if self.cfg.max_line.is_some() {
            return self.semi_in_bounds();
        }
        self.semi_here()
    }

    /// Writes a semicolon where lines have a greatest length. A function of its own: where there is
    /// none it takes fewer registers.
    #[inline(never)]
    fn semi_in_bounds(&mut self)
        ensures items { Performs (semi) S.lines C.maps W.sheet self.old self.new }
    {
        self.semi_here()
    }

    /// Writes a semicolon. Inlined where it is called.
    #[inline(always)]
    #[tactic(auto, using(crate::proofs::Standings::refused_makes))]
    fn semi_here(&mut self)
        ensures items { Performs (semi) S.lines C.maps W.sheet self.old self.new }
    {
        if self.refusal.is_some() {
            return;
        }
        let done = self.lower.writes_semi(&self.cfg, &mut self.wr);
        keep_reason(&mut self.refusal, done, &self.lower);
    }

    /// Writes a blank.
    #[tactic(auto, using(crate::proofs::Standings::refused_makes))]
    pub(crate) fn space(&mut self)
        ensures items { Performs (space) S.lines C.maps W.sheet self.old self.new }
    {
        if self.refusal.is_some() {
            return;
        }
        let done = self.lower.writes_space(&self.cfg, &mut self.wr);
        keep_reason(&mut self.refusal, done, &self.lower);
    }

    /// Writes a blank, unless the settings are to minify.
    #[tactic(auto, using(crate::proofs::Standings::refused_makes))]
    pub(crate) fn formatting_space(&mut self)
        ensures items { Performs (formatting_space) S.lines C.maps W.sheet self.old self.new }
    {
        if self.refusal.is_some() {
            return;
        }
        let done = self.lower.writes_formatting_space(&self.cfg, &mut self.wr);
        keep_reason(&mut self.refusal, done, &self.lower);
    }

    /// Ends the line, unless the settings are to minify.
    #[tactic(auto, using(crate::proofs::Standings::refused_makes))]
    pub(crate) fn formatting_line(&mut self)
        ensures items { Performs (formatting_line) S.lines C.maps W.sheet self.old self.new }
    {
        if self.refusal.is_some() {
            return;
        }
        let done = self.lower.writes_formatting_line(&self.cfg, &mut self.wr);
        keep_reason(&mut self.refusal, done, &self.lower);
    }

    /// Writes a semicolon that is held back.
    #[tactic(auto, using(crate::proofs::Standings::refused_makes))]
    pub(crate) fn commit_pending_semi(&mut self)
        ensures items { Performs (commit_pending_semi) S.lines C.maps W.sheet self.old self.new }
    {
        if self.refusal.is_some() {
            return;
        }
        keep(
            &mut self.refusal,
            self.lower.commit_pending_semi(&self.cfg, &mut self.wr),
        );
    }

    /// Records a position, unless it is none. Where the writer keeps none, nothing else is asked.
    #[inline(always)]
    #[tactic(auto, using(crate::proofs::Unkept::no_position))]
    pub(crate) fn position(&mut self, pos: BytePos)
        ensures items { Performs (position pos) S.lines C.maps W.sheet self.old self.new }
    {
        if !self.wr.care_about_srcmap() {
            return;
        }
        self.kept_position(pos)
    }

    /// Records a position where the writer keeps them.
    #[tactic(auto, using(crate::proofs::Standings::refused_makes))]
    fn kept_position(&mut self, pos: BytePos)
        ensures items { Performs (position pos) S.lines C.maps W.sheet self.old self.new }
    {
        if self.refusal.is_some() {
            return;
        }
        keep(
            &mut self.refusal,
            self.lower.position(&self.cfg, &mut self.wr, pos),
        );
    }

    /// Records the position before one, unless that one is none. Where the writer keeps none,
    /// nothing else is asked.
    #[inline(always)]
    #[tactic(auto, using(crate::proofs::Unkept::no_position_before))]
    pub(crate) fn position_before(&mut self, pos: BytePos)
        ensures items { Performs (position_before pos) S.lines C.maps W.sheet self.old self.new }
    {
        if !self.wr.care_about_srcmap() {
            return;
        }
        self.kept_position_before(pos)
    }

    /// Records a position where the writer keeps them.
    #[tactic(auto, using(crate::proofs::Standings::refused_makes))]
    fn kept_position_before(&mut self, pos: BytePos)
        ensures items { Performs (position_before pos) S.lines C.maps W.sheet self.old self.new }
    {
        if self.refusal.is_some() {
            return;
        }
        keep(
            &mut self.refusal,
            self.lower.position_before(&self.cfg, &mut self.wr, pos),
        );
    }

    /// Records where a node begins.
    pub(crate) fn start_of(&mut self, span: Span)
        ensures items { Performs (start_of span) S.lines C.maps W.sheet self.old self.new }
    {
        self.position(span.lo)
    }

    /// Records where a node ends.
    pub(crate) fn end_of(&mut self, span: Span)
        ensures items { Performs (end_of span) S.lines C.maps W.sheet self.old self.new }
    {
        self.position(span.hi)
    }

    /// Records where a node's last character stands.
    pub(crate) fn last_of(&mut self, span: Span)
        ensures items { Performs (last_of span) S.lines C.maps W.sheet self.old self.new }
    {
        self.position_before(span.hi)
    }

    /// Writes the comments that stand before a position. Where there are none there, that takes no
    /// call.
    #[inline(always)]
    #[tactic(auto, using(crate::proofs::Without::no_leading))]
    pub(crate) fn leading_comments(&mut self, pos: BytePos)
        ensures items { Performs (leading_comments pos) S.lines C.maps W.sheet self.old self.new }
    {
        if !leads(&self.comments, pos) {
            return;
        }
        self.leading_taken(pos)
    }

    /// Writes the comments before a position where there are some.
    #[inline(never)]
    #[tactic(auto, using(crate::proofs::Standings::refused_makes))]
    fn leading_taken(&mut self, pos: BytePos)
        ensures items { Performs (leading_comments pos) S.lines C.maps W.sheet self.old self.new }
    {
        if self.refusal.is_some() {
            return;
        }
        keep(
            &mut self.refusal,
            self.lower
                .leading_comments(&self.cfg, &mut self.comments, &mut self.wr, pos),
        );
    }

    /// Writes the comments that stand after a position. Where there are none there, that takes no
    /// call.
    #[inline(always)]
    #[tactic(auto, using(crate::proofs::Without::no_trailing))]
    pub(crate) fn trailing_comments(&mut self, pos: BytePos, prefix_space: bool)
        ensures items { Performs (trailing_comments prefix_space pos)
            S.lines C.maps W.sheet self.old self.new }
    {
        if !trails(&self.comments, pos) {
            return;
        }
        self.trailing_taken(pos, prefix_space)
    }

    /// Writes the comments after a position where there are some.
    #[inline(never)]
    #[tactic(auto, using(crate::proofs::Standings::refused_makes))]
    fn trailing_taken(&mut self, pos: BytePos, prefix_space: bool)
        ensures items { Performs (trailing_comments prefix_space pos)
            S.lines C.maps W.sheet self.old self.new }
    {
        if self.refusal.is_some() {
            return;
        }
        keep(
            &mut self.refusal,
            self.lower.trailing_comments(
                &self.cfg,
                &mut self.comments,
                &mut self.wr,
                pos,
                prefix_space,
            ),
        );
    }

    /// Writes a blank where one is needed, else what the settings want.
    #[tactic(auto, unfolding(crate::specs::Exprs::blank))]
    pub(crate) fn blank(&mut self, needed: bool)
        ensures items { Performs (blank needed) S.lines C.maps W.sheet self.old self.new }
    {
        if needed {
            self.space()
        } else {
            self.formatting_space()
        }
    }

    /// Writes a blank where one is needed.
    #[tactic(auto, unfolding(crate::specs::Exprs::space_if))]
    pub(crate) fn space_if(&mut self, needed: bool)
        ensures items { Performs (space_if needed) S.lines C.maps W.sheet self.old self.new }
    {
        if needed {
            self.space();
        }
    }

    /// Writes a punctuator between two blanks, as ` ? `; the blanks aren't written where the
    /// settings are to minify.
    #[tactic(auto, using(crate::proofs::Between::spaced_tight, crate::proofs::Between::spaced_between))]
    pub(crate) fn spaced_punct(&mut self, mark: Punctuator)
        ensures items { Performs (spaced_punct (spelling mark))
            S.lines C.maps W.sheet self.old self.new }
    {
        if self.cfg.minify {
            self.punct(mark)
        } else {
            self.punct_between(mark)
        }
    }

    /// Writes an operator between two blanks, as ` = `; the blanks aren't written where the
    /// settings are to minify.
    #[tactic(auto, using(crate::proofs::Between::formatted_tight, crate::proofs::Between::formatted_between))]
    pub(crate) fn formatted_operator(&mut self, mark: Punctuator)
        ensures items { Performs (formatted_operator (spelling mark))
            S.lines C.maps W.sheet self.old self.new }
    {
        if self.cfg.minify {
            self.operator(mark)
        } else {
            self.operator_between(mark)
        }
    }

    /// Writes a punctuator between two blanks. Where no positions are kept it is one text.
    #[inline(never)]
    pub(crate) fn punct_between(&mut self, mark: Punctuator)
        ensures items { Performs (punct_between (spelling mark))
            S.lines C.maps W.sheet self.old self.new }
    {
        if self.wr.care_about_srcmap() {
            return self.punct_and_blanks(mark);
        }
        self.punct_in_blanks(mark)
    }

    /// Writes a punctuator between two blanks, text by text.
    #[inline(never)]
    #[tactic(auto, using(crate::proofs::Standings::refused_makes))]
    fn punct_and_blanks(&mut self, mark: Punctuator)
        ensures items { Performs (punct_between (spelling mark))
            S.lines C.maps W.sheet self.old self.new }
    {
        if self.refusal.is_some() {
            return;
        }
        let done = self
            .lower
            .writes_punct_and_blanks(&self.cfg, &mut self.wr, mark);
        keep_reason(&mut self.refusal, done, &self.lower);
    }

    /// Writes a punctuator between two blanks as one text, where that may be.
    #[inline(always)]
    #[tactic(auto, using(crate::proofs::Standings::refused_makes))]
    fn punct_in_blanks(&mut self, mark: Punctuator)
        ensures items { Performs (punct_between (spelling mark))
            S.lines C.maps W.sheet self.old self.new }
    {
        if self.refusal.is_some() {
            return;
        }
        let done = self
            .lower
            .writes_punct_between(&self.cfg, &mut self.wr, mark);
        keep_reason(&mut self.refusal, done, &self.lower);
    }

    /// Writes an operator that is a punctuator, between two blanks. Where no positions are kept it
    /// is one text.
    #[inline(never)]
    pub(crate) fn operator_between(&mut self, mark: Punctuator)
        ensures items { Performs (operator_between (spelling mark))
            S.lines C.maps W.sheet self.old self.new }
    {
        if self.wr.care_about_srcmap() {
            return self.operator_and_blanks(mark);
        }
        self.operator_in_blanks(mark)
    }

    /// Writes an operator between two blanks, text by text.
    #[inline(never)]
    #[tactic(auto, using(crate::proofs::Standings::refused_makes))]
    fn operator_and_blanks(&mut self, mark: Punctuator)
        ensures items { Performs (operator_between (spelling mark))
            S.lines C.maps W.sheet self.old self.new }
    {
        if self.refusal.is_some() {
            return;
        }
        let done = self
            .lower
            .writes_operator_and_blanks(&self.cfg, &mut self.wr, mark);
        keep_reason(&mut self.refusal, done, &self.lower);
    }

    /// Writes an operator between two blanks as one text, where that may be.
    #[inline(always)]
    #[tactic(auto, using(crate::proofs::Standings::refused_makes))]
    fn operator_in_blanks(&mut self, mark: Punctuator)
        ensures items { Performs (operator_between (spelling mark))
            S.lines C.maps W.sheet self.old self.new }
    {
        if self.refusal.is_some() {
            return;
        }
        let done = self
            .lower
            .writes_operator_between(&self.cfg, &mut self.wr, mark);
        keep_reason(&mut self.refusal, done, &self.lower);
    }

    /// Writes the comments before a node, and records its start.
    #[tactic(auto, unfolding(crate::specs::Exprs::opened))]
    pub(crate) fn opened(&mut self, span: Span)
        ensures items { Performs (opened span) S.lines C.maps W.sheet self.old self.new }
    {
        self.leading_comments(span.lo);
        self.start_of(span);
    }

    /// Writes the comments at the position before one.
    #[tactic(auto, unfolding(crate::specs::Exprs::comments_before))]
    pub(crate) fn comments_before(&mut self, pos: BytePos)
        ensures items { Performs (comments_before pos) S.lines C.maps W.sheet self.old self.new }
    {
        if pos.0 == 0 {
            return;
        }
        self.leading_comments(BytePos(pos.0 - 1))
    }

    /// Writes the comments before the last character of what ends at a position. Where there are
    /// none, that takes no call.
    #[inline(always)]
    #[tactic(auto, using(crate::proofs::Without::none_there, crate::proofs::Without::none_before_end))]
    pub(crate) fn comments_before_end(&mut self, pos: BytePos)
        ensures items { Performs (comments_before_end pos)
            S.lines C.maps W.sheet self.old self.new }
    {
        if self.comments.is_none() {
            return;
        }
        self.taken_before_end(pos)
    }

    /// Writes the comments before the last character of what ends at a position, where there are
    /// some.
    #[inline(never)]
    #[tactic(auto, using(crate::proofs::Standings::refused_makes))]
    fn taken_before_end(&mut self, pos: BytePos)
        ensures items { Performs (comments_before_end pos)
            S.lines C.maps W.sheet self.old self.new }
    {
        if self.refusal.is_some() {
            return;
        }
        keep(
            &mut self.refusal,
            self.lower
                .comments_before_end(&self.cfg, &mut self.comments, &mut self.wr, pos),
        );
    }

    /// Writes a semicolon that is held back at the end, unless the settings leave it out.
    #[tactic(auto, unfolding(crate::specs::Programs::last_semi), using(crate::proofs::Asked::kept_back, crate::proofs::Asked::committed))]
    pub(crate) fn last_semi(&mut self)
        ensures items { Performs (last_semi) S.lines C.maps W.sheet self.old self.new }
    {
        if self.cfg.omit_last_semi {
            return;
        }
        self.commit_pending_semi()
    }
}
