//! What the writer over an `io::Write` does at each call.

use crate::WriteJs;
use crate::basic_impl::Lines;
use crate::kept::KeepsPositions;
use std::io::Write;
use swc_ecma_codegen_common::{BytePos, Error, Result, Span};

impl<W: Write, K: KeepsPositions> WriteJs for Lines<'_, W, K> {
    ghost use Rattle.swc_ecma_codegen_text_writer.specs.View.{sheet_of};

    ghost sheet = { sheet_of };

    ghost reason = { λ w. w.reason };

    fn increase_indent(&mut self) -> Result {
        let answer = self.deepen();
        self.answer(answer)
    }

    fn decrease_indent(&mut self) -> Result {
        let answer = self.shallow();
        self.answer(answer)
    }

    #[inline(always)]
    #[tactic(auto, unfolding(crate::specs::Sheet::effect), using(crate::proofs::Steps::semicolon_at_once))]
    fn write_semi(&mut self, span: Option<Span>) -> Result {
        let answer = self.write(span, ";");
        self.answer(answer)
    }

    #[inline(always)]
    #[tactic(auto, unfolding(crate::specs::Sheet::effect), using(crate::proofs::Steps::text_at_once))]
    fn write_space(&mut self) -> Result {
        let answer = self.write(None, " ");
        self.answer(answer)
    }

    #[inline(always)]
    #[tactic(auto, unfolding(crate::specs::Sheet::effect), using(crate::proofs::Steps::text_at_once))]
    fn write_keyword(&mut self, span: Option<Span>, s: &'static str) -> Result {
        let answer = self.write(span, s);
        self.answer(answer)
    }

    #[inline(always)]
    #[tactic(auto, unfolding(crate::specs::Sheet::effect), using(crate::proofs::Steps::text_at_once))]
    fn write_operator(&mut self, span: Option<Span>, s: &str) -> Result {
        let answer = self.write(span, s);
        self.answer(answer)
    }

    #[tactic(auto, unfolding(crate::specs::Sheet::effect), using(crate::proofs::Steps::text_at_once))]
    fn write_param(&mut self, s: &str) -> Result {
        let answer = self.write(None, s);
        self.answer(answer)
    }

    #[tactic(auto, unfolding(crate::specs::Sheet::effect), using(crate::proofs::Steps::text_at_once))]
    fn write_property(&mut self, s: &str) -> Result {
        let answer = self.write(None, s);
        self.answer(answer)
    }

    #[inline(always)]
    #[tactic(auto, unfolding(crate::specs::Sheet::effect), using(crate::proofs::Steps::line_at_once))]
    fn write_line(&mut self) -> Result {
        let answer = self.end_line();
        self.answer(answer)
    }

    #[tactic(auto, unfolding(crate::specs::Sheet::effect), using(crate::proofs::Steps::literal_at_once))]
    fn write_lit(&mut self, span: Span, s: &str) -> Result {
        let answer = self.literal(span, s);
        self.answer(answer)
    }

    #[tactic(auto, unfolding(crate::specs::Sheet::effect), using(crate::proofs::Steps::text_at_once))]
    fn write_comment(&mut self, s: &str) -> Result {
        let answer = self.write(None, s);
        self.answer(answer)
    }

    #[tactic(auto, unfolding(crate::specs::Sheet::effect), using(crate::proofs::Steps::literal_at_once))]
    fn write_str_lit(&mut self, span: Span, s: &str) -> Result {
        let answer = self.literal(span, s);
        self.answer(answer)
    }

    #[tactic(auto, unfolding(crate::specs::Sheet::effect), using(crate::proofs::Steps::text_at_once))]
    fn write_str(&mut self, s: &str) -> Result {
        let answer = self.write(None, s);
        self.answer(answer)
    }

    #[inline(always)]
    #[tactic(auto, unfolding(crate::specs::Sheet::effect), using(crate::proofs::Steps::text_at_once))]
    fn write_symbol(&mut self, span: Span, s: &str) -> Result {
        let answer = self.write(Some(span), s);
        self.answer(answer)
    }

    #[inline(always)]
    #[tactic(auto, unfolding(crate::specs::Sheet::effect), using(crate::proofs::Steps::punct_at_once))]
    fn write_punct(&mut self, span: Option<Span>, s: &'static str) -> Result {
        let answer = self.write(span, s);
        self.answer(answer)
    }

    #[inline(always)]
    #[tactic(auto, unfolding(crate::specs::View::sheet_of))]
    fn care_about_srcmap(&self) -> bool {
        self.kept.is_kept()
    }

    #[tactic(auto, unfolding(crate::specs::Sheet::effect))]
    fn add_srcmap(&mut self, pos: BytePos) -> Result {
        let answer = self.point(pos);
        self.answer(answer)
    }

    #[inline(always)]
    #[tactic(auto, unfolding(crate::specs::Sheet::effect), using(crate::proofs::Steps::settled_at_once))]
    fn commit_pending_semi(&mut self) -> Result {
        let answer = self.nothing();
        self.answer(answer)
    }

    fn begin_lines(&mut self, max: u32) -> Result {
        let answer = self.begin(max);
        self.answer(answer)
    }

    fn allow_break(&mut self) -> Result {
        let answer = self.allow();
        self.answer(answer)
    }

    fn end_lines(&mut self) -> Result {
        let answer = self.close();
        self.answer(answer)
    }

    #[inline(always)]
    #[tactic(auto, unfolding(crate::specs::View::sheet_of))]
    fn can_ignore_invalid_unicodes(&mut self) -> bool {
        false
    }

    #[inline(always)]
    #[tactic(auto, unfolding(crate::specs::View::sheet_of))]
    fn is_settled(&self) -> bool {
        true
    }

    #[inline(always)]
    #[tactic(auto, unfolding(crate::specs::Sheet::effect), using(crate::proofs::Steps::text_at_once))]
    fn writes_in_line(&mut self, s: &str) -> bool {
        self.writes_known(s)
    }

    fn take_reason(&mut self) -> Error {
        self.refuse(self.reason)
    }

    #[tactic(auto, unfolding(crate::specs::View::sheet_of))]
    fn holds_semi(&self) -> bool {
        false
    }
}
