//! A writer behind a reference is a writer, of the same sheet.

use crate::WriteJs;
use swc_ecma_codegen_common::{BytePos, Error, Result, Span};

impl<W: WriteJs> WriteJs for &mut W {
    ghost sheet = { λ w. W.sheet w.now };

    ghost reason = { λ w. W.reason w.now };

    fn increase_indent(&mut self) -> Result {
        (**self).increase_indent()
    }

    fn decrease_indent(&mut self) -> Result {
        (**self).decrease_indent()
    }

    fn write_semi(&mut self, span: Option<Span>) -> Result {
        (**self).write_semi(span)
    }

    fn write_space(&mut self) -> Result {
        (**self).write_space()
    }

    fn write_keyword(&mut self, span: Option<Span>, s: &'static str) -> Result {
        (**self).write_keyword(span, s)
    }

    fn write_operator(&mut self, span: Option<Span>, s: &str) -> Result {
        (**self).write_operator(span, s)
    }

    fn write_param(&mut self, s: &str) -> Result {
        (**self).write_param(s)
    }

    fn write_property(&mut self, s: &str) -> Result {
        (**self).write_property(s)
    }

    fn write_line(&mut self) -> Result {
        (**self).write_line()
    }

    fn write_lit(&mut self, span: Span, s: &str) -> Result {
        (**self).write_lit(span, s)
    }

    fn write_comment(&mut self, s: &str) -> Result {
        (**self).write_comment(s)
    }

    fn write_str_lit(&mut self, span: Span, s: &str) -> Result {
        (**self).write_str_lit(span, s)
    }

    fn write_str(&mut self, s: &str) -> Result {
        (**self).write_str(s)
    }

    fn write_symbol(&mut self, span: Span, s: &str) -> Result {
        (**self).write_symbol(span, s)
    }

    fn write_punct(&mut self, span: Option<Span>, s: &'static str) -> Result {
        (**self).write_punct(span, s)
    }

    fn care_about_srcmap(&self) -> bool {
        (**self).care_about_srcmap()
    }

    fn add_srcmap(&mut self, pos: BytePos) -> Result {
        (**self).add_srcmap(pos)
    }

    fn commit_pending_semi(&mut self) -> Result {
        (**self).commit_pending_semi()
    }

    fn begin_lines(&mut self, max: u32) -> Result {
        (**self).begin_lines(max)
    }

    fn allow_break(&mut self) -> Result {
        (**self).allow_break()
    }

    fn end_lines(&mut self) -> Result {
        (**self).end_lines()
    }

    fn can_ignore_invalid_unicodes(&mut self) -> bool {
        (**self).can_ignore_invalid_unicodes()
    }

    fn is_settled(&self) -> bool {
        (**self).is_settled()
    }

    fn writes_in_line(&mut self, s: &str) -> bool {
        (**self).writes_in_line(s)
    }

    fn take_reason(&mut self) -> Error {
        (**self).take_reason()
    }

    fn holds_semi(&self) -> bool {
        (**self).holds_semi()
    }
}
