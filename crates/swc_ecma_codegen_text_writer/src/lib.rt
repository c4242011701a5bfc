//! What an emitter asks of a writer, and the writers.
#![tactic(auto)]

ghost use Rattle.std.specs.Prelude.{◌≡◌, ◌<◌, true, false};
ghost use Rattle.swc_ecma_codegen_common.specs.Refusals.{in_short, reason_of};
ghost use Rattle.swc_ecma_codegen_common.specs.declared.errors.Refusal.{Refusal};
ghost use Rattle.swc_ecma_codegen_text_writer.specs.Reach.{is_in_line};
ghost use Rattle.swc_ecma_codegen_text_writer.specs.Sheet.{Sheet, answered, holds_semicolons, is_settled, Writes, Semi, Space, Keyword, Operator, Param, Property, Line, Lit, Comment, StrLit, Str, Symbol, Punct, Position, Commit, Deeper, Shallower, BeginLines, AllowBreak, EndLines};

mod basic_impl;
mod boxed;
mod columns;
mod filling;
mod held;
mod kept;
pub mod laws;
mod lent;
mod logs;
mod outlet;
mod positions;
mod semicolon;

pub use crate::basic_impl::{JsWriter, PositionsWriter};
pub use crate::positions::is_in_line;
pub use crate::semicolon::{OmitTrailingSemi, omit_trailing_semi};
use swc_ecma_codegen_common::{BytePos, Error, Result, Span};

/// A writer of tokens. Its value is a sheet, and each call has one effect on it, or is refused.
///
/// After a refusal what is out is a beginning of what the call would have written, and every further call that gives
/// a `Result` answers `Failed`, one of an empty text too. A position that had no room is not recorded then: the list ends
/// before it. swc's `text_writer::WriteJs`.
pub trait WriteJs {
    ghost sheet: { Self → Sheet };

    ghost reason: { Self → Refusal };

    /// One level of indentation more, for lines that begin from now on.
    fn increase_indent(&mut self) -> Result
        ensures { Writes Deeper (sheet self.old) (sheet self.new) (in_short result) };

    /// One level of indentation less.
    fn decrease_indent(&mut self) -> Result
        requires { 0 < (sheet self.old).indentation }
        ensures { Writes Shallower (sheet self.old) (sheet self.new) (in_short result) };

    /// Writes `;`, which a writer that holds semicolons may leave out where it isn't needed.
    fn write_semi(&mut self, span: Option<Span>) -> Result
        ensures { Writes (Semi span) (sheet self.old) (sheet self.new) (in_short result) };

    /// Writes a blank.
    fn write_space(&mut self) -> Result
        ensures { Writes Space (sheet self.old) (sheet self.new) (in_short result) };

    /// Writes a keyword.
    fn write_keyword(&mut self, span: Option<Span>, s: &'static str) -> Result
        ensures { Writes (Keyword span s.now) (sheet self.old) (sheet self.new) (in_short result) };

    /// Writes an operator.
    fn write_operator(&mut self, span: Option<Span>, s: &str) -> Result
        ensures { Writes (Operator span s.now) (sheet self.old) (sheet self.new)
            (in_short result) };

    /// Writes a parameter.
    fn write_param(&mut self, s: &str) -> Result
        ensures { Writes (Param s.now) (sheet self.old) (sheet self.new) (in_short result) };

    /// Writes a property.
    fn write_property(&mut self, s: &str) -> Result
        ensures { Writes (Property s.now) (sheet self.old) (sheet self.new) (in_short result) };

    /// Ends the line, unless at a line's start.
    fn write_line(&mut self) -> Result
        ensures { Writes Line (sheet self.old) (sheet self.new) (in_short result) };

    /// Writes a literal, or a part of one.
    fn write_lit(&mut self, span: Span, s: &str) -> Result
        ensures { Writes (Lit span s.now) (sheet self.old) (sheet self.new) (in_short result) };

    /// Writes a comment, or a part of one.
    fn write_comment(&mut self, s: &str) -> Result
        ensures { Writes (Comment s.now) (sheet self.old) (sheet self.new) (in_short result) };

    /// Writes a string.
    fn write_str_lit(&mut self, span: Span, s: &str) -> Result
        ensures { Writes (StrLit span s.now) (sheet self.old) (sheet self.new) (in_short result) };

    /// Writes a text as it is.
    fn write_str(&mut self, s: &str) -> Result
        ensures { Writes (Str s.now) (sheet self.old) (sheet self.new) (in_short result) };

    /// Writes a name.
    fn write_symbol(&mut self, span: Span, s: &str) -> Result
        ensures { Writes (Symbol span s.now) (sheet self.old) (sheet self.new) (in_short result) };

    /// Writes a punctuator.
    fn write_punct(&mut self, span: Option<Span>, s: &'static str) -> Result
        ensures { Writes (Punct span s.now) (sheet self.old) (sheet self.new) (in_short result) };

    /// Whether it keeps positions.
    fn care_about_srcmap(&self) -> bool
        ensures { result ≡ (sheet self.now).keeps_positions };

    /// Records that what is written next stands at `pos` in its source text.
    fn add_srcmap(&mut self, pos: BytePos) -> Result
        ensures { Writes (Position pos) (sheet self.old) (sheet self.new) (in_short result) };

    /// Writes a semicolon that is held back.
    fn commit_pending_semi(&mut self) -> Result
        ensures { Writes Commit (sheet self.old) (sheet self.new) (in_short result) };

    /// From here on lines have at most `max` UTF-16 units, where breaks are allowed in time: with 3, `a,` `b,` `c` with a break allowed
    /// after each comma is written `a,` LF `b,c`. What is written is held in memory from here on, and goes out where a break is
    /// allowed. A second call only sets `max`.
    fn begin_lines(&mut self, max: u32) -> Result
        ensures { Writes (BeginLines max) (sheet self.old) (sheet self.new) (in_short result) };

    /// Here a line may end. What is held goes out. If its first line has no room in the line so far, because both together have more
    /// than `max` units, a line end goes out before it, but never before the first since `begin_lines`. Where lines aren't filled
    /// it does nothing.
    fn allow_break(&mut self) -> Result
        ensures { Writes AllowBreak (sheet self.old) (sheet self.new) (in_short result) };

    /// Lines are filled no more. What is held goes out as at an allowed break.
    fn end_lines(&mut self) -> Result
        ensures { Writes EndLines (sheet self.old) (sheet self.new) (in_short result) };

    /// Whether names keep U+0000 after a backslash.
    fn can_ignore_invalid_unicodes(&mut self) -> bool
        ensures answer { result ≡ (sheet self.old).keeps_invalid }
        ensures same { sheet self.new ≡ sheet self.old };

    /// Whether no semicolon is held back now.
    fn is_settled(&self) -> bool
        ensures { result ≡ is_settled (sheet self.now).semicolons };

    /// Writes a text that stays in its line, where no semicolon is held back, as `write_str` does. Whether it was written: where it
    /// was refused, `take_reason` says why.
    fn writes_in_line(&mut self, s: &str) -> bool
        requires settled { (sheet self.old).refused ≡ false →
            is_settled (sheet self.old).semicolons ≡ true }
        requires in_line { is_in_line s.now ≡ true }
        ensures { Writes (Str s.now) (sheet self.old) (sheet self.new)
            (answered result (reason self.new)) };

    /// Why `writes_in_line` was refused, with the error of the writer under it, which is given once.
    fn take_reason(&mut self) -> Error
        ensures reason { reason_of result ≡ reason self.old }
        ensures same { sheet self.new ≡ sheet self.old };

    /// Whether it holds semicolons back until it knows what follows.
    fn holds_semi(&self) -> bool
        ensures { result ≡ holds_semicolons (sheet self.now).semicolons };
}
