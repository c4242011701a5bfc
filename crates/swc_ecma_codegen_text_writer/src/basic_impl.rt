//! The writer over an `io::Write`.

ghost use Rattle.std.specs.Prelude.{◌≡◌, false, true, length, None, codes};
ghost use Rattle.std.specs.List.{repeat};
ghost use Rattle.std.proofs.Props.{props};
ghost use Rattle.swc_ecma_codegen_text_writer.specs.Places.{origin, after_text};
ghost use Rattle.swc_ecma_codegen_text_writer.specs.Columns.{Stands};
ghost use Rattle.swc_ecma_codegen_text_writer.specs.Reach.{is_in_line};
ghost use Rattle.swc_ecma_codegen_text_writer.specs.KeptPositions.{IsCounted};
ghost use Rattle.swc_ecma_codegen_text_writer.specs.Held.{notes_in};

mod calls;
mod lengths;
mod recording;
mod texts;

use crate::columns::Column;
use crate::held::Held;
use crate::kept::{KeepsPositions, OptionalPositions, OwnedPositions};
use crate::outlet::Outlet;
use crate::positions::is_in_line;
use std::alloc::Global;
use std::io::Write;
use swc_ecma_codegen_common::{Answer, BytePos, Error, LineCol, Refusal, Result, Span};

const DEFAULT_INDENT: &str = "    ";

/// A `JsWriter` with any `K` that keeps its positions, or keeps none. Since `K` is a parameter, its own functions know of
/// no `&mut` in it, and `into_inner` may take it by value.
#[derive(Drop)]
pub struct Lines<'a, W: Write, K: KeepsPositions> {
    alloc: Global,
    outlet: Outlet<W>,
    new_line: &'a str,
    indent_str: &'static str,
    // One level writes four blanks.
    usual_indent: bool,
    indent: u32,
    line_start: bool,
    failed: bool,
    // A text is only sent: nothing was refused, no line starts, and no lines are filled.
    plain: bool,
    kept: K,
    // The column where all that went out ends, for lines that are filled.
    column: Column,
    // While lines are filled, what was written since the last allowed break.
    held: Option<Held>,
    // Why the last call was refused that only says whether it was.
    reason: Refusal,
    ghost usual: { usual_indent ≡ true → indent_str.now ≡ codes "    " } by { Prim.hlevel props },
    ghost plain_fresh: { plain ≡ true → failed ≡ false } by { Prim.hlevel props },
    ghost plain_in_line: { plain ≡ true → line_start ≡ false } by { Prim.hlevel props },
    ghost plain_flowing: { plain ≡ true → held ≡ None } by { Prim.hlevel props },
    ghost held_bare: { K.keeps kept ≡ false → length (notes_in held) ≡ 0 } by { Prim.hlevel props },
    ghost shown: { failed ≡ false →
        Stands column.units (after_text outlet.log.bytes origin) } by { Prim.hlevel props },
    ghost counted: { failed ≡ false → IsCounted (K.keeps kept) (K.reached kept)
        (after_text outlet.log.bytes origin) } by { Prim.hlevel props },
}

/// Writes lines with their indentation: at a line's start a text that isn't empty has the indentation first, and a
/// line ends only where it has begun.
///
/// Over a `Vec`, with the line end `"\n"`, the calls `increase_indent`, `write_str("a")`, `write_line`, `write_line`,
/// `write_str("")`, `write_str("b")` write `"    a\n    b"`.
///
/// Where it was given a list, it records positions there: a position with the line and the column, both from 0, that
/// what stands there has in all that this writer wrote. Lines end with LF, CR, or CR and LF, and columns are UTF-16
/// units. Position 0 is none, and is left out; so is a pair that the list has.
///
/// Without such a list no call takes memory, so none answers `OutOfMemory`, unless lines are filled; with one a call does where the
/// list can't grow, and the list is then as it was. While lines are filled, what was written since the last allowed break is held in
/// memory. A call answers `Writer` where the writer under it failed, was interrupted, or took no byte of some
/// (`ErrorKind::WriteZero`); `PositionTooLarge` where the indentation would pass 4294967295 levels, or where the line or the
/// column of a position would; `Failed` where an earlier call was refused. swc's `text_writer::basic_impl::JsWriter`.
pub type JsWriter<'a, W> = Lines<'a, W, OptionalPositions<'a>>;

impl<'a, W: Write> JsWriter<'a, W> {
    ghost use Rattle.std.specs.Prelude.{IsSome, Some, None};
    ghost use Rattle.swc_ecma_codegen_text_writer.specs.Contents.{or_empty};
    ghost use Rattle.swc_ecma_codegen_text_writer.specs.View.{sheet_of, new_sheet, keeping, Tells};

    /// A writer at a line's start, with no indentation, whose lines end with `new_line`, as `"\n"` or `"\r\n"`.
    /// Positions are recorded in `srcmap`, where there is such a list. It asks nothing of `wr`, which may be a file.
    pub fn new<S>(
        alloc: Global,
        _: &S,
        new_line: &'a str,
        wr: W,
        srcmap: Option<&'a mut Vec<(BytePos, LineCol)>>,
    ) -> JsWriter<'a, W>
        ensures sheet { srcmap.entry ≡ None →
            sheet_of result ≡ new_sheet (or_empty (W.contents wr)) new_line.now }
        ensures positions { (list : _) → srcmap.entry ≡ Some list →
            sheet_of result ≡ keeping list.now.items
            (new_sheet (or_empty (W.contents wr)) new_line.now) }
        ensures tells { IsSome (W.contents wr) → Tells result }
    {
        Lines::on(alloc, new_line, wr, OptionalPositions::new(srcmap))
    }
}

/// A `JsWriter` that owns its list of positions, and gives it back with the writer under it: `into_parts`.
///
/// It writes what a `JsWriter` with a list writes, records what that records, and is refused as that is.
pub type PositionsWriter<'a, W> = Lines<'a, W, OwnedPositions>;

impl<'a, W: Write> PositionsWriter<'a, W> {
    ghost use Rattle.std.specs.Prelude.{IsSome, Some, []};
    ghost use Rattle.std.specs.Str.{is_utf8};
    ghost use Rattle.swc_ecma_codegen_text_writer.specs.Contents.{or_empty};
    ghost use Rattle.swc_ecma_codegen_text_writer.specs.View.{sheet_of, new_sheet, keeping, Tells};

    /// A writer as `JsWriter::new` gives it, that records positions in a list of its own, none yet. Takes no memory before
    /// a position is recorded.
    pub fn keeping_positions<S>(
        alloc: Global,
        _: &S,
        new_line: &'a str,
        wr: W,
    ) -> PositionsWriter<'a, W>
        ensures sheet { sheet_of result
            ≡ keeping [] (new_sheet (or_empty (W.contents wr)) new_line.now) }
        ensures tells { IsSome (W.contents wr) → Tells result }
    {
        Lines::on(alloc, new_line, wr, OwnedPositions::new(alloc))
    }

    /// The writer under it, as `into_inner` gives it, and the positions that were recorded, in their order: each with the
    /// line and the column, both from 0, that the text had reached, in UTF-16 units.
    #[tactic(auto, unfolding(crate::specs::View::sheet_of))]
    pub fn into_parts(self) -> (W, Vec<(BytePos, LineCol)>)
        ensures text { Tells self.entry → W.contents result.0 ≡ Some (sheet_of self.entry).text }
        ensures whole { (sheet_of self.entry).whole ≡ is_utf8 (sheet_of self.entry).text }
        ensures pairs { result.1.items ≡ (sheet_of self.entry).pairs }
    {
        let Lines {
            alloc: _,
            outlet,
            new_line: _,
            indent_str: _,
            usual_indent: _,
            indent: _,
            line_start: _,
            failed: _,
            plain: _,
            kept,
            column: _,
            held: _,
            reason: _,
        } = self;
        (outlet.into_inner(), kept.into_list())
    }
}

impl<'a, W: Write, K: KeepsPositions> Lines<'a, W, K> {
    ghost use Rattle.std.specs.Prelude.{◌<◌, length, IsSome, Some, None, Err};
    ghost use Rattle.std.specs.Str.{is_utf8};
    ghost use Rattle.swc_ecma_codegen_common.specs.Refusals.{in_short, reason_of};
    ghost use Rattle.swc_ecma_codegen_text_writer.specs.Contents.{or_empty};
    ghost use Rattle.swc_ecma_codegen_text_writer.specs.Sheet.{Writes, answered, Deeper, Shallower, released, appended, indented, recorded, start_recorded, end_recorded, started, written, literal_written};
    ghost use Rattle.swc_ecma_codegen_text_writer.specs.View.{sheet_of, new_sheet, keeping, Prefaces, Tells, Reaches, WritesNothing};

    /// A writer at a line's start, with what keeps its positions.
    #[tactic(auto, unfolding(crate::specs::View::sheet_of, crate::specs::Places::after_text))]
    fn on(alloc: Global, new_line: &'a str, wr: W, kept: K) -> Lines<'a, W, K>
        requires counted { IsCounted (K.keeps kept) (K.reached kept) origin }
        requires pending { K.pending kept ≡ None }
        ensures sheet { sheet_of result ≡ record (new_sheet (or_empty (W.contents wr)) new_line.now)
            { keeps_positions = K.keeps kept; pairs = K.pairs kept; takes_memory = K.keeps kept } }
        ensures tells { IsSome (W.contents wr) → Tells result }
    {
        Lines {
            alloc,
            outlet: Outlet::new(wr),
            new_line,
            indent_str: DEFAULT_INDENT,
            usual_indent: true,
            indent: 0,
            line_start: true,
            failed: false,
            plain: false,
            kept,
            column: Column::origin(),
            held: None,
            reason: Refusal::Failed,
        }
    }

    /// What one level of indentation writes: four blanks unless it is called.
    #[tactic(auto, unfolding(crate::specs::View::sheet_of))]
    pub fn set_indent_str(&mut self, indent_str: &'static str)
        ensures sheet { sheet_of self.new ≡ record (sheet_of self.old)
            { indent_text = indent_str.now } }
        ensures tells { Tells self.old → Tells self.new }
    {
        self.indent_str = indent_str;
        self.usual_indent = indent_str == DEFAULT_INDENT;
    }

    /// Writes a text as it is, ahead of the rest: a line's start stays one, and no indentation comes before it. It is
    /// counted, so that positions stand right. swc's `preamble`.
    pub fn preamble(&mut self, text: &str) -> Result
        ensures { Prefaces text.now (sheet_of self.old) (sheet_of self.new) (in_short result) }
    {
        let answer = self.preface(text);
        self.answer(answer)
    }

    /// Sends a text ahead of the rest.
    fn preface(&mut self, text: &str) -> Answer
        ensures { Prefaces text.now (sheet_of self.old) (sheet_of self.new) result }
    {
        if self.failed {
            return Err(Refusal::Failed);
        }
        self.send(text)
    }

    /// The writer under it. Where that told its bytes when it was handed in, it tells the sheet's text now: a `Vec`
    /// holds it.
    #[tactic(auto, unfolding(crate::specs::View::sheet_of))]
    pub fn into_inner(self) -> W
        ensures text { Tells self.entry → W.contents result ≡ Some (sheet_of self.entry).text }
        ensures whole { (sheet_of self.entry).whole ≡ is_utf8 (sheet_of self.entry).text }
    {
        let Lines {
            alloc: _,
            outlet,
            new_line: _,
            indent_str: _,
            usual_indent: _,
            indent: _,
            line_start: _,
            failed: _,
            plain: _,
            kept: _,
            column: _,
            held: _,
            reason: _,
        } = self;
        outlet.into_inner()
    }

    /// Notes that a line starts.
    #[tactic(auto, unfolding(crate::specs::View::sheet_of))]
    fn set_line_start(&mut self)
        ensures { sheet_of self.new ≡ record (sheet_of self.old) { at_line_start = true } }
    {
        self.line_start = true;
        self.plain = false;
    }

    /// Notes that a line has begun.
    #[tactic(auto, unfolding(crate::specs::View::sheet_of))]
    fn set_in_line(&mut self)
        requires { (sheet_of self.old).refused ≡ false }
        ensures { sheet_of self.new ≡ record (sheet_of self.old) { at_line_start = false } }
    {
        self.line_start = false;
        self.plain = self.held.is_none();
    }

    /// Sends a text out as it is.
    #[inline(never)]
    fn send(&mut self, text: &str) -> Answer
        requires { (sheet_of self.old).refused ≡ false }
        ensures { Reaches (appended text.now (sheet_of self.old)) (sheet_of self.old)
            (sheet_of self.new) result }
    {
        self.hand_on(text)
    }

    /// The same of a text of N bytes that stays in its line, as blanks do.
    #[inline(always)]
    fn send_in_line<const N: usize>(&mut self, text: &str) -> Answer
        requires fresh { (sheet_of self.old).refused ≡ false }
        requires looked { is_in_line text.now ≡ true }
        requires length { length text.now ≡ N }
        ensures { Reaches (appended text.now (sheet_of self.old)) (sheet_of self.old)
            (sheet_of self.new) result }
    {
        if self.held.is_some() {
            return self.send(text);
        }
        self.release_array::<N>(text)
    }

    /// The same, where it is called: while lines are filled it is held.
    #[inline(always)]
    fn hand_on(&mut self, text: &str) -> Answer
        requires { (sheet_of self.old).refused ≡ false }
        ensures { Reaches (appended text.now (sheet_of self.old)) (sheet_of self.old)
            (sheet_of self.new) result }
    {
        match &mut self.held {
            None => self.release(text),
            Some(held) => match held.segment.push_text(text) {
                Ok(()) => Ok(()),
                Err(refusal) => {
                    self.failed = true;
                    self.plain = false;
                    Err(refusal)
                }
            },
        }
    }

    /// Sends a text out, also where lines are filled.
    #[inline(always)]
    fn release(&mut self, text: &str) -> Answer
        requires { (sheet_of self.old).refused ≡ false }
        ensures { Reaches (released text.now (sheet_of self.old)) (sheet_of self.old)
            (sheet_of self.new) result }
    {
        self.release_known(text, is_in_line(text.as_bytes()))
    }

    /// The same of a text of which is known whether it stays in its line.
    #[inline(always)]
    fn release_known(&mut self, text: &str, stays_in_line: bool) -> Answer
        requires fresh { (sheet_of self.old).refused ≡ false }
        requires looked { stays_in_line ≡ is_in_line text.now }
        ensures { Reaches (released text.now (sheet_of self.old)) (sheet_of self.old)
            (sheet_of self.new) result }
    {
        match self.outlet.write_text(text) {
            Ok(()) => {
                self.kept.pass_known(text, stays_in_line);
                self.column.pass_known(text, stays_in_line);
                Ok(())
            }
            Err(_) => {
                self.failed = true;
                self.plain = false;
                Err(Refusal::Writer)
            }
        }
    }

    /// The same of a text of N bytes that stays in its line.
    #[inline(always)]
    fn release_array<const N: usize>(&mut self, text: &str) -> Answer
        requires fresh { (sheet_of self.old).refused ≡ false }
        requires looked { is_in_line text.now ≡ true }
        requires length { length text.now ≡ N }
        ensures { Reaches (released text.now (sheet_of self.old)) (sheet_of self.old)
            (sheet_of self.new) result }
    {
        if self.sends_array::<N>(text) {
            return Ok(());
        }
        Err(Refusal::Writer)
    }

    /// The same. Whether it was sent: else the writer under it failed.
    #[inline(always)]
    fn sends_array<const N: usize>(&mut self, text: &str) -> bool
        requires fresh { (sheet_of self.old).refused ≡ false }
        requires looked { is_in_line text.now ≡ true }
        requires length { length text.now ≡ N }
        ensures { Reaches (released text.now (sheet_of self.old)) (sheet_of self.old)
            (sheet_of self.new) (answered result Refusal.Writer) }
    {
        match self.outlet.write_array::<N>(text) {
            Ok(()) => {
                self.kept.pass_known(text, true);
                self.column.pass_known(text, true);
                true
            }
            Err(_) => {
                self.failed = true;
                self.plain = false;
                false
            }
        }
    }

    /// The same of any text of N bytes where nothing else is to be done.
    #[inline(always)]
    fn send_plainly<const N: usize>(&mut self, text: &str) -> Answer
        requires plain { self.old.plain ≡ true }
        requires length { length text.now ≡ N }
        ensures { Reaches (appended text.now (sheet_of self.old)) (sheet_of self.old)
            (sheet_of self.new) result }
    {
        match self.outlet.write_array::<N>(text) {
            Ok(()) => {
                self.kept.pass(text);
                self.column.pass_sent(text);
                Ok(())
            }
            Err(_) => {
                self.failed = true;
                self.plain = false;
                Err(Refusal::Writer)
            }
        }
    }

    /// Sends the indentation of a line, where there is one.
    #[inline(always)]
    fn indent(&mut self) -> Answer
        requires { (sheet_of self.old).refused ≡ false }
        ensures { Reaches (indented (sheet_of self.old).indentation (sheet_of self.old))
            (sheet_of self.old) (sheet_of self.new) result }
    {
        if self.indent == 0 {
            return Ok(());
        }
        self.indent_at_once()
    }

    /// The same of any number of levels: up to eight of four blanks at once.
    #[inline(never)]
    #[tactic(auto, unfolding(crate::specs::Reach::is_one_column))]
    fn indent_at_once(&mut self) -> Answer
        requires { (sheet_of self.old).refused ≡ false }
        ensures { Reaches (indented (sheet_of self.old).indentation (sheet_of self.old))
            (sheet_of self.old) (sheet_of self.new) result }
    {
        if !self.usual_indent {
            return self.indent_by_levels();
        }
        match self.indent {
            1 => self.send_blanks::<4>("    "),
            2 => self.send_blanks::<8>("        "),
            3 => self.send_blanks::<12>("            "),
            4 => self.send_blanks::<16>("                "),
            5 => self.send_blanks::<20>("                    "),
            6 => self.send_blanks::<24>("                        "),
            7 => self.send_blanks::<28>("                            "),
            8 => self.send_blanks::<32>("                                "),
            _ => self.indent_by_levels(),
        }
    }

    /// The same of as many levels as these N blanks are.
    #[inline(always)]
    fn send_blanks<const N: usize>(&mut self, blanks: &'static str) -> Answer
        requires fresh { (sheet_of self.old).refused ≡ false }
        requires looked { is_in_line blanks.now ≡ true }
        requires length { length blanks.now ≡ N }
        requires usual { self.old.usual_indent ≡ true }
        requires levels { blanks.now ≡ repeat self.old.indent (codes "    ") }
        ensures { Reaches (indented (sheet_of self.old).indentation (sheet_of self.old))
            (sheet_of self.old) (sheet_of self.new) result }
    {
        self.send_in_line::<N>(blanks)
    }

    /// The same, level by level.
    fn indent_by_levels(&mut self) -> Answer
        requires { (sheet_of self.old).refused ≡ false }
        ensures { Reaches (indented (sheet_of self.old).indentation (sheet_of self.old))
            (sheet_of self.old) (sheet_of self.new) result }
    {
        let indent_str = self.indent_str;
        for _ in 0..self.indent {
            self.send(indent_str)?;
        }
        Ok(())
    }

    /// At a line's start, sends the indentation, and records the position that is pending.
    #[inline(always)]
    fn start_line(&mut self) -> Answer
        requires { (sheet_of self.old).refused ≡ false }
        ensures { Reaches (started (sheet_of self.old)) (sheet_of self.old) (sheet_of self.new)
            result }
    {
        if !self.line_start {
            return Ok(());
        }
        self.begin_line()
    }

    /// Sends the indentation, and records the position that is pending.
    #[inline(always)]
    fn begin_line(&mut self) -> Answer
        requires fresh { (sheet_of self.old).refused ≡ false }
        requires start { (sheet_of self.old).at_line_start ≡ true }
        ensures { Reaches (started (sheet_of self.old)) (sheet_of self.old) (sheet_of self.new)
            result }
    {
        self.indent()?;
        self.set_in_line();
        self.record_pending()
    }

    /// Sends a text in a line, and records its span.
    #[inline(always)]
    fn put_in_line(&mut self, span: Option<Span>, text: &str) -> Answer
        requires { (sheet_of self.old).refused ≡ false }
        ensures { Reaches (end_recorded span
            (appended text.now (start_recorded span (sheet_of self.old)))) (sheet_of self.old)
            (sheet_of self.new) result }
    {
        self.record_start(span)?;
        self.hand_on(text)?;
        self.record_end(span)
    }

    /// Writes a text that isn't empty.
    #[inline(always)]
    fn put(&mut self, span: Option<Span>, text: &str) -> Answer
        requires fresh { (sheet_of self.old).refused ≡ false }
        requires some { 0 < length text.now }
        ensures { Reaches (written span text.now (sheet_of self.old)) (sheet_of self.old)
            (sheet_of self.new) result }
    {
        self.start_line()?;
        self.put_in_line(span, text)
    }

    /// Writes a literal that isn't empty.
    fn put_literal(&mut self, span: Span, text: &str) -> Answer
        requires fresh { (sheet_of self.old).refused ≡ false }
        requires some { 0 < length text.now }
        ensures { Reaches (literal_written span text.now (sheet_of self.old)) (sheet_of self.old)
            (sheet_of self.new) result }
    {
        self.record(span.lo)?;
        self.put(None, text)?;
        self.record(span.hi)
    }

    /// One level more.
    fn deepen(&mut self) -> Answer
        ensures { Writes Deeper (sheet_of self.old) (sheet_of self.new) result }
    {
        if self.failed {
            return Err(Refusal::Failed);
        }
        let indent = self.indent;
        if indent == u32::MAX {
            self.failed = true;
            self.plain = false;
            return Err(Refusal::PositionTooLarge);
        }
        self.indent = indent + 1;
        Ok(())
    }

    /// One level less.
    #[tactic(auto, unfolding(crate::specs::View::sheet_of))]
    fn shallow(&mut self) -> Answer
        requires { 0 < (sheet_of self.old).indentation }
        ensures { Writes Shallower (sheet_of self.old) (sheet_of self.new) result }
    {
        if self.failed {
            return Err(Refusal::Failed);
        }
        self.indent -= 1;
        Ok(())
    }

    /// Does nothing, for a call that has nothing to do here.
    #[inline(always)]
    fn nothing(&mut self) -> Answer
        ensures { WritesNothing (sheet_of self.old) (sheet_of self.new) result }
    {
        if self.failed {
            return Err(Refusal::Failed);
        }
        Ok(())
    }

    /// The answer of a call, with the error that the writer under it gave. LLVM inlines it late, which is wanted: where it comes early, the
    /// room of an error is filled with zeros also where there is none.
    fn answer(&mut self, answer: Answer) -> Result
        ensures answer { in_short result ≡ answer }
        ensures same { sheet_of self.new ≡ sheet_of self.old }
    {
        match answer {
            Ok(()) => Ok(()),
            Err(refusal) => Err(self.refuse(refusal)),
        }
    }

    /// The error of a refusal, with the one that the writer under it gave.
    #[cold]
    #[inline(never)]
    #[tactic(auto, unfolding(crate::specs::View::sheet_of))]
    fn refuse(&mut self, refusal: Refusal) -> Error
        ensures reason { reason_of result ≡ refusal }
        ensures same { sheet_of self.new ≡ sheet_of self.old }
    {
        refusal.with_fault(self.outlet.take_fault())
    }
}
