//! Columns, for lines that are filled: the UTF-16 units since the last line end.

ghost use Rattle.std.specs.Prelude.{◌≡◌, ◌≤◌, ◌<◌, ◌+◌, ◌^◌, min, length};
ghost use Rattle.std.proofs.Props.{props};
ghost use Rattle.swc_ecma_codegen_text_writer.specs.Places.{Place, origin, after_text};
ghost use Rattle.swc_ecma_codegen_text_writer.specs.Reach.{is_in_line};
ghost use Rattle.swc_ecma_codegen_text_writer.specs.Columns.{Stands};

use crate::filling::{is_line_end, look};
use crate::positions::{is_in_line, is_one_column, units};

/// A count stays below here.
const LIMIT: u64 = 1 << 63;

/// A count that is as large stays as large: it is more than each greatest length.
const LARGE: u64 = 1 << 62;

/// So many units more.
#[inline(always)]
fn sum(count: u64, units: u64) -> u64
    requires count { count < 2 ^ 63 }
    requires units { units < 2 ^ 63 }
    ensures value { min result (2 ^ 32) ≡ min (count + units) (2 ^ 32) }
    ensures few { result < 2 ^ 63 }
{
    let more = count + units;
    if more < LIMIT { more } else { LARGE }
}

/// The same of the units of a byte. A count that has no room for them is large.
#[inline(always)]
fn next(count: u64, units: u64) -> u64
    requires count { count < 2 ^ 63 }
    requires units { units ≤ 2 }
    ensures value { min result (2 ^ 32) ≡ min (count + units) (2 ^ 32) }
    ensures few { result < 2 ^ 63 }
{
    let more = count + units;
    if more < LIMIT { more } else { count }
}

/// A column. From 2^32 on it only tells that it is that large.
#[derive(Drop)]
pub struct Column {
    units: u64,
    ghost few: { units < 2 ^ 63 } by { Prim.hlevel props },
}

impl Column {
    /// Where a text begins.
    pub fn origin() -> Column
        ensures { Stands result.units origin }
    {
        Column { units: 0 }
    }

    /// The units of the line, as far as they are counted.
    pub fn units(&self) -> u64
        ensures { (p : Place) → Stands self.now.units p → result ≡ min p.column (2 ^ 32) }
    {
        self.units.min(1 << 32)
    }

    /// A text was written.
    #[inline(always)]
    pub fn pass_sent(&mut self, text: &str)
        ensures { (p : Place) → Stands self.old.units p →
            Stands self.new.units (after_text text.now p) }
    {
        if text.len() == 1 {
            self.pass_byte(text);
        } else {
            self.pass_known(text, is_in_line(text.as_bytes()));
        }
    }

    /// The same where it is known whether it stays in its line. Most stay in their line: "typeof" takes six columns.
    #[inline(always)]
    pub fn pass_known(&mut self, text: &str, stays_in_line: bool)
        requires { stays_in_line ≡ is_in_line text.now }
        ensures { (p : Place) → Stands self.old.units p →
            Stands self.new.units (after_text text.now p) }
    {
        if stays_in_line {
            self.units = sum(self.units, text.len() as u64);
        } else {
            self.pass_any(text);
        }
    }

    /// The same of a text of one byte. It calls nothing.
    #[inline(always)]
    fn pass_byte(&mut self, text: &str)
        requires { length text.now ≡ 1 }
        ensures { (p : Place) → Stands self.old.units p →
            Stands self.new.units (after_text text.now p) }
    {
        let byte = text.as_bytes()[0];
        if is_one_column(byte) {
            self.units = next(self.units, 1);
        } else if is_line_end(byte) {
            self.units = 0;
        } else {
            self.units = next(self.units, units(byte));
        }
    }

    /// The same of any text: one without line ends in one look, as most beyond ASCII are.
    #[inline(never)]
    fn pass_any(&mut self, text: &str)
        ensures { (p : Place) → Stands self.old.units p →
            Stands self.new.units (after_text text.now p) }
    {
        let bytes = text.as_bytes();
        if bytes.len() <= 127 {
            let (least, units) = look(bytes);
            if 14 <= least {
                self.units = sum(self.units, units as u64);
                return;
            }
        }
        self.pass_bytes(text);
    }

    /// The same, byte for byte.
    fn pass_bytes(&mut self, text: &str)
        ensures { (p : Place) → Stands self.old.units p →
            Stands self.new.units (after_text text.now p) }
    {
        let mut count = self.units;
        for byte in text.as_bytes() {
            if is_line_end(*byte) {
                count = 0;
            } else {
                count = next(count, units(*byte));
            }
        }
        self.units = count;
    }
}
