//! Lines that are filled: a line goes on at an allowed break where there is room, and else ends there.

ghost use Rattle.std.specs.Prelude.{◌≡◌, ◌+◌, ◌≤◌, ◌^◌, min, true, length};
ghost use Rattle.swc_ecma_codegen_text_writer.specs.Characters.{is_line_end};
ghost use Rattle.swc_ecma_codegen_text_writer.specs.Filling.{first_units, is_due};
ghost use Rattle.swc_ecma_codegen_text_writer.specs.Reach.{is_in_line};
ghost use Rattle.swc_ecma_codegen_text_writer.specs.Places.{Place, units_of, after_text};

use crate::positions::units;

/// A count stays here: it is more than each greatest length.
const LIMIT: u64 = 1 << 32;

/// Whether a byte ends a line, or is a part of what does.
#[inline(always)]
pub fn is_line_end(byte: u8) -> bool
    ensures { result ≡ is_line_end byte }
{
    byte == b'\n' || byte == b'\r'
}

/// So many units more, as far as they are counted.
fn counted(count: u64, units: u64) -> u64
    requires { units ≤ 2 }
    ensures { result ≡ min (count + units) (2 ^ 32) }
{
    if count < LIMIT {
        (count + units).min(LIMIT)
    } else {
        LIMIT
    }
}

/// The least byte of a text, and how many units it has if no line ends in it.
pub fn look(text: &[u8]) -> (u8, u8)
    requires { length text.now ≤ 127 }
    ensures column { 14 ≤ result.0 → (p : Place) →
        (after_text text.now p).column ≡ p.column + result.1 }
    ensures units { 14 ≤ result.0 → first_units text.now ≡ result.1 }
{
    let mut least: u8 = 255;
    let mut count: u8 = 0;
    for byte in text {
        least = least.min(*byte);
        count += few_units(*byte);
    }
    (least, count)
}

/// The units that begin with a byte, as `units` tells them.
#[inline(always)]
#[tactic(auto, unfolding(crate::specs::Places::units_of))]
fn few_units(byte: u8) -> u8
    ensures value { result ≡ units_of byte }
    ensures few { result ≤ 2 }
{
    let begins = byte <= 0x7f || 0xbf < byte;
    let twice = 0xef < byte;
    (if begins { 1 } else { 0 }) + (if twice { 1 } else { 0 })
}

/// The UTF-16 units of a text's first line, as far as they are counted: 2 of `ab` LF `c`.
pub fn first_units(text: &str) -> u64
    ensures { result ≡ min (first_units text.now) (2 ^ 32) }
{
    let bytes = text.as_bytes();
    if bytes.len() <= 127 {
        let (least, units) = look(bytes);
        if 14 <= least {
            return units as u64;
        }
    }
    first_units_by_bytes(text)
}

/// The same, byte for byte.
fn first_units_by_bytes(text: &str) -> u64
    ensures { result ≡ min (first_units text.now) (2 ^ 32) }
{
    let mut count: u64 = 0;
    for byte in text.as_bytes() {
        if is_line_end(*byte) {
            return count;
        }
        count = counted(count, units(*byte));
    }
    count
}

/// The same of a text that stays in its line: each byte is one unit.
#[inline(always)]
pub fn units_in_line(text: &str) -> u64
    requires { is_in_line text.now ≡ true }
    ensures { result ≡ min (first_units text.now) (2 ^ 32) }
{
    (text.len() as u64).min(LIMIT)
}

/// Whether a line end is due before a text whose first line has so many units, in a line that has some: before `b,` in a line `a,`
/// where lines have at most 3.
#[tactic(auto, unfolding(crate::specs::Filling::is_due))]
pub fn is_due(max: u32, column: u64, units: u64) -> bool
    requires column { column ≤ 2 ^ 32 }
    requires units { units ≤ 2 ^ 32 }
    ensures { result ≡ is_due max column units }
{
    0 < column && 0 < units && (max as u64) < column + units
}
