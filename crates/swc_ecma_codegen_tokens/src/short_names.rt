//! Looks at short names, as most are: two loads that overlap see each of their bytes.

ghost use Rattle.std.specs.Prelude.{◌≡◌, ◌+◌, ◌≤◌, false, length};
ghost use Rattle.std.specs.Bool.{OnTrue};
ghost use Rattle.swc_ecma_codegen_literals.specs.ValidNames.{has_byte};
ghost use Rattle.swc_ecma_codegen_tokens.specs.ShortNames.{LacksBetween};

use std::simd::prelude::*;
use swc_ecma_codegen_literals::holds_backslash;

/// Whether a name holds a backslash. Of one that is short nothing is called, unless it does.
#[inline(always)]
pub(crate) fn has_backslash(name: &str) -> bool
    ensures { result ≡ has_byte 92 name.now }
{
    if is_short_without_backslash(name.as_bytes()) {
        return false;
    }
    holds_backslash(name)
}

/// Whether a name has at most 32 bytes and none of them is a backslash: `foo`, and not `\u0061`.
#[inline(always)]
pub(crate) fn is_short_without_backslash(name: &[u8]) -> bool
    ensures { OnTrue result (has_byte 92 name.now ≡ false) }
{
    lacks_backslash(name)
}

/// The same of bytes.
#[inline(always)]
fn lacks_backslash(text: &[u8]) -> bool
    ensures { OnTrue result (LacksBetween 92 text.now 0 (length text.now)) }
{
    let len = text.len();
    if len < 4 {
        few_lack_backslash(text)
    } else if len <= 8 {
        four_lack_backslash(text, 0) & four_lack_backslash(text, len - 4)
    } else if len <= 16 {
        eight_lack_backslash(text, 0) & eight_lack_backslash(text, len - 8)
    } else if len <= 32 {
        sixteen_lack_backslash(text, 0) & sixteen_lack_backslash(text, len - 16)
    } else {
        false
    }
}

/// Whether none of a text is a backslash, byte for byte.
#[inline(always)]
fn few_lack_backslash(text: &[u8]) -> bool
    ensures { OnTrue result (LacksBetween 92 text.now 0 (length text.now)) }
{
    for &byte in text {
        if byte == b'\\' {
            return false;
        }
    }
    true
}

/// Whether none of four bytes is a backslash.
#[inline(always)]
fn four_lack_backslash(text: &[u8], at: usize) -> bool
    requires { at + 4 ≤ length text.now }
    ensures { OnTrue result (LacksBetween 92 text.now at (at + 4)) }
{
    let lanes = u8x4::from_slice(&text[at..]);
    lanes.simd_eq(u8x4::splat(b'\\')).to_bitmask() == 0
}

/// The same of eight bytes.
#[inline(always)]
fn eight_lack_backslash(text: &[u8], at: usize) -> bool
    requires { at + 8 ≤ length text.now }
    ensures { OnTrue result (LacksBetween 92 text.now at (at + 8)) }
{
    let lanes = u8x8::from_slice(&text[at..]);
    lanes.simd_eq(u8x8::splat(b'\\')).to_bitmask() == 0
}

/// The same of sixteen bytes.
#[inline(always)]
fn sixteen_lack_backslash(text: &[u8], at: usize) -> bool
    requires { at + 16 ≤ length text.now }
    ensures { OnTrue result (LacksBetween 92 text.now at (at + 16)) }
{
    let lanes = u8x16::from_slice(&text[at..]);
    lanes.simd_eq(u8x16::splat(b'\\')).to_bitmask() == 0
}
