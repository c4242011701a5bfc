//! Numbers as digits of base64, five bits each.

ghost use Rattle.std.specs.Prelude.{◌≡◌, ◌<◌, Some, OnOk};
ghost use Rattle.std.specs.String.{string_bytes};
ghost use Rattle.swc_ecma_codegen_source_maps.specs.Mappings.{digit_value};
ghost use Rattle.swc_ecma_codegen_source_maps.specs.Pieces.{distance, Grows, SaysNumber};

use std::alloc::AllocError;

/// The digit of a value: `A` of 0, `/` of 63.
#[tactic(auto, unfolding(crate::specs::Mappings::digit_value))]
fn digit(value: u8) -> u8
    requires { value < 64 }
    ensures value { digit_value result ≡ Some value }
    ensures ascii { result < 128 }
{
    if value < 26 {
        b'A' + value
    } else if value < 52 {
        b'a' + (value - 26)
    } else if value < 62 {
        b'0' + (value - 52)
    } else if value == 62 {
        b'+'
    } else {
        b'/'
    }
}

/// Writes the digits of a number, the lowest five bits first: `B` for 1, `gB` for 32.
pub(crate) fn push_number(text: &mut String, number: u32) -> Result<(), AllocError>
    ensures { OnOk result (Grows (SaysNumber number) (string_bytes text.old)
        (string_bytes text.new)) }
{
    let mut rest = number;
    while rest >= 32 {
        text.push(digit((rest % 32) as u8 + 32) as char)?;
        rest /= 32;
    }
    text.push(digit(rest as u8) as char)
}

/// The number that says how far it is from one field to another.
pub(crate) fn distance(from: u32, to: u32) -> u32
    requires from { from < 2147483648 }
    requires to { to < 2147483648 }
    ensures { result ≡ distance from to }
{
    if from <= to {
        2 * (to - from)
    } else {
        2 * (from - to) + 1
    }
}
