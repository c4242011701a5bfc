//! Big integers.

ghost use Rattle.std.specs.Prelude.{◌≡◌, IfOk, IfErr};
ghost use Rattle.std.specs.Str.{IsAscii};
ghost use Rattle.std.specs.String.{string_bytes};
ghost use Rattle.swc_ecma_codegen_common.specs.declared.errors.Error.TheVariants.{OutOfMemory};
ghost use Rattle.swc_ecma_codegen_literals.specs.BigIntegers.{big_text, radix_prefix};

use crate::numbers::sign_of;
use crate::separators::without_separators;
use std::alloc::Global;
use swc_ecma_codegen_common::Error;
use swc_ecma_codegen_tree::{BigInt, Radix};

/// A big integer up to its `n`: its sign, the prefix of its radix and its digits without `_`,
/// `-0xff` of -255 in hexadecimal digits. `Error::OutOfMemory` where there is no room for the text.
///
/// Source: `emit_big_lit` of swc, but the digits are those of the tree, whatever is minified.
#[tactic(auto, unfolding(crate::specs::BigIntegers::big_text))]
pub fn big_integer_text(alloc: Global, number: &BigInt) -> std::result::Result<String, Error>
    ensures exactly { IfOk result (λ text. string_bytes text ≡ big_text number.now) }
    ensures ascii { IsAscii (string_bytes number.now.digits) →
        IfOk result (λ text. IsAscii (string_bytes text)) }
    ensures refused { IfErr result (λ error. error ≡ OutOfMemory) }
{
    let digits = without_separators(alloc, number.digits.as_str())?;
    let mut text = String::new(alloc);
    text.push_str(sign_of(number.negative))?;
    text.push_str(prefix(number.radix))?;
    text.push_str(digits.as_str())?;
    Ok(text)
}

#[tactic(auto, unfolding(crate::specs::BigIntegers::radix_prefix))]
fn prefix(radix: Radix) -> &'static str
    ensures { result.now ≡ radix_prefix radix }
{
    match radix {
        Radix::Binary => "0b",
        Radix::Octal => "0o",
        Radix::Decimal => "",
        Radix::Hex => "0x",
    }
}
