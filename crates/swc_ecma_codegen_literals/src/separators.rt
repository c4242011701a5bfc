//! Numbers without the `_` between their digits.

ghost use Rattle.std.specs.Prelude.{◌≡◌, false, IfOk, IfErr, IsOkAnd};
ghost use Rattle.std.specs.Cow.{cow_str_bytes};
ghost use Rattle.std.specs.Str.{chars, encode_utf8_all, IsAscii};
ghost use Rattle.std.specs.String.{string_bytes};
ghost use Rattle.swc_ecma_codegen_common.specs.declared.errors.Error.TheVariants.{OutOfMemory};
ghost use Rattle.swc_ecma_codegen_literals.specs.Separators.{without_underscores, IsWorthAsMuch};
ghost use Rattle.swc_ecma_codegen_literals.specs.ValidNames.{has_byte, IsLent};

use std::alloc::{AllocError, Global};
use std::borrow::CowStr;
use swc_ecma_codegen_common::Error;

/// A number without the `_` between its digits: `1000` of `1_000`. `Error::OutOfMemory` where there
/// is one and no room for the new text; a text without one is lent as it is.
///
/// Source: `emit_num_lit_internal` and `emit_big_lit` of swc.
pub fn without_separators(alloc: Global, spelling: &str) -> std::result::Result<CowStr<'_>, Error>
    ensures exactly { IfOk result (λ text. cow_str_bytes text ≡ without_underscores spelling.now) }
    ensures characters { IfOk result (λ text. chars (cow_str_bytes text)
        ≡ without_underscores (chars spelling.now)) }
    ensures worth { IfOk result (λ text.
        IsWorthAsMuch (chars spelling.now) (chars (cow_str_bytes text))) }
    ensures ascii { IsAscii spelling.now → IfOk result (λ text. IsAscii (cow_str_bytes text)) }
    ensures lent { has_byte 95 spelling.now ≡ false → IsOkAnd result IsLent }
    ensures refused { IfErr result (λ error. error ≡ OutOfMemory) }
{
    if holds_underscore(spelling) {
        Ok(CowStr::Owned(without_underscores(alloc, spelling)?))
    } else {
        Ok(CowStr::Borrowed(spelling))
    }
}

fn holds_underscore(spelling: &str) -> bool
    ensures { result ≡ has_byte 95 spelling.now }
{
    spelling.as_bytes().contains(&b'_')
}

fn without_underscores(alloc: Global, spelling: &str) -> Result<String, AllocError>
    ensures { IfOk result (λ text. string_bytes text
        ≡ encode_utf8_all (without_underscores (chars spelling.now))) }
{
    spelling.chars().filter(|c| *c != '_').collect(alloc)
}
