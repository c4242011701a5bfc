//! Names.

ghost use Rattle.std.specs.Prelude.{◌≡◌, false, IfOk, IfErr, IsOkAnd};
ghost use Rattle.std.specs.Cow.{cow_str_bytes};
ghost use Rattle.std.specs.String.{string_bytes};
ghost use Rattle.swc_ecma_codegen_common.specs.declared.errors.Error.TheVariants.{OutOfMemory};
ghost use Rattle.swc_ecma_codegen_grammar.specs.ValidNames.{turned};
ghost use Rattle.swc_ecma_codegen_literals.specs.ValidNames.{has_byte, IsLent};

use memchr::memmem;
use std::alloc::Global;
use std::borrow::CowStr;
use swc_ecma_codegen_common::Error;

/// Whether a name holds a backslash: `valid_name` lends any other as it is.
pub fn holds_backslash(name: &str) -> bool
    ensures { result ≡ has_byte 92 name.now }
{
    name.as_bytes().contains(&b'\\')
}

/// The name that is written for `name`, where a parser put U+0000 after a backslash to mark a name
/// that is invalid: each such U+0000 is left out, from left to right. `Error::OutOfMemory` where
/// there is one and no room for the new text; a name without one is lent as it is.
///
/// Source: `handle_invalid_unicodes` of swc.
pub fn valid_name(alloc: Global, name: &str) -> std::result::Result<CowStr<'_>, Error>
    ensures value { IfOk result (λ text. cow_str_bytes text ≡ turned name.now) }
    ensures lent { turned name.now ≡ name.now → IsOkAnd result IsLent }
    ensures no_backslash { has_byte 92 name.now ≡ false → IsOkAnd result IsLent }
    ensures refused { IfErr result (λ error. error ≡ OutOfMemory) }
{
    match memmem::find(name.as_bytes(), b"\\\0") {
        Some(_) => Ok(CowStr::Owned(without_nulls(alloc, name)?)),
        None => Ok(CowStr::Borrowed(name)),
    }
}

// A new text in place of `name`.
fn without_nulls(alloc: Global, name: &str) -> std::result::Result<String, Error>
    ensures value { IfOk result (λ text. string_bytes text ≡ turned name.now) }
    ensures refused { IfErr result (λ error. error ≡ OutOfMemory) }
{
    let mut valid = String::with_capacity(alloc, name.len())?;
    let mut rest = name;
    while let Some(at) = memmem::find(rest.as_bytes(), b"\\\0") {
        valid.push_str(&rest[..at + 1])?;
        rest = &rest[at + 2..];
    }
    valid.push_str(rest)?;
    Ok(valid)
}
