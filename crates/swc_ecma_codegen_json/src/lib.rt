//! Reads a program from JSON, in one pass.
//!
//! A node is written as an object that has each of its fields as a member, by name, in any order:
//! `{"span":{"lo":0,"hi":0}}`. An option that is absent is written `null`, a list as an array, and
//! a position as a number. A value of an enum is an object whose only member is named for the
//! variant, `{"Empty":{"span":{"lo":0,"hi":0}}}`, or that name alone where it holds nothing,
//! `"Add"`. A member that is missing, or that comes twice, is an error; one with another name is
//! passed over. In the [short form](Short) members that have a default may be missing, and others
//! are errors.
#![tactic(auto)]

ghost use Rattle.std.specs.Prelude.{◌≡◌, ◌≢◌, Err, IsErrOf};
ghost use Rattle.std.specs.Str.{IsUtf8};
ghost use Rattle.serde_json.specs.Errors.{IsMemory};

mod classes;
mod decls;
mod errors;
mod expr;
mod expr_nodes;
mod exprs;
mod flat;
mod idents;
mod input;
mod jsx;
mod jsx_nodes;
mod leaves;
mod levels;
mod links;
mod lits;
mod macros;
mod modules;
mod objects;
mod pats;
mod programs;
mod props;
mod reading;
mod shared;
mod source;
mod stmt_nodes;
mod stmts;
mod targets;
mod trees;
mod ts_decls;
mod ts_exprs;
mod ts_members;
mod ts_nodes;
mod ts_type;
mod ts_type_parts;
mod ts_types;
mod values;

pub use crate::errors::{Read, ReadError};
pub use crate::flat::FlatTree;
pub use crate::trees::{Short, Tree};
use std::alloc::Global;
use swc_ecma_codegen_tree::Program;

/// Reads a program from the bytes of its JSON: `CannotRead` where they aren't UTF-8, `BadTree`
/// where they are no JSON, nest deeper than 127 or have another form, `OutOfMemory` where a growth
/// is refused. Where it matters what is wrong with a tree, and in which line, read a [`Tree`] by
/// `serde_json` itself.
pub fn program_from_slice(alloc: Global, bytes: &[u8]) -> Read<Program>
    ensures not_utf8 { (IsUtf8 bytes.now → ⊥) → IsErrOf result ReadError.CannotRead }
    ensures utf8 { IsUtf8 bytes.now → result ≢ Err ReadError.CannotRead }
{
    let text = std::str::from_utf8(bytes).map_err(|_| ReadError::CannotRead)?;
    match serde_json::from_str::<Tree>(alloc, text) {
        Ok(tree) => Ok(tree.into_program()),
        Err(error) => Err(reason(&error)),
    }
}

/// Why no program is read, where serde_json says why it reads none.
fn reason(error: &serde_json::Error) -> ReadError
    ensures memory { IsMemory error.now → result ≡ ReadError.OutOfMemory }
    ensures others { (IsMemory error.now → ⊥) → result ≡ ReadError.BadTree }
{
    if error.is_memory() {
        ReadError::OutOfMemory
    } else {
        ReadError::BadTree
    }
}
