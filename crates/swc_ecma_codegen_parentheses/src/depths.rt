//! How deep a tree may be that is changed.

ghost use Rattle.std.specs.Prelude.{◌≡◌};
ghost use Rattle.std.specs.Result.{OnOk};

use crate::mends::Stop;
use std::alloc::Global;
use swc_ecma_codegen_tree::{ModuleItem, Program};
use swc_ecma_codegen_visit::is_deeper_than;

/// How many links are gone down at most, one below another. In `a + b;` these are two: the
/// statement's link to the sum, and the sum's to `a`.
///
/// The stack of a main thread has 8 MiB. A link of `a.b.c.d` takes 1,610 bytes of it, and no kind
/// of link was found that takes more. So there is room for 5,200 links; what calls this gets the
/// rest.
pub const MAX_DEPTH: usize = 4_000;

/// Whether a program has more links below one another than are gone down.
#[tactic(auto, using(swc_ecma_codegen_visit::proofs::MapLaws::same_program))]
pub(crate) fn is_program_too_deep(alloc: Global, program: &mut Program) -> Result<bool, Stop>
    ensures { OnOk result (program.new ≡ program.old) }
{
    Ok(is_deeper_than(alloc, program, MAX_DEPTH)?)
}

/// The same of an item.
#[tactic(auto, using(swc_ecma_codegen_visit::proofs::MapLaws::same_item))]
pub(crate) fn is_item_too_deep(alloc: Global, item: &mut ModuleItem) -> Result<bool, Stop>
    ensures { OnOk result (item.new ≡ item.old) }
{
    Ok(is_deeper_than(alloc, item, MAX_DEPTH)?)
}
