//! How deep a program is, counted before it is changed.

ghost use Rattle.std.specs.Prelude.{◌≡◌};
ghost use Rattle.std.specs.Result.{OnOk};
ghost use Rattle.swc_ecma_codegen_visit.specs.MappedModules.{map_program};

use crate::below::{Below, Links, Stop};
use crate::walks::{Change, Depth, levels};
use std::alloc::Global;
use swc_ecma_codegen_tree::{AnyNode, Ident, Program};

/// How many links are gone down at first. Most programs are no deeper.
const SHALLOW: usize = 16;

/// Goes down no further than so many links, and changes nothing.
#[derive(Drop)]
struct Count {
    /// How many links it still goes down.
    left: usize,
    /// Whether there was a link that it didn't go down.
    is_cut: bool,
}

impl Change<AnyNode> for Count {
    ghost old_ident = { λ n. n };

    ghost new_ident = { λ n. n };

    ghost old = { λ n. n };

    ghost new = { λ n. n };

    fn at_ident(&mut self, _: &mut Ident) -> Result<(), Stop> {
        Ok(())
    }

    #[tactic(auto, using(crate::proofs::MapLaws::same_node))]
    fn at_link<B: Below<AnyNode, Count>>(
        &mut self,
        below: &B,
        node: &mut AnyNode,
    ) -> Result<(), Stop> {
        let left = self.left;
        if left == 0 || self.is_cut {
            self.is_cut = true;
            return Ok(());
        }
        self.left = left - 1;
        node.links_mut(below, self)?;
        self.left = left;
        Ok(())
    }
}

/// Whether more than `depth` links lie below one another in a tree. These levels are one more, so
/// that the count is told of the first link that lies too deep.
fn is_cut<T: Links<AnyNode>>(levels: &Depth, depth: usize, node: &mut T) -> Result<bool, Stop>
    ensures { OnOk result
        (T.mapped (λ n. n) (λ n. n) node.old ≡ T.mapped (λ n. n) (λ n. n) node.new) }
{
    let mut count = Count {
        left: depth,
        is_cut: false,
    };
    node.links_mut(levels, &mut count)?;
    Ok(count.is_cut)
}

/// Whether more than `depth` links lie below one another in a tree. In the program `a + b;` two do:
/// the statement's link to the sum, and the sum's link to `a`. The tree stays as it is: its names
/// and what its links hold are the same, and a law such as `same_program` of proofs/MapLaws says
/// that then it is the same. It takes a box more than `depth` while it runs.
pub fn is_deeper_than<T: Links<AnyNode>>(
    alloc: Global,
    node: &mut T,
    depth: usize,
) -> Result<bool, Stop>
    ensures { OnOk result
        (T.mapped (λ n. n) (λ n. n) node.old ≡ T.mapped (λ n. n) (λ n. n) node.new) }
{
    let levels = levels(alloc, depth.saturating_add(1))?;
    is_cut(&levels, depth, node)
}

/// A level more than these, where the program has no more than these.
#[tactic(auto, using(crate::proofs::MapLaws::same_program))]
fn enough(alloc: Global, program: &mut Program, depth: usize) -> Result<Option<Depth>, Stop>
    ensures { OnOk result (program.new ≡ program.old) }
{
    let levels = levels(alloc, depth.saturating_add(1))?;
    let is_deeper = is_cut(&levels, depth, program)?;
    Ok(if is_deeper { None } else { Some(levels) })
}

/// More levels than a program has: for up to 16 of these, for 32, 64, .., whatever is enough.
fn program_levels(alloc: Global, program: &mut Program) -> Result<Depth, Stop>
    ensures { OnOk result (program.new ≡ program.old) }
{
    let mut depth = SHALLOW;
    for _ in 0..usize::BITS {
        if let Some(levels) = enough(alloc, program, depth)? {
            return Ok(levels);
        }
        depth = depth.saturating_mul(2);
    }
    Err(Stop::TooDeep)
}

/// Changes the names and links of a whole program. How many links lie below one another is counted
/// first. Besides what `change` takes, this takes 17 boxes, or, where more than 16 links lie below
/// one another, no more than two for each of them. `Stop::TooDeep` is only for a change that puts
/// deeper nodes in place and then goes on below them.
pub fn change_program<C: Change<AnyNode>>(
    alloc: Global,
    program: &mut Program,
    change: &mut C,
) -> Result<(), Stop>
    ensures { OnOk result (map_program C.old_ident C.old program.old
        ≡ map_program C.new_ident C.new program.new) }
{
    let levels = program_levels(alloc, program)?;
    program.links_mut(&levels, change)
}
