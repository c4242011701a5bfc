//! Changes of each name and of each node, with what they make of a whole program.

ghost use Rattle.std.specs.Prelude.{◌≡◌};
ghost use Rattle.std.specs.Result.{OnOk};
ghost use Rattle.swc_ecma_codegen_tree.specs.declared.idents.Ident.{Ident};
ghost use Rattle.swc_ecma_codegen_tree.specs.declared.links.AnyNode.{AnyNode, AnyNode-F, out-AnyNode};
ghost use Rattle.swc_ecma_codegen_visit.specs.Changed.{each_ident, each_node, with_idents, with_nodes};

use crate::below::{Below, Links, Stop};
use crate::counts::change_program;
use crate::walks::Change;
use std::alloc::Global;
use swc_ecma_codegen_tree::{AnyNode, Ident, Program};

/// What is done with each name.
pub trait ChangeIdent: Sized {
    /// What stays: this of a name is `new` of what it became.
    ghost old: { Ident → Ident };

    ghost new: { Ident → Ident };

    /// Changes a name.
    fn ident(&mut self, ident: &mut Ident) -> Result<(), Stop>
        ensures { OnOk result (old ident.old ≡ new ident.new) };
}

/// What is done with each node that a link holds.
pub trait ChangeNode: Sized {
    /// What a node becomes, once its links hold what became of those below.
    ghost step: { AnyNode-F AnyNode → AnyNode };

    /// Changes a node. Those below are changed already.
    fn node(&mut self, node: &mut AnyNode) -> Result<(), Stop>
        ensures { OnOk result (node.new ≡ step (out-AnyNode node.old)) };
}

/// Tells of each name.
#[derive(Drop)]
struct EachIdent<'a, C> {
    change: &'a mut C,
}

impl<'a, C: ChangeIdent> Change<AnyNode> for EachIdent<'a, C> {
    ghost old_ident = { C.old };

    ghost new_ident = { C.new };

    ghost old = { each_ident C.old };

    ghost new = { each_ident C.new };

    fn at_ident(&mut self, ident: &mut Ident) -> Result<(), Stop> {
        self.change.ident(ident)
    }

    #[tactic(auto, using(crate::proofs::MapLaws::idents_left))]
    fn at_link<B: Below<AnyNode, EachIdent<'a, C>>>(
        &mut self,
        below: &B,
        node: &mut AnyNode,
    ) -> Result<(), Stop> {
        node.links_mut(below, self)?;
        Ok(())
    }
}

/// Tells of each node, of what is below it first.
#[derive(Drop)]
struct EachNode<'a, C> {
    change: &'a mut C,
}

impl<'a, C: ChangeNode> Change<AnyNode> for EachNode<'a, C> {
    ghost old_ident = { λ n. n };

    ghost new_ident = { λ n. n };

    ghost old = { each_node C.step };

    ghost new = { λ n. n };

    fn at_ident(&mut self, _: &mut Ident) -> Result<(), Stop> {
        Ok(())
    }

    #[tactic(auto, using(crate::proofs::MapLaws::step_left))]
    fn at_link<B: Below<AnyNode, EachNode<'a, C>>>(
        &mut self,
        below: &B,
        node: &mut AnyNode,
    ) -> Result<(), Stop> {
        node.links_mut(below, self)?;
        self.change.node(node)?;
        Ok(())
    }
}

/// Changes each name of a program: the bound and the assigned ones, labels, those of functions,
/// classes, types and elements of JSX. Names of properties are no `Ident`, but `{ a }` has one that
/// is a key too.
pub fn change_idents<C: ChangeIdent>(
    alloc: Global,
    program: &mut Program,
    change: &mut C,
) -> Result<(), Stop>
    ensures { OnOk result (with_idents C.old program.old ≡ with_idents C.new program.new) }
{
    let mut each = EachIdent { change };
    change_program(alloc, program, &mut each)
}

/// Changes each node of a program that a link holds: each `Expr`, each block, the statement that is
/// the body of another, .. What stands in place isn't told of: a statement in a list, the pattern
/// that a `let` declares.
pub fn change_nodes<C: ChangeNode>(
    alloc: Global,
    program: &mut Program,
    change: &mut C,
) -> Result<(), Stop>
    ensures { OnOk result (program.new ≡ with_nodes C.step program.old) }
{
    let mut each = EachNode { change };
    change_program(alloc, program, &mut each)
}
