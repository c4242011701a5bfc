//! Whole trees, gone through to be changed.

ghost use Rattle.std.specs.Prelude.{◌≡◌};
ghost use Rattle.std.specs.Result.{OnOk};
ghost use Rattle.swc_ecma_codegen_tree.specs.declared.idents.Ident.{Ident};
ghost use Rattle.swc_ecma_codegen_visit.specs.Mapped.{map_node};

use crate::below::{Below, Links, Stop};
use std::alloc::{AllocError, Global};
use swc_ecma_codegen_tree::{AnyNode, Ident};

/// What is done with each name, and with what each link holds.
pub trait Change<N>: Sized {
    /// What stays of a name: this of it is `new_ident` of what it became.
    ghost old_ident: { Ident → Ident };

    ghost new_ident: { Ident → Ident };

    /// What stays of what a link holds: this of it is `new` of what the link holds then.
    ghost old: { N → N };

    ghost new: { N → N };

    /// Changes a name.
    fn at_ident(&mut self, ident: &mut Ident) -> Result<(), Stop>
        ensures { OnOk result (old_ident ident.old ≡ new_ident ident.new) };

    /// Changes what a link holds. It goes on with what is below by `node.links_mut(below, self)`,
    /// before or after its own change, or not at all.
    fn at_link<B: Below<N, Self>>(&mut self, below: &B, node: &mut N) -> Result<(), Stop>
        requires ident_before { B.ident_before ≡ old_ident }
        requires ident_after { B.ident_after ≡ new_ident }
        requires before { B.before ≡ old }
        requires after { B.after ≡ new }
        ensures { OnOk result (old node.old ≡ new node.new) };
}

/// How many links may still lie below one another. It gets shorter at each link, so that each walk
/// ends.
#[derive(Drop)]
pub enum Depth {
    Out,
    More(Box<Depth>),
}

/// As many links as `depth` says may lie below one another. It takes a box for each.
pub fn levels(alloc: Global, depth: usize) -> Result<Depth, AllocError> {
    let mut levels = Depth::Out;
    for _ in 0..depth {
        levels = Depth::More(Box::new(alloc, levels)?);
    }
    Ok(levels)
}

/// The change, told of what a link holds. A cycle of calls may not call a bound's function itself.
fn tell<N, C: Change<N>, B: Below<N, C>>(
    below: &B,
    change: &mut C,
    node: &mut N,
) -> Result<(), Stop>
    requires ident_before { B.ident_before ≡ C.old_ident }
    requires ident_after { B.ident_after ≡ C.new_ident }
    requires before { B.before ≡ C.old }
    requires after { B.after ≡ C.new }
    ensures { OnOk result (C.old node.old ≡ C.new node.new) }
{
    change.at_link(below, node)
}

impl<N, C: Change<N>> Below<N, C> for Depth {
    ghost ident_before = { C.old_ident };

    ghost ident_after = { C.new_ident };

    ghost before = { C.old };

    ghost after = { C.new };

    fn ident(&self, change: &mut C, ident: &mut Ident) -> Result<(), Stop> {
        change.at_ident(ident)
    }

    #[cycle(held)]
    fn held(&self, change: &mut C, node: &mut N) -> Result<(), Stop> {
        match self {
            Depth::More(fewer) => tell::<N, C, Depth>(fewer, change, node),
            Depth::Out => Err(Stop::TooDeep),
        }
    }
}

impl Links<AnyNode> for AnyNode {
    ghost mapped = { map_node };

    fn links_mut<C, B: Below<AnyNode, C>>(
        &mut self,
        below: &B,
        change: &mut C,
    ) -> Result<(), Stop> {
        match self {
            AnyNode::Expr(node) => node.links_mut(below, change),
            AnyNode::Stmt(node) => node.links_mut(below, change),
            AnyNode::MemberExpr(node) => node.links_mut(below, change),
            AnyNode::ExprPart(node) => node.links_mut(below, change),
            AnyNode::StmtPart(node) => node.links_mut(below, change),
            AnyNode::JSXPart(node) => node.links_mut(below, change),
            AnyNode::TsPart(node) => node.links_mut(below, change),
        }
    }
}

/// Changes the names and links of a tree, in which no more than `depth` links lie below one
/// another: `Stop::TooDeep` where more do.
pub fn change_links<T: Links<AnyNode>, C: Change<AnyNode>>(
    alloc: Global,
    node: &mut T,
    change: &mut C,
    depth: usize,
) -> Result<(), Stop>
    ensures { OnOk result
        (T.mapped C.old_ident C.old node.old ≡ T.mapped C.new_ident C.new node.new) }
{
    let levels = levels(alloc, depth)?;
    node.links_mut(&levels, change)
}
