//! Links that lend their nodes: in one of two ways, whatever their sort.

ghost use Rattle.std.specs.Prelude.{◌≡◌, Option, refl};
ghost use Rattle.std.proofs.Common.{rules};
ghost use Rattle.std.specs.Borrow.{sem};
ghost use Rattle.std.specs.Option.{option_and_then, option_copied_mut};
ghost use Rattle.swc_ecma_codegen_tree.specs.Lending.{LendsNode};

use crate::holds::{Holds, HoldsMut, node_in_part_mut};
use crate::sorts::{InPart, Itself, LinkSort};
use std::marker::PhantomData;

/// What lends a node of type `T` that stands in a `P`, in the way `W`.
pub trait LendsBy<W, P: Holds<T>, T>: Holds<P> {
    ghost lent_in: { Self → Option T };

    /// The node, where it is one.
    fn lend<'a>(&'a mut self, way: PhantomData<&'a (W, P)>) -> Option<&'a mut T>
        ensures* lends { sem 𝓛 (LendsNode Self.row T.row lent_in self.entry result) }
        ensures node { option_copied_mut result ≡ lent_in self.old };

    ghost lent_is_held: { (n : Self)
        → lent_in n ≡ option_and_then P.node_in (⟦<Self as Holds<P>>⟧.node_in n) };
}

impl<N: HoldsMut<T>, T> LendsBy<Itself, T, T> for N {
    ghost lent_in = { N.node_in };

    ghost lent_is_held = { Prim.search rules };

    fn lend<'a>(&'a mut self, _: PhantomData<&'a (Itself, T)>) -> Option<&'a mut T> {
        self.node_mut()
    }
}

impl<N: HoldsMut<P>, P: HoldsMut<T>, T> LendsBy<InPart, P, T> for N {
    ghost lent_in = { λ n. option_and_then P.node_in (N.node_in n) };

    ghost lent_is_held = { λ n. refl };

    fn lend<'a>(&'a mut self, _: PhantomData<&'a (InPart, P)>) -> Option<&'a mut T> {
        node_in_part_mut::<P, T, N>(self)
    }
}

/// What a link is to, in a tree whose links hold `N` and lend their nodes to be changed in place.
pub trait LinkSortMut<N: Holds<Self::Part>>: LinkSort<N> {
    /// The node that is linked to, of what the link holds.
    fn node_mut<'a>(holder: &'a mut N, sort: PhantomData<&'a Self>) -> Option<&'a mut Self::Node>
        ensures* lends { sem 𝓛
            (LendsNode N.row Self.Node.row (λ n. Self.linked (N.node_in n)) holder.entry result) }
        ensures node { option_copied_mut result ≡ Self.linked (N.node_in holder.old) };
}

impl<K: LinkSort<N>, N: LendsBy<K::Way, K::Part, K::Node>> LinkSortMut<N> for K {
    fn node_mut<'a>(holder: &'a mut N, _: PhantomData<&'a Self>) -> Option<&'a mut K::Node> {
        holder.lend(PhantomData)
    }
}
