//! What may hold a node: whatever a link holds, and the parts that this is made of.

ghost use Rattle.std.specs.Prelude.{◌≡◌, Box, IfErr, IfOk, Option, Some};
ghost use Rattle.std.specs.Borrow.{sem};
ghost use Rattle.std.specs.Option.{option_and_then, option_copied, option_copied_mut, option_map};
ghost use Rattle.std.specs.Result.{result_ok};
ghost use Rattle.std.specs.declared.alloc.Global.{Global};
ghost use Rattle.swc_ecma_codegen_tree.specs.Lending.{LendsNode, box_row};

use std::alloc::{AllocError, Global};

/// What may hold a node of type `T`.
pub trait Holds<T>: Sized {
    ghost node_in: { Self → Option T };

    /// What holds `node`. Where memory is refused, `node` is let go.
    fn hold(alloc: Global, node: T) -> Result<Self, AllocError>
        ensures { IfOk result (λ holder. node_in holder ≡ Some node) };

    /// The node, where it is one.
    fn node(&self) -> Option<&T>
        ensures { option_copied result ≡ node_in self.now };

    /// The node, taken out, where it is one; otherwise the holder again.
    fn into_node(self) -> Result<T, Self>
        ensures node { result_ok result ≡ node_in self }
        ensures holder { IfErr result (λ other. other ≡ self) };
}

/// What may hold a node of type `T`, and lends it to be changed in place.
pub trait HoldsMut<T>: Holds<T> {
    /// The node, where it is one.
    fn node_mut(&mut self) -> Option<&mut T>
        ensures* lends { sem 𝓛 (LendsNode Self.row T.row Self.node_in self.entry result) }
        ensures node { option_copied_mut result ≡ Self.node_in self.old };
}

/// A node holds itself.
impl<T> Holds<T> for T {
    ghost node_in = { Some };

    fn hold(_: Global, node: T) -> Result<T, AllocError> {
        Ok(node)
    }

    fn node(&self) -> Option<&T> {
        Some(self)
    }

    fn into_node(self) -> Result<T, T> {
        Ok(self)
    }
}

/// What holds a part that holds `node`. Where memory is refused, `node` is let go.
pub(crate) fn hold_in_part<P: Holds<T>, T, N: Holds<P>>(
    alloc: Global,
    node: T,
) -> Result<N, AllocError>
    ensures { IfOk result (λ holder. option_and_then P.node_in (N.node_in holder) ≡ Some node) }
{
    let part = P::hold(alloc, node)?;
    N::hold(alloc, part)
}

/// The node in a part.
pub(crate) fn node_in_part<'a, P: Holds<T> + 'a, T, N: Holds<P>>(holder: &'a N) -> Option<&'a T>
    ensures { option_copied result ≡ option_and_then P.node_in (N.node_in holder.now) }
{
    match holder.node() {
        Some(part) => part.node(),
        None => None,
    }
}

/// What holds a node of type `T` in a box of its own.
pub(crate) trait HoldsBox<T>: Holds<T> {
    ghost box_in: { Self → Option (Box T Global) };

    /// The box, where the node is one of this type.
    fn box_mut(&mut self) -> Option<&mut Box<T>>
        ensures* lends { sem 𝓛 (LendsNode Self.row (box_row T.row) box_in self.entry result) }
        ensures node { option_copied_mut result ≡ box_in self.old };

    ghost node_is_boxed: { (n : Self) → Self.node_in n ≡ option_map (λ b. b.value) (box_in n) };
}

/// The node in a box, to be changed in place.
pub(crate) fn node_in_box_mut<'a, T: 'a, P: HoldsBox<T>>(holder: &'a mut P) -> Option<&'a mut T>
    ensures* lends { sem 𝓛 (LendsNode P.row T.row P.node_in holder.entry result) }
    ensures node { option_copied_mut result ≡ P.node_in holder.old }
{
    match holder.box_mut() {
        Some(node) => Some(node.as_mut()),
        None => None,
    }
}

/// The node in a part, to be changed in place.
pub(crate) fn node_in_part_mut<'a, P: HoldsMut<T> + 'a, T, N: HoldsMut<P>>(
    holder: &'a mut N,
) -> Option<&'a mut T>
    ensures* lends { sem 𝓛
        (LendsNode N.row T.row (λ n. option_and_then P.node_in (N.node_in n)) holder.entry result) }
    ensures node { option_copied_mut result ≡ option_and_then P.node_in (N.node_in holder.old) }
{
    match holder.node_mut() {
        Some(part) => part.node_mut(),
        None => None,
    }
}

/// The node in a part, taken out. What else is held is let go.
pub(crate) fn into_node_in_part<P: Holds<T> + Drop, T, N: Holds<P> + Drop>(holder: N) -> Option<T>
    ensures { result ≡ option_and_then P.node_in (N.node_in holder) }
{
    match holder.into_node() {
        Ok(part) => part.into_node().ok(),
        Err(_) => None,
    }
}
