//! What goes through the names and links of a node.

ghost use Rattle.std.specs.Prelude.{◌≡◌};
ghost use Rattle.std.specs.Result.{OnOk};
ghost use Rattle.std.specs.formers.vec.Vec.{mapped as vec_mapped};
ghost use Rattle.swc_ecma_codegen_tree.specs.declared.idents.Ident.{Ident};
ghost use Rattle.swc_ecma_codegen_visit.specs.Mapping.{map_link, map_option, map_box};

use std::alloc::AllocError;
use swc_ecma_codegen_tree::{Ident, Link};

/// Why a change went no further. What was changed until then stays changed.
#[derive(Debug, Drop)]
pub enum Stop {
    /// Memory was refused.
    OutOfMemory,
    /// More links lie below one another than are gone down.
    TooDeep,
}

impl From<AllocError> for Stop {
    fn from(_: AllocError) -> Stop {
        Stop::OutOfMemory
    }
}

/// What is told of each name, and goes on to what each link holds, with a change `C`.
pub trait Below<N, C>: Sized {
    /// What stays of a name: this of it is `ident_after` of what it became.
    ghost ident_before: { Ident → Ident };

    ghost ident_after: { Ident → Ident };

    /// What stays of what a link holds: this of it is `after` of what the link holds then.
    ghost before: { N → N };

    ghost after: { N → N };

    /// A name, to be changed.
    fn ident(&self, change: &mut C, ident: &mut Ident) -> Result<(), Stop>
        ensures { OnOk result (ident_before ident.old ≡ ident_after ident.new) };

    /// What a link holds, to be changed.
    fn held(&self, change: &mut C, node: &mut N) -> Result<(), Stop>
        ensures { OnOk result (before node.old ≡ after node.new) };
}

/// A node of any type, with its names and links.
pub trait Links<N>: Sized {
    /// The node, with the first function of each of its names and the second of what each of its
    /// links holds.
    ghost mapped: { (Ident → Ident) → (N → N) → Self → Self };

    /// Goes through its names and links, one after another: through those of `a ? b : c` from `a`
    /// to `c`. Nothing else of it changes.
    fn links_mut<C, B: Below<N, C>>(&mut self, below: &B, change: &mut C) -> Result<(), Stop>
        ensures { OnOk result
            (mapped B.ident_before B.before self.old ≡ mapped B.ident_after B.after self.new) };
}

impl<N> Links<N> for Ident {
    ghost mapped = { λ g f. g };

    fn links_mut<C, B: Below<N, C>>(&mut self, below: &B, change: &mut C) -> Result<(), Stop> {
        below.ident(change, self)
    }
}

impl<K, N> Links<N> for Link<K, N> {
    ghost mapped = { λ g. map_link };

    fn links_mut<C, B: Below<N, C>>(&mut self, below: &B, change: &mut C) -> Result<(), Stop> {
        below.held(change, self.target_mut())
    }
}

impl<N, T: Links<N>> Links<N> for Option<T> {
    ghost mapped = { λ g f. map_option (T.mapped g f) };

    fn links_mut<C, B: Below<N, C>>(&mut self, below: &B, change: &mut C) -> Result<(), Stop> {
        match self {
            Some(node) => node.links_mut(below, change),
            None => Ok(()),
        }
    }
}

impl<N, T: Links<N>> Links<N> for Box<T> {
    ghost mapped = { λ g f. map_box (T.mapped g f) };

    fn links_mut<C, B: Below<N, C>>(&mut self, below: &B, change: &mut C) -> Result<(), Stop> {
        self.as_mut().links_mut(below, change)
    }
}

impl<N, T: Links<N>> Links<N> for Vec<T> {
    ghost mapped = { λ g f. vec_mapped (T.mapped g f) };

    fn links_mut<C, B: Below<N, C>>(&mut self, below: &B, change: &mut C) -> Result<(), Stop> {
        for node in self.iter_mut() {
            node.links_mut(below, change)?;
        }
        Ok(())
    }
}
