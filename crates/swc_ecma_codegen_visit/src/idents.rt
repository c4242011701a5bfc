//! Links and names of bound names. Made by scripts/dev/make-visit-files.

ghost use Rattle.swc_ecma_codegen_visit.specs.MappedIdents.{map_binding_ident};

use crate::below::{Below, Links, Stop};
use swc_ecma_codegen_tree::BindingIdent;

impl<N> Links<N> for BindingIdent<N> {
    ghost mapped = { map_binding_ident };

    fn links_mut<C, B: Below<N, C>>(&mut self, below: &B, change: &mut C) -> Result<(), Stop> {
        self.id.links_mut(below, change)?;
        self.type_ann.links_mut(below, change)
    }
}
