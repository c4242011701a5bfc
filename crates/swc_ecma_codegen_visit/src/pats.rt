//! Links and names of patterns. Made by scripts/dev/make-visit-files.

ghost use Rattle.swc_ecma_codegen_visit.specs.MappedPats.{map_assign_pat, map_array_pat};
ghost use Rattle.swc_ecma_codegen_visit.specs.MappedPats.{map_rest_pat, map_key_value_pat_prop};
ghost use Rattle.swc_ecma_codegen_visit.specs.MappedPats.{map_assign_pat_prop, map_object_pat_prop};
ghost use Rattle.swc_ecma_codegen_visit.specs.MappedPats.{map_object_pat, map_pat};
ghost use Rattle.swc_ecma_codegen_visit.specs.MappedPats.{map_simple_assign_target};
ghost use Rattle.swc_ecma_codegen_visit.specs.MappedPats.{map_assign_target_pat, map_assign_target};

use crate::below::{Below, Links, Stop};
use swc_ecma_codegen_tree::{
    ArrayPat, AssignPat, AssignPatProp, AssignTarget, AssignTargetPat, KeyValuePatProp, ObjectPat,
    ObjectPatProp, Pat, RestPat, SimpleAssignTarget,
};

impl<N> Links<N> for AssignPat<N> {
    ghost mapped = { map_assign_pat };

    fn links_mut<C, B: Below<N, C>>(&mut self, below: &B, change: &mut C) -> Result<(), Stop> {
        self.left.links_mut(below, change)?;
        self.right.links_mut(below, change)
    }
}

impl<N> Links<N> for ArrayPat<N> {
    ghost mapped = { map_array_pat };

    fn links_mut<C, B: Below<N, C>>(&mut self, below: &B, change: &mut C) -> Result<(), Stop> {
        self.elems.links_mut(below, change)?;
        self.type_ann.links_mut(below, change)
    }
}

impl<N> Links<N> for RestPat<N> {
    ghost mapped = { map_rest_pat };

    fn links_mut<C, B: Below<N, C>>(&mut self, below: &B, change: &mut C) -> Result<(), Stop> {
        self.arg.links_mut(below, change)?;
        self.type_ann.links_mut(below, change)
    }
}

impl<N> Links<N> for KeyValuePatProp<N> {
    ghost mapped = { map_key_value_pat_prop };

    fn links_mut<C, B: Below<N, C>>(&mut self, below: &B, change: &mut C) -> Result<(), Stop> {
        self.key.links_mut(below, change)?;
        self.value.links_mut(below, change)
    }
}

impl<N> Links<N> for AssignPatProp<N> {
    ghost mapped = { map_assign_pat_prop };

    fn links_mut<C, B: Below<N, C>>(&mut self, below: &B, change: &mut C) -> Result<(), Stop> {
        self.key.links_mut(below, change)?;
        self.value.links_mut(below, change)
    }
}

impl<N> Links<N> for ObjectPatProp<N> {
    ghost mapped = { map_object_pat_prop };

    fn links_mut<C, B: Below<N, C>>(&mut self, below: &B, change: &mut C) -> Result<(), Stop> {
        match self {
            ObjectPatProp::KeyValue(node) => node.links_mut(below, change),
            ObjectPatProp::Assign(node) => node.links_mut(below, change),
            ObjectPatProp::Rest(node) => node.links_mut(below, change),
        }
    }
}

impl<N> Links<N> for ObjectPat<N> {
    ghost mapped = { map_object_pat };

    fn links_mut<C, B: Below<N, C>>(&mut self, below: &B, change: &mut C) -> Result<(), Stop> {
        self.props.links_mut(below, change)?;
        self.type_ann.links_mut(below, change)
    }
}

impl<N> Links<N> for Pat<N> {
    ghost mapped = { map_pat };

    fn links_mut<C, B: Below<N, C>>(&mut self, below: &B, change: &mut C) -> Result<(), Stop> {
        match self {
            Pat::Ident(node) => node.links_mut(below, change),
            Pat::Array(node) => node.links_mut(below, change),
            Pat::Rest(node) => node.links_mut(below, change),
            Pat::Object(node) => node.links_mut(below, change),
            Pat::Assign(node) => node.links_mut(below, change),
            Pat::Expr(node) => node.links_mut(below, change),
            Pat::Invalid(_) => Ok(()),
        }
    }
}

impl<N> Links<N> for SimpleAssignTarget<N> {
    ghost mapped = { map_simple_assign_target };

    fn links_mut<C, B: Below<N, C>>(&mut self, below: &B, change: &mut C) -> Result<(), Stop> {
        match self {
            SimpleAssignTarget::Ident(node) => node.links_mut(below, change),
            SimpleAssignTarget::Member(node) => node.links_mut(below, change),
            SimpleAssignTarget::SuperProp(node) => node.links_mut(below, change),
            SimpleAssignTarget::Paren(node) => node.links_mut(below, change),
            SimpleAssignTarget::OptChain(node) => node.links_mut(below, change),
            SimpleAssignTarget::TsAs(node) => node.links_mut(below, change),
            SimpleAssignTarget::TsSatisfies(node) => node.links_mut(below, change),
            SimpleAssignTarget::TsNonNull(node) => node.links_mut(below, change),
            SimpleAssignTarget::TsTypeAssertion(node) => node.links_mut(below, change),
            SimpleAssignTarget::TsInstantiation(node) => node.links_mut(below, change),
            SimpleAssignTarget::Invalid(_) => Ok(()),
        }
    }
}

impl<N> Links<N> for AssignTargetPat<N> {
    ghost mapped = { map_assign_target_pat };

    fn links_mut<C, B: Below<N, C>>(&mut self, below: &B, change: &mut C) -> Result<(), Stop> {
        match self {
            AssignTargetPat::Array(node) => node.links_mut(below, change),
            AssignTargetPat::Object(node) => node.links_mut(below, change),
            AssignTargetPat::Invalid(_) => Ok(()),
        }
    }
}

impl<N> Links<N> for AssignTarget<N> {
    ghost mapped = { map_assign_target };

    fn links_mut<C, B: Below<N, C>>(&mut self, below: &B, change: &mut C) -> Result<(), Stop> {
        match self {
            AssignTarget::Simple(node) => node.links_mut(below, change),
            AssignTarget::Pat(node) => node.links_mut(below, change),
        }
    }
}
