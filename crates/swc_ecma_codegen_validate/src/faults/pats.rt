//! Patterns, and what is assigned to.

ghost use Rattle.swc_ecma_codegen_validate.specs.Rules.{findings};
ghost use Rattle.swc_ecma_codegen_validate.specs.PatRules.{array_pat, rest_pat, assign_pat, key_value_pat_prop, assign_pat_prop, object_pat_prop, object_pat, pat, assign_target_pat, simple_assign_target, assign_target};

use crate::faults::{FaultIn, FindsFault, Found, not_here, within};
use std::alloc::Global;
use swc_ecma_codegen_tree::{
    ArrayPat, AssignPat, AssignPatProp, AssignTarget, AssignTargetPat, KeyValuePatProp, ObjectPat,
    ObjectPatProp, Pat, RestPat, SimpleAssignTarget,
};

impl<N: FaultIn> FindsFault for ArrayPat<N> {
    ghost found = { λ n. findings N.found_as (array_pat n) };

    #[tactic(auto, unfolding(crate::specs::PatRules::array_pat, crate::specs::Rules::findings))]
    fn fault(&self, alloc: Global) -> Found {
        within!(self, alloc; elems type_ann)
    }
}

impl<N: FaultIn> FindsFault for RestPat<N> {
    ghost found = { λ n. findings N.found_as (rest_pat n) };

    #[tactic(auto, unfolding(crate::specs::PatRules::rest_pat, crate::specs::Rules::findings))]
    fn fault(&self, alloc: Global) -> Found {
        within!(self, alloc; arg type_ann)
    }
}

impl<N: FaultIn> FindsFault for AssignPat<N> {
    ghost found = { λ n. findings N.found_as (assign_pat n) };

    #[tactic(auto, unfolding(crate::specs::PatRules::assign_pat, crate::specs::Rules::findings))]
    fn fault(&self, alloc: Global) -> Found {
        within!(self, alloc; left right)
    }
}

impl<N: FaultIn> FindsFault for KeyValuePatProp<N> {
    ghost found = { λ n. findings N.found_as (key_value_pat_prop n) };

    #[tactic(auto, unfolding(crate::specs::PatRules::key_value_pat_prop, crate::specs::Rules::findings))]
    fn fault(&self, alloc: Global) -> Found {
        within!(self, alloc; key value)
    }
}

impl<N: FaultIn> FindsFault for AssignPatProp<N> {
    ghost found = { λ n. findings N.found_as (assign_pat_prop n) };

    #[tactic(auto, unfolding(crate::specs::PatRules::assign_pat_prop, crate::specs::Rules::findings))]
    fn fault(&self, alloc: Global) -> Found {
        within!(self, alloc; key value)
    }
}

impl<N: FaultIn> FindsFault for ObjectPatProp<N> {
    ghost found = { λ n. findings N.found_as (object_pat_prop n) };

    #[tactic(auto, unfolding(crate::specs::PatRules::object_pat_prop, crate::specs::Rules::findings))]
    fn fault(&self, alloc: Global) -> Found {
        match self {
            ObjectPatProp::KeyValue(node) => node.fault(alloc),
            ObjectPatProp::Assign(node) => node.fault(alloc),
            ObjectPatProp::Rest(node) => node.fault(alloc),
        }
    }
}

impl<N: FaultIn> FindsFault for ObjectPat<N> {
    ghost found = { λ n. findings N.found_as (object_pat n) };

    #[tactic(auto, unfolding(crate::specs::PatRules::object_pat, crate::specs::Rules::findings))]
    fn fault(&self, alloc: Global) -> Found {
        within!(self, alloc; props type_ann)
    }
}

impl<N: FaultIn> FindsFault for Pat<N> {
    ghost found = { λ n. findings N.found_as (pat n) };

    #[tactic(auto, unfolding(crate::specs::PatRules::pat, crate::specs::Rules::findings))]
    fn fault(&self, alloc: Global) -> Found {
        match self {
            Pat::Ident(node) => node.fault(alloc),
            Pat::Array(node) => node.fault(alloc),
            Pat::Rest(node) => node.fault(alloc),
            Pat::Object(node) => node.fault(alloc),
            Pat::Assign(node) => node.fault(alloc),
            Pat::Invalid(_) => not_here(alloc),
            Pat::Expr(node) => node.fault(alloc),
        }
    }
}

impl<N: FaultIn> FindsFault for AssignTargetPat<N> {
    ghost found = { λ n. findings N.found_as (assign_target_pat n) };

    #[tactic(auto, unfolding(crate::specs::PatRules::assign_target_pat, crate::specs::Rules::findings))]
    fn fault(&self, alloc: Global) -> Found {
        match self {
            AssignTargetPat::Array(node) => node.fault(alloc),
            AssignTargetPat::Object(node) => node.fault(alloc),
            AssignTargetPat::Invalid(_) => not_here(alloc),
        }
    }
}

impl<N: FaultIn> FindsFault for SimpleAssignTarget<N> {
    ghost found = { λ n. findings N.found_as (simple_assign_target n) };

    #[tactic(auto, unfolding(crate::specs::PatRules::simple_assign_target, crate::specs::Rules::findings))]
    fn fault(&self, alloc: Global) -> Found {
        match self {
            SimpleAssignTarget::Ident(node) => node.fault(alloc),
            SimpleAssignTarget::Member(node) => node.fault(alloc),
            SimpleAssignTarget::SuperProp(node) => node.fault(alloc),
            SimpleAssignTarget::Paren(node) => node.fault(alloc),
            SimpleAssignTarget::OptChain(node) => node.fault(alloc),
            SimpleAssignTarget::TsAs(node) => node.fault(alloc),
            SimpleAssignTarget::TsSatisfies(node) => node.fault(alloc),
            SimpleAssignTarget::TsNonNull(node) => node.fault(alloc),
            SimpleAssignTarget::TsTypeAssertion(node) => node.fault(alloc),
            SimpleAssignTarget::TsInstantiation(node) => node.fault(alloc),
            SimpleAssignTarget::Invalid(_) => not_here(alloc),
        }
    }
}

impl<N: FaultIn> FindsFault for AssignTarget<N> {
    ghost found = { λ n. findings N.found_as (assign_target n) };

    #[tactic(auto, unfolding(crate::specs::PatRules::assign_target, crate::specs::Rules::findings))]
    fn fault(&self, alloc: Global) -> Found {
        match self {
            AssignTarget::Simple(node) => node.fault(alloc),
            AssignTarget::Pat(node) => node.fault(alloc),
        }
    }
}
