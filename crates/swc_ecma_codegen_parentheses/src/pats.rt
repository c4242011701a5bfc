//! Patterns and targets.

ghost use Rattle.swc_ecma_codegen_parentheses.specs.SamePats.{same_array_pat, same_rest_pat, same_key_value_pat_prop, same_assign_pat_prop, same_object_pat_prop, same_object_pat, same_assign_pat, same_pat, same_simple_assign_target, same_assign_target_pat, same_assign_target};

use crate::mends::{Mend, Mends, Stop, Usage, mend_bracketed, mend_optional};
use crate::places::Place;
use std::alloc::Global;
use swc_ecma_codegen_syntax::{Answers, Nonterminal};
use swc_ecma_codegen_tree::{
    ArrayPat, AssignPat, AssignPatProp, AssignTarget, AssignTargetPat, KeyValuePatProp, ObjectPat,
    ObjectPatProp, Pat, RestPat, SimpleAssignTarget,
};

impl<N: Answers, M: Mends<N>> Mend<N, M> for ArrayPat<N> {
    ghost same = { same_array_pat };

    #[tactic(auto, unfolding(crate::specs::SamePats::same_array_pat))]
    fn mend(&mut self, mender: &M, alloc: Global, place: Place) -> Result<(), Stop> {
        self.elems.mend(mender, alloc, place)
    }
}

impl<N: Answers, M: Mends<N>> Mend<N, M> for RestPat<N> {
    ghost same = { same_rest_pat };

    #[tactic(auto, unfolding(crate::specs::SamePats::same_rest_pat))]
    fn mend(&mut self, mender: &M, alloc: Global, place: Place) -> Result<(), Stop> {
        self.arg.mend(mender, alloc, place)
    }
}

impl<N: Answers, M: Mends<N>> Mend<N, M> for KeyValuePatProp<N> {
    ghost same = { same_key_value_pat_prop };

    #[tactic(auto, unfolding(crate::specs::SamePats::same_key_value_pat_prop))]
    fn mend(&mut self, mender: &M, alloc: Global, place: Place) -> Result<(), Stop> {
        self.key.mend(mender, alloc, place)?;
        self.value.mend(mender, alloc, place)
    }
}

impl<N: Answers, M: Mends<N>> Mend<N, M> for AssignPatProp<N> {
    ghost same = { same_assign_pat_prop };

    #[tactic(auto, unfolding(crate::specs::SamePats::same_assign_pat_prop))]
    fn mend(&mut self, mender: &M, alloc: Global, place: Place) -> Result<(), Stop> {
        let nonterminal = Nonterminal::AssignmentExpression;
        mend_optional(mender, alloc, &mut self.value, place, nonterminal)
    }
}

impl<N: Answers, M: Mends<N>> Mend<N, M> for ObjectPatProp<N> {
    ghost same = { same_object_pat_prop };

    #[tactic(auto, unfolding(crate::specs::SamePats::same_object_pat_prop))]
    fn mend(&mut self, mender: &M, alloc: Global, place: Place) -> Result<(), Stop> {
        match self {
            ObjectPatProp::KeyValue(node) => node.mend(mender, alloc, place),
            ObjectPatProp::Assign(node) => node.mend(mender, alloc, place),
            ObjectPatProp::Rest(node) => node.mend(mender, alloc, place),
        }
    }
}

impl<N: Answers, M: Mends<N>> Mend<N, M> for ObjectPat<N> {
    ghost same = { same_object_pat };

    #[tactic(auto, unfolding(crate::specs::SamePats::same_object_pat))]
    fn mend(&mut self, mender: &M, alloc: Global, place: Place) -> Result<(), Stop> {
        self.props.mend(mender, alloc, place)
    }
}

impl<N: Answers, M: Mends<N>> Mend<N, M> for AssignPat<N> {
    ghost same = { same_assign_pat };

    #[tactic(auto, unfolding(crate::specs::SamePats::same_assign_pat))]
    fn mend(&mut self, mender: &M, alloc: Global, place: Place) -> Result<(), Stop> {
        self.left.mend(mender, alloc, place)?;
        let nonterminal = Nonterminal::AssignmentExpression;
        mend_bracketed(mender, alloc, &mut self.right, place, nonterminal)
    }
}

impl<N: Answers, M: Mends<N>> Mend<N, M> for Pat<N> {
    ghost same = { same_pat };

    #[tactic(auto, unfolding(crate::specs::SamePats::same_pat))]
    fn mend(&mut self, mender: &M, alloc: Global, place: Place) -> Result<(), Stop> {
        match self {
            Pat::Array(node) => node.mend(mender, alloc, place),
            Pat::Rest(node) => node.mend(mender, alloc, place),
            Pat::Object(node) => node.mend(mender, alloc, place),
            Pat::Assign(node) => node.mend(mender, alloc, place),
            Pat::Expr(node) => {
                let within = place
                    .bracketed(Nonterminal::LeftHandSideExpression)
                    .beginning(place);
                mender.expr(alloc, node, within, Usage::Target)
            }
            _ => Ok(()),
        }
    }
}

impl<N: Answers, M: Mends<N>> Mend<N, M> for SimpleAssignTarget<N> {
    ghost same = { same_simple_assign_target };

    #[tactic(auto, unfolding(crate::specs::SamePats::same_simple_assign_target))]
    fn mend(&mut self, mender: &M, alloc: Global, place: Place) -> Result<(), Stop> {
        match self {
            SimpleAssignTarget::Member(node) => {
                let within = place.bracketed(Nonterminal::CallOrMember).beginning(place);
                node.mend(mender, alloc, within)
            }
            SimpleAssignTarget::SuperProp(node) => node.mend(mender, alloc, place),
            SimpleAssignTarget::Paren(node) => node.mend(mender, alloc, place),
            SimpleAssignTarget::OptChain(node) => node.mend(mender, alloc, place),
            SimpleAssignTarget::TsAs(node) => node.mend(mender, alloc, place),
            SimpleAssignTarget::TsSatisfies(node) => node.mend(mender, alloc, place),
            SimpleAssignTarget::TsNonNull(node) => node.mend(mender, alloc, place),
            SimpleAssignTarget::TsTypeAssertion(node) => node.mend(mender, alloc, place),
            SimpleAssignTarget::TsInstantiation(node) => node.mend(mender, alloc, place),
            _ => Ok(()),
        }
    }
}

impl<N: Answers, M: Mends<N>> Mend<N, M> for AssignTargetPat<N> {
    ghost same = { same_assign_target_pat };

    #[tactic(auto, unfolding(crate::specs::SamePats::same_assign_target_pat))]
    fn mend(&mut self, mender: &M, alloc: Global, place: Place) -> Result<(), Stop> {
        match self {
            AssignTargetPat::Array(node) => node.mend(mender, alloc, place),
            AssignTargetPat::Object(node) => node.mend(mender, alloc, place),
            _ => Ok(()),
        }
    }
}

impl<N: Answers, M: Mends<N>> Mend<N, M> for AssignTarget<N> {
    ghost same = { same_assign_target };

    #[tactic(auto, unfolding(crate::specs::SamePats::same_assign_target))]
    fn mend(&mut self, mender: &M, alloc: Global, place: Place) -> Result<(), Stop> {
        match self {
            AssignTarget::Simple(node) => node.mend(mender, alloc, place),
            AssignTarget::Pat(node) => node.mend(mender, alloc, place),
        }
    }
}
