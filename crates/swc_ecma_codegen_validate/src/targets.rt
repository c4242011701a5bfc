//! What is assigned to.

ghost use Rattle.swc_ecma_codegen_grammar.specs.AssignPhrases.{simple_assign_target, assign_target};

use crate::forms::{Fits, WellFormed};
use swc_ecma_codegen_tree::{AssignTarget, SimpleAssignTarget};

impl<N: Fits> WellFormed for SimpleAssignTarget<N> {
    ghost phrase = { simple_assign_target N.reads };

    #[tactic(auto, unfolding(swc_ecma_codegen_grammar::specs::AssignPhrases::simple_assign_target, swc_ecma_codegen_grammar::specs::Phrases::is_possible))]
    fn is_well_formed(&self) -> bool {
        match self {
            SimpleAssignTarget::Ident(node) => node.is_well_formed(),
            SimpleAssignTarget::Member(node) => node.is_well_formed(),
            SimpleAssignTarget::SuperProp(node) => node.is_well_formed(),
            SimpleAssignTarget::Paren(node) => node.is_well_formed(),
            SimpleAssignTarget::OptChain(node) => node.is_well_formed(),
            SimpleAssignTarget::TsAs(node) => node.is_well_formed(),
            SimpleAssignTarget::TsSatisfies(node) => node.is_well_formed(),
            SimpleAssignTarget::TsNonNull(node) => node.is_well_formed(),
            SimpleAssignTarget::TsTypeAssertion(node) => node.is_well_formed(),
            SimpleAssignTarget::TsInstantiation(node) => node.is_well_formed(),
            SimpleAssignTarget::Invalid(_) => false,
        }
    }
}

impl<N: Fits> WellFormed for AssignTarget<N> {
    ghost phrase = { assign_target N.reads };

    #[tactic(auto, unfolding(swc_ecma_codegen_grammar::specs::AssignPhrases::assign_target, swc_ecma_codegen_grammar::specs::Phrases::is_possible))]
    fn is_well_formed(&self) -> bool {
        match self {
            AssignTarget::Simple(node) => node.is_well_formed(),
            AssignTarget::Pat(node) => node.is_well_formed(),
        }
    }
}
