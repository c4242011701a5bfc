//! Patterns.

ghost use Rattle.std.specs.Prelude.{◌≡◌};
ghost use Rattle.swc_ecma_codegen_grammar.specs.Phrases.{is_possible};
ghost use Rattle.swc_ecma_codegen_grammar.specs.PatPhrases.{initializer, array_pat, rest_pat, assign_pat, key_value_pat_prop, assign_pat_prop, object_pat_prop, object_pat, pat, plain_parameter, assign_target_pat};

use crate::forms::{Fits, WellFormed, all_well_formed};
use swc_ecma_codegen_tree::{
    ArrayPat, AssignPat, AssignPatProp, AssignTargetPat, ExprBox, KeyValuePatProp, ObjectPat,
    ObjectPatProp, Pat, RestPat,
};

/// Whether what `= a` gives is well-formed, where there is such.
#[tactic(auto, unfolding(swc_ecma_codegen_grammar::specs::PatPhrases::initializer, swc_ecma_codegen_grammar::specs::Phrases::is_possible))]
pub(crate) fn is_initializer<N: Fits>(value: &Option<ExprBox<N>>) -> bool
    ensures { result ≡ is_possible (initializer N.reads value.now) }
{
    match value {
        Some(value) => value.is_well_formed(),
        None => true,
    }
}

impl<N: Fits> WellFormed for ArrayPat<N> {
    ghost phrase = { array_pat N.reads };

    #[tactic(auto, using(crate::proofs::PatsPossible::array_pat_possible))]
    fn is_well_formed(&self) -> bool {
        all_well_formed(&self.elems) && self.type_ann.is_well_formed()
    }
}

impl<N: Fits> WellFormed for RestPat<N> {
    ghost phrase = { rest_pat N.reads };

    #[tactic(auto, using(crate::proofs::PatsPossible::rest_pat_possible))]
    fn is_well_formed(&self) -> bool {
        self.arg.is_well_formed() && self.type_ann.is_well_formed()
    }
}

impl<N: Fits> WellFormed for AssignPat<N> {
    ghost phrase = { assign_pat N.reads };

    #[tactic(auto, unfolding(swc_ecma_codegen_grammar::specs::PatPhrases::assign_pat, swc_ecma_codegen_grammar::specs::Phrases::is_possible))]
    fn is_well_formed(&self) -> bool {
        self.left.is_well_formed() && self.right.is_well_formed()
    }
}

impl<N: Fits> WellFormed for KeyValuePatProp<N> {
    ghost phrase = { key_value_pat_prop N.reads };

    #[tactic(auto, unfolding(swc_ecma_codegen_grammar::specs::PatPhrases::key_value_pat_prop, swc_ecma_codegen_grammar::specs::Phrases::is_possible))]
    fn is_well_formed(&self) -> bool {
        self.key.is_well_formed() && self.value.is_well_formed()
    }
}

impl<N: Fits> WellFormed for AssignPatProp<N> {
    ghost phrase = { assign_pat_prop N.reads };

    #[tactic(auto, unfolding(swc_ecma_codegen_grammar::specs::PatPhrases::assign_pat_prop, swc_ecma_codegen_grammar::specs::Phrases::is_possible))]
    fn is_well_formed(&self) -> bool {
        self.key.is_well_formed() && is_initializer(&self.value)
    }
}

impl<N: Fits> WellFormed for ObjectPatProp<N> {
    ghost phrase = { object_pat_prop N.reads };

    #[tactic(auto, unfolding(swc_ecma_codegen_grammar::specs::PatPhrases::object_pat_prop))]
    fn is_well_formed(&self) -> bool {
        match self {
            ObjectPatProp::KeyValue(node) => node.is_well_formed(),
            ObjectPatProp::Assign(node) => node.is_well_formed(),
            ObjectPatProp::Rest(node) => node.is_well_formed(),
        }
    }
}

impl<N: Fits> WellFormed for ObjectPat<N> {
    ghost phrase = { object_pat N.reads };

    #[tactic(auto, using(crate::proofs::PatsPossible::object_pat_possible))]
    fn is_well_formed(&self) -> bool {
        all_well_formed(&self.props) && self.type_ann.is_well_formed()
    }
}

impl<N: Fits> WellFormed for Pat<N> {
    ghost phrase = { pat N.reads };

    #[tactic(auto, unfolding(swc_ecma_codegen_grammar::specs::PatPhrases::pat, swc_ecma_codegen_grammar::specs::Phrases::is_possible))]
    fn is_well_formed(&self) -> bool {
        match self {
            Pat::Ident(node) => node.is_well_formed(),
            Pat::Array(node) => node.is_well_formed(),
            Pat::Rest(node) => node.is_well_formed(),
            Pat::Object(node) => node.is_well_formed(),
            Pat::Assign(node) => node.is_well_formed(),
            Pat::Invalid(_) => false,
            Pat::Expr(node) => node.is_well_formed(),
        }
    }
}

/// Whether a pattern is a name alone, and well-formed.
#[tactic(auto, using(crate::proofs::PatsPossible::plain_name_possible), unfolding(swc_ecma_codegen_grammar::specs::PatPhrases::plain_parameter, swc_ecma_codegen_grammar::specs::Phrases::is_possible))]
pub(crate) fn is_plain_parameter<N: Fits>(pat: &Pat<N>) -> bool
    ensures { result ≡ is_possible (plain_parameter N.reads pat.now) }
{
    match pat {
        Pat::Ident(name) => {
            !name.id.optional && name.type_ann.is_none() && name.id.is_well_formed()
        }
        _ => false,
    }
}

impl<N: Fits> WellFormed for AssignTargetPat<N> {
    ghost phrase = { assign_target_pat N.reads };

    #[tactic(auto, unfolding(swc_ecma_codegen_grammar::specs::PatPhrases::assign_target_pat, swc_ecma_codegen_grammar::specs::Phrases::is_possible))]
    fn is_well_formed(&self) -> bool {
        match self {
            AssignTargetPat::Array(node) => node.is_well_formed(),
            AssignTargetPat::Object(node) => node.is_well_formed(),
            AssignTargetPat::Invalid(_) => false,
        }
    }
}
