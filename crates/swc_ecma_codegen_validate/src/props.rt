//! Objects and their properties.

ghost use Rattle.std.specs.Prelude.{◌≡◌};
ghost use Rattle.swc_ecma_codegen_grammar.specs.Phrases.{is_possible};
ghost use Rattle.swc_ecma_codegen_grammar.specs.KeyPhrases.{prop_name};
ghost use Rattle.swc_ecma_codegen_grammar.specs.PropPhrases.{key_value_prop, assign_prop, optional_body, getter_prop, setter_prop, method_prop, prop, prop_or_spread, object_lit};

use crate::forms::{Fits, WellFormed, all_well_formed};
use swc_ecma_codegen_grammar::roles::Role;
use swc_ecma_codegen_tree::{
    AssignProp, BlockStmtBox, GetterProp, KeyValueProp, MethodProp, ObjectLit, Prop, PropName,
    PropOrSpread, SetterProp,
};

impl<N: Fits> WellFormed for PropName<N> {
    ghost phrase = { prop_name N.reads };

    #[tactic(auto, unfolding(swc_ecma_codegen_grammar::specs::KeyPhrases::prop_name, swc_ecma_codegen_grammar::specs::NamePhrases::ident_name, swc_ecma_codegen_grammar::specs::Phrases::is_possible))]
    fn is_well_formed(&self) -> bool {
        match self {
            PropName::Ident(node) => node.is_well_formed(),
            PropName::Str(node) => node.is_well_formed(),
            PropName::Num(node) => node.is_well_formed(),
            PropName::BigInt(node) => node.is_well_formed(),
            PropName::Computed(node) => node.is_well_formed(),
        }
    }
}

impl<N: Fits> WellFormed for KeyValueProp<N> {
    ghost phrase = { key_value_prop N.reads };

    #[tactic(auto, unfolding(swc_ecma_codegen_grammar::specs::PropPhrases::key_value_prop, swc_ecma_codegen_grammar::specs::Phrases::is_possible))]
    fn is_well_formed(&self) -> bool {
        self.key.is_well_formed() && self.value.is_well_formed()
    }
}

impl<N: Fits> WellFormed for AssignProp<N> {
    ghost phrase = { assign_prop N.reads };

    #[tactic(auto, unfolding(swc_ecma_codegen_grammar::specs::PropPhrases::assign_prop, swc_ecma_codegen_grammar::specs::Phrases::is_possible))]
    fn is_well_formed(&self) -> bool {
        self.key.is_well_formed() && self.value.is_well_formed()
    }
}

/// Whether a body is well-formed, or there is none.
#[tactic(auto, unfolding(swc_ecma_codegen_grammar::specs::PropPhrases::optional_body, swc_ecma_codegen_grammar::specs::Phrases::is_possible))]
fn is_optional_body<N: Fits>(body: &Option<BlockStmtBox<N>>) -> bool
    ensures { result ≡ is_possible (optional_body N.reads body.now) }
{
    match body {
        Some(body) => body.is_well_formed(),
        None => true,
    }
}

impl<N: Fits> WellFormed for GetterProp<N> {
    ghost phrase = { getter_prop N.reads };

    #[tactic(auto, using(crate::proofs::PropsPossible::getter_possible))]
    fn is_well_formed(&self) -> bool {
        self.key.is_well_formed() && self.type_ann.is_well_formed() && is_optional_body(&self.body)
    }
}

impl<N: Fits> WellFormed for SetterProp<N> {
    ghost phrase = { setter_prop N.reads };

    #[tactic(auto, using(crate::proofs::PropsPossible::setter_possible))]
    fn is_well_formed(&self) -> bool {
        self.key.is_well_formed()
            && self.this_param.is_well_formed()
            && self.param.is_well_formed()
            && is_optional_body(&self.body)
    }
}

impl<N: Fits> WellFormed for MethodProp<N> {
    ghost phrase = { method_prop N.reads };

    #[tactic(auto, unfolding(swc_ecma_codegen_grammar::specs::PropPhrases::method_prop, swc_ecma_codegen_grammar::specs::Phrases::is_possible))]
    fn is_well_formed(&self) -> bool {
        self.function.target().fits(Role::MethodHead)
            && self.key.is_well_formed()
            && self.function.is_well_formed()
    }
}

impl<N: Fits> WellFormed for Prop<N> {
    ghost phrase = { prop N.reads };

    #[tactic(auto, unfolding(swc_ecma_codegen_grammar::specs::PropPhrases::prop))]
    fn is_well_formed(&self) -> bool {
        match self {
            Prop::Shorthand(node) => node.is_well_formed(),
            Prop::KeyValue(node) => node.is_well_formed(),
            Prop::Assign(node) => node.is_well_formed(),
            Prop::Getter(node) => node.is_well_formed(),
            Prop::Setter(node) => node.is_well_formed(),
            Prop::Method(node) => node.is_well_formed(),
        }
    }
}

impl<N: Fits> WellFormed for PropOrSpread<N> {
    ghost phrase = { prop_or_spread N.reads };

    #[tactic(auto, unfolding(swc_ecma_codegen_grammar::specs::PropPhrases::prop_or_spread))]
    fn is_well_formed(&self) -> bool {
        match self {
            PropOrSpread::Spread(node) => node.is_well_formed(),
            PropOrSpread::Prop(node) => node.is_well_formed(),
        }
    }
}

impl<N: Fits> WellFormed for ObjectLit<N> {
    ghost phrase = { object_lit N.reads };

    #[tactic(auto, using(crate::proofs::PropsPossible::object_lit_possible))]
    fn is_well_formed(&self) -> bool {
        all_well_formed(&self.props)
    }
}
