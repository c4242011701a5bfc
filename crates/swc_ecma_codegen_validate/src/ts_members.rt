//! Members of object types and of interfaces.

ghost use Rattle.std.specs.Prelude.{◌≡◌};
ghost use Rattle.swc_ecma_codegen_grammar.specs.Phrases.{is_possible};
ghost use Rattle.swc_ecma_codegen_grammar.specs.MemberPhrases.{ts_call_signature_decl, ts_construct_signature_decl, ts_property_signature, ts_getter_signature, ts_setter_signature, ts_method_signature, ts_index_signature, ts_signature, ts_type_element, ts_interface_body};

use crate::forms::{Fits, WellFormed, all_well_formed};
use swc_ecma_codegen_tree::{
    TsCallSignatureDecl, TsConstructSignatureDecl, TsGetterSignature, TsIndexSignature,
    TsInterfaceBody, TsMethodSignature, TsPropertySignature, TsSetterSignature, TsTypeElement,
};

impl<N: Fits> WellFormed for TsCallSignatureDecl<N> {
    ghost phrase = { ts_call_signature_decl N.reads };

    #[tactic(auto, using(crate::proofs::MembersPossible::call_signature_possible))]
    fn is_well_formed(&self) -> bool {
        self.type_params.is_well_formed()
            && all_well_formed(&self.params)
            && self.type_ann.is_well_formed()
    }
}

impl<N: Fits> WellFormed for TsConstructSignatureDecl<N> {
    ghost phrase = { ts_construct_signature_decl N.reads };

    #[tactic(auto, using(crate::proofs::MembersPossible::construct_signature_possible))]
    fn is_well_formed(&self) -> bool {
        self.type_params.is_well_formed()
            && all_well_formed(&self.params)
            && self.type_ann.is_well_formed()
    }
}

impl<N: Fits> WellFormed for TsPropertySignature<N> {
    ghost phrase = { ts_property_signature N.reads };

    #[tactic(auto, using(crate::proofs::MembersPossible::property_signature_possible))]
    fn is_well_formed(&self) -> bool {
        self.key.is_well_formed() && self.type_ann.is_well_formed()
    }
}

impl<N: Fits> WellFormed for TsGetterSignature<N> {
    ghost phrase = { ts_getter_signature N.reads };

    #[tactic(auto, using(crate::proofs::MembersPossible::getter_signature_possible))]
    fn is_well_formed(&self) -> bool {
        self.key.is_well_formed() && self.type_ann.is_well_formed()
    }
}

impl<N: Fits> WellFormed for TsSetterSignature<N> {
    ghost phrase = { ts_setter_signature N.reads };

    #[tactic(auto, using(crate::proofs::MembersPossible::setter_signature_possible))]
    fn is_well_formed(&self) -> bool {
        self.key.is_well_formed() && self.param.is_well_formed()
    }
}

impl<N: Fits> WellFormed for TsMethodSignature<N> {
    ghost phrase = { ts_method_signature N.reads };

    #[tactic(auto, using(crate::proofs::MembersPossible::method_signature_possible))]
    fn is_well_formed(&self) -> bool {
        self.key.is_well_formed()
            && self.type_params.is_well_formed()
            && all_well_formed(&self.params)
            && self.type_ann.is_well_formed()
    }
}

impl<N: Fits> WellFormed for TsIndexSignature<N> {
    ghost phrase = { ts_index_signature N.reads };

    #[tactic(auto, using(crate::proofs::MembersPossible::index_signature_possible))]
    fn is_well_formed(&self) -> bool {
        all_well_formed(&self.params) && self.type_ann.is_well_formed()
    }
}

/// Whether a member is well-formed, by its variant.
#[tactic(auto, unfolding(swc_ecma_codegen_grammar::specs::MemberPhrases::ts_signature))]
fn is_signature<N: Fits>(node: &TsTypeElement<N>) -> bool
    ensures { result ≡ is_possible (ts_signature N.reads node.now) }
{
    match node {
        TsTypeElement::TsCallSignatureDecl(node) => node.is_well_formed(),
        TsTypeElement::TsConstructSignatureDecl(node) => node.is_well_formed(),
        TsTypeElement::TsPropertySignature(node) => node.is_well_formed(),
        TsTypeElement::TsGetterSignature(node) => node.is_well_formed(),
        TsTypeElement::TsSetterSignature(node) => node.is_well_formed(),
        TsTypeElement::TsMethodSignature(node) => node.is_well_formed(),
        TsTypeElement::TsIndexSignature(node) => node.is_well_formed(),
    }
}

impl<N: Fits> WellFormed for TsTypeElement<N> {
    ghost phrase = { ts_type_element N.reads };

    #[tactic(auto, using(crate::proofs::MembersPossible::type_element_possible))]
    fn is_well_formed(&self) -> bool {
        is_signature(self)
    }
}

impl<N: Fits> WellFormed for TsInterfaceBody<N> {
    ghost phrase = { ts_interface_body N.reads };

    #[tactic(auto, using(crate::proofs::MembersPossible::interface_body_possible))]
    fn is_well_formed(&self) -> bool {
        all_well_formed(&self.body)
    }
}
