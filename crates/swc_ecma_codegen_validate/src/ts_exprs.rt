//! Expressions of TypeScript.

ghost use Rattle.swc_ecma_codegen_grammar.specs.TsExprPhrases.{ts_as_expr, ts_const_assertion, ts_satisfies_expr, ts_non_null_expr, ts_type_assertion, ts_instantiation};

use crate::forms::{Fits, WellFormed};
use swc_ecma_codegen_tree::{
    TsAsExpr, TsConstAssertion, TsInstantiation, TsNonNullExpr, TsSatisfiesExpr, TsTypeAssertion,
};

impl<N: Fits> WellFormed for TsAsExpr<N> {
    ghost phrase = { ts_as_expr N.reads };

    #[tactic(auto, unfolding(swc_ecma_codegen_grammar::specs::TsExprPhrases::ts_as_expr, swc_ecma_codegen_grammar::specs::Phrases::is_possible))]
    fn is_well_formed(&self) -> bool {
        self.expr.is_well_formed() && self.type_ann.is_well_formed()
    }
}

impl<N: Fits> WellFormed for TsConstAssertion<N> {
    ghost phrase = { ts_const_assertion N.reads };

    #[tactic(auto, using(crate::proofs::TsExprsPossible::const_assertion_possible))]
    fn is_well_formed(&self) -> bool {
        self.expr.is_well_formed()
    }
}

impl<N: Fits> WellFormed for TsSatisfiesExpr<N> {
    ghost phrase = { ts_satisfies_expr N.reads };

    #[tactic(auto, unfolding(swc_ecma_codegen_grammar::specs::TsExprPhrases::ts_satisfies_expr, swc_ecma_codegen_grammar::specs::Phrases::is_possible))]
    fn is_well_formed(&self) -> bool {
        self.expr.is_well_formed() && self.type_ann.is_well_formed()
    }
}

impl<N: Fits> WellFormed for TsNonNullExpr<N> {
    ghost phrase = { ts_non_null_expr N.reads };

    #[tactic(auto, using(crate::proofs::TsExprsPossible::non_null_possible))]
    fn is_well_formed(&self) -> bool {
        self.expr.is_well_formed()
    }
}

impl<N: Fits> WellFormed for TsTypeAssertion<N> {
    ghost phrase = { ts_type_assertion N.reads };

    #[tactic(auto, unfolding(swc_ecma_codegen_grammar::specs::TsExprPhrases::ts_type_assertion, swc_ecma_codegen_grammar::specs::Phrases::is_possible))]
    fn is_well_formed(&self) -> bool {
        self.type_ann.is_well_formed() && self.expr.is_well_formed()
    }
}

impl<N: Fits> WellFormed for TsInstantiation<N> {
    ghost phrase = { ts_instantiation N.reads };

    #[tactic(auto, unfolding(swc_ecma_codegen_grammar::specs::TsExprPhrases::ts_instantiation, swc_ecma_codegen_grammar::specs::Phrases::is_possible))]
    fn is_well_formed(&self) -> bool {
        self.expr.is_well_formed() && self.type_args.is_well_formed()
    }
}
