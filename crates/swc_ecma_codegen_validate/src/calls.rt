//! Arrays, calls and `new`.

ghost use Rattle.std.specs.Prelude.{◌≡◌, false};
ghost use Rattle.swc_ecma_codegen_grammar.specs.Phrases.{is_possible};
ghost use Rattle.swc_ecma_codegen_grammar.specs.CallPhrases.{expr_or_spread, array_lit, callee, call_expr, new_arguments, new_expr, chain_call};

use crate::forms::{Fits, WellFormed, all_well_formed};
use swc_ecma_codegen_grammar::roles::Role;
use swc_ecma_codegen_tree::{ArrayLit, CallExpr, Callee, ExprOrSpread, NewExpr, OptCall};

impl<N: Fits> WellFormed for ExprOrSpread<N> {
    ghost phrase = { expr_or_spread N.reads };

    #[tactic(auto, using(crate::proofs::CallsPossible::spread_possible), unfolding(swc_ecma_codegen_grammar::specs::CallPhrases::expr_or_spread, swc_ecma_codegen_grammar::specs::Phrases::is_possible))]
    fn is_well_formed(&self) -> bool {
        self.expr.is_well_formed()
    }
}

impl<N: Fits> WellFormed for ArrayLit<N> {
    ghost phrase = { array_lit N.reads };

    #[tactic(auto, using(crate::proofs::CallsPossible::array_lit_possible))]
    fn is_well_formed(&self) -> bool {
        all_well_formed(&self.elems)
    }
}

impl<N: Fits> WellFormed for Callee<N> {
    ghost phrase = { callee N.reads };

    #[tactic(auto, using(crate::proofs::CallsPossible::import_possible), unfolding(swc_ecma_codegen_grammar::specs::CallPhrases::callee, swc_ecma_codegen_grammar::specs::Phrases::is_possible))]
    fn is_well_formed(&self) -> bool {
        match self {
            Callee::Super(_) | Callee::Import(_) => true,
            Callee::Expr(node) => node.target().fits(Role::Callee),
        }
    }
}

impl<N: Fits> WellFormed for CallExpr<N> {
    ghost phrase = { call_expr N.reads };

    #[tactic(auto, using(crate::proofs::CallsPossible::call_possible))]
    fn is_well_formed(&self) -> bool {
        self.callee.is_well_formed()
            && self.type_args.is_well_formed()
            && all_well_formed(&self.args)
    }
}

/// Whether the arguments of `new` are well-formed, or there are none.
#[tactic(auto, using(crate::proofs::CallsPossible::listed_arguments_possible), unfolding(swc_ecma_codegen_grammar::specs::CallPhrases::new_arguments, swc_ecma_codegen_grammar::specs::Phrases::is_possible))]
fn are_arguments<N: Fits>(args: &Option<Vec<ExprOrSpread<N>>>) -> bool
    ensures { result ≡ is_possible (new_arguments N.reads false args.now) }
{
    match args {
        Some(args) => all_well_formed(args),
        None => true,
    }
}

impl<N: Fits> WellFormed for NewExpr<N> {
    ghost phrase = { new_expr N.reads false };

    #[tactic(auto, using(crate::proofs::CallsPossible::new_possible))]
    fn is_well_formed(&self) -> bool {
        self.callee.is_well_formed() && self.type_args.is_well_formed() && are_arguments(&self.args)
    }
}

impl<N: Fits> WellFormed for OptCall<N> {
    ghost phrase = { chain_call N.reads false };

    #[tactic(auto, using(crate::proofs::CallsPossible::chain_call_possible))]
    fn is_well_formed(&self) -> bool {
        self.callee.target().fits(Role::Callee)
            && self.type_args.is_well_formed()
            && all_well_formed(&self.args)
    }
}
