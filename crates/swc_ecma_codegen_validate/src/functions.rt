//! Functions.

ghost use Rattle.std.specs.Prelude.{◌≡◌};
ghost use Rattle.swc_ecma_codegen_grammar.specs.Phrases.{is_possible};
ghost use Rattle.swc_ecma_codegen_grammar.specs.FunctionPhrases.{decorator, param, function_body, function, optional_name, fn_expr, arrow_body, arrow_expr};

use crate::forms::{Fits, WellFormed, all_well_formed};
use swc_ecma_codegen_grammar::roles::Role;
use swc_ecma_codegen_tree::{
    ArrowExpr, BlockStmtBox, BlockStmtOrExpr, Decorator, FnExpr, Function, Ident, Param,
};

impl<N: Fits> WellFormed for Decorator<N> {
    ghost phrase = { decorator N.reads };

    #[tactic(auto, unfolding(swc_ecma_codegen_grammar::specs::FunctionPhrases::decorator, swc_ecma_codegen_grammar::specs::Phrases::is_possible))]
    fn is_well_formed(&self) -> bool {
        self.expr.is_well_formed()
    }
}

impl<N: Fits> WellFormed for Param<N> {
    ghost phrase = { param N.reads };

    #[tactic(auto, using(crate::proofs::Lists::in_order_possible), unfolding(swc_ecma_codegen_grammar::specs::FunctionPhrases::param, swc_ecma_codegen_grammar::specs::Phrases::is_possible))]
    fn is_well_formed(&self) -> bool {
        all_well_formed(&self.decorators) && self.pat.is_well_formed()
    }
}

/// Whether a body is well-formed, or the semicolon in its place.
#[tactic(auto, unfolding(swc_ecma_codegen_grammar::specs::FunctionPhrases::function_body, swc_ecma_codegen_grammar::specs::Phrases::is_possible))]
pub(crate) fn is_body<N: Fits>(body: &Option<BlockStmtBox<N>>) -> bool
    ensures { result ≡ is_possible (function_body N.reads body.now) }
{
    match body {
        Some(body) => body.is_well_formed(),
        None => true,
    }
}

impl<N: Fits> WellFormed for Function<N> {
    ghost phrase = { function N.reads };

    #[tactic(auto, using(crate::proofs::FunctionsPossible::function_possible))]
    fn is_well_formed(&self) -> bool {
        self.decorators.is_empty()
            && self.type_params.is_well_formed()
            && all_well_formed(&self.params)
            && self.return_type.is_well_formed()
            && is_body(&self.body)
    }
}

/// Whether a name is well-formed, or there is none.
#[tactic(auto, unfolding(swc_ecma_codegen_grammar::specs::FunctionPhrases::optional_name, swc_ecma_codegen_grammar::specs::Phrases::is_possible))]
pub(crate) fn is_optional_name(name: &Option<Ident>) -> bool
    ensures { result ≡ is_possible (optional_name name.now) }
{
    match name {
        Some(name) => name.is_well_formed(),
        None => true,
    }
}

impl<N: Fits> WellFormed for FnExpr<N> {
    ghost phrase = { fn_expr N.reads };

    #[tactic(auto, unfolding(swc_ecma_codegen_grammar::specs::FunctionPhrases::fn_expr, swc_ecma_codegen_grammar::specs::Phrases::is_possible))]
    fn is_well_formed(&self) -> bool {
        self.function.target().fits(Role::FunctionHead)
            && is_optional_name(&self.ident)
            && self.function.is_well_formed()
    }
}

impl<N: Fits> WellFormed for BlockStmtOrExpr<N> {
    ghost phrase = { arrow_body N.reads };

    #[tactic(auto, unfolding(swc_ecma_codegen_grammar::specs::FunctionPhrases::arrow_body))]
    fn is_well_formed(&self) -> bool {
        match self {
            BlockStmtOrExpr::BlockStmt(node) => node.is_well_formed(),
            BlockStmtOrExpr::Expr(node) => node.is_well_formed(),
        }
    }
}

impl<N: Fits> WellFormed for ArrowExpr<N> {
    ghost phrase = { arrow_expr N.reads };

    #[tactic(auto, using(crate::proofs::FunctionsPossible::arrow_possible))]
    fn is_well_formed(&self) -> bool {
        self.type_params.is_well_formed()
            && all_well_formed(&self.params)
            && self.return_type.is_well_formed()
            && self.body.is_well_formed()
    }
}
