//! Expressions of TypeScript.
//!
//! No grammar says where they stand: these are the levels of docs/LEVELS.md, and what Babel reads.
//! A type goes on where it can: behind `a as T` no `<`, `|` and `&` is an operator. Behind `a<T>`
//! no operator is read but one that begins no expression, so it stands alone.

ghost use Rattle.swc_ecma_codegen_parentheses.specs.SameTsExprs.{same_ts_as_expr, same_ts_satisfies_expr, same_ts_non_null_expr, same_ts_type_assertion, same_ts_const_assertion, same_ts_instantiation};

use crate::mends::{Mend, Mends, Stop};
use crate::places::Place;
use std::alloc::Global;
use swc_ecma_codegen_grammar::roles::Role;
use swc_ecma_codegen_syntax::{Answers, Nonterminal};
use swc_ecma_codegen_tree::{
    ExprBox, TsAsExpr, TsConstAssertion, TsInstantiation, TsNonNullExpr, TsSatisfiesExpr,
    TsTypeAssertion,
};

/// Where an operand stands that begins what stands in `whole`: what that begins with was told
/// without it.
fn beginning<N: Answers>(operand: &ExprBox<N>, within: Place, whole: Place) -> Place {
    within
        .beginning(whole)
        .told(operand.target().begins(Role::Expression))
}

impl<N: Answers, M: Mends<N>> Mend<N, M> for TsAsExpr<N> {
    ghost same = { same_ts_as_expr };

    #[tactic(auto, unfolding(crate::specs::SameTsExprs::same_ts_as_expr))]
    fn mend(&mut self, mender: &M, alloc: Global, place: Place) -> Result<(), Stop> {
        let within = place.here(Nonterminal::RelationalExpression);
        let operand = beginning(&self.expr, within, place);
        self.expr.mend(mender, alloc, operand)
    }
}

impl<N: Answers, M: Mends<N>> Mend<N, M> for TsSatisfiesExpr<N> {
    ghost same = { same_ts_satisfies_expr };

    #[tactic(auto, unfolding(crate::specs::SameTsExprs::same_ts_satisfies_expr))]
    fn mend(&mut self, mender: &M, alloc: Global, place: Place) -> Result<(), Stop> {
        let within = place.here(Nonterminal::RelationalExpression);
        let operand = beginning(&self.expr, within, place);
        self.expr.mend(mender, alloc, operand)
    }
}

impl<N: Answers, M: Mends<N>> Mend<N, M> for TsNonNullExpr<N> {
    ghost same = { same_ts_non_null_expr };

    #[tactic(auto, unfolding(crate::specs::SameTsExprs::same_ts_non_null_expr))]
    fn mend(&mut self, mender: &M, alloc: Global, place: Place) -> Result<(), Stop> {
        let within = place.bracketed(Nonterminal::ChainBase);
        let operand = beginning(&self.expr, within, place);
        self.expr.mend(mender, alloc, operand)
    }
}

impl<N: Answers, M: Mends<N>> Mend<N, M> for TsTypeAssertion<N> {
    ghost same = { same_ts_type_assertion };

    #[tactic(auto, unfolding(crate::specs::SameTsExprs::same_ts_type_assertion))]
    fn mend(&mut self, mender: &M, alloc: Global, place: Place) -> Result<(), Stop> {
        self.expr
            .mend(mender, alloc, place.to_end(Nonterminal::UnaryExpression))
    }
}

impl<N: Answers, M: Mends<N>> Mend<N, M> for TsConstAssertion<N> {
    ghost same = { same_ts_const_assertion };

    #[tactic(auto, unfolding(crate::specs::SameTsExprs::same_ts_const_assertion))]
    fn mend(&mut self, mender: &M, alloc: Global, place: Place) -> Result<(), Stop> {
        let within = place.here(Nonterminal::RelationalExpression);
        let operand = beginning(&self.expr, within, place);
        self.expr.mend(mender, alloc, operand)
    }
}

impl<N: Answers, M: Mends<N>> Mend<N, M> for TsInstantiation<N> {
    ghost same = { same_ts_instantiation };

    #[tactic(auto, unfolding(crate::specs::SameTsExprs::same_ts_instantiation))]
    fn mend(&mut self, mender: &M, alloc: Global, place: Place) -> Result<(), Stop> {
        let within = place.bracketed(Nonterminal::CallOrMember);
        let operand = beginning(&self.expr, within, place);
        self.expr.mend(mender, alloc, operand)
    }
}
