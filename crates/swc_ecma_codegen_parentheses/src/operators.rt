//! Operators, and what stands in parentheses.

ghost use Rattle.swc_ecma_codegen_parentheses.specs.SameExprs.{same_unary_expr, same_update_expr, same_bin_expr, same_assign_expr, same_cond_expr, same_seq_expr, same_yield_expr, same_await_expr, same_paren_expr};

use crate::levels::{left_of, right_of};
use crate::mends::{Mend, Mends, Stop, Usage, mend_each, mend_if_any};
use crate::operands::Operand;
use crate::places::Place;
use std::alloc::Global;
use swc_ecma_codegen_syntax::{Answers, Nonterminal};
use swc_ecma_codegen_tree::{
    AssignExpr, AwaitExpr, BinExpr, CondExpr, ParenExpr, SeqExpr, UnaryExpr, UpdateExpr, YieldExpr,
};

impl<N: Answers, M: Mends<N>> Mend<N, M> for UnaryExpr<N> {
    ghost same = { same_unary_expr };

    #[tactic(auto, unfolding(crate::specs::SameExprs::same_unary_expr))]
    fn mend(&mut self, mender: &M, alloc: Global, place: Place) -> Result<(), Stop> {
        let place = place.to_end(Nonterminal::UnaryExpression);
        mender.expr(alloc, &mut self.arg, place, Usage::Operand(Operand::Unary))
    }
}

impl<N: Answers, M: Mends<N>> Mend<N, M> for UpdateExpr<N> {
    ghost same = { same_update_expr };

    #[tactic(auto, unfolding(crate::specs::SameExprs::same_update_expr))]
    fn mend(&mut self, mender: &M, alloc: Global, place: Place) -> Result<(), Stop> {
        if self.prefix {
            let place = place.bracketed(Nonterminal::UnaryExpression);
            mender.expr(alloc, &mut self.arg, place, Usage::Operand(Operand::Prefix))
        } else {
            let within = place.bracketed(Nonterminal::LeftHandSideExpression);
            let place = within.beginning(place);
            mender.expr(
                alloc,
                &mut self.arg,
                place,
                Usage::Operand(Operand::Postfix),
            )
        }
    }
}

impl<N: Answers, M: Mends<N>> Mend<N, M> for BinExpr<N> {
    ghost same = { same_bin_expr };

    #[tactic(auto, unfolding(crate::specs::SameExprs::same_bin_expr))]
    fn mend(&mut self, mender: &M, alloc: Global, place: Place) -> Result<(), Stop> {
        let left = place
            .here(left_of(self.op))
            .before_operator(self.op)
            .beginning(place);
        mender.expr(
            alloc,
            &mut self.left,
            left,
            Usage::Operand(Operand::Left(self.op)),
        )?;
        let right = place.here(right_of(self.op));
        mender.expr(
            alloc,
            &mut self.right,
            right,
            Usage::Operand(Operand::Right(self.op)),
        )
    }
}

impl<N: Answers, M: Mends<N>> Mend<N, M> for AssignExpr<N> {
    ghost same = { same_assign_expr };

    #[tactic(auto, unfolding(crate::specs::SameExprs::same_assign_expr))]
    fn mend(&mut self, mender: &M, alloc: Global, place: Place) -> Result<(), Stop> {
        let target = place
            .bracketed(Nonterminal::AssignmentTarget)
            .beginning(place);
        let usage = Usage::Operand(Operand::Assigned);
        mender.assign_target(alloc, &mut self.left, target, usage)?;
        let value = place.here(Nonterminal::AssignmentExpression);
        mender.expr(alloc, &mut self.right, value, Usage::Operand(Operand::Last))
    }
}

impl<N: Answers, M: Mends<N>> Mend<N, M> for CondExpr<N> {
    ghost same = { same_cond_expr };

    #[tactic(auto, unfolding(crate::specs::SameExprs::same_cond_expr))]
    fn mend(&mut self, mender: &M, alloc: Global, place: Place) -> Result<(), Stop> {
        let test = place.here(Nonterminal::ShortCircuitExpression);
        let test = test.beginning(place);
        mender.expr(alloc, &mut self.test, test, Usage::Operand(Operand::Test))?;
        let cons = place.bracketed(Nonterminal::AssignmentExpression);
        mender.expr(alloc, &mut self.cons, cons, Usage::Operand(Operand::Branch))?;
        let alt = place.here(Nonterminal::AssignmentExpression);
        mender.expr(alloc, &mut self.alt, alt, Usage::Operand(Operand::Last))
    }
}

impl<N: Answers, M: Mends<N>> Mend<N, M> for SeqExpr<N> {
    ghost same = { same_seq_expr };

    #[tactic(auto, unfolding(crate::specs::SameExprs::same_seq_expr))]
    fn mend(&mut self, mender: &M, alloc: Global, place: Place) -> Result<(), Stop> {
        let each = place.here(Nonterminal::AssignmentExpression);
        let each = each.beginning(place);
        mend_each(
            mender,
            alloc,
            &mut self.exprs,
            each,
            Usage::Operand(Operand::Each),
        )
    }
}

impl<N: Answers, M: Mends<N>> Mend<N, M> for YieldExpr<N> {
    ghost same = { same_yield_expr };

    #[tactic(auto, unfolding(crate::specs::SameExprs::same_yield_expr))]
    fn mend(&mut self, mender: &M, alloc: Global, place: Place) -> Result<(), Stop> {
        let place = place.here(Nonterminal::AssignmentExpression);
        mend_if_any(
            mender,
            alloc,
            &mut self.arg,
            place,
            Usage::Operand(Operand::Last),
        )
    }
}

impl<N: Answers, M: Mends<N>> Mend<N, M> for AwaitExpr<N> {
    ghost same = { same_await_expr };

    #[tactic(auto, unfolding(crate::specs::SameExprs::same_await_expr))]
    fn mend(&mut self, mender: &M, alloc: Global, place: Place) -> Result<(), Stop> {
        let place = place.to_end(Nonterminal::UnaryExpression);
        mender.expr(alloc, &mut self.arg, place, Usage::Operand(Operand::Unary))
    }
}

impl<N: Answers, M: Mends<N>> Mend<N, M> for ParenExpr<N> {
    ghost same = { same_paren_expr };

    #[tactic(auto, unfolding(crate::specs::SameExprs::same_paren_expr))]
    fn mend(&mut self, mender: &M, alloc: Global, place: Place) -> Result<(), Stop> {
        let place = place.bracketed(Nonterminal::Expression);
        mender.expr(
            alloc,
            &mut self.expr,
            place,
            Usage::Operand(Operand::Inside),
        )
    }
}
