//! The nonterminals of operators and of their operands.

ghost use Rattle.std.specs.Prelude.{◌≡◌};
ghost use Rattle.swc_ecma_codegen_syntax.specs.ExprForms.{is_in, is_less, binary_nonterminal, left_nonterminal, right_nonterminal, target_of};

use crate::nonterminals::Nonterminal;
use swc_ecma_codegen_common::{AssignOp, BinaryOp};

/// Whether it is `in`.
#[tactic(auto, unfolding(crate::specs::ExprForms::is_in))]
pub(crate) fn is_in(op: BinaryOp) -> bool
    ensures { result ≡ is_in op }
{
    matches!(op, BinaryOp::In)
}

/// Whether it is `<`.
#[tactic(auto, unfolding(crate::specs::ExprForms::is_less))]
pub(crate) fn is_less(op: BinaryOp) -> bool
    ensures { result ≡ is_less op }
{
    matches!(op, BinaryOp::Lt)
}

/// What a node with this operator is. ECMA-262, sections 13.6 to 13.13.
#[tactic(auto, unfolding(crate::specs::ExprForms::binary_nonterminal))]
pub(crate) fn binary_nonterminal(op: BinaryOp) -> Nonterminal
    ensures { result ≡ binary_nonterminal op }
{
    match op {
        BinaryOp::Exp => Nonterminal::ExponentiationExpression,
        BinaryOp::Mul | BinaryOp::Div | BinaryOp::Mod => Nonterminal::MultiplicativeExpression,
        BinaryOp::Add | BinaryOp::Sub => Nonterminal::AdditiveExpression,
        BinaryOp::LShift | BinaryOp::RShift | BinaryOp::ZeroFillRShift =>
            Nonterminal::ShiftExpression,
        BinaryOp::Lt
        | BinaryOp::Gt
        | BinaryOp::LtEq
        | BinaryOp::GtEq
        | BinaryOp::InstanceOf
        | BinaryOp::In => Nonterminal::RelationalExpression,
        BinaryOp::EqEq | BinaryOp::NotEq | BinaryOp::EqEqEq | BinaryOp::NotEqEq =>
            Nonterminal::EqualityExpression,
        BinaryOp::BitAnd => Nonterminal::BitwiseAndExpression,
        BinaryOp::BitXor => Nonterminal::BitwiseXorExpression,
        BinaryOp::BitOr => Nonterminal::BitwiseOrExpression,
        BinaryOp::LogicalAnd => Nonterminal::LogicalAndExpression,
        BinaryOp::LogicalOr => Nonterminal::LogicalOrExpression,
        BinaryOp::NullishCoalescing => Nonterminal::CoalesceExpression,
    }
}

/// What stands left of it.
#[tactic(auto, unfolding(crate::specs::ExprForms::left_nonterminal))]
pub(crate) fn left_nonterminal(op: BinaryOp) -> Nonterminal
    ensures { result ≡ left_nonterminal op }
{
    match op {
        BinaryOp::Exp => Nonterminal::UpdateExpression,
        BinaryOp::NullishCoalescing => Nonterminal::CoalesceExpressionHead,
        BinaryOp::In => Nonterminal::InLeft,
        _ => binary_nonterminal(op),
    }
}

/// What stands right of it.
#[tactic(auto, unfolding(crate::specs::ExprForms::right_nonterminal))]
pub(crate) fn right_nonterminal(op: BinaryOp) -> Nonterminal
    ensures { result ≡ right_nonterminal op }
{
    match op {
        BinaryOp::Exp | BinaryOp::Mul | BinaryOp::Div | BinaryOp::Mod =>
            Nonterminal::ExponentiationExpression,
        BinaryOp::Add | BinaryOp::Sub => Nonterminal::MultiplicativeExpression,
        BinaryOp::LShift | BinaryOp::RShift | BinaryOp::ZeroFillRShift =>
            Nonterminal::AdditiveExpression,
        BinaryOp::Lt
        | BinaryOp::Gt
        | BinaryOp::LtEq
        | BinaryOp::GtEq
        | BinaryOp::InstanceOf
        | BinaryOp::In => Nonterminal::ShiftExpression,
        BinaryOp::EqEq | BinaryOp::NotEq | BinaryOp::EqEqEq | BinaryOp::NotEqEq =>
            Nonterminal::RelationalExpression,
        BinaryOp::BitAnd => Nonterminal::EqualityExpression,
        BinaryOp::BitXor => Nonterminal::BitwiseAndExpression,
        BinaryOp::BitOr => Nonterminal::BitwiseXorExpression,
        BinaryOp::LogicalAnd | BinaryOp::NullishCoalescing => Nonterminal::BitwiseOrExpression,
        BinaryOp::LogicalOr => Nonterminal::LogicalAndExpression,
    }
}

/// What is assigned to by it.
#[tactic(auto, unfolding(crate::specs::ExprForms::target_of))]
pub(crate) fn target_of(op: AssignOp) -> Nonterminal
    ensures { result ≡ target_of op }
{
    match op {
        AssignOp::Assign => Nonterminal::AssignmentTarget,
        _ => Nonterminal::LeftHandSideExpression,
    }
}
