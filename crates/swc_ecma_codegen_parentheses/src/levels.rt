//! Which expressions stand where, by how strongly their operators bind: the levels of
//! docs/LEVELS.md. What comes of them is asked by the verdict of `_syntax` once the pass is over,
//! so a wrong one makes no wrong tree.

ghost use Rattle.std.specs.Prelude.{◌≡◌};
ghost use Rattle.swc_ecma_codegen_syntax.specs.ExprForms.{binary_nonterminal, left_nonterminal, right_nonterminal};

use swc_ecma_codegen_common::BinaryOp;
use swc_ecma_codegen_syntax::Nonterminal;

/// The level of what a nonterminal derives: the higher, the more places take it.
fn level(nonterminal: Nonterminal) -> u8 {
    match nonterminal {
        Nonterminal::Expression => 0,
        Nonterminal::AssignmentExpression => 1,
        Nonterminal::ConditionalExpression => 2,
        Nonterminal::CoalesceExpression | Nonterminal::ShortCircuitExpression => 3,
        Nonterminal::LogicalOrExpression => 4,
        Nonterminal::LogicalAndExpression => 5,
        Nonterminal::BitwiseOrExpression => 6,
        Nonterminal::BitwiseXorExpression => 7,
        Nonterminal::BitwiseAndExpression => 8,
        Nonterminal::EqualityExpression => 9,
        Nonterminal::RelationalExpression | Nonterminal::InLeft => 10,
        Nonterminal::ShiftExpression => 11,
        Nonterminal::AdditiveExpression => 12,
        Nonterminal::MultiplicativeExpression => 13,
        Nonterminal::ExponentiationExpression => 14,
        Nonterminal::UnaryExpression => 15,
        Nonterminal::UpdateExpression => 16,
        Nonterminal::OptionalExpression | Nonterminal::LeftHandSideExpression => 17,
        Nonterminal::NewExpression => 18,
        Nonterminal::CallExpression | Nonterminal::CallOrMember => 19,
        Nonterminal::MemberExpression => 20,
        _ => 21,
    }
}

/// Whether an expression of one nonterminal stands where another does.
pub(crate) fn takes(place: Nonterminal, part: Nonterminal) -> bool {
    let part = level(part);
    match place {
        Nonterminal::CoalesceExpressionHead => part == 3 || part >= 6,
        Nonterminal::NewExpression => part == 18 || part >= 20,
        Nonterminal::ChainBase => part == 17 || part >= 19,
        Nonterminal::OptionalExpression => part == 17,
        _ => part >= level(place),
    }
}

/// What a node with this operator is.
#[tactic(auto, unfolding(swc_ecma_codegen_syntax::specs::ExprForms::binary_nonterminal))]
pub(crate) fn of_operator(op: BinaryOp) -> Nonterminal
    ensures { result ≡ binary_nonterminal op }
{
    match op {
        BinaryOp::Exp => Nonterminal::ExponentiationExpression,
        BinaryOp::Mul | BinaryOp::Div | BinaryOp::Mod => Nonterminal::MultiplicativeExpression,
        BinaryOp::Add | BinaryOp::Sub => Nonterminal::AdditiveExpression,
        BinaryOp::LShift | BinaryOp::RShift | BinaryOp::ZeroFillRShift =>
            Nonterminal::ShiftExpression,
        BinaryOp::Lt
        | BinaryOp::Gt
        | BinaryOp::LtEq
        | BinaryOp::GtEq
        | BinaryOp::InstanceOf
        | BinaryOp::In => Nonterminal::RelationalExpression,
        BinaryOp::EqEq | BinaryOp::NotEq | BinaryOp::EqEqEq | BinaryOp::NotEqEq =>
            Nonterminal::EqualityExpression,
        BinaryOp::BitAnd => Nonterminal::BitwiseAndExpression,
        BinaryOp::BitXor => Nonterminal::BitwiseXorExpression,
        BinaryOp::BitOr => Nonterminal::BitwiseOrExpression,
        BinaryOp::LogicalAnd => Nonterminal::LogicalAndExpression,
        BinaryOp::LogicalOr => Nonterminal::LogicalOrExpression,
        BinaryOp::NullishCoalescing => Nonterminal::CoalesceExpression,
    }
}

/// What stands left of an operator.
#[tactic(auto, unfolding(swc_ecma_codegen_syntax::specs::ExprForms::left_nonterminal))]
pub(crate) fn left_of(op: BinaryOp) -> Nonterminal
    ensures { result ≡ left_nonterminal op }
{
    match op {
        BinaryOp::Exp => Nonterminal::UpdateExpression,
        BinaryOp::NullishCoalescing => Nonterminal::CoalesceExpressionHead,
        BinaryOp::In => Nonterminal::InLeft,
        _ => of_operator(op),
    }
}

/// What stands right of an operator: what binds more strongly, save behind `**`.
#[tactic(auto, unfolding(swc_ecma_codegen_syntax::specs::ExprForms::right_nonterminal))]
pub(crate) fn right_of(op: BinaryOp) -> Nonterminal
    ensures { result ≡ right_nonterminal op }
{
    match op {
        BinaryOp::Exp | BinaryOp::Mul | BinaryOp::Div | BinaryOp::Mod =>
            Nonterminal::ExponentiationExpression,
        BinaryOp::Add | BinaryOp::Sub => Nonterminal::MultiplicativeExpression,
        BinaryOp::LShift | BinaryOp::RShift | BinaryOp::ZeroFillRShift =>
            Nonterminal::AdditiveExpression,
        BinaryOp::Lt
        | BinaryOp::Gt
        | BinaryOp::LtEq
        | BinaryOp::GtEq
        | BinaryOp::InstanceOf
        | BinaryOp::In => Nonterminal::ShiftExpression,
        BinaryOp::EqEq | BinaryOp::NotEq | BinaryOp::EqEqEq | BinaryOp::NotEqEq =>
            Nonterminal::RelationalExpression,
        BinaryOp::BitAnd => Nonterminal::EqualityExpression,
        BinaryOp::BitXor => Nonterminal::BitwiseAndExpression,
        BinaryOp::BitOr => Nonterminal::BitwiseXorExpression,
        BinaryOp::LogicalAnd | BinaryOp::NullishCoalescing => Nonterminal::BitwiseOrExpression,
        BinaryOp::LogicalOr => Nonterminal::LogicalAndExpression,
    }
}
