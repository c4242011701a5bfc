//! Operators that are punctuators.

ghost use Rattle.std.specs.Prelude.{◌≡◌, true, false, IfNone, IfSome};
ghost use Rattle.swc_ecma_codegen_common.specs.Operators.{assign_text, binary_text, unary_text, update_text};
ghost use Rattle.swc_ecma_codegen_literals.specs.Punctuators.{spelling};
ghost use Rattle.swc_ecma_codegen_settings.specs.Starts.{is_word_op as is_word_unary};
ghost use Rattle.swc_ecma_codegen_tokens.specs.Starts.{begins_letter};
ghost use Rattle.swc_ecma_codegen_emit.specs.Operands.{is_word_op};

use swc_ecma_codegen_common::{AssignOp, BinaryOp, UnaryOp, UpdateOp};
use swc_ecma_codegen_literals::Punctuator;

/// The punctuator that a binary operator is; `None` for a word.
#[tactic(auto, unfolding(crate::specs::Operands::is_word_op, swc_ecma_codegen_common::specs::Operators::binary_text))]
pub(crate) fn binary_mark(op: BinaryOp) -> Option<Punctuator>
    ensures spelled { IfSome result (λ mark. spelling mark ≡ binary_text op) }
    ensures is_mark { IfSome result (λ mark. is_word_op op ≡ false) }
    ensures is_word { IfNone result (is_word_op op ≡ true) }
    ensures letter { IfNone result (begins_letter (binary_text op) ≡ true) }
{
    let mark = match op {
        BinaryOp::In | BinaryOp::InstanceOf => return None,
        BinaryOp::EqEq => Punctuator::EqualEqual,
        BinaryOp::NotEq => Punctuator::BangEqual,
        BinaryOp::EqEqEq => Punctuator::EqualEqualEqual,
        BinaryOp::NotEqEq => Punctuator::BangEqualEqual,
        BinaryOp::Lt => Punctuator::Less,
        BinaryOp::LtEq => Punctuator::LessEqual,
        BinaryOp::Gt => Punctuator::Greater,
        BinaryOp::GtEq => Punctuator::GreaterEqual,
        BinaryOp::LShift => Punctuator::LessLess,
        BinaryOp::RShift => Punctuator::GreaterGreater,
        BinaryOp::ZeroFillRShift => Punctuator::GreaterGreaterGreater,
        BinaryOp::Add => Punctuator::Plus,
        BinaryOp::Sub => Punctuator::Minus,
        BinaryOp::Mul => Punctuator::Star,
        BinaryOp::Div => Punctuator::Slash,
        BinaryOp::Mod => Punctuator::Percent,
        BinaryOp::BitOr => Punctuator::Bar,
        BinaryOp::BitXor => Punctuator::Caret,
        BinaryOp::BitAnd => Punctuator::Ampersand,
        BinaryOp::LogicalOr => Punctuator::BarBar,
        BinaryOp::LogicalAnd => Punctuator::AmpersandAmpersand,
        BinaryOp::Exp => Punctuator::StarStar,
        BinaryOp::NullishCoalescing => Punctuator::QuestionQuestion,
    };
    Some(mark)
}

/// The punctuator that a unary operator is; `None` for a word.
#[tactic(auto, unfolding(swc_ecma_codegen_settings::specs::Starts::is_word_op, swc_ecma_codegen_common::specs::Operators::unary_text))]
pub(crate) fn unary_mark(op: UnaryOp) -> Option<Punctuator>
    ensures spelled { IfSome result (λ mark. spelling mark ≡ unary_text op) }
    ensures is_mark { IfSome result (λ mark. is_word_unary op ≡ false) }
    ensures is_word { IfNone result (is_word_unary op ≡ true) }
    ensures letter { IfNone result (begins_letter (unary_text op) ≡ true) }
{
    match op {
        UnaryOp::Minus => Some(Punctuator::Minus),
        UnaryOp::Plus => Some(Punctuator::Plus),
        UnaryOp::Bang => Some(Punctuator::Bang),
        UnaryOp::Tilde => Some(Punctuator::Tilde),
        UnaryOp::TypeOf | UnaryOp::Void | UnaryOp::Delete => None,
    }
}

/// The punctuator that an update operator is.
#[tactic(auto, unfolding(swc_ecma_codegen_common::specs::Operators::update_text))]
pub(crate) fn update_mark(op: UpdateOp) -> Punctuator
    ensures { spelling result ≡ update_text op }
{
    match op {
        UpdateOp::PlusPlus => Punctuator::PlusPlus,
        UpdateOp::MinusMinus => Punctuator::MinusMinus,
    }
}

/// The punctuator that an assignment operator is.
#[tactic(auto, unfolding(swc_ecma_codegen_common::specs::Operators::assign_text))]
pub(crate) fn assign_mark(op: AssignOp) -> Punctuator
    ensures { spelling result ≡ assign_text op }
{
    match op {
        AssignOp::Assign => Punctuator::Equal,
        AssignOp::AddAssign => Punctuator::PlusEqual,
        AssignOp::SubAssign => Punctuator::MinusEqual,
        AssignOp::MulAssign => Punctuator::StarEqual,
        AssignOp::DivAssign => Punctuator::SlashEqual,
        AssignOp::ModAssign => Punctuator::PercentEqual,
        AssignOp::LShiftAssign => Punctuator::LessLessEqual,
        AssignOp::RShiftAssign => Punctuator::GreaterGreaterEqual,
        AssignOp::ZeroFillRShiftAssign => Punctuator::GreaterGreaterGreaterEqual,
        AssignOp::BitOrAssign => Punctuator::BarEqual,
        AssignOp::BitXorAssign => Punctuator::CaretEqual,
        AssignOp::BitAndAssign => Punctuator::AmpersandEqual,
        AssignOp::ExpAssign => Punctuator::StarStarEqual,
        AssignOp::AndAssign => Punctuator::AmpersandAmpersandEqual,
        AssignOp::OrAssign => Punctuator::BarBarEqual,
        AssignOp::NullishAssign => Punctuator::QuestionQuestionEqual,
    }
}
