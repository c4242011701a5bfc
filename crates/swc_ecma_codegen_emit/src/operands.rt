//! What an operator asks of its operands.

ghost use Rattle.std.specs.Prelude.{◌≡◌, Bool};
ghost use Rattle.swc_ecma_codegen_common.specs.declared.operators.BinaryOp.{BinaryOp as Op};
ghost use Rattle.swc_ecma_codegen_emit.specs.declared.operands.OperandKind.{OperandKind as Kind};
ghost use Rattle.swc_ecma_codegen_emit.specs.Operands.{update_kind, is_negative, lit_kind, expr_kind, any_kind, is_word_op, begins_greater, is_less, space_after, sign_repeats, update_repeats, is_decrement, bang_space, update_space, negative_space, expr_space, any_space, operand_space};

use swc_ecma_codegen_common::{BinaryOp, UnaryOp, UpdateOp};
use swc_ecma_codegen_tree::{AnyNode, Expr, Lit, NumberValue, UnaryExpr, UpdateExpr};

/// An operand, by its operator or its sign.
#[derive(Debug, Clone, Copy, PartialEq, Eq)]
pub enum OperandKind {
    /// `typeof a`
    Unary(UnaryOp),
    /// `++a`
    Prefix(UpdateOp),
    /// `a++`
    Postfix(UpdateOp),
    /// `-1` as one number.
    Negative,
    /// Any other expression.
    Other,
}

/// What tells its operator or its sign.
pub trait Operand {
    ghost kind: { Self → Kind };

    /// Its operator or its sign.
    fn operand_kind(&self) -> OperandKind
        ensures { result ≡ kind self.now };
}

/// What tells whether a blank is due before it.
pub trait SpaceBefore: Operand {
    ghost space: { Self → Op → Bool };

    /// Whether a blank is due between `op`, which is no word, and it: `a- -b`. swc's
    /// `require_space_before_rhs`.
    fn require_space_before(&self, op: BinaryOp) -> bool
        ensures { result ≡ space self.now op };
}

#[tactic(auto, unfolding(crate::specs::Operands::update_kind))]
fn kind_of_update<N>(node: &UpdateExpr<N>) -> OperandKind
    ensures { result ≡ update_kind node.now }
{
    if node.prefix {
        OperandKind::Prefix(node.op)
    } else {
        OperandKind::Postfix(node.op)
    }
}

/// Whether a number has a sign, as `-1` and `-0`.
#[tactic(auto, unfolding(crate::specs::Operands::is_negative))]
fn is_negative(value: &NumberValue) -> bool
    ensures { result ≡ is_negative value.now }
{
    match value {
        NumberValue::Finite(number) => number.negative(),
        NumberValue::NegInfinity => true,
        NumberValue::Infinity | NumberValue::NaN => false,
    }
}

#[tactic(auto, unfolding(crate::specs::Operands::lit_kind))]
fn kind_of_lit(node: &Lit) -> OperandKind
    ensures { result ≡ lit_kind node.now }
{
    match node {
        Lit::Num(number) if is_negative(&number.value) => OperandKind::Negative,
        _ => OperandKind::Other,
    }
}

impl<N: Operand> Operand for Expr<N> {
    ghost kind = { expr_kind N.kind };

    #[tactic(auto, unfolding(crate::specs::Operands::expr_kind))]
    fn operand_kind(&self) -> OperandKind {
        match self {
            Expr::Unary(node) => OperandKind::Unary(node.op),
            Expr::Update(node) => kind_of_update(node),
            Expr::Lit(node) => kind_of_lit(node),
            _ => OperandKind::Other,
        }
    }
}

impl Operand for AnyNode {
    ghost kind = { any_kind };

    #[tactic(auto, using(crate::proofs::KindLaws::any_kind_of, crate::proofs::KindLaws::any_kind_expr), unfolding(crate::specs::Operands::node_kind))]
    fn operand_kind(&self) -> OperandKind {
        match self {
            AnyNode::Expr(node) => node.operand_kind(),
            _ => OperandKind::Other,
        }
    }
}

/// Whether an operator is a word.
#[tactic(auto, unfolding(crate::specs::Operands::is_word_op))]
pub(crate) fn is_word_op(op: BinaryOp) -> bool
    ensures { result ≡ is_word_op op }
{
    match op {
        BinaryOp::In | BinaryOp::InstanceOf => true,
        _ => false,
    }
}

/// Whether `--` before it would end an HTML-like comment.
#[tactic(auto, unfolding(crate::specs::Operands::begins_greater))]
pub(crate) fn begins_greater(op: BinaryOp) -> bool
    ensures { result ≡ begins_greater op }
{
    match op {
        BinaryOp::Gt | BinaryOp::GtEq | BinaryOp::RShift | BinaryOp::ZeroFillRShift => true,
        _ => false,
    }
}

/// Whether it before `!--` would begin one.
#[tactic(auto, unfolding(crate::specs::Operands::is_less))]
fn is_less(op: BinaryOp) -> bool
    ensures { result ≡ is_less op }
{
    match op {
        BinaryOp::Lt | BinaryOp::LShift => true,
        _ => false,
    }
}

/// Whether a blank is due after an operand, before an operator that is no word: `a-- >b`
#[tactic(auto, unfolding(crate::specs::Operands::space_after))]
pub(crate) fn space_after(kind: OperandKind, op: BinaryOp) -> bool
    ensures { result ≡ space_after kind op }
{
    match kind {
        OperandKind::Postfix(UpdateOp::MinusMinus) => begins_greater(op),
        _ => false,
    }
}

/// Whether a blank is due between an operator and a sign: `a- -b`
#[tactic(auto, unfolding(crate::specs::Operands::sign_repeats))]
fn sign_repeats(op: BinaryOp, sign: UnaryOp) -> bool
    ensures { result ≡ sign_repeats op sign }
{
    match (op, sign) {
        (BinaryOp::Sub, UnaryOp::Minus) | (BinaryOp::Add, UnaryOp::Plus) => true,
        _ => false,
    }
}

/// Whether a blank is due between an operator and an update: `a- --b`
#[tactic(auto, unfolding(crate::specs::Operands::update_repeats))]
fn update_repeats(op: BinaryOp, update: UpdateOp) -> bool
    ensures { result ≡ update_repeats op update }
{
    match (op, update) {
        (BinaryOp::Sub, UpdateOp::MinusMinus) | (BinaryOp::Add, UpdateOp::PlusPlus) => true,
        _ => false,
    }
}

/// Whether it is an update by `--`.
#[tactic(auto, unfolding(crate::specs::Operands::is_decrement))]
fn is_decrement(kind: OperandKind) -> bool
    ensures { result ≡ is_decrement kind }
{
    match kind {
        OperandKind::Prefix(UpdateOp::MinusMinus) | OperandKind::Postfix(UpdateOp::MinusMinus) =>
            true,
        _ => false,
    }
}

/// Whether a blank is due between an operator and a sign with its operand: `a< !--b`. What the
/// operand is, is only asked between `<` and `!`.
#[tactic(auto, unfolding(crate::specs::Operands::bang_space))]
fn bang_space<N: Operand>(node: &UnaryExpr<N>, op: BinaryOp) -> bool
    ensures { result ≡ bang_space (N.kind node.now.arg.node.value) op node.now.op }
{
    match node.op {
        UnaryOp::Bang if is_less(op) => is_decrement(node.arg.target().operand_kind()),
        _ => sign_repeats(op, node.op),
    }
}

/// Whether a blank is due between an operator and the sign of a number: `a- -1`
#[tactic(auto, unfolding(crate::specs::Operands::negative_space))]
fn negative_space(kind: OperandKind, op: BinaryOp) -> bool
    ensures { result ≡ negative_space kind op }
{
    match kind {
        OperandKind::Negative => sign_repeats(op, UnaryOp::Minus),
        _ => false,
    }
}

impl<N: SpaceBefore> SpaceBefore for Expr<N> {
    ghost space = { expr_space N.kind N.space };

    #[tactic(auto, unfolding(crate::specs::Operands::expr_space, crate::specs::Operands::update_space))]
    fn require_space_before(&self, op: BinaryOp) -> bool {
        match self {
            Expr::Unary(node) => bang_space(node, op),
            Expr::Update(node) => node.prefix && update_repeats(op, node.op),
            Expr::Bin(node) => node.left.target().require_space_before(op),
            Expr::Lit(node) => negative_space(kind_of_lit(node), op),
            _ => false,
        }
    }
}

impl SpaceBefore for AnyNode {
    ghost space = { any_space };

    #[tactic(auto, using(crate::proofs::SpaceLaws::any_space_of, crate::proofs::SpaceLaws::any_space_expr), unfolding(crate::specs::Operands::node_space))]
    fn require_space_before(&self, op: BinaryOp) -> bool {
        match self {
            AnyNode::Expr(node) => node.require_space_before(op),
            _ => false,
        }
    }
}

/// Whether a blank is due between a sign and its operand: `- -a`, `- -1`. swc's
/// `should_emit_whitespace_before_operand`.
#[tactic(auto, unfolding(crate::specs::Operands::operand_space))]
pub(crate) fn operand_space(op: UnaryOp, arg: OperandKind) -> bool
    ensures { result ≡ operand_space op arg }
{
    match (op, arg) {
        (UnaryOp::Plus, OperandKind::Prefix(UpdateOp::PlusPlus)) => true,
        (UnaryOp::Plus, OperandKind::Unary(UnaryOp::Plus)) => true,
        (UnaryOp::Minus, OperandKind::Prefix(UpdateOp::MinusMinus)) => true,
        (UnaryOp::Minus, OperandKind::Unary(UnaryOp::Minus)) => true,
        (UnaryOp::Minus, OperandKind::Negative) => true,
        _ => false,
    }
}
