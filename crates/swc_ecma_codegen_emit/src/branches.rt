//! What an `if` asks of its first statement, and where parentheses stand round an expression.

ghost use Rattle.std.specs.Prelude.{◌≡◌};
ghost use Rattle.swc_ecma_codegen_emit.specs.AnyExpr.{is_wrapped};
ghost use Rattle.swc_ecma_codegen_emit.specs.Branches.{is_block};

use crate::nodes::Context;
use swc_ecma_codegen_tree::{Expr, Stmt};

/// Whether a statement is a block.
#[tactic(auto, unfolding(crate::specs::Branches::is_block))]
pub(crate) fn is_block<N>(node: &Stmt<N>) -> bool
    ensures { result ≡ is_block node.now }
{
    matches!(node, Stmt::Block(_))
}

/// Whether an expression is a sequence that is the value of a field.
#[tactic(auto, unfolding(crate::specs::AnyExpr::is_wrapped, crate::specs::AnyExpr::is_field_value, swc_ecma_codegen_grammar::specs::TreePhrases::is_sequence))]
pub(crate) fn is_wrapped<N>(node: &Expr<N>, context: Context) -> bool
    ensures { result ≡ is_wrapped node.now context }
{
    matches!(node, Expr::Seq(_)) && matches!(context, Context::FieldValue)
}
