//! What links hold, of whatever type: all but the roots of the pass is generic in it. A proof about
//! `AnyNode` itself compares all types of the tree, and takes the prover more than a minute for
//! each function.

ghost use Rattle.std.specs.Prelude.{◌≡◌, ◌&&◌, false, true};
ghost use Rattle.swc_ecma_codegen_grammar.specs.declared.roles.Role.TheVariants.{Expression};
ghost use Rattle.swc_ecma_codegen_parentheses.specs.Needed.{derives};

use swc_ecma_codegen_spans::Spanned;
use swc_ecma_codegen_syntax::{Answers, Nonterminal, Parameters, Verdict, verdict_expr};
use swc_ecma_codegen_tree::{
    AnyNode, Expr, ExprPart, HoldsMut, JSXPart, MemberExpr, Stmt, StmtPart,
};

/// What links hold, which lends the node that it is to be changed in place.
pub(crate) trait Lends: HoldsMut<Expr<Self>>
    + HoldsMut<ExprPart<Self>>
    + HoldsMut<StmtPart<Self>>
    + HoldsMut<Stmt<Self>>
    + HoldsMut<MemberExpr<Self>>
    + HoldsMut<JSXPart<Self>>
    + Answers
    + Spanned
    + Drop {
    /// Whether it is an expression that the nonterminal with these parameters doesn't derive
    /// without parentheses round it.
    fn lacks_parentheses(&self, nonterminal: Nonterminal, parameters: Parameters) -> bool
        ensures { result ≡ true →
            derives nonterminal (Self.answers self.now Expression parameters).facts ≡ false };
}

/// Whether parentheses are missing, or it isn't known of all nodes.
fn lacks_some(verdict: Verdict) -> bool
    ensures { result ≡ true → (verdict.covered && verdict.parenthesized) ≡ false }
{
    !(verdict.covered && verdict.parenthesized)
}

impl Lends for AnyNode {
    fn lacks_parentheses(&self, nonterminal: Nonterminal, parameters: Parameters) -> bool {
        match self {
            AnyNode::Expr(expr) => lacks_some(verdict_expr(expr, nonterminal, parameters)),
            _ => false,
        }
    }
}
