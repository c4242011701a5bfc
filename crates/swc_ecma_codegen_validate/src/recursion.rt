//! The whole tree.

ghost use Rattle.std.specs.Prelude.{◌≡◌};
ghost use Rattle.swc_ecma_codegen_grammar.specs.ExprPhrases.{expr as an_expr};
ghost use Rattle.swc_ecma_codegen_grammar.specs.StmtPhrases.{module_item as an_item, program as a_program, stmt as a_stmt};
ghost use Rattle.swc_ecma_codegen_grammar.specs.TreePhrases.{phrase};
ghost use Rattle.swc_ecma_codegen_grammar.specs.Phrases.{is_possible};

use crate::forms::{Fits, WellFormed};
use crate::jsx::jsx_part_fits;
use crate::parts::{expr_part_fits, stmt_part_fits, ts_part_fits};
use swc_ecma_codegen_grammar::roles::Role;
use swc_ecma_codegen_tree::{AnyNode, Expr, ModuleItem, Program, Stmt};

impl Fits for AnyNode {
    ghost reads = { phrase };

    #[tactic(auto, using(swc_ecma_codegen_grammar::proofs::TreeLaws::phrase_at, swc_ecma_codegen_grammar::proofs::TreeLaws::phrase_expr, swc_ecma_codegen_grammar::proofs::TreeLaws::phrase_stmt, swc_ecma_codegen_grammar::proofs::TreeLaws::phrase_member_expr, swc_ecma_codegen_grammar::proofs::TreeLaws::phrase_expr_part, swc_ecma_codegen_grammar::proofs::TreeLaws::phrase_stmt_part, swc_ecma_codegen_grammar::proofs::TreeLaws::phrase_jsx_part, swc_ecma_codegen_grammar::proofs::TreeLaws::phrase_ts_part, crate::proofs::Possible::chain_member_possible, crate::proofs::CallsPossible::callee_possible, crate::proofs::ClassesPossible::field_value_possible), unfolding(swc_ecma_codegen_grammar::specs::TreePhrases::node_phrase, swc_ecma_codegen_grammar::specs::Phrases::is_possible))]
    fn fits(&self, role: Role) -> bool {
        match (self, role) {
            (AnyNode::Expr(node), Role::Expression | Role::Callee | Role::FieldValue) => {
                node.is_well_formed()
            }
            (AnyNode::Stmt(node), Role::Statement) => node.is_well_formed(),
            (AnyNode::MemberExpr(node), Role::MemberExpression) => node.is_well_formed(),
            // `a?.b` is where `a.b` is.
            (AnyNode::MemberExpr(node), Role::ChainMember(_)) => node.is_well_formed(),
            (AnyNode::ExprPart(node), role) => expr_part_fits(node, role),
            (AnyNode::StmtPart(node), role) => stmt_part_fits(node, role),
            (AnyNode::JSXPart(node), role) => jsx_part_fits(node, role),
            (AnyNode::TsPart(node), role) => ts_part_fits(node, role),
            _ => false,
        }
    }
}

/// Whether a program is well-formed: whether its syntax has a list of tokens for it. Takes no
/// memory.
///
/// This call and the three below are generic in what links hold. In a whole tree that is `AnyNode`,
/// whose `reads` is `phrase`: there the clause says `is_well_formed program.now`.
pub fn is_well_formed<N: Fits>(program: &Program<N>) -> bool
    ensures { result ≡ is_possible (a_program N.reads program.now) }
{
    program.is_well_formed()
}

/// Whether an item of a module is well-formed. Takes no memory.
pub fn is_well_formed_item<N: Fits>(item: &ModuleItem<N>) -> bool
    ensures { result ≡ is_possible (an_item N.reads item.now) }
{
    item.is_well_formed()
}

/// Whether a statement is well-formed. Takes no memory.
pub fn is_well_formed_stmt<N: Fits>(stmt: &Stmt<N>) -> bool
    ensures { result ≡ is_possible (a_stmt N.reads stmt.now) }
{
    stmt.is_well_formed()
}

/// Whether an expression is well-formed. Takes no memory.
pub fn is_well_formed_expr<N: Fits>(expr: &Expr<N>) -> bool
    ensures { result ≡ is_possible (an_expr N.reads expr.now) }
{
    expr.is_well_formed()
}
