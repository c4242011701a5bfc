//! Laws of links: what is written of one is what is written of what it holds.

ghost use Rattle.std.specs.Prelude.{◌≡◌};
ghost use Rattle.swc_ecma_codegen_tree.specs.declared.exprs.MemberExpr.{MemberExpr};
ghost use Rattle.swc_ecma_codegen_tree.specs.declared.pats.AssignTarget.{AssignTarget};
ghost use Rattle.swc_ecma_codegen_grammar.specs.AssignPhrases.{assign_target};
ghost use Rattle.swc_ecma_codegen_grammar.specs.ExprPhrases.{member_expr};
ghost use Rattle.swc_ecma_codegen_grammar.specs.TreePhrases.{phrase};
ghost use Rattle.swc_ecma_codegen_grammar.specs.declared.roles.Role.TheVariants.{MemberExpression, AssignmentTarget};
ghost use Rattle.swc_ecma_codegen_emit.specs.Answers.{any_answers};
ghost use Rattle.swc_ecma_codegen_emit.specs.Exprs.{member as member_items};
ghost use Rattle.swc_ecma_codegen_emit.specs.Targets.{assign_target as target_items};
ghost use Rattle.swc_ecma_codegen_emit.specs.Tree.{any_items};
ghost use Rattle.swc_ecma_codegen_emit.specs.Places.{by_itself};
ghost use Rattle.swc_ecma_codegen_emit.specs.Roots.{Root, root_items};
ghost use Rattle.swc_ecma_codegen_laws.specs.HeldRoots.{IsHeld};

use swc_ecma_codegen_tree::{AnyNode, ExprPart};

/// What is written of what a link holds is what is written of the root that it is. So the clauses
/// of `emit_with`, `to_code` and the laws here that speak of roots speak of links.
#[tactic(auto, using(crate::proofs::LinkLaws::held_written))]
pub fn links_write_their_roots()
    ensures { (node : AnyNode) (root : Root) → IsHeld node root →
        by_itself (any_items node) ≡ root_items root }
{}

/// A link that holds a member expression, in the role of one, is written and read as that.
#[tactic(auto, using(crate::proofs::LinkLaws::member_written, crate::proofs::LinkLaws::member_read))]
pub fn links_write_members()
    ensures items { (node : AnyNode) (member : MemberExpr AnyNode) →
        node ≡ AnyNode.MemberExpr member →
        by_itself (any_items node) ≡ by_itself (λ _. member_items any_items member) }
    ensures reads { (node : AnyNode) (member : MemberExpr AnyNode) →
        node ≡ AnyNode.MemberExpr member →
        phrase node MemberExpression ≡ member_expr phrase member }
{}

/// A link that holds what is assigned to, in the role of such, is written and read as that.
#[tactic(auto, using(crate::proofs::LinkLaws::assign_target_written, crate::proofs::LinkLaws::assign_target_read))]
pub fn links_write_targets()
    ensures items { (node : AnyNode) (target : AssignTarget AnyNode) →
        node ≡ AnyNode.ExprPart (ExprPart.AssignTarget target) →
        by_itself (any_items node) ≡ by_itself (λ _. target_items any_answers any_items target) }
    ensures reads { (node : AnyNode) (target : AssignTarget AnyNode) →
        node ≡ AnyNode.ExprPart (ExprPart.AssignTarget target) →
        phrase node AssignmentTarget ≡ assign_target phrase target }
{}
