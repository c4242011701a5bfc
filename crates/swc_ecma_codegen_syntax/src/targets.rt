//! What is assigned to.

ghost use Rattle.std.specs.Prelude.{◌≡◌, false};
ghost use Rattle.swc_ecma_codegen_syntax.specs.Forms.{judge};
ghost use Rattle.swc_ecma_codegen_syntax.specs.TargetForms.{paren_target_form, simple_target_form, target_pat_form, target_form, target_nonterminal};

use crate::forms::{Answers, Stands};
use crate::nonterminals::Nonterminal;
use crate::parameters::{Parameters, of_targets, with_in};
use crate::verdicts::Verdict;
use swc_ecma_codegen_grammar::roles::Role;
use swc_ecma_codegen_tree::{AssignTarget, AssignTargetPat, SimpleAssignTarget};

impl<N: Answers> Stands for SimpleAssignTarget<N> {
    ghost judged = { λ c n v. judge N.answers v (simple_target_form c n) };

    #[tactic(auto, unfolding(crate::specs::TargetForms::simple_target_form, crate::specs::TargetForms::paren_target_form, crate::specs::MemberForms::member_form, crate::specs::Forms::judge, crate::specs::Forms::asked))]
    fn judge(&self, so_far: Verdict, parameters: Parameters) -> Verdict {
        match self {
            SimpleAssignTarget::Ident(node) => node.judge(so_far, parameters),
            SimpleAssignTarget::Member(node) => {
                let verdict = so_far.part(
                    &node.obj,
                    Nonterminal::CallOrMember,
                    with_in(parameters),
                    Role::Callee,
                );
                node.prop.judge(verdict, parameters)
            }
            SimpleAssignTarget::SuperProp(node) => node.judge(so_far, parameters),
            SimpleAssignTarget::Paren(node) => {
                so_far.simple(
                    &node.expr,
                    true,
                    Nonterminal::Expression,
                    with_in(parameters),
                )
            }
            SimpleAssignTarget::OptChain(node) => node.judge(so_far.by_rule(false), parameters),
            SimpleAssignTarget::Invalid(_) => so_far.by_rule(false),
            _ => so_far.by_scope(false),
        }
    }
}

impl<N: Answers> Stands for AssignTargetPat<N> {
    ghost judged = { λ c n v. judge N.answers v (target_pat_form false c n) };

    #[tactic(auto, unfolding(crate::specs::TargetForms::target_pat_form, crate::specs::Forms::judge, crate::specs::Forms::asked))]
    fn judge(&self, so_far: Verdict, parameters: Parameters) -> Verdict {
        match self {
            AssignTargetPat::Array(node) => node.judge(so_far, parameters),
            AssignTargetPat::Object(node) => node.judge(so_far, parameters),
            AssignTargetPat::Invalid(_) => so_far.by_rule(false),
        }
    }
}

impl<N: Answers> Stands for AssignTarget<N> {
    ghost judged = { λ c n v. judge N.answers v (target_form false c n) };

    #[tactic(auto, unfolding(crate::specs::TargetForms::target_form))]
    fn judge(&self, so_far: Verdict, parameters: Parameters) -> Verdict {
        match self {
            AssignTarget::Simple(node) => node.judge(so_far, of_targets(parameters)),
            AssignTarget::Pat(node) => node.judge(so_far, of_targets(parameters)),
        }
    }
}

/// What stands before the operator.
#[tactic(auto, unfolding(crate::specs::TargetForms::target_nonterminal))]
pub(crate) fn target_nonterminal<N: Answers>(target: &AssignTarget<N>) -> Nonterminal
    ensures { result ≡ target_nonterminal target.now }
{
    match target {
        AssignTarget::Simple(_) => Nonterminal::LeftHandSideExpression,
        AssignTarget::Pat(_) => Nonterminal::AssignmentPattern,
    }
}
