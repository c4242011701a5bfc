//! Templates.

ghost use Rattle.std.specs.Prelude.{◌≡◌};
ghost use Rattle.swc_ecma_codegen_grammar.specs.TemplatePhrases.{is_counted};
ghost use Rattle.swc_ecma_codegen_syntax.specs.Forms.{judge};
ghost use Rattle.swc_ecma_codegen_syntax.specs.TemplateForms.{tpl_form};

use crate::forms::{Answers, all_exprs};
use crate::nonterminals::Nonterminal;
use crate::parameters::{Parameters, with_in};
use crate::verdicts::Verdict;
use swc_ecma_codegen_tree::{ExprBox, Tpl, TplElement};

/// Whether there is one part more than expressions.
fn is_counted<N>(exprs: &[ExprBox<N>], quasis: &[TplElement]) -> bool
    ensures { result ≡ is_counted exprs.now quasis.now }
{
    !quasis.is_empty() && quasis.len() - 1 == exprs.len()
}

/// The verdict so far, and of a template.
#[tactic(auto, using(crate::proofs::ExprsJudged::counted_judged, crate::proofs::ExprsJudged::uncounted_judged))]
pub(crate) fn tpl<N: Answers>(
    so_far: Verdict,
    tagged: bool,
    tpl: &Tpl<N>,
    parameters: Parameters,
) -> Verdict
    ensures { result ≡ judge N.answers so_far (tpl_form parameters tagged tpl.now) }
{
    if is_counted(&tpl.exprs, &tpl.quasis) {
        all_exprs(
            so_far,
            &tpl.exprs,
            Nonterminal::Expression,
            with_in(parameters),
        )
    } else {
        so_far.by_rule(false)
    }
}
