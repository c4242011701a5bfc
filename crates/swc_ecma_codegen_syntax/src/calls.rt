//! Arrays, calls and `new`.

ghost use Rattle.std.specs.Prelude.{◌≡◌};
ghost use Rattle.swc_ecma_codegen_syntax.specs.Forms.{judge};
ghost use Rattle.swc_ecma_codegen_syntax.specs.CallForms.{argument_form, array_form, no_spread, is_evaluation, are_import_arguments, callee_form, call_form, has_arguments, new_nonterminal, new_parameters, new_arguments_form, new_form, chain_call_form};
ghost use Rattle.swc_ecma_codegen_syntax.specs.MemberForms.{callee_part, type_args_form, chained};
ghost use Rattle.swc_ecma_codegen_syntax.specs.Parameters.{with_in};

use crate::forms::{Answers, Stands, all};
use crate::nonterminals::Nonterminal;
use crate::parameters::{Parameters, to_end, with_in};
use crate::verdicts::Verdict;
use swc_ecma_codegen_grammar::roles::Role;
use swc_ecma_codegen_tree::{
    ArrayLit, CallExpr, Callee, ExprBox, ExprOrSpread, ImportPhase, NewExpr, OptCall,
    TsTypeParamInstantiationBox,
};

/// Type arguments, which have no production here.
#[tactic(auto, unfolding(crate::specs::MemberForms::type_args_form, crate::specs::Forms::judge, crate::specs::Forms::asked))]
pub(crate) fn type_args<N: Answers>(
    so_far: Verdict,
    args: &Option<TsTypeParamInstantiationBox<N>>,
    parameters: Parameters,
) -> Verdict
    ensures { result ≡ judge N.answers so_far (type_args_form parameters args.now) }
{
    match args {
        Some(args) => so_far.by_scope(false).part(
            args,
            Nonterminal::Uncovered,
            parameters,
            Role::TypeArguments,
        ),
        None => so_far,
    }
}

impl<N: Answers> Stands for ExprOrSpread<N> {
    ghost judged = { λ c n v. judge N.answers v (argument_form c n) };

    #[tactic(auto, unfolding(crate::specs::CallForms::argument_form, crate::specs::Forms::judge))]
    fn judge(&self, so_far: Verdict, parameters: Parameters) -> Verdict {
        so_far.part(
            &self.expr,
            Nonterminal::AssignmentExpression,
            with_in(parameters),
            Role::Expression,
        )
    }
}

impl<N: Answers> Stands for ArrayLit<N> {
    ghost judged = { λ c n v. judge N.answers v (array_form c n) };

    #[tactic(auto, using(crate::proofs::CallsJudged::array_judged))]
    fn judge(&self, so_far: Verdict, parameters: Parameters) -> Verdict {
        all(so_far, &self.elems, parameters)
    }
}

/// Whether no argument is spread.
#[tactic(auto, unfolding(crate::specs::CallForms::no_spread))]
fn no_spread<N: Answers>(args: &[ExprOrSpread<N>]) -> bool
    ensures { result ≡ no_spread args.now }
{
    for arg in args {
        if arg.spread.is_some() {
            return false;
        }
    }
    true
}

/// Whether what is imported is evaluated: `source` and `defer` are proposals.
#[tactic(auto, unfolding(crate::specs::CallForms::is_evaluation))]
pub(crate) fn is_evaluation(phase: ImportPhase) -> bool
    ensures { result ≡ is_evaluation phase }
{
    matches!(phase, ImportPhase::Evaluation)
}

/// What is called.
#[tactic(auto, unfolding(crate::specs::CallForms::callee_form, crate::specs::CallForms::are_import_arguments, crate::specs::Forms::judge, crate::specs::Forms::asked))]
fn callee<N: Answers>(
    so_far: Verdict,
    callee: &Callee<N>,
    args: &[ExprOrSpread<N>],
    parameters: Parameters,
) -> Verdict
    ensures { result ≡ judge N.answers so_far (callee_form parameters callee.now args.now) }
{
    match callee {
        Callee::Super(_) => so_far,
        Callee::Import(import) => so_far
            .by_rule((args.len() == 1 || args.len() == 2) && no_spread(args))
            .by_scope(is_evaluation(import.phase)),
        Callee::Expr(expr) => so_far.part(
            expr,
            Nonterminal::CallOrMember,
            with_in(parameters),
            Role::Callee,
        ),
    }
}

impl<N: Answers> Stands for CallExpr<N> {
    ghost judged = { λ c n v. judge N.answers v (call_form c n) };

    #[tactic(auto, using(crate::proofs::CallsJudged::call_judged))]
    fn judge(&self, so_far: Verdict, parameters: Parameters) -> Verdict {
        let verdict = callee(so_far, &self.callee, &self.args, parameters);
        all(
            type_args(verdict, &self.type_args, parameters),
            &self.args,
            parameters,
        )
    }
}

/// Whether `new` has arguments as it is printed.
#[tactic(auto, unfolding(crate::specs::CallForms::has_arguments, crate::specs::CallForms::drops_arguments))]
fn has_arguments<N: Answers>(
    keeps: bool,
    args: &Option<Vec<ExprOrSpread<N>>>,
    parameters: Parameters,
) -> bool
    ensures { result ≡ has_arguments parameters keeps args.now }
{
    match args {
        Some(args) => keeps || !args.is_empty() || !parameters.minify,
        None => false,
    }
}

/// The parameters of what `new` calls.
#[tactic(auto, unfolding(crate::specs::CallForms::new_parameters))]
fn new_parameters<N: Answers>(keeps: bool, new: &NewExpr<N>, parameters: Parameters) -> Parameters
    ensures { result ≡ new_parameters parameters keeps new.now }
{
    if has_arguments(keeps, &new.args, parameters) {
        with_in(parameters)
    } else {
        to_end(parameters)
    }
}

/// What `new` is, and what stands behind it.
#[tactic(auto, unfolding(crate::specs::CallForms::new_nonterminal))]
pub(crate) fn new_nonterminal<N: Answers>(
    keeps: bool,
    new: &NewExpr<N>,
    parameters: Parameters,
) -> Nonterminal
    ensures { result ≡ new_nonterminal parameters keeps new.now }
{
    if has_arguments(keeps, &new.args, parameters) {
        Nonterminal::MemberExpression
    } else {
        Nonterminal::NewExpression
    }
}

#[tactic(auto, using(crate::proofs::CallsJudged::listed_arguments_judged), unfolding(crate::specs::CallForms::new_arguments_form, crate::specs::Forms::judge))]
fn new_arguments<N: Answers>(
    so_far: Verdict,
    keeps: bool,
    args: &Option<Vec<ExprOrSpread<N>>>,
    parameters: Parameters,
) -> Verdict
    ensures { result ≡ judge N.answers so_far (new_arguments_form parameters keeps args.now) }
{
    match args {
        Some(args) => all(so_far, args, parameters),
        None => so_far,
    }
}

/// The verdict so far, and of `new`.
#[tactic(auto, unfolding(crate::specs::CallForms::new_form, crate::specs::Forms::judge))]
pub(crate) fn new<N: Answers>(
    so_far: Verdict,
    keeps: bool,
    new: &NewExpr<N>,
    parameters: Parameters,
) -> Verdict
    ensures { result ≡ judge N.answers so_far (new_form parameters keeps new.now) }
{
    let verdict = so_far.part(
        &new.callee,
        new_nonterminal(keeps, new, parameters),
        new_parameters(keeps, new, parameters),
        Role::Expression,
    );
    let verdict = type_args(verdict, &new.type_args, parameters);
    new_arguments(verdict, keeps, &new.args, parameters)
}

/// What a link of a chain stands behind.
pub(crate) fn chained(optional: bool) -> Nonterminal
    ensures { result ≡ chained optional }
{
    if optional {
        Nonterminal::ChainBase
    } else {
        Nonterminal::OptionalExpression
    }
}

/// The verdict so far, and of what a link of a chain stands behind.
#[tactic(auto, unfolding(crate::specs::Forms::judge))]
pub(crate) fn chained_part<N: Answers>(
    so_far: Verdict,
    optional: bool,
    link: &ExprBox<N>,
    parameters: Parameters,
) -> Verdict
    ensures { result ≡ judge N.answers so_far
        (callee_part (chained optional) (with_in parameters) link.now) }
{
    so_far.part(link, chained(optional), with_in(parameters), Role::Callee)
}

/// The verdict so far, and of a call in a chain.
#[tactic(auto, using(crate::proofs::CallsJudged::chain_call_judged))]
pub(crate) fn chain_call<N: Answers>(
    so_far: Verdict,
    optional: bool,
    call: &OptCall<N>,
    parameters: Parameters,
) -> Verdict
    ensures { result ≡ judge N.answers so_far (chain_call_form parameters optional call.now) }
{
    let verdict = chained_part(so_far, optional, &call.callee, parameters);
    all(
        type_args(verdict, &call.type_args, parameters),
        &call.args,
        parameters,
    )
}
