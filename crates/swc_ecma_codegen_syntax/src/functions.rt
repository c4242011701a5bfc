//! Functions.

ghost use Rattle.std.specs.Prelude.{◌≡◌, false, not};
ghost use Rattle.swc_ecma_codegen_grammar.specs.FunctionPhrases.{is_some_listed};
ghost use Rattle.swc_ecma_codegen_syntax.specs.Forms.{judge, ByCore, ByScope};
ghost use Rattle.swc_ecma_codegen_syntax.specs.declared.nonterminals.Nonterminal.TheVariants.{PatternElement};
ghost use Rattle.swc_ecma_codegen_syntax.specs.PatForms.{pat_part};
ghost use Rattle.swc_ecma_codegen_syntax.specs.FunctionForms.{type_params_form, decorator_form, decorators_form, bound_name_form, optional_name_form, pat_in, param_form, params_form, block_body, body_form, rest_of_function, function_form, function_head_nonterminal, head_before, fn_expr_form, fn_decl_form, arrow_params_form, arrow_body_form, arrow_form, fn_default_form};
ghost use Rattle.swc_ecma_codegen_syntax.specs.Parameters.{of_function};

use crate::forms::{Answers, Stands, all};
use crate::lookahead::Lookahead;
use crate::names::{is, is_assignable, name};
use crate::nonterminals::{Nonterminal, takes};
use crate::parameters::{
    Parameters, of_arrow_block, of_arrow_parameters, of_arrow_value, of_function, of_function_name,
    of_parameters, with_in,
};
use crate::pats::{annotation, pat_nonterminal};
use crate::verdicts::{Shape, Verdict};
use swc_ecma_codegen_grammar::roles::Role;
use swc_ecma_codegen_tree::{
    ArrowExpr, BlockStmtBox, BlockStmtOrExpr, Decorator, FnDecl, FnExpr, Function, Ident, Param,
    Pat, PatBox, TsTypeParamDeclBox,
};

/// Parameters of types, which have no production here.
#[tactic(auto, unfolding(crate::specs::FunctionForms::type_params_form, crate::specs::Forms::judge, crate::specs::Forms::asked))]
pub(crate) fn type_params<N: Answers>(
    so_far: Verdict,
    params: &Option<TsTypeParamDeclBox<N>>,
    parameters: Parameters,
) -> Verdict
    ensures { result ≡ judge N.answers so_far (type_params_form parameters params.now) }
{
    match params {
        Some(params) => so_far.by_scope(false).part(
            params,
            Nonterminal::Uncovered,
            parameters,
            Role::TypeParameters,
        ),
        None => so_far,
    }
}

/// Whether there is nothing in a list.
#[tactic(auto, unfolding(swc_ecma_codegen_grammar::specs::FunctionPhrases::is_some_listed))]
pub(crate) fn is_none_listed<T>(nodes: &[T]) -> bool
    ensures { result ≡ not (is_some_listed nodes.now) }
{
    match nodes {
        [] => true,
        [_, ..] => false,
    }
}

impl<N: Answers> Stands for Decorator<N> {
    ghost judged = { λ c n v. judge N.answers v (decorator_form c n) };

    #[tactic(auto, unfolding(crate::specs::FunctionForms::decorator_form, crate::specs::Forms::judge))]
    fn judge(&self, so_far: Verdict, parameters: Parameters) -> Verdict {
        so_far.shaped(
            &self.expr,
            Shape::Decorator,
            Nonterminal::LeftHandSideExpression,
            with_in(parameters),
            Role::Expression,
        )
    }
}

/// Decorators, which the core has none of.
#[tactic(auto, using(crate::proofs::FunctionsJudged::decorators_judged))]
pub(crate) fn decorators<N: Answers>(
    so_far: Verdict,
    decorators: &[Decorator<N>],
    parameters: Parameters,
) -> Verdict
    ensures { result ≡ judge N.answers so_far (decorators_form ByCore parameters decorators.now) }
{
    all(
        so_far.by_core(is_none_listed(decorators)),
        decorators,
        parameters,
    )
}

/// Those of a parameter, which are of TypeScript.
#[tactic(auto, using(crate::proofs::FunctionsJudged::param_decorators_judged))]
fn param_decorators<N: Answers>(
    so_far: Verdict,
    decorators: &[Decorator<N>],
    parameters: Parameters,
) -> Verdict
    ensures { result ≡ judge N.answers so_far (decorators_form ByScope parameters decorators.now) }
{
    all(
        so_far.by_scope(is_none_listed(decorators)),
        decorators,
        parameters,
    )
}

/// A name that is bound.
#[tactic(auto, unfolding(crate::specs::FunctionForms::bound_name_form, crate::specs::Forms::judge, crate::specs::Forms::asked))]
pub(crate) fn bound_name<N: Answers>(
    so_far: Verdict,
    ident: &Ident,
    parameters: Parameters,
) -> Verdict
    ensures { result ≡ judge N.answers so_far (bound_name_form parameters ident.now) }
{
    let verdict = so_far.by_rule(is_assignable(&ident.sym, parameters.is_strict));
    name::<N>(verdict, ident, parameters)
}

/// A name that is bound, where there is one.
#[tactic(auto, unfolding(crate::specs::FunctionForms::optional_name_form, crate::specs::Forms::judge))]
pub(crate) fn optional_name<N: Answers>(
    so_far: Verdict,
    ident: &Option<Ident>,
    parameters: Parameters,
) -> Verdict
    ensures { result ≡ judge N.answers so_far (optional_name_form parameters ident.now) }
{
    match ident {
        Some(ident) => bound_name::<N>(so_far, ident, parameters),
        None => so_far,
    }
}

/// A pattern that no link holds.
#[tactic(auto, unfolding(crate::specs::FunctionForms::pat_in, crate::specs::Forms::judge, crate::specs::Forms::asked))]
fn pat_in<N: Answers>(
    so_far: Verdict,
    place: Nonterminal,
    pat: &Pat<N>,
    parameters: Parameters,
) -> Verdict
    ensures { result ≡ judge N.answers so_far (pat_in place parameters pat.now) }
{
    pat.judge(
        so_far.by_rule(takes(place, pat_nonterminal(pat))),
        parameters,
    )
}

/// A parameter.
#[tactic(auto, unfolding(crate::specs::FunctionForms::param_form, crate::specs::Forms::judge))]
pub(crate) fn param<N: Answers>(
    so_far: Verdict,
    place: Nonterminal,
    param: &Param<N>,
    parameters: Parameters,
) -> Verdict
    ensures { result ≡ judge N.answers so_far (param_form parameters place param.now) }
{
    let verdict = param_decorators(so_far, &param.decorators, parameters);
    pat_in(verdict, place, &param.pat, parameters)
}

/// One that isn't last.
impl<N: Answers> Stands for Param<N> {
    ghost judged = { λ c n v. judge N.answers v (param_form c PatternElement n) };

    fn judge(&self, so_far: Verdict, parameters: Parameters) -> Verdict {
        param(so_far, Nonterminal::PatternElement, self, parameters)
    }
}

/// Parameters, of which the last may be a rest.
#[tactic(auto, using(crate::proofs::FunctionsJudged::params_judged, crate::proofs::FunctionsJudged::no_params_judged, crate::proofs::FunctionsJudged::nil_params_judged))]
pub(crate) fn params<N: Answers>(
    so_far: Verdict,
    params: &[Param<N>],
    parameters: Parameters,
) -> Verdict
    ensures { result ≡ judge N.answers so_far (params_form parameters params.now) }
{
    match params.split_last() {
        Some((last, front)) => param(
            all(so_far, front, parameters),
            Nonterminal::LastElement,
            last,
            parameters,
        ),
        None => so_far,
    }
}

/// What stands between braces.
#[tactic(auto, unfolding(crate::specs::Forms::judge))]
pub(crate) fn block_body<N: Answers>(
    so_far: Verdict,
    body: &BlockStmtBox<N>,
    parameters: Parameters,
) -> Verdict
    ensures { result ≡ judge N.answers so_far (block_body parameters body.now) }
{
    so_far.part(body, Nonterminal::Block, parameters, Role::Block)
}

/// The body of a function; one without is of TypeScript.
#[tactic(auto, unfolding(crate::specs::FunctionForms::body_form, crate::specs::Forms::judge, crate::specs::Forms::asked))]
pub(crate) fn body<N: Answers>(
    so_far: Verdict,
    body: &Option<BlockStmtBox<N>>,
    parameters: Parameters,
) -> Verdict
    ensures { result ≡ judge N.answers so_far (body_form parameters body.now) }
{
    match body {
        Some(body) => block_body(so_far, body, parameters),
        None => so_far.by_scope(false),
    }
}

/// Parameters and body.
#[tactic(auto, unfolding(crate::specs::FunctionForms::rest_of_function, crate::specs::Forms::judge))]
pub(crate) fn rest_of_function<N: Answers>(
    so_far: Verdict,
    function: &Function<N>,
    parameters: Parameters,
) -> Verdict
    ensures { result ≡ judge N.answers so_far (rest_of_function parameters function.now) }
{
    let listed = of_parameters(function.is_generator, function.is_async, parameters);
    let own = of_function(function.is_generator, function.is_async, parameters);
    let verdict = type_params(so_far, &function.type_params, parameters);
    let verdict = params(verdict, &function.params, listed);
    let verdict = annotation(verdict, &function.return_type, parameters);
    body(verdict, &function.body, own)
}

impl<N: Answers> Stands for Function<N> {
    ghost judged = { λ c n v. judge N.answers v (function_form c n) };

    #[tactic(auto, using(crate::proofs::FunctionsJudged::plain_judged, crate::proofs::FunctionsJudged::decorated_judged))]
    fn judge(&self, so_far: Verdict, parameters: Parameters) -> Verdict {
        if is_none_listed(&self.decorators) {
            rest_of_function(so_far, self, parameters)
        } else {
            so_far.by_rule(false)
        }
    }
}

/// What the words before a function are.
#[tactic(auto, unfolding(crate::specs::FunctionForms::function_head_nonterminal))]
pub(crate) fn function_head_nonterminal(is_generator: bool, is_async: bool) -> Nonterminal
    ensures { result ≡ function_head_nonterminal is_generator is_async }
{
    match (is_generator, is_async) {
        (false, false) => Nonterminal::FunctionHead,
        (true, false) => Nonterminal::GeneratorHead,
        (false, true) => Nonterminal::AsyncFunctionHead,
        (true, true) => Nonterminal::AsyncGeneratorHead,
    }
}

/// Which functions an expression with this name may hold.
#[tactic(auto, unfolding(crate::specs::FunctionForms::head_before))]
fn head_before(ident: &Option<Ident>) -> Nonterminal
    ensures { result ≡ head_before ident.now }
{
    match ident {
        Some(ident) if is(&ident.sym, "yield") => Nonterminal::HeadWithoutYield,
        Some(ident) if is(&ident.sym, "await") => Nonterminal::HeadWithoutAwait,
        _ => Nonterminal::AnyFunctionHead,
    }
}

impl<N: Answers> Stands for FnExpr<N> {
    ghost judged = { λ c n v. judge N.answers v (fn_expr_form c n) };

    #[tactic(auto, unfolding(crate::specs::FunctionForms::fn_expr_form, crate::specs::Forms::judge))]
    fn judge(&self, so_far: Verdict, parameters: Parameters) -> Verdict {
        let verdict = so_far.part(
            &self.function,
            head_before(&self.ident),
            parameters,
            Role::FunctionHead,
        );
        let named = optional_name::<N>(verdict, &self.ident, of_function_name(parameters));
        named.part(
            &self.function,
            Nonterminal::FunctionTail,
            parameters,
            Role::Function,
        )
    }
}

/// A declaration behind `export default`, which may have no name.
#[tactic(auto, unfolding(crate::specs::FunctionForms::fn_default_form, crate::specs::Forms::judge))]
pub(crate) fn fn_default<N: Answers>(
    so_far: Verdict,
    node: &FnExpr<N>,
    parameters: Parameters,
) -> Verdict
    ensures { result ≡ judge N.answers so_far (fn_default_form parameters node.now) }
{
    let verdict = so_far.part(
        &node.function,
        Nonterminal::AnyFunctionHead,
        parameters,
        Role::FunctionHead,
    );
    optional_name::<N>(verdict, &node.ident, parameters).part(
        &node.function,
        Nonterminal::FunctionTail,
        parameters,
        Role::Function,
    )
}

/// A declaration of a function, by which functions may stand there.
#[tactic(auto, unfolding(crate::specs::FunctionForms::fn_decl_form, crate::specs::Forms::judge, crate::specs::Forms::asked))]
pub(crate) fn fn_decl<N: Answers>(
    so_far: Verdict,
    head: Nonterminal,
    decl: &FnDecl<N>,
    parameters: Parameters,
) -> Verdict
    ensures { result ≡ judge N.answers so_far (fn_decl_form head parameters decl.now) }
{
    let verdict = so_far
        .by_scope(!decl.declare)
        .part(&decl.function, head, parameters, Role::FunctionHead);
    bound_name::<N>(verdict, &decl.ident, parameters).part(
        &decl.function,
        Nonterminal::FunctionTail,
        parameters,
        Role::Function,
    )
}

/// A parameter of an arrow function that isn't last.
impl<N: Answers> Stands for PatBox<N> {
    ghost judged = { λ c n v. judge N.answers v (pat_part PatternElement c n) };

    #[tactic(auto, unfolding(crate::specs::Forms::judge))]
    fn judge(&self, so_far: Verdict, parameters: Parameters) -> Verdict {
        so_far.part(self, Nonterminal::PatternElement, parameters, Role::Pattern)
    }
}

/// Parameters of an arrow function.
#[tactic(auto, using(crate::proofs::FunctionsJudged::arrow_params_judged, crate::proofs::FunctionsJudged::no_arrow_params_judged, crate::proofs::FunctionsJudged::nil_arrow_params_judged), unfolding(crate::specs::Forms::judge))]
fn arrow_params<N: Answers>(
    so_far: Verdict,
    typed: bool,
    params: &[PatBox<N>],
    parameters: Parameters,
) -> Verdict
    ensures { result ≡ judge N.answers so_far (arrow_params_form parameters typed params.now) }
{
    match params.split_last() {
        Some((last, front)) => all(so_far, front, parameters).part(
            last,
            Nonterminal::LastElement,
            parameters,
            Role::Pattern,
        ),
        None => so_far,
    }
}

/// The body of an arrow function.
#[tactic(auto, unfolding(crate::specs::FunctionForms::arrow_body_form))]
fn arrow_body<N: Answers>(
    so_far: Verdict,
    is_async: bool,
    body: &BlockStmtOrExpr<N>,
    parameters: Parameters,
) -> Verdict
    ensures { result ≡ judge N.answers so_far (arrow_body_form parameters is_async body.now) }
{
    match body {
        BlockStmtOrExpr::BlockStmt(node) => {
            block_body(so_far, node, of_arrow_block(is_async, parameters))
        }
        BlockStmtOrExpr::Expr(node) => so_far.restricted_expr(
            node,
            Lookahead::BodyStart,
            Nonterminal::AssignmentExpression,
            of_arrow_value(is_async, parameters),
        ),
    }
}

impl<N: Answers> Stands for ArrowExpr<N> {
    ghost judged = { λ c n v. judge N.answers v (arrow_form c n) };

    #[tactic(auto, using(crate::proofs::FunctionsJudged::arrow_judged))]
    fn judge(&self, so_far: Verdict, parameters: Parameters) -> Verdict {
        let own = of_arrow_parameters(self.is_async, parameters);
        let verdict = so_far.by_rule(!self.is_generator);
        let verdict = type_params(verdict, &self.type_params, parameters);
        let typed = self.type_params.is_some() || self.return_type.is_some();
        let verdict = arrow_params(verdict, typed, &self.params, own);
        let verdict = annotation(verdict, &self.return_type, parameters);
        arrow_body(verdict, self.is_async, &self.body, parameters)
    }
}
