//! Declarations of variables.

ghost use Rattle.std.specs.Prelude.{◌≡◌, true, false};
ghost use Rattle.swc_ecma_codegen_syntax.specs.Forms.{judge, verdict_all};
ghost use Rattle.swc_ecma_codegen_syntax.specs.DeclForms.{is_const, of_kind, is_pattern, value_form, is_valued, declarator_form, is_single, var_decl_form, is_resource_name, are_resource_names, are_resources, using_form, decl_form, var_nonterminal, decl_nonterminal, head_at};

use crate::forms::{Answers, Stands};
use crate::functions::fn_decl;
use crate::names::is;
use crate::nonterminals::{Nonterminal, takes};
use crate::parameters::{Parameters, Position, may_await, of_bindings, of_declarations};
use crate::pats::pat_nonterminal;
use crate::verdicts::Verdict;
use swc_ecma_codegen_grammar::roles::Role;
use swc_ecma_codegen_tree::{Decl, ExprBox, Pat, UsingDecl, VarDecl, VarDeclKind, VarDeclarator};

/// Whether it is `const`.
#[tactic(auto, unfolding(crate::specs::DeclForms::is_const))]
fn is_const(kind: VarDeclKind) -> bool
    ensures { result ≡ is_const kind }
{
    matches!(kind, VarDeclKind::Const)
}

/// Those of what is declared: `let` and `const` have no value in the head of a loop.
#[tactic(auto, unfolding(crate::specs::DeclForms::is_var))]
fn of_kind(kind: VarDeclKind, parameters: Parameters) -> Parameters
    ensures { result ≡ of_kind kind parameters }
{
    let is_var = matches!(kind, VarDeclKind::Var);
    Parameters {
        initializes: parameters.initializes && is_var,
        ..parameters
    }
}

/// Whether it is more than a name.
#[tactic(auto, unfolding(crate::specs::DeclForms::is_pattern))]
fn is_pattern<N: Answers>(pat: &Pat<N>) -> bool
    ensures { result ≡ is_pattern pat.now }
{
    matches!(pat, Pat::Array(_) | Pat::Object(_))
}

/// What `= a` of a declaration gives, where there is such.
#[tactic(auto, unfolding(crate::specs::DeclForms::value_form, crate::specs::Forms::judge, crate::specs::Forms::asked))]
fn value<N: Answers>(so_far: Verdict, value: &Option<ExprBox<N>>, parameters: Parameters) -> Verdict
    ensures { result ≡ judge N.answers so_far (value_form parameters value.now) }
{
    match value {
        Some(value) => so_far.by_core(!parameters.is_loop_head).part(
            value,
            Nonterminal::AssignmentExpression,
            parameters,
            Role::Expression,
        ),
        None => so_far,
    }
}

/// Whether what is declared has the value that it needs, and no other. ECMA-262, sections 14.3.1,
/// 14.3.2 and 14.7.5.
#[tactic(auto, unfolding(crate::specs::DeclForms::is_valued))]
fn is_valued<N: Answers>(
    declarator: &VarDeclarator<N>,
    constant: bool,
    parameters: Parameters,
) -> bool
    ensures { result ≡ is_valued parameters constant declarator.now }
{
    if parameters.is_loop_head {
        declarator.init.is_none() || (parameters.initializes && !is_pattern(&declarator.name))
    } else {
        declarator.init.is_some() || !(constant || is_pattern(&declarator.name))
    }
}

/// The verdict so far, and of a name or a pattern with its value.
#[tactic(auto, unfolding(crate::specs::DeclForms::declarator_form, crate::specs::Forms::judge, crate::specs::Forms::asked))]
fn declarator<N: Answers>(
    so_far: Verdict,
    declarator: &VarDeclarator<N>,
    constant: bool,
    parameters: Parameters,
) -> Verdict
    ensures { result ≡ judge N.answers so_far
        (declarator_form parameters constant declarator.now) }
{
    let place = Nonterminal::PatternTarget;
    let verdict = so_far.by_scope(!declarator.definite).by_rule(
        is_valued(declarator, constant, parameters)
            && takes(place, pat_nonterminal(&declarator.name)),
    );
    let verdict = declarator.name.judge(verdict, of_bindings(parameters));
    value(verdict, &declarator.init, parameters)
}

/// The verdict so far, and of each.
#[tactic(auto, unfolding(crate::specs::Forms::verdict_all))]
fn declarators<N: Answers>(
    so_far: Verdict,
    declarators: &[VarDeclarator<N>],
    constant: bool,
    parameters: Parameters,
) -> Verdict
    ensures { result ≡ verdict_all
        (λ n v. judge N.answers v (declarator_form parameters constant n))
        so_far declarators.now }
{
    let mut verdict = so_far;
    for node in declarators {
        verdict = declarator(verdict, node, constant, parameters);
    }
    verdict
}

/// Whether it is one alone where a loop gives the value. ECMA-262, section 14.7.5.
#[tactic(auto, unfolding(crate::specs::DeclForms::is_single))]
fn is_single<N: Answers>(decl: &VarDecl<N>, parameters: Parameters) -> bool
    ensures { result ≡ is_single parameters decl.now }
{
    let is_one = decl.decls.len() == 1;
    !parameters.is_loop_head || is_one
}

impl<N: Answers> Stands for VarDecl<N> {
    ghost judged = { λ c n v. judge N.answers v (var_decl_form c n) };

    fn judge(&self, so_far: Verdict, parameters: Parameters) -> Verdict {
        let verdict = so_far
            .by_scope(!self.declare)
            .by_rule(is_single(self, parameters));
        declarators(
            verdict,
            &self.decls,
            is_const(self.kind),
            of_kind(self.kind, parameters),
        )
    }
}

/// Whether `using` may declare it: a name other than `await`, and other than `of` where `bars_of`.
#[tactic(auto, unfolding(crate::specs::DeclForms::is_resource_name))]
fn is_resource_name<N: Answers>(pat: &Pat<N>, bars_of: bool) -> bool
    ensures { result ≡ is_resource_name bars_of pat.now }
{
    match pat {
        Pat::Ident(node) => { !is(&node.id.sym, "await") && !(bars_of && is(&node.id.sym, "of")) }
        _ => false,
    }
}

/// Whether `using` may declare each.
#[tactic(auto, unfolding(crate::specs::DeclForms::are_resource_names))]
fn are_resource_names<N: Answers>(declarators: &[VarDeclarator<N>], bars_of: bool) -> bool
    ensures { result ≡ are_resource_names bars_of declarators.now }
{
    for declarator in declarators {
        if !is_resource_name(&declarator.name, bars_of) {
            return false;
        }
    }
    true
}

/// Whether it is what `using` may declare, or `await using` where `await` may stand. In the head of
/// a loop that is one name, which isn't `of` behind `using` alone.
#[tactic(auto, unfolding(crate::specs::DeclForms::are_resources))]
fn are_resources<N: Answers>(decl: &UsingDecl<N>, parameters: Parameters) -> bool
    ensures { result ≡ are_resources parameters decl.now.is_await decl.now.decls.items }
{
    let is_alone = decl.decls.len() == 1;
    let bars_of = parameters.is_loop_head && !decl.is_await;
    (!decl.is_await || may_await(parameters))
        && (!parameters.is_loop_head || is_alone)
        && are_resource_names(&decl.decls, bars_of)
}

impl<N: Answers> Stands for UsingDecl<N> {
    ghost judged = { λ c n v. judge N.answers v (using_form c n) };

    fn judge(&self, so_far: Verdict, parameters: Parameters) -> Verdict {
        let verdict = so_far.by_rule(are_resources(self, parameters));
        declarators(verdict, &self.decls, true, parameters)
    }
}

/// Which functions may be declared there.
#[tactic(auto, unfolding(crate::specs::DeclForms::head_at))]
fn head_at(position: Position) -> Nonterminal
    ensures { result ≡ head_at position }
{
    match position {
        Position::Labelled | Position::Branch => Nonterminal::FunctionHead,
        Position::Item | Position::Inner => Nonterminal::AnyFunctionHead,
    }
}

impl<N: Answers> Stands for Decl<N> {
    ghost judged = { λ c n v. judge N.answers v (decl_form c n) };

    #[tactic(auto, unfolding(crate::specs::DeclForms::decl_form, crate::specs::Forms::judge, crate::specs::Forms::asked))]
    fn judge(&self, so_far: Verdict, parameters: Parameters) -> Verdict {
        match self {
            Decl::Var(node) => node.judge(so_far, of_declarations(parameters)),
            Decl::Fn(node) => fn_decl(so_far, head_at(parameters.position), node, parameters),
            Decl::Class(node) => node.judge(so_far, parameters),
            Decl::Using(node) => {
                let verdict = so_far.by_core(false).by_rule(!parameters.bars_using);
                node.judge(verdict, of_declarations(parameters))
            }
            _ => so_far.by_scope(false),
        }
    }
}

/// What a declaration of variables is: `var` is a statement.
#[tactic(auto, unfolding(crate::specs::DeclForms::var_nonterminal))]
fn var_nonterminal(kind: VarDeclKind) -> Nonterminal
    ensures { result ≡ var_nonterminal kind }
{
    match kind {
        VarDeclKind::Var => Nonterminal::Statement,
        VarDeclKind::Let | VarDeclKind::Const => Nonterminal::Declaration,
    }
}

/// What a declaration is.
#[tactic(auto, unfolding(crate::specs::DeclForms::decl_nonterminal))]
pub(crate) fn decl_nonterminal<N: Answers>(decl: &Decl<N>) -> Nonterminal
    ensures { result ≡ decl_nonterminal decl.now }
{
    match decl {
        Decl::Var(node) => var_nonterminal(node.kind),
        Decl::Fn(_) => Nonterminal::HoistableDeclaration,
        _ => Nonterminal::Declaration,
    }
}
