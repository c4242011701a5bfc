//! Patterns.

ghost use Rattle.std.specs.Prelude.{◌≡◌, false};
ghost use Rattle.swc_ecma_codegen_syntax.specs.Forms.{judge, verdict_all};
ghost use Rattle.swc_ecma_codegen_syntax.specs.MemberForms.{annotation_form};
ghost use Rattle.swc_ecma_codegen_syntax.specs.declared.nonterminals.Nonterminal.TheVariants.{PatternElement};
ghost use Rattle.swc_ecma_codegen_syntax.specs.PatForms.{binding_form, initializer_form, pat_element_form, pat_elements_form, array_pat_form, rest_form, assign_pat_form, key_value_pat_form, assign_pat_prop_form, pat_prop_form, pat_props_form, object_pat_form, pat_form, pat_nonterminal};

use crate::forms::{Answers, Stands};
use crate::names::{is_assignable, name};
use crate::nonterminals::Nonterminal;
use crate::objects::assigned;
use crate::parameters::{Parameters, with_in};
use crate::verdicts::Verdict;
use swc_ecma_codegen_grammar::roles::Role;
use swc_ecma_codegen_tree::{
    ArrayPat, AssignPat, AssignPatProp, BindingIdent, ExprBox, KeyValuePatProp, ObjectPat,
    ObjectPatProp, Pat, PatBox, RestPat, TsTypeAnnBox,
};

/// A type, which has no production here.
#[tactic(auto, unfolding(crate::specs::MemberForms::annotation_form, crate::specs::Forms::judge, crate::specs::Forms::asked))]
pub(crate) fn annotation<N: Answers>(
    so_far: Verdict,
    annotation: &Option<TsTypeAnnBox<N>>,
    parameters: Parameters,
) -> Verdict
    ensures { result ≡ judge N.answers so_far (annotation_form parameters annotation.now) }
{
    match annotation {
        Some(annotation) => so_far.by_scope(false).part(
            annotation,
            Nonterminal::Uncovered,
            parameters,
            Role::Annotation,
        ),
        None => so_far,
    }
}

impl<N: Answers> Stands for BindingIdent<N> {
    ghost judged = { λ c n v. judge N.answers v (binding_form c n) };

    #[tactic(auto, unfolding(crate::specs::PatForms::binding_form, crate::specs::Forms::judge, crate::specs::Forms::asked))]
    fn judge(&self, so_far: Verdict, parameters: Parameters) -> Verdict {
        let verdict = so_far.by_rule(is_assignable(&self.id.sym, parameters.is_strict));
        annotation(
            name::<N>(verdict, &self.id, parameters),
            &self.type_ann,
            parameters,
        )
    }
}

/// What `= a` gives, where there is such.
#[tactic(auto, unfolding(crate::specs::PatForms::initializer_form, crate::specs::Forms::judge))]
fn initializer<N: Answers>(
    so_far: Verdict,
    value: &Option<ExprBox<N>>,
    parameters: Parameters,
) -> Verdict
    ensures { result ≡ judge N.answers so_far (initializer_form parameters value.now) }
{
    match value {
        Some(value) => assigned(so_far, value, parameters),
        None => so_far,
    }
}

/// An element, or a hole.
#[tactic(auto, unfolding(crate::specs::PatForms::pat_element_form, crate::specs::Forms::judge))]
fn element<N: Answers>(
    so_far: Verdict,
    element: &Option<PatBox<N>>,
    place: Nonterminal,
    parameters: Parameters,
) -> Verdict
    ensures { result ≡ judge N.answers so_far (pat_element_form place parameters element.now) }
{
    match element {
        Some(element) => so_far.part(element, place, parameters, Role::Pattern),
        None => so_far,
    }
}

/// Elements that aren't last.
#[tactic(auto, unfolding(crate::specs::Forms::verdict_all))]
fn front_elements<N: Answers>(
    so_far: Verdict,
    elements: &[Option<PatBox<N>>],
    parameters: Parameters,
) -> Verdict
    ensures { result ≡ verdict_all
        (λ n v. judge N.answers v (pat_element_form PatternElement parameters n))
        so_far elements.now }
{
    let mut verdict = so_far;
    for node in elements {
        verdict = element(verdict, node, Nonterminal::PatternElement, parameters);
    }
    verdict
}

/// Elements, of which the last may be a rest.
#[tactic(auto, using(crate::proofs::PatsJudged::elements_judged, crate::proofs::PatsJudged::no_elements_judged, crate::proofs::PatsJudged::nil_elements_judged))]
fn elements<N: Answers>(
    so_far: Verdict,
    elements: &[Option<PatBox<N>>],
    parameters: Parameters,
) -> Verdict
    ensures { result ≡ judge N.answers so_far (pat_elements_form false parameters elements.now) }
{
    match elements.split_last() {
        Some((last, front)) => {
            let verdict = front_elements(so_far, front, parameters);
            element(verdict, last, Nonterminal::LastElement, parameters)
        }
        None => so_far,
    }
}

impl<N: Answers> Stands for ArrayPat<N> {
    ghost judged = { λ c n v. judge N.answers v (array_pat_form false c n) };

    #[tactic(auto, using(crate::proofs::PatsJudged::array_pat_judged))]
    fn judge(&self, so_far: Verdict, parameters: Parameters) -> Verdict {
        let verdict = elements(so_far, &self.elems, parameters).by_scope(!self.optional);
        annotation(verdict, &self.type_ann, parameters)
    }
}

/// The verdict so far, and of a rest, by what may stand behind its dots.
#[tactic(auto, unfolding(crate::specs::PatForms::rest_form, crate::specs::Forms::judge))]
fn rest<N: Answers>(
    so_far: Verdict,
    rest: &RestPat<N>,
    place: Nonterminal,
    parameters: Parameters,
) -> Verdict
    ensures { result ≡ judge N.answers so_far (rest_form place parameters rest.now) }
{
    let verdict = so_far.part(&rest.arg, place, parameters, Role::Pattern);
    annotation(verdict, &rest.type_ann, parameters)
}

impl<N: Answers> Stands for AssignPat<N> {
    ghost judged = { λ c n v. judge N.answers v (assign_pat_form c n) };

    #[tactic(auto, unfolding(crate::specs::PatForms::assign_pat_form, crate::specs::Forms::judge))]
    fn judge(&self, so_far: Verdict, parameters: Parameters) -> Verdict {
        let verdict = so_far.part(
            &self.left,
            Nonterminal::PatternTarget,
            parameters,
            Role::Pattern,
        );
        assigned(verdict, &self.right, parameters)
    }
}

impl<N: Answers> Stands for KeyValuePatProp<N> {
    ghost judged = { λ c n v. judge N.answers v (key_value_pat_form c n) };

    #[tactic(auto, unfolding(crate::specs::PatForms::key_value_pat_form, crate::specs::Forms::judge))]
    fn judge(&self, so_far: Verdict, parameters: Parameters) -> Verdict {
        self.key.judge(so_far, parameters).part(
            &self.value,
            Nonterminal::PatternElement,
            parameters,
            Role::Pattern,
        )
    }
}

impl<N: Answers> Stands for AssignPatProp<N> {
    ghost judged = { λ c n v. judge N.answers v (assign_pat_prop_form c n) };

    #[tactic(auto, unfolding(crate::specs::PatForms::assign_pat_prop_form, crate::specs::Forms::judge))]
    fn judge(&self, so_far: Verdict, parameters: Parameters) -> Verdict {
        initializer(self.key.judge(so_far, parameters), &self.value, parameters)
    }
}

/// The verdict so far, and of a property of a pattern.
#[tactic(auto, unfolding(crate::specs::PatForms::pat_prop_form, crate::specs::Forms::judge, crate::specs::Forms::asked))]
fn prop<N: Answers>(
    so_far: Verdict,
    prop: &ObjectPatProp<N>,
    last: bool,
    parameters: Parameters,
) -> Verdict
    ensures { result ≡ judge N.answers so_far (pat_prop_form last parameters prop.now) }
{
    match prop {
        ObjectPatProp::KeyValue(node) => node.judge(so_far, parameters),
        ObjectPatProp::Assign(node) => node.judge(so_far, parameters),
        ObjectPatProp::Rest(node) => rest(
            so_far.by_rule(last),
            node,
            Nonterminal::PatternName,
            parameters,
        ),
    }
}

/// Properties that aren't last.
#[tactic(auto, unfolding(crate::specs::Forms::verdict_all))]
fn front_props<N: Answers>(
    so_far: Verdict,
    props: &[ObjectPatProp<N>],
    parameters: Parameters,
) -> Verdict
    ensures { result
        ≡ verdict_all (λ n v. judge N.answers v (pat_prop_form false parameters n))
        so_far props.now }
{
    let mut verdict = so_far;
    for node in props {
        verdict = prop(verdict, node, false, parameters);
    }
    verdict
}

/// Properties, of which the last may be a rest.
#[tactic(auto, using(crate::proofs::PatsJudged::props_judged, crate::proofs::PatsJudged::no_props_judged, crate::proofs::PatsJudged::nil_props_judged))]
fn props<N: Answers>(so_far: Verdict, props: &[ObjectPatProp<N>], parameters: Parameters) -> Verdict
    ensures { result ≡ judge N.answers so_far (pat_props_form false parameters props.now) }
{
    match props.split_last() {
        Some((last, front)) => prop(
            front_props(so_far, front, parameters),
            last,
            true,
            parameters,
        ),
        None => so_far,
    }
}

impl<N: Answers> Stands for ObjectPat<N> {
    ghost judged = { λ c n v. judge N.answers v (object_pat_form false c n) };

    #[tactic(auto, using(crate::proofs::PatsJudged::object_pat_judged))]
    fn judge(&self, so_far: Verdict, parameters: Parameters) -> Verdict {
        let verdict = props(so_far, &self.props, parameters).by_scope(!self.optional);
        annotation(verdict, &self.type_ann, parameters)
    }
}

impl<N: Answers> Stands for Pat<N> {
    ghost judged = { λ c n v. judge N.answers v (pat_form false c n) };

    #[tactic(auto, unfolding(crate::specs::PatForms::pat_form, crate::specs::Forms::judge, crate::specs::Forms::asked))]
    fn judge(&self, so_far: Verdict, parameters: Parameters) -> Verdict {
        match self {
            Pat::Ident(node) => node.judge(so_far, parameters),
            Pat::Array(node) => node.judge(so_far, parameters),
            Pat::Rest(node) => rest(so_far, node, Nonterminal::PatternTarget, parameters),
            Pat::Object(node) => node.judge(so_far, parameters),
            Pat::Assign(node) => node.judge(so_far, parameters),
            Pat::Invalid(_) => so_far.by_rule(false),
            Pat::Expr(node) => so_far.by_rule(!parameters.is_binding).simple(
                node,
                false,
                Nonterminal::LeftHandSideExpression,
                with_in(parameters),
            ),
        }
    }
}

/// What a pattern is among elements.
#[tactic(auto, unfolding(crate::specs::PatForms::pat_nonterminal))]
pub(crate) fn pat_nonterminal<N: Answers>(pat: &Pat<N>) -> Nonterminal
    ensures { result ≡ pat_nonterminal pat.now }
{
    match pat {
        Pat::Ident(_) | Pat::Invalid(_) | Pat::Expr(_) => Nonterminal::PatternName,
        Pat::Array(_) | Pat::Object(_) => Nonterminal::PatternTarget,
        Pat::Rest(_) => Nonterminal::RestElement,
        Pat::Assign(_) => Nonterminal::PatternElement,
    }
}
