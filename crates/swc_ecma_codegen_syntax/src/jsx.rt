//! JSX.

ghost use Rattle.std.specs.Prelude.{◌≡◌, ◌&&◌, false};
ghost use Rattle.swc_ecma_codegen_grammar.specs.JsxPhrases.{is_text, is_parted, ends_in_text};
ghost use Rattle.swc_ecma_codegen_syntax.specs.Forms.{judge};
ghost use Rattle.swc_ecma_codegen_syntax.specs.JsxForms.{tag_member_form, tag_object_form, element_name_form, contained_form, container_form, spread_child_form, holds_expression, attr_value_form, attr_init_form, attr_form, opening_form, closing_form, child_form, children_form, unclosed_form, element_rest_form, is_closed, element_form, fragment_form};

use crate::calls::type_args;
use crate::forms::{Answers, Stands, all};
use crate::nonterminals::Nonterminal;
use crate::parameters::{Parameters, with_in};
use crate::verdicts::Verdict;
use swc_ecma_codegen_grammar::roles::Role;
use swc_ecma_codegen_tree::{
    JSXAttrOrSpread, JSXAttrValue, JSXClosingElement, JSXElement, JSXElementChild, JSXElementName,
    JSXExpr, JSXExprContainer, JSXFragment, JSXMemberExpr, JSXObject, JSXOpeningElement,
};

/// What `a.b` of `<a.b />` asks.
#[tactic(auto, unfolding(crate::specs::JsxForms::tag_member_form, crate::specs::Forms::judge))]
fn tag_member<N: Answers>(
    so_far: Verdict,
    member: &JSXMemberExpr<N>,
    parameters: Parameters,
) -> Verdict
    ensures { result ≡ judge N.answers so_far (tag_member_form parameters member.now) }
{
    so_far.part(
        &member.obj,
        Nonterminal::JSXObject,
        parameters,
        Role::TagObject,
    )
}

impl<N: Answers> Stands for JSXObject<N> {
    ghost judged = { λ c n v. judge N.answers v (tag_object_form c n) };

    #[tactic(auto, unfolding(crate::specs::JsxForms::tag_object_form, crate::specs::Forms::judge))]
    fn judge(&self, so_far: Verdict, parameters: Parameters) -> Verdict {
        match self {
            JSXObject::JSXMemberExpr(node) => tag_member(so_far, node, parameters),
            JSXObject::Ident(_) => so_far,
        }
    }
}

impl<N: Answers> Stands for JSXElementName<N> {
    ghost judged = { λ c n v. judge N.answers v (element_name_form c n) };

    #[tactic(auto, unfolding(crate::specs::JsxForms::element_name_form, crate::specs::Forms::judge))]
    fn judge(&self, so_far: Verdict, parameters: Parameters) -> Verdict {
        match self {
            JSXElementName::JSXMemberExpr(node) => tag_member(so_far, node, parameters),
            JSXElementName::Ident(_) | JSXElementName::JSXNamespacedName(_) => so_far,
        }
    }
}

/// What stands in braces.
#[tactic(auto, unfolding(crate::specs::JsxForms::container_form, crate::specs::JsxForms::contained_form, crate::specs::Forms::judge))]
fn container<N: Answers>(
    so_far: Verdict,
    is_child: bool,
    container: &JSXExprContainer<N>,
    parameters: Parameters,
) -> Verdict
    ensures { result ≡ judge N.answers so_far (container_form parameters is_child container.now) }
{
    match &container.expr {
        JSXExpr::Expr(expr) => so_far.part(
            expr,
            Nonterminal::Expression,
            with_in(parameters),
            Role::Expression,
        ),
        JSXExpr::JSXEmptyExpr(_) => so_far,
    }
}

/// Whether an expression stands in braces.
#[tactic(auto, unfolding(crate::specs::JsxForms::holds_expression))]
fn holds_expression<N: Answers>(contained: &JSXExpr<N>) -> bool
    ensures { result ≡ holds_expression contained.now }
{
    matches!(contained, JSXExpr::Expr(_))
}

impl<N: Answers> Stands for JSXAttrValue<N> {
    ghost judged = { λ c n v. judge N.answers v (attr_value_form c n) };

    #[tactic(auto, unfolding(crate::specs::JsxForms::attr_value_form, crate::specs::Forms::judge, crate::specs::Forms::asked))]
    fn judge(&self, so_far: Verdict, parameters: Parameters) -> Verdict {
        let place = Nonterminal::JSXElement;
        match self {
            JSXAttrValue::Lit(_) => so_far,
            JSXAttrValue::JSXExprContainer(node) => {
                let verdict = so_far.by_rule(holds_expression(&node.expr));
                container(verdict, false, node, parameters)
            }
            JSXAttrValue::JSXElement(link) => {
                so_far.part(link, place, with_in(parameters), Role::Element)
            }
            JSXAttrValue::JSXFragment(link) => {
                so_far.part(link, place, with_in(parameters), Role::Element)
            }
        }
    }
}

/// The value of an attribute, where there is one.
#[tactic(auto, unfolding(crate::specs::JsxForms::attr_init_form, crate::specs::Forms::judge))]
fn attr_init<N: Answers>(
    so_far: Verdict,
    value: &Option<JSXAttrValue<N>>,
    parameters: Parameters,
) -> Verdict
    ensures { result ≡ judge N.answers so_far (attr_init_form parameters value.now) }
{
    match value {
        Some(value) => value.judge(so_far, parameters),
        None => so_far,
    }
}

impl<N: Answers> Stands for JSXAttrOrSpread<N> {
    ghost judged = { λ c n v. judge N.answers v (attr_form c n) };

    #[tactic(auto, unfolding(crate::specs::JsxForms::attr_form, crate::specs::ObjectForms::spread_form, crate::specs::Forms::judge))]
    fn judge(&self, so_far: Verdict, parameters: Parameters) -> Verdict {
        match self {
            JSXAttrOrSpread::JSXAttr(node) => attr_init(so_far, &node.value, parameters),
            JSXAttrOrSpread::SpreadElement(node) => so_far.part(
                &node.expr,
                Nonterminal::AssignmentExpression,
                with_in(parameters),
                Role::Expression,
            ),
        }
    }
}

/// The verdict so far, and of an opening tag.
fn opening<N: Answers>(
    so_far: Verdict,
    is_child: bool,
    opening: &JSXOpeningElement<N>,
    parameters: Parameters,
) -> Verdict
    ensures { result ≡ judge N.answers so_far (opening_form parameters is_child opening.now) }
{
    let verdict = opening.name.judge(so_far, parameters);
    let verdict = type_args(verdict, &opening.type_args, parameters);
    all(verdict, &opening.attrs, parameters)
}

impl<N: Answers> Stands for JSXElementChild<N> {
    ghost judged = { λ c n v. judge N.answers v (child_form c n) };

    #[tactic(auto, unfolding(crate::specs::JsxForms::child_form, crate::specs::JsxForms::spread_child_form, crate::specs::Forms::judge))]
    fn judge(&self, so_far: Verdict, parameters: Parameters) -> Verdict {
        let place = Nonterminal::JSXElement;
        match self {
            JSXElementChild::JSXText(_) => so_far,
            JSXElementChild::JSXExprContainer(node) => container(so_far, true, node, parameters),
            JSXElementChild::JSXSpreadChild(node) => so_far.part(
                &node.expr,
                Nonterminal::Expression,
                with_in(parameters),
                Role::Expression,
            ),
            JSXElementChild::JSXElement(link) => {
                so_far.part(link, place, with_in(parameters), Role::Child)
            }
            JSXElementChild::JSXFragment(link) => {
                so_far.part(link, place, with_in(parameters), Role::Child)
            }
        }
    }
}

#[tactic(auto, unfolding(swc_ecma_codegen_grammar::specs::JsxPhrases::is_text))]
fn is_text<N: Answers>(child: &JSXElementChild<N>) -> bool
    ensures { result ≡ is_text child.now }
{
    matches!(child, JSXElementChild::JSXText(_))
}

/// Whether text stands behind text.
fn clashes(after_text: bool, text: bool) -> bool
    ensures { result ≡ (after_text && text) }
{
    after_text && text
}

/// Whether no text stands right behind another.
#[tactic(auto, using(crate::proofs::JsxJudged::parted_stops), unfolding(swc_ecma_codegen_grammar::specs::JsxPhrases::is_parted))]
fn is_parted<N: Answers>(children: &[JSXElementChild<N>]) -> bool
    ensures { result ≡ is_parted false children.now }
{
    let mut after_text = false;
    for child in children {
        let text = is_text(child);
        let clash = clashes(after_text, text);
        if clash {
            return false;
        }
        after_text = text;
    }
    true
}

/// Whether the last is text.
#[tactic(auto, unfolding(swc_ecma_codegen_grammar::specs::JsxPhrases::ends_in_text))]
fn ends_in_text<N: Answers>(children: &[JSXElementChild<N>]) -> bool
    ensures { result ≡ ends_in_text false children.now }
{
    let mut after_text = false;
    for child in children {
        after_text = is_text(child);
    }
    after_text
}

/// The verdict so far, and of what stands between tags.
#[tactic(auto, using(crate::proofs::JsxJudged::parted_judged, crate::proofs::JsxJudged::unparted_judged))]
fn children<N: Answers>(
    so_far: Verdict,
    children: &[JSXElementChild<N>],
    parameters: Parameters,
) -> Verdict
    ensures { result ≡ judge N.answers so_far (children_form parameters children.now) }
{
    if is_parted(children) {
        all(so_far, children, parameters)
    } else {
        so_far.by_rule(false)
    }
}

/// The verdict so far, and of what stands behind a tag that none closes.
#[tactic(auto, using(crate::proofs::JsxJudged::texted_judged, crate::proofs::JsxJudged::untexted_judged))]
fn unclosed<N: Answers>(
    so_far: Verdict,
    nodes: &[JSXElementChild<N>],
    parameters: Parameters,
) -> Verdict
    ensures { result ≡ judge N.answers so_far (unclosed_form parameters nodes.now) }
{
    if ends_in_text(nodes) {
        so_far.by_rule(false)
    } else {
        children(so_far, nodes, parameters)
    }
}

/// The verdict so far, and of what stands behind the opening tag.
#[tactic(auto, unfolding(crate::specs::JsxForms::element_rest_form, crate::specs::JsxForms::closing_form, crate::specs::Forms::judge))]
fn element_rest<N: Answers>(
    so_far: Verdict,
    nodes: &[JSXElementChild<N>],
    closing: &Option<JSXClosingElement<N>>,
    parameters: Parameters,
) -> Verdict
    ensures { result ≡ judge N.answers so_far (element_rest_form parameters nodes.now closing.now) }
{
    match closing {
        Some(closing) => {
            let verdict = children(so_far, nodes, parameters);
            closing.name.judge(verdict, parameters)
        }
        None => unclosed(so_far, nodes, parameters),
    }
}

/// Whether an element is `<a />` alone, or has a tag that closes it.
#[tactic(auto, unfolding(crate::specs::JsxForms::is_closed))]
fn is_closed<N: Answers>(
    self_closing: bool,
    nodes: &[JSXElementChild<N>],
    closing: &Option<JSXClosingElement<N>>,
) -> bool
    ensures { result ≡ is_closed self_closing nodes.now closing.now }
{
    let childless = nodes.is_empty();
    if self_closing {
        closing.is_none() && childless
    } else {
        closing.is_some()
    }
}

/// The verdict so far, and of an element.
#[tactic(auto, unfolding(crate::specs::JsxForms::element_form, crate::specs::Forms::judge, crate::specs::Forms::asked))]
pub(crate) fn element<N: Answers>(
    so_far: Verdict,
    is_child: bool,
    element: &JSXElement<N>,
    parameters: Parameters,
) -> Verdict
    ensures { result ≡ judge N.answers so_far (element_form parameters is_child element.now) }
{
    let closed = is_closed(
        element.opening.self_closing,
        &element.children,
        &element.closing,
    );
    let verdict = opening(
        so_far.by_rule(closed),
        is_child,
        &element.opening,
        parameters,
    );
    element_rest(verdict, &element.children, &element.closing, parameters)
}

/// The verdict so far, and of a fragment.
#[tactic(auto, unfolding(crate::specs::JsxForms::fragment_form, crate::specs::Forms::judge))]
pub(crate) fn fragment<N: Answers>(
    so_far: Verdict,
    is_child: bool,
    fragment: &JSXFragment<N>,
    parameters: Parameters,
) -> Verdict
    ensures { result ≡ judge N.answers so_far (fragment_form parameters is_child fragment.now) }
{
    children(so_far, &fragment.children, parameters)
}
