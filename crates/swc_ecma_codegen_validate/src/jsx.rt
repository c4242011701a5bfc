//! JSX.

ghost use Rattle.std.specs.Prelude.{◌≡◌, false, true};
ghost use Rattle.swc_ecma_codegen_grammar.specs.Phrases.{is_possible};
ghost use Rattle.swc_ecma_codegen_grammar.specs.JsxPhrases as phrases;
ghost use Rattle.swc_ecma_codegen_grammar.specs.JsxPhrases.{tag_ident, tag_ident_name, jsx_namespaced_name, jsx_member_expr, jsx_object, jsx_element_name, jsx_attr_name, jsx_string, jsx_text, jsx_expr, jsx_expr_container, jsx_spread_child, jsx_attr_lit, jsx_attr_value, jsx_attr_init, jsx_attr, jsx_attr_or_spread, jsx_opening_element, jsx_closing_element, jsx_element_child, is_parted, jsx_children, jsx_rest, jsx_element, jsx_fragment, jsx_part};

use crate::forms::{Fits, WellFormed, all_well_formed};
use crate::jsx_texts::{has_quotes, is_jsx_string, is_tag_name};
use swc_ecma_codegen_grammar::roles::Role;
use swc_ecma_codegen_grammar::texts::is_jsx_text;
use swc_ecma_codegen_tree::{
    Ident, IdentName, JSXAttr, JSXAttrName, JSXAttrOrSpread, JSXAttrValue, JSXClosingElement,
    JSXElement, JSXElementChild, JSXElementName, JSXExpr, JSXExprContainer, JSXFragment,
    JSXMemberExpr, JSXNamespacedName, JSXObject, JSXOpeningElement, JSXPart, JSXSpreadChild,
    JSXText, Lit, Str,
};

/// Whether a name may stand in a tag.
#[tactic(auto, using(crate::proofs::Possible::where_possible), unfolding(swc_ecma_codegen_grammar::specs::JsxPhrases::tag_ident, swc_ecma_codegen_grammar::specs::Phrases::is_possible))]
pub(crate) fn is_tag_ident(name: &Ident) -> bool
    ensures { result ≡ is_possible (tag_ident name.now) }
{
    !name.optional && is_tag_name(&name.sym)
}

/// Whether a name may stand in a tag as that of an attribute, or after a dot or a colon.
#[tactic(auto, unfolding(swc_ecma_codegen_grammar::specs::JsxPhrases::tag_ident_name, swc_ecma_codegen_grammar::specs::Phrases::is_possible))]
pub(crate) fn is_tag_ident_name(name: &IdentName) -> bool
    ensures { result ≡ is_possible (tag_ident_name name.now) }
{
    is_tag_name(&name.sym)
}

impl WellFormed for JSXNamespacedName {
    ghost phrase = { jsx_namespaced_name };

    #[tactic(auto, unfolding(swc_ecma_codegen_grammar::specs::JsxPhrases::jsx_namespaced_name, swc_ecma_codegen_grammar::specs::Phrases::is_possible))]
    fn is_well_formed(&self) -> bool {
        is_tag_ident_name(&self.ns) && is_tag_ident_name(&self.name)
    }
}

impl<N: Fits> WellFormed for JSXMemberExpr<N> {
    ghost phrase = { jsx_member_expr N.reads };

    #[tactic(auto, unfolding(swc_ecma_codegen_grammar::specs::JsxPhrases::jsx_member_expr, swc_ecma_codegen_grammar::specs::Phrases::is_possible))]
    fn is_well_formed(&self) -> bool {
        self.obj.is_well_formed() && is_tag_ident_name(&self.prop)
    }
}

impl<N: Fits> WellFormed for JSXObject<N> {
    ghost phrase = { jsx_object N.reads };

    #[tactic(auto, unfolding(swc_ecma_codegen_grammar::specs::JsxPhrases::jsx_object))]
    fn is_well_formed(&self) -> bool {
        match self {
            JSXObject::JSXMemberExpr(node) => node.is_well_formed(),
            JSXObject::Ident(name) => is_tag_ident(name),
        }
    }
}

impl<N: Fits> WellFormed for JSXElementName<N> {
    ghost phrase = { jsx_element_name N.reads };

    #[tactic(auto, unfolding(swc_ecma_codegen_grammar::specs::JsxPhrases::jsx_element_name))]
    fn is_well_formed(&self) -> bool {
        match self {
            JSXElementName::Ident(name) => is_tag_ident(name),
            JSXElementName::JSXMemberExpr(node) => node.is_well_formed(),
            JSXElementName::JSXNamespacedName(node) => node.is_well_formed(),
        }
    }
}

impl WellFormed for JSXAttrName {
    ghost phrase = { jsx_attr_name };

    #[tactic(auto, unfolding(swc_ecma_codegen_grammar::specs::JsxPhrases::jsx_attr_name))]
    fn is_well_formed(&self) -> bool {
        match self {
            JSXAttrName::Ident(name) => is_tag_ident_name(name),
            JSXAttrName::JSXNamespacedName(node) => node.is_well_formed(),
        }
    }
}

/// Whether a string may be the value of an attribute.
#[tactic(auto, using(crate::proofs::JsxPossible::one_possible), unfolding(swc_ecma_codegen_grammar::specs::JsxPhrases::jsx_string, swc_ecma_codegen_grammar::specs::JsxPhrases::jsx_spelling))]
fn is_attr_string(node: &Str) -> bool
    ensures { result ≡ is_possible (jsx_string node.now) }
{
    match &node.raw {
        Some(raw) => is_jsx_string(raw),
        None => has_quotes(&node.value),
    }
}

/// Whether a literal may be: only a string.
#[tactic(auto, unfolding(swc_ecma_codegen_grammar::specs::JsxPhrases::jsx_attr_lit, swc_ecma_codegen_grammar::specs::Phrases::is_possible))]
pub(crate) fn is_attr_lit(node: &Lit) -> bool
    ensures { result ≡ is_possible (jsx_attr_lit node.now) }
{
    match node {
        Lit::Str(node) => is_attr_string(node),
        _ => false,
    }
}

impl WellFormed for JSXText {
    ghost phrase = { jsx_text };

    #[tactic(auto, using(crate::proofs::JsxPossible::text_possible))]
    fn is_well_formed(&self) -> bool {
        is_jsx_text(&self.value) || is_jsx_text(&self.raw)
    }
}

impl<N: Fits> WellFormed for JSXExpr<N> {
    ghost phrase = { jsx_expr N.reads };

    #[tactic(auto, unfolding(swc_ecma_codegen_grammar::specs::JsxPhrases::jsx_expr, swc_ecma_codegen_grammar::specs::Phrases::is_possible))]
    fn is_well_formed(&self) -> bool {
        match self {
            JSXExpr::JSXEmptyExpr(_) => true,
            JSXExpr::Expr(node) => node.is_well_formed(),
        }
    }
}

/// A container is well-formed as a child where it is as the value of an attribute.
impl<N: Fits> WellFormed for JSXExprContainer<N> {
    ghost phrase = { jsx_expr_container N.reads false };

    #[tactic(auto, using(crate::proofs::JsxPossible::container_possible))]
    fn is_well_formed(&self) -> bool {
        self.expr.is_well_formed()
    }
}

impl<N: Fits> WellFormed for JSXSpreadChild<N> {
    ghost phrase = { jsx_spread_child N.reads };

    #[tactic(auto, using(crate::proofs::JsxPossible::spread_possible))]
    fn is_well_formed(&self) -> bool {
        self.expr.is_well_formed()
    }
}

impl<N: Fits> WellFormed for JSXAttrValue<N> {
    ghost phrase = { jsx_attr_value N.reads };

    #[tactic(auto, unfolding(swc_ecma_codegen_grammar::specs::JsxPhrases::jsx_attr_value))]
    fn is_well_formed(&self) -> bool {
        match self {
            JSXAttrValue::Lit(node) => is_attr_lit(node),
            JSXAttrValue::JSXExprContainer(node) => node.is_well_formed(),
            JSXAttrValue::JSXElement(node) => node.is_well_formed(),
            JSXAttrValue::JSXFragment(node) => node.is_well_formed(),
        }
    }
}

/// Whether the value of an attribute is well-formed, or it has none.
#[tactic(auto, unfolding(swc_ecma_codegen_grammar::specs::JsxPhrases::jsx_attr_init, swc_ecma_codegen_grammar::specs::Phrases::is_possible))]
fn is_attr_init<N: Fits>(value: &Option<JSXAttrValue<N>>) -> bool
    ensures { result ≡ is_possible (jsx_attr_init N.reads value.now) }
{
    match value {
        Some(node) => node.is_well_formed(),
        None => true,
    }
}

impl<N: Fits> WellFormed for JSXAttr<N> {
    ghost phrase = { jsx_attr N.reads };

    #[tactic(auto, unfolding(swc_ecma_codegen_grammar::specs::JsxPhrases::jsx_attr, swc_ecma_codegen_grammar::specs::Phrases::is_possible))]
    fn is_well_formed(&self) -> bool {
        self.name.is_well_formed() && is_attr_init(&self.value)
    }
}

impl<N: Fits> WellFormed for JSXAttrOrSpread<N> {
    ghost phrase = { jsx_attr_or_spread N.reads };

    #[tactic(auto, using(crate::proofs::Lists::and_true), unfolding(swc_ecma_codegen_grammar::specs::JsxPhrases::jsx_attr_or_spread, swc_ecma_codegen_grammar::specs::Phrases::is_possible))]
    fn is_well_formed(&self) -> bool {
        match self {
            JSXAttrOrSpread::JSXAttr(node) => node.is_well_formed(),
            JSXAttrOrSpread::SpreadElement(node) => node.is_well_formed(),
        }
    }
}

impl<N: Fits> WellFormed for JSXOpeningElement<N> {
    ghost phrase = { jsx_opening_element N.reads false };

    #[tactic(auto, using(crate::proofs::JsxPossible::opening_possible))]
    fn is_well_formed(&self) -> bool {
        self.name.is_well_formed()
            && self.type_args.is_well_formed()
            && all_well_formed(&self.attrs)
    }
}

impl<N: Fits> WellFormed for JSXClosingElement<N> {
    ghost phrase = { jsx_closing_element N.reads };

    #[tactic(auto, using(crate::proofs::JsxPossible::closing_possible))]
    fn is_well_formed(&self) -> bool {
        self.name.is_well_formed()
    }
}

impl<N: Fits> WellFormed for JSXElementChild<N> {
    ghost phrase = { jsx_element_child N.reads };

    #[tactic(auto, using(crate::proofs::JsxPossible::child_container_possible), unfolding(swc_ecma_codegen_grammar::specs::JsxPhrases::jsx_element_child))]
    fn is_well_formed(&self) -> bool {
        match self {
            JSXElementChild::JSXText(node) => node.is_well_formed(),
            JSXElementChild::JSXExprContainer(node) => node.is_well_formed(),
            JSXElementChild::JSXSpreadChild(node) => node.is_well_formed(),
            JSXElementChild::JSXElement(node) => node.target().fits(Role::Child),
            JSXElementChild::JSXFragment(node) => node.target().fits(Role::Child),
        }
    }
}

/// Whether a child is text.
#[tactic(auto, unfolding(swc_ecma_codegen_grammar::specs::JsxPhrases::is_text))]
fn is_text<N>(child: &JSXElementChild<N>) -> bool
    ensures { result ≡ phrases.is_text child.now }
{
    matches!(child, JSXElementChild::JSXText(_))
}

/// Whether no text stands right behind text.
#[tactic(auto, unfolding(swc_ecma_codegen_grammar::specs::JsxPhrases::is_parted))]
pub(crate) fn are_parted<N>(children: &[JSXElementChild<N>]) -> bool
    ensures { result ≡ is_parted false children.now }
{
    let mut after = false;
    for child in children {
        if after && is_text(child) {
            return false;
        }
        after = is_text(child);
    }
    true
}

/// Whether text is the last of them.
#[tactic(auto, using(crate::proofs::JsxPossible::ends_by_last), unfolding(crate::specs::JsxForms::is_some_text))]
pub(crate) fn ends_in_text<N>(children: &[JSXElementChild<N>]) -> bool
    ensures { result ≡ phrases.ends_in_text false children.now }
{
    match children.last() {
        Some(child) => is_text(child),
        None => false,
    }
}

/// Whether children are well-formed side by side.
#[tactic(auto, using(crate::proofs::JsxPossible::children_possible))]
fn are_children<N: Fits>(children: &[JSXElementChild<N>]) -> bool
    ensures { result ≡ is_possible (jsx_children N.reads children.now) }
{
    are_parted(children) && all_well_formed(children)
}

/// Whether they are before this closing tag, or before none.
#[tactic(auto, using(crate::proofs::JsxPossible::unclosed_possible, crate::proofs::JsxPossible::closed_possible))]
fn is_rest<N: Fits>(children: &[JSXElementChild<N>], closing: &Option<JSXClosingElement<N>>) -> bool
    ensures { result ≡ is_possible (jsx_rest N.reads children.now closing.now) }
{
    match closing {
        Some(closing) => are_children(children) && closing.is_well_formed(),
        None => !ends_in_text(children) && are_children(children),
    }
}

/// An element is well-formed as a child where it is as an expression.
impl<N: Fits> WellFormed for JSXElement<N> {
    ghost phrase = { jsx_element N.reads false };

    #[tactic(auto, unfolding(swc_ecma_codegen_grammar::specs::JsxPhrases::jsx_element, swc_ecma_codegen_grammar::specs::Phrases::is_possible))]
    fn is_well_formed(&self) -> bool {
        self.opening.is_well_formed() && is_rest(&self.children, &self.closing)
    }
}

impl<N: Fits> WellFormed for JSXFragment<N> {
    ghost phrase = { jsx_fragment N.reads false };

    #[tactic(auto, using(crate::proofs::JsxPossible::fragment_possible))]
    fn is_well_formed(&self) -> bool {
        are_children(&self.children)
    }
}

/// Whether a part of JSX may stand in this role, and is well-formed.
#[tactic(auto, using(crate::proofs::JsxPossible::child_element_possible, crate::proofs::JsxPossible::child_fragment_possible), unfolding(swc_ecma_codegen_grammar::specs::JsxPhrases::jsx_part, swc_ecma_codegen_grammar::specs::Phrases::is_possible))]
pub(crate) fn jsx_part_fits<N: Fits>(part: &JSXPart<N>, role: Role) -> bool
    ensures { result ≡ is_possible (jsx_part N.reads part.now role) }
{
    match (part, role) {
        (JSXPart::JSXElement(node), Role::Element | Role::Child) => (**node).is_well_formed(),
        (JSXPart::JSXFragment(node), Role::Element | Role::Child) => node.is_well_formed(),
        (JSXPart::JSXObject(node), Role::TagObject) => node.is_well_formed(),
        _ => false,
    }
}
