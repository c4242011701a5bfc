//! JSX.

use crate::exprs::SpreadElement;
use crate::idents::{Ident, IdentName};
use crate::links::AnyNode;
use crate::lits::{JSXText, Lit};
use crate::sorts::{
    ExprBox, JSXElementBox, JSXFragmentBox, JSXObjectBox, TsTypeParamInstantiationBox,
};
use swc_ecma_codegen_common::Span;

/// `<a b={c}>d</a>`. JSX, section JSX Elements.
#[derive(Drop)]
pub struct JSXElement<N = AnyNode> {
    pub span: Span,
    /// `<a b={c}>` of `<a b={c}>d</a>`.
    pub opening: JSXOpeningElement<N>,
    /// `d` of `<a b={c}>d</a>`, in order.
    pub children: Vec<JSXElementChild<N>>,
    /// `</a>` of `<a>b</a>`; None where the element closes itself, `<a />`.
    pub closing: Option<JSXClosingElement<N>>,
}

/// `<a.b c={d}>`: what opens an element. JSX, section JSX Elements.
#[derive(Drop)]
pub struct JSXOpeningElement<N = AnyNode> {
    pub span: Span,
    /// `a.b` of `<a.b c={d}>`.
    pub name: JSXElementName<N>,
    /// `c={d}` and `{...e}` of `<a.b c={d} {...e}>`, in order.
    pub attrs: Vec<JSXAttrOrSpread<N>>,
    /// Whether it ends with `/>`, as `<a />` does.
    pub self_closing: bool,
    /// `<T>` of `<A<T> b={c}>`; None where no type arguments are written.
    pub type_args: Option<TsTypeParamInstantiationBox<N>>,
}

/// `</a.b>`: what closes an element. JSX, section JSX Elements.
#[derive(Drop)]
pub struct JSXClosingElement<N = AnyNode> {
    pub span: Span,
    /// `a.b` of `</a.b>`.
    pub name: JSXElementName<N>,
}

/// `<>a</>`. JSX, section JSX Elements.
#[derive(Drop)]
pub struct JSXFragment<N = AnyNode> {
    pub span: Span,
    /// `<>` of `<>a</>`.
    pub opening: JSXOpeningFragment,
    /// `a` and `{b}` of `<>a{b}</>`, in order.
    pub children: Vec<JSXElementChild<N>>,
    /// `</>` of `<>a</>`.
    pub closing: JSXClosingFragment,
}

/// `<>`: what opens a fragment. JSX, section JSX Elements.
#[derive(Drop)]
pub struct JSXOpeningFragment {
    pub span: Span,
}

/// `</>`: what closes a fragment. JSX, section JSX Elements.
#[derive(Drop)]
pub struct JSXClosingFragment {
    pub span: Span,
}

/// `a`, `a.b` or `a:b` after the `<` of a tag. JSX, section JSX Elements.
#[derive(Drop)]
pub enum JSXElementName<N = AnyNode> {
    /// `a` of `<a />`.
    Ident(Ident),
    /// `a.b` of `<a.b />`.
    JSXMemberExpr(JSXMemberExpr<N>),
    /// `a:b` of `<a:b />`.
    JSXNamespacedName(JSXNamespacedName),
}

/// `a.b` of `<a.b />`. JSX, section JSX Elements.
#[derive(Drop)]
pub struct JSXMemberExpr<N = AnyNode> {
    /// `a.b` of `<a.b.c />`.
    pub obj: JSXObjectBox<N>,
    /// `c` of `<a.b.c />`.
    pub prop: IdentName,
}

/// `a` of `<a.b />`: what stands before the last dot. JSX, section JSX Elements.
#[derive(Drop)]
pub enum JSXObject<N = AnyNode> {
    /// `a.b` of `<a.b.c />`.
    JSXMemberExpr(JSXMemberExpr<N>),
    /// `a` of `<a.b />`.
    Ident(Ident),
}

/// `a:b` of `<a:b />`. JSX, section JSX Elements.
#[derive(Drop)]
pub struct JSXNamespacedName {
    /// `a` of `a:b`.
    pub ns: IdentName,
    /// `b` of `a:b`.
    pub name: IdentName,
}

/// `b={c}` or `{...d}` of `<a b={c} {...d} />`. JSX, section JSX Attributes.
#[derive(Drop)]
pub enum JSXAttrOrSpread<N = AnyNode> {
    /// `b={c}` of `<a b={c} />`.
    JSXAttr(JSXAttr<N>),
    /// `...b` of `<a {...b} />`.
    SpreadElement(SpreadElement<N>),
}

/// `b="c"` of `<a b="c" />`. JSX, section JSX Attributes.
#[derive(Drop)]
pub struct JSXAttr<N = AnyNode> {
    pub span: Span,
    /// `b` of `<a b="c" />`.
    pub name: JSXAttrName,
    /// `"c"` of `<a b="c" />`; None where only the name is written, `<a b />`.
    pub value: Option<JSXAttrValue<N>>,
}

/// `b` of `<a b="c" />`, or `b:c` of `<a b:c="d" />`. JSX, section JSX Attributes.
#[derive(Drop)]
pub enum JSXAttrName {
    /// `b` of `<a b="c" />`.
    Ident(IdentName),
    /// `b:c` of `<a b:c="d" />`.
    JSXNamespacedName(JSXNamespacedName),
}

/// `"c"` or `{c}` after the `=` of an attribute. JSX, section JSX Attributes.
#[derive(Drop)]
pub enum JSXAttrValue<N = AnyNode> {
    /// `"c"` of `<a b="c" />`.
    Lit(Lit),
    /// `{c}` of `<a b={c} />`.
    JSXExprContainer(JSXExprContainer<N>),
    /// `<c />` of `<a b=<c /> />`.
    JSXElement(JSXElementBox<N>),
    /// `<>c</>` of `<a b=<>c</> />`.
    JSXFragment(JSXFragmentBox<N>),
}

/// `b` or `{c}` of `<a>b{c}</a>`. JSX, section JSX Children.
#[derive(Drop)]
pub enum JSXElementChild<N = AnyNode> {
    /// `b` of `<a>b</a>`.
    JSXText(JSXText),
    /// `{b}` of `<a>{b}</a>`.
    JSXExprContainer(JSXExprContainer<N>),
    /// `{...b}` of `<a>{...b}</a>`.
    JSXSpreadChild(JSXSpreadChild<N>),
    /// `<b />` of `<a><b /></a>`.
    JSXElement(JSXElementBox<N>),
    /// `<>b</>` of `<a><>b</></a>`.
    JSXFragment(JSXFragmentBox<N>),
}

/// `{a}`: an expression in braces. JSX, section JSX Children.
#[derive(Drop)]
pub struct JSXExprContainer<N = AnyNode> {
    pub span: Span,
    /// `a` of `{a}`, or nothing, as in `{}`.
    pub expr: JSXExpr<N>,
}

/// `a` of `{a}`, or the nothing of `{}`. JSX, section JSX Children.
#[derive(Drop)]
pub enum JSXExpr<N = AnyNode> {
    /// Nothing, as in `{}`.
    JSXEmptyExpr(JSXEmptyExpr),
    /// `a` of `{a}`.
    Expr(ExprBox<N>),
}

/// The nothing between the braces of `{}`. JSX, section JSX Children.
#[derive(Drop)]
pub struct JSXEmptyExpr {
    pub span: Span,
}

/// `{...b}` of `<a>{...b}</a>`. JSX, section JSX Children.
#[derive(Drop)]
pub struct JSXSpreadChild<N = AnyNode> {
    pub span: Span,
    /// `b` of `{...b}`.
    pub expr: ExprBox<N>,
}
