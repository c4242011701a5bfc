//! Patterns, and what is assigned to.

use crate::exprs::{MemberExpr, OptChainExpr, ParenExpr, PropName, SuperPropExpr};
use crate::idents::{BindingIdent, Invalid};
use crate::links::AnyNode;
use crate::sorts::{ExprBox, PatBox, TsTypeAnnBox};
use crate::ts_exprs::{TsAsExpr, TsInstantiation, TsNonNullExpr, TsSatisfiesExpr, TsTypeAssertion};
use swc_ecma_codegen_common::Span;

/// `[a, b]` of `let [a, b] = c;`. ECMA-262, section 14.3.3.
#[derive(Drop)]
pub enum Pat<N = AnyNode> {
    /// `a` of `let a = b;`
    Ident(BindingIdent<N>),
    /// `[a]` of `let [a] = b;`
    Array(ArrayPat<N>),
    /// `...a` of `let [...a] = b;`
    Rest(RestPat<N>),
    /// `{ a }` of `let { a } = b;`
    Object(ObjectPat<N>),
    /// `a = 1` of `let [a = 1] = b;`
    Assign(AssignPat<N>),
    /// Stands in for a pattern that isn't valid, as `1` of `let [1] = a;`.
    Invalid(Invalid),
    /// `a.b` of `[a.b] = c;`
    Expr(ExprBox<N>),
}

/// `[a, b]` of `let [a, b] = c;`. ECMA-262, section 14.3.3.
#[derive(Drop)]
pub struct ArrayPat<N = AnyNode> {
    pub span: Span,
    /// `a`, none for the hole, and `b` of `let [a, , b] = c;`.
    pub elems: Vec<Option<PatBox<N>>>,
    /// TypeScript: whether `?` stands after it, `declare function f([a]?);`.
    pub optional: bool,
    /// TypeScript: `: T` of `let [a]: T = b;`, or none of `let [a] = b;`.
    pub type_ann: Option<TsTypeAnnBox<N>>,
}

/// `{ a, b: c }` of `let { a, b: c } = d;`. ECMA-262, section 14.3.3.
#[derive(Drop)]
pub struct ObjectPat<N = AnyNode> {
    pub span: Span,
    /// `a` and `b: c` of `let { a, b: c } = d;`.
    pub props: Vec<ObjectPatProp<N>>,
    /// TypeScript: whether `?` stands after it, `declare function f({ a }?);`.
    pub optional: bool,
    /// TypeScript: `: T` of `let { a }: T = b;`, or none of `let { a } = b;`.
    pub type_ann: Option<TsTypeAnnBox<N>>,
}

/// `...a` of `let [...a] = b;`. ECMA-262, section 14.3.3.
#[derive(Drop)]
pub struct RestPat<N = AnyNode> {
    pub span: Span,
    /// Where `...` of `...a` stands.
    pub dot3_token: Span,
    /// `a` of `let [...a] = b;`.
    pub arg: PatBox<N>,
    /// TypeScript: `: T` of `function f(...a: T) {}`, or none of `function f(...a) {}`.
    pub type_ann: Option<TsTypeAnnBox<N>>,
}

/// `a = 1` of `let [a = 1] = b;`. ECMA-262, section 14.3.3.
#[derive(Drop)]
pub struct AssignPat<N = AnyNode> {
    pub span: Span,
    /// `a` of `let [a = 1] = b;`.
    pub left: PatBox<N>,
    /// `1` of `let [a = 1] = b;`.
    pub right: ExprBox<N>,
}

/// `a` or `b: c` of `let { a, b: c } = d;`. ECMA-262, section 14.3.3.
#[derive(Drop)]
pub enum ObjectPatProp<N = AnyNode> {
    /// `a: b` of `let { a: b } = c;`
    KeyValue(KeyValuePatProp<N>),
    /// `a = 1` of `let { a = 1 } = b;`
    Assign(AssignPatProp<N>),
    /// `...a` of `let { ...a } = b;`
    Rest(RestPat<N>),
}

/// `a: b` of `let { a: b } = c;`. ECMA-262, section 14.3.3.
#[derive(Drop)]
pub struct KeyValuePatProp<N = AnyNode> {
    /// `a` of `let { a: b } = c;`.
    pub key: PropName<N>,
    /// `b` of `let { a: b } = c;`.
    pub value: PatBox<N>,
}

/// `a` or `b = 1` of `let { a, b = 1 } = c;`. ECMA-262, section 14.3.3.
#[derive(Drop)]
pub struct AssignPatProp<N = AnyNode> {
    pub span: Span,
    /// `a` of `let { a = 1 } = b;`.
    pub key: BindingIdent<N>,
    /// `1` of `let { a = 1 } = b;`, or none of `let { a } = b;`.
    pub value: Option<ExprBox<N>>,
}

/// `a` of `a = b`. ECMA-262, section 13.15.
#[derive(Drop)]
pub enum AssignTarget<N = AnyNode> {
    /// `a` of `a = b`
    Simple(SimpleAssignTarget<N>),
    /// `[a]` of `[a] = b`
    Pat(AssignTargetPat<N>),
}

/// `[a]` of `[a] = b`. ECMA-262, section 13.15.5.
#[derive(Drop)]
pub enum AssignTargetPat<N = AnyNode> {
    /// `[a]` of `[a] = b`
    Array(ArrayPat<N>),
    /// `{ a }` of `({ a } = b)`
    Object(ObjectPat<N>),
    /// Stands in for a pattern that isn't valid, as `[1]` of `[1] = a`.
    Invalid(Invalid),
}

/// `a.b` of `a.b = c`. ECMA-262, section 13.15.
#[derive(Drop)]
pub enum SimpleAssignTarget<N = AnyNode> {
    /// `a` of `a = b`
    Ident(BindingIdent<N>),
    /// `a.b` of `a.b = c`
    Member(MemberExpr<N>),
    /// `super.a` of `super.a = b`
    SuperProp(SuperPropExpr<N>),
    /// `(a)` of `(a) = b`
    Paren(ParenExpr<N>),
    /// `a?.b` of `a?.b = c`, which isn't valid.
    OptChain(OptChainExpr<N>),
    /// TypeScript: `a as T` of `(a as T) = b`
    TsAs(TsAsExpr<N>),
    /// TypeScript: `a satisfies T` of `(a satisfies T) = b`
    TsSatisfies(TsSatisfiesExpr<N>),
    /// TypeScript: `a!` of `a! = b`
    TsNonNull(TsNonNullExpr<N>),
    /// TypeScript: `<T>a` of `(<T>a) = b`
    TsTypeAssertion(TsTypeAssertion<N>),
    /// TypeScript: `a<T>` of `(a<T>) = b`
    TsInstantiation(TsInstantiation<N>),
    /// Stands in for a target that isn't valid, as `1` of `1 = a`.
    Invalid(Invalid),
}
