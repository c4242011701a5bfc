//! Expressions. ECMA-262, section 13.

use crate::idents::{Ident, IdentName, Invalid, PrivateName};
use crate::jsx::{JSXEmptyExpr, JSXMemberExpr, JSXNamespacedName};
use crate::links::AnyNode;
use crate::lits::{BigInt, Lit, Number, Str};
use crate::modules::ImportPhase;
use crate::sorts::{
    AssignTargetBox, BlockStmtBox, ClassBox, ExprBox, FunctionBox, JSXElementBox, JSXFragmentBox,
    MemberExprBox, OptCallBox, PatBox, PropNameBox, TplBox, TsTypeAnnBox, TsTypeParamDeclBox,
    TsTypeParamInstantiationBox,
};
use crate::ts_exprs::{
    TsAsExpr, TsConstAssertion, TsInstantiation, TsNonNullExpr, TsSatisfiesExpr, TsTypeAssertion,
};
use swc_ecma_codegen_common::{AssignOp, BinaryOp, Span, UnaryOp, UpdateOp};

/// `a + b` or `f(a)`: an expression. ECMA-262, section 13.
#[derive(Drop)]
pub enum Expr<N = AnyNode> {
    /// `this`
    This(ThisExpr),
    /// `[a, b]`
    Array(ArrayLit<N>),
    /// `{ a, b: c }`
    Object(ObjectLit<N>),
    /// `function f() {}` of `(function f() {})`
    Fn(FnExpr<N>),
    /// `typeof a`
    Unary(UnaryExpr<N>),
    /// `a++`
    Update(UpdateExpr<N>),
    /// `a + b`
    Bin(BinExpr<N>),
    /// `a = b`
    Assign(AssignExpr<N>),
    /// `a.b`
    Member(MemberExpr<N>),
    /// `super.a`
    SuperProp(SuperPropExpr<N>),
    /// `a ? b : c`
    Cond(CondExpr<N>),
    /// `f(a)`
    Call(CallExpr<N>),
    /// `new A(b)`
    New(NewExpr<N>),
    /// `a, b`
    Seq(SeqExpr<N>),
    /// `a`
    Ident(Ident),
    /// `1`
    Lit(Lit),
    /// `a${b}c` between back quotes.
    Tpl(TplBox<N>),
    /// `f` and a template right after it.
    TaggedTpl(TaggedTpl<N>),
    /// `(a) => b`
    Arrow(Box<ArrowExpr<N>>),
    /// `class A {}` of `(class A {})`
    Class(ClassExpr<N>),
    /// `yield a`
    Yield(YieldExpr<N>),
    /// `new.target`
    MetaProp(MetaPropExpr),
    /// `await a`
    Await(AwaitExpr<N>),
    /// `(a)`
    Paren(ParenExpr<N>),
    /// JSX: `a.b` of `<a.b />`
    JSXMember(JSXMemberExpr<N>),
    /// JSX: `a:b` of `<a:b />`
    JSXNamespacedName(JSXNamespacedName),
    /// JSX: what stands between the braces of `<a>{}</a>`
    JSXEmpty(JSXEmptyExpr),
    /// JSX: `<a>b</a>`
    JSXElement(JSXElementBox<N>),
    /// JSX: `<>a</>`
    JSXFragment(JSXFragmentBox<N>),
    /// TypeScript: `<T>a`
    TsTypeAssertion(TsTypeAssertion<N>),
    /// TypeScript: `a as const`
    TsConstAssertion(TsConstAssertion<N>),
    /// TypeScript: `a!`
    TsNonNull(TsNonNullExpr<N>),
    /// TypeScript: `a as T`
    TsAs(TsAsExpr<N>),
    /// TypeScript: `a<T>`
    TsInstantiation(TsInstantiation<N>),
    /// TypeScript: `a satisfies T`
    TsSatisfies(TsSatisfiesExpr<N>),
    /// `#a` of `#a in b`
    PrivateName(PrivateName),
    /// `a?.b`
    OptChain(OptChainExpr<N>),
    /// Stands in for an expression that isn't valid, as what is missing from `a +`.
    Invalid(Invalid),
}

/// `this`. ECMA-262, section 13.2.1.
#[derive(Drop)]
pub struct ThisExpr {
    pub span: Span,
}

/// `[a, ...b]`. ECMA-262, section 13.2.4.
#[derive(Drop)]
pub struct ArrayLit<N = AnyNode> {
    pub span: Span,
    /// `a`, none for the hole, and `...b` of `[a, , ...b]`.
    pub elems: Vec<Option<ExprOrSpread<N>>>,
}

/// `a` or `...b` of `f(a, ...b)`. ECMA-262, section 13.3.8.
#[derive(Drop)]
pub struct ExprOrSpread<N = AnyNode> {
    /// Where `...` of `...a` stands, or none of `a`.
    pub spread: Option<Span>,
    /// `a` of `...a`.
    pub expr: ExprBox<N>,
}

/// `{ a, b: c, ...d }`. ECMA-262, section 13.2.5.
#[derive(Drop)]
pub struct ObjectLit<N = AnyNode> {
    pub span: Span,
    /// `a`, `b: c` and `...d` of `{ a, b: c, ...d }`.
    pub props: Vec<PropOrSpread<N>>,
}

/// `a: b` or `...c` of `{ a: b, ...c }`. ECMA-262, section 13.2.5.
#[derive(Drop)]
pub enum PropOrSpread<N = AnyNode> {
    /// `...a` of `{ ...a }`
    Spread(SpreadElement<N>),
    /// `a: b` of `{ a: b }`
    Prop(Prop<N>),
}

/// `...a` of `{ ...a }`. ECMA-262, section 13.2.5.
#[derive(Drop)]
pub struct SpreadElement<N = AnyNode> {
    /// Where `...` of `...a` stands.
    pub dot3_token: Span,
    /// `a` of `{ ...a }`.
    pub expr: ExprBox<N>,
}

/// `a: b` of `{ a: b }`. ECMA-262, section 13.2.5.
#[derive(Drop)]
pub enum Prop<N = AnyNode> {
    /// `a` of `{ a }`
    Shorthand(Ident),
    /// `a: b` of `{ a: b }`
    KeyValue(KeyValueProp<N>),
    /// `a = 1` of `{ a = 1 }`
    Assign(AssignProp<N>),
    /// `get a() {}` of `{ get a() {} }`
    Getter(GetterProp<N>),
    /// `set a(b) {}` of `{ set a(b) {} }`
    Setter(SetterProp<N>),
    /// `a() {}` of `{ a() {} }`
    Method(MethodProp<N>),
}

/// `a: b` of `{ a: b }`. ECMA-262, section 13.2.5.
#[derive(Drop)]
pub struct KeyValueProp<N = AnyNode> {
    /// `a` of `{ a: b }`.
    pub key: PropName<N>,
    /// `b` of `{ a: b }`.
    pub value: ExprBox<N>,
}

/// `a = 1` of `{ a = 1 }`, valid only where a pattern follows from it. ECMA-262, section 13.2.5.
#[derive(Drop)]
pub struct AssignProp<N = AnyNode> {
    /// `a` of `{ a = 1 }`.
    pub key: Ident,
    /// `1` of `{ a = 1 }`.
    pub value: ExprBox<N>,
}

/// `{ get a() {} }`: the getter in an object. ECMA-262, section 13.2.5.
#[derive(Drop)]
pub struct GetterProp<N = AnyNode> {
    pub span: Span,
    /// `a` of `{ get a() {} }`.
    pub key: PropNameBox<N>,
    /// TypeScript: `: T` of `{ get a(): T {} }`, or none of `{ get a() {} }`.
    pub type_ann: Option<TsTypeAnnBox<N>>,
    /// `{ b; }` of `{ get a() { b; } }`, or none where the body is missing.
    pub body: Option<BlockStmtBox<N>>,
}

/// `{ set a(b) {} }`: the setter in an object. ECMA-262, section 13.2.5.
#[derive(Drop)]
pub struct SetterProp<N = AnyNode> {
    pub span: Span,
    /// `a` of `{ set a(b) {} }`.
    pub key: PropNameBox<N>,
    /// TypeScript: `this: T` of `{ set a(this: T, b) {} }`, or none of `{ set a(b) {} }`.
    pub this_param: Option<PatBox<N>>,
    /// `b` of `{ set a(b) {} }`.
    pub param: PatBox<N>,
    /// `{ c; }` of `{ set a(b) { c; } }`, or none where the body is missing.
    pub body: Option<BlockStmtBox<N>>,
}

/// `{ a() {} }`: the method in an object. ECMA-262, section 13.2.5.
#[derive(Drop)]
pub struct MethodProp<N = AnyNode> {
    /// `a` of `{ a() {} }`.
    pub key: PropName<N>,
    /// `() {}` of `{ a() {} }`, all but the name.
    pub function: FunctionBox<N>,
}

/// `a` of `{ a: b }`. ECMA-262, section 13.2.5.
#[derive(Drop)]
pub enum PropName<N = AnyNode> {
    /// `a` of `{ a: b }`
    Ident(IdentName),
    /// `"a"` of `{ "a": b }`
    Str(Box<Str>),
    /// `1` of `{ 1: a }`
    Num(Box<Number>),
    /// `1n` of `{ 1n: a }`
    BigInt(Box<BigInt>),
    /// `[a]` of `{ [a]: b }`
    Computed(ComputedPropName<N>),
}

/// `[a]` of `{ [a]: b }`. ECMA-262, section 13.2.5.
#[derive(Drop)]
pub struct ComputedPropName<N = AnyNode> {
    pub span: Span,
    /// `a` of `{ [a]: b }`.
    pub expr: ExprBox<N>,
}

/// `(function f() {})`: the function in an expression. ECMA-262, section 15.2.
#[derive(Drop)]
pub struct FnExpr<N = AnyNode> {
    /// `f` of `(function f() {})`, or none of `(function () {})`.
    pub ident: Option<Ident>,
    /// `() {}` of `(function f() {})`, all but the name.
    pub function: FunctionBox<N>,
}

/// `(class A {})`: the class in an expression. ECMA-262, section 15.7.
#[derive(Drop)]
pub struct ClassExpr<N = AnyNode> {
    /// `A` of `(class A {})`, or none of `(class {})`.
    pub ident: Option<Ident>,
    /// `class {}` of `(class A {})`, all but the name.
    pub class: ClassBox<N>,
}

/// `typeof a`. ECMA-262, section 13.5.
#[derive(Drop)]
pub struct UnaryExpr<N = AnyNode> {
    pub span: Span,
    /// `typeof` of `typeof a`.
    pub op: UnaryOp,
    /// `a` of `typeof a`.
    pub arg: ExprBox<N>,
}

/// `a++` or `++a`. ECMA-262, section 13.4.
#[derive(Drop)]
pub struct UpdateExpr<N = AnyNode> {
    pub span: Span,
    /// `++` of `a++`.
    pub op: UpdateOp,
    /// Whether the operator stands first, `++a`.
    pub prefix: bool,
    /// `a` of `a++`.
    pub arg: ExprBox<N>,
}

/// `a + b`. ECMA-262, sections 13.6 to 13.13.
#[derive(Drop)]
pub struct BinExpr<N = AnyNode> {
    pub span: Span,
    /// `+` of `a + b`.
    pub op: BinaryOp,
    /// `a` of `a + b`.
    pub left: ExprBox<N>,
    /// `b` of `a + b`.
    pub right: ExprBox<N>,
}

/// `a = b` or `a += b`. ECMA-262, section 13.15.
#[derive(Drop)]
pub struct AssignExpr<N = AnyNode> {
    pub span: Span,
    /// `+=` of `a += b`.
    pub op: AssignOp,
    /// `a` of `a = b`.
    pub left: AssignTargetBox<N>,
    /// `b` of `a = b`.
    pub right: ExprBox<N>,
}

/// `a.b` or `a[b]`. ECMA-262, section 13.3.2.
#[derive(Drop)]
pub struct MemberExpr<N = AnyNode> {
    pub span: Span,
    /// `a` of `a.b`.
    pub obj: ExprBox<N>,
    /// `b` of `a.b`, `[b]` of `a[b]`.
    pub prop: MemberProp<N>,
}

/// `b` of `a.b`. ECMA-262, section 13.3.2.
#[derive(Drop)]
pub enum MemberProp<N = AnyNode> {
    /// `b` of `a.b`
    Ident(IdentName),
    /// `#b` of `a.#b`
    PrivateName(PrivateName),
    /// `[b]` of `a[b]`
    Computed(ComputedPropName<N>),
}

/// `super.a` or `super[a]`. ECMA-262, section 13.3.7.
#[derive(Drop)]
pub struct SuperPropExpr<N = AnyNode> {
    pub span: Span,
    /// `super` of `super.a`.
    pub obj: Super,
    /// `a` of `super.a`, `[a]` of `super[a]`.
    pub prop: SuperProp<N>,
}

/// `a` of `super.a`. ECMA-262, section 13.3.7.
#[derive(Drop)]
pub enum SuperProp<N = AnyNode> {
    /// `a` of `super.a`
    Ident(IdentName),
    /// `[a]` of `super[a]`
    Computed(ComputedPropName<N>),
}

/// `super` of `super()`. ECMA-262, section 13.3.7.
#[derive(Drop)]
pub struct Super {
    pub span: Span,
}

/// `import` of `import(a)`. ECMA-262, section 13.3.10.
#[derive(Drop)]
pub struct Import {
    pub span: Span,
    /// `source` of `import.source(a)`, or evaluation of `import(a)`.
    pub phase: ImportPhase,
}

/// `a ? b : c`. ECMA-262, section 13.14.
#[derive(Drop)]
pub struct CondExpr<N = AnyNode> {
    pub span: Span,
    /// `a` of `a ? b : c`.
    pub test: ExprBox<N>,
    /// `b` of `a ? b : c`.
    pub cons: ExprBox<N>,
    /// `c` of `a ? b : c`.
    pub alt: ExprBox<N>,
}

/// `f(a, ...b)`. ECMA-262, section 13.3.6.
#[derive(Drop)]
pub struct CallExpr<N = AnyNode> {
    pub span: Span,
    /// `f` of `f(a)`.
    pub callee: Callee<N>,
    /// `a` and `...b` of `f(a, ...b)`.
    pub args: Vec<ExprOrSpread<N>>,
    /// TypeScript: `<T>` of `f<T>(a)`, or none of `f(a)`.
    pub type_args: Option<TsTypeParamInstantiationBox<N>>,
}

/// `f` of `f(a)`. ECMA-262, section 13.3.6.
#[derive(Drop)]
pub enum Callee<N = AnyNode> {
    /// `super` of `super(a)`
    Super(Super),
    /// `import` of `import(a)`
    Import(Import),
    /// `f` of `f(a)`
    Expr(ExprBox<N>),
}

/// `new A(b)`. ECMA-262, section 13.3.5.
#[derive(Drop)]
pub struct NewExpr<N = AnyNode> {
    pub span: Span,
    /// `A` of `new A(b)`.
    pub callee: ExprBox<N>,
    /// `b` and `...c` of `new A(b, ...c)`, or none of `new A`.
    pub args: Option<Vec<ExprOrSpread<N>>>,
    /// TypeScript: `<T>` of `new A<T>(b)`, or none of `new A(b)`.
    pub type_args: Option<TsTypeParamInstantiationBox<N>>,
}

/// `a?.b` or `a?.(b)`. ECMA-262, section 13.3.9.
#[derive(Drop)]
pub struct OptChainExpr<N = AnyNode> {
    pub span: Span,
    /// Whether `?.` stands at this link: true for `b`, false for `c` of `a?.b.c`.
    pub optional: bool,
    /// The access `a?.b` or the call `a?.(b)`, without the mark `?.`.
    pub base: OptChainBase<N>,
}

/// `a?.b` or `a?.(b)` without the mark `?.`. ECMA-262, section 13.3.9.
#[derive(Drop)]
pub enum OptChainBase<N = AnyNode> {
    /// `a?.b`
    Member(MemberExprBox<N>),
    /// `a?.(b)`
    Call(OptCallBox<N>),
}

/// `a?.(b)`: the call in an optional chain. ECMA-262, section 13.3.9.
#[derive(Drop)]
pub struct OptCall<N = AnyNode> {
    pub span: Span,
    /// `a` of `a?.(b)`.
    pub callee: ExprBox<N>,
    /// `b` and `...c` of `a?.(b, ...c)`.
    pub args: Vec<ExprOrSpread<N>>,
    /// TypeScript: `<T>` of `a?.<T>(b)`, or none of `a?.(b)`.
    pub type_args: Option<TsTypeParamInstantiationBox<N>>,
}

/// `a, b`. ECMA-262, section 13.16.
#[derive(Drop)]
pub struct SeqExpr<N = AnyNode> {
    pub span: Span,
    /// `a` and `b` of `a, b`.
    pub exprs: Vec<ExprBox<N>>,
}

/// `(a) => b`. ECMA-262, sections 15.3 and 15.9.
#[derive(Drop)]
pub struct ArrowExpr<N = AnyNode> {
    pub span: Span,
    /// `a` and `b` of `(a, b) => c`.
    pub params: Vec<PatBox<N>>,
    /// `b` of `(a) => b`, `{ b; }` of `(a) => { b; }`.
    pub body: BlockStmtOrExpr<N>,
    /// Whether it is asynchronous, `async (a) => b`.
    pub is_async: bool,
    /// Whether it is a generator; no source text spells this.
    pub is_generator: bool,
    /// TypeScript: `<T>` of `<T>(a) => b`, or none of `(a) => b`.
    pub type_params: Option<TsTypeParamDeclBox<N>>,
    /// TypeScript: `: T` of `(a): T => b`, or none of `(a) => b`.
    pub return_type: Option<TsTypeAnnBox<N>>,
}

/// `b` of `(a) => b`. ECMA-262, section 15.3.
#[derive(Drop)]
pub enum BlockStmtOrExpr<N = AnyNode> {
    /// `{ b; }` of `(a) => { b; }`
    BlockStmt(BlockStmtBox<N>),
    /// `b` of `(a) => b`
    Expr(ExprBox<N>),
}

/// `yield a` or `yield* a`. ECMA-262, section 15.5.
#[derive(Drop)]
pub struct YieldExpr<N = AnyNode> {
    pub span: Span,
    /// `a` of `yield a`, or none of `yield`.
    pub arg: Option<ExprBox<N>>,
    /// Whether `*` stands after `yield`, `yield* a`.
    pub delegate: bool,
}

/// `await a`. ECMA-262, section 15.8.
#[derive(Drop)]
pub struct AwaitExpr<N = AnyNode> {
    pub span: Span,
    /// `a` of `await a`.
    pub arg: ExprBox<N>,
}

/// `new.target` or `import.meta`. ECMA-262, section 13.3.12.
#[derive(Drop)]
pub struct MetaPropExpr {
    pub span: Span,
    /// Which of `new.target` and `import.meta` it is.
    pub kind: MetaPropKind,
}

/// `new.target` or `import.meta`. ECMA-262, section 13.3.12.
#[derive(Clone, Copy, Debug, PartialEq, Eq)]
pub enum MetaPropKind {
    /// `new.target`
    NewTarget,
    /// `import.meta`
    ImportMeta,
}

/// `(a)`. ECMA-262, section 13.2.9.
#[derive(Drop)]
pub struct ParenExpr<N = AnyNode> {
    pub span: Span,
    /// `a` of `(a)`.
    pub expr: ExprBox<N>,
}

/// `a${b}c` between back quotes. ECMA-262, section 13.2.8.
#[derive(Drop)]
pub struct Tpl<N = AnyNode> {
    pub span: Span,
    /// `b` of `a${b}c` between back quotes.
    pub exprs: Vec<ExprBox<N>>,
    /// `a` and `c` of `a${b}c` between back quotes, always one more than there are expressions.
    pub quasis: Vec<TplElement>,
}

/// `a` or `c` of `a${b}c` between back quotes. ECMA-262, section 12.9.6.
#[derive(Drop)]
pub struct TplElement {
    pub span: Span,
    /// The characters as spelled, without back quotes.
    pub raw: String,
}

/// `f` and a template right after it. ECMA-262, section 13.3.11.
#[derive(Drop)]
pub struct TaggedTpl<N = AnyNode> {
    pub span: Span,
    /// `f` where a template stands right after it.
    pub tag: ExprBox<N>,
    /// TypeScript: `<T>` of `f<T>` where a template follows, or none of `f` alone.
    pub type_params: Option<TsTypeParamInstantiationBox<N>>,
    /// The template that stands after the tag, `a${b}c` between back quotes.
    pub tpl: TplBox<N>,
}
