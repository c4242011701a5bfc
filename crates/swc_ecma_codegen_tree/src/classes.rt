//! Classes. ECMA-262, section 15.7.

use crate::decls::{Decorator, Param};
use crate::idents::{BindingIdent, PrivateName};
use crate::links::AnyNode;
use crate::pats::AssignPat;
use crate::sorts::{
    BlockStmtBox, ClassMemberBox, ExprBox, FunctionBox, PropNameBox, TsTypeAnnBox,
    TsTypeParamDeclBox, TsTypeParamInstantiationBox,
};
use crate::stmts::EmptyStmt;
use crate::ts_decls::TsExprWithTypeArgs;
use crate::ts_members::TsIndexSignature;
use swc_ecma_codegen_common::Span;

/// `class extends B { a; }`: a class without its name. ECMA-262, section 15.7.
#[derive(Drop)]
pub struct Class<N = AnyNode> {
    pub span: Span,
    /// `@a` of `@a class B {}`. A proposal.
    pub decorators: Vec<Decorator<N>>,
    /// `a;` and `b() {}` of `class A { a; b() {} }`.
    pub body: Vec<ClassMemberBox<N>>,
    /// `B` of `class A extends B {}`, or none of `class A {}`.
    pub super_class: Option<ExprBox<N>>,
    /// TypeScript: whether `abstract` stands first, `abstract class A {}`.
    pub is_abstract: bool,
    /// TypeScript: `<T>` of `class A<T> {}`, or none of `class A {}`.
    pub type_params: Option<TsTypeParamDeclBox<N>>,
    /// TypeScript: `<T>` of `class A extends B<T> {}`, or none of `class A extends B {}`.
    pub super_type_params: Option<TsTypeParamInstantiationBox<N>>,
    /// TypeScript: `B` and `C` of `class A implements B, C {}`.
    pub implements: Vec<TsExprWithTypeArgs<N>>,
}

/// `a;` or `b() {}` of `class A { a; b() {} }`. ECMA-262, section 15.7.
#[derive(Drop)]
pub enum ClassMember<N = AnyNode> {
    /// `constructor() {}` of `class A { constructor() {} }`
    Constructor(Constructor<N>),
    /// `a() {}` of `class A { a() {} }`
    Method(ClassMethod<N>),
    /// `#a() {}` of `class A { #a() {} }`
    PrivateMethod(PrivateMethod<N>),
    /// `a = 1;` of `class A { a = 1; }`
    ClassProp(ClassProp<N>),
    /// `#a = 1;` of `class A { #a = 1; }`
    PrivateProp(PrivateProp<N>),
    /// TypeScript: `[a: string]: T;` of `class A { [a: string]: T; }`
    TsIndexSignature(TsIndexSignature<N>),
    /// `;` of `class A { ; }`
    Empty(EmptyStmt),
    /// `static { a; }` of `class A { static { a; } }`
    StaticBlock(StaticBlock<N>),
    /// `accessor a;` of `class A { accessor a; }`
    AutoAccessor(AutoAccessor<N>),
}

/// `#a() {}` of `class A { #a() {} }`. ECMA-262, section 15.4.
#[derive(Drop)]
pub struct PrivateMethod<N = AnyNode> {
    pub span: Span,
    /// `#a` of `class A { #a() {} }`.
    pub key: PrivateName,
    /// `() {}` of `class A { #a() {} }`, all but the name.
    pub function: FunctionBox<N>,
    /// Whether it is a method, a getter or a setter, `get` of `class A { get #a() {} }`.
    pub kind: MethodKind,
    /// Whether it belongs to the class itself, `class A { static #a() {} }`.
    pub is_static: bool,
    /// TypeScript: `private` of `private #a() {}`, which isn't valid, or none of `#a() {}`.
    pub accessibility: Option<Accessibility>,
    /// TypeScript: whether `abstract` stands before it, `abstract #a();`.
    pub is_abstract: bool,
    /// TypeScript: whether `?` stands after the name, `#a?() {}`.
    pub is_optional: bool,
    /// TypeScript: whether `override` stands before it, `override #a() {}`.
    pub is_override: bool,
}

/// `constructor(a) { b; }` of `class A { constructor(a) { b; } }`. ECMA-262, section 15.7.
#[derive(Drop)]
pub struct Constructor<N = AnyNode> {
    pub span: Span,
    /// TypeScript: `private` of `private constructor() {}`, or none of `constructor() {}`.
    pub accessibility: Option<Accessibility>,
    /// `a` and `b` of `constructor(a, b) {}`.
    pub params: Vec<ParamOrTsParamProp<N>>,
    /// `{ a; }` of `constructor() { a; }`, or none of TypeScript's `constructor();`.
    pub body: Option<BlockStmtBox<N>>,
}

/// `a` of `constructor(a) {}`: a parameter of a constructor. ECMA-262, section 15.1.
#[derive(Drop)]
pub enum ParamOrTsParamProp<N = AnyNode> {
    /// TypeScript: `private a` of `constructor(private a) {}`
    TsParamProp(TsParamProp<N>),
    /// `a` of `constructor(a) {}`
    Param(Param<N>),
}

/// TypeScript: `private a` of `constructor(private a) {}`.
#[derive(Drop)]
pub struct TsParamProp<N = AnyNode> {
    pub span: Span,
    /// `@a` of `constructor(@a private b) {}`.
    pub decorators: Vec<Decorator<N>>,
    /// `private` of `constructor(private a) {}`, or none of `constructor(readonly a) {}`.
    pub accessibility: Option<Accessibility>,
    /// Whether `override` stands before it, `constructor(override a) {}`.
    pub is_override: bool,
    /// Whether `readonly` stands before it, `constructor(readonly a) {}`.
    pub readonly: bool,
    /// `a = 1` of `constructor(private a = 1) {}`.
    pub param: TsParamPropParam<N>,
}

/// TypeScript: `a` or `b = 1` of `constructor(private a, private b = 1) {}`.
#[derive(Drop)]
pub enum TsParamPropParam<N = AnyNode> {
    /// `a` of `constructor(private a) {}`
    Ident(BindingIdent<N>),
    /// `a = 1` of `constructor(private a = 1) {}`
    Assign(AssignPat<N>),
}

/// `a() {}` of `class A { a() {} }`. ECMA-262, section 15.4.
#[derive(Drop)]
pub struct ClassMethod<N = AnyNode> {
    pub span: Span,
    /// `a` of `class A { a() {} }`.
    pub key: PropNameBox<N>,
    /// `() {}` of `class A { a() {} }`, all but the name.
    pub function: FunctionBox<N>,
    /// Whether it is a method, a getter or a setter, `get` of `class A { get a() {} }`.
    pub kind: MethodKind,
    /// Whether it belongs to the class itself, `class A { static a() {} }`.
    pub is_static: bool,
    /// TypeScript: `private` of `class A { private a() {} }`, or none of `class A { a() {} }`.
    pub accessibility: Option<Accessibility>,
    /// TypeScript: whether `abstract` stands before it, `abstract a();`.
    pub is_abstract: bool,
    /// TypeScript: whether `?` stands after the name, `a?() {}`.
    pub is_optional: bool,
    /// TypeScript: whether `override` stands before it, `override a() {}`.
    pub is_override: bool,
}

/// `get` of `class A { get a() {} }`. ECMA-262, section 15.4.
#[derive(Clone, Copy, Debug, PartialEq, Eq)]
pub enum MethodKind {
    /// `a() {}` of `class A { a() {} }`
    Method,
    /// `get a() {}` of `class A { get a() {} }`
    Getter,
    /// `set a(b) {}` of `class A { set a(b) {} }`
    Setter,
}

/// TypeScript: `private` of `class A { private a; }`.
#[derive(Clone, Copy, Debug, PartialEq, Eq)]
pub enum Accessibility {
    /// `public` of `class A { public a; }`
    Public,
    /// `protected` of `class A { protected a; }`
    Protected,
    /// `private` of `class A { private a; }`
    Private,
}

/// `a = 1;` of `class A { a = 1; }`. ECMA-262, section 15.7.
#[derive(Drop)]
pub struct ClassProp<N = AnyNode> {
    pub span: Span,
    /// `a` of `class A { a = 1; }`.
    pub key: PropNameBox<N>,
    /// `1` of `class A { a = 1; }`, or none of `class A { a; }`.
    pub value: Option<ExprBox<N>>,
    /// TypeScript: `: T` of `class A { a: T; }`, or none of `class A { a; }`.
    pub type_ann: Option<TsTypeAnnBox<N>>,
    /// Whether it belongs to the class itself, `class A { static a; }`.
    pub is_static: bool,
    /// `@a` of `class A { @a b; }`. A proposal.
    pub decorators: Vec<Decorator<N>>,
    /// TypeScript: `private` of `class A { private a; }`, or none of `class A { a; }`.
    pub accessibility: Option<Accessibility>,
    /// TypeScript: whether `abstract` stands before it, `abstract a;`.
    pub is_abstract: bool,
    /// TypeScript: whether `?` stands after the name, `a?: T;`.
    pub is_optional: bool,
    /// TypeScript: whether `override` stands before it, `override a;`.
    pub is_override: bool,
    /// TypeScript: whether `readonly` stands before it, `readonly a;`.
    pub readonly: bool,
    /// TypeScript: whether `declare` stands before it, `declare a;`.
    pub declare: bool,
    /// TypeScript: whether `!` stands after the name, `a!: T;`.
    pub definite: bool,
}

/// `#a = 1;` of `class A { #a = 1; }`. ECMA-262, section 15.7.
#[derive(Drop)]
pub struct PrivateProp<N = AnyNode> {
    pub span: Span,
    /// `#a` of `class A { #a = 1; }`.
    pub key: PrivateName,
    /// `1` of `class A { #a = 1; }`, or none of `class A { #a; }`.
    pub value: Option<ExprBox<N>>,
    /// TypeScript: `: T` of `class A { #a: T; }`, or none of `class A { #a; }`.
    pub type_ann: Option<TsTypeAnnBox<N>>,
    /// Whether it belongs to the class itself, `class A { static #a; }`.
    pub is_static: bool,
    /// `@a` of `class A { @a #b; }`. A proposal.
    pub decorators: Vec<Decorator<N>>,
    /// TypeScript: `private` of `private #a;`, which isn't valid, or none of `#a;`.
    pub accessibility: Option<Accessibility>,
    /// TypeScript: whether `?` stands after the name, `#a?: T;`.
    pub is_optional: bool,
    /// TypeScript: whether `override` stands before it, `override #a;`.
    pub is_override: bool,
    /// TypeScript: whether `readonly` stands before it, `readonly #a;`.
    pub readonly: bool,
    /// TypeScript: whether `!` stands after the name, `#a!: T;`.
    pub definite: bool,
}

/// `accessor a = 1;` of `class A { accessor a = 1; }`. A proposal, not in ECMA-262, 2024 edition.
#[derive(Drop)]
pub struct AutoAccessor<N = AnyNode> {
    pub span: Span,
    /// `a` of `class A { accessor a = 1; }`.
    pub key: Key<N>,
    /// `1` of `class A { accessor a = 1; }`, or none of `class A { accessor a; }`.
    pub value: Option<ExprBox<N>>,
    /// TypeScript: `: T` of `accessor a: T;`, or none of `accessor a;`.
    pub type_ann: Option<TsTypeAnnBox<N>>,
    /// Whether it belongs to the class itself, `class A { static accessor a; }`.
    pub is_static: bool,
    /// `@a` of `class A { @a accessor b; }`. A proposal.
    pub decorators: Vec<Decorator<N>>,
    /// TypeScript: `private` of `private accessor a;`, or none of `accessor a;`.
    pub accessibility: Option<Accessibility>,
    /// TypeScript: whether `abstract` stands before it, `abstract accessor a;`.
    pub is_abstract: bool,
    /// TypeScript: whether `override` stands before it, `override accessor a;`.
    pub is_override: bool,
    /// TypeScript: whether `!` stands after the name, `accessor a!: T;`.
    pub definite: bool,
}

/// `a` of `class A { accessor a; }`. A proposal, not in ECMA-262, 2024 edition.
#[derive(Drop)]
pub enum Key<N = AnyNode> {
    /// `#a` of `class A { accessor #a; }`
    Private(PrivateName),
    /// `a` of `class A { accessor a; }`
    Public(PropNameBox<N>),
}

/// `static { a; }` of `class A { static { a; } }`. ECMA-262, section 15.7.
#[derive(Drop)]
pub struct StaticBlock<N = AnyNode> {
    pub span: Span,
    /// `{ a; }` of `class A { static { a; } }`.
    pub body: BlockStmtBox<N>,
}
