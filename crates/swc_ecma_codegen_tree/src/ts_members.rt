//! What object types and interfaces hold.

use crate::links::AnyNode;
use crate::sorts::{ExprBox, TsFnParamBox, TsTypeAnnBox, TsTypeParamDeclBox};
use swc_ecma_codegen_common::Span;

/// `a: B` or `c(): D` of `{a: B; c(): D}`. TypeScript, Object Types.
#[derive(Drop)]
pub enum TsTypeElement<N = AnyNode> {
    /// `(a: A): B` of `{(a: A): B}`.
    TsCallSignatureDecl(TsCallSignatureDecl<N>),
    /// `new (a: A): B` of `{new (a: A): B}`.
    TsConstructSignatureDecl(TsConstructSignatureDecl<N>),
    /// `a: B` of `{a: B}`.
    TsPropertySignature(TsPropertySignature<N>),
    /// `get a(): B` of `{get a(): B}`.
    TsGetterSignature(TsGetterSignature<N>),
    /// `set a(b: C)` of `{set a(b: C)}`.
    TsSetterSignature(TsSetterSignature<N>),
    /// `a(b: C): D` of `{a(b: C): D}`.
    TsMethodSignature(TsMethodSignature<N>),
    /// `[a: string]: B` of `{[a: string]: B}`.
    TsIndexSignature(TsIndexSignature<N>),
}

/// `<T>(a: T): B` of `{<T>(a: T): B}`. TypeScript, Functions.
#[derive(Drop)]
pub struct TsCallSignatureDecl<N = AnyNode> {
    pub span: Span,
    /// `a: T` of `{<T>(a: T): B}`, in order.
    pub params: Vec<TsFnParamBox<N>>,
    /// `: B` of `{<T>(a: T): B}`; None where no result type is written.
    pub type_ann: Option<TsTypeAnnBox<N>>,
    /// `<T>` of `{<T>(a: T): B}`; None where there are none.
    pub type_params: Option<TsTypeParamDeclBox<N>>,
}

/// `new <T>(a: T): B` of `{new <T>(a: T): B}`. TypeScript, Functions.
#[derive(Drop)]
pub struct TsConstructSignatureDecl<N = AnyNode> {
    pub span: Span,
    /// `a: T` of `{new <T>(a: T): B}`, in order.
    pub params: Vec<TsFnParamBox<N>>,
    /// `: B` of `{new (a: A): B}`; None where no type is written.
    pub type_ann: Option<TsTypeAnnBox<N>>,
    /// `<T>` of `{new <T>(a: T): B}`; None where there are none.
    pub type_params: Option<TsTypeParamDeclBox<N>>,
}

/// `readonly a?: B` of `{readonly a?: B}`. TypeScript, Object Types.
#[derive(Drop)]
pub struct TsPropertySignature<N = AnyNode> {
    pub span: Span,
    /// Whether it stands after `readonly`, `{readonly a: B}`.
    pub readonly: bool,
    /// `a` of `{a: B}`.
    pub key: ExprBox<N>,
    /// Whether the key is in brackets, `{[a]: B}`.
    pub computed: bool,
    /// Whether a `?` follows the key, `{a?: B}`.
    pub optional: bool,
    /// `: B` of `{a: B}`; None where no type is written, `{a}`.
    pub type_ann: Option<TsTypeAnnBox<N>>,
}

/// `get a(): B` of `{get a(): B}`. TypeScript, Object Types.
#[derive(Drop)]
pub struct TsGetterSignature<N = AnyNode> {
    pub span: Span,
    /// `a` of `get a(): B`.
    pub key: ExprBox<N>,
    /// Whether the key is in brackets, `get [a](): B`.
    pub computed: bool,
    /// `: B` of `get a(): B`; None where no type is written, `get a()`.
    pub type_ann: Option<TsTypeAnnBox<N>>,
}

/// `set a(b: C)` of `{set a(b: C)}`. TypeScript, Object Types.
#[derive(Drop)]
pub struct TsSetterSignature<N = AnyNode> {
    pub span: Span,
    /// `a` of `set a(b: C)`.
    pub key: ExprBox<N>,
    /// Whether the key is in brackets, `set [a](b: C)`.
    pub computed: bool,
    /// `b: C` of `set a(b: C)`.
    pub param: TsFnParamBox<N>,
}

/// `a?<T>(b: T): C` of `{a?<T>(b: T): C}`. TypeScript, Object Types.
#[derive(Drop)]
pub struct TsMethodSignature<N = AnyNode> {
    pub span: Span,
    /// `a` of `{a(b: C): D}`.
    pub key: ExprBox<N>,
    /// Whether the key is in brackets, `{[a](): B}`.
    pub computed: bool,
    /// Whether a `?` follows the key, `{a?(): B}`.
    pub optional: bool,
    /// `b: C` of `{a(b: C): D}`, in order.
    pub params: Vec<TsFnParamBox<N>>,
    /// `: D` of `{a(b: C): D}`; None where no result type is written.
    pub type_ann: Option<TsTypeAnnBox<N>>,
    /// `<T>` of `{a<T>(b: T): C}`; None where no type parameters are written.
    pub type_params: Option<TsTypeParamDeclBox<N>>,
}

/// `[a: string]: B` of `{[a: string]: B}`. TypeScript, Object Types.
#[derive(Drop)]
pub struct TsIndexSignature<N = AnyNode> {
    pub span: Span,
    /// `a: string` of `{[a: string]: B}`.
    pub params: Vec<TsFnParamBox<N>>,
    /// `: B` of `{[a: string]: B}`; None where no type is written.
    pub type_ann: Option<TsTypeAnnBox<N>>,
    /// Whether it stands after `readonly`, `{readonly [a: string]: B}`.
    pub readonly: bool,
    /// Whether it stands after `static`, `class A {static [a: string]: B}`.
    pub is_static: bool,
}

/// `{b: C}` of `interface A {b: C}`. TypeScript, Object Types.
#[derive(Drop)]
pub struct TsInterfaceBody<N = AnyNode> {
    pub span: Span,
    /// `b: C` and `d(): E` of `interface A {b: C; d(): E}`, in order.
    pub body: Vec<TsTypeElement<N>>,
}
