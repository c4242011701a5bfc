//! Declarations of TypeScript.

use crate::idents::Ident;
use crate::links::AnyNode;
use crate::lits::Str;
use crate::programs::ModuleItem;
use crate::sorts::{
    ExprBox, TsEntityNameBox, TsInterfaceBodyBox, TsNamespaceBodyBox, TsTypeBox,
    TsTypeParamDeclBox, TsTypeParamInstantiationBox,
};
use swc_ecma_codegen_common::Span;

/// `interface A<T> extends B<T> {c: D}`. TypeScript, Object Types.
#[derive(Drop)]
pub struct TsInterfaceDecl<N = AnyNode> {
    pub span: Span,
    /// `A` of `interface A {}`.
    pub id: Ident,
    /// Whether it stands after `declare`, `declare interface A {}`.
    pub declare: bool,
    /// `<T>` of `interface A<T> {}`; None where no type parameters are written.
    pub type_params: Option<TsTypeParamDeclBox<N>>,
    /// `B<T>` and `C` of `interface A<T> extends B<T>, C {}`, in order.
    pub extends: Vec<TsExprWithTypeArgs<N>>,
    /// `{b: C}` of `interface A {b: C}`.
    pub body: TsInterfaceBodyBox<N>,
}

/// `B<C>` of `interface A extends B<C> {}`. TypeScript, Object Types.
#[derive(Drop)]
pub struct TsExprWithTypeArgs<N = AnyNode> {
    pub span: Span,
    /// `B` of `interface A extends B<C> {}`.
    pub expr: ExprBox<N>,
    /// `<C>` of `interface A extends B<C> {}`; None where there are none.
    pub type_args: Option<TsTypeParamInstantiationBox<N>>,
}

/// `type A<T> = B<T>`. TypeScript, Everyday Types.
#[derive(Drop)]
pub struct TsTypeAliasDecl<N = AnyNode> {
    pub span: Span,
    /// Whether it stands after `declare`, `declare type A = B`.
    pub declare: bool,
    /// `A` of `type A<T> = B<T>`.
    pub id: Ident,
    /// `<T>` of `type A<T> = B<T>`; None where no type parameters are written.
    pub type_params: Option<TsTypeParamDeclBox<N>>,
    /// `B<T>` of `type A<T> = B<T>`.
    pub type_ann: TsTypeBox<N>,
}

/// `enum A {B, C = 1}`. TypeScript, Enums.
#[derive(Drop)]
pub struct TsEnumDecl<N = AnyNode> {
    pub span: Span,
    /// Whether it stands after `declare`, `declare enum A {}`.
    pub declare: bool,
    /// Whether it stands after `const`, `const enum A {}`.
    pub is_const: bool,
    /// `A` of `enum A {B, C = 1}`.
    pub id: Ident,
    /// `B` and `C = 1` of `enum A {B, C = 1}`, in order.
    pub members: Vec<TsEnumMember<N>>,
}

/// `B = 1` of `enum A {B = 1}`. TypeScript, Enums.
#[derive(Drop)]
pub struct TsEnumMember<N = AnyNode> {
    pub span: Span,
    /// `B` of `enum A {B = 1}`.
    pub id: TsEnumMemberId,
    /// `1` of `enum A {B = 1}`; None where no value is written, `enum A {B}`.
    pub init: Option<ExprBox<N>>,
}

/// `B` of `enum A {B}`, or `"b"` of `enum A {"b"}`. TypeScript, Enums.
#[derive(Drop)]
pub enum TsEnumMemberId {
    /// `B` of `enum A {B = 1}`.
    Ident(Ident),
    /// `"b"` of `enum A {"b" = 1}`.
    Str(Str),
}

/// `namespace a {}` or `declare module "a" {}`. TypeScript, Namespaces.
#[derive(Drop)]
pub struct TsModuleDecl<N = AnyNode> {
    pub span: Span,
    /// Whether it stands after `declare`, `declare namespace a {}`.
    pub declare: bool,
    /// Whether it is the global one, `declare global {}`.
    pub global: bool,
    /// `a` of `namespace a {}`.
    pub id: TsModuleName,
    /// `{b}` of `namespace a {b}`; None where there is no body, `declare module "a";`
    pub body: Option<TsNamespaceBodyBox<N>>,
}

/// `a` of `namespace a {}`, or `"a"` of `declare module "a" {}`. TypeScript, Namespaces.
#[derive(Drop)]
pub enum TsModuleName {
    /// `a` of `namespace a {}`.
    Ident(Ident),
    /// `"a"` of `declare module "a" {}`.
    Str(Str),
}

/// `{}` of `namespace a {}`, or `b {}` of `namespace a.b {}`. TypeScript, Namespaces.
#[derive(Drop)]
pub enum TsNamespaceBody<N = AnyNode> {
    /// `{}` of `namespace a {}`.
    TsModuleBlock(TsModuleBlock<N>),
    /// `b {}` of `namespace a.b {}`.
    TsNamespaceDecl(TsNamespaceDecl<N>),
}

/// `{b}` of `namespace a {b}`. TypeScript, Namespaces.
#[derive(Drop)]
pub struct TsModuleBlock<N = AnyNode> {
    pub span: Span,
    /// `b;` and `c;` of `namespace a {b; c;}`, in order.
    pub body: Vec<ModuleItem<N>>,
}

/// `b {}` of `namespace a.b {}`. TypeScript, Namespaces.
#[derive(Drop)]
pub struct TsNamespaceDecl<N = AnyNode> {
    pub span: Span,
    /// Whether it stands after `declare`; it doesn't as `b` of `namespace a.b {}`.
    pub declare: bool,
    /// `b` of `namespace a.b {}`.
    pub id: Ident,
    /// `{}` of `namespace a.b {}`, or `c {}` of `namespace a.b.c {}`.
    pub body: TsNamespaceBodyBox<N>,
}

/// `import a = require("b")` or `import a = b.c`. TypeScript, Modules.
#[derive(Drop)]
pub struct TsImportEqualsDecl<N = AnyNode> {
    pub span: Span,
    /// Whether it stands after `export`, `export import a = b.c`.
    pub is_export: bool,
    /// Whether `type` follows `import`, `import type a = require("b")`.
    pub is_type_only: bool,
    /// `a` of `import a = b.c`.
    pub id: Ident,
    /// `b.c` of `import a = b.c`.
    pub module_ref: TsModuleRef<N>,
}

/// `b.c` of `import a = b.c`, or `require("b")` in its place. TypeScript, Modules.
#[derive(Drop)]
pub enum TsModuleRef<N = AnyNode> {
    /// `b.c` of `import a = b.c`.
    TsEntityName(TsEntityNameBox<N>),
    /// `require("b")` of `import a = require("b")`.
    TsExternalModuleRef(TsExternalModuleRef),
}

/// `require("b")` of `import a = require("b")`. TypeScript, Modules.
#[derive(Drop)]
pub struct TsExternalModuleRef {
    pub span: Span,
    /// `"b"` of `require("b")`.
    pub expr: Str,
}

/// `export = a`. TypeScript, Modules.
#[derive(Drop)]
pub struct TsExportAssignment<N = AnyNode> {
    pub span: Span,
    /// `a` of `export = a`.
    pub expr: ExprBox<N>,
}

/// `export as namespace a`. TypeScript, Modules.
#[derive(Drop)]
pub struct TsNamespaceExportDecl {
    pub span: Span,
    /// `a` of `export as namespace a`.
    pub id: Ident,
}
