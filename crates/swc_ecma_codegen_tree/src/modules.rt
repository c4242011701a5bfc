//! Imports and exports. ECMA-262, section 16.2.

use crate::exprs::{ClassExpr, FnExpr};
use crate::idents::Ident;
use crate::links::AnyNode;
use crate::lits::Str;
use crate::sorts::{DeclBox, ExprBox, ObjectLitBox};
use crate::ts_decls::TsInterfaceDecl;
use swc_ecma_codegen_common::Span;

/// `import a, { b } from "c";`. ECMA-262, section 16.2.2.
#[derive(Drop)]
pub struct ImportDecl<N = AnyNode> {
    pub span: Span,
    /// `a` and `b` of `import a, { b } from "c";`, empty of `import "c";`.
    pub specifiers: Vec<ImportSpecifier>,
    /// `"b"` of `import a from "b";`.
    pub src: Str,
    /// TypeScript: whether it imports types only, `import type { a } from "b";`.
    pub type_only: bool,
    /// `{ type: "json" }` of `import a from "b" with { type: "json" };`, or none without `with`.
    pub with: Option<ObjectLitBox<N>>,
    /// `defer` of `import defer * as a from "b";`, or evaluation where no such word stands.
    pub phase: ImportPhase,
}

/// `defer` of `import defer * as a from "b";`. A proposal, not in ECMA-262, 2024 edition.
#[derive(Clone, Copy, Debug, PartialEq, Eq)]
pub enum ImportPhase {
    /// `import a from "b";`, without a word for the phase.
    Evaluation,
    /// `source` of `import source a from "b";`
    Source,
    /// `defer` of `import defer * as a from "b";`
    Defer,
}

/// `a` or `b as c` of `import a, { b as c } from "d";`. ECMA-262, section 16.2.2.
#[derive(Drop)]
pub enum ImportSpecifier {
    /// `a as b` of `import { a as b } from "c";`
    Named(ImportNamedSpecifier),
    /// `a` of `import a from "b";`
    Default(ImportDefaultSpecifier),
    /// `* as a` of `import * as a from "b";`
    Namespace(ImportStarAsSpecifier),
}

/// `a as b` of `import { a as b } from "c";`. ECMA-262, section 16.2.2.
#[derive(Drop)]
pub struct ImportNamedSpecifier {
    pub span: Span,
    /// `b` of `import { a as b } from "c";`, `a` of `import { a } from "c";`.
    pub local: Ident,
    /// `a` of `import { a as b } from "c";`, or none of `import { a } from "c";`.
    pub imported: Option<ModuleExportName>,
    /// TypeScript: whether `type` stands first, `import { type a } from "b";`.
    pub is_type_only: bool,
}

/// `a` of `import a from "b";`. ECMA-262, section 16.2.2.
#[derive(Drop)]
pub struct ImportDefaultSpecifier {
    pub span: Span,
    /// `a` of `import a from "b";`.
    pub local: Ident,
}

/// `* as a` of `import * as a from "b";`. ECMA-262, section 16.2.2.
#[derive(Drop)]
pub struct ImportStarAsSpecifier {
    pub span: Span,
    /// `a` of `import * as a from "b";`.
    pub local: Ident,
}

/// `export const a = 1;`. ECMA-262, section 16.2.3.
#[derive(Drop)]
pub struct ExportDecl<N = AnyNode> {
    pub span: Span,
    /// `const a = 1;` of `export const a = 1;`.
    pub decl: DeclBox<N>,
}

/// `export { a, b as c };` or `export { a } from "b";`. ECMA-262, section 16.2.3.
#[derive(Drop)]
pub struct NamedExport<N = AnyNode> {
    pub span: Span,
    /// `a` and `b as c` of `export { a, b as c };`.
    pub specifiers: Vec<ExportSpecifier>,
    /// `"b"` of `export { a } from "b";`, or none of `export { a };`.
    pub src: Option<Str>,
    /// TypeScript: whether it exports types only, `export type { a };`.
    pub type_only: bool,
    /// `{ type: "json" }` of `export { a } from "b" with { type: "json" };`, or none without `with`.
    pub with: Option<ObjectLitBox<N>>,
}

/// `a` or `b as c` of `export { a, b as c };`. ECMA-262, section 16.2.3.
#[derive(Drop)]
pub enum ExportSpecifier {
    /// `* as a` of `export * as a from "b";`
    Namespace(ExportNamespaceSpecifier),
    /// `a` of `export a from "b";`
    Default(ExportDefaultSpecifier),
    /// `a as b` of `export { a as b };`
    Named(ExportNamedSpecifier),
}

/// `* as a` of `export * as a from "b";`. ECMA-262, section 16.2.3.
#[derive(Drop)]
pub struct ExportNamespaceSpecifier {
    pub span: Span,
    /// `a` of `export * as a from "b";`.
    pub name: ModuleExportName,
}

/// `a` of `export a from "b";`. A proposal, not in ECMA-262, 2024 edition.
#[derive(Drop)]
pub struct ExportDefaultSpecifier {
    pub span: Span,
    /// `a` of `export a from "b";`.
    pub exported: Ident,
}

/// `a as b` of `export { a as b };`. ECMA-262, section 16.2.3.
#[derive(Drop)]
pub struct ExportNamedSpecifier {
    pub span: Span,
    /// `a` of `export { a as b };`.
    pub orig: ModuleExportName,
    /// `b` of `export { a as b };`, or none of `export { a };`.
    pub exported: Option<ModuleExportName>,
    /// TypeScript: whether `type` stands first, `export { type a };`.
    pub is_type_only: bool,
}

/// `a` or `"b c"` of `export { a as "b c" };`. ECMA-262, section 16.2.
#[derive(Drop)]
pub enum ModuleExportName {
    /// `a` of `export { a as "b c" };`
    Ident(Ident),
    /// `"b c"` of `export { a as "b c" };`
    Str(Str),
}

/// `export default class A {}`. ECMA-262, section 16.2.3.
#[derive(Drop)]
pub struct ExportDefaultDecl<N = AnyNode> {
    pub span: Span,
    /// `class A {}` of `export default class A {}`.
    pub decl: DefaultDecl<N>,
}

/// `class {}` of `export default class {}`. ECMA-262, section 16.2.3.
#[derive(Drop)]
pub enum DefaultDecl<N = AnyNode> {
    /// `class A {}` of `export default class A {}`
    Class(ClassExpr<N>),
    /// `function f() {}` of `export default function f() {}`
    Fn(FnExpr<N>),
    /// TypeScript: `interface A {}` of `export default interface A {}`
    TsInterfaceDecl(TsInterfaceDecl<N>),
}

/// `export default a + b;`. ECMA-262, section 16.2.3.
#[derive(Drop)]
pub struct ExportDefaultExpr<N = AnyNode> {
    pub span: Span,
    /// `a + b` of `export default a + b;`.
    pub expr: ExprBox<N>,
}

/// `export * from "a";`. ECMA-262, section 16.2.3.
#[derive(Drop)]
pub struct ExportAll<N = AnyNode> {
    pub span: Span,
    /// `"a"` of `export * from "a";`.
    pub src: Str,
    /// TypeScript: whether it exports types only, `export type * from "a";`.
    pub type_only: bool,
    /// `{ type: "json" }` of `export * from "a" with { type: "json" };`, or none without `with`.
    pub with: Option<ObjectLitBox<N>>,
}
