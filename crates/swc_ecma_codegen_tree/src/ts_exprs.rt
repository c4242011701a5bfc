//! Expressions of TypeScript.

use crate::links::AnyNode;
use crate::sorts::{ExprBox, TsTypeBox, TsTypeParamInstantiationBox};
use swc_ecma_codegen_common::Span;

/// `a as B`. TypeScript, Everyday Types.
#[derive(Drop)]
pub struct TsAsExpr<N = AnyNode> {
    pub span: Span,
    /// `a` of `a as B`.
    pub expr: ExprBox<N>,
    /// `B` of `a as B`.
    pub type_ann: TsTypeBox<N>,
}

/// `a satisfies B`. TypeScript, Everyday Types.
#[derive(Drop)]
pub struct TsSatisfiesExpr<N = AnyNode> {
    pub span: Span,
    /// `a` of `a satisfies B`.
    pub expr: ExprBox<N>,
    /// `B` of `a satisfies B`.
    pub type_ann: TsTypeBox<N>,
}

/// `a!`. TypeScript, Everyday Types.
#[derive(Drop)]
pub struct TsNonNullExpr<N = AnyNode> {
    pub span: Span,
    /// `a` of `a!`.
    pub expr: ExprBox<N>,
}

/// `<B>a`. TypeScript, Everyday Types.
#[derive(Drop)]
pub struct TsTypeAssertion<N = AnyNode> {
    pub span: Span,
    /// `a` of `<B>a`.
    pub expr: ExprBox<N>,
    /// `B` of `<B>a`.
    pub type_ann: TsTypeBox<N>,
}

/// `a as const`. TypeScript, Everyday Types.
#[derive(Drop)]
pub struct TsConstAssertion<N = AnyNode> {
    pub span: Span,
    /// `a` of `a as const`.
    pub expr: ExprBox<N>,
}

/// `a<B>` of `const c = a<B>`. TypeScript, Generics.
#[derive(Drop)]
pub struct TsInstantiation<N = AnyNode> {
    pub span: Span,
    /// `a` of `a<B>`.
    pub expr: ExprBox<N>,
    /// `<B>` of `a<B>`.
    pub type_args: TsTypeParamInstantiationBox<N>,
}
