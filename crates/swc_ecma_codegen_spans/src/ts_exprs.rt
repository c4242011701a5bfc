//! Where expressions of TypeScript stand.

use crate::spanned::Spanned;
use swc_ecma_codegen_common::Span;
use swc_ecma_codegen_tree::{
    TsAsExpr, TsConstAssertion, TsInstantiation, TsNonNullExpr, TsSatisfiesExpr, TsTypeAssertion,
};

impl<N> Spanned for TsAsExpr<N> {
    ghost place = { λ n. n.span };

    fn span(&self) -> Span {
        self.span
    }
}

impl<N> Spanned for TsSatisfiesExpr<N> {
    ghost place = { λ n. n.span };

    fn span(&self) -> Span {
        self.span
    }
}

impl<N> Spanned for TsNonNullExpr<N> {
    ghost place = { λ n. n.span };

    fn span(&self) -> Span {
        self.span
    }
}

impl<N> Spanned for TsTypeAssertion<N> {
    ghost place = { λ n. n.span };

    fn span(&self) -> Span {
        self.span
    }
}

impl<N> Spanned for TsConstAssertion<N> {
    ghost place = { λ n. n.span };

    fn span(&self) -> Span {
        self.span
    }
}

impl<N> Spanned for TsInstantiation<N> {
    ghost place = { λ n. n.span };

    fn span(&self) -> Span {
        self.span
    }
}
