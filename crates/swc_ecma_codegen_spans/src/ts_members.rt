//! Where members of object types stand.

ghost use Rattle.swc_ecma_codegen_spans.specs.Spans.{ts_type_element_span};

use crate::spanned::Spanned;
use swc_ecma_codegen_common::Span;
use swc_ecma_codegen_tree::{
    TsCallSignatureDecl, TsConstructSignatureDecl, TsGetterSignature, TsIndexSignature,
    TsInterfaceBody, TsMethodSignature, TsPropertySignature, TsSetterSignature, TsTypeElement,
};

impl<N> Spanned for TsTypeElement<N> {
    ghost place = { ts_type_element_span };

    #[tactic(auto, unfolding(crate::specs::Spans::ts_type_element_span))]
    fn span(&self) -> Span {
        match self {
            TsTypeElement::TsCallSignatureDecl(node) => node.span(),
            TsTypeElement::TsConstructSignatureDecl(node) => node.span(),
            TsTypeElement::TsPropertySignature(node) => node.span(),
            TsTypeElement::TsGetterSignature(node) => node.span(),
            TsTypeElement::TsSetterSignature(node) => node.span(),
            TsTypeElement::TsMethodSignature(node) => node.span(),
            TsTypeElement::TsIndexSignature(node) => node.span(),
        }
    }
}

impl<N> Spanned for TsCallSignatureDecl<N> {
    ghost place = { λ n. n.span };

    fn span(&self) -> Span {
        self.span
    }
}

impl<N> Spanned for TsConstructSignatureDecl<N> {
    ghost place = { λ n. n.span };

    fn span(&self) -> Span {
        self.span
    }
}

impl<N> Spanned for TsPropertySignature<N> {
    ghost place = { λ n. n.span };

    fn span(&self) -> Span {
        self.span
    }
}

impl<N> Spanned for TsGetterSignature<N> {
    ghost place = { λ n. n.span };

    fn span(&self) -> Span {
        self.span
    }
}

impl<N> Spanned for TsSetterSignature<N> {
    ghost place = { λ n. n.span };

    fn span(&self) -> Span {
        self.span
    }
}

impl<N> Spanned for TsMethodSignature<N> {
    ghost place = { λ n. n.span };

    fn span(&self) -> Span {
        self.span
    }
}

impl<N> Spanned for TsIndexSignature<N> {
    ghost place = { λ n. n.span };

    fn span(&self) -> Span {
        self.span
    }
}

impl<N> Spanned for TsInterfaceBody<N> {
    ghost place = { λ n. n.span };

    fn span(&self) -> Span {
        self.span
    }
}
