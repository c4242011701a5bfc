//! Where names stand.

ghost use Rattle.swc_ecma_codegen_spans.specs.Spans.{binding_ident_span};

use crate::spanned::Spanned;
use swc_ecma_codegen_common::Span;
use swc_ecma_codegen_tree::{BindingIdent, Ident, IdentName, Invalid, PrivateName};

impl Spanned for Ident {
    ghost place = { λ n. n.span };

    fn span(&self) -> Span {
        self.span
    }
}

impl Spanned for IdentName {
    ghost place = { λ n. n.span };

    fn span(&self) -> Span {
        self.span
    }
}

impl Spanned for PrivateName {
    ghost place = { λ n. n.span };

    fn span(&self) -> Span {
        self.span
    }
}

impl<N> Spanned for BindingIdent<N> {
    ghost place = { binding_ident_span };

    #[tactic(auto, unfolding(crate::specs::Spans::binding_ident_span))]
    fn span(&self) -> Span {
        self.id.span()
    }
}

impl Spanned for Invalid {
    ghost place = { λ n. n.span };

    fn span(&self) -> Span {
        self.span
    }
}
