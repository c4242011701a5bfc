//! Where literals stand.

ghost use Rattle.swc_ecma_codegen_spans.specs.Spans.{lit_span};

use crate::spanned::Spanned;
use swc_ecma_codegen_common::Span;
use swc_ecma_codegen_tree::{BigInt, Bool, JSXText, Lit, Null, Number, Regex, Str};

impl Spanned for Lit {
    ghost place = { lit_span };

    #[tactic(auto, unfolding(crate::specs::Spans::lit_span))]
    fn span(&self) -> Span {
        match self {
            Lit::Str(node) => node.span(),
            Lit::Bool(node) => node.span(),
            Lit::Null(node) => node.span(),
            Lit::Num(node) => node.span(),
            Lit::BigInt(node) => node.span(),
            Lit::Regex(node) => node.span(),
            Lit::JSXText(node) => node.span(),
        }
    }
}

impl Spanned for Str {
    ghost place = { λ n. n.span };

    fn span(&self) -> Span {
        self.span
    }
}

impl Spanned for Bool {
    ghost place = { λ n. n.span };

    fn span(&self) -> Span {
        self.span
    }
}

impl Spanned for Null {
    ghost place = { λ n. n.span };

    fn span(&self) -> Span {
        self.span
    }
}

impl Spanned for Number {
    ghost place = { λ n. n.span };

    fn span(&self) -> Span {
        self.span
    }
}

impl Spanned for BigInt {
    ghost place = { λ n. n.span };

    fn span(&self) -> Span {
        self.span
    }
}

impl Spanned for Regex {
    ghost place = { λ n. n.span };

    fn span(&self) -> Span {
        self.span
    }
}

impl Spanned for JSXText {
    ghost place = { λ n. n.span };

    fn span(&self) -> Span {
        self.span
    }
}
