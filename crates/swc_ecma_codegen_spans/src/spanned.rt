//! Where nodes stand.

ghost use Rattle.std.specs.Prelude.{◌≡◌};
ghost use Rattle.swc_ecma_codegen_common.specs.declared.positions.Span.{Span as Place};
ghost use Rattle.swc_ecma_codegen_spans.specs.Spans.{option_span};

use swc_ecma_codegen_common::{BytePos, DUMMY_SP, Span};

/// What stands somewhere in a source text. An enum stands where its value does; a node without a
/// span of its own from the start of its first part to the end of its last.
pub trait Spanned {
    ghost place: { Self → Place };

    /// Where it stands.
    fn span(&self) -> Span
        ensures { result ≡ place self.now };

    /// Where it begins, in bytes: `lo` of its span.
    final fn span_lo(&self) -> BytePos
        ensures { result ≡ (place self.now).lo }
    {
        self.span().lo
    }

    /// Where it ends, in bytes: `hi` of its span, which is behind its last byte.
    final fn span_hi(&self) -> BytePos
        ensures { result ≡ (place self.now).hi }
    {
        self.span().hi
    }

    /// Where its comments stand: before its start, and after its end.
    final fn comment_range(&self) -> Span
        ensures { result ≡ place self.now }
    {
        self.span()
    }
}

impl Spanned for Span {
    ghost place = { λ n. n };

    fn span(&self) -> Span {
        *self
    }
}

impl<T: Spanned> Spanned for &T {
    ghost place = { λ n. T.place n.now };

    fn span(&self) -> Span {
        (**self).span()
    }
}

impl<T: Spanned> Spanned for Box<T> {
    ghost place = { λ n. T.place n.value };

    fn span(&self) -> Span {
        (**self).span()
    }
}

impl<T: Spanned> Spanned for Option<T> {
    ghost place = { option_span T.place };

    #[tactic(auto, unfolding(crate::specs::Spans::option_span))]
    fn span(&self) -> Span {
        match self {
            Some(node) => node.span(),
            None => DUMMY_SP,
        }
    }
}
