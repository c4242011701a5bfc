//! What an emission asks of the source text that a tree was read from.

ghost use Rattle.std.specs.Prelude.{◌≡◌, option_map, IfOk, IfErr};
ghost use Rattle.std.specs.String.{string_bytes};
ghost use Rattle.swc_ecma_codegen_grammar.specs.SourceLines.{Lines, no_lines};
ghost use Rattle.swc_ecma_codegen_common.specs.declared.errors.Error.TheVariants.{OutOfMemory};

use std::alloc::Global;
use swc_ecma_codegen_common::{BytePos, Error, Span};

/// A source text. Each answer depends on the mapper's value and the arguments alone. `SourceMapper`
/// of `swc_common`.
pub trait SourceMapper {
    ghost lines: { Self → Lines };

    /// Whether the two positions stand on one line.
    fn is_on_same_line(&self, lo: BytePos, hi: BytePos) -> bool
        ensures { result ≡ (lines self.now).same_line lo hi };

    /// The source text of a span, where it is known. `Error::OutOfMemory`: a growth was refused.
    fn span_to_snippet(
        &self,
        alloc: Global,
        span: Span,
    ) -> std::result::Result<Option<String>, Error>
        ensures answer { IfOk result (λ text. option_map string_bytes text
            ≡ (lines self.now).snippet span) }
        ensures refused { IfErr result (λ error. error ≡ OutOfMemory) };
}

/// No source text, as an empty `SourceMap` of swc: no two positions stand on one line, and no span
/// has a text.
#[derive(Debug, Clone, Copy)]
pub struct NoSource;

impl SourceMapper for NoSource {
    ghost lines = { λ _. no_lines };

    fn is_on_same_line(&self, _lo: BytePos, _hi: BytePos) -> bool {
        false
    }

    fn span_to_snippet(
        &self,
        _alloc: Global,
        _span: Span,
    ) -> std::result::Result<Option<String>, Error>
        ensures { result ≡ Ok None }
    {
        Ok(None)
    }
}
