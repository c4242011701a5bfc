//! A source text of one answer: whether positions stand on one line, and what the text of a span
//! is. A map of a source text says by its own `lines` what it answers: here is one that does.

ghost use Rattle.std.specs.Prelude.{◌==◌, option_map, if◌then◌else◌};
ghost use Rattle.std.specs.Int.RustNames.{bit_and};
ghost use Rattle.std.specs.String.{string_bytes};
ghost use Rattle.swc_ecma_codegen_common.specs.declared.errors.Error.TheVariants.{OutOfMemory};

use std::alloc::Global;
use swc_ecma_codegen_common::{BytePos, Error, Span};
use swc_ecma_codegen_grammar::mapper::SourceMapper;

/// A source text that says of two positions what it says of all whose first is even, or odd, and
/// has one text for all spans.
#[derive(Drop)]
pub struct Source {
    pub even: bool,
    pub odd: bool,
    pub snippet: Option<String>,
}

impl SourceMapper for Source {
    ghost lines = { λ source. record {
      same_line = λ lo hi. if bit_and lo.0 1 == 0 then source.even else source.odd;
      snippet = λ span. option_map string_bytes source.snippet;
    } };

    fn is_on_same_line(&self, lo: BytePos, _hi: BytePos) -> bool {
        if lo.0 & 1 == 0 { self.even } else { self.odd }
    }

    fn span_to_snippet(
        &self,
        alloc: Global,
        _span: Span,
    ) -> std::result::Result<Option<String>, Error> {
        match &self.snippet {
            Some(text) => match String::from_str(alloc, text) {
                Ok(copy) => Ok(Some(copy)),
                Err(_) => Err(Error::OutOfMemory),
            },
            None => Ok(None),
        }
    }
}
