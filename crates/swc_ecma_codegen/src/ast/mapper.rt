//! What an emission asks of the source text that a tree was read from: the trait, a real text, and no text.

pub use swc_ecma_codegen_grammar::mapper::{NoSource, SourceMapper};
pub use swc_ecma_codegen_source::SourceText;
