//! Writers. The reference's `text_writer`.

pub use swc_ecma_codegen_text_writer::{
    JsWriter, OmitTrailingSemi, PositionsWriter, WriteJs, omit_trailing_semi,
};
pub use swc_ecma_codegen_tree::Str as Symbol;
