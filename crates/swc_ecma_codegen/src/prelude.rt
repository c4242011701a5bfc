//! What most callers name, for `use swc_ecma_codegen::prelude::*`: the calls that print, the emitter with its settings, what it writes to,
//! and what it asks of a source text and its comments. The types of nodes are in `ast`. No name of the standard library is among them.

pub use crate::ast::mapper::{NoSource, SourceMapper, SourceText};
pub use swc_ecma_codegen_common::{BytePos, DUMMY_SP, EsVersion, Span};
pub use swc_ecma_codegen_emit::{
    Emitter, Node, to_code, to_code_default, to_code_with, to_code_with_comments,
    to_code_with_positions,
};
pub use swc_ecma_codegen_grammar::comments::{Comment, CommentKind, CommentMaps, Comments};
pub use swc_ecma_codegen_settings::config::Config;
pub use swc_ecma_codegen_spans::Spanned;
pub use swc_ecma_codegen_text_writer::{JsWriter, WriteJs, omit_trailing_semi};
pub use swc_ecma_codegen_validate::{
    is_well_formed, is_well_formed_expr, is_well_formed_item, is_well_formed_stmt,
};
