//! Prints trees of ECMAScript as text. A port of `swc_ecma_codegen`, under whose paths everything stands here.
#![tactic(auto)]

pub mod ast;
pub mod literals;
pub mod prelude;
pub mod text_writer;

pub use swc_ecma_codegen_common::{Error, Refusal, Result};
pub use swc_ecma_codegen_emit::{
    Emitter, Node, to_code, to_code_default, to_code_with, to_code_with_comments,
    to_code_with_positions,
};
pub use swc_ecma_codegen_laws as laws;
pub use swc_ecma_codegen_settings::config::Config;
pub use swc_ecma_codegen_settings::util;
pub use swc_ecma_codegen_validate::{
    Fault, Step, first_fault, is_well_formed, is_well_formed_expr, is_well_formed_item,
    is_well_formed_stmt,
};
