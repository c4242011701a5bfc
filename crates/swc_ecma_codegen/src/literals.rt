//! How names, strings, templates and numbers are spelled. In the reference these functions are private.

pub use swc_ecma_codegen_literals::{
    ascii_only_ident, minified_number, plain_number, quoted_utf16, template_from_raw,
};
