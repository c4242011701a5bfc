//! Prints each node, in calls of the lower emitter.
#![tactic(auto)]

mod annotations;
mod blocks;
mod branches;
mod calls;
mod chains;
mod classes;
mod code;
mod commented;
mod decl;
mod emitter;
mod exports;
mod expr;
mod fields;
mod fn_types;
mod functions;
mod imports;
mod jsx;
mod lists;
mod lits;
mod loops;
mod mapped_types;
mod marks;
mod modules;
mod names;
mod node;
pub mod nodes;
pub mod operands;
mod parts;
mod pats;
pub mod patterns;
mod places;
mod props;
mod recursion;
mod refusals;
mod specifiers;
mod stmt;
mod targets;
mod templates;
mod tokens;
mod ts_decls;
mod ts_exprs;
mod ts_members;
mod type_params;
mod types;

pub use crate::code::{
    to_code, to_code_default, to_code_with, to_code_with_comments, to_code_with_positions,
};
pub use crate::emitter::Emitter;
pub use crate::node::Node;
