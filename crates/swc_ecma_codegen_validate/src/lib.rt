//! Which trees are well-formed.
#![tactic(auto)]

mod big_integers;
mod calls;
mod classes;
mod code_units;
mod decls;
pub mod exprs;
mod faults;
pub mod forms;
mod functions;
mod jsx;
mod jsx_texts;
mod lits;
mod modules;
mod names;
mod numbers;
mod numerals;
mod parts;
mod pats;
mod props;
mod recursion;
mod regexes;
mod stmts;
mod strings;
mod targets;
mod templates;
mod texts;
mod ts_decls;
mod ts_exprs;
mod ts_members;
mod types;

pub use crate::faults::{Fault, Step, first_fault};
pub use crate::forms::{Fits, WellFormed};
pub use crate::recursion::{
    is_well_formed, is_well_formed_expr, is_well_formed_item, is_well_formed_stmt,
};
