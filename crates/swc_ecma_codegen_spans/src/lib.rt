//! Where nodes stand in their source text.
#![tactic(auto)]

mod classes;
mod decls;
mod exprs;
mod idents;
mod jsx;
mod links;
mod lits;
mod modules;
mod pats;
mod programs;
mod spanned;
mod stmts;
mod ts_decls;
mod ts_exprs;
mod ts_members;
mod ts_types;

pub use crate::spanned::Spanned;
