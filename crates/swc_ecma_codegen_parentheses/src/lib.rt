//! Parentheses where the syntactic grammar of ECMA-262 needs them.
#![tactic(auto)]

mod added;
mod bare;
mod bare_roots;
mod bare_trees;
mod changes;
mod classes;
mod depths;
mod enclosed;
mod exprs;
mod functions;
mod jsx;
mod lends;
mod levels;
mod linked;
mod loops;
mod members;
mod mends;
mod modules;
mod objects;
mod opens;
mod operands;
mod operators;
mod pats;
mod places;
mod recursion;
mod roots;
mod stmts;
mod ts_decls;
mod ts_exprs;
mod within;

pub use crate::bare_roots::{
    NotBare, without_parentheses, without_parentheses_expr, without_parentheses_item,
    without_parentheses_stmt,
};
pub use crate::bare_trees::no_other_pair_stands;
pub use crate::depths::MAX_DEPTH;
pub use crate::roots::{
    Unmended, parenthesize, parenthesize_expr, parenthesize_item, parenthesize_stmt,
};
