//! Which trees are derivations of the syntactic grammar of ECMA-262, 2024: whether the text of a
//! tree can be read as this tree.
//!
//! Each type has its production, with a nonterminal and parameters at each part (`specs/*Forms`);
//! without them it is the production that says which tokens the tree reads as. A node tells the one
//! above it by which nonterminal's production it is derived, and a verdict; what a link holds is
//! asked once, so the check takes time as the tree has nodes.
//!
//! What has no production isn't covered, and is no derivation: TypeScript, `source` and `defer` of
//! imports, and names that are spelled with escapes. Import attributes, decorators, `accessor`,
//! `using` and sections B.3.3 and B.3.5 have productions.
#![tactic(auto)]

mod calls;
mod classes;
mod decls;
mod exprs;
mod forms;
mod functions;
mod jsx;
pub mod laws;
mod lookahead;
mod loops;
mod modules;
mod names;
mod nonterminals;
mod objects;
mod operators;
mod parameters;
mod pats;
mod programs;
mod recursion;
mod roots;
mod shapes;
mod stmts;
mod targets;
mod templates;
mod unit_productions;
mod verdicts;
mod whole_trees;

pub use crate::forms::{Answers, Stands};
pub use crate::lookahead::{Beginning, Lookahead};
pub use crate::nonterminals::Nonterminal;
pub use crate::parameters::{Parameters, Position};
pub use crate::recursion::{
    is_covered_expr, is_curable_expr, is_curable_pat, is_parenthesized_expr, keeps_structure_expr,
    keeps_structure_pat, verdict_expr, verdict_pat,
};
pub use crate::roots::{
    is_core, is_covered, is_curable, is_curable_item, is_curable_stmt, is_parenthesized,
    keeps_structure, keeps_structure_item, keeps_structure_stmt, verdict, verdict_item,
    verdict_stmt,
};
pub use crate::verdicts::{Facts, Shape, Verdict};
pub use crate::whole_trees::WholeTree;
