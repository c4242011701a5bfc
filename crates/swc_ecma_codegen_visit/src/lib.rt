//! Whole trees, changed in place: each name ([`change_idents`]), each node ([`change_nodes`]), or
//! both, as a [`Change`] says ([`change_program`], [`change_links`]). A clause says what such a
//! change makes of a program.
//!
//! [`Links`] goes through the names and links of a node of any type, and [`Below`] is what is told
//! of these. A walk goes down no further than a [`Depth`] says, since what a change puts in a
//! link's place may be deeper than what was there.
#![tactic(auto)]

mod below;
mod changes;
mod classes;
mod counts;
mod decls;
mod exprs;
mod idents;
mod jsx;
mod mapped_laws;
mod modules;
mod parts;
mod pats;
mod stmts;
mod ts_decls;
mod ts_types;
mod walks;

pub use crate::below::{Below, Links, Stop};
pub use crate::changes::{ChangeIdent, ChangeNode, change_idents, change_nodes};
pub use crate::counts::{change_program, is_deeper_than};
pub use crate::mapped_laws::{each_name_is_changed, layers_are_mapped, nothing_is_changed};
pub use crate::walks::{Change, Depth, change_links, levels};
