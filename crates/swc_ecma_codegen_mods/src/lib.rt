//! Two code mods over whole programs, each with a clause that says what it makes of any program: a
//! name in the place of another, and strict operators in the place of loose ones.
#![tactic(auto)]

mod names;
mod operators;

pub use crate::names::with_b_for_a;
pub use crate::operators::with_strict_equality;
