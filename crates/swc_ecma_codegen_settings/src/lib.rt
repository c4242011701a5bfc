//! What the emitter goes by: its settings, and whether a node's text begins or ends with a
//! character of a name.
#![tactic(auto)]

pub mod config;
mod ends;
mod starts;
pub mod util;
