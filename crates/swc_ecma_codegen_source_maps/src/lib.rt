//! Source maps, version 3 (ECMA-426): where in its sources what stands in a text came from.
#![tactic(auto)]

mod mappings;
mod numbers;
#[cfg(test)]
mod tests;

pub use crate::mappings::{Mapping, Original, encode_mappings, is_encodable};
