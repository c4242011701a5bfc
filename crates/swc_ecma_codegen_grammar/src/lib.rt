//! The lexical grammar that a text is read by, and what an emission asks besides of a tree: the map
//! of its source text, and its comments.
#![tactic(auto)]

pub mod characters;
pub mod comments;
mod gaps;
pub mod kinds;
pub mod line_end_laws;
pub mod list_format;
pub mod mapper;
pub mod names;
pub mod number_values;
pub mod numerals;
mod punctuation;
pub mod reader;
pub mod reading_laws;
pub mod roles;
mod shapes;
pub mod string_values;
pub mod template_values;
pub mod texts;
pub mod turns;
pub mod units;

pub use crate::list_format::ListFormat;
pub use crate::shapes::{is_hashbang, is_regex};
