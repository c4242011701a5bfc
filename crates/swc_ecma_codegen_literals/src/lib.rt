//! The spellings of names, strings, templates and numbers.
#![tactic(auto)]

mod big_integers;
mod classes;
mod escapes;
mod idents;
pub mod laws;
mod names;
mod numbers;
mod punctuators;
mod scripts;
mod separators;
mod strings;
mod templates;

pub use crate::big_integers::big_integer_text;
pub use crate::classes::{TokenClass, number_class};
pub use crate::idents::{ascii_only_ident, wants_quotes};
pub use crate::names::{holds_backslash, valid_name};
pub use crate::numbers::{minified_number, plain_number};
pub use crate::punctuators::Punctuator;
pub use crate::scripts::quoted_for_inline_script;
pub use crate::separators::without_separators;
pub use crate::strings::quoted_utf16;
pub use crate::templates::template_from_raw;
