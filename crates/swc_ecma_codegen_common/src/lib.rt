//! What trees are made of that knows no node: positions, operators, the digits of numbers, versions of the language; and
//! why an emission is refused.
#![tactic(auto)]

mod decimals;
mod errors;
mod operators;
mod positions;
mod versions;

pub use crate::decimals::Decimal;
pub use crate::errors::{Answer, Error, Refusal, Result};
pub use crate::operators::{AssignOp, BinaryOp, UnaryOp, UpdateOp};
pub use crate::positions::{BytePos, DUMMY_SP, LineCol, Span};
pub use crate::versions::EsVersion;
