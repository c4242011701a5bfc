//! Why a tree isn't read.

ghost use Rattle.std.specs.Prelude.{◌≡◌};
ghost use Rattle.swc_ecma_codegen_json.specs.declared.errors.ReadError.TheVariants.{OutOfMemory};

use std::alloc::{AllocError, AllocFailed};
use thiserror::Error as ThisError;

/// Why a tree isn't read.
#[derive(Clone, Copy, Debug, PartialEq, Eq, ThisError)]
pub enum ReadError {
    /// The bytes aren't UTF-8.
    #[error("cannot read")]
    CannotRead,
    /// The text is no JSON, nests deeper than 127, or hasn't the form of a tree.
    #[error("bad tree")]
    BadTree,
    /// A growth was refused.
    #[error("out of memory")]
    OutOfMemory,
}

/// What is read, or why it isn't.
pub type Read<T> = std::result::Result<T, ReadError>;

impl From<AllocError> for ReadError {
    ghost from_gives = { λ _ e. e ≡ OutOfMemory };

    fn from(_error: AllocError) -> ReadError {
        ReadError::OutOfMemory
    }
}

impl<T: Drop> From<AllocFailed<T>> for ReadError {
    ghost from_gives = { λ _ e. e ≡ OutOfMemory };

    fn from(_error: AllocFailed<T>) -> ReadError {
        ReadError::OutOfMemory
    }
}
