//! Why an emission is refused.

ghost use Rattle.std.specs.Prelude.{◌≡◌};
ghost use Rattle.swc_ecma_codegen_common.specs.declared.errors.Error.{Error as AnError};
ghost use Rattle.swc_ecma_codegen_common.specs.declared.errors.Error.TheVariants.{OutOfMemory};

use std::alloc::{AllocError, AllocFailed};
use std::io;
use std::io::ErrorKind;
use thiserror::Error as ThisError;

/// Why a call was refused. After any refusal the bytes that are out are a beginning of the text. Whoever refused once
/// refuses from then on: each later call of it that can answer an error answers `Failed`.
#[derive(Debug, Drop, ThisError)]
pub enum Error {
    /// The writer below answered an error, in this very call.
    #[error("the writer failed: {0}")]
    Writer(io::Error),
    /// A growth was refused.
    #[error("out of memory")]
    OutOfMemory,
    /// A node that can't be printed: a default export specifier, or one that a parser left as invalid.
    #[error("unsupported node")]
    UnsupportedNode,
    /// A tree whose shape has no text, as a template with too few parts.
    #[error("bad shape")]
    BadShape,
    /// A name that can't be spelled in ASCII for this target.
    #[error("name out of target")]
    NameOutOfTarget,
    /// The line or the column of a position that is kept is larger than 4294967295, or the indentation would be.
    #[error("position too large")]
    PositionTooLarge,
    /// An earlier call was refused.
    #[error("an earlier call was refused")]
    Failed,
}

/// What a call that writes gives.
pub type Result = std::result::Result<(), Error>;

/// Why a call was refused, in short: an `Error` without the writer's own error. Inside an emission answers are small; its
/// public calls make an `Error` of the refusal and of the writer's own error, which is kept until then.
#[derive(Debug, Clone, Copy, PartialEq, Eq)]
pub enum Refusal {
    /// The writer below answered an error, in this very call.
    Writer,
    /// A growth was refused.
    OutOfMemory,
    /// A node that can't be printed.
    UnsupportedNode,
    /// A tree whose shape has no text.
    BadShape,
    /// A name that can't be spelled in ASCII for this target.
    NameOutOfTarget,
    /// A line, a column or the indentation would pass its limit.
    PositionTooLarge,
    /// An earlier call was refused.
    Failed,
}

/// What a call gives inside an emission.
pub type Answer = std::result::Result<(), Refusal>;

impl Error {
    ghost use Rattle.swc_ecma_codegen_common.specs.Refusals.{fault_of, reason_of};

    /// Why, in short.
    pub fn refusal(&self) -> Refusal
        ensures { result ≡ reason_of self.now }
    {
        match self {
            Error::Writer(_) => Refusal::Writer,
            Error::OutOfMemory => Refusal::OutOfMemory,
            Error::UnsupportedNode => Refusal::UnsupportedNode,
            Error::BadShape => Refusal::BadShape,
            Error::NameOutOfTarget => Refusal::NameOutOfTarget,
            Error::PositionTooLarge => Refusal::PositionTooLarge,
            Error::Failed => Refusal::Failed,
        }
    }

    /// The writer's own error.
    pub fn into_fault(self) -> Option<io::Error>
        ensures { result ≡ fault_of self }
    {
        match self {
            Error::Writer(fault) => Some(fault),
            _ => None,
        }
    }
}

impl Refusal {
    ghost use Rattle.swc_ecma_codegen_common.specs.Refusals.{fault_of, reason_of};

    /// The error, with the writer's own where that is why. A writer's error that was lost is one of kind `Other`.
    pub fn with_fault(self, fault: Option<io::Error>) -> Error
        ensures reason { reason_of result ≡ self }
        // An error is made again of its two parts.
        ensures whole { (error : AnError) → reason_of error ≡ self → fault_of error ≡ fault →
            result ≡ error }
    {
        match self {
            Refusal::Writer => match fault {
                Some(error) => Error::Writer(error),
                None => Error::Writer(io::Error::from(ErrorKind::Other)),
            },
            Refusal::OutOfMemory => Error::OutOfMemory,
            Refusal::UnsupportedNode => Error::UnsupportedNode,
            Refusal::BadShape => Error::BadShape,
            Refusal::NameOutOfTarget => Error::NameOutOfTarget,
            Refusal::PositionTooLarge => Error::PositionTooLarge,
            Refusal::Failed => Error::Failed,
        }
    }
}

impl From<AllocError> for Error {
    ghost from_gives = { λ _ e. e ≡ OutOfMemory };

    fn from(_error: AllocError) -> Error {
        Error::OutOfMemory
    }
}

impl<T: Drop> From<AllocFailed<T>> for Error {
    ghost from_gives = { λ _ e. e ≡ OutOfMemory };

    fn from(_error: AllocFailed<T>) -> Error {
        Error::OutOfMemory
    }
}
