//! Why a run prints nothing.

ghost use Rattle.std.specs.Prelude.{◌≡◌, ◌≢◌};
ghost use Rattle.swc_ecma_codegen_common.specs.Refusals.{reason_of};
ghost use Rattle.swc_ecma_codegen_runs.specs.Faults.{fault_of_emission, fault_of_reading, line_of};

use swc_ecma_codegen_common::Error;
use swc_ecma_codegen_json::ReadError;

/// Why a run prints nothing.
#[derive(Debug, Clone, Copy, PartialEq, Eq)]
pub enum Fault {
    Usage,
    CannotRead,
    BadTree,
    NotWellFormed,
    NotADerivation,
    Writer,
    Memory,
    UnsupportedNode,
    BadShape,
    NameOutOfTarget,
    PositionTooLarge,
    Failed,
}

impl Fault {
    /// The fault of a tree that isn't read.
    pub fn of_reading(error: ReadError) -> Fault
        ensures fault { result ≡ fault_of_reading error }
        ensures no_usage { result ≢ Fault.Usage }
    {
        match error {
            ReadError::CannotRead => Fault::CannotRead,
            ReadError::BadTree => Fault::BadTree,
            ReadError::OutOfMemory => Fault::Memory,
        }
    }

    /// The fault of an emission that is refused. Its text is made in memory, so a fault of its
    /// writer is want of memory.
    pub fn of_emission(error: &Error) -> Fault
        ensures fault { result ≡ fault_of_emission (reason_of error.now) }
        ensures no_usage { result ≢ Fault.Usage }
    {
        match error {
            Error::Writer(_) | Error::OutOfMemory => Fault::Memory,
            Error::UnsupportedNode => Fault::UnsupportedNode,
            Error::BadShape => Fault::BadShape,
            Error::NameOutOfTarget => Fault::NameOutOfTarget,
            Error::PositionTooLarge => Fault::PositionTooLarge,
            Error::Failed => Fault::Failed,
        }
    }

    /// The line that tells of it; `usage` is that of wrong words.
    pub fn line(self, usage: &'static str) -> &'static str
        ensures { result.now ≡ line_of usage.now self }
    {
        match self {
            Fault::Usage => usage,
            Fault::CannotRead => "cannot read\n",
            Fault::BadTree => "bad tree\n",
            Fault::NotWellFormed => "not well-formed\n",
            Fault::NotADerivation => "not a derivation\n",
            Fault::Writer => "refused: writer\n",
            Fault::Memory => "refused: memory\n",
            Fault::UnsupportedNode => "refused: unsupported node\n",
            Fault::BadShape => "refused: bad shape\n",
            Fault::NameOutOfTarget => "refused: name out of target\n",
            Fault::PositionTooLarge => "refused: position too large\n",
            Fault::Failed => "refused: failed\n",
        }
    }

    /// The status that the program ends with.
    pub fn status(self) -> u8
        ensures usage { self ≡ Fault.Usage → result ≡ 2 }
        ensures others { self ≢ Fault.Usage → result ≡ 1 }
    {
        match self {
            Fault::Usage => 2,
            _ => 1,
        }
    }
}
