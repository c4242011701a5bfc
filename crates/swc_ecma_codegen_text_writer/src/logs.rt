//! The bytes that were sent. They exist only in proofs.

ghost use Rattle.std.specs.Prelude.{◌≡◌, ℕ, List, [], ◌++◌};
ghost use Rattle.std.specs.Borrow.{ftrue};

use std::marker::Model;

/// It takes no memory, and its calls do nothing.
#[derive(Drop)]
pub struct Log {
    ghost bytes: { List ℕ },
}

impl Model for Log {
    ghost also_owns = { λ _. ftrue };
}

/// Bytes that a writer took.
#[derive(Clone, Copy, Drop)]
pub struct Taken<'a> {
    pub bytes: &'a [u8],
}

impl Log {
    pub fn new() -> Log
        ensures { result.bytes ≡ [] }
    {
        Log {}
    }

    /// Some bytes more.
    pub fn then(&self, _taken: &Taken<'_>) -> Log
        ensures { result.bytes ≡ self.now.bytes ++ _taken.now.bytes.now }
    {
        Log {}
    }
}
