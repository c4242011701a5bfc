//! The bytes go out here: one call of `write` at a time, and each fault is counted.

ghost use Rattle.std.specs.Prelude.{◌≡◌, ◌<◌, ◌≤◌, [], ◌++◌, length, take, IfOk, OnOk, OnErr, IsSome};
ghost use Rattle.std.specs.Str.{IsUtf8, is_utf8};
ghost use Rattle.std.proofs.Props.{props};
ghost use Rattle.swc_ecma_codegen_text_writer.specs.Contents.{Rises, IsPrefix, TellsSince};

use crate::logs::{Log, Taken};
use std::io;
use std::io::{ErrorKind, Write};
use std::snapshot::Snapshot;

/// A call of `write` failed: that is counted, and its error is kept.
#[derive(Clone, Copy)]
pub struct Fault {}

/// A writer, how many calls of its `write` failed, and the error of the last of these until it is taken. Proofs see further how
/// the writer was handed in, and what went out since.
#[derive(Drop)]
pub struct Outlet<W: Write> {
    inner: W,
    faults: u64,
    fault: Option<io::Error>,
    before: Snapshot<W>,
    log: Log,
    ghost tells: { TellsSince (W.contents before.value) log.bytes
        (W.contents inner) } by { Prim.hlevel props },
}

/// The bytes of a text of N bytes.
#[inline(always)]
fn bytes_of<const N: usize>(text: &str) -> [u8; N]
    requires { length text.now ≡ N }
    ensures { result ≡ text.now }
{
    let mut bytes = [0; N];
    bytes.copy_from_slice(text.as_bytes());
    bytes
}

impl<W: Write> Outlet<W> {
    ghost use Rattle.swc_ecma_codegen_text_writer.specs.Contents.{or_empty};
    ghost use Rattle.swc_ecma_codegen_text_writer.specs.Outlets.{bytes_so_far};

    pub fn new(inner: W) -> Outlet<W>
        ensures before { result.before.value ≡ inner }
        ensures bytes { bytes_so_far result ≡ or_empty (W.contents inner) }
        ensures logged { result.log.bytes ≡ [] }
        ensures faults { result.faults ≡ 0 }
    {
        let before = Snapshot::of(&inner);
        Outlet {
            inner,
            faults: 0,
            fault: None,
            before,
            log: Log::new(),
        }
    }

    pub fn into_inner(self) -> W
        ensures { IsSome (W.contents self.before.value) →
            W.contents result ≡ Some (bytes_so_far self) }
    {
        let Outlet {
            inner,
            faults: _,
            fault: _,
            before: _,
            log: _,
        } = self;
        inner
    }

    /// The error that was kept, which is kept no more.
    pub fn take_fault(&mut self) -> Option<io::Error>
        ensures kept { result ≡ self.old.fault }
        ensures taken { self.new.fault ≡ None }
        ensures before { self.new.before ≡ self.old.before }
        ensures bytes { bytes_so_far self.new ≡ bytes_so_far self.old }
        ensures logged { self.new.log.bytes ≡ self.old.log.bytes }
        ensures faults { self.new.faults ≡ self.old.faults }
    {
        self.fault.take()
    }

    /// Counts a fault, and keeps its error. The count stays at `u64::MAX`.
    #[cold]
    #[inline(never)]
    fn count_fault(&mut self, error: io::Error)
        ensures before { self.new.before ≡ self.old.before }
        ensures log { self.new.log ≡ self.old.log }
        ensures faults { Rises self.old.faults self.new.faults }
        ensures kept { self.new.fault ≡ Some error }
    {
        self.faults = self.faults.saturating_add(1);
        self.fault = Some(error);
    }

    /// Calls `write` once. A fault is counted, an interruption too, and so is an answer of 0, which is an error
    /// `WriteZero` here.
    #[inline(always)]
    fn write_once(&mut self, rest: &[u8]) -> Result<usize, Fault>
        requires { 0 < length rest.now }
        ensures taken { IfOk result (λ n. (0 < n) × (n ≤ length rest.now)) }
        ensures before { self.new.before ≡ self.old.before }
        ensures bytes { IfOk result (λ n. bytes_so_far self.new
            ≡ bytes_so_far self.old ++ take n rest.now) }
        ensures logged { IfOk result (λ n. self.new.log.bytes
            ≡ self.old.log.bytes ++ take n rest.now) }
        ensures faults { OnOk result (self.new.faults ≡ self.old.faults) }
        ensures nothing { OnErr result (bytes_so_far self.new ≡ bytes_so_far self.old) }
        ensures counted { OnErr result (Rises self.old.faults self.new.faults) }
    {
        match self.inner.write(rest) {
            Ok(0) => {
                self.count_fault(io::Error::from(ErrorKind::WriteZero));
                Err(Fault {})
            }
            Ok(n) => {
                let taken = Taken { bytes: &rest[..n] };
                self.log = self.log.then(&taken);
                Ok(n)
            }
            Err(error) => {
                self.count_fault(error);
                Err(Fault {})
            }
        }
    }

    /// Writes a text. After a fault a beginning of it is out: of `"foo"` nothing, `f` or `fo`.
    #[inline(always)]
    pub fn write_text(&mut self, text: &str) -> Result<(), Fault>
        ensures before { self.new.before ≡ self.old.before }
        ensures bytes { OnOk result (bytes_so_far self.new ≡ bytes_so_far self.old ++ text.now) }
        ensures logged { OnOk result (self.new.log.bytes ≡ self.old.log.bytes ++ text.now) }
        ensures faults { OnOk result (self.new.faults ≡ self.old.faults) }
        ensures grows { OnErr result (IsPrefix (bytes_so_far self.old) (bytes_so_far self.new)) }
        ensures front { OnErr result (IsPrefix (bytes_so_far self.new)
            (bytes_so_far self.old ++ text.now)) }
        ensures counted { OnErr result (Rises self.old.faults self.new.faults) }
        // What was text stays text, and what wasn't doesn't become it.
        ensures whole { OnOk result (is_utf8 (bytes_so_far self.new)
            ≡ is_utf8 (bytes_so_far self.old)) }
    {
        self.write_bytes(text.as_bytes())
    }

    /// The same of a text of N bytes: a copy of them is written that stands in registers. So no call copies bytes, and none has to look
    /// whether the text overlaps the room that it goes to.
    #[inline(always)]
    pub fn write_array<const N: usize>(&mut self, text: &str) -> Result<(), Fault>
        requires { length text.now ≡ N }
        ensures before { self.new.before ≡ self.old.before }
        ensures bytes { OnOk result (bytes_so_far self.new ≡ bytes_so_far self.old ++ text.now) }
        ensures logged { OnOk result (self.new.log.bytes ≡ self.old.log.bytes ++ text.now) }
        ensures faults { OnOk result (self.new.faults ≡ self.old.faults) }
        ensures grows { OnErr result (IsPrefix (bytes_so_far self.old) (bytes_so_far self.new)) }
        ensures front { OnErr result (IsPrefix (bytes_so_far self.new)
            (bytes_so_far self.old ++ text.now)) }
        ensures counted { OnErr result (Rises self.old.faults self.new.faults) }
        // What was text stays text, and what wasn't doesn't become it.
        ensures whole { OnOk result (is_utf8 (bytes_so_far self.new)
            ≡ is_utf8 (bytes_so_far self.old)) }
    {
        let bytes: [u8; N] = bytes_of(text);
        self.write_bytes(&bytes)
    }

    /// The same of the bytes of a text.
    #[inline(always)]
    pub fn write_bytes(&mut self, bytes: &[u8]) -> Result<(), Fault>
        requires { IsUtf8 bytes.now }
        ensures before { self.new.before ≡ self.old.before }
        ensures bytes { OnOk result (bytes_so_far self.new ≡ bytes_so_far self.old ++ bytes.now) }
        ensures logged { OnOk result (self.new.log.bytes ≡ self.old.log.bytes ++ bytes.now) }
        ensures faults { OnOk result (self.new.faults ≡ self.old.faults) }
        ensures grows { OnErr result (IsPrefix (bytes_so_far self.old) (bytes_so_far self.new)) }
        ensures front { OnErr result (IsPrefix (bytes_so_far self.new)
            (bytes_so_far self.old ++ bytes.now)) }
        ensures counted { OnErr result (Rises self.old.faults self.new.faults) }
        // What was text stays text, and what wasn't doesn't become it.
        ensures whole { OnOk result (is_utf8 (bytes_so_far self.new)
            ≡ is_utf8 (bytes_so_far self.old)) }
    {
        let mut rest = bytes;
        while !rest.is_empty() {
            let taken = self.write_once(rest)?;
            rest = &rest[taken..];
        }
        Ok(())
    }
}
