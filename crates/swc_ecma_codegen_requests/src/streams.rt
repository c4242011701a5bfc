//! Answers go out.

ghost use Rattle.std.specs.Prelude.{◌≤◌, [], length, take, IfOk, OnOk, OnErr};
ghost use Rattle.std.specs.Io.KnownBytes.{Appends};
ghost use Rattle.swc_ecma_codegen_requests.specs.Streams.{AddsFront};

use std::io;
use std::io::{ErrorKind, Write};

/// Writes an answer, and has it go out. After a fault a beginning of it is out.
pub(crate) fn send<W: Write>(answer: &[u8], out: &mut W) -> io::Result<()>
    ensures sent { OnOk result (Appends (W.contents out.old) (W.contents out.new) answer.now) }
    ensures begun { OnErr result (AddsFront answer.now (W.contents out.old) (W.contents out.new)) }
{
    write_whole(answer, out)?;
    out.flush()
}

/// Writes an answer. After a fault a beginning of it is out.
fn write_whole<W: Write>(answer: &[u8], out: &mut W) -> io::Result<()>
    ensures sent { OnOk result (Appends (W.contents out.old) (W.contents out.new) answer.now) }
    ensures begun { OnErr result (AddsFront answer.now (W.contents out.old) (W.contents out.new)) }
{
    let mut rest = answer;
    for _ in 0..u64::MAX {
        if rest.is_empty() {
            return Ok(());
        }
        let taken = write_some(rest, out)?;
        rest = &rest[taken..];
    }
    Err(io::Error::from(ErrorKind::WriteZero))
}

/// Writes a beginning of some bytes, and says how long it is: nothing where the call was
/// interrupted.
#[tactic(auto, using(crate::proofs::Kept::kept_appends))]
fn write_some<W: Write>(bytes: &[u8], out: &mut W) -> io::Result<usize>
    ensures taken { IfOk result (λ n. (n ≤ length bytes.now)
        × Appends (W.contents out.old) (W.contents out.new) (take n bytes.now)) }
    ensures kept { OnErr result (Appends (W.contents out.old) (W.contents out.new) []) }
{
    match out.write(bytes) {
        Ok(0) => Err(io::Error::from(ErrorKind::WriteZero)),
        Ok(taken) => Ok(taken),
        Err(error) if error.kind() == ErrorKind::Interrupted => Ok(0),
        Err(error) => Err(error),
    }
}
