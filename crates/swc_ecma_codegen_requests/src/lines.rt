//! Lines come in.

ghost use Rattle.std.specs.Prelude.{◌≡◌, ◌≢◌, ◌+◌, ◌-◌, ◌<◌, ◌≤◌, ◌++◌, ℕ, true, length, take, All, Ok, vec_len, OnOk, OnErr, OnSome, IfOk, IfSome};
ghost use Rattle.std.specs.Io.{StartsWith, StopsAt, IsEmptyOrEndsWith, appended_bytes};
ghost use Rattle.std.specs.Io.BufRead.{take_through, DropsThrough};
ghost use Rattle.std.specs.Io.KnownBytes.{Consumes, IsAtEnd};

use memchr::memchr;
use std::io;
use std::io::{BufRead, ErrorKind};

/// Appends the next line to `line`, with its LF where it has one, and says how many bytes that are:
/// none at the end. It does what `read_until` of `b'\n'` does; the LF is looked for by many bytes
/// at once.
pub(crate) fn read_line<R: BufRead>(input: &mut R, line: &mut Vec<u8>) -> io::Result<usize>
    ensures count { IfOk result (λ n. vec_len line.new ≡ vec_len line.old + n) }
    ensures bytes { OnOk result (IfSome (R.remaining input.old)
        (λ xs. line.new.items ≡ line.old.items ++ take_through 10 xs)) }
    ensures rest { OnOk result
        (DropsThrough (R.remaining input.old) (R.remaining input.new) 10) }
    ensures end { IfOk result (λ n. n ≡ 0 → IsAtEnd (R.remaining input.old)) }
{
    let start = line.len();
    for _ in 0..u64::MAX {
        if append_through(input, line)? {
            return Ok(line.len() - start);
        }
    }
    Err(io::Error::from(ErrorKind::Other))
}

/// Appends the bytes that the reader shows, up to the first LF and with it. Says whether it met
/// that, or the end.
fn append_through<R: BufRead>(input: &mut R, line: &mut Vec<u8>) -> io::Result<bool>
    ensures grows { vec_len line.old ≤ vec_len line.new }
    ensures appends { StartsWith line.new.items line.old.items }
    ensures stops { StopsAt (appended_bytes line.old.items line.new.items) 10 }
    ensures bytes { Consumes (R.remaining input.old) (R.remaining input.new)
        (appended_bytes line.old.items line.new.items) }
    ensures end { result ≡ Ok true → length (appended_bytes line.old.items line.new.items) ≡ 0
        → OnSome (R.remaining input.old) (IsAtEnd (R.remaining input.new)) }
    ensures no_end_unless_done { result ≢ Ok true
        → All (λ x. x ≢ 10) (appended_bytes line.old.items line.new.items) }
    ensures done_at_end { result ≡ Ok true
        → IsEmptyOrEndsWith (appended_bytes line.old.items line.new.items) 10 }
{
    let available = match input.fill_buf() {
        Ok(available) => available,
        Err(error) => {
            return if error.kind() == ErrorKind::Interrupted {
                Ok(false)
            } else {
                Err(error)
            };
        }
    };
    let end = len_through(available);
    line.extend_from_slice(&available[..end])?;
    let is_done = end == 0 || available[end - 1] == b'\n';
    input.consume(end);
    Ok(is_done)
}

/// How many bytes come up to the first LF and with it; all, where there is none.
fn len_through(bytes: &[u8]) -> usize
    ensures bound { result ≤ length bytes.now }
    ensures some { 0 < length bytes.now → 0 < result }
    ensures before { All (λ x. x ≢ 10) (take (result - 1) bytes.now) }
{
    match memchr(b'\n', bytes) {
        Some(at) => at + 1,
        None => bytes.len(),
    }
}
