//! The program, as a function over its words and its streams.
#![tactic(auto)]

ghost use Rattle.std.specs.Prelude.{◌≡◌, ◌≢◌, ◌⊎◌, ◌≤◌, false, true, [], length, take, Err, OnOk, OnErr, IfOk};
ghost use Rattle.std.specs.Io.KnownBytes.{Appends};
ghost use Rattle.std.specs.IoError.{error_kind};
ghost use Rattle.swc_ecma_codegen_runs.specs.Faults.{line_of};
ghost use Rattle.swc_ecma_codegen_runs.specs.Prints.{AddsText, AddsFront, AddsFrontOfText, MayPrint};
ghost use Rattle.swc_ecma_codegen_runs.specs.Words.{are_options, options_of};
ghost use Rattle.swc_ecma_codegen_runs.specs.declared.faults.Fault.{Fault as AnyFault};

mod faults;
mod help;
mod texts;
mod tools;
mod words;

pub use crate::faults::Fault;
pub use crate::help::{name_wrong_word, tell_of};
use crate::texts::text_of;
pub use crate::tools::{Ecmagen, Tool};
pub use crate::words::{Options, Words};
use std::alloc::Global;
use std::io;
use std::io::{ErrorKind, Read, Write};
use swc_ecma_codegen::is_well_formed;
use swc_ecma_codegen_common::{BytePos, LineCol};
use swc_ecma_codegen_json::{Tree, program_from_slice};

/// A run of a program, as `run::<Ecmagen, _, _, _>(..)`: `words` are those after its name. Standard
/// input is one program as JSON, and its text goes to `out`, whole, after it was made in memory.
/// The answer is the status.
///
/// The words are `--minify`, `--omit-last-semi`, `--ascii-only`, `--assert`, `--inline-script`,
/// `--positions`, `--any`, `--target` with a version after it (`es3`, `es5`, `es2015` to `es2022`,
/// `esnext`), and `--max-line` with a length of lines after it (0 to 4294967295, in decimal
/// digits), in any order; one that is given again counts once, and of targets and lengths the last.
/// With `--any` a program that isn't well-formed is printed too: the name `a b` as `a b;`. With
/// `--positions`, after the text, `err` gets a line for each position of the source that was
/// recorded: `4 0 2` says that what stands at 4 there was written in line 0, column 2.
///
/// On a fault `err` gets one line. `out` then holds nothing, unless it was `out` that failed: it
/// may hold what it had taken. The status is 2 for wrong words, else 1: `cannot read` for a failed
/// read and for bytes that aren't UTF-8, `bad tree` for what is no program's JSON,
/// `not well-formed` for a program that isn't, and `refused: ` and a reason for an emission that is
/// refused, for want of memory, and for a fault of `out`, an interruption too (`refused: writer`).
/// Faults are found in this order; what a program of its own finds in a tree that is well-formed
/// comes before the refusals. A fault of `err` changes no status.
pub fn run<T: Tool, R: Read, O: Write, E: Write>(
    alloc: Global,
    words: &[String],
    input: &mut R,
    out: &mut O,
    err: &mut E,
) -> u8
    // The text of what the program made of one tree goes out, as the words ask for it.
    ensures printed { result ≡ 0 → AddsText T.prepared (options_of words.now)
        (O.contents out.old) (O.contents out.new) }
    ensures usage { are_options T.is_own words.now ≡ false → result ≡ 2 }
    ensures no_usage { are_options T.is_own words.now ≡ true → result ≢ 2 }
    // Wrong words leave `input` and `out` alone; a text that went out whole leaves `err` alone
    // without `--positions`.
    ensures unread { are_options T.is_own words.now ≡ false →
        (input.new ≡ input.old) × (out.new ≡ out.old) }
    ensures silent { result ≡ 0 → (options_of words.now).positions ≡ false → err.new ≡ err.old }
    // Otherwise `err` gets the line of a fault, or a beginning of it where it fails itself: that of
    // wrong words for these, and else another.
    ensures told_usage { result ≡ 2 →
        AddsFront T.usage_line (E.contents err.old) (E.contents err.new) }
    ensures told { result ≡ 1 →
        (fault : AnyFault) × (fault ≢ Fault.Usage) × AddsFront (line_of T.usage_line fault)
        (E.contents err.old) (E.contents err.new) }
    // And `out` is as it was, or took a beginning of such a text and no more.
    ensures begun { result ≢ 0 →
        (out.new ≡ out.old) ⊎ AddsFrontOfText T.prepared (options_of words.now)
        (O.contents out.old) (O.contents out.new) }
{
    let options = match Options::of_words::<T>(words) {
        Ok(options) => options,
        Err(fault) => return tell::<T, E>(fault, err),
    };
    match print::<T, R, O>(alloc, options, input, out) {
        Ok(positions) => {
            if options.positions {
                tell_positions(&positions, err);
            }
            0
        }
        Err(fault) => tell::<T, E>(fault, err),
    }
}

/// The answer where the words can't be had, by the error that says why. The status is 1 for want of
/// memory, with `refused: memory` to `err`; else a word isn't UTF-8, and so is a wrong word: the
/// status is 2.
pub fn refuse_words<T: Words, E: Write>(error: &io::Error, err: &mut E) -> u8
    ensures memory { error_kind error.now ≡ ErrorKind.OutOfMemory →
        (result ≡ 1) × AddsFront (line_of T.usage_line Fault.Memory) (E.contents err.old)
        (E.contents err.new) }
    ensures usage { error_kind error.now ≢ ErrorKind.OutOfMemory →
        (result ≡ 2) × AddsFront T.usage_line (E.contents err.old) (E.contents err.new) }
{
    match error.kind() {
        ErrorKind::OutOfMemory => tell::<T, E>(Fault::Memory, err),
        _ => tell::<T, E>(Fault::Usage, err),
    }
}

/// Tells of a fault, and gives the status.
fn tell<T: Words, E: Write>(fault: Fault, err: &mut E) -> u8
    ensures usage { fault ≡ Fault.Usage → result ≡ 2 }
    ensures others { fault ≢ Fault.Usage → result ≡ 1 }
    ensures told { AddsFront (line_of T.usage_line fault) (E.contents err.old)
        (E.contents err.new) }
{
    let line = fault.line(T::usage_line());
    let _ = send(line.as_bytes(), err);
    fault.status()
}

/// Tells where the positions of the source stand in the text, counted from 0.
fn tell_positions<E: Write>(positions: &[(BytePos, LineCol)], err: &mut E) {
    for (pos, place) in positions {
        let _ = writeln!(err, "{} {} {}", pos.0, place.line, place.col);
    }
}

/// Prints what becomes of the tree that `input` holds, and gives the positions that were recorded:
/// none unless they are asked for.
fn print<T: Tool, R: Read, O: Write>(
    alloc: Global,
    options: Options,
    input: &mut R,
    out: &mut O,
) -> Result<Vec<(BytePos, LineCol)>, Fault>
    ensures printed { OnOk result
        (AddsText T.prepared options (O.contents out.old) (O.contents out.new)) }
    ensures no_usage { result ≢ Err Fault.Usage }
    ensures begun { OnErr result ((out.new ≡ out.old)
        ⊎ AddsFrontOfText T.prepared options (O.contents out.old) (O.contents out.new)) }
{
    let tree = read_tree(alloc, options, input)?;
    let prepared = T::prepare(alloc, options, tree)?;
    let mut positions = Vec::new(alloc);
    let text = text_of(alloc, options, &prepared.0, &mut positions)?;
    send(&text, out)?;
    Ok(positions)
}

/// The tree that `input` holds, if it is well-formed, unless any is to be printed.
fn read_tree<R: Read>(alloc: Global, options: Options, input: &mut R) -> Result<Tree, Fault>
    ensures may { IfOk result (λ tree. MayPrint options tree.0) }
    ensures no_usage { result ≢ Err Fault.Usage }
{
    let bytes = read_bytes(alloc, input)?;
    let program = program_from_slice(alloc, bytes.as_slice()).map_err(Fault::of_reading)?;
    // a `Tree` lets a program go by a `drop` that is proved once
    let tree = Tree(program);
    if options.any || is_well_formed(&tree.0) {
        Ok(tree)
    } else {
        Err(Fault::NotWellFormed)
    }
}

/// Writes a text. After a fault a beginning of it is out.
fn send<O: Write>(text: &[u8], out: &mut O) -> Result<(), Fault>
    ensures sent { OnOk result (Appends (O.contents out.old) (O.contents out.new) text.now) }
    ensures begun { OnErr result (AddsFront text.now (O.contents out.old) (O.contents out.new)) }
    ensures no_usage { result ≢ Err Fault.Usage }
{
    let mut rest = text;
    for _ in 0..u64::MAX {
        if rest.is_empty() {
            return Ok(());
        }
        let taken = write_some(rest, out)?;
        rest = &rest[taken..];
    }
    Err(Fault::Writer)
}

/// Writes a beginning of some bytes, and says how long it is. A call that was interrupted is a
/// fault, as any other.
#[tactic(auto, using(crate::proofs::NothingAdded::kept_appends))]
fn write_some<O: Write>(bytes: &[u8], out: &mut O) -> Result<usize, Fault>
    ensures taken { IfOk result (λ n. (n ≤ length bytes.now)
        × Appends (O.contents out.old) (O.contents out.new) (take n bytes.now)) }
    ensures kept { OnErr result (Appends (O.contents out.old) (O.contents out.new) []) }
    ensures no_usage { result ≢ Err Fault.Usage }
{
    match out.write(bytes) {
        Ok(0) => Err(Fault::Writer),
        Ok(taken) => Ok(taken),
        Err(_) => Err(Fault::Writer),
    }
}

/// All that `input` gives.
fn read_bytes<R: Read>(alloc: Global, input: &mut R) -> Result<Vec<u8>, Fault>
    ensures no_usage { result ≢ Err Fault.Usage }
{
    let mut bytes = Vec::new(alloc);
    match input.read_to_end(&mut bytes) {
        Ok(_) => Ok(bytes),
        Err(error) if error.kind() == ErrorKind::OutOfMemory => Err(Fault::Memory),
        Err(_) => Err(Fault::CannotRead),
    }
}
