//! Requests to print trees, a line each, and the answers to them, as a function over two streams.
#![tactic(auto)]

mod answers;
mod emissions;
mod faults;
mod ids;
mod layouts;
mod lines;
mod lists;
mod members;
mod objects;
mod places;
mod remarks;
mod requests;
mod settings;
mod streams;
mod unread;
mod words;
mod writers;

ghost use Rattle.std.specs.Prelude.{◌≡◌, ◌≢◌, ℕ, List, [], true, false, Some, IfSome, IfOk, OnOk, OnErr};
ghost use Rattle.std.specs.Io.BufRead.{take_through, drop_through};
ghost use Rattle.std.specs.Io.KnownBytes.{Appends};
ghost use Rattle.swc_ecma_codegen_requests.specs.Answers.{IsAnswer};
ghost use Rattle.swc_ecma_codegen_requests.specs.Serves.{Served, ServedInPart, BeginsAnswer};

use crate::answers::answer_to;
use crate::lines::read_line;
use crate::streams::send;
pub use crate::words::answer_words;
use std::alloc::Global;
use std::io;
use std::io::{BufRead, ErrorKind, Write};

/// The longest line that is served, in bytes: 2 ^ 31.
const MOST_BYTES: usize = 2147483648;

/// Answers each line of `input`, in order, by a line to `out`, which is flushed before the next
/// line is read. Ends where `input` ends.
///
/// A line is a request in JSON:
///
/// ```json
/// {"id":7,"tree":{"Script":..},"source":"a","config":{"minify":true},"comments":{"leading":{..},"trailing":{..}},"positions":true}
/// ```
///
/// The program is `tree`, as a [`Tree`](swc_ecma_codegen_json::Tree) is read, or `flat`, as a
/// [`FlatTree`](swc_ecma_codegen_json::FlatTree) of at most 8,000 levels, both in the
/// [short form](swc_ecma_codegen_json::Short): members that have a default may be left out. All but
/// the program may be left out too. No object has another member, nor one twice.
///
/// - `source` is the text that the program was read from, whose first byte stands at the position
///   `first`, or at 1. Lists that keep their lines have those of the text.
/// - `config` has the settings of [`Config`](swc_ecma_codegen_settings::config::Config) by their
///   names, `target` as `"es2015"`; one that is left out is as in `Config::default()`. `indent` is
///   what a level of indentation writes, a number of blanks or a text of blanks or tabs, ten at
///   most, and `new_line` what ends a line, `"\n"` or `"\r\n"`; four blanks and LF unless they are
///   given. With `minify` semicolons that aren't needed are left out.
/// - `comments` are by the positions that they stand before and after, each as
///   `{"kind":"Line","text":" a","span":{"lo":1,"hi":5}}`, or a `Block`. None holds its own end.
/// - With `positions` the answer tells where what stands in the source was written.
/// - With `parenthesize` the program gets the parentheses that it lacks, as `ecmafix` puts them in.
/// - With `any` a program that isn't well-formed is printed too, and one that no parentheses mend.
/// - `id` is any JSON: the answer has it, to the byte.
///
/// An answer is
///
/// ```json
/// {"id":7,"code":"a;","left":{"leading":{},"trailing":{}},"positions":[[1,0,0]]}
/// ```
///
/// Of a position come the line and the column in the text, from 0, columns in UTF-16 units. `left`
/// has the comments that weren't written. Or an answer tells of an error:
///
/// | `error` | Why |
/// |---|---|
/// | `{"kind":"bad JSON","message":"EOF while parsing","path":["tree"],"line":1,"column":80}` | the line is no JSON, or no UTF-8 |
/// | `{"kind":"bad request","message":"unknown member `tre`; ..","path":["tre"], ..}` | it is no request |
/// | `{"kind":"bad tree","message":"missing field `expr`","path":["tree","Script","body",0,"Expr"], ..}` | `tree` or `flat` is no program |
/// | `{"kind":"not well-formed","path":["body",3,"expr"],"rule":".."}` | the program isn't, and `any` isn't asked for: the way to the first node whose own rule is broken, and the rule |
/// | `{"kind":"not a derivation"}` | `parenthesize` is asked for, and no parentheses make the text read as this tree, or some are missing where it puts none |
/// | `{"kind":"too deep"}` | `parenthesize` is asked for, parentheses are missing, and more than 4,000 links lie below one another |
/// | `{"kind":"refused","cause":"name out of target"}` | the emission was refused; or there was no memory for the request: `"memory"` |
///
/// The error is that of `input` or of `out`, which then took a beginning of an answer;
/// `OutOfMemory` where there is none for a line or its answer; `InvalidData` where a line is longer
/// than 2 ^ 31 bytes.
pub fn serve<R: BufRead, W: Write>(alloc: Global, input: &mut R, out: &mut W) -> io::Result<()>
    ensures served { OnOk result (IfSome (R.remaining input.old)
        (λ all. Served all (Some []) (W.contents out.old) (W.contents out.new))) }
    ensures in_part { OnErr result (IfSome (R.remaining input.old)
        (λ all. ServedInPart all (W.contents out.old) (W.contents out.new))) }
{
    for _ in 0..u64::MAX {
        if !serve_one(alloc, input, out)? {
            return Ok(());
        }
    }
    Err(io::Error::from(ErrorKind::Other))
}

/// Answers the next line, and whether there is one.
fn serve_one<R: BufRead, W: Write>(alloc: Global, input: &mut R, out: &mut W) -> io::Result<bool>
    ensures one { IfOk result (λ is_one. is_one ≡ true → IfSome (R.remaining input.old)
        (λ rest. (rest ≢ []) × (R.remaining input.new ≡ Some (drop_through 10 rest))
        × ((answer : List ℕ) × IsAnswer (take_through 10 rest) answer
        × Appends (W.contents out.old) (W.contents out.new) answer))) }
    ensures none { IfOk result (λ is_one. is_one ≡ false → IfSome (R.remaining input.old)
        (λ rest. (rest ≡ []) × (R.remaining input.new ≡ Some []) × (out.new ≡ out.old))) }
    ensures begun { OnErr result (IfSome (R.remaining input.old)
        (λ rest. BeginsAnswer (take_through 10 rest) (W.contents out.old) (W.contents out.new))) }
{
    let mut line = Vec::new(alloc);
    if read_line(input, &mut line)? == 0 {
        return Ok(false);
    }
    if line.len() > MOST_BYTES {
        return Err(io::Error::from(ErrorKind::InvalidData));
    }
    let answer = answer_to(alloc, &line)?;
    send(&answer, out)?;
    Ok(true)
}
