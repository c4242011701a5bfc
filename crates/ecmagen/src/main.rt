//! Prints a tree of ECMAScript: standard input is its JSON, standard output its text.
#![tactic(auto)]

use std::process::ExitCode;
use std::{env, io};
use swc_ecma_codegen_runs::{Ecmagen, refuse_words, run, tell_of};

fn main(rt: HostRuntime) -> ExitCode {
    let status = match words(&rt) {
        Ok(words) => answer(&rt, &words),
        Err(error) => refuse_words::<Ecmagen, _>(&error, &mut rt.stderr()),
    };
    ExitCode::from(status)
}

/// Does what the words ask for, and gives the status.
fn answer(rt: &HostRuntime, words: &[String]) -> u8 {
    if let Some(status) = tell_of::<Ecmagen, _>(words, &mut rt.stdout()) {
        return status;
    }
    run::<Ecmagen, _, _, _>(
        rt.alloc(),
        words,
        &mut rt.stdin(),
        &mut rt.stdout(),
        &mut rt.stderr(),
    )
}

/// The words after the program's name. The error is want of memory, or a word that isn't UTF-8.
fn words(rt: &HostRuntime) -> io::Result<Vec<String>> {
    Ok(env::args(rt)?.skip(1).collect(rt.alloc())?)
}
