//! Prints a tree of ECMAScript with the parentheses that it lacks: standard input is its JSON,
//! standard output its text.
#![tactic(auto)]

mod tool;

use crate::tool::Ecmafix;
use std::process::ExitCode;
use std::{env, io};
use swc_ecma_codegen_runs::{name_wrong_word, refuse_words, run, tell_of};

fn main(rt: HostRuntime) -> ExitCode {
    let status = match words(&rt) {
        Ok(words) => answer(&rt, &words),
        Err(error) => refuse_words::<Ecmafix, _>(&error, &mut rt.stderr()),
    };
    ExitCode::from(status)
}

/// Does what the words ask for, and gives the status.
fn answer(rt: &HostRuntime, words: &[String]) -> u8 {
    if let Some(status) = tell_of::<Ecmafix, _>(words, &mut rt.stdout()) {
        return status;
    }
    if let Some(status) = name_wrong_word::<Ecmafix, _>(rt.alloc(), words, &mut rt.stderr()) {
        return status;
    }
    run::<Ecmafix, _, _, _>(
        rt.alloc(),
        words,
        &mut rt.stdin(),
        &mut rt.stdout(),
        &mut rt.stderr(),
    )
}

/// The words after the program's name. The error is want of memory, or a word that isn't UTF-8.
fn words(rt: &HostRuntime) -> io::Result<Vec<String>> {
    Ok(env::args(rt)?.skip(1).collect(rt.alloc())?)
}
