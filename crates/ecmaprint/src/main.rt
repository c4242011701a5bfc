//! Prints trees of ECMAScript by requests: each line of standard input is one, as JSON, and each
//! line of standard output its answer.
#![tactic(auto)]

use std::io::BufReader;
use std::process::ExitCode;
use std::{env, io};
use swc_ecma_codegen_requests::{answer_words, serve};

fn main(rt: HostRuntime) -> ExitCode {
    match answer(&rt) {
        Ok(status) => ExitCode::from(status),
        Err(error) => {
            let _ = eprintln!(rt; "ecmaprint: {error}");
            ExitCode::from(1)
        }
    }
}

/// Does what the words ask for, and gives the status.
fn answer(rt: &HostRuntime) -> io::Result<u8> {
    let alloc = rt.alloc();
    let words: Vec<String> = env::args(rt)?.skip(1).collect(alloc)?;
    if let Some(status) = answer_words(&words, &mut rt.stdout(), &mut rt.stderr()) {
        return Ok(status);
    }
    serve(
        alloc,
        &mut BufReader::new(alloc, rt.stdin())?,
        &mut rt.stdout(),
    )?;
    Ok(0)
}
