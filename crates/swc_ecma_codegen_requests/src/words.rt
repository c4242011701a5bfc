//! The words of a run of `ecmaprint`.

ghost use Rattle.std.specs.Prelude.{◌≡◌, ◌≢◌, [], false, true, None, Some};
ghost use Rattle.std.specs.Option.{is_some};
ghost use Rattle.swc_ecma_codegen_requests.specs.Words.{is_asking, is_told};

use crate::streams::send;
use std::io::Write;

/// What `--help` tells.
const HELP: &str =
    "usage: ecmaprint < requests\n\nReads requests to print programs from standard input, one a line, as JSON, and writes an answer\nfor each to standard output, one a line, in order: docs/REQUESTS.md has their members.\n\n    {\"id\":7,\"tree\":{\"Script\":{..}},\"config\":{\"minify\":true}}\n    {\"id\":7,\"code\":\"a;\"}\n\n  --help              this\n  --version           the version\n\nStatus 0: the input ended; 1: reading or writing failed; 2: wrong words.\n";

/// What `--version` tells.
const VERSION: &str = "ecmaprint 1.0.0 (swc_ecma_codegen 0.154.4 in Rattle)\n";

/// Answers the words behind the program's name, and gives the status; none where there are no
/// words, and lines are to be served. `--help` and `--version` are told to `out`; each other word
/// is wrong, which `err` tells.
pub fn answer_words<O: Write, E: Write>(words: &[String], out: &mut O, err: &mut E) -> Option<u8>
    ensures none { words.now ≡ [] → (result ≡ None) × (out.new ≡ out.old) × (err.new ≡ err.old) }
    ensures some { words.now ≢ [] → result ≢ None }
    // Status 0 and a word on `out` are of words that ask for a text.
    ensures told { result ≡ Some 0 → is_told words.now ≡ true }
    ensures untold { is_told words.now ≡ false → out.new ≡ out.old }
{
    let first = words.first()?;
    match told_by(first) {
        Some(told) => match send(told.text().as_bytes(), out) {
            Ok(()) => Some(0),
            Err(_) => Some(1),
        },
        None => {
            let _ = writeln!(
                err,
                "ecmaprint: no option {first} (--help tells which there are)"
            );
            Some(2)
        }
    }
}

/// What is told where a word asks for it.
#[derive(Debug, Clone, Copy, PartialEq, Eq)]
enum Told {
    Help,
    Version,
}

impl Told {
    fn text(self) -> &'static str {
        match self {
            Told::Help => HELP,
            Told::Version => VERSION,
        }
    }
}

/// What a word asks to be told.
fn told_by(word: &str) -> Option<Told>
    ensures { is_some result ≡ is_asking word.now }
{
    match word {
        "--help" => Some(Told::Help),
        "--version" => Some(Told::Version),
        _ => None,
    }
}
