//! What a run tells of its program, and of words that are none of its options.

ghost use Rattle.std.specs.Prelude.{◌≡◌, ◌⊎◌, None, Some, false, true};
ghost use Rattle.std.specs.Option.{is_some};
ghost use Rattle.swc_ecma_codegen_runs.specs.Words.{are_options, ask_for_text};

use crate::send;
use crate::words::{COMMON_OPTIONS, Words, are_options, is_given, may_follow, wants_more};
use std::alloc::{AllocError, Global};
use std::io::Write;
use strsim::levenshtein;

/// Tells of a program where the words ask for that, by `--help` or else by `--version`, and gives
/// the status: 1 where `out` doesn't take it. Nothing is told, and no status given, where they
/// don't.
pub fn tell_of<T: Words, O: Write>(words: &[String], out: &mut O) -> Option<u8>
    ensures none { ask_for_text words.now ≡ false → (result ≡ None) × (out.new ≡ out.old) }
    ensures some { ask_for_text words.now ≡ true → (result ≡ Some 0) ⊎ (result ≡ Some 1) }
{
    match asked_text::<T>(words) {
        Some(text) => match send(text.as_bytes(), out) {
            Ok(()) => Some(0),
            Err(_) => Some(1),
        },
        None => None,
    }
}

/// What the words ask to be told.
fn asked_text<T: Words>(words: &[String]) -> Option<&'static str>
    ensures { is_some result ≡ ask_for_text words.now }
{
    if is_given(words, "--help") {
        Some(T::help())
    } else if is_given(words, "--version") {
        Some(T::version())
    } else {
        None
    }
}

/// Tells which word is none of the program's options, with the nearest one, and gives the status 2.
/// Nothing is told, and no status given, where each is one. A fault of `err` changes nothing.
pub fn name_wrong_word<T: Words, E: Write>(
    alloc: Global,
    words: &[String],
    err: &mut E,
) -> Option<u8>
    ensures right { are_options T.is_own words.now ≡ true →
        (result ≡ None) × (err.new ≡ err.old) }
    ensures wrong { are_options T.is_own words.now ≡ false → result ≡ Some 2 }
{
    if are_options::<T>(words) {
        return None;
    }
    let line = match wrong_word::<T>(alloc, words) {
        Ok(line) => line,
        Err(AllocError) => String::new(alloc),
    };
    let _ = send(line.as_bytes(), err);
    Some(2)
}

/// The line that names the first word that is none of the program's options.
fn wrong_word<T: Words>(alloc: Global, words: &[String]) -> Result<String, AllocError> {
    let mut before = "";
    for word in words {
        if !may_follow::<T>(before, word) {
            return line_of::<T>(alloc, before, word);
        }
        before = word.as_str();
    }
    format!(in alloc;
        "{}: a word is missing behind {before}{}\n",
        T::name(),
        wanted_behind(before)
    )
}

/// The line that tells of a word behind another.
fn line_of<T: Words>(alloc: Global, before: &str, word: &str) -> Result<String, AllocError> {
    if wants_more(before) {
        return format!(in alloc;
            "{}: {before} {word}: {word} is none{}\n",
            T::name(),
            wanted_behind(before)
        );
    }
    match nearest(alloc, word, T::own_options())? {
        Some(right) => {
            format!(in alloc;
                "{}: no option {word}: is {right} meant? (--help lists all)\n",
                T::name()
            )
        }
        None => format!(in alloc; "{}: no option {word} (--help lists all)\n", T::name()),
    }
}

/// What has to stand behind a word.
fn wanted_behind(before: &str) -> &'static str {
    match before {
        "--target" => {
            " of es3, es5, es2015, es2016, es2017, es2018, es2019, es2020, es2021, es2022, esnext"
        }
        "--max-line" => " of the numbers 0 to 4294967295",
        _ => "",
    }
}

/// The option that is nearest to a word, where no more than a third of the word's letters have to
/// change.
fn nearest(
    alloc: Global,
    word: &str,
    own: &[&'static str],
) -> Result<Option<&'static str>, AllocError> {
    let (mut found, mut least) = (None, word.len() / LETTERS_FOR_AN_EDIT);
    for option in COMMON_OPTIONS {
        let edits = edits_to(alloc, word, option)?;
        if edits <= least {
            least = edits;
            found = Some(*option);
        }
    }
    for option in own {
        let edits = edits_to(alloc, word, option)?;
        if edits <= least {
            least = edits;
            found = Some(*option);
        }
    }
    Ok(found)
}

/// How many letters of a word allow one to be wrong: `--minfy` is near to `--minify`, and `--x` to
/// nothing.
const LETTERS_FOR_AN_EDIT: usize = 3;

/// How many letters have to change for a word to be an option. To end it is one change: `--ascii`
/// is near to `--ascii-only`.
fn edits_to(alloc: Global, word: &str, option: &str) -> Result<usize, AllocError> {
    if option.starts_with(word) {
        return Ok(1);
    }
    levenshtein(alloc, word, option)
}
