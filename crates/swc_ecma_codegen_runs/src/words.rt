//! The words of a run.

ghost use Rattle.std.specs.Prelude.{◌≡◌, ◌||◌, ℕ, List, Bool, false, true, None, Err, Ok};
ghost use Rattle.swc_ecma_codegen_runs.specs.Words.{
  are_options,
  is_given,
  is_option,
  last_length,
  last_version,
  length_named,
  may_follow,
  options_of,
  settings_of,
  version_named,
  wants_more,
};

use crate::faults::Fault;
use swc_ecma_codegen::Config;
use swc_ecma_codegen_common::EsVersion;

/// What differs from program to program in the words of a run.
pub trait Words {
    /// The line that tells of wrong words.
    ghost usage_line: { List ℕ };
    /// A word is an option of this program, besides those of `ecmagen`.
    ghost is_own: { List ℕ → Bool };

    /// The program's name.
    fn name() -> &'static str;

    /// What `--help` tells: each option in a line.
    fn help() -> &'static str;

    /// What `--version` tells: the line with this program's version and swc's.
    fn version() -> &'static str;

    /// The options of this program, besides those of `ecmagen`.
    fn own_options() -> &'static [&'static str] {
        &[]
    }

    /// The line that tells of wrong words.
    fn usage_line() -> &'static str
        ensures { result.now ≡ usage_line };

    /// Whether a word is an option of this program, besides those of `ecmagen`.
    fn is_own(word: &str) -> bool
        ensures { result ≡ is_own word.now };
}

/// What the words of a run ask for. A word that is given again asks for nothing more.
#[derive(Debug, Clone, Copy, PartialEq, Eq)]
pub struct Options {
    /// `--minify`: blanks and line ends stand only where one is needed.
    pub minify: bool,
    /// `--omit-last-semi`: a semicolon that is held back at the end is left out.
    pub omit_last_semi: bool,
    /// `--ascii-only`: names and strings are written in ASCII.
    pub ascii_only: bool,
    /// `--assert`: `assert` stands before import attributes, and not `with`.
    pub assert_for_attributes: bool,
    /// `--inline-script`: strings hold neither `</script` nor `<!--` nor `-->`.
    pub inline_script: bool,
    /// `--target es5`: literals are spelled for this version. The last one counts.
    pub target: EsVersion,
    /// `--max-line 80`: with `minify` a line of a program has at most this length, in UTF-16 units,
    /// where one may be ended. The last one counts.
    pub max_line: Option<u32>,
    /// `--positions`: standard error gets the positions of the source, with where they stand in the
    /// text.
    pub positions: bool,
    /// `--any`: a program that isn't well-formed is printed too.
    pub any: bool,
    /// `--fewest`, where a program has this option: the parentheses of the tree are taken away
    /// first.
    pub fewest: bool,
}

impl Options {
    /// What the words ask for. Where one of them is no option of the program, they are wrong words.
    pub fn of_words<T: Words>(words: &[String]) -> Result<Options, Fault>
        ensures taken { are_options T.is_own words.now ≡ true → result ≡ Ok (options_of words.now) }
        ensures wrong { are_options T.is_own words.now ≡ false → result ≡ Err Fault.Usage }
    {
        if !are_options::<T>(words) {
            return Err(Fault::Usage);
        }
        Ok(Options {
            minify: is_given(words, "--minify"),
            omit_last_semi: is_given(words, "--omit-last-semi"),
            ascii_only: is_given(words, "--ascii-only"),
            assert_for_attributes: is_given(words, "--assert"),
            inline_script: is_given(words, "--inline-script"),
            target: last_version(words),
            max_line: last_length(words),
            positions: is_given(words, "--positions"),
            any: is_given(words, "--any"),
            fewest: is_given(words, "--fewest"),
        })
    }

    /// The settings that they ask for, and else the default ones.
    pub fn settings(self) -> Config
        ensures { result ≡ settings_of self }
    {
        Config::default()
            .with_target(self.target)
            .with_minify(self.minify)
            .with_omit_last_semi(self.omit_last_semi)
            .with_ascii_only(self.ascii_only)
            .with_emit_assert_for_import_attributes(self.assert_for_attributes)
            .with_inline_script(self.inline_script)
            .with_max_line(self.max_line)
    }
}

/// The version of the language that a word names.
fn version_named(word: &str) -> Option<EsVersion>
    ensures { result ≡ version_named word.now }
{
    match word {
        "es3" => Some(EsVersion::Es3),
        "es5" => Some(EsVersion::Es5),
        "es2015" => Some(EsVersion::Es2015),
        "es2016" => Some(EsVersion::Es2016),
        "es2017" => Some(EsVersion::Es2017),
        "es2018" => Some(EsVersion::Es2018),
        "es2019" => Some(EsVersion::Es2019),
        "es2020" => Some(EsVersion::Es2020),
        "es2021" => Some(EsVersion::Es2021),
        "es2022" => Some(EsVersion::Es2022),
        "esnext" => Some(EsVersion::EsNext),
        _ => None,
    }
}

/// The greatest length of a line that a word writes, in decimal digits: 80 for `80` and `080`.
fn length_named(word: &str) -> Option<u32>
    ensures { result ≡ length_named word.now }
{
    // (`parse` takes a sign too)
    if word.starts_with('+') {
        return None;
    }
    word.parse().ok()
}

/// Whether a word is an option of a program.
fn is_option<T: Words>(word: &str) -> bool
    ensures { result ≡ (is_option word.now || T.is_own word.now) }
{
    is_common_option(word) || T::is_own(word)
}

/// The options of each program.
pub(crate) const COMMON_OPTIONS: &[&str] = &[
    "--minify",
    "--omit-last-semi",
    "--ascii-only",
    "--assert",
    "--inline-script",
    "--positions",
    "--any",
    "--target",
    "--max-line",
    "--help",
    "--version",
];

/// Whether a word is an option of each program.
fn is_common_option(word: &str) -> bool
    ensures { result ≡ is_option word.now }
{
    matches!(
        word,
        "--minify"
            | "--omit-last-semi"
            | "--ascii-only"
            | "--assert"
            | "--inline-script"
            | "--positions"
            | "--any"
            | "--target"
            | "--max-line"
    )
}

/// Whether a word comes after this one that says more.
pub(crate) fn wants_more(word: &str) -> bool
    ensures { result ≡ wants_more word.now }
{
    matches!(word, "--target" | "--max-line")
}

/// Whether a word may come right after another, or after none, which is an empty one here.
pub(crate) fn may_follow<T: Words>(before: &str, word: &str) -> bool
    ensures { result ≡ may_follow T.is_own before.now word.now }
{
    match before {
        "--target" => version_named(word).is_some(),
        "--max-line" => length_named(word).is_some(),
        _ => is_option::<T>(word),
    }
}

/// Whether each of these words is an option, and the name of a version comes after each `--target`,
/// a length after each `--max-line`, and neither anywhere else.
pub(crate) fn are_options<T: Words>(words: &[String]) -> bool
    ensures { result ≡ are_options T.is_own words.now }
{
    let mut before = "";
    for word in words {
        if !may_follow::<T>(before, word) {
            return false;
        }
        before = word.as_str();
    }
    !wants_more(before)
}

/// Whether a word stands among these.
pub(crate) fn is_given(words: &[String], word: &str) -> bool
    ensures { result ≡ is_given word.now words.now }
{
    words.iter().any(|given| given.as_str() == word)
}

/// The version of the last name of one among these words; the latest where there is none.
fn last_version(words: &[String]) -> EsVersion
    ensures { result ≡ last_version EsVersion.EsNext words.now }
{
    let mut version = EsVersion::latest();
    for word in words {
        version = version_named(word).unwrap_or(version);
    }
    version
}

/// The last length among these words; none where there is none.
fn last_length(words: &[String]) -> Option<u32>
    ensures { result ≡ last_length None words.now }
{
    let mut length = None;
    for word in words {
        length = length_named(word).or(length);
    }
    length
}
