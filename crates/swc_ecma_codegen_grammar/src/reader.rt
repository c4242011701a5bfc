//! A plain, slow reader of texts: for given kinds of tokens it finds the tokens, or that there are
//! none.

ghost use Rattle.std.specs.Prelude.{◌≡◌, ◌<◌, ◌≤◌, ◌-◌, ◌||◌, ◌&&◌, ℕ, List, map, not, take, true, false, length, IfOk, IfSome, IfNone};
ghost use Rattle.std.specs.Str.{chars as chars_of};
ghost use Rattle.swc_ecma_codegen_grammar.specs.Chars as chars;
ghost use Rattle.swc_ecma_codegen_grammar.specs.Tokens as tokens;
ghost use Rattle.swc_ecma_codegen_grammar.specs.Reads as reads;
ghost use Rattle.swc_ecma_codegen_grammar.specs.LongestMatch as matches;
ghost use Rattle.swc_ecma_codegen_grammar.specs.Reading as reading;

use crate::characters::{begins_digit, is_part};
use crate::gaps::skip;
use crate::kinds::{Kind, TemplatePart};
use crate::names::{is_name, is_private_name, is_word};
use crate::numerals::{is_big_integer, is_number};
use crate::punctuation::is_punctuator;
use crate::shapes::{
    begins, is_hashbang, is_jsx_name, is_jsx_open, is_jsx_string, is_jsx_text, is_one_line,
    is_regex, is_same, is_string, is_template, is_template_rest,
};
use std::alloc::{AllocError, Global};

/// Whether a text has the shape of the tokens of a kind.
#[tactic(auto, unfolding(crate::specs::Tokens::has_shape))]
pub fn has_shape(kind: Kind, text: &[char]) -> bool
    ensures { result ≡ tokens.has_shape kind text.now }
{
    match kind {
        Kind::Word => is_word(text),
        Kind::Name => is_name(text),
        Kind::PrivateName => is_private_name(text),
        Kind::Punctuator => is_punctuator(text),
        Kind::Ending => is_same(text, &[';']),
        Kind::Number => is_number(text),
        Kind::BigInt => is_big_integer(text),
        Kind::Str => is_string(text),
        Kind::Regex => is_regex(text),
        Kind::Template(part) => is_template(part, text),
        Kind::TemplateRest(part) => is_template_rest(part, text),
        Kind::Close => is_same(text, &['>']),
        Kind::JsxName => is_jsx_name(text),
        Kind::JsxString => is_jsx_string(text),
        Kind::JsxText => is_jsx_text(text),
        Kind::JsxOpen => is_jsx_open(text),
        Kind::Hashbang => is_hashbang(text),
        Kind::SameLine => false,
    }
}

#[tactic(auto, unfolding(crate::specs::Reading::some_part, crate::specs::Tokens::has_shape))]
fn is_some_template(text: &[char]) -> bool
    ensures { result ≡ reading.some_part (λ part. tokens.has_shape (Kind.Template part) text.now) }
{
    is_template(
        TemplatePart {
            tagged: false,
            opens: false,
        },
        text,
    ) || is_template(
        TemplatePart {
            tagged: false,
            opens: true,
        },
        text,
    ) || is_template(
        TemplatePart {
            tagged: true,
            opens: false,
        },
        text,
    ) || is_template(
        TemplatePart {
            tagged: true,
            opens: true,
        },
        text,
    )
}

#[tactic(auto, unfolding(crate::specs::Reading::some_part, crate::specs::Tokens::has_shape))]
fn is_some_template_rest(text: &[char]) -> bool
    ensures { result ≡ reading.some_part (λ part.
        tokens.has_shape (Kind.TemplateRest part) text.now) }
{
    is_template_rest(
        TemplatePart {
            tagged: false,
            opens: false,
        },
        text,
    ) || is_template_rest(
        TemplatePart {
            tagged: false,
            opens: true,
        },
        text,
    ) || is_template_rest(
        TemplatePart {
            tagged: true,
            opens: false,
        },
        text,
    ) || is_template_rest(
        TemplatePart {
            tagged: true,
            opens: true,
        },
        text,
    )
}

#[tactic(auto, unfolding(crate::specs::Reading::some_shape, crate::specs::Tokens::has_shape))]
fn is_ordinary(text: &[char]) -> bool
    ensures { result ≡ reading.some_shape tokens.Ordinary text.now }
{
    is_word(text)
        || is_name(text)
        || is_private_name(text)
        || is_punctuator(text)
        || is_number(text)
        || is_big_integer(text)
        || is_string(text)
        || is_jsx_open(text)
        || is_some_template(text)
}

/// Whether a text is a token of the goal under which a kind is read.
#[tactic(auto, unfolding(crate::specs::Reading::some_shape, crate::specs::Tokens::goal, crate::specs::Tokens::has_shape))]
fn is_of_goal(kind: Kind, text: &[char]) -> bool
    ensures { result ≡ reading.some_shape (tokens.goal kind) text.now }
{
    match kind {
        Kind::Regex => is_regex(text),
        Kind::TemplateRest(_) => is_some_template_rest(text),
        Kind::Close => is_same(text, &['>']),
        Kind::JsxName => is_jsx_name(text),
        Kind::JsxString => is_jsx_string(text),
        Kind::JsxText => is_jsx_text(text),
        Kind::Hashbang => is_hashbang(text),
        Kind::SameLine => false,
        Kind::Word
        | Kind::Name
        | Kind::PrivateName
        | Kind::Punctuator
        | Kind::Ending
        | Kind::Number
        | Kind::BigInt
        | Kind::Str
        | Kind::Template(_)
        | Kind::JsxOpen => is_ordinary(text),
    }
}

/// Whether the first `n` characters are a token of the goal of `kind`, where the others follow.
#[tactic(auto, unfolding(crate::specs::Reading::stands_at))]
fn stands_at(kind: Kind, text: &[char], n: usize) -> bool
    requires { n ≤ length text.now }
    ensures { result ≡ reading.stands_at kind text.now n }
{
    let front = &text[..n];
    is_of_goal(kind, front) && !(is_same(front, &['?', '.']) && begins_digit(&text[n..]))
}

/// How many characters the longest token of the goal of `kind` has, at the start of a text, or 0.
fn longest(kind: Kind, text: &[char]) -> usize
    ensures within { result ≤ length text.now }
    ensures stands { 0 < result → reading.stands_at kind text.now result ≡ true }
    ensures longest { (m : ℕ) → result < m → m ≤ length text.now →
        reading.stands_at kind text.now m ≡ false }
{
    let mut n = text.len();
    while n > 0 {
        if stands_at(kind, text, n) {
            return n;
        }
        n -= 1;
    }
    0
}

#[tactic(auto, unfolding(crate::specs::Reading::opens_comment))]
fn opens_comment(text: &[char]) -> bool
    ensures { result ≡ reading.opens_comment text.now }
{
    begins(&['/', '/'], text)
        || begins(&['/', '*'], text)
        || begins(&['<', '!', '-', '-'], text)
        || begins(&['-', '-', '>'], text)
}

#[tactic(auto, unfolding(crate::specs::LongestMatch::goes_on))]
fn goes_on(text: &[char]) -> bool
    ensures { result ≡ matches.goes_on text.now }
{
    match text {
        [] => false,
        [c, ..] => is_part(*c) || *c == '\\',
    }
}

#[tactic(auto, unfolding(crate::specs::Reads::is_close_by, crate::specs::Reads::is_child, crate::specs::Reads::is_hashbang_kind))]
fn is_close_by(kind: Kind) -> bool
    ensures { result ≡ reads.is_close_by kind }
{
    match kind {
        Kind::JsxText | Kind::JsxOpen | Kind::Hashbang => true,
        _ => false,
    }
}

#[tactic(auto, unfolding(crate::specs::Reads::is_hashbang_kind))]
fn is_hashbang_kind(kind: Kind) -> bool
    ensures { result ≡ reads.is_hashbang_kind kind }
{
    match kind {
        Kind::Hashbang => true,
        _ => false,
    }
}

#[tactic(auto, unfolding(crate::specs::Reads::is_same_line))]
fn is_same_line(kind: Kind) -> bool
    ensures { result ≡ reads.is_same_line kind }
{
    match kind {
        Kind::SameLine => true,
        _ => false,
    }
}

#[tactic(auto, unfolding(crate::specs::Reading::is_jsx_text_kind))]
fn is_jsx_text_kind(kind: Kind) -> bool
    ensures { result ≡ reading.is_jsx_text_kind kind }
{
    match kind {
        Kind::JsxText => true,
        _ => false,
    }
}

#[tactic(auto, unfolding(crate::specs::LongestMatch::is_numeric_kind))]
fn is_numeric_kind(kind: Kind) -> bool
    ensures { result ≡ matches.is_numeric_kind kind }
{
    match kind {
        Kind::Number | Kind::BigInt => true,
        _ => false,
    }
}

#[tactic(auto, unfolding(crate::specs::Reading::fits))]
fn fits(first: bool, kind: Kind, text: &[char], n: usize) -> bool
    requires { n ≤ length text.now }
    ensures { result ≡ reading.fits first kind text.now n }
{
    0 < n
        && (first || !is_hashbang_kind(kind))
        && has_shape(kind, &text[..n])
        && (is_jsx_text_kind(kind) || !opens_comment(text))
        && !(is_numeric_kind(kind) && goes_on(&text[n..]))
}

/// Where the trivia before a token of a kind end.
#[tactic(auto, using(crate::proofs::ReadOne::starts_close, crate::proofs::ReadOne::starts_apart))]
fn start(kind: Kind, text: &[char]) -> &[char]
    ensures { reading.Starts kind text.now result.now }
{
    if is_close_by(kind) { text } else { skip(text) }
}

/// Whether the trivia before a start hold no line terminator, where they may hold none.
fn keeps_line(joined: bool, text: &[char], start: &[char]) -> bool
    requires { length start.now ≤ length text.now }
    ensures { result ≡ (not joined
        || chars.is_one_line (take (length text.now - length start.now) text.now)) }
{
    !joined || is_one_line(&text[..text.len() - start.len()])
}

/// Whether the next token is of this kind, where its `n` characters begin after the trivia.
fn takes(first: bool, joined: bool, kind: Kind, text: &[char], start: &[char], n: usize) -> bool
    requires taken { n ≤ length start.now }
    requires within { length start.now ≤ length text.now }
    ensures { result ≡ ((not joined
        || chars.is_one_line (take (length text.now - length start.now) text.now))
        && reading.fits first kind start.now n) }
{
    keeps_line(joined, text, start) && fits(first, kind, start, n)
}

/// The next token, where it is of this kind, and what is left. `joined`: no line terminator may
/// stand before it.
#[tactic(auto, using(crate::proofs::ReadOne::starts_within))]
fn read_one(first: bool, joined: bool, kind: Kind, text: &[char]) -> Option<(&[char], &[char])>
    ensures found { IfSome result (λ pair.
        reading.ReadsOne first joined kind text.now pair.0.now pair.1.now) }
    ensures none { IfNone result ((own rest : List ℕ) →
        reading.ReadsOne first joined kind text.now own rest → ⊥) }
{
    let begin = start(kind, text);
    let n = longest(kind, begin);
    if takes(first, joined, kind, text, begin, n) {
        Some((&begin[..n], &begin[n..]))
    } else {
        None
    }
}

/// The next token, where it is of this kind, and what is left. `[no LineTerminator here]` is one
/// too, though it is no text.
fn read_next(first: bool, joined: bool, kind: Kind, text: &[char]) -> Option<(&[char], &[char])>
    ensures found { IfSome result (λ pair.
        reading.ReadsNext first joined kind text.now pair.0.now pair.1.now) }
    ensures none { IfNone result (reading.ReadsNone first joined kind text.now) }
{
    if is_same_line(kind) {
        return Some((&text[..0], text));
    }
    match read_one(first, joined, kind, text) {
        None => None,
        Some((own, after)) => Some((own, after)),
    }
}

/// Whether nothing was read yet, after one more kind.
fn still_first(first: bool, joint: bool) -> bool
    ensures { result ≡ (first && joint) }
{
    first && joint
}

/// The tokens of a text, one of each of these kinds in turn, as they are spelled. `None`: the text
/// reads as no list of tokens of these kinds. `AllocError`: a growth was refused.
pub fn read_tokens<'a>(
    alloc: Global,
    text: &'a [char],
    kinds: &[Kind],
) -> Result<Option<Vec<&'a [char]>>, AllocError>
    ensures found { IfOk result (λ found.
        IfSome found (λ own.
        reading.ReadsAs kinds.now (map (λ text. text.now) own.items) text.now)) }
    ensures none { IfOk result (λ found. IfNone found (reading.ReadsAsNone kinds.now text.now)) }
{
    let mut found = Vec::new(alloc);
    let mut rest = text;
    let mut first = true;
    let mut joined = false;
    for kind in kinds {
        match read_next(first, joined, *kind, rest) {
            None => return Ok(None),
            Some((own, after)) => {
                found.push(own)?;
                rest = after;
                joined = is_same_line(*kind);
                first = still_first(first, joined);
            }
        }
    }
    if skip(rest).is_empty() {
        Ok(Some(found))
    } else {
        Ok(None)
    }
}

/// The characters of a text. `AllocError`: a growth was refused.
pub fn characters(alloc: Global, text: &str) -> Result<Vec<char>, AllocError>
    ensures { IfOk result (λ found. found.items ≡ chars_of text.now) }
{
    text.chars().collect(alloc)
}
