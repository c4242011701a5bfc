//! The text of templates.

ghost use Rattle.std.specs.Prelude.{◌≡◌, ◌++◌, ◌∷◌, ◌==◌, ℕ, Bool, true, false, List, [], OnOk, IfOk, IfErr, IfSome, IfNone, Some, ◌<◌, ◌≤◌, length, if◌then◌else◌};
ghost use Rattle.std.specs.Char.{digit_value};
ghost use Rattle.std.specs.List.{list_all};
ghost use Rattle.std.specs.Str.{encode_utf8_all};
ghost use Rattle.std.specs.Str.{chars, IsUtf8, IsAscii};
ghost use Rattle.std.specs.String.{string_bytes};
ghost use Rattle.swc_ecma_codegen_common.specs.declared.errors.Error.TheVariants.{OutOfMemory};
ghost use Rattle.swc_ecma_codegen_grammar.specs.Chars.{begins_digit};
ghost use Rattle.swc_ecma_codegen_grammar.specs.Numbers.{is_hex};
ghost use Rattle.swc_ecma_codegen_grammar.specs.Texts.{begins};
ghost use Rattle.swc_ecma_codegen_grammar.specs.TemplateValues.{cooked_value};
ghost use Rattle.swc_ecma_codegen_grammar.specs.Templates.{IsInsidePart};
ghost use Rattle.swc_ecma_codegen_literals.specs.TemplateTexts.{stands_bare, pieces, pieces_after, escape_piece, escape_more, is_kept, hex_piece, hex_more, hex_digits_piece, hex_value_piece, bare_text, piece_text, dollar_after, spelled_pieces, spelled_bytes, template_text};

use crate::escapes::{is_unseen, push_braced_escape, push_hex_escape, push_unit_escape};
use std::alloc::{AllocError, Global};
use swc_ecma_codegen_common::Error;

/// A piece of a template's raw text: a character, or an escape.
#[derive(Clone, Copy)]
pub(crate) enum Piece {
    /// A character: `a`, and what `\n`, `\x41` or `\a` stand for.
    Bare(char),
    /// A backslash and this character, copied: `\\`, `\r`, the `\u` of an escape.
    Backslashed(char),
    /// `\x1b`
    Hex(u8),
    /// Nothing: the backslash that stands right before U+2028 or U+2029, and a CR that stands right
    /// before a LF.
    Gone,
}

/// The text of an untagged template that is printed for its raw text. An escape that isn't needed
/// is the character that it stands for, CR LF and CR are LF, and with `ascii_only` all is in ASCII.
/// `Error::OutOfMemory` where there is no room for it. ECMA-262, section 12.9.6.
///
/// Source: `get_template_element_from_raw` of swc, but every escape keeps its value.
pub fn template_from_raw(
    alloc: Global,
    raw: &str,
    ascii_only: bool,
) -> std::result::Result<String, Error>
    ensures exactly { IfOk result (λ text. string_bytes text
        ≡ encode_utf8_all (template_text ascii_only (chars raw.now))) }
    ensures cooked { (units : List ℕ) → cooked_value (chars raw.now) ≡ Some units →
        IfOk result (λ text. cooked_value (chars (string_bytes text)) ≡ Some units) }
    ensures part { (units : List ℕ) → cooked_value (chars raw.now) ≡ Some units →
        IfOk result (λ text. IsInsidePart (chars (string_bytes text))) }
    ensures ascii { ascii_only ≡ true → IfOk result (λ text. IsAscii (string_bytes text)) }
    ensures refused { IfErr result (λ error. error ≡ OutOfMemory) }
{
    let mut text = String::with_capacity(alloc, raw.len())?;
    push_spelled(&mut text, raw, ascii_only)?;
    Ok(text)
}

// The pieces of a raw text, each as it is spelled. Characters that stand for themselves are copied
// a run at a time.
fn push_spelled(text: &mut String, raw: &str, ascii_only: bool) -> Result<(), AllocError>
    ensures { OnOk result (string_bytes text.new
        ≡ string_bytes text.old ++ spelled_bytes false ascii_only raw.now) }
{
    let mut rest = raw;
    let mut dollar = false;
    while !rest.is_empty() {
        let (run, after) = split_run(rest, ascii_only);
        text.push_str(run)?;
        (rest, dollar) = push_first_piece(text, after, dollar && run.is_empty(), ascii_only)?;
    }
    Ok(())
}

// The first piece of a raw text as it is spelled, which gives what follows it. `dollar` says that a
// bare `$` was written right before.
fn push_first_piece<'a>(
    text: &mut String,
    raw: &'a str,
    dollar: bool,
    ascii_only: bool,
) -> Result<(&'a str, bool), AllocError>
    ensures spelled { IfOk result (λ rest.
        string_bytes text.new ++ spelled_bytes rest.1 ascii_only rest.0.now
        ≡ string_bytes text.old ++ spelled_bytes dollar ascii_only raw.now) }
    ensures text { IfOk result (λ rest. IsUtf8 rest.0.now) }
    ensures shorter { IfOk result (λ rest. (length rest.0.now ≤ length raw.now)
        × (0 < length raw.now → length rest.0.now < length raw.now)) }
{
    match split_piece(raw) {
        Some((piece, next)) => {
            push_piece(text, piece, next, dollar, ascii_only)?;
            Ok((next, is_dollar(piece, dollar)))
        }
        None => Ok((raw, dollar)),
    }
}

// The characters at the start of a text that stand for themselves, whatever is written round them,
// and what follows.
fn split_run(text: &str, ascii_only: bool) -> (&str, &str)
    ensures texts { IsUtf8 result.0.now × IsUtf8 result.1.now }
    ensures parts { text.now ≡ result.0.now ++ result.1.now }
    ensures run { list_all (stands_bare ascii_only) (chars result.0.now) ≡ true }
{
    let mut rest = text;
    let mut chars = text.chars();
    while let Some(c) = chars.next() {
        if !stands_bare(c, ascii_only) {
            return text.split_at(text.len() - rest.len());
        }
        rest = chars.as_str();
    }
    (text, "")
}

#[tactic(auto, unfolding(crate::specs::TemplateTexts::stands_bare))]
fn stands_bare(c: char, ascii_only: bool) -> bool
    ensures { result ≡ stands_bare ascii_only c }
{
    if c < ' ' {
        c >= '\u{E}' || c == '\t' || c == '\n' || (c >= '\u{1}' && c <= '\u{7}')
    } else if c < '\u{7F}' {
        !(c == '$' || c == '\\' || c == '{')
    } else if c < '\u{100}' {
        false
    } else {
        !(ascii_only || is_unseen(c))
    }
}

// The first character of a text, and what follows.
fn split_char(text: &str) -> Option<(char, &str)>
    ensures none { IfNone result (chars text.now ≡ []) }
    ensures chars { IfSome result (λ first. chars text.now ≡ first.0 ∷ chars first.1.now) }
    ensures text { IfSome result (λ first. IsUtf8 first.1.now) }
    ensures shorter { IfSome result (λ first. length first.1.now < length text.now) }
{
    let mut chars = text.chars();
    let c = chars.next()?;
    Some((c, chars.as_str()))
}

#[tactic(auto, unfolding(swc_ecma_codegen_grammar::specs::Texts::begins))]
fn begins_with(text: &str, c: char) -> bool
    ensures { result ≡ begins (c ∷ []) (chars text.now) }
{
    match split_char(text) {
        Some((first, _)) => c == first,
        None => false,
    }
}

// The first piece of a raw text, and what follows.
#[tactic(auto, unfolding(crate::specs::TemplateTexts::pieces_after, crate::specs::TemplateTexts::first_piece, crate::specs::TemplateTexts::piece_more))]
fn split_piece(raw: &str) -> Option<(Piece, &str)>
    ensures none { IfNone result (chars raw.now ≡ []) }
    ensures pieces { IfSome result (λ first. pieces (chars raw.now)
        ≡ first.0 ∷ pieces (chars first.1.now)) }
    ensures text { IfSome result (λ first. IsUtf8 first.1.now) }
    ensures shorter { IfSome result (λ first. length first.1.now < length raw.now) }
{
    let (c, rest) = split_char(raw)?;
    Some(match c {
        '\\' => split_escape(rest),
        '\r' if begins_with(rest, '\n') => (Piece::Gone, rest),
        '\r' => (Piece::Bare('\n'), rest),
        _ => (Piece::Bare(c), rest),
    })
}

// The piece that a backslash begins, which `raw` follows, and what follows the piece.
#[tactic(auto, unfolding(crate::specs::TemplateTexts::pieces_after, crate::specs::TemplateTexts::escape_piece, crate::specs::TemplateTexts::escape_more))]
fn split_escape(raw: &str) -> (Piece, &str)
    ensures piece { result.0 ≡ escape_piece (chars raw.now) }
    ensures rest { pieces_after (escape_more (chars raw.now)) (chars raw.now)
        ≡ pieces (chars result.1.now) }
    ensures text { IsUtf8 result.1.now }
    ensures shorter { length result.1.now ≤ length raw.now }
{
    let Some((c, rest)) = split_char(raw) else {
        return (Piece::Bare('\\'), raw);
    };
    match c {
        'n' => (Piece::Bare('\n'), rest),
        't' => (Piece::Bare('\t'), rest),
        '0' => (Piece::Bare('\0'), rest),
        'x' => split_hex(rest),
        '\u{2028}' | '\u{2029}' => (Piece::Gone, rest),
        '\r' => (Piece::Backslashed('\n'), skip_line_feed(rest)),
        _ if is_kept(c, rest) => (Piece::Backslashed(c), rest),
        _ => (Piece::Bare(c), rest),
    }
}

// What follows a LF that a text begins with, or else the text.
#[tactic(auto, unfolding(crate::specs::TemplateTexts::pieces_after, swc_ecma_codegen_grammar::specs::Texts::begins))]
fn skip_line_feed(raw: &str) -> &str
    ensures rest { pieces (chars result.now) ≡ pieces_after
        (if begins (10 ∷ []) (chars raw.now) then 1 else 0) (chars raw.now) }
    ensures text { IsUtf8 result.now }
    ensures shorter { length result.now ≤ length raw.now }
{
    match split_char(raw) {
        Some(('\n', rest)) => rest,
        _ => raw,
    }
}

// Whether the backslash before a character, which `rest` follows, is copied.
#[tactic(auto, unfolding(crate::specs::TemplateTexts::is_kept))]
fn is_kept(c: char, rest: &str) -> bool
    ensures { result ≡ is_kept c (chars rest.now) }
{
    match c {
        '\\' | 'r' | 'v' | 'b' | 'f' | 'u' | '\n' | '`' | '1'..='7' => true,
        '$' => begins_with(rest, '{'),
        _ => false,
    }
}

// What stands behind `\x` in a raw, and the rest of the raw.
#[tactic(auto, unfolding(crate::specs::TemplateTexts::pieces_after, crate::specs::TemplateTexts::hex_piece, crate::specs::TemplateTexts::hex_more))]
fn split_hex(raw: &str) -> (Piece, &str)
    ensures piece { result.0 ≡ hex_piece (chars raw.now) }
    ensures rest { pieces_after (hex_more (hex_piece (chars raw.now))) (chars raw.now)
        ≡ pieces (chars result.1.now) }
    ensures text { IsUtf8 result.1.now }
    ensures shorter { length result.1.now ≤ length raw.now }
{
    let Some((first, after)) = split_char(raw) else {
        return (Piece::Backslashed('x'), raw);
    };
    let Some((second, rest)) = split_char(after) else {
        return (Piece::Backslashed('x'), raw);
    };
    match hex_digits_piece(first, second) {
        Piece::Backslashed(c) => (Piece::Backslashed(c), raw),
        piece => (piece, rest),
    }
}

#[tactic(auto, unfolding(crate::specs::TemplateTexts::hex_digits_piece))]
fn hex_digits_piece(first: char, second: char) -> Piece
    ensures { result ≡ hex_digits_piece first second }
{
    let Some(high) = hex_value(first) else {
        return Piece::Backslashed('x');
    };
    let Some(low) = hex_value(second) else {
        return Piece::Backslashed('x');
    };
    hex_value_piece(high * 16 + low)
}

#[tactic(auto, using(crate::proofs::TemplatePieces::hex_from_value, crate::proofs::TemplatePieces::not_hex))]
fn hex_value(c: char) -> Option<u8>
    ensures none { IfNone result (is_hex c ≡ false) }
    ensures some { IfSome result (λ value. (is_hex c ≡ true) × (value ≡ digit_value c)
        × (value < 16)) }
{
    let value = c.to_digit(16)?;
    Some(value as u8)
}

// `\x41` is `A`, `\x1B` is `\x1b`. A bare `$`, backslash, back quote or `{` may mean more: there
// `\x` is copied.
#[tactic(auto, unfolding(crate::specs::TemplateTexts::hex_value_piece, crate::specs::TemplateTexts::stays_hex))]
fn hex_value_piece(value: u8) -> Piece
    ensures { result ≡ hex_value_piece value }
{
    match value {
        b'$' | b'\\' | b'`' | b'{' => Piece::Backslashed('x'),
        0 | b' '..=b'~' => Piece::Bare(value as char),
        _ => Piece::Hex(value),
    }
}

// A piece as it is spelled, which `next` follows.
#[tactic(auto, using(crate::proofs::TemplatePieces::hex_bytes), unfolding(crate::specs::TemplateTexts::piece_text, crate::specs::TemplateTexts::dollar_after))]
fn push_piece(
    text: &mut String,
    piece: Piece,
    next: &str,
    dollar: bool,
    ascii_only: bool,
) -> Result<(), AllocError>
    ensures { OnOk result (string_bytes text.new
        ≡ string_bytes text.old ++ encode_utf8_all (piece_text dollar ascii_only piece
        (spelled_pieces (dollar_after dollar piece) ascii_only (pieces (chars next.now))))) }
{
    match piece {
        Piece::Bare(c) => push_bare(text, c, next, dollar, ascii_only),
        Piece::Backslashed(c) => {
            text.push('\\')?;
            text.push(c)
        }
        Piece::Hex(value) => push_hex_escape(text, u32::from(value)),
        Piece::Gone => Ok(()),
    }
}

// A character as it is spelled.
#[tactic(auto, using(crate::proofs::TemplatePieces::hex_bytes, crate::proofs::TemplatePieces::unit_bytes, crate::proofs::TemplatePieces::braced_bytes, crate::proofs::TemplatePieces::unseen_small), unfolding(crate::specs::TemplateTexts::bare_text))]
fn push_bare(
    text: &mut String,
    c: char,
    next: &str,
    dollar: bool,
    ascii_only: bool,
) -> Result<(), AllocError>
    ensures { OnOk result (string_bytes text.new
        ≡ string_bytes text.old ++ encode_utf8_all (bare_text dollar ascii_only c
        (spelled_pieces (c == 36) ascii_only (pieces (chars next.now))))) }
{
    match c {
        '\0' if writes_digit(next) => text.push_str("\\x00"),
        '\0' => text.push_str("\\0"),
        '\u{8}' => text.push_str("\\b"),
        '\u{B}' => text.push_str("\\v"),
        '\u{C}' => text.push_str("\\f"),
        '{' if dollar => text.push_str("\\{"),
        _ if is_unseen(c) => push_unit_escape(text, c as u32),
        _ if c < '\u{7F}' => text.push(c),
        _ if c < '\u{100}' => push_hex_escape(text, c as u32),
        _ if ascii_only => push_braced_escape(text, c as u32),
        _ => text.push(c),
    }
}

// Whether the first character that is written for a raw text is a digit.
fn writes_digit(raw: &str) -> bool
    ensures { (dollar ascii : Bool) →
        result ≡ begins_digit (spelled_pieces dollar ascii (pieces (chars raw.now))) }
{
    let mut rest = raw;
    while let Some((piece, next)) = split_piece(rest) {
        match piece {
            Piece::Bare(c) => return c.is_ascii_digit(),
            Piece::Gone => rest = next,
            _ => return false,
        }
    }
    false
}

// Whether a bare `$` comes right before what follows a piece.
#[tactic(auto, unfolding(crate::specs::TemplateTexts::dollar_after))]
fn is_dollar(piece: Piece, dollar: bool) -> bool
    ensures { result ≡ dollar_after dollar piece }
{
    match piece {
        Piece::Bare(c) => c == '$',
        Piece::Gone => dollar,
        _ => false,
    }
}
