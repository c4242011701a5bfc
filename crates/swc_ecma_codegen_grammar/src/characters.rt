//! Tests on characters, as plain programs.

ghost use Rattle.std.specs.Prelude.{◌≡◌};
ghost use Rattle.swc_ecma_codegen_grammar.specs.Chars as chars;

/// A decimal digit. ECMA-262, section 12.9.3.
#[tactic(auto, unfolding(crate::specs::Chars::is_digit))]
pub fn is_digit(c: char) -> bool
    ensures { result ≡ chars.is_digit c }
{
    '0' <= c && c <= '9'
}

/// An ASCII letter. Section 12.7.
#[tactic(auto, unfolding(crate::specs::Chars::is_letter))]
pub fn is_letter(c: char) -> bool
    ensures { result ≡ chars.is_letter c }
{
    ('A' <= c && c <= 'Z') || ('a' <= c && c <= 'z')
}

/// A character that may begin a name. Section 12.7.
#[tactic(auto, unfolding(crate::specs::Chars::is_start))]
pub fn is_start(c: char) -> bool
    ensures { result ≡ chars.is_start c }
{
    if c < '\u{80}' {
        is_letter(c) || c == '$' || c == '_'
    } else {
        unicode_ident::is_xid_start(c)
    }
}

/// A character that may go on with a name. Section 12.7.
#[tactic(auto, unfolding(crate::specs::Chars::is_part))]
pub fn is_part(c: char) -> bool
    ensures { result ≡ chars.is_part c }
{
    if c < '\u{80}' {
        is_letter(c) || is_digit(c) || c == '$' || c == '_'
    } else {
        unicode_ident::is_xid_continue(c) || c == '\u{200c}' || c == '\u{200d}'
    }
}

/// A blank, a tab, LF or CR. Sections 12.2 and 12.3.
#[tactic(auto, unfolding(crate::specs::Chars::is_blank))]
pub fn is_blank(c: char) -> bool
    ensures { result ≡ chars.is_blank c }
{
    c == ' ' || c == '\t' || c == '\n' || c == '\r'
}

/// A line terminator. Section 12.3.
#[tactic(auto, unfolding(crate::specs::Chars::is_line_end))]
pub fn is_line_end(c: char) -> bool
    ensures { result ≡ chars.is_line_end c }
{
    c == '\n' || c == '\r' || c == '\u{2028}' || c == '\u{2029}'
}

/// `"` or `'`.
#[tactic(auto, unfolding(crate::specs::Chars::is_quote))]
pub fn is_quote(c: char) -> bool
    ensures { result ≡ chars.is_quote c }
{
    c == '"' || c == '\''
}

/// Whether a text begins with a decimal digit.
#[tactic(auto, unfolding(crate::specs::Chars::begins_digit))]
pub(crate) fn begins_digit(text: &[char]) -> bool
    ensures { result ≡ chars.begins_digit text.now }
{
    match text {
        [] => false,
        [c, ..] => is_digit(*c),
    }
}
