//! How a text begins.

ghost use Rattle.std.specs.Prelude.{◌≡◌, ◌<◌, ◌∷◌, [], codes, MatchOption};
ghost use Rattle.std.specs.Str.{chars};
ghost use Rattle.swc_ecma_codegen_grammar.specs.Chars.{is_part, begins_digit};
ghost use Rattle.swc_ecma_codegen_grammar.specs.Texts.{begins};
ghost use Rattle.swc_ecma_codegen_literals.specs.Punctuators.{spelling};
ghost use Rattle.swc_ecma_codegen_tokens.specs.Starts.{mark_start, order, start_class, char_start, begins_letter, begins_name, begins_quote};

use swc_ecma_codegen_literals::Punctuator;
use unicode_ident::is_xid_continue;

/// How a text begins, as far as what comes before may fuse with it.
#[derive(Debug, Clone, Copy, PartialEq, Eq)]
pub enum StartClass {
    /// A character of a name, or a backslash.
    NameCharacter,
    /// A decimal digit.
    Digit,
    /// `.` before a decimal digit.
    DotDigit,
    /// `.` before anything else.
    Dot,
    /// `--`.
    MinusMinus,
    /// `{`.
    LeftBrace,
    /// `}`.
    RightBrace,
    /// `(`.
    LeftParenthesis,
    /// `)`.
    RightParenthesis,
    /// `[`.
    LeftBracket,
    /// `]`.
    RightBracket,
    /// `;`.
    Semicolon,
    /// `,`.
    Comma,
    /// `<`.
    Less,
    /// `>`.
    Greater,
    /// `=`.
    Equal,
    /// `!`.
    Bang,
    /// `+`.
    Plus,
    /// `-` before anything but `-`.
    Minus,
    /// `*`.
    Star,
    /// `%`.
    Percent,
    /// `&`.
    Ampersand,
    /// `|`.
    Bar,
    /// `^`.
    Caret,
    /// `~`.
    Tilde,
    /// `?`.
    Question,
    /// `:`.
    Colon,
    /// `/`.
    Slash,
    /// `@`.
    At,
    /// Anything else, or nothing.
    Rest,
}

/// How each punctuator begins.
static MARKS: [StartClass; 58] = [
    StartClass::LeftBrace,
    StartClass::RightBrace,
    StartClass::LeftParenthesis,
    StartClass::RightParenthesis,
    StartClass::LeftBracket,
    StartClass::RightBracket,
    StartClass::Dot,
    StartClass::Dot,
    StartClass::Semicolon,
    StartClass::Comma,
    StartClass::Less,
    StartClass::Greater,
    StartClass::Less,
    StartClass::Greater,
    StartClass::Equal,
    StartClass::Bang,
    StartClass::Equal,
    StartClass::Bang,
    StartClass::Plus,
    StartClass::Minus,
    StartClass::Star,
    StartClass::Percent,
    StartClass::Star,
    StartClass::Plus,
    StartClass::MinusMinus,
    StartClass::Less,
    StartClass::Greater,
    StartClass::Greater,
    StartClass::Ampersand,
    StartClass::Bar,
    StartClass::Caret,
    StartClass::Bang,
    StartClass::Tilde,
    StartClass::Ampersand,
    StartClass::Bar,
    StartClass::Question,
    StartClass::Question,
    StartClass::Colon,
    StartClass::Equal,
    StartClass::Plus,
    StartClass::Minus,
    StartClass::Star,
    StartClass::Percent,
    StartClass::Star,
    StartClass::Less,
    StartClass::Greater,
    StartClass::Greater,
    StartClass::Ampersand,
    StartClass::Bar,
    StartClass::Caret,
    StartClass::Ampersand,
    StartClass::Bar,
    StartClass::Question,
    StartClass::Equal,
    StartClass::Slash,
    StartClass::Slash,
    StartClass::Question,
    StartClass::At,
];

impl StartClass {
    /// How a text begins. Most names begin with a small letter of ASCII.
    #[inline(always)]
    #[tactic(auto, using(crate::proofs::Gaps::Starting::letter_start))]
    pub fn of_text(text: &str) -> StartClass
        ensures { result ≡ start_class (chars text.now) }
    {
        if begins_letter(text) {
            StartClass::NameCharacter
        } else {
            StartClass::of_any(text)
        }
    }

    /// The same of a text that mostly is a string or a number: `"a"` or `1`.
    #[inline(always)]
    #[tactic(auto, using(crate::proofs::Gaps::Starting::quote_start, crate::proofs::Gaps::Starting::digit_start))]
    pub fn of_literal(text: &str) -> StartClass
        ensures { result ≡ start_class (chars text.now) }
    {
        if begins_quote(text) {
            StartClass::Rest
        } else if begins_number(text) {
            StartClass::Digit
        } else {
            StartClass::of_any(text)
        }
    }

    /// The same, whatever it begins with.
    #[inline(never)]
    fn of_any(text: &str) -> StartClass
        ensures { result ≡ start_class (chars text.now) }
    {
        match split_first_char(text) {
            Some(('.', rest)) => StartClass::of_dot(rest),
            Some(('-', rest)) => StartClass::of_dash(rest),
            Some((first, _)) => StartClass::of_char(first),
            None => StartClass::Rest,
        }
    }

    /// How a punctuator begins.
    #[tactic(auto, unfolding(crate::specs::Starts::start_class, crate::specs::Starts::char_start, crate::specs::Starts::mark_start, crate::specs::Starts::marks, crate::specs::Starts::class_in, swc_ecma_codegen_grammar::specs::Chars::is_part, swc_ecma_codegen_grammar::specs::Chars::is_letter, swc_ecma_codegen_grammar::specs::Chars::is_digit, swc_ecma_codegen_grammar::specs::Chars::begins_digit, swc_ecma_codegen_grammar::specs::Texts::begins))]
    pub fn of_mark(mark: Punctuator) -> StartClass
        ensures { result ≡ start_class (spelling mark) }
    {
        MARKS[mark as usize]
    }

    /// How a text begins whose first character is a dot, before `rest`.
    fn of_dot(rest: &str) -> StartClass
        ensures { result ≡ start_class (46 ∷ chars rest.now) }
    {
        if begins_digit(rest) {
            StartClass::DotDigit
        } else {
            StartClass::Dot
        }
    }

    /// How a text begins whose first character is a dash, before `rest`.
    fn of_dash(rest: &str) -> StartClass
        ensures { result ≡ start_class (45 ∷ chars rest.now) }
    {
        if begins_dash(rest) {
            StartClass::MinusMinus
        } else {
            StartClass::Minus
        }
    }

    /// How a text begins whose first character this is, where what follows doesn't matter.
    #[tactic(auto, unfolding(crate::specs::Starts::char_start, swc_ecma_codegen_grammar::specs::Chars::is_digit))]
    fn of_char(first: char) -> StartClass
        ensures { result ≡ char_start first }
    {
        if first.is_ascii_digit() {
            StartClass::Digit
        } else if is_part(first) || first == '\\' {
            StartClass::NameCharacter
        } else {
            mark_start(first)
        }
    }

    /// Its place among all of them.
    #[tactic(auto, unfolding(crate::specs::Starts::order))]
    pub(crate) fn place(self) -> usize
        ensures value { result ≡ order self }
        ensures below { result < 30 }
    {
        self as usize
    }
}

/// The class of a character that is none of a name.
#[tactic(auto, unfolding(crate::specs::Starts::mark_start, crate::specs::Starts::marks, crate::specs::Starts::class_in))]
fn mark_start(c: char) -> StartClass
    ensures { result ≡ mark_start c }
{
    match c {
        '.' => StartClass::Dot,
        '{' => StartClass::LeftBrace,
        '}' => StartClass::RightBrace,
        '(' => StartClass::LeftParenthesis,
        ')' => StartClass::RightParenthesis,
        '[' => StartClass::LeftBracket,
        ']' => StartClass::RightBracket,
        ';' => StartClass::Semicolon,
        ',' => StartClass::Comma,
        '<' => StartClass::Less,
        '>' => StartClass::Greater,
        '=' => StartClass::Equal,
        '!' => StartClass::Bang,
        '+' => StartClass::Plus,
        '-' => StartClass::Minus,
        '*' => StartClass::Star,
        '%' => StartClass::Percent,
        '&' => StartClass::Ampersand,
        '|' => StartClass::Bar,
        '^' => StartClass::Caret,
        '~' => StartClass::Tilde,
        '?' => StartClass::Question,
        ':' => StartClass::Colon,
        '/' => StartClass::Slash,
        '@' => StartClass::At,
        _ => StartClass::Rest,
    }
}

/// The first character, and what follows it.
pub(crate) fn split_first_char(text: &str) -> Option<(char, &str)>
    ensures { MatchOption result (chars text.now ≡ [])
        (λ (first, rest). chars text.now ≡ first ∷ chars rest.now) }
{
    let mut chars = text.chars();
    match chars.next() {
        Some(first) => Some((first, chars.as_str())),
        None => None,
    }
}

/// Whether a name goes on with this character.
#[tactic(auto, unfolding(swc_ecma_codegen_grammar::specs::Chars::is_part, swc_ecma_codegen_grammar::specs::Chars::is_letter, swc_ecma_codegen_grammar::specs::Chars::is_digit))]
fn is_part(c: char) -> bool
    ensures { result ≡ is_part c }
{
    if c.is_ascii() {
        c.is_ascii_alphanumeric() || matches!(c, '$' | '_')
    } else {
        is_xid_continue(c) || matches!(c, '\u{200c}' | '\u{200d}')
    }
}

/// Whether a text begins with a small letter of ASCII.
#[inline(always)]
fn begins_letter(text: &str) -> bool
    ensures { result ≡ begins_letter text.now }
{
    match text.as_bytes().first() {
        Some(first) => first.is_ascii_lowercase(),
        None => false,
    }
}

/// Whether a text begins with a letter of ASCII, `$` or `_`, as most names do.
#[inline(always)]
#[tactic(auto, unfolding(swc_ecma_codegen_grammar::specs::Chars::is_letter))]
pub fn begins_name(text: &str) -> bool
    ensures { result ≡ begins_name text.now }
{
    match text.as_bytes().first() {
        Some(first) => first.is_ascii_alphabetic() || matches!(*first, b'$' | b'_'),
        None => false,
    }
}

/// Whether a text begins with a quotation mark.
#[inline(always)]
fn begins_quote(text: &str) -> bool
    ensures { result ≡ begins_quote text.now }
{
    match text.as_bytes().first() {
        Some(first) => matches!(*first, b'"' | b'\''),
        None => false,
    }
}

/// Whether a text begins with the byte of a decimal digit.
#[inline(always)]
#[tactic(auto, unfolding(swc_ecma_codegen_grammar::specs::Chars::begins_digit, swc_ecma_codegen_grammar::specs::Chars::is_digit))]
fn begins_number(text: &str) -> bool
    ensures { result ≡ begins_digit text.now }
{
    match text.as_bytes().first() {
        Some(first) => first.is_ascii_digit(),
        None => false,
    }
}

/// Whether a text begins with a decimal digit.
fn begins_digit(text: &str) -> bool
    ensures { result ≡ begins_digit (chars text.now) }
{
    match split_first_char(text) {
        Some((first, _)) => first.is_ascii_digit(),
        None => false,
    }
}

/// Whether a text begins with `-`.
fn begins_dash(text: &str) -> bool
    ensures { result ≡ begins (codes "-") (chars text.now) }
{
    match split_first_char(text) {
        Some((first, _)) => first == '-',
        None => false,
    }
}
