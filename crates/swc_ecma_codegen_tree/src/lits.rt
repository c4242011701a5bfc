//! Literals.

use swc_ecma_codegen_common::{Decimal, Span};

/// `1` or `"a"`: a literal. ECMA-262, section 12.9.
#[derive(Drop)]
pub enum Lit {
    /// `"a"`
    Str(Str),
    /// `true`
    Bool(Bool),
    /// `null`
    Null(Null),
    /// `1.5`
    Num(Box<Number>),
    /// `1n`
    BigInt(Box<BigInt>),
    /// `/a/g`
    Regex(Regex),
    /// JSX: `b` of `<a>b</a>`
    JSXText(JSXText),
}

/// `"a"`. ECMA-262, section 12.9.4.
#[derive(Drop)]
pub struct Str {
    pub span: Span,
    /// What the string stands for.
    pub value: String,
    /// As it is spelled in the source text, with its quotes, where that is known.
    pub raw: Option<String>,
}

/// `true` or `false`. ECMA-262, section 12.9.2.
#[derive(Drop)]
pub struct Bool {
    pub span: Span,
    /// Whether it is `true`.
    pub value: bool,
}

/// `null`. ECMA-262, section 12.9.1.
#[derive(Drop)]
pub struct Null {
    pub span: Span,
}

/// `1.5` or `0xFF`. ECMA-262, section 12.9.3.
#[derive(Drop)]
pub struct Number {
    pub span: Span,
    /// What the number stands for, 255 of `0xFF`.
    pub value: NumberValue,
    /// As it is spelled in the source text, where that is known.
    pub raw: Option<String>,
}

/// `1.5` as a value. ECMA-262, section 6.1.6.1.
#[derive(Drop)]
pub enum NumberValue {
    /// `1.5`
    Finite(Decimal),
    /// `1e999`
    Infinity,
    /// The value of `-1e999`
    NegInfinity,
    /// The value of `0 / 0`
    NaN,
}

/// `1n` or `0xFFn`. ECMA-262, section 12.9.3.
#[derive(Drop)]
pub struct BigInt {
    pub span: Span,
    /// Whether the value is below zero, `-1n` as one literal.
    pub negative: bool,
    /// How the digits are to be read, as hexadecimal ones of `0xFFn`.
    pub radix: Radix,
    /// The digits in its radix, without prefix and without `n`.
    pub digits: String,
    /// As it is spelled in the source text, where that is known.
    pub raw: Option<String>,
}

/// `0x` of `0xFFn`. ECMA-262, section 12.9.3.
#[derive(Clone, Copy, Debug, PartialEq, Eq)]
pub enum Radix {
    /// `0b` of `0b11n`
    Binary,
    /// `0o` of `0o17n`
    Octal,
    /// `19n`, without a prefix.
    Decimal,
    /// `0x` of `0xFFn`
    Hex,
}

/// `/a/g`. ECMA-262, section 12.9.5.
#[derive(Drop)]
pub struct Regex {
    pub span: Span,
    /// The pattern, without slashes.
    pub exp: String,
    /// `g` of `/a/g`, empty of `/a/`.
    pub flags: String,
}

/// JSX: `b` of `<a>b</a>`.
#[derive(Drop)]
pub struct JSXText {
    pub span: Span,
    /// What the text stands for.
    pub value: String,
    /// As it is spelled in the source text.
    pub raw: String,
}
