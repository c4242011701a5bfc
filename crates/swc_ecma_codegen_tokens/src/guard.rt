//! The gap guard: where the last token and the next text would be read as another token, or as a comment, a blank is
//! due between them. It goes by a table of their classes.

ghost use Rattle.std.specs.Prelude.{◌≡◌, ◌<◌, ℕ, List, true, false};
ghost use Rattle.swc_ecma_codegen_grammar.specs.GapRules.{fuses};
ghost use Rattle.swc_ecma_codegen_tokens.specs.Starts.{start_class};
ghost use Rattle.swc_ecma_codegen_tokens.specs.Classes.{IsRowOf, place_of};
ghost use Rattle.swc_ecma_codegen_tokens.specs.PreviousToken.{class_of, last_at};
ghost use Rattle.swc_ecma_codegen_tokens.specs.declared.previous.PreviousToken.{PreviousToken};

use crate::LowerEmitter;
use crate::starts::StartClass;
use swc_ecma_codegen_literals::{Punctuator, TokenClass};

/// Whether a blank is due between a token and a text, by their classes.
pub fn blank_due(last: TokenClass, next: StartClass) -> bool
    // It is what the gap rules say of each token of the one class and each text of the other.
    ensures { (token : PreviousToken) (text : List ℕ) → class_of token ≡ last →
        start_class text ≡ next → result ≡ fuses (last_at token) text }
{
    blank_due_after(row(last), next)
}

/// The same, by the row of the token's class.
#[inline(always)]
fn blank_due_after(row: u32, next: StartClass) -> bool
    ensures refused { row ≡ 4294967295 → result ≡ true }
    ensures class { (class : TokenClass) (token : PreviousToken) (text : List ℕ) → IsRowOf class row →
        class_of token ≡ class → start_class text ≡ next → result ≡ fuses (last_at token) text }
{
    (row >> next.place() as u32) & 1 == 1
}

/// Whether no blank is due behind a token, whatever text follows, by the row of its class: behind a blank and most punctuators.
#[inline(always)]
fn never_due_after(row: u32) -> bool
    ensures refused { row ≡ 4294967295 → result ≡ false }
    ensures class { (class : TokenClass) (token : PreviousToken) (text : List ℕ) → result ≡ true →
        IsRowOf class row → class_of token ≡ class → fuses (last_at token) text ≡ false }
{
    row == NONE
}

impl LowerEmitter {
    /// Whether a text that begins so may follow at once: nothing was refused, and no blank is due.
    #[inline(always)]
    pub(crate) fn may_go_on(&self, next: StartClass) -> bool
        ensures unfailed { result ≡ true → self.now.failed ≡ false }
        ensures passes { (text : List ℕ) → result ≡ true → start_class text ≡ next →
            fuses (last_at self.now.token.value) text ≡ false }
        ensures due { (text : List ℕ) → result ≡ false → self.now.failed ≡ false →
            start_class text ≡ next → fuses (last_at self.now.token.value) text ≡ true }
    {
        !blank_due_after(self.row, next)
    }

    /// Whether each text may follow at once: behind a blank and most punctuators.
    #[inline(always)]
    pub(crate) fn may_go_on_anyhow(&self) -> bool
        ensures unfailed { result ≡ true → self.now.failed ≡ false }
        ensures passes { (text : List ℕ) → result ≡ true →
            fuses (last_at self.now.token.value) text ≡ false }
    {
        never_due_after(self.row)
    }
}

/// The row of a class.
#[inline(always)]
pub(crate) fn row(class: TokenClass) -> u32
    ensures { IsRowOf class result }
{
    BLANKS[place(class)]
}

/// The place of a class in the table.
#[inline(always)]
#[tactic(auto, unfolding(crate::specs::Classes::place_of))]
fn place(class: TokenClass) -> usize
    ensures value { result ≡ place_of class }
    ensures below { result < 63 }
{
    match class {
        TokenClass::Punctuator(mark) => mark.place(),
        TokenClass::LessBang => PUNCTUATORS,
        TokenClass::Word => PUNCTUATORS + 1,
        TokenClass::Integer => PUNCTUATORS + 2,
        TokenClass::Closing => PUNCTUATORS + 3,
        TokenClass::Rest => PUNCTUATORS + 4,
    }
}

const PUNCTUATORS: usize = Punctuator::At as usize + 1;

const TOKEN_CLASSES: usize = PUNCTUATORS + 5;

const _: () = prove!(BLANKS.len() == TOKEN_CLASSES);

const NAME_CHARACTER: u32 = 1 << StartClass::NameCharacter as u32;

const DIGIT: u32 = 1 << StartClass::Digit as u32;

const DOT_DIGIT: u32 = 1 << StartClass::DotDigit as u32;

const DOT: u32 = 1 << StartClass::Dot as u32;

const MINUS_MINUS: u32 = 1 << StartClass::MinusMinus as u32;

const LESS: u32 = 1 << StartClass::Less as u32;

const GREATER: u32 = 1 << StartClass::Greater as u32;

const EQUAL: u32 = 1 << StartClass::Equal as u32;

const PLUS: u32 = 1 << StartClass::Plus as u32;

const MINUS: u32 = 1 << StartClass::Minus as u32;

const STAR: u32 = 1 << StartClass::Star as u32;

const AMPERSAND: u32 = 1 << StartClass::Ampersand as u32;

const BAR: u32 = 1 << StartClass::Bar as u32;

const QUESTION: u32 = 1 << StartClass::Question as u32;

const SLASH: u32 = 1 << StartClass::Slash as u32;

/// The row of a class that nothing fuses with.
const NONE: u32 = 0;

/// The row after a refusal: nothing may follow.
pub(crate) const REFUSED: u32 = u32::MAX;

/// The classes of texts before which a blank is due, as a set of bits for each class of tokens, in their order.
const BLANKS: [u32; 63] = [
    // `{`
    NONE,
    // `}`
    NONE,
    // `(`
    NONE,
    // `)`
    NONE,
    // `[`
    NONE,
    // `]`
    NONE,
    // `.`
    DIGIT | DOT_DIGIT | DOT,
    // `...`
    NONE,
    // `;`
    NONE,
    // `,`
    NONE,
    // `<`
    LESS | EQUAL,
    // `>`
    GREATER | EQUAL,
    // `<=`
    NONE,
    // `>=`
    NONE,
    // `==`
    EQUAL,
    // `!=`
    EQUAL,
    // `===`
    NONE,
    // `!==`
    NONE,
    // `+`
    EQUAL | PLUS,
    // `-`
    MINUS_MINUS | EQUAL | MINUS,
    // `*`
    EQUAL | STAR,
    // `%`
    EQUAL,
    // `**`
    EQUAL,
    // `++`
    NONE,
    // `--`
    GREATER,
    // `<<`
    EQUAL,
    // `>>`
    GREATER | EQUAL,
    // `>>>`
    EQUAL,
    // `&`
    EQUAL | AMPERSAND,
    // `|`
    EQUAL | BAR,
    // `^`
    EQUAL,
    // `!`
    EQUAL,
    // `~`
    NONE,
    // `&&`
    EQUAL,
    // `||`
    EQUAL,
    // `??`
    EQUAL,
    // `?`
    DOT | QUESTION,
    // `:`
    NONE,
    // `=`
    GREATER | EQUAL,
    // `+=`
    NONE,
    // `-=`
    NONE,
    // `*=`
    NONE,
    // `%=`
    NONE,
    // `**=`
    NONE,
    // `<<=`
    NONE,
    // `>>=`
    NONE,
    // `>>>=`
    NONE,
    // `&=`
    NONE,
    // `|=`
    NONE,
    // `^=`
    NONE,
    // `&&=`
    NONE,
    // `||=`
    NONE,
    // `??=`
    NONE,
    // `=>`
    NONE,
    // `/`
    EQUAL | STAR | SLASH,
    // `/=`
    NONE,
    // `?.`
    DIGIT,
    // `@`
    NONE,
    // `!` right after `<`
    MINUS_MINUS | EQUAL,
    // a word
    NAME_CHARACTER | DIGIT,
    // a decimal integer
    NAME_CHARACTER | DIGIT | DOT_DIGIT | DOT,
    // a closing `>`
    NONE,
    // the rest
    NONE,
];
