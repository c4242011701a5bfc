//! The last token, as the gap rules tell it.

ghost use Rattle.std.specs.Prelude.{◌≡◌};

use swc_ecma_codegen_literals::{Punctuator, TokenClass};

/// The last token, as the gap rules tell tokens apart. An emission keeps its class alone, and this for proofs.
#[derive(Debug, Clone, Copy)]
pub enum PreviousToken {
    /// Nothing was written.
    Start,
    /// A blank, a line end or a comment was.
    Separated,
    /// A name or a keyword.
    WordEnd,
    /// A decimal integer, which a dot would belong to.
    IntegerEnd,
    /// A punctuator.
    Mark(Punctuator),
    /// `!` right after `<`.
    LessBang,
    /// The `>` that closes a list of types, a type assertion or a tag.
    Closing,
    /// Another token that ends by itself.
    Whole,
    /// Text between tags.
    TextEnd,
    /// A name in a tag.
    TagNameEnd,
    /// A hashbang.
    LineEnd,
}

impl PreviousToken {
    ghost use Rattle.swc_ecma_codegen_tokens.specs.PreviousToken.{after_mark, class_of};

    /// Its class.
    #[tactic(auto, unfolding(crate::specs::PreviousToken::class_of))]
    pub fn class(self) -> TokenClass
        ensures { result ≡ class_of self }
    {
        match self {
            PreviousToken::Start
            | PreviousToken::Separated
            | PreviousToken::Whole
            | PreviousToken::TextEnd
            | PreviousToken::LineEnd => { TokenClass::Rest }
            PreviousToken::WordEnd | PreviousToken::TagNameEnd => TokenClass::Word,
            PreviousToken::IntegerEnd => TokenClass::Integer,
            PreviousToken::Mark(mark) => TokenClass::Punctuator(mark),
            PreviousToken::LessBang => TokenClass::LessBang,
            PreviousToken::Closing => TokenClass::Closing,
        }
    }

    /// The last token after a punctuator that nothing parts from a token of a class.
    #[tactic(auto, unfolding(crate::specs::PreviousToken::after_mark))]
    pub fn after(class: TokenClass, mark: Punctuator) -> PreviousToken
        ensures { result ≡ after_mark class mark }
    {
        match (class, mark) {
            (TokenClass::Punctuator(Punctuator::Less), Punctuator::Bang) => PreviousToken::LessBang,
            _ => PreviousToken::Mark(mark),
        }
    }
}
