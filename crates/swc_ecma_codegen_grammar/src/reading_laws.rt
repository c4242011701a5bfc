//! Laws of reading, each the contract of a function that does nothing.

ghost use Rattle.std.specs.Prelude.{◌≡◌, ℕ, false, List};
ghost use Rattle.swc_ecma_codegen_grammar.specs.Tokens.{Token};
ghost use Rattle.swc_ecma_codegen_grammar.specs.Trivia.{Remark};
ghost use Rattle.swc_ecma_codegen_grammar.specs.Reads.{Reads, kinds_of};
ghost use Rattle.swc_ecma_codegen_grammar.specs.Endings.{IsReduced};
ghost use Rattle.swc_ecma_codegen_grammar.specs.GapRules.{Start};
ghost use Rattle.swc_ecma_codegen_grammar.specs.Layouts.{AreAlike, Alongside, AreSameBut, IsWritten, leaves_open};
ghost use Rattle.swc_ecma_codegen_grammar.specs.Phrases.{Phrase, Generates};
ghost use Rattle.swc_ecma_codegen_grammar.specs.Settings.{Settings};
ghost use Rattle.swc_ecma_codegen_grammar.specs.Parts.{Part, text_of, tokens_of, remarks_in, AllSpelled, AtStart, KeepsLines, NoneFuse, Reduced, spaced};

/// What the second pass makes of tokens, their spellings and comments reads as these tokens, with
/// the comments between, each once and in order: `a` `-` `-` `b` becomes `a- -b`, and that reads as
/// these four. Where no line may end, as in `return a`, none does.
#[tactic(auto, using(crate::proofs::Spacing::reads_spaced))]
pub fn spaced_tokens_read()
    ensures { (xs : List Part) → AllSpelled AtStart xs → KeepsLines xs →
        Reads (text_of (spaced Start xs)) (tokens_of xs) (remarks_in xs) }
{}

/// A text without some ending semicolons, each of which stood right before `}`, `;` or the end,
/// reads as the tokens that are left, and these are all but such semicolons: without its semicolon
/// `a;` reads as `a`.
#[tactic(auto, using(crate::proofs::Dropped::reads_reduced, crate::proofs::Dropped::tokens_reduced))]
pub fn reduced_tokens_read()
    ensures reads { (xs ys : List Part) → NoneFuse Start xs → KeepsLines xs → Reduced xs ys →
        Reads (text_of ys) (tokens_of ys) (remarks_in ys) }
    ensures reduced { (xs ys : List Part) → NoneFuse Start xs → Reduced xs ys →
        IsReduced (tokens_of xs) (tokens_of ys) }
{}

/// For given kinds of tokens a text reads as one list at most, with one list of comments.
#[tactic(auto, using(crate::proofs::Unique::reads_once))]
pub fn one_reading()
    ensures { (xs ys : List Token) (text : List ℕ) (cs ds : List Remark) → Reads text xs cs →
        Reads text ys ds → kinds_of xs ≡ kinds_of ys → (xs ≡ ys) × (cs ≡ ds) }
{}

/// Under settings that differ in whether they minify the lists of a tree are the same part for
/// part, but for what syntax leaves open: a comma before the mark that closes a list, some
/// parentheses, and the empty arguments of `new`: `(a) => new B();` and minified `a=>new B`. So are
/// those that what is written of it is reduced from, where a writer leaves semicolons out. By their
/// tokens alone the written lists are the same but for semicolons that end a statement, commas
/// before `]` and `}`, and pairs of parentheses. Under the same settings there is one list, where
/// syntax leaves nothing open.
pub fn layouts_keep_the_tokens()
    ensures lists { (s t : Settings) (phrase : Phrase) (xs ys : List Token) → AreAlike s t →
        Generates s phrase xs → Generates t phrase ys → Alongside s t phrase xs ys }
    ensures reduced { (s t : Settings) (phrase : Phrase) (us vs : List Token) → AreAlike s t →
        (x : IsWritten s phrase us) → (y : IsWritten t phrase vs) →
        Alongside s t phrase x.tokens y.tokens }
    ensures written { (s t : Settings) (phrase : Phrase) (us vs : List Token) → AreAlike s t →
        IsWritten s phrase us → IsWritten t phrase vs → AreSameBut us vs }
    ensures one { (s : Settings) (phrase : Phrase) (xs ys : List Token) →
        leaves_open phrase ≡ false → Generates s phrase xs → Generates s phrase ys → xs ≡ ys }
{}
