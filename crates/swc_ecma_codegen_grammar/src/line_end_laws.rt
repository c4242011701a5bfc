//! Laws of line ends, each the contract of a function that does nothing.

ghost use Rattle.std.specs.Prelude.{◌≡◌, ℕ, Bool, true, List, [], ◌∷◌, ◌++◌};
ghost use Rattle.swc_ecma_codegen_grammar.specs.Reads.{Reads};
ghost use Rattle.swc_ecma_codegen_grammar.specs.Trivia.{Piece, pieces_text};
ghost use Rattle.swc_ecma_codegen_grammar.specs.GapRules.{PreviousToken, Start};
ghost use Rattle.swc_ecma_codegen_grammar.specs.Parts.{Part, Break, text_of, tokens_of, remarks_in, KeepsLines, NoneFuse};
ghost use Rattle.swc_ecma_codegen_grammar.specs.LineEnds.{IsNewLine, may_end, LineEnded, segments, ended_text, segments_in};

/// Behind a word, a name or a punctuator other than `}` a line may be ended, whatever tokens come
/// next that don't fuse with it: behind the comma of `a,b`, and not behind the name of `<a>b</a>`.
#[tactic(auto, using(crate::proofs::LineEnds::may_break))]
pub fn lines_may_end()
    ensures fuses { (last : PreviousToken) (xs : List Part) → may_end last ≡ true →
        NoneFuse last xs → NoneFuse last (Break ∷ xs) }
{}

/// Line ends where a line may be ended leave the tokens as they are: `(a,b)` and `(` LF `a,` LF
/// `b)` read as the same five. No such place is where `[no LineTerminator here]` follows.
#[tactic(auto, using(crate::proofs::LineEnds::reads_line_ended))]
pub fn line_ends_keep_the_tokens()
    ensures reads { (line : List Piece) (xs ys : List Part) → IsNewLine line → NoneFuse Start xs →
        KeepsLines xs → LineEnded line xs ys → Reads (text_of ys) (tokens_of xs) (remarks_in xs) }
{}

/// So does a text that is cut at these places, with line ends before any of its segments but the
/// first: the segments `(a,` and `b)` make `(a,b)` or `(a,` LF `b)`, and both read as these five.
#[tactic(auto, using(crate::proofs::LineEnds::reads_cut))]
pub fn cut_texts_read()
    ensures reads { (line : List Piece) (xs : List Part) (first : List ℕ)
        (others : List (Bool × List ℕ)) → IsNewLine line → NoneFuse Start xs → KeepsLines xs →
        segments xs [] ≡ first ∷ segments_in others →
        Reads (first ++ ended_text (pieces_text line) others) (tokens_of xs) (remarks_in xs) }
{}
