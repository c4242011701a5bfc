//! A law of lists over a source text, the contract of a function that does nothing.

ghost use Rattle.std.specs.Prelude.{◌≡◌, ℕ, true, List};
ghost use Rattle.swc_ecma_codegen_common.specs.declared.positions.Span.{Span as Place};
ghost use Rattle.swc_ecma_codegen_grammar.specs.ListFormats.{leading_line, separating_line, closing_line};
ghost use Rattle.swc_ecma_codegen_source.specs.SourceTexts.{lines_of, keeps_lines, is_broken, IsIn};

/// A list whose format has PreserveLines, and not MultiLine, has a line end before its first child,
/// between two children or after the last exactly where one stands there in the source text:
/// `[1, 2,` LF `3]` has one before `3` alone.
#[tactic(auto, using(crate::proofs::KeptLines::leading_kept, crate::proofs::KeptLines::separating_kept, crate::proofs::KeptLines::closing_kept))]
pub fn lists_keep_their_lines()
    ensures before_first { (text : List ℕ) (first format : ℕ) (list child : Place) →
        keeps_lines format ≡ true → IsIn text first list.lo → IsIn text first child.lo →
        leading_line (lines_of text first) format list child
        ≡ is_broken text first list.lo child.lo }
    ensures between { (text : List ℕ) (first format : ℕ) (child next : Place) →
        keeps_lines format ≡ true → IsIn text first child.hi → IsIn text first next.lo →
        separating_line (lines_of text first) format child next
        ≡ is_broken text first child.hi next.lo }
    ensures after_last { (text : List ℕ) (first format : ℕ) (list last : Place) →
        keeps_lines format ≡ true → IsIn text first last.hi → IsIn text first list.hi →
        closing_line (lines_of text first) format list last
        ≡ is_broken text first last.hi list.hi }
{}
