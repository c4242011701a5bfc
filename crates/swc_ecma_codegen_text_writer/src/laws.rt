//! Laws of what writers record. Each is the contract of a function that does nothing: a proof cites it, and a program has no
//! need to call it.

ghost use Rattle.std.specs.Prelude.{◌≡◌, ◌⊎◌, ℕ, ◌+◌, ◌≤◌, ◌==◌, Bool, true, false, Option, List, ◌∷◌, ◌++◌, length};
ghost use Rattle.std.specs.List.{list_any, AllByRecursion};
ghost use Rattle.std.specs.Str.{IsUtf8, chars};
ghost use Rattle.swc_ecma_codegen_text_writer.specs.Characters.{after_characters, code_units, is_line_end, line_ends};
ghost use Rattle.swc_ecma_codegen_text_writer.specs.Places.{Place, after_text, origin};
ghost use Rattle.swc_ecma_codegen_text_writer.specs.Recorded.{RecordsTruly};
ghost use Rattle.swc_ecma_codegen_text_writer.specs.Filling.{IsLineEnd, Part, segments_of, text_of, filled, last_line, IsBounded, IsNeeded};
ghost use Rattle.swc_ecma_codegen_text_writer.specs.Marks.{Mark, bytes_of, marks_of, marked, later_lines, lines_of, IsShort};
ghost use Rattle.swc_ecma_codegen_text_writer.specs.PendingSemi.{break_after, with_semicolons};
ghost use Rattle.swc_ecma_codegen_text_writer.specs.Runs.{are_inner, within_lines, segments_released, FillsLines};
ghost use Rattle.swc_ecma_codegen_text_writer.specs.Sheet.{Item, Semi, AllowBreak, Sheet, Pair, pair_at, has_pair, HoldsNone, HoldsOne, AtOnce, Segment, Flowing, Filling, notes_text, line_ended, ends_before, segment_released, allowed, settled, effect, effects};
ghost use Rattle.swc_ecma_codegen_common.specs.declared.positions.BytePos.{BytePos};
ghost use Rattle.swc_ecma_codegen_common.specs.declared.positions.Span.{Span};

/// Whatever is called, the pairs of positions and places that a writer records are true: each holds the line and the column that
/// the text had reached, they come in the order of their places, and none comes twice.
#[tactic(auto, using(crate::proofs::Pairs::effects_record))]
pub fn pairs_are_true()
    ensures { (items : List Item) (s : Sheet) → RecordsTruly s (effects items s) }
{}

/// The place after a text, which is counted by its bytes, is that after its characters.
#[tactic(auto, using(crate::proofs::Characters::place_of_characters))]
pub fn places_are_of_characters()
    ensures { (text : List ℕ) (p : Place) → IsUtf8 text →
        after_text text p ≡ after_characters (chars text) p }
{}

/// A column counts UTF-16 code units since the last line end, and a text in a line leaves the line.
#[tactic(auto, using(crate::proofs::Characters::line_of_text, crate::proofs::Characters::column_of_text, crate::proofs::Characters::column_of_last_line))]
pub fn columns_are_code_units()
    ensures line { (text : List ℕ) (p : Place) → IsUtf8 text →
        list_any is_line_end (chars text) ≡ false → (after_text text p).line ≡ p.line }
    ensures column { (text : List ℕ) (p : Place) → IsUtf8 text →
        list_any is_line_end (chars text) ≡ false →
        (after_text text p).column ≡ p.column + length (code_units (chars text)) }
    ensures last_line { (before last : List ℕ) (end : ℕ) → (end ≡ 10) ⊎ (end ≡ 13) → IsUtf8 last →
        list_any is_line_end (chars last) ≡ false →
        (after_text (before ++ (end ∷ last)) origin).column ≡ length (code_units (chars last)) }
{}

/// A line is the count of the line ends before it: LF, CR, and CR LF as one.
#[tactic(auto, using(crate::proofs::Characters::lines_of_text))]
pub fn lines_are_line_ends()
    ensures { (text : List ℕ) → (after_text text origin).line ≡ line_ends text }
{}

// ---- lines that are filled

/// Filling takes some of the allowed breaks and changes nothing else.
#[tactic(auto, using(crate::proofs::Fills::filled_segments))]
pub fn filling_keeps_segments()
    ensures { (max : ℕ) (line_end : List ℕ) (ss : List (List ℕ)) (p : Place) →
        segments_of (filled max line_end p ss) ≡ ss }
{}

/// Each line has at most `max` units, or no allowed break within; and a line end stands only where what was to follow has no room in the
/// line.
#[tactic(auto, using(crate::proofs::Fills::filled_bounded, crate::proofs::Fills::filled_needed))]
pub fn filling_bounds_lines()
    ensures bounded { (max : ℕ) (line_end : List ℕ) → IsLineEnd line_end →
        (ss : List (List ℕ)) (p : Place) →
        IsBounded max line_end p (filled max line_end p ss) }
    ensures needed { (max : ℕ) (line_end : List ℕ) (ss : List (List ℕ)) (p : Place) →
        IsNeeded max line_end p (filled max line_end p ss) }
{}

/// No choice of breaks that bounds the lines so has fewer line ends.
#[tactic(auto, using(crate::proofs::Fills::filled_fewest))]
pub fn filling_is_fewest()
    ensures { (max : ℕ) (line_end : List ℕ) → IsLineEnd line_end →
        (p : Place) → (p.after_cr ≡ true → p.column ≡ 0) →
        (xs : List Part) → IsBounded max line_end p xs →
        last_line (text_of line_end (filled max line_end p (segments_of xs))) p
        ≤ last_line (text_of line_end xs) p }
{}

/// Where the lines of parts are bounded, and the first segment begins a line, each line of the text has at most `max` units, or no
/// allowed break between two parts of its text.
#[tactic(auto, using(crate::proofs::Marked::all_short, crate::proofs::Marked::bytes_marked_text))]
pub fn bounded_lines_are_short()
    ensures lines { (max : ℕ) (line_end first : List ℕ) (p : Place) (xs : List Part) →
        p.column ≡ 0 → IsBounded max line_end (after_text first p) xs →
        AllByRecursion (IsShort max)
        (lines_of p.after_cr (marks_of first ++ marked line_end xs)) }
    ensures text { (line_end first : List ℕ) (xs : List Part) →
        bytes_of (marks_of first ++ marked line_end xs) ≡ first ++ text_of line_end xs }
{}

/// A text has one line more than line ends.
#[tactic(auto, using(crate::proofs::Marked::lines_counted))]
pub fn lines_are_counted()
    ensures { (marks : List Mark) (p : Place) →
        last_line (bytes_of marks) p ≡ p.line + length (later_lines p.after_cr marks) }
{}

/// With a greatest line length the text is the one without, and line ends at some of the allowed breaks: no more than are needed.
#[tactic(auto, using(crate::proofs::Twins::lines_filled))]
pub fn lines_are_filled()
    ensures { (max : ℕ) (calls : List Item) (s : Sheet) → are_inner calls ≡ true →
        s.lines ≡ Flowing → IsLineEnd s.line_end →
        FillsLines max calls s (effects calls s) (effects (within_lines max calls) s) }
{}

/// A writer that holds semicolons stands over one that writes them at once: what it holds goes out by the calls `write_semi` and, where
/// a break was allowed since, `allow_break`; and it passes `allow_break` on where it holds nothing.
#[tactic(auto, using(crate::proofs::Semicolons::settled_layers, crate::proofs::Semicolons::kept_layers, crate::proofs::Semicolons::passed_layers))]
pub fn semicolons_keep_breaks()
    ensures settled { (span : Option Span) (kept : Bool) (s : Sheet) →
        settled (with_semicolons (HoldsOne span kept) s)
        ≡ with_semicolons HoldsNone
        (effects (Semi span ∷ break_after kept) (with_semicolons AtOnce s)) }
    ensures kept { (span : Option Span) (kept : Bool) (s : Sheet) →
        effect AllowBreak (with_semicolons (HoldsOne span kept) s)
        ≡ with_semicolons (HoldsOne span true) s }
    ensures passed { (s : Sheet) →
        effect AllowBreak (with_semicolons HoldsNone s)
        ≡ with_semicolons HoldsNone (effect AllowBreak (with_semicolons AtOnce s)) }
{}

/// Where lines are filled, a second allowed break in the same place does nothing.
#[tactic(auto, using(crate::proofs::Again::allowed_again))]
pub fn second_breaks_do_nothing()
    ensures { (s : Sheet) (max : ℕ) (first : Bool) (g : Segment) →
        s.lines ≡ Filling max first g → allowed (allowed s) ≡ allowed s }
{}

/// A position in a segment, unless it is 0, is recorded where it stands once the segment is out, after a line end or without, and no
/// later segment takes it away.
#[tactic(auto, using(crate::proofs::Noted::position_has, crate::proofs::Noted::kept_pairs))]
pub fn positions_are_kept()
    ensures recorded { (max : ℕ) (first : Bool) (some more : List (List ℕ × BytePos)) →
        (t rest : List ℕ) (pos : BytePos) (s : Sheet) → (pos.0 == 0) ≡ false →
        let g : Segment = record { noted = some ++ ((t, pos) ∷ more); rest = rest } in
        has_pair (pair_at pos (after_text (notes_text some ++ t)
        (line_ended (ends_before max first g s) s).place))
        (segment_released max first g s).pairs ≡ true }
    ensures kept { (max : ℕ) (first : Bool) (gs : List Segment) (s : Sheet) (x : Pair) →
        has_pair x s.pairs ≡ true →
        has_pair x (segments_released max first gs s).pairs ≡ true }
{}
