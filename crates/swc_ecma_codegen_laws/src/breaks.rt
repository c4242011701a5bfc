//! Laws of lines: where they may be ended, and what they are filled with.

ghost use Rattle.std.specs.Prelude.{◌≡◌, ℕ, true, false, ◌&&◌, Some};
ghost use Rattle.swc_ecma_codegen_text_writer.specs.Sheet.{Flowing};
ghost use Rattle.swc_ecma_codegen_tokens.specs.Run.{State, is_bounded, printed, steps_in, steps_of};
ghost use Rattle.swc_ecma_codegen_emit.specs.Lined.{unfilled};
ghost use Rattle.swc_ecma_codegen_emit.specs.Roots.{Root, is_program, root_at, root_items};
ghost use Rattle.swc_ecma_codegen_laws.specs.Breaks.{EndsBehindMarks, holds_break};
ghost use Rattle.swc_ecma_codegen_laws.specs.Lengths.{unlined};

/// Where a module or script is minified and lines have a greatest length, a line may be ended right
/// behind each written `(` `,` `;` `[` and `{`, and behind each operator of two operands, and
/// nowhere else: not in an element, a fragment or a template, nor behind the `;` of a function
/// expression without a body. That is said of the steps that the clause `fills` of `emit_with` goes
/// by, and of the steps of the emission. In any other emission no line may be ended.
pub fn lines_may_be_ended_behind_marks()
    ensures filled { (root : Root) (s : State) (max : ℕ) → is_program root ≡ true →
        s.env.config.minify ≡ true →
        EndsBehindMarks (steps_of (steps_in (unfilled max (root_at root)) s)) }
    ensures written { (root : Root) (s : State) (max : ℕ) → is_program root ≡ true →
        s.env.config.minify ≡ true → s.env.max_line ≡ Some max →
        EndsBehindMarks (steps_of (steps_in (root_items root) s)) }
    ensures nowhere { (root : Root) (s : State) → (is_program root && is_bounded s.env) ≡ false →
        holds_break (steps_of (steps_in (root_items root) s)) ≡ false }
{}

/// What lines are filled with is what is written of the module or script where lines have no
/// greatest length: the clause `fills` of `emit_with` compares with the text of that emission, and
/// with its positions.
pub fn filled_lines_keep_the_text()
    ensures text { (root : Root) (s : State) (max : ℕ) → is_program root ≡ true →
        s.sheet.lines ≡ Flowing →
        (printed (unfilled max (root_at root)) s).sheet.text
        ≡ (printed (root_items root) (unlined s)).sheet.text }
    ensures pairs { (root : Root) (s : State) (max : ℕ) → is_program root ≡ true →
        s.sheet.lines ≡ Flowing →
        (printed (unfilled max (root_at root)) s).sheet.pairs
        ≡ (printed (root_items root) (unlined s)).sheet.pairs }
{}
