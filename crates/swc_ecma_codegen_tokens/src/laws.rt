//! Laws of the text so far. Each is the contract of a function that does nothing: a proof cites it, and a program has no
//! need to call it. That a call of a token adds its token is a clause of the call.

ghost use Rattle.std.specs.Prelude.{◌≡◌, ℕ, Bool, true, List, [], ◌++◌, Ok};
ghost use Rattle.swc_ecma_codegen_common.specs.declared.positions.BytePos.{BytePos};
ghost use Rattle.swc_ecma_codegen_grammar.specs.Tokens.{Token};
ghost use Rattle.swc_ecma_codegen_grammar.specs.Trivia.{Remark};
ghost use Rattle.swc_ecma_codegen_grammar.specs.Comments.{AreClosed};
ghost use Rattle.swc_ecma_codegen_grammar.specs.LineEnds.{may_end};
ghost use Rattle.swc_ecma_codegen_grammar.specs.Phrases.{Phrase, Generates};
ghost use Rattle.swc_ecma_codegen_text_writer.specs.Sheet.{holds_semicolons};
ghost use Rattle.swc_ecma_codegen_settings.specs.declared.config.Config.{Config};
ghost use Rattle.swc_ecma_codegen_tokens.specs.Run.{State, Emits};
ghost use Rattle.swc_ecma_codegen_tokens.specs.Settings.{settings_of};
ghost use Rattle.swc_ecma_codegen_tokens.specs.Words.{space, formatting_space, line_end, formatting_line, commit_pending_semi, allow_break, position, position_before, leading_comments, trailing_comments};
ghost use Rattle.swc_ecma_codegen_tokens.specs.Written.{IsNew, ReadsSoFar, AddsText, taken_remarks};

/// A new emission has written no tokens so far.
#[tactic(auto, using(crate::proofs::Reading::SoFar::new_so_far))]
pub fn nothing_so_far()
    ensures { (s : State) → IsNew s → ReadsSoFar s.sheet.text [] [] s }
{}

/// Where nothing follows, what was added reads as the tokens so far.
#[tactic(auto, using(crate::proofs::Reading::SoFar::so_far_reads))]
pub fn so_far_reads()
    ensures { (config : Config) (phrase : Phrase) (text_before : List ℕ) (tokens : List Token)
        (remarks : List Remark) (s : State) → Generates (settings_of config) phrase tokens →
        ReadsSoFar text_before tokens remarks s →
        AddsText config (holds_semicolons s.sheet.semicolons) phrase remarks text_before
        s.sheet.text }
{}

/// Blanks, line ends, allowed breaks, a semicolon that was held back and positions leave the tokens so far; comments that are taken stand behind those so far.
pub fn gaps_leave_the_tokens()
    ensures space { (text_before : List ℕ) (tokens : List Token) (remarks : List Remark)
        (a b : State) → Emits space a b (Ok tt) → ReadsSoFar text_before tokens remarks a →
        ReadsSoFar text_before tokens remarks b }
    ensures formatting_space { (text_before : List ℕ) (tokens : List Token) (remarks : List Remark)
        (a b : State) → Emits formatting_space a b (Ok tt) →
        ReadsSoFar text_before tokens remarks a → ReadsSoFar text_before tokens remarks b }
    ensures line { (text_before : List ℕ) (tokens : List Token) (remarks : List Remark)
        (a b : State) → Emits line_end a b (Ok tt) → ReadsSoFar text_before tokens remarks a →
        ReadsSoFar text_before tokens remarks b }
    ensures formatting_line { (text_before : List ℕ) (tokens : List Token) (remarks : List Remark)
        (a b : State) → Emits formatting_line a b (Ok tt) →
        ReadsSoFar text_before tokens remarks a → ReadsSoFar text_before tokens remarks b }
    ensures allow_break { (text_before : List ℕ) (tokens : List Token)
        (remarks : List Remark) (a b : State) → may_end a.last ≡ true →
        Emits allow_break a b (Ok tt) → ReadsSoFar text_before tokens remarks a →
        ReadsSoFar text_before tokens remarks b }
    ensures commit { (text_before : List ℕ) (tokens : List Token) (remarks : List Remark)
        (a b : State) → Emits commit_pending_semi a b (Ok tt) →
        ReadsSoFar text_before tokens remarks a → ReadsSoFar text_before tokens remarks b }
    ensures position { (pos : BytePos) (text_before : List ℕ) (tokens : List Token)
        (remarks : List Remark) (a b : State) → Emits (position pos) a b (Ok tt) →
        ReadsSoFar text_before tokens remarks a → ReadsSoFar text_before tokens remarks b }
    ensures position_before { (pos : BytePos) (text_before : List ℕ) (tokens : List Token)
        (remarks : List Remark) (a b : State) → Emits (position_before pos) a b (Ok tt) →
        ReadsSoFar text_before tokens remarks a → ReadsSoFar text_before tokens remarks b }
    ensures leading { (pos : BytePos) (text_before : List ℕ) (tokens : List Token)
        (remarks : List Remark) (a b : State) → AreClosed a.env.maps →
        Emits (leading_comments pos) a b (Ok tt) → ReadsSoFar text_before tokens remarks a →
        ReadsSoFar text_before tokens (remarks ++ taken_remarks (leading_comments pos) a.env) b }
    ensures trailing { (prefix : Bool) (pos : BytePos) (text_before : List ℕ) (tokens : List Token)
        (remarks : List Remark) (a b : State) → AreClosed a.env.maps →
        Emits (trailing_comments prefix pos) a b (Ok tt) → ReadsSoFar text_before tokens remarks a →
        ReadsSoFar text_before tokens (remarks
        ++ taken_remarks (trailing_comments prefix pos) a.env) b }
{}
