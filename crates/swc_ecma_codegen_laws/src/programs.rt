//! Laws of what was printed of a program: it is no other program's text. Whoever reads it by the
//! grammar, by whatever lexer, gets the parse tree of the program back, but for words that are
//! names too. They are the laws of `swc_ecma_codegen_uniqueness`, said of the texts that
//! `emit_with` and `to_code` write: what their clause `reads` says of a text is all that is asked
//! here.

ghost use Rattle.std.specs.Prelude.{◌≡◌, ◌⊎◌, ℕ, Bool, true, false, List, []};
ghost use Rattle.std.specs.Result.{OnOk};
ghost use Rattle.std.specs.Str.{chars};
ghost use Rattle.swc_ecma_codegen_tree.specs.declared.links.AnyNode.{AnyNode};
ghost use Rattle.swc_ecma_codegen_tree.specs.declared.programs.Program.{Program};
ghost use Rattle.swc_ecma_codegen_grammar.specs.Comments.{all_tame, no_maps};
ghost use Rattle.swc_ecma_codegen_grammar.specs.SourceLines.{no_lines};
ghost use Rattle.swc_ecma_codegen_grammar.specs.Layouts.{leaves_open};
ghost use Rattle.swc_ecma_codegen_grammar.specs.Phrases.{Generates};
ghost use Rattle.swc_ecma_codegen_grammar.specs.PlainPhrases.{plain_phrase};
ghost use Rattle.swc_ecma_codegen_grammar.specs.Reads.{Reads};
ghost use Rattle.swc_ecma_codegen_grammar.specs.Settings.{Settings};
ghost use Rattle.swc_ecma_codegen_grammar.specs.Tokens.{Token};
ghost use Rattle.swc_ecma_codegen_grammar.specs.TreePhrases.{program_phrase};
ghost use Rattle.swc_ecma_codegen_grammar.specs.Trivia.{Remark};
ghost use Rattle.swc_ecma_codegen_syntax.specs.Derives.{DerivesCoreProgram, DerivesProgram, program_verdict};
ghost use Rattle.swc_ecma_codegen_syntax.specs.Verdicts.{core, holds, holds_in};
ghost use Rattle.swc_ecma_codegen_common.specs.Refusals.{in_short};
ghost use Rattle.swc_ecma_codegen_text_writer.specs.Sheet.{holds_semicolons};
ghost use Rattle.swc_ecma_codegen_tokens.specs.Plain.{IsPlain};
ghost use Rattle.swc_ecma_codegen_tokens.specs.Run.{Follows, State, is_bounded, nothing, start};
ghost use Rattle.swc_ecma_codegen_tokens.specs.Settings.{settings_of};
ghost use Rattle.swc_ecma_codegen_tokens.specs.Written.{AddsText};
ghost use Rattle.swc_ecma_codegen_settings.specs.Defaults.{default_config};
ghost use Rattle.swc_ecma_codegen_settings.specs.declared.config.Config.{Config};
ghost use Rattle.swc_ecma_codegen_emit.specs.Emission.{Outcome};
ghost use Rattle.swc_ecma_codegen_emit.specs.Roots.{MayBegin, OfProgram, is_well_formed_root, root_items};
ghost use Rattle.swc_ecma_codegen_emit.specs.Texts.{IsPrinted, blank_sheet, text_of};
ghost use Rattle.swc_ecma_codegen_laws.specs.Told.{AddsDerived, IsTold};

/// A list of tokens is derived with a program for which `keeps_structure` answers true, and with
/// this very tree, if it settles what syntax leaves open as a text without comments and without a
/// source text does: no comma stands before a closing mark, no parentheses stand round what is
/// returned, thrown or yielded, and those round the only parameter of an arrow function stand
/// there, or are left out where the text is minified. So `(a) => b` and `a=>b` are derived,
/// `return (a)` only of a tree that has these parentheses.
#[tactic(auto, using(crate::proofs::Derived::plain_derived))]
pub fn plain_lists_are_derived()
    ensures { (minify : Bool) (s : Settings) (a : Program AnyNode) (ts : List Token)
        → holds true (program_verdict a) ≡ true
        → Generates s (plain_phrase minify (program_phrase a)) ts → DerivesProgram true s a ts }
{}

/// The text that is printed of a well-formed program for which `keeps_structure` answers true is
/// derived with this very tree: what a new emitter adds reads as a list of tokens that the grammar
/// derives with it, where there are neither comments nor a source text. It is minified or not, the
/// writer holds no semicolons back, and lines have no greatest length. `Follows` is what the clause
/// `items` of the emit calls says, and `printed` of the to_code calls.
///
/// `texts`: so is the text that `to_code` gives of it: its clauses `text` and `printed` say that it
/// is `text_of` the program's items, and that it was printed.
pub fn printed_programs_are_derived()
    ensures emissions { (a : Program AnyNode) (s e : State) (answer : Outcome)
        → Follows (root_items (OfProgram a) nothing) s e (in_short answer)
        → is_well_formed_root (OfProgram a) ≡ true → MayBegin (OfProgram a) s
        → IsPlain s.env → is_bounded s.env ≡ false
        → holds_semicolons s.sheet.semicolons ≡ false
        → holds true (program_verdict a) ≡ true
        → OnOk answer (AddsDerived (settings_of s.env.config) a s.sheet.text e.sheet.text) }
    ensures texts { (a : Program AnyNode)
        → IsPrinted (root_items (OfProgram a)) (start no_lines no_maps default_config blank_sheet)
        → is_well_formed_root (OfProgram a) ≡ true → holds true (program_verdict a) ≡ true
        → AddsDerived (settings_of default_config) a [] (text_of (root_items (OfProgram a))) }
{}

/// Let a text be longer by what reads as a program, as the clause `reads` of `emit_with` says,
/// where the writer holds no semicolons back, and no line ends in or after a comment. If what it is
/// longer by reads as a list of tokens that another program is derived with, the two have one list
/// and one parse tree, words taken for names, or their lists part at one of five words, as
/// `texts_tell_the_program` of `swc_ecma_codegen_uniqueness` says.
///
/// Both programs are of the core of the grammar: see `is_core` of `swc_ecma_codegen_syntax`.
/// `derived`: if the tokens that were written are derived with the program. `kept`: if
/// `keeps_structure` and `is_core` answer true for it, and the text settles what syntax leaves open
/// as one without comments and without a source text does, as `plain_lists_are_derived` says.
/// `closed`: if they answer true for it, and syntax leaves nothing open in it.
pub fn printed_programs_are_told()
    ensures derived { (config : Config) (remarks ds : List Remark) (old new : List ℕ)
        (a b : Program AnyNode) (t : Settings) (ys : List Token)
        → (x : AddsText config false (program_phrase a) remarks old new)
        → all_tame remarks ≡ true
        → DerivesCoreProgram (settings_of config) a x.reading.tokens
        → Reads (chars x.added) ys ds → DerivesCoreProgram t b ys
        → IsTold (settings_of config) t a b x.reading.tokens ys }
    ensures kept { (config : Config) (remarks ds : List Remark) (old new : List ℕ)
        (a b : Program AnyNode) (t : Settings) (ys : List Token)
        → (x : AddsText config false (plain_phrase config.minify (program_phrase a))
        remarks old new)
        → all_tame remarks ≡ true → holds_in core (program_verdict a) ≡ true
        → Reads (chars x.added) ys ds → DerivesCoreProgram t b ys
        → IsTold (settings_of config) t a b x.reading.tokens ys }
    ensures closed { (config : Config) (remarks ds : List Remark) (old new : List ℕ)
        (a b : Program AnyNode) (t : Settings) (ys : List Token)
        → (x : AddsText config false (program_phrase a) remarks old new)
        → all_tame remarks ≡ true
        → holds_in core (program_verdict a) ≡ true → leaves_open (program_phrase a) ≡ false
        → Reads (chars x.added) ys ds → DerivesCoreProgram t b ys
        → IsTold (settings_of config) t a b x.reading.tokens ys }
{}
