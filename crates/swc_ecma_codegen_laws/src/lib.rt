//! Laws for callers. Each is the contract of a function without parameters that does nothing: a
//! proof cites the function, and a program has no need to call it.
//!
//! What is printed of a well-formed tree reads back as the tree's tokens, by longest match:
//! `a < !--b` isn't printed as the start of a comment, nor `a - -b` as a decrement.
#![tactic(auto)]

ghost use Rattle.std.specs.Prelude.{◌≡◌, ◌&&◌, is_some, ℕ, Bool, true, false, if◌then◌else◌, List, [], ◌∷◌, Ok, Err, Some, None};
ghost use Rattle.swc_ecma_codegen_common.specs.declared.errors.Refusal.TheVariants as refusals;
ghost use Rattle.swc_ecma_codegen_common.specs.Refusals.{in_short};
ghost use Rattle.std.specs.String.{string_bytes};
ghost use Rattle.swc_ecma_codegen_tree.specs.declared.exprs.Tpl.{Tpl};
ghost use Rattle.swc_ecma_codegen_tree.specs.declared.ts_types.TsTplLitType.{TsTplLitType};
ghost use Rattle.swc_ecma_codegen_tree.specs.declared.exprs.Expr.{Expr};
ghost use Rattle.swc_ecma_codegen_tree.specs.declared.stmts.Stmt.{Stmt};
ghost use Rattle.swc_ecma_codegen_tree.specs.declared.links.AnyNode.{AnyNode};
ghost use Rattle.swc_ecma_codegen_tree.specs.declared.lits.Str.{Str};
ghost use Rattle.swc_ecma_codegen_tree.specs.declared.modules.ImportDecl.{ImportDecl};
ghost use Rattle.swc_ecma_codegen_settings.specs.declared.config.Config.{Config};
ghost use Rattle.swc_ecma_codegen_grammar.specs.Tokens.{Token};
ghost use Rattle.swc_ecma_codegen_grammar.specs.Phrases.{Phrase, Generates};
ghost use Rattle.swc_ecma_codegen_grammar.specs.Settings.{Settings};
ghost use Rattle.swc_ecma_codegen_grammar.specs.Layouts.{AreAlike, Alongside, AreSameBut, IsWritten, leaves_open};
ghost use Rattle.swc_ecma_codegen_grammar.specs.TemplatePhrases.{is_counted};
ghost use Rattle.swc_ecma_codegen_grammar.specs.TreePhrases.{expr_phrase};
ghost use Rattle.swc_ecma_codegen_text_writer.specs.Sheet.{Flowing, HoldsNone};
ghost use Rattle.swc_ecma_codegen_text_writer.specs.View.{new_sheet};
ghost use Rattle.swc_ecma_codegen_tokens.specs.declared.refusals.Unprintable.TheVariants.{BadShape, NameOutOfTarget};
ghost use Rattle.swc_ecma_codegen_grammar.specs.SourceLines.{Lines};
ghost use Rattle.swc_ecma_codegen_grammar.specs.CommentMaps.{Maps, with_leading, with_trailing};
ghost use Rattle.swc_ecma_codegen_grammar.specs.Comments.{is_closed, remark_of, AreClosed};
ghost use Rattle.swc_ecma_codegen_grammar.specs.declared.comments.Comment.{Comment};
ghost use Rattle.swc_ecma_codegen_tokens.specs.Run.{Env, Follows, Plan, State, is_bounded, nothing, refused, makes_text, spoken, start, steps_in, steps_of, unprintable_in};
ghost use Rattle.swc_ecma_codegen_tokens.specs.Attributes.{attribute_string, has_no_text};
ghost use Rattle.swc_ecma_codegen_tokens.specs.Lits.{prints_raw, string_at, value_text};
ghost use Rattle.swc_ecma_codegen_tokens.specs.Scripts.{value_strings};
ghost use Rattle.swc_ecma_codegen_tokens.specs.Targets.{is_out};
ghost use Rattle.swc_ecma_codegen_grammar.specs.Trivia.{Remark};
ghost use Rattle.swc_ecma_codegen_tokens.specs.Settings.{settings_of};
ghost use Rattle.swc_ecma_codegen_tokens.specs.Written.{IsLineEnd, IsNew, ReadsAs, all_indent, taken_remarks};
ghost use Rattle.swc_ecma_codegen_tokens.specs.Ready.{IsReady};
ghost use Rattle.swc_ecma_codegen_settings.specs.Starts.{expr_starts, any_starts};
ghost use Rattle.swc_ecma_codegen_emit.specs.Emission.{Outcome, AddsOnlyAscii, AddsSafeStrings, FillsItsLines, LeavesNone, PlacesEachName, ReadsAsRoot, RecordsEachName, TakesComments, WritesTaken};
ghost use Rattle.swc_ecma_codegen_emit.specs.Places.{by_itself, in_context};
ghost use Rattle.swc_ecma_codegen_emit.specs.Answers.{any_answers};
ghost use Rattle.swc_ecma_codegen_emit.specs.AnyExpr.{expr as expr_items};
ghost use Rattle.swc_ecma_codegen_emit.specs.Modules.{is_crowded, import_decl};
ghost use Rattle.swc_ecma_codegen_emit.specs.Stmts.{stmt as stmt_items};
ghost use Rattle.swc_ecma_codegen_emit.specs.Templates.{tpl};
ghost use Rattle.swc_ecma_codegen_emit.specs.Tree.{any_items};
ghost use Rattle.swc_ecma_codegen_emit.specs.Types.{ts_tpl_lit_type};
ghost use Rattle.swc_ecma_codegen_tokens.specs.Escapes.{may_make_text};
ghost use Rattle.swc_ecma_codegen_tokens.specs.Ascii.{other_texts, may_keep_other, WantsAscii};
ghost use Rattle.swc_ecma_codegen_emit.specs.Roots.{Root, OfExpr, OfStmt, root_items, root_phrase, root_hashbang, is_well_formed_root, MayBegin};
ghost use Rattle.swc_ecma_codegen_laws.specs.FirstTokens.{joins_a_word};
ghost use Rattle.swc_ecma_codegen_laws.specs.SameTokens.{AddTokensAlike, AddOneList};

mod basic;
mod breaks;
mod layouts;
mod links;
mod programs;

pub use crate::basic::{basic_nodes_take_no_memory, basic_trees_take_no_memory};
pub use crate::breaks::{filled_lines_keep_the_text, lines_may_be_ended_behind_marks};
pub use crate::layouts::{
    arguments_stand_bare, layouts_write_the_same_tokens, other_parentheses_stand_in_both,
    plain_texts_read_plainly, source_texts_write_the_same_tokens,
};
pub use crate::links::{links_write_members, links_write_targets, links_write_their_roots};
pub use crate::programs::{
    plain_lists_are_derived, printed_programs_are_derived, printed_programs_are_told,
};
pub use swc_ecma_codegen_grammar::reading_laws::{
    one_reading, reduced_tokens_read, spaced_tokens_read,
};

/// What is written of an expression, and of a statement, by itself is what is written of the root
/// that it is, which may begin wherever an emission is new. So the clauses of `emit_with` that
/// speak of roots speak of these.
#[tactic(auto, using(swc_ecma_codegen_emit::proofs::TreeReads::may_begin))]
pub fn expressions_and_statements_are_roots()
    ensures expr { (expr : Expr AnyNode) →
        by_itself (in_context (expr_items any_answers any_items expr))
        ≡ root_items (OfExpr expr) }
    ensures stmt { (stmt : Stmt AnyNode) →
        by_itself (λ _. stmt_items any_answers any_items stmt) ≡ root_items (OfStmt stmt) }
    ensures begin { (root : Root) (s : State) → root_hashbang root ≡ false → IsNew s →
        s.sheet.lines ≡ Flowing → MayBegin root s }
{}

/// A new emitter over a new `JsWriter`, whose lines end with LF or with CR and LF, is one that
/// these laws speak of, whatever the root, the source text and the comments; and after
/// `set_indent_str` of blanks and tabs, and inside `omit_trailing_semi`. It is ready, whatever its
/// lines end with, unless it minifies and lines have a greatest length. Under `ascii_only` it is
/// one that is to write ASCII.
pub fn new_emitter_reads()
    ensures new { (root : Root) (lines : Lines) (maps : Maps) (config : Config)
        (bytes line_end : List ℕ) → IsLineEnd line_end →
        MayBegin root (start lines maps config (new_sheet bytes line_end)) }
    ensures holding { (root : Root) (lines : Lines) (maps : Maps) (config : Config)
        (bytes line_end : List ℕ) → IsLineEnd line_end →
        MayBegin root (start lines maps config
        (record (new_sheet bytes line_end) { semicolons = HoldsNone })) }
    ensures ready { (lines : Lines) (maps : Maps) (config : Config) (bytes line_end : List ℕ) →
        (is_some config.max_line && config.minify) ≡ false →
        IsReady (start lines maps config (new_sheet bytes line_end)) }
    ensures ascii { (lines : Lines) (maps : Maps) (config : Config) (bytes line_end : List ℕ) →
        config.ascii_only ≡ true → IsLineEnd line_end →
        WantsAscii (start lines maps config (new_sheet bytes line_end)) }
    ensures indented { (root : Root) (lines : Lines) (maps : Maps) (config : Config)
        (bytes line_end indent : List ℕ) → IsLineEnd line_end → all_indent indent ≡ true →
        MayBegin root (start lines maps config
        (record (new_sheet bytes line_end) { indent_text = indent })) }
{}

/// Comments that are put into maps one by one can be read back, where each of them can: no line
/// terminator stands in one of a line, and no `*/` in one of a block.
#[tactic(auto, using(crate::proofs::ClosedMaps::nowhere_closed, crate::proofs::ClosedMaps::leading_closed, crate::proofs::ClosedMaps::trailing_closed))]
pub fn added_comments_can_be_read_back()
    ensures none { (maps : Maps) → ((pos : ℕ) → maps.leading pos ≡ None) →
        ((pos : ℕ) → maps.trailing pos ≡ None) → AreClosed maps }
    ensures leading { (maps : Maps) (pos : ℕ) (comment : Comment) → AreClosed maps →
        is_closed (remark_of comment) ≡ true → AreClosed (with_leading pos comment maps) }
    ensures trailing { (maps : Maps) (pos : ℕ) (comment : Comment) → AreClosed maps →
        is_closed (remark_of comment) ≡ true → AreClosed (with_trailing pos comment maps) }
{}

/// Where an expression begins with a word, a name or a number, by the first token of a list that
/// syntax gives it, `starts_with_alpha_num` is true, which answers `expr_starts any_starts`: of
/// `a + b`, `typeof a` and `this.a`, but not only of these.
#[tactic(auto, using(crate::proofs::FirstTokens::first_joins))]
pub fn first_token_is_told()
    ensures { (expr : Expr AnyNode) (settings : Settings) (first : Token) (rest : List Token) →
        Generates settings (expr_phrase expr) (first ∷ rest) → joins_a_word first.kind ≡ true →
        expr_starts any_starts expr ≡ true }
{}

/// What an emission of a root does, by the state where it begins, the one where it ends, and what
/// it answers: what `emit_with` says in its clauses follows from the root's steps alone. So it is
/// said of the `to_code` calls too, whose clause `printed` says that the steps were made, and whose
/// clauses `text` and `positions` tell what was written.
#[tactic(auto, using(swc_ecma_codegen_emit::proofs::TreeReads::root_reads, swc_ecma_codegen_emit::proofs::TreeReads::root_told, swc_ecma_codegen_emit::proofs::ItemsTaken::root_leaves, swc_ecma_codegen_emit::proofs::TreeReads::root_names, swc_ecma_codegen_emit::proofs::TreeReads::root_places, swc_ecma_codegen_emit::proofs::TreeReads::root_ascii, swc_ecma_codegen_emit::proofs::TreeReads::root_safe, swc_ecma_codegen_emit::proofs::TreeReads::root_fills, swc_ecma_codegen_emit::proofs::TreeReads::root_taken))]
pub fn emissions_of_roots()
    ensures reads { (root : Root) (a b : State) (answer : Outcome) →
        Follows (root_items root nothing) a b (in_short answer) → ReadsAsRoot root a b answer }
    ensures taken { (root : Root) (a b : State) (answer : Outcome) →
        Follows (root_items root nothing) a b (in_short answer) →
        TakesComments (root_items root) a b answer }
    ensures told { (root : Root) (a b : State) (answer : Outcome) →
        Follows (root_items root nothing) a b (in_short answer) → WritesTaken root a answer }
    ensures left { (root : Root) (a b : State) (answer : Outcome) →
        Follows (root_items root nothing) a b (in_short answer) → LeavesNone root a b answer }
    ensures names { (root : Root) (a b : State) (answer : Outcome) →
        Follows (root_items root nothing) a b (in_short answer) → RecordsEachName root a b answer }
    ensures places { (root : Root) (a b : State) (answer : Outcome) →
        Follows (root_items root nothing) a b (in_short answer) → PlacesEachName root a b answer }
    ensures ascii { (root : Root) (a b : State) (answer : Outcome) →
        Follows (root_items root nothing) a b (in_short answer) → AddsOnlyAscii root a b answer }
    ensures inline { (root : Root) (a b : State) (answer : Outcome) →
        Follows (root_items root nothing) a b (in_short answer) → AddsSafeStrings root a b answer }
    ensures fills { (root : Root) (a b : State) (answer : Outcome) →
        Follows (root_items root nothing) a b (in_short answer) → FillsItsLines root a b answer }
{}

/// No step of an emission of a well-formed tree makes a text anew, in memory, where no name of the
/// tree holds a backslash, or isn't ASCII under `ascii_only`, no number, no big integer and no
/// string stands in it, and lines have no greatest length, over a writer that leaves out U+0000
/// after a backslash: what the clauses `cause`, `no_memory` and `succeeds` of `emit_with` ask of
/// memory. Of a tree with such, these clauses speak of its steps: one takes memory where the text
/// of a literal isn't its raw.
#[tactic(auto, using(swc_ecma_codegen_emit::proofs::TreeReads::root_remakes))]
pub fn plain_trees_take_no_memory()
    ensures { (root : Root) (s : State) → is_well_formed_root root ≡ true →
        s.env.keeps_invalid ≡ false → is_bounded s.env ≡ false →
        may_make_text s.env.config (root_phrase root) ≡ false →
        makes_text (steps_of (steps_in (root_items root) s)) ≡ false }
{}

/// Only texts of comments aren't ASCII among the steps of an emission of a well-formed tree whose
/// names can all be written, where each regular expression, template with a tag and hashbang of the
/// tree is ASCII, and all of its JSX, and no string of it reads `use strict`: of these texts the
/// clause `ascii` of `emit_with` speaks. Such a string is another only where it has a backslash and
/// isn't ASCII.
#[tactic(auto, using(swc_ecma_codegen_emit::proofs::TreeReads::root_keeps))]
pub fn plain_trees_keep_no_other_text()
    ensures { (root : Root) (s : State) → is_well_formed_root root ≡ true →
        s.env.keeps_invalid ≡ false → is_out s.env.config (root_phrase root) ≡ false →
        may_keep_other (root_phrase root) ≡ false →
        other_texts (steps_of (steps_in (root_items root) s))
        ≡ spoken (steps_of (steps_in (root_items root) s)) }
{}

/// A string literal is printed by its value exactly where its raw isn't printed: it is one of the
/// strings that the clause `inline` of `emit_with` speaks of.
#[tactic(auto, using(swc_ecma_codegen_tokens::proofs::LiteralTokens::StringPrints::value_strings_told))]
pub fn strings_by_value_are_told()
    ensures { (env : Env) (in_lit : Bool) (n : Str) →
        value_strings (steps_of (string_at in_lit n nothing env))
        ≡ (if prints_raw env.config n then [] else value_text env.config (string_bytes n.value)
        ∷ []) }
{}

/// An emission of a well-formed tree comes to a node that can't be printed exactly where some name
/// of the tree is to be written in ASCII and can't be for the target. So it answers
/// `NameOutOfTarget` for no other cause, and a tree that holds such a name is never printed as a
/// whole.
#[tactic(auto, using(swc_ecma_codegen_emit::proofs::TreeReads::root_ends, swc_ecma_codegen_emit::proofs::TreeReads::root_in_target, swc_ecma_codegen_emit::proofs::TreeReads::root_out_of_target))]
pub fn names_out_of_target_are_refused()
    ensures steps { (root : Root) (s : State) → is_well_formed_root root ≡ true →
        s.env.keeps_invalid ≡ false →
        unprintable_in (steps_in (root_items root) s)
        ≡ (if is_out s.env.config (root_phrase root) then Some NameOutOfTarget else None) }
    ensures printed { (root : Root) (a b : State) → is_well_formed_root root ≡ true →
        a.env.keeps_invalid ≡ false → Follows (root_items root nothing) a b (Ok tt) →
        is_out a.env.config (root_phrase root) ≡ false }
    ensures refused { (root : Root) (a b : State) → is_well_formed_root root ≡ true →
        a.env.keeps_invalid ≡ false →
        Follows (root_items root nothing) a b (Err refusals.NameOutOfTarget) →
        is_out a.env.config (root_phrase root) ≡ true }
{}

/// An emission of a well-formed tree is refused neither for a shape of which no text is written nor
/// for a node that isn't supported.
#[tactic(auto, using(swc_ecma_codegen_emit::proofs::TreeReads::root_shaped, swc_ecma_codegen_emit::proofs::TreeReads::root_supported))]
pub fn well_formed_trees_are_supported()
    ensures shape { (root : Root) (a b : State) → is_well_formed_root root ≡ true →
        a.env.keeps_invalid ≡ false →
        Follows (root_items root nothing) a b (Err refusals.BadShape) → ⊥ }
    ensures node { (root : Root) (a b : State) → is_well_formed_root root ≡ true →
        a.env.keeps_invalid ≡ false →
        Follows (root_items root nothing) a b (Err refusals.UnsupportedNode) → ⊥ }
{}

/// The shapes of which no text is written, and no step is made before the refusal: an import of a
/// namespace among more than two specifiers, a template without one part more than expressions or
/// types, and a string of an attribute of JSX without a raw whose value holds both quotes. A plan
/// comes to `BadShape` in no other words.
#[tactic(auto, using(swc_ecma_codegen_emit::proofs::TreeReads::crowded_refused, swc_ecma_codegen_emit::proofs::TreeReads::uncounted_refused, crate::proofs::BadShapes::textless_refused, crate::proofs::BadShapes::type_template_refused))]
pub fn bad_shapes_are_refused_first()
    ensures import_ { (n : ImportDecl AnyNode) (rest : Plan) (env : Env) →
        is_crowded n.specifiers.items ≡ true → import_decl any_items n rest env ≡ refused BadShape }
    ensures template { (n : Tpl AnyNode) (tagged : Bool) (rest : Plan) (env : Env) →
        is_counted n.exprs.items n.quasis.items ≡ false →
        tpl any_items tagged n rest env ≡ refused BadShape }
    ensures type_template { (n : TsTplLitType AnyNode) (rest : Plan) (env : Env) →
        is_counted n.types.items n.quasis.items ≡ false →
        ts_tpl_lit_type any_items n rest env ≡ refused BadShape }
    ensures attribute { (n : Str) (rest : Plan) (env : Env) → has_no_text n ≡ true →
        attribute_string n rest env ≡ refused BadShape }
{}

/// Under settings that differ in whether they minify the lists of a tree are the same part for
/// part, but for what syntax leaves open: a comma before the mark that closes a list, some
/// parentheses, and the empty arguments of `new`: `(a) => new B();` and minified `a=>new B`. So are
/// those that what is written of it is reduced from, where a writer leaves semicolons out. By their
/// tokens alone the written lists are the same but for semicolons that end a statement, commas
/// before `]` and `}`, and pairs of parentheses. Without comments `layouts_write_the_same_tokens`
/// says which, token for token.
pub fn layouts_keep_the_tokens()
    ensures lists { (s t : Settings) (phrase : Phrase) (xs ys : List Token) → AreAlike s t →
        Generates s phrase xs → Generates t phrase ys → Alongside s t phrase xs ys }
    ensures reduced { (s t : Settings) (phrase : Phrase) (us vs : List Token) → AreAlike s t →
        (x : IsWritten s phrase us) → (y : IsWritten t phrase vs) →
        Alongside s t phrase x.tokens y.tokens }
    ensures written { (s t : Settings) (phrase : Phrase) (us vs : List Token) → AreAlike s t →
        IsWritten s phrase us → IsWritten t phrase vs → AreSameBut us vs }
{}

/// Two emissions of one well-formed tree under the same settings write the same tokens with the
/// same values, whatever the map of the source text answers, whatever the indentation, the line end
/// and the comments, but for what syntax leaves open: a comma before `]` or `}`, which is asked of
/// the source text, and parentheses round the only parameter of an arrow function or round an
/// argument, which depend on comments. So do two texts that each read as the tree; and where syntax
/// leaves nothing open, all that is written is the same, over a writer that holds no semicolons
/// back. Without comments `source_texts_write_the_same_tokens` says that nothing but such commas
/// differs.
pub fn source_texts_keep_the_tokens()
    ensures texts { (config : Config) (holds : Bool) (phrase : Phrase) (first second : List Remark)
        (us vs : List ℕ) → (x : ReadsAs config holds phrase first us) →
        (y : ReadsAs config holds phrase second vs) →
        Alongside (settings_of config) (settings_of config) phrase x.tokens y.tokens }
    ensures same { (config : Config) (phrase : Phrase) (first second : List Remark)
        (us vs : List ℕ) → leaves_open phrase ≡ false → (x : ReadsAs config false phrase first us) →
        (y : ReadsAs config false phrase second vs) → x.written ≡ y.written }
    ensures emissions { (root : Root) (a b c d : State) → is_well_formed_root root ≡ true →
        MayBegin root a → MayBegin root c → AreClosed a.env.maps → AreClosed c.env.maps →
        a.env.config ≡ c.env.config → Follows (root_items root nothing) a b (Ok tt) →
        Follows (root_items root nothing) c d (Ok tt) →
        AddTokensAlike c.env.config (root_phrase root) (taken_remarks (root_items root) a.env)
        (taken_remarks (root_items root) c.env) a.sheet b.sheet c.sheet d.sheet }
{}

/// Two emissions of one well-formed tree that go by the same settings, the same answers of the map
/// of the source text and the same comments write one list of tokens, with the same comments
/// between, whatever the indentation, the line end, and what was written before. Where a writer
/// holds semicolons back, some of those that end a statement may be left out of it.
pub fn indentations_keep_the_tokens()
    ensures { (root : Root) (a b c d : State) → is_well_formed_root root ≡ true → MayBegin root a →
        MayBegin root c → AreClosed a.env.maps → a.env ≡ c.env →
        Follows (root_items root nothing) a b (Ok tt) →
        Follows (root_items root nothing) c d (Ok tt) →
        AddOneList a.env.config (root_phrase root) (taken_remarks (root_items root) a.env) a.sheet
        b.sheet c.sheet d.sheet }
{}
