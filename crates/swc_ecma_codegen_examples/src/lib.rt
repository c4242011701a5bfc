//! Callers of the printer: how a project makes a tree or reads one, prints it, and what it may say
//! of the text. Each is proved from the clauses of what it calls; docs/CALLING.md quotes them. And
//! a caller of each public call that asks something of its arguments and that neither these nor the
//! programs make (`turns`, `writers`), and a map of a source text (`sources`): they show that what
//! is asked can be met. Tests run each.
#![tactic(auto)]

ghost use Rattle.std.specs.Prelude.{◌≡◌, ◌≢◌, ◌⊎◌, ◌<◌, ◌^◌, ℕ, List, [], true, false, Err, IfOk, IfErr, IsErrOf, IsSome, OnOk, Some, codes, string_bytes};
ghost use Rattle.std.specs.Str.{IsUtf8, chars};
ghost use Rattle.std.specs.Io.KnownBytes.{Appends};
ghost use Rattle.swc_ecma_codegen_tree.specs.declared.exprs.Expr.TheVariants.{Unary};
ghost use Rattle.swc_ecma_codegen_tree.specs.declared.exprs.UnaryExpr.{UnaryExpr as UnaryExprOf};
ghost use Rattle.swc_ecma_codegen_tree.specs.declared.programs.Program.{Program as ProgramOf};
ghost use Rattle.swc_ecma_codegen_grammar.specs.Comments.{maps_in, no_maps, AreClosed};
ghost use Rattle.swc_ecma_codegen_grammar.specs.Reads.{Reads};
ghost use Rattle.swc_ecma_codegen_grammar.specs.SourceLines.{no_lines};
ghost use Rattle.swc_ecma_codegen_grammar.specs.SpelledNames.{is_well_formed_name};
ghost use Rattle.swc_ecma_codegen_grammar.specs.TreePhrases.{program_phrase, is_well_formed};
ghost use Rattle.swc_ecma_codegen_settings.specs.Defaults.{default_config};
ghost use Rattle.swc_ecma_codegen_text_writer.specs.Recorded.{RecordsTruly};
ghost use Rattle.swc_ecma_codegen_text_writer.specs.Contents.{or_empty};
ghost use Rattle.swc_ecma_codegen_text_writer.specs.View.{sheet_of, new_sheet, keeping};
ghost use Rattle.swc_ecma_codegen_tokens.specs.Ready.{token_count};
ghost use Rattle.swc_ecma_codegen_tokens.specs.Run.{maps_after, start, steps_in, steps_of, unlined};
ghost use Rattle.swc_ecma_codegen_tokens.specs.Written.{AddsReading, AddsText, ReadsAs, taken_remarks};
ghost use Rattle.swc_ecma_codegen_emit.specs.Roots.{Root, root_items, root_phrase, is_well_formed_root, MayBegin};
ghost use Rattle.swc_ecma_codegen_source.specs.SourceTexts.{lines_of};
ghost use Rattle.swc_ecma_codegen_emit.specs.Texts.{blank_sheet, text_over, GivesCause};
ghost use Rattle.swc_ecma_codegen_examples.specs.Causes.{commented_start, minified_config, minified_start, IsOfMachine, IsUnread, LacksText};
ghost use Rattle.swc_ecma_codegen_examples.specs.Negation.{negation_tokens, IsOperation};

mod links;
mod parentheses;
mod sources;
mod structure;
mod turns;
mod writers;

pub use crate::links::{
    emitted_box_reads, emitted_link_reads, emitted_option_reads, emitted_ref_reads,
};
pub use crate::parentheses::{mended_text, product};
pub use crate::sources::Source;
pub use crate::structure::{NoMeaning, text_that_keeps_structure};
pub use crate::turns::{brace_turn, digit_turn, escaped_turn, name_turn, octal_turn};
pub use crate::writers::{there_and_back, write_list, write_tokens, writes_where_settled};
use std::alloc::{AllocError, Global};
use std::io::Write;
use swc_ecma_codegen::ast::mapper::SourceText;
use swc_ecma_codegen::{Config, Emitter, Node, is_well_formed, to_code, to_code_default};
use swc_ecma_codegen_common::{BytePos, DUMMY_SP, Error, LineCol, UnaryOp};
use swc_ecma_codegen_grammar::comments::{CommentMaps, Comments};
use swc_ecma_codegen_grammar::mapper::NoSource;
use swc_ecma_codegen_json::{ReadError, Tree, program_from_slice};
use swc_ecma_codegen_text_writer::{JsWriter, WriteJs, omit_trailing_semi};
use swc_ecma_codegen_tree::{
    AnyNode, Expr, ExprBox, ExprStmt, Holds, HoldsMut, Ident, Program, Stmt, UnaryExpr,
};
use thiserror::Error as ThisError;

/// Why there is no text.
#[derive(Debug, Drop, ThisError)]
pub enum NoText {
    /// The bytes are no program.
    #[error("no program: {0}")]
    Unread(ReadError),
    /// The program isn't well-formed.
    #[error("not well-formed")]
    NotWellFormed,
    /// The printer refused it.
    #[error("refused: {0}")]
    Refused(Error),
}

/// `-a;` of the operator `-` and the name `a`, in a tree whose links hold `N`.
fn operation<N: Holds<Expr<N>> + Drop>(
    alloc: Global,
    op: UnaryOp,
    name: &str,
) -> Result<ExprStmt<N>, AllocError>
    ensures { IfOk result (IsOperation N.node_in op name.now) }
{
    let span = DUMMY_SP;
    let sym = String::from_str(alloc, name)?;
    let name = Ident {
        span,
        sym,
        optional: false,
    };
    let arg = ExprBox::new(alloc, Expr::Ident(name))?;
    let expr = ExprBox::new(alloc, Expr::Unary(UnaryExpr { span, op, arg }))?;
    Ok(ExprStmt { span, expr })
}

/// The text of `-a;`, a tree made by hand: it reads as a minus, the name and a semicolon, where the
/// name is one.
pub fn negation_text(alloc: Global, name: &str) -> Result<String, Error>
    ensures reads { is_well_formed_name name.now ≡ true →
        IfOk result (λ text. Reads (chars (string_bytes text)) (negation_tokens name.now) []) }
    ensures made { is_well_formed_name name.now ≡ true →
        IfErr result (λ error. error ≡ Error.OutOfMemory) }
{
    let statement: Stmt = Stmt::Expr(operation(alloc, UnaryOp::Minus, name)?);
    to_code(alloc, &statement)
}

/// Changes the operator of a unary expression in place: `+a` with `-` becomes `-a`. Other
/// expressions stay as they are.
pub fn set_operator<N: HoldsMut<Expr<N>> + Drop>(link: &mut ExprBox<N>, op: UnaryOp)
    ensures { (node : UnaryExprOf N) → N.node_in link.old.node.value ≡ Some (Unary node) →
        N.node_in link.new.node.value ≡ Some (Unary (record node { op = op })) }
{
    if let Some(expr) = link.get_mut() {
        if let Expr::Unary(node) = expr {
            node.op = op;
        }
    }
}

/// The text of `-a;`, of a tree that was made as `+a;` and changed in place.
pub fn changed_operator_text(alloc: Global, name: &str) -> Result<String, Error>
    ensures reads { is_well_formed_name name.now ≡ true →
        IfOk result (λ text. Reads (chars (string_bytes text)) (negation_tokens name.now) []) }
    ensures made { is_well_formed_name name.now ≡ true →
        IfErr result (λ error. error ≡ Error.OutOfMemory) }
{
    let mut statement = operation(alloc, UnaryOp::Plus, name)?;
    set_operator(&mut statement.expr, UnaryOp::Minus);
    let statement: Stmt = Stmt::Expr(statement);
    to_code(alloc, &statement)
}

/// The text of a program, where it is well-formed: UTF-8 that reads, by longest match, as one of
/// the program's token lists.
pub fn checked_text(alloc: Global, program: &Program) -> Result<String, NoText>
    ensures reads { IfOk result (λ text.
        ReadsAs default_config false (program_phrase program.now) [] (string_bytes text)) }
    ensures not_well_formed { is_well_formed program.now ≡ false →
        IsErrOf result NoText.NotWellFormed }
    // A well-formed program of fewer than 2 ^ 32 tokens is refused for want of memory alone.
    ensures made { is_well_formed program.now ≡ true →
        token_count (program_phrase program.now) < 2 ^ 32 →
        IfErr result (λ error. error ≡ NoText.Refused Error.OutOfMemory) }
{
    if !is_well_formed(program) {
        return Err(NoText::NotWellFormed);
    }
    match to_code(alloc, program) {
        Ok(text) => Ok(text),
        Err(error) => Err(NoText::Refused(error)),
    }
}

/// Prints a program to any writer of bytes by way of memory, so that nothing is out unless the
/// whole text was made. A writer that tells its bytes, as a `Vec` does, tells more by a text that
/// reads as the program.
pub fn append_checked<W: Write>(alloc: Global, program: &Program, out: &mut W) -> Result<(), NoText>
    ensures reads { OnOk result ((text : List ℕ)
        × ReadsAs default_config false (program_phrase program.now) [] text
        × Appends (W.contents out.old) (W.contents out.new) text) }
    ensures not_well_formed { is_well_formed program.now ≡ false →
        IsErrOf result NoText.NotWellFormed × (out.new ≡ out.old) }
    // A well-formed program of fewer than 2 ^ 32 tokens is refused for want of memory alone, or
    // since `out` failed.
    ensures made { is_well_formed program.now ≡ true →
        token_count (program_phrase program.now) < 2 ^ 32 → IfErr result IsOfMachine }
    ensures kept { result ≡ Err (NoText.Refused Error.OutOfMemory) → out.new ≡ out.old }
{
    let text = checked_text(alloc, program)?;
    match out.write_all(text.as_bytes()) {
        Ok(()) => Ok(()),
        Err(error) => Err(NoText::Refused(Error::Writer(error))),
    }
}

/// Prints a node without comments to a writer of tokens, and gives the writer back.
#[tactic(auto, unfolding(swc_ecma_codegen_grammar::specs::Comments::maps_in))]
fn printed_on<P: Node, W: WriteJs + Drop>(
    alloc: Global,
    config: Config,
    node: &P,
    wr: W,
) -> Result<W, Error>
    // What it adds to the text reads as the root that `node` prints, where that is well-formed.
    ensures reads { (root : Root) → P.part node.now ≡ root_items root →
        is_well_formed_root root ≡ true →
        MayBegin root (start no_lines no_maps config (W.sheet wr)) →
        IfOk result (λ w.
        AddsReading (unlined config) (root_phrase root) [] (W.sheet wr) (W.sheet w)) }
    // Each position that it records holds the line and column that the text had reached.
    ensures recorded { IfOk result (λ w. RecordsTruly (W.sheet wr) (W.sheet w)) }
    // It is refused for the cause that the error names.
    ensures cause { IfErr result (GivesCause (P.part node.now)
        (start no_lines no_maps config (W.sheet wr))) }
{
    let mut emitter = Emitter::new(alloc, config, &NoSource, None::<CommentMaps>, wr);
    node.emit_with(&mut emitter)?;
    Ok(emitter.wr)
}

/// Prints a node to any writer of bytes, as a file, and gives that back. A `&mut` of one is one
/// too.
pub fn print_into<P: Node, W: Write + Drop>(alloc: Global, node: &P, out: W) -> Result<W, Error>
    // Where all writers of this type tell their bytes, as each `Vec` does, it tells more by a text
    // that reads as the root that `node` prints.
    ensures reads { (root : Root) → P.part node.now ≡ root_items root →
        is_well_formed_root root ≡ true → ((w : W) → IsSome (W.contents w)) →
        IfOk result (λ w.
        AddsText default_config false (root_phrase root) [] (or_empty (W.contents out))
        (or_empty (W.contents w))) }
    ensures cause { IfErr result (GivesCause (P.part node.now)
        (start no_lines no_maps default_config
        (new_sheet (or_empty (W.contents out)) (codes "\n")))) }
{
    let writer = JsWriter::new(alloc, &NoSource, "\n", out, None);
    let printed = printed_on(alloc, Config::default(), node, writer)?;
    Ok(printed.into_inner())
}

/// Prints a node, and records in `pairs`, after those that stand there, where its parts were
/// written: `into_inner` of the writer is the text.
pub fn print_with_positions<'a, P: Node>(
    alloc: Global,
    node: &P,
    pairs: &'a mut Vec<(BytePos, LineCol)>,
) -> Result<JsWriter<'a, Vec<u8>>, Error>
    ensures reads { (root : Root) → P.part node.now ≡ root_items root →
        is_well_formed_root root ≡ true →
        IfOk result (λ writer.
        ReadsAs default_config false (root_phrase root) [] (sheet_of writer).text) }
    ensures recorded { IfOk result (λ writer.
        RecordsTruly (keeping pairs.old.items blank_sheet) (sheet_of writer)) }
    ensures cause { IfErr result (GivesCause (P.part node.now)
        (start no_lines no_maps default_config (keeping pairs.old.items blank_sheet))) }
{
    let writer = JsWriter::new(alloc, &NoSource, "\n", Vec::new(alloc), Some(pairs));
    printed_on(alloc, Config::default(), node, writer)
}

/// Prints a node with its comments. Gives the text, and the comments that are left: those that it
/// didn't take.
pub fn print_with_comments<P: Node, C: Comments + Drop>(
    alloc: Global,
    node: &P,
    comments: C,
) -> Result<(Vec<u8>, Option<C>), Error>
    // Where each comment can be read back, the text reads as the root that `node` prints, and
    // between its tokens stand exactly the comments that were taken, in order.
    ensures reads { (root : Root) → P.part node.now ≡ root_items root →
        is_well_formed_root root ≡ true → AreClosed (C.maps comments) →
        IfOk result (λ printed.
        ReadsAs default_config false (root_phrase root)
        (taken_remarks (P.part node.now) (commented_start (C.maps comments)).env) printed.0.items) }
    // Those that are left are those before without what was taken.
    ensures left { IfOk result (λ printed. maps_in C.maps printed.1
        ≡ maps_after (steps_of (steps_in (P.part node.now) (commented_start (C.maps comments))))
        (C.maps comments)) }
    ensures cause { IfErr result (GivesCause (P.part node.now)
        (commented_start (C.maps comments))) }
{
    let writer = JsWriter::new(alloc, &NoSource, "\n", Vec::new(alloc), None);
    let mut emitter = Emitter::new(alloc, Config::default(), &NoSource, Some(comments), writer);
    node.emit_with(&mut emitter)?;
    Ok((emitter.wr.into_inner(), emitter.comments))
}

/// The text of a node over the source text that it was read from, whose first byte stands at 1. In
/// lists that keep their lines, as those of arrays do, a line ends where one ends there: `[` LF
/// `a, b]` is printed `[` LF `    a, b` LF `]`.
pub fn print_over_source<P: Node>(alloc: Global, node: &P, text: &str) -> Result<String, Error>
    // It asks this source text where lines end, and which lists end with a comma.
    ensures text { IfOk result (λ printed. string_bytes printed
        ≡ text_over (lines_of text.now 1) no_maps (P.part node.now)) }
    ensures reads { (root : Root) → P.part node.now ≡ root_items root →
        is_well_formed_root root ≡ true →
        IfOk result (λ printed.
        ReadsAs default_config false (root_phrase root) [] (string_bytes printed)) }
{
    let source = SourceText::new(alloc, text, BytePos(1))?;
    to_code_default(alloc, &source, None::<CommentMaps>, node)
}

/// The text of a node, minified, without semicolons that aren't needed: `{a;}` is `{a}`.
pub fn minified<P: Node>(alloc: Global, node: &P) -> Result<Vec<u8>, Error>
    ensures reads { (root : Root) → P.part node.now ≡ root_items root →
        is_well_formed_root root ≡ true →
        IfOk result (λ text. ReadsAs minified_config true (root_phrase root) [] text.items) }
    ensures cause { IfErr result (GivesCause (P.part node.now) minified_start) }
{
    let config = Config::default().with_minify(true);
    let writer = JsWriter::new(alloc, &NoSource, "\n", Vec::new(alloc), None);
    let printed = printed_on(alloc, config, node, omit_trailing_semi(writer))?;
    let plain = printed.into_inner();
    Ok(plain.into_inner())
}

/// The text of a program, minified, where it is well-formed.
fn checked_minified(alloc: Global, program: &Program) -> Result<Vec<u8>, NoText>
    ensures reads { IfOk result (λ text. (is_well_formed program.now ≡ true)
        × ReadsAs minified_config true (program_phrase program.now) [] text.items) }
    ensures cause { IfErr result (LacksText minified_start program.now) }
{
    if !is_well_formed(program) {
        return Err(NoText::NotWellFormed);
    }
    match minified(alloc, program) {
        Ok(text) => Ok(text),
        Err(error) => Err(NoText::Refused(error)),
    }
}

/// The minified text of a program in JSON: it reads as some well-formed program.
pub fn minified_json(alloc: Global, json: &[u8]) -> Result<Vec<u8>, NoText>
    ensures reads { IfOk result (λ text. (program : ProgramOf AnyNode)
        × (is_well_formed program ≡ true) × ReadsAs minified_config true (program_phrase program) []
        text.items) }
    ensures not_utf8 { (IsUtf8 json.now → ⊥) → IsErrOf result (NoText.Unread ReadError.CannotRead) }
    ensures utf8 { IsUtf8 json.now → result ≢ Err (NoText.Unread ReadError.CannotRead) }
    // Else nothing is read of it, or some program that is read of it lacks a text.
    ensures cause { IfErr result (λ error. IsUnread error ⊎ (program : ProgramOf AnyNode)
        × LacksText minified_start program error) }
{
    match program_from_slice(alloc, json) {
        Ok(program) => {
            // a `Tree` lets a program go by a `drop` that is proved once
            let tree = Tree(program);
            checked_minified(alloc, &tree.0)
        }
        Err(error) => Err(NoText::Unread(error)),
    }
}
