//! The text of a tree, in memory. A function for whatever can be printed costs a check less than
//! one for a program.

ghost use Rattle.std.specs.Prelude.{◌≡◌, ◌≢◌, [], Err, IfErr, IfOk, OnOk};
ghost use Rattle.swc_ecma_codegen_text_writer.specs.View.{sheet_of};
ghost use Rattle.swc_ecma_codegen_grammar.specs.Comments.{no_maps};
ghost use Rattle.swc_ecma_codegen_grammar.specs.SourceLines.{no_lines};
ghost use Rattle.swc_ecma_codegen_tokens.specs.Run.{State, printed, start};
ghost use Rattle.swc_ecma_codegen_emit.specs.Texts.{blank_sheet};
ghost use Rattle.swc_ecma_codegen_emit.specs.View.{state_of};
ghost use Rattle.swc_ecma_codegen_runs.specs.Faults.{EndsWithFault, GivesFault};
ghost use Rattle.swc_ecma_codegen_runs.specs.Prints.{text_with, with_positions};

use crate::faults::Fault;
use crate::words::Options;
use std::alloc::Global;
use swc_ecma_codegen::ast::comments::{CommentMaps, Comments};
use swc_ecma_codegen::ast::mapper::{NoSource, SourceMapper};
use swc_ecma_codegen::{Config, Emitter, Node};
use swc_ecma_codegen_common::{BytePos, LineCol};
use swc_ecma_codegen_text_writer::{JsWriter, WriteJs, omit_trailing_semi};

/// The text of a tree as the options ask for it: lines end with LF, and four blanks are a level.
///
/// Of the two statements `a` and `b` it is `a;` and `b;`, each in a line of its own. With `minify`
/// it is `a;b;`, and `a;b` with `omit_last_semi` too. With `positions` the list gets the positions
/// of the source: 4 with line 1 and column 0, where `b` stands at 4 there.
#[tactic(auto, unfolding(crate::specs::Prints::text_with, crate::specs::Prints::with_semicolons))]
pub(crate) fn text_of<P: Node>(
    alloc: Global,
    options: Options,
    tree: &P,
    positions: &mut Vec<(BytePos, LineCol)>,
) -> Result<Vec<u8>, Fault>
    requires { positions.old.items ≡ [] }
    ensures text { IfOk result (λ text. text.items ≡ text_with options (P.part tree.now)) }
    // It is refused for the cause that the fault names.
    ensures cause { IfErr result (GivesFault options (P.part tree.now)) }
    ensures no_usage { result ≢ Err Fault.Usage }
{
    let config = options.settings();
    let writer = new_writer(alloc, options, positions);
    if options.minify {
        let writer = printed_on(alloc, config, tree, omit_trailing_semi(writer))?;
        Ok(writer.into_inner().into_inner())
    } else {
        let writer = printed_on(alloc, config, tree, writer)?;
        Ok(writer.into_inner())
    }
}

/// A writer that has written nothing. It records positions in the list, none yet, if the options
/// ask for them.
#[tactic(auto, unfolding(crate::specs::Prints::with_positions))]
fn new_writer<'a>(
    alloc: Global,
    options: Options,
    positions: &'a mut Vec<(BytePos, LineCol)>,
) -> JsWriter<'a, Vec<u8>>
    requires { positions.old.items ≡ [] }
    ensures { sheet_of result ≡ with_positions options.positions blank_sheet }
{
    let kept = if options.positions {
        Some(positions)
    } else {
        None
    };
    JsWriter::new(alloc, &NoSource, "\n", Vec::new(alloc), kept)
}

/// Prints a tree without comments to a writer, whose faults are want of memory, and gives the
/// writer back.
#[tactic(auto, unfolding(swc_ecma_codegen_grammar::specs::Comments::maps_in))]
fn printed_on<P: Node, W: WriteJs + Drop>(
    alloc: Global,
    config: Config,
    tree: &P,
    wr: W,
) -> Result<W, Fault>
    ensures sheet { IfOk result (λ w. W.sheet w
        ≡ (printed (P.part tree.now) (start no_lines no_maps config (W.sheet wr))).sheet) }
    ensures cause { IfErr result (λ fault. (ended : State)
        × EndsWithFault (P.part tree.now) (start no_lines no_maps config (W.sheet wr)) ended
        fault) }
    ensures no_usage { result ≢ Err Fault.Usage }
{
    let mut emitter = Emitter::new(alloc, config, &NoSource, None::<CommentMaps>, wr);
    match print_by(tree, &mut emitter) {
        Ok(()) => Ok(emitter.wr),
        Err(fault) => Err(fault),
    }
}

/// Prints a tree. Where it is refused, the emitter has ended as its error says: where memory is
/// wanting, its writer has counted a fault, or the step that was refused takes memory.
fn print_by<P: Node, W: WriteJs, S: SourceMapper, C: Comments>(
    tree: &P,
    e: &mut Emitter<'_, W, S, C>,
) -> Result<(), Fault>
    ensures sheet { OnOk result (W.sheet e.new.wr
        ≡ (printed (P.part tree.now) (state_of S.lines C.maps W.sheet e.old)).sheet) }
    ensures cause { IfErr result (EndsWithFault (P.part tree.now)
        (state_of S.lines C.maps W.sheet e.old) (state_of S.lines C.maps W.sheet e.new)) }
    ensures no_usage { result ≢ Err Fault.Usage }
{
    match tree.emit_with(e) {
        Ok(()) => Ok(()),
        Err(error) => Err(Fault::of_emission(&error)),
    }
}
