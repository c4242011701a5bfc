//! The emission that a request asks for. A function for whatever can be printed costs a check less
//! than one for a program.

ghost use Rattle.std.specs.Prelude.{◌≡◌, ◌⊎◌, IfOk, IfErr, option_map, string_bytes};
ghost use Rattle.std.specs.Str.{is_utf8, IsUtf8};
ghost use Rattle.serde_json.specs.View.{view};
ghost use Rattle.swc_ecma_codegen_common.specs.declared.errors.Error.TheVariants.{OutOfMemory};
ghost use Rattle.swc_ecma_codegen_grammar.specs.Comments.{maps_in};
ghost use Rattle.swc_ecma_codegen_text_writer.specs.View.{sheet_of};
ghost use Rattle.swc_ecma_codegen_tokens.specs.Run.{maps_after, printed, start, steps_in, steps_of};
ghost use Rattle.swc_ecma_codegen_emit.specs.Texts.{start_on, unheld, GivesCause, IsPrinted};
ghost use Rattle.swc_ecma_codegen_requests.specs.Prints as prints;
ghost use Rattle.swc_ecma_codegen_requests.specs.Prints.{lines_over, maps_by, start_by, IsMadeOf, IsPrintedBy};
ghost use Rattle.swc_ecma_codegen_requests.specs.Remarks.{left_by, places_in, places_of};
ghost use Rattle.swc_ecma_codegen_requests.specs.Sheets.{sheet_by};

use crate::layouts::Layout;
use crate::remarks::{Placed, Places, left_in, maps_of};
use crate::writers::new_writer;
use serde_json::Value;
use std::alloc::{AllocError, Global};
use swc_ecma_codegen_common::{BytePos, Error, LineCol};
use swc_ecma_codegen_emit::{Emitter, Node};
use swc_ecma_codegen_grammar::comments::{CommentMaps, Comments};
use swc_ecma_codegen_grammar::mapper::{NoSource, SourceMapper};
use swc_ecma_codegen_settings::config::Config;
use swc_ecma_codegen_source::SourceText;
use swc_ecma_codegen_text_writer::{PositionsWriter, WriteJs, omit_trailing_semi};

/// How a tree is printed.
#[derive(Drop)]
pub(crate) struct Manner {
    pub(crate) config: Config,
    pub(crate) layout: Layout,
    pub(crate) source: Option<String>,
    /// The position of the source text's first byte.
    pub(crate) first: u32,
    pub(crate) comments: Option<Placed>,
    pub(crate) positions: bool,
}

/// What was printed: the text, the positions if they were asked for, and the comments that are left
/// where there were any.
#[derive(Drop)]
pub(crate) struct Printed {
    pub(crate) code: String,
    pub(crate) positions: Option<Vec<(BytePos, LineCol)>>,
    pub(crate) left: Option<Value>,
}

/// A text with its positions, and the comments that nothing took.
#[derive(Drop)]
struct Page<C> {
    text: Vec<u8>,
    positions: Vec<(BytePos, LineCol)>,
    comments: Option<C>,
}

/// Prints a tree.
pub(crate) fn print<P: Node>(alloc: Global, manner: Manner, tree: &P) -> Result<Printed, Error>
    ensures made { IfOk result (IsPrintedBy manner (P.part tree.now)) }
    // It is refused for want of memory, or for the cause that the error names.
    ensures cause { IfErr result (λ error. (error ≡ OutOfMemory)
        ⊎ GivesCause (P.part tree.now) (start_by manner) error) }
{
    let Manner {
        config,
        layout,
        source,
        first,
        comments,
        positions,
    } = manner;
    let (maps, places) = with_places(alloc, comments)?;
    let page = page_over(alloc, config, layout, &source, first, maps, tree)?;
    Ok(told(alloc, page, positions, places)?)
}

/// The comments of a request, if it has some, and where they stand.
#[tactic(auto, unfolding(swc_ecma_codegen_grammar::specs::Comments::maps_in, crate::specs::Prints::maps_by))]
fn with_places(
    alloc: Global,
    comments: Option<Placed>,
) -> Result<(Option<CommentMaps>, Option<Places>), AllocError>
    ensures maps { IfOk result (λ made. maps_in ⟦<CommentMaps as Comments>⟧.maps made.0
        ≡ maps_by comments) }
    ensures places { IfOk result (λ made. option_map places_of made.1
        ≡ option_map places_in comments) }
{
    match comments {
        Some(comments) => {
            let (maps, places) = maps_of(alloc, comments)?;
            Ok((Some(maps), Some(places)))
        }
        None => Ok((None, None)),
    }
}

/// What is told of a page.
fn told(
    alloc: Global,
    page: Page<CommentMaps>,
    positions: bool,
    places: Option<Places>,
) -> Result<Printed, AllocError>
    requires { IsUtf8 page.text.items }
    ensures code { IfOk result (λ made. string_bytes made.code ≡ page.text.items) }
    ensures positions { IfOk result (λ made. option_map (λ list. list.items) made.positions
        ≡ prints.if_asked positions page.positions.items) }
    ensures left { IfOk result (λ made. option_map view made.left
        ≡ left_by (option_map places_of places)
        (maps_in ⟦<CommentMaps as Comments>⟧.maps page.comments)) }
{
    let Page {
        text,
        positions: pairs,
        comments,
    } = page;
    Ok(Printed {
        code: String::from_utf8(text).unwrap(),
        positions: if_asked(positions, pairs),
        left: left_of(alloc, comments, places)?,
    })
}

/// What is told where it is asked for.
#[tactic(auto, unfolding(crate::specs::Prints::if_asked))]
fn if_asked(asked: bool, pairs: Vec<(BytePos, LineCol)>) -> Option<Vec<(BytePos, LineCol)>>
    ensures { option_map (λ list. list.items) result ≡ prints.if_asked asked pairs.items }
{
    if asked { Some(pairs) } else { None }
}

/// The comments that are left, where a request has comments.
fn left_of(
    alloc: Global,
    comments: Option<CommentMaps>,
    places: Option<Places>,
) -> Result<Option<Value>, AllocError>
    ensures { IfOk result (λ left. option_map view left
        ≡ left_by (option_map places_of places)
        (maps_in ⟦<CommentMaps as Comments>⟧.maps comments)) }
{
    match places {
        Some(places) => Ok(Some(left_in(alloc, all_of(alloc, comments), places)?)),
        None => Ok(None),
    }
}

/// The comments, or none.
#[tactic(auto, unfolding(swc_ecma_codegen_grammar::specs::Comments::maps_in))]
fn all_of(alloc: Global, comments: Option<CommentMaps>) -> CommentMaps
    ensures { ⟦<CommentMaps as Comments>⟧.maps result
        ≡ maps_in ⟦<CommentMaps as Comments>⟧.maps comments }
{
    match comments {
        Some(comments) => comments,
        None => CommentMaps::new(alloc),
    }
}

/// The page of a tree over a source text, if there is one, whose first byte stands at a position.
#[tactic(auto, unfolding(crate::specs::Prints::lines_over))]
fn page_over<P: Node>(
    alloc: Global,
    config: Config,
    layout: Layout,
    source: &Option<String>,
    first: u32,
    comments: Option<CommentMaps>,
    tree: &P,
) -> Result<Page<CommentMaps>, Error>
    ensures made { IfOk result (λ page. IsMadeOf (P.part tree.now)
        (start_on (sheet_by layout) (lines_over source.now first)
        (maps_in ⟦<CommentMaps as Comments>⟧.maps comments) config)
        page.text.items page.positions.items
        (maps_in ⟦<CommentMaps as Comments>⟧.maps page.comments)) }
    ensures cause { IfErr result (λ error. (error ≡ OutOfMemory)
        ⊎ GivesCause (P.part tree.now) (start_on (sheet_by layout) (lines_over source.now first)
        (maps_in ⟦<CommentMaps as Comments>⟧.maps comments) config) error) }
{
    match source {
        Some(text) => match SourceText::new(alloc, text, BytePos(first)) {
            Ok(source) => page_of(alloc, config, layout, &source, comments, tree),
            Err(error) => Err(error),
        },
        None => page_of(alloc, config, layout, &NoSource, comments, tree),
    }
}

/// The page of a tree over a source text. With `minify` semicolons that aren't needed are left out.
fn page_of<P: Node, S: SourceMapper, C: Comments + Drop>(
    alloc: Global,
    config: Config,
    layout: Layout,
    source: &S,
    comments: Option<C>,
    tree: &P,
) -> Result<Page<C>, Error>
    // The text, the positions and the comments that are left are those of the tree, over this
    // source text, with these comments and settings.
    ensures made { IfOk result (λ page. IsMadeOf (P.part tree.now)
        (start_on (sheet_by layout) (S.lines source.now) (maps_in C.maps comments) config)
        page.text.items page.positions.items (maps_in C.maps page.comments)) }
    // It is refused for the cause that the error names, a fault of the writer for want of memory.
    ensures cause { IfErr result (λ error. (error ≡ OutOfMemory)
        ⊎ GivesCause (P.part tree.now) (start_on (sheet_by layout) (S.lines source.now)
        (maps_in C.maps comments) config) error) }
{
    match writer_of(alloc, config, layout, source, comments, tree) {
        Ok((writer, left)) => Ok(Page::of_writer(writer, left)),
        Err(error) => Err(error),
    }
}

/// A writer to which a tree was printed, and the comments that nothing took.
fn writer_of<P: Node, S: SourceMapper, C: Comments + Drop>(
    alloc: Global,
    config: Config,
    layout: Layout,
    source: &S,
    comments: Option<C>,
    tree: &P,
) -> Result<(PositionsWriter<'static, Vec<u8>>, Option<C>), Error>
    // A semicolon that is still held back is left out.
    ensures sheet { IfOk result (λ made. unheld (sheet_of made.0) ≡ unheld
        (printed (P.part tree.now) (start_on (sheet_by layout) (S.lines source.now)
        (maps_in C.maps comments) config)).sheet) }
    ensures printed { IfOk result (λ made. IsPrinted (P.part tree.now)
        (start_on (sheet_by layout) (S.lines source.now) (maps_in C.maps comments) config)) }
    ensures left { IfOk result (λ made. maps_in C.maps made.1
        ≡ maps_after (steps_of (steps_in (P.part tree.now)
        (start_on (sheet_by layout) (S.lines source.now) (maps_in C.maps comments) config)))
        (maps_in C.maps comments)) }
    ensures cause { IfErr result (GivesCause (P.part tree.now)
        (start_on (sheet_by layout) (S.lines source.now) (maps_in C.maps comments) config)) }
{
    let writer = new_writer(alloc, layout, source);
    if config.minify {
        let held = omit_trailing_semi(writer);
        match printed_on(alloc, config, source, comments, tree, held) {
            Ok((ended, left)) => Ok((ended.into_inner(), left)),
            Err(error) => Err(error),
        }
    } else {
        printed_on(alloc, config, source, comments, tree, writer)
    }
}

impl<C: Drop> Page<C> {
    /// What a writer has written.
    fn of_writer(writer: PositionsWriter<'_, Vec<u8>>, comments: Option<C>) -> Page<C>
        ensures text { result.text.items ≡ (sheet_of writer.entry).text }
        ensures whole { is_utf8 result.text.items ≡ (sheet_of writer.entry).whole }
        ensures positions { result.positions.items ≡ (sheet_of writer.entry).pairs }
        ensures comments { result.comments ≡ comments }
    {
        let (text, positions) = writer.into_parts();
        Page {
            text,
            positions,
            comments,
        }
    }
}

/// Prints a tree to a writer of tokens, and gives that back with the comments that are left.
fn printed_on<P: Node, S: SourceMapper, C: Comments + Drop, W: WriteJs + Drop>(
    alloc: Global,
    config: Config,
    source: &S,
    comments: Option<C>,
    tree: &P,
    wr: W,
) -> Result<(W, Option<C>), Error>
    ensures sheet { IfOk result (λ made. W.sheet made.0 ≡ (printed (P.part tree.now)
        (start (S.lines source.now) (maps_in C.maps comments) config (W.sheet wr))).sheet) }
    ensures printed { IfOk result (λ made. IsPrinted (P.part tree.now)
        (start (S.lines source.now) (maps_in C.maps comments) config (W.sheet wr))) }
    ensures left { IfOk result (λ made. maps_in C.maps made.1
        ≡ maps_after (steps_of (steps_in (P.part tree.now)
        (start (S.lines source.now) (maps_in C.maps comments) config (W.sheet wr))))
        (maps_in C.maps comments)) }
    ensures cause { IfErr result (GivesCause (P.part tree.now)
        (start (S.lines source.now) (maps_in C.maps comments) config (W.sheet wr))) }
{
    let mut emitter = Emitter::new(alloc, config, source, comments, wr);
    match tree.emit_with(&mut emitter) {
        Ok(()) => Ok((emitter.wr, emitter.comments)),
        Err(error) => Err(error),
    }
}
