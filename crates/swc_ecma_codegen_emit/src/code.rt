//! A text in memory.

ghost use Rattle.std.specs.Prelude.{◌≡◌, ◌⊎◌, ◌<◌, ◌^◌, true, false, [], None, IfOk, IfErr, string_bytes};
ghost use Rattle.swc_ecma_codegen_common.specs.declared.errors.Error.TheVariants.{OutOfMemory};
ghost use Rattle.swc_ecma_codegen_grammar.specs.SourceLines.{no_lines};
ghost use Rattle.swc_ecma_codegen_tokens.specs.Run.{printed, start};
ghost use Rattle.swc_ecma_codegen_grammar.specs.Comments.{maps_in, no_maps, AreClosed};
ghost use Rattle.swc_ecma_codegen_tokens.specs.Written.{ReadsAs, taken_remarks};
ghost use Rattle.swc_ecma_codegen_tokens.specs.Ready.{token_count};
ghost use Rattle.swc_ecma_codegen_settings.specs.Defaults.{default_config};
ghost use Rattle.swc_ecma_codegen_emit.specs.Roots.{Root, root_items, root_phrase, is_well_formed_root};
ghost use Rattle.swc_ecma_codegen_common.specs.Refusals.{reason_of};
ghost use Rattle.swc_ecma_codegen_text_writer.specs.Places.{origin};
ghost use Rattle.swc_ecma_codegen_text_writer.specs.Recorded.{StandIn, AreNew};
ghost use Rattle.swc_ecma_codegen_text_writer.specs.Sheet.{Sheet, Commit, Refuses, holds_semicolons};
ghost use Rattle.swc_ecma_codegen_text_writer.specs.View.{sheet_of};
ghost use Rattle.swc_ecma_codegen_grammar.specs.Phrases.{names_in};
ghost use Rattle.swc_ecma_codegen_tokens.specs.Named.{NamesStand};
ghost use Rattle.swc_ecma_codegen_tokens.specs.Run.{steps_in, unlined, unprintable_in};
ghost use Rattle.swc_ecma_codegen_emit.specs.Texts.{blank_sheet, sheet_on, sheet_with, start_on, start_with, text_of, text_over, text_with, unheld, with_last, GivesCause, GivesCauseOrLast, IsOfWriter, IsPrinted};

use crate::emitter::Emitter;
use crate::node::Node;
use std::alloc::Global;
use swc_ecma_codegen_common::{BytePos, Error, LineCol};
use swc_ecma_codegen_grammar::comments::{CommentMaps, Comments};
use swc_ecma_codegen_grammar::mapper::{NoSource, SourceMapper};
use swc_ecma_codegen_settings::config::Config;
use swc_ecma_codegen_text_writer::{JsWriter, PositionsWriter, WriteJs, omit_trailing_semi};

/// Prints a node to a writer, with the settings of `Config::default()`, and gives the writer back.
fn print_to<N: Node, S: SourceMapper, C: Comments + Drop, W: WriteJs + Drop>(
    alloc: Global,
    cm: &S,
    comments: Option<C>,
    node: &N,
    wr: W,
) -> std::result::Result<W, Error>
    ensures sheet { IfOk result (λ w. W.sheet w
        ≡ (printed (N.part node.now) (start (S.lines cm.now) (maps_in C.maps comments)
        default_config (W.sheet wr))).sheet) }
    ensures printed { IfOk result (λ w. IsPrinted (N.part node.now)
        (start (S.lines cm.now) (maps_in C.maps comments) default_config (W.sheet wr))) }
    ensures cause { IfErr result (GivesCause (N.part node.now)
        (start (S.lines cm.now) (maps_in C.maps comments) default_config (W.sheet wr))) }
{
    let mut emitter = Emitter::new(alloc, Config::default(), cm, comments, wr);
    node.emit_with(&mut emitter)?;
    Ok(emitter.into_writer())
}

/// The text of a node, with the settings of `Config::default()`, lines that end with LF, and four
/// blanks a level. `cm` tells where lines end in the source text, and `comments` has its comments:
/// those that the node takes are written. `OutOfMemory` is want of memory for the text too. swc's
/// `to_code_default`.
pub fn to_code_default<N: Node, S: SourceMapper, C: Comments + Drop>(
    alloc: Global,
    cm: &S,
    comments: Option<C>,
    node: &N,
) -> std::result::Result<String, Error>
    ensures text { IfOk result (λ text. string_bytes text
        ≡ text_over (S.lines cm.now) (maps_in C.maps comments) (N.part node.now)) }
    // Its steps were made: what a root's steps do, `swc_ecma_codegen_laws::emissions_of_roots`
    // says.
    ensures printed { IfOk result (λ text. IsPrinted (N.part node.now)
        (start (S.lines cm.now) (maps_in C.maps comments) default_config blank_sheet)) }
    // Where each comment can be read back, the text of a well-formed tree is UTF-8, and reads as
    // one of the tree's token lists with the comments that were taken between the tokens, in order.
    ensures reads { (root : Root) → N.part node.now ≡ root_items root →
        is_well_formed_root root ≡ true → AreClosed (maps_in C.maps comments) →
        IfOk result (λ text.
        ReadsAs default_config false (root_phrase root)
        (taken_remarks (N.part node.now) (start (S.lines cm.now) (maps_in C.maps comments)
        default_config blank_sheet).env) (string_bytes text)) }
    // A well-formed tree is refused for want of memory alone.
    ensures made { (root : Root) → N.part node.now ≡ root_items root →
        is_well_formed_root root ≡ true → token_count (root_phrase root) < 2 ^ 32 →
        IfErr result (λ error. error ≡ OutOfMemory) }
    // It is refused for want of memory, or for the cause that the error names.
    ensures cause { IfErr result (λ error. (error ≡ OutOfMemory)
        ⊎ GivesCause (N.part node.now) (start (S.lines cm.now) (maps_in C.maps comments)
        default_config blank_sheet) error) }
    ensures not_writer { IfErr result (λ error. IsOfWriter error → ⊥) }
{
    let writer = JsWriter::new(alloc, cm, "\n", Vec::new(alloc), None);
    match print_to(alloc, cm, comments, node, writer) {
        Ok(writer) => Ok(String::from_utf8(writer.into_inner()).unwrap()),
        Err(Error::Writer(_)) => Err(Error::OutOfMemory),
        Err(error) => Err(error),
    }
}

/// The text of a node with its comments, over no source text, as `to_code_default` gives it. swc's
/// `to_code_with_comments`.
pub fn to_code_with_comments<N: Node, C: Comments + Drop>(
    alloc: Global,
    comments: Option<C>,
    node: &N,
) -> std::result::Result<String, Error>
    ensures text { IfOk result (λ text. string_bytes text
        ≡ text_over no_lines (maps_in C.maps comments) (N.part node.now)) }
    ensures printed { IfOk result (λ text. IsPrinted (N.part node.now)
        (start no_lines (maps_in C.maps comments) default_config blank_sheet)) }
    // Where each comment can be read back, the text of a well-formed tree reads as one of the
    // tree's token lists with the comments that were taken between the tokens, in order.
    ensures reads { (root : Root) → N.part node.now ≡ root_items root →
        is_well_formed_root root ≡ true → AreClosed (maps_in C.maps comments) →
        IfOk result (λ text.
        ReadsAs default_config false (root_phrase root)
        (taken_remarks (N.part node.now) (start no_lines (maps_in C.maps comments) default_config
        blank_sheet).env) (string_bytes text)) }
    ensures made { (root : Root) → N.part node.now ≡ root_items root →
        is_well_formed_root root ≡ true → token_count (root_phrase root) < 2 ^ 32 →
        IfErr result (λ error. error ≡ OutOfMemory) }
    ensures cause { IfErr result (λ error. (error ≡ OutOfMemory)
        ⊎ GivesCause (N.part node.now) (start no_lines (maps_in C.maps comments) default_config
        blank_sheet) error) }
    ensures not_writer { IfErr result (λ error. IsOfWriter error → ⊥) }
{
    to_code_default(alloc, &NoSource, comments, node)
}

/// The text of a node without comments, over no source text, as `to_code_default` gives it. swc's
/// `to_code`.
#[tactic(auto, unfolding(swc_ecma_codegen_grammar::specs::Comments::maps_in))]
pub fn to_code<N: Node>(alloc: Global, node: &N) -> std::result::Result<String, Error>
    ensures text { IfOk result (λ text. string_bytes text ≡ text_of (N.part node.now)) }
    ensures printed { IfOk result (λ text. IsPrinted (N.part node.now)
        (start no_lines no_maps default_config blank_sheet)) }
    // The text of a well-formed tree is UTF-8, and reads as one of the tree's token lists, with no
    // comments.
    ensures reads { (root : Root) → N.part node.now ≡ root_items root →
        is_well_formed_root root ≡ true →
        IfOk result (λ text.
        ReadsAs default_config false (root_phrase root) [] (string_bytes text)) }
    // A well-formed tree is refused for want of memory alone.
    ensures made { (root : Root) → N.part node.now ≡ root_items root →
        is_well_formed_root root ≡ true → token_count (root_phrase root) < 2 ^ 32 →
        IfErr result (λ error. error ≡ OutOfMemory) }
    // It is refused for want of memory, or for the cause that the error names.
    ensures cause { IfErr result (λ error. (error ≡ OutOfMemory)
        ⊎ GivesCause (N.part node.now) (start no_lines no_maps default_config blank_sheet) error) }
    ensures not_writer { IfErr result (λ error. IsOfWriter error → ⊥) }
{
    to_code_with_comments(alloc, None::<CommentMaps>, node)
}

/// Writes a semicolon that is held back at the end, unless the settings leave it out, and gives the
/// writer back.
#[tactic(auto, unfolding(crate::specs::Texts::with_last, swc_ecma_codegen_text_writer::specs::Sheet::Writes, swc_ecma_codegen_text_writer::specs::Sheet::effect))]
fn write_last<W: WriteJs + Drop>(cfg: Config, wr: W) -> std::result::Result<W, Error>
    ensures sheet { IfOk result (λ w. W.sheet w ≡ with_last cfg (W.sheet wr)) }
    ensures cause { IfErr result (λ error. (cfg.omit_last_semi ≡ false)
        × ((new : Sheet) × Refuses Commit (reason_of error) (W.sheet wr) new)) }
{
    let mut wr = wr;
    if cfg.omit_last_semi {
        return Ok(wr);
    }
    match wr.commit_pending_semi() {
        Ok(()) => Ok(wr),
        Err(error) => Err(error),
    }
}

/// Prints a node to a writer, with a semicolon that is held back at the end, and gives the writer
/// back.
fn print_whole<N: Node, S: SourceMapper, C: Comments + Drop, W: WriteJs + Drop>(
    alloc: Global,
    cfg: Config,
    cm: &S,
    comments: Option<C>,
    node: &N,
    wr: W,
) -> std::result::Result<W, Error>
    ensures sheet { IfOk result (λ w. W.sheet w ≡ with_last cfg
        (printed (N.part node.now) (start (S.lines cm.now) (maps_in C.maps comments) cfg
        (W.sheet wr))).sheet) }
    ensures printable { IfOk result (λ w.
        unprintable_in (steps_in (N.part node.now) (start (S.lines cm.now) (maps_in C.maps comments)
        cfg (W.sheet wr))) ≡ None) }
    ensures cause { IfErr result (GivesCauseOrLast cfg (N.part node.now)
        (start (S.lines cm.now) (maps_in C.maps comments) cfg (W.sheet wr))) }
{
    let mut emitter = Emitter::new(alloc, cfg, cm, comments, wr);
    node.emit_with(&mut emitter)?;
    write_last(cfg, emitter.into_writer())
}

/// Prints a node to a writer, with a semicolon that is held back at the end, and gives the writer
/// back. Where the settings are to minify, semicolons that aren't needed are left out.
fn print_with_settings<N: Node, S: SourceMapper, C: Comments + Drop, W: WriteJs + Drop>(
    alloc: Global,
    cfg: Config,
    cm: &S,
    comments: Option<C>,
    node: &N,
    wr: W,
) -> std::result::Result<W, Error>
    requires { holds_semicolons (W.sheet wr).semicolons ≡ false }
    // A semicolon that is still held back is left out.
    ensures sheet { IfOk result (λ w. unheld (W.sheet w) ≡ unheld
        (sheet_on (W.sheet wr) (S.lines cm.now) (maps_in C.maps comments) cfg (N.part node.now))) }
    ensures printable { IfOk result (λ w.
        unprintable_in (steps_in (N.part node.now)
        (start_on (W.sheet wr) (S.lines cm.now) (maps_in C.maps comments) cfg)) ≡ None) }
    ensures cause { IfErr result (GivesCauseOrLast cfg (N.part node.now)
        (start_on (W.sheet wr) (S.lines cm.now) (maps_in C.maps comments) cfg)) }
{
    if cfg.minify {
        let held = omit_trailing_semi(wr);
        match print_whole(alloc, cfg, cm, comments, node, held) {
            Ok(ended) => Ok(ended.into_inner()),
            Err(error) => Err(error),
        }
    } else {
        print_whole(alloc, cfg, cm, comments, node, wr)
    }
}

/// Prints a node to memory, and gives the writer, which has its text.
fn print_to_memory<N: Node, S: SourceMapper, C: Comments + Drop>(
    alloc: Global,
    cfg: Config,
    cm: &S,
    comments: Option<C>,
    node: &N,
) -> std::result::Result<JsWriter<'static, Vec<u8>>, Error>
    ensures sheet { IfOk result (λ w. unheld (sheet_of w) ≡ unheld
        (sheet_on blank_sheet (S.lines cm.now) (maps_in C.maps comments) cfg (N.part node.now))) }
    ensures printable { IfOk result (λ w.
        unprintable_in (steps_in (N.part node.now)
        (start_on blank_sheet (S.lines cm.now) (maps_in C.maps comments) cfg)) ≡ None) }
    ensures cause { IfErr result (GivesCauseOrLast cfg (N.part node.now)
        (start_on blank_sheet (S.lines cm.now) (maps_in C.maps comments) cfg)) }
{
    let blank = JsWriter::new(alloc, cm, "\n", Vec::new(alloc), None);
    print_with_settings(alloc, cfg, cm, comments, node, blank)
}

/// The text of a node with these settings: `a + b;`, and `a+b;` with
/// `Config::default().with_minify(true)`.
///
/// Lines end with LF, and four blanks are a level. With `minify` semicolons that aren't needed are
/// left out before `}` and `;`; with `omit_last_semi` too, the last one is. `cm` tells where lines
/// end in the source text, and `comments` has its comments: those that the node takes are written.
/// `to_code_with_positions` gives the positions too, and takes memory for them.
///
/// It is refused as the emitter refuses the node; `OutOfMemory` is want of memory for the text too.
/// Then there is no text.
pub fn to_code_with<N: Node, S: SourceMapper, C: Comments + Drop>(
    alloc: Global,
    cfg: Config,
    cm: &S,
    comments: Option<C>,
    node: &N,
) -> std::result::Result<String, Error>
    ensures text { IfOk result (λ text. string_bytes text
        ≡ text_with (S.lines cm.now) (maps_in C.maps comments) cfg (N.part node.now)) }
    // Its steps were made: what a root's steps do, `swc_ecma_codegen_laws::emissions_of_roots`
    // says.
    ensures printed { IfOk result (λ text. IsPrinted (N.part node.now)
        (start_on blank_sheet (S.lines cm.now) (maps_in C.maps comments) cfg)) }
    // Where each comment can be read back, the text of a well-formed tree is UTF-8, and reads as
    // one of the tree's token lists with the comments that were taken between the tokens, in order;
    // minified, without some semicolons that aren't needed.
    ensures reads { (root : Root) → N.part node.now ≡ root_items root →
        is_well_formed_root root ≡ true → AreClosed (maps_in C.maps comments) →
        IfOk result (λ text.
        ReadsAs (unlined cfg) cfg.minify (root_phrase root)
        (taken_remarks (N.part node.now)
        (start_on blank_sheet (S.lines cm.now) (maps_in C.maps comments) cfg).env)
        (string_bytes text)) }
    // It is refused for want of memory, or for the cause that the error names.
    ensures cause { IfErr result (λ error. (error ≡ OutOfMemory)
        ⊎ GivesCauseOrLast cfg (N.part node.now)
        (start_on blank_sheet (S.lines cm.now) (maps_in C.maps comments) cfg) error) }
    ensures not_writer { IfErr result (λ error. IsOfWriter error → ⊥) }
{
    match print_to_memory(alloc, cfg, cm, comments, node) {
        Ok(writer) => Ok(String::from_utf8(writer.into_inner()).unwrap()),
        Err(Error::Writer(_)) => Err(Error::OutOfMemory),
        Err(error) => Err(error),
    }
}

/// Prints a node to memory, and gives the writer, which has its text and its positions.
fn print_with_positions<N: Node, S: SourceMapper, C: Comments + Drop>(
    alloc: Global,
    cfg: Config,
    cm: &S,
    comments: Option<C>,
    node: &N,
) -> std::result::Result<PositionsWriter<'static, Vec<u8>>, Error>
    ensures sheet { IfOk result (λ w. unheld (sheet_of w) ≡ unheld
        (sheet_with (S.lines cm.now) (maps_in C.maps comments) cfg (N.part node.now))) }
    ensures printable { IfOk result (λ w.
        unprintable_in (steps_in (N.part node.now)
        (start_with (S.lines cm.now) (maps_in C.maps comments) cfg)) ≡ None) }
    ensures cause { IfErr result (GivesCauseOrLast cfg (N.part node.now)
        (start_with (S.lines cm.now) (maps_in C.maps comments) cfg)) }
{
    let writer = PositionsWriter::keeping_positions(alloc, cm, "\n", Vec::new(alloc));
    print_with_settings(alloc, cfg, cm, comments, node, writer)
}

/// The text of a node, and its positions: each position of the source with the line and the column,
/// both from 0, where what stands there begins or ends in the text. Columns are UTF-16 units.
/// Position 0 is never among them, and none stands there twice with one place.
///
/// Lines end with LF, and four blanks are a level. With `minify` semicolons that aren't needed are
/// left out before `}` and `;`; with `omit_last_semi` too, the last one is. `cm` tells where lines
/// end in the source text, and `comments` has its comments: those that the node takes are written.
///
/// It is refused as the emitter refuses the node, or with `PositionTooLarge` where the last
/// semicolon stands at a line or a column above `u32::MAX`; `OutOfMemory` is want of memory for the
/// text or the list too. Then there is neither.
pub fn to_code_with_positions<N: Node, S: SourceMapper, C: Comments + Drop>(
    alloc: Global,
    cfg: Config,
    cm: &S,
    comments: Option<C>,
    node: &N,
) -> std::result::Result<(String, Vec<(BytePos, LineCol)>), Error>
    ensures text { IfOk result (λ made. string_bytes made.0
        ≡ (sheet_with (S.lines cm.now) (maps_in C.maps comments) cfg (N.part node.now)).text) }
    // Its steps were made: what a root's steps do, `swc_ecma_codegen_laws::emissions_of_roots`
    // says.
    ensures printed { IfOk result (λ made. IsPrinted (N.part node.now)
        (start_with (S.lines cm.now) (maps_in C.maps comments) cfg)) }
    // The list is that of the sheet.
    ensures positions { IfOk result (λ made. made.1.items
        ≡ (sheet_with (S.lines cm.now) (maps_in C.maps comments) cfg (N.part node.now)).pairs) }
    // Where each comment can be read back, the text of a well-formed tree is UTF-8, and reads as
    // one of the tree's token lists with the comments that were taken between the tokens, in order;
    // minified, without some semicolons that aren't needed.
    ensures reads { (root : Root) → N.part node.now ≡ root_items root →
        is_well_formed_root root ≡ true → AreClosed (maps_in C.maps comments) →
        IfOk result (λ made.
        ReadsAs (unlined cfg) cfg.minify (root_phrase root)
        (taken_remarks (N.part node.now)
        (start_with (S.lines cm.now) (maps_in C.maps comments) cfg).env) (string_bytes made.0)) }
    // Each position holds a place in the text, and they stand in the order of their places.
    ensures recorded { IfOk result (λ made. StandIn origin (string_bytes made.0) made.1.items) }
    // None stands there twice.
    ensures once { IfOk result (λ made. AreNew [] made.1.items) }
    // Each name of a well-formed tree stands in the text, with its position where it begins, unless
    // that is 0.
    ensures names { (root : Root) → N.part node.now ≡ root_items root →
        is_well_formed_root root ≡ true →
        IfOk result (λ made.
        NamesStand (unlined cfg) origin (string_bytes made.0) made.1.items
        (names_in (root_phrase root))) }
    // It is refused for want of memory, or for the cause that the error names.
    ensures cause { IfErr result (λ error. (error ≡ OutOfMemory)
        ⊎ GivesCauseOrLast cfg (N.part node.now)
        (start_with (S.lines cm.now) (maps_in C.maps comments) cfg) error) }
    ensures not_writer { IfErr result (λ error. IsOfWriter error → ⊥) }
{
    match print_with_positions(alloc, cfg, cm, comments, node) {
        Ok(writer) => {
            let (text, positions) = writer.into_parts();
            Ok((String::from_utf8(text).unwrap(), positions))
        }
        Err(Error::Writer(_)) => Err(Error::OutOfMemory),
        Err(error) => Err(error),
    }
}
