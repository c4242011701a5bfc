//! How a link, a reference, a box and an option are printed, whatever links hold: `emit_with` of
//! one writes what is written of what it holds, and where that is what is written of a root, what
//! it adds to the text reads as that root, with the comments that it took between the tokens.

ghost use Rattle.std.specs.Prelude.{◌≡◌, Some, None, IsOk, false};
ghost use Rattle.swc_ecma_codegen_common.specs.Refusals.{in_short};
ghost use Rattle.swc_ecma_codegen_tokens.specs.Run.{Follows, nothing};
ghost use Rattle.swc_ecma_codegen_emit.specs.Emission.{ReadsAsRoot};
ghost use Rattle.swc_ecma_codegen_emit.specs.Places.{by_itself};
ghost use Rattle.swc_ecma_codegen_emit.specs.Roots.{Root, root_items};
ghost use Rattle.swc_ecma_codegen_emit.specs.View.{state_of};

use swc_ecma_codegen::ast::Spanned;
use swc_ecma_codegen::{Emitter, Node};
use swc_ecma_codegen_common::Result;
use swc_ecma_codegen_emit::nodes::EmitAt;
use swc_ecma_codegen_grammar::comments::Comments;
use swc_ecma_codegen_grammar::mapper::SourceMapper;
use swc_ecma_codegen_text_writer::WriteJs;
use swc_ecma_codegen_tree::Link;

/// A link: what is written of what it holds, which reads as that.
pub fn emitted_link_reads<K, N: EmitAt + Spanned, W: WriteJs, S: SourceMapper, C: Comments>(
    link: &Link<K, N>,
    e: &mut Emitter<'_, W, S, C>,
) -> Result
    ensures items { Follows (by_itself (N.items link.now.node.value) nothing)
        (state_of S.lines C.maps W.sheet e.old) (state_of S.lines C.maps W.sheet e.new)
        (in_short result) }
    ensures reads { (root : Root) → by_itself (N.items link.now.node.value) ≡ root_items root →
        ReadsAsRoot root (state_of S.lines C.maps W.sheet e.old)
        (state_of S.lines C.maps W.sheet e.new)
        result }
{
    link.emit_with(e)
}

/// A reference.
pub fn emitted_ref_reads<T: EmitAt + Spanned, W: WriteJs, S: SourceMapper, C: Comments>(
    node: &&T,
    e: &mut Emitter<'_, W, S, C>,
) -> Result
    ensures items { Follows (by_itself (T.items node.now.now) nothing)
        (state_of S.lines C.maps W.sheet e.old) (state_of S.lines C.maps W.sheet e.new)
        (in_short result) }
    ensures reads { (root : Root) → by_itself (T.items node.now.now) ≡ root_items root →
        ReadsAsRoot root (state_of S.lines C.maps W.sheet e.old)
        (state_of S.lines C.maps W.sheet e.new)
        result }
{
    node.emit_with(e)
}

/// A box.
pub fn emitted_box_reads<T: EmitAt + Spanned, W: WriteJs, S: SourceMapper, C: Comments>(
    node: &Box<T>,
    e: &mut Emitter<'_, W, S, C>,
) -> Result
    ensures items { Follows (by_itself (T.items node.now.value) nothing)
        (state_of S.lines C.maps W.sheet e.old) (state_of S.lines C.maps W.sheet e.new)
        (in_short result) }
    ensures reads { (root : Root) → by_itself (T.items node.now.value) ≡ root_items root →
        ReadsAsRoot root (state_of S.lines C.maps W.sheet e.old)
        (state_of S.lines C.maps W.sheet e.new)
        result }
{
    node.emit_with(e)
}

/// What may be missing: where it is, nothing is written, and nothing is refused but for an earlier
/// refusal.
pub fn emitted_option_reads<T: EmitAt + Spanned, W: WriteJs, S: SourceMapper, C: Comments>(
    node: &Option<T>,
    e: &mut Emitter<'_, W, S, C>,
) -> Result
    ensures items { (some : T) → node.now ≡ Some some →
        Follows (by_itself (T.items some) nothing) (state_of S.lines C.maps W.sheet e.old)
        (state_of S.lines C.maps W.sheet e.new) (in_short result) }
    ensures reads { (some : T) (root : Root) → node.now ≡ Some some →
        by_itself (T.items some) ≡ root_items root →
        ReadsAsRoot root (state_of S.lines C.maps W.sheet e.old)
        (state_of S.lines C.maps W.sheet e.new)
        result }
    ensures none { node.now ≡ None →
        state_of S.lines C.maps W.sheet e.new ≡ state_of S.lines C.maps W.sheet e.old }
    ensures none_made { node.now ≡ None → (state_of S.lines C.maps W.sheet e.old).failed ≡ false →
        IsOk result }
{
    node.emit_with(e)
}
