//! Whatever can be printed.

ghost use Rattle.swc_ecma_codegen_tokens.specs.Run.{Part};
ghost use Rattle.swc_ecma_codegen_emit.specs.View.{state_of};
ghost use Rattle.swc_ecma_codegen_emit.specs.Emission.{Emission};
ghost use Rattle.swc_ecma_codegen_emit.specs.Lists.{if_some_at};
ghost use Rattle.swc_ecma_codegen_emit.specs.Places.{by_itself};

use crate::emitter::Emitter;
use crate::nodes::{Context, EmitAt};
use swc_ecma_codegen_common::Result;
use swc_ecma_codegen_grammar::comments::Comments;
use swc_ecma_codegen_grammar::mapper::SourceMapper;
use swc_ecma_codegen_spans::Spanned;
use swc_ecma_codegen_text_writer::WriteJs;
use swc_ecma_codegen_tree::Link;

/// A node that can be printed: each type of node, a link, and a reference, a box or an option of
/// these. swc's `Node`.
pub trait Node: Spanned {
    ghost part: { Self → Part };

    /// Prints it. `None` prints nothing.
    fn emit_with<W: WriteJs, S: SourceMapper, C: Comments>(
        &self,
        e: &mut Emitter<'_, W, S, C>,
    ) -> Result
        ensures { Emission (part self.now) (state_of S.lines C.maps W.sheet e.old)
            (state_of S.lines C.maps W.sheet e.new) result };
}

impl<T: EmitAt + Spanned> Node for T {
    ghost part = { λ n. by_itself (T.items n) };

    fn emit_with<W: WriteJs, S: SourceMapper, C: Comments>(
        &self,
        e: &mut Emitter<'_, W, S, C>,
    ) -> Result {
        e.emit(self)
    }
}

impl<T: EmitAt> EmitAt for &T {
    ghost items = { λ n place. T.items n.now place };

    fn emit_at<W: WriteJs, S: SourceMapper, C: Comments>(
        &self,
        e: &mut Emitter<'_, W, S, C>,
        context: Context,
    ) {
        (**self).emit_at(e, context)
    }
}

impl<T: EmitAt> EmitAt for Box<T> {
    ghost items = { λ n place. T.items n.value place };

    fn emit_at<W: WriteJs, S: SourceMapper, C: Comments>(
        &self,
        e: &mut Emitter<'_, W, S, C>,
        context: Context,
    ) {
        (**self).emit_at(e, context)
    }
}

impl<T: EmitAt> EmitAt for Option<T> {
    ghost items = { if_some_at T.items };

    #[tactic(auto, unfolding(crate::specs::Lists::if_some_at))]
    fn emit_at<W: WriteJs, S: SourceMapper, C: Comments>(
        &self,
        e: &mut Emitter<'_, W, S, C>,
        context: Context,
    ) {
        match self {
            Some(node) => node.emit_at(e, context),
            None => {}
        }
    }
}

impl<K, N: EmitAt> EmitAt for Link<K, N> {
    ghost items = { λ n place. N.items n.node.value place };

    fn emit_at<W: WriteJs, S: SourceMapper, C: Comments>(
        &self,
        e: &mut Emitter<'_, W, S, C>,
        context: Context,
    ) {
        self.target().emit_at(e, context)
    }
}
