//! What is assigned to, and names that are bound.

ghost use Rattle.swc_ecma_codegen_emit.specs.Names.{binding_ident};
ghost use Rattle.swc_ecma_codegen_emit.specs.Targets.{simple_assign_target, assign_target};

use crate::emitter::Emitter;
use crate::nodes::{Context, EmitAt, LinkTarget};
use swc_ecma_codegen_grammar::comments::Comments;
use swc_ecma_codegen_grammar::mapper::SourceMapper;
use swc_ecma_codegen_text_writer::WriteJs;
use swc_ecma_codegen_tree::{AssignTarget, BindingIdent, SimpleAssignTarget};

impl<N: LinkTarget> EmitAt for BindingIdent<N> {
    ghost items = { λ n _. binding_ident N.items n };

    #[tactic(auto, unfolding(crate::specs::Names::binding_ident))]
    fn emit_at<W: WriteJs, S: SourceMapper, C: Comments>(
        &self,
        e: &mut Emitter<'_, W, S, C>,
        context: Context,
    ) {
        self.id.emit_at(e, context);
        e.annotation(&self.type_ann);
    }
}

impl<N: LinkTarget> EmitAt for AssignTarget<N> {
    ghost items = { λ n _. assign_target N.answers N.items n };

    #[tactic(auto, unfolding(crate::specs::Targets::assign_target))]
    fn emit_at<W: WriteJs, S: SourceMapper, C: Comments>(
        &self,
        e: &mut Emitter<'_, W, S, C>,
        context: Context,
    ) {
        match self {
            AssignTarget::Simple(node) => node.emit_at(e, context),
            AssignTarget::Pat(node) => node.emit_at(e, context),
        }
    }
}

impl<N: LinkTarget> EmitAt for SimpleAssignTarget<N> {
    ghost items = { λ n _. simple_assign_target N.items n };

    #[tactic(auto, unfolding(crate::specs::Targets::simple_assign_target, crate::specs::Exprs::member_at))]
    fn emit_at<W: WriteJs, S: SourceMapper, C: Comments>(
        &self,
        e: &mut Emitter<'_, W, S, C>,
        context: Context,
    ) {
        match self {
            SimpleAssignTarget::Ident(node) => node.emit_at(e, context),
            SimpleAssignTarget::Member(node) => node.emit_at(e, Context::Plain),
            SimpleAssignTarget::SuperProp(node) => node.emit_at(e, context),
            SimpleAssignTarget::Paren(node) => node.emit_at(e, context),
            SimpleAssignTarget::OptChain(node) => node.emit_at(e, context),
            SimpleAssignTarget::TsAs(node) => node.emit_at(e, context),
            SimpleAssignTarget::TsSatisfies(node) => node.emit_at(e, context),
            SimpleAssignTarget::TsNonNull(node) => node.emit_at(e, context),
            SimpleAssignTarget::TsTypeAssertion(node) => node.emit_at(e, context),
            SimpleAssignTarget::TsInstantiation(node) => node.emit_at(e, context),
            SimpleAssignTarget::Invalid(_) => e.unsupported(),
        }
    }
}
