//! Expressions of TypeScript.

ghost use Rattle.swc_ecma_codegen_emit.specs.TsExprs.{ts_as_expr, ts_const_assertion, ts_satisfies_expr, ts_non_null_expr, ts_type_assertion, ts_instantiation};

use crate::emitter::Emitter;
use crate::nodes::{Context, EmitAt, LinkTarget};
use swc_ecma_codegen_grammar::comments::Comments;
use swc_ecma_codegen_grammar::mapper::SourceMapper;
use swc_ecma_codegen_literals::Punctuator;
use swc_ecma_codegen_text_writer::WriteJs;
use swc_ecma_codegen_tree::{
    TsAsExpr, TsConstAssertion, TsInstantiation, TsNonNullExpr, TsSatisfiesExpr, TsTypeAssertion,
};

impl<N: LinkTarget> EmitAt for TsAsExpr<N> {
    ghost items = { λ n _. ts_as_expr N.items n };

    #[tactic(auto, unfolding(crate::specs::TsExprs::ts_as_expr))]
    fn emit_at<W: WriteJs, S: SourceMapper, C: Comments>(
        &self,
        e: &mut Emitter<'_, W, S, C>,
        context: Context,
    ) {
        e.leading_comments(self.span.lo);
        self.expr.target().emit_at(e, Context::Plain);
        e.space();
        e.keyword(None, "as");
        e.space();
        self.type_ann.target().emit_at(e, Context::Plain);
    }
}

impl<N: LinkTarget> EmitAt for TsConstAssertion<N> {
    ghost items = { λ n _. ts_const_assertion N.items n };

    #[tactic(auto, unfolding(crate::specs::TsExprs::ts_const_assertion))]
    fn emit_at<W: WriteJs, S: SourceMapper, C: Comments>(
        &self,
        e: &mut Emitter<'_, W, S, C>,
        context: Context,
    ) {
        e.leading_comments(self.span.lo);
        self.expr.target().emit_at(e, Context::Plain);
        e.space();
        e.keyword(None, "as");
        e.space();
        e.keyword(None, "const");
    }
}

impl<N: LinkTarget> EmitAt for TsSatisfiesExpr<N> {
    ghost items = { λ n _. ts_satisfies_expr N.items n };

    #[tactic(auto, unfolding(crate::specs::TsExprs::ts_satisfies_expr))]
    fn emit_at<W: WriteJs, S: SourceMapper, C: Comments>(
        &self,
        e: &mut Emitter<'_, W, S, C>,
        context: Context,
    ) {
        e.leading_comments(self.span.lo);
        self.expr.target().emit_at(e, Context::Plain);
        e.space();
        e.keyword(None, "satisfies");
        e.space();
        self.type_ann.target().emit_at(e, Context::Plain);
    }
}

impl<N: LinkTarget> EmitAt for TsNonNullExpr<N> {
    ghost items = { λ n _. ts_non_null_expr N.items n };

    #[tactic(auto, unfolding(crate::specs::TsExprs::ts_non_null_expr))]
    fn emit_at<W: WriteJs, S: SourceMapper, C: Comments>(
        &self,
        e: &mut Emitter<'_, W, S, C>,
        context: Context,
    ) {
        e.leading_comments(self.span.lo);
        self.expr.target().emit_at(e, Context::Plain);
        e.punct(Punctuator::Bang);
    }
}

impl<N: LinkTarget> EmitAt for TsTypeAssertion<N> {
    ghost items = { λ n _. ts_type_assertion N.items n };

    #[tactic(auto, unfolding(crate::specs::TsExprs::ts_type_assertion))]
    fn emit_at<W: WriteJs, S: SourceMapper, C: Comments>(
        &self,
        e: &mut Emitter<'_, W, S, C>,
        context: Context,
    ) {
        e.leading_comments(self.span.lo);
        e.punct(Punctuator::Less);
        self.type_ann.target().emit_at(e, Context::Plain);
        e.close();
        self.expr.target().emit_at(e, Context::Plain);
    }
}

impl<N: LinkTarget> EmitAt for TsInstantiation<N> {
    ghost items = { λ n _. ts_instantiation N.items n };

    #[tactic(auto, unfolding(crate::specs::TsExprs::ts_instantiation))]
    fn emit_at<W: WriteJs, S: SourceMapper, C: Comments>(
        &self,
        e: &mut Emitter<'_, W, S, C>,
        context: Context,
    ) {
        e.leading_comments(self.span.lo);
        self.expr.target().emit_at(e, Context::Plain);
        self.type_args.target().emit_at(e, Context::Plain);
    }
}
