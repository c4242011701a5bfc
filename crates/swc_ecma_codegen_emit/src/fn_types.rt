//! Types of functions, and what types say of their parameters and results.

ghost use Rattle.swc_ecma_codegen_emit.specs.Standing.{Performs};
ghost use Rattle.swc_ecma_codegen_emit.specs.TsMembers.{fn_params_list};
ghost use Rattle.swc_ecma_codegen_emit.specs.Types.{ts_fn_param, signature_type, ts_fn_type, spaced_params, ts_constructor_type, ts_fn_or_constructor_type, ts_this_type_or_ident, is_behind, ts_type_predicate};

use crate::emitter::Emitter;
use crate::nodes::{Context, EmitAt, LinkTarget};
use crate::type_params::types_format;
use swc_ecma_codegen_common::Span;
use swc_ecma_codegen_grammar::comments::Comments;
use swc_ecma_codegen_grammar::mapper::SourceMapper;
use swc_ecma_codegen_literals::Punctuator;
use swc_ecma_codegen_text_writer::WriteJs;
use swc_ecma_codegen_tree::{
    TsConstructorType, TsFnOrConstructorType, TsFnParam, TsFnParamBox, TsFnType, TsThisTypeOrIdent,
    TsTypeAnnBox, TsTypePredicate,
};

impl<N: LinkTarget> EmitAt for TsFnParam<N> {
    ghost items = { λ n _. ts_fn_param N.answers N.items n };

    #[tactic(auto, unfolding(crate::specs::Types::ts_fn_param))]
    fn emit_at<W: WriteJs, S: SourceMapper, C: Comments>(
        &self,
        e: &mut Emitter<'_, W, S, C>,
        context: Context,
    ) {
        match self {
            TsFnParam::Ident(node) => node.emit_at(e, Context::Plain),
            TsFnParam::Array(node) => node.emit_at(e, Context::Plain),
            TsFnParam::Rest(node) => node.emit_at(e, Context::Plain),
            TsFnParam::Object(node) => node.emit_at(e, Context::Plain),
        }
    }
}

impl<N: LinkTarget> EmitAt for TsFnType<N> {
    ghost items = { λ n _. ts_fn_type N.answers N.items n };

    #[tactic(auto, unfolding(crate::specs::Types::ts_fn_type))]
    fn emit_at<W: WriteJs, S: SourceMapper, C: Comments>(
        &self,
        e: &mut Emitter<'_, W, S, C>,
        context: Context,
    ) {
        e.leading_comments(self.span.lo);
        e.type_params(&self.type_params);
        e.signature_type(self.span, &self.params, &self.type_ann);
    }
}

impl<N: LinkTarget> EmitAt for TsConstructorType<N> {
    ghost items = { λ n _. ts_constructor_type N.answers N.items n };

    #[tactic(auto, unfolding(crate::specs::Types::ts_constructor_type))]
    fn emit_at<W: WriteJs, S: SourceMapper, C: Comments>(
        &self,
        e: &mut Emitter<'_, W, S, C>,
        context: Context,
    ) {
        e.leading_comments(self.span.lo);
        e.word_before(self.is_abstract, "abstract");
        e.keyword(None, "new");
        e.spaced_params(self);
        e.signature_type(self.span, &self.params, &self.type_ann);
    }
}

impl<N: LinkTarget> EmitAt for TsFnOrConstructorType<N> {
    ghost items = { λ n _. ts_fn_or_constructor_type N.answers N.items n };

    #[tactic(auto, unfolding(crate::specs::Types::ts_fn_or_constructor_type))]
    fn emit_at<W: WriteJs, S: SourceMapper, C: Comments>(
        &self,
        e: &mut Emitter<'_, W, S, C>,
        context: Context,
    ) {
        match self {
            TsFnOrConstructorType::TsFnType(node) => node.emit_at(e, Context::Plain),
            TsFnOrConstructorType::TsConstructorType(node) => node.emit_at(e, Context::Plain),
        }
    }
}

impl EmitAt for TsThisTypeOrIdent {
    ghost items = { λ n _. ts_this_type_or_ident n };

    #[tactic(auto, unfolding(crate::specs::Types::ts_this_type_or_ident))]
    fn emit_at<W: WriteJs, S: SourceMapper, C: Comments>(
        &self,
        e: &mut Emitter<'_, W, S, C>,
        context: Context,
    ) {
        match self {
            TsThisTypeOrIdent::TsThisType(node) => node.emit_at(e, Context::Plain),
            TsThisTypeOrIdent::Ident(node) => node.emit_at(e, Context::Plain),
        }
    }
}

impl<N: LinkTarget> EmitAt for TsTypePredicate<N> {
    ghost items = { λ n _. ts_type_predicate N.items n };

    #[tactic(auto, unfolding(crate::specs::Types::ts_type_predicate))]
    fn emit_at<W: WriteJs, S: SourceMapper, C: Comments>(
        &self,
        e: &mut Emitter<'_, W, S, C>,
        context: Context,
    ) {
        e.leading_comments(self.span.lo);
        e.word_before(self.asserts, "asserts");
        self.param_name.emit_at(e, Context::Plain);
        e.is_behind(&self.type_ann);
    }
}

impl<W: WriteJs, S: SourceMapper, C: Comments> Emitter<'_, W, S, C> {
    /// Writes parameters of a type, with commas between.
    pub(crate) fn fn_params_list<N: LinkTarget>(&mut self, span: Span, nodes: &[TsFnParamBox<N>])
        ensures items { Performs (fn_params_list N.answers N.items span nodes.now)
            S.lines C.maps W.sheet self.old self.new }
    {
        self.list(types_format(), span, nodes)
    }

    /// Writes `(a: A) => B`.
    #[tactic(auto, unfolding(crate::specs::Types::signature_type))]
    fn signature_type<N: LinkTarget>(
        &mut self,
        span: Span,
        params: &[TsFnParamBox<N>],
        result_type: &TsTypeAnnBox<N>,
    )
        ensures items { Performs (signature_type N.answers N.items span params.now result_type.now)
            S.lines C.maps W.sheet self.old self.new }
    {
        self.punct(Punctuator::LeftParenthesis);
        self.fn_params_list(span, params);
        self.punct(Punctuator::RightParenthesis);
        self.spaced_punct(Punctuator::Arrow);
        result_type.target().emit_at(self, Context::Plain);
    }

    /// Writes a blank and type parameters, where there are some.
    #[tactic(auto, unfolding(crate::specs::Types::spaced_params))]
    fn spaced_params<N: LinkTarget>(&mut self, node: &TsConstructorType<N>)
        ensures items { Performs (spaced_params N.items node.now)
            S.lines C.maps W.sheet self.old self.new }
    {
        if node.type_params.is_some() {
            self.space();
            self.type_params(&node.type_params);
        }
    }

    /// Writes ` is B` of `a is B`.
    #[tactic(auto, unfolding(crate::specs::Types::is_behind))]
    fn is_behind<N: LinkTarget>(&mut self, ty: &Option<TsTypeAnnBox<N>>)
        ensures items { Performs (is_behind N.items ty.now)
            S.lines C.maps W.sheet self.old self.new }
    {
        match ty {
            Some(node) => {
                self.space();
                self.keyword(None, "is");
                self.space();
                node.target().emit_at(self, Context::Plain)
            }
            None => {}
        }
    }
}
