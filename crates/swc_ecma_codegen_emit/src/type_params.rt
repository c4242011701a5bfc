//! Names of types, type arguments and type parameters.

ghost use Rattle.std.specs.Prelude.{◌≡◌, true};
ghost use Rattle.swc_ecma_codegen_tokens.specs.Starts.{begins_letter};
ghost use Rattle.swc_ecma_codegen_emit.specs.Standing.{Performs};
ghost use Rattle.swc_ecma_codegen_emit.specs.Annotations.{types_format};
ghost use Rattle.swc_ecma_codegen_emit.specs.Types.{type_behind, default_type, ts_qualified_name, ts_entity_name, ts_type_ref, listed_types, type_arguments, ts_type_param_instantiation, ts_type_param, listed_params, ts_type_param_decl};
ghost use Rattle.swc_ecma_codegen_emit.specs.Places.{in_context};

use crate::emitter::Emitter;
use crate::nodes::{Child, Context, EmitAt, LinkTarget};
use swc_ecma_codegen_common::Span;
use swc_ecma_codegen_grammar::ListFormat;
use swc_ecma_codegen_grammar::comments::Comments;
use swc_ecma_codegen_grammar::mapper::SourceMapper;
use swc_ecma_codegen_literals::Punctuator;
use swc_ecma_codegen_text_writer::WriteJs;
use swc_ecma_codegen_tree::{
    TsEntityName, TsQualifiedName, TsTypeBox, TsTypeParam, TsTypeParamDecl,
    TsTypeParamInstantiation, TsTypeRef,
};

/// The format of type arguments, type parameters, parameters of a type, and elements of a tuple.
pub(crate) fn types_format() -> ListFormat
    ensures { result.0 ≡ types_format }
{
    ListFormat::TypeArguments
}

impl<N: LinkTarget> EmitAt for TsQualifiedName<N> {
    ghost items = { λ n _. ts_qualified_name N.items n };

    #[tactic(auto, unfolding(crate::specs::Types::ts_qualified_name))]
    fn emit_at<W: WriteJs, S: SourceMapper, C: Comments>(
        &self,
        e: &mut Emitter<'_, W, S, C>,
        context: Context,
    ) {
        e.leading_comments(self.span.lo);
        self.left.target().emit_at(e, Context::Plain);
        e.punct(Punctuator::Dot);
        self.right.emit_at(e, Context::Plain);
    }
}

impl<N: LinkTarget> EmitAt for TsEntityName<N> {
    ghost items = { λ n _. ts_entity_name N.items n };

    #[tactic(auto, unfolding(crate::specs::Types::ts_entity_name))]
    fn emit_at<W: WriteJs, S: SourceMapper, C: Comments>(
        &self,
        e: &mut Emitter<'_, W, S, C>,
        context: Context,
    ) {
        match self {
            TsEntityName::TsQualifiedName(node) => node.emit_at(e, Context::Plain),
            TsEntityName::Ident(node) => node.emit_at(e, Context::Plain),
        }
    }
}

impl<N: LinkTarget> EmitAt for TsTypeRef<N> {
    ghost items = { λ n _. ts_type_ref N.items n };

    #[tactic(auto, unfolding(crate::specs::Types::ts_type_ref))]
    fn emit_at<W: WriteJs, S: SourceMapper, C: Comments>(
        &self,
        e: &mut Emitter<'_, W, S, C>,
        context: Context,
    ) {
        e.leading_comments(self.span.lo);
        self.type_name.target().emit_at(e, Context::Plain);
        e.type_args(Context::Reference, &self.type_params);
    }
}

impl<N: LinkTarget> EmitAt for TsTypeParamInstantiation<N> {
    ghost items = { λ n. in_context (ts_type_param_instantiation N.answers N.items n) };

    #[tactic(auto, unfolding(crate::specs::Types::ts_type_param_instantiation))]
    fn emit_at<W: WriteJs, S: SourceMapper, C: Comments>(
        &self,
        e: &mut Emitter<'_, W, S, C>,
        context: Context,
    ) {
        match context {
            Context::Reference => e.type_arguments(self),
            _ => {
                e.leading_comments(self.span.lo);
                e.type_arguments(self)
            }
        }
    }
}

impl<N: LinkTarget> EmitAt for TsTypeParam<N> {
    ghost items = { λ n _. ts_type_param N.items n };

    #[tactic(auto, unfolding(crate::specs::Types::ts_type_param))]
    fn emit_at<W: WriteJs, S: SourceMapper, C: Comments>(
        &self,
        e: &mut Emitter<'_, W, S, C>,
        context: Context,
    ) {
        e.leading_comments(self.span.lo);
        e.word_before(self.is_const, "const");
        e.word_before(self.is_in, "in");
        e.word_before(self.is_out, "out");
        self.name.emit_at(e, Context::Plain);
        e.type_behind("extends", &self.constraint);
        e.default_type(&self.default);
    }
}

impl<N: LinkTarget> Child for TsTypeParam<N> {
    ghost stands = { λ n. n.span };

    fn place(&self) -> Span {
        self.span
    }
}

impl<N: LinkTarget> EmitAt for TsTypeParamDecl<N> {
    ghost items = { λ n _. ts_type_param_decl N.items n };

    #[tactic(auto, unfolding(crate::specs::Types::ts_type_param_decl))]
    fn emit_at<W: WriteJs, S: SourceMapper, C: Comments>(
        &self,
        e: &mut Emitter<'_, W, S, C>,
        context: Context,
    ) {
        e.leading_comments(self.span.lo);
        e.punct(Punctuator::Less);
        e.listed_params(self);
        e.close();
    }
}

impl<W: WriteJs, S: SourceMapper, C: Comments> Emitter<'_, W, S, C> {
    /// Writes a type, where there is one, behind a word between two blanks.
    #[tactic(auto, unfolding(crate::specs::Types::type_behind))]
    pub(crate) fn type_behind<N: LinkTarget>(
        &mut self,
        text: &'static str,
        ty: &Option<TsTypeBox<N>>,
    )
        requires { begins_letter text.now ≡ true }
        ensures items { Performs (type_behind N.items text.now ty.now)
            S.lines C.maps W.sheet self.old self.new }
    {
        match ty {
            Some(node) => {
                self.space();
                self.keyword(None, text);
                self.space();
                node.target().emit_at(self, Context::Plain)
            }
            None => {}
        }
    }

    /// Writes ` = A`, where there is a type.
    #[tactic(auto, unfolding(crate::specs::Types::default_type))]
    pub(crate) fn default_type<N: LinkTarget>(&mut self, ty: &Option<TsTypeBox<N>>)
        ensures items { Performs (default_type N.items ty.now)
            S.lines C.maps W.sheet self.old self.new }
    {
        match ty {
            Some(node) => {
                self.spaced_punct(Punctuator::Equal);
                node.target().emit_at(self, Context::Plain)
            }
            None => {}
        }
    }

    /// Writes types, with commas between.
    fn listed_types<N: LinkTarget>(&mut self, node: &TsTypeParamInstantiation<N>)
        ensures items { Performs (listed_types N.answers N.items node.now)
            S.lines C.maps W.sheet self.old self.new }
    {
        self.list(types_format(), node.span, &node.params)
    }

    /// Writes `<A, B>`.
    #[tactic(auto, unfolding(crate::specs::Types::type_arguments))]
    fn type_arguments<N: LinkTarget>(&mut self, node: &TsTypeParamInstantiation<N>)
        ensures items { Performs (type_arguments N.answers N.items node.now)
            S.lines C.maps W.sheet self.old self.new }
    {
        self.punct(Punctuator::Less);
        self.listed_types(node);
        self.close();
    }

    /// Writes type parameters, with commas between.
    fn listed_params<N: LinkTarget>(&mut self, node: &TsTypeParamDecl<N>)
        ensures items { Performs (listed_params N.items node.now)
            S.lines C.maps W.sheet self.old self.new }
    {
        self.list(types_format(), node.span, &node.params)
    }
}
