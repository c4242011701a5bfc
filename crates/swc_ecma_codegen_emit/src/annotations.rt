//! What types add to other nodes.

ghost use Rattle.swc_ecma_codegen_emit.specs.Annotations.{annotation, spaced_annotation, bang, field_annotation, type_args, type_params};
ghost use Rattle.swc_ecma_codegen_tokens.specs.Words.{question};
ghost use Rattle.swc_ecma_codegen_emit.specs.Standing.{Performs};

use crate::emitter::Emitter;
use crate::nodes::{Context, EmitAt, LinkTarget};
use swc_ecma_codegen_grammar::comments::Comments;
use swc_ecma_codegen_grammar::mapper::SourceMapper;
use swc_ecma_codegen_literals::Punctuator;
use swc_ecma_codegen_text_writer::WriteJs;
use swc_ecma_codegen_tree::{TsTypeAnnBox, TsTypeParamDeclBox, TsTypeParamInstantiationBox};

impl<W: WriteJs, S: SourceMapper, C: Comments> Emitter<'_, W, S, C> {
    /// Writes `: A` of `a: A`, where there is a type.
    #[tactic(auto, unfolding(crate::specs::Annotations::annotation))]
    pub(crate) fn annotation<N: LinkTarget>(&mut self, ty: &Option<TsTypeAnnBox<N>>)
        ensures items { Performs (annotation N.items ty.now)
            S.lines C.maps W.sheet self.old self.new }
    {
        match ty {
            Some(node) => {
                self.punct(Punctuator::Colon);
                self.formatting_space();
                node.target().emit_at(self, Context::Plain)
            }
            None => {}
        }
    }

    /// Writes `?`, where it is so.
    #[tactic(auto, unfolding(swc_ecma_codegen_tokens::specs::Words::question))]
    pub(crate) fn question(&mut self, optional: bool)
        ensures items { Performs (question optional) S.lines C.maps W.sheet self.old self.new }
    {
        if optional {
            self.punct(Punctuator::Question);
        }
    }

    /// Writes `: A` of `[a]: A`, where there is a type, with a blank always.
    #[tactic(auto, unfolding(crate::specs::Annotations::spaced_annotation))]
    pub(crate) fn spaced_annotation<N: LinkTarget>(&mut self, ty: &Option<TsTypeAnnBox<N>>)
        ensures items { Performs (spaced_annotation N.items ty.now)
            S.lines C.maps W.sheet self.old self.new }
    {
        match ty {
            Some(node) => {
                self.punct(Punctuator::Colon);
                self.space();
                node.target().emit_at(self, Context::Plain)
            }
            None => {}
        }
    }

    /// Writes `!`, where it is so.
    #[tactic(auto, unfolding(crate::specs::Annotations::bang))]
    fn bang(&mut self, definite: bool)
        ensures items { Performs (bang definite) S.lines C.maps W.sheet self.old self.new }
    {
        if definite {
            self.punct(Punctuator::Bang);
        }
    }

    /// Writes `!: A` of a field, where there is a type, with a blank always.
    #[tactic(auto, unfolding(crate::specs::Annotations::field_annotation))]
    pub(crate) fn field_annotation<N: LinkTarget>(
        &mut self,
        definite: bool,
        ty: &Option<TsTypeAnnBox<N>>,
    )
        ensures items { Performs (field_annotation N.items definite ty.now)
            S.lines C.maps W.sheet self.old self.new }
    {
        match ty {
            Some(node) => {
                self.bang(definite);
                self.punct(Punctuator::Colon);
                self.space();
                node.target().emit_at(self, Context::Plain)
            }
            None => {}
        }
    }

    /// Writes type arguments, where there are some.
    #[tactic(auto, unfolding(crate::specs::Annotations::type_args))]
    pub(crate) fn type_args<N: LinkTarget>(
        &mut self,
        context: Context,
        args: &Option<TsTypeParamInstantiationBox<N>>,
    )
        ensures items { Performs (type_args N.items context args.now)
            S.lines C.maps W.sheet self.old self.new }
    {
        match args {
            Some(node) => node.target().emit_at(self, context),
            None => {}
        }
    }

    /// Writes type parameters, where there are some.
    #[tactic(auto, unfolding(crate::specs::Annotations::type_params))]
    pub(crate) fn type_params<N: LinkTarget>(&mut self, params: &Option<TsTypeParamDeclBox<N>>)
        ensures items { Performs (type_params N.items params.now)
            S.lines C.maps W.sheet self.old self.new }
    {
        match params {
            Some(node) => node.target().emit_at(self, Context::Plain),
            None => {}
        }
    }
}
