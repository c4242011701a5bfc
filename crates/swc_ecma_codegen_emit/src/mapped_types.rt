//! Mapped types of TypeScript, `{ readonly [A in B as C]?: D; }`.

ghost use Rattle.swc_ecma_codegen_emit.specs.Standing.{Performs};
ghost use Rattle.swc_ecma_codegen_emit.specs.Types.{sign, signed_readonly, signed_question, mapped_param, mapped_type_ann, mapped_parts, ts_mapped_type};

use crate::emitter::Emitter;
use crate::nodes::{Context, EmitAt, LinkTarget};
use swc_ecma_codegen_grammar::comments::Comments;
use swc_ecma_codegen_grammar::mapper::SourceMapper;
use swc_ecma_codegen_literals::Punctuator;
use swc_ecma_codegen_text_writer::WriteJs;
use swc_ecma_codegen_tree::{TruePlusMinus, TsMappedType, TsTypeBox, TsTypeParam};

impl<N: LinkTarget> EmitAt for TsMappedType<N> {
    ghost items = { λ n _. ts_mapped_type N.items n };

    #[tactic(auto, unfolding(crate::specs::Types::ts_mapped_type))]
    fn emit_at<W: WriteJs, S: SourceMapper, C: Comments>(
        &self,
        e: &mut Emitter<'_, W, S, C>,
        context: Context,
    ) {
        e.leading_comments(self.span.lo);
        e.punct(Punctuator::LeftBrace);
        e.line();
        e.deeper();
        e.mapped_parts(self);
        e.line();
        e.shallower();
        e.punct(Punctuator::RightBrace);
    }
}

impl<W: WriteJs, S: SourceMapper, C: Comments> Emitter<'_, W, S, C> {
    /// Writes a sign, where there is one.
    #[tactic(auto, unfolding(crate::specs::Types::sign))]
    fn sign(&mut self, written: TruePlusMinus)
        ensures items { Performs (sign written) S.lines C.maps W.sheet self.old self.new }
    {
        match written {
            TruePlusMinus::True => {}
            TruePlusMinus::Plus => self.punct(Punctuator::Plus),
            TruePlusMinus::Minus => self.punct(Punctuator::Minus),
        }
    }

    /// Writes `+readonly `.
    #[tactic(auto, unfolding(crate::specs::Types::signed_readonly))]
    fn signed_readonly(&mut self, readonly: Option<TruePlusMinus>)
        ensures items { Performs (signed_readonly readonly)
            S.lines C.maps W.sheet self.old self.new }
    {
        if let Some(sign) = readonly {
            self.sign(sign);
            self.keyword(None, "readonly");
            self.space();
        }
    }

    /// Writes `+?`.
    #[tactic(auto, unfolding(crate::specs::Types::signed_question))]
    fn signed_question(&mut self, optional: Option<TruePlusMinus>)
        ensures items { Performs (signed_question optional)
            S.lines C.maps W.sheet self.old self.new }
    {
        if let Some(sign) = optional {
            self.sign(sign);
            self.punct(Punctuator::Question);
        }
    }

    /// Writes `A in B = C as D`.
    #[tactic(auto, unfolding(crate::specs::Types::mapped_param))]
    fn mapped_param<N: LinkTarget>(
        &mut self,
        node: &TsTypeParam<N>,
        name_type: &Option<TsTypeBox<N>>,
    )
        ensures items { Performs (mapped_param N.items node.now name_type.now)
            S.lines C.maps W.sheet self.old self.new }
    {
        node.name.emit_at(self, Context::Plain);
        self.type_behind("in", &node.constraint);
        self.default_type(&node.default);
        self.type_behind("as", name_type);
    }

    /// Writes `: A`, with a blank always.
    #[tactic(auto, unfolding(crate::specs::Types::mapped_type_ann))]
    fn mapped_type_ann<N: LinkTarget>(&mut self, ty: &Option<TsTypeBox<N>>)
        ensures items { Performs (mapped_type_ann N.items ty.now)
            S.lines C.maps W.sheet self.old self.new }
    {
        match ty {
            Some(node) => {
                self.punct(Punctuator::Colon);
                self.space();
                node.target().emit_at(self, Context::Plain)
            }
            None => {}
        }
    }

    /// Writes `readonly [A in B as C]?: D;`.
    #[tactic(auto, unfolding(crate::specs::Types::mapped_parts))]
    fn mapped_parts<N: LinkTarget>(&mut self, node: &TsMappedType<N>)
        ensures items { Performs (mapped_parts N.items node.now)
            S.lines C.maps W.sheet self.old self.new }
    {
        self.signed_readonly(node.readonly);
        self.punct(Punctuator::LeftBracket);
        self.mapped_param(&node.type_param, &node.name_type);
        self.punct(Punctuator::RightBracket);
        self.signed_question(node.optional);
        self.mapped_type_ann(&node.type_ann);
        self.semi();
    }
}
