//! Members of object types and of interfaces.

ghost use Rattle.std.specs.Prelude.{◌≡◌};
ghost use Rattle.swc_ecma_codegen_spans.specs.Spans.{ts_type_element_span};
ghost use Rattle.swc_ecma_codegen_emit.specs.Standing.{Performs};
ghost use Rattle.swc_ecma_codegen_emit.specs.TsMembers.{signature_key, signature_params, annotation_between, ts_call_signature_decl, params_behind_new, ts_construct_signature_decl, ts_property_signature, getter_annotation, ts_getter_signature, ts_setter_signature, ts_method_signature, readonly_index, index_params, ts_index_signature, ts_signature, ts_type_element, interface_format, interface_members, ts_interface_body};

use crate::emitter::Emitter;
use crate::nodes::{Child, Context, EmitAt, LinkTarget};
use swc_ecma_codegen_common::Span;
use swc_ecma_codegen_grammar::ListFormat;
use swc_ecma_codegen_grammar::comments::Comments;
use swc_ecma_codegen_grammar::mapper::SourceMapper;
use swc_ecma_codegen_literals::Punctuator;
use swc_ecma_codegen_text_writer::WriteJs;
use swc_ecma_codegen_tree::{
    ExprBox, TsCallSignatureDecl, TsConstructSignatureDecl, TsFnParamBox, TsGetterSignature,
    TsIndexSignature, TsInterfaceBody, TsMethodSignature, TsPropertySignature, TsSetterSignature,
    TsTypeAnnBox, TsTypeElement, TsTypeParamDeclBox,
};

/// The format of the members of an interface.
fn interface_format() -> ListFormat
    ensures { result.0 ≡ interface_format }
{
    ListFormat::InterfaceMembers
}

impl<N: LinkTarget> EmitAt for TsCallSignatureDecl<N> {
    ghost items = { λ n _. ts_call_signature_decl N.answers N.items n };

    #[tactic(auto, unfolding(crate::specs::TsMembers::ts_call_signature_decl))]
    fn emit_at<W: WriteJs, S: SourceMapper, C: Comments>(
        &self,
        e: &mut Emitter<'_, W, S, C>,
        context: Context,
    ) {
        e.leading_comments(self.span.lo);
        e.type_params(&self.type_params);
        e.signature_params(self.span, &self.params);
        e.annotation_between(&self.type_ann);
    }
}

impl<N: LinkTarget> EmitAt for TsConstructSignatureDecl<N> {
    ghost items = { λ n _. ts_construct_signature_decl N.answers N.items n };

    #[tactic(auto, unfolding(crate::specs::TsMembers::ts_construct_signature_decl))]
    fn emit_at<W: WriteJs, S: SourceMapper, C: Comments>(
        &self,
        e: &mut Emitter<'_, W, S, C>,
        context: Context,
    ) {
        e.leading_comments(self.span.lo);
        e.keyword(None, "new");
        e.params_behind_new(&self.type_params);
        e.signature_params(self.span, &self.params);
        e.spaced_annotation(&self.type_ann);
    }
}

impl<N: LinkTarget> EmitAt for TsPropertySignature<N> {
    ghost items = { λ n _. ts_property_signature N.items n };

    #[tactic(auto, unfolding(crate::specs::TsMembers::ts_property_signature))]
    fn emit_at<W: WriteJs, S: SourceMapper, C: Comments>(
        &self,
        e: &mut Emitter<'_, W, S, C>,
        context: Context,
    ) {
        e.leading_comments(self.span.lo);
        e.word_before(self.readonly, "readonly");
        e.signature_key(self.computed, &self.key);
        e.question(self.optional);
        e.annotation(&self.type_ann);
    }
}

impl<N: LinkTarget> EmitAt for TsGetterSignature<N> {
    ghost items = { λ n _. ts_getter_signature N.items n };

    #[tactic(auto, unfolding(crate::specs::TsMembers::ts_getter_signature))]
    fn emit_at<W: WriteJs, S: SourceMapper, C: Comments>(
        &self,
        e: &mut Emitter<'_, W, S, C>,
        context: Context,
    ) {
        e.keyword(None, "get");
        e.space();
        e.signature_key(self.computed, &self.key);
        e.punct(Punctuator::LeftParenthesis);
        e.punct(Punctuator::RightParenthesis);
        e.getter_annotation(&self.type_ann);
    }
}

impl<N: LinkTarget> EmitAt for TsSetterSignature<N> {
    ghost items = { λ n _. ts_setter_signature N.items n };

    #[tactic(auto, unfolding(crate::specs::TsMembers::ts_setter_signature))]
    fn emit_at<W: WriteJs, S: SourceMapper, C: Comments>(
        &self,
        e: &mut Emitter<'_, W, S, C>,
        context: Context,
    ) {
        e.keyword(None, "set");
        e.space();
        e.signature_key(self.computed, &self.key);
        e.punct(Punctuator::LeftParenthesis);
        self.param.target().emit_at(e, Context::Plain);
        e.punct(Punctuator::RightParenthesis);
    }
}

impl<N: LinkTarget> EmitAt for TsMethodSignature<N> {
    ghost items = { λ n _. ts_method_signature N.answers N.items n };

    #[tactic(auto, unfolding(crate::specs::TsMembers::ts_method_signature))]
    fn emit_at<W: WriteJs, S: SourceMapper, C: Comments>(
        &self,
        e: &mut Emitter<'_, W, S, C>,
        context: Context,
    ) {
        e.leading_comments(self.span.lo);
        e.signature_key(self.computed, &self.key);
        e.question(self.optional);
        e.type_params(&self.type_params);
        e.signature_params(self.span, &self.params);
        e.annotation(&self.type_ann);
    }
}

impl<N: LinkTarget> EmitAt for TsIndexSignature<N> {
    ghost items = { λ n _. ts_index_signature N.answers N.items n };

    #[tactic(auto, unfolding(crate::specs::TsMembers::ts_index_signature))]
    fn emit_at<W: WriteJs, S: SourceMapper, C: Comments>(
        &self,
        e: &mut Emitter<'_, W, S, C>,
        context: Context,
    ) {
        e.leading_comments(self.span.lo);
        e.word_before(self.is_static, "static");
        e.readonly_index(self.readonly);
        e.index_params(self.span, &self.params);
        e.annotation(&self.type_ann);
    }
}

impl<N: LinkTarget> EmitAt for TsTypeElement<N> {
    ghost items = { λ n _. ts_type_element N.answers N.items n };

    #[tactic(auto, unfolding(crate::specs::TsMembers::ts_type_element))]
    fn emit_at<W: WriteJs, S: SourceMapper, C: Comments>(
        &self,
        e: &mut Emitter<'_, W, S, C>,
        context: Context,
    ) {
        e.ts_signature(self);
        e.semi();
    }
}

impl<N: LinkTarget> Child for TsTypeElement<N> {
    ghost stands = { ts_type_element_span };

    #[tactic(auto, unfolding(swc_ecma_codegen_spans::specs::Spans::ts_type_element_span))]
    fn place(&self) -> Span {
        match self {
            TsTypeElement::TsCallSignatureDecl(node) => node.span,
            TsTypeElement::TsConstructSignatureDecl(node) => node.span,
            TsTypeElement::TsPropertySignature(node) => node.span,
            TsTypeElement::TsGetterSignature(node) => node.span,
            TsTypeElement::TsSetterSignature(node) => node.span,
            TsTypeElement::TsMethodSignature(node) => node.span,
            TsTypeElement::TsIndexSignature(node) => node.span,
        }
    }
}

impl<N: LinkTarget> EmitAt for TsInterfaceBody<N> {
    ghost items = { λ n _. ts_interface_body N.answers N.items n };

    #[tactic(auto, unfolding(crate::specs::TsMembers::ts_interface_body))]
    fn emit_at<W: WriteJs, S: SourceMapper, C: Comments>(
        &self,
        e: &mut Emitter<'_, W, S, C>,
        context: Context,
    ) {
        e.leading_comments(self.span.lo);
        e.punct(Punctuator::LeftBrace);
        e.interface_members(self);
        e.punct(Punctuator::RightBrace);
    }
}

impl<W: WriteJs, S: SourceMapper, C: Comments> Emitter<'_, W, S, C> {
    /// Writes `a` or `[a]`.
    #[tactic(auto, unfolding(crate::specs::TsMembers::signature_key))]
    fn signature_key<N: LinkTarget>(&mut self, computed: bool, key: &ExprBox<N>)
        ensures items { Performs (signature_key N.items computed key.now)
            S.lines C.maps W.sheet self.old self.new }
    {
        if !computed {
            return key.target().emit_at(self, Context::Plain);
        }
        self.punct(Punctuator::LeftBracket);
        key.target().emit_at(self, Context::Plain);
        self.punct(Punctuator::RightBracket);
    }

    /// Writes `(a: A, b: B)`.
    #[tactic(auto, unfolding(crate::specs::TsMembers::signature_params))]
    fn signature_params<N: LinkTarget>(&mut self, span: Span, params: &[TsFnParamBox<N>])
        ensures items { Performs (signature_params N.answers N.items span params.now)
            S.lines C.maps W.sheet self.old self.new }
    {
        self.punct(Punctuator::LeftParenthesis);
        self.fn_params_list(span, params);
        self.punct(Punctuator::RightParenthesis);
    }

    /// Writes ` : A`, where there is a type, with two blanks always.
    #[tactic(auto, unfolding(crate::specs::TsMembers::annotation_between))]
    fn annotation_between<N: LinkTarget>(&mut self, ty: &Option<TsTypeAnnBox<N>>)
        ensures items { Performs (annotation_between N.items ty.now)
            S.lines C.maps W.sheet self.old self.new }
    {
        match ty {
            Some(node) => {
                self.punct_between(Punctuator::Colon);
                node.target().emit_at(self, Context::Plain)
            }
            None => {}
        }
    }

    /// Writes a blank and type parameters, where there are some.
    #[tactic(auto, unfolding(crate::specs::TsMembers::params_behind_new))]
    fn params_behind_new<N: LinkTarget>(&mut self, params: &Option<TsTypeParamDeclBox<N>>)
        ensures items { Performs (params_behind_new N.items params.now)
            S.lines C.maps W.sheet self.old self.new }
    {
        match params {
            Some(node) => {
                self.space();
                node.target().emit_at(self, Context::Plain)
            }
            None => {}
        }
    }

    /// Writes `: A`, where there is a type, without the comments before it.
    #[tactic(auto, unfolding(crate::specs::TsMembers::getter_annotation))]
    fn getter_annotation<N: LinkTarget>(&mut self, ty: &Option<TsTypeAnnBox<N>>)
        ensures items { Performs (getter_annotation N.items ty.now)
            S.lines C.maps W.sheet self.old self.new }
    {
        match ty {
            Some(node) => {
                self.punct(Punctuator::Colon);
                self.formatting_space();
                node.target().emit_at(self, Context::Reference)
            }
            None => {}
        }
    }

    /// Writes `[a: A]`.
    fn index_params<N: LinkTarget>(&mut self, span: Span, params: &[TsFnParamBox<N>])
        ensures items { Performs (index_params N.answers N.items span params.now)
            S.lines C.maps W.sheet self.old self.new }
    {
        self.punct(Punctuator::LeftBracket);
        self.fn_params_list(span, params);
        self.punct(Punctuator::RightBracket);
    }

    /// Writes `readonly` and a blank, unless minified, where it is so.
    #[tactic(auto, unfolding(crate::specs::TsMembers::readonly_index))]
    fn readonly_index(&mut self, wanted: bool)
        ensures items { Performs (readonly_index wanted) S.lines C.maps W.sheet self.old self.new }
    {
        if wanted {
            self.keyword(None, "readonly");
            self.formatting_space();
        }
    }

    /// Writes a member by its variant.
    #[tactic(auto, unfolding(crate::specs::TsMembers::ts_signature))]
    fn ts_signature<N: LinkTarget>(&mut self, node: &TsTypeElement<N>)
        ensures items { Performs (ts_signature N.answers N.items node.now)
            S.lines C.maps W.sheet self.old self.new }
    {
        match node {
            TsTypeElement::TsCallSignatureDecl(node) => node.emit_at(self, Context::Plain),
            TsTypeElement::TsConstructSignatureDecl(node) => node.emit_at(self, Context::Plain),
            TsTypeElement::TsPropertySignature(node) => node.emit_at(self, Context::Plain),
            TsTypeElement::TsGetterSignature(node) => node.emit_at(self, Context::Plain),
            TsTypeElement::TsSetterSignature(node) => node.emit_at(self, Context::Plain),
            TsTypeElement::TsMethodSignature(node) => node.emit_at(self, Context::Plain),
            TsTypeElement::TsIndexSignature(node) => node.emit_at(self, Context::Plain),
        }
    }

    /// Writes the members of an interface.
    fn interface_members<N: LinkTarget>(&mut self, node: &TsInterfaceBody<N>)
        ensures items { Performs (interface_members N.answers N.items node.now)
            S.lines C.maps W.sheet self.old self.new }
    {
        self.list(interface_format(), node.span, &node.body)
    }
}
