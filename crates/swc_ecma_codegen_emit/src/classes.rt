//! Classes and their members.

ghost use Rattle.std.specs.Prelude.{◌≡◌, codes, true};
ghost use Rattle.swc_ecma_codegen_emit.specs.Standing.{Performs};
ghost use Rattle.swc_ecma_codegen_grammar.specs.ClassPhrases.{accessibility_of};
ghost use Rattle.swc_ecma_codegen_tokens.specs.Starts.{begins_letter};
ghost use Rattle.swc_ecma_codegen_emit.specs.ClassExprs.{class_expr};
ghost use Rattle.swc_ecma_codegen_emit.specs.Classes.{class_members_format, heritage, member_list, implemented_format, implemented_list, some_implements, implements_clause, class_body, class_word, class, class_tail, class_decl, accessibility_word, ts_param_prop_param, ts_param_prop, constructor_param, constructor_param_place, constructor_params, constructor_body, constructor_tail, constructor_word, class_constructor, static_word, accessor_word, method_modifiers, static_method, method_word, accessor_words, method_kind, method_rest, class_method, private_kind, private_words, private_rest, private_method, static_block, empty_member, index_member, class_member};

use crate::emitter::Emitter;
use crate::functions::comma_list_format;
use crate::nodes::{Child, Context, EmitAt, EmitPiece, LinkTarget, Piece};
use swc_ecma_codegen_common::Span;
use swc_ecma_codegen_grammar::ListFormat;
use swc_ecma_codegen_grammar::comments::Comments;
use swc_ecma_codegen_grammar::mapper::SourceMapper;
use swc_ecma_codegen_literals::Punctuator;
use swc_ecma_codegen_text_writer::WriteJs;
use swc_ecma_codegen_tree::{
    Accessibility, BlockStmtBox, Class, ClassDecl, ClassExpr, ClassMember, ClassMethod,
    Constructor, EmptyStmt, ExprBox, MethodKind, ParamOrTsParamProp, PrivateMethod, StaticBlock,
    TsExprWithTypeArgs, TsIndexSignature, TsParamProp, TsParamPropParam,
    TsTypeParamInstantiationBox,
};

/// The format of members.
fn class_members_format() -> ListFormat
    ensures { result.0 ≡ class_members_format }
{
    ListFormat::ClassMembers
}

/// The format of what a class implements.
fn implemented_format() -> ListFormat
    ensures { result.0 ≡ implemented_format }
{
    ListFormat::ClassHeritageClauses
}

/// The word of an accessibility.
#[tactic(auto, unfolding(swc_ecma_codegen_grammar::specs::ClassPhrases::accessibility_of))]
fn accessibility_of(accessibility: Accessibility) -> &'static str
    ensures word { result.now ≡ accessibility_of accessibility }
    ensures letter { begins_letter result.now ≡ true }
{
    match accessibility {
        Accessibility::Public => "public",
        Accessibility::Protected => "protected",
        Accessibility::Private => "private",
    }
}

impl<N: LinkTarget> EmitAt for ClassDecl<N> {
    ghost items = { λ n _. class_decl N.answers N.items n };

    #[tactic(auto, unfolding(crate::specs::Classes::class_decl))]
    fn emit_at<W: WriteJs, S: SourceMapper, C: Comments>(
        &self,
        e: &mut Emitter<'_, W, S, C>,
        context: Context,
    ) {
        let span = self.class.target().place();
        e.leading_comments(span.lo);
        e.start_of(span);
        e.declare_word(self.declare);
        self.class.target().emit_piece(e, Piece::ClassHead);
        self.class.target().emit_piece(e, Piece::ClassWord);
        e.space();
        self.ident.emit_at(e, Context::Plain);
        self.class.target().emit_at(e, Context::Plain);
    }
}

impl<N: LinkTarget> EmitAt for ClassExpr<N> {
    ghost items = { λ n _. class_expr N.answers N.items n };

    #[tactic(auto, unfolding(crate::specs::ClassExprs::class_expr))]
    fn emit_at<W: WriteJs, S: SourceMapper, C: Comments>(
        &self,
        e: &mut Emitter<'_, W, S, C>,
        context: Context,
    ) {
        let span = self.class.target().place();
        e.leading_comments(span.lo);
        e.start_of(span);
        self.class.target().emit_piece(e, Piece::ClassHead);
        self.class.target().emit_piece(e, Piece::ClassWord);
        e.optional_name(&self.ident);
        self.class.target().emit_at(e, Context::Plain);
    }
}

impl<N: LinkTarget> EmitAt for Class<N> {
    ghost items = { class N.answers N.items };

    #[tactic(auto, unfolding(crate::specs::Classes::class))]
    fn emit_at<W: WriteJs, S: SourceMapper, C: Comments>(
        &self,
        e: &mut Emitter<'_, W, S, C>,
        context: Context,
    ) {
        e.class_trailing(self);
    }
}

impl<N: LinkTarget> EmitPiece for Class<N> {
    #[tactic(auto, unfolding(crate::specs::Classes::class))]
    fn emit_piece<W: WriteJs, S: SourceMapper, C: Comments>(
        &self,
        e: &mut Emitter<'_, W, S, C>,
        piece: Piece,
    ) {
        match piece {
            Piece::ClassHead => e.decorator_lines(&self.decorators),
            Piece::ClassWord => e.class_word(self),
            _ => e.class_trailing(self),
        }
    }
}

impl<N: LinkTarget> EmitAt for ClassMember<N> {
    ghost items = { λ n _. class_member N.answers N.items n };

    #[tactic(auto, unfolding(crate::specs::Classes::class_member))]
    fn emit_at<W: WriteJs, S: SourceMapper, C: Comments>(
        &self,
        e: &mut Emitter<'_, W, S, C>,
        context: Context,
    ) {
        match self {
            ClassMember::Constructor(node) => node.emit_at(e, Context::Plain),
            ClassMember::Method(node) => node.emit_at(e, Context::Plain),
            ClassMember::PrivateMethod(node) => node.emit_at(e, Context::Plain),
            ClassMember::ClassProp(node) => node.emit_at(e, Context::Plain),
            ClassMember::PrivateProp(node) => node.emit_at(e, Context::Plain),
            ClassMember::Empty(node) => e.empty_member(node),
            ClassMember::StaticBlock(node) => node.emit_at(e, Context::Plain),
            ClassMember::AutoAccessor(node) => node.emit_at(e, Context::Plain),
            ClassMember::TsIndexSignature(node) => e.index_member(node),
        }
    }
}

impl<N: LinkTarget> EmitAt for PrivateMethod<N> {
    ghost items = { λ n _. private_method N.items n };

    #[tactic(auto, unfolding(crate::specs::Classes::private_method))]
    fn emit_at<W: WriteJs, S: SourceMapper, C: Comments>(
        &self,
        e: &mut Emitter<'_, W, S, C>,
        context: Context,
    ) {
        e.leading_comments(self.span.lo);
        e.start_of(self.span);
        self.function
            .target()
            .emit_piece(e, Piece::MethodDecorators);
        e.accessibility_word(self.accessibility);
        e.private_words(self);
        e.private_kind(self);
        e.private_rest(self);
    }
}

impl<N: LinkTarget> EmitAt for ClassMethod<N> {
    ghost items = { λ n _. class_method N.answers N.items n };

    #[tactic(auto, unfolding(crate::specs::Classes::class_method))]
    fn emit_at<W: WriteJs, S: SourceMapper, C: Comments>(
        &self,
        e: &mut Emitter<'_, W, S, C>,
        context: Context,
    ) {
        e.leading_comments(self.span.lo);
        e.leading_comments(self.key.target().place().lo);
        e.start_of(self.span);
        self.function
            .target()
            .emit_piece(e, Piece::MethodDecorators);
        e.accessibility_word(self.accessibility);
        e.method_kind(self);
        e.method_rest(self);
    }
}

impl<N: LinkTarget> EmitAt for Constructor<N> {
    ghost items = { λ n _. class_constructor N.answers N.items n };

    #[tactic(auto, unfolding(crate::specs::Classes::class_constructor))]
    fn emit_at<W: WriteJs, S: SourceMapper, C: Comments>(
        &self,
        e: &mut Emitter<'_, W, S, C>,
        context: Context,
    ) {
        e.leading_comments(self.span.lo);
        e.start_of(self.span);
        e.accessibility_word(self.accessibility);
        e.constructor_word();
        e.constructor_tail(self);
    }
}

impl<N: LinkTarget> EmitAt for ParamOrTsParamProp<N> {
    ghost items = { λ n _. constructor_param N.answers N.items n };

    #[tactic(auto, unfolding(crate::specs::Classes::constructor_param))]
    fn emit_at<W: WriteJs, S: SourceMapper, C: Comments>(
        &self,
        e: &mut Emitter<'_, W, S, C>,
        context: Context,
    ) {
        match self {
            ParamOrTsParamProp::Param(node) => node.emit_at(e, Context::Plain),
            ParamOrTsParamProp::TsParamProp(node) => node.emit_at(e, Context::Plain),
        }
    }
}

impl<N: LinkTarget> EmitAt for TsParamProp<N> {
    ghost items = { λ n _. ts_param_prop N.items n };

    #[tactic(auto, unfolding(crate::specs::Classes::ts_param_prop))]
    fn emit_at<W: WriteJs, S: SourceMapper, C: Comments>(
        &self,
        e: &mut Emitter<'_, W, S, C>,
        context: Context,
    ) {
        e.leading_comments(self.span.lo);
        e.accessibility_word(self.accessibility);
        e.decorator_lines(&self.decorators);
        e.word_before(self.is_override, "override");
        e.word_before(self.readonly, "readonly");
        self.param.emit_at(e, Context::Plain);
    }
}

impl<N: LinkTarget> EmitAt for TsParamPropParam<N> {
    ghost items = { λ n _. ts_param_prop_param N.items n };

    #[tactic(auto, unfolding(crate::specs::Classes::ts_param_prop_param))]
    fn emit_at<W: WriteJs, S: SourceMapper, C: Comments>(
        &self,
        e: &mut Emitter<'_, W, S, C>,
        context: Context,
    ) {
        match self {
            TsParamPropParam::Ident(node) => {
                e.leading_comments(node.id.span.lo);
                node.emit_at(e, Context::Plain)
            }
            TsParamPropParam::Assign(node) => {
                e.leading_comments(node.span.lo);
                node.emit_at(e, Context::Plain)
            }
        }
    }
}

impl<N: LinkTarget> Child for ParamOrTsParamProp<N> {
    ghost stands = { constructor_param_place };

    #[tactic(auto, unfolding(crate::specs::Classes::constructor_param_place))]
    fn place(&self) -> Span {
        match self {
            ParamOrTsParamProp::Param(node) => node.span,
            ParamOrTsParamProp::TsParamProp(node) => node.span,
        }
    }
}

impl<N: LinkTarget> EmitAt for StaticBlock<N> {
    ghost items = { λ n _. static_block N.items n };

    #[tactic(auto, unfolding(crate::specs::Classes::static_block))]
    fn emit_at<W: WriteJs, S: SourceMapper, C: Comments>(
        &self,
        e: &mut Emitter<'_, W, S, C>,
        context: Context,
    ) {
        e.leading_comments(self.span.lo);
        e.start_of(self.span);
        e.keyword(None, "static");
        self.body.target().emit_at(e, Context::Plain);
        e.end_of(self.span);
    }
}

impl<W: WriteJs, S: SourceMapper, C: Comments> Emitter<'_, W, S, C> {
    /// Writes `abstract class`, or the last word alone.
    #[tactic(auto, unfolding(crate::specs::Classes::class_word))]
    fn class_word<N: LinkTarget>(&mut self, node: &Class<N>)
        ensures items { Performs (class_word node.now) S.lines C.maps W.sheet self.old self.new }
    {
        self.word_before(node.is_abstract, "abstract");
        self.keyword(None, "class");
    }

    /// Writes `<A> extends B<C> implements D { e; }`. swc's `emit_class_trailing`.
    #[tactic(auto, unfolding(crate::specs::Classes::class_tail))]
    fn class_trailing<N: LinkTarget>(&mut self, node: &Class<N>)
        ensures items { Performs (class_tail N.answers N.items node.now)
            S.lines C.maps W.sheet self.old self.new }
    {
        self.type_params(&node.type_params);
        self.heritage(&node.super_class, &node.super_type_params);
        self.implements_clause(node.span, &node.implements);
        self.formatting_space();
        self.class_body(node);
    }

    /// Writes `{ a; }` of a class.
    #[tactic(auto, unfolding(crate::specs::Classes::class_body))]
    fn class_body<N: LinkTarget>(&mut self, node: &Class<N>)
        ensures items { Performs (class_body N.answers N.items node.now)
            S.lines C.maps W.sheet self.old self.new }
    {
        self.punct(Punctuator::LeftBrace);
        self.member_list(node);
        self.last_of(node.span);
        self.punct(Punctuator::RightBrace);
    }

    /// Writes what a class implements, with commas between.
    fn implemented_list<N: LinkTarget>(&mut self, span: Span, nodes: &[TsExprWithTypeArgs<N>])
        ensures items { Performs (implemented_list N.items span nodes.now)
            S.lines C.maps W.sheet self.old self.new }
    {
        self.list(implemented_format(), span, nodes)
    }

    /// Writes ` implements A<B>, C`.
    #[tactic(auto, unfolding(crate::specs::Classes::some_implements))]
    fn some_implements<N: LinkTarget>(&mut self, span: Span, nodes: &[TsExprWithTypeArgs<N>])
        ensures items { Performs (some_implements N.items span nodes.now)
            S.lines C.maps W.sheet self.old self.new }
    {
        self.space();
        self.keyword(None, "implements");
        self.space();
        self.implemented_list(span, nodes);
    }

    /// Writes the same, where something is implemented.
    #[tactic(auto, unfolding(crate::specs::Classes::implements_clause))]
    fn implements_clause<N: LinkTarget>(&mut self, span: Span, nodes: &[TsExprWithTypeArgs<N>])
        ensures items { Performs (implements_clause N.items span nodes.now)
            S.lines C.maps W.sheet self.old self.new }
    {
        if nodes.is_empty() {
            return;
        }
        self.some_implements(span, nodes)
    }

    /// Writes `extends A<B>`, where it is so.
    #[tactic(auto, unfolding(crate::specs::Classes::heritage))]
    fn heritage<N: LinkTarget>(
        &mut self,
        super_class: &Option<ExprBox<N>>,
        args: &Option<TsTypeParamInstantiationBox<N>>,
    )
        ensures items { Performs (heritage N.answers N.items super_class.now args.now)
            S.lines C.maps W.sheet self.old self.new }
    {
        match super_class {
            Some(super_class) => {
                self.space();
                self.keyword(None, "extends");
                self.blank(super_class.target().starts());
                super_class.target().emit_at(self, Context::Plain);
                self.type_args(Context::Plain, args)
            }
            None => {}
        }
    }

    /// Writes the members of a class.
    fn member_list<N: LinkTarget>(&mut self, node: &Class<N>)
        ensures items { Performs (member_list N.answers N.items node.now)
            S.lines C.maps W.sheet self.old self.new }
    {
        self.list(class_members_format(), node.span, &node.body)
    }

    /// Writes the parameters of a constructor, with commas between.
    fn constructor_params<N: LinkTarget>(&mut self, node: &Constructor<N>)
        ensures items { Performs (constructor_params N.answers N.items node.now)
            S.lines C.maps W.sheet self.old self.new }
    {
        self.list(comma_list_format(), node.span, &node.params)
    }

    /// Writes `constructor`.
    #[tactic(auto, unfolding(crate::specs::Classes::constructor_word))]
    fn constructor_word(&mut self)
        ensures items { Performs constructor_word S.lines C.maps W.sheet self.old self.new }
    {
        self.keyword(None, "constructor")
    }

    /// Writes `(a){ b; }` of a constructor.
    #[tactic(auto, unfolding(crate::specs::Classes::constructor_tail))]
    fn constructor_tail<N: LinkTarget>(&mut self, node: &Constructor<N>)
        ensures items { Performs (constructor_tail N.answers N.items node.now)
            S.lines C.maps W.sheet self.old self.new }
    {
        self.punct(Punctuator::LeftParenthesis);
        self.constructor_params(node);
        self.punct(Punctuator::RightParenthesis);
        self.constructor_body(&node.body);
    }

    /// Writes `private` and a blank, where it is so. swc's `emit_accessibility`.
    #[tactic(auto, unfolding(crate::specs::Classes::accessibility_word))]
    pub(crate) fn accessibility_word(&mut self, accessibility: Option<Accessibility>)
        ensures items { Performs (accessibility_word accessibility)
            S.lines C.maps W.sheet self.old self.new }
    {
        match accessibility {
            Some(accessibility) => {
                self.keyword(None, accessibility_of(accessibility));
                self.space();
            }
            None => {}
        }
    }

    /// Writes an index signature as a member.
    #[tactic(auto, unfolding(crate::specs::Classes::index_member))]
    fn index_member<N: LinkTarget>(&mut self, node: &TsIndexSignature<N>)
        ensures items { Performs (index_member N.answers N.items node.now)
            S.lines C.maps W.sheet self.old self.new }
    {
        node.emit_at(self, Context::Plain);
        self.semi();
    }

    /// Writes `;` as a member.
    #[tactic(auto, unfolding(crate::specs::Classes::empty_member))]
    fn empty_member(&mut self, node: &EmptyStmt)
        ensures items { Performs (empty_member node.now) S.lines C.maps W.sheet self.old self.new }
    {
        self.leading_comments(node.span.lo);
        self.punct(Punctuator::Semicolon);
    }

    /// Writes `static` and a blank, where it is so.
    #[tactic(auto, unfolding(crate::specs::Classes::static_word))]
    pub(crate) fn static_word(&mut self, wanted: bool)
        ensures items { Performs (static_word wanted) S.lines C.maps W.sheet self.old self.new }
    {
        if wanted {
            self.keyword(None, "static");
            self.space();
        }
    }

    /// Writes `get` and the blank after it.
    #[tactic(auto, unfolding(crate::specs::Classes::accessor_word))]
    fn getter_word(&mut self, starts: bool)
        ensures items { Performs (accessor_word (codes "get") starts)
            S.lines C.maps W.sheet self.old self.new }
    {
        self.keyword(None, "get");
        self.blank(starts);
    }

    /// Writes `set` and the blank after it.
    #[tactic(auto, unfolding(crate::specs::Classes::accessor_word))]
    fn setter_word(&mut self, starts: bool)
        ensures items { Performs (accessor_word (codes "set") starts)
            S.lines C.maps W.sheet self.old self.new }
    {
        self.keyword(None, "set");
        self.blank(starts);
    }

    /// Writes `abstract override `, where it is so.
    #[tactic(auto, unfolding(crate::specs::Classes::method_modifiers))]
    fn method_modifiers(&mut self, is_abstract: bool, is_override: bool)
        ensures items { Performs (method_modifiers is_abstract is_override)
            S.lines C.maps W.sheet self.old self.new }
    {
        self.word_before(is_abstract, "abstract");
        self.word_before(is_override, "override");
    }

    /// Writes `async *` of a static method, behind that word: where another stands between, that
    /// has a blank before it.
    #[tactic(auto, unfolding(crate::specs::Classes::static_method))]
    fn static_method<N: LinkTarget>(&mut self, node: &ClassMethod<N>)
        ensures items { Performs (static_method N.answers N.items node.now)
            S.lines C.maps W.sheet self.old self.new }
    {
        if node.is_abstract || node.is_override {
            self.space();
            self.method_modifiers(node.is_abstract, node.is_override);
            return node.function.target().emit_piece(self, Piece::MethodHead);
        }
        let starts = node.key.target().starts();
        node.function
            .target()
            .emit_piece(self, Piece::StaticHead(starts));
    }

    /// Writes `static abstract override async *` of a method.
    #[tactic(auto, unfolding(crate::specs::Classes::method_word))]
    fn method_word<N: LinkTarget>(&mut self, node: &ClassMethod<N>)
        ensures items { Performs (method_word N.answers N.items node.now)
            S.lines C.maps W.sheet self.old self.new }
    {
        if node.is_static {
            self.keyword(None, "static");
            return self.static_method(node);
        }
        self.method_modifiers(node.is_abstract, node.is_override);
        node.function.target().emit_piece(self, Piece::MethodHead);
    }

    /// Writes `static abstract override ` of a getter or a setter.
    #[tactic(auto, unfolding(crate::specs::Classes::accessor_words))]
    fn accessor_words<N: LinkTarget>(&mut self, node: &ClassMethod<N>)
        ensures items { Performs (accessor_words node.now)
            S.lines C.maps W.sheet self.old self.new }
    {
        self.static_word(node.is_static);
        self.method_modifiers(node.is_abstract, node.is_override);
    }

    /// Writes `b?(c) { d; }` of a method.
    #[tactic(auto, unfolding(crate::specs::Classes::method_rest))]
    fn method_rest<N: LinkTarget>(&mut self, node: &ClassMethod<N>)
        ensures items { Performs (method_rest N.items node.now)
            S.lines C.maps W.sheet self.old self.new }
    {
        node.key.target().emit_at(self, Context::Plain);
        self.question(node.is_optional);
        node.function.target().emit_piece(self, Piece::MethodTail);
    }

    /// Writes what stands between the accessibility of a method and its key.
    #[tactic(auto, unfolding(crate::specs::Classes::method_kind))]
    fn method_kind<N: LinkTarget>(&mut self, node: &ClassMethod<N>)
        ensures items { Performs (method_kind N.answers N.items node.now.kind node.now)
            S.lines C.maps W.sheet self.old self.new }
    {
        match node.kind {
            MethodKind::Method => self.method_word(node),
            MethodKind::Getter => {
                self.accessor_words(node);
                self.getter_word(node.key.target().starts())
            }
            MethodKind::Setter => {
                self.accessor_words(node);
                self.setter_word(node.key.target().starts())
            }
        }
    }

    /// Writes `static abstract override ` of a private method.
    #[tactic(auto, unfolding(crate::specs::Classes::private_words))]
    fn private_words<N: LinkTarget>(&mut self, node: &PrivateMethod<N>)
        ensures items { Performs (private_words node.now) S.lines C.maps W.sheet self.old self.new }
    {
        self.static_word(node.is_static);
        self.method_modifiers(node.is_abstract, node.is_override);
    }

    /// Writes `#b?(c) { d; }` of a private method.
    #[tactic(auto, unfolding(crate::specs::Classes::private_rest))]
    fn private_rest<N: LinkTarget>(&mut self, node: &PrivateMethod<N>)
        ensures items { Performs (private_rest N.items node.now)
            S.lines C.maps W.sheet self.old self.new }
    {
        node.key.emit_at(self, Context::Plain);
        self.question(node.is_optional);
        node.function
            .target()
            .emit_piece(self, Piece::DeclarationTail);
    }

    /// Writes what stands between the modifiers of a private method and its name.
    #[tactic(auto, unfolding(crate::specs::Classes::private_kind))]
    fn private_kind<N: LinkTarget>(&mut self, node: &PrivateMethod<N>)
        ensures items { Performs (private_kind N.items node.now.kind node.now)
            S.lines C.maps W.sheet self.old self.new }
    {
        match node.kind {
            MethodKind::Method => node.function.target().emit_piece(self, Piece::MethodHead),
            MethodKind::Getter => self.getter_word(true),
            MethodKind::Setter => self.setter_word(true),
        }
    }

    /// Writes the body of a constructor, without a blank before it, or a semicolon.
    #[tactic(auto, unfolding(crate::specs::Classes::constructor_body))]
    fn constructor_body<N: LinkTarget>(&mut self, body: &Option<BlockStmtBox<N>>)
        ensures items { Performs (constructor_body N.items body.now)
            S.lines C.maps W.sheet self.old self.new }
    {
        match body {
            Some(body) => body.target().emit_at(self, Context::Plain),
            None => self.semi(),
        }
    }
}
