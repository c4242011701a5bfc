//! JSX.

ghost use Rattle.std.specs.Prelude.{true};
ghost use Rattle.swc_ecma_codegen_literals.specs.Punctuators.{spelling};
ghost use Rattle.swc_ecma_codegen_tokens.specs.Attributes.{attribute_string, jsx_text_node, jsx_text_lit};
ghost use Rattle.swc_ecma_codegen_tokens.specs.Tags.{tag_name, child_open, close};
ghost use Rattle.swc_ecma_codegen_emit.specs.Jsx.{jsx_element_parts, jsx_fragment_parts, tag_ident, tag_ident_name, jsx_member_expr, jsx_namespaced_name, jsx_object, jsx_element_name, jsx_attr_name, open_at, jsx_expr, jsx_expr_container, jsx_spread_child, jsx_attr_lit, jsx_attr_value, attr_initializer, jsx_attr, jsx_attr_or_spread, jsx_attributes, self_closing, jsx_opening_element, jsx_closing_element, jsx_element_child, jsx_children, optional_closing, jsx_element, opening_fragment, closing_fragment, jsx_fragment, jsx_part};
ghost use Rattle.swc_ecma_codegen_emit.specs.Standing.{Performs};
ghost use Rattle.swc_ecma_codegen_emit.specs.Places.{in_context};

use crate::emitter::Emitter;
use crate::nodes::{Context, EmitAt, LinkTarget};
use crate::refusals::keep;
use swc_ecma_codegen_common::Span;
use swc_ecma_codegen_grammar::comments::Comments;
use swc_ecma_codegen_grammar::mapper::SourceMapper;
use swc_ecma_codegen_literals::Punctuator;
use swc_ecma_codegen_text_writer::WriteJs;
use swc_ecma_codegen_tree::{
    Ident, IdentName, JSXAttr, JSXAttrName, JSXAttrOrSpread, JSXAttrValue, JSXClosingElement,
    JSXClosingFragment, JSXElement, JSXElementChild, JSXElementName, JSXEmptyExpr, JSXExpr,
    JSXExprContainer, JSXFragment, JSXMemberExpr, JSXNamespacedName, JSXObject, JSXOpeningElement,
    JSXOpeningFragment, JSXPart, JSXSpreadChild, JSXText, Lit, Str,
};

impl<N: LinkTarget> EmitAt for JSXElement<N> {
    ghost items = { λ n. in_context (jsx_element N.answers N.items n) };

    fn emit_at<W: WriteJs, S: SourceMapper, C: Comments>(
        &self,
        e: &mut Emitter<'_, W, S, C>,
        context: Context,
    ) {
        let max_line = e.cfg.max_line;
        e.cfg.max_line = None;
        e.jsx_element_parts(self, context);
        e.cfg.max_line = max_line;
    }
}

impl<N: LinkTarget> EmitAt for JSXOpeningElement<N> {
    ghost items = { λ n. in_context (jsx_opening_element N.answers N.items n) };

    #[tactic(auto, unfolding(crate::specs::Jsx::jsx_opening_element))]
    fn emit_at<W: WriteJs, S: SourceMapper, C: Comments>(
        &self,
        e: &mut Emitter<'_, W, S, C>,
        context: Context,
    ) {
        e.open_at(context, Punctuator::Less);
        self.name.emit_at(e, Context::Plain);
        e.type_args(Context::Plain, &self.type_args);
        e.jsx_attributes(&self.attrs);
        e.self_closing(self.self_closing);
        e.close();
    }
}

impl<N: LinkTarget> EmitAt for JSXElementName<N> {
    ghost items = { λ n _. jsx_element_name N.items n };

    #[tactic(auto, unfolding(crate::specs::Jsx::jsx_element_name))]
    fn emit_at<W: WriteJs, S: SourceMapper, C: Comments>(
        &self,
        e: &mut Emitter<'_, W, S, C>,
        context: Context,
    ) {
        match self {
            JSXElementName::Ident(node) => e.tag_ident(node),
            JSXElementName::JSXMemberExpr(node) => node.emit_at(e, Context::Plain),
            JSXElementName::JSXNamespacedName(node) => node.emit_at(e, Context::Plain),
        }
    }
}

impl<N: LinkTarget> EmitAt for JSXAttr<N> {
    ghost items = { λ n _. jsx_attr N.items n };

    #[tactic(auto, unfolding(crate::specs::Jsx::jsx_attr, crate::specs::Jsx::attr_initializer))]
    fn emit_at<W: WriteJs, S: SourceMapper, C: Comments>(
        &self,
        e: &mut Emitter<'_, W, S, C>,
        context: Context,
    ) {
        self.name.emit_at(e, Context::Plain);
        if let Some(value) = &self.value {
            e.punct(Punctuator::Equal);
            value.emit_at(e, Context::Plain);
        }
    }
}

impl<N: LinkTarget> EmitAt for JSXAttrValue<N> {
    ghost items = { λ n _. jsx_attr_value N.items n };

    #[tactic(auto, unfolding(crate::specs::Jsx::jsx_attr_value))]
    fn emit_at<W: WriteJs, S: SourceMapper, C: Comments>(
        &self,
        e: &mut Emitter<'_, W, S, C>,
        context: Context,
    ) {
        match self {
            JSXAttrValue::Lit(node) => e.jsx_attr_lit(node),
            JSXAttrValue::JSXExprContainer(node) => node.emit_at(e, Context::Plain),
            JSXAttrValue::JSXElement(node) => node.target().emit_at(e, Context::Plain),
            JSXAttrValue::JSXFragment(node) => node.target().emit_at(e, Context::Plain),
        }
    }
}

impl EmitAt for JSXAttrName {
    ghost items = { λ n _. jsx_attr_name n };

    #[tactic(auto, unfolding(crate::specs::Jsx::jsx_attr_name))]
    fn emit_at<W: WriteJs, S: SourceMapper, C: Comments>(
        &self,
        e: &mut Emitter<'_, W, S, C>,
        context: Context,
    ) {
        match self {
            JSXAttrName::Ident(node) => e.tag_ident_name(node),
            JSXAttrName::JSXNamespacedName(node) => node.emit_at(e, Context::Plain),
        }
    }
}

impl<N: LinkTarget> EmitAt for JSXAttrOrSpread<N> {
    ghost items = { λ n _. jsx_attr_or_spread N.answers N.items n };

    #[tactic(auto, unfolding(crate::specs::Jsx::jsx_attr_or_spread))]
    fn emit_at<W: WriteJs, S: SourceMapper, C: Comments>(
        &self,
        e: &mut Emitter<'_, W, S, C>,
        context: Context,
    ) {
        match self {
            JSXAttrOrSpread::JSXAttr(node) => node.emit_at(e, Context::Plain),
            JSXAttrOrSpread::SpreadElement(node) => {
                e.bare_punct(Punctuator::LeftBrace);
                node.emit_at(e, Context::Plain);
                e.punct(Punctuator::RightBrace);
            }
        }
    }
}

impl<N: LinkTarget> EmitAt for JSXElementChild<N> {
    ghost items = { λ n _. jsx_element_child N.items n };

    #[tactic(auto, unfolding(crate::specs::Jsx::jsx_element_child))]
    fn emit_at<W: WriteJs, S: SourceMapper, C: Comments>(
        &self,
        e: &mut Emitter<'_, W, S, C>,
        context: Context,
    ) {
        match self {
            JSXElementChild::JSXElement(node) => node.target().emit_at(e, Context::Child),
            JSXElementChild::JSXExprContainer(node) => node.emit_at(e, Context::Child),
            JSXElementChild::JSXFragment(node) => node.target().emit_at(e, Context::Child),
            JSXElementChild::JSXSpreadChild(node) => node.emit_at(e, Context::Child),
            JSXElementChild::JSXText(node) => node.emit_at(e, Context::Child),
        }
    }
}

impl<N: LinkTarget> EmitAt for JSXSpreadChild<N> {
    ghost items = { λ n _. jsx_spread_child N.items n };

    #[tactic(auto, unfolding(crate::specs::Jsx::jsx_spread_child))]
    fn emit_at<W: WriteJs, S: SourceMapper, C: Comments>(
        &self,
        e: &mut Emitter<'_, W, S, C>,
        context: Context,
    ) {
        e.child_open(Punctuator::LeftBrace);
        e.punct(Punctuator::Ellipsis);
        self.expr.target().emit_at(e, Context::Plain);
        e.punct(Punctuator::RightBrace);
    }
}

impl<N: LinkTarget> EmitAt for JSXExprContainer<N> {
    ghost items = { λ n. in_context (jsx_expr_container N.items n) };

    #[tactic(auto, unfolding(crate::specs::Jsx::jsx_expr_container))]
    fn emit_at<W: WriteJs, S: SourceMapper, C: Comments>(
        &self,
        e: &mut Emitter<'_, W, S, C>,
        context: Context,
    ) {
        e.open_at(context, Punctuator::LeftBrace);
        self.expr.emit_at(e, Context::Plain);
        e.punct(Punctuator::RightBrace);
    }
}

impl<N: LinkTarget> EmitAt for JSXExpr<N> {
    ghost items = { λ n _. jsx_expr N.items n };

    #[tactic(auto, unfolding(crate::specs::Jsx::jsx_expr))]
    fn emit_at<W: WriteJs, S: SourceMapper, C: Comments>(
        &self,
        e: &mut Emitter<'_, W, S, C>,
        context: Context,
    ) {
        match self {
            JSXExpr::Expr(node) => node.target().emit_at(e, Context::Plain),
            JSXExpr::JSXEmptyExpr(node) => node.emit_at(e, Context::Plain),
        }
    }
}

impl<N: LinkTarget> EmitAt for JSXClosingElement<N> {
    ghost items = { λ n _. jsx_closing_element N.items n };

    #[tactic(auto, unfolding(crate::specs::Jsx::jsx_closing_element))]
    fn emit_at<W: WriteJs, S: SourceMapper, C: Comments>(
        &self,
        e: &mut Emitter<'_, W, S, C>,
        context: Context,
    ) {
        e.child_open(Punctuator::Less);
        e.punct(Punctuator::Slash);
        self.name.emit_at(e, Context::Plain);
        e.close();
    }
}

impl<N: LinkTarget> EmitAt for JSXFragment<N> {
    ghost items = { λ n. in_context (jsx_fragment N.items n) };

    fn emit_at<W: WriteJs, S: SourceMapper, C: Comments>(
        &self,
        e: &mut Emitter<'_, W, S, C>,
        context: Context,
    ) {
        let max_line = e.cfg.max_line;
        e.cfg.max_line = None;
        e.jsx_fragment_parts(self, context);
        e.cfg.max_line = max_line;
    }
}

impl EmitAt for JSXOpeningFragment {
    ghost items = { λ _. in_context opening_fragment };

    #[tactic(auto, unfolding(crate::specs::Jsx::opening_fragment))]
    fn emit_at<W: WriteJs, S: SourceMapper, C: Comments>(
        &self,
        e: &mut Emitter<'_, W, S, C>,
        context: Context,
    ) {
        e.open_at(context, Punctuator::Less);
        e.close();
    }
}

impl EmitAt for JSXClosingFragment {
    ghost items = { λ _ _. closing_fragment };

    #[tactic(auto, unfolding(crate::specs::Jsx::closing_fragment))]
    fn emit_at<W: WriteJs, S: SourceMapper, C: Comments>(
        &self,
        e: &mut Emitter<'_, W, S, C>,
        context: Context,
    ) {
        e.child_open(Punctuator::Less);
        e.punct(Punctuator::Slash);
        e.close();
    }
}

impl EmitAt for JSXNamespacedName {
    ghost items = { λ n _. jsx_namespaced_name n };

    #[tactic(auto, unfolding(crate::specs::Jsx::jsx_namespaced_name))]
    fn emit_at<W: WriteJs, S: SourceMapper, C: Comments>(
        &self,
        e: &mut Emitter<'_, W, S, C>,
        context: Context,
    ) {
        e.tag_ident_name(&self.ns);
        e.punct(Punctuator::Colon);
        e.tag_ident_name(&self.name);
    }
}

impl EmitAt for JSXEmptyExpr {
    ghost items = { λ _ _ rest. rest };

    fn emit_at<W: WriteJs, S: SourceMapper, C: Comments>(
        &self,
        e: &mut Emitter<'_, W, S, C>,
        context: Context,
    ) {}
}

impl EmitAt for JSXText {
    ghost items = { λ n _. jsx_text_node n };

    #[tactic(auto, using(crate::proofs::Standings::refused_makes))]
    fn emit_at<W: WriteJs, S: SourceMapper, C: Comments>(
        &self,
        e: &mut Emitter<'_, W, S, C>,
        context: Context,
    ) {
        if e.refusal.is_some() {
            return;
        }
        keep(
            &mut e.refusal,
            e.lower.jsx_text_node(&e.cfg, &mut e.wr, self),
        );
    }
}

impl<N: LinkTarget> EmitAt for JSXMemberExpr<N> {
    ghost items = { λ n _. jsx_member_expr N.items n };

    #[tactic(auto, unfolding(crate::specs::Jsx::jsx_member_expr))]
    fn emit_at<W: WriteJs, S: SourceMapper, C: Comments>(
        &self,
        e: &mut Emitter<'_, W, S, C>,
        context: Context,
    ) {
        self.obj.target().emit_at(e, Context::Plain);
        e.punct(Punctuator::Dot);
        e.tag_ident_name(&self.prop);
    }
}

impl<N: LinkTarget> EmitAt for JSXObject<N> {
    ghost items = { λ n _. jsx_object N.items n };

    #[tactic(auto, unfolding(crate::specs::Jsx::jsx_object))]
    fn emit_at<W: WriteJs, S: SourceMapper, C: Comments>(
        &self,
        e: &mut Emitter<'_, W, S, C>,
        context: Context,
    ) {
        match self {
            JSXObject::Ident(node) => e.tag_ident(node),
            JSXObject::JSXMemberExpr(node) => node.emit_at(e, Context::Plain),
        }
    }
}

impl<N: LinkTarget> EmitAt for JSXPart<N> {
    ghost items = { jsx_part N.answers N.items };

    #[inline(never)]
    #[tactic(auto, unfolding(crate::specs::Jsx::jsx_part))]
    fn emit_at<W: WriteJs, S: SourceMapper, C: Comments>(
        &self,
        e: &mut Emitter<'_, W, S, C>,
        context: Context,
    ) {
        match self {
            JSXPart::JSXElement(node) => (**node).emit_at(e, context),
            JSXPart::JSXFragment(node) => node.emit_at(e, context),
            JSXPart::JSXObject(node) => node.emit_at(e, context),
        }
    }
}

impl<W: WriteJs, S: SourceMapper, C: Comments> Emitter<'_, W, S, C> {
    /// Writes an element; its caller says that no line may be ended in it.
    #[inline(always)]
    #[tactic(auto, unfolding(crate::specs::Jsx::jsx_element_parts, crate::specs::Jsx::optional_closing))]
    fn jsx_element_parts<N: LinkTarget>(&mut self, node: &JSXElement<N>, context: Context)
        ensures items { Performs (jsx_element_parts N.answers N.items node.now context)
            S.lines C.maps W.sheet self.old self.new }
    {
        node.opening.emit_at(self, context);
        self.jsx_children(&node.children);
        if let Some(closing) = &node.closing {
            closing.emit_at(self, Context::Plain);
        }
    }

    /// Writes a fragment; its caller says that no line may be ended in it.
    #[inline(always)]
    #[tactic(auto, unfolding(crate::specs::Jsx::jsx_fragment_parts))]
    fn jsx_fragment_parts<N: LinkTarget>(&mut self, node: &JSXFragment<N>, context: Context)
        ensures items { Performs (jsx_fragment_parts N.items node.now context)
            S.lines C.maps W.sheet self.old self.new }
    {
        node.opening.emit_at(self, context);
        self.jsx_children(&node.children);
        node.closing.emit_at(self, Context::Plain);
    }

    /// Writes a name in a tag with its comments.
    #[inline(never)]
    #[tactic(auto, using(crate::proofs::Standings::refused_makes))]
    fn tag_name(&mut self, span: Span, sym: &str)
        ensures items { Performs (tag_name span sym.now) S.lines C.maps W.sheet self.old self.new }
    {
        if self.refusal.is_some() {
            return;
        }
        keep(
            &mut self.refusal,
            self.lower
                .tag_name(&self.cfg, &mut self.comments, &mut self.wr, span, sym),
        );
    }

    /// Writes a name in a tag.
    #[tactic(auto, unfolding(crate::specs::Jsx::tag_ident))]
    fn tag_ident(&mut self, node: &Ident)
        ensures items { Performs (tag_ident node.now) S.lines C.maps W.sheet self.old self.new }
    {
        self.tag_name(node.span, &node.sym)
    }

    /// Writes a name that is no reference: of an attribute, or behind a dot of a tag.
    #[tactic(auto, unfolding(crate::specs::Jsx::tag_ident_name))]
    fn tag_ident_name(&mut self, node: &IdentName)
        ensures items { Performs (tag_ident_name node.now)
            S.lines C.maps W.sheet self.old self.new }
    {
        self.tag_name(node.span, &node.sym)
    }

    /// Writes the `<` or `{` that begins a child, or a closing tag.
    #[tactic(auto, using(crate::proofs::Standings::refused_makes))]
    fn child_open(&mut self, mark: Punctuator)
        ensures items { Performs (child_open (spelling mark))
            S.lines C.maps W.sheet self.old self.new }
    {
        if self.refusal.is_some() {
            return;
        }
        keep(
            &mut self.refusal,
            self.lower.child_open(&self.cfg, &mut self.wr, mark),
        );
    }

    /// Writes the `<` or `{` of what may be a child.
    #[tactic(auto, unfolding(crate::specs::Jsx::open_at))]
    fn open_at(&mut self, context: Context, mark: Punctuator)
        ensures items { Performs (open_at context (spelling mark))
            S.lines C.maps W.sheet self.old self.new }
    {
        match context {
            Context::Child => self.child_open(mark),
            _ => self.bare_punct(mark),
        }
    }

    /// Writes the `>` of a tag, or of a list of types.
    #[tactic(auto, using(crate::proofs::Standings::refused_makes))]
    pub(crate) fn close(&mut self)
        ensures items { Performs close S.lines C.maps W.sheet self.old self.new }
    {
        if self.refusal.is_some() {
            return;
        }
        keep(&mut self.refusal, self.lower.close(&self.cfg, &mut self.wr));
    }

    /// Writes the `/` of a tag that closes itself.
    #[tactic(auto, unfolding(crate::specs::Jsx::self_closing))]
    fn self_closing(&mut self, closes: bool)
        ensures items { Performs (self_closing closes) S.lines C.maps W.sheet self.old self.new }
    {
        if closes {
            self.punct(Punctuator::Slash)
        }
    }

    /// Writes a string that is the value of an attribute.
    #[tactic(auto, using(crate::proofs::Standings::refused_makes))]
    fn attribute_string(&mut self, node: &Str)
        ensures items { Performs (attribute_string node.now)
            S.lines C.maps W.sheet self.old self.new }
    {
        if self.refusal.is_some() {
            return;
        }
        keep(
            &mut self.refusal,
            self.lower
                .attribute_string(&self.cfg, &mut self.comments, &mut self.wr, node),
        );
    }

    /// Writes a literal that is the value of an attribute.
    #[tactic(auto, unfolding(crate::specs::Jsx::jsx_attr_lit))]
    fn jsx_attr_lit(&mut self, node: &Lit)
        ensures items { Performs (jsx_attr_lit node.now) S.lines C.maps W.sheet self.old self.new }
    {
        match node {
            Lit::Str(text) => self.attribute_string(text),
            _ => node.emit_at(self, Context::Plain),
        }
    }

    /// Writes text as a literal.
    #[inline(never)]
    #[tactic(auto, using(crate::proofs::Standings::refused_makes))]
    pub(crate) fn jsx_text_lit(&mut self, node: &JSXText)
        ensures items { Performs (jsx_text_lit node.now) S.lines C.maps W.sheet self.old self.new }
    {
        if self.refusal.is_some() {
            return;
        }
        keep(
            &mut self.refusal,
            self.lower
                .jsx_text_lit(&self.cfg, &mut self.comments, &mut self.wr, node),
        );
    }

    /// Writes the attributes of a tag, with a blank before the first.
    #[tactic(auto, using(crate::proofs::Steps::attributes_next), unfolding(crate::specs::Jsx::jsx_attributes))]
    fn jsx_attributes<N: LinkTarget>(&mut self, nodes: &[JSXAttrOrSpread<N>])
        ensures items { Performs (jsx_attributes (jsx_attr_or_spread N.answers N.items) true
            nodes.now) S.lines C.maps W.sheet self.old self.new }
    {
        let mut first = true;
        for node in nodes {
            self.blank(first);
            node.emit_at(self, Context::Plain);
            first = false;
        }
    }

    /// Writes what stands between two tags.
    #[tactic(auto, unfolding(crate::specs::Jsx::jsx_children))]
    fn jsx_children<N: LinkTarget>(&mut self, nodes: &[JSXElementChild<N>])
        ensures items { Performs (jsx_children N.items nodes.now)
            S.lines C.maps W.sheet self.old self.new }
    {
        self.in_order(nodes)
    }
}
