//! Objects and their properties.

ghost use Rattle.std.specs.Prelude.{◌≡◌, true};
ghost use Rattle.swc_ecma_codegen_grammar.specs.FunctionPhrases.{is_some_listed};
ghost use Rattle.swc_ecma_codegen_spans.specs.Spans.{prop_or_spread_span};
ghost use Rattle.swc_ecma_codegen_tokens.specs.Lists.{list};
ghost use Rattle.swc_ecma_codegen_emit.specs.Standing.{Performs};
ghost use Rattle.swc_ecma_codegen_tokens.specs.Starts.{begins_letter};
ghost use Rattle.swc_ecma_codegen_emit.specs.Answers.{place_of};
ghost use Rattle.swc_ecma_codegen_emit.specs.Names.{prop_name};
ghost use Rattle.swc_ecma_codegen_emit.specs.Props.{key_end, value_start, key_value_prop, assign_prop, accessor, optional_body, tight_annotation, getter_prop, this_param, setter_prop, method_prop, prop, prop_or_spread, object_format, flat_object_format, object_children, lined_object_list, object_lines, object_list, object_by_maps, object_lit};

use crate::blocks::is_some_listed;
use crate::commented::wants_lines;
use crate::emitter::Emitter;
use crate::nodes::{Child, Context, EmitAt, LinkTarget, Piece};
use crate::places::{prop_place, spread_element_place};
use bitflags::Flags;
use swc_ecma_codegen_common::Span;
use swc_ecma_codegen_grammar::ListFormat;
use swc_ecma_codegen_grammar::comments::Comments;
use swc_ecma_codegen_grammar::mapper::SourceMapper;
use swc_ecma_codegen_literals::Punctuator;
use swc_ecma_codegen_spans::Spanned;
use swc_ecma_codegen_text_writer::WriteJs;
use swc_ecma_codegen_tree::{
    AssignProp, BlockStmtBox, GetterProp, KeyValueProp, MethodProp, ObjectLit, PatBox, Prop,
    PropName, PropNameBox, PropOrSpread, SetterProp, TsTypeAnnBox,
};

/// The format of an object over several lines.
fn object_format() -> ListFormat
    ensures { result.0 ≡ object_format }
{
    ListFormat::ObjectLiteralExpressionProperties.union(ListFormat::CanSkipTrailingComma)
}

/// The format of an object on one line.
fn flat_object_format() -> ListFormat
    ensures { result.0 ≡ flat_object_format }
{
    object_format()
        .difference(ListFormat::MultiLine)
        .difference(ListFormat::Indented)
}

impl<N: LinkTarget> EmitAt for PropName<N> {
    ghost items = { λ n _. prop_name N.items n };

    #[tactic(auto, unfolding(crate::specs::Names::prop_name))]
    fn emit_at<W: WriteJs, S: SourceMapper, C: Comments>(
        &self,
        e: &mut Emitter<'_, W, S, C>,
        context: Context,
    ) {
        match self {
            PropName::Ident(name) => e.key(name.span, &name.sym),
            PropName::Str(node) => (**node).emit_at(e, Context::Plain),
            PropName::Num(node) => (**node).emit_at(e, Context::Plain),
            PropName::BigInt(node) => (**node).emit_at(e, Context::Plain),
            PropName::Computed(node) => node.emit_at(e, Context::Plain),
        }
    }
}

impl<N: LinkTarget> EmitAt for ObjectLit<N> {
    ghost items = { λ n _. object_lit N.answers N.items n };

    #[tactic(auto, unfolding(crate::specs::Props::object_lit))]
    fn emit_at<W: WriteJs, S: SourceMapper, C: Comments>(
        &self,
        e: &mut Emitter<'_, W, S, C>,
        context: Context,
    ) {
        e.opened(self.span);
        e.punct(Punctuator::LeftBrace);
        e.object_by_maps(self);
        e.last_of(self.span);
        e.punct(Punctuator::RightBrace);
    }
}

impl<N: LinkTarget> EmitAt for Prop<N> {
    ghost items = { λ n _. prop N.answers N.items n };

    #[tactic(auto, unfolding(crate::specs::Props::prop))]
    fn emit_at<W: WriteJs, S: SourceMapper, C: Comments>(
        &self,
        e: &mut Emitter<'_, W, S, C>,
        context: Context,
    ) {
        match self {
            Prop::Shorthand(node) => node.emit_at(e, Context::Plain),
            Prop::KeyValue(node) => node.emit_at(e, Context::Plain),
            Prop::Assign(node) => node.emit_at(e, Context::Plain),
            Prop::Getter(node) => node.emit_at(e, Context::Plain),
            Prop::Setter(node) => node.emit_at(e, Context::Plain),
            Prop::Method(node) => node.emit_at(e, Context::Plain),
        }
    }
}

impl<N: LinkTarget> EmitAt for KeyValueProp<N> {
    ghost items = { λ n _. key_value_prop N.answers N.items n };

    #[tactic(auto, unfolding(crate::specs::Props::key_value_prop))]
    fn emit_at<W: WriteJs, S: SourceMapper, C: Comments>(
        &self,
        e: &mut Emitter<'_, W, S, C>,
        context: Context,
    ) {
        let name = self.key.span();
        let value = self.value.target().place();
        e.opened(name);
        self.key.emit_at(e, Context::Plain);
        e.key_end(name, value);
        e.punct(Punctuator::Colon);
        e.formatting_space();
        e.value_start(name, value);
        self.value.target().emit_at(e, Context::Plain);
    }
}

impl<N: LinkTarget> EmitAt for AssignProp<N> {
    ghost items = { λ n _. assign_prop N.items n };

    #[tactic(auto, unfolding(crate::specs::Props::assign_prop))]
    fn emit_at<W: WriteJs, S: SourceMapper, C: Comments>(
        &self,
        e: &mut Emitter<'_, W, S, C>,
        context: Context,
    ) {
        e.opened(self.key.span);
        self.key.emit_at(e, Context::Plain);
        e.punct(Punctuator::Equal);
        self.value.target().emit_at(e, Context::Plain);
    }
}

impl<N: LinkTarget> EmitAt for GetterProp<N> {
    ghost items = { λ n _. getter_prop N.answers N.items n };

    #[tactic(auto, unfolding(crate::specs::Props::getter_prop))]
    fn emit_at<W: WriteJs, S: SourceMapper, C: Comments>(
        &self,
        e: &mut Emitter<'_, W, S, C>,
        context: Context,
    ) {
        e.opened(self.span);
        e.accessor("get", &self.key);
        e.punct(Punctuator::LeftParenthesis);
        e.punct(Punctuator::RightParenthesis);
        e.tight_annotation(&self.type_ann);
        e.formatting_space();
        e.optional_body(&self.body);
    }
}

impl<N: LinkTarget> EmitAt for SetterProp<N> {
    ghost items = { λ n _. setter_prop N.answers N.items n };

    #[tactic(auto, unfolding(crate::specs::Props::setter_prop))]
    fn emit_at<W: WriteJs, S: SourceMapper, C: Comments>(
        &self,
        e: &mut Emitter<'_, W, S, C>,
        context: Context,
    ) {
        e.opened(self.span);
        e.accessor("set", &self.key);
        e.punct(Punctuator::LeftParenthesis);
        e.this_param(&self.this_param);
        self.param.target().emit_at(e, Context::Plain);
        e.punct(Punctuator::RightParenthesis);
        e.optional_body(&self.body);
    }
}

impl<N: LinkTarget> EmitAt for MethodProp<N> {
    ghost items = { λ n _. method_prop N.answers N.items n };

    #[tactic(auto, unfolding(crate::specs::Props::method_prop))]
    fn emit_at<W: WriteJs, S: SourceMapper, C: Comments>(
        &self,
        e: &mut Emitter<'_, W, S, C>,
        context: Context,
    ) {
        e.opened(self.key.span());
        self.function.target().emit_piece(e, Piece::MethodHead);
        self.key.emit_at(e, Context::Plain);
        e.formatting_space();
        self.function.target().emit_piece(e, Piece::DeclarationTail);
    }
}

impl<N: LinkTarget> EmitAt for PropOrSpread<N> {
    ghost items = { λ n _. prop_or_spread N.answers N.items n };

    #[tactic(auto, unfolding(crate::specs::Props::prop_or_spread))]
    fn emit_at<W: WriteJs, S: SourceMapper, C: Comments>(
        &self,
        e: &mut Emitter<'_, W, S, C>,
        context: Context,
    ) {
        match self {
            PropOrSpread::Spread(node) => node.emit_at(e, Context::Plain),
            PropOrSpread::Prop(node) => node.emit_at(e, Context::Plain),
        }
    }
}

impl<N: LinkTarget> Child for PropOrSpread<N> {
    ghost stands = { prop_or_spread_span (place_of N.answers) };

    #[tactic(auto, unfolding(swc_ecma_codegen_spans::specs::Spans::prop_or_spread_span))]
    fn place(&self) -> Span {
        match self {
            PropOrSpread::Spread(node) => spread_element_place(node),
            PropOrSpread::Prop(node) => prop_place(node),
        }
    }
}

impl<W: WriteJs, S: SourceMapper, C: Comments> Emitter<'_, W, S, C> {
    /// Records where a name ends, before a value that stands nowhere.
    #[tactic(auto, unfolding(crate::specs::Props::key_end))]
    fn key_end(&mut self, name: Span, value: Span)
        ensures items { Performs (key_end name value) S.lines C.maps W.sheet self.old self.new }
    {
        if name.lo.0 != 0 && value.lo.0 == 0 {
            self.position(name.hi);
        }
    }

    /// Records where a value begins, after a name that stands nowhere.
    #[tactic(auto, unfolding(crate::specs::Props::value_start))]
    fn value_start(&mut self, name: Span, value: Span)
        ensures items { Performs (value_start name value) S.lines C.maps W.sheet self.old self.new }
    {
        if name.lo.0 == 0 {
            self.position(value.lo);
        }
    }

    /// Writes `get` or `set` and a name.
    #[tactic(auto, unfolding(crate::specs::Props::accessor))]
    fn accessor<N: LinkTarget>(&mut self, word: &'static str, name: &PropNameBox<N>)
        requires { begins_letter word.now ≡ true }
        ensures items { Performs (accessor N.answers N.items word.now name.now.node.value)
            S.lines C.maps W.sheet self.old self.new }
    {
        self.keyword(None, word);
        self.blank(name.target().starts());
        name.target().emit_at(self, Context::Plain);
        self.formatting_space();
    }

    /// Writes `:T` of a getter, where there is a type, without a blank.
    #[tactic(auto, unfolding(crate::specs::Props::tight_annotation))]
    fn tight_annotation<N: LinkTarget>(&mut self, ty: &Option<TsTypeAnnBox<N>>)
        ensures items { Performs (tight_annotation N.items ty.now)
            S.lines C.maps W.sheet self.old self.new }
    {
        match ty {
            Some(node) => {
                self.punct(Punctuator::Colon);
                node.target().emit_at(self, Context::Plain)
            }
            None => {}
        }
    }

    /// Writes `this: T, ` of a setter, where it is so.
    #[tactic(auto, unfolding(crate::specs::Props::this_param))]
    fn this_param<N: LinkTarget>(&mut self, param: &Option<PatBox<N>>)
        ensures items { Performs (this_param N.items param.now)
            S.lines C.maps W.sheet self.old self.new }
    {
        match param {
            Some(node) => {
                node.target().emit_at(self, Context::Plain);
                self.punct(Punctuator::Comma);
                self.formatting_space();
            }
            None => {}
        }
    }

    /// Writes a body, where there is one.
    #[tactic(auto, unfolding(crate::specs::Props::optional_body))]
    fn optional_body<N: LinkTarget>(&mut self, body: &Option<BlockStmtBox<N>>)
        ensures items { Performs (optional_body N.items body.now)
            S.lines C.maps W.sheet self.old self.new }
    {
        match body {
            Some(body) => body.target().emit_at(self, Context::Plain),
            None => {}
        }
    }

    /// Writes the properties on one line.
    fn flat_object_props<N: LinkTarget>(&mut self, node: &ObjectLit<N>)
        ensures items { Performs (list flat_object_format node.now.span
            (object_children N.answers N.items node.now)) S.lines C.maps W.sheet self.old self.new }
    {
        self.list(flat_object_format(), node.span, &node.props)
    }

    /// Writes the properties, each on a line of its own.
    fn object_props<N: LinkTarget>(&mut self, node: &ObjectLit<N>)
        ensures items { Performs (list object_format node.now.span
            (object_children N.answers N.items node.now)) S.lines C.maps W.sheet self.old self.new }
    {
        self.list(object_format(), node.span, &node.props)
    }

    /// Writes the properties and the ends of their lines.
    #[tactic(auto, unfolding(crate::specs::Props::lined_object_list))]
    fn lined_object_list<N: LinkTarget>(&mut self, node: &ObjectLit<N>)
        ensures items { Performs (lined_object_list node.now.span
            (object_children N.answers N.items node.now)) S.lines C.maps W.sheet self.old self.new }
    {
        self.line();
        self.object_props(node);
        self.line();
    }

    /// Writes the properties, each on a line of its own where there are some.
    #[tactic(auto, unfolding(crate::specs::Props::object_lines))]
    fn object_lines<N: LinkTarget>(&mut self, some: bool, node: &ObjectLit<N>)
        ensures items { Performs (object_lines some node.now.span
            (object_children N.answers N.items node.now)) S.lines C.maps W.sheet self.old self.new }
    {
        if some {
            self.lined_object_list(node);
        } else {
            self.flat_object_props(node);
        }
    }

    /// Writes the properties, where the settings aren't to minify.
    fn pretty_object_list<N: LinkTarget>(&mut self, some: bool, node: &ObjectLit<N>)
        ensures items { Performs (object_lines some node.now.span
            (object_children N.answers N.items node.now)) S.lines C.maps W.sheet self.old self.new }
    {
        self.object_lines(some, node)
    }

    /// Writes the properties; on one line where the settings are to minify.
    #[tactic(auto, using(crate::proofs::Asked::minified_part, crate::proofs::Asked::pretty_part), unfolding(crate::specs::Props::object_list))]
    fn object_list<N: LinkTarget>(&mut self, some: bool, node: &ObjectLit<N>)
        ensures items { Performs (object_list some node.now.span
            (object_children N.answers N.items node.now)) S.lines C.maps W.sheet self.old self.new }
    {
        if self.cfg.minify {
            return self.flat_object_props(node);
        }
        self.pretty_object_list(some, node)
    }

    /// Writes the properties, each on a line of its own too where there is a comment before `}`.
    fn object_by_maps<N: LinkTarget>(&mut self, node: &ObjectLit<N>)
        ensures items { Performs (object_by_maps (is_some_listed node.now.props.items) node.now.span
            (object_children N.answers N.items node.now)) S.lines C.maps W.sheet self.old self.new }
    {
        let some = wants_lines(&self.comments, is_some_listed(&node.props), node.span);
        self.object_list(some, node)
    }
}
