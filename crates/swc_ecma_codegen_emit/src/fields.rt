//! Fields of classes.

ghost use Rattle.swc_ecma_codegen_emit.specs.Standing.{Performs};
ghost use Rattle.swc_ecma_codegen_emit.specs.Classes.{prop_value, prop_modifiers, prop_tail, class_prop, private_decorators, private_modifiers, private_prop_tail, private_prop, accessor_key, accessor_decorators, accessor_modifiers, accessor_tail, auto_accessor};

use crate::emitter::Emitter;
use crate::functions::decorators_format;
use crate::nodes::{Context, EmitAt, LinkTarget};
use swc_ecma_codegen_grammar::comments::Comments;
use swc_ecma_codegen_grammar::mapper::SourceMapper;
use swc_ecma_codegen_literals::Punctuator;
use swc_ecma_codegen_text_writer::WriteJs;
use swc_ecma_codegen_tree::{AutoAccessor, ClassProp, ExprBox, Key, PrivateProp};

impl<N: LinkTarget> EmitAt for ClassProp<N> {
    ghost items = { λ n _. class_prop N.items n };

    #[tactic(auto, unfolding(crate::specs::Classes::class_prop))]
    fn emit_at<W: WriteJs, S: SourceMapper, C: Comments>(
        &self,
        e: &mut Emitter<'_, W, S, C>,
        context: Context,
    ) {
        e.leading_comments(self.span.lo);
        e.start_of(self.span);
        e.decorator_lines(&self.decorators);
        e.prop_modifiers(self);
        e.prop_tail(self);
    }
}

impl<N: LinkTarget> EmitAt for PrivateProp<N> {
    ghost items = { λ n _. private_prop N.items n };

    #[tactic(auto, unfolding(crate::specs::Classes::private_prop))]
    fn emit_at<W: WriteJs, S: SourceMapper, C: Comments>(
        &self,
        e: &mut Emitter<'_, W, S, C>,
        context: Context,
    ) {
        e.leading_comments(self.span.lo);
        e.start_of(self.span);
        e.private_decorators(self);
        e.private_modifiers(self);
        e.private_prop_tail(self);
    }
}

impl<N: LinkTarget> EmitAt for AutoAccessor<N> {
    ghost items = { λ n _. auto_accessor N.items n };

    #[tactic(auto, unfolding(crate::specs::Classes::auto_accessor))]
    fn emit_at<W: WriteJs, S: SourceMapper, C: Comments>(
        &self,
        e: &mut Emitter<'_, W, S, C>,
        context: Context,
    ) {
        e.accessor_decorators(self);
        e.accessor_modifiers(self);
        e.keyword(None, "accessor");
        e.space();
        e.accessor_tail(self);
    }
}

impl<N: LinkTarget> EmitAt for Key<N> {
    ghost items = { λ n _. accessor_key N.items n };

    #[tactic(auto, unfolding(crate::specs::Classes::accessor_key))]
    fn emit_at<W: WriteJs, S: SourceMapper, C: Comments>(
        &self,
        e: &mut Emitter<'_, W, S, C>,
        context: Context,
    ) {
        match self {
            Key::Public(node) => node.target().emit_at(e, Context::Plain),
            Key::Private(node) => node.emit_at(e, Context::Plain),
        }
    }
}

impl<W: WriteJs, S: SourceMapper, C: Comments> Emitter<'_, W, S, C> {
    /// Writes `declare private static abstract override readonly ` of a field.
    #[tactic(auto, unfolding(crate::specs::Classes::prop_modifiers))]
    fn prop_modifiers<N: LinkTarget>(&mut self, node: &ClassProp<N>)
        ensures items { Performs (prop_modifiers node.now)
            S.lines C.maps W.sheet self.old self.new }
    {
        self.declare_word(node.declare);
        self.accessibility_word(node.accessibility);
        self.static_word(node.is_static);
        self.word_before(node.is_abstract, "abstract");
        self.word_before(node.is_override, "override");
        self.word_before(node.readonly, "readonly");
    }

    /// Writes `b!: A = c;`
    #[tactic(auto, unfolding(crate::specs::Classes::prop_tail))]
    fn prop_tail<N: LinkTarget>(&mut self, node: &ClassProp<N>)
        ensures items { Performs (prop_tail N.items node.now)
            S.lines C.maps W.sheet self.old self.new }
    {
        node.key.target().emit_at(self, Context::Plain);
        self.question(node.is_optional);
        self.field_annotation(node.definite, &node.type_ann);
        self.prop_value(&node.value);
        self.semi();
        self.end_of(node.span);
    }

    /// Writes the decorators of a private field.
    fn private_decorators<N: LinkTarget>(&mut self, node: &PrivateProp<N>)
        ensures items { Performs (private_decorators N.items node.now)
            S.lines C.maps W.sheet self.old self.new }
    {
        self.list(decorators_format(), node.span, &node.decorators)
    }

    /// Writes `private static override readonly ` of a private field.
    #[tactic(auto, unfolding(crate::specs::Classes::private_modifiers))]
    fn private_modifiers<N: LinkTarget>(&mut self, node: &PrivateProp<N>)
        ensures items { Performs (private_modifiers node.now)
            S.lines C.maps W.sheet self.old self.new }
    {
        self.accessibility_word(node.accessibility);
        self.static_word(node.is_static);
        self.word_before(node.is_override, "override");
        self.word_before(node.readonly, "readonly");
    }

    /// Writes `#b!: A = c;`
    #[tactic(auto, unfolding(crate::specs::Classes::private_prop_tail))]
    fn private_prop_tail<N: LinkTarget>(&mut self, node: &PrivateProp<N>)
        ensures items { Performs (private_prop_tail N.items node.now)
            S.lines C.maps W.sheet self.old self.new }
    {
        node.key.emit_at(self, Context::Plain);
        self.question(node.is_optional);
        self.field_annotation(node.definite, &node.type_ann);
        self.prop_value(&node.value);
        self.semi();
        self.end_of(node.span);
    }

    /// Writes the decorators of a field with `accessor`.
    fn accessor_decorators<N: LinkTarget>(&mut self, node: &AutoAccessor<N>)
        ensures items { Performs (accessor_decorators N.items node.now)
            S.lines C.maps W.sheet self.old self.new }
    {
        self.list(decorators_format(), node.span, &node.decorators)
    }

    /// Writes `private static abstract override ` of a field with `accessor`.
    #[tactic(auto, unfolding(crate::specs::Classes::accessor_modifiers))]
    fn accessor_modifiers<N: LinkTarget>(&mut self, node: &AutoAccessor<N>)
        ensures items { Performs (accessor_modifiers node.now)
            S.lines C.maps W.sheet self.old self.new }
    {
        self.accessibility_word(node.accessibility);
        self.static_word(node.is_static);
        self.word_before(node.is_abstract, "abstract");
        self.word_before(node.is_override, "override");
    }

    /// Writes `b!: A = c;` of a field with `accessor`.
    #[tactic(auto, unfolding(crate::specs::Classes::accessor_tail))]
    fn accessor_tail<N: LinkTarget>(&mut self, node: &AutoAccessor<N>)
        ensures items { Performs (accessor_tail N.items node.now)
            S.lines C.maps W.sheet self.old self.new }
    {
        node.key.emit_at(self, Context::Plain);
        self.field_annotation(node.definite, &node.type_ann);
        self.initializer(&node.value);
        self.semi();
    }

    /// Writes `= a` of a field, where it is so.
    #[tactic(auto, unfolding(crate::specs::Classes::prop_value))]
    fn prop_value<N: LinkTarget>(&mut self, value: &Option<ExprBox<N>>)
        ensures items { Performs (prop_value N.items value.now)
            S.lines C.maps W.sheet self.old self.new }
    {
        match value {
            Some(value) => {
                self.formatting_space();
                self.punct(Punctuator::Equal);
                self.formatting_space();
                value.target().emit_at(self, Context::FieldValue)
            }
            None => {}
        }
    }
}
