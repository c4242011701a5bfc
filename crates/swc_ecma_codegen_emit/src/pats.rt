//! Patterns.

ghost use Rattle.std.specs.Prelude.{◌≡◌};
ghost use Rattle.swc_ecma_codegen_spans.specs.Spans.{pat_span, object_pat_prop_span};
ghost use Rattle.swc_ecma_codegen_emit.specs.Standing.{Performs};
ghost use Rattle.swc_ecma_codegen_emit.specs.Answers.{place_of};
ghost use Rattle.swc_ecma_codegen_emit.specs.Pats.{initializer, array_pat_format, array_pat_elements, array_pat, rest_pat, assign_pat, key_value_pat_prop, assign_pat_prop, object_pat_prop, object_pat_format, object_pat_props, object_pat, pat, definite_ident, definite_pat, declared_pat, assign_target_pat};

use crate::calls::ends_with_hole;
use crate::emitter::Emitter;
use crate::nodes::{Asked, Child, Context, EmitAt, LinkTarget};
use bitflags::Flags;
use swc_ecma_codegen_common::Span;
use swc_ecma_codegen_grammar::ListFormat;
use swc_ecma_codegen_grammar::comments::Comments;
use swc_ecma_codegen_grammar::mapper::SourceMapper;
use swc_ecma_codegen_literals::Punctuator;
use swc_ecma_codegen_spans::Spanned;
use swc_ecma_codegen_text_writer::WriteJs;
use swc_ecma_codegen_tree::{
    ArrayPat, AssignPat, AssignPatProp, AssignTargetPat, BindingIdent, ExprBox, KeyValuePatProp,
    ObjectPat, ObjectPatProp, Pat, RestPat,
};

/// The format of an array pattern, which ends with a comma where its last element is a hole.
fn array_pat_format(hole: bool) -> ListFormat
    ensures { result.0 ≡ array_pat_format hole }
{
    if hole {
        ListFormat::ArrayBindingPatternElements.union(ListFormat::ForceTrailingComma)
    } else {
        ListFormat::ArrayBindingPatternElements
    }
}

/// The format of an object pattern.
fn object_pat_format() -> ListFormat
    ensures { result.0 ≡ object_pat_format }
{
    ListFormat::ObjectBindingPatternElements.union(ListFormat::CanSkipTrailingComma)
}

impl<N: LinkTarget> EmitAt for Pat<N> {
    ghost items = { λ n _. pat N.answers N.items n };

    #[tactic(auto, unfolding(crate::specs::Pats::pat, crate::specs::Pats::pat_parts))]
    fn emit_at<W: WriteJs, S: SourceMapper, C: Comments>(
        &self,
        e: &mut Emitter<'_, W, S, C>,
        context: Context,
    ) {
        match self {
            Pat::Ident(node) => node.emit_at(e, Context::Plain),
            Pat::Array(node) => node.emit_at(e, Context::Plain),
            Pat::Rest(node) => node.emit_at(e, Context::Plain),
            Pat::Object(node) => node.emit_at(e, Context::Plain),
            Pat::Assign(node) => node.emit_at(e, Context::Plain),
            Pat::Invalid(_) => e.unsupported(),
            Pat::Expr(node) => node.target().emit_at(e, Context::Plain),
        }
        e.trailing_comments(pat_place(self).hi, true);
    }
}

impl<N: LinkTarget> EmitAt for RestPat<N> {
    ghost items = { λ n _. rest_pat N.items n };

    #[tactic(auto, unfolding(crate::specs::Pats::rest_pat))]
    fn emit_at<W: WriteJs, S: SourceMapper, C: Comments>(
        &self,
        e: &mut Emitter<'_, W, S, C>,
        context: Context,
    ) {
        e.leading_comments(self.span.lo);
        e.placed_punct(self.dot3_token, Punctuator::Ellipsis);
        self.arg.target().emit_at(e, Context::Plain);
        e.annotation(&self.type_ann);
    }
}

impl<N: LinkTarget> EmitAt for AssignTargetPat<N> {
    ghost items = { λ n _. assign_target_pat N.answers N.items n };

    #[tactic(auto, unfolding(crate::specs::Pats::assign_target_pat))]
    fn emit_at<W: WriteJs, S: SourceMapper, C: Comments>(
        &self,
        e: &mut Emitter<'_, W, S, C>,
        context: Context,
    ) {
        match self {
            AssignTargetPat::Array(node) => node.emit_at(e, Context::Plain),
            AssignTargetPat::Object(node) => node.emit_at(e, Context::Plain),
            AssignTargetPat::Invalid(_) => e.unsupported(),
        }
    }
}

impl<N: LinkTarget> EmitAt for ArrayPat<N> {
    ghost items = { λ n _. array_pat N.answers N.items n };

    #[tactic(auto, unfolding(crate::specs::Pats::array_pat))]
    fn emit_at<W: WriteJs, S: SourceMapper, C: Comments>(
        &self,
        e: &mut Emitter<'_, W, S, C>,
        context: Context,
    ) {
        e.opened(self.span);
        e.punct(Punctuator::LeftBracket);
        e.array_pat_elements(self);
        e.punct(Punctuator::RightBracket);
        e.question(self.optional);
        e.spaced_annotation(&self.type_ann);
        e.end_of(self.span);
    }
}

impl<N: LinkTarget> EmitAt for AssignPat<N> {
    ghost items = { λ n _. assign_pat N.items n };

    #[tactic(auto, unfolding(crate::specs::Pats::assign_pat))]
    fn emit_at<W: WriteJs, S: SourceMapper, C: Comments>(
        &self,
        e: &mut Emitter<'_, W, S, C>,
        context: Context,
    ) {
        e.opened(self.span);
        self.left.target().emit_at(e, Context::Plain);
        e.spaced_punct(Punctuator::Equal);
        self.right.target().emit_at(e, Context::Plain);
        e.end_of(self.span);
    }
}

impl<N: LinkTarget> EmitAt for ObjectPat<N> {
    ghost items = { λ n _. object_pat N.answers N.items n };

    #[tactic(auto, unfolding(crate::specs::Pats::object_pat))]
    fn emit_at<W: WriteJs, S: SourceMapper, C: Comments>(
        &self,
        e: &mut Emitter<'_, W, S, C>,
        context: Context,
    ) {
        e.opened(self.span);
        e.punct(Punctuator::LeftBrace);
        e.object_pat_props(self);
        e.punct(Punctuator::RightBrace);
        e.question(self.optional);
        e.spaced_annotation(&self.type_ann);
        e.end_of(self.span);
    }
}

impl<N: LinkTarget> EmitAt for ObjectPatProp<N> {
    ghost items = { λ n _. object_pat_prop N.answers N.items n };

    #[tactic(auto, unfolding(crate::specs::Pats::object_pat_prop))]
    fn emit_at<W: WriteJs, S: SourceMapper, C: Comments>(
        &self,
        e: &mut Emitter<'_, W, S, C>,
        context: Context,
    ) {
        match self {
            ObjectPatProp::KeyValue(node) => node.emit_at(e, Context::Plain),
            ObjectPatProp::Assign(node) => node.emit_at(e, Context::Plain),
            ObjectPatProp::Rest(node) => node.emit_at(e, Context::Plain),
        }
    }
}

impl<N: LinkTarget> Child for ObjectPatProp<N> {
    ghost stands = { object_pat_prop_span (place_of N.answers) };

    #[tactic(auto, unfolding(swc_ecma_codegen_spans::specs::Spans::object_pat_prop_span, swc_ecma_codegen_spans::specs::Spans::key_value_pat_prop_span))]
    fn place(&self) -> Span {
        match self {
            ObjectPatProp::KeyValue(node) => Span {
                lo: node.key.span().lo,
                hi: node.value.target().place().hi,
            },
            ObjectPatProp::Assign(node) => node.span,
            ObjectPatProp::Rest(node) => node.span,
        }
    }
}

impl<N: LinkTarget> EmitAt for KeyValuePatProp<N> {
    ghost items = { λ n _. key_value_pat_prop N.answers N.items n };

    #[tactic(auto, unfolding(crate::specs::Pats::key_value_pat_prop))]
    fn emit_at<W: WriteJs, S: SourceMapper, C: Comments>(
        &self,
        e: &mut Emitter<'_, W, S, C>,
        context: Context,
    ) {
        e.opened(self.key.span());
        self.key.emit_at(e, Context::Plain);
        e.punct(Punctuator::Colon);
        e.formatting_space();
        self.value.target().emit_at(e, Context::Plain);
        e.end_of(self.value.target().place());
    }
}

impl<N: LinkTarget> EmitAt for AssignPatProp<N> {
    ghost items = { λ n _. assign_pat_prop N.items n };

    #[tactic(auto, unfolding(crate::specs::Pats::assign_pat_prop))]
    fn emit_at<W: WriteJs, S: SourceMapper, C: Comments>(
        &self,
        e: &mut Emitter<'_, W, S, C>,
        context: Context,
    ) {
        e.opened(self.span);
        self.key.emit_at(e, Context::Plain);
        e.initializer(&self.value);
        e.end_of(self.span);
    }
}

/// Where a pattern stands.
#[tactic(auto, unfolding(swc_ecma_codegen_spans::specs::Spans::pat_span, swc_ecma_codegen_spans::specs::Spans::binding_ident_span))]
fn pat_place<N: Asked>(node: &Pat<N>) -> Span
    ensures { result ≡ pat_span (place_of N.answers) node.now }
{
    match node {
        Pat::Ident(node) => node.id.span,
        Pat::Array(node) => node.span,
        Pat::Rest(node) => node.span,
        Pat::Object(node) => node.span,
        Pat::Assign(node) => node.span,
        Pat::Invalid(node) => node.span,
        Pat::Expr(node) => node.target().place(),
    }
}

impl<W: WriteJs, S: SourceMapper, C: Comments> Emitter<'_, W, S, C> {
    /// Writes the elements of an array.
    fn array_pat_elements<N: LinkTarget>(&mut self, node: &ArrayPat<N>)
        ensures items { Performs (array_pat_elements N.answers N.items node.now)
            S.lines C.maps W.sheet self.old self.new }
    {
        let format = array_pat_format(ends_with_hole(&node.elems));
        self.list(format, node.span, &node.elems)
    }

    /// Writes the properties of an object.
    fn object_pat_props<N: LinkTarget>(&mut self, node: &ObjectPat<N>)
        ensures items { Performs (object_pat_props N.answers N.items node.now)
            S.lines C.maps W.sheet self.old self.new }
    {
        self.list(object_pat_format(), node.span, &node.props)
    }

    /// Writes `a!: A` and the comments after it.
    #[tactic(auto, unfolding(crate::specs::Pats::definite_ident))]
    fn definite_ident<N: LinkTarget>(&mut self, node: &BindingIdent<N>)
        ensures items { Performs (definite_ident N.items node.now)
            S.lines C.maps W.sheet self.old self.new }
    {
        node.id.emit_at(self, Context::Plain);
        self.punct(Punctuator::Bang);
        self.annotation(&node.type_ann);
        self.trailing_comments(node.id.span.hi, true);
    }

    /// Writes the same, or a pattern that is no name, without the mark.
    #[tactic(auto, unfolding(crate::specs::Pats::definite_pat))]
    fn definite_pat<N: LinkTarget>(&mut self, node: &Pat<N>)
        ensures items { Performs (definite_pat N.answers N.items node.now)
            S.lines C.maps W.sheet self.old self.new }
    {
        match node {
            Pat::Ident(node) => self.definite_ident(node),
            _ => node.emit_at(self, Context::Plain),
        }
    }

    /// Writes what is declared, which may be said to have a value.
    #[tactic(auto, unfolding(crate::specs::Pats::declared_pat))]
    pub(crate) fn declared_pat<N: LinkTarget>(&mut self, definite: bool, node: &Pat<N>)
        ensures items { Performs (declared_pat N.answers N.items definite node.now)
            S.lines C.maps W.sheet self.old self.new }
    {
        if definite {
            return self.definite_pat(node);
        }
        node.emit_at(self, Context::Plain);
    }

    /// Writes `= b` of `a = b`.
    #[tactic(auto, unfolding(crate::specs::Pats::initializer))]
    pub(crate) fn initializer<N: LinkTarget>(&mut self, value: &Option<ExprBox<N>>)
        ensures items { Performs (initializer N.items value.now)
            S.lines C.maps W.sheet self.old self.new }
    {
        match value {
            Some(value) => {
                self.spaced_punct(Punctuator::Equal);
                value.target().emit_at(self, Context::Plain)
            }
            None => {}
        }
    }
}
