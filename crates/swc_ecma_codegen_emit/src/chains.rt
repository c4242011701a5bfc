//! Members, optional chains, and properties of `super`.

ghost use Rattle.std.specs.Prelude.{◌≡◌};
ghost use Rattle.swc_ecma_codegen_emit.specs.Standing.{Performs};
ghost use Rattle.swc_ecma_codegen_emit.specs.Exprs.{member, member_prop, member_at, object_place, chain_mark, chain_prop, chain_member, opt_chain, super_prop, super_prop_expr};
ghost use Rattle.swc_ecma_codegen_emit.specs.Places.{chain, in_context};

use crate::emitter::Emitter;
use crate::nodes::{Context, EmitAt, LinkTarget};
use swc_ecma_codegen_grammar::comments::Comments;
use swc_ecma_codegen_grammar::mapper::SourceMapper;
use swc_ecma_codegen_literals::Punctuator;
use swc_ecma_codegen_text_writer::WriteJs;
use swc_ecma_codegen_tree::{
    MemberExpr, MemberProp, OptChainBase, OptChainExpr, SuperProp, SuperPropExpr,
};

/// The context of the object before a property.
#[tactic(auto, unfolding(crate::specs::Exprs::object_place))]
fn object_place<N>(prop: &MemberProp<N>) -> Context
    ensures { result ≡ object_place prop.now }
{
    match prop {
        MemberProp::Ident(name) => Context::DottedObject(name.span.lo),
        MemberProp::PrivateName(name) => Context::DottedObject(name.span.lo),
        MemberProp::Computed(_) => Context::Object,
    }
}

/// The context of a member or a call in an optional chain.
fn chain(optional: bool) -> Context
    ensures { result ≡ chain optional }
{
    if optional {
        Context::OptionalChain
    } else {
        Context::Chain
    }
}

impl<N: LinkTarget> EmitAt for OptChainExpr<N> {
    ghost items = { λ n _. opt_chain N.items n };

    #[tactic(auto, unfolding(crate::specs::Exprs::opt_chain, crate::specs::Exprs::chain_base))]
    fn emit_at<W: WriteJs, S: SourceMapper, C: Comments>(
        &self,
        e: &mut Emitter<'_, W, S, C>,
        context: Context,
    ) {
        e.leading_comments(self.span.lo);
        match &self.base {
            OptChainBase::Member(node) => node.target().emit_at(e, chain(self.optional)),
            OptChainBase::Call(node) => node.target().emit_at(e, chain(self.optional)),
        }
    }
}

impl<N: LinkTarget> EmitAt for MemberExpr<N> {
    ghost items = { λ n. in_context (member_at N.items n) };

    #[inline(never)]
    #[tactic(auto, unfolding(crate::specs::Exprs::member_at, crate::specs::Exprs::member))]
    fn emit_at<W: WriteJs, S: SourceMapper, C: Comments>(
        &self,
        e: &mut Emitter<'_, W, S, C>,
        context: Context,
    ) {
        match context {
            Context::Chain => e.chain_member(self, false),
            Context::OptionalChain => e.chain_member(self, true),
            _ => {
                e.opened(self.span);
                self.obj.target().emit_at(e, object_place(&self.prop));
                e.member_prop(&self.prop);
                e.end_of(self.span);
            }
        }
    }
}

impl<N: LinkTarget> EmitAt for SuperPropExpr<N> {
    ghost items = { λ n _. super_prop_expr N.items n };

    #[tactic(auto, unfolding(crate::specs::Exprs::super_prop_expr))]
    fn emit_at<W: WriteJs, S: SourceMapper, C: Comments>(
        &self,
        e: &mut Emitter<'_, W, S, C>,
        context: Context,
    ) {
        e.opened(self.span);
        self.obj.emit_at(e, Context::Plain);
        e.super_prop(&self.prop);
    }
}

impl<W: WriteJs, S: SourceMapper, C: Comments> Emitter<'_, W, S, C> {
    /// Writes `.b` or `[b]`.
    #[tactic(auto, unfolding(crate::specs::Exprs::member_prop))]
    fn member_prop<N: LinkTarget>(&mut self, prop: &MemberProp<N>)
        ensures items { Performs (member_prop N.items prop.now)
            S.lines C.maps W.sheet self.old self.new }
    {
        match prop {
            MemberProp::Ident(name) => {
                self.comments_before(name.span.lo);
                self.punct(Punctuator::Dot);
                name.emit_at(self, Context::Plain)
            }
            MemberProp::Computed(name) => name.emit_at(self, Context::Plain),
            MemberProp::PrivateName(name) => {
                self.comments_before(name.span.lo);
                self.punct(Punctuator::Dot);
                name.emit_at(self, Context::Plain)
            }
        }
    }

    /// Writes `.a` or `[a]` after `super`.
    #[tactic(auto, unfolding(crate::specs::Exprs::super_prop))]
    fn super_prop<N: LinkTarget>(&mut self, prop: &SuperProp<N>)
        ensures items { Performs (super_prop N.items prop.now)
            S.lines C.maps W.sheet self.old self.new }
    {
        match prop {
            SuperProp::Ident(name) => {
                self.comments_before(name.span.lo);
                self.punct(Punctuator::Dot);
                name.emit_at(self, Context::Plain)
            }
            SuperProp::Computed(name) => name.emit_at(self, Context::Plain),
        }
    }

    /// Writes `a?.b` or `a?.[b]`; `a.b` or `a[b]` where `?.` stands further to the left.
    #[tactic(auto, unfolding(crate::specs::Exprs::chain_member))]
    fn chain_member<N: LinkTarget>(&mut self, node: &MemberExpr<N>, optional: bool)
        ensures items { Performs (chain_member N.items optional node.now)
            S.lines C.maps W.sheet self.old self.new }
    {
        node.obj.target().emit_at(self, Context::Callee);
        self.chain_mark(optional, &node.prop);
        self.chain_prop(&node.prop);
    }

    /// Writes `?.` or `.` before a property, or nothing before brackets.
    #[tactic(auto, unfolding(crate::specs::Exprs::chain_mark))]
    fn chain_mark<N>(&mut self, optional: bool, prop: &MemberProp<N>)
        ensures items { Performs (chain_mark optional prop.now)
            S.lines C.maps W.sheet self.old self.new }
    {
        match (optional, prop) {
            (true, _) => self.punct(Punctuator::QuestionDot),
            (false, MemberProp::Computed(_)) => {}
            (false, _) => self.punct(Punctuator::Dot),
        }
    }

    /// Writes a property of an optional chain.
    #[tactic(auto, unfolding(crate::specs::Exprs::chain_prop))]
    fn chain_prop<N: LinkTarget>(&mut self, prop: &MemberProp<N>)
        ensures items { Performs (chain_prop N.items prop.now)
            S.lines C.maps W.sheet self.old self.new }
    {
        match prop {
            MemberProp::Ident(name) => name.emit_at(self, Context::Plain),
            MemberProp::Computed(name) => name.emit_at(self, Context::Plain),
            MemberProp::PrivateName(name) => name.emit_at(self, Context::Plain),
        }
    }
}
