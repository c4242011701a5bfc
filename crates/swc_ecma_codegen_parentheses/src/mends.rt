//! What goes on to what links hold, and lists of nodes.

ghost use Rattle.std.specs.Prelude.{◌≡◌};
ghost use Rattle.std.specs.Result.{OnOk};
ghost use Rattle.swc_ecma_codegen_parentheses.specs.declared.mends.Usage.{Usage};
ghost use Rattle.swc_ecma_codegen_parentheses.specs.Lists.{Pairwise, bracketed, linked, linked_as, optionally};

use crate::operands::{Context, Operand};
use crate::places::Place;
use std::alloc::{AllocError, Global};
use swc_ecma_codegen_syntax::{Lookahead, Nonterminal};
use swc_ecma_codegen_tree::{
    AssignTargetBox, BlockStmtBox, ClassBox, ClassMemberBox, DeclBox, ExprBox, FunctionBox,
    JSXElementBox, JSXFragmentBox, MemberExprBox, ModuleDeclBox, OptCallBox, PatBox, PropNameBox,
    StmtBox, TplBox, VarDeclBox,
};

/// Why the pass went no further.
#[derive(Drop)]
pub(crate) enum Stop {
    /// Memory was refused.
    OutOfMemory,
    /// More links lie below one another than are gone down.
    TooDeep,
    /// A pair of parentheses was put in that could be left out.
    Needless,
}

/// How the expression is used that a link holds.
#[derive(Clone, Copy)]
pub(crate) enum Usage {
    /// Its value is.
    Value,
    /// It is a statement, as `"use strict"`, which is a directive, and `("use strict")`, which is
    /// none.
    Statement,
    /// It is assigned to, as `a` in `[a] = b`.
    Target,
    /// The head of a loop assigns to it, and may not begin so, as `a` in `for (a of b) {}`.
    Head(Lookahead),
    /// It is a decorator: names with dots between, a call of such, or any expression in
    /// parentheses, as `(a + b)` in `@(a + b) class C {}`.
    Decorator,
    /// It is an operand of the node that has the link.
    Operand(Operand),
    /// The same, where this nonterminal stands in this context.
    Part(Nonterminal, Context),
    /// It is called, or has a property, where this nonterminal stands in this context, with `[`
    /// right behind it or not.
    Called(Nonterminal, bool, Context),
    /// It is called by `new`, where this nonterminal stands in this context.
    CalledByNew(Nonterminal, Context),
    /// It is a link of a chain, or what is assigned to, and no expression. What stands in it stands
    /// in this context.
    Link(Context),
}

impl From<AllocError> for Stop {
    fn from(_: AllocError) -> Stop {
        Stop::OutOfMemory
    }
}

impl From<swc_ecma_codegen_visit::Stop> for Stop {
    fn from(stop: swc_ecma_codegen_visit::Stop) -> Stop {
        match stop {
            swc_ecma_codegen_visit::Stop::OutOfMemory => Stop::OutOfMemory,
            swc_ecma_codegen_visit::Stop::TooDeep => Stop::TooDeep,
        }
    }
}

/// What goes on to what links hold, and changes that.
pub(crate) trait Mends<N>: Sized {
    /// What a link held, and what it holds.
    ghost mended: { Self → Usage → N → N → Type 0 };

    fn expr(
        &self,
        alloc: Global,
        link: &mut ExprBox<N>,
        place: Place,
        usage: Usage,
    ) -> Result<(), Stop>
        ensures { OnOk result (linked_as usage (mended self.now) link.old link.new) };

    fn pat(
        &self,
        alloc: Global,
        link: &mut PatBox<N>,
        place: Place,
        usage: Usage,
    ) -> Result<(), Stop>
        ensures { OnOk result (linked_as usage (mended self.now) link.old link.new) };

    fn tpl(&self, alloc: Global, link: &mut TplBox<N>, place: Place) -> Result<(), Stop>
        ensures { OnOk result (linked (mended self.now) link.old link.new) };

    fn prop_name(&self, alloc: Global, link: &mut PropNameBox<N>, place: Place) -> Result<(), Stop>
        ensures { OnOk result (linked (mended self.now) link.old link.new) };

    fn member_expr(
        &self,
        alloc: Global,
        link: &mut MemberExprBox<N>,
        place: Place,
        usage: Usage,
    ) -> Result<(), Stop>
        ensures { OnOk result (linked_as usage (mended self.now) link.old link.new) };

    fn opt_call(
        &self,
        alloc: Global,
        link: &mut OptCallBox<N>,
        place: Place,
        usage: Usage,
    ) -> Result<(), Stop>
        ensures { OnOk result (linked_as usage (mended self.now) link.old link.new) };

    fn assign_target(
        &self,
        alloc: Global,
        link: &mut AssignTargetBox<N>,
        place: Place,
        usage: Usage,
    ) -> Result<(), Stop>
        ensures { OnOk result (linked_as usage (mended self.now) link.old link.new) };

    fn stmt(&self, alloc: Global, link: &mut StmtBox<N>, place: Place) -> Result<(), Stop>
        ensures { OnOk result (linked (mended self.now) link.old link.new) };

    fn function(&self, alloc: Global, link: &mut FunctionBox<N>, place: Place) -> Result<(), Stop>
        ensures { OnOk result (linked (mended self.now) link.old link.new) };

    fn class(&self, alloc: Global, link: &mut ClassBox<N>, place: Place) -> Result<(), Stop>
        ensures { OnOk result (linked (mended self.now) link.old link.new) };

    fn block_stmt(
        &self,
        alloc: Global,
        link: &mut BlockStmtBox<N>,
        place: Place,
    ) -> Result<(), Stop>
        ensures { OnOk result (linked (mended self.now) link.old link.new) };

    fn decl(&self, alloc: Global, link: &mut DeclBox<N>, place: Place) -> Result<(), Stop>
        ensures { OnOk result (linked (mended self.now) link.old link.new) };

    fn module_decl(
        &self,
        alloc: Global,
        link: &mut ModuleDeclBox<N>,
        place: Place,
    ) -> Result<(), Stop>
        ensures { OnOk result (linked (mended self.now) link.old link.new) };

    fn var_decl(&self, alloc: Global, link: &mut VarDeclBox<N>, place: Place) -> Result<(), Stop>
        ensures { OnOk result (linked (mended self.now) link.old link.new) };

    fn class_member(
        &self,
        alloc: Global,
        link: &mut ClassMemberBox<N>,
        place: Place,
    ) -> Result<(), Stop>
        ensures { OnOk result (linked (mended self.now) link.old link.new) };

    fn jsx_element(
        &self,
        alloc: Global,
        link: &mut JSXElementBox<N>,
        place: Place,
    ) -> Result<(), Stop>
        ensures { OnOk result (linked (mended self.now) link.old link.new) };

    fn jsx_fragment(
        &self,
        alloc: Global,
        link: &mut JSXFragmentBox<N>,
        place: Place,
    ) -> Result<(), Stop>
        ensures { OnOk result (linked (mended self.now) link.old link.new) };
}

/// A node whose links are gone down.
pub(crate) trait Mend<N, M: Mends<N>>: Sized {
    /// What it was, and what it is, by what links held and hold.
    ghost same: { (Usage → N → N → Type 0) → Self → Self → Type 0 };

    fn mend(&mut self, mender: &M, alloc: Global, place: Place) -> Result<(), Stop>
        ensures { OnOk result (same (M.mended mender.now) self.old self.new) };
}

impl<T: Mend<N, M>, N, M: Mends<N>> Mend<N, M> for Option<T> {
    ghost same = { λ m. optionally (T.same m) };

    #[tactic(auto, unfolding(crate::specs::Lists::optionally))]
    fn mend(&mut self, mender: &M, alloc: Global, place: Place) -> Result<(), Stop> {
        match self {
            Some(node) => node.mend(mender, alloc, place),
            None => Ok(()),
        }
    }
}

impl<T: Mend<N, M>, N, M: Mends<N>> Mend<N, M> for Box<T> {
    ghost same = { λ m a b. T.same m a.value b.value };

    fn mend(&mut self, mender: &M, alloc: Global, place: Place) -> Result<(), Stop> {
        self.as_mut().mend(mender, alloc, place)
    }
}

/// Only the first begins what the list stands in.
impl<T: Mend<N, M>, N, M: Mends<N>> Mend<N, M> for Vec<T> {
    ghost same = { λ m a b. Pairwise (T.same m) a.items b.items };

    fn mend(&mut self, mender: &M, alloc: Global, place: Place) -> Result<(), Stop> {
        let mut each = place;
        for node in self.iter_mut() {
            node.mend(mender, alloc, each)?;
            each = each.behind_first();
        }
        Ok(())
    }
}

/// Goes on to the expression of a link that stands in brackets.
#[tactic(auto, unfolding(crate::specs::Lists::linked_as))]
pub(crate) fn mend_bracketed<N, M: Mends<N>>(
    mender: &M,
    alloc: Global,
    link: &mut ExprBox<N>,
    place: Place,
    nonterminal: Nonterminal,
) -> Result<(), Stop>
    ensures { OnOk result (bracketed nonterminal (M.mended mender.now) link.old link.new) }
{
    let usage = Usage::in_brackets(nonterminal);
    mender.expr(alloc, link, place.bracketed(nonterminal), usage)
}

/// The same where there may be none.
#[tactic(auto, unfolding(crate::specs::Lists::optionally))]
pub(crate) fn mend_optional<N, M: Mends<N>>(
    mender: &M,
    alloc: Global,
    link: &mut Option<ExprBox<N>>,
    place: Place,
    nonterminal: Nonterminal,
) -> Result<(), Stop>
    ensures { OnOk result
        (optionally (bracketed nonterminal (M.mended mender.now)) link.old link.new) }
{
    match link {
        Some(link) => mend_bracketed(mender, alloc, link, place, nonterminal),
        None => Ok(()),
    }
}

/// Goes on to the expression of a link that may be there.
#[tactic(auto, unfolding(crate::specs::Lists::optionally))]
pub(crate) fn mend_if_any<N, M: Mends<N>>(
    mender: &M,
    alloc: Global,
    link: &mut Option<ExprBox<N>>,
    place: Place,
    usage: Usage,
) -> Result<(), Stop>
    ensures { OnOk result
        (optionally (linked_as usage (M.mended mender.now)) link.old link.new) }
{
    match link {
        Some(link) => mender.expr(alloc, link, place, usage),
        None => Ok(()),
    }
}

/// Goes on to each expression of a list. Only the first begins what the list stands in.
pub(crate) fn mend_each<N, M: Mends<N>>(
    mender: &M,
    alloc: Global,
    links: &mut Vec<ExprBox<N>>,
    place: Place,
    usage: Usage,
) -> Result<(), Stop>
    ensures { OnOk result
        (Pairwise (linked_as usage (M.mended mender.now)) links.old.items links.new.items) }
{
    let mut each = place;
    for link in links.iter_mut() {
        mender.expr(alloc, link, each, usage)?;
        each = each.behind_first();
    }
    Ok(())
}

impl<N, M: Mends<N>> Mend<N, M> for ExprBox<N> {
    ghost same = { linked };

    fn mend(&mut self, mender: &M, alloc: Global, place: Place) -> Result<(), Stop> {
        mender.expr(alloc, self, place, Usage::Value)
    }
}

impl<N, M: Mends<N>> Mend<N, M> for PatBox<N> {
    ghost same = { linked };

    fn mend(&mut self, mender: &M, alloc: Global, place: Place) -> Result<(), Stop> {
        mender.pat(alloc, self, place, Usage::Value)
    }
}

impl<N, M: Mends<N>> Mend<N, M> for TplBox<N> {
    ghost same = { linked };

    fn mend(&mut self, mender: &M, alloc: Global, place: Place) -> Result<(), Stop> {
        mender.tpl(alloc, self, place)
    }
}

impl<N, M: Mends<N>> Mend<N, M> for PropNameBox<N> {
    ghost same = { linked };

    fn mend(&mut self, mender: &M, alloc: Global, place: Place) -> Result<(), Stop> {
        mender.prop_name(alloc, self, place)
    }
}

impl<N, M: Mends<N>> Mend<N, M> for StmtBox<N> {
    ghost same = { linked };

    fn mend(&mut self, mender: &M, alloc: Global, place: Place) -> Result<(), Stop> {
        mender.stmt(alloc, self, place)
    }
}

impl<N, M: Mends<N>> Mend<N, M> for FunctionBox<N> {
    ghost same = { linked };

    fn mend(&mut self, mender: &M, alloc: Global, place: Place) -> Result<(), Stop> {
        mender.function(alloc, self, place)
    }
}

impl<N, M: Mends<N>> Mend<N, M> for ClassBox<N> {
    ghost same = { linked };

    fn mend(&mut self, mender: &M, alloc: Global, place: Place) -> Result<(), Stop> {
        mender.class(alloc, self, place)
    }
}

impl<N, M: Mends<N>> Mend<N, M> for BlockStmtBox<N> {
    ghost same = { linked };

    fn mend(&mut self, mender: &M, alloc: Global, place: Place) -> Result<(), Stop> {
        mender.block_stmt(alloc, self, place)
    }
}

impl<N, M: Mends<N>> Mend<N, M> for DeclBox<N> {
    ghost same = { linked };

    fn mend(&mut self, mender: &M, alloc: Global, place: Place) -> Result<(), Stop> {
        mender.decl(alloc, self, place)
    }
}

impl<N, M: Mends<N>> Mend<N, M> for ModuleDeclBox<N> {
    ghost same = { linked };

    fn mend(&mut self, mender: &M, alloc: Global, place: Place) -> Result<(), Stop> {
        mender.module_decl(alloc, self, place)
    }
}

impl<N, M: Mends<N>> Mend<N, M> for VarDeclBox<N> {
    ghost same = { linked };

    fn mend(&mut self, mender: &M, alloc: Global, place: Place) -> Result<(), Stop> {
        mender.var_decl(alloc, self, place)
    }
}

impl<N, M: Mends<N>> Mend<N, M> for ClassMemberBox<N> {
    ghost same = { linked };

    fn mend(&mut self, mender: &M, alloc: Global, place: Place) -> Result<(), Stop> {
        mender.class_member(alloc, self, place)
    }
}

impl<N, M: Mends<N>> Mend<N, M> for JSXElementBox<N> {
    ghost same = { linked };

    fn mend(&mut self, mender: &M, alloc: Global, place: Place) -> Result<(), Stop> {
        mender.jsx_element(alloc, self, place)
    }
}

impl<N, M: Mends<N>> Mend<N, M> for JSXFragmentBox<N> {
    ghost same = { linked };

    fn mend(&mut self, mender: &M, alloc: Global, place: Place) -> Result<(), Stop> {
        mender.jsx_fragment(alloc, self, place)
    }
}
