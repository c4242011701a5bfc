//! What goes on from a node whose context is known, so that its operands stand in theirs.

ghost use Rattle.swc_ecma_codegen_parentheses.specs.Operands.{within};

use crate::mends::{Mends, Stop, Usage};
use crate::operands::Context;
use crate::places::Place;
use std::alloc::Global;
use swc_ecma_codegen_tree::{
    AssignTargetBox, BlockStmtBox, ClassBox, ClassMemberBox, DeclBox, ExprBox, FunctionBox,
    JSXElementBox, JSXFragmentBox, MemberExprBox, ModuleDeclBox, OptCallBox, PatBox, PropNameBox,
    StmtBox, TplBox, VarDeclBox,
};

/// What goes on to what the links of a node hold, with the context that the node stands in.
#[derive(Drop)]
pub(crate) struct Within<'a, M> {
    pub(crate) mender: &'a M,
    pub(crate) context: Context,
}

impl<N, M: Mends<N>> Mends<N> for Within<'_, M> {
    ghost mended = { λ w usage. M.mended w.mender.now (within w.context usage) };

    #[tactic(auto, unfolding(crate::specs::Lists::linked_as))]
    fn expr(
        &self,
        alloc: Global,
        link: &mut ExprBox<N>,
        place: Place,
        usage: Usage,
    ) -> Result<(), Stop> {
        self.mender
            .expr(alloc, link, place, usage.within(self.context))
    }

    #[tactic(auto, unfolding(crate::specs::Lists::linked_as))]
    fn pat(
        &self,
        alloc: Global,
        link: &mut PatBox<N>,
        place: Place,
        usage: Usage,
    ) -> Result<(), Stop> {
        self.mender
            .pat(alloc, link, place, usage.within(self.context))
    }

    #[tactic(auto, unfolding(crate::specs::Lists::linked_as, crate::specs::Operands::within))]
    fn tpl(&self, alloc: Global, link: &mut TplBox<N>, place: Place) -> Result<(), Stop> {
        self.mender.tpl(alloc, link, place)
    }

    #[tactic(auto, unfolding(crate::specs::Lists::linked_as, crate::specs::Operands::within))]
    fn prop_name(
        &self,
        alloc: Global,
        link: &mut PropNameBox<N>,
        place: Place,
    ) -> Result<(), Stop> {
        self.mender.prop_name(alloc, link, place)
    }

    #[tactic(auto, unfolding(crate::specs::Lists::linked_as))]
    fn member_expr(
        &self,
        alloc: Global,
        link: &mut MemberExprBox<N>,
        place: Place,
        usage: Usage,
    ) -> Result<(), Stop> {
        self.mender
            .member_expr(alloc, link, place, usage.within(self.context))
    }

    #[tactic(auto, unfolding(crate::specs::Lists::linked_as))]
    fn opt_call(
        &self,
        alloc: Global,
        link: &mut OptCallBox<N>,
        place: Place,
        usage: Usage,
    ) -> Result<(), Stop> {
        self.mender
            .opt_call(alloc, link, place, usage.within(self.context))
    }

    #[tactic(auto, unfolding(crate::specs::Lists::linked_as))]
    fn assign_target(
        &self,
        alloc: Global,
        link: &mut AssignTargetBox<N>,
        place: Place,
        usage: Usage,
    ) -> Result<(), Stop> {
        self.mender
            .assign_target(alloc, link, place, usage.within(self.context))
    }

    #[tactic(auto, unfolding(crate::specs::Lists::linked_as, crate::specs::Operands::within))]
    fn stmt(&self, alloc: Global, link: &mut StmtBox<N>, place: Place) -> Result<(), Stop> {
        self.mender.stmt(alloc, link, place)
    }

    #[tactic(auto, unfolding(crate::specs::Lists::linked_as, crate::specs::Operands::within))]
    fn function(&self, alloc: Global, link: &mut FunctionBox<N>, place: Place) -> Result<(), Stop> {
        self.mender.function(alloc, link, place)
    }

    #[tactic(auto, unfolding(crate::specs::Lists::linked_as, crate::specs::Operands::within))]
    fn class(&self, alloc: Global, link: &mut ClassBox<N>, place: Place) -> Result<(), Stop> {
        self.mender.class(alloc, link, place)
    }

    #[tactic(auto, unfolding(crate::specs::Lists::linked_as, crate::specs::Operands::within))]
    fn block_stmt(
        &self,
        alloc: Global,
        link: &mut BlockStmtBox<N>,
        place: Place,
    ) -> Result<(), Stop> {
        self.mender.block_stmt(alloc, link, place)
    }

    #[tactic(auto, unfolding(crate::specs::Lists::linked_as, crate::specs::Operands::within))]
    fn decl(&self, alloc: Global, link: &mut DeclBox<N>, place: Place) -> Result<(), Stop> {
        self.mender.decl(alloc, link, place)
    }

    #[tactic(auto, unfolding(crate::specs::Lists::linked_as, crate::specs::Operands::within))]
    fn module_decl(
        &self,
        alloc: Global,
        link: &mut ModuleDeclBox<N>,
        place: Place,
    ) -> Result<(), Stop> {
        self.mender.module_decl(alloc, link, place)
    }

    #[tactic(auto, unfolding(crate::specs::Lists::linked_as, crate::specs::Operands::within))]
    fn var_decl(&self, alloc: Global, link: &mut VarDeclBox<N>, place: Place) -> Result<(), Stop> {
        self.mender.var_decl(alloc, link, place)
    }

    #[tactic(auto, unfolding(crate::specs::Lists::linked_as, crate::specs::Operands::within))]
    fn class_member(
        &self,
        alloc: Global,
        link: &mut ClassMemberBox<N>,
        place: Place,
    ) -> Result<(), Stop> {
        self.mender.class_member(alloc, link, place)
    }

    #[tactic(auto, unfolding(crate::specs::Lists::linked_as, crate::specs::Operands::within))]
    fn jsx_element(
        &self,
        alloc: Global,
        link: &mut JSXElementBox<N>,
        place: Place,
    ) -> Result<(), Stop> {
        self.mender.jsx_element(alloc, link, place)
    }

    #[tactic(auto, unfolding(crate::specs::Lists::linked_as, crate::specs::Operands::within))]
    fn jsx_fragment(
        &self,
        alloc: Global,
        link: &mut JSXFragmentBox<N>,
        place: Place,
    ) -> Result<(), Stop> {
        self.mender.jsx_fragment(alloc, link, place)
    }
}
