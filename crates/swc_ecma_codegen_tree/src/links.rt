//! Links, and what they hold: the one type that refers to itself.

ghost use Rattle.std.specs.Prelude.{◌≡◌, IfOk, Some};
ghost use Rattle.std.specs.Borrow.{sem};
ghost use Rattle.std.specs.Option.{option_copied, option_copied_mut};
ghost use Rattle.swc_ecma_codegen_tree.specs.Lending.{LendsNode};
ghost use Rattle.swc_ecma_codegen_tree.specs.LinkTargets.{sorted_in};
ghost use Rattle.swc_ecma_codegen_tree.specs.SortsTell.{sorts_tell};

use crate::drops::{
    let_expr_go, let_expr_part_go, let_jsx_part_go, let_member_go, let_stmt_go, let_stmt_part_go,
    let_ts_part_go,
};
use crate::exprs::{Expr, MemberExpr};
use crate::holds::{Holds, HoldsMut, hold_in_part, into_node_in_part, node_in_part};
use crate::parts::{ExprPart, JSXPart, StmtPart, TsPart};
use crate::recursion::{NodeUnion, Shows};
use crate::sorts::LinkSort;
use crate::sorts_mut::LinkSortMut;
use crate::stmts::Stmt;
use crate::sums::{
    AsExpr, AsExprPart, AsJSXPart, AsMemberExpr, AsStmt, AsStmtPart, AsTsPart, Sorted,
};
use std::alloc::{AllocError, Global};
use std::marker::PhantomData;
use std::mem;

/// A link to a node of the sort `K`: `Link<ToExpr>`, which is `ExprBox`, is what `Box<Expr>` is in swc.
pub struct Link<K, N = AnyNode> {
    node: Box<N>,
    sort: PhantomData<K>,
}

impl<K, N: Drop> Drop for Link<K, N> {
    #[inline(never)]
    fn drop(self) {
        let Link { node: _, sort: _ } = self;
    }
}

impl<K, N> Link<K, N> {
    ghost use Rattle.swc_ecma_codegen_tree.specs.contracts.links.Link.{the_row};
    ghost use Rattle.swc_ecma_codegen_tree.specs.Targets.{LendsTarget};

    /// What is held, whatever it is.
    pub fn target(&self) -> &N
        ensures { result.now ≡ self.now.node.value }
    {
        &self.node
    }

    /// What is held, whatever it is, to be changed in place.
    pub fn target_mut(&mut self) -> &mut N
        ensures* lends { sem 𝓛 (LendsTarget K.row N.row self.entry result) }
        ensures target { result.now ≡ self.old.node.value }
    {
        &mut *self.node
    }

    /// Holds `node` from now on. The answer is what was held.
    pub fn replace_target(&mut self, node: N) -> N
        ensures taken { result ≡ self.old.node.value }
        ensures held { self.new.node.value ≡ node }
    {
        mem::replace(&mut *self.node, node)
    }
}

impl<K, N: Drop> Link<K, N> {
    /// A link that holds `node`, whatever it is. Where memory is refused, `node` is let go.
    pub fn holding(alloc: Global, node: N) -> Result<Link<K, N>, AllocError>
        ensures { IfOk result (λ link. link.node.value ≡ node) }
    {
        Ok(Link {
            node: Box::new(alloc, node)?,
            sort: PhantomData,
        })
    }
}

impl<K: LinkSort<N>, N: Holds<K::Part> + Drop> Link<K, N> {
    /// A link to `node`. Where memory is refused, `node` is let go.
    pub fn new(alloc: Global, node: K::Node) -> Result<Link<K, N>, AllocError>
        ensures { IfOk result (λ link. K.linked (N.node_in link.node.value) ≡ Some node) }
    {
        Link::holding(alloc, hold_in_part::<K::Part, K::Node, N>(alloc, node)?)
    }

    /// The node that is linked to.
    pub fn get(&self) -> Option<&K::Node>
        ensures { option_copied result ≡ K.linked (N.node_in self.now.node.value) }
    {
        node_in_part::<K::Part, K::Node, N>(&self.node)
    }

    /// The node that is linked to, taken out. What else is held is let go.
    pub fn into_inner(self) -> Option<K::Node>
        ensures { result ≡ K.linked (N.node_in self.node.value) }
    {
        let Link { node, sort: _ } = self;
        into_node_in_part::<K::Part, K::Node, N>(Box::into_inner(node))
    }
}

impl<K: LinkSortMut<N>, N: Holds<K::Part>> Link<K, N> {
    ghost use Rattle.swc_ecma_codegen_tree.specs.contracts.links.Link.{the_row};

    /// The node that is linked to, to be changed in place: with `*node = Expr::Ident(name)` written to what `link.get_mut()`
    /// lends, `link` is a link to that name. Where `get` is `None` this is, and nothing of the link changes.
    pub fn get_mut(&mut self) -> Option<&mut K::Node>
        ensures* lends { sem 𝓛
            (LendsNode (the_row K.row N.row) K.Node.row
            (λ link. K.linked (N.node_in link.node.value)) self.entry result) }
        ensures node { option_copied_mut result ≡ K.linked (N.node_in self.old.node.value) }
    {
        let node = &mut *self.node;
        K::node_mut(node, PhantomData)
    }
}

/// What a link can hold: the one type that refers to itself.
pub enum AnyNode {
    Expr(Expr<AnyNode>),
    Stmt(Stmt<AnyNode>),
    MemberExpr(MemberExpr<AnyNode>),
    ExprPart(ExprPart<AnyNode>),
    StmtPart(StmtPart<AnyNode>),
    JSXPart(JSXPart<AnyNode>),
    TsPart(TsPart<AnyNode>),
}

impl Drop for AnyNode {
    fn drop(self) {
        match self {
            AnyNode::Expr(node) => let_expr_go(node),
            AnyNode::Stmt(node) => let_stmt_go(node),
            AnyNode::MemberExpr(node) => let_member_go(node),
            AnyNode::ExprPart(node) => let_expr_part_go(node),
            AnyNode::StmtPart(node) => let_stmt_part_go(node),
            AnyNode::JSXPart(node) => let_jsx_part_go(node),
            AnyNode::TsPart(node) => let_ts_part_go(node),
        }
    }
}

impl NodeUnion for AnyNode {
    type Sum = Sorted<
        Expr<AnyNode>,
        Stmt<AnyNode>,
        MemberExpr<AnyNode>,
        ExprPart<AnyNode>,
        StmtPart<AnyNode>,
        JSXPart<AnyNode>,
        TsPart<AnyNode>,
    >;

    ghost sum_in = { sorted_in };

    ghost sums_tell = { sorts_tell };

    #[inline(always)]
    fn of_sum(sum: Self::Sum) -> AnyNode {
        match sum {
            Sorted::Expr(node) => AnyNode::Expr(node),
            Sorted::Stmt(node) => AnyNode::Stmt(node),
            Sorted::MemberExpr(node) => AnyNode::MemberExpr(node),
            Sorted::ExprPart(node) => AnyNode::ExprPart(node),
            Sorted::StmtPart(node) => AnyNode::StmtPart(node),
            Sorted::JSXPart(node) => AnyNode::JSXPart(node),
            Sorted::TsPart(node) => AnyNode::TsPart(node),
        }
    }

    #[inline(always)]
    fn into_sum(self) -> Self::Sum {
        match self {
            AnyNode::Expr(node) => Sorted::Expr(node),
            AnyNode::Stmt(node) => Sorted::Stmt(node),
            AnyNode::MemberExpr(node) => Sorted::MemberExpr(node),
            AnyNode::ExprPart(node) => Sorted::ExprPart(node),
            AnyNode::StmtPart(node) => Sorted::StmtPart(node),
            AnyNode::JSXPart(node) => Sorted::JSXPart(node),
            AnyNode::TsPart(node) => Sorted::TsPart(node),
        }
    }
}

impl Shows<AsExpr, Expr<AnyNode>> for AnyNode {
    fn shown(&self) -> Option<&Expr> {
        match self {
            AnyNode::Expr(node) => Some(node),
            _ => None,
        }
    }
}

impl Shows<AsStmt, Stmt<AnyNode>> for AnyNode {
    fn shown(&self) -> Option<&Stmt> {
        match self {
            AnyNode::Stmt(node) => Some(node),
            _ => None,
        }
    }
}

impl Shows<AsMemberExpr, MemberExpr<AnyNode>> for AnyNode {
    fn shown(&self) -> Option<&MemberExpr> {
        match self {
            AnyNode::MemberExpr(node) => Some(node),
            _ => None,
        }
    }
}

impl Shows<AsExprPart, ExprPart<AnyNode>> for AnyNode {
    fn shown(&self) -> Option<&ExprPart> {
        match self {
            AnyNode::ExprPart(node) => Some(node),
            _ => None,
        }
    }
}

impl Shows<AsStmtPart, StmtPart<AnyNode>> for AnyNode {
    fn shown(&self) -> Option<&StmtPart> {
        match self {
            AnyNode::StmtPart(node) => Some(node),
            _ => None,
        }
    }
}

impl Shows<AsJSXPart, JSXPart<AnyNode>> for AnyNode {
    fn shown(&self) -> Option<&JSXPart> {
        match self {
            AnyNode::JSXPart(node) => Some(node),
            _ => None,
        }
    }
}

impl Shows<AsTsPart, TsPart<AnyNode>> for AnyNode {
    fn shown(&self) -> Option<&TsPart> {
        match self {
            AnyNode::TsPart(node) => Some(node),
            _ => None,
        }
    }
}

impl HoldsMut<Expr<AnyNode>> for AnyNode {
    fn node_mut(&mut self) -> Option<&mut Expr> {
        match self {
            AnyNode::Expr(node) => Some(node),
            _ => None,
        }
    }
}

impl HoldsMut<Stmt<AnyNode>> for AnyNode {
    fn node_mut(&mut self) -> Option<&mut Stmt> {
        match self {
            AnyNode::Stmt(node) => Some(node),
            _ => None,
        }
    }
}

impl HoldsMut<MemberExpr<AnyNode>> for AnyNode {
    fn node_mut(&mut self) -> Option<&mut MemberExpr> {
        match self {
            AnyNode::MemberExpr(node) => Some(node),
            _ => None,
        }
    }
}

impl HoldsMut<ExprPart<AnyNode>> for AnyNode {
    fn node_mut(&mut self) -> Option<&mut ExprPart> {
        match self {
            AnyNode::ExprPart(node) => Some(node),
            _ => None,
        }
    }
}

impl HoldsMut<StmtPart<AnyNode>> for AnyNode {
    fn node_mut(&mut self) -> Option<&mut StmtPart> {
        match self {
            AnyNode::StmtPart(node) => Some(node),
            _ => None,
        }
    }
}

impl HoldsMut<JSXPart<AnyNode>> for AnyNode {
    fn node_mut(&mut self) -> Option<&mut JSXPart> {
        match self {
            AnyNode::JSXPart(node) => Some(node),
            _ => None,
        }
    }
}

impl HoldsMut<TsPart<AnyNode>> for AnyNode {
    fn node_mut(&mut self) -> Option<&mut TsPart> {
        match self {
            AnyNode::TsPart(node) => Some(node),
            _ => None,
        }
    }
}
