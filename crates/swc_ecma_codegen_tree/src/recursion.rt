//! What links hold as a sum of its sorts: whatever has one holds a node of each sort.

ghost use Rattle.std.specs.Prelude.{◌≡◌};
ghost use Rattle.std.specs.Option.{option_copied};

use crate::exprs::{Expr, MemberExpr};
use crate::holds::Holds;
use crate::parts::{ExprPart, JSXPart, StmtPart, TsPart};
use crate::stmts::Stmt;
use crate::sums::{
    AsExpr, AsExprPart, AsJSXPart, AsMemberExpr, AsStmt, AsStmtPart, AsTsPart, SumOf,
};
use std::alloc::{AllocError, Global};

/// What is made of a sum of sorts. A check of what names all types of the tree is dear, and so is one of what moves a sum of them:
/// here the sum is any type, so that only two functions name it as it is.
pub trait NodeUnion: Sized {
    /// The sum.
    type Sum;

    /// The node, by its sort.
    ghost sum_in: { Self → Self.Sum };

    ghost sums_tell: { (a b : Self) → sum_in a ≡ sum_in b → a ≡ b };

    /// What a link holds, of a node by its sort.
    fn of_sum(sum: Self::Sum) -> Self
        ensures { sum_in result ≡ sum };

    /// The node by its sort, taken out.
    fn into_sum(self) -> Self::Sum
        ensures { result ≡ sum_in self };
}

/// What shows a node of type `T`, where it is one in the place that `I` names.
pub trait Shows<I, T>: NodeUnion
where
    Self::Sum: SumOf<I, T>,
{
    fn shown(&self) -> Option<&T>
        ensures { option_copied result ≡ Self.Sum.node_at (Self.sum_in self.now) };
}

impl<N: NodeUnion + Shows<AsExpr, Expr<N>>> Holds<Expr<N>> for N
where
    N::Sum: SumOf<AsExpr, Expr<N>>,
{
    ghost node_in = { λ n. N.Sum.node_at (N.sum_in n) };

    fn hold(_: Global, node: Expr<N>) -> Result<N, AllocError> {
        Ok(N::of_sum(<N::Sum as SumOf<AsExpr, Expr<N>>>::of_node(node)))
    }

    fn node(&self) -> Option<&Expr<N>> {
        self.shown()
    }

    fn into_node(self) -> Result<Expr<N>, N> {
        match self.into_sum().into_node_at() {
            Ok(node) => Ok(node),
            Err(other) => Err(N::of_sum(other)),
        }
    }
}

impl<N: NodeUnion + Shows<AsStmt, Stmt<N>>> Holds<Stmt<N>> for N
where
    N::Sum: SumOf<AsStmt, Stmt<N>>,
{
    ghost node_in = { λ n. N.Sum.node_at (N.sum_in n) };

    fn hold(_: Global, node: Stmt<N>) -> Result<N, AllocError> {
        Ok(N::of_sum(<N::Sum as SumOf<AsStmt, Stmt<N>>>::of_node(node)))
    }

    fn node(&self) -> Option<&Stmt<N>> {
        self.shown()
    }

    fn into_node(self) -> Result<Stmt<N>, N> {
        match self.into_sum().into_node_at() {
            Ok(node) => Ok(node),
            Err(other) => Err(N::of_sum(other)),
        }
    }
}

impl<N: NodeUnion + Shows<AsMemberExpr, MemberExpr<N>>> Holds<MemberExpr<N>> for N
where
    N::Sum: SumOf<AsMemberExpr, MemberExpr<N>>,
{
    ghost node_in = { λ n. N.Sum.node_at (N.sum_in n) };

    fn hold(_: Global, node: MemberExpr<N>) -> Result<N, AllocError> {
        Ok(N::of_sum(<N::Sum as SumOf<AsMemberExpr, MemberExpr<N>>>::of_node(node)))
    }

    fn node(&self) -> Option<&MemberExpr<N>> {
        self.shown()
    }

    fn into_node(self) -> Result<MemberExpr<N>, N> {
        match self.into_sum().into_node_at() {
            Ok(node) => Ok(node),
            Err(other) => Err(N::of_sum(other)),
        }
    }
}

impl<N: NodeUnion + Shows<AsExprPart, ExprPart<N>>> Holds<ExprPart<N>> for N
where
    N::Sum: SumOf<AsExprPart, ExprPart<N>>,
{
    ghost node_in = { λ n. N.Sum.node_at (N.sum_in n) };

    fn hold(_: Global, node: ExprPart<N>) -> Result<N, AllocError> {
        Ok(N::of_sum(<N::Sum as SumOf<AsExprPart, ExprPart<N>>>::of_node(node)))
    }

    fn node(&self) -> Option<&ExprPart<N>> {
        self.shown()
    }

    fn into_node(self) -> Result<ExprPart<N>, N> {
        match self.into_sum().into_node_at() {
            Ok(node) => Ok(node),
            Err(other) => Err(N::of_sum(other)),
        }
    }
}

impl<N: NodeUnion + Shows<AsStmtPart, StmtPart<N>>> Holds<StmtPart<N>> for N
where
    N::Sum: SumOf<AsStmtPart, StmtPart<N>>,
{
    ghost node_in = { λ n. N.Sum.node_at (N.sum_in n) };

    fn hold(_: Global, node: StmtPart<N>) -> Result<N, AllocError> {
        Ok(N::of_sum(<N::Sum as SumOf<AsStmtPart, StmtPart<N>>>::of_node(node)))
    }

    fn node(&self) -> Option<&StmtPart<N>> {
        self.shown()
    }

    fn into_node(self) -> Result<StmtPart<N>, N> {
        match self.into_sum().into_node_at() {
            Ok(node) => Ok(node),
            Err(other) => Err(N::of_sum(other)),
        }
    }
}

impl<N: NodeUnion + Shows<AsJSXPart, JSXPart<N>>> Holds<JSXPart<N>> for N
where
    N::Sum: SumOf<AsJSXPart, JSXPart<N>>,
{
    ghost node_in = { λ n. N.Sum.node_at (N.sum_in n) };

    fn hold(_: Global, node: JSXPart<N>) -> Result<N, AllocError> {
        Ok(N::of_sum(<N::Sum as SumOf<AsJSXPart, JSXPart<N>>>::of_node(node)))
    }

    fn node(&self) -> Option<&JSXPart<N>> {
        self.shown()
    }

    fn into_node(self) -> Result<JSXPart<N>, N> {
        match self.into_sum().into_node_at() {
            Ok(node) => Ok(node),
            Err(other) => Err(N::of_sum(other)),
        }
    }
}

impl<N: NodeUnion + Shows<AsTsPart, TsPart<N>>> Holds<TsPart<N>> for N
where
    N::Sum: SumOf<AsTsPart, TsPart<N>>,
{
    ghost node_in = { λ n. N.Sum.node_at (N.sum_in n) };

    fn hold(_: Global, node: TsPart<N>) -> Result<N, AllocError> {
        Ok(N::of_sum(<N::Sum as SumOf<AsTsPart, TsPart<N>>>::of_node(node)))
    }

    fn node(&self) -> Option<&TsPart<N>> {
        self.shown()
    }

    fn into_node(self) -> Result<TsPart<N>, N> {
        match self.into_sum().into_node_at() {
            Ok(node) => Ok(node),
            Err(other) => Err(N::of_sum(other)),
        }
    }
}
