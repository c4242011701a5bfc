//! Sums of the sorts of nodes that a link can hold, whatever the nodes are.

ghost use Rattle.std.specs.Prelude.{◌≡◌, IfErr, Option, Some};
ghost use Rattle.std.specs.Result.{result_ok};
ghost use Rattle.swc_ecma_codegen_tree.specs.SortedNodes.{expr_at, stmt_at, member_expr_at, expr_part_at, stmt_part_at, jsx_part_at, ts_part_at};

/// What may be a node of type `T`, in the place that `I` names.
pub trait SumOf<I, T>: Sized {
    ghost node_at: { Self → Option T };

    /// A node, as one of the sum.
    fn of_node(node: T) -> Self
        ensures { node_at result ≡ Some node };

    /// The node, taken out, where it is one; otherwise the sum again.
    fn into_node_at(self) -> Result<T, Self>
        ensures node { result_ok result ≡ node_at self }
        ensures sum { IfErr result (λ other. other ≡ self) };
}

/// A node, by its sort.
pub enum Sorted<E, S, M, X, Y, J, T> {
    Expr(E),
    Stmt(S),
    MemberExpr(M),
    ExprPart(X),
    StmtPart(Y),
    JSXPart(J),
    TsPart(T),
}

/// The place of an expression among the sorts.
pub enum AsExpr {}

impl<E, S, M, X, Y, J, T> SumOf<AsExpr, E> for Sorted<E, S, M, X, Y, J, T> {
    ghost node_at = { expr_at };

    #[inline(always)]
    fn of_node(node: E) -> Sorted<E, S, M, X, Y, J, T> {
        Sorted::Expr(node)
    }

    #[inline(always)]
    fn into_node_at(self) -> Result<E, Sorted<E, S, M, X, Y, J, T>> {
        match self {
            Sorted::Expr(node) => Ok(node),
            other => Err(other),
        }
    }
}

/// The place of a statement among the sorts.
pub enum AsStmt {}

impl<E, S, M, X, Y, J, T> SumOf<AsStmt, S> for Sorted<E, S, M, X, Y, J, T> {
    ghost node_at = { stmt_at };

    #[inline(always)]
    fn of_node(node: S) -> Sorted<E, S, M, X, Y, J, T> {
        Sorted::Stmt(node)
    }

    #[inline(always)]
    fn into_node_at(self) -> Result<S, Sorted<E, S, M, X, Y, J, T>> {
        match self {
            Sorted::Stmt(node) => Ok(node),
            other => Err(other),
        }
    }
}

/// The place of a member expression among the sorts.
pub enum AsMemberExpr {}

impl<E, S, M, X, Y, J, T> SumOf<AsMemberExpr, M> for Sorted<E, S, M, X, Y, J, T> {
    ghost node_at = { member_expr_at };

    #[inline(always)]
    fn of_node(node: M) -> Sorted<E, S, M, X, Y, J, T> {
        Sorted::MemberExpr(node)
    }

    #[inline(always)]
    fn into_node_at(self) -> Result<M, Sorted<E, S, M, X, Y, J, T>> {
        match self {
            Sorted::MemberExpr(node) => Ok(node),
            other => Err(other),
        }
    }
}

/// The place of a part of an expression among the sorts.
pub enum AsExprPart {}

impl<E, S, M, X, Y, J, T> SumOf<AsExprPart, X> for Sorted<E, S, M, X, Y, J, T> {
    ghost node_at = { expr_part_at };

    #[inline(always)]
    fn of_node(node: X) -> Sorted<E, S, M, X, Y, J, T> {
        Sorted::ExprPart(node)
    }

    #[inline(always)]
    fn into_node_at(self) -> Result<X, Sorted<E, S, M, X, Y, J, T>> {
        match self {
            Sorted::ExprPart(node) => Ok(node),
            other => Err(other),
        }
    }
}

/// The place of a part of a statement among the sorts.
pub enum AsStmtPart {}

impl<E, S, M, X, Y, J, T> SumOf<AsStmtPart, Y> for Sorted<E, S, M, X, Y, J, T> {
    ghost node_at = { stmt_part_at };

    #[inline(always)]
    fn of_node(node: Y) -> Sorted<E, S, M, X, Y, J, T> {
        Sorted::StmtPart(node)
    }

    #[inline(always)]
    fn into_node_at(self) -> Result<Y, Sorted<E, S, M, X, Y, J, T>> {
        match self {
            Sorted::StmtPart(node) => Ok(node),
            other => Err(other),
        }
    }
}

/// The place of a part of JSX among the sorts.
pub enum AsJSXPart {}

impl<E, S, M, X, Y, J, T> SumOf<AsJSXPart, J> for Sorted<E, S, M, X, Y, J, T> {
    ghost node_at = { jsx_part_at };

    #[inline(always)]
    fn of_node(node: J) -> Sorted<E, S, M, X, Y, J, T> {
        Sorted::JSXPart(node)
    }

    #[inline(always)]
    fn into_node_at(self) -> Result<J, Sorted<E, S, M, X, Y, J, T>> {
        match self {
            Sorted::JSXPart(node) => Ok(node),
            other => Err(other),
        }
    }
}

/// The place of a part of TypeScript among the sorts.
pub enum AsTsPart {}

impl<E, S, M, X, Y, J, T> SumOf<AsTsPart, T> for Sorted<E, S, M, X, Y, J, T> {
    ghost node_at = { ts_part_at };

    #[inline(always)]
    fn of_node(node: T) -> Sorted<E, S, M, X, Y, J, T> {
        Sorted::TsPart(node)
    }

    #[inline(always)]
    fn into_node_at(self) -> Result<T, Sorted<E, S, M, X, Y, J, T>> {
        match self {
            Sorted::TsPart(node) => Ok(node),
            other => Err(other),
        }
    }
}
