//! How nodes are let go, in little stack.
//!
//! `drop` of `AnyNode` and that of a link are on the stack once for each level of a tree. So `drop` has room for one node
//! alone, and what else a sort of node needs is in a frame of its own, which is gone before the next level: of `f((a), b)`
//! the list `(a), b` is let go below, but `(a)` by a call that is the last thing that `drop` does, and so takes no room. What
//! stands first in `a + b + c`, and `a.b.c`, is let go last, so that it takes none either.

use crate::exprs::{BinExpr, Expr, MemberExpr};
use crate::parts::{ExprPart, JSXPart, StmtPart, TsPart};
use crate::stmts::Stmt;

/// Lets a node go.
#[inline(always)]
fn let_go<T: Drop>(node: T) {
    let _ = node;
}

/// Lets a node go in a frame of its own.
#[inline(never)]
fn let_go_below<T: Drop>(node: T) {
    let _ = node;
}

/// The same, as part of its caller: so what is handed on has one room for all of the caller's arms.
#[inline(always)]
fn let_go_apart<T: Drop>(node: T) {
    let_go_below(node)
}

#[inline(always)]
fn let_bin_go<N: Drop>(node: BinExpr<N>) {
    let BinExpr {
        span: _,
        op: _,
        left,
        right,
    } = node;
    let_go(right);
    let_go(left)
}

#[inline(always)]
pub(crate) fn let_member_go<N: Drop>(node: MemberExpr<N>) {
    let MemberExpr { span: _, obj, prop } = node;
    let_go_apart(prop);
    let_go(obj)
}

#[inline(always)]
pub(crate) fn let_expr_go<N: Drop>(node: Expr<N>) {
    match node {
        Expr::Bin(node) => let_bin_go(node),
        Expr::This(node) => let_go(node),
        Expr::Array(node) => let_go_apart(node),
        Expr::Object(node) => let_go_apart(node),
        Expr::Fn(node) => let_go_apart(node),
        Expr::Unary(node) => let_go(node),
        Expr::Update(node) => let_go(node),
        Expr::Assign(node) => let_go_apart(node),
        Expr::Member(node) => let_member_go(node),
        Expr::SuperProp(node) => let_go_apart(node),
        Expr::Cond(node) => let_go(node),
        Expr::Call(node) => let_go_apart(node),
        Expr::New(node) => let_go_apart(node),
        Expr::Seq(node) => let_go_apart(node),
        Expr::Ident(node) => let_go_apart(node),
        Expr::Lit(node) => let_go_apart(node),
        Expr::Tpl(node) => let_go_apart(node),
        Expr::TaggedTpl(node) => let_go_apart(node),
        Expr::Arrow(node) => let_go_apart(node),
        Expr::Class(node) => let_go_apart(node),
        Expr::Yield(node) => let_go_apart(node),
        Expr::MetaProp(node) => let_go_apart(node),
        Expr::Await(node) => let_go(node),
        Expr::Paren(node) => let_go(node),
        Expr::JSXMember(node) => let_go_apart(node),
        Expr::JSXNamespacedName(node) => let_go_apart(node),
        Expr::JSXEmpty(node) => let_go_apart(node),
        Expr::JSXElement(node) => let_go_apart(node),
        Expr::JSXFragment(node) => let_go_apart(node),
        Expr::TsTypeAssertion(node) => let_go_apart(node),
        Expr::TsConstAssertion(node) => let_go_apart(node),
        Expr::TsNonNull(node) => let_go(node),
        Expr::TsAs(node) => let_go_apart(node),
        Expr::TsInstantiation(node) => let_go_apart(node),
        Expr::TsSatisfies(node) => let_go_apart(node),
        Expr::PrivateName(node) => let_go_apart(node),
        Expr::OptChain(node) => let_go_apart(node),
        Expr::Invalid(node) => let_go_apart(node),
    }
}

#[inline(always)]
pub(crate) fn let_stmt_go<N: Drop>(node: Stmt<N>) {
    match node {
        Stmt::Block(node) => let_go_apart(node),
        Stmt::Empty(node) => let_go_apart(node),
        Stmt::Debugger(node) => let_go_apart(node),
        Stmt::With(node) => let_go_apart(node),
        Stmt::Return(node) => let_go_apart(node),
        Stmt::Labeled(node) => let_go_apart(node),
        Stmt::Break(node) => let_go_apart(node),
        Stmt::Continue(node) => let_go_apart(node),
        Stmt::If(node) => let_go_apart(node),
        Stmt::Switch(node) => let_go_apart(node),
        Stmt::Throw(node) => let_go_apart(node),
        Stmt::Try(node) => let_go_apart(node),
        Stmt::While(node) => let_go_apart(node),
        Stmt::DoWhile(node) => let_go_apart(node),
        Stmt::For(node) => let_go_apart(node),
        Stmt::ForIn(node) => let_go_apart(node),
        Stmt::ForOf(node) => let_go_apart(node),
        Stmt::Decl(node) => let_go_apart(node),
        Stmt::Expr(node) => let_go_apart(node),
    }
}

#[inline(always)]
pub(crate) fn let_expr_part_go<N: Drop>(node: ExprPart<N>) {
    match node {
        ExprPart::Pat(node) => let_go_apart(node),
        ExprPart::Tpl(node) => let_go_apart(node),
        ExprPart::ObjectLit(node) => let_go_apart(node),
        ExprPart::PropName(node) => let_go_apart(node),
        ExprPart::OptCall(node) => let_go_apart(node),
        ExprPart::AssignTarget(node) => let_go_apart(node),
    }
}

#[inline(always)]
pub(crate) fn let_stmt_part_go<N: Drop>(node: StmtPart<N>) {
    match node {
        StmtPart::Function(node) => let_go_apart(node),
        StmtPart::Class(node) => let_go_apart(node),
        StmtPart::BlockStmt(node) => let_go_apart(node),
        StmtPart::Decl(node) => let_go_apart(node),
        StmtPart::ModuleDecl(node) => let_go_apart(node),
        StmtPart::VarDecl(node) => let_go_apart(node),
        StmtPart::ClassMember(node) => let_go_apart(node),
    }
}

#[inline(always)]
pub(crate) fn let_jsx_part_go<N: Drop>(node: JSXPart<N>) {
    match node {
        JSXPart::JSXElement(node) => let_go_apart(node),
        JSXPart::JSXFragment(node) => let_go_apart(node),
        JSXPart::JSXObject(node) => let_go_apart(node),
    }
}

#[inline(always)]
pub(crate) fn let_ts_part_go<N: Drop>(node: TsPart<N>) {
    match node {
        TsPart::TsType(node) => let_go_apart(node),
        TsPart::TsNamespaceBody(node) => let_go_apart(node),
        TsPart::TsTypeAnn(node) => let_go_apart(node),
        TsPart::TsTypeParamDecl(node) => let_go_apart(node),
        TsPart::TsTypeParamInstantiation(node) => let_go_apart(node),
        TsPart::TsFnParam(node) => let_go_apart(node),
        TsPart::TsInterfaceBody(node) => let_go_apart(node),
        TsPart::TsEntityName(node) => let_go_apart(node),
    }
}
