//! Where what links hold stands.

ghost use Rattle.swc_ecma_codegen_spans.specs.Spans.{any_span, expr_part_span, jsx_part_span, stmt_part_span, ts_part_span};

use crate::spanned::Spanned;
use swc_ecma_codegen_common::Span;
use swc_ecma_codegen_tree::{AnyNode, ExprPart, JSXPart, Link, StmtPart, TsPart};

impl<K, N: Spanned> Spanned for Link<K, N> {
    ghost place = { λ n. N.place n.node.value };

    fn span(&self) -> Span {
        self.target().span()
    }
}

impl<N: Spanned> Spanned for ExprPart<N> {
    ghost place = { expr_part_span N.place };

    #[tactic(auto, unfolding(crate::specs::Spans::expr_part_span))]
    fn span(&self) -> Span {
        match self {
            ExprPart::Pat(node) => node.span(),
            ExprPart::Tpl(node) => node.span(),
            ExprPart::ObjectLit(node) => node.span(),
            ExprPart::PropName(node) => node.span(),
            ExprPart::OptCall(node) => node.span(),
            ExprPart::AssignTarget(node) => node.span(),
        }
    }
}

impl<N: Spanned> Spanned for StmtPart<N> {
    ghost place = { stmt_part_span N.place };

    #[tactic(auto, unfolding(crate::specs::Spans::stmt_part_span))]
    fn span(&self) -> Span {
        match self {
            StmtPart::Function(node) => node.span(),
            StmtPart::Class(node) => node.span(),
            StmtPart::BlockStmt(node) => node.span(),
            StmtPart::Decl(node) => node.span(),
            StmtPart::ModuleDecl(node) => node.span(),
            StmtPart::VarDecl(node) => node.span(),
            StmtPart::ClassMember(node) => node.span(),
        }
    }
}

impl<N: Spanned> Spanned for JSXPart<N> {
    ghost place = { jsx_part_span N.place };

    #[tactic(auto, unfolding(crate::specs::Spans::jsx_part_span))]
    fn span(&self) -> Span {
        match self {
            JSXPart::JSXElement(node) => node.span(),
            JSXPart::JSXFragment(node) => node.span(),
            JSXPart::JSXObject(node) => node.span(),
        }
    }
}

impl<N: Spanned> Spanned for TsPart<N> {
    ghost place = { ts_part_span N.place };

    #[tactic(auto, unfolding(crate::specs::Spans::ts_part_span))]
    fn span(&self) -> Span {
        match self {
            TsPart::TsType(node) => node.span(),
            TsPart::TsNamespaceBody(node) => node.span(),
            TsPart::TsTypeAnn(node) => node.span(),
            TsPart::TsTypeParamDecl(node) => node.span(),
            TsPart::TsTypeParamInstantiation(node) => node.span(),
            TsPart::TsFnParam(node) => node.span(),
            TsPart::TsInterfaceBody(node) => node.span(),
            TsPart::TsEntityName(node) => node.span(),
        }
    }
}

impl Spanned for AnyNode {
    ghost place = { any_span };

    #[tactic(auto, using(crate::proofs::Places::any_span_expr, crate::proofs::Places::any_span_stmt, crate::proofs::Places::any_span_member_expr, crate::proofs::Places::any_span_expr_part, crate::proofs::Places::any_span_stmt_part, crate::proofs::Places::any_span_jsx_part, crate::proofs::Places::any_span_ts_part))]
    #[cycle(span)]
    fn span(&self) -> Span {
        match self {
            AnyNode::Expr(node) => node.span(),
            AnyNode::Stmt(node) => node.span(),
            AnyNode::MemberExpr(node) => node.span(),
            AnyNode::ExprPart(node) => node.span(),
            AnyNode::StmtPart(node) => node.span(),
            AnyNode::JSXPart(node) => node.span(),
            AnyNode::TsPart(node) => node.span(),
        }
    }
}
