//! Where statements stand.

ghost use Rattle.swc_ecma_codegen_spans.specs.Spans.{stmt_span, for_head_span, var_decl_or_expr_span};

use crate::spanned::Spanned;
use swc_ecma_codegen_common::Span;
use swc_ecma_codegen_tree::{
    BlockStmt, BreakStmt, CatchClause, ContinueStmt, DebuggerStmt, DoWhileStmt, EmptyStmt,
    ExprStmt, ForHead, ForInStmt, ForOfStmt, ForStmt, IfStmt, LabeledStmt, ReturnStmt, Stmt,
    SwitchCase, SwitchStmt, ThrowStmt, TryStmt, VarDeclOrExpr, WhileStmt, WithStmt,
};

impl<N: Spanned> Spanned for Stmt<N> {
    ghost place = { stmt_span N.place };

    #[tactic(auto, unfolding(crate::specs::Spans::stmt_span))]
    fn span(&self) -> Span {
        match self {
            Stmt::Block(node) => node.span(),
            Stmt::Empty(node) => node.span(),
            Stmt::Debugger(node) => node.span(),
            Stmt::With(node) => node.span(),
            Stmt::Return(node) => node.span(),
            Stmt::Labeled(node) => node.span(),
            Stmt::Break(node) => node.span(),
            Stmt::Continue(node) => node.span(),
            Stmt::If(node) => node.span(),
            Stmt::Switch(node) => node.span(),
            Stmt::Throw(node) => node.span(),
            Stmt::Try(node) => node.span(),
            Stmt::While(node) => node.span(),
            Stmt::DoWhile(node) => node.span(),
            Stmt::For(node) => node.span(),
            Stmt::ForIn(node) => node.span(),
            Stmt::ForOf(node) => node.span(),
            Stmt::Decl(node) => node.span(),
            Stmt::Expr(node) => node.span(),
        }
    }
}

impl<N> Spanned for BlockStmt<N> {
    ghost place = { λ n. n.span };

    fn span(&self) -> Span {
        self.span
    }
}

impl Spanned for EmptyStmt {
    ghost place = { λ n. n.span };

    fn span(&self) -> Span {
        self.span
    }
}

impl Spanned for DebuggerStmt {
    ghost place = { λ n. n.span };

    fn span(&self) -> Span {
        self.span
    }
}

impl<N> Spanned for ExprStmt<N> {
    ghost place = { λ n. n.span };

    fn span(&self) -> Span {
        self.span
    }
}

impl<N> Spanned for WithStmt<N> {
    ghost place = { λ n. n.span };

    fn span(&self) -> Span {
        self.span
    }
}

impl<N> Spanned for ReturnStmt<N> {
    ghost place = { λ n. n.span };

    fn span(&self) -> Span {
        self.span
    }
}

impl<N> Spanned for LabeledStmt<N> {
    ghost place = { λ n. n.span };

    fn span(&self) -> Span {
        self.span
    }
}

impl Spanned for BreakStmt {
    ghost place = { λ n. n.span };

    fn span(&self) -> Span {
        self.span
    }
}

impl Spanned for ContinueStmt {
    ghost place = { λ n. n.span };

    fn span(&self) -> Span {
        self.span
    }
}

impl<N> Spanned for IfStmt<N> {
    ghost place = { λ n. n.span };

    fn span(&self) -> Span {
        self.span
    }
}

impl<N> Spanned for SwitchStmt<N> {
    ghost place = { λ n. n.span };

    fn span(&self) -> Span {
        self.span
    }
}

impl<N> Spanned for SwitchCase<N> {
    ghost place = { λ n. n.span };

    fn span(&self) -> Span {
        self.span
    }
}

impl<N> Spanned for ThrowStmt<N> {
    ghost place = { λ n. n.span };

    fn span(&self) -> Span {
        self.span
    }
}

impl<N> Spanned for TryStmt<N> {
    ghost place = { λ n. n.span };

    fn span(&self) -> Span {
        self.span
    }
}

impl<N> Spanned for CatchClause<N> {
    ghost place = { λ n. n.span };

    fn span(&self) -> Span {
        self.span
    }
}

impl<N> Spanned for WhileStmt<N> {
    ghost place = { λ n. n.span };

    fn span(&self) -> Span {
        self.span
    }
}

impl<N> Spanned for DoWhileStmt<N> {
    ghost place = { λ n. n.span };

    fn span(&self) -> Span {
        self.span
    }
}

impl<N> Spanned for ForStmt<N> {
    ghost place = { λ n. n.span };

    fn span(&self) -> Span {
        self.span
    }
}

impl<N> Spanned for ForInStmt<N> {
    ghost place = { λ n. n.span };

    fn span(&self) -> Span {
        self.span
    }
}

impl<N> Spanned for ForOfStmt<N> {
    ghost place = { λ n. n.span };

    fn span(&self) -> Span {
        self.span
    }
}

impl<N: Spanned> Spanned for ForHead<N> {
    ghost place = { for_head_span N.place };

    #[tactic(auto, unfolding(crate::specs::Spans::for_head_span))]
    fn span(&self) -> Span {
        match self {
            ForHead::VarDecl(node) => node.span(),
            ForHead::UsingDecl(node) => node.span(),
            ForHead::Pat(node) => node.span(),
        }
    }
}

impl<N: Spanned> Spanned for VarDeclOrExpr<N> {
    ghost place = { var_decl_or_expr_span N.place };

    #[tactic(auto, unfolding(crate::specs::Spans::var_decl_or_expr_span))]
    fn span(&self) -> Span {
        match self {
            VarDeclOrExpr::VarDecl(node) => node.span(),
            VarDeclOrExpr::Expr(node) => node.span(),
        }
    }
}
