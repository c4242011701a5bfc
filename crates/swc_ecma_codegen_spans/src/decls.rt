//! Where declarations stand.

ghost use Rattle.swc_ecma_codegen_spans.specs.Spans.{decl_span, class_decl_span, fn_decl_span};

use crate::spanned::Spanned;
use swc_ecma_codegen_common::Span;
use swc_ecma_codegen_tree::{
    ClassDecl, Decl, Decorator, FnDecl, Function, Param, UsingDecl, VarDecl, VarDeclarator,
};

impl<N: Spanned> Spanned for Decl<N> {
    ghost place = { decl_span N.place };

    #[tactic(auto, unfolding(crate::specs::Spans::decl_span))]
    fn span(&self) -> Span {
        match self {
            Decl::Class(node) => node.span(),
            Decl::Fn(node) => node.span(),
            Decl::Var(node) => node.span(),
            Decl::Using(node) => node.span(),
            Decl::TsInterface(node) => node.span(),
            Decl::TsTypeAlias(node) => node.span(),
            Decl::TsEnum(node) => node.span(),
            Decl::TsModule(node) => node.span(),
        }
    }
}

impl<N: Spanned> Spanned for ClassDecl<N> {
    ghost place = { class_decl_span N.place };

    #[tactic(auto, unfolding(crate::specs::Spans::class_decl_span))]
    fn span(&self) -> Span {
        self.class.span()
    }
}

impl<N: Spanned> Spanned for FnDecl<N> {
    ghost place = { fn_decl_span N.place };

    #[tactic(auto, unfolding(crate::specs::Spans::fn_decl_span))]
    fn span(&self) -> Span {
        self.function.span()
    }
}

impl<N> Spanned for VarDecl<N> {
    ghost place = { λ n. n.span };

    fn span(&self) -> Span {
        self.span
    }
}

impl<N> Spanned for VarDeclarator<N> {
    ghost place = { λ n. n.span };

    fn span(&self) -> Span {
        self.span
    }
}

impl<N> Spanned for UsingDecl<N> {
    ghost place = { λ n. n.span };

    fn span(&self) -> Span {
        self.span
    }
}

impl<N> Spanned for Function<N> {
    ghost place = { λ n. n.span };

    fn span(&self) -> Span {
        self.span
    }
}

impl<N> Spanned for Param<N> {
    ghost place = { λ n. n.span };

    fn span(&self) -> Span {
        self.span
    }
}

impl<N> Spanned for Decorator<N> {
    ghost place = { λ n. n.span };

    fn span(&self) -> Span {
        self.span
    }
}
