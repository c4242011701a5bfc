//! Where programs stand.

ghost use Rattle.swc_ecma_codegen_spans.specs.Spans.{program_span, module_item_span, module_decl_span};

use crate::spanned::Spanned;
use swc_ecma_codegen_common::Span;
use swc_ecma_codegen_tree::{Module, ModuleDecl, ModuleItem, Program, Script};

impl<N> Spanned for Program<N> {
    ghost place = { program_span };

    #[tactic(auto, unfolding(crate::specs::Spans::program_span))]
    fn span(&self) -> Span {
        match self {
            Program::Module(node) => node.span(),
            Program::Script(node) => node.span(),
        }
    }
}

impl<N> Spanned for Module<N> {
    ghost place = { λ n. n.span };

    fn span(&self) -> Span {
        self.span
    }
}

impl<N> Spanned for Script<N> {
    ghost place = { λ n. n.span };

    fn span(&self) -> Span {
        self.span
    }
}

impl<N: Spanned> Spanned for ModuleItem<N> {
    ghost place = { module_item_span N.place };

    #[tactic(auto, unfolding(crate::specs::Spans::module_item_span))]
    fn span(&self) -> Span {
        match self {
            ModuleItem::ModuleDecl(node) => node.span(),
            ModuleItem::Stmt(node) => node.span(),
        }
    }
}

impl<N> Spanned for ModuleDecl<N> {
    ghost place = { module_decl_span };

    #[tactic(auto, unfolding(crate::specs::Spans::module_decl_span))]
    fn span(&self) -> Span {
        match self {
            ModuleDecl::Import(node) => node.span(),
            ModuleDecl::ExportDecl(node) => node.span(),
            ModuleDecl::ExportNamed(node) => node.span(),
            ModuleDecl::ExportDefaultDecl(node) => node.span(),
            ModuleDecl::ExportDefaultExpr(node) => node.span(),
            ModuleDecl::ExportAll(node) => node.span(),
            ModuleDecl::TsImportEquals(node) => node.span(),
            ModuleDecl::TsExportAssignment(node) => node.span(),
            ModuleDecl::TsNamespaceExport(node) => node.span(),
        }
    }
}
