//! Where imports and exports stand.

ghost use Rattle.swc_ecma_codegen_spans.specs.Spans.{import_specifier_span, export_specifier_span, module_export_name_span, default_decl_span};

use crate::spanned::Spanned;
use swc_ecma_codegen_common::Span;
use swc_ecma_codegen_tree::{
    DefaultDecl, ExportAll, ExportDecl, ExportDefaultDecl, ExportDefaultExpr,
    ExportDefaultSpecifier, ExportNamedSpecifier, ExportNamespaceSpecifier, ExportSpecifier,
    ImportDecl, ImportDefaultSpecifier, ImportNamedSpecifier, ImportSpecifier,
    ImportStarAsSpecifier, ModuleExportName, NamedExport,
};

impl<N> Spanned for ImportDecl<N> {
    ghost place = { λ n. n.span };

    fn span(&self) -> Span {
        self.span
    }
}

impl Spanned for ImportSpecifier {
    ghost place = { import_specifier_span };

    #[tactic(auto, unfolding(crate::specs::Spans::import_specifier_span))]
    fn span(&self) -> Span {
        match self {
            ImportSpecifier::Named(node) => node.span(),
            ImportSpecifier::Default(node) => node.span(),
            ImportSpecifier::Namespace(node) => node.span(),
        }
    }
}

impl Spanned for ImportNamedSpecifier {
    ghost place = { λ n. n.span };

    fn span(&self) -> Span {
        self.span
    }
}

impl Spanned for ImportDefaultSpecifier {
    ghost place = { λ n. n.span };

    fn span(&self) -> Span {
        self.span
    }
}

impl Spanned for ImportStarAsSpecifier {
    ghost place = { λ n. n.span };

    fn span(&self) -> Span {
        self.span
    }
}

impl<N> Spanned for ExportDecl<N> {
    ghost place = { λ n. n.span };

    fn span(&self) -> Span {
        self.span
    }
}

impl<N> Spanned for NamedExport<N> {
    ghost place = { λ n. n.span };

    fn span(&self) -> Span {
        self.span
    }
}

impl Spanned for ExportSpecifier {
    ghost place = { export_specifier_span };

    #[tactic(auto, unfolding(crate::specs::Spans::export_specifier_span))]
    fn span(&self) -> Span {
        match self {
            ExportSpecifier::Namespace(node) => node.span(),
            ExportSpecifier::Default(node) => node.span(),
            ExportSpecifier::Named(node) => node.span(),
        }
    }
}

impl Spanned for ExportNamespaceSpecifier {
    ghost place = { λ n. n.span };

    fn span(&self) -> Span {
        self.span
    }
}

impl Spanned for ExportDefaultSpecifier {
    ghost place = { λ n. n.span };

    fn span(&self) -> Span {
        self.span
    }
}

impl Spanned for ExportNamedSpecifier {
    ghost place = { λ n. n.span };

    fn span(&self) -> Span {
        self.span
    }
}

impl Spanned for ModuleExportName {
    ghost place = { module_export_name_span };

    #[tactic(auto, unfolding(crate::specs::Spans::module_export_name_span))]
    fn span(&self) -> Span {
        match self {
            ModuleExportName::Ident(node) => node.span(),
            ModuleExportName::Str(node) => node.span(),
        }
    }
}

impl<N> Spanned for ExportDefaultDecl<N> {
    ghost place = { λ n. n.span };

    fn span(&self) -> Span {
        self.span
    }
}

impl<N: Spanned> Spanned for DefaultDecl<N> {
    ghost place = { default_decl_span N.place };

    #[tactic(auto, unfolding(crate::specs::Spans::default_decl_span))]
    fn span(&self) -> Span {
        match self {
            DefaultDecl::Class(node) => node.span(),
            DefaultDecl::Fn(node) => node.span(),
            DefaultDecl::TsInterfaceDecl(node) => node.span(),
        }
    }
}

impl<N> Spanned for ExportDefaultExpr<N> {
    ghost place = { λ n. n.span };

    fn span(&self) -> Span {
        self.span
    }
}

impl<N> Spanned for ExportAll<N> {
    ghost place = { λ n. n.span };

    fn span(&self) -> Span {
        self.span
    }
}
