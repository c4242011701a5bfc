//! Where declarations of TypeScript stand.

ghost use Rattle.swc_ecma_codegen_spans.specs.Spans.{ts_enum_member_id_span, ts_module_name_span, ts_namespace_body_span, ts_module_ref_span};

use crate::spanned::Spanned;
use swc_ecma_codegen_common::Span;
use swc_ecma_codegen_tree::{
    TsEnumDecl, TsEnumMember, TsEnumMemberId, TsExportAssignment, TsExprWithTypeArgs,
    TsExternalModuleRef, TsImportEqualsDecl, TsInterfaceDecl, TsModuleBlock, TsModuleDecl,
    TsModuleName, TsModuleRef, TsNamespaceBody, TsNamespaceDecl, TsNamespaceExportDecl,
    TsTypeAliasDecl,
};

impl<N> Spanned for TsInterfaceDecl<N> {
    ghost place = { λ n. n.span };

    fn span(&self) -> Span {
        self.span
    }
}

impl<N> Spanned for TsExprWithTypeArgs<N> {
    ghost place = { λ n. n.span };

    fn span(&self) -> Span {
        self.span
    }
}

impl<N> Spanned for TsTypeAliasDecl<N> {
    ghost place = { λ n. n.span };

    fn span(&self) -> Span {
        self.span
    }
}

impl<N> Spanned for TsEnumDecl<N> {
    ghost place = { λ n. n.span };

    fn span(&self) -> Span {
        self.span
    }
}

impl<N> Spanned for TsEnumMember<N> {
    ghost place = { λ n. n.span };

    fn span(&self) -> Span {
        self.span
    }
}

impl Spanned for TsEnumMemberId {
    ghost place = { ts_enum_member_id_span };

    #[tactic(auto, unfolding(crate::specs::Spans::ts_enum_member_id_span))]
    fn span(&self) -> Span {
        match self {
            TsEnumMemberId::Ident(node) => node.span(),
            TsEnumMemberId::Str(node) => node.span(),
        }
    }
}

impl<N> Spanned for TsModuleDecl<N> {
    ghost place = { λ n. n.span };

    fn span(&self) -> Span {
        self.span
    }
}

impl Spanned for TsModuleName {
    ghost place = { ts_module_name_span };

    #[tactic(auto, unfolding(crate::specs::Spans::ts_module_name_span))]
    fn span(&self) -> Span {
        match self {
            TsModuleName::Ident(node) => node.span(),
            TsModuleName::Str(node) => node.span(),
        }
    }
}

impl<N> Spanned for TsNamespaceBody<N> {
    ghost place = { ts_namespace_body_span };

    #[tactic(auto, unfolding(crate::specs::Spans::ts_namespace_body_span))]
    fn span(&self) -> Span {
        match self {
            TsNamespaceBody::TsModuleBlock(node) => node.span(),
            TsNamespaceBody::TsNamespaceDecl(node) => node.span(),
        }
    }
}

impl<N> Spanned for TsModuleBlock<N> {
    ghost place = { λ n. n.span };

    fn span(&self) -> Span {
        self.span
    }
}

impl<N> Spanned for TsNamespaceDecl<N> {
    ghost place = { λ n. n.span };

    fn span(&self) -> Span {
        self.span
    }
}

impl<N> Spanned for TsImportEqualsDecl<N> {
    ghost place = { λ n. n.span };

    fn span(&self) -> Span {
        self.span
    }
}

impl<N: Spanned> Spanned for TsModuleRef<N> {
    ghost place = { ts_module_ref_span N.place };

    #[tactic(auto, unfolding(crate::specs::Spans::ts_module_ref_span))]
    fn span(&self) -> Span {
        match self {
            TsModuleRef::TsEntityName(node) => node.span(),
            TsModuleRef::TsExternalModuleRef(node) => node.span(),
        }
    }
}

impl Spanned for TsExternalModuleRef {
    ghost place = { λ n. n.span };

    fn span(&self) -> Span {
        self.span
    }
}

impl<N> Spanned for TsExportAssignment<N> {
    ghost place = { λ n. n.span };

    fn span(&self) -> Span {
        self.span
    }
}

impl Spanned for TsNamespaceExportDecl {
    ghost place = { λ n. n.span };

    fn span(&self) -> Span {
        self.span
    }
}
