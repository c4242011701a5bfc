//! Links and names of what stands in the sums of sorts. Made by scripts/dev/make-visit-files.

ghost use Rattle.swc_ecma_codegen_visit.specs.MappedParts.{map_expr_part, map_stmt_part};
ghost use Rattle.swc_ecma_codegen_visit.specs.MappedParts.{map_jsx_part, map_ts_part};

use crate::below::{Below, Links, Stop};
use swc_ecma_codegen_tree::{ExprPart, JSXPart, StmtPart, TsPart};

impl<N> Links<N> for ExprPart<N> {
    ghost mapped = { map_expr_part };

    fn links_mut<C, B: Below<N, C>>(&mut self, below: &B, change: &mut C) -> Result<(), Stop> {
        match self {
            ExprPart::Pat(node) => node.links_mut(below, change),
            ExprPart::Tpl(node) => node.links_mut(below, change),
            ExprPart::ObjectLit(node) => node.links_mut(below, change),
            ExprPart::PropName(node) => node.links_mut(below, change),
            ExprPart::OptCall(node) => node.links_mut(below, change),
            ExprPart::AssignTarget(node) => node.links_mut(below, change),
        }
    }
}

impl<N> Links<N> for StmtPart<N> {
    ghost mapped = { map_stmt_part };

    fn links_mut<C, B: Below<N, C>>(&mut self, below: &B, change: &mut C) -> Result<(), Stop> {
        match self {
            StmtPart::Function(node) => node.links_mut(below, change),
            StmtPart::Class(node) => node.links_mut(below, change),
            StmtPart::BlockStmt(node) => node.links_mut(below, change),
            StmtPart::Decl(node) => node.links_mut(below, change),
            StmtPart::ModuleDecl(node) => node.links_mut(below, change),
            StmtPart::VarDecl(node) => node.links_mut(below, change),
            StmtPart::ClassMember(node) => node.links_mut(below, change),
        }
    }
}

impl<N> Links<N> for JSXPart<N> {
    ghost mapped = { map_jsx_part };

    fn links_mut<C, B: Below<N, C>>(&mut self, below: &B, change: &mut C) -> Result<(), Stop> {
        match self {
            JSXPart::JSXElement(node) => node.links_mut(below, change),
            JSXPart::JSXFragment(node) => node.links_mut(below, change),
            JSXPart::JSXObject(node) => node.links_mut(below, change),
        }
    }
}

impl<N> Links<N> for TsPart<N> {
    ghost mapped = { map_ts_part };

    fn links_mut<C, B: Below<N, C>>(&mut self, below: &B, change: &mut C) -> Result<(), Stop> {
        match self {
            TsPart::TsType(node) => node.links_mut(below, change),
            TsPart::TsNamespaceBody(node) => node.links_mut(below, change),
            TsPart::TsTypeAnn(node) => node.links_mut(below, change),
            TsPart::TsTypeParamDecl(node) => node.links_mut(below, change),
            TsPart::TsTypeParamInstantiation(node) => node.links_mut(below, change),
            TsPart::TsFnParam(node) => node.links_mut(below, change),
            TsPart::TsInterfaceBody(node) => node.links_mut(below, change),
            TsPart::TsEntityName(node) => node.links_mut(below, change),
        }
    }
}
