//! Links. What one holds is made by `make`, which is told its sort.

use crate::reading::{
    ExprPartSort, JSXPartSort, Make, ReadFrom, Sort, StmtPartSort, TsPartSort, Whole,
};
use crate::source::{Failed, Fault, Source};
use swc_ecma_codegen_tree::{
    Link, ToAssignTarget, ToBlockStmt, ToClass, ToClassMember, ToDecl, ToExpr, ToFunction,
    ToJSXElement, ToJSXFragment, ToJSXObject, ToMemberExpr, ToModuleDecl, ToObjectLit, ToOptCall,
    ToPat, ToPropName, ToStmt, ToTpl, ToTsEntityName, ToTsFnParam, ToTsInterfaceBody,
    ToTsNamespaceBody, ToTsType, ToTsTypeAnn, ToTsTypeParamDecl, ToTsTypeParamInstantiation,
    ToVarDecl,
};

/// What a link is to, as what makes that knows it.
pub trait ReadSort {
    const SORT: Sort;
}

impl<K: ReadSort, N: Drop> ReadFrom<N> for Link<K, N> {
    type Parts = Whole;

    #[inline(always)]
    fn of<S: Source, M: Make<N>>(
        _whole: Whole,
        source: &mut S,
        make: &M,
    ) -> Result<Link<K, N>, Failed> {
        let node = make.make(K::SORT, source)?;
        match Link::holding(source.alloc(), node) {
            Ok(link) => Ok(link),
            Err(_) => Err(source.fail(Fault::NoMemory)),
        }
    }
}

impl ReadSort for ToExpr {
    const SORT: Sort = Sort::Expr;
}

impl ReadSort for ToPat {
    const SORT: Sort = Sort::ExprPart(ExprPartSort::Pat);
}

impl ReadSort for ToTpl {
    const SORT: Sort = Sort::ExprPart(ExprPartSort::Tpl);
}

impl ReadSort for ToObjectLit {
    const SORT: Sort = Sort::ExprPart(ExprPartSort::ObjectLit);
}

impl ReadSort for ToPropName {
    const SORT: Sort = Sort::ExprPart(ExprPartSort::PropName);
}

impl ReadSort for ToMemberExpr {
    const SORT: Sort = Sort::MemberExpr;
}

impl ReadSort for ToOptCall {
    const SORT: Sort = Sort::ExprPart(ExprPartSort::OptCall);
}

impl ReadSort for ToAssignTarget {
    const SORT: Sort = Sort::ExprPart(ExprPartSort::AssignTarget);
}

impl ReadSort for ToStmt {
    const SORT: Sort = Sort::Stmt;
}

impl ReadSort for ToFunction {
    const SORT: Sort = Sort::StmtPart(StmtPartSort::Function);
}

impl ReadSort for ToClass {
    const SORT: Sort = Sort::StmtPart(StmtPartSort::Class);
}

impl ReadSort for ToBlockStmt {
    const SORT: Sort = Sort::StmtPart(StmtPartSort::BlockStmt);
}

impl ReadSort for ToDecl {
    const SORT: Sort = Sort::StmtPart(StmtPartSort::Decl);
}

impl ReadSort for ToModuleDecl {
    const SORT: Sort = Sort::StmtPart(StmtPartSort::ModuleDecl);
}

impl ReadSort for ToVarDecl {
    const SORT: Sort = Sort::StmtPart(StmtPartSort::VarDecl);
}

impl ReadSort for ToClassMember {
    const SORT: Sort = Sort::StmtPart(StmtPartSort::ClassMember);
}

impl ReadSort for ToJSXElement {
    const SORT: Sort = Sort::JSXPart(JSXPartSort::JSXElement);
}

impl ReadSort for ToJSXFragment {
    const SORT: Sort = Sort::JSXPart(JSXPartSort::JSXFragment);
}

impl ReadSort for ToJSXObject {
    const SORT: Sort = Sort::JSXPart(JSXPartSort::JSXObject);
}

impl ReadSort for ToTsType {
    const SORT: Sort = Sort::TsPart(TsPartSort::TsType);
}

impl ReadSort for ToTsNamespaceBody {
    const SORT: Sort = Sort::TsPart(TsPartSort::TsNamespaceBody);
}

impl ReadSort for ToTsTypeAnn {
    const SORT: Sort = Sort::TsPart(TsPartSort::TsTypeAnn);
}

impl ReadSort for ToTsTypeParamDecl {
    const SORT: Sort = Sort::TsPart(TsPartSort::TsTypeParamDecl);
}

impl ReadSort for ToTsTypeParamInstantiation {
    const SORT: Sort = Sort::TsPart(TsPartSort::TsTypeParamInstantiation);
}

impl ReadSort for ToTsFnParam {
    const SORT: Sort = Sort::TsPart(TsPartSort::TsFnParam);
}

impl ReadSort for ToTsInterfaceBody {
    const SORT: Sort = Sort::TsPart(TsPartSort::TsInterfaceBody);
}

impl ReadSort for ToTsEntityName {
    const SORT: Sort = Sort::TsPart(TsPartSort::TsEntityName);
}
