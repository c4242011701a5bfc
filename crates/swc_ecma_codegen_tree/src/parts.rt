//! What links hold besides expressions and statements, by area.
//!
//! A node that is larger than an expression is in a box of its own, so that no link takes more room than that.

use crate::classes::{Class, ClassMember};
use crate::decls::{Decl, Function, VarDecl};
use crate::exprs::{ObjectLit, OptCall, PropName, Tpl};
use crate::jsx::{JSXElement, JSXFragment, JSXObject};
use crate::links::AnyNode;
use crate::pats::{AssignTarget, Pat};
use crate::programs::ModuleDecl;
use crate::stmts::BlockStmt;
use crate::ts_decls::TsNamespaceBody;
use crate::ts_members::TsInterfaceBody;
use crate::ts_types::{
    TsEntityName, TsFnParam, TsType, TsTypeAnn, TsTypeParamDecl, TsTypeParamInstantiation,
};

/// A part of an expression or a pattern that a link can hold.
#[derive(Drop)]
pub enum ExprPart<N = AnyNode> {
    Pat(Pat<N>),
    Tpl(Tpl<N>),
    ObjectLit(ObjectLit<N>),
    PropName(PropName<N>),
    OptCall(OptCall<N>),
    AssignTarget(AssignTarget<N>),
}

/// A part of a statement, a declaration, a class or a module that a link can hold.
#[derive(Drop)]
pub enum StmtPart<N = AnyNode> {
    Function(Box<Function<N>>),
    Class(Box<Class<N>>),
    BlockStmt(BlockStmt<N>),
    Decl(Decl<N>),
    ModuleDecl(Box<ModuleDecl<N>>),
    VarDecl(VarDecl<N>),
    ClassMember(Box<ClassMember<N>>),
}

/// A part of JSX that a link can hold.
#[derive(Drop)]
pub enum JSXPart<N = AnyNode> {
    JSXElement(Box<JSXElement<N>>),
    JSXFragment(JSXFragment<N>),
    JSXObject(JSXObject<N>),
}

/// A part of TypeScript that a link can hold.
#[derive(Drop)]
pub enum TsPart<N = AnyNode> {
    TsType(TsType<N>),
    TsNamespaceBody(TsNamespaceBody<N>),
    TsTypeAnn(TsTypeAnn<N>),
    TsTypeParamDecl(TsTypeParamDecl<N>),
    TsTypeParamInstantiation(TsTypeParamInstantiation<N>),
    TsFnParam(TsFnParam<N>),
    TsInterfaceBody(TsInterfaceBody<N>),
    TsEntityName(TsEntityName<N>),
}
