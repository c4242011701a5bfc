//! Links by their sorts: each is an empty type, which says what a link to it holds.

ghost use Rattle.std.specs.Prelude.{◌≡◌, Option, refl};
ghost use Rattle.std.specs.Option.{option_and_then};
ghost use Rattle.std.proofs.Common.{rules};
ghost use Rattle.swc_ecma_codegen_tree.specs.LinkTargets.{pat_in, tpl_in, object_lit_in, prop_name_in, opt_call_in, assign_target_in, function_in, class_in, block_stmt_in, decl_in, module_decl_in, var_decl_in, class_member_in, jsx_element_in, jsx_fragment_in, jsx_object_in, ts_type_in, ts_namespace_body_in, ts_type_ann_in, ts_type_param_decl_in, ts_type_param_instantiation_in, ts_fn_param_in, ts_interface_body_in, ts_entity_name_in};

use crate::classes::{Class, ClassMember};
use crate::decls::{Decl, Function, VarDecl};
use crate::exprs::{Expr, MemberExpr, ObjectLit, OptCall, PropName, Tpl};
use crate::holds::Holds;
use crate::jsx::{JSXElement, JSXFragment, JSXObject};
use crate::links::{AnyNode, Link};
use crate::parts::{ExprPart, JSXPart, StmtPart, TsPart};
use crate::pats::{AssignTarget, Pat};
use crate::programs::ModuleDecl;
use crate::stmts::{BlockStmt, Stmt};
use crate::ts_decls::TsNamespaceBody;
use crate::ts_members::TsInterfaceBody;
use crate::ts_types::{
    TsEntityName, TsFnParam, TsType, TsTypeAnn, TsTypeParamDecl, TsTypeParamInstantiation,
};

/// What a link is to, in a tree whose links hold `N`: `ToPat` of a link to a pattern.
pub trait LinkSort<N>: Sized {
    /// The node that is linked to.
    type Node;

    /// What is held of it: the sum of its area, or where it has none, the node.
    type Part: Holds<Self::Node> + Drop;

    /// How the node stands in what is held: `Itself` or `InPart`.
    type Way;

    /// The node, of the part that is held.
    ghost linked: { Option Self.Part → Option Self.Node };

    ghost linked_is_held: { (part : Option Self.Part) → linked part ≡ option_and_then Self.Part.node_in part };
}

/// The way of a node that is what a link holds, as an expression is.
pub enum Itself {}

/// The way of a node that stands in a part of its area, as a pattern does in an `ExprPart`.
pub enum InPart {}

/// A link to an expression, as `Box<Expr>` in swc.
pub type ExprBox<N = AnyNode> = Link<ToExpr, N>;

/// To an expression.
pub enum ToExpr {}

impl<N: Drop> LinkSort<N> for ToExpr {
    type Node = Expr<N>;

    type Part = Expr<N>;

    type Way = Itself;

    ghost linked = { λ part. part };

    ghost linked_is_held = { Prim.search rules };
}

/// A link to a pattern, as `Box<Pat>` in swc.
pub type PatBox<N = AnyNode> = Link<ToPat, N>;

/// To a pattern.
pub enum ToPat {}

impl<N: Drop> LinkSort<N> for ToPat {
    type Node = Pat<N>;

    type Part = ExprPart<N>;

    type Way = InPart;

    ghost linked = { option_and_then pat_in };

    ghost linked_is_held = { λ part. refl };
}

/// A link to a template, as `Box<Tpl>` in swc.
pub type TplBox<N = AnyNode> = Link<ToTpl, N>;

/// To a template.
pub enum ToTpl {}

impl<N: Drop> LinkSort<N> for ToTpl {
    type Node = Tpl<N>;

    type Part = ExprPart<N>;

    type Way = InPart;

    ghost linked = { option_and_then tpl_in };

    ghost linked_is_held = { λ part. refl };
}

/// A link to an object literal, as `Box<ObjectLit>` in swc.
pub type ObjectLitBox<N = AnyNode> = Link<ToObjectLit, N>;

/// To an object literal.
pub enum ToObjectLit {}

impl<N: Drop> LinkSort<N> for ToObjectLit {
    type Node = ObjectLit<N>;

    type Part = ExprPart<N>;

    type Way = InPart;

    ghost linked = { option_and_then object_lit_in };

    ghost linked_is_held = { λ part. refl };
}

/// A link to a property's name, as `Box<PropName>` in swc.
pub type PropNameBox<N = AnyNode> = Link<ToPropName, N>;

/// To a property's name.
pub enum ToPropName {}

impl<N: Drop> LinkSort<N> for ToPropName {
    type Node = PropName<N>;

    type Part = ExprPart<N>;

    type Way = InPart;

    ghost linked = { option_and_then prop_name_in };

    ghost linked_is_held = { λ part. refl };
}

/// A link to a member expression, as `Box<MemberExpr>` in swc.
pub type MemberExprBox<N = AnyNode> = Link<ToMemberExpr, N>;

/// To a member expression.
pub enum ToMemberExpr {}

impl<N: Drop> LinkSort<N> for ToMemberExpr {
    type Node = MemberExpr<N>;

    type Part = MemberExpr<N>;

    type Way = Itself;

    ghost linked = { λ part. part };

    ghost linked_is_held = { Prim.search rules };
}

/// A link to an optional call, as `Box<OptCall>` in swc.
pub type OptCallBox<N = AnyNode> = Link<ToOptCall, N>;

/// To an optional call.
pub enum ToOptCall {}

impl<N: Drop> LinkSort<N> for ToOptCall {
    type Node = OptCall<N>;

    type Part = ExprPart<N>;

    type Way = InPart;

    ghost linked = { option_and_then opt_call_in };

    ghost linked_is_held = { λ part. refl };
}

/// A link to what is assigned to, as `Box<AssignTarget>` in swc.
pub type AssignTargetBox<N = AnyNode> = Link<ToAssignTarget, N>;

/// To what is assigned to.
pub enum ToAssignTarget {}

impl<N: Drop> LinkSort<N> for ToAssignTarget {
    type Node = AssignTarget<N>;

    type Part = ExprPart<N>;

    type Way = InPart;

    ghost linked = { option_and_then assign_target_in };

    ghost linked_is_held = { λ part. refl };
}

/// A link to a statement, as `Box<Stmt>` in swc.
pub type StmtBox<N = AnyNode> = Link<ToStmt, N>;

/// To a statement.
pub enum ToStmt {}

impl<N: Drop> LinkSort<N> for ToStmt {
    type Node = Stmt<N>;

    type Part = Stmt<N>;

    type Way = Itself;

    ghost linked = { λ part. part };

    ghost linked_is_held = { Prim.search rules };
}

/// A link to a function, as `Box<Function>` in swc.
pub type FunctionBox<N = AnyNode> = Link<ToFunction, N>;

/// To a function.
pub enum ToFunction {}

impl<N: Drop> LinkSort<N> for ToFunction {
    type Node = Function<N>;

    type Part = StmtPart<N>;

    type Way = InPart;

    ghost linked = { option_and_then function_in };

    ghost linked_is_held = { λ part. refl };
}

/// A link to a class, as `Box<Class>` in swc.
pub type ClassBox<N = AnyNode> = Link<ToClass, N>;

/// To a class.
pub enum ToClass {}

impl<N: Drop> LinkSort<N> for ToClass {
    type Node = Class<N>;

    type Part = StmtPart<N>;

    type Way = InPart;

    ghost linked = { option_and_then class_in };

    ghost linked_is_held = { λ part. refl };
}

/// A link to a block, as `Box<BlockStmt>` in swc.
pub type BlockStmtBox<N = AnyNode> = Link<ToBlockStmt, N>;

/// To a block.
pub enum ToBlockStmt {}

impl<N: Drop> LinkSort<N> for ToBlockStmt {
    type Node = BlockStmt<N>;

    type Part = StmtPart<N>;

    type Way = InPart;

    ghost linked = { option_and_then block_stmt_in };

    ghost linked_is_held = { λ part. refl };
}

/// A link to a declaration, as `Box<Decl>` in swc.
pub type DeclBox<N = AnyNode> = Link<ToDecl, N>;

/// To a declaration.
pub enum ToDecl {}

impl<N: Drop> LinkSort<N> for ToDecl {
    type Node = Decl<N>;

    type Part = StmtPart<N>;

    type Way = InPart;

    ghost linked = { option_and_then decl_in };

    ghost linked_is_held = { λ part. refl };
}

/// A link to an import or export, as `Box<ModuleDecl>` in swc.
pub type ModuleDeclBox<N = AnyNode> = Link<ToModuleDecl, N>;

/// To an import or export.
pub enum ToModuleDecl {}

impl<N: Drop> LinkSort<N> for ToModuleDecl {
    type Node = ModuleDecl<N>;

    type Part = StmtPart<N>;

    type Way = InPart;

    ghost linked = { option_and_then module_decl_in };

    ghost linked_is_held = { λ part. refl };
}

/// A link to a declaration of variables, as `Box<VarDecl>` in swc.
pub type VarDeclBox<N = AnyNode> = Link<ToVarDecl, N>;

/// To a declaration of variables.
pub enum ToVarDecl {}

impl<N: Drop> LinkSort<N> for ToVarDecl {
    type Node = VarDecl<N>;

    type Part = StmtPart<N>;

    type Way = InPart;

    ghost linked = { option_and_then var_decl_in };

    ghost linked_is_held = { λ part. refl };
}

/// A link to a member of a class, as `Box<ClassMember>` in swc.
pub type ClassMemberBox<N = AnyNode> = Link<ToClassMember, N>;

/// To a member of a class.
pub enum ToClassMember {}

impl<N: Drop> LinkSort<N> for ToClassMember {
    type Node = ClassMember<N>;

    type Part = StmtPart<N>;

    type Way = InPart;

    ghost linked = { option_and_then class_member_in };

    ghost linked_is_held = { λ part. refl };
}

/// A link to an element, as `Box<JSXElement>` in swc.
pub type JSXElementBox<N = AnyNode> = Link<ToJSXElement, N>;

/// To an element.
pub enum ToJSXElement {}

impl<N: Drop> LinkSort<N> for ToJSXElement {
    type Node = JSXElement<N>;

    type Part = JSXPart<N>;

    type Way = InPart;

    ghost linked = { option_and_then jsx_element_in };

    ghost linked_is_held = { λ part. refl };
}

/// A link to a fragment, as `Box<JSXFragment>` in swc.
pub type JSXFragmentBox<N = AnyNode> = Link<ToJSXFragment, N>;

/// To a fragment.
pub enum ToJSXFragment {}

impl<N: Drop> LinkSort<N> for ToJSXFragment {
    type Node = JSXFragment<N>;

    type Part = JSXPart<N>;

    type Way = InPart;

    ghost linked = { option_and_then jsx_fragment_in };

    ghost linked_is_held = { λ part. refl };
}

/// A link to the object of a name of JSX, as `Box<JSXObject>` in swc.
pub type JSXObjectBox<N = AnyNode> = Link<ToJSXObject, N>;

/// To the object of a name of JSX.
pub enum ToJSXObject {}

impl<N: Drop> LinkSort<N> for ToJSXObject {
    type Node = JSXObject<N>;

    type Part = JSXPart<N>;

    type Way = InPart;

    ghost linked = { option_and_then jsx_object_in };

    ghost linked_is_held = { λ part. refl };
}

/// A link to a type, as `Box<TsType>` in swc.
pub type TsTypeBox<N = AnyNode> = Link<ToTsType, N>;

/// To a type.
pub enum ToTsType {}

impl<N: Drop> LinkSort<N> for ToTsType {
    type Node = TsType<N>;

    type Part = TsPart<N>;

    type Way = InPart;

    ghost linked = { option_and_then ts_type_in };

    ghost linked_is_held = { λ part. refl };
}

/// A link to a namespace's body, as `Box<TsNamespaceBody>` in swc.
pub type TsNamespaceBodyBox<N = AnyNode> = Link<ToTsNamespaceBody, N>;

/// To a namespace's body.
pub enum ToTsNamespaceBody {}

impl<N: Drop> LinkSort<N> for ToTsNamespaceBody {
    type Node = TsNamespaceBody<N>;

    type Part = TsPart<N>;

    type Way = InPart;

    ghost linked = { option_and_then ts_namespace_body_in };

    ghost linked_is_held = { λ part. refl };
}

/// A link to a type annotation, as `Box<TsTypeAnn>` in swc.
pub type TsTypeAnnBox<N = AnyNode> = Link<ToTsTypeAnn, N>;

/// To a type annotation.
pub enum ToTsTypeAnn {}

impl<N: Drop> LinkSort<N> for ToTsTypeAnn {
    type Node = TsTypeAnn<N>;

    type Part = TsPart<N>;

    type Way = InPart;

    ghost linked = { option_and_then ts_type_ann_in };

    ghost linked_is_held = { λ part. refl };
}

/// A link to type parameters, as `Box<TsTypeParamDecl>` in swc.
pub type TsTypeParamDeclBox<N = AnyNode> = Link<ToTsTypeParamDecl, N>;

/// To type parameters.
pub enum ToTsTypeParamDecl {}

impl<N: Drop> LinkSort<N> for ToTsTypeParamDecl {
    type Node = TsTypeParamDecl<N>;

    type Part = TsPart<N>;

    type Way = InPart;

    ghost linked = { option_and_then ts_type_param_decl_in };

    ghost linked_is_held = { λ part. refl };
}

/// A link to type arguments, as `Box<TsTypeParamInstantiation>` in swc.
pub type TsTypeParamInstantiationBox<N = AnyNode> = Link<ToTsTypeParamInstantiation, N>;

/// To type arguments.
pub enum ToTsTypeParamInstantiation {}

impl<N: Drop> LinkSort<N> for ToTsTypeParamInstantiation {
    type Node = TsTypeParamInstantiation<N>;

    type Part = TsPart<N>;

    type Way = InPart;

    ghost linked = { option_and_then ts_type_param_instantiation_in };

    ghost linked_is_held = { λ part. refl };
}

/// A link to a parameter of a function type, as `Box<TsFnParam>` in swc.
pub type TsFnParamBox<N = AnyNode> = Link<ToTsFnParam, N>;

/// To a parameter of a function type.
pub enum ToTsFnParam {}

impl<N: Drop> LinkSort<N> for ToTsFnParam {
    type Node = TsFnParam<N>;

    type Part = TsPart<N>;

    type Way = InPart;

    ghost linked = { option_and_then ts_fn_param_in };

    ghost linked_is_held = { λ part. refl };
}

/// A link to the body of an interface, as `Box<TsInterfaceBody>` in swc.
pub type TsInterfaceBodyBox<N = AnyNode> = Link<ToTsInterfaceBody, N>;

/// To the body of an interface.
pub enum ToTsInterfaceBody {}

impl<N: Drop> LinkSort<N> for ToTsInterfaceBody {
    type Node = TsInterfaceBody<N>;

    type Part = TsPart<N>;

    type Way = InPart;

    ghost linked = { option_and_then ts_interface_body_in };

    ghost linked_is_held = { λ part. refl };
}

/// A link to a qualified name of TypeScript, as `Box<TsEntityName>` in swc.
pub type TsEntityNameBox<N = AnyNode> = Link<ToTsEntityName, N>;

/// To a qualified name of TypeScript.
pub enum ToTsEntityName {}

impl<N: Drop> LinkSort<N> for ToTsEntityName {
    type Node = TsEntityName<N>;

    type Part = TsPart<N>;

    type Way = InPart;

    ghost linked = { option_and_then ts_entity_name_in };

    ghost linked_is_held = { λ part. refl };
}
