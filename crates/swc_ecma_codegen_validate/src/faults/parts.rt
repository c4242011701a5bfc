//! What links hold, in their roles.

ghost use Rattle.std.specs.Prelude.{IfOk};
ghost use Rattle.swc_ecma_codegen_validate.specs.Rules.{findings, Finds};
ghost use Rattle.swc_ecma_codegen_validate.specs.TreeRules.{expr_part, stmt_part, jsx_part, ts_part, expr_in_role, stmt_in_role, member_in_role, found_in};

use crate::faults::decls::{accessor_fault, method_fault};
use crate::faults::exprs::template_fault;
use crate::faults::stmts::{exported_head_fault, exported_tail_fault};
use crate::faults::ts::dotted_fault;
use crate::faults::{FaultIn, FindsFault, Found, not_here, within};
use std::alloc::Global;
use swc_ecma_codegen_grammar::roles::Role;
use swc_ecma_codegen_tree::{AnyNode, Expr, ExprPart, JSXPart, MemberExpr, Stmt, StmtPart, TsPart};

#[tactic(auto, unfolding(crate::specs::TreeRules::expr_part, crate::specs::Rules::findings))]
fn expr_part_fault<N: FaultIn>(alloc: Global, part: &ExprPart<N>, role: Role) -> Found
    ensures { IfOk result (Finds (findings N.found_as (expr_part part.now role))) }
{
    match (part, role) {
        (ExprPart::Pat(node), Role::Pattern) => node.fault(alloc),
        (ExprPart::Tpl(node), Role::Template) => template_fault(alloc, false, node),
        (ExprPart::Tpl(node), Role::TaggedTemplate) => template_fault(alloc, true, node),
        (ExprPart::ObjectLit(node), Role::ObjectLiteral) => node.fault(alloc),
        (ExprPart::PropName(node), Role::PropertyName) => node.fault(alloc),
        (ExprPart::OptCall(node), Role::ChainCall(_)) => node.fault(alloc),
        (ExprPart::AssignTarget(node), Role::AssignmentTarget) => node.fault(alloc),
        _ => not_here(alloc),
    }
}

#[tactic(auto, unfolding(crate::specs::TreeRules::stmt_part, crate::specs::DeclRules::method_decorators, crate::specs::DeclRules::class_head, crate::specs::Rules::findings))]
fn stmt_part_fault<N: FaultIn>(alloc: Global, part: &StmtPart<N>, role: Role) -> Found
    ensures { IfOk result (Finds (findings N.found_as (stmt_part part.now role))) }
{
    match (part, role) {
        (StmtPart::Function(node), Role::Function) => node.fault(alloc),
        (StmtPart::Function(_), Role::FunctionHead | Role::MethodHead) => Ok(None),
        (StmtPart::Function(node), Role::MethodDecorators) => within!(node, alloc; decorators),
        (StmtPart::Function(node), Role::MethodTail) => method_fault(alloc, node),
        (StmtPart::Function(node), Role::AccessorTail) => accessor_fault(alloc, node),
        (StmtPart::Class(node), Role::ClassHead) => within!(node, alloc; decorators),
        (StmtPart::Class(_), Role::ClassWord) => Ok(None),
        (StmtPart::Class(node), Role::ClassTail) => node.fault(alloc),
        (StmtPart::ClassMember(node), Role::Member) => node.fault(alloc),
        (StmtPart::BlockStmt(node), Role::Block) => node.fault(alloc),
        (StmtPart::Decl(node), Role::Declaration) => node.fault(alloc),
        (StmtPart::Decl(node), Role::ExportedHead) => exported_head_fault(alloc, node),
        (StmtPart::Decl(node), Role::ExportedTail) => exported_tail_fault(alloc, node),
        (StmtPart::ModuleDecl(node), Role::ModuleDeclaration) => node.fault(alloc),
        (StmtPart::VarDecl(node), Role::VariableDeclaration) => node.fault(alloc),
        _ => not_here(alloc),
    }
}

#[tactic(auto, unfolding(crate::specs::TreeRules::jsx_part, crate::specs::Rules::findings))]
fn jsx_part_fault<N: FaultIn>(alloc: Global, part: &JSXPart<N>, role: Role) -> Found
    ensures { IfOk result (Finds (findings N.found_as (jsx_part part.now role))) }
{
    match (part, role) {
        (JSXPart::JSXElement(node), Role::Element | Role::Child) => node.fault(alloc),
        (JSXPart::JSXFragment(node), Role::Element | Role::Child) => node.fault(alloc),
        (JSXPart::JSXObject(node), Role::TagObject) => node.fault(alloc),
        _ => not_here(alloc),
    }
}

#[tactic(auto, unfolding(crate::specs::TreeRules::ts_part, crate::specs::Rules::findings))]
fn ts_part_fault<N: FaultIn>(alloc: Global, part: &TsPart<N>, role: Role) -> Found
    ensures { IfOk result (Finds (findings N.found_as (ts_part part.now role))) }
{
    match (part, role) {
        (TsPart::TsType(node), Role::AnyType) => node.fault(alloc),
        (TsPart::TsTypeAnn(node), Role::Annotation) => node.fault(alloc),
        (TsPart::TsTypeParamDecl(node), Role::TypeParameters) => node.fault(alloc),
        (TsPart::TsTypeParamInstantiation(node), Role::TypeArguments) => node.fault(alloc),
        (TsPart::TsFnParam(node), Role::SignatureParameter) => node.fault(alloc),
        (TsPart::TsInterfaceBody(node), Role::InterfaceBody) => node.fault(alloc),
        (TsPart::TsEntityName(node), Role::EntityName) => node.fault(alloc),
        (TsPart::TsNamespaceBody(node), Role::NamespaceBody) => node.fault(alloc),
        (TsPart::TsNamespaceBody(node), Role::DottedBody) => dotted_fault(alloc, node),
        _ => not_here(alloc),
    }
}

/// What is wrong with an expression in this role.
#[tactic(auto, unfolding(crate::specs::TreeRules::expr_in_role, crate::specs::Rules::findings))]
fn expr_fault<N: FaultIn>(alloc: Global, node: &Expr<N>, role: Role) -> Found
    ensures { IfOk result (Finds (findings N.found_as (expr_in_role node.now role))) }
{
    match role {
        Role::Expression | Role::Callee | Role::FieldValue => node.fault(alloc),
        _ => not_here(alloc),
    }
}

/// What is wrong with a statement in this role.
#[tactic(auto, unfolding(crate::specs::TreeRules::stmt_in_role, crate::specs::Rules::findings))]
fn stmt_fault<N: FaultIn>(alloc: Global, node: &Stmt<N>, role: Role) -> Found
    ensures { IfOk result (Finds (findings N.found_as (stmt_in_role node.now role))) }
{
    match role {
        Role::Statement => node.fault(alloc),
        _ => not_here(alloc),
    }
}

/// What is wrong with `a.b` in this role.
#[tactic(auto, unfolding(crate::specs::TreeRules::member_in_role, crate::specs::Rules::findings))]
fn member_fault<N: FaultIn>(alloc: Global, node: &MemberExpr<N>, role: Role) -> Found
    ensures { IfOk result (Finds (findings N.found_as (member_in_role node.now role))) }
{
    match role {
        Role::MemberExpression | Role::ChainMember(_) => node.fault(alloc),
        _ => not_here(alloc),
    }
}

impl FaultIn for AnyNode {
    ghost found_as = { found_in };

    fn fault_as(&self, role: Role, alloc: Global) -> Found {
        match self {
            AnyNode::Expr(node) => expr_fault(alloc, node, role),
            AnyNode::Stmt(node) => stmt_fault(alloc, node, role),
            AnyNode::MemberExpr(node) => member_fault(alloc, node, role),
            AnyNode::ExprPart(node) => expr_part_fault(alloc, node, role),
            AnyNode::StmtPart(node) => stmt_part_fault(alloc, node, role),
            AnyNode::JSXPart(node) => jsx_part_fault(alloc, node, role),
            AnyNode::TsPart(node) => ts_part_fault(alloc, node, role),
        }
    }
}
