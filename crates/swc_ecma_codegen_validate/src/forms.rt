//! What is asked of a node.

ghost use Rattle.std.specs.Prelude.{◌≡◌, true};
ghost use Rattle.swc_ecma_codegen_grammar.specs.declared.roles.Role.{Role as InRole};
ghost use Rattle.swc_ecma_codegen_grammar.specs.declared.roles.Role.TheVariants.{Expression, Statement, MemberExpression, AssignmentTarget, Pattern, PropertyName, ObjectLiteral, Function, Block, Declaration, VariableDeclaration, Member, Template, ModuleDeclaration, Element, TagObject, AnyType, Annotation, TypeArguments, TypeParameters, EntityName, SignatureParameter, InterfaceBody, NamespaceBody};
ghost use Rattle.swc_ecma_codegen_grammar.specs.ElementPhrases.{element};
ghost use Rattle.swc_ecma_codegen_grammar.specs.Phrases.{Phrase, is_possible};
ghost use Rattle.swc_ecma_codegen_validate.specs.Possible.{all_possible};

use swc_ecma_codegen_grammar::roles::Role;
use swc_ecma_codegen_tree::{
    Link, ToAssignTarget, ToBlockStmt, ToClassMember, ToDecl, ToExpr, ToFunction, ToJSXElement,
    ToJSXFragment, ToJSXObject, ToMemberExpr, ToModuleDecl, ToObjectLit, ToPat, ToPropName, ToStmt,
    ToTpl, ToTsEntityName, ToTsFnParam, ToTsInterfaceBody, ToTsNamespaceBody, ToTsType,
    ToTsTypeAnn, ToTsTypeParamDecl, ToTsTypeParamInstantiation, ToVarDecl,
};

/// A node, or a link to one.
pub trait WellFormed {
    ghost phrase: { Self → Phrase };

    /// Whether it is well-formed.
    fn is_well_formed(&self) -> bool
        ensures { result ≡ is_possible (phrase self.now) };
}

/// What a link is to, as a role: the one that such a node has by itself.
pub trait LinkRole {
    const ROLE: Role;

    ghost ROLE: { InRole };
}

/// What a link holds.
pub trait Fits {
    ghost reads: { Self → InRole → Phrase };

    /// Whether it may stand in this role, and is well-formed.
    fn fits(&self, role: Role) -> bool
        ensures { result ≡ is_possible (reads self.now role) };
}

impl<K: LinkRole, N: Fits> WellFormed for Link<K, N> {
    ghost phrase = { λ n. N.reads n.node.value K.ROLE };

    fn is_well_formed(&self) -> bool {
        self.target().fits(K::ROLE)
    }
}

impl LinkRole for ToExpr {
    const ROLE: Role = Role::Expression;

    ghost ROLE = { Expression };
}

impl LinkRole for ToStmt {
    const ROLE: Role = Role::Statement;

    ghost ROLE = { Statement };
}

impl LinkRole for ToMemberExpr {
    const ROLE: Role = Role::MemberExpression;

    ghost ROLE = { MemberExpression };
}

impl LinkRole for ToAssignTarget {
    const ROLE: Role = Role::AssignmentTarget;

    ghost ROLE = { AssignmentTarget };
}

impl LinkRole for ToPat {
    const ROLE: Role = Role::Pattern;

    ghost ROLE = { Pattern };
}

impl LinkRole for ToPropName {
    const ROLE: Role = Role::PropertyName;

    ghost ROLE = { PropertyName };
}

impl LinkRole for ToObjectLit {
    const ROLE: Role = Role::ObjectLiteral;

    ghost ROLE = { ObjectLiteral };
}

impl LinkRole for ToFunction {
    const ROLE: Role = Role::Function;

    ghost ROLE = { Function };
}

impl LinkRole for ToBlockStmt {
    const ROLE: Role = Role::Block;

    ghost ROLE = { Block };
}

impl LinkRole for ToDecl {
    const ROLE: Role = Role::Declaration;

    ghost ROLE = { Declaration };
}

impl LinkRole for ToVarDecl {
    const ROLE: Role = Role::VariableDeclaration;

    ghost ROLE = { VariableDeclaration };
}

impl LinkRole for ToClassMember {
    const ROLE: Role = Role::Member;

    ghost ROLE = { Member };
}

impl LinkRole for ToTpl {
    const ROLE: Role = Role::Template;

    ghost ROLE = { Template };
}

impl LinkRole for ToModuleDecl {
    const ROLE: Role = Role::ModuleDeclaration;

    ghost ROLE = { ModuleDeclaration };
}

impl LinkRole for ToJSXElement {
    const ROLE: Role = Role::Element;

    ghost ROLE = { Element };
}

impl LinkRole for ToJSXFragment {
    const ROLE: Role = Role::Element;

    ghost ROLE = { Element };
}

impl LinkRole for ToJSXObject {
    const ROLE: Role = Role::TagObject;

    ghost ROLE = { TagObject };
}

impl LinkRole for ToTsType {
    const ROLE: Role = Role::AnyType;

    ghost ROLE = { AnyType };
}

impl LinkRole for ToTsTypeAnn {
    const ROLE: Role = Role::Annotation;

    ghost ROLE = { Annotation };
}

impl LinkRole for ToTsTypeParamDecl {
    const ROLE: Role = Role::TypeParameters;

    ghost ROLE = { TypeParameters };
}

impl LinkRole for ToTsTypeParamInstantiation {
    const ROLE: Role = Role::TypeArguments;

    ghost ROLE = { TypeArguments };
}

impl LinkRole for ToTsFnParam {
    const ROLE: Role = Role::SignatureParameter;

    ghost ROLE = { SignatureParameter };
}

impl LinkRole for ToTsInterfaceBody {
    const ROLE: Role = Role::InterfaceBody;

    ghost ROLE = { InterfaceBody };
}

impl LinkRole for ToTsEntityName {
    const ROLE: Role = Role::EntityName;

    ghost ROLE = { EntityName };
}

impl LinkRole for ToTsNamespaceBody {
    const ROLE: Role = Role::NamespaceBody;

    ghost ROLE = { NamespaceBody };
}

/// A hole among elements is nothing.
impl<T: WellFormed> WellFormed for Option<T> {
    ghost phrase = { element T.phrase };

    #[tactic(auto, unfolding(swc_ecma_codegen_grammar::specs::ElementPhrases::element, swc_ecma_codegen_grammar::specs::Phrases::is_possible))]
    fn is_well_formed(&self) -> bool {
        match self {
            Some(node) => node.is_well_formed(),
            None => true,
        }
    }
}

/// Whether all of them are.
#[tactic(auto, unfolding(crate::specs::Possible::all_possible))]
pub(crate) fn all_well_formed<T: WellFormed>(nodes: &[T]) -> bool
    ensures { result ≡ all_possible T.phrase nodes.now }
{
    for node in nodes {
        if !node.is_well_formed() {
            return false;
        }
    }
    true
}
