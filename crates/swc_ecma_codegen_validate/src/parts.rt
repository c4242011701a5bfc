//! Parts of expressions, of statements and of TypeScript that links hold.

ghost use Rattle.std.specs.Prelude.{◌≡◌};
ghost use Rattle.swc_ecma_codegen_grammar.specs.Phrases.{is_possible};
ghost use Rattle.swc_ecma_codegen_grammar.specs.PartPhrases.{expr_part, stmt_part, ts_part};

use crate::classes::{are_method_decorators, is_accessor_tail, is_class_head, is_method_tail};
use crate::forms::{Fits, WellFormed};
use crate::modules::{is_exported_head, is_exported_tail};
use crate::pats::is_plain_parameter;
use crate::templates::is_template;
use crate::ts_decls::is_dotted_body;
use swc_ecma_codegen_grammar::roles::Role;
use swc_ecma_codegen_tree::{ExprPart, StmtPart, TsPart};

/// Whether a part may stand in this role, and is well-formed.
#[tactic(auto, using(crate::proofs::CallsPossible::optional_call_possible), unfolding(swc_ecma_codegen_grammar::specs::PartPhrases::expr_part, swc_ecma_codegen_grammar::specs::Phrases::is_possible))]
pub(crate) fn expr_part_fits<N: Fits>(part: &ExprPart<N>, role: Role) -> bool
    ensures { result ≡ is_possible (expr_part N.reads part.now role) }
{
    match (part, role) {
        (ExprPart::Pat(node), Role::Pattern) => node.is_well_formed(),
        (ExprPart::Pat(node), Role::PlainParameter) => is_plain_parameter(node),
        (ExprPart::Tpl(node), Role::Template) => is_template(false, node),
        (ExprPart::Tpl(node), Role::TaggedTemplate) => is_template(true, node),
        (ExprPart::ObjectLit(node), Role::ObjectLiteral) => node.is_well_formed(),
        (ExprPart::PropName(node), Role::PropertyName) => node.is_well_formed(),
        // `a?.(b)` is where `a(b)` is.
        (ExprPart::OptCall(node), Role::ChainCall(_)) => node.is_well_formed(),
        (ExprPart::AssignTarget(node), Role::AssignmentTarget) => node.is_well_formed(),
        _ => false,
    }
}

/// Whether a part of a statement may stand in this role, and is well-formed.
#[tactic(auto, using(crate::proofs::FunctionsPossible::function_head_possible, crate::proofs::FunctionsPossible::method_head_possible, crate::proofs::ClassesPossible::class_word_possible), unfolding(swc_ecma_codegen_grammar::specs::PartPhrases::stmt_part, swc_ecma_codegen_grammar::specs::Phrases::is_possible))]
pub(crate) fn stmt_part_fits<N: Fits>(part: &StmtPart<N>, role: Role) -> bool
    ensures { result ≡ is_possible (stmt_part N.reads part.now role) }
{
    match (part, role) {
        (StmtPart::Function(node), Role::Function) => node.is_well_formed(),
        (StmtPart::Function(_), Role::FunctionHead | Role::MethodHead) => true,
        (StmtPart::Function(node), Role::MethodDecorators) => are_method_decorators(node),
        (StmtPart::Function(node), Role::MethodTail) => is_method_tail(node),
        (StmtPart::Function(node), Role::AccessorTail) => is_accessor_tail(node),
        (StmtPart::Class(node), Role::ClassHead) => is_class_head(node),
        (StmtPart::Class(_), Role::ClassWord) => true,
        (StmtPart::Class(node), Role::ClassTail) => node.is_well_formed(),
        (StmtPart::ClassMember(node), Role::Member) => node.is_well_formed(),
        (StmtPart::BlockStmt(node), Role::Block) => node.is_well_formed(),
        (StmtPart::Decl(node), Role::Declaration) => node.is_well_formed(),
        (StmtPart::Decl(node), Role::ExportedHead) => is_exported_head(node),
        (StmtPart::Decl(node), Role::ExportedTail) => is_exported_tail(node),
        (StmtPart::ModuleDecl(node), Role::ModuleDeclaration) => (**node).is_well_formed(),
        (StmtPart::VarDecl(node), Role::VariableDeclaration) => node.is_well_formed(),
        _ => false,
    }
}

/// Whether a part of TypeScript may stand in this role, and is well-formed.
#[tactic(auto, unfolding(swc_ecma_codegen_grammar::specs::PartPhrases::ts_part, swc_ecma_codegen_grammar::specs::Phrases::is_possible))]
pub(crate) fn ts_part_fits<N: Fits>(part: &TsPart<N>, role: Role) -> bool
    ensures { result ≡ is_possible (ts_part N.reads part.now role) }
{
    match (part, role) {
        (TsPart::TsType(node), Role::AnyType) => node.is_well_formed(),
        (TsPart::TsTypeAnn(node), Role::Annotation) => node.is_well_formed(),
        (TsPart::TsTypeParamDecl(node), Role::TypeParameters) => node.is_well_formed(),
        (TsPart::TsTypeParamInstantiation(node), Role::TypeArguments) => node.is_well_formed(),
        (TsPart::TsFnParam(node), Role::SignatureParameter) => node.is_well_formed(),
        (TsPart::TsInterfaceBody(node), Role::InterfaceBody) => node.is_well_formed(),
        (TsPart::TsEntityName(node), Role::EntityName) => node.is_well_formed(),
        (TsPart::TsNamespaceBody(node), Role::NamespaceBody) => node.is_well_formed(),
        (TsPart::TsNamespaceBody(node), Role::DottedBody) => is_dotted_body(node),
        _ => false,
    }
}
