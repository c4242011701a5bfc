//! The whole tree.

ghost use Rattle.std.specs.Prelude.{◌≡◌, ◌↔◌, ◌&&◌, Bool, true, false, List};
ghost use Rattle.swc_ecma_codegen_grammar.specs.Phrases.{Generates, is_possible};
ghost use Rattle.swc_ecma_codegen_grammar.specs.Settings.{Settings};
ghost use Rattle.swc_ecma_codegen_grammar.specs.Tokens.{Token};
ghost use Rattle.swc_ecma_codegen_grammar.specs.TreePhrases.{expr_phrase};
ghost use Rattle.swc_ecma_codegen_syntax.specs.Derives.{DerivesExpr, DerivesPat, bare_phrase, pat_phrase, expr_verdict, pat_verdict};
ghost use Rattle.swc_ecma_codegen_syntax.specs.NodeForms.{other_facts, part_facts, stmt_facts, stmt_part_facts, jsx_part_facts, summary_of};
ghost use Rattle.swc_ecma_codegen_syntax.specs.Forms.{judge};
ghost use Rattle.swc_ecma_codegen_syntax.specs.PatForms.{pat_nonterminal, pat_form};
ghost use Rattle.swc_ecma_codegen_syntax.specs.Verdicts.{unasked, holds};

use crate::calls::chain_call;
use crate::classes::{accessor, accessor_nonterminal, prop_name_nonterminal};
use crate::decls::decl_nonterminal;
use crate::exprs::{chain_member, expr_facts, other_facts};
use crate::forms::{Answers, Stands};
use crate::functions::{decorators, function_head_nonterminal, rest_of_function};
use crate::jsx::{element, fragment};
use crate::lookahead::{
    Beginning, chain_begins, expr_begins, jsx_part_begins, part_begins, stmt_part_begins,
};
use crate::modules::{exported_head, exported_tail};
use crate::nonterminals::Nonterminal;
use crate::parameters::Parameters;
use crate::pats::pat_nonterminal;
use crate::shapes::{expr_shape, part_shape};
use crate::stmts::{is_empty, stmt_nonterminal};
use crate::targets::target_nonterminal;
use crate::templates::tpl;
use crate::verdicts::{Facts, Shape, Verdict};
use crate::whole_trees::WholeTree;
use swc_ecma_codegen_grammar::roles::Role;
use swc_ecma_codegen_tree::{AnyNode, Expr, ExprPart, JSXPart, Pat, Stmt, StmtPart};

/// What a pattern tells.
fn pat_facts<N: Answers>(pat: &Pat<N>, parameters: Parameters) -> Facts
    ensures { result ≡ other_facts (pat_nonterminal pat.now)
        (judge N.answers unasked (pat_form false parameters pat.now)) }
{
    other_facts(
        pat_nonterminal(pat),
        pat.judge(Verdict::unasked(), parameters),
    )
}

/// What a part of an expression tells, in its role.
#[tactic(auto, unfolding(crate::specs::NodeForms::part_facts, crate::specs::NodeForms::part_form, crate::specs::NodeForms::part_nonterminal, crate::specs::Forms::judge, crate::specs::Forms::asked))]
fn part_facts<N: Answers>(part: &ExprPart<N>, role: Role, parameters: Parameters) -> Facts
    ensures { result ≡ part_facts N.answers parameters part.now role }
{
    let start = Verdict::unasked();
    match (part, role) {
        (ExprPart::Pat(node), Role::Pattern) => other_facts(
            pat_nonterminal(node),
            node.judge(start, parameters),
        ),
        (ExprPart::ObjectLit(node), Role::ObjectLiteral) => {
            other_facts(
                Nonterminal::PrimaryExpression,
                node.judge(start, parameters),
            )
        }
        (ExprPart::PropName(node), Role::PropertyName) => {
            other_facts(prop_name_nonterminal(node), node.judge(start, parameters))
        }
        (ExprPart::OptCall(node), Role::ChainCall(optional)) => {
            other_facts(
                Nonterminal::OptionalChain,
                chain_call(start, optional, node, parameters),
            )
        }
        (ExprPart::AssignTarget(node), Role::AssignmentTarget) => {
            other_facts(target_nonterminal(node), node.judge(start, parameters))
        }
        (ExprPart::Tpl(node), Role::Template) => {
            other_facts(
                Nonterminal::TemplateLiteral,
                tpl(start, false, node, parameters),
            )
        }
        (ExprPart::Tpl(node), Role::TaggedTemplate) => {
            other_facts(
                Nonterminal::TemplateLiteral,
                tpl(start, true, node, parameters),
            )
        }
        _ => other_facts(Nonterminal::Uncovered, start.by_scope(false)),
    }
}

/// What a statement tells.
#[tactic(auto, unfolding(crate::specs::NodeForms::stmt_facts))]
pub(crate) fn stmt_facts<N: Answers>(stmt: &Stmt<N>, parameters: Parameters) -> Facts
    ensures { result ≡ stmt_facts N.answers parameters stmt.now }
{
    other_facts(
        stmt_nonterminal(stmt),
        stmt.judge(Verdict::unasked(), parameters),
    )
}

/// What a part of a statement tells, in its role.
#[tactic(auto, unfolding(crate::specs::NodeForms::stmt_part_facts, crate::specs::NodeForms::stmt_part_form, crate::specs::NodeForms::stmt_part_nonterminal, crate::specs::ClassForms::class_word_form, crate::specs::Forms::judge, crate::specs::Forms::asked))]
fn stmt_part_facts<N: Answers>(part: &StmtPart<N>, role: Role, parameters: Parameters) -> Facts
    ensures { result ≡ stmt_part_facts N.answers parameters part.now role }
{
    let start = Verdict::unasked();
    match (part, role) {
        (StmtPart::BlockStmt(node), Role::Block) => {
            other_facts(Nonterminal::Block, node.judge(start, parameters))
        }
        (StmtPart::VarDecl(node), Role::VariableDeclaration) => other_facts(
            Nonterminal::VariableDeclarations,
            node.judge(start, parameters),
        ),
        (StmtPart::Decl(node), Role::ExportedHead) => {
            other_facts(
                Nonterminal::ExportedHead,
                exported_head(start, node, parameters),
            )
        }
        (StmtPart::Decl(node), Role::ExportedTail) => {
            other_facts(
                decl_nonterminal(node),
                exported_tail(start, node, parameters),
            )
        }
        (StmtPart::ModuleDecl(node), Role::ModuleDeclaration) => {
            other_facts(
                Nonterminal::ModuleDeclaration,
                node.judge(start, parameters),
            )
        }
        (StmtPart::Function(node), Role::Function) => {
            other_facts(Nonterminal::FunctionTail, node.judge(start, parameters))
        }
        (StmtPart::Function(node), Role::FunctionHead) => other_facts(
            function_head_nonterminal(node.is_generator, node.is_async),
            start,
        ),
        (StmtPart::Function(_), Role::MethodHead) => other_facts(Nonterminal::MethodHead, start),
        (StmtPart::Function(node), Role::MethodTail) => other_facts(
            Nonterminal::FunctionTail,
            rest_of_function(start, node, parameters),
        ),
        (StmtPart::Function(node), Role::MethodDecorators) => other_facts(
            Nonterminal::DecoratorList,
            decorators(start, &node.decorators, parameters),
        ),
        (StmtPart::Function(node), Role::AccessorTail) => other_facts(
            accessor_nonterminal(&node.params),
            accessor(start, node, parameters),
        ),
        (StmtPart::Class(node), Role::ClassHead) => other_facts(
            Nonterminal::DecoratorList,
            decorators(start, &node.decorators, parameters),
        ),
        (StmtPart::Class(node), Role::ClassWord) => {
            other_facts(Nonterminal::ClassHead, start.by_scope(!node.is_abstract))
        }
        (StmtPart::Class(node), Role::ClassTail) => {
            other_facts(Nonterminal::ClassTail, node.judge(start, parameters))
        }
        (StmtPart::ClassMember(node), Role::Member) => {
            other_facts(Nonterminal::ClassElement, node.judge(start, parameters))
        }
        _ => other_facts(Nonterminal::Uncovered, start.by_scope(false)),
    }
}

/// What a part of JSX tells, in its role.
#[tactic(auto, unfolding(crate::specs::NodeForms::jsx_part_facts, crate::specs::NodeForms::jsx_part_form, crate::specs::NodeForms::jsx_part_nonterminal, crate::specs::Forms::judge, crate::specs::Forms::asked))]
fn jsx_part_facts<N: Answers>(part: &JSXPart<N>, role: Role, parameters: Parameters) -> Facts
    ensures { result ≡ jsx_part_facts N.answers parameters part.now role }
{
    let start = Verdict::unasked();
    let sort = Nonterminal::JSXElement;
    match (part, role) {
        (JSXPart::JSXElement(node), Role::Element) => {
            other_facts(sort, element(start, false, node, parameters))
        }
        (JSXPart::JSXElement(node), Role::Child) => {
            other_facts(sort, element(start, true, node, parameters))
        }
        (JSXPart::JSXFragment(node), Role::Element) => {
            other_facts(sort, fragment(start, false, node, parameters))
        }
        (JSXPart::JSXFragment(node), Role::Child) => {
            other_facts(sort, fragment(start, true, node, parameters))
        }
        (JSXPart::JSXObject(node), Role::TagObject) => {
            other_facts(Nonterminal::JSXObject, node.judge(start, parameters))
        }
        _ => other_facts(Nonterminal::Uncovered, start.by_scope(false)),
    }
}

impl Answers for AnyNode {
    ghost answers = { summary_of };

    #[tactic(auto, using(crate::proofs::TreeFacts::facts_at, crate::proofs::TreeFacts::facts_expr, crate::proofs::TreeFacts::facts_member_expr, crate::proofs::TreeFacts::facts_expr_part, crate::proofs::TreeFacts::facts_stmt, crate::proofs::TreeFacts::facts_stmt_part, crate::proofs::TreeFacts::facts_jsx_part), unfolding(crate::specs::NodeForms::node_facts, crate::specs::Verdicts::by_scope))]
    #[cycle(answers)]
    fn answer(&self, role: Role, parameters: Parameters) -> Facts {
        match (self, role) {
            (AnyNode::Expr(node), Role::Expression) => expr_facts(node, false, parameters),
            (AnyNode::Expr(node), Role::Callee) => expr_facts(node, true, parameters),
            (AnyNode::Expr(node), Role::FieldValue) => expr_facts(node, false, parameters),
            (AnyNode::MemberExpr(node), Role::ChainMember(optional)) => other_facts(
                Nonterminal::OptionalChain,
                chain_member(Verdict::unasked(), optional, node, parameters),
            ),
            (AnyNode::ExprPart(node), role) => part_facts(node, role, parameters),
            (AnyNode::Stmt(node), Role::Statement) => stmt_facts(node, parameters),
            (AnyNode::StmtPart(node), role) => stmt_part_facts(node, role, parameters),
            (AnyNode::JSXPart(node), role) => jsx_part_facts(node, role, parameters),
            _ => other_facts(Nonterminal::Uncovered, Verdict::unasked().by_scope(false)),
        }
    }

    #[tactic(auto, using(crate::proofs::TreeFacts::empty_at, crate::proofs::TreeFacts::empty_stmt), unfolding(crate::specs::StmtForms::is_empty_node))]
    #[cycle(answers)]
    fn is_empty(&self) -> bool {
        match self {
            AnyNode::Stmt(node) => is_empty(node),
            _ => false,
        }
    }

    #[tactic(auto, using(crate::proofs::TreeFacts::shape_at, crate::proofs::TreeFacts::shape_expr, crate::proofs::TreeFacts::shape_expr_part), unfolding(crate::specs::Shapes::node_shape))]
    #[cycle(answers)]
    fn shape(&self) -> Shape {
        match self {
            AnyNode::Expr(node) => expr_shape(node),
            AnyNode::ExprPart(node) => part_shape(node),
            _ => Shape::Other,
        }
    }

    #[tactic(auto, using(crate::proofs::TreeFacts::begins_at, crate::proofs::TreeFacts::begins_expr, crate::proofs::TreeFacts::begins_member_expr, crate::proofs::TreeFacts::begins_expr_part, crate::proofs::TreeFacts::begins_stmt_part, crate::proofs::TreeFacts::begins_jsx_part), unfolding(crate::specs::Beginnings::node_begins))]
    #[cycle(answers)]
    fn begins(&self, role: Role) -> Beginning {
        match (self, role) {
            (AnyNode::Expr(node), Role::Expression | Role::Callee) => expr_begins(node),
            (AnyNode::MemberExpr(node), Role::ChainMember(optional)) => {
                let object = node.obj.target().begins(Role::Callee);
                chain_begins(optional, object, &node.prop)
            }
            (AnyNode::ExprPart(node), role) => part_begins(node, role),
            (AnyNode::StmtPart(node), role) => stmt_part_begins(node, role),
            (AnyNode::JSXPart(node), role) => jsx_part_begins(node, role),
            _ => Beginning::Nothing,
        }
    }
}

/// What is said of an expression where this nonterminal with these parameters stands. Takes no
/// memory, and no more stack than the tree is deep.
///
/// `(a + b) * c` without its parentheses, as an Expression of a script, is covered and curable, and
/// not parenthesized.
pub fn verdict_expr<N: WholeTree>(
    expr: &Expr<N>,
    place: Nonterminal,
    parameters: Parameters,
) -> Verdict
    ensures { result ≡ expr_verdict place parameters (N.expr_in expr.now) }
{
    Verdict::unasked().of_part(place, expr_facts(expr, false, parameters))
}

/// Whether an expression keeps its structure where this nonterminal with these parameters stands:
/// true exactly where the syntactic grammar of ECMA-262, 2024, derives a list of the tree's tokens
/// with this very tree as the derivation.
///
/// What has no production here has no derivation: TypeScript, and names spelled with escapes.
/// `is_covered_expr` tells them apart. Each list that is derived is one of the tree's; where the
/// answer is true each of them is derived that has no parentheses round what `yield`, `return` and
/// `throw` have and round the only parameter of an arrow function, and no comma before the bracket
/// that closes a pattern. `parameters.minify` has to be that of the settings: `new (new A())()` is
/// `new new A` then. Takes no memory.
pub fn keeps_structure_expr<N: WholeTree>(
    expr: &Expr<N>,
    place: Nonterminal,
    parameters: Parameters,
) -> bool
    ensures sound { (s : Settings) (ts : List Token)
        → DerivesExpr true s place parameters (N.expr_in expr.now) ts
        → (result ≡ true) × Generates s (expr_phrase (N.expr_in expr.now)) ts }
    ensures complete { result ≡ true → (s : Settings) (ts : List Token)
        → s.minify ≡ parameters.minify
        → Generates s (bare_phrase (expr_phrase (N.expr_in expr.now))) ts
        → DerivesExpr true s place parameters (N.expr_in expr.now) ts }
    ensures exactly { is_possible (expr_phrase (N.expr_in expr.now)) ≡ true → (s : Settings)
        → s.minify ≡ parameters.minify
        → (result ≡ true)
        ↔ ((ts : List Token) × DerivesExpr true s place parameters (N.expr_in expr.now) ts) }
    ensures verdict { result ≡ holds true (expr_verdict place parameters (N.expr_in expr.now)) }
{
    verdict_expr(expr, place, parameters).is_derivation()
}

/// Whether nothing is wrong with an expression but parentheses that are missing: true exactly where
/// the grammar derives a list of its tokens if any part may stand where it would stand in
/// parentheses. `a + b * c` for the product of a sum is curable, `a() = b` isn't. Takes no memory.
pub fn is_curable_expr<N: WholeTree>(
    expr: &Expr<N>,
    place: Nonterminal,
    parameters: Parameters,
) -> bool
    ensures sound { (s : Settings) (ts : List Token)
        → DerivesExpr false s place parameters (N.expr_in expr.now) ts
        → (result ≡ true) × Generates s (expr_phrase (N.expr_in expr.now)) ts }
    ensures complete { result ≡ true → (s : Settings) (ts : List Token)
        → s.minify ≡ parameters.minify
        → Generates s (bare_phrase (expr_phrase (N.expr_in expr.now))) ts
        → DerivesExpr false s place parameters (N.expr_in expr.now) ts }
    ensures exactly { is_possible (expr_phrase (N.expr_in expr.now)) ≡ true → (s : Settings)
        → s.minify ≡ parameters.minify
        → (result ≡ true)
        ↔ ((ts : List Token) × DerivesExpr false s place parameters (N.expr_in expr.now) ts) }
    ensures verdict { result ≡ holds false (expr_verdict place parameters (N.expr_in expr.now)) }
{
    verdict_expr(expr, place, parameters).is_curable()
}

/// Whether no part of an expression wants parentheses that it hasn't. With `is_curable_expr` it is
/// `keeps_structure_expr`. Takes no memory.
#[tactic(auto, using(crate::proofs::VerdictLaws::holds_both))]
pub fn is_parenthesized_expr<N: WholeTree>(
    expr: &Expr<N>,
    place: Nonterminal,
    parameters: Parameters,
) -> bool
    ensures verdict { result ≡ (expr_verdict place parameters (N.expr_in expr.now)).parenthesized }
    ensures both { holds true (expr_verdict place parameters (N.expr_in expr.now))
        ≡ (holds false (expr_verdict place parameters (N.expr_in expr.now)) && result) }
{
    verdict_expr(expr, place, parameters).parenthesized
}

/// Whether each node of an expression has a production here, so that the other answers mean what
/// they say. It is false of TypeScript, and of names that are spelled with escapes; then the
/// expression neither keeps its structure nor is curable. Takes no memory.
#[tactic(auto, using(crate::proofs::VerdictLaws::uncovered_holds))]
pub fn is_covered_expr<N: WholeTree>(
    expr: &Expr<N>,
    place: Nonterminal,
    parameters: Parameters,
) -> bool
    ensures verdict { result ≡ (expr_verdict place parameters (N.expr_in expr.now)).covered }
    ensures uncovered { result ≡ false → (places : Bool)
        → holds places (expr_verdict place parameters (N.expr_in expr.now)) ≡ false }
{
    verdict_expr(expr, place, parameters).covered
}

/// What syntax says of a pattern, as `verdict_expr` says it of an expression.
/// `parameters.is_binding` says whether the pattern is one of a binding, as in `let [a] = b`, or
/// one of an assignment, as `[a.b] = c`. Takes no memory.
#[tactic(auto, unfolding(crate::specs::NodeForms::part_facts, crate::specs::NodeForms::part_nonterminal, crate::specs::NodeForms::part_form))]
pub fn verdict_pat<N: WholeTree>(
    pat: &Pat<N>,
    place: Nonterminal,
    parameters: Parameters,
) -> Verdict
    ensures { result ≡ pat_verdict place parameters (N.pat_in pat.now) }
{
    Verdict::unasked().of_part(place, pat_facts(pat, parameters))
}

/// Whether a pattern keeps its structure, where this nonterminal with these parameters stands:
/// PatternTarget, or PatternElement where a value may stand behind it, or LastElement where it may
/// be a rest. See `keeps_structure_expr`. Takes no memory.
pub fn keeps_structure_pat<N: WholeTree>(
    pat: &Pat<N>,
    place: Nonterminal,
    parameters: Parameters,
) -> bool
    ensures sound { (s : Settings) (ts : List Token)
        → DerivesPat true s place parameters (N.pat_in pat.now) ts
        → (result ≡ true) × Generates s (pat_phrase (N.pat_in pat.now)) ts }
    ensures complete { result ≡ true → (s : Settings) (ts : List Token)
        → s.minify ≡ parameters.minify
        → Generates s (bare_phrase (pat_phrase (N.pat_in pat.now))) ts
        → DerivesPat true s place parameters (N.pat_in pat.now) ts }
    ensures exactly { is_possible (pat_phrase (N.pat_in pat.now)) ≡ true → (s : Settings)
        → s.minify ≡ parameters.minify
        → (result ≡ true)
        ↔ ((ts : List Token) × DerivesPat true s place parameters (N.pat_in pat.now) ts) }
    ensures verdict { result ≡ holds true (pat_verdict place parameters (N.pat_in pat.now)) }
{
    verdict_pat(pat, place, parameters).is_derivation()
}

/// Whether nothing is wrong with a pattern but parentheses that are missing. See `is_curable_expr`.
/// Takes no memory.
pub fn is_curable_pat<N: WholeTree>(
    pat: &Pat<N>,
    place: Nonterminal,
    parameters: Parameters,
) -> bool
    ensures sound { (s : Settings) (ts : List Token)
        → DerivesPat false s place parameters (N.pat_in pat.now) ts
        → (result ≡ true) × Generates s (pat_phrase (N.pat_in pat.now)) ts }
    ensures complete { result ≡ true → (s : Settings) (ts : List Token)
        → s.minify ≡ parameters.minify
        → Generates s (bare_phrase (pat_phrase (N.pat_in pat.now))) ts
        → DerivesPat false s place parameters (N.pat_in pat.now) ts }
    ensures exactly { is_possible (pat_phrase (N.pat_in pat.now)) ≡ true → (s : Settings)
        → s.minify ≡ parameters.minify
        → (result ≡ true)
        ↔ ((ts : List Token) × DerivesPat false s place parameters (N.pat_in pat.now) ts) }
    ensures verdict { result ≡ holds false (pat_verdict place parameters (N.pat_in pat.now)) }
{
    verdict_pat(pat, place, parameters).is_curable()
}
