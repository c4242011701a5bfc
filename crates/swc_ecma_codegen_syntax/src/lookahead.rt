//! Lookahead restrictions: what the text of a part may not begin with. ECMA-262, section 5.1.5.

ghost use Rattle.std.specs.Prelude.{◌≡◌};
ghost use Rattle.swc_ecma_codegen_syntax.specs.Lookahead.{is_statement_start, is_default_start, is_brace, is_let_bracket, is_let, is_of_start, excludes};
ghost use Rattle.swc_ecma_codegen_syntax.specs.Beginnings.{name_begins, goes_on, goes_on_in_brackets, goes_on_in_line, prop_begins, chain_begins, base_begins, callee_begins, seq_begins, update_begins, expr_begins, simple_target_begins, target_pat_begins, target_begins, pat_begins, part_begins, function_begins, stmt_part_begins, jsx_part_begins, decorators_begin, behind_decorators};
ghost use Rattle.swc_ecma_codegen_syntax.specs.Summary.{begins_in};

use crate::forms::Answers;
use crate::names::is;
use swc_ecma_codegen_grammar::roles::Role;
use swc_ecma_codegen_tree::{
    AssignTarget, AssignTargetPat, Callee, Decorator, Expr, ExprBox, ExprPart, JSXPart, MemberProp,
    OptChainBase, Pat, SimpleAssignTarget, StmtPart,
};

/// What the text of a node begins with, as far as a restriction asks.
#[derive(Clone, Copy, Debug, PartialEq, Eq)]
pub enum Beginning {
    /// No text, or that of a node that no restriction asks for.
    Nothing,
    /// `{`
    Brace,
    /// `function`
    Function,
    /// `async function`, with no line end between.
    AsyncFunction,
    /// `class`
    Class,
    /// `@`, with which a class may begin.
    At,
    /// The one token `let`.
    LetAlone,
    /// `let [`
    LetBracket,
    /// `let` and another token, as in `let.a`.
    LetOther,
    /// The one token `async`.
    AsyncAlone,
    /// Anything else.
    Other,
}

/// A lookahead restriction: what a part may not begin with.
#[derive(Clone, Copy, Debug, PartialEq, Eq)]
pub enum Lookahead {
    /// The expression of a statement: `{`, `function`, `async function`, `class`, `let [`, and a
    /// decorator. Section 14.5.
    StatementStart,
    /// The expression of `export default`: `function`, `async function`, `class`, and a decorator.
    /// Section 16.2.3.
    DefaultStart,
    /// The expression that is the body of an arrow function: `{`. Section 15.3.
    BodyStart,
    /// The head of `for (a; b; c)` and of `for (a in b)`: `let [`. Sections 14.7.4 and 14.7.5.
    ForStart,
    /// The head of `for await (a of b)`: `let`. Section 14.7.5.
    AwaitOfStart,
    /// The head of `for (a of b)`: `let`, and `async` before `of`. Section 14.7.5.
    OfStart,
}

#[tactic(auto, unfolding(crate::specs::Lookahead::is_statement_start))]
fn is_statement_start(beginning: Beginning) -> bool
    ensures { result ≡ is_statement_start beginning }
{
    matches!(
        beginning,
        Beginning::Brace
            | Beginning::Function
            | Beginning::AsyncFunction
            | Beginning::Class
            | Beginning::At
            | Beginning::LetBracket
    )
}

#[tactic(auto, unfolding(crate::specs::Lookahead::is_default_start))]
fn is_default_start(beginning: Beginning) -> bool
    ensures { result ≡ is_default_start beginning }
{
    matches!(
        beginning,
        Beginning::Function | Beginning::AsyncFunction | Beginning::Class | Beginning::At
    )
}

#[tactic(auto, unfolding(crate::specs::Lookahead::is_brace))]
fn is_brace(beginning: Beginning) -> bool
    ensures { result ≡ is_brace beginning }
{
    matches!(beginning, Beginning::Brace)
}

#[tactic(auto, unfolding(crate::specs::Lookahead::is_let_bracket))]
fn is_let_bracket(beginning: Beginning) -> bool
    ensures { result ≡ is_let_bracket beginning }
{
    matches!(beginning, Beginning::LetBracket)
}

#[tactic(auto, unfolding(crate::specs::Lookahead::is_let))]
fn is_let(beginning: Beginning) -> bool
    ensures { result ≡ is_let beginning }
{
    matches!(
        beginning,
        Beginning::LetAlone | Beginning::LetBracket | Beginning::LetOther
    )
}

#[tactic(auto, unfolding(crate::specs::Lookahead::is_of_start))]
fn is_of_start(beginning: Beginning) -> bool
    ensures { result ≡ is_of_start beginning }
{
    matches!(beginning, Beginning::AsyncAlone) || is_let(beginning)
}

impl Lookahead {
    /// Whether a part with this beginning may not stand there.
    #[tactic(auto, unfolding(crate::specs::Lookahead::excludes))]
    pub fn excludes(self, beginning: Beginning) -> bool
        ensures { result ≡ excludes self beginning }
    {
        match self {
            Lookahead::StatementStart => is_statement_start(beginning),
            Lookahead::DefaultStart => is_default_start(beginning),
            Lookahead::BodyStart => is_brace(beginning),
            Lookahead::ForStart => is_let_bracket(beginning),
            Lookahead::AwaitOfStart => is_let(beginning),
            Lookahead::OfStart => is_of_start(beginning),
        }
    }
}

/// What a name begins with.
#[tactic(auto, unfolding(crate::specs::Beginnings::name_begins))]
fn name_begins(name: &str) -> Beginning
    ensures { result ≡ name_begins name.now }
{
    if is(name, "let") {
        Beginning::LetAlone
    } else if is(name, "async") {
        Beginning::AsyncAlone
    } else {
        Beginning::Other
    }
}

impl Beginning {
    /// What a name begins with, where another token than `[` comes behind.
    #[tactic(auto, unfolding(crate::specs::Beginnings::goes_on))]
    fn goes_on(self) -> Beginning
        ensures { result ≡ goes_on self }
    {
        match self {
            Beginning::LetAlone => Beginning::LetOther,
            Beginning::AsyncAlone => Beginning::Other,
            _ => self,
        }
    }

    /// What a name begins with, where `[` comes behind.
    #[tactic(auto, unfolding(crate::specs::Beginnings::goes_on_in_brackets))]
    fn goes_on_in_brackets(self) -> Beginning
        ensures { result ≡ goes_on_in_brackets self }
    {
        match self {
            Beginning::LetAlone => Beginning::LetBracket,
            Beginning::AsyncAlone => Beginning::Other,
            _ => self,
        }
    }

    /// What a name begins with, where `++` comes behind.
    #[tactic(auto, unfolding(crate::specs::Beginnings::goes_on_in_line))]
    fn goes_on_in_line(self) -> Beginning
        ensures { result ≡ goes_on_in_line self }
    {
        match self {
            Beginning::LetAlone | Beginning::AsyncAlone => Beginning::Other,
            _ => self,
        }
    }
}

/// What a member begins with, by its object.
#[tactic(auto, unfolding(crate::specs::Beginnings::prop_begins))]
fn prop_begins<N>(object: Beginning, prop: &MemberProp<N>) -> Beginning
    ensures { result ≡ prop_begins object prop.now }
{
    match prop {
        MemberProp::Computed(_) => object.goes_on_in_brackets(),
        MemberProp::Ident(_) | MemberProp::PrivateName(_) => object.goes_on(),
    }
}

/// What a member of a chain begins with, by its object.
#[tactic(auto, unfolding(crate::specs::Beginnings::chain_begins))]
pub(crate) fn chain_begins<N>(optional: bool, object: Beginning, prop: &MemberProp<N>) -> Beginning
    ensures { result ≡ chain_begins optional object prop.now }
{
    if optional {
        object.goes_on()
    } else {
        prop_begins(object, prop)
    }
}

/// What a chain begins with.
#[tactic(auto, unfolding(crate::specs::Beginnings::base_begins))]
fn base_begins<N: Answers>(optional: bool, base: &OptChainBase<N>) -> Beginning
    ensures { result ≡ base_begins (begins_in N.answers) optional base.now }
{
    match base {
        OptChainBase::Member(node) => node.target().begins(Role::ChainMember(optional)),
        OptChainBase::Call(node) => node.target().begins(Role::ChainCall(optional)),
    }
}

/// What a call begins with.
#[tactic(auto, unfolding(crate::specs::Beginnings::callee_begins))]
fn callee_begins<N: Answers>(callee: &Callee<N>) -> Beginning
    ensures { result ≡ callee_begins (begins_in N.answers) callee.now }
{
    match callee {
        Callee::Expr(node) => node.target().begins(Role::Callee).goes_on(),
        Callee::Super(_) | Callee::Import(_) => Beginning::Other,
    }
}

/// What a sequence begins with.
#[tactic(auto, unfolding(crate::specs::Beginnings::seq_begins))]
fn seq_begins<N: Answers>(exprs: &[ExprBox<N>]) -> Beginning
    ensures { result ≡ seq_begins (begins_in N.answers) exprs.now }
{
    match exprs {
        [first, ..] => first.target().begins(Role::Expression).goes_on(),
        [] => Beginning::Other,
    }
}

/// What an expression begins with.
#[tactic(auto, unfolding(crate::specs::Beginnings::expr_begins, crate::specs::Beginnings::update_begins))]
pub(crate) fn expr_begins<N: Answers>(expr: &Expr<N>) -> Beginning
    ensures { result ≡ expr_begins (begins_in N.answers) expr.now }
{
    match expr {
        Expr::Ident(node) => name_begins(&node.sym),
        Expr::Object(_) => Beginning::Brace,
        Expr::Bin(node) => node.left.target().begins(Role::Expression).goes_on(),
        Expr::Cond(node) => node.test.target().begins(Role::Expression).goes_on(),
        Expr::Seq(node) => seq_begins(&node.exprs),
        Expr::Assign(node) => {
            let target = node.left.target().begins(Role::AssignmentTarget);
            target.goes_on()
        }
        Expr::Update(node) if node.prefix => Beginning::Other,
        Expr::Update(node) => {
            let arg = node.arg.target().begins(Role::Expression);
            arg.goes_on_in_line()
        }
        Expr::Member(node) => prop_begins(node.obj.target().begins(Role::Callee), &node.prop),
        Expr::Call(node) => callee_begins(&node.callee),
        Expr::TaggedTpl(node) => node.tag.target().begins(Role::Callee).goes_on(),
        Expr::OptChain(node) => base_begins(node.optional, &node.base),
        Expr::Tpl(node) => node.target().begins(Role::Template),
        Expr::Fn(node) => node.function.target().begins(Role::FunctionHead),
        Expr::Class(node) => {
            let head = node.class.target().begins(Role::ClassHead);
            behind_decorators(head, node.class.target().begins(Role::ClassWord))
        }
        Expr::JSXElement(node) => node.target().begins(Role::Element),
        Expr::JSXFragment(node) => node.target().begins(Role::Element),
        _ => Beginning::Other,
    }
}

/// What a target begins with that is no pattern.
#[tactic(auto, unfolding(crate::specs::Beginnings::simple_target_begins))]
fn simple_target_begins<N: Answers>(target: &SimpleAssignTarget<N>) -> Beginning
    ensures { result ≡ simple_target_begins (begins_in N.answers) target.now }
{
    match target {
        SimpleAssignTarget::Ident(node) => name_begins(&node.id.sym),
        SimpleAssignTarget::Member(node) => {
            prop_begins(node.obj.target().begins(Role::Callee), &node.prop)
        }
        _ => Beginning::Other,
    }
}

/// What a target begins with.
#[tactic(auto, unfolding(crate::specs::Beginnings::target_begins, crate::specs::Beginnings::target_pat_begins))]
fn target_begins<N: Answers>(target: &AssignTarget<N>) -> Beginning
    ensures { result ≡ target_begins (begins_in N.answers) target.now }
{
    match target {
        AssignTarget::Simple(node) => simple_target_begins(node),
        AssignTarget::Pat(AssignTargetPat::Object(_)) => Beginning::Brace,
        AssignTarget::Pat(_) => Beginning::Other,
    }
}

/// What a pattern begins with.
#[tactic(auto, unfolding(crate::specs::Beginnings::pat_begins))]
fn pat_begins<N: Answers>(pat: &Pat<N>) -> Beginning
    ensures { result ≡ pat_begins (begins_in N.answers) pat.now }
{
    match pat {
        Pat::Ident(node) => name_begins(&node.id.sym),
        Pat::Object(_) => Beginning::Brace,
        Pat::Assign(node) => node.left.target().begins(Role::Pattern).goes_on(),
        Pat::Expr(node) => node.target().begins(Role::Expression),
        Pat::Array(_) | Pat::Rest(_) | Pat::Invalid(_) => Beginning::Other,
    }
}

/// What a part of an expression begins with, in its role.
#[tactic(auto, unfolding(crate::specs::Beginnings::part_begins))]
pub(crate) fn part_begins<N: Answers>(part: &ExprPart<N>, role: Role) -> Beginning
    ensures { result ≡ part_begins (begins_in N.answers) part.now role }
{
    match (part, role) {
        (ExprPart::Pat(node), Role::Pattern) => pat_begins(node),
        (ExprPart::OptCall(node), Role::ChainCall(_)) => {
            node.callee.target().begins(Role::Callee).goes_on()
        }
        (ExprPart::AssignTarget(node), Role::AssignmentTarget) => target_begins(node),
        (ExprPart::Tpl(_), Role::Template) => Beginning::Other,
        _ => Beginning::Nothing,
    }
}

/// What a part of an element of JSX begins with, in its role.
#[tactic(auto, unfolding(crate::specs::Beginnings::jsx_part_begins))]
pub(crate) fn jsx_part_begins<N>(part: &JSXPart<N>, role: Role) -> Beginning
    ensures { result ≡ jsx_part_begins part.now role }
{
    match (part, role) {
        (JSXPart::JSXElement(_) | JSXPart::JSXFragment(_), Role::Element) => Beginning::Other,
        _ => Beginning::Nothing,
    }
}

/// What decorators begin with.
#[tactic(auto, unfolding(crate::specs::Beginnings::decorators_begin))]
fn decorators_begin<N>(decorators: &[Decorator<N>]) -> Beginning
    ensures { result ≡ decorators_begin decorators.now }
{
    match decorators {
        [] => Beginning::Nothing,
        [_, ..] => Beginning::At,
    }
}

/// What a class begins with: its decorators, or the word.
#[tactic(auto, unfolding(crate::specs::Beginnings::behind_decorators))]
fn behind_decorators(head: Beginning, word: Beginning) -> Beginning
    ensures { result ≡ behind_decorators head word }
{
    match head {
        Beginning::At => Beginning::At,
        _ => word,
    }
}

/// What a part of a statement begins with, in its role.
#[tactic(auto, unfolding(crate::specs::Beginnings::stmt_part_begins, crate::specs::Beginnings::function_begins))]
pub(crate) fn stmt_part_begins<N>(part: &StmtPart<N>, role: Role) -> Beginning
    ensures { result ≡ stmt_part_begins part.now role }
{
    match (part, role) {
        (StmtPart::Function(node), Role::FunctionHead) if node.is_async => Beginning::AsyncFunction,
        (StmtPart::Function(_), Role::FunctionHead) => Beginning::Function,
        (StmtPart::Class(node), Role::ClassHead) => decorators_begin(&node.decorators),
        (StmtPart::Class(_), Role::ClassWord) => Beginning::Class,
        _ => Beginning::Nothing,
    }
}
