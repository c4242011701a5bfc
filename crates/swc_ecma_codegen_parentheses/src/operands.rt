//! Operands of operators, and what is called or has a property: which nonterminal stands there, and
//! in which context.

ghost use Rattle.std.specs.Prelude.{◌≡◌, ◌&&◌, false, true};
ghost use Rattle.swc_ecma_codegen_grammar.specs.declared.roles.Role.TheVariants.{Callee, Expression};
ghost use Rattle.swc_ecma_codegen_parentheses.specs.Needed.{behind, derives, meets, minified, needs};
ghost use Rattle.swc_ecma_codegen_parentheses.specs.Operands.{before_bracket, declared, declared_in_head, free, in_brackets, in_for_head, object_nonterminal, operand_chain, operand_context, operand_lookahead, operand_nonterminal, operand_parameters, restricted, stands_in, under, used, within};
ghost use Rattle.swc_ecma_codegen_syntax.specs.Parameters.{of_for, of_script};
ghost use Rattle.swc_ecma_codegen_syntax.specs.Nonterminals.{takes};
ghost use Rattle.swc_ecma_codegen_syntax.specs.Shapes.{fits};
ghost use Rattle.swc_ecma_codegen_syntax.specs.Summary.{begins_in, shape_in};
ghost use Rattle.swc_ecma_codegen_syntax.specs.declared.verdicts.Shape.TheVariants.{Decorator as DecoratorShape};
ghost use Rattle.swc_ecma_codegen_syntax.specs.declared.lookahead.Lookahead.TheVariants.{StatementStart};
ghost use Rattle.swc_ecma_codegen_syntax.specs.declared.nonterminals.Nonterminal.TheVariants.{CallOrMember, ChainBase, OptionalExpression};

use crate::lends::Lends;
use crate::levels::{left_of, right_of};
use crate::mends::Usage;
use crate::places::Place;
use swc_ecma_codegen_common::BinaryOp;
use swc_ecma_codegen_grammar::roles::Role;
use swc_ecma_codegen_syntax::{Answers, Beginning, Lookahead, Nonterminal, Parameters, Shape};
use swc_ecma_codegen_tree::ExprBox;

/// What a place gives the expression that stands there.
#[derive(Clone, Copy)]
pub(crate) struct Context {
    /// Its parameters.
    pub(crate) parameters: Parameters,
    /// What its text may not begin with.
    pub(crate) lookahead: Option<Lookahead>,
    /// Whether it is a link of a chain, and whether `?.` stands in it: `?.b` and `.c` of `a?.b.c`.
    pub(crate) chain: Option<bool>,
}

impl Context {
    /// That of a nonterminal with these parameters, with no restriction.
    pub(crate) fn free(parameters: Parameters) -> Context
        ensures { result ≡ free parameters }
    {
        Context {
            parameters,
            lookahead: None,
            chain: None,
        }
    }

    /// The same under a restriction.
    fn restricted(lookahead: Lookahead, parameters: Parameters) -> Context
        ensures { result ≡ restricted lookahead parameters }
    {
        Context {
            parameters,
            lookahead: Some(lookahead),
            chain: None,
        }
    }

    /// That of an expression that is a statement.
    fn of_statement() -> Context
        ensures { result ≡ restricted StatementStart of_script }
    {
        Context::restricted(Lookahead::StatementStart, Parameters::script())
    }

    /// That of what a statement declares.
    pub(crate) fn declared() -> Context
        ensures { result ≡ declared }
    {
        Context::free(Parameters::script())
    }

    /// That of what the head of a loop declares.
    pub(crate) fn declared_in_head() -> Context
        ensures { result ≡ declared_in_head }
    {
        Context::free(for_parameters())
    }
}

/// The parameters of what stands first in the head of a loop: `[~In]`.
fn for_parameters() -> Parameters
    ensures { result ≡ of_for of_script }
{
    Parameters {
        has_in: false,
        is_loop_head: false,
        ..Parameters::script()
    }
}

/// Which part of an operator's production an expression is.
#[derive(Clone, Copy)]
pub(crate) enum Operand {
    /// `a` of `a + b`.
    Left(BinaryOp),
    /// `b` of `a + b`.
    Right(BinaryOp),
    /// `a` of `-a` and `await a`.
    Unary,
    /// `a` of `++a`.
    Prefix,
    /// `a` of `a++`.
    Postfix,
    /// `a` of `a ? b : c`.
    Test,
    /// `b` of `a ? b : c`.
    Branch,
    /// `c` of `a ? b : c`, and `b` of `a = b` and `yield b`.
    Last,
    /// `a` and `b` of `a, b`.
    Each,
    /// `b` of `a => b`.
    Body,
    /// `a` of `(a)`.
    Inside,
    /// `a` of `a.b`, `a()` and `` a`b` ``.
    Called,
    /// `a` of `a[b]`.
    Indexed,
    /// `a` of `new a`.
    New,
    /// `a` of `new a()`, which is `new a` where it is minified.
    NewEmpty,
    /// `a` of `new a(b)`.
    NewCalled,
    /// `a?.b` of `a?.b.c`, and `a` of `a?.b`, with what stands behind: the link. With `?.` or
    /// without.
    Chain(bool),
    /// `a` of `a = b`.
    Assigned,
}

impl Operand {
    /// The nonterminal that stands there.
    #[tactic(auto, unfolding(crate::specs::Operands::operand_nonterminal))]
    fn nonterminal(self) -> Nonterminal
        ensures { result ≡ operand_nonterminal self }
    {
        match self {
            Operand::Left(op) => left_of(op),
            Operand::Right(op) => right_of(op),
            Operand::Unary | Operand::Prefix => Nonterminal::UnaryExpression,
            Operand::Postfix => Nonterminal::LeftHandSideExpression,
            Operand::Test => Nonterminal::ShortCircuitExpression,
            Operand::Branch | Operand::Last | Operand::Each | Operand::Body =>
                Nonterminal::AssignmentExpression,
            Operand::Inside => Nonterminal::Expression,
            _ => Nonterminal::CallOrMember,
        }
    }

    /// Its parameters, by those of the whole.
    #[tactic(auto, unfolding(crate::specs::Operands::operand_parameters, swc_ecma_codegen_syntax::specs::ExprForms::is_less))]
    fn parameters(self, whole: Parameters) -> Parameters
        ensures { result ≡ operand_parameters self whole }
    {
        match self {
            Operand::Left(op) => Parameters {
                before_less: matches!(op, BinaryOp::Lt),
                ..whole
            },
            Operand::Unary | Operand::New | Operand::NewEmpty => Parameters {
                has_in: true,
                ..whole
            },
            Operand::Right(_) | Operand::Test | Operand::Last | Operand::Each | Operand::Body =>
                whole,
            _ => Parameters {
                has_in: true,
                before_less: false,
                ..whole
            },
        }
    }

    /// What its text may not begin with, by that of the whole.
    #[tactic(auto, unfolding(crate::specs::Operands::operand_lookahead))]
    fn lookahead(self, whole: Option<Lookahead>) -> Option<Lookahead>
        ensures { result ≡ operand_lookahead self whole }
    {
        match self {
            Operand::Left(_)
            | Operand::Postfix
            | Operand::Test
            | Operand::Each
            | Operand::Called
            | Operand::Indexed
            | Operand::Chain(_)
            | Operand::Assigned => whole,
            Operand::Body => Some(Lookahead::BodyStart),
            _ => None,
        }
    }

    /// Whether it is a link of a chain, and whether `?.` stands in it.
    #[tactic(auto, unfolding(crate::specs::Operands::operand_chain))]
    fn chain(self) -> Option<bool>
        ensures { result ≡ operand_chain self }
    {
        match self {
            Operand::Chain(optional) => Some(optional),
            _ => None,
        }
    }

    /// Its context, by that of the whole.
    #[tactic(auto, unfolding(crate::specs::Operands::operand_context))]
    pub(crate) fn context(self, whole: Context) -> Context
        ensures { result ≡ operand_context self whole }
    {
        Context {
            parameters: self.parameters(whole.parameters),
            lookahead: self.lookahead(whole.lookahead),
            chain: self.chain(),
        }
    }

    /// What is used so, in a context of its own, by a link of a chain or another node.
    #[tactic(auto, unfolding(crate::specs::Operands::used))]
    fn used(self, chain: Option<bool>, context: Context) -> Usage
        ensures { result ≡ used chain self context }
    {
        match self {
            Operand::Called => Usage::Called(object_nonterminal(chain), false, context),
            Operand::Indexed => Usage::Called(
                object_nonterminal(chain),
                before_bracket(chain),
                context,
            ),
            Operand::New => Usage::CalledByNew(Nonterminal::NewExpression, context),
            Operand::NewEmpty | Operand::NewCalled => Usage::CalledByNew(
                Nonterminal::MemberExpression,
                context,
            ),
            Operand::Chain(_) | Operand::Assigned => Usage::Link(context),
            _ => Usage::Part(self.nonterminal(), context),
        }
    }
}

/// What stands before a property or arguments: in a chain before `?.`, or behind another link.
#[tactic(auto, unfolding(crate::specs::Operands::object_nonterminal))]
fn object_nonterminal(chain: Option<bool>) -> Nonterminal
    ensures { result ≡ object_nonterminal chain }
{
    match chain {
        None => Nonterminal::CallOrMember,
        Some(true) => Nonterminal::ChainBase,
        Some(false) => Nonterminal::OptionalExpression,
    }
}

/// Whether `[` of a property stands right behind, and no `?.`.
#[tactic(auto, unfolding(crate::specs::Operands::before_bracket))]
fn before_bracket(chain: Option<bool>) -> bool
    ensures { result ≡ before_bracket chain }
{
    match chain {
        Some(true) => false,
        _ => true,
    }
}

impl Usage {
    /// As this nonterminal in brackets, or behind a word of a statement.
    #[tactic(auto, unfolding(crate::specs::Operands::in_brackets))]
    pub(crate) fn in_brackets(place: Nonterminal) -> Usage
        ensures { result ≡ in_brackets place }
    {
        Usage::Part(place, Context::free(Parameters::script()))
    }

    /// The same under a restriction.
    #[tactic(auto, unfolding(crate::specs::Operands::under))]
    pub(crate) fn under(lookahead: Lookahead, place: Nonterminal) -> Usage
        ensures { result ≡ under lookahead place }
    {
        let context = Context::restricted(lookahead, Parameters::script());
        Usage::Part(place, context)
    }

    /// As what stands first in the head of `for (a; b; c) {}`.
    #[tactic(auto, unfolding(crate::specs::Operands::in_for_head))]
    pub(crate) fn in_for_head() -> Usage
        ensures { result ≡ in_for_head }
    {
        let context = Context::restricted(Lookahead::ForStart, for_parameters());
        Usage::Part(Nonterminal::Expression, context)
    }

    /// The same with the nonterminal and the context that an operand stands in, by those of the
    /// whole.
    #[tactic(auto, unfolding(crate::specs::Operands::within))]
    pub(crate) fn within(self, whole: Context) -> Usage
        ensures { result ≡ within whole self }
    {
        match self {
            Usage::Operand(operand) => operand.used(whole.chain, operand.context(whole)),
            _ => self,
        }
    }

    /// The context of what is used so: that of an operand, or what the place tells.
    #[tactic(auto, unfolding(crate::specs::Operands::stands_in))]
    pub(crate) fn context(self, place: Place) -> Context
        ensures { stands_in self result }
    {
        match self {
            Usage::Part(_, context)
            | Usage::Called(_, _, context)
            | Usage::CalledByNew(_, context)
            | Usage::Link(context) => context,
            Usage::Statement => Context::of_statement(),
            Usage::Decorator => Context::declared(),
            _ => Context {
                parameters: place.parameters(),
                lookahead: place.lookahead,
                chain: None,
            },
        }
    }

    /// Whether parentheses can't be left out round what a link holds that is used so: as a
    /// statement, an operand or a decorator it would lack them.
    #[tactic(auto, using(crate::proofs::Needed::not_true), unfolding(crate::specs::Needed::needs))]
    pub(crate) fn needs_parentheses<N: Lends>(self, link: &ExprBox<N>) -> bool
        ensures { result ≡ true → needs N.answers self link.now.node.value }
    {
        match self {
            Usage::Part(nonterminal, context) => are_needed(link, nonterminal, context),
            Usage::Called(nonterminal, before_bracket, context) => are_needed_before(
                link,
                nonterminal,
                before_bracket,
                context,
            ),
            Usage::CalledByNew(nonterminal, context) => are_needed_by_new(
                link,
                nonterminal,
                context.parameters,
            ),
            Usage::Statement => are_needed(link, Nonterminal::Expression, Context::of_statement()),
            Usage::Decorator => !is_decorator(link),
            _ => true,
        }
    }
}

/// Whether what a link holds may stand behind `@` as it is.
pub(crate) fn is_decorator<N: Answers>(link: &ExprBox<N>) -> bool
    ensures { result ≡ fits DecoratorShape (shape_in N.answers link.now.node.value) }
{
    Shape::Decorator.fits(link.target().shape())
}

/// Whether parentheses can't be left out round what a link holds, where this nonterminal stands in
/// this context.
#[tactic(auto, using(crate::proofs::Needed::forbidden, crate::proofs::Needed::underived))]
fn are_needed<N: Lends>(link: &ExprBox<N>, nonterminal: Nonterminal, context: Context) -> bool
    ensures { result ≡ true → (meets context.lookahead
        (begins_in N.answers link.now.node.value Expression) && derives nonterminal
        (N.answers link.now.node.value Expression context.parameters).facts) ≡ false }
{
    match context.lookahead {
        Some(lookahead) if lookahead.excludes(link.target().begins(Role::Expression)) => true,
        _ => link
            .target()
            .lacks_parentheses(nonterminal, context.parameters),
    }
}

/// Whether parentheses can't be left out round what `new` calls, in a text with `()` or in one that
/// is minified.
#[tactic(auto, using(crate::proofs::Needed::underived, crate::proofs::Needed::underived_first))]
fn are_needed_by_new<N: Lends>(
    link: &ExprBox<N>,
    nonterminal: Nonterminal,
    parameters: Parameters,
) -> bool
    ensures { result ≡ true → (derives nonterminal
        (N.answers link.now.node.value Expression parameters).facts && derives nonterminal
        (N.answers link.now.node.value Expression (minified parameters)).facts) ≡ false }
{
    let target = link.target();
    let minified = Parameters {
        minify: true,
        ..parameters
    };
    target.lacks_parentheses(nonterminal, parameters)
        || target.lacks_parentheses(nonterminal, minified)
}

/// Whether a member or a call begins with such a node.
#[tactic(auto, unfolding(swc_ecma_codegen_syntax::specs::Nonterminals::takes, swc_ecma_codegen_syntax::specs::Nonterminals::is_callee, swc_ecma_codegen_syntax::specs::Nonterminals::is_member))]
fn is_callee(nonterminal: Nonterminal) -> bool
    ensures { result ≡ takes CallOrMember nonterminal }
{
    matches!(
        nonterminal,
        Nonterminal::CallOrMember
            | Nonterminal::CallExpression
            | Nonterminal::MemberExpression
            | Nonterminal::PrimaryExpression
    )
}

/// Whether such a node stands before `?.`.
#[tactic(auto, unfolding(swc_ecma_codegen_syntax::specs::Nonterminals::takes, swc_ecma_codegen_syntax::specs::Nonterminals::is_chained, swc_ecma_codegen_syntax::specs::Nonterminals::is_member))]
fn is_chained(nonterminal: Nonterminal) -> bool
    ensures { result ≡ takes ChainBase nonterminal }
{
    matches!(
        nonterminal,
        Nonterminal::ChainBase
            | Nonterminal::OptionalExpression
            | Nonterminal::CallExpression
            | Nonterminal::MemberExpression
            | Nonterminal::PrimaryExpression
    )
}

/// Whether such a node is a chain, which another link goes on with.
#[tactic(auto, unfolding(swc_ecma_codegen_syntax::specs::Nonterminals::takes, swc_ecma_codegen_syntax::specs::Nonterminals::is_optional))]
fn is_chain(nonterminal: Nonterminal) -> bool
    ensures { result ≡ takes OptionalExpression nonterminal }
{
    matches!(nonterminal, Nonterminal::OptionalExpression)
}

/// Whether the object of a property, or what is called, can be such a node, where this nonterminal
/// stands.
fn takes_object(place: Nonterminal, nonterminal: Nonterminal) -> bool
    ensures { result ≡ false → takes place nonterminal ≡ false }
{
    match place {
        Nonterminal::CallOrMember => is_callee(nonterminal),
        Nonterminal::ChainBase => is_chained(nonterminal),
        Nonterminal::OptionalExpression => is_chain(nonterminal),
        _ => true,
    }
}

/// What a text begins with that goes on behind it, with `[` or another token.
#[tactic(auto, unfolding(swc_ecma_codegen_syntax::specs::Beginnings::goes_on, swc_ecma_codegen_syntax::specs::Beginnings::goes_on_in_brackets))]
fn behind(before_bracket: bool, begins: Beginning) -> Beginning
    ensures { result ≡ behind before_bracket begins }
{
    match begins {
        Beginning::LetAlone if before_bracket => Beginning::LetBracket,
        Beginning::LetAlone => Beginning::LetOther,
        Beginning::AsyncAlone => Beginning::Other,
        _ => begins,
    }
}

/// Whether what a link holds is called, or has a property, without parentheses round it.
#[tactic(auto, using(crate::proofs::Needed::underived, crate::proofs::Needed::underived_first), unfolding(crate::specs::Needed::derives))]
fn is_called_bare<N: Answers>(
    link: &ExprBox<N>,
    nonterminal: Nonterminal,
    parameters: Parameters,
) -> bool
    ensures { result ≡ false → derives nonterminal
        (N.answers link.now.node.value Callee parameters).facts ≡ false }
{
    let facts = link.target().answer(Role::Callee, parameters);
    let verdict = facts.verdict;
    takes_object(nonterminal, facts.nonterminal) && (verdict.covered && verdict.parenthesized)
}

/// Whether parentheses can't be left out round what a link holds that is called, or has a property.
#[tactic(auto, using(crate::proofs::Needed::forbidden))]
fn are_needed_before<N: Answers>(
    link: &ExprBox<N>,
    nonterminal: Nonterminal,
    before_bracket: bool,
    context: Context,
) -> bool
    ensures { result ≡ true → (meets context.lookahead
        (behind before_bracket (begins_in N.answers link.now.node.value Callee))
        && derives nonterminal
        (N.answers link.now.node.value Callee context.parameters).facts) ≡ false }
{
    let begins = behind(before_bracket, link.target().begins(Role::Callee));
    match context.lookahead {
        Some(lookahead) if lookahead.excludes(begins) => true,
        _ => !is_called_bare(link, nonterminal, context.parameters),
    }
}
