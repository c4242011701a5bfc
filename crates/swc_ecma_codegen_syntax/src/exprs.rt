//! Expressions.

ghost use Rattle.std.specs.Prelude.{◌≡◌, not};
ghost use Rattle.swc_ecma_codegen_grammar.specs.declared.roles.Role.TheVariants.{Template, Element};
ghost use Rattle.swc_ecma_codegen_syntax.specs.declared.nonterminals.Nonterminal.TheVariants.{PrimaryExpression, TemplateLiteral, JSXElement};
ghost use Rattle.swc_ecma_codegen_syntax.specs.Forms.{Part, Provided, ByPlace, judge};
ghost use Rattle.swc_ecma_codegen_syntax.specs.Parameters.{with_in};
ghost use Rattle.swc_ecma_codegen_syntax.specs.Verdicts.{unasked};
ghost use Rattle.swc_ecma_codegen_syntax.specs.MemberForms.{prop_form, super_form, super_prop_form, chain_member_form, opt_chain_form, member_form, tagged_form};
ghost use Rattle.swc_ecma_codegen_syntax.specs.ExprForms.{unary_form, update_form, is_in, binary_nonterminal, left_nonterminal, right_nonterminal, bin_form, cond_form, target_of, assign_form, yield_rest_form, yield_form, await_form, seq_form, paren_form, call_or_member};
ghost use Rattle.swc_ecma_codegen_syntax.specs.NodeForms.{expr_facts, other_facts, target_facts};
ghost use Rattle.swc_ecma_codegen_tree.specs.declared.exprs.Expr.TheVariants as exprs;

use crate::calls::{chained, new, new_nonterminal, type_args};
use crate::forms::{Answers, Stands, all_exprs};
use crate::names::{is_assignable, lit, name};
use crate::nonterminals::{Nonterminal, is_call};
use crate::objects::computed;
use crate::operators::{
    binary_nonterminal, is_in, is_less, left_nonterminal, right_nonterminal, target_of,
};
use crate::parameters::{Parameters, before_operator, may_await, may_yield, to_end, with_in};
use crate::verdicts::{Facts, Verdict};
use swc_ecma_codegen_grammar::roles::Role;
use swc_ecma_codegen_tree::{
    AssignExpr, AwaitExpr, BinExpr, CondExpr, Expr, Ident, Link, MemberExpr, MemberProp, NewExpr,
    OptChainBase, OptChainExpr, ParenExpr, SeqExpr, SuperProp, SuperPropExpr, TaggedTpl, TplBox,
    UnaryExpr, UpdateExpr, YieldExpr,
};

impl<N: Answers> Stands for UnaryExpr<N> {
    ghost judged = { λ c n v. judge N.answers v (unary_form c n) };

    #[tactic(auto, unfolding(crate::specs::ExprForms::unary_form, crate::specs::Forms::judge))]
    fn judge(&self, so_far: Verdict, parameters: Parameters) -> Verdict {
        so_far.part(
            &self.arg,
            Nonterminal::UnaryExpression,
            to_end(parameters),
            Role::Expression,
        )
    }
}

impl<N: Answers> Stands for UpdateExpr<N> {
    ghost judged = { λ c n v. judge N.answers v (update_form c n) };

    #[tactic(auto, unfolding(crate::specs::ExprForms::update_form, crate::specs::Forms::judge))]
    fn judge(&self, so_far: Verdict, parameters: Parameters) -> Verdict {
        if self.prefix {
            so_far.simple(
                &self.arg,
                true,
                Nonterminal::UnaryExpression,
                with_in(parameters),
            )
        } else {
            so_far.simple(
                &self.arg,
                true,
                Nonterminal::LeftHandSideExpression,
                with_in(parameters),
            )
        }
    }
}

impl<N: Answers> Stands for BinExpr<N> {
    ghost judged = { λ c n v. judge N.answers v (bin_form c n) };

    #[tactic(auto, unfolding(crate::specs::ExprForms::bin_form, crate::specs::Forms::judge, crate::specs::Forms::asked))]
    fn judge(&self, so_far: Verdict, parameters: Parameters) -> Verdict {
        so_far
            .by_place(!is_in(self.op) || parameters.has_in)
            .part(
                &self.left,
                left_nonterminal(self.op),
                before_operator(is_less(self.op), parameters),
                Role::Expression,
            )
            .part(
                &self.right,
                right_nonterminal(self.op),
                parameters,
                Role::Expression,
            )
    }
}

impl<N: Answers> Stands for AssignExpr<N> {
    ghost judged = { λ c n v. judge N.answers v (assign_form c n) };

    #[tactic(auto, unfolding(crate::specs::ExprForms::assign_form, crate::specs::Forms::judge))]
    fn judge(&self, so_far: Verdict, parameters: Parameters) -> Verdict {
        so_far
            .part(
                &self.left,
                target_of(self.op),
                with_in(parameters),
                Role::AssignmentTarget,
            )
            .part(
                &self.right,
                Nonterminal::AssignmentExpression,
                parameters,
                Role::Expression,
            )
    }
}

impl<N: Answers> Stands for CondExpr<N> {
    ghost judged = { λ c n v. judge N.answers v (cond_form c n) };

    #[tactic(auto, unfolding(crate::specs::ExprForms::cond_form, crate::specs::Forms::judge))]
    fn judge(&self, so_far: Verdict, parameters: Parameters) -> Verdict {
        so_far
            .part(
                &self.test,
                Nonterminal::ShortCircuitExpression,
                parameters,
                Role::Expression,
            )
            .part(
                &self.cons,
                Nonterminal::AssignmentExpression,
                with_in(parameters),
                Role::Expression,
            )
            .part(
                &self.alt,
                Nonterminal::AssignmentExpression,
                parameters,
                Role::Expression,
            )
    }
}

impl<N: Answers> Stands for SeqExpr<N> {
    ghost judged = { λ c n v. judge N.answers v (seq_form c n) };

    #[tactic(auto, using(crate::proofs::ExprsJudged::few_judged, crate::proofs::ExprsJudged::many_judged), unfolding(crate::specs::ExprForms::seq_form))]
    fn judge(&self, so_far: Verdict, parameters: Parameters) -> Verdict {
        let place = Nonterminal::AssignmentExpression;
        if self.exprs.len() < 2 {
            all_exprs(so_far.by_rule(false), &self.exprs, place, parameters)
        } else {
            all_exprs(so_far, &self.exprs, place, parameters)
        }
    }
}

impl<N: Answers> Stands for MemberProp<N> {
    ghost judged = { λ c n v. judge N.answers v (prop_form c n) };

    #[tactic(auto, unfolding(crate::specs::MemberForms::prop_form, crate::specs::Forms::judge))]
    fn judge(&self, so_far: Verdict, parameters: Parameters) -> Verdict {
        match self {
            MemberProp::Ident(_) | MemberProp::PrivateName(_) => so_far,
            MemberProp::Computed(name) => computed(
                so_far,
                name,
                Nonterminal::Expression,
                parameters,
            ),
        }
    }
}

impl<N: Answers> Stands for SuperPropExpr<N> {
    ghost judged = { λ c n v. judge N.answers v (super_prop_form c n) };

    #[tactic(auto, unfolding(crate::specs::MemberForms::super_prop_form, crate::specs::MemberForms::super_form, crate::specs::Forms::judge))]
    fn judge(&self, so_far: Verdict, parameters: Parameters) -> Verdict {
        match &self.prop {
            SuperProp::Ident(_) => so_far,
            SuperProp::Computed(name) => computed(
                so_far,
                name,
                Nonterminal::Expression,
                parameters,
            ),
        }
    }
}

/// The verdict so far, and of a link of a chain.
#[tactic(auto, using(crate::proofs::ExprsJudged::chain_prop_judged), unfolding(crate::specs::MemberForms::chain_member_form, crate::specs::Forms::judge))]
pub(crate) fn chain_member<N: Answers>(
    so_far: Verdict,
    optional: bool,
    member: &MemberExpr<N>,
    parameters: Parameters,
) -> Verdict
    ensures { result ≡ judge N.answers so_far (chain_member_form parameters optional member.now) }
{
    let verdict = so_far.part(
        &member.obj,
        chained(optional),
        with_in(parameters),
        Role::Callee,
    );
    member.prop.judge(verdict, parameters)
}

impl<N: Answers> Stands for OptChainExpr<N> {
    ghost judged = { λ c n v. judge N.answers v (opt_chain_form c n) };

    #[tactic(auto, unfolding(crate::specs::MemberForms::opt_chain_form, crate::specs::MemberForms::chain_base_form, crate::specs::Forms::judge))]
    fn judge(&self, so_far: Verdict, parameters: Parameters) -> Verdict {
        match &self.base {
            OptChainBase::Member(node) => so_far.part(
                node,
                Nonterminal::OptionalChain,
                parameters,
                Role::ChainMember(self.optional),
            ),
            OptChainBase::Call(node) => so_far.part(
                node,
                Nonterminal::OptionalChain,
                parameters,
                Role::ChainCall(self.optional),
            ),
        }
    }
}

impl<N: Answers> Stands for YieldExpr<N> {
    ghost judged = { λ c n v. judge N.answers v (yield_form c n) };

    #[tactic(auto, unfolding(crate::specs::ExprForms::yield_form, crate::specs::ExprForms::yield_rest_form, crate::specs::ExprForms::yield_arg_form, crate::specs::Forms::judge, crate::specs::Forms::asked))]
    fn judge(&self, so_far: Verdict, parameters: Parameters) -> Verdict {
        let verdict = so_far.by_rule(may_yield(parameters));
        match (&self.arg, self.delegate) {
            (Some(arg), _) => {
                verdict.part(
                    arg,
                    Nonterminal::AssignmentExpression,
                    parameters,
                    Role::Expression,
                )
            }
            (None, true) => verdict.by_rule(false),
            (None, false) => verdict,
        }
    }
}

impl<N: Answers> Stands for AwaitExpr<N> {
    ghost judged = { λ c n v. judge N.answers v (await_form c n) };

    #[tactic(auto, unfolding(crate::specs::ExprForms::await_form, crate::specs::Forms::judge, crate::specs::Forms::asked))]
    fn judge(&self, so_far: Verdict, parameters: Parameters) -> Verdict {
        so_far.by_rule(may_await(parameters)).part(
            &self.arg,
            Nonterminal::UnaryExpression,
            to_end(parameters),
            Role::Expression,
        )
    }
}

/// What a member or a tag is, by what it stands behind.
fn call_or_member(called: bool) -> Nonterminal
    ensures { result ≡ call_or_member called }
{
    if called {
        Nonterminal::CallExpression
    } else {
        Nonterminal::MemberExpression
    }
}

/// The facts of an expression that is no target.
pub(crate) fn other_facts(nonterminal: Nonterminal, verdict: Verdict) -> Facts
    ensures { result ≡ other_facts nonterminal verdict }
{
    Facts {
        nonterminal,
        is_simple: false,
        is_name: false,
        verdict,
    }
}

/// The facts of a target by itself.
fn target_facts(nonterminal: Nonterminal, verdict: Verdict) -> Facts
    ensures { result ≡ target_facts nonterminal verdict }
{
    Facts {
        nonterminal,
        is_simple: true,
        is_name: false,
        verdict,
    }
}

/// What a member tells. What it stands behind is asked once.
#[tactic(auto, unfolding(crate::specs::NodeForms::expr_facts, crate::specs::NodeForms::is_called, crate::specs::NodeForms::is_simple_expr, crate::specs::NodeForms::is_name_expr, crate::specs::ExprForms::expr_nonterminal, crate::specs::ExprForms::expr_form, crate::specs::MemberForms::member_form, crate::specs::Forms::judge))]
fn member_facts<N: Answers>(member: &MemberExpr<N>, keeps: bool, parameters: Parameters) -> Facts
    ensures { result ≡ expr_facts N.answers keeps parameters (exprs.Member member.now) }
{
    let object = member
        .obj
        .target()
        .answer(Role::Callee, with_in(parameters));
    let nonterminal = call_or_member(is_call(object.nonterminal));
    let verdict = Verdict::unasked().of_part(nonterminal, object);
    target_facts(nonterminal, member.prop.judge(verdict, parameters))
}

/// What a template with a tag tells.
#[tactic(auto, unfolding(crate::specs::NodeForms::expr_facts, crate::specs::NodeForms::is_called, crate::specs::NodeForms::is_simple_expr, crate::specs::NodeForms::is_name_expr, crate::specs::ExprForms::expr_nonterminal, crate::specs::ExprForms::expr_form, crate::specs::MemberForms::tagged_form, crate::specs::Forms::judge))]
fn tagged_facts<N: Answers>(tagged: &TaggedTpl<N>, keeps: bool, parameters: Parameters) -> Facts
    ensures { result ≡ expr_facts N.answers keeps parameters (exprs.TaggedTpl tagged.now) }
{
    let tag = tagged
        .tag
        .target()
        .answer(Role::Callee, with_in(parameters));
    let nonterminal = call_or_member(is_call(tag.nonterminal));
    let verdict = Verdict::unasked().of_part(nonterminal, tag);
    let verdict = type_args(verdict, &tagged.type_params, parameters);
    other_facts(
        nonterminal,
        verdict.part(
            &tagged.tpl,
            Nonterminal::TemplateLiteral,
            with_in(parameters),
            Role::TaggedTemplate,
        ),
    )
}

/// What parentheses tell: they are a target where what they hold is one.
#[tactic(auto, unfolding(crate::specs::NodeForms::expr_facts, crate::specs::NodeForms::is_called, crate::specs::NodeForms::is_simple_expr, crate::specs::NodeForms::is_name_expr, crate::specs::ExprForms::expr_nonterminal, crate::specs::ExprForms::expr_form, crate::specs::ExprForms::paren_form, crate::specs::Forms::judge))]
fn paren_facts<N: Answers>(paren: &ParenExpr<N>, keeps: bool, parameters: Parameters) -> Facts
    ensures { result ≡ expr_facts N.answers keeps parameters (exprs.Paren paren.now) }
{
    let inside = paren
        .expr
        .target()
        .answer(Role::Expression, with_in(parameters));
    Facts {
        nonterminal: Nonterminal::PrimaryExpression,
        is_simple: inside.is_simple,
        is_name: false,
        verdict: Verdict::unasked().of_part(Nonterminal::Expression, inside),
    }
}

/// What a node tells that is no target.
fn plain<T: Stands>(node: &T, nonterminal: Nonterminal, parameters: Parameters) -> Facts
    ensures { result ≡ other_facts nonterminal (T.judged parameters node.now unasked) }
{
    other_facts(nonterminal, node.judge(Verdict::unasked(), parameters))
}

/// What a name tells.
#[tactic(auto, unfolding(crate::specs::NodeForms::expr_facts, crate::specs::NodeForms::is_called, crate::specs::NodeForms::is_simple_expr, crate::specs::NodeForms::is_name_expr, crate::specs::ExprForms::expr_nonterminal, crate::specs::ExprForms::expr_form))]
fn name_facts<N: Answers>(ident: &Ident, keeps: bool, parameters: Parameters) -> Facts
    ensures { result ≡ expr_facts N.answers keeps parameters (exprs.Ident ident.now) }
{
    Facts {
        nonterminal: Nonterminal::PrimaryExpression,
        is_simple: is_assignable(&ident.sym, parameters.is_strict),
        is_name: true,
        verdict: name::<N>(Verdict::unasked(), ident, parameters),
    }
}

/// What `new` tells.
#[tactic(auto, unfolding(crate::specs::NodeForms::expr_facts, crate::specs::NodeForms::is_called, crate::specs::NodeForms::is_simple_expr, crate::specs::NodeForms::is_name_expr, crate::specs::ExprForms::expr_nonterminal, crate::specs::ExprForms::expr_form))]
fn new_facts<N: Answers>(node: &NewExpr<N>, keeps: bool, parameters: Parameters) -> Facts
    ensures { result ≡ expr_facts N.answers keeps parameters (exprs.New node.now) }
{
    other_facts(
        new_nonterminal(keeps, node, parameters),
        new(Verdict::unasked(), keeps, node, parameters),
    )
}

/// What a template tells.
#[tactic(auto, unfolding(crate::specs::Forms::judge))]
fn tpl_facts<N: Answers>(link: &TplBox<N>, parameters: Parameters) -> Facts
    ensures { result ≡ other_facts PrimaryExpression
        (judge N.answers unasked
        (Part TemplateLiteral (with_in parameters) Template link.now.node.value)) }
{
    let verdict = Verdict::unasked().part(
        link,
        Nonterminal::TemplateLiteral,
        with_in(parameters),
        Role::Template,
    );
    other_facts(Nonterminal::PrimaryExpression, verdict)
}

/// The verdict so far, and of an element of JSX.
#[tactic(auto, unfolding(crate::specs::Forms::judge, crate::specs::Forms::asked))]
fn jsx_expr<K, N: Answers>(so_far: Verdict, link: &Link<K, N>, parameters: Parameters) -> Verdict
    ensures { result ≡ judge N.answers so_far
        (Provided ByPlace (not parameters.before_less)
        (Part JSXElement (with_in parameters) Element link.now.node.value)) }
{
    so_far.by_place(!parameters.before_less).part(
        link,
        Nonterminal::JSXElement,
        with_in(parameters),
        Role::Element,
    )
}

/// What an expression tells; `keeps` says that it is called, or has a property.
#[tactic(auto, unfolding(crate::specs::NodeForms::expr_facts, crate::specs::NodeForms::is_called, crate::specs::NodeForms::is_simple_expr, crate::specs::NodeForms::is_name_expr, crate::specs::ExprForms::expr_nonterminal, crate::specs::ExprForms::expr_form, crate::specs::Forms::judge, crate::specs::Forms::asked))]
pub(crate) fn expr_facts<N: Answers>(expr: &Expr<N>, keeps: bool, parameters: Parameters) -> Facts
    ensures { result ≡ expr_facts N.answers keeps parameters expr.now }
{
    let start = Verdict::unasked();
    match expr {
        Expr::Member(node) => member_facts(node, keeps, parameters),
        Expr::TaggedTpl(node) => tagged_facts(node, keeps, parameters),
        Expr::Paren(node) => paren_facts(node, keeps, parameters),
        Expr::Ident(node) => name_facts::<N>(node, keeps, parameters),
        Expr::New(node) => new_facts(node, keeps, parameters),
        Expr::Tpl(node) => tpl_facts(node, parameters),
        Expr::SuperProp(node) => {
            target_facts(Nonterminal::MemberExpression, node.judge(start, parameters))
        }
        Expr::Array(node) => plain(node, Nonterminal::PrimaryExpression, parameters),
        Expr::JSXElement(link) => other_facts(
            Nonterminal::PrimaryExpression,
            jsx_expr(start, link, parameters),
        ),
        Expr::JSXFragment(link) => other_facts(
            Nonterminal::PrimaryExpression,
            jsx_expr(start, link, parameters),
        ),
        Expr::Object(node) => plain(node, Nonterminal::PrimaryExpression, parameters),
        Expr::Unary(node) => plain(node, Nonterminal::UnaryExpression, parameters),
        Expr::Update(node) => plain(node, Nonterminal::UpdateExpression, parameters),
        Expr::Bin(node) => plain(node, binary_nonterminal(node.op), parameters),
        Expr::Assign(node) => plain(node, Nonterminal::AssignmentExpression, parameters),
        Expr::Cond(node) => plain(node, Nonterminal::ConditionalExpression, parameters),
        Expr::Call(node) => plain(node, Nonterminal::CallExpression, parameters),
        Expr::Seq(node) => plain(node, Nonterminal::Expression, parameters),
        Expr::Yield(node) => plain(node, Nonterminal::AssignmentExpression, parameters),
        Expr::Await(node) => plain(node, Nonterminal::UnaryExpression, parameters),
        Expr::OptChain(node) => plain(node, Nonterminal::OptionalExpression, parameters),
        Expr::Fn(node) => plain(node, Nonterminal::PrimaryExpression, parameters),
        Expr::Class(node) => plain(node, Nonterminal::PrimaryExpression, parameters),
        Expr::Arrow(node) => other_facts(
            Nonterminal::AssignmentExpression,
            node.judge(start, parameters),
        ),
        Expr::Lit(node) => other_facts(Nonterminal::PrimaryExpression, lit::<N>(start, node)),
        Expr::This(_) => other_facts(Nonterminal::PrimaryExpression, start),
        Expr::MetaProp(_) => other_facts(Nonterminal::MemberExpression, start),
        Expr::PrivateName(_) => other_facts(Nonterminal::PrivateIdentifier, start),
        _ => other_facts(Nonterminal::PrimaryExpression, start.by_scope(false)),
    }
}
