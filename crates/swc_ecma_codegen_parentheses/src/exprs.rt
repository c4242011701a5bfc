//! Expressions.

ghost use Rattle.swc_ecma_codegen_parentheses.specs.SameExprs.{same_expr};

use crate::lends::Lends;
use crate::levels::{of_operator, takes};
use crate::members::has_arguments;
use crate::mends::{Mend, Mends, Stop};
use crate::places::Place;
use std::alloc::Global;
use swc_ecma_codegen_common::BinaryOp;
use swc_ecma_codegen_grammar::roles::Role;
use swc_ecma_codegen_syntax::{Answers, Nonterminal, Parameters};
use swc_ecma_codegen_tree::{
    AssignTarget, AssignTargetBox, Callee, Expr, ExprBox, NewExpr, SimpleAssignTarget,
};

/// What a member or a tag is, by what it stands behind: that is asked only where it counts, behind
/// `new`.
fn call_or_member<N: Answers>(object: &ExprBox<N>, place: Nonterminal) -> Nonterminal {
    if takes(place, Nonterminal::CallExpression) == takes(place, Nonterminal::MemberExpression) {
        return Nonterminal::MemberExpression;
    }
    let told = object.target().answer(Role::Callee, Parameters::script());
    match told.nonterminal {
        Nonterminal::CallExpression => Nonterminal::CallExpression,
        _ => Nonterminal::MemberExpression,
    }
}

/// What `new` is, with arguments or without.
fn new_nonterminal<N>(node: &NewExpr<N>, place: Place) -> Nonterminal {
    let keeps_arguments = place.is_called || place.is_called_by_empty_new;
    if has_arguments(&node.args, place.may_minify && !keeps_arguments) {
        Nonterminal::MemberExpression
    } else {
        Nonterminal::NewExpression
    }
}

/// What `a!` is: a chain where `a` is one, which goes on behind it as `a?.b!.c` does, and a call
/// where `a` is one.
fn non_null<N: Lends>(operand: &ExprBox<N>, place: Nonterminal) -> Nonterminal {
    match operand.get() {
        Some(Expr::OptChain(_)) => Nonterminal::OptionalExpression,
        _ => call_or_member(operand, place),
    }
}

/// The nonterminal whose production derives an expression. That of TypeScript's is one of the same
/// level, by docs/LEVELS.md.
fn nonterminal<N: Lends>(expr: &Expr<N>, place: Place) -> Nonterminal {
    match expr {
        Expr::Unary(_) | Expr::Await(_) | Expr::TsTypeAssertion(_) => Nonterminal::UnaryExpression,
        Expr::Update(_) => Nonterminal::UpdateExpression,
        Expr::Bin(node) => of_operator(node.op),
        Expr::Assign(_) | Expr::Yield(_) | Expr::Arrow(_) => Nonterminal::AssignmentExpression,
        Expr::TsInstantiation(_) => Nonterminal::AssignmentExpression,
        Expr::TsAs(_) | Expr::TsSatisfies(_) | Expr::TsConstAssertion(_) =>
            Nonterminal::RelationalExpression,
        Expr::TsNonNull(node) => non_null(&node.expr, place.nonterminal),
        Expr::Cond(_) => Nonterminal::ConditionalExpression,
        Expr::Seq(_) => Nonterminal::Expression,
        Expr::Member(node) => call_or_member(&node.obj, place.nonterminal),
        Expr::TaggedTpl(node) => call_or_member(&node.tag, place.nonterminal),
        Expr::Call(_) => Nonterminal::CallExpression,
        Expr::New(node) => new_nonterminal(node, place),
        Expr::OptChain(_) => Nonterminal::OptionalExpression,
        Expr::PrivateName(_) => Nonterminal::PrivateIdentifier,
        Expr::SuperProp(_) | Expr::MetaProp(_) => Nonterminal::MemberExpression,
        _ => Nonterminal::PrimaryExpression,
    }
}

/// Whether a target begins with another node: `{a} = b` is enclosed whole, and of `{}.a = b` the
/// object alone.
fn begins_with_object<N: Lends>(target: &AssignTargetBox<N>) -> bool {
    matches!(
        target.get(),
        Some(AssignTarget::Simple(SimpleAssignTarget::Member(_)))
    )
}

/// Whether an expression begins with another one.
fn begins_with_other<N: Lends>(expr: &Expr<N>) -> bool {
    match expr {
        Expr::Bin(_) | Expr::Cond(_) | Expr::Seq(_) | Expr::Member(_) => true,
        Expr::TaggedTpl(_) | Expr::OptChain(_) => true,
        Expr::TsAs(_) | Expr::TsSatisfies(_) | Expr::TsConstAssertion(_) => true,
        Expr::TsNonNull(_) | Expr::TsInstantiation(_) => true,
        Expr::Call(node) => matches!(node.callee, Callee::Expr(_)),
        Expr::Update(node) => !node.prefix,
        Expr::Assign(node) => begins_with_object(&node.left),
        _ => false,
    }
}

/// Whether an expression has an operator where it is none, or ends with an element of JSX or a type
/// that what stands behind goes on with.
fn clashes<N>(expr: &Expr<N>, place: Place) -> bool {
    match expr {
        Expr::Bin(node) => matches!(node.op, BinaryOp::In) && !place.has_in,
        Expr::JSXElement(_) | Expr::JSXFragment(_) => place.before_less,
        Expr::TsAs(_) | Expr::TsSatisfies(_) | Expr::TsConstAssertion(_) => place.before_less
            || place.before_type_operator,
        _ => false,
    }
}

/// Whether parentheses round an expression are missing where it stands.
pub(crate) fn wants_parentheses<N: Lends>(expr: &Expr<N>, place: Place) -> bool {
    let part = nonterminal(expr, place);
    let may_stand = takes(place.nonterminal, Nonterminal::PrimaryExpression)
        && takes(Nonterminal::Expression, part);
    let is_excluded = place.is_restricted && !begins_with_other(expr);
    let is_unfit = place.has_other_shape || clashes(expr, place) || is_excluded;
    may_stand && (!takes(place.nonterminal, part) || is_unfit)
}

impl<N: Answers, M: Mends<N>> Mend<N, M> for Expr<N> {
    ghost same = { same_expr };

    #[tactic(auto, using(crate::specs::SameExprs::unchanged))]
    fn mend(&mut self, mender: &M, alloc: Global, place: Place) -> Result<(), Stop> {
        match self {
            Expr::Array(node) => node.mend(mender, alloc, place),
            Expr::Object(node) => node.mend(mender, alloc, place),
            Expr::Fn(node) => node.mend(mender, alloc, place),
            Expr::Unary(node) => node.mend(mender, alloc, place),
            Expr::Update(node) => node.mend(mender, alloc, place),
            Expr::Bin(node) => node.mend(mender, alloc, place),
            Expr::Assign(node) => node.mend(mender, alloc, place),
            Expr::Member(node) => {
                let within = place.bracketed(Nonterminal::CallOrMember).beginning(place);
                node.mend(mender, alloc, within)
            }
            Expr::SuperProp(node) => node.mend(mender, alloc, place),
            Expr::Cond(node) => node.mend(mender, alloc, place),
            Expr::Call(node) => node.mend(mender, alloc, place),
            Expr::New(node) => node.mend(mender, alloc, place),
            Expr::Seq(node) => node.mend(mender, alloc, place),
            Expr::Tpl(node) => node.mend(mender, alloc, place),
            Expr::TaggedTpl(node) => node.mend(mender, alloc, place),
            Expr::Arrow(node) => node.mend(mender, alloc, place),
            Expr::Class(node) => node.mend(mender, alloc, place),
            Expr::Yield(node) => node.mend(mender, alloc, place),
            Expr::Await(node) => node.mend(mender, alloc, place),
            Expr::Paren(node) => node.mend(mender, alloc, place),
            Expr::JSXElement(node) => node.mend(mender, alloc, place),
            Expr::JSXFragment(node) => node.mend(mender, alloc, place),
            Expr::OptChain(node) => node.mend(mender, alloc, place),
            Expr::TsTypeAssertion(node) => node.mend(mender, alloc, place),
            Expr::TsConstAssertion(node) => node.mend(mender, alloc, place),
            Expr::TsNonNull(node) => node.mend(mender, alloc, place),
            Expr::TsAs(node) => node.mend(mender, alloc, place),
            Expr::TsInstantiation(node) => node.mend(mender, alloc, place),
            Expr::TsSatisfies(node) => node.mend(mender, alloc, place),
            Expr::This(_) | Expr::Ident(_) | Expr::Lit(_) | Expr::MetaProp(_) => Ok(()),
            Expr::JSXMember(_) | Expr::JSXNamespacedName(_) | Expr::JSXEmpty(_) => Ok(()),
            Expr::PrivateName(_) | Expr::Invalid(_) => Ok(()),
        }
    }
}
