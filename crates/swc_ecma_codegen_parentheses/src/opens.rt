//! What links hold is taken out of parentheses.

ghost use Rattle.std.specs.Prelude.{◌≡◌, Option, true};
ghost use Rattle.std.specs.Option.{is_some, option_copied};
ghost use Rattle.swc_ecma_codegen_tree.specs.declared.pats.AssignTarget.{AssignTarget};
ghost use Rattle.swc_ecma_codegen_tree.specs.declared.links.AnyNode.{out-AnyNode};
ghost use Rattle.swc_ecma_codegen_parentheses.specs.declared.opens.Standing.{Standing};
ghost use Rattle.swc_ecma_codegen_parentheses.specs.Bare.{is_property, is_string, opened, opened_node, out_of_pair, property_in, stays, target_of};

use std::mem;
use swc_ecma_codegen_common::DUMMY_SP;
use swc_ecma_codegen_tree::{
    AnyNode, AssignTarget, Expr, Holds, HoldsMut, Invalid, Lit, SimpleAssignTarget,
};

/// Where an expression stands, as far as a pair of parentheses round it means something there.
#[derive(Clone, Copy)]
pub(crate) enum Standing {
    /// Its value is used.
    Value,
    /// It is a statement, as `"use strict"`, which is a directive, and `("use strict")`, which is
    /// none.
    Statement,
    /// It is assigned to, as `a` in `[a] = b`.
    Target,
}

/// What links hold, which may be an expression in parentheses.
pub(crate) trait Opens: Sized {
    /// The same out of its pair of parentheses, unless that stays.
    ghost opened: { Standing → Self → Self };

    /// The property that it is, as what is assigned to.
    ghost property: { Self → Option (AssignTarget Self) };

    /// Takes an expression out of its pair of parentheses, unless that stays.
    fn open_pair(&mut self, standing: Standing)
        ensures { self.new ≡ opened standing self.old };

    /// Whether it is a property.
    fn is_property(&self) -> bool
        ensures { result ≡ is_some (property self.now) };

    /// The property as what is assigned to.
    fn into_target(self) -> Option<AssignTarget<Self>>
        ensures { result ≡ property self };

    /// An expression that stands for none.
    fn nothing() -> Self;
}

/// Whether an expression is a string.
fn is_string<N>(expr: &Expr<N>) -> bool
    ensures { result ≡ is_string expr.now }
{
    matches!(expr, Expr::Lit(Lit::Str(_)))
}

/// Whether an expression is a property, as `a.b`.
fn is_property<N>(expr: &Expr<N>) -> bool
    ensures { result ≡ is_property expr.now }
{
    matches!(expr, Expr::Member(_) | Expr::SuperProp(_))
}

/// Whether a pair of parentheses stays by what stands in it: `("use strict")` as a statement is no
/// directive, and `(a) = function () {}` gives the function no name. A property stands in a pattern
/// without them: `[(a.b)] = c` is `[a.b] = c`.
fn stays<N>(standing: Standing, inside: Option<&Expr<N>>) -> bool
    ensures { result ≡ stays standing (option_copied inside.entry) }
{
    match inside {
        Some(inside) => match standing {
            Standing::Value => false,
            Standing::Statement => is_string(inside),
            Standing::Target => !is_property(inside),
        },
        None => false,
    }
}

/// A property as a target.
fn target_of<N: Drop>(expr: Expr<N>) -> Option<AssignTarget<N>>
    ensures { result ≡ target_of expr }
{
    match expr {
        Expr::Member(node) => Some(AssignTarget::Simple(SimpleAssignTarget::Member(node))),
        Expr::SuperProp(node) => Some(AssignTarget::Simple(SimpleAssignTarget::SuperProp(node))),
        _ => None,
    }
}

/// An expression that stands for none.
fn nothing<N>() -> Expr<N> {
    Expr::Invalid(Invalid { span: DUMMY_SP })
}

impl Opens for AnyNode {
    ghost opened = { opened_node };

    ghost property = { property_in };

    #[tactic(auto, unfolding(crate::specs::Bare::opened))]
    fn open_pair(&mut self, standing: Standing) {
        match self {
            AnyNode::Expr(expr) => match expr {
                Expr::Paren(pair) => {
                    if !stays(standing, pair.expr.get()) {
                        *self = pair.expr.replace_target(AnyNode::nothing());
                    }
                }
                _ => {}
            },
            _ => {}
        }
    }

    fn is_property(&self) -> bool {
        match self {
            AnyNode::Expr(expr) => is_property(expr),
            _ => false,
        }
    }

    fn into_target(self) -> Option<AssignTarget> {
        match <AnyNode as Holds<Expr>>::into_node(self) {
            Ok(expr) => target_of(expr),
            Err(_) => None,
        }
    }

    fn nothing() -> AnyNode {
        AnyNode::Expr(nothing())
    }
}

/// The expression in a pair of parentheses in the place of the pair. Whether there is one, where it
/// is a pair.
pub(crate) fn is_out_of_pair<N: HoldsMut<Expr<N>> + Drop>(expr: &mut Expr<N>) -> bool
    ensures { result ≡ true → expr.new ≡ out_of_pair N.node_in expr.old }
{
    match expr {
        Expr::Paren(pair) => match pair.expr.get_mut() {
            Some(inside) => {
                *expr = mem::replace(inside, nothing());
                true
            }
            None => false,
        },
        _ => true,
    }
}
