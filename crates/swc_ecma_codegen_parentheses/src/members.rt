//! Members, calls and `new`, arrays and templates.

ghost use Rattle.std.specs.Prelude.{◌≡◌};
ghost use Rattle.std.specs.Result.{OnOk};
ghost use Rattle.swc_ecma_codegen_parentheses.specs.SameExprs.{new_operand, object_operand, same_member_prop, same_member_expr, same_super_prop, same_super_prop_expr, same_expr_or_spread, same_array_lit, same_callee, same_call_expr, same_new_expr, same_opt_chain_base, same_opt_chain_expr, same_opt_call, same_tagged_tpl, same_tpl};

use crate::mends::{Mend, Mends, Stop, Usage, mend_bracketed, mend_each};
use crate::objects::mend_computed;
use crate::operands::Operand;
use crate::places::Place;
use std::alloc::Global;
use swc_ecma_codegen_syntax::{Answers, Nonterminal};
use swc_ecma_codegen_tree::{
    ArrayLit, CallExpr, Callee, ExprOrSpread, MemberExpr, MemberProp, NewExpr, OptCall,
    OptChainBase, OptChainExpr, SuperProp, SuperPropExpr, TaggedTpl, Tpl,
};

/// Whether `new` has arguments as it is printed, where they are left away that are none.
pub(crate) fn has_arguments<N>(args: &Option<Vec<ExprOrSpread<N>>>, drops_none: bool) -> bool {
    match args {
        Some(args) => !drops_none || !args.is_empty(),
        None => false,
    }
}

/// Where what `new` calls stands.
fn called_by_new<N>(args: &Option<Vec<ExprOrSpread<N>>>, place: Place) -> Place {
    let is_bare = !has_arguments(args, place.must_minify && !place.is_called);
    let may_be_bare = !has_arguments(args, place.may_minify && !place.is_called);
    let nonterminal = if is_bare {
        Nonterminal::NewExpression
    } else {
        Nonterminal::MemberExpression
    };
    if may_be_bare {
        place.to_end(nonterminal).called_by_new(!is_bare)
    } else {
        place.bracketed(nonterminal)
    }
}

/// Which operand is called by `new`, with arguments or without.
#[tactic(auto, unfolding(crate::specs::SameExprs::new_operand, crate::specs::SameExprs::called_with))]
fn new_operand<A>(args: &Option<Vec<A>>) -> Operand
    ensures { result ≡ new_operand args.now }
{
    match args {
        None => Operand::New,
        Some(args) if args.is_empty() => Operand::NewEmpty,
        Some(_) => Operand::NewCalled,
    }
}

/// Which operand the object of a property is.
#[tactic(auto, unfolding(crate::specs::SameExprs::object_operand))]
fn object_operand<N>(prop: &MemberProp<N>) -> Operand
    ensures { result ≡ object_operand prop.now }
{
    match prop {
        MemberProp::Computed(_) => Operand::Indexed,
        _ => Operand::Called,
    }
}

/// What a link of a chain stands behind.
fn chained(optional: bool) -> Nonterminal {
    if optional {
        Nonterminal::ChainBase
    } else {
        Nonterminal::OptionalExpression
    }
}

impl<N: Answers, M: Mends<N>> Mend<N, M> for MemberProp<N> {
    ghost same = { same_member_prop };

    #[tactic(auto, unfolding(crate::specs::SameExprs::same_member_prop))]
    fn mend(&mut self, mender: &M, alloc: Global, place: Place) -> Result<(), Stop> {
        match self {
            MemberProp::Computed(node) => mend_computed(
                mender,
                alloc,
                node,
                place,
                Nonterminal::Expression,
            ),
            _ => Ok(()),
        }
    }
}

impl<N: Answers, M: Mends<N>> Mend<N, M> for MemberExpr<N> {
    ghost same = { same_member_expr };

    #[tactic(auto, unfolding(crate::specs::SameExprs::same_member_expr))]
    fn mend(&mut self, mender: &M, alloc: Global, place: Place) -> Result<(), Stop> {
        let object = place.bracketed(place.nonterminal).callee().beginning(place);
        let usage = Usage::Operand(object_operand(&self.prop));
        mender.expr(alloc, &mut self.obj, object, usage)?;
        self.prop.mend(mender, alloc, place)
    }
}

impl<N: Answers, M: Mends<N>> Mend<N, M> for SuperProp<N> {
    ghost same = { same_super_prop };

    #[tactic(auto, unfolding(crate::specs::SameExprs::same_super_prop))]
    fn mend(&mut self, mender: &M, alloc: Global, place: Place) -> Result<(), Stop> {
        match self {
            SuperProp::Computed(node) => mend_computed(
                mender,
                alloc,
                node,
                place,
                Nonterminal::Expression,
            ),
            _ => Ok(()),
        }
    }
}

impl<N: Answers, M: Mends<N>> Mend<N, M> for SuperPropExpr<N> {
    ghost same = { same_super_prop_expr };

    #[tactic(auto, unfolding(crate::specs::SameExprs::same_super_prop_expr))]
    fn mend(&mut self, mender: &M, alloc: Global, place: Place) -> Result<(), Stop> {
        self.prop.mend(mender, alloc, place)
    }
}

impl<N: Answers, M: Mends<N>> Mend<N, M> for ExprOrSpread<N> {
    ghost same = { same_expr_or_spread };

    #[tactic(auto, unfolding(crate::specs::SameExprs::same_expr_or_spread))]
    fn mend(&mut self, mender: &M, alloc: Global, place: Place) -> Result<(), Stop> {
        let nonterminal = Nonterminal::AssignmentExpression;
        mend_bracketed(mender, alloc, &mut self.expr, place, nonterminal)
    }
}

impl<N: Answers, M: Mends<N>> Mend<N, M> for ArrayLit<N> {
    ghost same = { same_array_lit };

    #[tactic(auto, unfolding(crate::specs::SameExprs::same_array_lit))]
    fn mend(&mut self, mender: &M, alloc: Global, place: Place) -> Result<(), Stop> {
        self.elems.mend(mender, alloc, place)
    }
}

impl<N: Answers, M: Mends<N>> Mend<N, M> for Callee<N> {
    ghost same = { same_callee };

    #[tactic(auto, unfolding(crate::specs::SameExprs::same_callee))]
    fn mend(&mut self, mender: &M, alloc: Global, place: Place) -> Result<(), Stop> {
        match self {
            Callee::Expr(node) => {
                let within = place
                    .bracketed(Nonterminal::CallOrMember)
                    .callee()
                    .beginning(place);
                mender.expr(alloc, node, within, Usage::Operand(Operand::Called))
            }
            _ => Ok(()),
        }
    }
}

impl<N: Answers, M: Mends<N>> Mend<N, M> for CallExpr<N> {
    ghost same = { same_call_expr };

    #[tactic(auto, unfolding(crate::specs::SameExprs::same_call_expr))]
    fn mend(&mut self, mender: &M, alloc: Global, place: Place) -> Result<(), Stop> {
        self.callee.mend(mender, alloc, place)?;
        self.args.mend(mender, alloc, place)
    }
}

impl<N: Answers, M: Mends<N>> Mend<N, M> for NewExpr<N> {
    ghost same = { same_new_expr };

    #[tactic(auto, unfolding(crate::specs::SameExprs::same_new_expr))]
    fn mend(&mut self, mender: &M, alloc: Global, place: Place) -> Result<(), Stop> {
        let callee = called_by_new(&self.args, place);
        let usage = Usage::Operand(new_operand(&self.args));
        mender.expr(alloc, &mut self.callee, callee, usage)?;
        self.args.mend(mender, alloc, place)
    }
}

/// Goes on to a link of a chain, with `?.` or without.
#[tactic(auto, unfolding(crate::specs::SameExprs::same_opt_chain_base))]
fn mend_chain_base<N, M: Mends<N>>(
    mender: &M,
    alloc: Global,
    base: &mut OptChainBase<N>,
    place: Place,
    optional: bool,
) -> Result<(), Stop>
    ensures { OnOk result (same_opt_chain_base optional (M.mended mender.now) base.old base.new) }
{
    let usage = Usage::Operand(Operand::Chain(optional));
    match base {
        OptChainBase::Member(link) => mender.member_expr(alloc, link, place, usage),
        OptChainBase::Call(link) => mender.opt_call(alloc, link, place, usage),
    }
}

impl<N: Answers, M: Mends<N>> Mend<N, M> for OptChainExpr<N> {
    ghost same = { same_opt_chain_expr };

    #[tactic(auto, unfolding(crate::specs::SameExprs::same_opt_chain_expr))]
    fn mend(&mut self, mender: &M, alloc: Global, place: Place) -> Result<(), Stop> {
        let base = place.bracketed(chained(self.optional)).beginning(place);
        mend_chain_base(mender, alloc, &mut self.base, base, self.optional)
    }
}

impl<N: Answers, M: Mends<N>> Mend<N, M> for OptCall<N> {
    ghost same = { same_opt_call };

    #[tactic(auto, unfolding(crate::specs::SameExprs::same_opt_call))]
    fn mend(&mut self, mender: &M, alloc: Global, place: Place) -> Result<(), Stop> {
        let callee = place.bracketed(place.nonterminal).callee().beginning(place);
        let usage = Usage::Operand(Operand::Called);
        mender.expr(alloc, &mut self.callee, callee, usage)?;
        self.args.mend(mender, alloc, place)
    }
}

impl<N: Answers, M: Mends<N>> Mend<N, M> for TaggedTpl<N> {
    ghost same = { same_tagged_tpl };

    #[tactic(auto, unfolding(crate::specs::SameExprs::same_tagged_tpl))]
    fn mend(&mut self, mender: &M, alloc: Global, place: Place) -> Result<(), Stop> {
        let tag = place.bracketed(Nonterminal::CallOrMember).callee();
        let tag = tag.beginning(place);
        mender.expr(alloc, &mut self.tag, tag, Usage::Operand(Operand::Called))?;
        self.tpl.mend(mender, alloc, place)
    }
}

impl<N: Answers, M: Mends<N>> Mend<N, M> for Tpl<N> {
    ghost same = { same_tpl };

    #[tactic(auto, unfolding(crate::specs::SameExprs::same_tpl))]
    fn mend(&mut self, mender: &M, alloc: Global, place: Place) -> Result<(), Stop> {
        let usage = Usage::in_brackets(Nonterminal::Expression);
        let each = place.bracketed(Nonterminal::Expression);
        mend_each(mender, alloc, &mut self.exprs, each, usage)
    }
}
