//! Expressions.

ghost use Rattle.std.specs.Prelude.{IfOk, codes};
ghost use Rattle.swc_ecma_codegen_validate.specs.Rules.{findings, no_links, by_rule, Finds, in_each};
ghost use Rattle.swc_ecma_codegen_validate.specs.ExprRules.{this_expr, unary_expr, update_expr, bin_expr, computed_prop_name, member_prop, member_expr, super_prop, super_prop_expr, spread_element, opt_chain_expr, meta_prop_expr, assign_expr, yield_expr, await_expr, cond_expr, seq_expr, paren_expr, expr_or_spread, array_lit, callee, call_expr, new_expr, opt_call, prop_name, key_value_prop, assign_prop, getter_prop, setter_prop, method_prop, prop, prop_or_spread, object_lit, tagged_tpl, element, elements, tpl};
ghost use Rattle.swc_ecma_codegen_validate.specs.TreeRules.{expr};

use crate::faults::{
    FaultIn, FindsFault, Found, Step, broken_unless, in_turn, not_here, under, under_as, within,
};
use crate::templates::{is_counted, is_element};
use std::alloc::Global;
use swc_ecma_codegen_grammar::roles::Role;
use swc_ecma_codegen_tree::{
    ArrayLit, AssignExpr, AssignProp, AwaitExpr, BinExpr, CallExpr, Callee, ComputedPropName,
    CondExpr, Expr, ExprOrSpread, GetterProp, KeyValueProp, MemberExpr, MemberProp, MetaPropExpr,
    MethodProp, NewExpr, ObjectLit, OptCall, OptChainBase, OptChainExpr, ParenExpr, Prop, PropName,
    PropOrSpread, SeqExpr, SetterProp, SpreadElement, SuperProp, SuperPropExpr, TaggedTpl,
    ThisExpr, Tpl, TplElement, UnaryExpr, UpdateExpr, YieldExpr,
};

impl FindsFault for ThisExpr {
    ghost found = { λ n. findings no_links (this_expr n) };

    #[tactic(auto, unfolding(crate::specs::ExprRules::this_expr, crate::specs::Rules::findings))]
    fn fault(&self, _alloc: Global) -> Found {
        Ok(None)
    }
}

impl<N: FaultIn> FindsFault for UnaryExpr<N> {
    ghost found = { λ n. findings N.found_as (unary_expr n) };

    #[tactic(auto, unfolding(crate::specs::ExprRules::unary_expr, crate::specs::Rules::findings))]
    fn fault(&self, alloc: Global) -> Found {
        within!(self, alloc; arg)
    }
}

impl<N: FaultIn> FindsFault for UpdateExpr<N> {
    ghost found = { λ n. findings N.found_as (update_expr n) };

    #[tactic(auto, unfolding(crate::specs::ExprRules::update_expr, crate::specs::Rules::findings))]
    fn fault(&self, alloc: Global) -> Found {
        within!(self, alloc; arg)
    }
}

impl<N: FaultIn> FindsFault for BinExpr<N> {
    ghost found = { λ n. findings N.found_as (bin_expr n) };

    #[tactic(auto, unfolding(crate::specs::ExprRules::bin_expr, crate::specs::Rules::findings))]
    fn fault(&self, alloc: Global) -> Found {
        within!(self, alloc; left right)
    }
}

impl<N: FaultIn> FindsFault for ComputedPropName<N> {
    ghost found = { λ n. findings N.found_as (computed_prop_name n) };

    #[tactic(auto, unfolding(crate::specs::ExprRules::computed_prop_name, crate::specs::Rules::findings))]
    fn fault(&self, alloc: Global) -> Found {
        within!(self, alloc; expr)
    }
}

impl<N: FaultIn> FindsFault for MemberProp<N> {
    ghost found = { λ n. findings N.found_as (member_prop n) };

    #[tactic(auto, unfolding(crate::specs::ExprRules::member_prop, crate::specs::Rules::findings))]
    fn fault(&self, alloc: Global) -> Found {
        match self {
            MemberProp::Ident(node) => node.fault(alloc),
            MemberProp::PrivateName(node) => node.fault(alloc),
            MemberProp::Computed(node) => node.fault(alloc),
        }
    }
}

impl<N: FaultIn> FindsFault for MemberExpr<N> {
    ghost found = { λ n. findings N.found_as (member_expr n) };

    #[tactic(auto, unfolding(crate::specs::ExprRules::member_expr, crate::specs::Rules::findings))]
    fn fault(&self, alloc: Global) -> Found {
        in_turn! {
            under_as(alloc, "obj", &self.obj, Role::Callee),
            under(alloc, "prop", &self.prop),
        }
    }
}

impl<N: FaultIn> FindsFault for SuperProp<N> {
    ghost found = { λ n. findings N.found_as (super_prop n) };

    #[tactic(auto, unfolding(crate::specs::ExprRules::super_prop, crate::specs::Rules::findings))]
    fn fault(&self, alloc: Global) -> Found {
        match self {
            SuperProp::Ident(node) => node.fault(alloc),
            SuperProp::Computed(node) => node.fault(alloc),
        }
    }
}

impl<N: FaultIn> FindsFault for SuperPropExpr<N> {
    ghost found = { λ n. findings N.found_as (super_prop_expr n) };

    #[tactic(auto, unfolding(crate::specs::ExprRules::super_prop_expr, crate::specs::Rules::findings))]
    fn fault(&self, alloc: Global) -> Found {
        within!(self, alloc; prop)
    }
}

impl<N: FaultIn> FindsFault for SpreadElement<N> {
    ghost found = { λ n. findings N.found_as (spread_element n) };

    #[tactic(auto, unfolding(crate::specs::ExprRules::spread_element, crate::specs::Rules::findings))]
    fn fault(&self, alloc: Global) -> Found {
        within!(self, alloc; expr)
    }
}

impl<N: FaultIn> FindsFault for OptChainExpr<N> {
    ghost found = { λ n. findings N.found_as (opt_chain_expr n) };

    #[tactic(auto, unfolding(crate::specs::ExprRules::opt_chain_expr, crate::specs::Rules::findings, crate::specs::ExprRules::chain_base))]
    fn fault(&self, alloc: Global) -> Found {
        match &self.base {
            OptChainBase::Member(node) => under_as(
                alloc,
                "base",
                node,
                Role::ChainMember(self.optional),
            ),
            OptChainBase::Call(node) => under_as(
                alloc,
                "base",
                node,
                Role::ChainCall(self.optional),
            ),
        }
    }
}

impl FindsFault for MetaPropExpr {
    ghost found = { λ n. findings no_links (meta_prop_expr n) };

    #[tactic(auto, unfolding(crate::specs::ExprRules::meta_prop_expr, crate::specs::Rules::findings))]
    fn fault(&self, _alloc: Global) -> Found {
        Ok(None)
    }
}

impl<N: FaultIn> FindsFault for AssignExpr<N> {
    ghost found = { λ n. findings N.found_as (assign_expr n) };

    #[tactic(auto, unfolding(crate::specs::ExprRules::assign_expr, crate::specs::Rules::findings))]
    fn fault(&self, alloc: Global) -> Found {
        within!(self, alloc; left right)
    }
}

impl<N: FaultIn> FindsFault for YieldExpr<N> {
    ghost found = { λ n. findings N.found_as (yield_expr n) };

    #[tactic(auto, unfolding(crate::specs::ExprRules::yield_expr, crate::specs::Rules::findings))]
    fn fault(&self, alloc: Global) -> Found {
        within!(self, alloc; arg)
    }
}

impl<N: FaultIn> FindsFault for AwaitExpr<N> {
    ghost found = { λ n. findings N.found_as (await_expr n) };

    #[tactic(auto, unfolding(crate::specs::ExprRules::await_expr, crate::specs::Rules::findings))]
    fn fault(&self, alloc: Global) -> Found {
        within!(self, alloc; arg)
    }
}

impl<N: FaultIn> FindsFault for CondExpr<N> {
    ghost found = { λ n. findings N.found_as (cond_expr n) };

    #[tactic(auto, unfolding(crate::specs::ExprRules::cond_expr, crate::specs::Rules::findings))]
    fn fault(&self, alloc: Global) -> Found {
        within!(self, alloc; test cons alt)
    }
}

impl<N: FaultIn> FindsFault for SeqExpr<N> {
    ghost found = { λ n. findings N.found_as (seq_expr n) };

    #[tactic(auto, unfolding(crate::specs::ExprRules::seq_expr, crate::specs::Rules::findings))]
    fn fault(&self, alloc: Global) -> Found {
        in_turn! {
            broken_unless(alloc, !self.exprs.is_empty(), "a sequence has no expression"),
            under(alloc, "exprs", &self.exprs),
        }
    }
}

impl<N: FaultIn> FindsFault for ParenExpr<N> {
    ghost found = { λ n. findings N.found_as (paren_expr n) };

    #[tactic(auto, unfolding(crate::specs::ExprRules::paren_expr, crate::specs::Rules::findings))]
    fn fault(&self, alloc: Global) -> Found {
        within!(self, alloc; expr)
    }
}

impl<N: FaultIn> FindsFault for Expr<N> {
    ghost found = { λ n. findings N.found_as (expr n) };

    #[tactic(auto, unfolding(crate::specs::TreeRules::expr, crate::specs::Rules::findings))]
    fn fault(&self, alloc: Global) -> Found {
        match self {
            Expr::This(node) => node.fault(alloc),
            Expr::Array(node) => node.fault(alloc),
            Expr::Object(node) => node.fault(alloc),
            Expr::Fn(node) => node.fault(alloc),
            Expr::Unary(node) => node.fault(alloc),
            Expr::Update(node) => node.fault(alloc),
            Expr::Bin(node) => node.fault(alloc),
            Expr::Assign(node) => node.fault(alloc),
            Expr::Member(node) => node.fault(alloc),
            Expr::SuperProp(node) => node.fault(alloc),
            Expr::Cond(node) => node.fault(alloc),
            Expr::Call(node) => node.fault(alloc),
            Expr::New(node) => node.fault(alloc),
            Expr::Seq(node) => node.fault(alloc),
            Expr::Ident(node) => node.fault(alloc),
            Expr::Lit(node) => node.fault(alloc),
            Expr::Tpl(node) => node.fault(alloc),
            Expr::TaggedTpl(node) => node.fault(alloc),
            Expr::Arrow(node) => node.fault(alloc),
            Expr::Class(node) => node.fault(alloc),
            Expr::Yield(node) => node.fault(alloc),
            Expr::MetaProp(node) => node.fault(alloc),
            Expr::Await(node) => node.fault(alloc),
            Expr::Paren(node) => node.fault(alloc),
            Expr::JSXMember(_)
            | Expr::JSXNamespacedName(_)
            | Expr::JSXEmpty(_)
            | Expr::Invalid(_) => not_here(alloc),
            Expr::JSXElement(node) => node.fault(alloc),
            Expr::JSXFragment(node) => node.fault(alloc),
            Expr::TsTypeAssertion(node) => node.fault(alloc),
            Expr::TsConstAssertion(node) => node.fault(alloc),
            Expr::TsNonNull(node) => node.fault(alloc),
            Expr::TsAs(node) => node.fault(alloc),
            Expr::TsInstantiation(node) => node.fault(alloc),
            Expr::TsSatisfies(node) => node.fault(alloc),
            Expr::PrivateName(node) => node.fault(alloc),
            Expr::OptChain(node) => node.fault(alloc),
        }
    }
}

impl<N: FaultIn> FindsFault for ExprOrSpread<N> {
    ghost found = { λ n. findings N.found_as (expr_or_spread n) };

    #[tactic(auto, unfolding(crate::specs::ExprRules::expr_or_spread, crate::specs::Rules::findings))]
    fn fault(&self, alloc: Global) -> Found {
        within!(self, alloc; expr)
    }
}

impl<N: FaultIn> FindsFault for ArrayLit<N> {
    ghost found = { λ n. findings N.found_as (array_lit n) };

    #[tactic(auto, unfolding(crate::specs::ExprRules::array_lit, crate::specs::Rules::findings))]
    fn fault(&self, alloc: Global) -> Found {
        within!(self, alloc; elems)
    }
}

impl<N: FaultIn> FindsFault for Callee<N> {
    ghost found = { λ n. findings N.found_as (callee n) };

    #[tactic(auto, unfolding(crate::specs::ExprRules::callee, crate::specs::Rules::findings))]
    fn fault(&self, alloc: Global) -> Found {
        match self {
            Callee::Super(_) | Callee::Import(_) => Ok(None),
            Callee::Expr(node) => node.target().fault_as(Role::Callee, alloc),
        }
    }
}

impl<N: FaultIn> FindsFault for CallExpr<N> {
    ghost found = { λ n. findings N.found_as (call_expr n) };

    #[tactic(auto, unfolding(crate::specs::ExprRules::call_expr, crate::specs::Rules::findings))]
    fn fault(&self, alloc: Global) -> Found {
        within!(self, alloc; callee type_args args)
    }
}

impl<N: FaultIn> FindsFault for NewExpr<N> {
    ghost found = { λ n. findings N.found_as (new_expr n) };

    #[tactic(auto, unfolding(crate::specs::ExprRules::new_expr, crate::specs::Rules::findings))]
    fn fault(&self, alloc: Global) -> Found {
        within!(self, alloc; callee type_args args)
    }
}

impl<N: FaultIn> FindsFault for OptCall<N> {
    ghost found = { λ n. findings N.found_as (opt_call n) };

    #[tactic(auto, unfolding(crate::specs::ExprRules::opt_call, crate::specs::Rules::findings))]
    fn fault(&self, alloc: Global) -> Found {
        in_turn! {
            under_as(alloc, "callee", &self.callee, Role::Callee),
            under(alloc, "type_args", &self.type_args),
            under(alloc, "args", &self.args),
        }
    }
}

impl<N: FaultIn> FindsFault for PropName<N> {
    ghost found = { λ n. findings N.found_as (prop_name n) };

    #[tactic(auto, unfolding(crate::specs::ExprRules::prop_name, crate::specs::Rules::findings))]
    fn fault(&self, alloc: Global) -> Found {
        match self {
            PropName::Ident(node) => node.fault(alloc),
            PropName::Str(node) => node.fault(alloc),
            PropName::Num(node) => node.fault(alloc),
            PropName::BigInt(node) => node.fault(alloc),
            PropName::Computed(node) => node.fault(alloc),
        }
    }
}

impl<N: FaultIn> FindsFault for KeyValueProp<N> {
    ghost found = { λ n. findings N.found_as (key_value_prop n) };

    #[tactic(auto, unfolding(crate::specs::ExprRules::key_value_prop, crate::specs::Rules::findings))]
    fn fault(&self, alloc: Global) -> Found {
        within!(self, alloc; key value)
    }
}

impl<N: FaultIn> FindsFault for AssignProp<N> {
    ghost found = { λ n. findings N.found_as (assign_prop n) };

    #[tactic(auto, unfolding(crate::specs::ExprRules::assign_prop, crate::specs::Rules::findings))]
    fn fault(&self, alloc: Global) -> Found {
        within!(self, alloc; key value)
    }
}

impl<N: FaultIn> FindsFault for GetterProp<N> {
    ghost found = { λ n. findings N.found_as (getter_prop n) };

    #[tactic(auto, unfolding(crate::specs::ExprRules::getter_prop, crate::specs::Rules::findings))]
    fn fault(&self, alloc: Global) -> Found {
        within!(self, alloc; key type_ann body)
    }
}

impl<N: FaultIn> FindsFault for SetterProp<N> {
    ghost found = { λ n. findings N.found_as (setter_prop n) };

    #[tactic(auto, unfolding(crate::specs::ExprRules::setter_prop, crate::specs::Rules::findings))]
    fn fault(&self, alloc: Global) -> Found {
        within!(self, alloc; key this_param param body)
    }
}

impl<N: FaultIn> FindsFault for MethodProp<N> {
    ghost found = { λ n. findings N.found_as (method_prop n) };

    #[tactic(auto, unfolding(crate::specs::ExprRules::method_prop, crate::specs::Rules::findings))]
    fn fault(&self, alloc: Global) -> Found {
        within!(self, alloc; key function)
    }
}

impl<N: FaultIn> FindsFault for Prop<N> {
    ghost found = { λ n. findings N.found_as (prop n) };

    #[tactic(auto, unfolding(crate::specs::ExprRules::prop, crate::specs::Rules::findings))]
    fn fault(&self, alloc: Global) -> Found {
        match self {
            Prop::Shorthand(node) => node.fault(alloc),
            Prop::KeyValue(node) => node.fault(alloc),
            Prop::Assign(node) => node.fault(alloc),
            Prop::Getter(node) => node.fault(alloc),
            Prop::Setter(node) => node.fault(alloc),
            Prop::Method(node) => node.fault(alloc),
        }
    }
}

impl<N: FaultIn> FindsFault for PropOrSpread<N> {
    ghost found = { λ n. findings N.found_as (prop_or_spread n) };

    #[tactic(auto, unfolding(crate::specs::ExprRules::prop_or_spread, crate::specs::Rules::findings))]
    fn fault(&self, alloc: Global) -> Found {
        match self {
            PropOrSpread::Spread(node) => node.fault(alloc),
            PropOrSpread::Prop(node) => node.fault(alloc),
        }
    }
}

impl<N: FaultIn> FindsFault for ObjectLit<N> {
    ghost found = { λ n. findings N.found_as (object_lit n) };

    #[tactic(auto, unfolding(crate::specs::ExprRules::object_lit, crate::specs::Rules::findings))]
    fn fault(&self, alloc: Global) -> Found {
        within!(self, alloc; props)
    }
}

impl<N: FaultIn> FindsFault for TaggedTpl<N> {
    ghost found = { λ n. findings N.found_as (tagged_tpl n) };

    #[tactic(auto, unfolding(crate::specs::ExprRules::tagged_tpl, crate::specs::Rules::findings))]
    fn fault(&self, alloc: Global) -> Found {
        in_turn! {
            under_as(alloc, "tag", &self.tag, Role::Callee),
            under(alloc, "type_params", &self.type_params),
            under_as(alloc, "tpl", &self.tpl, Role::TaggedTemplate),
        }
    }
}

/// What is wrong with a part of a template.
fn element_fault(alloc: Global, tagged: bool, quasi: &TplElement) -> Found
    ensures { IfOk result (Finds (element tagged quasi.now)) }
{
    broken_unless(
        alloc,
        is_element(tagged, quasi),
        "a part of a template holds what would end it, or a malformed escape",
    )
}

/// The first part of a template that isn't well-formed, as from the list of them.
fn quasis_fault(alloc: Global, tagged: bool, quasis: &[TplElement]) -> Found
    ensures { IfOk result (Finds (in_each (element tagged) 0 quasis.now)) }
{
    for (index, quasi) in quasis.iter().enumerate() {
        if let Some(broken) = element_fault(alloc, tagged, quasi)? {
            return Ok(Some(broken.below(Step::Element(index))?));
        }
    }
    Ok(None)
}

/// The first part of a template that isn't well-formed, as from the template.
#[tactic(auto, unfolding(crate::specs::ExprRules::elements, crate::specs::Rules::findings))]
pub(crate) fn elements_fault<N: FaultIn>(
    alloc: Global,
    tagged: bool,
    quasis: &[TplElement],
) -> Found
    ensures { IfOk result (Finds (findings N.found_as (elements tagged quasis.now))) }
{
    match quasis_fault(alloc, tagged, quasis)? {
        Some(broken) => Ok(Some(broken.below(Step::Field("quasis"))?)),
        None => Ok(None),
    }
}

/// The fault of a template that hasn't one part more than it has expressions or types.
pub(crate) fn count_fault(alloc: Global, is_counted: bool) -> Found
    ensures { IfOk result (Finds (by_rule is_counted
        (codes "a template hasn't one part more than expressions"))) }
{
    broken_unless(
        alloc,
        is_counted,
        "a template hasn't one part more than expressions",
    )
}

/// What is wrong with a template, with a tag or without.
#[tactic(auto, unfolding(crate::specs::ExprRules::tpl, crate::specs::Rules::findings))]
pub(crate) fn template_fault<N: FaultIn>(alloc: Global, tagged: bool, node: &Tpl<N>) -> Found
    ensures { IfOk result (Finds (findings N.found_as (tpl tagged node.now))) }
{
    let is_counted = is_counted(&node.exprs, &node.quasis);
    if let Some(broken) = count_fault(alloc, is_counted)? {
        return Ok(Some(broken));
    }
    if let Some(broken) = elements_fault::<N>(alloc, tagged, &node.quasis)? {
        return Ok(Some(broken));
    }
    if let Some(broken) = under(alloc, "exprs", &node.exprs)? {
        return Ok(Some(broken));
    }
    Ok(None)
}
