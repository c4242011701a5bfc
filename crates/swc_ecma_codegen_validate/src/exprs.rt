//! Expressions.

ghost use Rattle.swc_ecma_codegen_grammar.specs.KeyPhrases.{computed_prop_name};
ghost use Rattle.swc_ecma_codegen_grammar.specs.PropPhrases.{spread_element};
ghost use Rattle.swc_ecma_codegen_grammar.specs.ExprPhrases.{this_expr, unary_expr, update_expr, bin_expr, member_prop, member_expr, super_prop, super_prop_expr, opt_chain_expr, meta_prop_expr, assign_expr, yield_expr, await_expr, cond_expr, seq_expr, paren_expr, expr};

use crate::forms::{Fits, WellFormed, all_well_formed};
use swc_ecma_codegen_grammar::roles::Role;
use swc_ecma_codegen_tree::{
    AssignExpr, AwaitExpr, BinExpr, ComputedPropName, CondExpr, Expr, MemberExpr, MemberProp,
    MetaPropExpr, OptChainBase, OptChainExpr, ParenExpr, SeqExpr, SpreadElement, SuperProp,
    SuperPropExpr, ThisExpr, UnaryExpr, UpdateExpr, YieldExpr,
};

impl WellFormed for ThisExpr {
    ghost phrase = { this_expr };

    #[tactic(auto, unfolding(swc_ecma_codegen_grammar::specs::ExprPhrases::this_expr, swc_ecma_codegen_grammar::specs::Phrases::is_possible))]
    fn is_well_formed(&self) -> bool {
        true
    }
}

impl<N: Fits> WellFormed for UnaryExpr<N> {
    ghost phrase = { unary_expr N.reads };

    #[tactic(auto, unfolding(swc_ecma_codegen_grammar::specs::ExprPhrases::unary_expr, swc_ecma_codegen_grammar::specs::Phrases::is_possible))]
    fn is_well_formed(&self) -> bool {
        self.arg.is_well_formed()
    }
}

impl<N: Fits> WellFormed for UpdateExpr<N> {
    ghost phrase = { update_expr N.reads };

    #[tactic(auto, unfolding(swc_ecma_codegen_grammar::specs::ExprPhrases::update_expr, swc_ecma_codegen_grammar::specs::Phrases::is_possible))]
    fn is_well_formed(&self) -> bool {
        self.arg.is_well_formed()
    }
}

impl<N: Fits> WellFormed for BinExpr<N> {
    ghost phrase = { bin_expr N.reads };

    #[tactic(auto, unfolding(swc_ecma_codegen_grammar::specs::ExprPhrases::bin_expr, swc_ecma_codegen_grammar::specs::Phrases::is_possible))]
    fn is_well_formed(&self) -> bool {
        self.left.is_well_formed() && self.right.is_well_formed()
    }
}

impl<N: Fits> WellFormed for ComputedPropName<N> {
    ghost phrase = { computed_prop_name N.reads };

    #[tactic(auto, unfolding(swc_ecma_codegen_grammar::specs::KeyPhrases::computed_prop_name, swc_ecma_codegen_grammar::specs::Phrases::is_possible))]
    fn is_well_formed(&self) -> bool {
        self.expr.is_well_formed()
    }
}

impl<N: Fits> WellFormed for MemberProp<N> {
    ghost phrase = { member_prop N.reads };

    #[tactic(auto, unfolding(swc_ecma_codegen_grammar::specs::ExprPhrases::member_prop, swc_ecma_codegen_grammar::specs::Phrases::is_possible))]
    fn is_well_formed(&self) -> bool {
        match self {
            MemberProp::Ident(name) => name.is_well_formed(),
            MemberProp::Computed(name) => name.is_well_formed(),
            MemberProp::PrivateName(name) => name.is_well_formed(),
        }
    }
}

impl<N: Fits> WellFormed for MemberExpr<N> {
    ghost phrase = { member_expr N.reads };

    #[tactic(auto, unfolding(swc_ecma_codegen_grammar::specs::ExprPhrases::member_expr, swc_ecma_codegen_grammar::specs::Phrases::is_possible))]
    fn is_well_formed(&self) -> bool {
        self.obj.target().fits(Role::Callee) && self.prop.is_well_formed()
    }
}

impl<N: Fits> WellFormed for SuperProp<N> {
    ghost phrase = { super_prop N.reads };

    #[tactic(auto, unfolding(swc_ecma_codegen_grammar::specs::ExprPhrases::super_prop, swc_ecma_codegen_grammar::specs::Phrases::is_possible))]
    fn is_well_formed(&self) -> bool {
        match self {
            SuperProp::Ident(name) => name.is_well_formed(),
            SuperProp::Computed(name) => name.is_well_formed(),
        }
    }
}

impl<N: Fits> WellFormed for SuperPropExpr<N> {
    ghost phrase = { super_prop_expr N.reads };

    #[tactic(auto, unfolding(swc_ecma_codegen_grammar::specs::ExprPhrases::super_prop_expr, swc_ecma_codegen_grammar::specs::Phrases::is_possible))]
    fn is_well_formed(&self) -> bool {
        self.prop.is_well_formed()
    }
}

impl<N: Fits> WellFormed for SpreadElement<N> {
    ghost phrase = { spread_element N.reads };

    #[tactic(auto, unfolding(swc_ecma_codegen_grammar::specs::PropPhrases::spread_element, swc_ecma_codegen_grammar::specs::Phrases::is_possible))]
    fn is_well_formed(&self) -> bool {
        self.expr.is_well_formed()
    }
}

impl<N: Fits> WellFormed for OptChainExpr<N> {
    ghost phrase = { opt_chain_expr N.reads };

    #[tactic(auto, unfolding(swc_ecma_codegen_grammar::specs::ExprPhrases::opt_chain_expr, swc_ecma_codegen_grammar::specs::ExprPhrases::chain_base, swc_ecma_codegen_grammar::specs::Phrases::is_possible))]
    fn is_well_formed(&self) -> bool {
        match &self.base {
            OptChainBase::Member(node) => node.target().fits(Role::ChainMember(self.optional)),
            OptChainBase::Call(node) => node.target().fits(Role::ChainCall(self.optional)),
        }
    }
}

impl WellFormed for MetaPropExpr {
    ghost phrase = { meta_prop_expr };

    #[tactic(auto, using(crate::proofs::Possible::meta_prop_possible), unfolding(swc_ecma_codegen_grammar::specs::ExprPhrases::meta_prop_expr))]
    fn is_well_formed(&self) -> bool {
        true
    }
}

impl<N: Fits> WellFormed for AssignExpr<N> {
    ghost phrase = { assign_expr N.reads };

    #[tactic(auto, unfolding(swc_ecma_codegen_grammar::specs::ExprPhrases::assign_expr, swc_ecma_codegen_grammar::specs::Phrases::is_possible))]
    fn is_well_formed(&self) -> bool {
        self.left.is_well_formed() && self.right.is_well_formed()
    }
}

impl<N: Fits> WellFormed for YieldExpr<N> {
    ghost phrase = { yield_expr N.reads };

    #[tactic(auto, using(crate::proofs::Possible::yield_possible), unfolding(swc_ecma_codegen_grammar::specs::ExprPhrases::yield_expr, swc_ecma_codegen_grammar::specs::ExprPhrases::yield_arg, swc_ecma_codegen_grammar::specs::Phrases::is_possible))]
    fn is_well_formed(&self) -> bool {
        match &self.arg {
            Some(arg) => arg.is_well_formed(),
            None => true,
        }
    }
}

impl<N: Fits> WellFormed for AwaitExpr<N> {
    ghost phrase = { await_expr N.reads };

    #[tactic(auto, unfolding(swc_ecma_codegen_grammar::specs::ExprPhrases::await_expr, swc_ecma_codegen_grammar::specs::Phrases::is_possible))]
    fn is_well_formed(&self) -> bool {
        self.arg.is_well_formed()
    }
}

impl<N: Fits> WellFormed for CondExpr<N> {
    ghost phrase = { cond_expr N.reads };

    #[tactic(auto, unfolding(swc_ecma_codegen_grammar::specs::ExprPhrases::cond_expr, swc_ecma_codegen_grammar::specs::Phrases::is_possible))]
    fn is_well_formed(&self) -> bool {
        self.test.is_well_formed() && self.cons.is_well_formed() && self.alt.is_well_formed()
    }
}

impl<N: Fits> WellFormed for SeqExpr<N> {
    ghost phrase = { seq_expr N.reads };

    #[tactic(auto, using(crate::proofs::Lists::some_possible), unfolding(swc_ecma_codegen_grammar::specs::ExprPhrases::seq_expr, swc_ecma_codegen_grammar::specs::Phrases::is_possible, swc_ecma_codegen_grammar::specs::Phrases::some_listed))]
    fn is_well_formed(&self) -> bool {
        !self.exprs.is_empty() && all_well_formed(&self.exprs)
    }
}

impl<N: Fits> WellFormed for ParenExpr<N> {
    ghost phrase = { paren_expr N.reads };

    #[tactic(auto, unfolding(swc_ecma_codegen_grammar::specs::ExprPhrases::paren_expr, swc_ecma_codegen_grammar::specs::Phrases::is_possible))]
    fn is_well_formed(&self) -> bool {
        self.expr.is_well_formed()
    }
}

impl<N: Fits> WellFormed for Expr<N> {
    ghost phrase = { expr N.reads };

    #[tactic(auto, unfolding(swc_ecma_codegen_grammar::specs::ExprPhrases::expr, swc_ecma_codegen_grammar::specs::Phrases::is_possible))]
    fn is_well_formed(&self) -> bool {
        match self {
            Expr::This(node) => node.is_well_formed(),
            Expr::Object(node) => node.is_well_formed(),
            Expr::Fn(node) => node.is_well_formed(),
            Expr::Array(node) => node.is_well_formed(),
            Expr::Unary(node) => node.is_well_formed(),
            Expr::Update(node) => node.is_well_formed(),
            Expr::Bin(node) => node.is_well_formed(),
            Expr::Assign(node) => node.is_well_formed(),
            Expr::Member(node) => node.is_well_formed(),
            Expr::SuperProp(node) => node.is_well_formed(),
            Expr::Cond(node) => node.is_well_formed(),
            Expr::Call(node) => node.is_well_formed(),
            Expr::New(node) => node.is_well_formed(),
            Expr::Seq(node) => node.is_well_formed(),
            Expr::Ident(node) => node.is_well_formed(),
            Expr::Lit(node) => node.is_well_formed(),
            Expr::Tpl(node) => node.is_well_formed(),
            Expr::TaggedTpl(node) => node.is_well_formed(),
            Expr::Arrow(node) => node.is_well_formed(),
            Expr::Class(node) => node.is_well_formed(),
            Expr::Yield(node) => node.is_well_formed(),
            Expr::MetaProp(node) => node.is_well_formed(),
            Expr::Await(node) => node.is_well_formed(),
            Expr::Paren(node) => node.is_well_formed(),
            Expr::PrivateName(node) => node.is_well_formed(),
            Expr::OptChain(node) => node.is_well_formed(),
            Expr::JSXElement(node) => node.is_well_formed(),
            Expr::JSXFragment(node) => node.is_well_formed(),
            Expr::TsTypeAssertion(node) => node.is_well_formed(),
            Expr::TsConstAssertion(node) => node.is_well_formed(),
            Expr::TsNonNull(node) => node.is_well_formed(),
            Expr::TsAs(node) => node.is_well_formed(),
            Expr::TsInstantiation(node) => node.is_well_formed(),
            Expr::TsSatisfies(node) => node.is_well_formed(),
            Expr::JSXMember(_)
            | Expr::JSXNamespacedName(_)
            | Expr::JSXEmpty(_)
            | Expr::Invalid(_) => false,
        }
    }
}
