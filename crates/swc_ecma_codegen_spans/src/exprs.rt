//! Where expressions stand.

ghost use Rattle.swc_ecma_codegen_spans.specs.Spans.{expr_span, expr_or_spread_span, prop_or_spread_span, spread_element_span, prop_span, key_value_prop_span, assign_prop_span, method_prop_span, prop_name_span, fn_expr_span, class_expr_span, member_prop_span, super_prop_span, callee_span, opt_chain_base_span, block_stmt_or_expr_span};

use crate::spanned::Spanned;
use swc_ecma_codegen_common::Span;
use swc_ecma_codegen_tree::{
    ArrayLit, ArrowExpr, AssignExpr, AssignProp, AwaitExpr, BinExpr, BlockStmtOrExpr, CallExpr,
    Callee, ClassExpr, ComputedPropName, CondExpr, Expr, ExprOrSpread, FnExpr, GetterProp, Import,
    KeyValueProp, MemberExpr, MemberProp, MetaPropExpr, MethodProp, NewExpr, ObjectLit, OptCall,
    OptChainBase, OptChainExpr, ParenExpr, Prop, PropName, PropOrSpread, SeqExpr, SetterProp,
    SpreadElement, Super, SuperProp, SuperPropExpr, TaggedTpl, ThisExpr, Tpl, TplElement,
    UnaryExpr, UpdateExpr, YieldExpr,
};

impl<N: Spanned> Spanned for Expr<N> {
    ghost place = { expr_span N.place };

    #[tactic(auto, unfolding(crate::specs::Spans::expr_span))]
    fn span(&self) -> Span {
        match self {
            Expr::This(node) => node.span(),
            Expr::Array(node) => node.span(),
            Expr::Object(node) => node.span(),
            Expr::Fn(node) => node.span(),
            Expr::Unary(node) => node.span(),
            Expr::Update(node) => node.span(),
            Expr::Bin(node) => node.span(),
            Expr::Assign(node) => node.span(),
            Expr::Member(node) => node.span(),
            Expr::SuperProp(node) => node.span(),
            Expr::Cond(node) => node.span(),
            Expr::Call(node) => node.span(),
            Expr::New(node) => node.span(),
            Expr::Seq(node) => node.span(),
            Expr::Ident(node) => node.span(),
            Expr::Lit(node) => node.span(),
            Expr::Tpl(node) => node.span(),
            Expr::TaggedTpl(node) => node.span(),
            Expr::Arrow(node) => node.span(),
            Expr::Class(node) => node.span(),
            Expr::Yield(node) => node.span(),
            Expr::MetaProp(node) => node.span(),
            Expr::Await(node) => node.span(),
            Expr::Paren(node) => node.span(),
            Expr::JSXMember(node) => node.span(),
            Expr::JSXNamespacedName(node) => node.span(),
            Expr::JSXEmpty(node) => node.span(),
            Expr::JSXElement(node) => node.span(),
            Expr::JSXFragment(node) => node.span(),
            Expr::TsTypeAssertion(node) => node.span(),
            Expr::TsConstAssertion(node) => node.span(),
            Expr::TsNonNull(node) => node.span(),
            Expr::TsAs(node) => node.span(),
            Expr::TsInstantiation(node) => node.span(),
            Expr::TsSatisfies(node) => node.span(),
            Expr::PrivateName(node) => node.span(),
            Expr::OptChain(node) => node.span(),
            Expr::Invalid(node) => node.span(),
        }
    }
}

impl Spanned for ThisExpr {
    ghost place = { λ n. n.span };

    fn span(&self) -> Span {
        self.span
    }
}

impl<N> Spanned for ArrayLit<N> {
    ghost place = { λ n. n.span };

    fn span(&self) -> Span {
        self.span
    }
}

impl<N: Spanned> Spanned for ExprOrSpread<N> {
    ghost place = { expr_or_spread_span N.place };

    #[tactic(auto, unfolding(crate::specs::Spans::expr_or_spread_span))]
    fn span(&self) -> Span {
        match &self.spread {
            Some(spread) => Span {
                lo: spread.lo,
                hi: self.expr.span().hi,
            },
            None => self.expr.span(),
        }
    }
}

impl<N> Spanned for ObjectLit<N> {
    ghost place = { λ n. n.span };

    fn span(&self) -> Span {
        self.span
    }
}

impl<N: Spanned> Spanned for PropOrSpread<N> {
    ghost place = { prop_or_spread_span N.place };

    #[tactic(auto, unfolding(crate::specs::Spans::prop_or_spread_span))]
    fn span(&self) -> Span {
        match self {
            PropOrSpread::Spread(node) => node.span(),
            PropOrSpread::Prop(node) => node.span(),
        }
    }
}

impl<N: Spanned> Spanned for SpreadElement<N> {
    ghost place = { spread_element_span N.place };

    #[tactic(auto, unfolding(crate::specs::Spans::spread_element_span))]
    fn span(&self) -> Span {
        Span {
            lo: self.dot3_token.span().lo,
            hi: self.expr.span().hi,
        }
    }
}

impl<N: Spanned> Spanned for Prop<N> {
    ghost place = { prop_span N.place };

    #[tactic(auto, unfolding(crate::specs::Spans::prop_span))]
    fn span(&self) -> Span {
        match self {
            Prop::Shorthand(node) => node.span(),
            Prop::KeyValue(node) => node.span(),
            Prop::Assign(node) => node.span(),
            Prop::Getter(node) => node.span(),
            Prop::Setter(node) => node.span(),
            Prop::Method(node) => node.span(),
        }
    }
}

impl<N: Spanned> Spanned for KeyValueProp<N> {
    ghost place = { key_value_prop_span N.place };

    #[tactic(auto, unfolding(crate::specs::Spans::key_value_prop_span))]
    fn span(&self) -> Span {
        Span {
            lo: self.key.span().lo,
            hi: self.value.span().hi,
        }
    }
}

impl<N: Spanned> Spanned for AssignProp<N> {
    ghost place = { assign_prop_span N.place };

    #[tactic(auto, unfolding(crate::specs::Spans::assign_prop_span))]
    fn span(&self) -> Span {
        Span {
            lo: self.key.span().lo,
            hi: self.value.span().hi,
        }
    }
}

impl<N> Spanned for GetterProp<N> {
    ghost place = { λ n. n.span };

    fn span(&self) -> Span {
        self.span
    }
}

impl<N> Spanned for SetterProp<N> {
    ghost place = { λ n. n.span };

    fn span(&self) -> Span {
        self.span
    }
}

impl<N: Spanned> Spanned for MethodProp<N> {
    ghost place = { method_prop_span N.place };

    #[tactic(auto, unfolding(crate::specs::Spans::method_prop_span))]
    fn span(&self) -> Span {
        Span {
            lo: self.key.span().lo,
            hi: self.function.span().hi,
        }
    }
}

impl<N> Spanned for PropName<N> {
    ghost place = { prop_name_span };

    #[tactic(auto, unfolding(crate::specs::Spans::prop_name_span))]
    fn span(&self) -> Span {
        match self {
            PropName::Ident(node) => node.span(),
            PropName::Str(node) => node.span(),
            PropName::Num(node) => node.span(),
            PropName::BigInt(node) => node.span(),
            PropName::Computed(node) => node.span(),
        }
    }
}

impl<N> Spanned for ComputedPropName<N> {
    ghost place = { λ n. n.span };

    fn span(&self) -> Span {
        self.span
    }
}

impl<N: Spanned> Spanned for FnExpr<N> {
    ghost place = { fn_expr_span N.place };

    #[tactic(auto, unfolding(crate::specs::Spans::fn_expr_span))]
    fn span(&self) -> Span {
        self.function.span()
    }
}

impl<N: Spanned> Spanned for ClassExpr<N> {
    ghost place = { class_expr_span N.place };

    #[tactic(auto, unfolding(crate::specs::Spans::class_expr_span))]
    fn span(&self) -> Span {
        self.class.span()
    }
}

impl<N> Spanned for UnaryExpr<N> {
    ghost place = { λ n. n.span };

    fn span(&self) -> Span {
        self.span
    }
}

impl<N> Spanned for UpdateExpr<N> {
    ghost place = { λ n. n.span };

    fn span(&self) -> Span {
        self.span
    }
}

impl<N> Spanned for BinExpr<N> {
    ghost place = { λ n. n.span };

    fn span(&self) -> Span {
        self.span
    }
}

impl<N> Spanned for AssignExpr<N> {
    ghost place = { λ n. n.span };

    fn span(&self) -> Span {
        self.span
    }
}

impl<N> Spanned for MemberExpr<N> {
    ghost place = { λ n. n.span };

    fn span(&self) -> Span {
        self.span
    }
}

impl<N> Spanned for MemberProp<N> {
    ghost place = { member_prop_span };

    #[tactic(auto, unfolding(crate::specs::Spans::member_prop_span))]
    fn span(&self) -> Span {
        match self {
            MemberProp::Ident(node) => node.span(),
            MemberProp::PrivateName(node) => node.span(),
            MemberProp::Computed(node) => node.span(),
        }
    }
}

impl<N> Spanned for SuperPropExpr<N> {
    ghost place = { λ n. n.span };

    fn span(&self) -> Span {
        self.span
    }
}

impl<N> Spanned for SuperProp<N> {
    ghost place = { super_prop_span };

    #[tactic(auto, unfolding(crate::specs::Spans::super_prop_span))]
    fn span(&self) -> Span {
        match self {
            SuperProp::Ident(node) => node.span(),
            SuperProp::Computed(node) => node.span(),
        }
    }
}

impl Spanned for Super {
    ghost place = { λ n. n.span };

    fn span(&self) -> Span {
        self.span
    }
}

impl Spanned for Import {
    ghost place = { λ n. n.span };

    fn span(&self) -> Span {
        self.span
    }
}

impl<N> Spanned for CondExpr<N> {
    ghost place = { λ n. n.span };

    fn span(&self) -> Span {
        self.span
    }
}

impl<N> Spanned for CallExpr<N> {
    ghost place = { λ n. n.span };

    fn span(&self) -> Span {
        self.span
    }
}

impl<N: Spanned> Spanned for Callee<N> {
    ghost place = { callee_span N.place };

    #[tactic(auto, unfolding(crate::specs::Spans::callee_span))]
    fn span(&self) -> Span {
        match self {
            Callee::Super(node) => node.span(),
            Callee::Import(node) => node.span(),
            Callee::Expr(node) => node.span(),
        }
    }
}

impl<N> Spanned for NewExpr<N> {
    ghost place = { λ n. n.span };

    fn span(&self) -> Span {
        self.span
    }
}

impl<N> Spanned for OptChainExpr<N> {
    ghost place = { λ n. n.span };

    fn span(&self) -> Span {
        self.span
    }
}

impl<N: Spanned> Spanned for OptChainBase<N> {
    ghost place = { opt_chain_base_span N.place };

    #[tactic(auto, unfolding(crate::specs::Spans::opt_chain_base_span))]
    fn span(&self) -> Span {
        match self {
            OptChainBase::Member(node) => node.span(),
            OptChainBase::Call(node) => node.span(),
        }
    }
}

impl<N> Spanned for OptCall<N> {
    ghost place = { λ n. n.span };

    fn span(&self) -> Span {
        self.span
    }
}

impl<N> Spanned for SeqExpr<N> {
    ghost place = { λ n. n.span };

    fn span(&self) -> Span {
        self.span
    }
}

impl<N> Spanned for ArrowExpr<N> {
    ghost place = { λ n. n.span };

    fn span(&self) -> Span {
        self.span
    }
}

impl<N: Spanned> Spanned for BlockStmtOrExpr<N> {
    ghost place = { block_stmt_or_expr_span N.place };

    #[tactic(auto, unfolding(crate::specs::Spans::block_stmt_or_expr_span))]
    fn span(&self) -> Span {
        match self {
            BlockStmtOrExpr::BlockStmt(node) => node.span(),
            BlockStmtOrExpr::Expr(node) => node.span(),
        }
    }
}

impl<N> Spanned for YieldExpr<N> {
    ghost place = { λ n. n.span };

    fn span(&self) -> Span {
        self.span
    }
}

impl<N> Spanned for AwaitExpr<N> {
    ghost place = { λ n. n.span };

    fn span(&self) -> Span {
        self.span
    }
}

impl Spanned for MetaPropExpr {
    ghost place = { λ n. n.span };

    fn span(&self) -> Span {
        self.span
    }
}

impl<N> Spanned for ParenExpr<N> {
    ghost place = { λ n. n.span };

    fn span(&self) -> Span {
        self.span
    }
}

impl<N> Spanned for Tpl<N> {
    ghost place = { λ n. n.span };

    fn span(&self) -> Span {
        self.span
    }
}

impl Spanned for TplElement {
    ghost place = { λ n. n.span };

    fn span(&self) -> Span {
        self.span
    }
}

impl<N> Spanned for TaggedTpl<N> {
    ghost place = { λ n. n.span };

    fn span(&self) -> Span {
        self.span
    }
}
