//! Links and names of expressions. Made by scripts/dev/make-visit-files.

ghost use Rattle.swc_ecma_codegen_visit.specs.MappedExprs.{map_computed_prop_name, map_prop_name};
ghost use Rattle.swc_ecma_codegen_visit.specs.MappedExprs.{map_expr_or_spread, map_array_lit};
ghost use Rattle.swc_ecma_codegen_visit.specs.MappedExprs.{map_spread_element, map_key_value_prop};
ghost use Rattle.swc_ecma_codegen_visit.specs.MappedExprs.{map_assign_prop, map_getter_prop};
ghost use Rattle.swc_ecma_codegen_visit.specs.MappedExprs.{map_setter_prop, map_method_prop};
ghost use Rattle.swc_ecma_codegen_visit.specs.MappedExprs.{map_prop, map_prop_or_spread};
ghost use Rattle.swc_ecma_codegen_visit.specs.MappedExprs.{map_object_lit, map_fn_expr};
ghost use Rattle.swc_ecma_codegen_visit.specs.MappedExprs.{map_unary_expr, map_update_expr};
ghost use Rattle.swc_ecma_codegen_visit.specs.MappedExprs.{map_bin_expr, map_assign_expr};
ghost use Rattle.swc_ecma_codegen_visit.specs.MappedExprs.{map_member_prop, map_member_expr};
ghost use Rattle.swc_ecma_codegen_visit.specs.MappedExprs.{map_super_prop, map_super_prop_expr};
ghost use Rattle.swc_ecma_codegen_visit.specs.MappedExprs.{map_cond_expr, map_callee};
ghost use Rattle.swc_ecma_codegen_visit.specs.MappedExprs.{map_call_expr, map_new_expr};
ghost use Rattle.swc_ecma_codegen_visit.specs.MappedExprs.{map_seq_expr, map_tagged_tpl};
ghost use Rattle.swc_ecma_codegen_visit.specs.MappedExprs.{map_block_stmt_or_expr, map_arrow_expr};
ghost use Rattle.swc_ecma_codegen_visit.specs.MappedExprs.{map_class_expr, map_yield_expr};
ghost use Rattle.swc_ecma_codegen_visit.specs.MappedExprs.{map_await_expr, map_paren_expr};
ghost use Rattle.swc_ecma_codegen_visit.specs.MappedExprs.{map_jsx_member_expr};
ghost use Rattle.swc_ecma_codegen_visit.specs.MappedExprs.{map_ts_type_assertion};
ghost use Rattle.swc_ecma_codegen_visit.specs.MappedExprs.{map_ts_const_assertion};
ghost use Rattle.swc_ecma_codegen_visit.specs.MappedExprs.{map_ts_non_null_expr, map_ts_as_expr};
ghost use Rattle.swc_ecma_codegen_visit.specs.MappedExprs.{map_ts_instantiation};
ghost use Rattle.swc_ecma_codegen_visit.specs.MappedExprs.{map_ts_satisfies_expr};
ghost use Rattle.swc_ecma_codegen_visit.specs.MappedExprs.{map_opt_chain_base, map_opt_chain_expr};
ghost use Rattle.swc_ecma_codegen_visit.specs.MappedExprs.{map_expr, map_opt_call, map_tpl};

use crate::below::{Below, Links, Stop};
use swc_ecma_codegen_tree::{
    ArrayLit, ArrowExpr, AssignExpr, AssignProp, AwaitExpr, BinExpr, BlockStmtOrExpr, CallExpr,
    Callee, ClassExpr, ComputedPropName, CondExpr, Expr, ExprOrSpread, FnExpr, GetterProp,
    JSXMemberExpr, KeyValueProp, MemberExpr, MemberProp, MethodProp, NewExpr, ObjectLit, OptCall,
    OptChainBase, OptChainExpr, ParenExpr, Prop, PropName, PropOrSpread, SeqExpr, SetterProp,
    SpreadElement, SuperProp, SuperPropExpr, TaggedTpl, Tpl, TsAsExpr, TsConstAssertion,
    TsInstantiation, TsNonNullExpr, TsSatisfiesExpr, TsTypeAssertion, UnaryExpr, UpdateExpr,
    YieldExpr,
};

impl<N> Links<N> for ComputedPropName<N> {
    ghost mapped = { map_computed_prop_name };

    fn links_mut<C, B: Below<N, C>>(&mut self, below: &B, change: &mut C) -> Result<(), Stop> {
        self.expr.links_mut(below, change)
    }
}

impl<N> Links<N> for PropName<N> {
    ghost mapped = { map_prop_name };

    fn links_mut<C, B: Below<N, C>>(&mut self, below: &B, change: &mut C) -> Result<(), Stop> {
        match self {
            PropName::Computed(node) => node.links_mut(below, change),
            PropName::Ident(_) | PropName::Str(_) | PropName::Num(_) | PropName::BigInt(_) => {
                Ok(())
            }
        }
    }
}

impl<N> Links<N> for ExprOrSpread<N> {
    ghost mapped = { map_expr_or_spread };

    fn links_mut<C, B: Below<N, C>>(&mut self, below: &B, change: &mut C) -> Result<(), Stop> {
        self.expr.links_mut(below, change)
    }
}

impl<N> Links<N> for ArrayLit<N> {
    ghost mapped = { map_array_lit };

    fn links_mut<C, B: Below<N, C>>(&mut self, below: &B, change: &mut C) -> Result<(), Stop> {
        self.elems.links_mut(below, change)
    }
}

impl<N> Links<N> for SpreadElement<N> {
    ghost mapped = { map_spread_element };

    fn links_mut<C, B: Below<N, C>>(&mut self, below: &B, change: &mut C) -> Result<(), Stop> {
        self.expr.links_mut(below, change)
    }
}

impl<N> Links<N> for KeyValueProp<N> {
    ghost mapped = { map_key_value_prop };

    fn links_mut<C, B: Below<N, C>>(&mut self, below: &B, change: &mut C) -> Result<(), Stop> {
        self.key.links_mut(below, change)?;
        self.value.links_mut(below, change)
    }
}

impl<N> Links<N> for AssignProp<N> {
    ghost mapped = { map_assign_prop };

    fn links_mut<C, B: Below<N, C>>(&mut self, below: &B, change: &mut C) -> Result<(), Stop> {
        self.key.links_mut(below, change)?;
        self.value.links_mut(below, change)
    }
}

impl<N> Links<N> for GetterProp<N> {
    ghost mapped = { map_getter_prop };

    fn links_mut<C, B: Below<N, C>>(&mut self, below: &B, change: &mut C) -> Result<(), Stop> {
        self.key.links_mut(below, change)?;
        self.type_ann.links_mut(below, change)?;
        self.body.links_mut(below, change)
    }
}

impl<N> Links<N> for SetterProp<N> {
    ghost mapped = { map_setter_prop };

    fn links_mut<C, B: Below<N, C>>(&mut self, below: &B, change: &mut C) -> Result<(), Stop> {
        self.key.links_mut(below, change)?;
        self.this_param.links_mut(below, change)?;
        self.param.links_mut(below, change)?;
        self.body.links_mut(below, change)
    }
}

impl<N> Links<N> for MethodProp<N> {
    ghost mapped = { map_method_prop };

    fn links_mut<C, B: Below<N, C>>(&mut self, below: &B, change: &mut C) -> Result<(), Stop> {
        self.key.links_mut(below, change)?;
        self.function.links_mut(below, change)
    }
}

impl<N> Links<N> for Prop<N> {
    ghost mapped = { map_prop };

    fn links_mut<C, B: Below<N, C>>(&mut self, below: &B, change: &mut C) -> Result<(), Stop> {
        match self {
            Prop::Shorthand(node) => node.links_mut(below, change),
            Prop::KeyValue(node) => node.links_mut(below, change),
            Prop::Assign(node) => node.links_mut(below, change),
            Prop::Getter(node) => node.links_mut(below, change),
            Prop::Setter(node) => node.links_mut(below, change),
            Prop::Method(node) => node.links_mut(below, change),
        }
    }
}

impl<N> Links<N> for PropOrSpread<N> {
    ghost mapped = { map_prop_or_spread };

    fn links_mut<C, B: Below<N, C>>(&mut self, below: &B, change: &mut C) -> Result<(), Stop> {
        match self {
            PropOrSpread::Spread(node) => node.links_mut(below, change),
            PropOrSpread::Prop(node) => node.links_mut(below, change),
        }
    }
}

impl<N> Links<N> for ObjectLit<N> {
    ghost mapped = { map_object_lit };

    fn links_mut<C, B: Below<N, C>>(&mut self, below: &B, change: &mut C) -> Result<(), Stop> {
        self.props.links_mut(below, change)
    }
}

impl<N> Links<N> for FnExpr<N> {
    ghost mapped = { map_fn_expr };

    fn links_mut<C, B: Below<N, C>>(&mut self, below: &B, change: &mut C) -> Result<(), Stop> {
        self.ident.links_mut(below, change)?;
        self.function.links_mut(below, change)
    }
}

impl<N> Links<N> for UnaryExpr<N> {
    ghost mapped = { map_unary_expr };

    fn links_mut<C, B: Below<N, C>>(&mut self, below: &B, change: &mut C) -> Result<(), Stop> {
        self.arg.links_mut(below, change)
    }
}

impl<N> Links<N> for UpdateExpr<N> {
    ghost mapped = { map_update_expr };

    fn links_mut<C, B: Below<N, C>>(&mut self, below: &B, change: &mut C) -> Result<(), Stop> {
        self.arg.links_mut(below, change)
    }
}

impl<N> Links<N> for BinExpr<N> {
    ghost mapped = { map_bin_expr };

    fn links_mut<C, B: Below<N, C>>(&mut self, below: &B, change: &mut C) -> Result<(), Stop> {
        self.left.links_mut(below, change)?;
        self.right.links_mut(below, change)
    }
}

impl<N> Links<N> for AssignExpr<N> {
    ghost mapped = { map_assign_expr };

    fn links_mut<C, B: Below<N, C>>(&mut self, below: &B, change: &mut C) -> Result<(), Stop> {
        self.left.links_mut(below, change)?;
        self.right.links_mut(below, change)
    }
}

impl<N> Links<N> for MemberProp<N> {
    ghost mapped = { map_member_prop };

    fn links_mut<C, B: Below<N, C>>(&mut self, below: &B, change: &mut C) -> Result<(), Stop> {
        match self {
            MemberProp::Computed(node) => node.links_mut(below, change),
            MemberProp::Ident(_) | MemberProp::PrivateName(_) => Ok(()),
        }
    }
}

impl<N> Links<N> for MemberExpr<N> {
    ghost mapped = { map_member_expr };

    fn links_mut<C, B: Below<N, C>>(&mut self, below: &B, change: &mut C) -> Result<(), Stop> {
        self.obj.links_mut(below, change)?;
        self.prop.links_mut(below, change)
    }
}

impl<N> Links<N> for SuperProp<N> {
    ghost mapped = { map_super_prop };

    fn links_mut<C, B: Below<N, C>>(&mut self, below: &B, change: &mut C) -> Result<(), Stop> {
        match self {
            SuperProp::Computed(node) => node.links_mut(below, change),
            SuperProp::Ident(_) => Ok(()),
        }
    }
}

impl<N> Links<N> for SuperPropExpr<N> {
    ghost mapped = { map_super_prop_expr };

    fn links_mut<C, B: Below<N, C>>(&mut self, below: &B, change: &mut C) -> Result<(), Stop> {
        self.prop.links_mut(below, change)
    }
}

impl<N> Links<N> for CondExpr<N> {
    ghost mapped = { map_cond_expr };

    fn links_mut<C, B: Below<N, C>>(&mut self, below: &B, change: &mut C) -> Result<(), Stop> {
        self.test.links_mut(below, change)?;
        self.cons.links_mut(below, change)?;
        self.alt.links_mut(below, change)
    }
}

impl<N> Links<N> for Callee<N> {
    ghost mapped = { map_callee };

    fn links_mut<C, B: Below<N, C>>(&mut self, below: &B, change: &mut C) -> Result<(), Stop> {
        match self {
            Callee::Expr(node) => node.links_mut(below, change),
            Callee::Super(_) | Callee::Import(_) => Ok(()),
        }
    }
}

impl<N> Links<N> for CallExpr<N> {
    ghost mapped = { map_call_expr };

    fn links_mut<C, B: Below<N, C>>(&mut self, below: &B, change: &mut C) -> Result<(), Stop> {
        self.callee.links_mut(below, change)?;
        self.args.links_mut(below, change)?;
        self.type_args.links_mut(below, change)
    }
}

impl<N> Links<N> for NewExpr<N> {
    ghost mapped = { map_new_expr };

    fn links_mut<C, B: Below<N, C>>(&mut self, below: &B, change: &mut C) -> Result<(), Stop> {
        self.callee.links_mut(below, change)?;
        self.args.links_mut(below, change)?;
        self.type_args.links_mut(below, change)
    }
}

impl<N> Links<N> for SeqExpr<N> {
    ghost mapped = { map_seq_expr };

    fn links_mut<C, B: Below<N, C>>(&mut self, below: &B, change: &mut C) -> Result<(), Stop> {
        self.exprs.links_mut(below, change)
    }
}

impl<N> Links<N> for TaggedTpl<N> {
    ghost mapped = { map_tagged_tpl };

    fn links_mut<C, B: Below<N, C>>(&mut self, below: &B, change: &mut C) -> Result<(), Stop> {
        self.tag.links_mut(below, change)?;
        self.type_params.links_mut(below, change)?;
        self.tpl.links_mut(below, change)
    }
}

impl<N> Links<N> for BlockStmtOrExpr<N> {
    ghost mapped = { map_block_stmt_or_expr };

    fn links_mut<C, B: Below<N, C>>(&mut self, below: &B, change: &mut C) -> Result<(), Stop> {
        match self {
            BlockStmtOrExpr::BlockStmt(node) => node.links_mut(below, change),
            BlockStmtOrExpr::Expr(node) => node.links_mut(below, change),
        }
    }
}

impl<N> Links<N> for ArrowExpr<N> {
    ghost mapped = { map_arrow_expr };

    fn links_mut<C, B: Below<N, C>>(&mut self, below: &B, change: &mut C) -> Result<(), Stop> {
        self.params.links_mut(below, change)?;
        self.body.links_mut(below, change)?;
        self.type_params.links_mut(below, change)?;
        self.return_type.links_mut(below, change)
    }
}

impl<N> Links<N> for ClassExpr<N> {
    ghost mapped = { map_class_expr };

    fn links_mut<C, B: Below<N, C>>(&mut self, below: &B, change: &mut C) -> Result<(), Stop> {
        self.ident.links_mut(below, change)?;
        self.class.links_mut(below, change)
    }
}

impl<N> Links<N> for YieldExpr<N> {
    ghost mapped = { map_yield_expr };

    fn links_mut<C, B: Below<N, C>>(&mut self, below: &B, change: &mut C) -> Result<(), Stop> {
        self.arg.links_mut(below, change)
    }
}

impl<N> Links<N> for AwaitExpr<N> {
    ghost mapped = { map_await_expr };

    fn links_mut<C, B: Below<N, C>>(&mut self, below: &B, change: &mut C) -> Result<(), Stop> {
        self.arg.links_mut(below, change)
    }
}

impl<N> Links<N> for ParenExpr<N> {
    ghost mapped = { map_paren_expr };

    fn links_mut<C, B: Below<N, C>>(&mut self, below: &B, change: &mut C) -> Result<(), Stop> {
        self.expr.links_mut(below, change)
    }
}

impl<N> Links<N> for JSXMemberExpr<N> {
    ghost mapped = { map_jsx_member_expr };

    fn links_mut<C, B: Below<N, C>>(&mut self, below: &B, change: &mut C) -> Result<(), Stop> {
        self.obj.links_mut(below, change)
    }
}

impl<N> Links<N> for TsTypeAssertion<N> {
    ghost mapped = { map_ts_type_assertion };

    fn links_mut<C, B: Below<N, C>>(&mut self, below: &B, change: &mut C) -> Result<(), Stop> {
        self.expr.links_mut(below, change)?;
        self.type_ann.links_mut(below, change)
    }
}

impl<N> Links<N> for TsConstAssertion<N> {
    ghost mapped = { map_ts_const_assertion };

    fn links_mut<C, B: Below<N, C>>(&mut self, below: &B, change: &mut C) -> Result<(), Stop> {
        self.expr.links_mut(below, change)
    }
}

impl<N> Links<N> for TsNonNullExpr<N> {
    ghost mapped = { map_ts_non_null_expr };

    fn links_mut<C, B: Below<N, C>>(&mut self, below: &B, change: &mut C) -> Result<(), Stop> {
        self.expr.links_mut(below, change)
    }
}

impl<N> Links<N> for TsAsExpr<N> {
    ghost mapped = { map_ts_as_expr };

    fn links_mut<C, B: Below<N, C>>(&mut self, below: &B, change: &mut C) -> Result<(), Stop> {
        self.expr.links_mut(below, change)?;
        self.type_ann.links_mut(below, change)
    }
}

impl<N> Links<N> for TsInstantiation<N> {
    ghost mapped = { map_ts_instantiation };

    fn links_mut<C, B: Below<N, C>>(&mut self, below: &B, change: &mut C) -> Result<(), Stop> {
        self.expr.links_mut(below, change)?;
        self.type_args.links_mut(below, change)
    }
}

impl<N> Links<N> for TsSatisfiesExpr<N> {
    ghost mapped = { map_ts_satisfies_expr };

    fn links_mut<C, B: Below<N, C>>(&mut self, below: &B, change: &mut C) -> Result<(), Stop> {
        self.expr.links_mut(below, change)?;
        self.type_ann.links_mut(below, change)
    }
}

impl<N> Links<N> for OptChainBase<N> {
    ghost mapped = { map_opt_chain_base };

    fn links_mut<C, B: Below<N, C>>(&mut self, below: &B, change: &mut C) -> Result<(), Stop> {
        match self {
            OptChainBase::Member(node) => node.links_mut(below, change),
            OptChainBase::Call(node) => node.links_mut(below, change),
        }
    }
}

impl<N> Links<N> for OptChainExpr<N> {
    ghost mapped = { map_opt_chain_expr };

    fn links_mut<C, B: Below<N, C>>(&mut self, below: &B, change: &mut C) -> Result<(), Stop> {
        self.base.links_mut(below, change)
    }
}

impl<N> Links<N> for Expr<N> {
    ghost mapped = { map_expr };

    fn links_mut<C, B: Below<N, C>>(&mut self, below: &B, change: &mut C) -> Result<(), Stop> {
        match self {
            Expr::Array(node) => node.links_mut(below, change),
            Expr::Object(node) => node.links_mut(below, change),
            Expr::Fn(node) => node.links_mut(below, change),
            Expr::Unary(node) => node.links_mut(below, change),
            Expr::Update(node) => node.links_mut(below, change),
            Expr::Bin(node) => node.links_mut(below, change),
            Expr::Assign(node) => node.links_mut(below, change),
            Expr::Member(node) => node.links_mut(below, change),
            Expr::SuperProp(node) => node.links_mut(below, change),
            Expr::Cond(node) => node.links_mut(below, change),
            Expr::Call(node) => node.links_mut(below, change),
            Expr::New(node) => node.links_mut(below, change),
            Expr::Seq(node) => node.links_mut(below, change),
            Expr::Ident(node) => node.links_mut(below, change),
            Expr::Tpl(node) => node.links_mut(below, change),
            Expr::TaggedTpl(node) => node.links_mut(below, change),
            Expr::Arrow(node) => node.links_mut(below, change),
            Expr::Class(node) => node.links_mut(below, change),
            Expr::Yield(node) => node.links_mut(below, change),
            Expr::Await(node) => node.links_mut(below, change),
            Expr::Paren(node) => node.links_mut(below, change),
            Expr::JSXMember(node) => node.links_mut(below, change),
            Expr::JSXElement(node) => node.links_mut(below, change),
            Expr::JSXFragment(node) => node.links_mut(below, change),
            Expr::TsTypeAssertion(node) => node.links_mut(below, change),
            Expr::TsConstAssertion(node) => node.links_mut(below, change),
            Expr::TsNonNull(node) => node.links_mut(below, change),
            Expr::TsAs(node) => node.links_mut(below, change),
            Expr::TsInstantiation(node) => node.links_mut(below, change),
            Expr::TsSatisfies(node) => node.links_mut(below, change),
            Expr::OptChain(node) => node.links_mut(below, change),
            Expr::This(_)
            | Expr::Lit(_)
            | Expr::MetaProp(_)
            | Expr::JSXNamespacedName(_)
            | Expr::JSXEmpty(_)
            | Expr::PrivateName(_)
            | Expr::Invalid(_) => Ok(()),
        }
    }
}

impl<N> Links<N> for OptCall<N> {
    ghost mapped = { map_opt_call };

    fn links_mut<C, B: Below<N, C>>(&mut self, below: &B, change: &mut C) -> Result<(), Stop> {
        self.callee.links_mut(below, change)?;
        self.args.links_mut(below, change)?;
        self.type_args.links_mut(below, change)
    }
}

impl<N> Links<N> for Tpl<N> {
    ghost mapped = { map_tpl };

    fn links_mut<C, B: Below<N, C>>(&mut self, below: &B, change: &mut C) -> Result<(), Stop> {
        self.exprs.links_mut(below, change)
    }
}
