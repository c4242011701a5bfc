//! Which nodes begin with a character of a name.

ghost use Rattle.std.specs.Prelude.{◌≡◌, true, false};
ghost use Rattle.swc_ecma_codegen_settings.specs.Starts.{any_starts, arrow_starts, callee_starts, chain_starts, expr_part_starts, expr_starts, is_word_op, item_starts, lit_starts, pat_starts, prop_name_starts, simple_target_starts, stmt_part_starts, stmt_starts, target_starts};

use crate::util::StartsWithAlphaNum;
use swc_ecma_codegen_common::UnaryOp;
use swc_ecma_codegen_tree::{
    AnyNode, ArrayPat, ArrowExpr, AssignTarget, AssignTargetPat, BindingIdent, Callee, Decl, Expr,
    ExprOrSpread, ExprPart, Ident, Invalid, Lit, MemberExpr, ObjectPat, OptCall, OptChainBase,
    OptChainExpr, ParenExpr, Pat, PropName, SimpleAssignTarget, Stmt, StmtPart, SuperPropExpr,
    TsAsExpr, TsInstantiation, TsNonNullExpr, TsSatisfiesExpr, TsTypeAssertion,
};

#[tactic(auto, unfolding(crate::specs::Starts::is_word_op))]
fn is_word_op(op: UnaryOp) -> bool
    ensures { result ≡ is_word_op op }
{
    match op {
        UnaryOp::TypeOf | UnaryOp::Void | UnaryOp::Delete => true,
        UnaryOp::Minus | UnaryOp::Plus | UnaryOp::Bang | UnaryOp::Tilde => false,
    }
}

#[tactic(auto, unfolding(crate::specs::Starts::lit_starts))]
fn lit_starts(lit: &Lit) -> bool
    ensures { result ≡ lit_starts lit.now }
{
    match lit {
        Lit::Bool(_) | Lit::Null(_) | Lit::Num(_) | Lit::BigInt(_) => true,
        Lit::Str(_) | Lit::Regex(_) | Lit::JSXText(_) => false,
    }
}

#[tactic(auto, unfolding(crate::specs::Starts::arrow_starts, crate::specs::Starts::only_starts))]
fn arrow_starts<N: StartsWithAlphaNum>(arrow: &ArrowExpr<N>) -> bool
    ensures { result ≡ arrow_starts N.starts arrow.now }
{
    if arrow.is_async {
        return true;
    }
    match arrow.params.as_slice() {
        [only] => only.starts_with_alpha_num(),
        _ => false,
    }
}

impl StartsWithAlphaNum for Ident {
    ghost starts = { λ _. true };

    fn starts_with_alpha_num(&self) -> bool {
        true
    }
}

impl<N> StartsWithAlphaNum for BindingIdent<N> {
    ghost starts = { λ _. true };

    fn starts_with_alpha_num(&self) -> bool {
        true
    }
}

impl<N> StartsWithAlphaNum for SuperPropExpr<N> {
    ghost starts = { λ _. true };

    fn starts_with_alpha_num(&self) -> bool {
        true
    }
}

impl<N> StartsWithAlphaNum for TsTypeAssertion<N> {
    ghost starts = { λ _. true };

    fn starts_with_alpha_num(&self) -> bool {
        true
    }
}

impl StartsWithAlphaNum for Invalid {
    ghost starts = { λ _. false };

    fn starts_with_alpha_num(&self) -> bool {
        false
    }
}

impl<N> StartsWithAlphaNum for ParenExpr<N> {
    ghost starts = { λ _. false };

    fn starts_with_alpha_num(&self) -> bool {
        false
    }
}

impl<N> StartsWithAlphaNum for ArrayPat<N> {
    ghost starts = { λ _. false };

    fn starts_with_alpha_num(&self) -> bool {
        false
    }
}

impl<N> StartsWithAlphaNum for ObjectPat<N> {
    ghost starts = { λ _. false };

    fn starts_with_alpha_num(&self) -> bool {
        false
    }
}

impl<N> StartsWithAlphaNum for AssignTargetPat<N> {
    ghost starts = { λ _. false };

    fn starts_with_alpha_num(&self) -> bool {
        false
    }
}

impl<N> StartsWithAlphaNum for Decl<N> {
    ghost starts = { λ _. true };

    fn starts_with_alpha_num(&self) -> bool {
        true
    }
}

impl<N: StartsWithAlphaNum> StartsWithAlphaNum for MemberExpr<N> {
    ghost starts = { λ n. N.starts n.obj.node.value };

    fn starts_with_alpha_num(&self) -> bool {
        self.obj.starts_with_alpha_num()
    }
}

impl<N: StartsWithAlphaNum> StartsWithAlphaNum for OptCall<N> {
    ghost starts = { λ n. N.starts n.callee.node.value };

    fn starts_with_alpha_num(&self) -> bool {
        self.callee.starts_with_alpha_num()
    }
}

impl<N: StartsWithAlphaNum> StartsWithAlphaNum for TsAsExpr<N> {
    ghost starts = { λ n. N.starts n.expr.node.value };

    fn starts_with_alpha_num(&self) -> bool {
        self.expr.starts_with_alpha_num()
    }
}

impl<N: StartsWithAlphaNum> StartsWithAlphaNum for TsSatisfiesExpr<N> {
    ghost starts = { λ n. N.starts n.expr.node.value };

    fn starts_with_alpha_num(&self) -> bool {
        self.expr.starts_with_alpha_num()
    }
}

impl<N: StartsWithAlphaNum> StartsWithAlphaNum for TsNonNullExpr<N> {
    ghost starts = { λ n. N.starts n.expr.node.value };

    fn starts_with_alpha_num(&self) -> bool {
        self.expr.starts_with_alpha_num()
    }
}

impl<N: StartsWithAlphaNum> StartsWithAlphaNum for TsInstantiation<N> {
    ghost starts = { λ n. N.starts n.expr.node.value };

    fn starts_with_alpha_num(&self) -> bool {
        self.expr.starts_with_alpha_num()
    }
}

impl<N> StartsWithAlphaNum for PropName<N> {
    ghost starts = { prop_name_starts };

    #[tactic(auto, unfolding(crate::specs::Starts::prop_name_starts))]
    fn starts_with_alpha_num(&self) -> bool {
        match self {
            PropName::Ident(_) | PropName::Num(_) | PropName::BigInt(_) => true,
            PropName::Str(_) | PropName::Computed(_) => false,
        }
    }
}

impl<N: StartsWithAlphaNum> StartsWithAlphaNum for OptChainExpr<N> {
    ghost starts = { λ n. chain_starts N.starts n.base };

    #[tactic(auto, unfolding(crate::specs::Starts::chain_starts))]
    fn starts_with_alpha_num(&self) -> bool {
        match &self.base {
            OptChainBase::Member(node) => node.starts_with_alpha_num(),
            OptChainBase::Call(node) => node.starts_with_alpha_num(),
        }
    }
}

impl<N: StartsWithAlphaNum> StartsWithAlphaNum for ExprOrSpread<N> {
    ghost starts = { item_starts N.starts };

    #[tactic(auto, unfolding(crate::specs::Starts::item_starts, crate::specs::Starts::spread_starts))]
    fn starts_with_alpha_num(&self) -> bool {
        match &self.spread {
            Some(_) => false,
            None => self.expr.starts_with_alpha_num(),
        }
    }
}

impl<N: StartsWithAlphaNum> StartsWithAlphaNum for Callee<N> {
    ghost starts = { callee_starts N.starts };

    #[tactic(auto, unfolding(crate::specs::Starts::callee_starts))]
    fn starts_with_alpha_num(&self) -> bool {
        match self {
            Callee::Super(_) | Callee::Import(_) => true,
            Callee::Expr(node) => node.starts_with_alpha_num(),
        }
    }
}

impl<N: StartsWithAlphaNum> StartsWithAlphaNum for Expr<N> {
    ghost starts = { expr_starts N.starts };

    #[tactic(auto, unfolding(crate::specs::Starts::expr_starts, crate::specs::Starts::update_starts, crate::specs::Starts::first_starts))]
    fn starts_with_alpha_num(&self) -> bool {
        match self {
            Expr::This(_) | Expr::Ident(_) => true,
            Expr::Fn(_) | Expr::Class(_) | Expr::New(_) | Expr::Await(_) | Expr::Yield(_) => true,
            Expr::SuperProp(_) | Expr::MetaProp(_) | Expr::Invalid(_) => true,
            Expr::JSXMember(_) | Expr::JSXNamespacedName(_) => true,
            Expr::Lit(node) => lit_starts(node),
            Expr::Unary(node) => is_word_op(node.op),
            Expr::Update(node) => !node.prefix && node.arg.starts_with_alpha_num(),
            Expr::Bin(node) => node.left.starts_with_alpha_num(),
            Expr::Assign(node) => node.left.starts_with_alpha_num(),
            Expr::Member(node) => node.starts_with_alpha_num(),
            Expr::OptChain(node) => node.starts_with_alpha_num(),
            Expr::Call(node) => node.callee.starts_with_alpha_num(),
            Expr::TaggedTpl(node) => node.tag.starts_with_alpha_num(),
            Expr::Cond(node) => node.test.starts_with_alpha_num(),
            Expr::Seq(node) => match node.exprs.first() {
                Some(first) => first.starts_with_alpha_num(),
                None => false,
            },
            Expr::Arrow(node) => arrow_starts(node),
            Expr::TsAs(node) => node.starts_with_alpha_num(),
            Expr::TsSatisfies(node) => node.starts_with_alpha_num(),
            Expr::TsNonNull(node) => node.starts_with_alpha_num(),
            Expr::TsInstantiation(node) => node.starts_with_alpha_num(),
            Expr::TsConstAssertion(node) => node.expr.starts_with_alpha_num(),
            Expr::Array(_) | Expr::Object(_) | Expr::Tpl(_) | Expr::Paren(_) => false,
            Expr::JSXEmpty(_) | Expr::JSXElement(_) | Expr::JSXFragment(_) => false,
            Expr::TsTypeAssertion(_) | Expr::PrivateName(_) => false,
        }
    }
}

impl<N: StartsWithAlphaNum> StartsWithAlphaNum for Pat<N> {
    ghost starts = { pat_starts N.starts };

    #[tactic(auto, unfolding(crate::specs::Starts::pat_starts))]
    fn starts_with_alpha_num(&self) -> bool {
        match self {
            Pat::Ident(_) | Pat::Invalid(_) => true,
            Pat::Assign(node) => node.left.starts_with_alpha_num(),
            Pat::Expr(node) => node.starts_with_alpha_num(),
            Pat::Array(_) | Pat::Rest(_) | Pat::Object(_) => false,
        }
    }
}

impl<N: StartsWithAlphaNum> StartsWithAlphaNum for SimpleAssignTarget<N> {
    ghost starts = { simple_target_starts N.starts };

    #[tactic(auto, unfolding(crate::specs::Starts::simple_target_starts))]
    fn starts_with_alpha_num(&self) -> bool {
        match self {
            SimpleAssignTarget::Ident(node) => node.starts_with_alpha_num(),
            SimpleAssignTarget::Member(node) => node.starts_with_alpha_num(),
            SimpleAssignTarget::SuperProp(node) => node.starts_with_alpha_num(),
            SimpleAssignTarget::Paren(node) => node.starts_with_alpha_num(),
            SimpleAssignTarget::OptChain(node) => node.starts_with_alpha_num(),
            SimpleAssignTarget::TsAs(node) => node.starts_with_alpha_num(),
            SimpleAssignTarget::TsSatisfies(node) => node.starts_with_alpha_num(),
            SimpleAssignTarget::TsNonNull(node) => node.starts_with_alpha_num(),
            SimpleAssignTarget::TsTypeAssertion(node) => node.starts_with_alpha_num(),
            SimpleAssignTarget::TsInstantiation(node) => node.starts_with_alpha_num(),
            SimpleAssignTarget::Invalid(node) => node.starts_with_alpha_num(),
        }
    }
}

impl<N: StartsWithAlphaNum> StartsWithAlphaNum for AssignTarget<N> {
    ghost starts = { target_starts N.starts };

    #[tactic(auto, unfolding(crate::specs::Starts::target_starts))]
    fn starts_with_alpha_num(&self) -> bool {
        match self {
            AssignTarget::Simple(node) => node.starts_with_alpha_num(),
            AssignTarget::Pat(node) => node.starts_with_alpha_num(),
        }
    }
}

impl<N: StartsWithAlphaNum> StartsWithAlphaNum for Stmt<N> {
    ghost starts = { stmt_starts N.starts };

    #[tactic(auto, unfolding(crate::specs::Starts::stmt_starts))]
    fn starts_with_alpha_num(&self) -> bool {
        match self {
            Stmt::Block(_) | Stmt::Empty(_) => false,
            Stmt::Decl(node) => node.starts_with_alpha_num(),
            Stmt::Expr(node) => node.expr.starts_with_alpha_num(),
            Stmt::Debugger(_) | Stmt::With(_) | Stmt::Labeled(_) | Stmt::If(_) => true,
            Stmt::Return(_) | Stmt::Break(_) | Stmt::Continue(_) | Stmt::Throw(_) => true,
            Stmt::Switch(_) | Stmt::Try(_) | Stmt::While(_) | Stmt::DoWhile(_) => true,
            Stmt::For(_) | Stmt::ForIn(_) | Stmt::ForOf(_) => true,
        }
    }
}

impl<N: StartsWithAlphaNum> StartsWithAlphaNum for ExprPart<N> {
    ghost starts = { expr_part_starts N.starts };

    #[tactic(auto, unfolding(crate::specs::Starts::expr_part_starts))]
    fn starts_with_alpha_num(&self) -> bool {
        match self {
            ExprPart::Pat(node) => node.starts_with_alpha_num(),
            ExprPart::PropName(node) => node.starts_with_alpha_num(),
            ExprPart::OptCall(node) => node.starts_with_alpha_num(),
            ExprPart::AssignTarget(node) => node.starts_with_alpha_num(),
            ExprPart::Tpl(_) | ExprPart::ObjectLit(_) => false,
        }
    }
}

impl<N: StartsWithAlphaNum> StartsWithAlphaNum for StmtPart<N> {
    ghost starts = { stmt_part_starts };

    #[tactic(auto, unfolding(crate::specs::Starts::stmt_part_starts))]
    fn starts_with_alpha_num(&self) -> bool {
        match self {
            StmtPart::Decl(node) => node.starts_with_alpha_num(),
            StmtPart::Function(_) | StmtPart::Class(_) | StmtPart::BlockStmt(_) => false,
            StmtPart::ModuleDecl(_) | StmtPart::VarDecl(_) | StmtPart::ClassMember(_) => false,
        }
    }
}

impl StartsWithAlphaNum for AnyNode {
    ghost starts = { any_starts };

    fn starts_with_alpha_num(&self) -> bool {
        match self {
            AnyNode::Expr(node) => node.starts_with_alpha_num(),
            AnyNode::Stmt(node) => node.starts_with_alpha_num(),
            AnyNode::MemberExpr(node) => node.starts_with_alpha_num(),
            AnyNode::ExprPart(node) => node.starts_with_alpha_num(),
            AnyNode::StmtPart(node) => node.starts_with_alpha_num(),
            _ => false,
        }
    }
}
