//! Which nodes end with a character of a name.

ghost use Rattle.std.specs.Prelude.{◌≡◌};
ghost use Rattle.swc_ecma_codegen_settings.specs.Ends.{any_ends, declarator_ends, declarators_end, expr_ends, expr_part_ends, head_ends, lit_ends, pat_ends, prop_ends, stmt_part_ends};

use crate::util::EndsWithAlphaNum;
use swc_ecma_codegen_tree::{
    AnyNode, Expr, ExprPart, ForHead, Lit, MemberExpr, MemberProp, Pat, StmtPart, UsingDecl,
    VarDecl, VarDeclarator,
};

#[tactic(auto, unfolding(crate::specs::Ends::lit_ends))]
fn lit_ends(lit: &Lit) -> bool
    ensures { result ≡ lit_ends lit.now }
{
    match lit {
        Lit::Str(_) => false,
        Lit::Bool(_) | Lit::Null(_) | Lit::Num(_) => true,
        Lit::BigInt(_) | Lit::Regex(_) | Lit::JSXText(_) => true,
    }
}

#[tactic(auto, unfolding(crate::specs::Ends::declarator_ends, crate::specs::Ends::init_ends))]
fn declarator_ends<N: EndsWithAlphaNum>(declarator: &VarDeclarator<N>) -> bool
    ensures { result ≡ declarator_ends N.ends declarator.now }
{
    match &declarator.init {
        Some(init) => init.ends_with_alpha_num(),
        None => declarator.name.ends_with_alpha_num(),
    }
}

#[tactic(auto, unfolding(crate::specs::Ends::declarators_end, crate::specs::Ends::last_ends))]
fn declarators_end<N: EndsWithAlphaNum>(declarators: &[VarDeclarator<N>]) -> bool
    ensures { result ≡ declarators_end N.ends declarators.now }
{
    match declarators.last() {
        Some(last) => declarator_ends(last),
        None => true,
    }
}

impl<N> EndsWithAlphaNum for MemberProp<N> {
    ghost ends = { prop_ends };

    #[tactic(auto, unfolding(crate::specs::Ends::prop_ends))]
    fn ends_with_alpha_num(&self) -> bool {
        match self {
            MemberProp::Ident(_) | MemberProp::PrivateName(_) => true,
            MemberProp::Computed(_) => false,
        }
    }
}

impl<N> EndsWithAlphaNum for MemberExpr<N> {
    ghost ends = { λ n. prop_ends n.prop };

    fn ends_with_alpha_num(&self) -> bool {
        self.prop.ends_with_alpha_num()
    }
}

impl<N: EndsWithAlphaNum> EndsWithAlphaNum for Expr<N> {
    ghost ends = { expr_ends N.ends };

    #[tactic(auto, unfolding(crate::specs::Ends::expr_ends))]
    fn ends_with_alpha_num(&self) -> bool {
        match self {
            Expr::Member(node) => node.ends_with_alpha_num(),
            Expr::Lit(node) => lit_ends(node),
            Expr::Array(_) | Expr::Object(_) | Expr::Paren(_) => false,
            _ => true,
        }
    }
}

impl<N: EndsWithAlphaNum> EndsWithAlphaNum for Pat<N> {
    ghost ends = { pat_ends N.ends };

    #[tactic(auto, unfolding(crate::specs::Ends::pat_ends))]
    fn ends_with_alpha_num(&self) -> bool {
        match self {
            Pat::Array(_) | Pat::Object(_) => false,
            Pat::Rest(node) => node.arg.ends_with_alpha_num(),
            Pat::Assign(node) => node.right.ends_with_alpha_num(),
            Pat::Expr(node) => node.ends_with_alpha_num(),
            Pat::Ident(_) | Pat::Invalid(_) => true,
        }
    }
}

impl<N: EndsWithAlphaNum> EndsWithAlphaNum for VarDecl<N> {
    ghost ends = { λ n. declarators_end N.ends n.decls.items };

    fn ends_with_alpha_num(&self) -> bool {
        declarators_end(&self.decls)
    }
}

impl<N: EndsWithAlphaNum> EndsWithAlphaNum for UsingDecl<N> {
    ghost ends = { λ n. declarators_end N.ends n.decls.items };

    fn ends_with_alpha_num(&self) -> bool {
        declarators_end(&self.decls)
    }
}

impl<N: EndsWithAlphaNum> EndsWithAlphaNum for ForHead<N> {
    ghost ends = { head_ends N.ends };

    #[tactic(auto, unfolding(crate::specs::Ends::head_ends))]
    fn ends_with_alpha_num(&self) -> bool {
        match self {
            ForHead::VarDecl(node) => node.ends_with_alpha_num(),
            ForHead::UsingDecl(node) => node.ends_with_alpha_num(),
            ForHead::Pat(node) => node.ends_with_alpha_num(),
        }
    }
}

impl<N: EndsWithAlphaNum> EndsWithAlphaNum for ExprPart<N> {
    ghost ends = { expr_part_ends N.ends };

    #[tactic(auto, unfolding(crate::specs::Ends::expr_part_ends))]
    fn ends_with_alpha_num(&self) -> bool {
        match self {
            ExprPart::Pat(node) => node.ends_with_alpha_num(),
            ExprPart::Tpl(_) | ExprPart::ObjectLit(_) | ExprPart::PropName(_) => false,
            ExprPart::OptCall(_) | ExprPart::AssignTarget(_) => false,
        }
    }
}

impl<N: EndsWithAlphaNum> EndsWithAlphaNum for StmtPart<N> {
    ghost ends = { stmt_part_ends N.ends };

    #[tactic(auto, unfolding(crate::specs::Ends::stmt_part_ends))]
    fn ends_with_alpha_num(&self) -> bool {
        match self {
            StmtPart::VarDecl(node) => node.ends_with_alpha_num(),
            StmtPart::Function(_) | StmtPart::Class(_) | StmtPart::BlockStmt(_) => false,
            StmtPart::Decl(_) | StmtPart::ModuleDecl(_) | StmtPart::ClassMember(_) => false,
        }
    }
}

impl EndsWithAlphaNum for AnyNode {
    ghost ends = { any_ends };

    fn ends_with_alpha_num(&self) -> bool {
        match self {
            AnyNode::Expr(node) => node.ends_with_alpha_num(),
            AnyNode::MemberExpr(node) => node.ends_with_alpha_num(),
            AnyNode::ExprPart(node) => node.ends_with_alpha_num(),
            AnyNode::StmtPart(node) => node.ends_with_alpha_num(),
            _ => false,
        }
    }
}
