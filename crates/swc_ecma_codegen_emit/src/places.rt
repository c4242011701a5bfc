//! Where a node stands whose place is that of what it holds.

ghost use Rattle.std.specs.Prelude.{◌≡◌};
ghost use Rattle.swc_ecma_codegen_spans.specs.Spans.{decl_span, expr_or_spread_span, expr_span, module_item_span, prop_span, spread_element_span, stmt_span};
ghost use Rattle.swc_ecma_codegen_emit.specs.Answers.{place_of};

use crate::nodes::Asked;
use swc_ecma_codegen_common::Span;
use swc_ecma_codegen_spans::Spanned;
use swc_ecma_codegen_tree::{Decl, Expr, ExprOrSpread, ModuleItem, Prop, SpreadElement, Stmt};

/// Where an expression stands.
#[tactic(auto, unfolding(swc_ecma_codegen_spans::specs::Spans::expr_span, swc_ecma_codegen_spans::specs::Spans::fn_expr_span, swc_ecma_codegen_spans::specs::Spans::class_expr_span, swc_ecma_codegen_spans::specs::Spans::jsx_member_expr_span))]
pub(crate) fn expr_place<N: Asked>(node: &Expr<N>) -> Span
    ensures { result ≡ expr_span (place_of N.answers) node.now }
{
    match node {
        Expr::This(node) => node.span,
        Expr::Array(node) => node.span,
        Expr::Object(node) => node.span,
        Expr::Fn(node) => node.function.target().place(),
        Expr::Unary(node) => node.span,
        Expr::Update(node) => node.span,
        Expr::Bin(node) => node.span,
        Expr::Assign(node) => node.span,
        Expr::Member(node) => node.span,
        Expr::SuperProp(node) => node.span,
        Expr::Cond(node) => node.span,
        Expr::Call(node) => node.span,
        Expr::New(node) => node.span,
        Expr::Seq(node) => node.span,
        Expr::Ident(node) => node.span,
        Expr::Lit(node) => node.span(),
        Expr::Tpl(node) => node.target().place(),
        Expr::TaggedTpl(node) => node.span,
        Expr::Arrow(node) => node.span,
        Expr::Class(node) => node.class.target().place(),
        Expr::Yield(node) => node.span,
        Expr::MetaProp(node) => node.span,
        Expr::Await(node) => node.span,
        Expr::Paren(node) => node.span,
        Expr::JSXMember(node) => Span {
            lo: node.obj.target().place().lo,
            hi: node.prop.span.hi,
        },
        Expr::JSXNamespacedName(node) => node.span(),
        Expr::JSXEmpty(node) => node.span,
        Expr::JSXElement(node) => node.target().place(),
        Expr::JSXFragment(node) => node.target().place(),
        Expr::TsTypeAssertion(node) => node.span,
        Expr::TsConstAssertion(node) => node.span,
        Expr::TsNonNull(node) => node.span,
        Expr::TsAs(node) => node.span,
        Expr::TsInstantiation(node) => node.span,
        Expr::TsSatisfies(node) => node.span,
        Expr::PrivateName(node) => node.span,
        Expr::OptChain(node) => node.span,
        Expr::Invalid(node) => node.span,
    }
}

/// Where a statement stands.
#[tactic(auto, unfolding(swc_ecma_codegen_spans::specs::Spans::stmt_span))]
pub(crate) fn stmt_place<N: Asked>(node: &Stmt<N>) -> Span
    ensures { result ≡ stmt_span (place_of N.answers) node.now }
{
    match node {
        Stmt::Block(node) => node.target().place(),
        Stmt::Empty(node) => node.span,
        Stmt::Debugger(node) => node.span,
        Stmt::With(node) => node.span,
        Stmt::Return(node) => node.span,
        Stmt::Labeled(node) => node.span,
        Stmt::Break(node) => node.span,
        Stmt::Continue(node) => node.span,
        Stmt::If(node) => node.span,
        Stmt::Switch(node) => node.span,
        Stmt::Throw(node) => node.span,
        Stmt::Try(node) => node.span,
        Stmt::While(node) => node.span,
        Stmt::DoWhile(node) => node.span,
        Stmt::For(node) => node.span,
        Stmt::ForIn(node) => node.span,
        Stmt::ForOf(node) => node.span,
        Stmt::Decl(node) => decl_place(node),
        Stmt::Expr(node) => node.span,
    }
}

/// Where a declaration stands.
#[tactic(auto, unfolding(swc_ecma_codegen_spans::specs::Spans::decl_span, swc_ecma_codegen_spans::specs::Spans::class_decl_span, swc_ecma_codegen_spans::specs::Spans::fn_decl_span))]
fn decl_place<N: Asked>(node: &Decl<N>) -> Span
    ensures { result ≡ decl_span (place_of N.answers) node.now }
{
    match node {
        Decl::Class(node) => node.class.target().place(),
        Decl::Fn(node) => node.function.target().place(),
        Decl::Var(node) => node.span,
        Decl::Using(node) => node.span,
        Decl::TsInterface(node) => node.span,
        Decl::TsTypeAlias(node) => node.span,
        Decl::TsEnum(node) => node.span,
        Decl::TsModule(node) => node.span,
    }
}

/// Where an item of a module stands.
#[tactic(auto, unfolding(swc_ecma_codegen_spans::specs::Spans::module_item_span))]
pub(crate) fn module_item_place<N: Asked>(node: &ModuleItem<N>) -> Span
    ensures { result ≡ module_item_span (place_of N.answers) node.now }
{
    match node {
        ModuleItem::ModuleDecl(node) => node.target().place(),
        ModuleItem::Stmt(node) => stmt_place(node),
    }
}

/// Where an argument or an element stands: `a` or `...a`.
#[tactic(auto, unfolding(swc_ecma_codegen_spans::specs::Spans::expr_or_spread_span))]
pub(crate) fn expr_or_spread_place<N: Asked>(node: &ExprOrSpread<N>) -> Span
    ensures { result ≡ expr_or_spread_span (place_of N.answers) node.now }
{
    let span = node.expr.target().place();
    match node.spread {
        Some(dots) => Span {
            lo: dots.lo,
            hi: span.hi,
        },
        None => span,
    }
}

/// Where `...a` stands.
#[tactic(auto, unfolding(swc_ecma_codegen_spans::specs::Spans::spread_element_span))]
pub(crate) fn spread_element_place<N: Asked>(node: &SpreadElement<N>) -> Span
    ensures { result ≡ spread_element_span (place_of N.answers) node.now }
{
    Span {
        lo: node.dot3_token.lo,
        hi: node.expr.target().place().hi,
    }
}

/// Where a property stands.
#[tactic(auto, unfolding(swc_ecma_codegen_spans::specs::Spans::prop_span, swc_ecma_codegen_spans::specs::Spans::key_value_prop_span, swc_ecma_codegen_spans::specs::Spans::assign_prop_span, swc_ecma_codegen_spans::specs::Spans::method_prop_span))]
pub(crate) fn prop_place<N: Asked>(node: &Prop<N>) -> Span
    ensures { result ≡ prop_span (place_of N.answers) node.now }
{
    match node {
        Prop::Shorthand(node) => node.span,
        Prop::KeyValue(node) => Span {
            lo: node.key.span().lo,
            hi: node.value.target().place().hi,
        },
        Prop::Assign(node) => Span {
            lo: node.key.span.lo,
            hi: node.value.target().place().hi,
        },
        Prop::Getter(node) => node.span,
        Prop::Setter(node) => node.span,
        Prop::Method(node) => Span {
            lo: node.key.span().lo,
            hi: node.function.target().place().hi,
        },
    }
}
