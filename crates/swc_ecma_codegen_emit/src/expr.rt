//! Expressions.

ghost use Rattle.std.specs.Prelude.{◌≡◌, Some, None, true};
ghost use Rattle.swc_ecma_codegen_tokens.specs.Starts.{begins_letter};
ghost use Rattle.swc_ecma_codegen_emit.specs.Standing.{Performs};
ghost use Rattle.swc_ecma_codegen_emit.specs.Exprs.{ident, ident_name, private_name, this, unary_op, unary_gap, unary, update_parts, update, binary_op, before_op, after_op, bin_operator, tight_operator, spaced_operator, word_between, bin_trailing, bin_opened, bin, computed_prop_name, choice, meta_prop_expr, assign, yield_star, yield_arg, yield_argument, yield_argument_in, yield_expr, spread_element, await_expr, seq, paren};
ghost use Rattle.swc_ecma_codegen_emit.specs.AnyExpr.{expr_parts, is_left_operand, leaves_comments, expr_closed, expr, wrapped, placed_expr};
ghost use Rattle.swc_ecma_codegen_spans.specs.Spans.{expr_span};
ghost use Rattle.swc_ecma_codegen_emit.specs.Answers.{place_of};
ghost use Rattle.swc_ecma_codegen_emit.specs.Lists.{unsupported};
ghost use Rattle.swc_ecma_codegen_emit.specs.Operands.{operand_space};
ghost use Rattle.swc_ecma_codegen_emit.specs.declared.nodes.Context.TheVariants.{Plain};
ghost use Rattle.swc_ecma_codegen_settings.specs.Starts.{is_word_op as is_word_unary};
ghost use Rattle.swc_ecma_codegen_emit.specs.Places.{Whole, in_context};

use crate::branches::is_wrapped;
use crate::emitter::Emitter;
use crate::lits::is_number_object;
use crate::marks::{assign_mark, binary_mark, unary_mark, update_mark};
use crate::nodes::{Asked, Context, EmitAt, LinkTarget};
use crate::operands::{begins_greater, is_word_op, operand_space, space_after};
use crate::places::{expr_place, spread_element_place};
use swc_ecma_codegen_common::{BinaryOp, Span, UnaryOp};
use swc_ecma_codegen_grammar::comments::Comments;
use swc_ecma_codegen_grammar::mapper::SourceMapper;
use swc_ecma_codegen_literals::Punctuator;
use swc_ecma_codegen_text_writer::WriteJs;
use swc_ecma_codegen_tree::{
    AssignExpr, AwaitExpr, BinExpr, ComputedPropName, CondExpr, Expr, ExprBox, Ident, IdentName,
    Invalid, MetaPropExpr, MetaPropKind, ParenExpr, PrivateName, SeqExpr, SpreadElement, ThisExpr,
    UnaryExpr, UpdateExpr, YieldExpr,
};

/// Whether a left operand stands there.
#[tactic(auto, unfolding(crate::specs::AnyExpr::is_left_operand))]
fn is_left_operand(context: Context) -> bool
    ensures { result ≡ is_left_operand context }
{
    matches!(context, Context::LeftOperand)
}

/// Whether the comments after it are left where they are: those of an inner left operand, as
/// `a + b` in `a + b + c`, and of a number that is an object, as `10` in `10..x`.
#[tactic(auto, unfolding(crate::specs::AnyExpr::leaves_comments))]
fn leaves_comments<N>(node: &Expr<N>, context: Context) -> bool
    ensures { result ≡ leaves_comments node.now context }
{
    match node {
        Expr::Bin(_) => is_left_operand(context),
        Expr::Lit(lit) => is_number_object(lit, context),
        _ => false,
    }
}

/// Writes a template, an element or a fragment. The context that it is told would be part of the
/// frame that is there at each level of a tree.
#[inline(never)]
fn plainly<N: LinkTarget, W: WriteJs, S: SourceMapper, C: Comments>(
    node: &N,
    e: &mut Emitter<'_, W, S, C>,
)
    ensures items { Performs (N.items node.now (Whole Plain))
        S.lines C.maps W.sheet e.old e.new }
{
    node.emit_at(e, Context::Plain);
}

/// Writes an expression by its variant, without the comments after it.
#[inline(always)]
#[tactic(auto, unfolding(crate::specs::AnyExpr::expr_parts, crate::specs::Exprs::member_at))]
fn expr_parts<N: LinkTarget, W: WriteJs, S: SourceMapper, C: Comments>(
    node: &Expr<N>,
    e: &mut Emitter<'_, W, S, C>,
    context: Context,
)
    ensures items { Performs (expr_parts N.answers N.items node.now context)
        S.lines C.maps W.sheet e.old e.new }
{
    match node {
        Expr::This(node) => node.emit_at(e, context),
        Expr::Object(node) => node.emit_at(e, Context::Plain),
        Expr::Fn(node) => node.emit_at(e, Context::Plain),
        Expr::Array(node) => node.emit_at(e, context),
        Expr::Unary(node) => node.emit_at(e, context),
        Expr::Update(node) => node.emit_at(e, context),
        Expr::Bin(node) => node.emit_at(e, context),
        Expr::Assign(node) => node.emit_at(e, context),
        Expr::Member(node) => node.emit_at(e, Context::Plain),
        Expr::SuperProp(node) => node.emit_at(e, context),
        Expr::Cond(node) => node.emit_at(e, context),
        Expr::Call(node) => node.emit_at(e, context),
        Expr::New(node) => node.emit_at(e, context),
        Expr::Seq(node) => node.emit_at(e, context),
        Expr::Ident(node) => node.emit_at(e, context),
        Expr::Lit(node) => node.emit_at(e, context),
        Expr::Tpl(node) => plainly(node.target(), e),
        Expr::TaggedTpl(node) => node.emit_at(e, context),
        Expr::Arrow(node) => (**node).emit_at(e, context),
        Expr::Class(node) => node.emit_at(e, context),
        Expr::Yield(node) => node.emit_at(e, context),
        Expr::MetaProp(node) => node.emit_at(e, context),
        Expr::Await(node) => node.emit_at(e, context),
        Expr::Paren(node) => node.emit_at(e, context),
        Expr::PrivateName(node) => node.emit_at(e, context),
        Expr::OptChain(node) => node.emit_at(e, context),
        Expr::JSXMember(node) => node.emit_at(e, context),
        Expr::JSXNamespacedName(node) => node.emit_at(e, context),
        Expr::JSXEmpty(node) => node.emit_at(e, context),
        Expr::JSXElement(node) => plainly(node.target(), e),
        Expr::JSXFragment(node) => plainly(node.target(), e),
        Expr::TsTypeAssertion(node) => node.emit_at(e, context),
        Expr::TsConstAssertion(node) => node.emit_at(e, context),
        Expr::TsNonNull(node) => node.emit_at(e, context),
        Expr::TsAs(node) => node.emit_at(e, context),
        Expr::TsInstantiation(node) => node.emit_at(e, context),
        Expr::TsSatisfies(node) => node.emit_at(e, context),
        Expr::Invalid(_) => e.unsupported(),
    }
}

impl EmitAt for Invalid {
    ghost items = { λ n _. unsupported };

    fn emit_at<W: WriteJs, S: SourceMapper, C: Comments>(
        &self,
        e: &mut Emitter<'_, W, S, C>,
        context: Context,
    ) {
        e.unsupported();
    }
}

impl<N: LinkTarget> EmitAt for Expr<N> {
    ghost items = { λ n. in_context (expr N.answers N.items n) };

    #[inline(always)]
    #[tactic(auto, using(crate::proofs::Without::none_there, crate::proofs::Without::expr_bare))]
    fn emit_at<W: WriteJs, S: SourceMapper, C: Comments>(
        &self,
        e: &mut Emitter<'_, W, S, C>,
        context: Context,
    ) {
        if e.comments.is_some() {
            return commented(self, e, context);
        }
        // Nothing comes after it, so there is no frame for it at each level of a tree.
        expr_parts(self, e, context);
    }
}

/// Writes an expression and the comments after it.
#[inline(never)]
#[tactic(auto, unfolding(crate::specs::AnyExpr::expr))]
fn commented<N: LinkTarget, W: WriteJs, S: SourceMapper, C: Comments>(
    node: &Expr<N>,
    e: &mut Emitter<'_, W, S, C>,
    context: Context,
)
    ensures items { Performs (expr N.answers N.items node.now context)
        S.lines C.maps W.sheet e.old e.new }
{
    expr_parts(node, e, context);
    e.expr_closed(node, context);
}

/// Writes an expression in parentheses.
#[inline(never)]
#[tactic(auto, unfolding(crate::specs::AnyExpr::wrapped))]
fn wrapped<N: LinkTarget, W: WriteJs, S: SourceMapper, C: Comments>(
    node: &Expr<N>,
    e: &mut Emitter<'_, W, S, C>,
)
    ensures items { Performs (wrapped N.answers N.items node.now)
        S.lines C.maps W.sheet e.old e.new }
{
    e.punct(Punctuator::LeftParenthesis);
    commented(node, e, Context::Plain);
    e.punct(Punctuator::RightParenthesis);
}

/// Writes an expression where it stands: a sequence that is the value of a field stands in
/// parentheses.
#[inline(always)]
#[tactic(auto, unfolding(crate::specs::AnyExpr::placed_expr))]
pub(crate) fn placed_expr<N: LinkTarget, W: WriteJs, S: SourceMapper, C: Comments>(
    node: &Expr<N>,
    e: &mut Emitter<'_, W, S, C>,
    context: Context,
)
    ensures items { Performs (placed_expr N.answers N.items node.now context)
        S.lines C.maps W.sheet e.old e.new }
{
    if is_wrapped(node, context) {
        return wrapped(node, e);
    }
    node.emit_at(e, context);
}

impl EmitAt for MetaPropExpr {
    ghost items = { λ n _. meta_prop_expr n };

    #[tactic(auto, unfolding(crate::specs::Exprs::meta_prop_expr, crate::specs::Exprs::meta_prop))]
    fn emit_at<W: WriteJs, S: SourceMapper, C: Comments>(
        &self,
        e: &mut Emitter<'_, W, S, C>,
        context: Context,
    ) {
        e.opened(self.span);
        match self.kind {
            MetaPropKind::NewTarget => {
                e.keyword(None, "new");
                e.punct(Punctuator::Dot);
                e.keyword(None, "target");
            }
            MetaPropKind::ImportMeta => {
                e.keyword(None, "import");
                e.punct(Punctuator::Dot);
                e.keyword(None, "meta");
            }
        }
    }
}

impl<N: LinkTarget> EmitAt for AssignExpr<N> {
    ghost items = { λ n _. assign N.items n };

    #[tactic(auto, unfolding(crate::specs::Exprs::assign, crate::specs::Exprs::formatted_operator))]
    fn emit_at<W: WriteJs, S: SourceMapper, C: Comments>(
        &self,
        e: &mut Emitter<'_, W, S, C>,
        context: Context,
    ) {
        e.leading_comments(self.span.lo);
        self.left.target().emit_at(e, Context::Plain);
        e.formatted_operator(assign_mark(self.op));
        self.right.target().emit_at(e, Context::Plain)
    }
}

impl<N: LinkTarget> EmitAt for BinExpr<N> {
    ghost items = { λ n. in_context (bin N.answers N.items n) };

    #[tactic(auto, unfolding(crate::specs::Exprs::bin))]
    fn emit_at<W: WriteJs, S: SourceMapper, C: Comments>(
        &self,
        e: &mut Emitter<'_, W, S, C>,
        context: Context,
    ) {
        e.bin_opened(context, self.span);
        self.left.target().emit_at(e, Context::LeftOperand);
        e.bin_trailing(self);
    }
}

impl<N: LinkTarget> EmitAt for SeqExpr<N> {
    ghost items = { λ n _. seq N.items n };

    #[tactic(auto, unfolding(crate::specs::Exprs::seq))]
    fn emit_at<W: WriteJs, S: SourceMapper, C: Comments>(
        &self,
        e: &mut Emitter<'_, W, S, C>,
        context: Context,
    ) {
        e.opened(self.span);
        e.exprs(&self.exprs);
    }
}

impl<N: LinkTarget> EmitAt for ComputedPropName<N> {
    ghost items = { λ n _. computed_prop_name N.items n };

    #[tactic(auto, unfolding(crate::specs::Exprs::computed_prop_name))]
    fn emit_at<W: WriteJs, S: SourceMapper, C: Comments>(
        &self,
        e: &mut Emitter<'_, W, S, C>,
        context: Context,
    ) {
        e.start_of(self.span);
        e.punct(Punctuator::LeftBracket);
        self.expr.target().emit_at(e, Context::Plain);
        e.punct(Punctuator::RightBracket);
        e.end_of(self.span);
    }
}

impl<N: LinkTarget> EmitAt for CondExpr<N> {
    ghost items = { λ n _. choice N.items n };

    #[tactic(auto, unfolding(crate::specs::Exprs::choice))]
    fn emit_at<W: WriteJs, S: SourceMapper, C: Comments>(
        &self,
        e: &mut Emitter<'_, W, S, C>,
        context: Context,
    ) {
        e.opened(self.span);
        self.test.target().emit_at(e, Context::Plain);
        e.spaced_punct(Punctuator::Question);
        self.cons.target().emit_at(e, Context::Plain);
        e.spaced_punct(Punctuator::Colon);
        self.alt.target().emit_at(e, Context::Plain)
    }
}

impl EmitAt for ThisExpr {
    ghost items = { λ n _. this n };

    #[tactic(auto, unfolding(crate::specs::Exprs::this))]
    fn emit_at<W: WriteJs, S: SourceMapper, C: Comments>(
        &self,
        e: &mut Emitter<'_, W, S, C>,
        context: Context,
    ) {
        e.leading_comments(self.span.lo);
        e.keyword(Some(self.span), "this");
    }
}

impl<N: LinkTarget> EmitAt for UnaryExpr<N> {
    ghost items = { λ n _. unary N.answers N.items n };

    #[tactic(auto, unfolding(crate::specs::Exprs::unary))]
    fn emit_at<W: WriteJs, S: SourceMapper, C: Comments>(
        &self,
        e: &mut Emitter<'_, W, S, C>,
        context: Context,
    ) {
        e.opened(self.span);
        e.unary_op(self.op);
        e.unary_gap(self.op, self.arg.target());
        self.arg.target().emit_at(e, Context::Plain);
    }
}

impl<N: LinkTarget> EmitAt for UpdateExpr<N> {
    ghost items = { λ n _. update N.items n };

    #[tactic(auto, unfolding(crate::specs::Exprs::update, crate::specs::Exprs::update_parts))]
    fn emit_at<W: WriteJs, S: SourceMapper, C: Comments>(
        &self,
        e: &mut Emitter<'_, W, S, C>,
        context: Context,
    ) {
        e.opened(self.span);
        if self.prefix {
            e.operator(update_mark(self.op));
            self.arg.target().emit_at(e, Context::Plain);
        } else {
            self.arg.target().emit_at(e, Context::Plain);
            e.operator(update_mark(self.op));
        }
    }
}

impl<N: LinkTarget> EmitAt for YieldExpr<N> {
    ghost items = { λ n _. yield_expr N.answers N.items n };

    #[tactic(auto, unfolding(crate::specs::Exprs::yield_expr))]
    fn emit_at<W: WriteJs, S: SourceMapper, C: Comments>(
        &self,
        e: &mut Emitter<'_, W, S, C>,
        context: Context,
    ) {
        e.opened(self.span);
        e.keyword(None, "yield");
        e.yield_star(self.delegate);
        e.yield_arg(self.delegate, &self.arg);
    }
}

impl<N: LinkTarget> EmitAt for AwaitExpr<N> {
    ghost items = { λ n _. await_expr N.items n };

    #[tactic(auto, unfolding(crate::specs::Exprs::await_expr))]
    fn emit_at<W: WriteJs, S: SourceMapper, C: Comments>(
        &self,
        e: &mut Emitter<'_, W, S, C>,
        context: Context,
    ) {
        e.opened(self.span);
        e.keyword(None, "await");
        e.space();
        self.arg.target().emit_at(e, Context::Plain);
    }
}

impl<N: LinkTarget> EmitAt for ParenExpr<N> {
    ghost items = { λ n _. paren N.items n };

    #[tactic(auto, unfolding(crate::specs::Exprs::paren))]
    fn emit_at<W: WriteJs, S: SourceMapper, C: Comments>(
        &self,
        e: &mut Emitter<'_, W, S, C>,
        context: Context,
    ) {
        e.commit_pending_semi();
        e.opened(self.span);
        e.punct(Punctuator::LeftParenthesis);
        self.expr.target().emit_at(e, Context::Plain);
        e.last_of(self.span);
        e.punct(Punctuator::RightParenthesis);
    }
}

impl EmitAt for Ident {
    ghost items = { λ n _. ident n };

    #[tactic(auto, unfolding(crate::specs::Exprs::ident))]
    fn emit_at<W: WriteJs, S: SourceMapper, C: Comments>(
        &self,
        e: &mut Emitter<'_, W, S, C>,
        context: Context,
    ) {
        e.name(self.span, &self.sym, self.optional);
    }
}

impl EmitAt for PrivateName {
    ghost items = { λ n _. private_name n };

    #[tactic(auto, unfolding(crate::specs::Exprs::private_name))]
    fn emit_at<W: WriteJs, S: SourceMapper, C: Comments>(
        &self,
        e: &mut Emitter<'_, W, S, C>,
        context: Context,
    ) {
        e.private_name(self.span, &self.name)
    }
}

impl EmitAt for IdentName {
    ghost items = { λ n _. ident_name n };

    #[tactic(auto, unfolding(crate::specs::Exprs::ident_name))]
    fn emit_at<W: WriteJs, S: SourceMapper, C: Comments>(
        &self,
        e: &mut Emitter<'_, W, S, C>,
        context: Context,
    ) {
        e.name(self.span, &self.sym, false);
    }
}

impl<N: LinkTarget> EmitAt for SpreadElement<N> {
    ghost items = { λ n _. spread_element N.answers N.items n };

    #[tactic(auto, unfolding(crate::specs::Exprs::spread_element))]
    fn emit_at<W: WriteJs, S: SourceMapper, C: Comments>(
        &self,
        e: &mut Emitter<'_, W, S, C>,
        context: Context,
    ) {
        let span = spread_element_place(self);
        e.opened(span);
        e.punct(Punctuator::Ellipsis);
        self.expr.target().emit_at(e, Context::Plain);
        e.end_of(span);
    }
}

impl<W: WriteJs, S: SourceMapper, C: Comments> Emitter<'_, W, S, C> {
    /// Writes the comments after an expression, unless they are left where they are.
    #[tactic(auto, using(crate::proofs::Asked::closed_left, crate::proofs::Asked::closed_commented))]
    fn expr_closed<N: LinkTarget>(&mut self, node: &Expr<N>, context: Context)
        ensures items { Performs (expr_closed (leaves_comments node.now context)
            (expr_span (place_of N.answers) node.now)) S.lines C.maps W.sheet self.old self.new }
    {
        if leaves_comments(node, context) {
            return;
        }
        self.trailing_comments(expr_place(node).hi, true)
    }

    /// Writes the comments before a binary expression and its start, unless it is an inner left
    /// operand.
    #[tactic(auto, unfolding(crate::specs::Exprs::bin_opened))]
    fn bin_opened(&mut self, context: Context, span: Span)
        ensures items { Performs (bin_opened context span)
            S.lines C.maps W.sheet self.old self.new }
    {
        match context {
            Context::LeftOperand => {}
            _ => self.opened(span),
        }
    }

    /// Writes a binary operator.
    #[tactic(auto, using(crate::proofs::OperatorLaws::marked_binary, crate::proofs::OperatorLaws::worded_binary))]
    fn binary_op(&mut self, op: BinaryOp)
        ensures items { Performs (binary_op op) S.lines C.maps W.sheet self.old self.new }
    {
        match binary_mark(op) {
            Some(mark) => self.operator(mark),
            None => self.word_operator(op.as_str()),
        }
    }

    /// Writes the operator and the right operand. swc's `emit_bin_expr_trailing`.
    #[tactic(auto, unfolding(crate::specs::Exprs::bin_trailing))]
    fn bin_trailing<N: LinkTarget>(&mut self, node: &BinExpr<N>)
        ensures items { Performs (bin_trailing N.answers N.items node.now)
            S.lines C.maps W.sheet self.old self.new }
    {
        self.bin_operator(node);
        node.right.target().emit_at(self, Context::Plain);
    }

    /// Writes the operator with what stands beside it. Unless the settings are to minify these are
    /// blanks, whatever the operands are: `a + b`.
    #[inline(always)]
    #[tactic(auto, unfolding(crate::specs::Exprs::bin_operator, crate::specs::Exprs::tight_operator), using(crate::proofs::Between::binary_tight, crate::proofs::Between::binary_between))]
    fn bin_operator<N: Asked>(&mut self, node: &BinExpr<N>)
        ensures items { Performs (bin_operator N.answers node.now)
            S.lines C.maps W.sheet self.old self.new }
    {
        if self.cfg.minify {
            self.tight_operator(node)
        } else {
            self.spaced_operator(node.op)
        }
    }

    /// Writes the operator, with blanks where they are needed: `a in b`, `a+b`, `a+ +b`.
    #[tactic(auto, unfolding(crate::specs::Exprs::tight_operator))]
    fn tight_operator<N: Asked>(&mut self, node: &BinExpr<N>)
        ensures items { Performs (tight_operator N.answers node.now)
            S.lines C.maps W.sheet self.old self.new }
    {
        self.space_if(before_op(node.op, node.left.target()));
        self.binary_op(node.op);
        self.allow_break();
        self.space_if(after_op(node.op, node.right.target()));
    }

    /// Writes a binary operator between two blanks.
    #[tactic(auto, using(crate::proofs::OperatorLaws::marked_between, crate::proofs::OperatorLaws::worded_between))]
    fn spaced_operator(&mut self, op: BinaryOp)
        ensures items { Performs (spaced_operator op) S.lines C.maps W.sheet self.old self.new }
    {
        match binary_mark(op) {
            Some(mark) => self.operator_between(mark),
            None => self.word_between(op.as_str()),
        }
    }

    /// Writes an operator that is a word between two blanks: ` in `.
    #[tactic(auto, unfolding(crate::specs::Exprs::word_between))]
    fn word_between(&mut self, text: &'static str)
        requires { begins_letter text.now ≡ true }
        ensures items { Performs (word_between text.now) S.lines C.maps W.sheet self.old self.new }
    {
        self.space();
        self.word_operator(text);
        self.space();
    }

    /// Writes a unary operator.
    #[tactic(auto, using(crate::proofs::OperatorLaws::marked_unary, crate::proofs::OperatorLaws::worded_unary))]
    fn unary_op(&mut self, op: UnaryOp)
        ensures items { Performs (unary_op op) S.lines C.maps W.sheet self.old self.new }
    {
        match unary_mark(op) {
            Some(mark) => self.punct(mark),
            None => self.keyword(None, op.as_str()),
        }
    }

    /// Writes what stands between a unary operator and its operand.
    #[inline(always)]
    #[tactic(auto, unfolding(crate::specs::Exprs::unary_gap))]
    fn unary_gap<N: Asked>(&mut self, op: UnaryOp, arg: &N)
        ensures items { Performs (unary_gap op (N.answers arg.now))
            S.lines C.maps W.sheet self.old self.new }
    {
        if is_word_unary(op) {
            self.blank(arg.starts())
        } else {
            self.space_if(sign_space(op, arg))
        }
    }

    /// Writes `*` after `yield`.
    #[tactic(auto, unfolding(crate::specs::Exprs::yield_star))]
    fn yield_star(&mut self, delegate: bool)
        ensures items { Performs (yield_star delegate) S.lines C.maps W.sheet self.old self.new }
    {
        if delegate {
            return self.operator(Punctuator::Star);
        }
    }

    /// Writes the argument of `yield`, and the blank before it.
    #[tactic(auto, unfolding(crate::specs::Exprs::yield_arg))]
    fn yield_arg<N: LinkTarget>(&mut self, delegate: bool, arg: &Option<ExprBox<N>>)
        ensures items { Performs (yield_arg N.answers N.items delegate arg.now)
            S.lines C.maps W.sheet self.old self.new }
    {
        match arg {
            Some(node) => self.yield_argument(delegate, node.target()),
            None => {}
        }
    }

    /// Writes it, where there is one.
    #[tactic(auto, using(crate::proofs::Asked::yield_asked))]
    fn yield_argument<N: LinkTarget>(&mut self, delegate: bool, node: &N)
        ensures items { Performs (yield_argument N.answers N.items delegate node.now)
            S.lines C.maps W.sheet self.old self.new }
    {
        let breaks = node.breaks(&self.comments);
        self.yield_argument_in(delegate, breaks, node)
    }

    /// Writes it in parentheses where a line ends in or after a comment before it.
    #[tactic(auto, unfolding(crate::specs::Exprs::yield_argument_in, swc_ecma_codegen_tokens::specs::Choices::optional_parentheses))]
    fn yield_argument_in<N: LinkTarget>(&mut self, delegate: bool, breaks: bool, node: &N)
        ensures items { Performs (yield_argument_in N.answers N.items delegate node.now breaks)
            S.lines C.maps W.sheet self.old self.new }
    {
        if breaks {
            self.punct(Punctuator::LeftParenthesis);
            node.emit_at(self, Context::Plain);
            self.punct(Punctuator::RightParenthesis);
        } else {
            self.blank(!delegate && node.starts());
            node.emit_at(self, Context::Plain);
        }
    }
}

/// Whether a unary operator is a word.
#[tactic(auto, unfolding(swc_ecma_codegen_settings::specs::Starts::is_word_op))]
fn is_word_unary(op: UnaryOp) -> bool
    ensures { result ≡ is_word_unary op }
{
    match op {
        UnaryOp::TypeOf | UnaryOp::Void | UnaryOp::Delete => true,
        UnaryOp::Minus | UnaryOp::Plus | UnaryOp::Bang | UnaryOp::Tilde => false,
    }
}

/// Whether a blank is due between a sign and its operand: `- -a`. What the operand is, is only
/// asked after `+` and `-`.
#[tactic(auto, unfolding(crate::specs::Operands::operand_space))]
fn sign_space<N: Asked>(op: UnaryOp, arg: &N) -> bool
    ensures { result ≡ operand_space op (N.answers arg.now).kind }
{
    match op {
        UnaryOp::Plus | UnaryOp::Minus => operand_space(op, arg.kind()),
        _ => false,
    }
}

/// Whether a blank is due between an operand and an operator. What the operand is, is only asked
/// before an operator like `>`.
#[tactic(auto, using(crate::proofs::OperatorLaws::not_greater), unfolding(crate::specs::Exprs::before_op))]
fn before_op<N: Asked>(op: BinaryOp, left: &N) -> bool
    ensures { result ≡ before_op op (N.answers left.now) }
{
    if is_word_op(op) {
        left.ends()
    } else if begins_greater(op) {
        space_after(left.kind(), op)
    } else {
        false
    }
}

/// Whether a blank is due between an operator and an operand.
#[tactic(auto, unfolding(crate::specs::Exprs::after_op))]
fn after_op<N: Asked>(op: BinaryOp, right: &N) -> bool
    ensures { result ≡ after_op op (N.answers right.now) }
{
    if is_word_op(op) {
        right.starts()
    } else {
        right.space_before(op)
    }
}
