//! Functions.

ghost use Rattle.std.specs.Prelude.{◌≡◌, ◌&&◌, not};
ghost use Rattle.swc_ecma_codegen_grammar.specs.Comments.{maps_in};
ghost use Rattle.swc_ecma_codegen_grammar.specs.FunctionPhrases.{is_typed_arrow};
ghost use Rattle.swc_ecma_codegen_literals.specs.Punctuators.{spelling};
ghost use Rattle.swc_ecma_codegen_emit.specs.Standing.{Performs};
ghost use Rattle.swc_ecma_codegen_emit.specs.FunctionExprs.{comma_list_format, star, optional_name, fn_expr, is_plain, is_name, is_only, async_arrow, parenthesis, has_comment_behind, arrow_children, arrow_list, arrow_within, arrow_parameters, arrow_body, arrow_result, arrow_expr};
ghost use Rattle.swc_ecma_codegen_emit.specs.Functions.{decorators_format, decorator, decorators, decorator_lines, param, function_body, parameters, fn_trailing, break_without_body, declaration_tail, static_gap, static_head, method_body, method_tail, async_word, function_head, star_or_space, declaration_head, method_head, function};
ghost use Rattle.swc_ecma_codegen_emit.specs.Places.{in_context};

use crate::commented::has_comment_after;
use crate::emitter::Emitter;
use crate::nodes::{Asked, Child, Context, EmitAt, EmitPiece, LinkTarget, Piece};
use crate::patterns::PatternKind;
use swc_ecma_codegen_common::Span;
use swc_ecma_codegen_grammar::ListFormat;
use swc_ecma_codegen_grammar::comments::Comments;
use swc_ecma_codegen_grammar::mapper::SourceMapper;
use swc_ecma_codegen_literals::Punctuator;
use swc_ecma_codegen_text_writer::WriteJs;
use swc_ecma_codegen_tree::{
    ArrowExpr, BlockStmtBox, BlockStmtOrExpr, Decorator, FnExpr, Function, Ident, Param, PatBox,
    TsTypeAnnBox,
};

/// The format of parameters.
pub(crate) fn comma_list_format() -> ListFormat
    ensures { result.0 ≡ comma_list_format }
{
    ListFormat::CommaListElements
}

/// The format of a parameter's decorators.
pub(crate) fn decorators_format() -> ListFormat
    ensures { result.0 ≡ decorators_format }
{
    ListFormat::Decorators
}

/// Whether the only parameter is a name alone.
#[tactic(auto, unfolding(crate::specs::FunctionExprs::is_only, crate::specs::FunctionExprs::is_plain))]
fn is_only_plain<N: Asked>(params: &[PatBox<N>]) -> bool
    ensures { result ≡ is_only is_plain N.answers params.now }
{
    match params {
        [param] => matches!(param.target().pattern(), PatternKind::PlainName),
        _ => false,
    }
}

/// Whether the only parameter has a comment after it. Where it stands is asked only where there are
/// comments.
#[tactic(auto, using(crate::proofs::Without::none_behind), unfolding(crate::specs::FunctionExprs::has_comment_behind))]
fn has_comment_behind<N: Asked, C: Comments>(params: &[PatBox<N>], comments: &Option<C>) -> bool
    ensures { result ≡ has_comment_behind N.answers params.now (maps_in C.maps comments.now) }
{
    if comments.is_none() {
        return false;
    }
    match params {
        [param] => has_comment_after(comments, param.target().place()),
        _ => false,
    }
}

/// Whether the only parameter is a name alone, without a comment after it.
fn is_bare<N: Asked, C: Comments>(params: &[PatBox<N>], comments: &Option<C>) -> bool
    ensures { result ≡ (is_only is_plain N.answers params.now
        && not (has_comment_behind N.answers params.now (maps_in C.maps comments.now))) }
{
    is_only_plain(params) && !has_comment_behind(params, comments)
}

/// Whether an arrow function has types around its parameters.
fn is_typed_arrow<N>(node: &ArrowExpr<N>) -> bool
    ensures { result ≡ is_typed_arrow node.now }
{
    node.type_params.is_some() || node.return_type.is_some()
}

/// Whether the parameters of an arrow function are a name alone, without a comment after it or
/// types around it.
fn is_bare_arrow<N: Asked, C: Comments>(node: &ArrowExpr<N>, comments: &Option<C>) -> bool
    ensures { result ≡ (not (is_typed_arrow node.now)
        && (is_only is_plain N.answers node.now.params.items
        && not (has_comment_behind N.answers node.now.params.items
        (maps_in C.maps comments.now)))) }
{
    !is_typed_arrow(node) && is_bare(&node.params, comments)
}

/// Whether the only parameter is a name, with or without a type.
#[tactic(auto, unfolding(crate::specs::FunctionExprs::is_only, crate::specs::FunctionExprs::is_name))]
fn is_only_name<N: Asked>(params: &[PatBox<N>]) -> bool
    ensures { result ≡ is_only is_name N.answers params.now }
{
    match params {
        [param] => matches!(
            param.target().pattern(),
            PatternKind::PlainName | PatternKind::Name
        ),
        _ => false,
    }
}

impl<N: LinkTarget> EmitAt for ArrowExpr<N> {
    ghost items = { λ n _. arrow_expr N.answers N.items n };

    #[tactic(auto, unfolding(crate::specs::FunctionExprs::arrow_expr))]
    fn emit_at<W: WriteJs, S: SourceMapper, C: Comments>(
        &self,
        e: &mut Emitter<'_, W, S, C>,
        context: Context,
    ) {
        e.leading_comments(self.span.lo);
        e.start_of(self.span);
        e.async_arrow(self.is_async, is_only_name(&self.params));
        e.star(self.is_generator);
        e.type_params(&self.type_params);
        e.arrow_parameters(self);
        e.arrow_result(&self.return_type);
        e.punct(Punctuator::Arrow);
        self.body.emit_at(e, Context::Plain);
    }
}

impl<N: LinkTarget> EmitAt for Decorator<N> {
    ghost items = { λ n _. decorator N.items n };

    #[tactic(auto, unfolding(crate::specs::Functions::decorator))]
    fn emit_at<W: WriteJs, S: SourceMapper, C: Comments>(
        &self,
        e: &mut Emitter<'_, W, S, C>,
        context: Context,
    ) {
        e.leading_comments(self.span.lo);
        e.start_of(self.span);
        e.punct(Punctuator::At);
        self.expr.target().emit_at(e, Context::Plain);
        e.line();
        e.end_of(self.span);
    }
}

impl<N: LinkTarget> Child for Decorator<N> {
    ghost stands = { λ n. n.span };

    fn place(&self) -> Span {
        self.span
    }
}

impl<N: LinkTarget> EmitAt for FnExpr<N> {
    ghost items = { λ n. in_context (fn_expr N.answers N.items n) };

    #[tactic(auto, unfolding(crate::specs::FunctionExprs::fn_expr))]
    fn emit_at<W: WriteJs, S: SourceMapper, C: Comments>(
        &self,
        e: &mut Emitter<'_, W, S, C>,
        context: Context,
    ) {
        let span = self.function.target().place();
        e.leading_comments(span.lo);
        e.commit_pending_semi();
        e.start_of(span);
        self.function.target().emit_piece(e, Piece::FunctionHead);
        e.optional_name(&self.ident);
        match context {
            Context::DefaultExport => self.function.target().emit_piece(e, Piece::DeclarationTail),
            _ => self.function.target().emit_at(e, Context::Plain),
        }
    }
}

impl<N: LinkTarget> EmitAt for Function<N> {
    ghost items = { function N.answers N.items };

    #[tactic(auto, unfolding(crate::specs::Functions::function))]
    fn emit_at<W: WriteJs, S: SourceMapper, C: Comments>(
        &self,
        e: &mut Emitter<'_, W, S, C>,
        context: Context,
    ) {
        e.fn_trailing(self);
    }
}

impl<N: LinkTarget> EmitPiece for Function<N> {
    #[tactic(auto, unfolding(crate::specs::Functions::function))]
    fn emit_piece<W: WriteJs, S: SourceMapper, C: Comments>(
        &self,
        e: &mut Emitter<'_, W, S, C>,
        piece: Piece,
    ) {
        match piece {
            Piece::FunctionHead => e.function_head(self),
            Piece::MethodHead => e.method_head(self),
            Piece::DeclarationHead => e.declaration_head(self),
            Piece::DeclarationTail => e.declaration_tail(self),
            Piece::StaticHead(starts) => e.static_head(starts, self),
            Piece::MethodDecorators => e.decorator_lines(&self.decorators),
            Piece::MethodTail => e.method_tail(self),
            _ => e.fn_trailing(self),
        }
    }
}

impl<N: LinkTarget> EmitAt for BlockStmtOrExpr<N> {
    ghost items = { λ n _. arrow_body N.items n };

    #[tactic(auto, unfolding(crate::specs::FunctionExprs::arrow_body))]
    fn emit_at<W: WriteJs, S: SourceMapper, C: Comments>(
        &self,
        e: &mut Emitter<'_, W, S, C>,
        context: Context,
    ) {
        match self {
            BlockStmtOrExpr::BlockStmt(node) => node.target().emit_at(e, Context::Body),
            BlockStmtOrExpr::Expr(node) => {
                e.deeper();
                node.target().emit_at(e, Context::Plain);
                e.shallower()
            }
        }
    }
}

impl<N: LinkTarget> EmitAt for Param<N> {
    ghost items = { λ n _. param N.answers N.items n };

    #[tactic(auto, unfolding(crate::specs::Functions::param))]
    fn emit_at<W: WriteJs, S: SourceMapper, C: Comments>(
        &self,
        e: &mut Emitter<'_, W, S, C>,
        context: Context,
    ) {
        e.leading_comments(self.span.lo);
        e.start_of(self.span);
        e.decorators(self);
        self.pat.emit_at(e, Context::Plain);
        e.end_of(self.span);
    }
}

impl<N: LinkTarget> Child for Param<N> {
    ghost stands = { λ n. n.span };

    fn place(&self) -> Span {
        self.span
    }
}

impl<W: WriteJs, S: SourceMapper, C: Comments> Emitter<'_, W, S, C> {
    /// Writes decorators, one after another.
    pub(crate) fn decorator_lines<N: LinkTarget>(&mut self, nodes: &[Decorator<N>])
        ensures items { Performs (decorator_lines N.items nodes.now)
            S.lines C.maps W.sheet self.old self.new }
    {
        self.in_order(nodes)
    }

    /// Writes `async` and a blank, where it is so.
    #[tactic(auto, unfolding(crate::specs::Functions::async_word))]
    fn async_word(&mut self, wanted: bool)
        ensures items { Performs (async_word wanted) S.lines C.maps W.sheet self.old self.new }
    {
        if wanted {
            self.keyword(None, "async");
            self.space();
        }
    }

    /// Writes `*`, where it is so.
    #[tactic(auto, unfolding(crate::specs::FunctionExprs::star))]
    fn star(&mut self, wanted: bool)
        ensures items { Performs (star wanted) S.lines C.maps W.sheet self.old self.new }
    {
        if wanted {
            self.punct(Punctuator::Star);
        }
    }

    /// Writes `async function*` or a part of it.
    #[tactic(auto, unfolding(crate::specs::Functions::function_head))]
    fn function_head<N>(&mut self, node: &Function<N>)
        ensures items { Performs (function_head node.now) S.lines C.maps W.sheet self.old self.new }
    {
        self.async_word(node.is_async);
        self.keyword(None, "function");
        self.star(node.is_generator);
    }

    /// Writes a blank, or `*` and one unless the settings are to minify.
    #[tactic(auto, unfolding(crate::specs::Functions::star_or_space))]
    fn star_or_space(&mut self, wanted: bool)
        ensures items { Performs (star_or_space wanted) S.lines C.maps W.sheet self.old self.new }
    {
        if !wanted {
            return self.space();
        }
        self.punct(Punctuator::Star);
        self.formatting_space()
    }

    /// Writes `async function*` or a part of it, and a blank.
    #[tactic(auto, unfolding(crate::specs::Functions::declaration_head))]
    fn declaration_head<N>(&mut self, node: &Function<N>)
        ensures items { Performs (declaration_head node.now)
            S.lines C.maps W.sheet self.old self.new }
    {
        self.async_word(node.is_async);
        self.keyword(None, "function");
        self.star_or_space(node.is_generator);
    }

    /// Writes `async *` or a part of it.
    #[tactic(auto, unfolding(crate::specs::Functions::method_head))]
    fn method_head<N>(&mut self, node: &Function<N>)
        ensures items { Performs (method_head node.now) S.lines C.maps W.sheet self.old self.new }
    {
        self.async_word(node.is_async);
        self.star(node.is_generator);
    }

    /// Lets a line end behind the semicolon that stands for a body.
    #[tactic(auto, unfolding(crate::specs::Functions::break_without_body))]
    fn break_without_body<N>(&mut self, body: &Option<BlockStmtBox<N>>)
        ensures items { Performs (break_without_body body.now)
            S.lines C.maps W.sheet self.old self.new }
    {
        match body {
            Some(_) => {}
            None => self.allow_break(),
        }
    }

    /// Writes `<A>(a): B { c; }` of a function that is declared, and of a private method. Where `;`
    /// stands for a body, a line may end behind it.
    #[tactic(auto, unfolding(crate::specs::Functions::declaration_tail))]
    fn declaration_tail<N: LinkTarget>(&mut self, node: &Function<N>)
        ensures items { Performs (declaration_tail N.answers N.items node.now)
            S.lines C.maps W.sheet self.old self.new }
    {
        self.fn_trailing(node);
        self.break_without_body(&node.body);
    }

    /// Writes `<A>(a): B { c; }` of a function, without decorators. swc's `emit_fn_trailing`.
    #[tactic(auto, unfolding(crate::specs::Functions::fn_trailing))]
    fn fn_trailing<N: LinkTarget>(&mut self, node: &Function<N>)
        ensures items { Performs (fn_trailing N.answers N.items node.now)
            S.lines C.maps W.sheet self.old self.new }
    {
        self.type_params(&node.type_params);
        self.punct(Punctuator::LeftParenthesis);
        self.parameters(node);
        self.punct(Punctuator::RightParenthesis);
        self.annotation(&node.return_type);
        self.function_body(&node.body);
    }

    /// Writes the body of a method, or a semicolon in its place.
    #[tactic(auto, unfolding(crate::specs::Functions::method_body))]
    fn method_body<N: LinkTarget>(&mut self, body: &Option<BlockStmtBox<N>>)
        ensures items { Performs (method_body N.items body.now)
            S.lines C.maps W.sheet self.old self.new }
    {
        match body {
            Some(body) => {
                self.formatting_space();
                body.target().emit_at(self, Context::Plain)
            }
            None => self.semi(),
        }
    }

    /// Writes `<A>(a): B { c; }` of a method, whose decorators stand elsewhere.
    #[tactic(auto, unfolding(crate::specs::Functions::method_tail))]
    fn method_tail<N: LinkTarget>(&mut self, node: &Function<N>)
        ensures items { Performs (method_tail N.answers N.items node.now)
            S.lines C.maps W.sheet self.old self.new }
    {
        self.type_params(&node.type_params);
        self.punct(Punctuator::LeftParenthesis);
        self.parameters(node);
        self.punct(Punctuator::RightParenthesis);
        self.annotation(&node.return_type);
        self.method_body(&node.body);
    }

    /// Writes the blank after `static`.
    #[tactic(auto, unfolding(crate::specs::Functions::static_gap))]
    fn static_gap(&mut self, needed: bool)
        ensures items { Performs (static_gap needed) S.lines C.maps W.sheet self.old self.new }
    {
        if needed {
            self.space()
        } else {
            self.formatting_space()
        }
    }

    /// Writes the blank after `static`, and `async *` or a part of it. `starts` says whether the
    /// key of the method begins with a character of a name.
    #[tactic(auto, unfolding(crate::specs::Functions::static_head))]
    fn static_head<N>(&mut self, starts: bool, node: &Function<N>)
        ensures items { Performs (static_head starts node.now)
            S.lines C.maps W.sheet self.old self.new }
    {
        self.static_gap(node.is_async || (!node.is_generator && starts));
        self.method_head(node);
    }

    /// Writes the parameters of a function, with commas between.
    fn parameters<N: LinkTarget>(&mut self, node: &Function<N>)
        ensures items { Performs (parameters N.answers N.items node.now)
            S.lines C.maps W.sheet self.old self.new }
    {
        self.list(comma_list_format(), node.span, &node.params)
    }

    /// Writes the decorators of a parameter.
    fn decorators<N: LinkTarget>(&mut self, node: &Param<N>)
        ensures items { Performs (decorators N.items node.now)
            S.lines C.maps W.sheet self.old self.new }
    {
        self.list(decorators_format(), node.span, &node.decorators)
    }

    /// Writes a blank and a body, or a semicolon.
    #[tactic(auto, unfolding(crate::specs::Functions::function_body))]
    fn function_body<N: LinkTarget>(&mut self, body: &Option<BlockStmtBox<N>>)
        ensures items { Performs (function_body N.items body.now)
            S.lines C.maps W.sheet self.old self.new }
    {
        match body {
            Some(body) => {
                self.formatting_space();
                body.target().emit_at(self, Context::Body)
            }
            None => self.bare_semi(),
        }
    }

    /// Writes a blank and a name, where there is one.
    #[tactic(auto, unfolding(crate::specs::FunctionExprs::optional_name))]
    pub(crate) fn optional_name(&mut self, name: &Option<Ident>)
        ensures items { Performs (optional_name name.now) S.lines C.maps W.sheet self.old self.new }
    {
        match name {
            Some(name) => {
                self.space();
                self.name(name.span, &name.sym, name.optional)
            }
            None => {}
        }
    }

    /// Writes `async`, and a blank before a name.
    #[tactic(auto, unfolding(crate::specs::FunctionExprs::async_arrow))]
    fn async_arrow(&mut self, wanted: bool, named: bool)
        ensures items { Performs (async_arrow wanted named)
            S.lines C.maps W.sheet self.old self.new }
    {
        if wanted {
            self.keyword(None, "async");
            if named {
                self.space();
            } else {
                self.formatting_space();
            }
        }
    }

    /// Writes a parenthesis, unless it stands beside a name alone and the settings are to minify.
    #[tactic(auto, using(crate::proofs::Asked::bare, crate::proofs::Asked::parenthesized))]
    fn parenthesis(&mut self, plain: bool, mark: Punctuator)
        ensures items { Performs (parenthesis plain (spelling mark))
            S.lines C.maps W.sheet self.old self.new }
    {
        if plain && self.cfg.minify {
            return;
        }
        self.punct(mark)
    }

    /// Writes `: A ` of `(a): A => b`, where there is a type.
    #[tactic(auto, unfolding(crate::specs::FunctionExprs::arrow_result))]
    fn arrow_result<N: LinkTarget>(&mut self, ty: &Option<TsTypeAnnBox<N>>)
        ensures items { Performs (arrow_result N.items ty.now)
            S.lines C.maps W.sheet self.old self.new }
    {
        match ty {
            Some(node) => {
                self.punct(Punctuator::Colon);
                self.formatting_space();
                node.target().emit_at(self, Context::Plain);
                self.formatting_space()
            }
            None => {}
        }
    }

    /// Writes the parameters of an arrow function, with commas between.
    fn arrow_list<N: LinkTarget>(&mut self, node: &ArrowExpr<N>)
        ensures items { Performs (arrow_list N.answers N.items node.now)
            S.lines C.maps W.sheet self.old self.new }
    {
        self.list(comma_list_format(), node.span, &node.params)
    }

    /// Writes the parameters of an arrow function, in parentheses unless there is one name alone
    /// and the settings are to minify.
    #[tactic(auto, unfolding(crate::specs::FunctionExprs::arrow_within))]
    fn arrow_within<N: LinkTarget>(&mut self, plain: bool, node: &ArrowExpr<N>)
        ensures items { Performs (arrow_within plain node.now.span
            (arrow_children N.answers N.items node.now)) S.lines C.maps W.sheet self.old self.new }
    {
        self.parenthesis(plain, Punctuator::LeftParenthesis);
        self.arrow_list(node);
        self.parenthesis(plain, Punctuator::RightParenthesis);
    }

    /// Writes the parameters of an arrow function.
    #[tactic(auto, using(crate::proofs::Asked::arrow_asked))]
    fn arrow_parameters<N: LinkTarget>(&mut self, node: &ArrowExpr<N>)
        ensures items { Performs (arrow_parameters N.answers N.items node.now)
            S.lines C.maps W.sheet self.old self.new }
    {
        let plain = is_bare_arrow(node, &self.comments);
        self.arrow_within(plain, node)
    }
}
