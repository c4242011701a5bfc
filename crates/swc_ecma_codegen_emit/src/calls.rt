//! Arrays, calls and `new`.

ghost use Rattle.std.specs.Prelude.{◌≡◌};
ghost use Rattle.swc_ecma_codegen_grammar.specs.ElementPhrases.{last_is_hole};
ghost use Rattle.swc_ecma_codegen_tokens.specs.Choices.{empty_arguments};
ghost use Rattle.swc_ecma_codegen_emit.specs.Standing.{Performs};
ghost use Rattle.swc_ecma_codegen_emit.specs.Calls.{spread_mark, argument_place, argument_items, array_format, array_elements, array_lit, call_format, new_format, arguments, import_phase, import_callee, super_keyword, callee, call_expr, keeps_arguments, listed_arguments, new_arguments, new_gap, parentheses, new_expr, call_mark, chain_call, is_optional};
ghost use Rattle.swc_ecma_codegen_emit.specs.Places.{context_of};

use crate::emitter::Emitter;
use crate::nodes::{Asked, Child, Context, EmitAt, LinkTarget};
use crate::places::expr_or_spread_place;
use bitflags::Flags;
use swc_ecma_codegen_common::Span;
use swc_ecma_codegen_grammar::ListFormat;
use swc_ecma_codegen_grammar::comments::Comments;
use swc_ecma_codegen_grammar::mapper::SourceMapper;
use swc_ecma_codegen_literals::Punctuator;
use swc_ecma_codegen_text_writer::WriteJs;
use swc_ecma_codegen_tree::{
    ArrayLit, CallExpr, Callee, ExprOrSpread, Import, ImportPhase, NewExpr, OptCall, Super,
};

/// Whether the last element is a hole, `[a, ,]`.
#[tactic(auto, unfolding(swc_ecma_codegen_grammar::specs::ElementPhrases::last_is_hole))]
pub(crate) fn ends_with_hole<T>(elems: &[Option<T>]) -> bool
    ensures { result ≡ last_is_hole elems.now }
{
    match elems {
        [] => false,
        [.., last] => last.is_none(),
    }
}

/// The format of an array, which ends with a comma where its last element is a hole.
fn array_format(hole: bool) -> ListFormat
    ensures { result.0 ≡ array_format hole }
{
    if hole {
        ListFormat::ArrayLiteralExpressionElements.union(ListFormat::ForceTrailingComma)
    } else {
        ListFormat::ArrayLiteralExpressionElements
    }
}

/// The format of a call's arguments.
fn call_format() -> ListFormat
    ensures { result.0 ≡ call_format }
{
    ListFormat::CallExpressionArguments
}

/// The format of the arguments of `new`.
fn new_format() -> ListFormat
    ensures { result.0 ≡ new_format }
{
    ListFormat::NewExpressionArguments
}

/// Whether `new A()` keeps its parentheses there: where it is called, or has a property.
fn keeps_arguments(context: Context) -> bool
    ensures { result ≡ keeps_arguments context }
{
    match context {
        Context::Object | Context::DottedObject(_) | Context::Callee => true,
        _ => false,
    }
}

/// Whether `?.` stands before the arguments of a call in an optional chain, by its context.
fn is_optional(context: Context) -> bool
    ensures { result ≡ is_optional context }
{
    match context {
        Context::OptionalChain => true,
        _ => false,
    }
}

impl<N: LinkTarget> EmitAt for Callee<N> {
    ghost items = { λ n _. callee N.items n };

    #[tactic(auto, unfolding(crate::specs::Calls::callee))]
    fn emit_at<W: WriteJs, S: SourceMapper, C: Comments>(
        &self,
        e: &mut Emitter<'_, W, S, C>,
        context: Context,
    ) {
        match self {
            Callee::Super(node) => node.emit_at(e, Context::Plain),
            Callee::Import(node) => node.emit_at(e, Context::Plain),
            Callee::Expr(node) => node.target().emit_at(e, Context::Callee),
        }
    }
}

impl EmitAt for Super {
    ghost items = { λ n _. super_keyword n };

    #[tactic(auto, unfolding(crate::specs::Calls::super_keyword))]
    fn emit_at<W: WriteJs, S: SourceMapper, C: Comments>(
        &self,
        e: &mut Emitter<'_, W, S, C>,
        context: Context,
    ) {
        e.keyword(Some(self.span), "super")
    }
}

impl EmitAt for Import {
    ghost items = { λ n _. import_callee n };

    #[tactic(auto, unfolding(crate::specs::Calls::import_callee))]
    fn emit_at<W: WriteJs, S: SourceMapper, C: Comments>(
        &self,
        e: &mut Emitter<'_, W, S, C>,
        context: Context,
    ) {
        e.keyword(Some(self.span), "import");
        e.import_phase(self.phase);
    }
}

impl<N: LinkTarget> EmitAt for OptCall<N> {
    ghost items = { λ n place. chain_call N.answers N.items (is_optional (context_of place)) n };

    #[tactic(auto, unfolding(crate::specs::Calls::chain_call))]
    fn emit_at<W: WriteJs, S: SourceMapper, C: Comments>(
        &self,
        e: &mut Emitter<'_, W, S, C>,
        context: Context,
    ) {
        self.callee.target().emit_at(e, Context::Callee);
        e.call_mark(is_optional(context));
        e.type_args(Context::Plain, &self.type_args);
        e.arguments(call_format(), self.span, &self.args);
    }
}

impl<N: LinkTarget> EmitAt for CallExpr<N> {
    ghost items = { λ n _. call_expr N.answers N.items n };

    #[tactic(auto, unfolding(crate::specs::Calls::call_expr))]
    fn emit_at<W: WriteJs, S: SourceMapper, C: Comments>(
        &self,
        e: &mut Emitter<'_, W, S, C>,
        context: Context,
    ) {
        e.commit_pending_semi();
        e.leading_comments(self.span.lo);
        e.start_of(self.span);
        self.callee.emit_at(e, Context::Plain);
        e.type_args(Context::Plain, &self.type_args);
        e.arguments(call_format(), self.span, &self.args);
    }
}

impl<N: LinkTarget> EmitAt for NewExpr<N> {
    ghost items = { λ n place. new_expr N.answers N.items (keeps_arguments (context_of place)) n };

    #[tactic(auto, unfolding(crate::specs::Calls::new_expr))]
    fn emit_at<W: WriteJs, S: SourceMapper, C: Comments>(
        &self,
        e: &mut Emitter<'_, W, S, C>,
        context: Context,
    ) {
        e.commit_pending_semi();
        e.leading_comments(self.span.lo);
        e.start_of(self.span);
        e.keyword(None, "new");
        e.new_gap(self.callee.target().starts());
        self.callee.target().emit_at(e, Context::Plain);
        e.type_args(Context::Plain, &self.type_args);
        e.new_arguments(self.span, keeps_arguments(context), &self.args);
    }
}

impl<N: LinkTarget> EmitAt for ExprOrSpread<N> {
    ghost items = { argument_items N.answers N.items };

    #[tactic(auto, unfolding(crate::specs::Calls::expr_or_spread))]
    fn emit_at<W: WriteJs, S: SourceMapper, C: Comments>(
        &self,
        e: &mut Emitter<'_, W, S, C>,
        context: Context,
    ) {
        e.leading_comments(expr_or_spread_place(self).lo);
        e.spread_mark(self.spread);
        self.expr.target().emit_at(e, Context::Plain);
    }
}

impl<N: LinkTarget> Child for ExprOrSpread<N> {
    ghost stands = { argument_place N.answers };

    fn place(&self) -> Span {
        expr_or_spread_place(self)
    }
}

impl<N: LinkTarget> EmitAt for ArrayLit<N> {
    ghost items = { λ n _. array_lit N.answers N.items n };

    #[tactic(auto, unfolding(crate::specs::Calls::array_lit))]
    fn emit_at<W: WriteJs, S: SourceMapper, C: Comments>(
        &self,
        e: &mut Emitter<'_, W, S, C>,
        context: Context,
    ) {
        e.leading_comments(self.span.lo);
        e.start_of(self.span);
        e.punct(Punctuator::LeftBracket);
        e.array_elements(self);
        e.punct(Punctuator::RightBracket);
        e.end_of(self.span);
    }
}

impl<W: WriteJs, S: SourceMapper, C: Comments> Emitter<'_, W, S, C> {
    /// Writes the elements of an array.
    fn array_elements<N: LinkTarget>(&mut self, node: &ArrayLit<N>)
        ensures items { Performs (array_elements N.answers N.items node.now)
            S.lines C.maps W.sheet self.old self.new }
    {
        let format = array_format(ends_with_hole(&node.elems));
        self.list(format, node.span, &node.elems)
    }

    /// Writes `...` before what is spread.
    #[tactic(auto, unfolding(crate::specs::Calls::spread_mark))]
    fn spread_mark(&mut self, spread: Option<Span>)
        ensures items { Performs (spread_mark spread) S.lines C.maps W.sheet self.old self.new }
    {
        match spread {
            Some(_) => self.punct(Punctuator::Ellipsis),
            None => {}
        }
    }

    /// Writes arguments in parentheses.
    #[tactic(auto, unfolding(crate::specs::Calls::arguments))]
    fn arguments<N: LinkTarget>(
        &mut self,
        format: ListFormat,
        parent: Span,
        args: &[ExprOrSpread<N>],
    )
        ensures items { Performs (arguments N.answers N.items format.0 parent args.now)
            S.lines C.maps W.sheet self.old self.new }
    {
        self.punct(Punctuator::LeftParenthesis);
        self.list(format, parent, args);
        self.punct(Punctuator::RightParenthesis);
    }

    /// Writes `.source` or `.defer` of `import.source(a)`.
    #[tactic(auto, unfolding(crate::specs::Calls::import_phase))]
    fn import_phase(&mut self, phase: ImportPhase)
        ensures items { Performs (import_phase phase) S.lines C.maps W.sheet self.old self.new }
    {
        match phase {
            ImportPhase::Evaluation => {}
            ImportPhase::Source => {
                self.punct(Punctuator::Dot);
                self.keyword(None, "source")
            }
            ImportPhase::Defer => {
                self.punct(Punctuator::Dot);
                self.keyword(None, "defer")
            }
        }
    }

    /// Writes the blank after `new`.
    #[tactic(auto, unfolding(crate::specs::Calls::new_gap))]
    fn new_gap(&mut self, starts: bool)
        ensures items { Performs (new_gap starts) S.lines C.maps W.sheet self.old self.new }
    {
        if starts {
            self.space()
        } else {
            self.formatting_space()
        }
    }

    /// Writes `()` after `new A`, unless the settings are to minify.
    #[tactic(auto, using(crate::proofs::Asked::arguments_left_out, crate::proofs::Asked::arguments_written))]
    fn empty_arguments(&mut self)
        ensures items { Performs (empty_arguments) S.lines C.maps W.sheet self.old self.new }
    {
        if self.cfg.minify {
            return;
        }
        self.parentheses()
    }

    /// Writes `()`.
    #[tactic(auto, unfolding(crate::specs::Calls::parentheses))]
    fn parentheses(&mut self)
        ensures items { Performs (parentheses) S.lines C.maps W.sheet self.old self.new }
    {
        self.punct(Punctuator::LeftParenthesis);
        self.punct(Punctuator::RightParenthesis);
    }

    /// Writes the arguments of `new`, where they are in parentheses.
    #[tactic(auto, unfolding(crate::specs::Calls::listed_arguments))]
    fn listed_arguments<N: LinkTarget>(
        &mut self,
        parent: Span,
        keeps: bool,
        args: &[ExprOrSpread<N>],
    )
        ensures items { Performs (listed_arguments N.answers N.items parent keeps args.now)
            S.lines C.maps W.sheet self.old self.new }
    {
        match (keeps, args) {
            (false, []) => self.empty_arguments(),
            _ => self.arguments(new_format(), parent, args),
        }
    }

    /// Writes the arguments of `new`.
    #[tactic(auto, unfolding(crate::specs::Calls::new_arguments))]
    fn new_arguments<N: LinkTarget>(
        &mut self,
        parent: Span,
        keeps: bool,
        args: &Option<Vec<ExprOrSpread<N>>>,
    )
        ensures items { Performs (new_arguments N.answers N.items parent keeps args.now)
            S.lines C.maps W.sheet self.old self.new }
    {
        match args {
            Some(args) => self.listed_arguments(parent, keeps, args),
            None => {}
        }
    }

    /// Writes `?.` before the arguments of a call in an optional chain.
    #[tactic(auto, unfolding(crate::specs::Calls::call_mark))]
    fn call_mark(&mut self, optional: bool)
        ensures items { Performs (call_mark optional) S.lines C.maps W.sheet self.old self.new }
    {
        if optional {
            return self.punct(Punctuator::QuestionDot);
        }
    }
}
