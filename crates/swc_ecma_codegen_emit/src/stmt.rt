//! Statements and programs.

ghost use Rattle.std.specs.Prelude.{◌≡◌, Some, true};
ghost use Rattle.swc_ecma_codegen_tokens.specs.Lists.{blank_if};
ghost use Rattle.swc_ecma_codegen_spans.specs.Spans.{stmt_span};
ghost use Rattle.swc_ecma_codegen_emit.specs.Answers.{place_of};
ghost use Rattle.swc_ecma_codegen_emit.specs.Branches.{is_block};
ghost use Rattle.swc_ecma_codegen_emit.specs.Lists.{in_order};
ghost use Rattle.swc_ecma_codegen_tokens.specs.Run.{with_max_line};
ghost use Rattle.swc_ecma_codegen_emit.specs.Standing.{Performs};
ghost use Rattle.swc_ecma_codegen_tokens.specs.Starts.{begins_letter};
ghost use Rattle.swc_ecma_codegen_tokens.specs.Words.{trailing_comments};
ghost use Rattle.swc_ecma_codegen_emit.specs.Stmts.{enclosed, spaced, argument, argument_in, stmt_word, spaced_word, jump, empty_stmt, expr_stmt, debugger_stmt, with_stmt, return_arg, return_stmt, labeled_stmt, break_stmt, continue_stmt, else_branch, if_stmt, catch_param, catch_clause, handler, finalizer, try_stmt, throw_stmt, stmt_parts, stmt_closed, stmt};
ghost use Rattle.swc_ecma_codegen_emit.specs.Programs.{start_if_empty, program_start, script, script_parts, program};

use crate::branches::is_block;
use crate::emitter::Emitter;
use crate::nodes::{Child, Context, EmitAt, LinkTarget};
use crate::places::stmt_place;
use swc_ecma_codegen_common::Span;
use swc_ecma_codegen_grammar::comments::Comments;
use swc_ecma_codegen_grammar::mapper::SourceMapper;
use swc_ecma_codegen_literals::Punctuator;
use swc_ecma_codegen_text_writer::WriteJs;
use swc_ecma_codegen_tree::{
    BlockStmtBox, BreakStmt, CatchClause, ContinueStmt, DebuggerStmt, EmptyStmt, ExprBox, ExprStmt,
    Ident, IfStmt, LabeledStmt, PatBox, Program, ReturnStmt, Script, Stmt, StmtBox, ThrowStmt,
    TryStmt, WithStmt,
};

/// Writes a statement by its variant, without the comments after it and the end of its line.
#[inline(always)]
#[tactic(auto, unfolding(crate::specs::Stmts::stmt_parts))]
fn stmt_parts<N: LinkTarget, W: WriteJs, S: SourceMapper, C: Comments>(
    node: &Stmt<N>,
    e: &mut Emitter<'_, W, S, C>,
)
    ensures items { Performs (stmt_parts N.answers N.items node.now)
        S.lines C.maps W.sheet e.old e.new }
{
    match node {
        Stmt::Expr(node) => node.emit_at(e, Context::Plain),
        Stmt::Block(node) => node.target().emit_at(e, Context::Plain),
        Stmt::Empty(node) => node.emit_at(e, Context::Plain),
        Stmt::Debugger(node) => node.emit_at(e, Context::Plain),
        Stmt::With(node) => node.emit_at(e, Context::Plain),
        Stmt::Return(node) => node.emit_at(e, Context::Plain),
        Stmt::Labeled(node) => node.emit_at(e, Context::Plain),
        Stmt::Break(node) => node.emit_at(e, Context::Plain),
        Stmt::Continue(node) => node.emit_at(e, Context::Plain),
        Stmt::If(node) => node.emit_at(e, Context::Plain),
        Stmt::Switch(node) => node.emit_at(e, Context::Plain),
        Stmt::Throw(node) => node.emit_at(e, Context::Plain),
        Stmt::Try(node) => node.emit_at(e, Context::Plain),
        Stmt::While(node) => node.emit_at(e, Context::Plain),
        Stmt::DoWhile(node) => node.emit_at(e, Context::Plain),
        Stmt::For(node) => node.emit_at(e, Context::Plain),
        Stmt::ForIn(node) => node.emit_at(e, Context::Plain),
        Stmt::ForOf(node) => node.emit_at(e, Context::Plain),
        Stmt::Decl(node) => node.emit_at(e, Context::Statement),
    }
}

impl<N: LinkTarget> EmitAt for Stmt<N> {
    ghost items = { λ n _. stmt N.answers N.items n };

    #[inline(never)]
    #[tactic(auto, unfolding(crate::specs::Stmts::stmt))]
    fn emit_at<W: WriteJs, S: SourceMapper, C: Comments>(
        &self,
        e: &mut Emitter<'_, W, S, C>,
        context: Context,
    ) {
        stmt_parts(self, e);
        e.stmt_closed(self);
    }
}

impl<N: LinkTarget> Child for Stmt<N> {
    ghost stands = { stmt_span (place_of N.answers) };

    fn place(&self) -> Span {
        stmt_place(self)
    }
}

impl<N: LinkTarget> EmitAt for ExprStmt<N> {
    ghost items = { λ n _. expr_stmt N.items n };

    #[tactic(auto, unfolding(crate::specs::Stmts::expr_stmt))]
    fn emit_at<W: WriteJs, S: SourceMapper, C: Comments>(
        &self,
        e: &mut Emitter<'_, W, S, C>,
        context: Context,
    ) {
        e.leading_comments(self.span.lo);
        self.expr.target().emit_at(e, Context::Plain);
        e.semi();
    }
}

impl EmitAt for EmptyStmt {
    ghost items = { λ n _. empty_stmt n };

    #[tactic(auto, unfolding(crate::specs::Stmts::empty_stmt))]
    fn emit_at<W: WriteJs, S: SourceMapper, C: Comments>(
        &self,
        e: &mut Emitter<'_, W, S, C>,
        context: Context,
    ) {
        e.leading_comments(self.span.lo);
        e.punct(Punctuator::Semicolon);
    }
}

impl EmitAt for DebuggerStmt {
    ghost items = { λ n _. debugger_stmt n };

    #[tactic(auto, unfolding(crate::specs::Stmts::debugger_stmt))]
    fn emit_at<W: WriteJs, S: SourceMapper, C: Comments>(
        &self,
        e: &mut Emitter<'_, W, S, C>,
        context: Context,
    ) {
        e.commit_pending_semi();
        e.leading_comments(self.span.lo);
        e.keyword(Some(self.span), "debugger");
        e.semi();
    }
}

impl<N: LinkTarget> EmitAt for WithStmt<N> {
    ghost items = { λ n _. with_stmt N.items n };

    #[tactic(auto, unfolding(crate::specs::Stmts::with_stmt))]
    fn emit_at<W: WriteJs, S: SourceMapper, C: Comments>(
        &self,
        e: &mut Emitter<'_, W, S, C>,
        context: Context,
    ) {
        e.commit_pending_semi();
        e.start_of(self.span);
        e.keyword(None, "with");
        e.formatting_space();
        e.enclosed(&self.obj);
        self.body.target().emit_at(e, Context::Plain);
    }
}

impl<N: LinkTarget> EmitAt for ReturnStmt<N> {
    ghost items = { λ n _. return_stmt N.answers N.items n };

    #[tactic(auto, unfolding(crate::specs::Stmts::return_stmt))]
    fn emit_at<W: WriteJs, S: SourceMapper, C: Comments>(
        &self,
        e: &mut Emitter<'_, W, S, C>,
        context: Context,
    ) {
        e.stmt_word(self.span, "return");
        e.return_arg(&self.arg);
        e.semi();
    }
}

impl<N: LinkTarget> EmitAt for LabeledStmt<N> {
    ghost items = { λ n _. labeled_stmt N.items n };

    #[tactic(auto, unfolding(crate::specs::Stmts::labeled_stmt))]
    fn emit_at<W: WriteJs, S: SourceMapper, C: Comments>(
        &self,
        e: &mut Emitter<'_, W, S, C>,
        context: Context,
    ) {
        e.commit_pending_semi();
        self.label.emit_at(e, Context::Plain);
        e.punct(Punctuator::Colon);
        e.formatting_space();
        self.body.target().emit_at(e, Context::Plain);
    }
}

impl EmitAt for BreakStmt {
    ghost items = { λ n _. break_stmt n };

    #[tactic(auto, unfolding(crate::specs::Stmts::break_stmt))]
    fn emit_at<W: WriteJs, S: SourceMapper, C: Comments>(
        &self,
        e: &mut Emitter<'_, W, S, C>,
        context: Context,
    ) {
        e.jump(self.span, "break", &self.label);
    }
}

impl EmitAt for ContinueStmt {
    ghost items = { λ n _. continue_stmt n };

    #[tactic(auto, unfolding(crate::specs::Stmts::continue_stmt))]
    fn emit_at<W: WriteJs, S: SourceMapper, C: Comments>(
        &self,
        e: &mut Emitter<'_, W, S, C>,
        context: Context,
    ) {
        e.jump(self.span, "continue", &self.label);
    }
}

impl<N: LinkTarget> EmitAt for IfStmt<N> {
    ghost items = { λ n _. if_stmt N.answers N.items n };

    #[tactic(auto, unfolding(crate::specs::Stmts::if_stmt))]
    fn emit_at<W: WriteJs, S: SourceMapper, C: Comments>(
        &self,
        e: &mut Emitter<'_, W, S, C>,
        context: Context,
    ) {
        e.spaced_word(self.span, "if");
        e.enclosed(&self.test);
        e.formatting_space();
        self.cons.target().emit_at(e, Context::Plain);
        e.else_branch(self.cons.target().block(), &self.alt);
    }
}

impl<N: LinkTarget> EmitAt for CatchClause<N> {
    ghost items = { λ n _. catch_clause N.items n };

    #[tactic(auto, unfolding(crate::specs::Stmts::catch_clause))]
    fn emit_at<W: WriteJs, S: SourceMapper, C: Comments>(
        &self,
        e: &mut Emitter<'_, W, S, C>,
        context: Context,
    ) {
        e.opened(self.span);
        e.keyword(None, "catch");
        e.formatting_space();
        e.catch_param(&self.param);
        e.formatting_space();
        self.body.target().emit_at(e, Context::Plain);
    }
}

impl<N: LinkTarget> EmitAt for ThrowStmt<N> {
    ghost items = { λ n _. throw_stmt N.answers N.items n };

    #[tactic(auto, unfolding(crate::specs::Stmts::throw_stmt))]
    fn emit_at<W: WriteJs, S: SourceMapper, C: Comments>(
        &self,
        e: &mut Emitter<'_, W, S, C>,
        context: Context,
    ) {
        e.opened(self.span);
        e.keyword(None, "throw");
        e.argument(self.arg.target());
        e.semi();
    }
}

impl<N: LinkTarget> EmitAt for TryStmt<N> {
    ghost items = { λ n _. try_stmt N.items n };

    #[tactic(auto, unfolding(crate::specs::Stmts::try_stmt))]
    fn emit_at<W: WriteJs, S: SourceMapper, C: Comments>(
        &self,
        e: &mut Emitter<'_, W, S, C>,
        context: Context,
    ) {
        e.spaced_word(self.span, "try");
        self.block.target().emit_at(e, Context::Plain);
        e.handler(&self.handler);
        e.finalizer(&self.finalizer);
    }
}

impl<N: LinkTarget> EmitAt for Script<N> {
    ghost items = { script N.answers N.items };

    #[tactic(auto, unfolding(crate::specs::Programs::script, swc_ecma_codegen_tokens::specs::Words::bounded, swc_ecma_codegen_tokens::specs::Words::in_lines))]
    fn emit_at<W: WriteJs, S: SourceMapper, C: Comments>(
        &self,
        e: &mut Emitter<'_, W, S, C>,
        context: Context,
    ) {
        match context {
            Context::ByItself(max) => {
                e.begin_lines(max);
                e.broken_script(self, max);
                e.end_lines();
            }
            _ => e.script_parts(self),
        }
    }
}

impl<N: LinkTarget> EmitAt for Program<N> {
    ghost items = { program N.answers N.items };

    #[tactic(auto, unfolding(crate::specs::Programs::program))]
    fn emit_at<W: WriteJs, S: SourceMapper, C: Comments>(
        &self,
        e: &mut Emitter<'_, W, S, C>,
        context: Context,
    ) {
        match self {
            Program::Module(node) => node.emit_at(e, context),
            Program::Script(node) => node.emit_at(e, context),
        }
    }
}

impl<W: WriteJs, S: SourceMapper, C: Comments> Emitter<'_, W, S, C> {
    /// Writes a script whose lines may be ended.
    fn broken_script<N: LinkTarget>(&mut self, node: &Script<N>, max: u32)
        ensures items { Performs (with_max_line (Some max)
            (script_parts N.answers N.items node.now)) S.lines C.maps W.sheet self.old self.new }
    {
        let max_line = self.cfg.max_line;
        self.cfg.max_line = Some(max);
        self.script_parts(node);
        self.cfg.max_line = max_line;
    }

    /// Writes a script, in lines of whatever length.
    #[tactic(auto, unfolding(crate::specs::Programs::script_parts))]
    fn script_parts<N: LinkTarget>(&mut self, node: &Script<N>)
        ensures items { Performs (script_parts N.answers N.items node.now)
            S.lines C.maps W.sheet self.old self.new }
    {
        self.program_start(&node.shebang, &node.body, node.span);
        self.stmts(&node.body);
        self.trailing_comments(node.span.hi, true);
        self.last_semi();
    }

    /// Writes statements, one after another.
    fn stmts<N: LinkTarget>(&mut self, nodes: &[Stmt<N>])
        ensures items { Performs (in_order (stmt N.answers N.items) nodes.now)
            S.lines C.maps W.sheet self.old self.new }
    {
        self.in_order(nodes)
    }

    /// Writes the comments after a statement and the end of its line, but for a block.
    #[tactic(auto, unfolding(crate::specs::Stmts::stmt_closed))]
    fn stmt_closed<N: LinkTarget>(&mut self, node: &Stmt<N>)
        ensures items { Performs (stmt_closed (is_block node.now)
            (stmt_span (place_of N.answers) node.now)) S.lines C.maps W.sheet self.old self.new }
    {
        if is_block(node) {
            return;
        }
        self.stmt_comments(node);
        self.formatting_line()
    }

    /// Writes the comments after a statement. Where it stands is asked only where there are
    /// comments.
    #[inline(always)]
    #[tactic(auto, using(crate::proofs::Without::none_there, crate::proofs::Without::trailing_nowhere))]
    fn stmt_comments<N: LinkTarget>(&mut self, node: &Stmt<N>)
        ensures items { Performs (trailing_comments true
            (stmt_span (place_of N.answers) node.now).hi) S.lines C.maps W.sheet self.old self.new }
    {
        if self.comments.is_none() {
            return;
        }
        self.trailing_comments(stmt_place(node).hi, true)
    }

    /// Writes an expression in parentheses.
    #[tactic(auto, unfolding(crate::specs::Stmts::enclosed))]
    pub(crate) fn enclosed<N: LinkTarget>(&mut self, node: &ExprBox<N>)
        ensures items { Performs (enclosed N.items node.now)
            S.lines C.maps W.sheet self.old self.new }
    {
        self.punct(Punctuator::LeftParenthesis);
        node.target().emit_at(self, Context::Plain);
        self.punct(Punctuator::RightParenthesis);
    }

    /// Writes a node behind a word, and the blank between the two.
    #[tactic(auto, unfolding(crate::specs::Stmts::spaced))]
    pub(crate) fn spaced<N: LinkTarget>(&mut self, node: &N)
        ensures items { Performs (spaced N.answers N.items node.now)
            S.lines C.maps W.sheet self.old self.new }
    {
        self.blank(node.starts());
        node.emit_at(self, Context::Plain);
    }

    /// Writes an argument behind a word.
    #[tactic(auto, using(crate::proofs::Asked::argument_asked))]
    fn argument<N: LinkTarget>(&mut self, node: &N)
        ensures items { Performs (argument N.answers N.items node.now)
            S.lines C.maps W.sheet self.old self.new }
    {
        let breaks = node.breaks(&self.comments);
        self.argument_in(breaks, node)
    }

    /// Writes such an argument, in parentheses where a line ends in or after a comment before it.
    #[tactic(auto, unfolding(crate::specs::Stmts::argument_in, swc_ecma_codegen_tokens::specs::Choices::optional_parentheses))]
    fn argument_in<N: LinkTarget>(&mut self, breaks: bool, node: &N)
        ensures items { Performs (argument_in N.answers N.items node.now breaks)
            S.lines C.maps W.sheet self.old self.new }
    {
        if breaks {
            self.punct(Punctuator::LeftParenthesis);
            node.emit_at(self, Context::Plain);
            self.punct(Punctuator::RightParenthesis);
        } else {
            self.spaced(node);
        }
    }

    /// Writes the word that a statement begins with.
    #[tactic(auto, unfolding(crate::specs::Stmts::stmt_word))]
    pub(crate) fn stmt_word(&mut self, span: Span, text: &'static str)
        requires { begins_letter text.now ≡ true }
        ensures items { Performs (stmt_word span text.now)
            S.lines C.maps W.sheet self.old self.new }
    {
        self.commit_pending_semi();
        self.opened(span);
        self.keyword(None, text);
    }

    /// Writes such a word and a blank, after the comments before it.
    #[tactic(auto, unfolding(crate::specs::Stmts::spaced_word))]
    fn spaced_word(&mut self, span: Span, text: &'static str)
        requires { begins_letter text.now ≡ true }
        ensures items { Performs (spaced_word span text.now)
            S.lines C.maps W.sheet self.old self.new }
    {
        self.leading_comments(span.lo);
        self.commit_pending_semi();
        self.start_of(span);
        self.keyword(None, text);
        self.formatting_space();
    }

    /// Writes `break a;` or `continue a;`.
    #[tactic(auto, unfolding(crate::specs::Stmts::jump))]
    fn jump(&mut self, span: Span, text: &'static str, label: &Option<Ident>)
        requires { begins_letter text.now ≡ true }
        ensures items { Performs (jump span text.now label.now)
            S.lines C.maps W.sheet self.old self.new }
    {
        self.commit_pending_semi();
        self.start_of(span);
        self.keyword(None, text);
        self.optional_name(label);
        self.semi();
    }

    /// Writes the argument of `return`, where there is one.
    #[tactic(auto, unfolding(crate::specs::Stmts::return_arg))]
    fn return_arg<N: LinkTarget>(&mut self, arg: &Option<ExprBox<N>>)
        ensures items { Performs (return_arg N.answers N.items arg.now)
            S.lines C.maps W.sheet self.old self.new }
    {
        match arg {
            Some(node) => self.argument(node.target()),
            None => {}
        }
    }

    /// Writes `else` and a statement, where there is one.
    #[tactic(auto, unfolding(crate::specs::Stmts::else_branch))]
    fn else_branch<N: LinkTarget>(&mut self, block: bool, alt: &Option<StmtBox<N>>)
        ensures items { Performs (else_branch N.answers N.items block alt.now)
            S.lines C.maps W.sheet self.old self.new }
    {
        match alt {
            Some(node) => {
                self.blank_if(block);
                self.keyword(None, "else");
                self.spaced(node.target())
            }
            None => {}
        }
    }

    /// Writes a blank where one is wanted, unless the settings are to minify.
    #[tactic(auto, unfolding(swc_ecma_codegen_tokens::specs::Lists::blank_if))]
    fn blank_if(&mut self, wanted: bool)
        ensures items { Performs (blank_if wanted) S.lines C.maps W.sheet self.old self.new }
    {
        if wanted {
            self.formatting_space();
        }
    }

    /// Writes what is caught in parentheses, where there is such.
    #[tactic(auto, unfolding(crate::specs::Stmts::catch_param))]
    fn catch_param<N: LinkTarget>(&mut self, param: &Option<PatBox<N>>)
        ensures items { Performs (catch_param N.items param.now)
            S.lines C.maps W.sheet self.old self.new }
    {
        match param {
            Some(node) => {
                self.punct(Punctuator::LeftParenthesis);
                node.target().emit_at(self, Context::Plain);
                self.punct(Punctuator::RightParenthesis)
            }
            None => {}
        }
    }

    /// Writes a blank and `catch { a; }`, where there is such.
    #[tactic(auto, unfolding(crate::specs::Stmts::handler))]
    fn handler<N: LinkTarget>(&mut self, node: &Option<CatchClause<N>>)
        ensures items { Performs (handler N.items node.now)
            S.lines C.maps W.sheet self.old self.new }
    {
        match node {
            Some(node) => {
                self.formatting_space();
                node.emit_at(self, Context::Plain)
            }
            None => {}
        }
    }

    /// Writes a blank and `finally{ a; }`, where there is such.
    #[tactic(auto, unfolding(crate::specs::Stmts::finalizer))]
    fn finalizer<N: LinkTarget>(&mut self, node: &Option<BlockStmtBox<N>>)
        ensures items { Performs (finalizer N.items node.now)
            S.lines C.maps W.sheet self.old self.new }
    {
        match node {
            Some(node) => {
                self.formatting_space();
                self.keyword(None, "finally");
                node.target().emit_at(self, Context::Plain)
            }
            None => {}
        }
    }

    /// Writes what stands before the statements of a program.
    #[tactic(auto, unfolding(crate::specs::Programs::program_start))]
    pub(crate) fn program_start<T>(&mut self, shebang: &Option<String>, body: &[T], span: Span)
        ensures items { Performs (program_start shebang.now body.now span)
            S.lines C.maps W.sheet self.old self.new }
    {
        match shebang {
            Some(text) => {
                self.start_if_empty(body, span);
                self.hashbang(text.as_str());
                self.leading_comments(span.lo)
            }
            None => {
                self.leading_comments(span.lo);
                self.start_if_empty(body, span)
            }
        }
    }

    /// Records the start of a program without statements.
    #[tactic(auto, unfolding(crate::specs::Programs::start_if_empty))]
    fn start_if_empty<T>(&mut self, body: &[T], span: Span)
        ensures items { Performs (start_if_empty body.now span)
            S.lines C.maps W.sheet self.old self.new }
    {
        match body {
            [] => self.start_of(span),
            [_, ..] => {}
        }
    }
}
