//! Loops and `switch`.

ghost use Rattle.std.specs.Prelude.{◌≡◌, true};
ghost use Rattle.swc_ecma_codegen_grammar.specs.Settings.{is_up_to_es5};
ghost use Rattle.swc_ecma_codegen_settings.specs.Ends.{pat_ends, declarator_ends, declarators_end, head_ends};
ghost use Rattle.swc_ecma_codegen_tokens.specs.Choices.{loop_ending};
ghost use Rattle.swc_ecma_codegen_emit.specs.Standing.{Performs};
ghost use Rattle.swc_ecma_codegen_tokens.specs.Starts.{begins_letter};
ghost use Rattle.swc_ecma_codegen_emit.specs.Stmts.{case_body, cases_format, lines_format, case_format, case_test, is_single, case_list, case_children, case_stmts, switch_case, cases, switch_cases, switch_stmt, while_stmt, loop_test, do_while_stmt, var_decl_or_expr, for_init, for_value, for_clause, for_control, for_stmt, for_head, for_right, for_each, for_in_stmt, for_await, for_of_stmt};

use crate::emitter::Emitter;
use crate::nodes::{Asked, Child, Context, EmitAt, LinkTarget};
use bitflags::Flags;
use swc_ecma_codegen_common::{EsVersion, Span};
use swc_ecma_codegen_grammar::ListFormat;
use swc_ecma_codegen_grammar::comments::Comments;
use swc_ecma_codegen_grammar::mapper::SourceMapper;
use swc_ecma_codegen_literals::Punctuator;
use swc_ecma_codegen_text_writer::WriteJs;
use swc_ecma_codegen_tree::{
    DoWhileStmt, ExprBox, ForHead, ForInStmt, ForOfStmt, ForStmt, Pat, StmtBox, SwitchCase,
    SwitchStmt, VarDeclOrExpr, VarDeclarator, WhileStmt,
};

/// The format of the cases of a `switch`.
fn cases_format() -> ListFormat
    ensures { result.0 ≡ cases_format }
{
    ListFormat::CaseBlockClauses
}

/// The format that asks whether a line ends in the source text.
fn lines_format() -> ListFormat
    ensures { result.0 ≡ lines_format }
{
    ListFormat::PreserveLines
}

/// The format of the statements of a case, by whether there is a single one on its line.
fn case_format(single: bool) -> ListFormat
    ensures { result.0 ≡ case_format single }
{
    if single {
        ListFormat::CaseOrDefaultClauseStatements
            .difference(ListFormat::MultiLine)
            .difference(ListFormat::Indented)
    } else {
        ListFormat::CaseOrDefaultClauseStatements
    }
}

/// Whether it is a version before 2015.
#[tactic(auto, unfolding(swc_ecma_codegen_grammar::specs::Settings::is_up_to_es5))]
fn is_up_to_es5(version: EsVersion) -> bool
    ensures { result ≡ is_up_to_es5 version }
{
    matches!(version, EsVersion::Es3 | EsVersion::Es5)
}

/// Whether there is one statement, on the line of its case as far as the source text says.
#[tactic(auto, unfolding(crate::specs::Stmts::is_single))]
fn is_single<S: SourceMapper, N: Asked>(cm: &S, span: Span, nodes: &[StmtBox<N>]) -> bool
    ensures { result ≡ is_single N.answers (S.lines cm.now) span nodes.now }
{
    match nodes {
        [node] => !lines_format().leading_line(cm, span, node.target().place()),
        _ => false,
    }
}

/// Whether a pattern ends with a character of a name.
#[tactic(auto, unfolding(swc_ecma_codegen_settings::specs::Ends::pat_ends))]
fn pat_ends<N: Asked>(pat: &Pat<N>) -> bool
    ensures { result ≡ pat_ends (λ x. (N.answers x).ends) pat.now }
{
    match pat {
        Pat::Array(_) | Pat::Object(_) => false,
        Pat::Rest(node) => node.arg.target().ends(),
        Pat::Assign(node) => node.right.target().ends(),
        Pat::Expr(node) => node.target().ends(),
        Pat::Ident(_) | Pat::Invalid(_) => true,
    }
}

/// Whether a declarator ends with a character of a name.
#[tactic(auto, unfolding(swc_ecma_codegen_settings::specs::Ends::declarator_ends, swc_ecma_codegen_settings::specs::Ends::init_ends))]
fn declarator_ends<N: Asked>(declarator: &VarDeclarator<N>) -> bool
    ensures { result ≡ declarator_ends (λ x. (N.answers x).ends) declarator.now }
{
    match &declarator.init {
        Some(init) => init.target().ends(),
        None => pat_ends(&declarator.name),
    }
}

/// Whether the last declarator does.
#[tactic(auto, unfolding(swc_ecma_codegen_settings::specs::Ends::declarators_end, swc_ecma_codegen_settings::specs::Ends::last_ends))]
fn declarators_end<N: Asked>(declarators: &[VarDeclarator<N>]) -> bool
    ensures { result ≡ declarators_end (λ x. (N.answers x).ends) declarators.now }
{
    match declarators.last() {
        Some(last) => declarator_ends(last),
        None => true,
    }
}

/// Whether what the head of a `for` begins with does.
#[tactic(auto, unfolding(swc_ecma_codegen_settings::specs::Ends::head_ends))]
fn head_ends<N: Asked>(head: &ForHead<N>) -> bool
    ensures { result ≡ head_ends (λ x. (N.answers x).ends) head.now }
{
    match head {
        ForHead::VarDecl(node) => node.target().ends(),
        ForHead::UsingDecl(node) => declarators_end(&node.decls),
        ForHead::Pat(node) => node.target().ends(),
    }
}

impl<N: LinkTarget> EmitAt for ForHead<N> {
    ghost items = { λ n _. for_head N.answers N.items n };

    #[tactic(auto, unfolding(crate::specs::Stmts::for_head))]
    fn emit_at<W: WriteJs, S: SourceMapper, C: Comments>(
        &self,
        e: &mut Emitter<'_, W, S, C>,
        context: Context,
    ) {
        match self {
            ForHead::Pat(node) => node.target().emit_at(e, Context::Plain),
            ForHead::VarDecl(node) => node.target().emit_at(e, Context::Plain),
            ForHead::UsingDecl(node) => (**node).emit_at(e, Context::Plain),
        }
    }
}

impl<N: LinkTarget> EmitAt for SwitchStmt<N> {
    ghost items = { λ n _. switch_stmt N.answers N.items n };

    #[tactic(auto, unfolding(crate::specs::Stmts::switch_stmt))]
    fn emit_at<W: WriteJs, S: SourceMapper, C: Comments>(
        &self,
        e: &mut Emitter<'_, W, S, C>,
        context: Context,
    ) {
        e.stmt_word(self.span, "switch");
        e.enclosed(&self.discriminant);
        e.switch_cases(self);
    }
}

impl<N: LinkTarget> EmitAt for SwitchCase<N> {
    ghost items = { λ n _. switch_case N.answers N.items n };

    #[tactic(auto, unfolding(crate::specs::Stmts::switch_case))]
    fn emit_at<W: WriteJs, S: SourceMapper, C: Comments>(
        &self,
        e: &mut Emitter<'_, W, S, C>,
        context: Context,
    ) {
        e.opened(self.span);
        e.case_test(&self.test);
        e.case_stmts(self);
    }
}

impl<N: LinkTarget> Child for SwitchCase<N> {
    ghost stands = { λ n. n.span };

    fn place(&self) -> Span {
        self.span
    }
}

impl<N: LinkTarget> EmitAt for WhileStmt<N> {
    ghost items = { λ n _. while_stmt N.items n };

    #[tactic(auto, unfolding(crate::specs::Stmts::while_stmt))]
    fn emit_at<W: WriteJs, S: SourceMapper, C: Comments>(
        &self,
        e: &mut Emitter<'_, W, S, C>,
        context: Context,
    ) {
        e.stmt_word(self.span, "while");
        e.enclosed(&self.test);
        self.body.target().emit_at(e, Context::Plain);
    }
}

impl<N: LinkTarget> EmitAt for DoWhileStmt<N> {
    ghost items = { λ n _. do_while_stmt N.answers N.items n };

    #[tactic(auto, unfolding(crate::specs::Stmts::do_while_stmt))]
    fn emit_at<W: WriteJs, S: SourceMapper, C: Comments>(
        &self,
        e: &mut Emitter<'_, W, S, C>,
        context: Context,
    ) {
        e.stmt_word(self.span, "do");
        e.spaced(self.body.target());
        e.loop_test(&self.test);
        e.loop_ending();
        e.end_of(self.span);
    }
}

impl<N: LinkTarget> EmitAt for ForStmt<N> {
    ghost items = { λ n _. for_stmt N.items n };

    #[tactic(auto, unfolding(crate::specs::Stmts::for_stmt))]
    fn emit_at<W: WriteJs, S: SourceMapper, C: Comments>(
        &self,
        e: &mut Emitter<'_, W, S, C>,
        context: Context,
    ) {
        e.stmt_word(self.span, "for");
        e.for_control(self);
        self.body.target().emit_at(e, Context::Plain);
    }
}

impl<N: LinkTarget> EmitAt for ForInStmt<N> {
    ghost items = { λ n _. for_in_stmt N.answers N.items n };

    #[tactic(auto, unfolding(crate::specs::Stmts::for_in_stmt))]
    fn emit_at<W: WriteJs, S: SourceMapper, C: Comments>(
        &self,
        e: &mut Emitter<'_, W, S, C>,
        context: Context,
    ) {
        e.stmt_word(self.span, "for");
        e.for_each("in", &self.left, &self.right);
        self.body.target().emit_at(e, Context::Plain);
    }
}

impl<N: LinkTarget> EmitAt for ForOfStmt<N> {
    ghost items = { λ n _. for_of_stmt N.answers N.items n };

    #[tactic(auto, unfolding(crate::specs::Stmts::for_of_stmt))]
    fn emit_at<W: WriteJs, S: SourceMapper, C: Comments>(
        &self,
        e: &mut Emitter<'_, W, S, C>,
        context: Context,
    ) {
        e.stmt_word(self.span, "for");
        e.for_await(self.is_await);
        e.formatting_space();
        e.for_each("of", &self.left, &self.right);
        self.body.target().emit_at(e, Context::Plain);
    }
}

impl<N: LinkTarget> EmitAt for VarDeclOrExpr<N> {
    ghost items = { λ n _. var_decl_or_expr N.items n };

    #[tactic(auto, unfolding(crate::specs::Stmts::var_decl_or_expr))]
    fn emit_at<W: WriteJs, S: SourceMapper, C: Comments>(
        &self,
        e: &mut Emitter<'_, W, S, C>,
        context: Context,
    ) {
        match self {
            VarDeclOrExpr::Expr(node) => node.target().emit_at(e, Context::Plain),
            VarDeclOrExpr::VarDecl(node) => node.target().emit_at(e, Context::Plain),
        }
    }
}

impl<W: WriteJs, S: SourceMapper, C: Comments> Emitter<'_, W, S, C> {
    /// Writes the cases, each on a line of its own.
    fn cases<N: LinkTarget>(&mut self, node: &SwitchStmt<N>)
        ensures items { Performs (cases N.answers N.items node.now)
            S.lines C.maps W.sheet self.old self.new }
    {
        self.list(cases_format(), node.span, &node.cases)
    }

    /// Writes `{ case a: b; }`.
    #[tactic(auto, unfolding(crate::specs::Stmts::switch_cases))]
    fn switch_cases<N: LinkTarget>(&mut self, node: &SwitchStmt<N>)
        ensures items { Performs (switch_cases N.answers N.items node.now)
            S.lines C.maps W.sheet self.old self.new }
    {
        self.punct(Punctuator::LeftBrace);
        self.cases(node);
        self.last_of(node.span);
        self.punct(Punctuator::RightBrace);
    }

    /// Writes `case a` or `default`.
    #[tactic(auto, unfolding(crate::specs::Stmts::case_test))]
    fn case_test<N: LinkTarget>(&mut self, test: &Option<ExprBox<N>>)
        ensures items { Performs (case_test N.answers N.items test.now)
            S.lines C.maps W.sheet self.old self.new }
    {
        match test {
            Some(node) => {
                self.keyword(None, "case");
                self.spaced(node.target())
            }
            None => self.keyword(None, "default"),
        }
    }

    /// Writes the statements of a case.
    fn case_children<N: LinkTarget>(&mut self, single: bool, node: &SwitchCase<N>)
        ensures items { Performs (case_body single node.now.span
            (case_children N.answers N.items node.now.cons.items))
            S.lines C.maps W.sheet self.old self.new }
    {
        self.list(case_format(single), node.span, &node.cons)
    }

    /// Writes the colon and the statements of a case, on the same line where there is a single one.
    #[tactic(auto, unfolding(crate::specs::Stmts::case_list))]
    fn case_list<N: LinkTarget>(&mut self, single: bool, node: &SwitchCase<N>)
        ensures items { Performs (case_list single node.now.span
            (case_children N.answers N.items node.now.cons.items))
            S.lines C.maps W.sheet self.old self.new }
    {
        self.punct(Punctuator::Colon);
        self.space_if(single);
        self.case_children(single, node);
    }

    /// Writes the colon and the statements of a case.
    fn case_stmts<N: LinkTarget>(&mut self, node: &SwitchCase<N>)
        ensures items { Performs (case_stmts N.answers N.items node.now)
            S.lines C.maps W.sheet self.old self.new }
    {
        let single = is_single(self.cm, node.span, &node.cons);
        self.case_list(single, node)
    }

    /// Writes `while (a)` at the end of a loop.
    #[tactic(auto, unfolding(crate::specs::Stmts::loop_test))]
    fn loop_test<N: LinkTarget>(&mut self, test: &ExprBox<N>)
        ensures items { Performs (loop_test N.items test.now)
            S.lines C.maps W.sheet self.old self.new }
    {
        self.keyword(None, "while");
        self.formatting_space();
        self.enclosed(test);
    }

    /// Writes the semicolon after a loop, for a version before 2015.
    #[tactic(auto, using(crate::proofs::Asked::loop_ended, crate::proofs::Asked::loop_not_ended))]
    fn loop_ending(&mut self)
        ensures items { Performs (loop_ending) S.lines C.maps W.sheet self.old self.new }
    {
        if is_up_to_es5(self.cfg.target) {
            return self.semi();
        }
    }

    /// Writes what the head of a `for` begins with, where there is such.
    #[tactic(auto, unfolding(crate::specs::Stmts::for_init))]
    fn for_init<N: LinkTarget>(&mut self, init: &Option<VarDeclOrExpr<N>>)
        ensures items { Performs (for_init N.items init.now)
            S.lines C.maps W.sheet self.old self.new }
    {
        match init {
            Some(node) => node.emit_at(self, Context::Plain),
            None => {}
        }
    }

    /// Writes a blank and an expression, where there is one.
    #[tactic(auto, unfolding(crate::specs::Stmts::for_value))]
    fn for_value<N: LinkTarget>(&mut self, value: &Option<ExprBox<N>>)
        ensures items { Performs (for_value N.items value.now)
            S.lines C.maps W.sheet self.old self.new }
    {
        match value {
            Some(node) => {
                self.formatting_space();
                node.target().emit_at(self, Context::Plain)
            }
            None => {}
        }
    }

    /// Writes `; a` or `;`.
    #[tactic(auto, unfolding(crate::specs::Stmts::for_clause))]
    fn for_clause<N: LinkTarget>(&mut self, value: &Option<ExprBox<N>>)
        ensures items { Performs (for_clause N.items value.now)
            S.lines C.maps W.sheet self.old self.new }
    {
        self.punct(Punctuator::Semicolon);
        self.for_value(value);
    }

    /// Writes `(a; b; c)`.
    #[tactic(auto, unfolding(crate::specs::Stmts::for_control))]
    fn for_control<N: LinkTarget>(&mut self, node: &ForStmt<N>)
        ensures items { Performs (for_control N.items node.now)
            S.lines C.maps W.sheet self.old self.new }
    {
        self.punct(Punctuator::LeftParenthesis);
        self.for_init(&node.init);
        self.for_clause(&node.test);
        self.for_clause(&node.update);
        self.punct(Punctuator::RightParenthesis);
    }

    /// Writes the word and the expression after what is gone over.
    #[tactic(auto, unfolding(crate::specs::Stmts::for_right))]
    fn for_right<N: LinkTarget>(&mut self, text: &'static str, ends: bool, right: &ExprBox<N>)
        requires { begins_letter text.now ≡ true }
        ensures items { Performs (for_right N.answers N.items text.now ends right.now)
            S.lines C.maps W.sheet self.old self.new }
    {
        self.blank(ends);
        self.keyword(None, text);
        self.spaced(right.target());
    }

    /// Writes `(a of b)`.
    #[tactic(auto, unfolding(crate::specs::Stmts::for_each))]
    fn for_each<N: LinkTarget>(&mut self, text: &'static str, left: &ForHead<N>, right: &ExprBox<N>)
        requires { begins_letter text.now ≡ true }
        ensures items { Performs (for_each N.answers N.items text.now left.now right.now)
            S.lines C.maps W.sheet self.old self.new }
    {
        self.punct(Punctuator::LeftParenthesis);
        left.emit_at(self, Context::Plain);
        self.for_right(text, head_ends(left), right);
        self.punct(Punctuator::RightParenthesis);
    }

    /// Writes `await` after `for`, where it is so.
    #[tactic(auto, unfolding(crate::specs::Stmts::for_await))]
    fn for_await(&mut self, wanted: bool)
        ensures items { Performs (for_await wanted) S.lines C.maps W.sheet self.old self.new }
    {
        if wanted {
            self.space();
            self.keyword(None, "await");
        }
    }
}
