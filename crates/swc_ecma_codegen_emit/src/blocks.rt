//! Blocks.

ghost use Rattle.std.specs.Prelude.{◌≡◌, if◌then◌else◌};
ghost use Rattle.swc_ecma_codegen_grammar.specs.FunctionPhrases.{is_some_listed};
ghost use Rattle.swc_ecma_codegen_tokens.specs.Lists.{list};
ghost use Rattle.swc_ecma_codegen_emit.specs.Standing.{Performs};
ghost use Rattle.swc_ecma_codegen_emit.specs.Blocks.{block_format, flat_block_format, block_children, block_list, block_lines, block_start, block_stmt};
ghost use Rattle.swc_ecma_codegen_emit.specs.Places.{in_context};

use crate::commented::wants_lines;
use crate::emitter::Emitter;
use crate::nodes::{Context, EmitAt, LinkTarget};
use bitflags::Flags;
use swc_ecma_codegen_common::Span;
use swc_ecma_codegen_grammar::ListFormat;
use swc_ecma_codegen_grammar::comments::Comments;
use swc_ecma_codegen_grammar::mapper::SourceMapper;
use swc_ecma_codegen_literals::Punctuator;
use swc_ecma_codegen_text_writer::WriteJs;
use swc_ecma_codegen_tree::BlockStmt;

/// The format of a block over several lines.
fn block_format() -> ListFormat
    ensures { result.0 ≡ block_format }
{
    ListFormat::MultiLineBlockStatements
}

/// The format of a block on one line.
fn flat_block_format() -> ListFormat
    ensures { result.0 ≡ flat_block_format }
{
    block_format()
        .difference(ListFormat::MultiLine)
        .difference(ListFormat::Indented)
}

/// The format of a block, by whether its statements are to have lines of their own.
fn format_by(some: bool) -> ListFormat
    ensures { result.0 ≡ if some then block_format else flat_block_format }
{
    if some {
        block_format()
    } else {
        flat_block_format()
    }
}

/// Whether there is something in a list.
#[tactic(auto, unfolding(swc_ecma_codegen_grammar::specs::FunctionPhrases::is_some_listed))]
pub(crate) fn is_some_listed<T>(nodes: &[T]) -> bool
    ensures { result ≡ is_some_listed nodes.now }
{
    match nodes {
        [] => false,
        [_, ..] => true,
    }
}

impl<N: LinkTarget> EmitAt for BlockStmt<N> {
    ghost items = { λ n. in_context (block_stmt N.answers N.items n) };

    #[tactic(auto, unfolding(crate::specs::Blocks::block_stmt))]
    fn emit_at<W: WriteJs, S: SourceMapper, C: Comments>(
        &self,
        e: &mut Emitter<'_, W, S, C>,
        context: Context,
    ) {
        e.leading_comments(self.span.lo);
        e.block_start(context, self.span);
        e.punct(Punctuator::LeftBrace);
        e.block_lines(self);
        e.comments_before_end(self.span.hi);
        e.last_of(self.span);
        e.punct(Punctuator::RightBrace);
    }
}

impl<W: WriteJs, S: SourceMapper, C: Comments> Emitter<'_, W, S, C> {
    /// Records the start of a block, unless it is a body.
    #[tactic(auto, unfolding(crate::specs::Blocks::block_start))]
    fn block_start(&mut self, context: Context, span: Span)
        ensures items { Performs (block_start context span)
            S.lines C.maps W.sheet self.old self.new }
    {
        match context {
            Context::Body => {}
            _ => self.start_of(span),
        }
    }

    /// Writes the statements on one line.
    fn flat_block_list<N: LinkTarget>(&mut self, node: &BlockStmt<N>)
        ensures items { Performs (list flat_block_format node.now.span
            (block_children N.answers N.items node.now)) S.lines C.maps W.sheet self.old self.new }
    {
        self.list(flat_block_format(), node.span, &node.stmts)
    }

    /// Writes the statements, each on a line of its own where that is wanted.
    fn lined_block_list<N: LinkTarget>(&mut self, some: bool, node: &BlockStmt<N>)
        ensures items { Performs (list (if some then block_format else flat_block_format)
            node.now.span (block_children N.answers N.items node.now))
            S.lines C.maps W.sheet self.old self.new }
    {
        self.list(format_by(some), node.span, &node.stmts)
    }

    /// Writes the statements, by lines unless the settings are to minify.
    #[tactic(auto, using(crate::proofs::Asked::minified_part, crate::proofs::Asked::pretty_part), unfolding(crate::specs::Blocks::block_list))]
    fn block_list<N: LinkTarget>(&mut self, some: bool, node: &BlockStmt<N>)
        ensures items { Performs (block_list some node.now.span
            (block_children N.answers N.items node.now)) S.lines C.maps W.sheet self.old self.new }
    {
        if self.cfg.minify {
            return self.flat_block_list(node);
        }
        self.lined_block_list(some, node)
    }

    /// Writes the statements, each on a line of its own too where there is a comment before `}`.
    fn block_lines<N: LinkTarget>(&mut self, node: &BlockStmt<N>)
        ensures items { Performs (block_lines (is_some_listed node.now.stmts.items) node.now.span
            (block_children N.answers N.items node.now)) S.lines C.maps W.sheet self.old self.new }
    {
        let some = wants_lines(&self.comments, is_some_listed(&node.stmts), node.span);
        self.block_list(some, node)
    }
}
