//! Templates.

ghost use Rattle.std.specs.Prelude.{◌≡◌, true};
ghost use Rattle.swc_ecma_codegen_grammar.specs.TemplatePhrases.{is_counted, part_before};
ghost use Rattle.swc_ecma_codegen_emit.specs.Standing.{Performs};
ghost use Rattle.swc_ecma_codegen_tokens.specs.Templates.{tpl_element, quasi};
ghost use Rattle.swc_ecma_codegen_emit.specs.Lists.{plainly};
ghost use Rattle.swc_ecma_codegen_emit.specs.Exprs.{held};
ghost use Rattle.swc_ecma_codegen_emit.specs.Templates.{tpl_rest, tpl_all, tpl_parts, bad_shape, tpl, is_tagged, tagged_tpl};
ghost use Rattle.swc_ecma_codegen_emit.specs.Places.{context_of};

use crate::emitter::Emitter;
use crate::nodes::{Context, EmitAt, LinkTarget};
use crate::refusals::keep;
use swc_ecma_codegen_grammar::comments::Comments;
use swc_ecma_codegen_grammar::kinds::TemplatePart;
use swc_ecma_codegen_grammar::mapper::SourceMapper;
use swc_ecma_codegen_text_writer::WriteJs;
use swc_ecma_codegen_tokens::Unprintable;
use swc_ecma_codegen_tree::{ExprBox, TaggedTpl, Tpl, TplElement};

/// Whether a template has a tag, by its context.
fn is_tagged(context: Context) -> bool
    ensures { result ≡ is_tagged context }
{
    match context {
        Context::Tagged => true,
        _ => false,
    }
}

/// A part of a template before these: it opens a substitution where there are any.
#[tactic(auto, unfolding(swc_ecma_codegen_grammar::specs::FunctionPhrases::is_some_listed))]
fn part_before(tagged: bool, quasis: &[TplElement]) -> TemplatePart
    ensures { result ≡ part_before tagged quasis.now }
{
    TemplatePart {
        tagged,
        opens: !quasis.is_empty(),
    }
}

/// Whether there is one part more than expressions, or types.
pub(crate) fn is_counted<T>(nodes: &[T], quasis: &[TplElement]) -> bool
    ensures { result ≡ is_counted nodes.now quasis.now }
{
    !quasis.is_empty() && quasis.len() - 1 == nodes.len()
}

impl<N: LinkTarget> EmitAt for Tpl<N> {
    ghost items = { λ n place. tpl N.items (is_tagged (context_of place)) n };

    #[tactic(auto, unfolding(crate::specs::Templates::tpl, crate::specs::Templates::tpl_placed))]
    fn emit_at<W: WriteJs, S: SourceMapper, C: Comments>(
        &self,
        e: &mut Emitter<'_, W, S, C>,
        context: Context,
    ) {
        if !is_counted(&self.exprs, &self.quasis) {
            return e.bad_shape();
        }
        e.leading_comments(self.span.lo);
        e.start_of(self.span);
        e.tpl_exprs(is_tagged(context), &self.exprs, &self.quasis);
        e.end_of(self.span);
    }
}

/// Only the text of the part, as of a template without a tag: `b` of `` `a${c}b` ``. swc's
/// `emit_quasi`.
impl EmitAt for TplElement {
    ghost items = { λ n _. quasi n };

    #[tactic(auto, using(crate::proofs::Standings::refused_makes))]
    fn emit_at<W: WriteJs, S: SourceMapper, C: Comments>(
        &self,
        e: &mut Emitter<'_, W, S, C>,
        context: Context,
    ) {
        if e.refusal.is_some() {
            return;
        }
        keep(&mut e.refusal, e.lower.quasi(&e.cfg, &mut e.wr, self));
    }
}

impl<N: LinkTarget> EmitAt for TaggedTpl<N> {
    ghost items = { λ n _. tagged_tpl N.items n };

    #[tactic(auto, unfolding(crate::specs::Templates::tagged_tpl))]
    fn emit_at<W: WriteJs, S: SourceMapper, C: Comments>(
        &self,
        e: &mut Emitter<'_, W, S, C>,
        context: Context,
    ) {
        e.leading_comments(self.span.lo);
        e.start_of(self.span);
        self.tag.target().emit_at(e, Context::Callee);
        e.type_args(Context::Plain, &self.type_params);
        self.tpl.target().emit_at(e, Context::Tagged);
        e.end_of(self.span);
    }
}

impl<W: WriteJs, S: SourceMapper, C: Comments> Emitter<'_, W, S, C> {
    /// Comes to a node whose shape has no text.
    #[tactic(auto, using(crate::proofs::Standings::refused_makes), unfolding(crate::specs::Templates::bad_shape))]
    pub(crate) fn bad_shape(&mut self)
        ensures items { Performs bad_shape S.lines C.maps W.sheet self.old self.new }
    {
        if self.refusal.is_some() {
            return;
        }
        keep(
            &mut self.refusal,
            self.lower
                .refuse(&self.cfg, &self.wr, Unprintable::BadShape),
        );
    }

    /// Writes a part of a template, with the marks round it.
    #[inline(never)]
    #[tactic(auto, using(crate::proofs::Standings::refused_makes))]
    fn tpl_element(&mut self, first: bool, part: TemplatePart, node: &TplElement)
        ensures items { Performs (tpl_element first part node.now)
            S.lines C.maps W.sheet self.old self.new }
    {
        if self.refusal.is_some() {
            return;
        }
        keep(
            &mut self.refusal,
            self.lower
                .tpl_element(&self.cfg, &mut self.wr, first, part, node),
        );
    }

    /// Writes the parts of a template after the first, each behind an expression, or a type.
    #[tactic(auto, using(crate::proofs::Steps::tpl_next), unfolding(crate::specs::Templates::tpl_rest))]
    fn tpl_rest<T: EmitAt>(&mut self, tagged: bool, nodes: &[T], quasis: &[TplElement])
        ensures items { Performs (tpl_rest (plainly T.items) tagged nodes.now quasis.now)
            S.lines C.maps W.sheet self.old self.new }
    {
        let mut left = quasis;
        for node in nodes {
            let Some((quasi, others)) = left.split_first() else {
                return;
            };
            node.emit_at(self, Context::Plain);
            self.tpl_element(false, part_before(tagged, others), quasi);
            left = others;
        }
    }

    /// Writes the parts of a template.
    #[inline(always)]
    #[tactic(auto, unfolding(crate::specs::Templates::tpl_all))]
    fn tpl_all<T: EmitAt>(&mut self, tagged: bool, nodes: &[T], quasis: &[TplElement])
        ensures items { Performs (tpl_all (plainly T.items) tagged nodes.now quasis.now)
            S.lines C.maps W.sheet self.old self.new }
    {
        match quasis {
            [quasi, quasis @ ..] => {
                self.tpl_element(true, part_before(tagged, quasis), quasi);
                self.tpl_rest(tagged, nodes, quasis)
            }
            [] => {}
        }
    }

    /// Writes the parts of a template: no line may be ended in them.
    pub(crate) fn tpl_parts<T: EmitAt>(&mut self, tagged: bool, nodes: &[T], quasis: &[TplElement])
        ensures items { Performs (tpl_parts (plainly T.items) tagged nodes.now quasis.now)
            S.lines C.maps W.sheet self.old self.new }
    {
        let max_line = self.cfg.max_line;
        self.cfg.max_line = None;
        self.tpl_all(tagged, nodes, quasis);
        self.cfg.max_line = max_line;
    }

    /// Writes the parts of a template, with expressions between.
    fn tpl_exprs<N: LinkTarget>(
        &mut self,
        tagged: bool,
        exprs: &[ExprBox<N>],
        quasis: &[TplElement],
    )
        ensures items { Performs (tpl_parts (held N.items) tagged exprs.now quasis.now)
            S.lines C.maps W.sheet self.old self.new }
    {
        self.tpl_parts(tagged, exprs, quasis)
    }
}
