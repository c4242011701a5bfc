//! Names: a name, the key of a property, a private name.

ghost use Rattle.std.specs.Prelude.{◌≡◌, true, false};
ghost use Rattle.swc_ecma_codegen_grammar.specs.Comments.{maps_in};
ghost use Rattle.swc_ecma_codegen_tokens.specs.Starts.{begins_name};
ghost use Rattle.swc_ecma_codegen_tokens.specs.PrivateNames.{private_name};
ghost use Rattle.swc_ecma_codegen_emit.specs.Commented.{has_comment_at};
ghost use Rattle.swc_ecma_codegen_emit.specs.Standing.{Performs};
ghost use Rattle.swc_ecma_codegen_tokens.specs.Words.{name};
ghost use Rattle.swc_ecma_codegen_tokens.specs.Keys.{key};

use crate::emitter::Emitter;
use crate::refusals::{keep, keep_reason};
use swc_ecma_codegen_common::Span;
use swc_ecma_codegen_grammar::comments::Comments;
use swc_ecma_codegen_grammar::mapper::SourceMapper;
use swc_ecma_codegen_text_writer::WriteJs;
use swc_ecma_codegen_tokens::{begins_name, leads};

impl<W: WriteJs, S: SourceMapper, C: Comments> Emitter<'_, W, S, C> {
    /// Writes a name that is the key of a property, with its comments. Never inlined: what spells
    /// it needs more of the stack than others, which would be part of the frames that are there
    /// once for each level of a tree.
    #[inline(never)]
    #[tactic(auto, using(crate::proofs::Standings::refused_makes))]
    pub(crate) fn key(&mut self, span: Span, sym: &str)
        ensures items { Performs (key span sym.now) S.lines C.maps W.sheet self.old self.new }
    {
        if self.refusal.is_some() {
            return;
        }
        keep(
            &mut self.refusal,
            self.lower
                .key(&self.cfg, &mut self.comments, &mut self.wr, span, sym),
        );
    }

    /// Writes a name with its comments. Never inlined, since what it calls is: so a name takes one
    /// call. Mostly it is a text alone.
    #[inline(never)]
    #[tactic(auto, unfolding(crate::specs::Commented::has_comment_at))]
    pub(crate) fn name(&mut self, span: Span, sym: &str, optional: bool)
        ensures items { Performs (name span sym.now optional)
            S.lines C.maps W.sheet self.old self.new }
    {
        if self.wr.care_about_srcmap() || leads(&self.comments, span.lo) || optional {
            return self.name_anyhow(span, sym, optional);
        }
        if !begins_name(sym) {
            return self.name_anyhow(span, sym, optional);
        }
        self.name_alone(span, sym, optional)
    }

    /// Writes a name where no positions are kept, no comments stand before it, and no `?` is
    /// written.
    #[inline(never)]
    #[tactic(auto, using(crate::proofs::Standings::refused_makes), unfolding(crate::specs::Commented::has_comment_at))]
    fn name_alone(&mut self, span: Span, sym: &str, optional: bool)
        requires unplaced { (W.sheet self.old.wr).keeps_positions ≡ false }
        requires uncommented { has_comment_at span (maps_in C.maps self.old.comments) ≡ false }
        requires single { optional ≡ false }
        requires begins { begins_name sym.now ≡ true }
        ensures items { Performs (name span sym.now optional)
            S.lines C.maps W.sheet self.old self.new }
    {
        if self.refusal.is_some() {
            return;
        }
        if !self.lower.stands_alone(&self.cfg, &mut self.wr, sym) {
            return self.name_anyhow(span, sym, optional);
        }
        let done = self.lower.writes_alone(
            &self.cfg,
            &mut self.comments,
            &mut self.wr,
            span,
            sym,
            optional,
        );
        keep_reason(&mut self.refusal, done, &self.lower);
    }

    /// Writes a name, whatever stands round it.
    #[inline(never)]
    #[tactic(auto, using(crate::proofs::Standings::refused_makes))]
    fn name_anyhow(&mut self, span: Span, sym: &str, optional: bool)
        ensures items { Performs (name span sym.now optional)
            S.lines C.maps W.sheet self.old self.new }
    {
        if self.refusal.is_some() {
            return;
        }
        let done = self.lower.writes_name(
            &self.cfg,
            &mut self.comments,
            &mut self.wr,
            span,
            sym,
            optional,
        );
        keep_reason(&mut self.refusal, done, &self.lower);
    }

    /// Writes a private name with its comments.
    #[tactic(auto, using(crate::proofs::Standings::refused_makes))]
    pub(crate) fn private_name(&mut self, span: Span, name: &str)
        ensures items { Performs (private_name span name.now)
            S.lines C.maps W.sheet self.old self.new }
    {
        if self.refusal.is_some() {
            return;
        }
        keep(
            &mut self.refusal,
            self.lower
                .private_name(&self.cfg, &mut self.comments, &mut self.wr, span, name),
        );
    }
}
