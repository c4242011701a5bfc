//! Literals.
//!
//! Calls of the lower emitter that spell a text are never inlined: each needs more of the stack
//! than others, which would be part of the frames that are there once for each level of a tree.

ghost use Rattle.std.specs.Prelude.{◌≡◌};
ghost use Rattle.swc_ecma_codegen_emit.specs.Standing.{Performs};
ghost use Rattle.swc_ecma_codegen_tokens.specs.Lits.{str_lit, bool_node, null_lit, number_lit, number_object, big_int_lit, regex_lit, lit};
ghost use Rattle.swc_ecma_codegen_emit.specs.Lits.{lit_at, is_object, is_number_object};
ghost use Rattle.swc_ecma_codegen_emit.specs.Places.{in_context};

use crate::emitter::Emitter;
use crate::nodes::{Context, EmitAt};
use crate::refusals::keep;
use swc_ecma_codegen_common::BytePos;
use swc_ecma_codegen_grammar::comments::Comments;
use swc_ecma_codegen_grammar::mapper::SourceMapper;
use swc_ecma_codegen_text_writer::WriteJs;
use swc_ecma_codegen_tree::{BigInt, Bool, Lit, Null, Number, Regex, Str};

/// Whether a member's object stands there.
#[tactic(auto, unfolding(crate::specs::Lits::is_object))]
fn is_object(context: Context) -> bool
    ensures { result ≡ is_object context }
{
    match context {
        Context::Object | Context::DottedObject(_) => true,
        _ => false,
    }
}

/// Whether it is a number that is an object, as `10` of `10..x`.
#[tactic(auto, unfolding(crate::specs::Lits::is_number_object))]
pub(crate) fn is_number_object(node: &Lit, context: Context) -> bool
    ensures { result ≡ is_number_object node.now context }
{
    match node {
        Lit::Num(_) => is_object(context),
        _ => false,
    }
}

impl EmitAt for Lit {
    ghost items = { λ n. in_context (lit_at n) };

    #[tactic(auto, unfolding(crate::specs::Lits::lit_at))]
    fn emit_at<W: WriteJs, S: SourceMapper, C: Comments>(
        &self,
        e: &mut Emitter<'_, W, S, C>,
        context: Context,
    ) {
        match (self, context) {
            (Lit::Num(node), Context::Object) => e.number_lit(node),
            (Lit::Num(node), Context::DottedObject(prop)) => { e.number_object(node, prop) }
            (Lit::JSXText(node), _) => e.jsx_text_lit(node),
            _ => e.lit(self),
        }
    }
}

impl EmitAt for Str {
    ghost items = { λ n _. str_lit n };

    #[tactic(auto, using(crate::proofs::Standings::refused_makes))]
    fn emit_at<W: WriteJs, S: SourceMapper, C: Comments>(
        &self,
        e: &mut Emitter<'_, W, S, C>,
        context: Context,
    ) {
        if e.refusal.is_some() {
            return;
        }
        keep(
            &mut e.refusal,
            e.lower.str_lit(&e.cfg, &mut e.comments, &mut e.wr, self),
        );
    }
}

impl EmitAt for Bool {
    ghost items = { λ n _. bool_node n };

    #[tactic(auto, using(crate::proofs::Standings::refused_makes))]
    fn emit_at<W: WriteJs, S: SourceMapper, C: Comments>(
        &self,
        e: &mut Emitter<'_, W, S, C>,
        context: Context,
    ) {
        if e.refusal.is_some() {
            return;
        }
        keep(
            &mut e.refusal,
            e.lower.bool_node(&e.cfg, &mut e.comments, &mut e.wr, self),
        );
    }
}

impl EmitAt for Null {
    ghost items = { λ n _. null_lit n };

    #[tactic(auto, using(crate::proofs::Standings::refused_makes))]
    fn emit_at<W: WriteJs, S: SourceMapper, C: Comments>(
        &self,
        e: &mut Emitter<'_, W, S, C>,
        context: Context,
    ) {
        if e.refusal.is_some() {
            return;
        }
        keep(&mut e.refusal, e.lower.null_lit(&e.cfg, &mut e.wr, self));
    }
}

impl EmitAt for Number {
    ghost items = { λ n _. number_lit n };

    fn emit_at<W: WriteJs, S: SourceMapper, C: Comments>(
        &self,
        e: &mut Emitter<'_, W, S, C>,
        context: Context,
    ) {
        e.number_lit(self)
    }
}

impl EmitAt for BigInt {
    ghost items = { λ n _. big_int_lit n };

    #[tactic(auto, using(crate::proofs::Standings::refused_makes))]
    fn emit_at<W: WriteJs, S: SourceMapper, C: Comments>(
        &self,
        e: &mut Emitter<'_, W, S, C>,
        context: Context,
    ) {
        if e.refusal.is_some() {
            return;
        }
        keep(
            &mut e.refusal,
            e.lower
                .big_int_lit(&e.cfg, &mut e.comments, &mut e.wr, self),
        );
    }
}

impl EmitAt for Regex {
    ghost items = { λ n _. regex_lit n };

    #[tactic(auto, using(crate::proofs::Standings::refused_makes))]
    fn emit_at<W: WriteJs, S: SourceMapper, C: Comments>(
        &self,
        e: &mut Emitter<'_, W, S, C>,
        context: Context,
    ) {
        if e.refusal.is_some() {
            return;
        }
        keep(&mut e.refusal, e.lower.regex_lit(&e.cfg, &mut e.wr, self));
    }
}

impl<W: WriteJs, S: SourceMapper, C: Comments> Emitter<'_, W, S, C> {
    /// Writes a literal.
    #[inline(never)]
    #[tactic(auto, using(crate::proofs::Standings::refused_makes))]
    fn lit(&mut self, node: &Lit)
        ensures items { Performs (lit node.now) S.lines C.maps W.sheet self.old self.new }
    {
        if self.refusal.is_some() {
            return;
        }
        keep(
            &mut self.refusal,
            self.lower
                .lit(&self.cfg, &mut self.comments, &mut self.wr, node),
        );
    }

    /// Writes a number.
    #[inline(never)]
    #[tactic(auto, using(crate::proofs::Standings::refused_makes))]
    fn number_lit(&mut self, node: &Number)
        ensures items { Performs (number_lit node.now) S.lines C.maps W.sheet self.old self.new }
    {
        if self.refusal.is_some() {
            return;
        }
        keep(
            &mut self.refusal,
            self.lower
                .number_lit(&self.cfg, &mut self.comments, &mut self.wr, node),
        );
    }

    /// Writes a number before the dot of a property, which stands at `prop`: with a dot of its own,
    /// where the other one would be its.
    #[inline(never)]
    #[tactic(auto, using(crate::proofs::Standings::refused_makes))]
    fn number_object(&mut self, node: &Number, prop: BytePos)
        ensures items { Performs (number_object node.now prop)
            S.lines C.maps W.sheet self.old self.new }
    {
        if self.refusal.is_some() {
            return;
        }
        keep(
            &mut self.refusal,
            self.lower
                .number_object(&self.cfg, &mut self.comments, &mut self.wr, node, prop),
        );
    }
}
