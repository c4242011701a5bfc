//! A writer that leaves semicolons out where `}` or `;` follows.

ghost use Rattle.std.specs.Prelude.{◌≡◌, false, true, None, Some, OnOk, IfErr};
ghost use Rattle.std.proofs.Props.{props};
ghost use Rattle.swc_ecma_codegen_common.specs.Refusals.{in_short};
ghost use Rattle.swc_ecma_codegen_text_writer.specs.Sheet.{holds_semicolons, is_ending, HoldsNone, Commit, Refuses};
ghost use Rattle.swc_ecma_codegen_text_writer.specs.PendingSemi.{with_held, IsSettled, Settles, WritesAtOnce};

use crate::WriteJs;
use swc_ecma_codegen_common::{BytePos, Error, Result, Span};

/// A semicolon that is held: its span, and whether a break was allowed since.
#[derive(Clone, Copy, Drop)]
pub struct HeldSemi {
    span: Option<Span>,
    allows_break: bool,
}

/// Holds each semicolon back until it knows what follows: before `}` and `;` it is left out, before all else it is
/// written first.
///
/// The calls `write_str("a")`, `write_semi`, `write_punct("}")` write `a}`; with `write_space` or `write_line` in place
/// of `write_punct("}")` they write `a;` and then the blank or the line's end. Of two semicolons in a row the first is
/// left out. `add_srcmap` passes a held semicolon by, and `commit_pending_semi` writes it. Where a break is allowed behind a
/// held semicolon, both wait: the break is allowed once the semicolon is out, and is left out if that is.
///
/// A call takes no memory of its own and is refused where the writer under it refuses: then a semicolon that was to be
/// written stays held, unless it is out. swc's `text_writer::semicolon::OmitTrailingSemi`.
#[derive(Drop)]
pub struct OmitTrailingSemi<W: WriteJs> {
    inner: W,
    pending: Option<HeldSemi>,
    ghost at_once: { WritesAtOnce (W.sheet inner) } by { Prim.hlevel props },
}

/// A writer that leaves semicolons out where `}` or `;` follows, over one that writes each at once: `a;}` is written
/// `a}`. swc's `text_writer::omit_trailing_semi`.
#[tactic(auto, unfolding(crate::specs::PendingSemi::with_held))]
pub fn omit_trailing_semi<W: WriteJs>(w: W) -> OmitTrailingSemi<W>
    requires { holds_semicolons (W.sheet w).semicolons ≡ false }
    ensures { with_held result.pending (W.sheet result.inner)
        ≡ record (W.sheet w) { semicolons = HoldsNone } }
{
    OmitTrailingSemi {
        inner: w,
        pending: None,
    }
}

/// Whether a semicolon isn't needed before a punctuator.
#[tactic(auto, unfolding(crate::specs::Sheet::is_ending))]
fn is_ending(text: &str) -> bool
    ensures { result ≡ is_ending text.now }
{
    text == "}" || text == ";"
}

impl<W: WriteJs> OmitTrailingSemi<W> {
    /// The writer under it. A semicolon that is held is left out.
    pub fn into_inner(self) -> W
        ensures sheet { with_held self.pending (W.sheet result)
            ≡ with_held self.pending (W.sheet self.inner) }
        ensures at_once { WritesAtOnce (W.sheet result) }
    {
        let OmitTrailingSemi { inner, pending: _ } = self;
        inner
    }

    /// Writes the semicolon that is held.
    fn settle(&mut self) -> Result
        ensures settles { Settles (with_held self.old.pending (W.sheet self.old.inner))
            (with_held self.new.pending (W.sheet self.new.inner)) (in_short result) }
        ensures none { OnOk result (self.new.pending ≡ None) }
    {
        if let Some(semi) = self.pending {
            self.write_held(semi)?;
            self.pending = None;
        }
        Ok(())
    }

    /// Writes a semicolon that is held, and allows the break that was kept with it. It stays held until that is done.
    fn write_held(&mut self, semi: HeldSemi) -> Result
        requires { self.old.pending ≡ Some semi }
        ensures ok { OnOk result (IsSettled (with_held (Some semi) (W.sheet self.old.inner))
            (with_held None (W.sheet self.new.inner))) }
        ensures err { IfErr (in_short result) (λ e. Refuses Commit e
            (with_held (Some semi) (W.sheet self.old.inner))
            (with_held (Some semi) (W.sheet self.new.inner))) }
        ensures same { self.new.pending ≡ self.old.pending }
    {
        self.inner.write_semi(semi.span)?;
        if semi.allows_break {
            return self.inner.allow_break();
        }
        Ok(())
    }
}

#[tactic(auto, using(crate::proofs::Semicolons::calls))]
impl<W: WriteJs> WriteJs for OmitTrailingSemi<W> {
    ghost sheet = { λ w. with_held w.pending (W.sheet w.inner) };

    ghost reason = { λ w. W.reason w.inner };

    fn increase_indent(&mut self) -> Result {
        self.settle()?;
        self.inner.increase_indent()
    }

    fn decrease_indent(&mut self) -> Result {
        self.settle()?;
        self.inner.decrease_indent()
    }

    fn write_semi(&mut self, span: Option<Span>) -> Result {
        // Nothing is written: it answers whether an earlier call was refused.
        self.inner.commit_pending_semi()?;
        self.pending = Some(HeldSemi {
            span,
            allows_break: false,
        });
        Ok(())
    }

    fn write_space(&mut self) -> Result {
        self.settle()?;
        self.inner.write_space()
    }

    fn write_keyword(&mut self, span: Option<Span>, s: &'static str) -> Result {
        self.settle()?;
        self.inner.write_keyword(span, s)
    }

    fn write_operator(&mut self, span: Option<Span>, s: &str) -> Result {
        self.settle()?;
        self.inner.write_operator(span, s)
    }

    fn write_param(&mut self, s: &str) -> Result {
        self.settle()?;
        self.inner.write_param(s)
    }

    fn write_property(&mut self, s: &str) -> Result {
        self.settle()?;
        self.inner.write_property(s)
    }

    fn write_line(&mut self) -> Result {
        self.settle()?;
        self.inner.write_line()
    }

    fn write_lit(&mut self, span: Span, s: &str) -> Result {
        self.settle()?;
        self.inner.write_lit(span, s)
    }

    fn write_comment(&mut self, s: &str) -> Result {
        self.settle()?;
        self.inner.write_comment(s)
    }

    fn write_str_lit(&mut self, span: Span, s: &str) -> Result {
        self.settle()?;
        self.inner.write_str_lit(span, s)
    }

    fn write_str(&mut self, s: &str) -> Result {
        self.settle()?;
        self.inner.write_str(s)
    }

    fn write_symbol(&mut self, span: Span, s: &str) -> Result {
        self.settle()?;
        self.inner.write_symbol(span, s)
    }

    fn write_punct(&mut self, span: Option<Span>, s: &'static str) -> Result {
        if is_ending(s) {
            self.inner.write_punct(span, s)?;
            self.pending = None;
            return Ok(());
        }
        self.settle()?;
        self.inner.write_punct(span, s)
    }

    #[tactic(auto, unfolding(crate::specs::PendingSemi::with_held))]
    fn care_about_srcmap(&self) -> bool {
        self.inner.care_about_srcmap()
    }

    fn add_srcmap(&mut self, pos: BytePos) -> Result {
        self.inner.add_srcmap(pos)
    }

    fn commit_pending_semi(&mut self) -> Result {
        self.settle()?;
        // Nothing is written: it answers whether an earlier call was refused.
        self.inner.commit_pending_semi()
    }

    fn begin_lines(&mut self, max: u32) -> Result {
        self.inner.begin_lines(max)
    }

    fn allow_break(&mut self) -> Result {
        if let Some(semi) = self.pending {
            // Nothing is written: it answers whether an earlier call was refused.
            self.inner.commit_pending_semi()?;
            self.pending = Some(HeldSemi {
                span: semi.span,
                allows_break: true,
            });
            return Ok(());
        }
        self.inner.allow_break()
    }

    fn end_lines(&mut self) -> Result {
        self.inner.end_lines()
    }

    #[tactic(auto, unfolding(crate::specs::PendingSemi::with_held))]
    fn can_ignore_invalid_unicodes(&mut self) -> bool {
        self.inner.can_ignore_invalid_unicodes()
    }

    #[tactic(auto, using(crate::proofs::Semicolons::none_held), unfolding(crate::specs::PendingSemi::with_held))]
    fn is_settled(&self) -> bool {
        self.pending.is_none()
    }

    #[inline(always)]
    #[tactic(auto, using(crate::proofs::Semicolons::text_passes, crate::proofs::Semicolons::at_once_settled, crate::proofs::Semicolons::kept), unfolding(crate::specs::PendingSemi::with_held))]
    fn writes_in_line(&mut self, s: &str) -> bool {
        self.inner.writes_in_line(s)
    }

    #[tactic(auto, unfolding(crate::specs::PendingSemi::with_held))]
    fn take_reason(&mut self) -> Error {
        self.inner.take_reason()
    }

    #[tactic(auto, using(crate::proofs::Semicolons::held_back), unfolding(crate::specs::PendingSemi::with_held))]
    fn holds_semi(&self) -> bool {
        true
    }
}
