//! Parts of templates.

ghost use Rattle.std.specs.Prelude.{◌≡◌, OnOk, IfOk, IfErr, [], ◌∷◌, None, true, false, string_bytes};
ghost use Rattle.std.specs.Cow.{cow_str_bytes};
ghost use Rattle.std.specs.Str.{chars, encode_utf8_all};
ghost use Rattle.swc_ecma_codegen_common.specs.declared.errors.Error.TheVariants.{OutOfMemory};
ghost use Rattle.swc_ecma_codegen_spans.specs.Spans.{dummy_span};
ghost use Rattle.swc_ecma_codegen_grammar.specs.Templates.{part_end as end_of_part};
ghost use Rattle.swc_ecma_codegen_grammar.specs.TemplatePhrases as phrases;
ghost use Rattle.swc_ecma_codegen_grammar.specs.TemplatePhrases.{part_begin as begin_of_part};
ghost use Rattle.swc_ecma_codegen_grammar.specs.Texts.{begins};
ghost use Rattle.swc_ecma_codegen_text_writer.specs.Sheet.{StrLit, Punct};
ghost use Rattle.swc_ecma_codegen_literals.specs.ValidNames.{has_byte};
ghost use Rattle.swc_ecma_codegen_tokens.specs.Adds.{AddsList};
ghost use Rattle.swc_ecma_codegen_tokens.specs.Run.{Does, step, Plain, Ends, Stays};
ghost use Rattle.swc_ecma_codegen_tokens.specs.Templates.{with_line_feeds, is_respelled, cooked_text, makes_cooked, inside, placed_inside, closed, part_by, cooked_part, tpl_element, quasi};
ghost use Rattle.swc_ecma_codegen_tokens.specs.View.{state_of};

use crate::LowerEmitter;
use crate::guard::REFUSED;
use crate::previous::PreviousToken;
use crate::raws::is_ascii;
use crate::starts::{StartClass, split_first_char};
use std::alloc::{AllocError, Global};
use std::borrow::CowStr;
use swc_ecma_codegen_common::{Answer, DUMMY_SP, Error, Refusal, Span};
use swc_ecma_codegen_grammar::kinds::TemplatePart;
use swc_ecma_codegen_literals::template_from_raw;
use swc_ecma_codegen_settings::config::Config;
use swc_ecma_codegen_text_writer::WriteJs;
use swc_ecma_codegen_tree::TplElement;

fn holds_carriage_return(raw: &str) -> bool
    ensures { result ≡ has_byte 13 raw.now }
{
    raw.as_bytes().contains(&b'\r')
}

/// Whether a text begins with LF.
#[tactic(auto, unfolding(swc_ecma_codegen_grammar::specs::Texts::begins))]
fn begins_line_feed(text: &str) -> bool
    ensures { result ≡ begins (10 ∷ []) (chars text.now) }
{
    match split_first_char(text) {
        Some((first, _)) => first == '\n',
        None => false,
    }
}

/// CR LF and CR as LF.
fn with_line_feeds(alloc: Global, raw: &str) -> std::result::Result<String, AllocError>
    ensures { IfOk result (λ text. string_bytes text
        ≡ encode_utf8_all (with_line_feeds (chars raw.now))) }
{
    let mut text = String::with_capacity(alloc, raw.len())?;
    let mut rest = raw;
    while let Some((c, more)) = split_first_char(rest) {
        if c != '\r' {
            text.push(c)?;
        } else if !begins_line_feed(more) {
            text.push('\n')?;
        }
        rest = more;
    }
    Ok(text)
}

/// Whether an escape that isn't needed goes, and what isn't ASCII is escaped.
#[tactic(auto, unfolding(crate::specs::Templates::is_respelled))]
fn is_respelled(cfg: &Config, raw: &str) -> bool
    ensures { result ≡ is_respelled cfg.now raw.now }
{
    cfg.minify || (cfg.ascii_only && !is_ascii(raw))
}

/// The text of a part of a template without a tag. `Error::OutOfMemory` where there is no room for it; a raw is lent.
#[tactic(auto, using(crate::proofs::LiteralTokens::LineFeeds::without_returns), unfolding(crate::specs::Templates::cooked_chars, crate::specs::Templates::makes_cooked))]
fn cooked_text<'a>(
    alloc: Global,
    cfg: &Config,
    raw: &'a str,
) -> std::result::Result<CowStr<'a>, Error>
    ensures exactly { IfOk result (λ text. cow_str_bytes text ≡ cooked_text cfg.now raw.now) }
    ensures refused { IfErr result (λ error. error ≡ OutOfMemory) }
    ensures due { IfErr result (λ error. makes_cooked cfg.now raw.now ≡ true) }
{
    if is_respelled(cfg, raw) {
        Ok(CowStr::Owned(template_from_raw(alloc, raw, cfg.ascii_only)?))
    } else if holds_carriage_return(raw) {
        Ok(CowStr::Owned(with_line_feeds(alloc, raw)?))
    } else {
        Ok(CowStr::Borrowed(raw))
    }
}

/// How a part of a template begins.
#[tactic(auto, unfolding(swc_ecma_codegen_grammar::specs::TemplatePhrases::part_begin))]
fn part_begin(first: bool) -> &'static str
    ensures { result.now ≡ begin_of_part first }
{
    if first { "`" } else { "}" }
}

/// How it ends.
#[tactic(auto, unfolding(swc_ecma_codegen_grammar::specs::Templates::part_end))]
fn part_end(part: TemplatePart) -> &'static str
    ensures { result.now ≡ end_of_part part }
{
    if part.opens { "${" } else { "`" }
}

impl LowerEmitter {
    /// The call of the mark with which a part begins.
    #[inline(never)]
    fn put_begin<W: WriteJs>(&mut self, cfg: &Config, wr: &mut W, first: bool) -> Answer
        ensures items { Does (step (Plain (Punct None (begin_of_part first))))
            (state_of cfg.now (W.sheet wr.old) self.old)
            (state_of cfg.now (W.sheet wr.new) self.new) result }
        ensures level { Stays (W.sheet wr.old) (W.sheet wr.new) result }
        ensures fresh { OnOk result (self.new.failed ≡ false) }
    {
        let _ = cfg;
        if self.failed {
            return Err(Refusal::Failed);
        }
        let answer = wr.write_punct(None, part_begin(first));
        self.keep(answer)
    }

    /// The call of what stands inside of a part of a template without a tag.
    #[inline(never)]
    fn put_cooked<W: WriteJs>(&mut self, cfg: &Config, wr: &mut W, text: &str) -> Answer
        requires { self.old.failed ≡ false }
        ensures items { Does (step (Plain (StrLit dummy_span text.now)))
            (state_of cfg.now (W.sheet wr.old) self.old)
            (state_of cfg.now (W.sheet wr.new) self.new) result }
        ensures level { Stays (W.sheet wr.old) (W.sheet wr.new) result }
        ensures fresh { OnOk result (self.new.failed ≡ false) }
    {
        let _ = cfg;
        let answer = wr.write_str_lit(DUMMY_SP, text);
        self.keep(answer)
    }

    /// The same of a template with a tag.
    #[inline(never)]
    fn put_raw<W: WriteJs>(&mut self, cfg: &Config, wr: &mut W, text: &str) -> Answer
        requires { self.old.failed ≡ false }
        ensures items { Does (step (Ends [] (StrLit dummy_span text.now)))
            (state_of cfg.now (W.sheet wr.old) self.old)
            (state_of cfg.now (W.sheet wr.new) self.new) result }
        ensures level { Stays (W.sheet wr.old) (W.sheet wr.new) result }
        ensures fresh { OnOk result (self.new.failed ≡ false) }
    {
        let _ = cfg;
        let answer = wr.write_str_lit(DUMMY_SP, text);
        self.keep(answer)
    }

    /// The call of the mark with which a part ends.
    #[inline(never)]
    fn put_end<W: WriteJs>(
        &mut self,
        cfg: &Config,
        wr: &mut W,
        first: bool,
        part: TemplatePart,
        text: &str,
    ) -> Answer
        requires { self.old.failed ≡ false }
        ensures items { Does (closed first part text.now)
            (state_of cfg.now (W.sheet wr.old) self.old)
            (state_of cfg.now (W.sheet wr.new) self.new) result }
        ensures level { Stays (W.sheet wr.old) (W.sheet wr.new) result }
    {
        let _ = cfg;
        let _ = first;
        let _ = text;
        let answer = wr.write_punct(None, part_end(part));
        self.settle(answer, PreviousToken::Whole)
    }

    /// Writes what stands inside of a part.
    #[tactic(auto, unfolding(crate::specs::Templates::inside))]
    fn part_inside<W: WriteJs>(
        &mut self,
        cfg: &Config,
        wr: &mut W,
        tagged: bool,
        text: &str,
    ) -> Answer
        requires { self.old.failed ≡ false }
        ensures items { Does (inside tagged text.now) (state_of cfg.now (W.sheet wr.old) self.old)
            (state_of cfg.now (W.sheet wr.new) self.new) result }
        ensures level { Stays (W.sheet wr.old) (W.sheet wr.new) result }
        ensures fresh { OnOk result (self.new.failed ≡ false) }
    {
        if tagged {
            self.put_raw(cfg, wr, text)
        } else {
            self.put_cooked(cfg, wr, text)
        }
    }

    /// The same between the positions of its begin and its end.
    #[tactic(auto, unfolding(crate::specs::Templates::placed_inside))]
    fn placed_inside<W: WriteJs>(
        &mut self,
        cfg: &Config,
        wr: &mut W,
        tagged: bool,
        span: Span,
        text: &str,
    ) -> Answer
        requires { self.old.failed ≡ false }
        ensures items { Does (placed_inside tagged span text.now)
            (state_of cfg.now (W.sheet wr.old) self.old)
            (state_of cfg.now (W.sheet wr.new) self.new) result }
        ensures level { Stays (W.sheet wr.old) (W.sheet wr.new) result }
        ensures fresh { OnOk result (self.new.failed ≡ false) }
    {
        self.position(cfg, wr, span.lo)?;
        self.part_inside(cfg, wr, tagged, text)?;
        self.position(cfg, wr, span.hi)?;
        Ok(())
    }

    /// Writes a part of a template by its text: one token.
    #[tactic(auto, unfolding(crate::specs::Templates::part_by, crate::specs::Templates::opened))]
    fn part_by<W: WriteJs>(
        &mut self,
        cfg: &Config,
        wr: &mut W,
        first: bool,
        part: TemplatePart,
        span: Span,
        text: &str,
    ) -> Answer
        ensures items { Does (part_by first part span text.now)
            (state_of cfg.now (W.sheet wr.old) self.old)
            (state_of cfg.now (W.sheet wr.new) self.new) result }
        ensures level { Stays (W.sheet wr.old) (W.sheet wr.new) result }
    {
        let begin = part_begin(first);
        self.guard(cfg, wr, begin, StartClass::of_text(begin))?;
        self.put_begin(cfg, wr, first)?;
        self.placed_inside(cfg, wr, part.tagged, span, text)?;
        self.put_end(cfg, wr, first, part, text)?;
        Ok(())
    }

    /// Writes a part of a template without a tag.
    fn cooked_part<W: WriteJs>(
        &mut self,
        cfg: &Config,
        wr: &mut W,
        first: bool,
        part: TemplatePart,
        n: &TplElement,
    ) -> Answer
        ensures items { Does (cooked_part first part n.now)
            (state_of cfg.now (W.sheet wr.old) self.old)
            (state_of cfg.now (W.sheet wr.new) self.new) result }
        ensures level { Stays (W.sheet wr.old) (W.sheet wr.new) result }
    {
        if self.failed {
            return Err(Refusal::Failed);
        }
        match cooked_text(self.alloc, cfg, &n.raw) {
            Ok(text) => self.part_by(cfg, wr, first, part, n.span, &text),
            Err(error) => {
                self.failed = true;
                self.row = REFUSED;
                Err(error.refusal())
            }
        }
    }

    /// Writes the text of a part of a template by itself, as of a template without a tag, and no mark round it: `b` of
    /// `` `a${c}b` ``. swc's `emit_quasi`.
    pub fn quasi<W: WriteJs>(&mut self, cfg: &Config, wr: &mut W, n: &TplElement) -> Answer
        ensures items { Does (quasi n.now) (state_of cfg.now (W.sheet wr.old) self.old)
            (state_of cfg.now (W.sheet wr.new) self.new) result }
        ensures level { Stays (W.sheet wr.old) (W.sheet wr.new) result }
    {
        if self.failed {
            return Err(Refusal::Failed);
        }
        match cooked_text(self.alloc, cfg, &n.raw) {
            Ok(text) => self.placed_inside(cfg, wr, false, n.span, &text),
            Err(error) => {
                self.failed = true;
                self.row = REFUSED;
                Err(error.refusal())
            }
        }
    }

    /// Writes a part of a template, with the marks round it. swc's `emit_quasi`, and of a template with a tag
    /// `emit_template_element_for_tagged_template`.
    #[tactic(auto, unfolding(crate::specs::Templates::tpl_element))]
    pub fn tpl_element<W: WriteJs>(
        &mut self,
        cfg: &Config,
        wr: &mut W,
        first: bool,
        part: TemplatePart,
        n: &TplElement,
    ) -> Answer
        ensures items { Does (tpl_element first part n.now)
            (state_of cfg.now (W.sheet wr.old) self.old)
            (state_of cfg.now (W.sheet wr.new) self.new) result }
        // The whole part reads as one token: `a${` of `` `a${b}` ``, whatever stands inside.
        ensures reads { AddsList (phrases.tpl_element first part n.now)
            cfg.now (W.sheet wr.old) self.old (W.sheet wr.new) self.new result }
        ensures level { Stays (W.sheet wr.old) (W.sheet wr.new) result }
    {
        if part.tagged {
            self.part_by(cfg, wr, first, part, n.span, &n.raw)
        } else {
            self.cooked_part(cfg, wr, first, part, n)
        }
    }
}
