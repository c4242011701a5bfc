//! Strings, regular expressions, the words `true`, `false` and `null`, and a literal as such.

ghost use Rattle.std.specs.Prelude.{◌≡◌, IfOk, IfErr, None, true, false, string_bytes};
ghost use Rattle.std.specs.Cow.{cow_str_bytes};
ghost use Rattle.swc_ecma_codegen_common.specs.declared.errors.Error.TheVariants.{OutOfMemory};
ghost use Rattle.swc_ecma_codegen_grammar.specs.Comments.{maps_in};
ghost use Rattle.swc_ecma_codegen_tokens.specs.Run.{DoesTaking, Does, Stays};
ghost use Rattle.swc_ecma_codegen_tokens.specs.Starts.{begins_letter};
ghost use Rattle.swc_ecma_codegen_tokens.specs.Literals.{begun, settled_begun};
ghost use Rattle.swc_ecma_codegen_tokens.specs.Lits.{begun_in, is_directive, takes_raw, prints_raw, value_text, string_text, directive_end, string_by, string_at, str_lit, bool_node, bool_text, bool_lit, null_lit, regex_lit, lit};
ghost use Rattle.swc_ecma_codegen_grammar.specs.LitPhrases as phrases;
ghost use Rattle.swc_ecma_codegen_tokens.specs.Adds.{AddsList, AddsTaking};
ghost use Rattle.swc_ecma_codegen_tokens.specs.View.{state_of};

use crate::LowerEmitter;
use crate::guard::REFUSED;
use crate::raws::{is_ascii, is_escaped, raw_text};
use crate::starts::StartClass;
use std::alloc::Global;
use std::borrow::CowStr;
use swc_ecma_codegen_common::{Answer, Error, Refusal, Span};
use swc_ecma_codegen_grammar::comments::Comments;
use swc_ecma_codegen_literals::{quoted_for_inline_script, quoted_utf16};
use swc_ecma_codegen_settings::config::Config;
use swc_ecma_codegen_text_writer::WriteJs;
use swc_ecma_codegen_tree::{Bool, Lit, Null, Regex, Str};

/// Whether it is a directive with a backslash, which is printed as it was spelled: `'use\x20strict'`.
#[inline(always)]
#[tactic(auto, unfolding(crate::specs::Lits::is_directive))]
fn is_directive(n: &Str) -> bool
    ensures { result ≡ is_directive n.now }
{
    n.value.as_str() == "use strict" && is_escaped(&n.raw)
}

/// Whether the settings take its raw as it is.
#[inline(always)]
#[tactic(auto, unfolding(crate::specs::Lits::takes_raw, crate::specs::Lits::raw_is))]
fn takes_raw(cfg: &Config, n: &Str) -> bool
    ensures { result ≡ takes_raw cfg.now n.now }
{
    match &n.raw {
        Some(raw) => !cfg.minify && (!cfg.ascii_only || is_ascii(raw.as_str())),
        None => false,
    }
}

#[inline(always)]
#[tactic(auto, unfolding(crate::specs::Lits::prints_raw))]
fn prints_raw(cfg: &Config, n: &Str) -> bool
    ensures { result ≡ prints_raw cfg.now n.now }
{
    is_directive(n) || takes_raw(cfg, n)
}

/// A string by its value: `"a"`.
#[tactic(auto, unfolding(crate::specs::Lits::value_text))]
fn value_text(alloc: Global, cfg: &Config, value: &str) -> std::result::Result<String, Error>
    ensures exactly { IfOk result (λ text. string_bytes text ≡ value_text cfg.now value.now) }
    ensures refused { IfErr result (λ error. error ≡ OutOfMemory) }
{
    if cfg.inline_script {
        quoted_for_inline_script(alloc, value, cfg.ascii_only, cfg.target)
    } else {
        quoted_utf16(alloc, value, cfg.ascii_only, cfg.target)
    }
}

/// A string as it is spelled. `Error::OutOfMemory` where there is no room for its text; a raw is lent.
#[tactic(auto, unfolding(crate::specs::Lits::string_text))]
fn string_text<'a>(
    alloc: Global,
    cfg: &Config,
    n: &'a Str,
) -> std::result::Result<CowStr<'a>, Error>
    ensures exactly { IfOk result (λ text. cow_str_bytes text ≡ string_text cfg.now n.now) }
    ensures refused { IfErr result (λ error. error ≡ OutOfMemory) }
    ensures due { IfErr result (λ error. prints_raw cfg.now n.now ≡ false) }
{
    if prints_raw(cfg, n) {
        Ok(CowStr::Borrowed(raw_text(&n.raw)))
    } else {
        Ok(CowStr::Owned(value_text(alloc, cfg, n.value.as_str())?))
    }
}

#[tactic(auto, unfolding(crate::specs::Lits::bool_text))]
fn bool_text(value: bool) -> &'static str
    ensures text { result.now ≡ bool_text value }
    ensures letter { begins_letter result.now ≡ true }
{
    if value { "true" } else { "false" }
}

impl LowerEmitter {
    /// A literal begins with its comments, the blank that is due before its text, and its position.
    #[inline(always)]
    #[tactic(auto, unfolding(crate::specs::Literals::begun))]
    pub(crate) fn begun<W: WriteJs, C: Comments>(
        &mut self,
        cfg: &Config,
        comments: &mut Option<C>,
        wr: &mut W,
        span: Span,
        text: &str,
    ) -> Answer
        ensures items { DoesTaking (begun span text.now) (maps_in C.maps comments.old)
            (maps_in C.maps comments.new) (state_of cfg.now (W.sheet wr.old) self.old)
            (state_of cfg.now (W.sheet wr.new) self.new) result }
        ensures level { Stays (W.sheet wr.old) (W.sheet wr.new) result }
    {
        self.leading_comments(cfg, comments, wr, span.lo)?;
        self.guard(cfg, wr, text, StartClass::of_literal(text))?;
        self.position(cfg, wr, span.lo)?;
        Ok(())
    }

    /// The same after a semicolon that is held back.
    #[inline(always)]
    #[tactic(auto, unfolding(crate::specs::Literals::settled_begun))]
    pub(crate) fn settled_begun<W: WriteJs, C: Comments>(
        &mut self,
        cfg: &Config,
        comments: &mut Option<C>,
        wr: &mut W,
        span: Span,
        text: &str,
    ) -> Answer
        ensures items { DoesTaking (settled_begun span text.now) (maps_in C.maps comments.old)
            (maps_in C.maps comments.new) (state_of cfg.now (W.sheet wr.old) self.old)
            (state_of cfg.now (W.sheet wr.new) self.new) result }
        ensures level { Stays (W.sheet wr.old) (W.sheet wr.new) result }
    {
        self.commit_pending_semi(cfg, wr)?;
        self.begun(cfg, comments, wr, span, text)?;
        Ok(())
    }

    /// A literal that is one of its own sort begins as a `Lit` first, where it is in one.
    #[inline(always)]
    #[tactic(auto, unfolding(crate::specs::Lits::begun_in))]
    pub(crate) fn begun_in<W: WriteJs, C: Comments>(
        &mut self,
        cfg: &Config,
        comments: &mut Option<C>,
        wr: &mut W,
        span: Span,
        text: &str,
        in_lit: bool,
    ) -> Answer
        ensures items { DoesTaking (begun_in in_lit span text.now) (maps_in C.maps comments.old)
            (maps_in C.maps comments.new) (state_of cfg.now (W.sheet wr.old) self.old)
            (state_of cfg.now (W.sheet wr.new) self.new) result }
        ensures level { Stays (W.sheet wr.old) (W.sheet wr.new) result }
    {
        if in_lit {
            self.begun(cfg, comments, wr, span, text)?;
        }
        Ok(())
    }

    /// The end of a directive is recorded.
    #[inline(always)]
    #[tactic(auto, unfolding(crate::specs::Lits::directive_end))]
    fn directive_end<W: WriteJs>(&mut self, cfg: &Config, wr: &mut W, n: &Str) -> Answer
        ensures items { Does (directive_end n.now) (state_of cfg.now (W.sheet wr.old) self.old)
            (state_of cfg.now (W.sheet wr.new) self.new) result }
        ensures level { Stays (W.sheet wr.old) (W.sheet wr.new) result }
    {
        if is_directive(n) {
            self.position(cfg, wr, n.span.hi)?;
        }
        Ok(())
    }

    /// Writes a string by its text.
    #[inline(always)]
    #[tactic(auto, unfolding(crate::specs::Lits::string_by))]
    fn string_by<W: WriteJs, C: Comments>(
        &mut self,
        cfg: &Config,
        comments: &mut Option<C>,
        wr: &mut W,
        n: &Str,
        text: &str,
        in_lit: bool,
    ) -> Answer
        ensures items { DoesTaking (string_by in_lit n.now text.now) (maps_in C.maps comments.old)
            (maps_in C.maps comments.new) (state_of cfg.now (W.sheet wr.old) self.old)
            (state_of cfg.now (W.sheet wr.new) self.new) result }
        ensures level { Stays (W.sheet wr.old) (W.sheet wr.new) result }
    {
        self.begun_in(cfg, comments, wr, n.span, text, in_lit)?;
        self.settled_begun(cfg, comments, wr, n.span, text)?;
        self.string(cfg, wr, text)?;
        self.directive_end(cfg, wr, n)?;
        Ok(())
    }

    /// Writes a string, in a `Lit` or not.
    #[inline(always)]
    fn string_at<W: WriteJs, C: Comments>(
        &mut self,
        cfg: &Config,
        comments: &mut Option<C>,
        wr: &mut W,
        n: &Str,
        in_lit: bool,
    ) -> Answer
        ensures items { DoesTaking (string_at in_lit n.now) (maps_in C.maps comments.old)
            (maps_in C.maps comments.new) (state_of cfg.now (W.sheet wr.old) self.old)
            (state_of cfg.now (W.sheet wr.new) self.new) result }
        ensures level { Stays (W.sheet wr.old) (W.sheet wr.new) result }
    {
        if self.failed {
            return Err(Refusal::Failed);
        }
        match string_text(self.alloc, cfg, n) {
            Ok(text) => self.string_by(cfg, comments, wr, n, &text, in_lit),
            Err(error) => {
                self.failed = true;
                self.row = REFUSED;
                Err(error.refusal())
            }
        }
    }

    /// Writes a string: by its raw, where the settings take it, else by its value. swc's `emit_str_lit`.
    pub fn str_lit<W: WriteJs, C: Comments>(
        &mut self,
        cfg: &Config,
        comments: &mut Option<C>,
        wr: &mut W,
        n: &Str,
    ) -> Answer
        ensures items { DoesTaking (str_lit n.now) (maps_in C.maps comments.old)
            (maps_in C.maps comments.new) (state_of cfg.now (W.sheet wr.old) self.old)
            (state_of cfg.now (W.sheet wr.new) self.new) result }
        ensures reads { AddsTaking (phrases.str_lit n.now) (str_lit n.now)
            (maps_in C.maps comments.old)
            cfg.now (W.sheet wr.old) self.old (W.sheet wr.new) self.new result }
        ensures level { Stays (W.sheet wr.old) (W.sheet wr.new) result }
    {
        self.string_at(cfg, comments, wr, n, false)
    }

    /// Writes `true` or `false`.
    #[tactic(auto, unfolding(crate::specs::Lits::bool_lit))]
    pub fn bool_lit<W: WriteJs>(&mut self, cfg: &Config, wr: &mut W, n: &Bool) -> Answer
        ensures items { Does (bool_lit n.now) (state_of cfg.now (W.sheet wr.old) self.old)
            (state_of cfg.now (W.sheet wr.new) self.new) result }
        ensures reads { AddsList (phrases.bool_lit n.now)
            cfg.now (W.sheet wr.old) self.old (W.sheet wr.new) self.new result }
        ensures level { Stays (W.sheet wr.old) (W.sheet wr.new) result }
    {
        self.keyword(cfg, wr, None, bool_text(n.value))?;
        Ok(())
    }

    /// Writes `true` or `false` as a node of its own, with the comments before it. swc's `emit_bool`.
    #[tactic(auto, unfolding(crate::specs::Lits::bool_node))]
    pub fn bool_node<W: WriteJs, C: Comments>(
        &mut self,
        cfg: &Config,
        comments: &mut Option<C>,
        wr: &mut W,
        n: &Bool,
    ) -> Answer
        ensures items { DoesTaking (bool_node n.now) (maps_in C.maps comments.old)
            (maps_in C.maps comments.new) (state_of cfg.now (W.sheet wr.old) self.old)
            (state_of cfg.now (W.sheet wr.new) self.new) result }
        ensures reads { AddsTaking (phrases.bool_lit n.now) (bool_node n.now)
            (maps_in C.maps comments.old)
            cfg.now (W.sheet wr.old) self.old (W.sheet wr.new) self.new result }
        ensures level { Stays (W.sheet wr.old) (W.sheet wr.new) result }
    {
        self.leading_comments(cfg, comments, wr, n.span.lo)?;
        self.keyword(cfg, wr, Some(n.span), bool_text(n.value))?;
        Ok(())
    }

    /// Writes `null`.
    #[tactic(auto, unfolding(crate::specs::Lits::null_lit))]
    pub fn null_lit<W: WriteJs>(&mut self, cfg: &Config, wr: &mut W, n: &Null) -> Answer
        ensures items { Does (null_lit n.now) (state_of cfg.now (W.sheet wr.old) self.old)
            (state_of cfg.now (W.sheet wr.new) self.new) result }
        ensures reads { AddsList (phrases.null_lit n.now)
            cfg.now (W.sheet wr.old) self.old (W.sheet wr.new) self.new result }
        ensures level { Stays (W.sheet wr.old) (W.sheet wr.new) result }
    {
        let _ = n;
        self.keyword(cfg, wr, None, "null")?;
        Ok(())
    }

    /// Writes a regular expression.
    #[tactic(auto, unfolding(crate::specs::Lits::regex_lit))]
    pub fn regex_lit<W: WriteJs>(&mut self, cfg: &Config, wr: &mut W, n: &Regex) -> Answer
        ensures items { Does (regex_lit n.now) (state_of cfg.now (W.sheet wr.old) self.old)
            (state_of cfg.now (W.sheet wr.new) self.new) result }
        ensures reads { AddsList (phrases.regex n.now)
            cfg.now (W.sheet wr.old) self.old (W.sheet wr.new) self.new result }
        ensures level { Stays (W.sheet wr.old) (W.sheet wr.new) result }
    {
        self.regex(cfg, wr, n.exp.as_str(), n.flags.as_str())?;
        Ok(())
    }

    /// Writes a literal, by its sort.
    #[tactic(auto, unfolding(crate::specs::Lits::lit))]
    fn lit_at<W: WriteJs, C: Comments>(
        &mut self,
        cfg: &Config,
        comments: &mut Option<C>,
        wr: &mut W,
        n: &Lit,
    ) -> Answer
        ensures items { DoesTaking (lit n.now) (maps_in C.maps comments.old)
            (maps_in C.maps comments.new) (state_of cfg.now (W.sheet wr.old) self.old)
            (state_of cfg.now (W.sheet wr.new) self.new) result }
        ensures level { Stays (W.sheet wr.old) (W.sheet wr.new) result }
    {
        match n {
            Lit::Str(n) => self.string_at(cfg, comments, wr, n, true),
            Lit::Bool(n) => {
                self.begun(cfg, comments, wr, n.span, bool_text(n.value))?;
                self.bool_lit(cfg, wr, n)
            }
            Lit::Null(n) => {
                self.begun(cfg, comments, wr, n.span, "null")?;
                self.null_lit(cfg, wr, n)
            }
            Lit::Num(n) => self.number_at(cfg, comments, wr, n, true),
            Lit::BigInt(n) => self.big_int_at(cfg, comments, wr, n, true),
            Lit::Regex(n) => {
                self.begun(cfg, comments, wr, n.span, "/")?;
                self.regex_lit(cfg, wr, n)
            }
            // JSX text is no expression.
            Lit::JSXText(_) => Ok(()),
        }
    }

    /// Writes a literal. swc's `emit_lit`.
    pub fn lit<W: WriteJs, C: Comments>(
        &mut self,
        cfg: &Config,
        comments: &mut Option<C>,
        wr: &mut W,
        n: &Lit,
    ) -> Answer
        ensures items { DoesTaking (lit n.now) (maps_in C.maps comments.old)
            (maps_in C.maps comments.new) (state_of cfg.now (W.sheet wr.old) self.old)
            (state_of cfg.now (W.sheet wr.new) self.new) result }
        ensures reads { AddsTaking (phrases.lit n.now) (lit n.now) (maps_in C.maps comments.old)
            cfg.now (W.sheet wr.old) self.old (W.sheet wr.new) self.new result }
        ensures level { Stays (W.sheet wr.old) (W.sheet wr.new) result }
    {
        self.lit_at(cfg, comments, wr, n)
    }
}
