//! Numbers and big integers.

ghost use Rattle.std.specs.Prelude.{◌≡◌, IfOk, IfErr, true, string_bytes};
ghost use Rattle.std.specs.Cow.{cow_str_bytes};
ghost use Rattle.swc_ecma_codegen_common.specs.declared.errors.Error.TheVariants.{OutOfMemory};
ghost use Rattle.swc_ecma_codegen_grammar.specs.Comments.{maps_in};
ghost use Rattle.swc_ecma_codegen_grammar.specs.DecimalValues.{decimal_digits};
ghost use Rattle.swc_ecma_codegen_tokens.specs.Run.{DoesTaking, Does, Stays};
ghost use Rattle.swc_ecma_codegen_tokens.specs.Lits.{prints_number_raw, is_finite, by_value, decimal_text, number_text, makes_number, is_named, infinity_text, infinity, not_a_number, named_number, number_by, spelled_number, number_at, number_lit, between_dots, before_property, object_by, spelled_object, number_object, prints_big_raw, big_int_text, makes_big_int, big_int_parts, big_int_by, big_int_at, big_int_lit};
ghost use Rattle.swc_ecma_codegen_grammar.specs.LitPhrases as phrases;
ghost use Rattle.swc_ecma_codegen_tokens.specs.Adds.{AddsTaking};
ghost use Rattle.swc_ecma_codegen_tokens.specs.View.{state_of};

use crate::LowerEmitter;
use crate::guard::REFUSED;
use crate::literals::{size_of, takes_dot};
use crate::raws::{joined, raw_text, suits};
use std::alloc::Global;
use std::borrow::CowStr;
use swc_ecma_codegen_common::{Answer, BytePos, DUMMY_SP, Decimal, Error, Refusal, Span};
use swc_ecma_codegen_grammar::comments::Comments;
use swc_ecma_codegen_literals::{big_integer_text, minified_number, plain_number};
use swc_ecma_codegen_settings::config::Config;
use swc_ecma_codegen_text_writer::WriteJs;
use swc_ecma_codegen_tree::{BigInt, Number, NumberValue};

/// Whether a number is printed by its raw.
#[tactic(auto, unfolding(crate::specs::Lits::prints_number_raw, crate::specs::Lits::raw_is))]
fn prints_number_raw(cfg: &Config, n: &Number) -> bool
    ensures { result ≡ prints_number_raw cfg.now n.now }
{
    match &n.raw {
        Some(raw) => !cfg.minify && suits(cfg.target, raw.as_str()),
        None => false,
    }
}

#[tactic(auto, unfolding(crate::specs::Lits::is_finite))]
fn is_finite(value: &NumberValue) -> bool
    ensures { result ≡ is_finite value.now }
{
    matches!(value, NumberValue::Finite(_))
}

/// `1e3` or `1000`
#[tactic(auto, unfolding(crate::specs::Lits::decimal_text))]
fn decimal_text(alloc: Global, minify: bool, number: &Decimal) -> std::result::Result<String, Error>
    ensures exactly { IfOk result (λ text. string_bytes text ≡ decimal_text minify number.now) }
    ensures refused { IfErr result (λ error. error ≡ OutOfMemory) }
{
    if minify {
        minified_number(alloc, number)
    } else {
        plain_number(alloc, number)
    }
}

/// Whether the digits of a number are all that is printed of it: of `12`, and of `123` where no shorter text is sought.
#[inline(always)]
#[tactic(auto, using(crate::proofs::LiteralTokens::OwnDigits::own_digits, crate::proofs::LiteralTokens::OwnDigits::few_digits))]
fn is_own_digits(minify: bool, number: &Decimal) -> bool
    ensures { result ≡ true → decimal_digits number.now ≡ decimal_text minify number.now }
{
    if number.negative() || number.exponent() != 0 {
        return false;
    }
    if minify {
        return number.digits().len() <= 2;
    }
    true
}

/// A finite number by its value. Where its digits are all that is printed of it, as of `12`, they are lent.
fn number_by_value<'a>(
    alloc: Global,
    minify: bool,
    number: &'a Decimal,
) -> std::result::Result<CowStr<'a>, Error>
    ensures exactly { IfOk result (λ text. cow_str_bytes text ≡ decimal_text minify number.now) }
    ensures refused { IfErr result (λ error. error ≡ OutOfMemory) }
{
    if is_own_digits(minify, number) {
        return Ok(CowStr::Borrowed(number.digits()));
    }
    Ok(CowStr::Owned(decimal_text(alloc, minify, number)?))
}

/// A number by its value. Of one that is infinite the raw stays.
#[tactic(auto, unfolding(crate::specs::Lits::by_value, crate::specs::Lits::is_finite))]
fn by_value<'a>(
    alloc: Global,
    minify: bool,
    value: &'a NumberValue,
    raw: &'a str,
) -> std::result::Result<CowStr<'a>, Error>
    ensures exactly { IfOk result (λ text. cow_str_bytes text ≡ by_value minify value.now raw.now) }
    ensures refused { IfErr result (λ error. error ≡ OutOfMemory) }
    ensures due { IfErr result (λ error. is_finite value.now ≡ true) }
{
    match value {
        NumberValue::Finite(number) => number_by_value(alloc, minify, number),
        NumberValue::NaN => Ok(CowStr::Borrowed("NaN")),
        _ => Ok(CowStr::Borrowed(raw)),
    }
}

/// A number as it is spelled. `Error::OutOfMemory` where there is no room for a new text; a raw is lent.
#[tactic(auto, unfolding(crate::specs::Lits::number_text, crate::specs::Lits::makes_number))]
fn number_text<'a>(
    alloc: Global,
    cfg: &Config,
    n: &'a Number,
) -> std::result::Result<CowStr<'a>, Error>
    ensures exactly { IfOk result (λ text. cow_str_bytes text ≡ number_text cfg.now n.now) }
    ensures refused { IfErr result (λ error. error ≡ OutOfMemory) }
    ensures due { IfErr result (λ error. makes_number cfg.now n.now ≡ true) }
{
    let raw = raw_text(&n.raw);
    if prints_number_raw(cfg, n) {
        joined(alloc, cfg.target, raw)
    } else {
        by_value(alloc, cfg.minify, &n.value, raw)
    }
}

/// Whether no literal spells a number that has no raw.
#[tactic(auto, unfolding(crate::specs::Lits::is_named))]
fn is_named(n: &Number) -> bool
    ensures { result ≡ is_named n.now }
{
    n.raw.is_none() && !is_finite(&n.value)
}

/// How `Infinity` begins, with its sign or without.
#[tactic(auto, unfolding(crate::specs::Lits::infinity_text))]
fn infinity_text(negative: bool) -> &'static str
    ensures { result.now ≡ infinity_text negative }
{
    if negative { "-" } else { "Infinity" }
}

/// Whether a big integer is printed by its raw.
#[tactic(auto, unfolding(crate::specs::Lits::prints_big_raw))]
fn prints_big_raw(cfg: &Config, n: &BigInt) -> bool
    ensures { result ≡ prints_big_raw cfg.now n.now }
{
    !cfg.minify && n.raw.is_some()
}

/// A big integer as it is spelled, or up to its `n`. `Error::OutOfMemory` where there is no room for a new text; a raw is
/// lent.
#[tactic(auto, unfolding(crate::specs::Lits::big_int_text, crate::specs::Lits::makes_big_int))]
fn big_int_text<'a>(
    alloc: Global,
    cfg: &Config,
    n: &'a BigInt,
) -> std::result::Result<CowStr<'a>, Error>
    ensures exactly { IfOk result (λ text. cow_str_bytes text ≡ big_int_text cfg.now n.now) }
    ensures refused { IfErr result (λ error. error ≡ OutOfMemory) }
    ensures due { IfErr result (λ error. makes_big_int cfg.now n.now ≡ true) }
{
    if prints_big_raw(cfg, n) {
        joined(alloc, cfg.target, raw_text(&n.raw))
    } else {
        Ok(CowStr::Owned(big_integer_text(alloc, n)?))
    }
}

impl LowerEmitter {
    /// Writes `Infinity`, or `-` and that.
    #[tactic(auto, unfolding(crate::specs::Lits::infinity))]
    fn infinity<W: WriteJs, C: Comments>(
        &mut self,
        cfg: &Config,
        comments: &mut Option<C>,
        wr: &mut W,
        span: Span,
        negative: bool,
        in_lit: bool,
    ) -> Answer
        ensures items { DoesTaking (infinity in_lit negative span) (maps_in C.maps comments.old)
            (maps_in C.maps comments.new) (state_of cfg.now (W.sheet wr.old) self.old)
            (state_of cfg.now (W.sheet wr.new) self.new) result }
        ensures level { Stays (W.sheet wr.old) (W.sheet wr.new) result }
    {
        self.begun_in(cfg, comments, wr, span, infinity_text(negative), in_lit)?;
        self.commit_pending_semi(cfg, wr)?;
        self.leading_comments(cfg, comments, wr, span.lo)?;
        self.sign(cfg, wr, negative, span)?;
        self.number_name(cfg, wr, span, "Infinity")?;
        Ok(())
    }

    /// Writes `NaN`.
    #[tactic(auto, unfolding(crate::specs::Lits::not_a_number))]
    fn not_a_number<W: WriteJs, C: Comments>(
        &mut self,
        cfg: &Config,
        comments: &mut Option<C>,
        wr: &mut W,
        span: Span,
        in_lit: bool,
    ) -> Answer
        ensures items { DoesTaking (not_a_number in_lit span) (maps_in C.maps comments.old)
            (maps_in C.maps comments.new) (state_of cfg.now (W.sheet wr.old) self.old)
            (state_of cfg.now (W.sheet wr.new) self.new) result }
        ensures level { Stays (W.sheet wr.old) (W.sheet wr.new) result }
    {
        self.begun_in(cfg, comments, wr, span, "NaN", in_lit)?;
        self.settled_begun(cfg, comments, wr, span, "NaN")?;
        self.number_name(cfg, wr, DUMMY_SP, "NaN")?;
        Ok(())
    }

    /// Writes a number that no literal spells.
    #[tactic(auto, unfolding(crate::specs::Lits::named_number))]
    fn named_number<W: WriteJs, C: Comments>(
        &mut self,
        cfg: &Config,
        comments: &mut Option<C>,
        wr: &mut W,
        span: Span,
        value: &NumberValue,
        in_lit: bool,
    ) -> Answer
        ensures items { DoesTaking (named_number in_lit span value.now)
            (maps_in C.maps comments.old) (maps_in C.maps comments.new)
            (state_of cfg.now (W.sheet wr.old) self.old)
            (state_of cfg.now (W.sheet wr.new) self.new) result }
        ensures level { Stays (W.sheet wr.old) (W.sheet wr.new) result }
    {
        match value {
            NumberValue::Infinity => self.infinity(cfg, comments, wr, span, false, in_lit),
            NumberValue::NegInfinity => self.infinity(cfg, comments, wr, span, true, in_lit),
            _ => self.not_a_number(cfg, comments, wr, span, in_lit),
        }
    }

    /// Writes a number by its text.
    #[inline(always)]
    #[tactic(auto, unfolding(crate::specs::Lits::number_by))]
    fn number_by<W: WriteJs, C: Comments>(
        &mut self,
        cfg: &Config,
        comments: &mut Option<C>,
        wr: &mut W,
        span: Span,
        text: &str,
        in_lit: bool,
    ) -> Answer
        ensures items { DoesTaking (number_by in_lit span text.now) (maps_in C.maps comments.old)
            (maps_in C.maps comments.new) (state_of cfg.now (W.sheet wr.old) self.old)
            (state_of cfg.now (W.sheet wr.new) self.new) result }
        ensures level { Stays (W.sheet wr.old) (W.sheet wr.new) result }
    {
        self.begun_in(cfg, comments, wr, span, text, in_lit)?;
        self.settled_begun(cfg, comments, wr, span, text)?;
        self.number(cfg, wr, text)?;
        Ok(())
    }

    /// Writes a number that a literal spells.
    #[inline(always)]
    fn spelled_number<W: WriteJs, C: Comments>(
        &mut self,
        cfg: &Config,
        comments: &mut Option<C>,
        wr: &mut W,
        n: &Number,
        in_lit: bool,
    ) -> Answer
        ensures items { DoesTaking (spelled_number in_lit n.now) (maps_in C.maps comments.old)
            (maps_in C.maps comments.new) (state_of cfg.now (W.sheet wr.old) self.old)
            (state_of cfg.now (W.sheet wr.new) self.new) result }
        ensures level { Stays (W.sheet wr.old) (W.sheet wr.new) result }
    {
        if self.failed {
            return Err(Refusal::Failed);
        }
        match number_text(self.alloc, cfg, n) {
            Ok(text) => self.number_by(cfg, comments, wr, n.span, &text, in_lit),
            Err(error) => {
                self.failed = true;
                self.row = REFUSED;
                Err(error.refusal())
            }
        }
    }

    /// Writes a number, in a `Lit` or not.
    #[inline(always)]
    #[tactic(auto, unfolding(crate::specs::Lits::number_at))]
    pub(crate) fn number_at<W: WriteJs, C: Comments>(
        &mut self,
        cfg: &Config,
        comments: &mut Option<C>,
        wr: &mut W,
        n: &Number,
        in_lit: bool,
    ) -> Answer
        ensures items { DoesTaking (number_at in_lit n.now) (maps_in C.maps comments.old)
            (maps_in C.maps comments.new) (state_of cfg.now (W.sheet wr.old) self.old)
            (state_of cfg.now (W.sheet wr.new) self.new) result }
        ensures level { Stays (W.sheet wr.old) (W.sheet wr.new) result }
    {
        if is_named(n) {
            self.named_number(cfg, comments, wr, n.span, &n.value, in_lit)
        } else {
            self.spelled_number(cfg, comments, wr, n, in_lit)
        }
    }

    /// Writes a number: by its raw, where the settings take it, else by its value. swc's `emit_num_lit`.
    pub fn number_lit<W: WriteJs, C: Comments>(
        &mut self,
        cfg: &Config,
        comments: &mut Option<C>,
        wr: &mut W,
        n: &Number,
    ) -> Answer
        ensures items { DoesTaking (number_lit n.now) (maps_in C.maps comments.old)
            (maps_in C.maps comments.new) (state_of cfg.now (W.sheet wr.old) self.old)
            (state_of cfg.now (W.sheet wr.new) self.new) result }
        ensures reads { AddsTaking (phrases.number n.now) (number_lit n.now)
            (maps_in C.maps comments.old)
            cfg.now (W.sheet wr.old) self.old (W.sheet wr.new) self.new result }
        ensures level { Stays (W.sheet wr.old) (W.sheet wr.new) result }
    {
        self.number_at(cfg, comments, wr, n, false)
    }

    /// Writes the comments between a number's own dot and that of its property.
    #[tactic(auto, unfolding(crate::specs::Lits::between_dots))]
    fn between_dots<W: WriteJs, C: Comments>(
        &mut self,
        cfg: &Config,
        comments: &mut Option<C>,
        wr: &mut W,
        pos: BytePos,
    ) -> Answer
        ensures items { DoesTaking (between_dots pos) (maps_in C.maps comments.old)
            (maps_in C.maps comments.new) (state_of cfg.now (W.sheet wr.old) self.old)
            (state_of cfg.now (W.sheet wr.new) self.new) result }
        ensures level { Stays (W.sheet wr.old) (W.sheet wr.new) result }
    {
        if pos.0 < 2 {
            return Ok(());
        }
        self.leading_comments(cfg, comments, wr, BytePos(pos.0 - 2))
    }

    /// Writes a number before the dot of a property, which begins at a position: `1.` of `1..a`.
    #[tactic(auto, unfolding(crate::specs::Lits::before_property))]
    fn before_property<W: WriteJs, C: Comments>(
        &mut self,
        cfg: &Config,
        comments: &mut Option<C>,
        wr: &mut W,
        text: &str,
        pos: BytePos,
    ) -> Answer
        ensures items { DoesTaking (before_property text.now pos) (maps_in C.maps comments.old)
            (maps_in C.maps comments.new) (state_of cfg.now (W.sheet wr.old) self.old)
            (state_of cfg.now (W.sheet wr.new) self.new) result }
        ensures level { Stays (W.sheet wr.old) (W.sheet wr.new) result }
    {
        if takes_dot(size_of(text)) {
            self.dotted_number(cfg, wr, text)?;
            self.between_dots(cfg, comments, wr, pos)
        } else {
            self.number(cfg, wr, text)
        }
    }

    /// Writes a number by its text before the dot of a property.
    #[tactic(auto, unfolding(crate::specs::Lits::object_by))]
    fn object_by<W: WriteJs, C: Comments>(
        &mut self,
        cfg: &Config,
        comments: &mut Option<C>,
        wr: &mut W,
        span: Span,
        pos: BytePos,
        text: &str,
    ) -> Answer
        ensures items { DoesTaking (object_by span pos text.now) (maps_in C.maps comments.old)
            (maps_in C.maps comments.new) (state_of cfg.now (W.sheet wr.old) self.old)
            (state_of cfg.now (W.sheet wr.new) self.new) result }
        ensures level { Stays (W.sheet wr.old) (W.sheet wr.new) result }
    {
        self.settled_begun(cfg, comments, wr, span, text)?;
        self.before_property(cfg, comments, wr, text, pos)?;
        Ok(())
    }

    /// Writes a number that a literal spells before the dot of a property.
    fn spelled_object<W: WriteJs, C: Comments>(
        &mut self,
        cfg: &Config,
        comments: &mut Option<C>,
        wr: &mut W,
        n: &Number,
        pos: BytePos,
    ) -> Answer
        ensures items { DoesTaking (spelled_object n.now pos) (maps_in C.maps comments.old)
            (maps_in C.maps comments.new) (state_of cfg.now (W.sheet wr.old) self.old)
            (state_of cfg.now (W.sheet wr.new) self.new) result }
        ensures level { Stays (W.sheet wr.old) (W.sheet wr.new) result }
    {
        if self.failed {
            return Err(Refusal::Failed);
        }
        match number_text(self.alloc, cfg, n) {
            Ok(text) => self.object_by(cfg, comments, wr, n.span, pos, &text),
            Err(error) => {
                self.failed = true;
                self.row = REFUSED;
                Err(error.refusal())
            }
        }
    }

    /// Writes a number whose property follows after a dot, and begins at a position. It has a dot of its own where that one
    /// would be read into it: `1..a`, but `1.5.a`. The part of swc's `emit_member_expr` that is for numbers.
    #[tactic(auto, unfolding(crate::specs::Lits::number_object))]
    pub fn number_object<W: WriteJs, C: Comments>(
        &mut self,
        cfg: &Config,
        comments: &mut Option<C>,
        wr: &mut W,
        n: &Number,
        pos: BytePos,
    ) -> Answer
        ensures items { DoesTaking (number_object n.now pos) (maps_in C.maps comments.old)
            (maps_in C.maps comments.new) (state_of cfg.now (W.sheet wr.old) self.old)
            (state_of cfg.now (W.sheet wr.new) self.new) result }
        ensures reads { AddsTaking (phrases.number n.now) (number_object n.now pos)
            (maps_in C.maps comments.old)
            cfg.now (W.sheet wr.old) self.old (W.sheet wr.new) self.new result }
        ensures level { Stays (W.sheet wr.old) (W.sheet wr.new) result }
    {
        if is_named(n) {
            self.named_number(cfg, comments, wr, n.span, &n.value, false)
        } else {
            self.spelled_object(cfg, comments, wr, n, pos)
        }
    }

    /// Writes a big integer by its whole text, or by what stands before its `n`.
    #[tactic(auto, unfolding(crate::specs::Lits::big_int_parts))]
    fn big_int_parts<W: WriteJs>(
        &mut self,
        cfg: &Config,
        wr: &mut W,
        span: Span,
        text: &str,
        whole: bool,
    ) -> Answer
        ensures items { Does (big_int_parts whole span text.now)
            (state_of cfg.now (W.sheet wr.old) self.old)
            (state_of cfg.now (W.sheet wr.new) self.new) result }
        ensures level { Stays (W.sheet wr.old) (W.sheet wr.new) result }
    {
        if whole {
            self.big_integer(cfg, wr, span, text)
        } else {
            self.big_digits(cfg, wr, span, text)
        }
    }

    /// Writes a big integer by such a text, with its comments.
    #[tactic(auto, unfolding(crate::specs::Lits::big_int_by))]
    fn big_int_by<W: WriteJs, C: Comments>(
        &mut self,
        cfg: &Config,
        comments: &mut Option<C>,
        wr: &mut W,
        span: Span,
        text: &str,
        whole: bool,
        in_lit: bool,
    ) -> Answer
        ensures items { DoesTaking (big_int_by in_lit whole span text.now)
            (maps_in C.maps comments.old) (maps_in C.maps comments.new)
            (state_of cfg.now (W.sheet wr.old) self.old)
            (state_of cfg.now (W.sheet wr.new) self.new) result }
        ensures level { Stays (W.sheet wr.old) (W.sheet wr.new) result }
    {
        self.begun_in(cfg, comments, wr, span, text, in_lit)?;
        self.leading_comments(cfg, comments, wr, span.lo)?;
        self.big_int_parts(cfg, wr, span, text, whole)?;
        Ok(())
    }

    /// Writes a big integer, in a `Lit` or not.
    pub(crate) fn big_int_at<W: WriteJs, C: Comments>(
        &mut self,
        cfg: &Config,
        comments: &mut Option<C>,
        wr: &mut W,
        n: &BigInt,
        in_lit: bool,
    ) -> Answer
        ensures items { DoesTaking (big_int_at in_lit n.now) (maps_in C.maps comments.old)
            (maps_in C.maps comments.new) (state_of cfg.now (W.sheet wr.old) self.old)
            (state_of cfg.now (W.sheet wr.new) self.new) result }
        ensures level { Stays (W.sheet wr.old) (W.sheet wr.new) result }
    {
        if self.failed {
            return Err(Refusal::Failed);
        }
        match big_int_text(self.alloc, cfg, n) {
            Ok(text) => {
                let whole = prints_big_raw(cfg, n);
                self.big_int_by(cfg, comments, wr, n.span, &text, whole, in_lit)
            }
            Err(error) => {
                self.failed = true;
                self.row = REFUSED;
                Err(error.refusal())
            }
        }
    }

    /// Writes a big integer: by its raw, where nothing is minified, else by its digits. swc's `emit_big_lit`.
    pub fn big_int_lit<W: WriteJs, C: Comments>(
        &mut self,
        cfg: &Config,
        comments: &mut Option<C>,
        wr: &mut W,
        n: &BigInt,
    ) -> Answer
        ensures items { DoesTaking (big_int_lit n.now) (maps_in C.maps comments.old)
            (maps_in C.maps comments.new) (state_of cfg.now (W.sheet wr.old) self.old)
            (state_of cfg.now (W.sheet wr.new) self.new) result }
        ensures reads { AddsTaking (phrases.big_int n.now) (big_int_lit n.now)
            (maps_in C.maps comments.old)
            cfg.now (W.sheet wr.old) self.old (W.sheet wr.new) self.new result }
        ensures level { Stays (W.sheet wr.old) (W.sheet wr.new) result }
    {
        self.big_int_at(cfg, comments, wr, n, false)
    }
}
