//! Literals, as they are spelled.

ghost use Rattle.std.specs.Prelude.{◌≡◌, OnOk, ◌++◌, ◌∷◌, [], codes, Some, None, true, false, if◌then◌else◌};
ghost use Rattle.std.specs.Str.{chars, is_utf8};
ghost use Rattle.swc_ecma_codegen_spans.specs.Spans.{dummy_span};
ghost use Rattle.swc_ecma_codegen_grammar.specs.declared.kinds.Kind.TheVariants as kind;
ghost use Rattle.swc_ecma_codegen_grammar.specs.GapRules as rules;
ghost use Rattle.swc_ecma_codegen_grammar.specs.Chars.{begins_digit, is_one_line};
ghost use Rattle.swc_ecma_codegen_grammar.specs.LitPhrases.{regex_text as regex_characters};
ghost use Rattle.swc_ecma_codegen_grammar.specs.Names.{is_name};
ghost use Rattle.swc_ecma_codegen_grammar.specs.Numbers.{takes_dot, is_big_integer, is_number};
ghost use Rattle.swc_ecma_codegen_grammar.specs.RegularExpressions.{is_regex};
ghost use Rattle.swc_ecma_codegen_grammar.specs.Strings.{is_string};
ghost use Rattle.swc_ecma_codegen_grammar.specs.Tokens.{token_of};
ghost use Rattle.swc_ecma_codegen_text_writer.specs.Sheet as calls;
ghost use Rattle.swc_ecma_codegen_text_writer.specs.Sheet.{Lit, StrLit, Punct};
ghost use Rattle.swc_ecma_codegen_tokens.specs.PreviousToken.{last_at};
ghost use Rattle.swc_ecma_codegen_tokens.specs.Run.{Does, step, Token, Plain, Ends, Stays};
ghost use Rattle.swc_ecma_codegen_tokens.specs.Literals.{size_of, signed, string, number, dotted_number, sign, number_name, big_digits, big_integer, regex_text, regex, hashbang};
ghost use Rattle.swc_ecma_codegen_tokens.specs.Written.{IsNew, IsAtMargin, ReadsSoFar};
ghost use Rattle.swc_ecma_codegen_tokens.specs.Adds.{Adds, sign_tokens, tokens_of_digits, tokens_of_number};
ghost use Rattle.swc_ecma_codegen_tokens.specs.View.{state_of};

use crate::LowerEmitter;
use crate::previous::PreviousToken;
use crate::starts::StartClass;
use swc_ecma_codegen_common::{Answer, DUMMY_SP, Refusal, Span};
use swc_ecma_codegen_literals::{Punctuator, TokenClass, number_class};
use swc_ecma_codegen_settings::config::Config;
use swc_ecma_codegen_text_writer::WriteJs;

/// A text without its sign.
pub(crate) fn size_of(text: &str) -> &str
    ensures { result.now ≡ size_of text.now }
{
    match text.strip_prefix('-') {
        Some(size) => size,
        None => text,
    }
}

/// Whether a dot after a number that is spelled so would belong to it.
pub(crate) fn takes_dot(text: &str) -> bool
    ensures { result ≡ takes_dot (chars text.now) }
{
    matches!(number_class(text), TokenClass::Integer)
}

/// The last token after a number that is spelled so.
#[tactic(auto, unfolding(crate::specs::PreviousToken::last_at))]
fn number_end(text: &str) -> PreviousToken
    ensures { last_at result ≡ (if takes_dot (chars text.now) then rules.IntegerEnd
        else rules.WordEnd) }
{
    if takes_dot(text) {
        PreviousToken::IntegerEnd
    } else {
        PreviousToken::WordEnd
    }
}

impl LowerEmitter {
    /// The call of a string.
    #[inline(never)]
    fn put_string<W: WriteJs>(&mut self, cfg: &Config, wr: &mut W, text: &str) -> Answer
        requires { self.old.failed ≡ false }
        ensures items { Does (step (Token kind.Str (StrLit dummy_span text.now)))
            (state_of cfg.now (W.sheet wr.old) self.old)
            (state_of cfg.now (W.sheet wr.new) self.new) result }
        ensures level { Stays (W.sheet wr.old) (W.sheet wr.new) result }
    {
        let _ = cfg;
        let answer = wr.write_str_lit(DUMMY_SP, text);
        self.settle(answer, PreviousToken::Whole)
    }

    /// The call of a number, which may have a sign.
    #[inline(never)]
    fn put_number<W: WriteJs>(&mut self, cfg: &Config, wr: &mut W, text: &str) -> Answer
        requires { self.old.failed ≡ false }
        ensures items { Does (step (Ends (signed kind.Number text.now)
            (StrLit dummy_span text.now))) (state_of cfg.now (W.sheet wr.old) self.old)
            (state_of cfg.now (W.sheet wr.new) self.new) result }
        ensures level { Stays (W.sheet wr.old) (W.sheet wr.new) result }
    {
        let _ = cfg;
        let last = number_end(size_of(text));
        let answer = wr.write_str_lit(DUMMY_SP, text);
        self.settle(answer, last)
    }

    /// The call of a number before its dot.
    #[inline(never)]
    fn put_before_dot<W: WriteJs>(&mut self, cfg: &Config, wr: &mut W, text: &str) -> Answer
        requires { self.old.failed ≡ false }
        ensures items { Does (step (Plain (StrLit dummy_span text.now)))
            (state_of cfg.now (W.sheet wr.old) self.old)
            (state_of cfg.now (W.sheet wr.new) self.new) result }
        ensures level { Stays (W.sheet wr.old) (W.sheet wr.new) result }
        ensures fresh { OnOk result (self.new.failed ≡ false) }
    {
        let _ = cfg;
        let answer = wr.write_str_lit(DUMMY_SP, text);
        self.keep(answer)
    }

    /// The call of the dot of a number that is spelled so before it.
    #[inline(never)]
    fn put_dot<W: WriteJs>(&mut self, cfg: &Config, wr: &mut W, text: &str) -> Answer
        requires fresh { self.old.failed ≡ false }
        requires integer { takes_dot (chars (size_of text.now)) ≡ true }
        ensures items { Does (step (Ends (signed kind.Number (text.now ++ codes "."))
            (Punct None (codes ".")))) (state_of cfg.now (W.sheet wr.old) self.old)
            (state_of cfg.now (W.sheet wr.new) self.new) result }
        ensures level { Stays (W.sheet wr.old) (W.sheet wr.new) result }
    {
        let _ = cfg;
        let _ = text;
        let answer = wr.write_punct(None, ".");
        self.settle(answer, PreviousToken::WordEnd)
    }

    /// The call of the sign before `Infinity`.
    #[inline(never)]
    fn put_sign<W: WriteJs>(&mut self, cfg: &Config, wr: &mut W, span: Span) -> Answer
        requires { self.old.failed ≡ false }
        ensures items { Does (step (Token kind.Punctuator (StrLit span (codes "-"))))
            (state_of cfg.now (W.sheet wr.old) self.old)
            (state_of cfg.now (W.sheet wr.new) self.new) result }
        ensures level { Stays (W.sheet wr.old) (W.sheet wr.new) result }
    {
        let _ = cfg;
        let last = PreviousToken::after(self.last, Punctuator::Minus);
        let answer = wr.write_str_lit(span, "-");
        self.settle(answer, last)
    }

    /// The call of `Infinity` or `NaN`.
    #[inline(never)]
    fn put_number_name<W: WriteJs>(
        &mut self,
        cfg: &Config,
        wr: &mut W,
        span: Span,
        text: &str,
    ) -> Answer
        requires { self.old.failed ≡ false }
        ensures items { Does (step (Token kind.Name (StrLit span text.now)))
            (state_of cfg.now (W.sheet wr.old) self.old)
            (state_of cfg.now (W.sheet wr.new) self.new) result }
        ensures level { Stays (W.sheet wr.old) (W.sheet wr.new) result }
    {
        let _ = cfg;
        let answer = wr.write_str_lit(span, text);
        self.settle(answer, PreviousToken::WordEnd)
    }

    /// The call of the digits of a big integer, before its `n`.
    #[inline(never)]
    fn put_digits<W: WriteJs>(&mut self, cfg: &Config, wr: &mut W, span: Span, text: &str) -> Answer
        requires { self.old.failed ≡ false }
        ensures items { Does (step (Plain (Lit span text.now)))
            (state_of cfg.now (W.sheet wr.old) self.old)
            (state_of cfg.now (W.sheet wr.new) self.new) result }
        ensures level { Stays (W.sheet wr.old) (W.sheet wr.new) result }
        ensures fresh { OnOk result (self.new.failed ≡ false) }
    {
        let _ = cfg;
        let answer = wr.write_lit(span, text);
        self.keep(answer)
    }

    /// The call of the `n` after these digits.
    #[inline(never)]
    fn put_suffix<W: WriteJs>(&mut self, cfg: &Config, wr: &mut W, span: Span, text: &str) -> Answer
        requires { self.old.failed ≡ false }
        ensures items { Does (step (Ends (signed kind.BigInt (text.now ++ codes "n"))
            (Lit span (codes "n")))) (state_of cfg.now (W.sheet wr.old) self.old)
            (state_of cfg.now (W.sheet wr.new) self.new) result }
        ensures level { Stays (W.sheet wr.old) (W.sheet wr.new) result }
    {
        let _ = cfg;
        let _ = text;
        let answer = wr.write_lit(span, "n");
        self.settle(answer, PreviousToken::WordEnd)
    }

    /// The call of a big integer by its raw.
    #[inline(never)]
    fn put_big_integer<W: WriteJs>(
        &mut self,
        cfg: &Config,
        wr: &mut W,
        span: Span,
        text: &str,
    ) -> Answer
        requires { self.old.failed ≡ false }
        ensures items { Does (step (Token kind.BigInt (StrLit span text.now)))
            (state_of cfg.now (W.sheet wr.old) self.old)
            (state_of cfg.now (W.sheet wr.new) self.new) result }
        ensures level { Stays (W.sheet wr.old) (W.sheet wr.new) result }
    {
        let _ = cfg;
        let last = number_end(text);
        let answer = wr.write_str_lit(span, text);
        self.settle(answer, last)
    }

    /// The call of a slash of a regular expression.
    #[inline(never)]
    fn put_slash<W: WriteJs>(&mut self, cfg: &Config, wr: &mut W) -> Answer
        requires { self.old.failed ≡ false }
        ensures items { Does (step (Plain (Punct None (codes "/"))))
            (state_of cfg.now (W.sheet wr.old) self.old)
            (state_of cfg.now (W.sheet wr.new) self.new) result }
        ensures level { Stays (W.sheet wr.old) (W.sheet wr.new) result }
        ensures fresh { OnOk result (self.new.failed ≡ false) }
    {
        let _ = cfg;
        let answer = wr.write_punct(None, "/");
        self.keep(answer)
    }

    /// The call of what stands between the slashes.
    #[inline(never)]
    fn put_pattern<W: WriteJs>(&mut self, cfg: &Config, wr: &mut W, text: &str) -> Answer
        requires { self.old.failed ≡ false }
        ensures items { Does (step (Plain (calls.Str text.now)))
            (state_of cfg.now (W.sheet wr.old) self.old)
            (state_of cfg.now (W.sheet wr.new) self.new) result }
        ensures level { Stays (W.sheet wr.old) (W.sheet wr.new) result }
        ensures fresh { OnOk result (self.new.failed ≡ false) }
    {
        let _ = cfg;
        let answer = wr.write_str(text);
        self.keep(answer)
    }

    /// The call of the flags, with which it ends.
    #[inline(never)]
    fn put_flags<W: WriteJs>(&mut self, cfg: &Config, wr: &mut W, exp: &str, flags: &str) -> Answer
        requires { self.old.failed ≡ false }
        ensures items { Does (step (Ends ((kind.Regex, regex_text exp.now flags.now) ∷ [])
            (calls.Str flags.now))) (state_of cfg.now (W.sheet wr.old) self.old)
            (state_of cfg.now (W.sheet wr.new) self.new) result }
        ensures level { Stays (W.sheet wr.old) (W.sheet wr.new) result }
    {
        let _ = cfg;
        let _ = exp;
        let answer = wr.write_str(flags);
        self.settle(answer, PreviousToken::WordEnd)
    }

    /// The call of the mark of a hashbang, unless a call was refused before.
    #[inline(never)]
    fn put_hashbang_mark<W: WriteJs>(&mut self, cfg: &Config, wr: &mut W) -> Answer
        ensures items { Does (step (Plain (Punct None (codes "#!"))))
            (state_of cfg.now (W.sheet wr.old) self.old)
            (state_of cfg.now (W.sheet wr.new) self.new) result }
        ensures level { Stays (W.sheet wr.old) (W.sheet wr.new) result }
        ensures fresh { OnOk result (self.new.failed ≡ false) }
    {
        let _ = cfg;
        if self.failed {
            return Err(Refusal::Failed);
        }
        let answer = wr.write_punct(None, "#!");
        self.keep(answer)
    }

    /// The call of what stands behind the mark, with which it ends.
    #[inline(never)]
    fn put_hashbang_text<W: WriteJs>(&mut self, cfg: &Config, wr: &mut W, text: &str) -> Answer
        requires { self.old.failed ≡ false }
        ensures items { Does (step (Ends ((kind.Hashbang, codes "#!" ++ text.now) ∷ [])
            (StrLit dummy_span text.now))) (state_of cfg.now (W.sheet wr.old) self.old)
            (state_of cfg.now (W.sheet wr.new) self.new) result }
        ensures level { Stays (W.sheet wr.old) (W.sheet wr.new) result }
    {
        let _ = cfg;
        let answer = wr.write_str_lit(DUMMY_SP, text);
        self.settle(answer, PreviousToken::LineEnd)
    }

    /// Writes a string as it is spelled.
    #[tactic(auto, unfolding(crate::specs::Literals::string))]
    pub fn string<W: WriteJs>(&mut self, cfg: &Config, wr: &mut W, text: &str) -> Answer
        ensures items { Does (string text.now) (state_of cfg.now (W.sheet wr.old) self.old)
            (state_of cfg.now (W.sheet wr.new) self.new) result }
        // The text reads as the tokens so far and this one, whatever follows that doesn't fuse.
        ensures reads { is_utf8 text.now ≡ true → is_string (chars text.now) ≡ true →
            Adds (token_of kind.Str (chars text.now) ∷ [])
            cfg.now (W.sheet wr.old) self.old (W.sheet wr.new) self.new result }
        ensures level { Stays (W.sheet wr.old) (W.sheet wr.new) result }
    {
        self.guard(cfg, wr, text, StartClass::of_literal(text))?;
        self.put_string(cfg, wr, text)?;
        Ok(())
    }

    /// Writes a number as it is spelled; it may have a sign.
    #[tactic(auto, unfolding(crate::specs::Literals::number))]
    pub fn number<W: WriteJs>(&mut self, cfg: &Config, wr: &mut W, text: &str) -> Answer
        ensures items { Does (number text.now) (state_of cfg.now (W.sheet wr.old) self.old)
            (state_of cfg.now (W.sheet wr.new) self.new) result }
        ensures reads { is_utf8 (size_of text.now) ≡ true →
            is_number (chars (size_of text.now)) ≡ true →
            Adds (tokens_of_number text.now)
            cfg.now (W.sheet wr.old) self.old (W.sheet wr.new) self.new result }
        ensures level { Stays (W.sheet wr.old) (W.sheet wr.new) result }
    {
        self.guard(cfg, wr, text, StartClass::of_literal(text))?;
        self.put_number(cfg, wr, text)?;
        Ok(())
    }

    /// Writes a number with a dot of its own, `1.` before `.a`.
    #[tactic(auto, unfolding(crate::specs::Literals::dotted_number))]
    pub fn dotted_number<W: WriteJs>(&mut self, cfg: &Config, wr: &mut W, text: &str) -> Answer
        requires { takes_dot (chars (size_of text.now)) ≡ true }
        ensures items { Does (dotted_number text.now) (state_of cfg.now (W.sheet wr.old) self.old)
            (state_of cfg.now (W.sheet wr.new) self.new) result }
        // The number that it is without the dot: `1.` reads as 1.
        ensures reads { is_utf8 (size_of text.now) ≡ true →
            is_number (chars (size_of text.now)) ≡ true →
            Adds (tokens_of_number text.now)
            cfg.now (W.sheet wr.old) self.old (W.sheet wr.new) self.new result }
        ensures level { Stays (W.sheet wr.old) (W.sheet wr.new) result }
    {
        self.guard(cfg, wr, text, StartClass::of_literal(text))?;
        self.put_before_dot(cfg, wr, text)?;
        self.put_dot(cfg, wr, text)?;
        Ok(())
    }

    /// Writes `-` before `Infinity`, where it is due.
    #[tactic(auto, unfolding(crate::specs::Literals::sign))]
    pub fn sign<W: WriteJs>(
        &mut self,
        cfg: &Config,
        wr: &mut W,
        negative: bool,
        span: Span,
    ) -> Answer
        ensures items { Does (sign negative span) (state_of cfg.now (W.sheet wr.old) self.old)
            (state_of cfg.now (W.sheet wr.new) self.new) result }
        ensures reads { Adds (sign_tokens negative)
            cfg.now (W.sheet wr.old) self.old (W.sheet wr.new) self.new result }
        ensures level { Stays (W.sheet wr.old) (W.sheet wr.new) result }
    {
        if negative {
            self.guard_mark(cfg, wr, Punctuator::Minus)?;
            self.put_sign(cfg, wr, span)?;
        }
        Ok(())
    }

    /// Writes `Infinity` or `NaN`.
    #[tactic(auto, unfolding(crate::specs::Literals::number_name))]
    pub fn number_name<W: WriteJs>(
        &mut self,
        cfg: &Config,
        wr: &mut W,
        span: Span,
        text: &str,
    ) -> Answer
        ensures items { Does (number_name span text.now)
            (state_of cfg.now (W.sheet wr.old) self.old)
            (state_of cfg.now (W.sheet wr.new) self.new) result }
        ensures reads { is_utf8 text.now ≡ true → is_name (chars text.now) ≡ true →
            Adds (token_of kind.Name (chars text.now) ∷ [])
            cfg.now (W.sheet wr.old) self.old (W.sheet wr.new) self.new result }
        ensures level { Stays (W.sheet wr.old) (W.sheet wr.new) result }
    {
        self.guard(cfg, wr, text, StartClass::of_literal(text))?;
        self.put_number_name(cfg, wr, span, text)?;
        Ok(())
    }

    /// Writes a big integer by its digits, which may have a sign and a prefix, and then `n`.
    #[tactic(auto, unfolding(crate::specs::Literals::big_digits))]
    pub fn big_digits<W: WriteJs>(
        &mut self,
        cfg: &Config,
        wr: &mut W,
        span: Span,
        text: &str,
    ) -> Answer
        ensures items { Does (big_digits span text.now) (state_of cfg.now (W.sheet wr.old) self.old)
            (state_of cfg.now (W.sheet wr.new) self.new) result }
        ensures reads { is_utf8 (size_of text.now) ≡ true →
            begins_digit (chars (size_of text.now)) ≡ true →
            is_big_integer (chars (size_of text.now) ++ codes "n") ≡ true →
            Adds (tokens_of_digits text.now)
            cfg.now (W.sheet wr.old) self.old (W.sheet wr.new) self.new result }
        ensures level { Stays (W.sheet wr.old) (W.sheet wr.new) result }
    {
        self.guard(cfg, wr, text, StartClass::of_literal(text))?;
        self.put_digits(cfg, wr, span, text)?;
        self.put_suffix(cfg, wr, span, text)?;
        Ok(())
    }

    /// Writes a big integer as it is spelled.
    #[tactic(auto, unfolding(crate::specs::Literals::big_integer))]
    pub fn big_integer<W: WriteJs>(
        &mut self,
        cfg: &Config,
        wr: &mut W,
        span: Span,
        text: &str,
    ) -> Answer
        ensures items { Does (big_integer span text.now)
            (state_of cfg.now (W.sheet wr.old) self.old)
            (state_of cfg.now (W.sheet wr.new) self.new) result }
        ensures reads { is_utf8 text.now ≡ true → is_big_integer (chars text.now) ≡ true →
            Adds (token_of kind.BigInt (chars text.now) ∷ [])
            cfg.now (W.sheet wr.old) self.old (W.sheet wr.new) self.new result }
        ensures level { Stays (W.sheet wr.old) (W.sheet wr.new) result }
    {
        self.guard(cfg, wr, text, StartClass::of_literal(text))?;
        self.put_big_integer(cfg, wr, span, text)?;
        Ok(())
    }

    /// Writes a regular expression.
    #[tactic(auto, unfolding(crate::specs::Literals::regex))]
    pub fn regex<W: WriteJs>(&mut self, cfg: &Config, wr: &mut W, exp: &str, flags: &str) -> Answer
        ensures items { Does (regex exp.now flags.now) (state_of cfg.now (W.sheet wr.old) self.old)
            (state_of cfg.now (W.sheet wr.new) self.new) result }
        // `a/` before `/b/` takes a blank between.
        ensures reads { is_utf8 exp.now ≡ true → is_utf8 flags.now ≡ true →
            is_regex (regex_characters (chars exp.now) (chars flags.now)) ≡ true →
            Adds (token_of kind.Regex (regex_characters (chars exp.now) (chars flags.now)) ∷ [])
            cfg.now (W.sheet wr.old) self.old (W.sheet wr.new) self.new result }
        ensures level { Stays (W.sheet wr.old) (W.sheet wr.new) result }
    {
        self.guard_mark(cfg, wr, Punctuator::Slash)?;
        self.put_slash(cfg, wr)?;
        self.put_pattern(cfg, wr, exp)?;
        self.put_slash(cfg, wr)?;
        self.put_flags(cfg, wr, exp, flags)?;
        Ok(())
    }

    /// Writes a hashbang by what stands behind `#!`, and ends its line.
    #[tactic(auto, unfolding(crate::specs::Literals::hashbang))]
    pub fn hashbang<W: WriteJs>(&mut self, cfg: &Config, wr: &mut W, text: &str) -> Answer
        ensures items { Does (hashbang text.now) (state_of cfg.now (W.sheet wr.old) self.old)
            (state_of cfg.now (W.sheet wr.new) self.new) result }
        // It stands first of all in a text.
        ensures reads { IsNew (state_of cfg.now (W.sheet wr.old) self.old) →
            IsAtMargin (state_of cfg.now (W.sheet wr.old) self.old) →
            is_utf8 text.now ≡ true → is_one_line (chars text.now) ≡ true →
            OnOk result (ReadsSoFar (W.sheet wr.old).text
            (token_of kind.Hashbang (codes "#!" ++ chars text.now) ∷ []) []
            (state_of cfg.now (W.sheet wr.new) self.new)) }
        ensures level { Stays (W.sheet wr.old) (W.sheet wr.new) result }
    {
        self.put_hashbang_mark(cfg, wr)?;
        self.put_hashbang_text(cfg, wr, text)?;
        self.line(cfg, wr)?;
        Ok(())
    }
}
