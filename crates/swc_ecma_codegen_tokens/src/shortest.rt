//! The tokens that trees have most of, by the shortest way. Each call only says whether its token was written, so that its answer is one
//! bit: else `reason` says why not.

ghost use Rattle.std.specs.Prelude.{◌≡◌, ◌&&◌, is_some, None, [], ◌∷◌, true, false};
ghost use Rattle.std.specs.Str.{chars};
ghost use Rattle.swc_ecma_codegen_grammar.specs.Comments.{maps_in};
ghost use Rattle.swc_ecma_codegen_grammar.specs.GapRules.{fuses};
ghost use Rattle.swc_ecma_codegen_grammar.specs.Tokens as lexical;
ghost use Rattle.swc_ecma_codegen_literals.specs.Punctuators.{spelling};
ghost use Rattle.swc_ecma_codegen_text_writer.specs.Reach.{is_in_line};
ghost use Rattle.swc_ecma_codegen_text_writer.specs.Sheet.{answered, is_settled};
ghost use Rattle.swc_ecma_codegen_tokens.specs.Adds.{Adds, AddsName};
ghost use Rattle.swc_ecma_codegen_tokens.specs.PlainNames.{IsPlain};
ghost use Rattle.swc_ecma_codegen_tokens.specs.PreviousToken.{last_at};
ghost use Rattle.swc_ecma_codegen_tokens.specs.Run.{Does, DoesTaking, Stays};
ghost use Rattle.swc_ecma_codegen_tokens.specs.Starts.{begins_letter, begins_name};
ghost use Rattle.swc_ecma_codegen_tokens.specs.Words.{bare_punct, bare_semi, break_behind, allow_break, keyword, name, name_text, operator, punct, semi, space, symbol};
ghost use Rattle.swc_ecma_codegen_tokens.specs.Written.{IsWord};
ghost use Rattle.swc_ecma_codegen_tokens.specs.View.{state_of};

use crate::LowerEmitter;
use crate::lines::is_bounded;
use crate::short_names::is_short_without_backslash;
use crate::starts::{StartClass, begins_name};
use swc_ecma_codegen_common::Span;
use swc_ecma_codegen_grammar::comments::Comments;
use swc_ecma_codegen_literals::Punctuator;
use swc_ecma_codegen_settings::config::Config;
use swc_ecma_codegen_text_writer::{WriteJs, is_in_line};

impl LowerEmitter {
    /// Writes a punctuator.
    #[inline(always)]
    pub fn writes_punct<W: WriteJs>(&mut self, cfg: &Config, wr: &mut W, mark: Punctuator) -> bool
        ensures items { Does (punct (spelling mark)) (state_of cfg.now (W.sheet wr.old) self.old)
            (state_of cfg.now (W.sheet wr.new) self.new) (answered result self.new.reason) }
        // The text reads as the tokens so far and this one, whatever follows that doesn't fuse.
        ensures reads { Adds (lexical.punctuator (spelling mark) ∷ [])
            cfg.now (W.sheet wr.old) self.old (W.sheet wr.new) self.new
            (answered result self.new.reason) }
        ensures level { Stays (W.sheet wr.old) (W.sheet wr.new) (answered result self.new.reason) }
    {
        if self.is_apart(mark) {
            return self.writes_punct_apart(cfg, wr, mark);
        }
        self.writes_punct_here(cfg, wr, mark)
    }

    /// The same in a function of its own: a token that goes the shortest way takes fewer registers.
    #[inline(never)]
    pub(crate) fn writes_punct_apart<W: WriteJs>(
        &mut self,
        cfg: &Config,
        wr: &mut W,
        mark: Punctuator,
    ) -> bool
        ensures items { Does (punct (spelling mark)) (state_of cfg.now (W.sheet wr.old) self.old)
            (state_of cfg.now (W.sheet wr.new) self.new) (answered result self.new.reason) }
        ensures level { Stays (W.sheet wr.old) (W.sheet wr.new) (answered result self.new.reason) }
    {
        self.writes_punct_here(cfg, wr, mark)
    }

    /// The same, where it is called.
    #[inline(always)]
    #[tactic(auto, unfolding(crate::specs::Words::punct))]
    fn writes_punct_here<W: WriteJs>(&mut self, cfg: &Config, wr: &mut W, mark: Punctuator) -> bool
        ensures items { Does (punct (spelling mark)) (state_of cfg.now (W.sheet wr.old) self.old)
            (state_of cfg.now (W.sheet wr.new) self.new) (answered result self.new.reason) }
        ensures level { Stays (W.sheet wr.old) (W.sheet wr.new) (answered result self.new.reason) }
    {
        let bounded = is_bounded(cfg);
        if !self.writes_bare_punct(cfg, wr, mark) {
            return false;
        }
        self.breaks_behind(cfg, wr, mark, bounded)
    }

    /// The same, but for the break behind it.
    #[inline(always)]
    #[tactic(auto, unfolding(crate::specs::Words::bare_punct))]
    pub(crate) fn writes_bare_punct<W: WriteJs>(
        &mut self,
        cfg: &Config,
        wr: &mut W,
        mark: Punctuator,
    ) -> bool
        ensures items { Does (bare_punct (spelling mark))
            (state_of cfg.now (W.sheet wr.old) self.old)
            (state_of cfg.now (W.sheet wr.new) self.new) (answered result self.new.reason) }
        ensures level { Stays (W.sheet wr.old) (W.sheet wr.new) (answered result self.new.reason) }
    {
        match self.guard_mark(cfg, wr, mark) {
            Ok(()) => (),
            Err(refusal) => {
                self.reason = refusal;
                return false;
            }
        }
        self.puts_punct(cfg, wr, mark)
    }

    /// The break that is allowed behind a punctuator, where lines are bounded. That is asked before it is written, so a caller who knows
    /// that they aren't keeps nothing for it.
    #[inline(always)]
    #[tactic(auto, using(crate::proofs::Emission::Calls::unbounded_behind))]
    fn breaks_behind<W: WriteJs>(
        &mut self,
        cfg: &Config,
        wr: &mut W,
        mark: Punctuator,
        bounded: bool,
    ) -> bool
        requires { bounded ≡ (is_some cfg.now.max_line && cfg.now.minify) }
        ensures items { Does (break_behind (spelling mark))
            (state_of cfg.now (W.sheet wr.old) self.old)
            (state_of cfg.now (W.sheet wr.new) self.new) (answered result self.new.reason) }
        ensures level { Stays (W.sheet wr.old) (W.sheet wr.new) (answered result self.new.reason) }
    {
        if !bounded {
            return true;
        }
        match self.break_behind(cfg, wr, mark) {
            Ok(()) => true,
            Err(refusal) => {
                self.reason = refusal;
                false
            }
        }
    }

    /// Writes a semicolon that may be left out where it isn't needed.
    #[inline(always)]
    pub fn writes_semi<W: WriteJs>(&mut self, cfg: &Config, wr: &mut W) -> bool
        ensures items { Does (semi) (state_of cfg.now (W.sheet wr.old) self.old)
            (state_of cfg.now (W.sheet wr.new) self.new) (answered result self.new.reason) }
        // The text reads as the tokens so far and this one, whatever follows that doesn't fuse.
        ensures reads { Adds (lexical.ending ∷ [])
            cfg.now (W.sheet wr.old) self.old (W.sheet wr.new) self.new
            (answered result self.new.reason) }
        ensures level { Stays (W.sheet wr.old) (W.sheet wr.new) (answered result self.new.reason) }
    {
        if self.is_apart(Punctuator::Semicolon) {
            return self.writes_semi_apart(cfg, wr);
        }
        self.writes_semi_here(cfg, wr)
    }

    /// The same in a function of its own: a token that goes the shortest way takes fewer registers.
    #[inline(never)]
    fn writes_semi_apart<W: WriteJs>(&mut self, cfg: &Config, wr: &mut W) -> bool
        ensures items { Does (semi) (state_of cfg.now (W.sheet wr.old) self.old)
            (state_of cfg.now (W.sheet wr.new) self.new) (answered result self.new.reason) }
        ensures level { Stays (W.sheet wr.old) (W.sheet wr.new) (answered result self.new.reason) }
    {
        self.writes_semi_here(cfg, wr)
    }

    /// The same, where it is called.
    #[inline(always)]
    #[tactic(auto, unfolding(crate::specs::Words::semi))]
    fn writes_semi_here<W: WriteJs>(&mut self, cfg: &Config, wr: &mut W) -> bool
        ensures items { Does (semi) (state_of cfg.now (W.sheet wr.old) self.old)
            (state_of cfg.now (W.sheet wr.new) self.new) (answered result self.new.reason) }
        ensures level { Stays (W.sheet wr.old) (W.sheet wr.new) (answered result self.new.reason) }
    {
        let bounded = is_bounded(cfg);
        if !self.writes_bare_semi(cfg, wr) {
            return false;
        }
        self.breaks(cfg, wr, bounded)
    }

    /// The break that is allowed behind a semicolon, where lines are bounded.
    #[inline(always)]
    #[tactic(auto, using(crate::proofs::Emission::Calls::passes_break))]
    fn breaks<W: WriteJs>(&mut self, cfg: &Config, wr: &mut W, bounded: bool) -> bool
        requires { bounded ≡ (is_some cfg.now.max_line && cfg.now.minify) }
        ensures items { Does allow_break (state_of cfg.now (W.sheet wr.old) self.old)
            (state_of cfg.now (W.sheet wr.new) self.new) (answered result self.new.reason) }
        ensures level { Stays (W.sheet wr.old) (W.sheet wr.new) (answered result self.new.reason) }
    {
        if !bounded {
            return true;
        }
        match self.allow_break(cfg, wr) {
            Ok(()) => true,
            Err(refusal) => {
                self.reason = refusal;
                false
            }
        }
    }

    /// The same, but for the break behind it.
    #[inline(always)]
    #[tactic(auto, unfolding(crate::specs::Words::bare_semi))]
    pub(crate) fn writes_bare_semi<W: WriteJs>(&mut self, cfg: &Config, wr: &mut W) -> bool
        ensures items { Does (bare_semi) (state_of cfg.now (W.sheet wr.old) self.old)
            (state_of cfg.now (W.sheet wr.new) self.new) (answered result self.new.reason) }
        ensures level { Stays (W.sheet wr.old) (W.sheet wr.new) (answered result self.new.reason) }
    {
        match self.guard_mark(cfg, wr, Punctuator::Semicolon) {
            Ok(()) => (),
            Err(refusal) => {
                self.reason = refusal;
                return false;
            }
        }
        self.puts_semi(cfg, wr)
    }

    /// Writes a keyword.
    #[inline(always)]
    pub fn writes_keyword<W: WriteJs>(
        &mut self,
        cfg: &Config,
        wr: &mut W,
        span: Option<Span>,
        word: &'static str,
    ) -> bool
        requires { begins_letter word.now ≡ true }
        ensures items { Does (keyword span word.now) (state_of cfg.now (W.sheet wr.old) self.old)
            (state_of cfg.now (W.sheet wr.new) self.new) (answered result self.new.reason) }
        // The text reads as the tokens so far and this one, whatever follows that doesn't fuse.
        ensures reads { IsWord word.now → Adds (lexical.word word.now ∷ [])
            cfg.now (W.sheet wr.old) self.old (W.sheet wr.new) self.new
            (answered result self.new.reason) }
        ensures level { Stays (W.sheet wr.old) (W.sheet wr.new) (answered result self.new.reason) }
    {
        match span {
            None => self.writes_plain_keyword(cfg, wr, word),
            Some(_) => self.writes_keyword_apart(cfg, wr, span, word),
        }
    }

    /// The same without a span.
    #[inline(always)]
    fn writes_plain_keyword<W: WriteJs>(
        &mut self,
        cfg: &Config,
        wr: &mut W,
        word: &'static str,
    ) -> bool
        requires { begins_letter word.now ≡ true }
        ensures items { Does (keyword None word.now) (state_of cfg.now (W.sheet wr.old) self.old)
            (state_of cfg.now (W.sheet wr.new) self.new) (answered result self.new.reason) }
        ensures level { Stays (W.sheet wr.old) (W.sheet wr.new) (answered result self.new.reason) }
    {
        if !self.may_go_on(StartClass::NameCharacter) {
            return self.writes_keyword_apart(cfg, wr, None, word);
        }
        self.writes_keyword_here(cfg, wr, word)
    }

    /// The same in a function of its own: a token that goes the shortest way takes fewer registers.
    #[inline(never)]
    #[tactic(auto, unfolding(crate::specs::Words::keyword))]
    fn writes_keyword_apart<W: WriteJs>(
        &mut self,
        cfg: &Config,
        wr: &mut W,
        span: Option<Span>,
        word: &'static str,
    ) -> bool
        requires { begins_letter word.now ≡ true }
        ensures items { Does (keyword span word.now) (state_of cfg.now (W.sheet wr.old) self.old)
            (state_of cfg.now (W.sheet wr.new) self.new) (answered result self.new.reason) }
        ensures level { Stays (W.sheet wr.old) (W.sheet wr.new) (answered result self.new.reason) }
    {
        match self.guard_word(cfg, wr, word) {
            Ok(()) => (),
            Err(refusal) => {
                self.reason = refusal;
                return false;
            }
        }
        self.call_keyword(cfg, wr, span, word)
    }

    /// The same, where it is called.
    #[inline(always)]
    #[tactic(auto, unfolding(crate::specs::Words::keyword))]
    fn writes_keyword_here<W: WriteJs>(
        &mut self,
        cfg: &Config,
        wr: &mut W,
        word: &'static str,
    ) -> bool
        requires { begins_letter word.now ≡ true }
        ensures items { Does (keyword None word.now) (state_of cfg.now (W.sheet wr.old) self.old)
            (state_of cfg.now (W.sheet wr.new) self.new) (answered result self.new.reason) }
        ensures level { Stays (W.sheet wr.old) (W.sheet wr.new) (answered result self.new.reason) }
    {
        match self.guard_word(cfg, wr, word) {
            Ok(()) => (),
            Err(refusal) => {
                self.reason = refusal;
                return false;
            }
        }
        self.puts_keyword(cfg, wr, word)
    }

    /// Writes a blank.
    #[inline(never)]
    pub fn writes_space<W: WriteJs>(&mut self, cfg: &Config, wr: &mut W) -> bool
        ensures items { Does (space) (state_of cfg.now (W.sheet wr.old) self.old)
            (state_of cfg.now (W.sheet wr.new) self.new) (answered result self.new.reason) }
        ensures level { Stays (W.sheet wr.old) (W.sheet wr.new) (answered result self.new.reason) }
    {
        self.puts_space(cfg, wr)
    }

    /// Writes an operator that is a punctuator.
    #[inline(always)]
    pub fn writes_operator<W: WriteJs>(
        &mut self,
        cfg: &Config,
        wr: &mut W,
        mark: Punctuator,
    ) -> bool
        ensures items { Does (operator (spelling mark)) (state_of cfg.now (W.sheet wr.old) self.old)
            (state_of cfg.now (W.sheet wr.new) self.new) (answered result self.new.reason) }
        // The text reads as the tokens so far and this one, whatever follows that doesn't fuse.
        ensures reads { Adds (lexical.punctuator (spelling mark) ∷ [])
            cfg.now (W.sheet wr.old) self.old (W.sheet wr.new) self.new
            (answered result self.new.reason) }
        ensures level { Stays (W.sheet wr.old) (W.sheet wr.new) (answered result self.new.reason) }
    {
        if self.is_apart(mark) {
            return self.writes_operator_apart(cfg, wr, mark);
        }
        self.writes_operator_here(cfg, wr, mark)
    }

    /// The same in a function of its own: a token that goes the shortest way takes fewer registers.
    #[inline(never)]
    pub(crate) fn writes_operator_apart<W: WriteJs>(
        &mut self,
        cfg: &Config,
        wr: &mut W,
        mark: Punctuator,
    ) -> bool
        ensures items { Does (operator (spelling mark)) (state_of cfg.now (W.sheet wr.old) self.old)
            (state_of cfg.now (W.sheet wr.new) self.new) (answered result self.new.reason) }
        ensures level { Stays (W.sheet wr.old) (W.sheet wr.new) (answered result self.new.reason) }
    {
        self.writes_operator_here(cfg, wr, mark)
    }

    /// The same, where it is called.
    #[inline(always)]
    #[tactic(auto, unfolding(crate::specs::Words::operator))]
    fn writes_operator_here<W: WriteJs>(
        &mut self,
        cfg: &Config,
        wr: &mut W,
        mark: Punctuator,
    ) -> bool
        ensures items { Does (operator (spelling mark)) (state_of cfg.now (W.sheet wr.old) self.old)
            (state_of cfg.now (W.sheet wr.new) self.new) (answered result self.new.reason) }
        ensures level { Stays (W.sheet wr.old) (W.sheet wr.new) (answered result self.new.reason) }
    {
        match self.guard_mark(cfg, wr, mark) {
            Ok(()) => (),
            Err(refusal) => {
                self.reason = refusal;
                return false;
            }
        }
        self.puts_operator(cfg, wr, mark)
    }

    /// Whether a name goes the shortest way: it stays in its line and has no backslash, no blank is due before it, and nothing is to be
    /// escaped.
    #[inline(always)]
    fn is_plain<W: WriteJs>(&self, cfg: &Config, wr: &mut W, sym: &str) -> bool
        ensures plain { result ≡ true → IsPlain cfg.now (W.sheet wr.new) self.now sym.now }
        ensures same { W.sheet wr.new ≡ W.sheet wr.old }
    {
        if !begins_name(sym) {
            return false;
        }
        self.is_plain_begun(cfg, wr, sym)
    }

    /// The same of a name that begins with a letter of ASCII, `$` or `_`.
    #[inline(always)]
    fn is_plain_begun<W: WriteJs>(&self, cfg: &Config, wr: &mut W, sym: &str) -> bool
        requires { begins_name sym.now ≡ true }
        ensures plain { result ≡ true → IsPlain cfg.now (W.sheet wr.new) self.now sym.now }
        ensures same { W.sheet wr.new ≡ W.sheet wr.old }
    {
        if cfg.ascii_only {
            return false;
        }
        if wr.can_ignore_invalid_unicodes() {
            return false;
        }
        if !self.may_go_on(StartClass::NameCharacter) {
            return false;
        }
        if !is_short_without_backslash(sym.as_bytes()) {
            return false;
        }
        is_in_line(sym.as_bytes())
    }

    /// Whether a name that begins with a letter of ASCII, `$` or `_` goes the shortest way, is no longer than sixteen bytes, and needs no
    /// semicolon before it.
    #[inline(always)]
    pub fn stands_alone<W: WriteJs>(&self, cfg: &Config, wr: &mut W, sym: &str) -> bool
        requires { begins_name sym.now ≡ true }
        ensures settled { result ≡ true → is_settled (W.sheet wr.old).semicolons ≡ true }
        ensures plain { result ≡ true → IsPlain cfg.now (W.sheet wr.new) self.now sym.now }
        ensures same { W.sheet wr.new ≡ W.sheet wr.old }
    {
        if !wr.is_settled() {
            return false;
        }
        if 16 < sym.len() {
            return false;
        }
        self.is_plain_begun(cfg, wr, sym)
    }

    /// Writes such a name where no positions are kept, no comments stand before it, and no `?` is written: it is a text alone.
    #[inline(always)]
    pub fn writes_alone<W: WriteJs, C: Comments>(
        &mut self,
        cfg: &Config,
        comments: &mut Option<C>,
        wr: &mut W,
        span: Span,
        sym: &str,
        optional: bool,
    ) -> bool
        requires single { optional ≡ false }
        requires uncommented { is_some ((maps_in C.maps comments.old).leading span.lo.0) ≡ false }
        requires unplaced { (W.sheet wr.old).keeps_positions ≡ false }
        requires settled { is_settled (W.sheet wr.old).semicolons ≡ true }
        requires plain { IsPlain cfg.now (W.sheet wr.old) self.old sym.now }
        ensures items { DoesTaking (name span sym.now optional) (maps_in C.maps comments.old)
            (maps_in C.maps comments.new) (state_of cfg.now (W.sheet wr.old) self.old)
            (state_of cfg.now (W.sheet wr.new) self.new) (answered result self.new.reason) }
        // The text reads as the tokens so far and the name, whatever follows that doesn't fuse.
        ensures reads { AddsName span sym.now optional (maps_in C.maps comments.old)
            cfg.now (W.sheet wr.old) self.old (W.sheet wr.new) self.new
            (answered result self.new.reason) }
        ensures level { Stays (W.sheet wr.old) (W.sheet wr.new) (answered result self.new.reason) }
    {
        let _ = comments;
        let _ = span;
        let _ = optional;
        self.sends_symbol(cfg, wr, sym)
    }

    /// Writes a name with its comments, and `?` after an optional one. swc's `emit_ident_like`.
    #[inline(always)]
    pub fn writes_name<W: WriteJs, C: Comments>(
        &mut self,
        cfg: &Config,
        comments: &mut Option<C>,
        wr: &mut W,
        span: Span,
        sym: &str,
        optional: bool,
    ) -> bool
        ensures items { DoesTaking (name span sym.now optional) (maps_in C.maps comments.old)
            (maps_in C.maps comments.new) (state_of cfg.now (W.sheet wr.old) self.old)
            (state_of cfg.now (W.sheet wr.new) self.new) (answered result self.new.reason) }
        // The text reads as the tokens so far and the name, whatever follows that doesn't fuse.
        ensures reads { AddsName span sym.now optional (maps_in C.maps comments.old)
            cfg.now (W.sheet wr.old) self.old (W.sheet wr.new) self.new
            (answered result self.new.reason) }
        ensures level { Stays (W.sheet wr.old) (W.sheet wr.new) (answered result self.new.reason) }
    {
        self.writes_name_here(cfg, comments, wr, span, sym, optional)
    }

    /// The same, where it is called.
    #[inline(always)]
    #[tactic(auto, unfolding(crate::specs::Words::name))]
    fn writes_name_here<W: WriteJs, C: Comments>(
        &mut self,
        cfg: &Config,
        comments: &mut Option<C>,
        wr: &mut W,
        span: Span,
        sym: &str,
        optional: bool,
    ) -> bool
        ensures items { DoesTaking (name span sym.now optional) (maps_in C.maps comments.old)
            (maps_in C.maps comments.new) (state_of cfg.now (W.sheet wr.old) self.old)
            (state_of cfg.now (W.sheet wr.new) self.new) (answered result self.new.reason) }
        ensures level { Stays (W.sheet wr.old) (W.sheet wr.new) (answered result self.new.reason) }
    {
        match self.leading_comments(cfg, comments, wr, span.lo) {
            Ok(()) => (),
            Err(refusal) => {
                self.reason = refusal;
                return false;
            }
        }
        match self.put_pending_semi(cfg, wr) {
            Ok(()) => (),
            Err(refusal) => {
                self.reason = refusal;
                return false;
            }
        }
        if !self.writes_name_text(cfg, wr, span, sym) {
            return false;
        }
        match self.question(cfg, wr, optional) {
            Ok(()) => true,
            Err(refusal) => {
                self.reason = refusal;
                false
            }
        }
    }

    /// Writes the text of a name, as the writer takes names.
    #[inline(always)]
    fn writes_name_text<W: WriteJs>(
        &mut self,
        cfg: &Config,
        wr: &mut W,
        span: Span,
        sym: &str,
    ) -> bool
        ensures items { Does (name_text span sym.now) (state_of cfg.now (W.sheet wr.old) self.old)
            (state_of cfg.now (W.sheet wr.new) self.new) (answered result self.new.reason) }
        ensures level { Stays (W.sheet wr.old) (W.sheet wr.new) (answered result self.new.reason) }
    {
        if !self.is_plain(cfg, wr, sym) {
            return self.writes_name_text_apart(cfg, wr, span, sym);
        }
        self.writes_plain_text(cfg, wr, span, sym)
    }

    /// The same in a function of its own, whatever the name is.
    #[inline(never)]
    fn writes_name_text_apart<W: WriteJs>(
        &mut self,
        cfg: &Config,
        wr: &mut W,
        span: Span,
        sym: &str,
    ) -> bool
        ensures items { Does (name_text span sym.now) (state_of cfg.now (W.sheet wr.old) self.old)
            (state_of cfg.now (W.sheet wr.new) self.new) (answered result self.new.reason) }
        ensures level { Stays (W.sheet wr.old) (W.sheet wr.new) (answered result self.new.reason) }
    {
        match self.name_text(cfg, wr, span, sym) {
            Ok(()) => true,
            Err(refusal) => {
                self.reason = refusal;
                false
            }
        }
    }

    /// The same of a name that goes the shortest way.
    #[inline(always)]
    fn writes_plain_text<W: WriteJs>(
        &mut self,
        cfg: &Config,
        wr: &mut W,
        span: Span,
        sym: &str,
    ) -> bool
        requires plain { IsPlain cfg.now (W.sheet wr.old) self.old sym.now }
        ensures items { Does (name_text span sym.now) (state_of cfg.now (W.sheet wr.old) self.old)
            (state_of cfg.now (W.sheet wr.new) self.new) (answered result self.new.reason) }
        ensures level { Stays (W.sheet wr.old) (W.sheet wr.new) (answered result self.new.reason) }
    {
        self.writes_plain_symbol(cfg, wr, span, sym)
    }

    /// Writes such a name by its text, and records its position.
    #[inline(always)]
    #[tactic(auto, unfolding(crate::specs::Words::symbol))]
    fn writes_plain_symbol<W: WriteJs>(
        &mut self,
        cfg: &Config,
        wr: &mut W,
        span: Span,
        sym: &str,
    ) -> bool
        requires unfailed { self.old.failed ≡ false }
        requires passes { fuses (last_at self.old.token.value) (chars sym.now) ≡ false }
        requires in_line { is_in_line sym.now ≡ true }
        ensures items { Does (symbol span sym.now) (state_of cfg.now (W.sheet wr.old) self.old)
            (state_of cfg.now (W.sheet wr.new) self.new) (answered result self.new.reason) }
        ensures level { Stays (W.sheet wr.old) (W.sheet wr.new) (answered result self.new.reason) }
    {
        match self.position(cfg, wr, span.lo) {
            Ok(()) => (),
            Err(refusal) => {
                self.reason = refusal;
                return false;
            }
        }
        self.puts_known_symbol(cfg, wr, sym)
    }
}
