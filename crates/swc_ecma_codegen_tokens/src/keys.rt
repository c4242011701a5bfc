//! Names as keys of properties.

ghost use Rattle.std.specs.Prelude.{◌≡◌, false, true};
ghost use Rattle.swc_ecma_codegen_spans.specs.Spans.{dummy_span};
ghost use Rattle.swc_ecma_codegen_grammar.specs.declared.kinds.Kind.TheVariants as kinds;
ghost use Rattle.swc_ecma_codegen_text_writer.specs.Sheet.{Symbol};
ghost use Rattle.swc_ecma_codegen_tokens.specs.Keys.{quoted_key, ascii_key, bare_key, plain_key, spelled_key, valid_key, key_text, key};
ghost use Rattle.swc_ecma_codegen_grammar.specs.Comments.{maps_in};
ghost use Rattle.swc_ecma_codegen_tokens.specs.Run.{DoesTaking, Does, step, Token, Stays};
ghost use Rattle.swc_ecma_codegen_tokens.specs.Targets.{wants_escapes};
ghost use Rattle.swc_ecma_codegen_grammar.specs.Phrases.{KeyOf};
ghost use Rattle.swc_ecma_codegen_tokens.specs.Adds.{AddsTaking};
ghost use Rattle.swc_ecma_codegen_tokens.specs.View.{state_of};

use crate::LowerEmitter;
use crate::guard::REFUSED;
use crate::names::wants_escapes;
use crate::previous::PreviousToken;
use crate::starts::StartClass;
use swc_ecma_codegen_common::{Answer, DUMMY_SP, Refusal, Span};
use swc_ecma_codegen_grammar::comments::Comments;
use swc_ecma_codegen_literals::{ascii_only_ident, holds_backslash, valid_name, wants_quotes};
use swc_ecma_codegen_settings::config::Config;
use swc_ecma_codegen_text_writer::WriteJs;

impl LowerEmitter {
    /// The call of a key in quotes.
    #[inline(never)]
    fn put_quoted_key<W: WriteJs>(&mut self, cfg: &Config, wr: &mut W, text: &str) -> Answer
        requires { self.old.failed ≡ false }
        ensures items { Does (step (Token kinds.Str (Symbol dummy_span text.now)))
            (state_of cfg.now (W.sheet wr.old) self.old)
            (state_of cfg.now (W.sheet wr.new) self.new) result }
        ensures level { Stays (W.sheet wr.old) (W.sheet wr.new) result }
    {
        let _ = cfg;
        let answer = wr.write_symbol(DUMMY_SP, text);
        self.settle(answer, PreviousToken::Whole)
    }

    /// Writes a key in quotes, and records its position.
    #[tactic(auto, unfolding(crate::specs::Keys::quoted_key))]
    fn quoted_key<W: WriteJs>(&mut self, cfg: &Config, wr: &mut W, span: Span, text: &str) -> Answer
        ensures items { Does (quoted_key span text.now) (state_of cfg.now (W.sheet wr.old) self.old)
            (state_of cfg.now (W.sheet wr.new) self.new) result }
        ensures level { Stays (W.sheet wr.old) (W.sheet wr.new) result }
    {
        self.guard(cfg, wr, text, StartClass::of_text(text))?;
        self.position(cfg, wr, span.lo)?;
        self.put_quoted_key(cfg, wr, text)?;
        Ok(())
    }

    /// Writes a key by a text that was made in ASCII.
    #[tactic(auto, unfolding(crate::specs::Keys::ascii_key))]
    fn ascii_key<W: WriteJs>(
        &mut self,
        cfg: &Config,
        wr: &mut W,
        quoted: bool,
        span: Span,
        text: &str,
    ) -> Answer
        ensures items { Does (ascii_key quoted span text.now)
            (state_of cfg.now (W.sheet wr.old) self.old)
            (state_of cfg.now (W.sheet wr.new) self.new) result }
        ensures level { Stays (W.sheet wr.old) (W.sheet wr.new) result }
    {
        if quoted {
            self.quoted_key(cfg, wr, span, text)?;
        } else {
            self.symbol(cfg, wr, span, text)?;
        }
        Ok(())
    }

    /// Writes a key by a text that isn't ASCII, in ASCII.
    fn escaped_key<W: WriteJs>(
        &mut self,
        cfg: &Config,
        wr: &mut W,
        span: Span,
        text: &str,
    ) -> Answer
        requires { wants_escapes cfg.now text.now ≡ true }
        ensures items { Does (spelled_key span text.now)
            (state_of cfg.now (W.sheet wr.old) self.old)
            (state_of cfg.now (W.sheet wr.new) self.new) result }
        ensures level { Stays (W.sheet wr.old) (W.sheet wr.new) result }
    {
        if self.failed {
            return Err(Refusal::Failed);
        }
        let quoted = wants_quotes(text, cfg.target);
        match ascii_only_ident(self.alloc, text, true, cfg.target) {
            Ok(key) => self.ascii_key(cfg, wr, quoted, span, &key),
            Err(error) => {
                self.failed = true;
                self.row = REFUSED;
                Err(error.refusal())
            }
        }
    }

    /// Writes a key as it is: it begins, and then it begins as a name.
    #[tactic(auto, unfolding(crate::specs::Keys::bare_key))]
    fn bare_key<W: WriteJs, C: Comments>(
        &mut self,
        cfg: &Config,
        comments: &mut Option<C>,
        wr: &mut W,
        span: Span,
        text: &str,
    ) -> Answer
        ensures items { DoesTaking (bare_key span text.now) (maps_in C.maps comments.old)
            (maps_in C.maps comments.new) (state_of cfg.now (W.sheet wr.old) self.old)
            (state_of cfg.now (W.sheet wr.new) self.new) result }
        ensures level { Stays (W.sheet wr.old) (W.sheet wr.new) result }
    {
        self.guard(cfg, wr, text, StartClass::of_text(text))?;
        self.position(cfg, wr, span.lo)?;
        self.leading_comments(cfg, comments, wr, span.lo)?;
        self.commit_pending_semi(cfg, wr)?;
        self.symbol(cfg, wr, span, text)?;
        Ok(())
    }

    /// Writes a key that holds no escape that the settings ask for.
    fn plain_key<W: WriteJs, C: Comments>(
        &mut self,
        cfg: &Config,
        comments: &mut Option<C>,
        wr: &mut W,
        span: Span,
        text: &str,
    ) -> Answer
        ensures items { DoesTaking (plain_key span text.now) (maps_in C.maps comments.old)
            (maps_in C.maps comments.new) (state_of cfg.now (W.sheet wr.old) self.old)
            (state_of cfg.now (W.sheet wr.new) self.new) result }
        ensures level { Stays (W.sheet wr.old) (W.sheet wr.new) result }
    {
        if cfg.ascii_only {
            return self.symbol(cfg, wr, span, text);
        }
        self.bare_key(cfg, comments, wr, span, text)
    }

    /// Writes a key by a text, which is escaped where the settings ask for ASCII.
    fn spelled_key<W: WriteJs, C: Comments>(
        &mut self,
        cfg: &Config,
        comments: &mut Option<C>,
        wr: &mut W,
        span: Span,
        text: &str,
    ) -> Answer
        ensures items { DoesTaking (spelled_key span text.now) (maps_in C.maps comments.old)
            (maps_in C.maps comments.new) (state_of cfg.now (W.sheet wr.old) self.old)
            (state_of cfg.now (W.sheet wr.new) self.new) result }
        ensures level { Stays (W.sheet wr.old) (W.sheet wr.new) result }
    {
        if wants_escapes(cfg, text) {
            return self.escaped_key(cfg, wr, span, text);
        }
        self.plain_key(cfg, comments, wr, span, text)
    }

    /// Writes a key in which U+0000 after a backslash is left out.
    #[tactic(auto, unfolding(crate::specs::Keys::valid_key))]
    fn valid_key<W: WriteJs, C: Comments>(
        &mut self,
        cfg: &Config,
        comments: &mut Option<C>,
        wr: &mut W,
        span: Span,
        name: &str,
    ) -> Answer
        ensures items { DoesTaking (valid_key span name.now) (maps_in C.maps comments.old)
            (maps_in C.maps comments.new) (state_of cfg.now (W.sheet wr.old) self.old)
            (state_of cfg.now (W.sheet wr.new) self.new) result }
        ensures level { Stays (W.sheet wr.old) (W.sheet wr.new) result }
    {
        if self.failed {
            return Err(Refusal::Failed);
        }
        if !holds_backslash(name) {
            return self.spelled_key(cfg, comments, wr, span, name);
        }
        match valid_name(self.alloc, name) {
            Ok(text) => self.spelled_key(cfg, comments, wr, span, &text),
            Err(error) => {
                self.failed = true;
                self.row = REFUSED;
                Err(error.refusal())
            }
        }
    }

    /// Writes the text of a key, as the writer takes names.
    #[tactic(auto, unfolding(crate::specs::Keys::key_text))]
    fn key_text<W: WriteJs, C: Comments>(
        &mut self,
        cfg: &Config,
        comments: &mut Option<C>,
        wr: &mut W,
        span: Span,
        sym: &str,
    ) -> Answer
        ensures items { DoesTaking (key_text span sym.now) (maps_in C.maps comments.old)
            (maps_in C.maps comments.new) (state_of cfg.now (W.sheet wr.old) self.old)
            (state_of cfg.now (W.sheet wr.new) self.new) result }
        ensures level { Stays (W.sheet wr.old) (W.sheet wr.new) result }
    {
        if wr.can_ignore_invalid_unicodes() {
            return self.spelled_key(cfg, comments, wr, span, sym);
        }
        self.valid_key(cfg, comments, wr, span, sym)
    }

    /// Writes a name as a key of a property, with its comments. `PropName::Ident` in swc's `emit_prop_name`.
    #[tactic(auto, unfolding(crate::specs::Keys::key))]
    pub fn key<W: WriteJs, C: Comments>(
        &mut self,
        cfg: &Config,
        comments: &mut Option<C>,
        wr: &mut W,
        span: Span,
        sym: &str,
    ) -> Answer
        ensures items { DoesTaking (key span sym.now) (maps_in C.maps comments.old)
            (maps_in C.maps comments.new) (state_of cfg.now (W.sheet wr.old) self.old)
            (state_of cfg.now (W.sheet wr.new) self.new) result }
        ensures reads { (W.sheet wr.old).keeps_invalid ≡ false →
            AddsTaking (KeyOf span.lo sym.now) (key span sym.now) (maps_in C.maps comments.old)
            cfg.now (W.sheet wr.old) self.old (W.sheet wr.new) self.new result }
        ensures level { Stays (W.sheet wr.old) (W.sheet wr.new) result }
    {
        self.leading_comments(cfg, comments, wr, span.lo)?;
        self.commit_pending_semi(cfg, wr)?;
        self.key_text(cfg, comments, wr, span, sym)?;
        Ok(())
    }
}
