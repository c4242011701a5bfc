//! Private names.

ghost use Rattle.std.specs.Prelude.{◌≡◌, OnOk, codes, None, false, true};
ghost use Rattle.swc_ecma_codegen_text_writer.specs.Sheet.{Punct};
ghost use Rattle.swc_ecma_codegen_tokens.specs.PrivateNames.{hashed, private_token, private_symbol, spelled_private, valid_private, private_text, private_name};
ghost use Rattle.swc_ecma_codegen_grammar.specs.Comments.{maps_in};
ghost use Rattle.swc_ecma_codegen_tokens.specs.Run.{DoesTaking, Does, step, Plain, Stays};
ghost use Rattle.swc_ecma_codegen_tokens.specs.Targets.{wants_escapes};
ghost use Rattle.swc_ecma_codegen_grammar.specs.Phrases.{PrivateOf};
ghost use Rattle.swc_ecma_codegen_tokens.specs.Adds.{AddsTaking};
ghost use Rattle.swc_ecma_codegen_tokens.specs.View.{state_of};

use crate::LowerEmitter;
use crate::guard::REFUSED;
use crate::names::wants_escapes;
use crate::previous::PreviousToken;
use crate::starts::StartClass;
use swc_ecma_codegen_common::{Answer, DUMMY_SP, Refusal, Span};
use swc_ecma_codegen_grammar::comments::Comments;
use swc_ecma_codegen_literals::{ascii_only_ident, holds_backslash, valid_name};
use swc_ecma_codegen_settings::config::Config;
use swc_ecma_codegen_text_writer::WriteJs;

impl LowerEmitter {
    /// The call of the mark before a private name.
    fn put_hash<W: WriteJs>(&mut self, cfg: &Config, wr: &mut W) -> Answer
        requires { self.old.failed ≡ false }
        ensures items { Does (step (Plain (Punct None (codes "#"))))
            (state_of cfg.now (W.sheet wr.old) self.old)
            (state_of cfg.now (W.sheet wr.new) self.new) result }
        ensures level { Stays (W.sheet wr.old) (W.sheet wr.new) result }
        ensures fresh { OnOk result (self.new.failed ≡ false) }
    {
        let _ = cfg;
        let answer = wr.write_punct(None, "#");
        self.keep(answer)
    }

    /// The call of the name behind it.
    fn put_hashed<W: WriteJs>(&mut self, cfg: &Config, wr: &mut W, text: &str) -> Answer
        requires { self.old.failed ≡ false }
        ensures items { Does (hashed text.now) (state_of cfg.now (W.sheet wr.old) self.old)
            (state_of cfg.now (W.sheet wr.new) self.new) result }
        ensures level { Stays (W.sheet wr.old) (W.sheet wr.new) result }
    {
        let _ = cfg;
        let answer = wr.write_symbol(DUMMY_SP, text);
        self.settle(answer, PreviousToken::WordEnd)
    }

    /// Writes a private name by a text: one token.
    #[inline(never)]
    #[tactic(auto, unfolding(crate::specs::PrivateNames::private_token))]
    fn private_token<W: WriteJs>(
        &mut self,
        cfg: &Config,
        wr: &mut W,
        span: Span,
        text: &str,
    ) -> Answer
        ensures items { Does (private_token span text.now)
            (state_of cfg.now (W.sheet wr.old) self.old)
            (state_of cfg.now (W.sheet wr.new) self.new) result }
        ensures level { Stays (W.sheet wr.old) (W.sheet wr.new) result }
    {
        self.guard(cfg, wr, "#", StartClass::of_text("#"))?;
        self.put_hash(cfg, wr)?;
        self.position(cfg, wr, span.lo)?;
        self.put_hashed(cfg, wr, text)?;
        Ok(())
    }

    /// The same with its position.
    #[inline(never)]
    #[tactic(auto, unfolding(crate::specs::PrivateNames::private_symbol))]
    fn private_symbol<W: WriteJs>(
        &mut self,
        cfg: &Config,
        wr: &mut W,
        span: Span,
        text: &str,
    ) -> Answer
        ensures items { Does (private_symbol span text.now)
            (state_of cfg.now (W.sheet wr.old) self.old)
            (state_of cfg.now (W.sheet wr.new) self.new) result }
        ensures level { Stays (W.sheet wr.old) (W.sheet wr.new) result }
    {
        self.guard(cfg, wr, "#", StartClass::of_text("#"))?;
        self.position(cfg, wr, span.lo)?;
        self.private_token(cfg, wr, span, text)?;
        Ok(())
    }

    /// Writes a private name by a text that isn't ASCII, in ASCII.
    #[inline(never)]
    fn ascii_private<W: WriteJs>(
        &mut self,
        cfg: &Config,
        wr: &mut W,
        span: Span,
        text: &str,
    ) -> Answer
        requires { wants_escapes cfg.now text.now ≡ true }
        ensures items { Does (spelled_private span text.now)
            (state_of cfg.now (W.sheet wr.old) self.old)
            (state_of cfg.now (W.sheet wr.new) self.new) result }
        ensures level { Stays (W.sheet wr.old) (W.sheet wr.new) result }
    {
        if self.failed {
            return Err(Refusal::Failed);
        }
        match ascii_only_ident(self.alloc, text, false, cfg.target) {
            Ok(name) => self.private_symbol(cfg, wr, span, &name),
            Err(error) => {
                self.failed = true;
                self.row = REFUSED;
                Err(error.refusal())
            }
        }
    }

    /// Writes a private name by a text, which is escaped where the settings ask for ASCII.
    fn spelled_private<W: WriteJs>(
        &mut self,
        cfg: &Config,
        wr: &mut W,
        span: Span,
        text: &str,
    ) -> Answer
        ensures items { Does (spelled_private span text.now)
            (state_of cfg.now (W.sheet wr.old) self.old)
            (state_of cfg.now (W.sheet wr.new) self.new) result }
        ensures level { Stays (W.sheet wr.old) (W.sheet wr.new) result }
    {
        if wants_escapes(cfg, text) {
            return self.ascii_private(cfg, wr, span, text);
        }
        self.private_symbol(cfg, wr, span, text)
    }

    /// Writes a private name in which U+0000 after a backslash is left out.
    fn valid_private<W: WriteJs>(
        &mut self,
        cfg: &Config,
        wr: &mut W,
        span: Span,
        name: &str,
    ) -> Answer
        ensures items { Does (valid_private span name.now)
            (state_of cfg.now (W.sheet wr.old) self.old)
            (state_of cfg.now (W.sheet wr.new) self.new) result }
        ensures level { Stays (W.sheet wr.old) (W.sheet wr.new) result }
    {
        if self.failed {
            return Err(Refusal::Failed);
        }
        if !holds_backslash(name) {
            return self.spelled_private(cfg, wr, span, name);
        }
        self.mended_private(cfg, wr, span, name)
    }

    /// The same of a private name that may hold a backslash.
    #[inline(never)]
    #[tactic(auto, unfolding(crate::specs::PrivateNames::valid_private))]
    fn mended_private<W: WriteJs>(
        &mut self,
        cfg: &Config,
        wr: &mut W,
        span: Span,
        name: &str,
    ) -> Answer
        ensures items { Does (valid_private span name.now)
            (state_of cfg.now (W.sheet wr.old) self.old)
            (state_of cfg.now (W.sheet wr.new) self.new) result }
        ensures level { Stays (W.sheet wr.old) (W.sheet wr.new) result }
    {
        if self.failed {
            return Err(Refusal::Failed);
        }
        match valid_name(self.alloc, name) {
            Ok(text) => self.spelled_private(cfg, wr, span, &text),
            Err(error) => {
                self.failed = true;
                self.row = REFUSED;
                Err(error.refusal())
            }
        }
    }

    /// Writes the text of a private name, as the writer takes names.
    #[tactic(auto, unfolding(crate::specs::PrivateNames::private_text))]
    fn private_text<W: WriteJs>(
        &mut self,
        cfg: &Config,
        wr: &mut W,
        span: Span,
        name: &str,
    ) -> Answer
        ensures items { Does (private_text span name.now)
            (state_of cfg.now (W.sheet wr.old) self.old)
            (state_of cfg.now (W.sheet wr.new) self.new) result }
        ensures level { Stays (W.sheet wr.old) (W.sheet wr.new) result }
    {
        if wr.can_ignore_invalid_unicodes() {
            return self.spelled_private(cfg, wr, span, name);
        }
        self.valid_private(cfg, wr, span, name)
    }

    /// Writes a private name with its comments. swc's `emit_private_name`.
    #[tactic(auto, unfolding(crate::specs::PrivateNames::private_name))]
    pub fn private_name<W: WriteJs, C: Comments>(
        &mut self,
        cfg: &Config,
        comments: &mut Option<C>,
        wr: &mut W,
        span: Span,
        name: &str,
    ) -> Answer
        ensures items { DoesTaking (private_name span name.now) (maps_in C.maps comments.old)
            (maps_in C.maps comments.new) (state_of cfg.now (W.sheet wr.old) self.old)
            (state_of cfg.now (W.sheet wr.new) self.new) result }
        ensures reads { (W.sheet wr.old).keeps_invalid ≡ false →
            AddsTaking (PrivateOf name.now) (private_name span name.now)
            (maps_in C.maps comments.old)
            cfg.now (W.sheet wr.old) self.old (W.sheet wr.new) self.new result }
        ensures level { Stays (W.sheet wr.old) (W.sheet wr.new) result }
    {
        self.leading_comments(cfg, comments, wr, span.lo)?;
        self.private_text(cfg, wr, span, name)?;
        self.position(cfg, wr, span.hi)?;
        Ok(())
    }
}
