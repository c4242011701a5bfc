//! Tokens of JSX: a name in a tag, the text between tags, what begins a child, and the `>` that closes a tag.

ghost use Rattle.std.specs.Prelude.{◌≡◌, None, [], ◌∷◌, codes, true, false};
ghost use Rattle.std.specs.Str.{chars, is_utf8};
ghost use Rattle.swc_ecma_codegen_spans.specs.Spans.{dummy_span};
ghost use Rattle.swc_ecma_codegen_grammar.specs.Comments.{maps_in};
ghost use Rattle.swc_ecma_codegen_grammar.specs.Jsx.{is_jsx_text, is_jsx_open};
ghost use Rattle.swc_ecma_codegen_grammar.specs.Phrases.{TagNameOf};
ghost use Rattle.swc_ecma_codegen_grammar.specs.declared.kinds.Kind.TheVariants as kind;
ghost use Rattle.swc_ecma_codegen_literals.specs.Punctuators.{spelling};
ghost use Rattle.swc_ecma_codegen_text_writer.specs.Sheet.{StrLit, Symbol, Punct};
ghost use Rattle.swc_ecma_codegen_tokens.specs.Run.{Does, DoesTaking, step, Token, Stays};
ghost use Rattle.swc_ecma_codegen_tokens.specs.Tags.{closing, close, tag_symbol, tag_name, text_token, jsx_text, open_token, child_open};
ghost use Rattle.swc_ecma_codegen_tokens.specs.Written.{Anything, Between, InText, InName};
ghost use Rattle.swc_ecma_codegen_tokens.specs.Adds.{Adds, AddsOn, AddsTakingOn};
ghost use Rattle.swc_ecma_codegen_tokens.specs.View.{state_of};

use crate::LowerEmitter;
use crate::previous::PreviousToken;
use crate::starts::StartClass;
use swc_ecma_codegen_common::{Answer, DUMMY_SP, Refusal, Span};
use swc_ecma_codegen_grammar::comments::Comments;
use swc_ecma_codegen_literals::Punctuator;
use swc_ecma_codegen_settings::config::Config;
use swc_ecma_codegen_text_writer::WriteJs;

impl LowerEmitter {
    /// The call of a name in a tag.
    fn put_tag_name<W: WriteJs>(&mut self, cfg: &Config, wr: &mut W, text: &str) -> Answer
        requires { self.old.failed ≡ false }
        ensures items { Does (step (Token kind.JsxName (Symbol dummy_span text.now)))
            (state_of cfg.now (W.sheet wr.old) self.old)
            (state_of cfg.now (W.sheet wr.new) self.new) result }
        ensures level { Stays (W.sheet wr.old) (W.sheet wr.new) result }
    {
        let _ = cfg;
        let answer = wr.write_symbol(DUMMY_SP, text);
        self.settle(answer, PreviousToken::TagNameEnd)
    }

    /// Writes a name in a tag, and records its position.
    #[tactic(auto, unfolding(crate::specs::Tags::tag_symbol))]
    fn tag_symbol<W: WriteJs>(&mut self, cfg: &Config, wr: &mut W, span: Span, text: &str) -> Answer
        ensures items { Does (tag_symbol span text.now) (state_of cfg.now (W.sheet wr.old) self.old)
            (state_of cfg.now (W.sheet wr.new) self.new) result }
        ensures level { Stays (W.sheet wr.old) (W.sheet wr.new) result }
    {
        self.guard(cfg, wr, text, StartClass::of_text(text))?;
        self.position(cfg, wr, span.lo)?;
        self.put_tag_name(cfg, wr, text)?;
        Ok(())
    }

    /// Writes a name in a tag with its comments: as it is in the tree, whatever the settings.
    #[inline(never)]
    #[tactic(auto, unfolding(crate::specs::Tags::tag_name))]
    pub fn tag_name<W: WriteJs, C: Comments>(
        &mut self,
        cfg: &Config,
        comments: &mut Option<C>,
        wr: &mut W,
        span: Span,
        text: &str,
    ) -> Answer
        ensures items { DoesTaking (tag_name span text.now) (maps_in C.maps comments.old)
            (maps_in C.maps comments.new) (state_of cfg.now (W.sheet wr.old) self.old)
            (state_of cfg.now (W.sheet wr.new) self.new) result }
        // What follows begins with no dash.
        ensures reads { AddsTakingOn Anything InName
            (TagNameOf span.lo text.now) (tag_name span text.now) (maps_in C.maps comments.old)
            cfg.now (W.sheet wr.old) self.old (W.sheet wr.new) self.new result }
        // Behind another name in a tag too.
        ensures in_tag { AddsTakingOn InName InName
            (TagNameOf span.lo text.now) (tag_name span text.now) (maps_in C.maps comments.old)
            cfg.now (W.sheet wr.old) self.old (W.sheet wr.new) self.new result }
        ensures level { Stays (W.sheet wr.old) (W.sheet wr.new) result }
    {
        self.leading_comments(cfg, comments, wr, span.lo)?;
        self.put_pending_semi(cfg, wr)?;
        self.tag_symbol(cfg, wr, span, text)?;
        Ok(())
    }

    /// The call of what begins a child.
    fn put_child_open<W: WriteJs>(&mut self, cfg: &Config, wr: &mut W, mark: Punctuator) -> Answer
        requires { self.old.failed ≡ false }
        ensures items { Does (step (Token kind.JsxOpen (Punct None (spelling mark))))
            (state_of cfg.now (W.sheet wr.old) self.old)
            (state_of cfg.now (W.sheet wr.new) self.new) result }
        ensures level { Stays (W.sheet wr.old) (W.sheet wr.new) result }
    {
        let _ = cfg;
        let last = PreviousToken::after(self.last, mark);
        let before = self.note(last);
        let answer = wr.write_punct(None, mark.as_str());
        self.settle_noted(answer, before)
    }

    /// Writes the `<` or `{` that begins a child, or a closing tag.
    #[inline(never)]
    #[tactic(auto, unfolding(crate::specs::Tags::child_open), using(crate::proofs::Emission::Emitting::does_failed))]
    pub fn child_open<W: WriteJs>(&mut self, cfg: &Config, wr: &mut W, mark: Punctuator) -> Answer
        ensures items { Does (child_open (spelling mark))
            (state_of cfg.now (W.sheet wr.old) self.old)
            (state_of cfg.now (W.sheet wr.new) self.new) result }
        // Right behind the end of a tag or of a container, or behind text.
        ensures reads { is_jsx_open (spelling mark) ≡ true →
            AddsOn InText Anything (open_token (spelling mark) ∷ [])
            cfg.now (W.sheet wr.old) self.old (W.sheet wr.new) self.new result }
        ensures level { Stays (W.sheet wr.old) (W.sheet wr.new) result }
    {
        if self.failed {
            return Err(Refusal::Failed);
        }
        self.put_child_open(cfg, wr, mark)?;
        Ok(())
    }

    /// The call of the text between tags.
    fn put_jsx_text<W: WriteJs>(
        &mut self,
        cfg: &Config,
        wr: &mut W,
        span: Span,
        text: &str,
    ) -> Answer
        requires { self.old.failed ≡ false }
        ensures items { Does (step (Token kind.JsxText (StrLit span text.now)))
            (state_of cfg.now (W.sheet wr.old) self.old)
            (state_of cfg.now (W.sheet wr.new) self.new) result }
        ensures level { Stays (W.sheet wr.old) (W.sheet wr.new) result }
    {
        let _ = cfg;
        let answer = wr.write_str_lit(span, text);
        self.settle(answer, PreviousToken::TextEnd)
    }

    /// Writes the text between tags.
    #[inline(never)]
    #[tactic(auto, unfolding(crate::specs::Tags::jsx_text), using(crate::proofs::Emission::Emitting::does_failed))]
    pub fn jsx_text<W: WriteJs>(
        &mut self,
        cfg: &Config,
        wr: &mut W,
        span: Span,
        text: &str,
    ) -> Answer
        ensures items { Does (jsx_text span text.now) (state_of cfg.now (W.sheet wr.old) self.old)
            (state_of cfg.now (W.sheet wr.new) self.new) result }
        // Right behind the end of a tag or of a container; what begins a child follows, or a closing tag.
        ensures reads { is_utf8 text.now ≡ true → is_jsx_text (chars text.now) ≡ true →
            AddsOn Between InText (text_token text.now ∷ [])
            cfg.now (W.sheet wr.old) self.old (W.sheet wr.new) self.new result }
        ensures level { Stays (W.sheet wr.old) (W.sheet wr.new) result }
    {
        if self.failed {
            return Err(Refusal::Failed);
        }
        self.put_jsx_text(cfg, wr, span, text)?;
        Ok(())
    }

    /// The call of the `>` that closes a tag, a list of types or a type assertion.
    #[inline(always)]
    fn put_close<W: WriteJs>(&mut self, cfg: &Config, wr: &mut W) -> Answer
        requires { self.old.failed ≡ false }
        ensures items { Does (step (Token kind.Close (Punct None (codes ">"))))
            (state_of cfg.now (W.sheet wr.old) self.old)
            (state_of cfg.now (W.sheet wr.new) self.new) result }
        ensures level { Stays (W.sheet wr.old) (W.sheet wr.new) result }
    {
        let _ = cfg;
        let before = self.note(PreviousToken::Closing);
        let answer = wr.write_punct(None, ">");
        self.settle_noted(answer, before)
    }

    /// Writes the `>` that closes a tag, a list of types or a type assertion.
    #[inline(always)]
    #[tactic(auto, unfolding(crate::specs::Tags::close))]
    pub fn close<W: WriteJs>(&mut self, cfg: &Config, wr: &mut W) -> Answer
        ensures items { Does close (state_of cfg.now (W.sheet wr.old) self.old)
            (state_of cfg.now (W.sheet wr.new) self.new) result }
        // The text reads as the tokens so far and this one, whatever follows that doesn't fuse.
        ensures reads { Adds (closing ∷ [])
            cfg.now (W.sheet wr.old) self.old (W.sheet wr.new) self.new result }
        // Behind a name in a tag too; a child may follow.
        ensures in_tag { AddsOn InName Between (closing ∷ [])
            cfg.now (W.sheet wr.old) self.old (W.sheet wr.new) self.new result }
        ensures level { Stays (W.sheet wr.old) (W.sheet wr.new) result }
    {
        self.guard_mark(cfg, wr, Punctuator::Greater)?;
        self.put_close(cfg, wr)?;
        Ok(())
    }
}
