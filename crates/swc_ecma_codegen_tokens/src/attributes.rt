//! Strings of attributes, which have no escapes, and which text of JSX is printed.

ghost use Rattle.std.specs.Prelude.{◌≡◌, true, false, IfOk, IfErr, is_none, [], ◌∷◌, string_bytes};
ghost use Rattle.std.specs.Cow.{cow_str_bytes};
ghost use Rattle.std.specs.Str.{chars};
ghost use Rattle.swc_ecma_codegen_common.specs.declared.errors.Error.TheVariants.{OutOfMemory};
ghost use Rattle.swc_ecma_codegen_spans.specs.Spans.{dummy_span};
ghost use Rattle.swc_ecma_codegen_grammar.specs.Comments.{maps_in};
ghost use Rattle.swc_ecma_codegen_grammar.specs.Jsx as lexical;
ghost use Rattle.swc_ecma_codegen_grammar.specs.JsxPhrases.{holds, jsx_quoted, jsx_spelling, jsx_string, text_spelling};
ghost use Rattle.swc_ecma_codegen_grammar.specs.declared.kinds.Kind.TheVariants as kind;
ghost use Rattle.swc_ecma_codegen_text_writer.specs.Sheet.{StrLit};
ghost use Rattle.swc_ecma_codegen_tokens.specs.Run.{DoesTaking, Does, step, Token, Stays};
ghost use Rattle.swc_ecma_codegen_tokens.specs.Adds.{AddsOn, AddsTaking};
ghost use Rattle.swc_ecma_codegen_tokens.specs.Attributes.{has_no_text, attribute_token, attribute_by, spelled_string, attribute_string, jsx_text_node, jsx_text_lit};
ghost use Rattle.swc_ecma_codegen_tokens.specs.Tags.{text_token};
ghost use Rattle.swc_ecma_codegen_tokens.specs.View.{state_of};
ghost use Rattle.swc_ecma_codegen_tokens.specs.Written.{Between, InText};

use crate::LowerEmitter;
use crate::guard::REFUSED;
use crate::previous::PreviousToken;
use crate::raws::raw_text;
use crate::refusals::Unprintable;
use crate::starts::StartClass;
use std::alloc::{AllocError, Global};
use std::borrow::CowStr;
use swc_ecma_codegen_common::{Answer, DUMMY_SP, Error, Refusal, Span};
use swc_ecma_codegen_grammar::comments::Comments;
use swc_ecma_codegen_grammar::texts::is_jsx_text;
use swc_ecma_codegen_settings::config::Config;
use swc_ecma_codegen_text_writer::WriteJs;
use swc_ecma_codegen_tree::{JSXText, Str};

/// Which text is printed: the value, or the raw where that has no place between tags.
#[tactic(auto, unfolding(swc_ecma_codegen_grammar::specs::JsxPhrases::text_spelling))]
fn printed_text(n: &JSXText) -> &str
    ensures { result.now ≡ text_spelling n.now }
{
    if is_jsx_text(n.value.as_str()) {
        n.value.as_str()
    } else {
        n.raw.as_str()
    }
}

#[tactic(auto, unfolding(swc_ecma_codegen_grammar::specs::JsxPhrases::holds))]
fn holds_double_quote(text: &str) -> bool
    ensures { result ≡ holds 34 text.now }
{
    text.as_bytes().contains(&b'"')
}

#[tactic(auto, unfolding(swc_ecma_codegen_grammar::specs::JsxPhrases::holds))]
fn holds_single_quote(text: &str) -> bool
    ensures { result ≡ holds 39 text.now }
{
    text.as_bytes().contains(&b'\'')
}

/// A string of an attribute by its value.
#[tactic(auto, unfolding(swc_ecma_codegen_grammar::specs::JsxPhrases::jsx_quoted))]
fn quoted(alloc: Global, value: &str) -> std::result::Result<String, AllocError>
    ensures { IfOk result (λ text. string_bytes text ≡ jsx_quoted value.now) }
{
    let quote = if holds_double_quote(value) { "'" } else { "\"" };
    let mut text = String::new(alloc);
    text.push_str(quote)?;
    text.push_str(value)?;
    text.push_str(quote)?;
    Ok(text)
}

/// Whether a string of an attribute has no text: it has no raw, and its value holds both quotes.
fn has_no_text(n: &Str) -> bool
    ensures { result ≡ has_no_text n.now }
{
    n.raw.is_none() && holds_double_quote(n.value.as_str()) && holds_single_quote(n.value.as_str())
}

/// A string of an attribute as it is spelled. `Error::OutOfMemory` where there is no room for its text; a raw is lent.
#[tactic(auto, unfolding(swc_ecma_codegen_grammar::specs::JsxPhrases::jsx_spelling))]
fn string_text(alloc: Global, n: &Str) -> std::result::Result<CowStr<'_>, Error>
    ensures exactly { IfOk result (λ text. cow_str_bytes text
        ≡ jsx_spelling n.now.value n.now.raw) }
    ensures refused { IfErr result (λ error. error ≡ OutOfMemory) }
    ensures due { IfErr result (λ error. is_none n.now.raw ≡ true) }
{
    match &n.raw {
        Some(raw) => Ok(CowStr::Borrowed(raw.as_str())),
        None => Ok(CowStr::Owned(quoted(alloc, n.value.as_str())?)),
    }
}

impl LowerEmitter {
    /// The call of a string of an attribute.
    #[inline(never)]
    fn put_attribute<W: WriteJs>(&mut self, cfg: &Config, wr: &mut W, text: &str) -> Answer
        requires { self.old.failed ≡ false }
        ensures items { Does (step (Token kind.JsxString (StrLit dummy_span text.now)))
            (state_of cfg.now (W.sheet wr.old) self.old)
            (state_of cfg.now (W.sheet wr.new) self.new) result }
        ensures level { Stays (W.sheet wr.old) (W.sheet wr.new) result }
    {
        let _ = cfg;
        let answer = wr.write_str_lit(DUMMY_SP, text);
        self.settle(answer, PreviousToken::Whole)
    }

    /// Writes a string of an attribute as it is spelled.
    #[tactic(auto, unfolding(crate::specs::Attributes::attribute_token))]
    fn attribute_token<W: WriteJs>(&mut self, cfg: &Config, wr: &mut W, text: &str) -> Answer
        ensures items { Does (attribute_token text.now) (state_of cfg.now (W.sheet wr.old) self.old)
            (state_of cfg.now (W.sheet wr.new) self.new) result }
        ensures level { Stays (W.sheet wr.old) (W.sheet wr.new) result }
    {
        self.guard(cfg, wr, text, StartClass::of_literal(text))?;
        self.put_attribute(cfg, wr, text)?;
        Ok(())
    }

    /// Writes a string of an attribute by its text, with its comments and its position.
    #[tactic(auto, unfolding(crate::specs::Attributes::attribute_by))]
    fn attribute_by<W: WriteJs, C: Comments>(
        &mut self,
        cfg: &Config,
        comments: &mut Option<C>,
        wr: &mut W,
        span: Span,
        text: &str,
    ) -> Answer
        ensures items { DoesTaking (attribute_by span text.now) (maps_in C.maps comments.old)
            (maps_in C.maps comments.new) (state_of cfg.now (W.sheet wr.old) self.old)
            (state_of cfg.now (W.sheet wr.new) self.new) result }
        ensures level { Stays (W.sheet wr.old) (W.sheet wr.new) result }
    {
        self.begun(cfg, comments, wr, span, text)?;
        self.settled_begun(cfg, comments, wr, span, text)?;
        self.attribute_token(cfg, wr, text)?;
        Ok(())
    }

    /// Writes a string of an attribute that has a text.
    fn attribute_spelled<W: WriteJs, C: Comments>(
        &mut self,
        cfg: &Config,
        comments: &mut Option<C>,
        wr: &mut W,
        n: &Str,
    ) -> Answer
        ensures items { DoesTaking (spelled_string n.now) (maps_in C.maps comments.old)
            (maps_in C.maps comments.new) (state_of cfg.now (W.sheet wr.old) self.old)
            (state_of cfg.now (W.sheet wr.new) self.new) result }
        ensures level { Stays (W.sheet wr.old) (W.sheet wr.new) result }
    {
        if self.failed {
            return Err(Refusal::Failed);
        }
        match string_text(self.alloc, n) {
            Ok(text) => self.attribute_by(cfg, comments, wr, n.span, &text),
            Err(error) => {
                self.failed = true;
                self.row = REFUSED;
                Err(error.refusal())
            }
        }
    }

    /// Writes a string of an attribute, or refuses one that has no text.
    #[tactic(auto, unfolding(crate::specs::Attributes::attribute_string))]
    fn attribute_at<W: WriteJs, C: Comments>(
        &mut self,
        cfg: &Config,
        comments: &mut Option<C>,
        wr: &mut W,
        n: &Str,
    ) -> Answer
        ensures items { DoesTaking (attribute_string n.now) (maps_in C.maps comments.old)
            (maps_in C.maps comments.new) (state_of cfg.now (W.sheet wr.old) self.old)
            (state_of cfg.now (W.sheet wr.new) self.new) result }
        ensures level { Stays (W.sheet wr.old) (W.sheet wr.new) result }
    {
        if has_no_text(n) {
            return self.refuse(cfg, wr, Unprintable::BadShape);
        }
        self.attribute_spelled(cfg, comments, wr, n)
    }

    /// Writes a string of an attribute: by its raw where it has one, else by its value, without escapes.
    pub fn attribute_string<W: WriteJs, C: Comments>(
        &mut self,
        cfg: &Config,
        comments: &mut Option<C>,
        wr: &mut W,
        n: &Str,
    ) -> Answer
        ensures items { DoesTaking (attribute_string n.now) (maps_in C.maps comments.old)
            (maps_in C.maps comments.new) (state_of cfg.now (W.sheet wr.old) self.old)
            (state_of cfg.now (W.sheet wr.new) self.new) result }
        ensures reads { AddsTaking (jsx_string n.now) (attribute_string n.now)
            (maps_in C.maps comments.old)
            cfg.now (W.sheet wr.old) self.old (W.sheet wr.new) self.new result }
        ensures level { Stays (W.sheet wr.old) (W.sheet wr.new) result }
    {
        self.attribute_at(cfg, comments, wr, n)
    }

    /// Writes text between tags: its value, or its raw where that has no place there. swc's `emit_jsx_text`.
    pub fn jsx_text_node<W: WriteJs>(&mut self, cfg: &Config, wr: &mut W, n: &JSXText) -> Answer
        ensures items { Does (jsx_text_node n.now) (state_of cfg.now (W.sheet wr.old) self.old)
            (state_of cfg.now (W.sheet wr.new) self.new) result }
        // Right behind the end of a tag or of a container, as `jsx_text`.
        ensures reads { lexical.is_jsx_text (chars (text_spelling n.now)) ≡ true →
            AddsOn Between InText (text_token (text_spelling n.now) ∷ [])
            cfg.now (W.sheet wr.old) self.old (W.sheet wr.new) self.new result }
        ensures level { Stays (W.sheet wr.old) (W.sheet wr.new) result }
    {
        self.jsx_text(cfg, wr, n.span, printed_text(n))
    }

    /// The same as a literal, which begins as others do.
    #[tactic(auto, unfolding(crate::specs::Attributes::jsx_text_lit))]
    pub fn jsx_text_lit<W: WriteJs, C: Comments>(
        &mut self,
        cfg: &Config,
        comments: &mut Option<C>,
        wr: &mut W,
        n: &JSXText,
    ) -> Answer
        ensures items { DoesTaking (jsx_text_lit n.now) (maps_in C.maps comments.old)
            (maps_in C.maps comments.new) (state_of cfg.now (W.sheet wr.old) self.old)
            (state_of cfg.now (W.sheet wr.new) self.new) result }
        ensures level { Stays (W.sheet wr.old) (W.sheet wr.new) result }
    {
        self.begun(cfg, comments, wr, n.span, printed_text(n))?;
        self.jsx_text_node(cfg, wr, n)?;
        Ok(())
    }
}
