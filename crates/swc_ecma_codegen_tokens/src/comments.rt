//! Comments that are taken out of the maps and written.

ghost use Rattle.std.specs.Prelude.{◌≡◌, codes, is_some, string_bytes};
ghost use Rattle.swc_ecma_codegen_grammar.specs.declared.comments.CommentKind.TheVariants.{Line as OfLine, Block as OfBlock};
ghost use Rattle.swc_ecma_codegen_text_writer.specs.Sheet.{Comment as Piece};
ghost use Rattle.swc_ecma_codegen_grammar.specs.Comments.{maps_in};
ghost use Rattle.swc_ecma_codegen_tokens.specs.Run.{Does, DoesTaking, step, Guard, Plain, CommentText, Stays};
ghost use Rattle.swc_ecma_codegen_tokens.specs.Words.{comment_blank, before_closing, comment_by, comment, comments, leading_comments, trailing_comments, comments_before_end};
ghost use Rattle.swc_ecma_codegen_tokens.specs.View.{state_of};

use crate::LowerEmitter;
use crate::previous::PreviousToken;
use crate::starts::StartClass;
use swc_ecma_codegen_common::{Answer, BytePos, Refusal};
use swc_ecma_codegen_grammar::comments::{Comment, CommentKind, Comments};
use swc_ecma_codegen_literals::Punctuator;
use swc_ecma_codegen_settings::config::Config;
use swc_ecma_codegen_text_writer::WriteJs;

/// Whether comments stand before a position.
#[inline(always)]
#[tactic(auto, unfolding(swc_ecma_codegen_grammar::specs::Comments::maps_in))]
pub fn leads<C: Comments>(comments: &Option<C>, pos: BytePos) -> bool
    ensures { result ≡ is_some ((maps_in C.maps comments.now).leading pos.0) }
{
    match comments {
        None => false,
        Some(all) => all.has_leading(pos),
    }
}

/// Whether comments stand after a position.
#[inline(always)]
#[tactic(auto, unfolding(swc_ecma_codegen_grammar::specs::Comments::maps_in))]
pub fn trails<C: Comments>(comments: &Option<C>, pos: BytePos) -> bool
    ensures { result ≡ is_some ((maps_in C.maps comments.now).trailing pos.0) }
{
    match comments {
        None => false,
        Some(all) => all.has_trailing(pos),
    }
}

impl LowerEmitter {
    /// The call of a piece of a comment: what opens or closes it, or the blank before it.
    #[inline(never)]
    fn comment_piece<W: WriteJs>(&mut self, cfg: &Config, wr: &mut W, text: &str) -> Answer
        ensures items { Does (step (Plain (Piece text.now)))
            (state_of cfg.now (W.sheet wr.old) self.old)
            (state_of cfg.now (W.sheet wr.new) self.new) result }
        ensures level { Stays (W.sheet wr.old) (W.sheet wr.new) result }
    {
        let _ = cfg;
        if self.failed {
            return Err(Refusal::Failed);
        }
        let before = self.note(PreviousToken::Separated);
        let answer = wr.write_comment(text);
        self.settle_noted(answer, before)
    }

    /// The call of the text of a comment.
    #[inline(never)]
    fn comment_text<W: WriteJs>(&mut self, cfg: &Config, wr: &mut W, text: &str) -> Answer
        ensures items { Does (step (CommentText text.now))
            (state_of cfg.now (W.sheet wr.old) self.old)
            (state_of cfg.now (W.sheet wr.new) self.new) result }
        ensures level { Stays (W.sheet wr.old) (W.sheet wr.new) result }
    {
        let _ = cfg;
        if self.failed {
            return Err(Refusal::Failed);
        }
        let before = self.note(PreviousToken::Separated);
        let answer = wr.write_comment(text);
        self.settle_noted(answer, before)
    }

    /// The blank that is due before a comment up to the end of its line.
    #[tactic(auto, using(crate::proofs::Commenting::CommentStarts::line_start))]
    fn guard_line_comment<W: WriteJs>(&mut self, cfg: &Config, wr: &mut W) -> Answer
        ensures items { Does (step (Guard (codes "//")))
            (state_of cfg.now (W.sheet wr.old) self.old)
            (state_of cfg.now (W.sheet wr.new) self.new) result }
        ensures level { Stays (W.sheet wr.old) (W.sheet wr.new) result }
    {
        self.guard(cfg, wr, "//", StartClass::of_mark(Punctuator::Slash))
    }

    /// The blank that is due before a comment in a line.
    #[tactic(auto, using(crate::proofs::Commenting::CommentStarts::block_start))]
    fn guard_block_comment<W: WriteJs>(&mut self, cfg: &Config, wr: &mut W) -> Answer
        ensures items { Does (step (Guard (codes "/*")))
            (state_of cfg.now (W.sheet wr.old) self.old)
            (state_of cfg.now (W.sheet wr.new) self.new) result }
        ensures level { Stays (W.sheet wr.old) (W.sheet wr.new) result }
    {
        self.guard(cfg, wr, "/*", StartClass::of_mark(Punctuator::Slash))
    }

    /// The position before what closes a comment, where there is room for one.
    #[tactic(auto, unfolding(crate::specs::Words::before_closing))]
    fn before_closing<W: WriteJs>(&mut self, cfg: &Config, wr: &mut W, pos: BytePos) -> Answer
        ensures items { Does (before_closing pos) (state_of cfg.now (W.sheet wr.old) self.old)
            (state_of cfg.now (W.sheet wr.new) self.new) result }
        ensures level { Stays (W.sheet wr.old) (W.sheet wr.new) result }
    {
        if 2 < pos.0 {
            return self.record(cfg, wr, BytePos(pos.0 - 2));
        }
        Ok(())
    }

    /// `// a`, and the end of its line.
    #[tactic(auto, unfolding(crate::specs::Words::comment_by))]
    fn line_comment<W: WriteJs>(&mut self, cfg: &Config, wr: &mut W, node: &Comment) -> Answer
        ensures items { Does (comment_by OfLine node.now.span (string_bytes node.now.text))
            (state_of cfg.now (W.sheet wr.old) self.old)
            (state_of cfg.now (W.sheet wr.new) self.new) result }
        ensures level { Stays (W.sheet wr.old) (W.sheet wr.new) result }
    {
        self.position(cfg, wr, node.span.lo)?;
        self.guard_line_comment(cfg, wr)?;
        self.comment_piece(cfg, wr, "//")?;
        self.comment_text(cfg, wr, &node.text)?;
        self.position(cfg, wr, node.span.hi)?;
        self.line(cfg, wr)
    }

    /// `/* a */`, and a blank unless the settings are to minify.
    #[tactic(auto, unfolding(crate::specs::Words::comment_by))]
    fn block_comment<W: WriteJs>(&mut self, cfg: &Config, wr: &mut W, node: &Comment) -> Answer
        ensures items { Does (comment_by OfBlock node.now.span (string_bytes node.now.text))
            (state_of cfg.now (W.sheet wr.old) self.old)
            (state_of cfg.now (W.sheet wr.new) self.new) result }
        ensures level { Stays (W.sheet wr.old) (W.sheet wr.new) result }
    {
        self.position(cfg, wr, node.span.lo)?;
        self.guard_block_comment(cfg, wr)?;
        self.comment_piece(cfg, wr, "/*")?;
        self.comment_text(cfg, wr, &node.text)?;
        self.before_closing(cfg, wr, node.span.hi)?;
        self.comment_piece(cfg, wr, "*/")?;
        self.formatting_space(cfg, wr)
    }

    /// The blank before a comment, unless the settings are to minify.
    #[tactic(auto, using(crate::proofs::Commenting::CommentSteps::no_blank, crate::proofs::Commenting::CommentSteps::skipped_blank, crate::proofs::Commenting::CommentSteps::blank_written))]
    fn comment_blank<W: WriteJs>(&mut self, cfg: &Config, wr: &mut W, wanted: bool) -> Answer
        ensures items { Does (comment_blank wanted) (state_of cfg.now (W.sheet wr.old) self.old)
            (state_of cfg.now (W.sheet wr.new) self.new) result }
        ensures level { Stays (W.sheet wr.old) (W.sheet wr.new) result }
    {
        if !wanted {
            return Ok(());
        }
        if cfg.minify {
            return Ok(());
        }
        self.comment_piece(cfg, wr, " ")
    }

    /// A comment.
    #[tactic(auto, unfolding(crate::specs::Words::comment))]
    fn comment<W: WriteJs>(
        &mut self,
        cfg: &Config,
        wr: &mut W,
        node: &Comment,
        prefix_space: bool,
    ) -> Answer
        ensures items { Does (comment prefix_space node.now)
            (state_of cfg.now (W.sheet wr.old) self.old)
            (state_of cfg.now (W.sheet wr.new) self.new) result }
        ensures level { Stays (W.sheet wr.old) (W.sheet wr.new) result }
    {
        self.comment_blank(cfg, wr, prefix_space)?;
        match node.kind {
            CommentKind::Line => self.line_comment(cfg, wr, node),
            CommentKind::Block => self.block_comment(cfg, wr, node),
        }
    }

    /// Comments, one after another.
    fn comments<W: WriteJs>(
        &mut self,
        cfg: &Config,
        wr: &mut W,
        nodes: &[Comment],
        prefix_space: bool,
    ) -> Answer
        ensures items { Does (comments prefix_space nodes.now)
            (state_of cfg.now (W.sheet wr.old) self.old)
            (state_of cfg.now (W.sheet wr.new) self.new) result }
        ensures level { Stays (W.sheet wr.old) (W.sheet wr.new) result }
    {
        for node in nodes {
            match self.comment(cfg, wr, node, prefix_space) {
                Ok(()) => {}
                Err(refusal) => return Err(refusal),
            }
        }
        Ok(())
    }

    /// Takes the comments before a position out of the maps, and writes them. Where there are none there, that takes no call.
    #[inline(always)]
    #[tactic(auto, using(crate::proofs::Commenting::NoComments::leading_unasked))]
    pub fn leading_comments<W: WriteJs, C: Comments>(
        &mut self,
        cfg: &Config,
        comments: &mut Option<C>,
        wr: &mut W,
        pos: BytePos,
    ) -> Answer
        ensures items { DoesTaking (leading_comments pos) (maps_in C.maps comments.old)
            (maps_in C.maps comments.new) (state_of cfg.now (W.sheet wr.old) self.old)
            (state_of cfg.now (W.sheet wr.new) self.new) result }
        ensures level { Stays (W.sheet wr.old) (W.sheet wr.new) result }
    {
        if !leads(comments, pos) {
            return Ok(());
        }
        self.leading_taken(cfg, comments, wr, pos)
    }

    /// The same where there are some.
    #[inline(never)]
    fn leading_taken<W: WriteJs, C: Comments>(
        &mut self,
        cfg: &Config,
        comments: &mut Option<C>,
        wr: &mut W,
        pos: BytePos,
    ) -> Answer
        ensures items { DoesTaking (leading_comments pos) (maps_in C.maps comments.old)
            (maps_in C.maps comments.new) (state_of cfg.now (W.sheet wr.old) self.old)
            (state_of cfg.now (W.sheet wr.new) self.new) result }
        ensures level { Stays (W.sheet wr.old) (W.sheet wr.new) result }
    {
        if self.failed {
            return Err(Refusal::Failed);
        }
        if pos.0 == 0 {
            return Ok(());
        }
        match comments {
            None => Ok(()),
            Some(all) => match all.take_leading(pos) {
                None => Ok(()),
                Some(list) => self.comments(cfg, wr, &list, false),
            },
        }
    }

    /// The same before the last character of what ends at a position: those before `}`.
    #[inline(always)]
    #[tactic(auto, using(crate::proofs::Commenting::NoComments::end_unasked, crate::proofs::Commenting::CommentSteps::end_nowhere))]
    pub fn comments_before_end<W: WriteJs, C: Comments>(
        &mut self,
        cfg: &Config,
        comments: &mut Option<C>,
        wr: &mut W,
        pos: BytePos,
    ) -> Answer
        ensures items { DoesTaking (comments_before_end pos) (maps_in C.maps comments.old)
            (maps_in C.maps comments.new) (state_of cfg.now (W.sheet wr.old) self.old)
            (state_of cfg.now (W.sheet wr.new) self.new) result }
        ensures level { Stays (W.sheet wr.old) (W.sheet wr.new) result }
    {
        if pos.0 == 0 {
            return Ok(());
        }
        if !leads(comments, BytePos(pos.0 - 1)) {
            return Ok(());
        }
        self.end_taken(cfg, comments, wr, pos)
    }

    /// The same where there are some.
    #[inline(never)]
    fn end_taken<W: WriteJs, C: Comments>(
        &mut self,
        cfg: &Config,
        comments: &mut Option<C>,
        wr: &mut W,
        pos: BytePos,
    ) -> Answer
        ensures items { DoesTaking (comments_before_end pos) (maps_in C.maps comments.old)
            (maps_in C.maps comments.new) (state_of cfg.now (W.sheet wr.old) self.old)
            (state_of cfg.now (W.sheet wr.new) self.new) result }
        ensures level { Stays (W.sheet wr.old) (W.sheet wr.new) result }
    {
        if self.failed {
            return Err(Refusal::Failed);
        }
        if pos.0 == 0 {
            return Ok(());
        }
        match comments {
            None => Ok(()),
            Some(all) => match all.take_leading(BytePos(pos.0 - 1)) {
                None => Ok(()),
                Some(list) => self.comments(cfg, wr, &list, false),
            },
        }
    }

    /// Takes the comments after a position out of the maps, and writes them. Where there are none there, that takes no call.
    #[inline(always)]
    #[tactic(auto, using(crate::proofs::Commenting::NoComments::trailing_unasked))]
    pub fn trailing_comments<W: WriteJs, C: Comments>(
        &mut self,
        cfg: &Config,
        comments: &mut Option<C>,
        wr: &mut W,
        pos: BytePos,
        prefix_space: bool,
    ) -> Answer
        ensures items { DoesTaking (trailing_comments prefix_space pos)
            (maps_in C.maps comments.old) (maps_in C.maps comments.new)
            (state_of cfg.now (W.sheet wr.old) self.old)
            (state_of cfg.now (W.sheet wr.new) self.new) result }
        ensures level { Stays (W.sheet wr.old) (W.sheet wr.new) result }
    {
        if !trails(comments, pos) {
            return Ok(());
        }
        self.trailing_taken(cfg, comments, wr, pos, prefix_space)
    }

    /// The same where there are some.
    #[inline(never)]
    fn trailing_taken<W: WriteJs, C: Comments>(
        &mut self,
        cfg: &Config,
        comments: &mut Option<C>,
        wr: &mut W,
        pos: BytePos,
        prefix_space: bool,
    ) -> Answer
        ensures items { DoesTaking (trailing_comments prefix_space pos)
            (maps_in C.maps comments.old) (maps_in C.maps comments.new)
            (state_of cfg.now (W.sheet wr.old) self.old)
            (state_of cfg.now (W.sheet wr.new) self.new) result }
        ensures level { Stays (W.sheet wr.old) (W.sheet wr.new) result }
    {
        if self.failed {
            return Err(Refusal::Failed);
        }
        if pos.0 == 0 {
            return Ok(());
        }
        match comments {
            None => Ok(()),
            Some(all) => match all.take_trailing(pos) {
                None => Ok(()),
                Some(list) => self.comments(cfg, wr, &list, prefix_space),
            },
        }
    }
}
