//! Lists of nodes.

ghost use Rattle.std.specs.Prelude.{◌≡◌, true, [], ◌∷◌, map, option_map};
ghost use Rattle.swc_ecma_codegen_emit.specs.Standing.{KeepsSettings, HasLevels, standing_of, Performs, PerformsDeeper, PerformsShallower};
ghost use Rattle.swc_ecma_codegen_tokens.specs.Lists.{list_levels, opening, separator, child_comments, trailing_comma, closing, list_end, empty_list, first_child_after, first_child, next_child_after, next_child, list_closing, list_after, list, optional_list};
ghost use Rattle.swc_ecma_codegen_emit.specs.Lists.{comma, listed, plainly, in_order, child_of, as_asked};
ghost use Rattle.swc_ecma_codegen_emit.specs.Exprs.{held};

use crate::emitter::Emitter;
use crate::nodes::{Child, Context, EmitAt};
use crate::refusals::keep;
use bitflags::Flags;
use swc_ecma_codegen_common::{DUMMY_SP, Span};
use swc_ecma_codegen_grammar::ListFormat;
use swc_ecma_codegen_grammar::comments::Comments;
use swc_ecma_codegen_grammar::mapper::SourceMapper;
use swc_ecma_codegen_literals::Punctuator;
use swc_ecma_codegen_text_writer::WriteJs;
use swc_ecma_codegen_tree::ExprBox;

/// Where a child stands, as far as the lines of its list ask for that: only those do that end where
/// the source text's do.
#[inline(always)]
#[tactic(auto, unfolding(crate::specs::Lists::as_asked))]
fn asked_place<T: Child>(format: ListFormat, child: &T) -> Span
    ensures { result ≡ as_asked format.0 (T.stands child.now) }
{
    if format.contains(ListFormat::PreserveLines) {
        child.place()
    } else {
        DUMMY_SP
    }
}

impl<W: WriteJs, S: SourceMapper, C: Comments> Emitter<'_, W, S, C> {
    /// Writes a comma and a blank, except before the first.
    #[tactic(auto, unfolding(crate::specs::Lists::comma))]
    pub(crate) fn comma(&mut self, first: bool)
        ensures items { Performs (comma first) S.lines C.maps W.sheet self.old self.new }
    {
        if !first {
            self.punct(Punctuator::Comma);
            self.formatting_space();
        }
    }

    /// Writes expressions, with commas between.
    #[tactic(auto, using(crate::proofs::Steps::listed_next), unfolding(crate::specs::Lists::listed))]
    pub(crate) fn exprs<N: EmitAt>(&mut self, nodes: &[ExprBox<N>])
        ensures items { Performs (listed (held N.items) true nodes.now)
            S.lines C.maps W.sheet self.old self.new }
    {
        let mut first = true;
        for node in nodes {
            self.comma(first);
            node.target().emit_at(self, Context::Plain);
            first = false;
        }
    }

    /// Writes nodes, one after another.
    #[tactic(auto, using(crate::proofs::Steps::in_order_next), unfolding(crate::specs::Lists::in_order))]
    pub(crate) fn in_order<T: EmitAt>(&mut self, nodes: &[T])
        ensures items { Performs (in_order (plainly T.items) nodes.now)
            S.lines C.maps W.sheet self.old self.new }
    {
        for node in nodes {
            node.emit_at(self, Context::Plain);
        }
    }
}

/// Lists by their format. swc's `emit_list`. Each function is inlined into the one that names the
/// format, as `arguments` does, so a format is asked for nothing while a list is printed.
impl<W: WriteJs, S: SourceMapper, C: Comments> Emitter<'_, W, S, C> {
    /// Writes what stands before the first child.
    #[inline(always)]
    #[tactic(auto, using(crate::proofs::Standings::refused_deeper))]
    fn opening(&mut self, format: ListFormat, line: bool)
        ensures items { PerformsDeeper (list_levels format.0 self.old.cfg) (opening format.0 line)
            S.lines C.maps W.sheet self.old self.new }
        ensures level { HasLevels (list_levels format.0 self.old.cfg)
            (standing_of S.lines C.maps W.sheet self.new) }
    {
        if self.refusal.is_some() {
            return;
        }
        keep(
            &mut self.refusal,
            self.lower
                .list_opening(&self.cfg, &mut self.wr, format, line),
        );
    }

    /// Writes what stands between two children.
    #[inline(always)]
    #[tactic(auto, using(crate::proofs::Standings::refused_makes))]
    fn separator(&mut self, format: ListFormat, line: bool)
        ensures items { Performs (separator format.0 line)
            S.lines C.maps W.sheet self.old self.new }
    {
        if self.refusal.is_some() {
            return;
        }
        keep(
            &mut self.refusal,
            self.lower
                .list_separator(&self.cfg, &mut self.wr, format, line),
        );
    }

    /// Writes the comments right after a child. Where it stands is asked only where there are
    /// comments.
    #[inline(always)]
    #[tactic(auto, using(crate::proofs::Without::none_there, crate::proofs::Without::none_behind_child))]
    fn child_comments<T: Child>(&mut self, format: ListFormat, line: bool, child: &T)
        ensures items { Performs (child_comments format.0 line (T.stands child.now))
            S.lines C.maps W.sheet self.old self.new }
    {
        if self.comments.is_none() {
            return;
        }
        self.child_taken(format, line, child)
    }

    /// Writes the comments right after a child, where there are some.
    #[inline(never)]
    #[tactic(auto, using(crate::proofs::Standings::refused_makes))]
    fn child_taken<T: Child>(&mut self, format: ListFormat, line: bool, child: &T)
        ensures items { Performs (child_comments format.0 line (T.stands child.now))
            S.lines C.maps W.sheet self.old self.new }
    {
        if self.refusal.is_some() {
            return;
        }
        let place = child.place();
        keep(
            &mut self.refusal,
            self.lower.child_comments(
                &self.cfg,
                &mut self.comments,
                &mut self.wr,
                format,
                line,
                place,
            ),
        );
    }

    /// Writes the trailing comma of a list, where it has one.
    #[inline(always)]
    #[tactic(auto, using(crate::proofs::Standings::refused_makes))]
    fn trailing_comma(&mut self, format: ListFormat, parent: Span)
        ensures items { Performs (trailing_comma format.0 parent)
            S.lines C.maps W.sheet self.old self.new }
        ensures settings { self.new.cfg ≡ self.old.cfg }
    {
        if self.refusal.is_some() {
            return;
        }
        keep(
            &mut self.refusal,
            self.lower
                .trailing_comma(&self.cfg, self.cm, &mut self.wr, format, parent),
        );
    }

    /// Writes what stands after the last child, behind a trailing comma.
    #[inline(always)]
    #[tactic(auto, using(crate::proofs::Standings::refused_shallower))]
    fn closing(&mut self, format: ListFormat, parent: Span, last: Span)
        requires { HasLevels (list_levels format.0 self.old.cfg)
            (standing_of S.lines C.maps W.sheet self.old) }
        ensures items { PerformsShallower (list_levels format.0 self.old.cfg)
            (list_end format.0 parent last) S.lines C.maps W.sheet self.old self.new }
    {
        if self.refusal.is_some() {
            return;
        }
        let line = format.closing_line(self.cm, parent, last);
        keep(
            &mut self.refusal,
            self.lower
                .list_closing(&self.cfg, &mut self.wr, format, line),
        );
    }

    /// Writes what stands for a list without children.
    #[inline(always)]
    #[tactic(auto, using(crate::proofs::Standings::refused_makes))]
    fn empty_list(&mut self, format: ListFormat)
        ensures items { Performs (empty_list format.0) S.lines C.maps W.sheet self.old self.new }
    {
        if self.refusal.is_some() {
            return;
        }
        keep(
            &mut self.refusal,
            self.lower.empty_list(&self.cfg, &mut self.wr, format),
        );
    }

    /// Writes the first child, where a line ends before it or doesn't.
    #[inline(always)]
    #[tactic(auto, unfolding(swc_ecma_codegen_tokens::specs::Lists::first_child_after))]
    fn first_child_after<T: Child>(&mut self, format: ListFormat, line: bool, child: &T)
        ensures items { PerformsDeeper (list_levels format.0 self.old.cfg)
            (first_child_after format.0 line (child_of T.stands T.items child.now))
            S.lines C.maps W.sheet self.old self.new }
        ensures level { HasLevels (list_levels format.0 self.old.cfg)
            (standing_of S.lines C.maps W.sheet self.new) }
    {
        self.opening(format, line);
        child.emit_at(self, Context::Plain);
        self.child_comments(format, line, child);
    }

    /// Writes the first child, which stands at `place` as far as the lines of the list ask for
    /// that, and what stands before it.
    #[inline(always)]
    pub(crate) fn first_child<T: Child>(
        &mut self,
        format: ListFormat,
        parent: Span,
        child: &T,
        place: Span,
    )
        requires { as_asked format.0 place ≡ as_asked format.0 (T.stands child.now) }
        ensures items { PerformsDeeper (list_levels format.0 self.old.cfg)
            (first_child format.0 parent (child_of T.stands T.items child.now))
            S.lines C.maps W.sheet self.old self.new }
        ensures level { HasLevels (list_levels format.0 self.old.cfg)
            (standing_of S.lines C.maps W.sheet self.new) }
        ensures settings { KeepsSettings (standing_of S.lines C.maps W.sheet self.old)
            (standing_of S.lines C.maps W.sheet self.new) }
    {
        let line = format.leading_line(self.cm, parent, place);
        self.first_child_after(format, line, child)
    }

    /// Writes a child after another, where a line ends between them or doesn't.
    #[inline(always)]
    #[tactic(auto, unfolding(swc_ecma_codegen_tokens::specs::Lists::next_child_after))]
    fn next_child_after<T: Child>(&mut self, format: ListFormat, line: bool, child: &T)
        ensures items { Performs (next_child_after format.0 line
            (child_of T.stands T.items child.now)) S.lines C.maps W.sheet self.old self.new }
    {
        self.separator(format, line);
        child.emit_at(self, Context::Plain);
        self.child_comments(format, line, child);
    }

    /// Writes a child, which stands at `place` as far as the lines of the list ask for that, after
    /// one that stands at `previous`, and what stands between them.
    #[inline(always)]
    pub(crate) fn next_child<T: Child>(
        &mut self,
        format: ListFormat,
        previous: Span,
        child: &T,
        place: Span,
    )
        requires { as_asked format.0 place ≡ as_asked format.0 (T.stands child.now) }
        ensures items { Performs (next_child format.0 previous
            (child_of T.stands T.items child.now)) S.lines C.maps W.sheet self.old self.new }
        ensures settings { KeepsSettings (standing_of S.lines C.maps W.sheet self.old)
            (standing_of S.lines C.maps W.sheet self.new) }
    {
        let line = format.separating_line(self.cm, previous, place);
        self.next_child_after(format, line, child)
    }

    /// Writes what stands after the last child.
    #[inline(always)]
    #[tactic(auto, unfolding(swc_ecma_codegen_tokens::specs::Lists::list_closing))]
    pub(crate) fn list_closing(&mut self, format: ListFormat, parent: Span, last: Span)
        requires { HasLevels (list_levels format.0 self.old.cfg)
            (standing_of S.lines C.maps W.sheet self.old) }
        ensures items { PerformsShallower (list_levels format.0 self.old.cfg)
            (list_closing format.0 parent last) S.lines C.maps W.sheet self.old self.new }
    {
        self.trailing_comma(format, parent);
        self.closing(format, parent, last);
    }

    /// Writes the first child of a list, and says where it stands as far as the lines of the list
    /// ask.
    #[inline(always)]
    fn child_of_list<T: Child>(&mut self, format: ListFormat, parent: Span, child: &T) -> Span
        ensures place { as_asked format.0 result ≡ as_asked format.0 (T.stands child.now) }
        ensures items { PerformsDeeper (list_levels format.0 self.old.cfg)
            (first_child format.0 parent (child_of T.stands T.items child.now))
            S.lines C.maps W.sheet self.old self.new }
        ensures level { HasLevels (list_levels format.0 self.old.cfg)
            (standing_of S.lines C.maps W.sheet self.new) }
        ensures settings { KeepsSettings (standing_of S.lines C.maps W.sheet self.old)
            (standing_of S.lines C.maps W.sheet self.new) }
    {
        let place = asked_place(format, child);
        self.first_child(format, parent, child, place);
        place
    }

    /// Writes a child that stands after one at `previous`.
    #[inline(always)]
    fn child_after<T: Child>(&mut self, format: ListFormat, previous: Span, child: &T) -> Span
        ensures place { as_asked format.0 result ≡ as_asked format.0 (T.stands child.now) }
        ensures items { Performs (next_child format.0 previous
            (child_of T.stands T.items child.now)) S.lines C.maps W.sheet self.old self.new }
        ensures settings { KeepsSettings (standing_of S.lines C.maps W.sheet self.old)
            (standing_of S.lines C.maps W.sheet self.new) }
    {
        let place = asked_place(format, child);
        self.next_child(format, previous, child, place);
        place
    }

    /// Writes the children after one that stands at `previous`, and what stands after the last.
    #[inline(always)]
    #[tactic(auto, using(crate::proofs::Steps::list_next), unfolding(swc_ecma_codegen_tokens::specs::Lists::more_children, swc_ecma_codegen_tokens::specs::Lists::last_place))]
    fn list_after<T: Child>(
        &mut self,
        format: ListFormat,
        parent: Span,
        previous: Span,
        children: &[T],
    )
        requires { HasLevels (list_levels format.0 self.old.cfg)
            (standing_of S.lines C.maps W.sheet self.old) }
        ensures items { PerformsShallower (list_levels format.0 self.old.cfg)
            (list_after format.0 parent previous
            (map (child_of T.stands T.items) children.now))
            S.lines C.maps W.sheet self.old self.new }
    {
        let mut last = previous;
        for child in children {
            last = self.child_after(format, last, child);
        }
        self.list_closing(format, parent, last);
    }

    /// Writes a list that has a first child.
    #[inline(always)]
    #[tactic(auto, unfolding(swc_ecma_codegen_tokens::specs::Lists::list))]
    fn some_list<T: Child>(&mut self, format: ListFormat, parent: Span, first: &T, others: &[T])
        ensures items { Performs (list format.0 parent
            (map (child_of T.stands T.items) (first.now ∷ others.now)))
            S.lines C.maps W.sheet self.old self.new }
    {
        let place = self.child_of_list(format, parent, first);
        self.list_after(format, parent, place, others);
    }

    /// Writes a list without children.
    #[inline(always)]
    #[tactic(auto, unfolding(swc_ecma_codegen_tokens::specs::Lists::list))]
    pub(crate) fn no_list(&mut self, format: ListFormat, parent: Span)
        ensures items { Performs (list format.0 parent [])
            S.lines C.maps W.sheet self.old self.new }
    {
        let _ = parent;
        if format.contains(ListFormat::OptionalIfEmpty) {
            return;
        }
        self.empty_list(format)
    }

    /// Writes the children of a list that stands at `parent`. Its brackets aren't its own.
    #[inline(always)]
    pub(crate) fn list<T: Child>(&mut self, format: ListFormat, parent: Span, children: &[T])
        ensures items { Performs (list format.0 parent
            (map (child_of T.stands T.items) children.now))
            S.lines C.maps W.sheet self.old self.new }
    {
        match children.split_first() {
            Some((first, others)) => self.some_list(format, parent, first, others),
            None => self.no_list(format, parent),
        }
    }

    /// Writes the children of a list that may not be there.
    #[tactic(auto, unfolding(swc_ecma_codegen_tokens::specs::Lists::optional_list))]
    pub(crate) fn optional_list<T: Child>(
        &mut self,
        format: ListFormat,
        parent: Span,
        children: Option<&[T]>,
    )
        ensures items { Performs (optional_list format.0 parent
            (option_map (λ xs. map (child_of T.stands T.items) xs.now) children.entry))
            S.lines C.maps W.sheet self.old self.new }
    {
        match children {
            Some(children) => self.list(format, parent, children),
            None => {
                if format.contains(ListFormat::OptionalIfUndefined) {
                    return;
                }
                self.no_list(format, parent)
            }
        }
    }
}
