//! Specifiers of imports and exports: some stand among braces, others before them.

ghost use Rattle.std.specs.Prelude.{◌≡◌, Bool, false, [], map, filter};
ghost use Rattle.std.specs.List.{list_any};
ghost use Rattle.swc_ecma_codegen_grammar.specs.ListFormats.{indented};
ghost use Rattle.swc_ecma_codegen_emit.specs.Standing.{Performs};
ghost use Rattle.swc_ecma_codegen_tokens.specs.Lists.{list};
ghost use Rattle.swc_ecma_codegen_emit.specs.Lists.{child_of, braced_child, braced_rest};

use crate::emitter::Emitter;
use crate::nodes::Child;
use swc_ecma_codegen_common::Span;
use swc_ecma_codegen_grammar::ListFormat;
use swc_ecma_codegen_grammar::comments::Comments;
use swc_ecma_codegen_grammar::mapper::SourceMapper;
use swc_ecma_codegen_text_writer::WriteJs;

/// What is imported or exported.
pub trait Specifier: Child {
    ghost braced: { Self → Bool };

    ghost stars: { Self → Bool };

    /// Whether it stands among the braces.
    fn is_braced(&self) -> bool
        ensures { result ≡ braced self.now };

    /// Whether it is one of a namespace.
    fn is_star(&self) -> bool
        ensures { result ≡ stars self.now };
}

/// Whether some specifier stands among the braces.
pub(crate) fn has_braced<T: Specifier>(specifiers: &[T]) -> bool
    ensures { result ≡ list_any T.braced specifiers.now }
{
    specifiers.iter().any(T::is_braced)
}

/// Whether some specifier is one of a namespace.
pub(crate) fn has_star<T: Specifier>(specifiers: &[T]) -> bool
    ensures { result ≡ list_any T.stars specifiers.now }
{
    specifiers.iter().any(T::is_star)
}

impl<W: WriteJs, S: SourceMapper, C: Comments> Emitter<'_, W, S, C> {
    /// Writes one among the braces, after one that stands at `previous` where there is one.
    #[tactic(auto, using(crate::proofs::Steps::no_levels, crate::proofs::Standings::not_deeper), unfolding(crate::specs::Lists::braced_child))]
    fn braced_child<T: Child>(
        &mut self,
        format: ListFormat,
        parent: Span,
        previous: Option<Span>,
        child: &T,
    )
        requires { indented format.0 ≡ false }
        ensures items { Performs (braced_child format.0 parent previous
            (child_of T.stands T.items child.now)) S.lines C.maps W.sheet self.old self.new }
    {
        match previous {
            None => {
                self.first_child(format, parent, child, child.place());
            }
            Some(previous) => {
                self.next_child(format, previous, child, child.place());
            }
        }
    }

    /// Writes what closes the list, after one that stands at `previous` where there is one.
    #[tactic(auto, using(crate::proofs::Steps::no_levels, crate::proofs::Standings::not_shallower), unfolding(crate::specs::Lists::braced_rest, swc_ecma_codegen_tokens::specs::Lists::more_children, swc_ecma_codegen_tokens::specs::Lists::last_place))]
    fn braced_end(&mut self, format: ListFormat, parent: Span, previous: Option<Span>)
        requires { indented format.0 ≡ false }
        ensures items { Performs (braced_rest format.0 parent previous [])
            S.lines C.maps W.sheet self.old self.new }
    {
        match previous {
            None => {
                self.no_list(format, parent);
            }
            Some(last) => {
                self.list_closing(format, parent, last);
            }
        }
    }

    /// Writes the specifiers that stand among the braces.
    #[tactic(auto, using(crate::proofs::Steps::braced_next, crate::proofs::Steps::braced_passed), unfolding(crate::specs::Lists::braced_rest))]
    pub(crate) fn braced_list<T: Specifier>(
        &mut self,
        format: ListFormat,
        parent: Span,
        specifiers: &[T],
    )
        requires { indented format.0 ≡ false }
        ensures items { Performs (list format.0 parent
            (map (child_of T.stands T.items) (filter T.braced specifiers.now)))
            S.lines C.maps W.sheet self.old self.new }
    {
        let mut previous = None;
        for specifier in specifiers {
            if !specifier.is_braced() {
                continue;
            }
            self.braced_child(format, parent, previous, specifier);
            previous = Some(specifier.place());
        }
        self.braced_end(format, parent, previous);
    }
}
