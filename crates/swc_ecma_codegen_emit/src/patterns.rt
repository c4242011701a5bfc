//! What an arrow function asks of its parameters.

ghost use Rattle.std.specs.Prelude.{◌≡◌};
ghost use Rattle.swc_ecma_codegen_emit.specs.Patterns.{pat_kind, part_pattern};

use swc_ecma_codegen_tree::{ExprPart, Pat};

/// A pattern, by what it begins with.
#[derive(Debug, Clone, Copy, PartialEq, Eq)]
pub enum PatternKind {
    /// `a`
    PlainName,
    /// A name with a type or `?`.
    Name,
    /// `[a]`, `{ a }` or `...a`
    Marked,
    /// Any other pattern.
    Other,
}

/// What a pattern begins with.
#[tactic(auto, unfolding(crate::specs::Patterns::pat_kind, crate::specs::Patterns::name_kind))]
pub(crate) fn kind_of_pat<N>(node: &Pat<N>) -> PatternKind
    ensures { result ≡ pat_kind node.now }
{
    match node {
        Pat::Ident(name) => {
            if name.id.optional || name.type_ann.is_some() {
                PatternKind::Name
            } else {
                PatternKind::PlainName
            }
        }
        Pat::Array(_) | Pat::Rest(_) | Pat::Object(_) => PatternKind::Marked,
        _ => PatternKind::Other,
    }
}

/// What a pattern among these begins with.
#[tactic(auto, unfolding(crate::specs::Patterns::part_pattern))]
pub(crate) fn kind_of_part<N>(node: &ExprPart<N>) -> PatternKind
    ensures { result ≡ part_pattern node.now }
{
    match node {
        ExprPart::Pat(pat) => kind_of_pat(pat),
        _ => PatternKind::Other,
    }
}
