//! What is assigned to.

use crate::reading::{Make, ReadFrom, Variant};
use crate::source::{Failed, Source};
use crate::{held, names};
use serde::Name;
use swc_ecma_codegen_tree::{AssignTarget, SimpleAssignTarget};

impl<N: Drop> ReadFrom<N> for AssignTarget<N> {
    type Parts = Variant;

    fn names() -> &'static [Name<'static>] {
        names!(Simple, Pat)
    }

    fn of<S: Source, M: Make<N>>(
        variant: Variant,
        source: &mut S,
        make: &M,
    ) -> Result<AssignTarget<N>, Failed> {
        held!(variant, source, make => AssignTarget { Simple, Pat })
    }
}

impl<N: Drop> ReadFrom<N> for SimpleAssignTarget<N> {
    type Parts = Variant;

    fn names() -> &'static [Name<'static>] {
        names!(
            Ident,
            Member,
            SuperProp,
            Paren,
            OptChain,
            TsAs,
            TsSatisfies,
            TsNonNull,
            TsTypeAssertion,
            TsInstantiation,
            Invalid
        )
    }

    fn of<S: Source, M: Make<N>>(
        variant: Variant,
        source: &mut S,
        make: &M,
    ) -> Result<SimpleAssignTarget<N>, Failed> {
        held!(variant, source, make => SimpleAssignTarget {
            Ident, Member, SuperProp, Paren, OptChain,
        } else ts_targets)
    }
}

/// What is assigned to in TypeScript, and what is invalid.
#[inline(always)]
fn ts_targets<N: Drop, S: Source, M: Make<N>>(
    variant: Variant,
    source: &mut S,
    make: &M,
) -> Result<SimpleAssignTarget<N>, Failed> {
    held!(variant, source, make => SimpleAssignTarget {
        TsAs, TsSatisfies, TsNonNull, TsTypeAssertion, TsInstantiation, Invalid,
    })
}
