//! Types, by what they are.

use crate::reading::{Make, ReadFrom, Variant};
use crate::source::{Failed, Source};
use crate::{held, names};
use serde::Name;
use swc_ecma_codegen_tree::TsType;

impl<N: Drop> ReadFrom<N> for TsType<N> {
    type Parts = Variant;

    fn names() -> &'static [Name<'static>] {
        names!(
            TsKeywordType,
            TsThisType,
            TsFnOrConstructorType,
            TsTypeRef,
            TsTypeQuery,
            TsTypeLit,
            TsArrayType,
            TsTupleType,
            TsOptionalType,
            TsRestType,
            TsUnionOrIntersectionType,
            TsConditionalType,
            TsInferType,
            TsParenthesizedType,
            TsTypeOperator,
            TsIndexedAccessType,
            TsMappedType,
            TsLitType,
            TsTypePredicate,
            TsImportType
        )
    }

    fn of<S: Source, M: Make<N>>(
        variant: Variant,
        source: &mut S,
        make: &M,
    ) -> Result<TsType<N>, Failed> {
        held!(variant, source, make => TsType {
            TsKeywordType, TsThisType, TsFnOrConstructorType, TsTypeRef, TsTypeQuery,
        } else members_and_items)
    }
}

/// Types with members or items.
#[inline(always)]
fn members_and_items<N: Drop, S: Source, M: Make<N>>(
    variant: Variant,
    source: &mut S,
    make: &M,
) -> Result<TsType<N>, Failed> {
    held!(variant, source, make => TsType {
        TsTypeLit, TsArrayType, TsTupleType, TsOptionalType, TsRestType,
    } else types_of_types)
}

/// Types that are made of others by an operator.
#[inline(always)]
fn types_of_types<N: Drop, S: Source, M: Make<N>>(
    variant: Variant,
    source: &mut S,
    make: &M,
) -> Result<TsType<N>, Failed> {
    held!(variant, source, make => TsType {
        TsUnionOrIntersectionType, TsConditionalType, TsInferType, TsParenthesizedType,
        TsTypeOperator,
    } else other_types)
}

/// The other types.
#[inline(always)]
fn other_types<N: Drop, S: Source, M: Make<N>>(
    variant: Variant,
    source: &mut S,
    make: &M,
) -> Result<TsType<N>, Failed> {
    held!(variant, source, make => TsType {
        TsIndexedAccessType, TsMappedType, TsLitType, TsTypePredicate, TsImportType,
    })
}
