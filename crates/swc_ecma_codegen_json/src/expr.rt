//! Expressions, by what they are.

use crate::reading::{Make, ReadFrom, Variant};
use crate::source::{Failed, Source};
use crate::{held, names};
use serde::Name;
use swc_ecma_codegen_tree::Expr;

impl<N: Drop> ReadFrom<N> for Expr<N> {
    type Parts = Variant;

    fn names() -> &'static [Name<'static>] {
        names!(
            This,
            Array,
            Object,
            Fn,
            Unary,
            Update,
            Bin,
            Assign,
            Member,
            SuperProp,
            Cond,
            Call,
            New,
            Seq,
            Ident,
            Lit,
            Tpl,
            TaggedTpl,
            Arrow,
            Class,
            Yield,
            MetaProp,
            Await,
            Paren,
            JSXMember,
            JSXNamespacedName,
            JSXEmpty,
            JSXElement,
            JSXFragment,
            TsTypeAssertion,
            TsConstAssertion,
            TsNonNull,
            TsAs,
            TsInstantiation,
            TsSatisfies,
            PrivateName,
            OptChain,
            Invalid
        )
    }

    fn of<S: Source, M: Make<N>>(
        variant: Variant,
        source: &mut S,
        make: &M,
    ) -> Result<Expr<N>, Failed> {
        held!(variant, source, make => Expr { This, Array, Object, Fn } else operators)
    }
}

/// Operators, and members.
#[inline(always)]
fn operators<N: Drop, S: Source, M: Make<N>>(
    variant: Variant,
    source: &mut S,
    make: &M,
) -> Result<Expr<N>, Failed> {
    held!(variant, source, make => Expr {
        Unary, Update, Bin, Assign, Member,
    } else calls)
}

/// Calls, and what stands beside them.
#[inline(always)]
fn calls<N: Drop, S: Source, M: Make<N>>(
    variant: Variant,
    source: &mut S,
    make: &M,
) -> Result<Expr<N>, Failed> {
    held!(variant, source, make => Expr {
        SuperProp, Cond, Call, New, Seq,
    } else values)
}

/// Names, literals, templates and arrow functions.
#[inline(always)]
fn values<N: Drop, S: Source, M: Make<N>>(
    variant: Variant,
    source: &mut S,
    make: &M,
) -> Result<Expr<N>, Failed> {
    held!(variant, source, make => Expr {
        Ident, Lit, Tpl, TaggedTpl, Arrow,
    } else classes)
}

/// Classes, what only functions hold, and parentheses.
#[inline(always)]
fn classes<N: Drop, S: Source, M: Make<N>>(
    variant: Variant,
    source: &mut S,
    make: &M,
) -> Result<Expr<N>, Failed> {
    held!(variant, source, make => Expr {
        Class, Yield, MetaProp, Await, Paren,
    } else jsx)
}

/// JSX.
#[inline(always)]
fn jsx<N: Drop, S: Source, M: Make<N>>(
    variant: Variant,
    source: &mut S,
    make: &M,
) -> Result<Expr<N>, Failed> {
    held!(variant, source, make => Expr {
        JSXMember, JSXNamespacedName, JSXEmpty,
        JSXElement, JSXFragment,
    } else typescript)
}

/// TypeScript.
#[inline(always)]
fn typescript<N: Drop, S: Source, M: Make<N>>(
    variant: Variant,
    source: &mut S,
    make: &M,
) -> Result<Expr<N>, Failed> {
    held!(variant, source, make => Expr {
        TsTypeAssertion, TsConstAssertion, TsNonNull,
        TsAs, TsInstantiation,
    } else other_exprs)
}

/// The other expressions.
#[inline(always)]
fn other_exprs<N: Drop, S: Source, M: Make<N>>(
    variant: Variant,
    source: &mut S,
    make: &M,
) -> Result<Expr<N>, Failed> {
    held!(variant, source, make => Expr {
        TsSatisfies, PrivateName, OptChain, Invalid,
    })
}
