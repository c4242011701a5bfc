//! Nodes of the sorts of expressions, as links hold them. A function each, since a check of one
//! that names the readers of many sorts is dear.

use crate::part;
use crate::reading::{ExprPartSort, Make, read};
use crate::source::{Failed, Source};
use swc_ecma_codegen_tree::{
    AssignTarget, Expr, ExprPart, MemberExpr, ObjectLit, OptCall, Pat, PropName, Tpl,
};

/// An expression, and all that lies below it.
pub fn read_expr<N: Drop, S: Source, M: Make<N>>(
    source: &mut S,
    make: &M,
) -> Result<Expr<N>, Failed> {
    read(source, make)
}

/// A member expression, and all that lies below it.
pub fn read_member_expr<N: Drop, S: Source, M: Make<N>>(
    source: &mut S,
    make: &M,
) -> Result<MemberExpr<N>, Failed> {
    read(source, make)
}

fn pat<N: Drop, S: Source, M: Make<N>>(source: &mut S, make: &M) -> Result<ExprPart<N>, Failed> {
    part!(Pat, source, make)
}

fn tpl<N: Drop, S: Source, M: Make<N>>(source: &mut S, make: &M) -> Result<ExprPart<N>, Failed> {
    part!(Tpl, source, make)
}

fn object_lit<N: Drop, S: Source, M: Make<N>>(
    source: &mut S,
    make: &M,
) -> Result<ExprPart<N>, Failed> {
    part!(ObjectLit, source, make)
}

fn prop_name<N: Drop, S: Source, M: Make<N>>(
    source: &mut S,
    make: &M,
) -> Result<ExprPart<N>, Failed> {
    part!(PropName, source, make)
}

fn opt_call<N: Drop, S: Source, M: Make<N>>(
    source: &mut S,
    make: &M,
) -> Result<ExprPart<N>, Failed> {
    part!(OptCall, source, make)
}

fn assign_target<N: Drop, S: Source, M: Make<N>>(
    source: &mut S,
    make: &M,
) -> Result<ExprPart<N>, Failed> {
    part!(AssignTarget, source, make)
}

/// A part of an expression, or a pattern, by its sort, and all that lies below it.
pub fn read_expr_part<N: Drop, S: Source, M: Make<N>>(
    sort: ExprPartSort,
    source: &mut S,
    make: &M,
) -> Result<ExprPart<N>, Failed> {
    match sort {
        ExprPartSort::Pat => pat(source, make),
        ExprPartSort::Tpl => tpl(source, make),
        ExprPartSort::ObjectLit => object_lit(source, make),
        ExprPartSort::PropName => prop_name(source, make),
        ExprPartSort::OptCall => opt_call(source, make),
        ExprPartSort::AssignTarget => assign_target(source, make),
    }
}
