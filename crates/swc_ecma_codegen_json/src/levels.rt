//! What ties the readers of the nodes together: they are generic in what links hold, and only here
//! is it `AnyNode`.

use crate::expr_nodes::{read_expr, read_expr_part, read_member_expr};
use crate::jsx_nodes::read_jsx_part;
use crate::reading::{Make, Readable, Sort};
use crate::source::{Failed, Fault, Source};
use crate::stmt_nodes::{read_stmt, read_stmt_part};
use crate::ts_nodes::read_ts_part;
use std::alloc::{AllocError, Global};
use swc_ecma_codegen_tree::AnyNode;

/// How many links may still lie below one another. It gets shorter at each link, so that reading
/// ends.
#[derive(Drop)]
pub enum Levels {
    Out,
    More(Box<Levels>),
}

/// As many levels as JSON is read of, so that another refusal always comes before this one.
fn all_levels(alloc: Global) -> Result<Levels, AllocError> {
    let mut levels = Levels::Out;
    for _ in 0..127 {
        levels = Levels::More(Box::new(alloc, levels)?);
    }
    Ok(levels)
}

impl Readable for AnyNode {
    type Maker = Levels;

    fn maker(alloc: Global) -> Result<Levels, AllocError> {
        all_levels(alloc)
    }

    fn read_sorted<S: Source, M: Make<AnyNode>>(
        sort: Sort,
        source: &mut S,
        make: &M,
    ) -> Result<AnyNode, Failed> {
        read_node(sort, source, make)
    }
}

impl Make<AnyNode> for Levels {
    #[inline(always)]
    fn make<S: Source>(&self, sort: Sort, source: &mut S) -> Result<AnyNode, Failed> {
        match self {
            Levels::More(fewer) => read_node::<S, Levels>(sort, source, fewer),
            Levels::Out => Err(source.fail(Fault::TooDeep)),
        }
    }
}

/// A node of a sort, read by its area. What its links hold is made by `make`. What a link holds is
/// made of it here, by its variant: that a link may hold a sort, said to a reader of that sort,
/// would be compared with the whole tree.
fn read_node<S: Source, M: Make<AnyNode>>(
    sort: Sort,
    source: &mut S,
    make: &M,
) -> Result<AnyNode, Failed> {
    Ok(match sort {
        Sort::Expr => AnyNode::Expr(read_expr(source, make)?),
        Sort::Stmt => AnyNode::Stmt(read_stmt(source, make)?),
        Sort::MemberExpr => AnyNode::MemberExpr(read_member_expr(source, make)?),
        Sort::ExprPart(sort) => AnyNode::ExprPart(read_expr_part(sort, source, make)?),
        Sort::StmtPart(sort) => AnyNode::StmtPart(read_stmt_part(sort, source, make)?),
        Sort::JSXPart(sort) => AnyNode::JSXPart(read_jsx_part(sort, source, make)?),
        Sort::TsPart(sort) => AnyNode::TsPart(read_ts_part(sort, source, make)?),
    })
}
