//! Statements.

use crate::objects::Both;
use crate::reading::{Make, ReadFrom, Variant, Whole, members};
use crate::source::{Failed, Source};
use crate::{held, made, names, values};
use serde::Name;
use swc_ecma_codegen_common::Span;
use swc_ecma_codegen_tree::{
    BlockStmt, BlockStmtBox, BreakStmt, CatchClause, ContinueStmt, DebuggerStmt, DoWhileStmt,
    EmptyStmt, ExprBox, ExprStmt, ForHead, ForInStmt, ForOfStmt, ForStmt, Ident, IfStmt,
    LabeledStmt, ReturnStmt, Stmt, StmtBox, SwitchCase, SwitchStmt, ThrowStmt, TryStmt,
    VarDeclOrExpr, WhileStmt, WithStmt,
};

impl<N: Drop> ReadFrom<N> for Stmt<N> {
    type Parts = Variant;

    fn names() -> &'static [Name<'static>] {
        names!(
            Block, Empty, Debugger, With, Return, Labeled, Break, Continue, If, Switch, Throw, Try,
            While, DoWhile, For, ForIn, ForOf, Decl, Expr
        )
    }

    fn of<S: Source, M: Make<N>>(
        variant: Variant,
        source: &mut S,
        make: &M,
    ) -> Result<Stmt<N>, Failed> {
        held!(variant, source, make => Stmt {
            Block, Empty, Debugger, With, Return,
        } else labels_and_choices)
    }
}

/// Labels, jumps to them, and choices.
#[inline(always)]
fn labels_and_choices<N: Drop, S: Source, M: Make<N>>(
    variant: Variant,
    source: &mut S,
    make: &M,
) -> Result<Stmt<N>, Failed> {
    held!(variant, source, make => Stmt {
        Labeled, Break, Continue, If, Switch,
    } else faults_and_loops)
}

/// What throws or catches, and loops.
#[inline(always)]
fn faults_and_loops<N: Drop, S: Source, M: Make<N>>(
    variant: Variant,
    source: &mut S,
    make: &M,
) -> Result<Stmt<N>, Failed> {
    held!(variant, source, make => Stmt {
        Throw, Try, While, DoWhile, For,
    } else other_stmts)
}

/// The other statements.
#[inline(always)]
fn other_stmts<N: Drop, S: Source, M: Make<N>>(
    variant: Variant,
    source: &mut S,
    make: &M,
) -> Result<Stmt<N>, Failed> {
    held!(variant, source, make => Stmt { ForIn, ForOf, Decl, Expr })
}

impl<N: Drop> ReadFrom<N> for BlockStmt<N> {
    type Parts = (Span, (Vec<Stmt<N>>, ()));

    fn names() -> &'static [Name<'static>] {
        names!(span, stmts)
    }

    fn of<S: Source, M: Make<N>>(
        values: Self::Parts,
        _source: &mut S,
        _make: &M,
    ) -> Result<BlockStmt<N>, Failed> {
        made!(values => BlockStmt { span, stmts })
    }
}

impl<N: Drop> ReadFrom<N> for EmptyStmt {
    type Parts = (Span, ());

    fn names() -> &'static [Name<'static>] {
        names!(span)
    }

    fn of<S: Source, M: Make<N>>(
        values: Self::Parts,
        _source: &mut S,
        _make: &M,
    ) -> Result<EmptyStmt, Failed> {
        made!(values => EmptyStmt { span })
    }
}

impl<N: Drop> ReadFrom<N> for DebuggerStmt {
    type Parts = (Span, ());

    fn names() -> &'static [Name<'static>] {
        names!(span)
    }

    fn of<S: Source, M: Make<N>>(
        values: Self::Parts,
        _source: &mut S,
        _make: &M,
    ) -> Result<DebuggerStmt, Failed> {
        made!(values => DebuggerStmt { span })
    }
}

impl<N: Drop> ReadFrom<N> for ExprStmt<N> {
    type Parts = (Span, (ExprBox<N>, ()));

    fn names() -> &'static [Name<'static>] {
        names!(span, expr)
    }

    fn of<S: Source, M: Make<N>>(
        values: Self::Parts,
        _source: &mut S,
        _make: &M,
    ) -> Result<ExprStmt<N>, Failed> {
        made!(values => ExprStmt { span, expr })
    }
}

impl<N: Drop> ReadFrom<N> for WithStmt<N> {
    type Parts = (Span, (ExprBox<N>, (StmtBox<N>, ())));

    fn names() -> &'static [Name<'static>] {
        names!(span, obj, body)
    }

    fn of<S: Source, M: Make<N>>(
        values: Self::Parts,
        _source: &mut S,
        _make: &M,
    ) -> Result<WithStmt<N>, Failed> {
        made!(values => WithStmt { span, obj, body })
    }
}

impl<N: Drop> ReadFrom<N> for ReturnStmt<N> {
    type Parts = (Span, (Option<ExprBox<N>>, ()));

    fn names() -> &'static [Name<'static>] {
        names!(span, arg)
    }

    fn of<S: Source, M: Make<N>>(
        values: Self::Parts,
        _source: &mut S,
        _make: &M,
    ) -> Result<ReturnStmt<N>, Failed> {
        made!(values => ReturnStmt { span, arg })
    }
}

impl<N: Drop> ReadFrom<N> for LabeledStmt<N> {
    type Parts = (Span, (Ident, (StmtBox<N>, ())));

    fn names() -> &'static [Name<'static>] {
        names!(span, label, body)
    }

    fn of<S: Source, M: Make<N>>(
        values: Self::Parts,
        _source: &mut S,
        _make: &M,
    ) -> Result<LabeledStmt<N>, Failed> {
        made!(values => LabeledStmt { span, label, body })
    }
}

impl<N: Drop> ReadFrom<N> for BreakStmt {
    type Parts = (Span, (Option<Ident>, ()));

    fn names() -> &'static [Name<'static>] {
        names!(span, label)
    }

    fn of<S: Source, M: Make<N>>(
        values: Self::Parts,
        _source: &mut S,
        _make: &M,
    ) -> Result<BreakStmt, Failed> {
        made!(values => BreakStmt { span, label })
    }
}

impl<N: Drop> ReadFrom<N> for ContinueStmt {
    type Parts = (Span, (Option<Ident>, ()));

    fn names() -> &'static [Name<'static>] {
        names!(span, label)
    }

    fn of<S: Source, M: Make<N>>(
        values: Self::Parts,
        _source: &mut S,
        _make: &M,
    ) -> Result<ContinueStmt, Failed> {
        made!(values => ContinueStmt { span, label })
    }
}

impl<N: Drop> ReadFrom<N> for IfStmt<N> {
    type Parts = (Span, (ExprBox<N>, (StmtBox<N>, (Option<StmtBox<N>>, ()))));

    fn names() -> &'static [Name<'static>] {
        names!(span, test, cons, alt)
    }

    fn of<S: Source, M: Make<N>>(
        values: Self::Parts,
        _source: &mut S,
        _make: &M,
    ) -> Result<IfStmt<N>, Failed> {
        made!(values => IfStmt { span, test, cons, alt })
    }
}

impl<N: Drop> ReadFrom<N> for SwitchStmt<N> {
    type Parts = (Span, (ExprBox<N>, (Vec<SwitchCase<N>>, ())));

    fn names() -> &'static [Name<'static>] {
        names!(span, discriminant, cases)
    }

    fn of<S: Source, M: Make<N>>(
        values: Self::Parts,
        _source: &mut S,
        _make: &M,
    ) -> Result<SwitchStmt<N>, Failed> {
        made!(values => SwitchStmt { span, discriminant, cases })
    }
}

impl<N: Drop> ReadFrom<N> for SwitchCase<N> {
    type Parts = Whole;

    fn of<S: Source, M: Make<N>>(
        _whole: Whole,
        source: &mut S,
        make: &M,
    ) -> Result<SwitchCase<N>, Failed> {
        let values!(span, test, cons) = members(names!(span, test, cons), source, make)?;
        Ok(SwitchCase { span, test, cons })
    }
}

impl<N: Drop> ReadFrom<N> for ThrowStmt<N> {
    type Parts = (Span, (ExprBox<N>, ()));

    fn names() -> &'static [Name<'static>] {
        names!(span, arg)
    }

    fn of<S: Source, M: Make<N>>(
        values: Self::Parts,
        _source: &mut S,
        _make: &M,
    ) -> Result<ThrowStmt<N>, Failed> {
        made!(values => ThrowStmt { span, arg })
    }
}

impl<N: Drop> ReadFrom<N> for TryStmt<N> {
    type Parts = (
        Span,
        (
            BlockStmtBox<N>,
            (Option<CatchClause<N>>, (Option<BlockStmtBox<N>>, ())),
        ),
    );

    fn names() -> &'static [Name<'static>] {
        names!(span, block, handler, finalizer)
    }

    fn of<S: Source, M: Make<N>>(
        values: Self::Parts,
        _source: &mut S,
        _make: &M,
    ) -> Result<TryStmt<N>, Failed> {
        made!(values => TryStmt { span, block, handler, finalizer })
    }
}

impl<N: Drop> ReadFrom<N> for CatchClause<N> {
    type Parts = Whole;

    fn of<S: Source, M: Make<N>>(
        _whole: Whole,
        source: &mut S,
        make: &M,
    ) -> Result<CatchClause<N>, Failed> {
        let values!(span, param, body) = members(names!(span, param, body), source, make)?;
        Ok(CatchClause { span, param, body })
    }
}

impl<N: Drop> ReadFrom<N> for WhileStmt<N> {
    type Parts = (Span, (ExprBox<N>, (StmtBox<N>, ())));

    fn names() -> &'static [Name<'static>] {
        names!(span, test, body)
    }

    fn of<S: Source, M: Make<N>>(
        values: Self::Parts,
        _source: &mut S,
        _make: &M,
    ) -> Result<WhileStmt<N>, Failed> {
        made!(values => WhileStmt { span, test, body })
    }
}

impl<N: Drop> ReadFrom<N> for DoWhileStmt<N> {
    type Parts = (Span, (ExprBox<N>, (StmtBox<N>, ())));

    fn names() -> &'static [Name<'static>] {
        names!(span, test, body)
    }

    fn of<S: Source, M: Make<N>>(
        values: Self::Parts,
        _source: &mut S,
        _make: &M,
    ) -> Result<DoWhileStmt<N>, Failed> {
        made!(values => DoWhileStmt { span, test, body })
    }
}

impl<N: Drop> ReadFrom<N> for ForStmt<N> {
    type Parts = Both<
        (Span, (Option<VarDeclOrExpr<N>>, (Option<ExprBox<N>>, ()))),
        (Option<ExprBox<N>>, (StmtBox<N>, ())),
    >;

    fn names() -> &'static [Name<'static>] {
        names!(span, init, test, update, body)
    }

    fn of<S: Source, M: Make<N>>(
        values: Self::Parts,
        _source: &mut S,
        _make: &M,
    ) -> Result<ForStmt<N>, Failed> {
        made!(values => ForStmt { span, init, test; update, body })
    }
}

impl<N: Drop> ReadFrom<N> for ForInStmt<N> {
    type Parts = (Span, (ForHead<N>, (ExprBox<N>, (StmtBox<N>, ()))));

    fn names() -> &'static [Name<'static>] {
        names!(span, left, right, body)
    }

    fn of<S: Source, M: Make<N>>(
        values: Self::Parts,
        _source: &mut S,
        _make: &M,
    ) -> Result<ForInStmt<N>, Failed> {
        made!(values => ForInStmt { span, left, right, body })
    }
}

impl<N: Drop> ReadFrom<N> for ForOfStmt<N> {
    type Parts = Both<(Span, (bool, (ForHead<N>, ()))), (ExprBox<N>, (StmtBox<N>, ()))>;

    fn names() -> &'static [Name<'static>] {
        names!(span, is_await, left, right, body)
    }

    fn of<S: Source, M: Make<N>>(
        values: Self::Parts,
        _source: &mut S,
        _make: &M,
    ) -> Result<ForOfStmt<N>, Failed> {
        made!(values => ForOfStmt { span, is_await, left; right, body })
    }
}

impl<N: Drop> ReadFrom<N> for ForHead<N> {
    type Parts = Variant;

    fn names() -> &'static [Name<'static>] {
        names!(VarDecl, UsingDecl, Pat)
    }

    fn of<S: Source, M: Make<N>>(
        variant: Variant,
        source: &mut S,
        make: &M,
    ) -> Result<ForHead<N>, Failed> {
        held!(variant, source, make => ForHead { VarDecl, UsingDecl, Pat })
    }
}

impl<N: Drop> ReadFrom<N> for VarDeclOrExpr<N> {
    type Parts = Variant;

    fn names() -> &'static [Name<'static>] {
        names!(VarDecl, Expr)
    }

    fn of<S: Source, M: Make<N>>(
        variant: Variant,
        source: &mut S,
        make: &M,
    ) -> Result<VarDeclOrExpr<N>, Failed> {
        held!(variant, source, make => VarDeclOrExpr { VarDecl, Expr })
    }
}
