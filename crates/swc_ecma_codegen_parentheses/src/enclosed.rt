//! Parentheses round an expression or a name, and blocks round an `if`.

ghost use Rattle.std.specs.Prelude.{◌≡◌, IfOk, true};
ghost use Rattle.std.specs.Option.{option_and_then};
ghost use Rattle.std.specs.Result.{OnOk};
ghost use Rattle.swc_ecma_codegen_parentheses.specs.Enclosed.{SameExpr, SamePat, SameStmt, blocks, encloses, encloses_name, is_barred, is_barred_name, is_short_if};
ghost use Rattle.swc_ecma_codegen_parentheses.specs.Needed.{needs};
ghost use Rattle.swc_ecma_codegen_syntax.specs.Beginnings.{name_begins};
ghost use Rattle.swc_ecma_codegen_tree.specs.LinkTargets.{block_stmt_in};

use crate::exprs::wants_parentheses;
use crate::lends::Lends;
use crate::mends::{Mend, Mends, Stop, Usage};
use crate::operands::Operand;
use crate::places::Place;
use crate::within::Within;
use std::alloc::{AllocError, Global};
use std::mem;
use swc_ecma_codegen_common::DUMMY_SP;
use swc_ecma_codegen_spans::Spanned;
use swc_ecma_codegen_syntax::Beginning;
use swc_ecma_codegen_tree::{
    BindingIdent, BlockStmt, BlockStmtBox, EmptyStmt, Expr, ExprBox, Holds, IfStmt, Invalid,
    ParenExpr, Pat, Stmt, StmtPart,
};

/// An expression in parentheses, which can't be left out where it is used so.
#[tactic(auto, unfolding(crate::specs::Enclosed::encloses))]
fn in_parentheses<N: Lends>(alloc: Global, expr: Expr<N>, usage: Usage) -> Result<Expr<N>, Stop>
    ensures { IfOk result (λ r. encloses
        (⟦<N as Holds<Expr<N>>>⟧.node_in) N.place (needs N.answers usage) expr r) }
{
    let span = expr.span();
    let expr = ExprBox::new(alloc, expr)?;
    if usage.needs_parentheses(&expr) {
        Ok(Expr::Paren(ParenExpr { span, expr }))
    } else {
        Err(Stop::Needless)
    }
}

/// A statement in a block.
#[tactic(auto, unfolding(crate::specs::Enclosed::blocks, crate::specs::Enclosed::is_block_of))]
fn in_block<N: Lends>(alloc: Global, stmt: Stmt<N>) -> Result<Stmt<N>, AllocError>
    ensures { IfOk result (λ r. blocks
        (λ n. option_and_then block_stmt_in (⟦<N as Holds<StmtPart<N>>>⟧.node_in n))
        N.place stmt r) }
{
    let span = stmt.span();
    let mut stmts = Vec::new(alloc);
    stmts.push(stmt)?;
    let block = BlockStmtBox::new(alloc, BlockStmt { span, stmts })?;
    Ok(Stmt::Block(block))
}

/// Puts parentheses into an expression, and round it, where they are missing.
pub(crate) fn mend_expr<N: Lends, M: Mends<N>>(
    mender: &M,
    alloc: Global,
    expr: &mut Expr<N>,
    place: Place,
    usage: Usage,
) -> Result<(), Stop>
    ensures { OnOk result (SameExpr N.answers (⟦<N as Holds<Expr<N>>>⟧.node_in) N.place
        (M.mended mender.now) usage expr.old expr.new) }
{
    let context = usage.context(place);
    if wants_parentheses(expr, place) {
        let inside = Operand::Inside.context(context);
        let within = Within {
            mender,
            context: inside,
        };
        expr.mend(&within, alloc, place.enclosed())?;
        let bare = mem::replace(expr, Expr::Invalid(Invalid { span: DUMMY_SP }));
        *expr = in_parentheses(alloc, bare, usage)?;
        Ok(())
    } else {
        let within = Within { mender, context };
        expr.mend(&within, alloc, place)
    }
}

/// What the text of a name begins with.
#[tactic(auto, unfolding(swc_ecma_codegen_syntax::specs::Beginnings::name_begins))]
fn name_begins(name: &str) -> Beginning
    ensures { result ≡ name_begins name.now }
{
    if name == "let" {
        Beginning::LetAlone
    } else if name == "async" {
        Beginning::AsyncAlone
    } else {
        Beginning::Other
    }
}

/// Whether what is used so may not be this name: `let` and `async` in `for (a of b) {}`.
fn is_barred(usage: Usage, name: &str) -> bool
    ensures { result ≡ is_barred usage name.now }
{
    match usage {
        Usage::Head(lookahead) => lookahead.excludes(name_begins(name)),
        _ => false,
    }
}

/// Whether a pattern is a name that it may not be where it is used so. A name with a type stays,
/// since none stands in parentheses.
fn is_barred_name<N>(pat: &Pat<N>, usage: Usage) -> bool
    ensures { result ≡ true → is_barred_name usage pat.now ≡ true }
{
    match pat {
        Pat::Ident(BindingIdent { id, type_ann: None }) => is_barred(usage, &id.sym),
        _ => false,
    }
}

/// A name in parentheses, as an expression that is assigned to: `(async)` of `async`.
#[tactic(auto, unfolding(crate::specs::Enclosed::encloses_name, crate::specs::Enclosed::is_name_in_pair))]
fn name_in_parentheses<N: Lends>(alloc: Global, pat: Pat<N>) -> Result<Pat<N>, Stop>
    ensures { IfOk result (encloses_name (⟦<N as Holds<Expr<N>>>⟧.node_in) pat) }
{
    match pat {
        Pat::Ident(name) => {
            let span = name.id.span;
            let expr = ExprBox::new(alloc, Expr::Ident(name.id))?;
            let pair = ExprBox::new(alloc, Expr::Paren(ParenExpr { span, expr }))?;
            Ok(Pat::Expr(pair))
        }
        _ => Err(Stop::Needless),
    }
}

/// Puts parentheses into a pattern, and round a name that the head of a loop may not be.
pub(crate) fn mend_pat<N: Lends, M: Mends<N>>(
    mender: &M,
    alloc: Global,
    pat: &mut Pat<N>,
    place: Place,
    usage: Usage,
) -> Result<(), Stop>
    ensures { OnOk result (SamePat (⟦<N as Holds<Expr<N>>>⟧.node_in)
        (M.mended mender.now) usage pat.old pat.new) }
{
    if is_barred_name(pat, usage) {
        let bare = mem::replace(pat, Pat::Invalid(Invalid { span: DUMMY_SP }));
        *pat = name_in_parentheses(alloc, bare)?;
        Ok(())
    } else {
        pat.mend(mender, alloc, place)
    }
}

/// Whether a statement is an `if` without `else` that would take the `else` behind it.
fn takes_else<N>(stmt: &Stmt<N>, place: Place) -> bool
    ensures { result ≡ true → is_short_if stmt.now ≡ true }
{
    match stmt {
        Stmt::If(IfStmt { alt: None, .. }) => place.before_else,
        _ => false,
    }
}

/// Puts parentheses into a statement, and a block round it where it would take an `else` of
/// another.
#[tactic(auto, using(crate::specs::Enclosed::unblocked))]
pub(crate) fn mend_stmt<N: Lends, M: Mends<N>>(
    mender: &M,
    alloc: Global,
    stmt: &mut Stmt<N>,
    place: Place,
) -> Result<(), Stop>
    ensures { OnOk result (SameStmt
        (λ n. option_and_then block_stmt_in (⟦<N as Holds<StmtPart<N>>>⟧.node_in n))
        N.place (M.mended mender.now) stmt.old stmt.new) }
{
    let is_missing = takes_else(stmt, place);
    let within = if is_missing { place.listed() } else { place };
    stmt.mend(mender, alloc, within)?;
    if is_missing {
        let bare = mem::replace(stmt, Stmt::Empty(EmptyStmt { span: DUMMY_SP }));
        *stmt = in_block(alloc, bare)?;
    }
    Ok(())
}
