//! Programs, items, statements and expressions with their parentheses.

ghost use Rattle.std.specs.Prelude.{◌≡◌, ◌⊎◌, IfErr, IfOk, Ok, true, false};
ghost use Rattle.std.specs.Result.{OnOk};
ghost use Rattle.swc_ecma_codegen_parentheses.specs.Roots.{IfLeft, IfTooDeep, SameExprTree, SameItemTree, SameProgramTree, SameStmtTree};
ghost use Rattle.swc_ecma_codegen_syntax.specs.Derives.{expr_verdict, item_verdict, program_verdict, stmt_verdict};
ghost use Rattle.swc_ecma_codegen_syntax.specs.Verdicts.{holds};

use crate::added::Added;
use crate::depths::{is_item_too_deep, is_program_too_deep};
use crate::enclosed::{mend_expr, mend_stmt};
use crate::mends::{Mend, Stop, Usage};
use crate::operands::Context;
use crate::places::Place;
use crate::recursion::{Levels, all_levels};
use std::alloc::{AllocError, Global};
use swc_ecma_codegen_syntax::{
    Nonterminal, Parameters, Verdict, verdict, verdict_expr, verdict_item, verdict_stmt,
};
use swc_ecma_codegen_tree::{AnyNode, Expr, ModuleItem, Program, Stmt};

/// Why there is no tree with all its parentheses.
#[derive(Drop)]
pub enum Unmended<T> {
    /// Memory was refused. The tree is let go.
    OutOfMemory,
    /// More than `MAX_DEPTH` links lie below one another. The tree is given back as it was.
    TooDeep(T),
    /// The pass stopped: a pair that it had put in could be left out, which no test has met; or
    /// `parenthesize_stmt` or `parenthesize_expr` was given what is too deep. The tree is given
    /// back with the parentheses that it got.
    Stopped(T),
    /// Parentheses are missing still. The tree is given back with those that it got.
    Left(T),
}

impl<T> From<AllocError> for Unmended<T> {
    fn from(_: AllocError) -> Unmended<T> {
        Unmended::OutOfMemory
    }
}

/// What is said of a tree with the parentheses that it got.
#[tactic(auto, unfolding(swc_ecma_codegen_syntax::specs::Verdicts::holds))]
fn is_mended(before: Verdict, after: Verdict) -> bool
    ensures mended { result ≡ true → after.parenthesized ≡ true }
    ensures keeps { result ≡ true → holds false before ≡ true → holds true after ≡ true }
{
    after.parenthesized && (after.is_derivation() || !before.is_curable())
}

/// Puts parentheses into a program.
fn mend_program(alloc: Global, program: &mut Program) -> Result<(), Stop>
    ensures { OnOk result (SameProgramTree program.old program.new) }
{
    let levels: Levels<AnyNode, Added> = all_levels(alloc)?;
    <Program as Mend<AnyNode, Levels<AnyNode, Added>>>::mend(
        program,
        &levels,
        alloc,
        Place::of_program(),
    )
}

/// Puts parentheses into an item.
fn mend_item(alloc: Global, item: &mut ModuleItem, place: Place) -> Result<(), Stop>
    ensures { OnOk result (SameItemTree item.old item.new) }
{
    let levels: Levels<AnyNode, Added> = all_levels(alloc)?;
    <ModuleItem as Mend<AnyNode, Levels<AnyNode, Added>>>::mend(item, &levels, alloc, place)
}

/// Puts parentheses into a statement, and a block round it.
fn mend_whole_stmt(alloc: Global, stmt: &mut Stmt, place: Place) -> Result<(), Stop>
    ensures { OnOk result (SameStmtTree stmt.old stmt.new) }
{
    let levels: Levels<AnyNode, Added> = all_levels(alloc)?;
    mend_stmt::<AnyNode, Levels<AnyNode, Added>>(&levels, alloc, stmt, place)
}

/// Puts parentheses into an expression, and round it.
fn mend_whole_expr(
    alloc: Global,
    expr: &mut Expr,
    place: Nonterminal,
    parameters: Parameters,
) -> Result<(), Stop>
    ensures { OnOk result (SameExprTree place parameters expr.old expr.new) }
{
    let levels: Levels<AnyNode, Added> = all_levels(alloc)?;
    let at = Place::of(place, parameters);
    let usage = Usage::Part(place, Context::free(parameters));
    mend_expr::<AnyNode, Levels<AnyNode, Added>>(&levels, alloc, expr, at, usage)
}

/// A program with parentheses where the syntactic grammar of ECMA-262 needs them, whatever the
/// settings of the emission are, and with braces round an `if` that would take the `else` of
/// another. A program that lacks none is given back as it is.
///
/// `(a + b) * c` without its parentheses gets them, and `({}).a;` as a statement too. A pair has
/// the span of what it encloses. All else of the tree stays: spans, spellings, and parentheses that
/// were there. What parentheses don't mend, as `a() = b`, stays as wrong as it was;
/// `keeps_structure` of the result tells. A tree of more than `MAX_DEPTH` links below one another
/// is refused, if it lacks parentheses, before any are put in. Takes memory for new nodes, and for
/// `MAX_DEPTH` levels, which it gives back.
///
/// A tree with TypeScript gets them too, as `(a as T).b` does, by the levels of docs/LEVELS.md. No
/// grammar of it is cited, so of such a tree the clauses say no more than that it is the same but
/// for parentheses and blocks. Types and the bodies of namespaces are not gone into.
#[tactic(auto, using(crate::proofs::Verdicts::kept), unfolding(crate::specs::Roots::IfLeft, crate::specs::Roots::IfTooDeep))]
pub fn parenthesize(alloc: Global, program: Program) -> Result<Program, Unmended<Program>>
    ensures parenthesized { IfOk result (λ r. (program_verdict r).parenthesized ≡ true) }
    ensures keeps { holds false (program_verdict program) ≡ true →
        IfOk result (λ r. holds true (program_verdict r) ≡ true) }
    ensures same { IfOk result (λ r. (program ≡ r) ⊎ SameProgramTree program r) }
    ensures left { IfErr result (λ e. IfLeft e (SameProgramTree program)) }
    ensures too_deep { IfErr result (λ e. IfTooDeep e (λ r. r ≡ program)) }
    ensures untouched { (program_verdict program).covered ≡ true →
        (program_verdict program).parenthesized ≡ true → result ≡ Ok program }
{
    let before = verdict(&program);
    if before.covered && before.parenthesized {
        return Ok(program);
    }
    let mut program = program;
    match is_program_too_deep(alloc, &mut program) {
        Ok(false) => {}
        Ok(true) => return Err(Unmended::TooDeep(program)),
        Err(Stop::OutOfMemory) => return Err(Unmended::OutOfMemory),
        Err(_) => return Err(Unmended::Stopped(program)),
    }
    match mend_program(alloc, &mut program) {
        Err(Stop::OutOfMemory) => Err(Unmended::OutOfMemory),
        Err(Stop::TooDeep | Stop::Needless) => Err(Unmended::Stopped(program)),
        Ok(()) if is_mended(before, verdict(&program)) => Ok(program),
        Ok(()) => Err(Unmended::Left(program)),
    }
}

/// An item of a module with these parameters, as `Parameters::module()`, with its parentheses. See
/// `parenthesize`.
#[tactic(auto, using(crate::proofs::Verdicts::kept), unfolding(crate::specs::Roots::IfLeft, crate::specs::Roots::IfTooDeep))]
pub fn parenthesize_item(
    alloc: Global,
    item: ModuleItem,
    parameters: Parameters,
) -> Result<ModuleItem, Unmended<ModuleItem>>
    ensures parenthesized { IfOk result (λ r. (item_verdict parameters r).parenthesized ≡ true) }
    ensures keeps { holds false (item_verdict parameters item) ≡ true →
        IfOk result (λ r. holds true (item_verdict parameters r) ≡ true) }
    ensures same { IfOk result (λ r. (item ≡ r) ⊎ SameItemTree item r) }
    ensures left { IfErr result (λ e. IfLeft e (SameItemTree item)) }
    ensures too_deep { IfErr result (λ e. IfTooDeep e (λ r. r ≡ item)) }
    ensures untouched { (item_verdict parameters item).covered ≡ true →
        (item_verdict parameters item).parenthesized ≡ true → result ≡ Ok item }
{
    let before = verdict_item(&item, parameters);
    if before.covered && before.parenthesized {
        return Ok(item);
    }
    let mut item = item;
    match is_item_too_deep(alloc, &mut item) {
        Ok(false) => {}
        Ok(true) => return Err(Unmended::TooDeep(item)),
        Err(Stop::OutOfMemory) => return Err(Unmended::OutOfMemory),
        Err(_) => return Err(Unmended::Stopped(item)),
    }
    let place = Place::of(Nonterminal::Expression, parameters);
    match mend_item(alloc, &mut item, place) {
        Err(Stop::OutOfMemory) => Err(Unmended::OutOfMemory),
        Err(Stop::TooDeep | Stop::Needless) => Err(Unmended::Stopped(item)),
        Ok(()) if is_mended(before, verdict_item(&item, parameters)) => Ok(item),
        Ok(()) => Err(Unmended::Left(item)),
    }
}

/// A statement where this nonterminal with these parameters stands, with its parentheses:
/// Statement, or StatementListItem where a declaration may stand. See `parenthesize`. How deep it
/// is isn't asked before: one that is too deep is answered by `Stopped`, with the parentheses that
/// it got until then.
#[tactic(auto, using(crate::proofs::Verdicts::kept), unfolding(crate::specs::Roots::IfLeft))]
pub fn parenthesize_stmt(
    alloc: Global,
    stmt: Stmt,
    place: Nonterminal,
    parameters: Parameters,
) -> Result<Stmt, Unmended<Stmt>>
    ensures parenthesized { IfOk result
        (λ r. (stmt_verdict place parameters r).parenthesized ≡ true) }
    ensures keeps { holds false (stmt_verdict place parameters stmt) ≡ true →
        IfOk result (λ r. holds true (stmt_verdict place parameters r) ≡ true) }
    ensures same { IfOk result (λ r. (stmt ≡ r) ⊎ SameStmtTree stmt r) }
    ensures left { IfErr result (λ e. IfLeft e (SameStmtTree stmt)) }
    ensures untouched { (stmt_verdict place parameters stmt).covered ≡ true →
        (stmt_verdict place parameters stmt).parenthesized ≡ true → result ≡ Ok stmt }
{
    let before = verdict_stmt(&stmt, place, parameters);
    if before.covered && before.parenthesized {
        return Ok(stmt);
    }
    let mut stmt = stmt;
    let at = Place::of(place, parameters);
    match mend_whole_stmt(alloc, &mut stmt, at) {
        Err(Stop::OutOfMemory) => Err(Unmended::OutOfMemory),
        Err(Stop::TooDeep | Stop::Needless) => Err(Unmended::Stopped(stmt)),
        Ok(()) if is_mended(before, verdict_stmt(&stmt, place, parameters)) => Ok(stmt),
        Ok(()) => Err(Unmended::Left(stmt)),
    }
}

/// An expression where this nonterminal with these parameters stands, with its parentheses, round
/// it too. See `parenthesize`; here `parameters.minify` has to be that of the settings. How deep it
/// is isn't asked before either.
#[tactic(auto, using(crate::proofs::Verdicts::kept), unfolding(crate::specs::Roots::IfLeft))]
pub fn parenthesize_expr(
    alloc: Global,
    expr: Expr,
    place: Nonterminal,
    parameters: Parameters,
) -> Result<Expr, Unmended<Expr>>
    ensures parenthesized { IfOk result
        (λ r. (expr_verdict place parameters r).parenthesized ≡ true) }
    ensures keeps { holds false (expr_verdict place parameters expr) ≡ true →
        IfOk result (λ r. holds true (expr_verdict place parameters r) ≡ true) }
    ensures same { IfOk result (λ r. (expr ≡ r) ⊎ SameExprTree place parameters expr r) }
    ensures left { IfErr result (λ e. IfLeft e (SameExprTree place parameters expr)) }
    ensures untouched { (expr_verdict place parameters expr).covered ≡ true →
        (expr_verdict place parameters expr).parenthesized ≡ true → result ≡ Ok expr }
{
    let before = verdict_expr(&expr, place, parameters);
    if before.covered && before.parenthesized {
        return Ok(expr);
    }
    let mut expr = expr;
    match mend_whole_expr(alloc, &mut expr, place, parameters) {
        Err(Stop::OutOfMemory) => Err(Unmended::OutOfMemory),
        Err(Stop::TooDeep | Stop::Needless) => Err(Unmended::Stopped(expr)),
        Ok(()) if is_mended(before, verdict_expr(&expr, place, parameters)) => Ok(expr),
        Ok(()) => Err(Unmended::Left(expr)),
    }
}
