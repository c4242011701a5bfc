//! Programs, items, statements and expressions without their parentheses.

ghost use Rattle.std.specs.Prelude.{◌≡◌, IfOk, true};
ghost use Rattle.std.specs.Result.{OnOk};
ghost use Rattle.swc_ecma_codegen_parentheses.specs.Bare.{bare_expr, bare_item, bare_program, bare_stmt};

use crate::bare::{InList, open_program, open_values};
use crate::bare_trees::{Bare, depth_of};
use crate::opens::is_out_of_pair;
use std::alloc::Global;
use swc_ecma_codegen_tree::{AnyNode, Expr, ModuleItem, Program, Stmt};
use swc_ecma_codegen_visit::{Stop, change_links};

/// Why there is no tree without parentheses. The tree is given back, without those that were taken
/// away till then.
#[derive(Drop)]
pub enum NotBare<T> {
    /// Memory was refused.
    OutOfMemory(T),
    /// More than `MAX_DEPTH` links, 4,000, lie below one another. The tree is given back as it was.
    TooDeep(T),
    /// Parentheses stand round the whole expression and hold none, as `ExprBox::holding` can make
    /// them.
    Stray(T),
}

/// Why, with the tree that is given back.
fn not_bare<T>(stop: Stop, tree: T) -> NotBare<T> {
    match stop {
        Stop::OutOfMemory => NotBare::OutOfMemory(tree),
        Stop::TooDeep => NotBare::TooDeep(tree),
    }
}

/// Takes parentheses out of a program.
fn bare_program(alloc: Global, program: &mut Program) -> Result<(), Stop>
    ensures { OnOk result (program.new ≡ bare_program program.old) }
{
    let depth = depth_of(alloc, program)?;
    change_links(alloc, program, &mut Bare {}, depth)?;
    open_program(program)
}

/// Takes parentheses out of an item.
fn bare_item(alloc: Global, item: &mut ModuleItem) -> Result<(), Stop>
    ensures { OnOk result (item.new ≡ bare_item item.old) }
{
    let depth = depth_of(alloc, item)?;
    change_links(alloc, item, &mut Bare {}, depth)?;
    item.open_links()
}

/// Takes parentheses out of a statement.
fn bare_stmt(alloc: Global, stmt: &mut Stmt) -> Result<(), Stop>
    ensures { OnOk result (stmt.new ≡ bare_stmt stmt.old) }
{
    let depth = depth_of(alloc, stmt)?;
    change_links(alloc, stmt, &mut Bare {}, depth)?;
    stmt.open_links()
}

/// Takes parentheses out of an expression, and away that stand round it. Whether there is an
/// expression in these.
fn is_bare_expr(alloc: Global, expr: &mut Expr) -> Result<bool, Stop>
    ensures { IfOk result (λ is. is ≡ true → expr.new ≡ bare_expr expr.old) }
{
    let depth = depth_of(alloc, expr)?;
    change_links(alloc, expr, &mut Bare {}, depth)?;
    open_values::<AnyNode, Expr>(expr)?;
    Ok(is_out_of_pair(expr))
}

/// A program without its parentheses: each `Expr::Paren` becomes what stands in it.
/// `((a) + (b)) * c` becomes the tree of `a + b` times `c`, and all else of the tree stays, spans
/// and spellings too.
///
/// The text of the result can be read otherwise: `parenthesize` puts those in again that the
/// syntactic grammar needs. So a tree that went through both has no pair that it doesn't need, but
/// for the two that stay here, since the tree means something else without them:
///
/// - Round a string that is a statement: `("use strict");` is no directive. ECMA-262, section
///   11.2.1.
/// - Round what is assigned to, but for a property: `(a) = function () {}` gives the function no
///   name, and `a = function () {}` does. Section 13.15.2. So `((a)) = b` becomes `(a) = b`, also
///   in a pattern, as `[(a)] = b`; and `((a.b)) = c` becomes `a.b = c`.
///
/// It goes through the whole tree, types, decorators, enums and the bodies of namespaces too. A
/// comment at the position of a parenthesis isn't printed where no other node begins or ends there.
/// Takes memory for as many levels as the tree has, or for some more, which it gives back, and no
/// more stack than the tree is deep.
pub fn without_parentheses(alloc: Global, program: Program) -> Result<Program, NotBare<Program>>
    ensures bare { IfOk result (λ r. r ≡ bare_program program) }
{
    let mut program = program;
    match bare_program(alloc, &mut program) {
        Ok(()) => Ok(program),
        Err(stop) => Err(not_bare(stop, program)),
    }
}

/// An item of a module without its parentheses. See `without_parentheses`.
pub fn without_parentheses_item(
    alloc: Global,
    item: ModuleItem,
) -> Result<ModuleItem, NotBare<ModuleItem>>
    ensures bare { IfOk result (λ r. r ≡ bare_item item) }
{
    let mut item = item;
    match bare_item(alloc, &mut item) {
        Ok(()) => Ok(item),
        Err(stop) => Err(not_bare(stop, item)),
    }
}

/// A statement without its parentheses. See `without_parentheses`.
pub fn without_parentheses_stmt(alloc: Global, stmt: Stmt) -> Result<Stmt, NotBare<Stmt>>
    ensures bare { IfOk result (λ r. r ≡ bare_stmt stmt) }
{
    let mut stmt = stmt;
    match bare_stmt(alloc, &mut stmt) {
        Ok(()) => Ok(stmt),
        Err(stop) => Err(not_bare(stop, stmt)),
    }
}

/// An expression without its parentheses, those round it too. See `without_parentheses`.
pub fn without_parentheses_expr(alloc: Global, expr: Expr) -> Result<Expr, NotBare<Expr>>
    ensures bare { IfOk result (λ r. r ≡ bare_expr expr) }
{
    let mut expr = expr;
    match is_bare_expr(alloc, &mut expr) {
        Ok(true) => Ok(expr),
        Ok(false) => Err(NotBare::Stray(expr)),
        Err(stop) => Err(not_bare(stop, expr)),
    }
}
