//! Callers that make trees of others, as a code mod does: these need parentheses that none of their
//! parts has.

ghost use Rattle.std.specs.Prelude.{◌≡◌, true, IfOk, string_bytes};
ghost use Rattle.swc_ecma_codegen_syntax.specs.declared.nonterminals.Nonterminal.TheVariants.{Expression};
ghost use Rattle.swc_ecma_codegen_syntax.specs.Derives.{expr_verdict};
ghost use Rattle.swc_ecma_codegen_syntax.specs.Parameters.{of_script};
ghost use Rattle.swc_ecma_codegen_examples.specs.MendedTexts.{IsMendedText};
ghost use Rattle.swc_ecma_codegen_examples.specs.Products.{IsOperationOf, OfProduct};

use crate::NoText;
use crate::structure::{NoMeaning, text_that_keeps_structure};
use std::alloc::{AllocError, Global};
use swc_ecma_codegen_common::{BinaryOp, DUMMY_SP, Error};
use swc_ecma_codegen_json::Tree;
use swc_ecma_codegen_parentheses::{Unmended, parenthesize, parenthesize_expr};
use swc_ecma_codegen_syntax::{Nonterminal, Parameters};
use swc_ecma_codegen_tree::{BinExpr, Expr, ExprBox, Program};

/// `left op right`, with no parentheses.
fn operation_of(alloc: Global, op: BinaryOp, left: Expr, right: Expr) -> Result<Expr, AllocError>
    ensures { IfOk result (IsOperationOf op left right) }
{
    let span = DUMMY_SP;
    let left = ExprBox::new(alloc, left)?;
    let right = ExprBox::new(alloc, right)?;
    Ok(Expr::Bin(BinExpr {
        span,
        op,
        left,
        right,
    }))
}

/// `left * right`, with the parentheses that the operands need there: of `a + b` and `c` it makes
/// `(a + b) * c`.
pub fn product(alloc: Global, left: Expr, right: Expr) -> Result<Expr, Unmended<Expr>>
    ensures parenthesized { IfOk result
        (λ r. (expr_verdict Expression of_script r).parenthesized ≡ true) }
    ensures product { IfOk result (OfProduct left right) }
{
    let product = operation_of(alloc, BinaryOp::Mul, left, right)?;
    parenthesize_expr(
        alloc,
        product,
        Nonterminal::Expression,
        Parameters::script(),
    )
}

/// The text of a program that a code mod put together, with the parentheses that it lacks:
/// `(a + b) * c` of a sum in a product. It is refused if its text would mean another program even
/// so, as that of `a() = b` does.
pub fn mended_text(alloc: Global, program: Program) -> Result<String, NoMeaning>
    ensures { IfOk result (λ text. IsMendedText program (string_bytes text)) }
{
    match parenthesize(alloc, program) {
        Ok(program) => {
            // (a `Tree` lets a program go by a `drop` that is proved once)
            let mended = Tree(program);
            text_that_keeps_structure(alloc, &mended.0)
        }
        Err(Unmended::OutOfMemory) => {
            Err(NoMeaning::NoText(NoText::Refused(Error::OutOfMemory)))
        }
        Err(Unmended::TooDeep(program) | Unmended::Stopped(program) | Unmended::Left(program)) => {
            let _left = Tree(program);
            Err(NoMeaning::OtherStructure)
        }
    }
}
