//! Programs with the parentheses that their texts need, or why they aren't printed.
#![tactic(auto)]

ghost use Rattle.std.specs.Prelude.{◌≡◌, Err, IfOk, Ok, false, true};
ghost use Rattle.swc_ecma_codegen_fix.specs.Mended.{HasFewest, IsFixed, IsMended};
ghost use Rattle.swc_ecma_codegen_syntax.specs.Derives.{program_verdict};
ghost use Rattle.swc_ecma_codegen_syntax.specs.Verdicts.{holds};

use std::alloc::Global;
use swc_ecma_codegen_json::Tree;
use swc_ecma_codegen_parentheses::{NotBare, Unmended, parenthesize, without_parentheses};
use swc_ecma_codegen_syntax::{Verdict, verdict};
use thiserror::Error as ThisError;

/// Why a program isn't printed. It is let go.
#[derive(Debug, Clone, Copy, PartialEq, Eq, ThisError)]
pub enum Unmendable {
    /// Memory was refused.
    #[error("out of memory")]
    OutOfMemory,
    /// Its text would be read as another tree, or as none. No parentheses mend it, as of `a() = b`,
    /// or `parenthesize` left some out.
    #[error("not a derivation")]
    NotADerivation,
    /// It lacks parentheses, and is deeper than `parenthesize` goes.
    #[error("too deep")]
    TooDeep,
}

/// A program with the parentheses that its text needs to be read as this tree, and with braces
/// round an `if` that would take the `else` of another. A sum as the operand of a product gets a
/// pair: `(a + b) * c`. A program whose text is read as this tree is given back as it is.
///
/// `a() = b` is refused, since no parentheses mend it. With `any` such a program is given back,
/// with the pairs that it got.
///
/// Two kinds of programs are refused with `any` too: one that lacks nothing but parentheses, if
/// `parenthesize` left some out; and one that lacks parentheses and has more than 4,000 links below
/// one another (`MAX_DEPTH` of `swc_ecma_codegen_parentheses`).
///
/// ECMA-262 has no productions for TypeScript and decorators. A program with these is given back
/// unless missing parentheses are seen in it.
#[tactic(auto, unfolding(swc_ecma_codegen_syntax::specs::Verdicts::holds))]
pub fn mended(alloc: Global, any: bool, tree: Tree) -> Result<Tree, Unmendable>
    ensures mended { IfOk result (λ r. IsMended any tree.0 r.0) }
    // A program whose text is read as this tree is neither changed nor refused,
    ensures untouched { holds true (program_verdict tree.0) ≡ true → result ≡ Ok tree }
    // and one that no parentheses mend is refused, unless any is asked for.
    ensures uncurable { any ≡ false → (program_verdict tree.0).covered ≡ true →
        (program_verdict tree.0).curable ≡ false → result ≡ Err Unmendable.NotADerivation }
{
    let before = verdict(&tree.0);
    if before.is_derivation() {
        return Ok(tree);
    }
    if !any && before.covered && !before.curable {
        return Err(Unmendable::NotADerivation);
    }
    match parenthesize(alloc, tree.into_program()) {
        Ok(program) => Ok(Tree(program)),
        Err(Unmended::Left(program)) => left(any, before, Tree(program)),
        Err(Unmended::TooDeep(program)) => refused(Unmendable::TooDeep, Tree(program)),
        // (nothing is promised of what it got until then)
        Err(Unmended::Stopped(program)) => refused(Unmendable::NotADerivation, Tree(program)),
        Err(Unmended::OutOfMemory) => Err(Unmendable::OutOfMemory),
    }
}

/// Mends a program whose own parentheses are taken away before, but for those that
/// `without_parentheses` lets stand. Of `((a) + (b)) * c` it makes `(a + b) * c`. A program of more
/// than 4,000 links below one another is refused.
pub fn fewest(alloc: Global, any: bool, tree: Tree) -> Result<Tree, Unmendable>
    ensures { IfOk result (λ r. HasFewest any tree.0 r.0) }
{
    match without_parentheses(alloc, tree.into_program()) {
        Ok(program) => mended(alloc, any, Tree(program)),
        Err(NotBare::OutOfMemory(program)) => refused(Unmendable::OutOfMemory, Tree(program)),
        Err(NotBare::TooDeep(program)) => refused(Unmendable::TooDeep, Tree(program)),
        Err(NotBare::Stray(program)) => refused(Unmendable::NotADerivation, Tree(program)),
    }
}

/// A program as `ecmafix` prints it: mended, after its own parentheses are taken away if the fewest
/// are asked for.
#[tactic(auto, unfolding(crate::specs::Mended::IsFixed))]
pub fn fixed(alloc: Global, fewest_asked: bool, any: bool, tree: Tree) -> Result<Tree, Unmendable>
    ensures { IfOk result (λ r. IsFixed fewest_asked any tree.0 r.0) }
{
    if fewest_asked {
        fewest(alloc, any, tree)
    } else {
        mended(alloc, any, tree)
    }
}

/// No program, for this reason. A `Tree` is let go by a `drop` that is proved once.
fn refused(why: Unmendable, _tree: Tree) -> Result<Tree, Unmendable>
    ensures { result ≡ Err why }
{
    Err(why)
}

/// A program that lacks parentheses even now, if any is asked for and something else was wrong with
/// it before.
fn left(any: bool, before: Verdict, tree: Tree) -> Result<Tree, Unmendable>
    ensures { IfOk result (λ r. (any ≡ true) × (holds false before ≡ false) × (r ≡ tree)) }
{
    if any && !before.is_curable() {
        Ok(tree)
    } else {
        Err(Unmendable::NotADerivation)
    }
}
