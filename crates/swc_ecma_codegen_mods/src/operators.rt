//! An operator in the place of another.

ghost use Rattle.std.specs.Prelude.{◌≡◌};
ghost use Rattle.std.specs.Result.{OnOk};
ghost use Rattle.swc_ecma_codegen_visit.specs.Changed.{with_nodes};
ghost use Rattle.swc_ecma_codegen_mods.specs.Operators.{strict, strict_operator};

use std::alloc::Global;
use swc_ecma_codegen_common::BinaryOp;
use swc_ecma_codegen_tree::{AnyNode, Expr, Program};
use swc_ecma_codegen_visit::{ChangeNode, Stop, change_nodes};

/// `===` in the place of `==`, and `!==` in the place of `!=`.
#[derive(Drop)]
struct Strict {}

fn strict_operator(op: BinaryOp) -> BinaryOp
    ensures { result ≡ strict_operator op }
{
    match op {
        BinaryOp::EqEq => BinaryOp::EqEqEq,
        BinaryOp::NotEq => BinaryOp::NotEqEq,
        op => op,
    }
}

impl ChangeNode for Strict {
    ghost step = { strict };

    #[tactic(auto, unfolding(crate::specs::Operators::strict))]
    fn node(&mut self, node: &mut AnyNode) -> Result<(), Stop> {
        match node {
            AnyNode::Expr(expr) => match expr {
                Expr::Bin(pair) => pair.op = strict_operator(pair.op),
                _ => {}
            },
            _ => {}
        }
        Ok(())
    }
}

/// Puts `===` in the place of each `==` of a program, and `!==` in the place of each `!=`: `a == b`
/// becomes `a === b`.
pub fn with_strict_equality(alloc: Global, program: &mut Program) -> Result<(), Stop>
    ensures { OnOk result (program.new ≡ with_nodes strict program.old) }
{
    change_nodes(alloc, program, &mut Strict {})
}
