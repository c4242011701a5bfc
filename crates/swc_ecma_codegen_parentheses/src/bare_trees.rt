//! Whole trees are freed from parentheses, from what is below to what is above.

ghost use Rattle.std.specs.Prelude.{◌≡◌, true};
ghost use Rattle.std.specs.Result.{OnOk};
ghost use Rattle.swc_ecma_codegen_tree.specs.declared.links.AnyNode.{AnyNode, out-AnyNode, roll-AnyNode};
ghost use Rattle.swc_ecma_codegen_parentheses.specs.declared.opens.Standing.{Standing};
ghost use Rattle.swc_ecma_codegen_parentheses.specs.Bare.{bare_below, bare_layer, opened_node, stands};

use crate::bare::{InList, open_expr_part, open_stmt_part, open_ts_part, open_values};
use crate::depths::MAX_DEPTH;
use std::alloc::Global;
use swc_ecma_codegen_tree::{AnyNode, Ident};
use swc_ecma_codegen_visit::{Below, Change, Links, Stop, is_deeper_than};

/// How many links are gone down, one below another: at first, and where these aren't enough, up to
/// the most.
const DEPTHS: [usize; 4] = [16, 128, 1_024, MAX_DEPTH];

/// Takes what the links of a node hold out of parentheses.
#[tactic(auto, unfolding(crate::specs::Bare::bare_layer))]
fn open_links(node: &mut AnyNode) -> Result<(), Stop>
    ensures { OnOk result (node.new ≡ roll-AnyNode (bare_layer (out-AnyNode node.old))) }
{
    match node {
        AnyNode::Stmt(stmt) => stmt.open_links(),
        AnyNode::ExprPart(part) => open_expr_part(part),
        AnyNode::StmtPart(part) => open_stmt_part(part),
        AnyNode::TsPart(part) => open_ts_part(part),
        _ => open_values::<AnyNode, AnyNode>(node),
    }
}

/// Takes what each link below holds out of parentheses.
#[derive(Drop)]
pub(crate) struct Bare {}

impl Change<AnyNode> for Bare {
    ghost old_ident = { λ n. n };

    ghost new_ident = { λ n. n };

    ghost old = { bare_below };

    ghost new = { λ n. n };

    fn at_ident(&mut self, _: &mut Ident) -> Result<(), Stop> {
        Ok(())
    }

    #[tactic(auto, using(crate::proofs::BareLaws::bare_left))]
    fn at_link<B: Below<AnyNode, Bare>>(
        &mut self,
        below: &B,
        node: &mut AnyNode,
    ) -> Result<(), Stop> {
        node.links_mut(below, self)?;
        open_links(node)
    }
}

/// As many links as lie below one another in a tree, or some more.
pub(crate) fn depth_of<T: Links<AnyNode>>(alloc: Global, node: &mut T) -> Result<usize, Stop>
    ensures { OnOk result
        (T.mapped (λ n. n) (λ n. n) node.old ≡ T.mapped (λ n. n) (λ n. n) node.new) }
{
    for depth in &DEPTHS {
        if !is_deeper_than(alloc, node, *depth)? {
            return Ok(*depth);
        }
    }
    Err(Stop::TooDeep)
}

/// Wherever an expression stands in a tree without its parentheses, it is no pair, or one that
/// stays.
pub fn no_other_pair_stands()
    ensures { (standing : Standing) (n : AnyNode)
        → stands standing (out-AnyNode (opened_node standing (bare_below n))) ≡ true }
{}
