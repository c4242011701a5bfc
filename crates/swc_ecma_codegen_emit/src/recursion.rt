//! The whole tree: these functions dispatch from a link to its node's own function. Nothing else
//! knows that the tree is recursive, or uses the laws of the fold.

ghost use Rattle.swc_ecma_codegen_emit.specs.Answers.{any_answers};
ghost use Rattle.swc_ecma_codegen_emit.specs.Tree.{any_items};

use crate::branches::is_block;
use crate::commented::BreaksBefore;
use crate::emitter::Emitter;
use crate::expr::placed_expr;
use crate::nodes::{Asked, Context, EmitAt, EmitPiece, Known, LinkTarget, Piece, Question, Reply};
use crate::operands::{Operand, SpaceBefore};
use crate::patterns::{PatternKind, kind_of_part};
use swc_ecma_codegen_grammar::comments::Comments;
use swc_ecma_codegen_grammar::mapper::SourceMapper;
use swc_ecma_codegen_settings::util::{EndsWithAlphaNum, StartsWithAlphaNum};
use swc_ecma_codegen_spans::Spanned;
use swc_ecma_codegen_text_writer::WriteJs;
use swc_ecma_codegen_tree::AnyNode;

impl Known for AnyNode {
    ghost answers = { any_answers };
}

impl Asked for AnyNode {
    #[inline(always)]
    #[tactic(auto, using(crate::proofs::PatternLaws::any_pattern_of, crate::proofs::PatternLaws::any_pattern_part, crate::proofs::BranchLaws::any_block_of, crate::proofs::BranchLaws::any_block_stmt), unfolding(crate::specs::Answers::reply_of, crate::specs::Answers::any_answers, crate::specs::Patterns::node_pattern, crate::specs::Branches::node_block))]
    fn reply(&self, question: Question) -> Reply {
        match (question, self) {
            (Question::Place, _) => Reply::Place(self.span()),
            (Question::Starts, _) => Reply::Truth(self.starts_with_alpha_num()),
            (Question::Ends, _) => Reply::Truth(self.ends_with_alpha_num()),
            (Question::Kind, _) => Reply::Kind(self.operand_kind()),
            (Question::Space(op), _) => Reply::Truth(self.require_space_before(op)),
            (Question::Pattern, AnyNode::ExprPart(part)) => Reply::Pattern(kind_of_part(part)),
            (Question::Pattern, _) => Reply::Pattern(PatternKind::Other),
            (Question::Block, AnyNode::Stmt(node)) => Reply::Truth(is_block(node)),
            (Question::Block, _) => Reply::Truth(false),
        }
    }

    #[tactic(auto, unfolding(crate::specs::Answers::any_answers), using(crate::proofs::Unbroken::unbroken))]
    fn breaks<C: Comments>(&self, comments: &Option<C>) -> bool {
        comments.is_some() && self.breaks_before(comments)
    }
}

impl EmitAt for AnyNode {
    ghost items = { any_items };

    #[tactic(auto, using(crate::proofs::MappedNodes::any_items_of, crate::proofs::MappedNodes::any_items_expr, crate::proofs::MappedNodes::any_items_stmt, crate::proofs::MappedNodes::any_items_member_expr, crate::proofs::MappedNodes::any_items_expr_part, crate::proofs::MappedNodes::any_items_stmt_part, crate::proofs::MappedNodes::any_items_jsx_part, crate::proofs::MappedNodes::any_items_ts_part), unfolding(crate::specs::Tree::node_items))]
    #[cycle(tree)]
    fn emit_at<W: WriteJs, S: SourceMapper, C: Comments>(
        &self,
        e: &mut Emitter<'_, W, S, C>,
        context: Context,
    ) {
        match self {
            AnyNode::Expr(node) => placed_expr(node, e, context),
            AnyNode::Stmt(node) => node.emit_at(e, context),
            AnyNode::MemberExpr(node) => node.emit_at(e, context),
            AnyNode::ExprPart(node) => node.emit_at(e, context),
            AnyNode::StmtPart(node) => node.emit_at(e, context),
            AnyNode::JSXPart(node) => node.emit_at(e, context),
            AnyNode::TsPart(node) => node.emit_at(e, context),
        }
    }
}

impl EmitPiece for AnyNode {
    #[tactic(auto, using(crate::proofs::MappedNodes::any_items_of, crate::proofs::MappedNodes::any_items_expr, crate::proofs::MappedNodes::any_items_stmt, crate::proofs::MappedNodes::any_items_member_expr, crate::proofs::MappedNodes::any_items_expr_part_alone, crate::proofs::MappedNodes::any_items_stmt_part, crate::proofs::MappedNodes::any_items_jsx_part_alone, crate::proofs::MappedNodes::any_items_ts_part_alone), unfolding(crate::specs::Tree::node_items))]
    #[cycle(tree)]
    fn emit_piece<W: WriteJs, S: SourceMapper, C: Comments>(
        &self,
        e: &mut Emitter<'_, W, S, C>,
        piece: Piece,
    ) {
        match self {
            AnyNode::Expr(node) => placed_expr(node, e, Context::Plain),
            AnyNode::Stmt(node) => node.emit_at(e, Context::Plain),
            AnyNode::MemberExpr(node) => node.emit_at(e, Context::Plain),
            AnyNode::ExprPart(node) => node.emit_at(e, Context::Plain),
            AnyNode::StmtPart(node) => node.emit_piece(e, piece),
            AnyNode::JSXPart(node) => node.emit_at(e, Context::Plain),
            AnyNode::TsPart(node) => node.emit_at(e, Context::Plain),
        }
    }
}

impl LinkTarget for AnyNode {}
