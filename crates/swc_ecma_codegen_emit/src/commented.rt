//! What is asked of the comments that are still to be taken. Asking takes none.

ghost use Rattle.std.specs.Prelude.{◌≡◌, Bool, ◌||◌, [], ◌∷◌, IfSome, IfNone};
ghost use Rattle.std.specs.Str.{chars};
ghost use Rattle.swc_ecma_codegen_grammar.specs.Chars as characters;
ghost use Rattle.swc_ecma_codegen_grammar.specs.CommentMaps.{Maps};
ghost use Rattle.swc_ecma_codegen_grammar.specs.Comments.{maps_in, remark_of, remarks_of, is_tame, all_tame};
ghost use Rattle.swc_ecma_codegen_emit.specs.Commented.{any_breaks, breaks_at, callee_breaks, chain_breaks, first_breaks, has_comment_after, has_comment_at, has_comment_inside, leftmost_breaks, part_breaks, simple_target_breaks, target_breaks, target_pat_breaks};

use swc_ecma_codegen_common::{BytePos, Span};
use swc_ecma_codegen_grammar::characters::is_line_end;
use swc_ecma_codegen_grammar::comments::{Comment, CommentKind, Comments};
use swc_ecma_codegen_spans::Spanned;
use swc_ecma_codegen_tree::{
    AnyNode, AssignTarget, AssignTargetPat, Callee, Expr, ExprBox, ExprPart, MemberExpr,
    OptChainBase, SimpleAssignTarget,
};

/// What tells whether a line ends in or after a comment before one of its leftmost parts:
/// `return (// a` LF `b)`.
pub trait BreaksBefore {
    ghost breaking: { Self → Maps → Bool };

    /// Whether one does.
    fn breaks_before<C: Comments>(&self, comments: &Option<C>) -> bool
        ensures { result ≡ breaking self.now (maps_in C.maps comments.now) };
}

/// The first character of a text, and what follows it.
fn split_first(text: &str) -> Option<(char, &str)>
    ensures some { IfSome result (λ r. chars text.now ≡ r.0 ∷ chars r.1.now) }
    ensures none { IfNone result (chars text.now ≡ []) }
{
    let mut chars = text.chars();
    let c = chars.next()?;
    Some((c, chars.as_str()))
}

/// Whether no line ends in a text.
#[tactic(auto, unfolding(swc_ecma_codegen_grammar::specs::Chars::is_one_line))]
fn is_one_line(text: &str) -> bool
    ensures { result ≡ characters.is_one_line (chars text.now) }
{
    let mut rest = text;
    while let Some((c, more)) = split_first(rest) {
        if is_line_end(c) {
            return false;
        }
        rest = more;
    }
    true
}

/// Whether a comment is a block of one line.
#[tactic(auto, unfolding(swc_ecma_codegen_grammar::specs::Comments::is_tame, swc_ecma_codegen_grammar::specs::Comments::remark_by))]
fn is_tame(node: &Comment) -> bool
    ensures { result ≡ is_tame (remark_of node.now) }
{
    match node.kind {
        CommentKind::Line => false,
        CommentKind::Block => is_one_line(&node.text),
    }
}

/// Whether all of them are.
#[tactic(auto, unfolding(swc_ecma_codegen_grammar::specs::Comments::all_tame, swc_ecma_codegen_grammar::specs::Comments::remarks_of))]
fn all_tame(nodes: &[Comment]) -> bool
    ensures { result ≡ all_tame (remarks_of nodes.now) }
{
    match nodes {
        [] => true,
        [node, rest @ ..] => is_tame(node) && all_tame(rest),
    }
}

/// Whether a line ends in or after a comment before the start of a span.
#[tactic(auto, using(crate::proofs::Breaks::without, crate::proofs::Breaks::unlisted, crate::proofs::Breaks::listed_there))]
fn breaks_at<C: Comments>(comments: &Option<C>, span: Span) -> bool
    ensures { result ≡ breaks_at span (maps_in C.maps comments.now) }
{
    match comments {
        None => false,
        Some(all) => match all.get_leading(span.lo) {
            None => false,
            Some(nodes) => !all_tame(nodes),
        },
    }
}

/// Whether there is any comment before it.
#[tactic(auto, unfolding(crate::specs::Commented::has_comment_at, swc_ecma_codegen_grammar::specs::Comments::maps_in))]
fn has_comment_at<C: Comments>(comments: &Option<C>, span: Span) -> bool
    ensures { result ≡ has_comment_at span (maps_in C.maps comments.now) }
{
    match comments {
        None => false,
        Some(all) => all.has_leading(span.lo),
    }
}

/// Whether there is any at the last character of a span: before the `}` of a block.
#[inline(never)]
#[tactic(auto, unfolding(crate::specs::Commented::has_comment_inside, swc_ecma_codegen_grammar::specs::Comments::maps_in))]
fn has_comment_inside<C: Comments>(comments: &Option<C>, span: Span) -> bool
    ensures { result ≡ has_comment_inside span (maps_in C.maps comments.now) }
{
    if span.lo.0 == 0 {
        return false;
    }
    if span.hi.0 == 0 {
        return false;
    }
    match comments {
        None => false,
        Some(all) => all.has_leading(BytePos(span.hi.0 - 1)),
    }
}

/// Whether what stands in braces is to have lines of its own: there is something, or a comment.
#[inline(always)]
#[tactic(auto, using(crate::proofs::Without::none_inside))]
pub(crate) fn wants_lines<C: Comments>(comments: &Option<C>, some: bool, span: Span) -> bool
    ensures { result ≡ (some || has_comment_inside span (maps_in C.maps comments.now)) }
{
    some || (comments.is_some() && has_comment_inside(comments, span))
}

/// Whether there is any comment after the end of a span.
#[tactic(auto, unfolding(crate::specs::Commented::has_comment_after, swc_ecma_codegen_grammar::specs::Comments::maps_in))]
pub(crate) fn has_comment_after<C: Comments>(comments: &Option<C>, span: Span) -> bool
    ensures { result ≡ has_comment_after span (maps_in C.maps comments.now) }
{
    match comments {
        None => false,
        Some(all) => all.has_trailing(span.hi),
    }
}

#[tactic(auto, unfolding(crate::specs::Commented::callee_breaks))]
fn callee_breaks<N: BreaksBefore, C: Comments>(node: &Callee<N>, comments: &Option<C>) -> bool
    ensures { result ≡ callee_breaks N.breaking node.now (maps_in C.maps comments.now) }
{
    match node {
        Callee::Super(node) => breaks_at(comments, node.span),
        Callee::Import(node) => breaks_at(comments, node.span),
        Callee::Expr(node) => node.target().breaks_before(comments),
    }
}

#[tactic(auto, unfolding(crate::specs::Commented::chain_breaks))]
fn chain_breaks<N: BreaksBefore, C: Comments>(node: &OptChainBase<N>, comments: &Option<C>) -> bool
    ensures { result ≡ chain_breaks N.breaking node.now (maps_in C.maps comments.now) }
{
    match node {
        OptChainBase::Member(node) => node.target().breaks_before(comments),
        OptChainBase::Call(node) => node.target().breaks_before(comments),
    }
}

#[tactic(auto, unfolding(crate::specs::Commented::first_breaks))]
fn first_breaks<N: BreaksBefore, C: Comments>(nodes: &[ExprBox<N>], comments: &Option<C>) -> bool
    ensures { result ≡ first_breaks N.breaking nodes.now (maps_in C.maps comments.now) }
{
    match nodes {
        [] => false,
        [node, ..] => node.target().breaks_before(comments),
    }
}

#[tactic(auto, unfolding(crate::specs::Commented::simple_target_breaks))]
fn simple_target_breaks<N: BreaksBefore, C: Comments>(
    node: &SimpleAssignTarget<N>,
    comments: &Option<C>,
) -> bool
    ensures { result ≡ simple_target_breaks N.breaking node.now (maps_in C.maps comments.now) }
{
    match node {
        SimpleAssignTarget::Ident(node) => breaks_at(comments, node.id.span),
        SimpleAssignTarget::Member(node) => node.obj.target().breaks_before(comments),
        SimpleAssignTarget::SuperProp(node) => breaks_at(comments, node.span),
        _ => false,
    }
}

#[tactic(auto, unfolding(crate::specs::Commented::target_pat_breaks))]
fn target_pat_breaks<N, C: Comments>(node: &AssignTargetPat<N>, comments: &Option<C>) -> bool
    ensures { result ≡ target_pat_breaks node.now (maps_in C.maps comments.now) }
{
    match node {
        AssignTargetPat::Array(node) => breaks_at(comments, node.span),
        AssignTargetPat::Object(node) => breaks_at(comments, node.span),
        AssignTargetPat::Invalid(_) => false,
    }
}

#[tactic(auto, unfolding(crate::specs::Commented::target_breaks))]
fn target_breaks<N: BreaksBefore, C: Comments>(node: &AssignTarget<N>, comments: &Option<C>) -> bool
    ensures { result ≡ target_breaks N.breaking node.now (maps_in C.maps comments.now) }
{
    match node {
        AssignTarget::Simple(node) => simple_target_breaks(node, comments),
        AssignTarget::Pat(node) => target_pat_breaks(node, comments),
    }
}

/// Before what an expression begins with.
#[tactic(auto, unfolding(crate::specs::Commented::leftmost_breaks))]
fn leftmost_breaks<N: BreaksBefore, C: Comments>(node: &Expr<N>, comments: &Option<C>) -> bool
    ensures { result ≡ leftmost_breaks N.breaking node.now (maps_in C.maps comments.now) }
{
    match node {
        Expr::Call(node) => callee_breaks(&node.callee, comments),
        Expr::Member(node) => node.obj.target().breaks_before(comments),
        Expr::SuperProp(node) => breaks_at(comments, node.span),
        Expr::Bin(node) => node.left.target().breaks_before(comments),
        Expr::Cond(node) => node.test.target().breaks_before(comments),
        Expr::Seq(node) => first_breaks(&node.exprs, comments),
        Expr::Assign(node) => {
            has_comment_at(comments, node.span) || node.left.target().breaks_before(comments)
        }
        Expr::OptChain(node) => chain_breaks(&node.base, comments),
        _ => false,
    }
}

/// Before what an expression begins with, or before the span where it stands.
fn expr_breaks<N: BreaksBefore, C: Comments>(
    span: Span,
    node: &Expr<N>,
    comments: &Option<C>,
) -> bool
    ensures { result ≡ (breaks_at span (maps_in C.maps comments.now)
        || leftmost_breaks N.breaking node.now (maps_in C.maps comments.now)) }
{
    breaks_at(comments, span) || leftmost_breaks(node, comments)
}

fn member_breaks<N: BreaksBefore, C: Comments>(node: &MemberExpr<N>, comments: &Option<C>) -> bool
    ensures { result ≡ N.breaking node.now.obj.node.value (maps_in C.maps comments.now) }
{
    node.obj.target().breaks_before(comments)
}

#[tactic(auto, unfolding(crate::specs::Commented::part_breaks))]
fn part_breaks<N: BreaksBefore, C: Comments>(node: &ExprPart<N>, comments: &Option<C>) -> bool
    ensures { result ≡ part_breaks N.breaking node.now (maps_in C.maps comments.now) }
{
    match node {
        ExprPart::OptCall(node) => node.callee.target().breaks_before(comments),
        ExprPart::AssignTarget(node) => target_breaks(node, comments),
        _ => false,
    }
}

impl BreaksBefore for AnyNode {
    ghost breaking = { any_breaks };

    #[tactic(auto, using(crate::proofs::BreakLaws::any_breaks_of, crate::proofs::BreakLaws::any_breaks_placed, crate::proofs::BreakLaws::any_breaks_member_expr, crate::proofs::BreakLaws::any_breaks_expr_part), unfolding(crate::specs::Commented::node_breaks))]
    fn breaks_before<C: Comments>(&self, comments: &Option<C>) -> bool {
        match self {
            AnyNode::Expr(node) => expr_breaks(self.span(), node, comments),
            AnyNode::MemberExpr(node) => member_breaks(node, comments),
            AnyNode::ExprPart(node) => part_breaks(node, comments),
            _ => false,
        }
    }
}
