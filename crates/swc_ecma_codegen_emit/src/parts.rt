//! Parts of expressions, of statements and of TypeScript that links hold.

ghost use Rattle.swc_ecma_codegen_emit.specs.Parts.{expr_part, stmt_part, ts_part};

use crate::emitter::Emitter;
use crate::nodes::{Context, EmitAt, EmitPiece, LinkTarget, Piece};
use swc_ecma_codegen_grammar::comments::Comments;
use swc_ecma_codegen_grammar::mapper::SourceMapper;
use swc_ecma_codegen_text_writer::WriteJs;
use swc_ecma_codegen_tree::{ExprPart, StmtPart, TsPart};

impl<N: LinkTarget> EmitAt for ExprPart<N> {
    ghost items = { expr_part N.answers N.items };

    #[inline(never)]
    #[tactic(auto, unfolding(crate::specs::Parts::expr_part))]
    fn emit_at<W: WriteJs, S: SourceMapper, C: Comments>(
        &self,
        e: &mut Emitter<'_, W, S, C>,
        context: Context,
    ) {
        match self {
            ExprPart::Pat(node) => node.emit_at(e, context),
            ExprPart::ObjectLit(node) => node.emit_at(e, context),
            ExprPart::PropName(node) => node.emit_at(e, context),
            ExprPart::Tpl(node) => node.emit_at(e, context),
            ExprPart::OptCall(node) => node.emit_at(e, context),
            ExprPart::AssignTarget(node) => node.emit_at(e, context),
        }
    }
}

impl<N: LinkTarget> EmitAt for StmtPart<N> {
    ghost items = { stmt_part N.answers N.items };

    #[inline(never)]
    #[tactic(auto, unfolding(crate::specs::Parts::stmt_part))]
    fn emit_at<W: WriteJs, S: SourceMapper, C: Comments>(
        &self,
        e: &mut Emitter<'_, W, S, C>,
        context: Context,
    ) {
        match self {
            StmtPart::Function(node) => (**node).emit_at(e, context),
            StmtPart::Class(node) => (**node).emit_at(e, context),
            StmtPart::ClassMember(node) => (**node).emit_at(e, context),
            StmtPart::BlockStmt(node) => node.emit_at(e, context),
            StmtPart::Decl(node) => node.emit_at(e, context),
            StmtPart::ModuleDecl(node) => (**node).emit_at(e, context),
            StmtPart::VarDecl(node) => node.emit_at(e, context),
        }
    }
}

impl<N: LinkTarget> EmitPiece for StmtPart<N> {
    #[inline(never)]
    #[tactic(auto, unfolding(crate::specs::Parts::stmt_part))]
    fn emit_piece<W: WriteJs, S: SourceMapper, C: Comments>(
        &self,
        e: &mut Emitter<'_, W, S, C>,
        piece: Piece,
    ) {
        match self {
            StmtPart::Function(node) => (**node).emit_piece(e, piece),
            StmtPart::Class(node) => (**node).emit_piece(e, piece),
            StmtPart::Decl(node) => node.emit_piece(e, piece),
            StmtPart::ClassMember(node) => (**node).emit_at(e, Context::Plain),
            StmtPart::BlockStmt(node) => node.emit_at(e, Context::Plain),
            StmtPart::ModuleDecl(node) => (**node).emit_at(e, Context::Plain),
            StmtPart::VarDecl(node) => node.emit_at(e, Context::Plain),
        }
    }
}

impl<N: LinkTarget> EmitAt for TsPart<N> {
    ghost items = { ts_part N.answers N.items };

    #[inline(never)]
    #[tactic(auto, unfolding(crate::specs::Parts::ts_part))]
    fn emit_at<W: WriteJs, S: SourceMapper, C: Comments>(
        &self,
        e: &mut Emitter<'_, W, S, C>,
        context: Context,
    ) {
        match self {
            TsPart::TsType(node) => node.emit_at(e, context),
            TsPart::TsTypeAnn(node) => node.emit_at(e, context),
            TsPart::TsTypeParamDecl(node) => node.emit_at(e, context),
            TsPart::TsTypeParamInstantiation(node) => node.emit_at(e, context),
            TsPart::TsFnParam(node) => node.emit_at(e, context),
            TsPart::TsInterfaceBody(node) => node.emit_at(e, context),
            TsPart::TsEntityName(node) => node.emit_at(e, context),
            TsPart::TsNamespaceBody(node) => node.emit_at(e, context),
        }
    }
}
