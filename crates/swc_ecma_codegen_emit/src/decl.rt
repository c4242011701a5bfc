//! Declarations.

ghost use Rattle.std.specs.Prelude.{◌≡◌};
ghost use Rattle.swc_ecma_codegen_emit.specs.Standing.{Performs};
ghost use Rattle.swc_ecma_codegen_emit.specs.Decls.{declarators_format, fn_decl, var_declarator, declarators, var_kind, is_unmarked, first_is_unmarked, var_decl, await_word, using_decl, decl_end, exported_class, exported_head, exported_tail, decl};

use crate::emitter::Emitter;
use crate::nodes::{Child, Context, EmitAt, EmitPiece, LinkTarget, Piece};
use crate::patterns::{PatternKind, kind_of_pat};
use swc_ecma_codegen_common::Span;
use swc_ecma_codegen_grammar::ListFormat;
use swc_ecma_codegen_grammar::comments::Comments;
use swc_ecma_codegen_grammar::mapper::SourceMapper;
use swc_ecma_codegen_text_writer::WriteJs;
use swc_ecma_codegen_tree::{
    ClassDecl, Decl, FnDecl, TsEnumDecl, TsInterfaceDecl, TsModuleDecl, TsTypeAliasDecl, UsingDecl,
    VarDecl, VarDeclKind, VarDeclarator,
};

/// The format of declarators.
fn declarators_format() -> ListFormat
    ensures { result.0 ≡ declarators_format }
{
    ListFormat::VariableDeclarationList
}

/// Whether a pattern begins with no mark.
#[tactic(auto, unfolding(crate::specs::Decls::is_unmarked))]
fn is_unmarked(kind: PatternKind) -> bool
    ensures { result ≡ is_unmarked kind }
{
    match kind {
        PatternKind::Marked => false,
        _ => true,
    }
}

/// Whether the first that is declared begins with no mark.
#[tactic(auto, unfolding(crate::specs::Decls::first_is_unmarked))]
fn first_is_unmarked<N>(declarators: &[VarDeclarator<N>]) -> bool
    ensures { result ≡ first_is_unmarked declarators.now }
{
    match declarators {
        [first, ..] => is_unmarked(kind_of_pat(&first.name)),
        [] => true,
    }
}

impl<N: LinkTarget> EmitAt for Decl<N> {
    ghost items = { decl N.answers N.items };

    #[tactic(auto, unfolding(crate::specs::Decls::decl, crate::specs::Decls::whole_decl, crate::specs::Decls::variables, crate::specs::Decls::resources))]
    fn emit_at<W: WriteJs, S: SourceMapper, C: Comments>(
        &self,
        e: &mut Emitter<'_, W, S, C>,
        context: Context,
    ) {
        match self {
            Decl::Class(node) => node.emit_at(e, Context::Plain),
            Decl::Fn(node) => node.emit_at(e, Context::Plain),
            Decl::Var(node) => {
                node.emit_at(e, Context::Plain);
                e.semi();
                e.decl_end(context, node.span)
            }
            Decl::Using(node) => {
                node.emit_at(e, Context::Plain);
                e.semi()
            }
            Decl::TsInterface(node) => node.emit_at(e, Context::Plain),
            Decl::TsTypeAlias(node) => node.emit_at(e, Context::Plain),
            Decl::TsEnum(node) => node.emit_at(e, Context::Plain),
            Decl::TsModule(node) => node.emit_at(e, Context::Plain),
        }
    }
}

impl<N: LinkTarget> EmitPiece for Decl<N> {
    #[tactic(auto, unfolding(crate::specs::Decls::decl))]
    fn emit_piece<W: WriteJs, S: SourceMapper, C: Comments>(
        &self,
        e: &mut Emitter<'_, W, S, C>,
        piece: Piece,
    ) {
        match piece {
            Piece::ExportedHead => e.exported_head(self),
            Piece::ExportedTail => e.exported_tail(self),
            _ => self.emit_at(e, Context::Plain),
        }
    }
}

impl<N: LinkTarget> EmitAt for UsingDecl<N> {
    ghost items = { λ n _. using_decl N.answers N.items n };

    #[tactic(auto, unfolding(crate::specs::Decls::using_decl))]
    fn emit_at<W: WriteJs, S: SourceMapper, C: Comments>(
        &self,
        e: &mut Emitter<'_, W, S, C>,
        context: Context,
    ) {
        e.leading_comments(self.span.lo);
        e.await_word(self.is_await);
        e.keyword(None, "using");
        e.space();
        e.declarators(self.span, &self.decls);
    }
}

impl<N: LinkTarget> EmitAt for FnDecl<N> {
    ghost items = { λ n _. fn_decl N.answers N.items n };

    #[tactic(auto, unfolding(crate::specs::Decls::fn_decl))]
    fn emit_at<W: WriteJs, S: SourceMapper, C: Comments>(
        &self,
        e: &mut Emitter<'_, W, S, C>,
        context: Context,
    ) {
        let span = self.function.target().place();
        e.leading_comments(span.lo);
        e.commit_pending_semi();
        e.start_of(span);
        e.declare_word(self.declare);
        self.function.target().emit_piece(e, Piece::DeclarationHead);
        self.ident.emit_at(e, Context::Plain);
        self.function.target().emit_piece(e, Piece::DeclarationTail);
    }
}

impl<N: LinkTarget> EmitAt for VarDecl<N> {
    ghost items = { λ n _. var_decl N.answers N.items n };

    #[tactic(auto, unfolding(crate::specs::Decls::var_decl))]
    fn emit_at<W: WriteJs, S: SourceMapper, C: Comments>(
        &self,
        e: &mut Emitter<'_, W, S, C>,
        context: Context,
    ) {
        e.leading_comments(self.span.lo);
        e.commit_pending_semi();
        e.start_of(self.span);
        e.declare_word(self.declare);
        e.var_kind(self.kind);
        e.blank(first_is_unmarked(&self.decls));
        e.declarators(self.span, &self.decls);
    }
}

impl<N: LinkTarget> EmitAt for VarDeclarator<N> {
    ghost items = { λ n _. var_declarator N.answers N.items n };

    #[tactic(auto, unfolding(crate::specs::Decls::var_declarator))]
    fn emit_at<W: WriteJs, S: SourceMapper, C: Comments>(
        &self,
        e: &mut Emitter<'_, W, S, C>,
        context: Context,
    ) {
        e.opened(self.span);
        e.declared_pat(self.definite, &self.name);
        e.initializer(&self.init);
    }
}

impl<N: LinkTarget> Child for VarDeclarator<N> {
    ghost stands = { λ n. n.span };

    fn place(&self) -> Span {
        self.span
    }
}

impl<W: WriteJs, S: SourceMapper, C: Comments> Emitter<'_, W, S, C> {
    /// Writes declarators, with commas between.
    fn declarators<N: LinkTarget>(&mut self, span: Span, nodes: &Vec<VarDeclarator<N>>)
        ensures items { Performs (declarators N.answers N.items span nodes.now.items)
            S.lines C.maps W.sheet self.old self.new }
    {
        self.list(declarators_format(), span, nodes)
    }

    /// Writes `var`, `let` or `const`.
    #[tactic(auto, unfolding(crate::specs::Decls::var_kind))]
    fn var_kind(&mut self, kind: VarDeclKind)
        ensures items { Performs (var_kind kind) S.lines C.maps W.sheet self.old self.new }
    {
        match kind {
            VarDeclKind::Var => self.keyword(None, "var"),
            VarDeclKind::Let => self.keyword(None, "let"),
            VarDeclKind::Const => self.keyword(None, "const"),
        }
    }

    /// Writes `await` and a blank, where it is so.
    #[tactic(auto, unfolding(crate::specs::Decls::await_word))]
    fn await_word(&mut self, wanted: bool)
        ensures items { Performs (await_word wanted) S.lines C.maps W.sheet self.old self.new }
    {
        if wanted {
            self.keyword(None, "await");
            self.space();
        }
    }

    /// Writes what of a declaration stands before `export`: the decorators of a class.
    #[tactic(auto, unfolding(crate::specs::Decls::exported_head))]
    fn exported_head<N: LinkTarget>(&mut self, node: &Decl<N>)
        ensures items { Performs (exported_head N.items node.now)
            S.lines C.maps W.sheet self.old self.new }
    {
        match node {
            Decl::Class(node) => node.class.target().emit_piece(self, Piece::ClassHead),
            _ => {}
        }
    }

    /// Writes what of a declaration stands after `export`.
    #[tactic(auto, unfolding(crate::specs::Decls::exported_tail, crate::specs::Decls::decl))]
    fn exported_tail<N: LinkTarget>(&mut self, node: &Decl<N>)
        ensures items { Performs (exported_tail N.answers N.items node.now)
            S.lines C.maps W.sheet self.old self.new }
    {
        match node {
            Decl::Class(node) => self.exported_class(node),
            _ => node.emit_at(self, Context::Plain),
        }
    }

    /// Writes what of a class stands after `export`.
    #[tactic(auto, unfolding(crate::specs::Decls::exported_class))]
    fn exported_class<N: LinkTarget>(&mut self, node: &ClassDecl<N>)
        ensures items { Performs (exported_class N.answers N.items node.now)
            S.lines C.maps W.sheet self.old self.new }
    {
        let span = node.class.target().place();
        self.leading_comments(span.lo);
        self.start_of(span);
        self.declare_word(node.declare);
        node.class.target().emit_piece(self, Piece::ClassWord);
        self.space();
        node.ident.emit_at(self, Context::Plain);
        node.class.target().emit_at(self, Context::Plain);
    }

    /// Records the end of a declaration of variables, unless it is a statement.
    #[tactic(auto, unfolding(crate::specs::Decls::decl_end))]
    fn decl_end(&mut self, context: Context, span: Span)
        ensures items { Performs (decl_end context span) S.lines C.maps W.sheet self.old self.new }
    {
        match context {
            Context::Statement => {}
            _ => self.end_of(span),
        }
    }
}
