//! Exports.

ghost use Rattle.std.specs.Prelude.{◌≡◌};
ghost use Rattle.swc_ecma_codegen_emit.specs.Standing.{Performs};
ghost use Rattle.swc_ecma_codegen_spans.specs.Spans.{export_specifier_span};
ghost use Rattle.swc_ecma_codegen_emit.specs.Modules.{named_format, exported_as, export_named_specifier, export_specifier, is_braced, is_namespace, export_list, export_braces, export_namespace, star_export, more_exports, star_exports, export_clause, ends_with_name, from_clause, export_tail, export_named, all_word, all_tail, export_all, export_decl, default_decl, export_default, export_default_decl, export_default_expr, attributes};

use crate::emitter::Emitter;
use crate::modules::named_format;
use crate::nodes::{Child, Context, EmitAt, LinkTarget, Piece};
use crate::specifiers::{Specifier, has_braced, has_star};
use swc_ecma_codegen_common::Span;
use swc_ecma_codegen_grammar::comments::Comments;
use swc_ecma_codegen_grammar::mapper::SourceMapper;
use swc_ecma_codegen_literals::Punctuator;
use swc_ecma_codegen_text_writer::WriteJs;
use swc_ecma_codegen_tree::{
    DefaultDecl, ExportAll, ExportDecl, ExportDefaultDecl, ExportDefaultExpr, ExportNamedSpecifier,
    ExportNamespaceSpecifier, ExportSpecifier, ModuleExportName, NamedExport, ObjectLitBox, Str,
};

/// Whether what is exported ends with the name of a namespace.
#[tactic(auto, unfolding(crate::specs::Modules::ends_with_name))]
fn ends_with_name(specifiers: &[ExportSpecifier]) -> bool
    ensures { result ≡ ends_with_name specifiers.now }
{
    has_star(specifiers) && !has_braced(specifiers)
}

impl EmitAt for ExportNamedSpecifier {
    ghost items = { λ n _. export_named_specifier n };

    #[tactic(auto, unfolding(crate::specs::Modules::export_named_specifier))]
    fn emit_at<W: WriteJs, S: SourceMapper, C: Comments>(
        &self,
        e: &mut Emitter<'_, W, S, C>,
        context: Context,
    ) {
        e.leading_comments(self.span.lo);
        e.start_of(self.span);
        e.word_before(self.is_type_only, "type");
        self.orig.emit_at(e, Context::Plain);
        e.exported_as(&self.exported);
        e.end_of(self.span);
    }
}

impl EmitAt for ExportSpecifier {
    ghost items = { λ n _. export_specifier n };

    #[tactic(auto, unfolding(crate::specs::Modules::export_specifier))]
    fn emit_at<W: WriteJs, S: SourceMapper, C: Comments>(
        &self,
        e: &mut Emitter<'_, W, S, C>,
        context: Context,
    ) {
        match self {
            ExportSpecifier::Named(node) => node.emit_at(e, Context::Plain),
            ExportSpecifier::Namespace(node) => node.emit_at(e, Context::Plain),
            ExportSpecifier::Default(_) => e.unsupported(),
        }
    }
}

impl Child for ExportSpecifier {
    ghost stands = { export_specifier_span };

    #[tactic(auto, unfolding(swc_ecma_codegen_spans::specs::Spans::export_specifier_span))]
    fn place(&self) -> Span {
        match self {
            ExportSpecifier::Namespace(node) => node.span,
            ExportSpecifier::Default(node) => node.span,
            ExportSpecifier::Named(node) => node.span,
        }
    }
}

impl Specifier for ExportSpecifier {
    ghost braced = { is_braced };

    ghost stars = { is_namespace };

    #[tactic(auto, unfolding(crate::specs::Modules::is_braced, crate::specs::Modules::is_namespace))]
    fn is_braced(&self) -> bool {
        !matches!(self, ExportSpecifier::Namespace(_))
    }

    #[tactic(auto, unfolding(crate::specs::Modules::is_namespace))]
    fn is_star(&self) -> bool {
        matches!(self, ExportSpecifier::Namespace(_))
    }
}

impl EmitAt for ExportNamespaceSpecifier {
    ghost items = { λ n _. export_namespace n };

    #[tactic(auto, unfolding(crate::specs::Modules::export_namespace))]
    fn emit_at<W: WriteJs, S: SourceMapper, C: Comments>(
        &self,
        e: &mut Emitter<'_, W, S, C>,
        context: Context,
    ) {
        e.leading_comments(self.span.lo);
        e.start_of(self.span);
        e.star_as();
        self.name.emit_at(e, Context::Plain);
        e.end_of(self.span);
    }
}

impl<N: LinkTarget> EmitAt for NamedExport<N> {
    ghost items = { λ n _. export_named N.items n };

    #[tactic(auto, unfolding(crate::specs::Modules::export_named))]
    fn emit_at<W: WriteJs, S: SourceMapper, C: Comments>(
        &self,
        e: &mut Emitter<'_, W, S, C>,
        context: Context,
    ) {
        e.leading_comments(self.span.lo);
        e.start_of(self.span);
        e.keyword(None, "export");
        e.type_word(self.type_only);
        e.formatting_space();
        e.export_tail(self);
    }
}

impl<N: LinkTarget> EmitAt for ExportAll<N> {
    ghost items = { λ n _. export_all N.items n };

    #[tactic(auto, unfolding(crate::specs::Modules::export_all))]
    fn emit_at<W: WriteJs, S: SourceMapper, C: Comments>(
        &self,
        e: &mut Emitter<'_, W, S, C>,
        context: Context,
    ) {
        e.leading_comments(self.span.lo);
        e.start_of(self.span);
        e.keyword(None, "export");
        e.all_word(self.type_only);
        e.all_tail(self);
    }
}

impl<N: LinkTarget> EmitAt for ExportDecl<N> {
    ghost items = { λ n _. export_decl N.items n };

    #[tactic(auto, unfolding(crate::specs::Modules::export_decl))]
    fn emit_at<W: WriteJs, S: SourceMapper, C: Comments>(
        &self,
        e: &mut Emitter<'_, W, S, C>,
        context: Context,
    ) {
        e.start_of(self.span);
        self.decl.target().emit_piece(e, Piece::ExportedHead);
        e.keyword(None, "export");
        e.space();
        self.decl.target().emit_piece(e, Piece::ExportedTail);
    }
}

impl<N: LinkTarget> EmitAt for DefaultDecl<N> {
    ghost items = { λ n _. default_decl N.answers N.items n };

    #[tactic(auto, unfolding(crate::specs::Modules::default_decl))]
    fn emit_at<W: WriteJs, S: SourceMapper, C: Comments>(
        &self,
        e: &mut Emitter<'_, W, S, C>,
        context: Context,
    ) {
        match self {
            DefaultDecl::Class(node) => node.emit_at(e, Context::Plain),
            DefaultDecl::Fn(node) => node.emit_at(e, Context::DefaultExport),
            DefaultDecl::TsInterfaceDecl(node) => node.emit_at(e, Context::Plain),
        }
    }
}

impl<N: LinkTarget> EmitAt for ExportDefaultDecl<N> {
    ghost items = { λ n _. export_default_decl N.answers N.items n };

    #[tactic(auto, unfolding(crate::specs::Modules::export_default_decl))]
    fn emit_at<W: WriteJs, S: SourceMapper, C: Comments>(
        &self,
        e: &mut Emitter<'_, W, S, C>,
        context: Context,
    ) {
        e.leading_comments(self.span.lo);
        e.start_of(self.span);
        e.export_default();
        e.space();
        self.decl.emit_at(e, Context::Plain);
    }
}

impl<N: LinkTarget> EmitAt for ExportDefaultExpr<N> {
    ghost items = { λ n _. export_default_expr N.answers N.items n };

    #[tactic(auto, unfolding(crate::specs::Modules::export_default_expr))]
    fn emit_at<W: WriteJs, S: SourceMapper, C: Comments>(
        &self,
        e: &mut Emitter<'_, W, S, C>,
        context: Context,
    ) {
        e.start_of(self.span);
        e.export_default();
        e.blank(self.expr.target().starts());
        self.expr.target().emit_at(e, Context::Plain);
        e.semi();
        e.end_of(self.span);
    }
}

impl<W: WriteJs, S: SourceMapper, C: Comments> Emitter<'_, W, S, C> {
    /// Writes `as b` behind a blank, where it is so.
    #[tactic(auto, unfolding(crate::specs::Modules::exported_as))]
    fn exported_as(&mut self, name: &Option<ModuleExportName>)
        ensures items { Performs (exported_as name.now) S.lines C.maps W.sheet self.old self.new }
    {
        match name {
            Some(name) => {
                self.as_word();
                name.emit_at(self, Context::Plain)
            }
            None => {}
        }
    }

    /// Writes what is exported among braces.
    fn export_list(&mut self, parent: Span, specifiers: &[ExportSpecifier])
        ensures items { Performs (export_list parent specifiers.now)
            S.lines C.maps W.sheet self.old self.new }
    {
        self.braced_list(named_format(), parent, specifiers)
    }

    /// Writes `{ a, b as c }`.
    #[tactic(auto, unfolding(crate::specs::Modules::export_braces))]
    fn export_braces(&mut self, parent: Span, specifiers: &[ExportSpecifier])
        ensures items { Performs (export_braces parent specifiers.now)
            S.lines C.maps W.sheet self.old self.new }
    {
        self.punct(Punctuator::LeftBrace);
        self.export_list(parent, specifiers);
        self.punct(Punctuator::RightBrace);
    }

    /// Writes `* as a`, of the first of a namespace.
    #[tactic(auto, unfolding(crate::specs::Modules::star_export))]
    fn star_export(&mut self, specifiers: &[ExportSpecifier])
        ensures items { Performs (star_export specifiers.now)
            S.lines C.maps W.sheet self.old self.new }
    {
        for specifier in specifiers {
            if let ExportSpecifier::Namespace(node) = specifier {
                return node.emit_at(self, Context::Plain);
            }
        }
    }

    /// Writes what stands after it.
    #[tactic(auto, unfolding(crate::specs::Modules::more_exports))]
    fn more_exports(&mut self, parent: Span, specifiers: &[ExportSpecifier])
        ensures items { Performs (more_exports parent specifiers.now)
            S.lines C.maps W.sheet self.old self.new }
    {
        if !has_braced(specifiers) {
            return;
        }
        self.punct(Punctuator::Comma);
        self.formatting_space();
        self.export_braces(parent, specifiers)
    }

    /// Writes `* as a, { b }`.
    #[tactic(auto, unfolding(crate::specs::Modules::star_exports))]
    fn star_exports(&mut self, parent: Span, specifiers: &[ExportSpecifier])
        ensures items { Performs (star_exports parent specifiers.now)
            S.lines C.maps W.sheet self.old self.new }
    {
        self.star_export(specifiers);
        self.more_exports(parent, specifiers)
    }

    /// Writes `{ a }` or `* as a`, or both.
    #[tactic(auto, unfolding(crate::specs::Modules::export_clause))]
    fn export_clause(&mut self, parent: Span, specifiers: &[ExportSpecifier])
        ensures items { Performs (export_clause parent specifiers.now)
            S.lines C.maps W.sheet self.old self.new }
    {
        if has_star(specifiers) {
            return self.star_exports(parent, specifiers);
        }
        self.export_braces(parent, specifiers)
    }

    /// Writes `from 'a'` with its attributes behind a blank, where it is so.
    #[tactic(auto, unfolding(crate::specs::Modules::from_clause))]
    fn from_clause<N: LinkTarget>(
        &mut self,
        with: &Option<ObjectLitBox<N>>,
        needed: bool,
        src: &Option<Str>,
    )
        ensures items { Performs (from_clause N.items with.now needed src.now)
            S.lines C.maps W.sheet self.old self.new }
    {
        match src {
            Some(src) => {
                self.blank(needed);
                self.from_word();
                src.emit_at(self, Context::Plain);
                self.attributes(with)
            }
            None => {}
        }
    }

    /// Writes `{ a } from 'b';`
    #[tactic(auto, unfolding(crate::specs::Modules::export_tail))]
    fn export_tail<N: LinkTarget>(&mut self, node: &NamedExport<N>)
        ensures items { Performs (export_tail N.items node.now)
            S.lines C.maps W.sheet self.old self.new }
    {
        self.export_clause(node.span, &node.specifiers);
        self.from_clause(&node.with, ends_with_name(&node.specifiers), &node.src);
        self.semi();
        self.end_of(node.span);
    }

    /// Writes `type` between two blanks, or the blank in its place.
    #[tactic(auto, unfolding(crate::specs::Modules::all_word))]
    fn all_word(&mut self, type_only: bool)
        ensures items { Performs (all_word type_only) S.lines C.maps W.sheet self.old self.new }
    {
        if !type_only {
            return self.formatting_space();
        }
        self.space();
        self.keyword(None, "type");
        self.space();
    }

    /// Writes `* from 'a';`
    #[tactic(auto, unfolding(crate::specs::Modules::all_tail))]
    fn all_tail<N: LinkTarget>(&mut self, node: &ExportAll<N>)
        ensures items { Performs (all_tail N.items node.now)
            S.lines C.maps W.sheet self.old self.new }
    {
        self.punct(Punctuator::Star);
        self.formatting_space();
        self.from_word();
        self.source_end(&node.src, &node.with, node.span)
    }

    /// Writes `export default`.
    #[tactic(auto, unfolding(crate::specs::Modules::export_default))]
    fn export_default(&mut self)
        ensures items { Performs (export_default) S.lines C.maps W.sheet self.old self.new }
    {
        self.keyword(None, "export");
        self.space();
        self.keyword(None, "default");
    }
}
