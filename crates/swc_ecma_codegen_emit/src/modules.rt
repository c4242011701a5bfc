//! Modules: their items, and what imports and exports share.

ghost use Rattle.std.specs.Prelude.{◌≡◌, Some};
ghost use Rattle.swc_ecma_codegen_tokens.specs.Run.{with_max_line};
ghost use Rattle.swc_ecma_codegen_emit.specs.Standing.{Performs};
ghost use Rattle.swc_ecma_codegen_tokens.specs.Choices.{attributes_word};
ghost use Rattle.swc_ecma_codegen_emit.specs.Modules.{named_format, module_export_name, type_word, from_word, as_word, star_as, module_decl_by, module_decl, module_item_by, module_item, attributes, source_end};
ghost use Rattle.swc_ecma_codegen_spans.specs.Spans.{module_item_span};
ghost use Rattle.swc_ecma_codegen_emit.specs.Answers.{place_of};
ghost use Rattle.swc_ecma_codegen_emit.specs.Lists.{in_order};
ghost use Rattle.swc_ecma_codegen_emit.specs.Programs.{module_parts, whole_module};

use crate::emitter::Emitter;
use crate::nodes::{Child, Context, EmitAt, LinkTarget};
use crate::places::module_item_place;
use swc_ecma_codegen_common::Span;
use swc_ecma_codegen_grammar::ListFormat;
use swc_ecma_codegen_grammar::comments::Comments;
use swc_ecma_codegen_grammar::mapper::SourceMapper;
use swc_ecma_codegen_literals::Punctuator;
use swc_ecma_codegen_spans::Spanned;
use swc_ecma_codegen_text_writer::WriteJs;
use swc_ecma_codegen_tree::{
    ExportAll, ExportDecl, ExportDefaultDecl, ExportDefaultExpr, Module, ModuleDecl,
    ModuleExportName, ModuleItem, ObjectLitBox, Str,
};

/// The format of the names of imports and exports.
pub(crate) fn named_format() -> ListFormat
    ensures { result.0 ≡ named_format }
{
    ListFormat::NamedImportsOrExportsElements
}

impl EmitAt for ModuleExportName {
    ghost items = { λ n _. module_export_name n };

    #[tactic(auto, unfolding(crate::specs::Modules::module_export_name))]
    fn emit_at<W: WriteJs, S: SourceMapper, C: Comments>(
        &self,
        e: &mut Emitter<'_, W, S, C>,
        context: Context,
    ) {
        match self {
            ModuleExportName::Ident(node) => node.emit_at(e, Context::Plain),
            ModuleExportName::Str(node) => node.emit_at(e, Context::Plain),
        }
    }
}

impl<N: LinkTarget> EmitAt for ModuleDecl<N> {
    ghost items = { λ n _. module_decl N.answers N.items n };

    #[tactic(auto, unfolding(crate::specs::Modules::module_decl))]
    fn emit_at<W: WriteJs, S: SourceMapper, C: Comments>(
        &self,
        e: &mut Emitter<'_, W, S, C>,
        context: Context,
    ) {
        let span = self.span();
        e.leading_comments(span.lo);
        e.module_decl_by(self);
        e.trailing_comments(span.hi, true);
        e.formatting_line();
    }
}

impl<N: LinkTarget> EmitAt for ModuleItem<N> {
    ghost items = { λ n _. module_item N.answers N.items n };

    #[tactic(auto, unfolding(crate::specs::Modules::module_item))]
    fn emit_at<W: WriteJs, S: SourceMapper, C: Comments>(
        &self,
        e: &mut Emitter<'_, W, S, C>,
        context: Context,
    ) {
        let span = module_item_place(self);
        e.leading_comments(span.lo);
        e.module_item_by(self);
        e.trailing_comments(span.hi, true);
    }
}

impl<N: LinkTarget> Child for ModuleItem<N> {
    ghost stands = { module_item_span (place_of N.answers) };

    fn place(&self) -> Span {
        module_item_place(self)
    }
}

impl<N: LinkTarget> EmitAt for Module<N> {
    ghost items = { whole_module N.answers N.items };

    #[tactic(auto, unfolding(crate::specs::Programs::whole_module, swc_ecma_codegen_tokens::specs::Words::bounded, swc_ecma_codegen_tokens::specs::Words::in_lines))]
    fn emit_at<W: WriteJs, S: SourceMapper, C: Comments>(
        &self,
        e: &mut Emitter<'_, W, S, C>,
        context: Context,
    ) {
        match context {
            Context::ByItself(max) => {
                e.begin_lines(max);
                e.broken_module(self, max);
                e.end_lines();
            }
            _ => e.module_parts(self),
        }
    }
}

impl<W: WriteJs, S: SourceMapper, C: Comments> Emitter<'_, W, S, C> {
    /// Writes a module whose lines may be ended.
    fn broken_module<N: LinkTarget>(&mut self, node: &Module<N>, max: u32)
        ensures items { Performs (with_max_line (Some max)
            (module_parts N.answers N.items node.now)) S.lines C.maps W.sheet self.old self.new }
    {
        let max_line = self.cfg.max_line;
        self.cfg.max_line = Some(max);
        self.module_parts(node);
        self.cfg.max_line = max_line;
    }

    /// Writes a module, in lines of whatever length.
    #[tactic(auto, unfolding(crate::specs::Programs::module_parts))]
    fn module_parts<N: LinkTarget>(&mut self, node: &Module<N>)
        ensures items { Performs (module_parts N.answers N.items node.now)
            S.lines C.maps W.sheet self.old self.new }
    {
        self.program_start(&node.shebang, &node.body, node.span);
        self.module_items(&node.body);
        self.trailing_comments(node.span.hi, true);
        self.last_semi();
    }

    /// Writes items, one after another.
    fn module_items<N: LinkTarget>(&mut self, nodes: &[ModuleItem<N>])
        ensures items { Performs (in_order (module_item N.answers N.items) nodes.now)
            S.lines C.maps W.sheet self.old self.new }
    {
        self.in_order(nodes)
    }

    /// Writes `type` behind a blank, where it is so.
    #[tactic(auto, unfolding(crate::specs::Modules::type_word))]
    pub(crate) fn type_word(&mut self, type_only: bool)
        ensures items { Performs (type_word type_only) S.lines C.maps W.sheet self.old self.new }
    {
        if type_only {
            self.space();
            self.keyword(None, "type");
        }
    }

    /// Writes `from` and a blank.
    #[tactic(auto, unfolding(crate::specs::Modules::from_word))]
    pub(crate) fn from_word(&mut self)
        ensures items { Performs (from_word) S.lines C.maps W.sheet self.old self.new }
    {
        self.keyword(None, "from");
        self.formatting_space();
    }

    /// Writes `as` between blanks.
    #[tactic(auto, unfolding(crate::specs::Modules::as_word))]
    pub(crate) fn as_word(&mut self)
        ensures items { Performs (as_word) S.lines C.maps W.sheet self.old self.new }
    {
        self.space();
        self.keyword(None, "as");
        self.space();
    }

    /// Writes `* as` and a blank.
    #[tactic(auto, unfolding(crate::specs::Modules::star_as))]
    pub(crate) fn star_as(&mut self)
        ensures items { Performs (star_as) S.lines C.maps W.sheet self.old self.new }
    {
        self.punct(Punctuator::Star);
        self.formatting_space();
        self.keyword(None, "as");
        self.space();
    }

    /// Writes the word before import attributes, by the settings.
    #[tactic(auto, using(crate::proofs::Asked::attributes_by_assert, crate::proofs::Asked::attributes_by_with))]
    fn attributes_word(&mut self)
        ensures items { Performs (attributes_word) S.lines C.maps W.sheet self.old self.new }
    {
        if self.cfg.emit_assert_for_import_attributes {
            return self.keyword(None, "assert");
        }
        self.keyword(None, "with")
    }

    /// Writes `with { type: 'json' }` behind a blank, where there is such.
    #[tactic(auto, unfolding(crate::specs::Modules::attributes))]
    pub(crate) fn attributes<N: LinkTarget>(&mut self, with: &Option<ObjectLitBox<N>>)
        ensures items { Performs (attributes N.items with.now)
            S.lines C.maps W.sheet self.old self.new }
    {
        match with {
            Some(with) => {
                self.formatting_space();
                self.attributes_word();
                self.formatting_space();
                with.target().emit_at(self, Context::Plain)
            }
            None => {}
        }
    }

    /// Writes `'b' with { type: 'json' };`, the end of an import or an export.
    #[tactic(auto, unfolding(crate::specs::Modules::source_end))]
    pub(crate) fn source_end<N: LinkTarget>(
        &mut self,
        src: &Str,
        with: &Option<ObjectLitBox<N>>,
        span: Span,
    )
        ensures items { Performs (source_end N.items src.now with.now span)
            S.lines C.maps W.sheet self.old self.new }
    {
        src.emit_at(self, Context::Plain);
        self.attributes(with);
        self.semi();
        self.end_of(span);
    }

    /// Writes an import or an export by its variant.
    #[tactic(auto, unfolding(crate::specs::Modules::module_decl_by))]
    fn module_decl_by<N: LinkTarget>(&mut self, node: &ModuleDecl<N>)
        ensures items { Performs (module_decl_by N.answers N.items node.now)
            S.lines C.maps W.sheet self.old self.new }
    {
        match node {
            ModuleDecl::Import(node) => node.emit_at(self, Context::Plain),
            ModuleDecl::ExportDecl(node) => node.emit_at(self, Context::Plain),
            ModuleDecl::ExportNamed(node) => node.emit_at(self, Context::Plain),
            ModuleDecl::ExportDefaultDecl(node) => node.emit_at(self, Context::Plain),
            ModuleDecl::ExportDefaultExpr(node) => node.emit_at(self, Context::Plain),
            ModuleDecl::ExportAll(node) => node.emit_at(self, Context::Plain),
            ModuleDecl::TsImportEquals(node) => node.emit_at(self, Context::Plain),
            ModuleDecl::TsExportAssignment(node) => node.emit_at(self, Context::Plain),
            ModuleDecl::TsNamespaceExport(node) => node.emit_at(self, Context::Plain),
        }
    }

    /// Writes an item by its variant.
    #[tactic(auto, unfolding(crate::specs::Modules::module_item_by))]
    fn module_item_by<N: LinkTarget>(&mut self, node: &ModuleItem<N>)
        ensures items { Performs (module_item_by N.answers N.items node.now)
            S.lines C.maps W.sheet self.old self.new }
    {
        match node {
            ModuleItem::ModuleDecl(node) => node.target().emit_at(self, Context::Plain),
            ModuleItem::Stmt(node) => node.emit_at(self, Context::Plain),
        }
    }
}
