//! Imports.

ghost use Rattle.std.specs.Prelude.{◌≡◌, true};
ghost use Rattle.std.specs.List.{list_any};
ghost use Rattle.swc_ecma_codegen_emit.specs.Standing.{Performs};
ghost use Rattle.swc_ecma_codegen_spans.specs.Spans.{import_specifier_span};
ghost use Rattle.swc_ecma_codegen_emit.specs.Lists.{comma};
ghost use Rattle.swc_ecma_codegen_emit.specs.Modules.{named_format, imported_as, import_named, import_specifier, is_named, is_default, is_star, is_crowded, import_list, before_brace, before_braces, some_named, import_braces, begins_default, some_imports, import_clause, phase_word, import_tail, import_decl};

use crate::emitter::Emitter;
use crate::modules::named_format;
use crate::nodes::{Child, Context, EmitAt, LinkTarget};
use crate::specifiers::{Specifier, has_braced, has_star};
use swc_ecma_codegen_common::Span;
use swc_ecma_codegen_grammar::comments::Comments;
use swc_ecma_codegen_grammar::mapper::SourceMapper;
use swc_ecma_codegen_literals::Punctuator;
use swc_ecma_codegen_text_writer::WriteJs;
use swc_ecma_codegen_tree::{
    ImportDecl, ImportNamedSpecifier, ImportPhase, ImportSpecifier, ModuleExportName,
};

/// Whether the first specifier is the default one.
#[tactic(auto, unfolding(crate::specs::Modules::begins_default))]
fn begins_default(specifiers: &[ImportSpecifier]) -> bool
    ensures { result ≡ begins_default specifiers.now }
{
    matches!(specifiers, [ImportSpecifier::Default(_), ..])
}

/// Whether it is the default one.
#[tactic(auto, unfolding(crate::specs::Modules::is_default))]
fn is_default(specifier: &ImportSpecifier) -> bool
    ensures { result ≡ is_default specifier.now }
{
    matches!(specifier, ImportSpecifier::Default(_))
}

/// Whether one among them is.
fn has_default(specifiers: &[ImportSpecifier]) -> bool
    ensures { result ≡ list_any is_default specifiers.now }
{
    specifiers.iter().any(is_default)
}

/// Whether one of a namespace stands among more than two.
#[tactic(auto, unfolding(crate::specs::Modules::is_crowded))]
fn is_crowded(specifiers: &[ImportSpecifier]) -> bool
    ensures { result ≡ is_crowded specifiers.now }
{
    has_star(specifiers) && specifiers.len() > 2
}

impl EmitAt for ImportNamedSpecifier {
    ghost items = { λ n _. import_named n };

    #[tactic(auto, unfolding(crate::specs::Modules::import_named))]
    fn emit_at<W: WriteJs, S: SourceMapper, C: Comments>(
        &self,
        e: &mut Emitter<'_, W, S, C>,
        context: Context,
    ) {
        e.start_of(self.span);
        e.word_before(self.is_type_only, "type");
        e.imported_as(&self.imported);
        self.local.emit_at(e, Context::Plain);
        e.end_of(self.span);
    }
}

impl EmitAt for ImportSpecifier {
    ghost items = { λ n _. import_specifier n };

    #[tactic(auto, unfolding(crate::specs::Modules::import_specifier))]
    fn emit_at<W: WriteJs, S: SourceMapper, C: Comments>(
        &self,
        e: &mut Emitter<'_, W, S, C>,
        context: Context,
    ) {
        match self {
            ImportSpecifier::Named(node) => node.emit_at(e, Context::Plain),
            ImportSpecifier::Default(_) | ImportSpecifier::Namespace(_) => {}
        }
    }
}

impl Child for ImportSpecifier {
    ghost stands = { import_specifier_span };

    #[tactic(auto, unfolding(swc_ecma_codegen_spans::specs::Spans::import_specifier_span))]
    fn place(&self) -> Span {
        match self {
            ImportSpecifier::Named(node) => node.span,
            ImportSpecifier::Default(node) => node.span,
            ImportSpecifier::Namespace(node) => node.span,
        }
    }
}

impl Specifier for ImportSpecifier {
    ghost braced = { is_named };

    ghost stars = { is_star };

    #[tactic(auto, unfolding(crate::specs::Modules::is_named))]
    fn is_braced(&self) -> bool {
        matches!(self, ImportSpecifier::Named(_))
    }

    #[tactic(auto, unfolding(crate::specs::Modules::is_star))]
    fn is_star(&self) -> bool {
        matches!(self, ImportSpecifier::Namespace(_))
    }
}

impl<N: LinkTarget> EmitAt for ImportDecl<N> {
    ghost items = { λ n _. import_decl N.items n };

    #[tactic(auto, unfolding(crate::specs::Modules::import_decl, crate::specs::Modules::import_parts))]
    fn emit_at<W: WriteJs, S: SourceMapper, C: Comments>(
        &self,
        e: &mut Emitter<'_, W, S, C>,
        context: Context,
    ) {
        if is_crowded(&self.specifiers) {
            return e.bad_shape();
        }
        e.leading_comments(self.span.lo);
        e.start_of(self.span);
        e.keyword(None, "import");
        e.type_word(self.type_only);
        e.phase_word(self.phase);
        e.blank(begins_default(&self.specifiers));
        e.import_tail(self);
    }
}

impl<W: WriteJs, S: SourceMapper, C: Comments> Emitter<'_, W, S, C> {
    /// Writes `a as` and a blank, where it is so.
    #[tactic(auto, unfolding(crate::specs::Modules::imported_as))]
    fn imported_as(&mut self, name: &Option<ModuleExportName>)
        ensures items { Performs (imported_as name.now) S.lines C.maps W.sheet self.old self.new }
    {
        match name {
            Some(name) => {
                name.emit_at(self, Context::Plain);
                self.as_word()
            }
            None => {}
        }
    }

    /// Writes what is imported among braces.
    fn import_list(&mut self, parent: Span, specifiers: &[ImportSpecifier])
        ensures items { Performs (import_list parent specifiers.now)
            S.lines C.maps W.sheet self.old self.new }
    {
        self.braced_list(named_format(), parent, specifiers)
    }

    /// Writes what of a specifier stands before the braces.
    #[tactic(auto, unfolding(crate::specs::Modules::before_brace))]
    fn before_brace(&mut self, first: bool, specifier: &ImportSpecifier)
        ensures items { Performs (before_brace first specifier.now)
            S.lines C.maps W.sheet self.old self.new }
    {
        match specifier {
            ImportSpecifier::Named(_) => {}
            ImportSpecifier::Default(node) => node.local.emit_at(self, Context::Plain),
            ImportSpecifier::Namespace(node) => {
                self.comma(first);
                self.star_as();
                node.local.emit_at(self, Context::Plain)
            }
        }
    }

    /// Writes `a, * as b`, as they stand in the list.
    #[tactic(auto, using(crate::proofs::Steps::before_next), unfolding(crate::specs::Modules::before_braces))]
    fn before_braces(&mut self, specifiers: &[ImportSpecifier])
        ensures items { Performs (before_braces true specifiers.now)
            S.lines C.maps W.sheet self.old self.new }
    {
        let mut first = true;
        for specifier in specifiers {
            self.before_brace(first, specifier);
            first = first && !is_default(specifier);
        }
    }

    /// Writes `{ a, b as c }` and a blank, behind a comma where a default name is written.
    #[tactic(auto, unfolding(crate::specs::Modules::some_named))]
    fn some_named(&mut self, parent: Span, specifiers: &[ImportSpecifier])
        ensures items { Performs (some_named parent specifiers.now)
            S.lines C.maps W.sheet self.old self.new }
    {
        self.comma(!has_default(specifiers));
        self.punct(Punctuator::LeftBrace);
        self.import_list(parent, specifiers);
        self.punct(Punctuator::RightBrace);
        self.formatting_space();
    }

    /// Writes that, or the blank that stands there without braces.
    #[tactic(auto, unfolding(crate::specs::Modules::import_braces))]
    fn import_braces(&mut self, parent: Span, specifiers: &[ImportSpecifier])
        ensures items { Performs (import_braces parent specifiers.now)
            S.lines C.maps W.sheet self.old self.new }
    {
        if has_braced(specifiers) {
            return self.some_named(parent, specifiers);
        }
        self.space()
    }

    /// Writes `a, { b } from` and a blank.
    #[tactic(auto, unfolding(crate::specs::Modules::some_imports))]
    fn some_imports(&mut self, parent: Span, specifiers: &[ImportSpecifier])
        ensures items { Performs (some_imports parent specifiers.now)
            S.lines C.maps W.sheet self.old self.new }
    {
        self.before_braces(specifiers);
        self.import_braces(parent, specifiers);
        self.from_word();
    }

    /// Writes what is imported, then `from` and a blank.
    #[tactic(auto, unfolding(crate::specs::Modules::import_clause))]
    fn import_clause(&mut self, parent: Span, specifiers: &[ImportSpecifier])
        ensures items { Performs (import_clause parent specifiers.now)
            S.lines C.maps W.sheet self.old self.new }
    {
        if specifiers.is_empty() {
            return;
        }
        self.some_imports(parent, specifiers)
    }

    /// Writes `source` or `defer` behind a blank, where it is so.
    #[tactic(auto, unfolding(crate::specs::Modules::phase_word))]
    fn phase_word(&mut self, phase: ImportPhase)
        ensures items { Performs (phase_word phase) S.lines C.maps W.sheet self.old self.new }
    {
        match phase {
            ImportPhase::Evaluation => {}
            ImportPhase::Source => {
                self.space();
                self.keyword(None, "source")
            }
            ImportPhase::Defer => {
                self.space();
                self.keyword(None, "defer")
            }
        }
    }

    /// Writes `{ a } from 'b';`
    #[tactic(auto, unfolding(crate::specs::Modules::import_tail))]
    fn import_tail<N: LinkTarget>(&mut self, node: &ImportDecl<N>)
        ensures items { Performs (import_tail N.items node.now)
            S.lines C.maps W.sheet self.old self.new }
    {
        self.import_clause(node.span, &node.specifiers);
        self.source_end(&node.src, &node.with, node.span)
    }
}
