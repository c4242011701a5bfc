//! Declarations of TypeScript.

ghost use Rattle.std.specs.Prelude.{◌≡◌};
ghost use Rattle.swc_ecma_codegen_emit.specs.Standing.{Performs};
ghost use Rattle.swc_ecma_codegen_emit.specs.TsDecls.{declare_word, ts_expr_with_type_args, extended_format, extended_list, some_extends, extends_clause, ts_interface_decl, ts_type_alias_decl, ts_enum_member_id, ts_enum_member, enum_format, enum_members, enum_body, ts_enum_decl, ts_module_name, module_head, module_tail, ts_module_decl, ts_external_module_ref, ts_module_ref, ts_import_equals_decl, ts_export_assignment, ts_namespace_export_decl};
ghost use Rattle.swc_ecma_codegen_emit.specs.Namespaces.{module_block_format, block_items, ts_module_block, ts_namespace_decl, namespace_inside, braced_body, dotted_body, ts_namespace_body};
ghost use Rattle.swc_ecma_codegen_emit.specs.Places.{in_context};

use crate::emitter::Emitter;
use crate::nodes::{Child, Context, EmitAt, LinkTarget};
use swc_ecma_codegen_common::Span;
use swc_ecma_codegen_grammar::ListFormat;
use swc_ecma_codegen_grammar::comments::Comments;
use swc_ecma_codegen_grammar::mapper::SourceMapper;
use swc_ecma_codegen_literals::Punctuator;
use swc_ecma_codegen_spans::Spanned;
use swc_ecma_codegen_text_writer::WriteJs;
use swc_ecma_codegen_tree::{
    TsEnumDecl, TsEnumMember, TsEnumMemberId, TsExportAssignment, TsExprWithTypeArgs,
    TsExternalModuleRef, TsImportEqualsDecl, TsInterfaceDecl, TsModuleBlock, TsModuleDecl,
    TsModuleName, TsModuleRef, TsNamespaceBody, TsNamespaceBodyBox, TsNamespaceDecl,
    TsNamespaceExportDecl, TsTypeAliasDecl,
};

/// The format of what an interface extends.
fn extended_format() -> ListFormat
    ensures { result.0 ≡ extended_format }
{
    ListFormat::HeritageClauseTypes
}

/// The format of the members of an enum.
fn enum_format() -> ListFormat
    ensures { result.0 ≡ enum_format }
{
    ListFormat::EnumMembers
}

/// The format of the items of a namespace.
fn module_block_format() -> ListFormat
    ensures { result.0 ≡ module_block_format }
{
    ListFormat::SourceFileStatements
}

impl<N: LinkTarget> EmitAt for TsExprWithTypeArgs<N> {
    ghost items = { λ n _. ts_expr_with_type_args N.items n };

    #[tactic(auto, unfolding(crate::specs::TsDecls::ts_expr_with_type_args))]
    fn emit_at<W: WriteJs, S: SourceMapper, C: Comments>(
        &self,
        e: &mut Emitter<'_, W, S, C>,
        context: Context,
    ) {
        e.leading_comments(self.span.lo);
        self.expr.target().emit_at(e, Context::Plain);
        e.type_args(Context::Plain, &self.type_args);
    }
}

impl<N: LinkTarget> Child for TsExprWithTypeArgs<N> {
    ghost stands = { λ n. n.span };

    fn place(&self) -> Span {
        self.span
    }
}

impl<N: LinkTarget> EmitAt for TsInterfaceDecl<N> {
    ghost items = { λ n _. ts_interface_decl N.items n };

    #[tactic(auto, unfolding(crate::specs::TsDecls::ts_interface_decl))]
    fn emit_at<W: WriteJs, S: SourceMapper, C: Comments>(
        &self,
        e: &mut Emitter<'_, W, S, C>,
        context: Context,
    ) {
        e.leading_comments(self.span.lo);
        e.declare_word(self.declare);
        e.keyword(None, "interface");
        e.space();
        self.id.emit_at(e, Context::Plain);
        e.type_params(&self.type_params);
        e.extends_clause(self.span, &self.extends);
        e.formatting_space();
        self.body.target().emit_at(e, Context::Plain);
    }
}

impl<N: LinkTarget> EmitAt for TsTypeAliasDecl<N> {
    ghost items = { λ n _. ts_type_alias_decl N.items n };

    #[tactic(auto, unfolding(crate::specs::TsDecls::ts_type_alias_decl))]
    fn emit_at<W: WriteJs, S: SourceMapper, C: Comments>(
        &self,
        e: &mut Emitter<'_, W, S, C>,
        context: Context,
    ) {
        e.leading_comments(self.span.lo);
        e.declare_word(self.declare);
        e.keyword(None, "type");
        e.space();
        self.id.emit_at(e, Context::Plain);
        e.type_params(&self.type_params);
        e.spaced_punct(Punctuator::Equal);
        self.type_ann.target().emit_at(e, Context::Plain);
        e.semi();
    }
}

impl EmitAt for TsEnumMemberId {
    ghost items = { λ n _. ts_enum_member_id n };

    #[tactic(auto, unfolding(crate::specs::TsDecls::ts_enum_member_id))]
    fn emit_at<W: WriteJs, S: SourceMapper, C: Comments>(
        &self,
        e: &mut Emitter<'_, W, S, C>,
        context: Context,
    ) {
        match self {
            TsEnumMemberId::Ident(node) => node.emit_at(e, Context::Plain),
            TsEnumMemberId::Str(node) => node.emit_at(e, Context::Plain),
        }
    }
}

impl<N: LinkTarget> EmitAt for TsEnumMember<N> {
    ghost items = { λ n _. ts_enum_member N.items n };

    #[tactic(auto, unfolding(crate::specs::TsDecls::ts_enum_member))]
    fn emit_at<W: WriteJs, S: SourceMapper, C: Comments>(
        &self,
        e: &mut Emitter<'_, W, S, C>,
        context: Context,
    ) {
        e.leading_comments(self.span.lo);
        self.id.emit_at(e, Context::Plain);
        e.initializer(&self.init);
    }
}

impl<N: LinkTarget> Child for TsEnumMember<N> {
    ghost stands = { λ n. n.span };

    fn place(&self) -> Span {
        self.span
    }
}

impl<N: LinkTarget> EmitAt for TsEnumDecl<N> {
    ghost items = { λ n _. ts_enum_decl N.items n };

    #[tactic(auto, unfolding(crate::specs::TsDecls::ts_enum_decl))]
    fn emit_at<W: WriteJs, S: SourceMapper, C: Comments>(
        &self,
        e: &mut Emitter<'_, W, S, C>,
        context: Context,
    ) {
        e.leading_comments(self.span.lo);
        e.declare_word(self.declare);
        e.word_before(self.is_const, "const");
        e.keyword(None, "enum");
        e.space();
        self.id.emit_at(e, Context::Plain);
        e.formatting_space();
        e.enum_body(self);
    }
}

impl EmitAt for TsModuleName {
    ghost items = { λ n _. ts_module_name n };

    #[tactic(auto, unfolding(crate::specs::TsDecls::ts_module_name))]
    fn emit_at<W: WriteJs, S: SourceMapper, C: Comments>(
        &self,
        e: &mut Emitter<'_, W, S, C>,
        context: Context,
    ) {
        match self {
            TsModuleName::Ident(node) => {
                e.keyword(None, "namespace");
                e.space();
                node.emit_at(e, Context::Plain)
            }
            TsModuleName::Str(node) => {
                e.keyword(None, "module");
                e.space();
                node.emit_at(e, Context::Plain)
            }
        }
    }
}

impl<N: LinkTarget> EmitAt for TsModuleDecl<N> {
    ghost items = { λ n _. ts_module_decl N.items n };

    #[tactic(auto, unfolding(crate::specs::TsDecls::ts_module_decl))]
    fn emit_at<W: WriteJs, S: SourceMapper, C: Comments>(
        &self,
        e: &mut Emitter<'_, W, S, C>,
        context: Context,
    ) {
        e.leading_comments(self.span.lo);
        e.declare_word(self.declare);
        e.module_head(self.global, &self.id);
        e.module_tail(&self.body);
    }
}

impl<N: LinkTarget> EmitAt for TsModuleBlock<N> {
    ghost items = { λ n _. ts_module_block N.answers N.items n };

    #[tactic(auto, unfolding(crate::specs::Namespaces::ts_module_block))]
    fn emit_at<W: WriteJs, S: SourceMapper, C: Comments>(
        &self,
        e: &mut Emitter<'_, W, S, C>,
        context: Context,
    ) {
        e.block_items(self);
        e.leading_comments(self.span.lo);
    }
}

impl<N: LinkTarget> EmitAt for TsNamespaceDecl<N> {
    ghost items = { λ n _. ts_namespace_decl N.items n };

    #[tactic(auto, unfolding(crate::specs::Namespaces::ts_namespace_decl))]
    fn emit_at<W: WriteJs, S: SourceMapper, C: Comments>(
        &self,
        e: &mut Emitter<'_, W, S, C>,
        context: Context,
    ) {
        e.leading_comments(self.span.lo);
        e.declare_word(self.declare);
        e.keyword(None, "namespace");
        e.space();
        self.id.emit_at(e, Context::Plain);
        e.formatting_space();
        self.body.target().emit_at(e, Context::Plain);
    }
}

impl<N: LinkTarget> EmitAt for TsNamespaceBody<N> {
    ghost items = { λ n. in_context (ts_namespace_body N.answers N.items n) };

    #[tactic(auto, unfolding(crate::specs::Namespaces::ts_namespace_body))]
    fn emit_at<W: WriteJs, S: SourceMapper, C: Comments>(
        &self,
        e: &mut Emitter<'_, W, S, C>,
        context: Context,
    ) {
        match context {
            Context::Dotted => e.dotted_body(self),
            _ => e.braced_body(self),
        }
    }
}

impl EmitAt for TsExternalModuleRef {
    ghost items = { λ n _. ts_external_module_ref n };

    #[tactic(auto, unfolding(crate::specs::TsDecls::ts_external_module_ref))]
    fn emit_at<W: WriteJs, S: SourceMapper, C: Comments>(
        &self,
        e: &mut Emitter<'_, W, S, C>,
        context: Context,
    ) {
        e.leading_comments(self.span.lo);
        e.keyword(None, "require");
        e.punct(Punctuator::LeftParenthesis);
        self.expr.emit_at(e, Context::Plain);
        e.punct(Punctuator::RightParenthesis);
    }
}

impl<N: LinkTarget> EmitAt for TsModuleRef<N> {
    ghost items = { λ n _. ts_module_ref N.items n };

    #[tactic(auto, unfolding(crate::specs::TsDecls::ts_module_ref))]
    fn emit_at<W: WriteJs, S: SourceMapper, C: Comments>(
        &self,
        e: &mut Emitter<'_, W, S, C>,
        context: Context,
    ) {
        match self {
            TsModuleRef::TsEntityName(node) => node.target().emit_at(e, Context::Plain),
            TsModuleRef::TsExternalModuleRef(node) => node.emit_at(e, Context::Plain),
        }
    }
}

impl<N: LinkTarget> EmitAt for TsImportEqualsDecl<N> {
    ghost items = { λ n _. ts_import_equals_decl N.items n };

    #[tactic(auto, unfolding(crate::specs::TsDecls::ts_import_equals_decl))]
    fn emit_at<W: WriteJs, S: SourceMapper, C: Comments>(
        &self,
        e: &mut Emitter<'_, W, S, C>,
        context: Context,
    ) {
        e.leading_comments(self.span.lo);
        e.word_before(self.is_export, "export");
        e.keyword(None, "import");
        e.space();
        e.word_before(self.is_type_only, "type");
        self.id.emit_at(e, Context::Plain);
        e.spaced_punct(Punctuator::Equal);
        self.module_ref.emit_at(e, Context::Plain);
        e.semi();
    }
}

impl<N: LinkTarget> EmitAt for TsExportAssignment<N> {
    ghost items = { λ n _. ts_export_assignment N.items n };

    #[tactic(auto, unfolding(crate::specs::TsDecls::ts_export_assignment))]
    fn emit_at<W: WriteJs, S: SourceMapper, C: Comments>(
        &self,
        e: &mut Emitter<'_, W, S, C>,
        context: Context,
    ) {
        e.leading_comments(self.span.lo);
        e.keyword(None, "export");
        e.spaced_punct(Punctuator::Equal);
        self.expr.target().emit_at(e, Context::Plain);
        e.semi();
    }
}

impl EmitAt for TsNamespaceExportDecl {
    ghost items = { λ n _. ts_namespace_export_decl n };

    #[tactic(auto, unfolding(crate::specs::TsDecls::ts_namespace_export_decl))]
    fn emit_at<W: WriteJs, S: SourceMapper, C: Comments>(
        &self,
        e: &mut Emitter<'_, W, S, C>,
        context: Context,
    ) {
        e.leading_comments(self.span.lo);
        e.keyword(None, "export");
        e.space();
        e.keyword(None, "as");
        e.space();
        e.keyword(None, "namespace");
        e.space();
        self.id.emit_at(e, Context::Plain);
        e.semi();
    }
}

impl<W: WriteJs, S: SourceMapper, C: Comments> Emitter<'_, W, S, C> {
    /// Writes `declare` and a blank, where it is so.
    #[tactic(auto, unfolding(crate::specs::TsDecls::declare_word))]
    pub(crate) fn declare_word(&mut self, declared: bool)
        ensures items { Performs (declare_word declared) S.lines C.maps W.sheet self.old self.new }
    {
        self.word_before(declared, "declare")
    }

    /// Writes what an interface extends, with commas between.
    fn extended_list<N: LinkTarget>(&mut self, span: Span, nodes: &[TsExprWithTypeArgs<N>])
        ensures items { Performs (extended_list N.items span nodes.now)
            S.lines C.maps W.sheet self.old self.new }
    {
        self.list(extended_format(), span, nodes)
    }

    /// Writes ` extends A<B>, C`.
    #[tactic(auto, unfolding(crate::specs::TsDecls::some_extends))]
    fn some_extends<N: LinkTarget>(&mut self, span: Span, nodes: &[TsExprWithTypeArgs<N>])
        ensures items { Performs (some_extends N.items span nodes.now)
            S.lines C.maps W.sheet self.old self.new }
    {
        self.space();
        self.keyword(None, "extends");
        self.space();
        self.extended_list(span, nodes);
    }

    /// Writes the same, where something is extended.
    #[tactic(auto, unfolding(crate::specs::TsDecls::extends_clause))]
    fn extends_clause<N: LinkTarget>(&mut self, span: Span, nodes: &[TsExprWithTypeArgs<N>])
        ensures items { Performs (extends_clause N.items span nodes.now)
            S.lines C.maps W.sheet self.old self.new }
    {
        if nodes.is_empty() {
            return;
        }
        self.some_extends(span, nodes)
    }

    /// Writes the members of an enum, with commas between.
    fn enum_members<N: LinkTarget>(&mut self, node: &TsEnumDecl<N>)
        ensures items { Performs (enum_members N.items node.now)
            S.lines C.maps W.sheet self.old self.new }
    {
        self.list(enum_format(), node.span, &node.members)
    }

    /// Writes `{ B, C = 1 }`.
    #[tactic(auto, unfolding(crate::specs::TsDecls::enum_body))]
    fn enum_body<N: LinkTarget>(&mut self, node: &TsEnumDecl<N>)
        ensures items { Performs (enum_body N.items node.now)
            S.lines C.maps W.sheet self.old self.new }
    {
        self.punct(Punctuator::LeftBrace);
        self.enum_members(node);
        self.punct(Punctuator::RightBrace);
    }

    /// Writes `namespace a`, `module "a"` or `global`.
    #[tactic(auto, unfolding(crate::specs::TsDecls::module_head))]
    fn module_head(&mut self, global: bool, name: &TsModuleName)
        ensures items { Performs (module_head global name.now)
            S.lines C.maps W.sheet self.old self.new }
    {
        if global {
            return self.keyword(None, "global");
        }
        name.emit_at(self, Context::Plain)
    }

    /// Writes the body behind the name, or the semicolon in its place.
    #[tactic(auto, unfolding(crate::specs::TsDecls::module_tail))]
    fn module_tail<N: LinkTarget>(&mut self, body: &Option<TsNamespaceBodyBox<N>>)
        ensures items { Performs (module_tail N.items body.now)
            S.lines C.maps W.sheet self.old self.new }
    {
        match body {
            Some(node) => node.target().emit_at(self, Context::Dotted),
            None => self.semi(),
        }
    }

    /// Writes the items of a namespace.
    fn block_items<N: LinkTarget>(&mut self, node: &TsModuleBlock<N>)
        ensures items { Performs (block_items N.answers N.items node.now)
            S.lines C.maps W.sheet self.old self.new }
    {
        self.list(module_block_format(), node.span, &node.body)
    }

    /// Writes what stands between the braces of a body.
    #[tactic(auto, unfolding(crate::specs::Namespaces::namespace_inside))]
    fn namespace_inside<N: LinkTarget>(&mut self, node: &TsNamespaceBody<N>)
        ensures items { Performs (namespace_inside N.answers N.items node.now)
            S.lines C.maps W.sheet self.old self.new }
    {
        match node {
            TsNamespaceBody::TsModuleBlock(node) => node.emit_at(self, Context::Plain),
            TsNamespaceBody::TsNamespaceDecl(node) => node.emit_at(self, Context::Plain),
        }
    }

    /// Writes `{ b; }`.
    #[tactic(auto, unfolding(crate::specs::Namespaces::braced_body))]
    fn braced_body<N: LinkTarget>(&mut self, node: &TsNamespaceBody<N>)
        ensures items { Performs (braced_body N.answers N.items node.now)
            S.lines C.maps W.sheet self.old self.new }
    {
        self.leading_comments(node.span().lo);
        self.punct(Punctuator::LeftBrace);
        self.deeper();
        self.namespace_inside(node);
        self.shallower();
        self.punct(Punctuator::RightBrace);
    }

    /// Writes ` { b; }` or `.b { c; }`.
    #[tactic(auto, unfolding(crate::specs::Namespaces::dotted_body))]
    fn dotted_body<N: LinkTarget>(&mut self, node: &TsNamespaceBody<N>)
        ensures items { Performs (dotted_body N.answers N.items node.now)
            S.lines C.maps W.sheet self.old self.new }
    {
        match node {
            TsNamespaceBody::TsModuleBlock(_) => {
                self.formatting_space();
                self.braced_body(node)
            }
            TsNamespaceBody::TsNamespaceDecl(node) => {
                self.punct(Punctuator::Dot);
                node.id.emit_at(self, Context::Plain);
                node.body.target().emit_at(self, Context::Dotted)
            }
        }
    }
}
