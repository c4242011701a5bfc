//! Types of TypeScript.

ghost use Rattle.std.specs.Prelude.{◌≡◌, false, true};
ghost use Rattle.swc_ecma_codegen_grammar.specs.TypePhrases.{keyword_of, type_operator};
ghost use Rattle.swc_ecma_codegen_tokens.specs.Starts.{begins_letter};
ghost use Rattle.swc_ecma_codegen_emit.specs.Standing.{Performs};
ghost use Rattle.swc_ecma_codegen_emit.specs.Templates.{tpl_parts};
ghost use Rattle.swc_ecma_codegen_emit.specs.Annotations.{word_before};
ghost use Rattle.swc_ecma_codegen_emit.specs.Types.{type_at, ts_keyword_type, ts_this_type, ts_tpl_lit_type, ts_lit, ts_lit_type, qualifier, ts_import_type, ts_type_query_expr, ts_type_query, members_format, listed_members, ts_type_lit, ts_array_type, label, ts_tuple_element, listed_elements, ts_tuple_type, ts_optional_type, ts_rest_type, union_format, intersection_format, joined_list, union_types, intersection_types, ts_union_type, ts_intersection_type, ts_union_or_intersection_type, ts_parenthesized_type, ts_type_operator, ts_indexed_access_type, ts_conditional_type, ts_infer_type, ts_type, ts_type_ann};
ghost use Rattle.swc_ecma_codegen_emit.specs.Places.{in_context};

use crate::emitter::Emitter;
use crate::nodes::{Child, Context, EmitAt, LinkTarget};
use crate::templates::is_counted;
use crate::type_params::types_format;
use swc_ecma_codegen_common::Span;
use swc_ecma_codegen_grammar::ListFormat;
use swc_ecma_codegen_grammar::comments::Comments;
use swc_ecma_codegen_grammar::mapper::SourceMapper;
use swc_ecma_codegen_literals::Punctuator;
use swc_ecma_codegen_text_writer::WriteJs;
use swc_ecma_codegen_tree::{
    PatBox, TplElement, TsArrayType, TsConditionalType, TsEntityNameBox, TsImportType,
    TsIndexedAccessType, TsInferType, TsIntersectionType, TsKeywordType, TsKeywordTypeKind, TsLit,
    TsLitType, TsOptionalType, TsParenthesizedType, TsRestType, TsThisType, TsTplLitType,
    TsTupleElement, TsTupleType, TsType, TsTypeAnn, TsTypeBox, TsTypeLit, TsTypeOperator,
    TsTypeOperatorOp, TsTypeQuery, TsTypeQueryExpr, TsUnionOrIntersectionType, TsUnionType,
};

/// The format of the members of a type.
fn members_format() -> ListFormat
    ensures { result.0 ≡ members_format }
{
    ListFormat::MultiLineTypeLiteralMembers
}

/// The format of `A | B`.
fn union_format() -> ListFormat
    ensures { result.0 ≡ union_format }
{
    ListFormat::UnionTypeConstituents
}

/// The format of `A & B`.
fn intersection_format() -> ListFormat
    ensures { result.0 ≡ intersection_format }
{
    ListFormat::IntersectionTypeConstituents
}

/// The word of a type that is a keyword.
#[tactic(auto, unfolding(swc_ecma_codegen_grammar::specs::TypePhrases::keyword_of))]
fn keyword_of(kind: TsKeywordTypeKind) -> &'static str
    ensures word { result.now ≡ keyword_of kind }
    ensures letter { begins_letter result.now ≡ true }
{
    match kind {
        TsKeywordTypeKind::TsAnyKeyword => "any",
        TsKeywordTypeKind::TsUnknownKeyword => "unknown",
        TsKeywordTypeKind::TsNumberKeyword => "number",
        TsKeywordTypeKind::TsObjectKeyword => "object",
        TsKeywordTypeKind::TsBooleanKeyword => "boolean",
        TsKeywordTypeKind::TsBigIntKeyword => "bigint",
        TsKeywordTypeKind::TsStringKeyword => "string",
        TsKeywordTypeKind::TsSymbolKeyword => "symbol",
        TsKeywordTypeKind::TsVoidKeyword => "void",
        TsKeywordTypeKind::TsUndefinedKeyword => "undefined",
        TsKeywordTypeKind::TsNullKeyword => "null",
        TsKeywordTypeKind::TsNeverKeyword => "never",
        TsKeywordTypeKind::TsIntrinsicKeyword => "intrinsic",
    }
}

/// The word of an operator of types.
#[tactic(auto, unfolding(swc_ecma_codegen_grammar::specs::TypePhrases::type_operator))]
fn type_operator(op: TsTypeOperatorOp) -> &'static str
    ensures word { result.now ≡ type_operator op }
    ensures letter { begins_letter result.now ≡ true }
{
    match op {
        TsTypeOperatorOp::KeyOf => "keyof",
        TsTypeOperatorOp::Unique => "unique",
        TsTypeOperatorOp::ReadOnly => "readonly",
    }
}

impl EmitAt for TsKeywordType {
    ghost items = { λ n _. ts_keyword_type n };

    #[tactic(auto, unfolding(crate::specs::Types::ts_keyword_type))]
    fn emit_at<W: WriteJs, S: SourceMapper, C: Comments>(
        &self,
        e: &mut Emitter<'_, W, S, C>,
        context: Context,
    ) {
        e.leading_comments(self.span.lo);
        e.keyword(Some(self.span), keyword_of(self.kind));
    }
}

impl EmitAt for TsThisType {
    ghost items = { λ n _. ts_this_type n };

    #[tactic(auto, unfolding(crate::specs::Types::ts_this_type))]
    fn emit_at<W: WriteJs, S: SourceMapper, C: Comments>(
        &self,
        e: &mut Emitter<'_, W, S, C>,
        context: Context,
    ) {
        e.leading_comments(self.span.lo);
        e.keyword(Some(self.span), "this");
    }
}

impl<N: LinkTarget> EmitAt for TsTplLitType<N> {
    ghost items = { λ n _. ts_tpl_lit_type N.items n };

    #[tactic(auto, unfolding(crate::specs::Types::ts_tpl_lit_type, crate::specs::Types::ts_tpl_parts))]
    fn emit_at<W: WriteJs, S: SourceMapper, C: Comments>(
        &self,
        e: &mut Emitter<'_, W, S, C>,
        context: Context,
    ) {
        if !is_counted(&self.types, &self.quasis) {
            return e.bad_shape();
        }
        e.leading_comments(self.span.lo);
        e.tpl_types(&self.types, &self.quasis);
    }
}

impl<N: LinkTarget> EmitAt for TsLit<N> {
    ghost items = { λ n _. ts_lit N.items n };

    #[tactic(auto, unfolding(crate::specs::Types::ts_lit))]
    fn emit_at<W: WriteJs, S: SourceMapper, C: Comments>(
        &self,
        e: &mut Emitter<'_, W, S, C>,
        context: Context,
    ) {
        match self {
            TsLit::Number(node) => node.emit_at(e, Context::Plain),
            TsLit::Str(node) => node.emit_at(e, Context::Plain),
            TsLit::Bool(node) => node.emit_at(e, Context::Plain),
            TsLit::BigInt(node) => node.emit_at(e, Context::Plain),
            TsLit::Tpl(node) => node.emit_at(e, Context::Plain),
        }
    }
}

impl<N: LinkTarget> EmitAt for TsLitType<N> {
    ghost items = { λ n _. ts_lit_type N.items n };

    #[tactic(auto, unfolding(crate::specs::Types::ts_lit_type))]
    fn emit_at<W: WriteJs, S: SourceMapper, C: Comments>(
        &self,
        e: &mut Emitter<'_, W, S, C>,
        context: Context,
    ) {
        e.leading_comments(self.span.lo);
        self.lit.emit_at(e, Context::Plain);
    }
}

impl<N: LinkTarget> EmitAt for TsImportType<N> {
    ghost items = { λ n _. ts_import_type N.items n };

    #[tactic(auto, unfolding(crate::specs::Types::ts_import_type))]
    fn emit_at<W: WriteJs, S: SourceMapper, C: Comments>(
        &self,
        e: &mut Emitter<'_, W, S, C>,
        context: Context,
    ) {
        e.leading_comments(self.span.lo);
        e.keyword(None, "import");
        e.punct(Punctuator::LeftParenthesis);
        self.arg.emit_at(e, Context::Plain);
        e.punct(Punctuator::RightParenthesis);
        e.qualifier(&self.qualifier);
        e.type_args(Context::Plain, &self.type_args);
    }
}

impl<N: LinkTarget> EmitAt for TsTypeQueryExpr<N> {
    ghost items = { λ n _. ts_type_query_expr N.items n };

    #[tactic(auto, unfolding(crate::specs::Types::ts_type_query_expr))]
    fn emit_at<W: WriteJs, S: SourceMapper, C: Comments>(
        &self,
        e: &mut Emitter<'_, W, S, C>,
        context: Context,
    ) {
        match self {
            TsTypeQueryExpr::TsEntityName(node) => node.target().emit_at(e, Context::Plain),
            TsTypeQueryExpr::Import(node) => node.emit_at(e, Context::Plain),
        }
    }
}

impl<N: LinkTarget> EmitAt for TsTypeQuery<N> {
    ghost items = { λ n _. ts_type_query N.items n };

    #[tactic(auto, unfolding(crate::specs::Types::ts_type_query))]
    fn emit_at<W: WriteJs, S: SourceMapper, C: Comments>(
        &self,
        e: &mut Emitter<'_, W, S, C>,
        context: Context,
    ) {
        e.leading_comments(self.span.lo);
        e.keyword(None, "typeof");
        e.space();
        self.expr_name.emit_at(e, Context::Plain);
        e.type_args(Context::Plain, &self.type_args);
    }
}

impl<N: LinkTarget> EmitAt for TsTypeLit<N> {
    ghost items = { λ n _. ts_type_lit N.answers N.items n };

    #[tactic(auto, unfolding(crate::specs::Types::ts_type_lit))]
    fn emit_at<W: WriteJs, S: SourceMapper, C: Comments>(
        &self,
        e: &mut Emitter<'_, W, S, C>,
        context: Context,
    ) {
        e.leading_comments(self.span.lo);
        e.punct(Punctuator::LeftBrace);
        e.listed_members(self);
        e.punct(Punctuator::RightBrace);
    }
}

impl<N: LinkTarget> EmitAt for TsArrayType<N> {
    ghost items = { λ n _. ts_array_type N.items n };

    #[tactic(auto, unfolding(crate::specs::Types::ts_array_type))]
    fn emit_at<W: WriteJs, S: SourceMapper, C: Comments>(
        &self,
        e: &mut Emitter<'_, W, S, C>,
        context: Context,
    ) {
        e.leading_comments(self.span.lo);
        self.elem_type.target().emit_at(e, Context::Plain);
        e.punct(Punctuator::LeftBracket);
        e.punct(Punctuator::RightBracket);
    }
}

impl<N: LinkTarget> EmitAt for TsTupleElement<N> {
    ghost items = { λ n _. ts_tuple_element N.items n };

    #[tactic(auto, unfolding(crate::specs::Types::ts_tuple_element))]
    fn emit_at<W: WriteJs, S: SourceMapper, C: Comments>(
        &self,
        e: &mut Emitter<'_, W, S, C>,
        context: Context,
    ) {
        e.leading_comments(self.span.lo);
        e.label(&self.label);
        self.ty.target().emit_at(e, Context::Plain);
    }
}

impl<N: LinkTarget> Child for TsTupleElement<N> {
    ghost stands = { λ n. n.span };

    fn place(&self) -> Span {
        self.span
    }
}

impl<N: LinkTarget> EmitAt for TsTupleType<N> {
    ghost items = { λ n _. ts_tuple_type N.items n };

    #[tactic(auto, unfolding(crate::specs::Types::ts_tuple_type))]
    fn emit_at<W: WriteJs, S: SourceMapper, C: Comments>(
        &self,
        e: &mut Emitter<'_, W, S, C>,
        context: Context,
    ) {
        e.leading_comments(self.span.lo);
        e.punct(Punctuator::LeftBracket);
        e.listed_elements(self);
        e.punct(Punctuator::RightBracket);
    }
}

impl<N: LinkTarget> EmitAt for TsOptionalType<N> {
    ghost items = { λ n _. ts_optional_type N.items n };

    #[tactic(auto, unfolding(crate::specs::Types::ts_optional_type))]
    fn emit_at<W: WriteJs, S: SourceMapper, C: Comments>(
        &self,
        e: &mut Emitter<'_, W, S, C>,
        context: Context,
    ) {
        e.leading_comments(self.span.lo);
        self.type_ann.target().emit_at(e, Context::Plain);
        e.punct(Punctuator::Question);
    }
}

impl<N: LinkTarget> EmitAt for TsRestType<N> {
    ghost items = { λ n _. ts_rest_type N.items n };

    #[tactic(auto, unfolding(crate::specs::Types::ts_rest_type))]
    fn emit_at<W: WriteJs, S: SourceMapper, C: Comments>(
        &self,
        e: &mut Emitter<'_, W, S, C>,
        context: Context,
    ) {
        e.leading_comments(self.span.lo);
        e.punct(Punctuator::Ellipsis);
        self.type_ann.target().emit_at(e, Context::Plain);
    }
}

impl<N: LinkTarget> EmitAt for TsUnionType<N> {
    ghost items = { λ n _. ts_union_type N.answers N.items n };

    #[tactic(auto, unfolding(crate::specs::Types::ts_union_type))]
    fn emit_at<W: WriteJs, S: SourceMapper, C: Comments>(
        &self,
        e: &mut Emitter<'_, W, S, C>,
        context: Context,
    ) {
        e.leading_comments(self.span.lo);
        e.union_types(self);
    }
}

impl<N: LinkTarget> EmitAt for TsIntersectionType<N> {
    ghost items = { λ n _. ts_intersection_type N.answers N.items n };

    #[tactic(auto, unfolding(crate::specs::Types::ts_intersection_type))]
    fn emit_at<W: WriteJs, S: SourceMapper, C: Comments>(
        &self,
        e: &mut Emitter<'_, W, S, C>,
        context: Context,
    ) {
        e.leading_comments(self.span.lo);
        e.intersection_types(self);
    }
}

impl<N: LinkTarget> EmitAt for TsUnionOrIntersectionType<N> {
    ghost items = { λ n _. ts_union_or_intersection_type N.answers N.items n };

    #[tactic(auto, unfolding(crate::specs::Types::ts_union_or_intersection_type))]
    fn emit_at<W: WriteJs, S: SourceMapper, C: Comments>(
        &self,
        e: &mut Emitter<'_, W, S, C>,
        context: Context,
    ) {
        match self {
            TsUnionOrIntersectionType::TsUnionType(node) => node.emit_at(e, Context::Plain),
            TsUnionOrIntersectionType::TsIntersectionType(node) => node.emit_at(e, Context::Plain),
        }
    }
}

impl<N: LinkTarget> EmitAt for TsParenthesizedType<N> {
    ghost items = { λ n _. ts_parenthesized_type N.items n };

    #[tactic(auto, unfolding(crate::specs::Types::ts_parenthesized_type))]
    fn emit_at<W: WriteJs, S: SourceMapper, C: Comments>(
        &self,
        e: &mut Emitter<'_, W, S, C>,
        context: Context,
    ) {
        e.leading_comments(self.span.lo);
        e.punct(Punctuator::LeftParenthesis);
        self.type_ann.target().emit_at(e, Context::Plain);
        e.punct(Punctuator::RightParenthesis);
    }
}

impl<N: LinkTarget> EmitAt for TsTypeOperator<N> {
    ghost items = { λ n _. ts_type_operator N.items n };

    #[tactic(auto, unfolding(crate::specs::Types::ts_type_operator))]
    fn emit_at<W: WriteJs, S: SourceMapper, C: Comments>(
        &self,
        e: &mut Emitter<'_, W, S, C>,
        context: Context,
    ) {
        e.leading_comments(self.span.lo);
        e.keyword(None, type_operator(self.op));
        e.space();
        self.type_ann.target().emit_at(e, Context::Plain);
    }
}

impl<N: LinkTarget> EmitAt for TsIndexedAccessType<N> {
    ghost items = { λ n _. ts_indexed_access_type N.items n };

    #[tactic(auto, unfolding(crate::specs::Types::ts_indexed_access_type))]
    fn emit_at<W: WriteJs, S: SourceMapper, C: Comments>(
        &self,
        e: &mut Emitter<'_, W, S, C>,
        context: Context,
    ) {
        e.leading_comments(self.span.lo);
        self.obj_type.target().emit_at(e, Context::Plain);
        e.punct(Punctuator::LeftBracket);
        self.index_type.target().emit_at(e, Context::Plain);
        e.punct(Punctuator::RightBracket);
    }
}

impl<N: LinkTarget> EmitAt for TsConditionalType<N> {
    ghost items = { λ n _. ts_conditional_type N.items n };

    #[tactic(auto, unfolding(crate::specs::Types::ts_conditional_type))]
    fn emit_at<W: WriteJs, S: SourceMapper, C: Comments>(
        &self,
        e: &mut Emitter<'_, W, S, C>,
        context: Context,
    ) {
        e.leading_comments(self.span.lo);
        self.check_type.target().emit_at(e, Context::Plain);
        e.space();
        e.keyword(None, "extends");
        e.space();
        self.extends_type.target().emit_at(e, Context::Plain);
        e.punct_between(Punctuator::Question);
        self.true_type.target().emit_at(e, Context::Plain);
        e.punct_between(Punctuator::Colon);
        self.false_type.target().emit_at(e, Context::Plain);
    }
}

impl<N: LinkTarget> EmitAt for TsInferType<N> {
    ghost items = { λ n _. ts_infer_type N.items n };

    #[tactic(auto, unfolding(crate::specs::Types::ts_infer_type))]
    fn emit_at<W: WriteJs, S: SourceMapper, C: Comments>(
        &self,
        e: &mut Emitter<'_, W, S, C>,
        context: Context,
    ) {
        e.leading_comments(self.span.lo);
        e.keyword(None, "infer");
        e.space();
        self.type_param.emit_at(e, Context::Plain);
    }
}

impl<N: LinkTarget> EmitAt for TsType<N> {
    ghost items = { λ n _. ts_type N.answers N.items n };

    #[tactic(auto, unfolding(crate::specs::Types::ts_type))]
    fn emit_at<W: WriteJs, S: SourceMapper, C: Comments>(
        &self,
        e: &mut Emitter<'_, W, S, C>,
        context: Context,
    ) {
        match self {
            TsType::TsKeywordType(node) => node.emit_at(e, Context::Plain),
            TsType::TsThisType(node) => node.emit_at(e, Context::Plain),
            TsType::TsFnOrConstructorType(node) => (**node).emit_at(e, Context::Plain),
            TsType::TsTypeRef(node) => node.emit_at(e, Context::Plain),
            TsType::TsTypeQuery(node) => (**node).emit_at(e, Context::Plain),
            TsType::TsTypeLit(node) => node.emit_at(e, Context::Plain),
            TsType::TsArrayType(node) => node.emit_at(e, Context::Plain),
            TsType::TsTupleType(node) => node.emit_at(e, Context::Plain),
            TsType::TsOptionalType(node) => node.emit_at(e, Context::Plain),
            TsType::TsRestType(node) => node.emit_at(e, Context::Plain),
            TsType::TsUnionOrIntersectionType(node) => node.emit_at(e, Context::Plain),
            TsType::TsConditionalType(node) => node.emit_at(e, Context::Plain),
            TsType::TsInferType(node) => (**node).emit_at(e, Context::Plain),
            TsType::TsParenthesizedType(node) => node.emit_at(e, Context::Plain),
            TsType::TsTypeOperator(node) => node.emit_at(e, Context::Plain),
            TsType::TsIndexedAccessType(node) => node.emit_at(e, Context::Plain),
            TsType::TsMappedType(node) => (**node).emit_at(e, Context::Plain),
            TsType::TsLitType(node) => (**node).emit_at(e, Context::Plain),
            TsType::TsTypePredicate(node) => (**node).emit_at(e, Context::Plain),
            TsType::TsImportType(node) => (**node).emit_at(e, Context::Plain),
        }
    }
}

impl<N: LinkTarget> EmitAt for TsTypeAnn<N> {
    ghost items = { λ n. in_context (ts_type_ann N.answers N.items n) };

    #[tactic(auto, unfolding(crate::specs::Types::ts_type_ann))]
    fn emit_at<W: WriteJs, S: SourceMapper, C: Comments>(
        &self,
        e: &mut Emitter<'_, W, S, C>,
        context: Context,
    ) {
        match context {
            Context::Reference => self.type_ann.emit_at(e, Context::Plain),
            _ => {
                e.leading_comments(self.span.lo);
                self.type_ann.emit_at(e, Context::Plain)
            }
        }
    }
}

impl<W: WriteJs, S: SourceMapper, C: Comments> Emitter<'_, W, S, C> {
    /// Writes a word and a blank, where it is so.
    #[tactic(auto, unfolding(crate::specs::Annotations::word_before))]
    pub(crate) fn word_before(&mut self, wanted: bool, text: &'static str)
        requires { begins_letter text.now ≡ true }
        ensures items { Performs (word_before wanted text.now)
            S.lines C.maps W.sheet self.old self.new }
    {
        if wanted {
            self.keyword(None, text);
            self.space();
        }
    }

    /// Writes the parts of a template, with types between.
    fn tpl_types<N: LinkTarget>(&mut self, types: &[TsTypeBox<N>], quasis: &[TplElement])
        ensures items { Performs (tpl_parts (type_at N.items) false types.now quasis.now)
            S.lines C.maps W.sheet self.old self.new }
    {
        self.tpl_parts(false, types, quasis)
    }

    /// Writes `.B` of `import("a").B`.
    #[tactic(auto, unfolding(crate::specs::Types::qualifier))]
    fn qualifier<N: LinkTarget>(&mut self, name: &Option<TsEntityNameBox<N>>)
        ensures items { Performs (qualifier N.items name.now)
            S.lines C.maps W.sheet self.old self.new }
    {
        match name {
            Some(node) => {
                self.punct(Punctuator::Dot);
                node.target().emit_at(self, Context::Plain)
            }
            None => {}
        }
    }

    /// Writes the members of a type.
    fn listed_members<N: LinkTarget>(&mut self, node: &TsTypeLit<N>)
        ensures items { Performs (listed_members N.answers N.items node.now)
            S.lines C.maps W.sheet self.old self.new }
    {
        self.list(members_format(), node.span, &node.members)
    }

    /// Writes `b: ` of `[b: B]`.
    #[tactic(auto, unfolding(crate::specs::Types::label))]
    fn label<N: LinkTarget>(&mut self, pat: &Option<PatBox<N>>)
        ensures items { Performs (label N.items pat.now) S.lines C.maps W.sheet self.old self.new }
    {
        match pat {
            Some(node) => {
                node.target().emit_at(self, Context::Plain);
                self.punct(Punctuator::Colon);
                self.formatting_space()
            }
            None => {}
        }
    }

    /// Writes the elements of a tuple.
    fn listed_elements<N: LinkTarget>(&mut self, node: &TsTupleType<N>)
        ensures items { Performs (listed_elements N.items node.now)
            S.lines C.maps W.sheet self.old self.new }
    {
        self.list(types_format(), node.span, &node.elem_types)
    }

    /// Writes types with `|` or `&` between.
    fn joined_list<N: LinkTarget>(&mut self, format: ListFormat, span: Span, nodes: &[TsTypeBox<N>])
        ensures items { Performs (joined_list N.answers N.items format.0 span nodes.now)
            S.lines C.maps W.sheet self.old self.new }
    {
        self.list(format, span, nodes)
    }

    /// Writes the types of a union, with `|` between.
    fn union_types<N: LinkTarget>(&mut self, node: &TsUnionType<N>)
        ensures items { Performs (union_types N.answers N.items node.now)
            S.lines C.maps W.sheet self.old self.new }
    {
        self.joined_list(union_format(), node.span, &node.types)
    }

    /// Writes the types of an intersection, with `&` between.
    fn intersection_types<N: LinkTarget>(&mut self, node: &TsIntersectionType<N>)
        ensures items { Performs (intersection_types N.answers N.items node.now)
            S.lines C.maps W.sheet self.old self.new }
    {
        self.joined_list(intersection_format(), node.span, &node.types)
    }
}
