//! What a parent may ask of a child: to print, its span, what it begins with.

ghost use Rattle.std.specs.Prelude.{◌≡◌};
ghost use Rattle.swc_ecma_codegen_tokens.specs.Run.{Part};
ghost use Rattle.swc_ecma_codegen_emit.specs.Standing.{Performs};
ghost use Rattle.swc_ecma_codegen_emit.specs.Places.{Place as At, Only, Whole};
ghost use Rattle.swc_ecma_codegen_emit.specs.Answers.{Answers, reply_of};
ghost use Rattle.swc_ecma_codegen_common.specs.declared.positions.Span.{Span as Stretch};
ghost use Rattle.swc_ecma_codegen_spans.specs.Spans.{option_span};
ghost use Rattle.swc_ecma_codegen_grammar.specs.Comments.{maps_in};

use crate::emitter::Emitter;
use crate::operands::OperandKind;
use crate::patterns::PatternKind;
use swc_ecma_codegen_common::{BinaryOp, BytePos, DUMMY_SP, Span};
use swc_ecma_codegen_grammar::comments::Comments;
use swc_ecma_codegen_grammar::mapper::SourceMapper;
use swc_ecma_codegen_text_writer::WriteJs;
use swc_ecma_codegen_tree::Link;

/// The context that a whole node stands in.
#[derive(Debug, Clone, Copy, PartialEq, Eq)]
pub enum Context {
    /// Any other. A function or a class by itself is what stands behind its name, as in swc:
    /// `(a) { b; }` of `function f(a) { b; }`
    Plain,
    /// The left operand of a binary operator: `a + b` in `a + b + c`.
    LeftOperand,
    /// The object of a property in brackets: `1` in `1[a]`.
    Object,
    /// The object of a property after a dot, and where the property stands: `1` in `1..a`.
    DottedObject(BytePos),
    /// What is called: `f` of `f(a)`. The object of a property in an optional chain stands there
    /// too.
    Callee,
    /// A member or a call in an optional chain that has no `?.` before its property or its
    /// arguments: `a?.b.c`
    Chain,
    /// And one behind `?.`: `a?.b`
    OptionalChain,
    /// A block as the body of a function: `{ a; }` of `function f() { a; }`
    Body,
    /// A function that is exported by default, whose end is that of a declaration:
    /// `function f() {}` of `export default function f() {}`
    DefaultExport,
    /// A declaration as a statement: where one of variables ends isn't recorded there.
    Statement,
    /// A template after its tag.
    Tagged,
    /// The value of a field, where a sequence stands in parentheses: `(a, b)` of
    /// `class B { c = (a, b); }`
    FieldValue,
    /// Between two tags: `<b/>` and `{c}` of `<a><b/>{c}</a>`
    Child,
    /// Type arguments behind the name of a type, and the type of a getter, which leave the comments
    /// before them: `<B>` of `A<B>`, `C` of `{ get a(): C; }`
    Reference,
    /// The body of a namespace behind its name: ` {}` of `namespace a {}`, `.b {}` of
    /// `namespace a.b {}`
    Dotted,
    /// By itself, in no other node, and the greatest length of the lines that a module or script is
    /// written in there: with 2, `a;b` is `a;` LF `b`.
    ByItself(u32),
}

/// A piece of a node. What another node has, a name or the word `export`, stands between two
/// pieces.
#[derive(Debug, Clone, Copy, PartialEq, Eq)]
pub enum Piece {
    /// What of a function stands before its name: `async function*`
    FunctionHead,
    /// What of a method stands before its name: `async *`
    MethodHead,
    /// What of a function that is declared stands before its name: `async function*` and a blank
    DeclarationHead,
    /// What of a function that is declared, or of a private method, stands behind its name:
    /// `(a) { b; }`, and `(a);` where it has no body. Behind that semicolon a line may be ended,
    /// since neither is an expression.
    DeclarationTail,
    /// What of a class stands before the word: `@a` of `@a class B {}`
    ClassHead,
    /// The word of a class, and what stands right before it: `abstract class`
    ClassWord,
    /// What of a static method stands before its name, and whether that begins with a character of
    /// a name: ` async *`
    StaticHead(bool),
    /// What of a method stands before its modifiers: `@a` of `@a b() {}`
    MethodDecorators,
    /// The function of a method, whose decorators stand elsewhere: `() {}` of `@a b() {}`
    MethodTail,
    /// What of a declaration stands before `export`: `@a` of `@a export class B {}`
    ExportedHead,
    /// And what stands after it: `class B {}`
    ExportedTail,
}

/// What a node tells those above it.
pub trait Known {
    ghost answers: { Self → Answers };
}

/// What those above a node ask it.
#[derive(Clone, Copy)]
pub enum Question {
    /// Where it stands.
    Place,
    /// Whether its text begins with a character of a name.
    Starts,
    /// Whether its text ends with a character of a name.
    Ends,
    /// Its operator.
    Kind,
    /// Whether a blank is due between an operator and it.
    Space(BinaryOp),
    /// What it begins with, where it is a pattern.
    Pattern,
    /// Whether it is a block, where it is a statement.
    Block,
}

/// What a node answers.
#[derive(Clone, Copy)]
pub enum Reply {
    /// To where it stands.
    Place(Span),
    /// To whether something holds of it.
    Truth(bool),
    /// To its operator.
    Kind(OperandKind),
    /// To what it begins with, where it is a pattern.
    Pattern(PatternKind),
}

/// The questions that those above it ask. What answers them is one function, since a check of each
/// that names `AnyNode` is dear.
pub trait Asked: Known {
    fn reply(&self, question: Question) -> Reply
        ensures { result ≡ reply_of (Self.answers self.now) question };

    /// Whether a line ends in or after a comment before one of its leftmost parts.
    fn breaks<C: Comments>(&self, comments: &Option<C>) -> bool
        ensures { result ≡ (Self.answers self.now).breaks (maps_in C.maps comments.now) };

    /// Where it stands.
    #[inline(always)]
    #[tactic(auto, unfolding(crate::specs::Answers::reply_of))]
    final fn place(&self) -> Span
        ensures { result ≡ (Self.answers self.now).place }
    {
        match self.reply(Question::Place) {
            Reply::Place(span) => span,
            _ => DUMMY_SP,
        }
    }

    /// Whether its text begins with a character of a name.
    #[inline(always)]
    #[tactic(auto, unfolding(crate::specs::Answers::reply_of))]
    final fn starts(&self) -> bool
        ensures { result ≡ (Self.answers self.now).starts }
    {
        matches!(self.reply(Question::Starts), Reply::Truth(true))
    }

    /// Whether its text ends with a character of a name.
    #[inline(always)]
    #[tactic(auto, unfolding(crate::specs::Answers::reply_of))]
    final fn ends(&self) -> bool
        ensures { result ≡ (Self.answers self.now).ends }
    {
        matches!(self.reply(Question::Ends), Reply::Truth(true))
    }

    /// Its operator.
    #[inline(always)]
    #[tactic(auto, unfolding(crate::specs::Answers::reply_of))]
    final fn kind(&self) -> OperandKind
        ensures { result ≡ (Self.answers self.now).kind }
    {
        match self.reply(Question::Kind) {
            Reply::Kind(kind) => kind,
            _ => OperandKind::Other,
        }
    }

    /// Whether a blank is due between an operator and it.
    #[inline(always)]
    #[tactic(auto, unfolding(crate::specs::Answers::reply_of))]
    final fn space_before(&self, op: BinaryOp) -> bool
        ensures { result ≡ (Self.answers self.now).space op }
    {
        matches!(self.reply(Question::Space(op)), Reply::Truth(true))
    }

    /// What it begins with, where it is a pattern.
    #[inline(always)]
    #[tactic(auto, unfolding(crate::specs::Answers::reply_of))]
    final fn pattern(&self) -> PatternKind
        ensures { result ≡ (Self.answers self.now).pattern }
    {
        match self.reply(Question::Pattern) {
            Reply::Pattern(kind) => kind,
            _ => PatternKind::Other,
        }
    }

    /// Whether it is a block, where it is a statement.
    #[inline(always)]
    #[tactic(auto, unfolding(crate::specs::Answers::reply_of))]
    final fn block(&self) -> bool
        ensures { result ≡ (Self.answers self.now).block }
    {
        matches!(self.reply(Question::Block), Reply::Truth(true))
    }
}

/// What can be printed, in the context that the one above puts it in.
pub trait EmitAt {
    ghost items: { Self → At → Part };

    /// Prints the whole of it, in this context, unless a call was refused before. Why one is, the
    /// emitter keeps.
    fn emit_at<W: WriteJs, S: SourceMapper, C: Comments>(
        &self,
        e: &mut Emitter<'_, W, S, C>,
        context: Context,
    )
        ensures items { Performs (items self.now (Whole context))
            S.lines C.maps W.sheet e.old e.new };
}

/// What can be printed in pieces too: a function, a class, a declaration, and what a link holds. A
/// piece that another has is the whole here.
pub trait EmitPiece: EmitAt {
    /// Prints this piece of it alone, unless a call was refused before. Why one is, the emitter
    /// keeps.
    fn emit_piece<W: WriteJs, S: SourceMapper, C: Comments>(
        &self,
        e: &mut Emitter<'_, W, S, C>,
        piece: Piece,
    )
        ensures items { Performs (Self.items self.now (Only piece))
            S.lines C.maps W.sheet e.old e.new };
}

/// What a list has to know of a child, besides how it is printed.
pub trait Child: EmitAt {
    ghost stands: { Self → Stretch };

    /// Where it stands.
    fn place(&self) -> Span
        ensures { result ≡ stands self.now };
}

impl<T: Child> Child for Option<T> {
    ghost stands = { option_span T.stands };

    #[tactic(auto, unfolding(swc_ecma_codegen_spans::specs::Spans::option_span))]
    fn place(&self) -> Span {
        match self {
            Some(child) => child.place(),
            None => DUMMY_SP,
        }
    }
}

impl<K, N: LinkTarget> Child for Link<K, N> {
    ghost stands = { λ n. (N.answers n.node.value).place };

    fn place(&self) -> Span {
        self.target().place()
    }
}

/// All that a link may hold.
pub trait LinkTarget: EmitPiece + Asked {}
