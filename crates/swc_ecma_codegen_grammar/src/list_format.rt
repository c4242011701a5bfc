//! How a list of nodes is laid out: what stands before, between and after its children.

ghost use Rattle.std.specs.Prelude.{⊤, ◌≡◌};
ghost use Rattle.swc_ecma_codegen_grammar.specs.ListFormats.{flag_table, apart, leading_line, separating_line, closing_line};

use crate::mapper::SourceMapper;
use bitflags::{Flag, Flags};
use swc_ecma_codegen_common::{BytePos, Span};

/// A set of flags. Sets are joined by the calls of `bitflags::Flags`, as `a.union(b)`. `ListFormat`
/// of `swc_ecma_ast`.
#[derive(Debug, Clone, Copy, PartialEq, Eq)]
pub struct ListFormat(u16);

/// The flags.
impl ListFormat {
    /// Each child stands on a line of its own.
    pub const MultiLine: ListFormat = ListFormat(1);

    /// A line ends beside a child where one does in the source text.
    pub const PreserveLines: ListFormat = ListFormat(1 << 1);

    /// A blank and `|` stand between two children.
    pub const BarDelimited: ListFormat = ListFormat(1 << 2);

    /// A blank and `&` stand between two children.
    pub const AmpersandDelimited: ListFormat = ListFormat(1 << 3);

    /// A `,` stands between two children.
    pub const CommaDelimited: ListFormat = ListFormat(1 << 4);

    /// A `,` stands after the last child where one does in the source text.
    pub const AllowTrailingComma: ListFormat = ListFormat(1 << 5);

    /// The children are indented.
    pub const Indented: ListFormat = ListFormat(1 << 6);

    /// A blank stands before the first child and after the last one, where no line ends.
    pub const SpaceBetweenBraces: ListFormat = ListFormat(1 << 7);

    /// A blank stands between two children, where no line ends.
    pub const SpaceBetweenSiblings: ListFormat = ListFormat(1 << 8);

    /// Nothing is written for a list that isn't there.
    pub const OptionalIfUndefined: ListFormat = ListFormat(1 << 9);

    /// Nothing is written for an empty list.
    pub const OptionalIfEmpty: ListFormat = ListFormat(1 << 10);

    /// No line ends after the last child.
    pub const NoTrailingNewLine: ListFormat = ListFormat(1 << 11);

    /// No comments are written right after a child.
    pub const NoInterveningComments: ListFormat = ListFormat(1 << 12);

    /// No blank stands in an empty list.
    pub const NoSpaceIfEmpty: ListFormat = ListFormat(1 << 13);

    /// A `,` stands after the last child.
    pub const ForceTrailingComma: ListFormat = ListFormat(1 << 14);

    /// No `,` stands after the last child in a minified text.
    pub const CanSkipTrailingComma: ListFormat = ListFormat(1 << 15);

    /// No flag.
    pub const None: ListFormat = ListFormat(0);

    /// No flag: the children stand on one line.
    pub const SingleLine: ListFormat = ListFormat(0);

    /// The flags that say where lines end.
    pub const LinesMask: ListFormat = ListFormat(Self::MultiLine.0 | Self::PreserveLines.0);

    /// The flags that say what stands between two children.
    pub const DelimitersMask: ListFormat = ListFormat(
        Self::BarDelimited.0 | Self::AmpersandDelimited.0 | Self::CommaDelimited.0,
    );

    const FLAGS: &'static [Flag<ListFormat>] = &[
        Flag {
            name: "MultiLine",
            value: Self::MultiLine,
        },
        Flag {
            name: "PreserveLines",
            value: Self::PreserveLines,
        },
        Flag {
            name: "BarDelimited",
            value: Self::BarDelimited,
        },
        Flag {
            name: "AmpersandDelimited",
            value: Self::AmpersandDelimited,
        },
        Flag {
            name: "CommaDelimited",
            value: Self::CommaDelimited,
        },
        Flag {
            name: "AllowTrailingComma",
            value: Self::AllowTrailingComma,
        },
        Flag {
            name: "Indented",
            value: Self::Indented,
        },
        Flag {
            name: "SpaceBetweenBraces",
            value: Self::SpaceBetweenBraces,
        },
        Flag {
            name: "SpaceBetweenSiblings",
            value: Self::SpaceBetweenSiblings,
        },
        Flag {
            name: "OptionalIfUndefined",
            value: Self::OptionalIfUndefined,
        },
        Flag {
            name: "OptionalIfEmpty",
            value: Self::OptionalIfEmpty,
        },
        Flag {
            name: "NoTrailingNewLine",
            value: Self::NoTrailingNewLine,
        },
        Flag {
            name: "NoInterveningComments",
            value: Self::NoInterveningComments,
        },
        Flag {
            name: "NoSpaceIfEmpty",
            value: Self::NoSpaceIfEmpty,
        },
        Flag {
            name: "ForceTrailingComma",
            value: Self::ForceTrailingComma,
        },
        Flag {
            name: "CanSkipTrailingComma",
            value: Self::CanSkipTrailingComma,
        },
    ];
}

/// The formats of the lists of the tree.
impl ListFormat {
    const COMMA_LIST: ListFormat = ListFormat(
        Self::CommaDelimited.0 | Self::SpaceBetweenSiblings.0,
    );

    /// The declarators of `var a, b`.
    pub const VariableDeclarationList: ListFormat = Self::COMMA_LIST;

    /// The arguments of `f(a, b)`.
    pub const CallExpressionArguments: ListFormat = Self::COMMA_LIST;

    /// The parameters of a function, a method or an arrow.
    pub const CommaListElements: ListFormat = Self::COMMA_LIST;

    /// The parameters of a constructor or a signature.
    pub const Parameters: ListFormat = Self::COMMA_LIST;

    /// The types after `implements`.
    pub const ClassHeritageClauses: ListFormat = Self::COMMA_LIST;

    /// The types after the `extends` of an interface.
    pub const HeritageClauseTypes: ListFormat = Self::COMMA_LIST;

    /// The types of `[a, b]`.
    pub const TupleTypeElements: ListFormat = Self::COMMA_LIST;

    /// The types of `f<a, b>`.
    pub const TypeArguments: ListFormat = Self::COMMA_LIST;

    /// The parameters of `type T<a, b>`.
    pub const TypeParameters: ListFormat = Self::COMMA_LIST;

    /// The arguments of `new A(a, b)`.
    pub const NewExpressionArguments: ListFormat = ListFormat(
        Self::COMMA_LIST.0 | Self::OptionalIfUndefined.0,
    );

    /// The names of `import { a, b }`.
    pub const NamedImportsOrExportsElements: ListFormat = ListFormat(
        Self::COMMA_LIST.0 | Self::AllowTrailingComma.0 | Self::SpaceBetweenBraces.0,
    );

    /// The elements of `[a, b]`.
    pub const ArrayLiteralExpressionElements: ListFormat = ListFormat(
        Self::COMMA_LIST.0 | Self::PreserveLines.0 | Self::Indented.0,
    );

    /// The properties of an object.
    pub const ObjectLiteralExpressionProperties: ListFormat = ListFormat(
        Self::COMMA_LIST.0
            | Self::MultiLine.0
            | Self::Indented.0
            | Self::SpaceBetweenBraces.0
            | Self::NoSpaceIfEmpty.0,
    );

    /// The elements of the pattern `[a, b]`.
    pub const ArrayBindingPatternElements: ListFormat = ListFormat(
        Self::COMMA_LIST.0 | Self::AllowTrailingComma.0,
    );

    /// The properties of the pattern `{ a, b }`.
    pub const ObjectBindingPatternElements: ListFormat = ListFormat(
        Self::COMMA_LIST.0
            | Self::AllowTrailingComma.0
            | Self::SpaceBetweenBraces.0
            | Self::NoSpaceIfEmpty.0,
    );

    /// The members of a class.
    pub const ClassMembers: ListFormat = ListFormat(Self::MultiLine.0 | Self::Indented.0);

    /// The members of an interface.
    pub const InterfaceMembers: ListFormat = ListFormat(Self::MultiLine.0 | Self::Indented.0);

    /// The statements of a block.
    pub const MultiLineBlockStatements: ListFormat = ListFormat(
        Self::MultiLine.0 | Self::Indented.0,
    );

    /// The cases of a `switch`.
    pub const CaseBlockClauses: ListFormat = ListFormat(Self::MultiLine.0 | Self::Indented.0);

    /// The statements of a case.
    pub const CaseOrDefaultClauseStatements: ListFormat = ListFormat(
        Self::MultiLine.0 | Self::Indented.0 | Self::NoTrailingNewLine.0 | Self::OptionalIfEmpty.0,
    );

    /// The members of an object type.
    pub const MultiLineTypeLiteralMembers: ListFormat = ListFormat(
        Self::MultiLine.0 | Self::Indented.0 | Self::OptionalIfEmpty.0,
    );

    /// The statements of a program.
    pub const SourceFileStatements: ListFormat = ListFormat(
        Self::MultiLine.0 | Self::NoTrailingNewLine.0,
    );

    /// The decorators before a class, a member or a parameter.
    pub const Decorators: ListFormat = ListFormat(Self::MultiLine.0 | Self::OptionalIfEmpty.0);

    /// The members of an `enum`.
    pub const EnumMembers: ListFormat = ListFormat(
        Self::CommaDelimited.0 | Self::MultiLine.0 | Self::Indented.0,
    );

    /// What stands between two JSX tags.
    pub const JsxElementOrFragmentChildren: ListFormat = Self::NoInterveningComments;

    /// The attributes of a JSX tag.
    pub const JsxElementAttributes: ListFormat = ListFormat(
        Self::SpaceBetweenSiblings.0 | Self::NoInterveningComments.0,
    );

    /// The types of `a | b`.
    pub const UnionTypeConstituents: ListFormat = ListFormat(
        Self::BarDelimited.0 | Self::SpaceBetweenSiblings.0,
    );

    /// The types of `a & b`.
    pub const IntersectionTypeConstituents: ListFormat = ListFormat(
        Self::AmpersandDelimited.0 | Self::SpaceBetweenSiblings.0,
    );
}

impl Flags for ListFormat {
    type Bits = u16;

    ghost exact = { ⊤ };

    ghost table = { flag_table };

    ghost set_of = { λ format. format.0 };

    fn flags<'a>() -> &'a [Flag<ListFormat>] {
        ListFormat::FLAGS
    }

    fn bits(&self) -> u16 {
        self.0
    }

    fn from_bits_retain(bits: u16) -> ListFormat {
        ListFormat(bits)
    }
}

/// Where lines end. They are asked of lists that have children.
impl ListFormat {
    /// Whether a line ends before the first child. `should_write_leading_line_terminator` of swc.
    pub fn leading_line<S: SourceMapper>(self, cm: &S, parent: Span, first: Span) -> bool
        ensures { result ≡ leading_line (S.lines cm.now) self.0 parent first }
    {
        self.contains(Self::MultiLine)
            || self.contains(Self::PreserveLines) && are_apart(cm, parent.lo, first.lo)
    }

    /// Whether a line ends between two children. `should_write_separating_line_terminator` of swc.
    pub fn separating_line<S: SourceMapper>(self, cm: &S, previous: Span, next: Span) -> bool
        ensures { result ≡ separating_line (S.lines cm.now) self.0 previous next }
    {
        self.contains(Self::MultiLine)
            || self.contains(Self::PreserveLines) && are_apart(cm, previous.hi, next.lo)
    }

    /// Whether a line ends after the last child. `should_write_closing_line_terminator` of swc.
    pub fn closing_line<S: SourceMapper>(self, cm: &S, parent: Span, last: Span) -> bool
        ensures { result ≡ closing_line (S.lines cm.now) self.0 parent last }
    {
        if self.contains(Self::MultiLine) {
            !self.contains(Self::NoTrailingNewLine)
        } else {
            self.contains(Self::PreserveLines) && are_apart(cm, last.hi, parent.hi)
        }
    }
}

/// Whether two positions are known to stand on different lines of the source text.
fn are_apart<S: SourceMapper>(cm: &S, left: BytePos, right: BytePos) -> bool
    ensures { result ≡ apart (S.lines cm.now) left right }
{
    !left.is_dummy() && !right.is_dummy() && !cm.is_on_same_line(left, right)
}
