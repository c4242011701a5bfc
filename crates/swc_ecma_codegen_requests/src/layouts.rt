//! How lines begin and end.

ghost use Rattle.std.specs.Prelude.{◌≡◌, ◌≤◌, take, IfSome};
ghost use Rattle.std.specs.Str.{IsAscii};
ghost use Rattle.swc_ecma_codegen_requests.specs.Layouts.{indent_text, new_line_text};

use serde::{Deserialize, DeserializeOwned, Deserializer, Format, Kind, Name};
use std::alloc::Global;

/// How lines begin and end.
#[derive(Debug, Clone, Copy, PartialEq, Eq)]
pub(crate) struct Layout {
    pub(crate) indent: Indent,
    pub(crate) new_line: NewLine,
}

/// What a level of indentation writes: so many blanks or tabs, ten at most.
#[derive(Debug, Clone, Copy, PartialEq, Eq)]
pub(crate) enum Indent {
    Blanks(usize),
    Tabs(usize),
}

/// Four blanks, as swc has them.
impl Default for Indent {
    fn default() -> Indent {
        Indent::Blanks(4)
    }
}

impl Indent {
    pub(crate) fn text(self) -> &'static str
        ensures { result.now ≡ indent_text self }
    {
        match self {
            Indent::Blanks(count) => first("          ", count),
            Indent::Tabs(count) => first("\t\t\t\t\t\t\t\t\t\t", count),
        }
    }

    /// The indentation that writes a text, if there is one.
    fn of_text(text: &str) -> Option<Indent>
        ensures { IfSome result (λ indent. indent_text indent ≡ text.now) }
    {
        let (blanks, tabs) = (Indent::Blanks(text.len()), Indent::Tabs(text.len()));
        if blanks.text() == text {
            return Some(blanks);
        }
        if tabs.text() == text {
            return Some(tabs);
        }
        None
    }

    /// The indentation of so many blanks, if there is one.
    fn of_count(count: u32) -> Option<Indent>
        ensures { IfSome result (λ indent. (count ≤ 10) × (indent ≡ Indent.Blanks count)) }
    {
        if count <= 10 {
            Some(Indent::Blanks(count as usize))
        } else {
            None
        }
    }
}

/// The first characters of an ASCII text; all, where it has fewer.
fn first(text: &'static str, count: usize) -> &'static str
    requires { IsAscii text.now }
    ensures { result.now ≡ take count text.now }
{
    match text.split_at_checked(count) {
        Some((front, _)) => front,
        None => text,
    }
}

/// From a number of blanks, or the text itself.
impl DeserializeOwned for Indent {
    fn deserialize_owned<F: Format>(
        alloc: Global,
        from: &mut Deserializer<'_, '_, F>,
    ) -> Result<Indent, F::Error> {
        let indent = if from.peek()? == Kind::Str {
            Indent::of_text(&String::deserialize_owned(alloc, from)?)
        } else {
            Indent::of_count(u32::deserialize_owned(alloc, from)?)
        };
        match indent {
            Some(indent) => Ok(indent),
            None => Err(from.invalid()),
        }
    }
}

impl<'de> Deserialize<'de> for Indent {
    fn deserialize<F: Format>(
        alloc: Global,
        from: &mut Deserializer<'de, '_, F>,
    ) -> Result<Indent, F::Error> {
        Indent::deserialize_owned(alloc, from)
    }
}

/// What ends a line.
#[derive(Debug, Clone, Copy, Default, PartialEq, Eq)]
pub(crate) enum NewLine {
    #[default]
    Lf,
    CrLf,
}

impl NewLine {
    pub(crate) fn text(self) -> &'static str
        ensures { result.now ≡ new_line_text self }
    {
        match self {
            NewLine::Lf => "\n",
            NewLine::CrLf => "\r\n",
        }
    }
}

/// From the text itself.
impl DeserializeOwned for NewLine {
    fn deserialize_owned<F: Format>(
        _alloc: Global,
        from: &mut Deserializer<'_, '_, F>,
    ) -> Result<NewLine, F::Error> {
        match from.variant(&[Name::exact("\n"), Name::exact("\r\n")])? {
            0 => Ok(NewLine::Lf),
            1 => Ok(NewLine::CrLf),
            _ => Err(from.invalid()),
        }
    }
}

impl<'de> Deserialize<'de> for NewLine {
    fn deserialize<F: Format>(
        alloc: Global,
        from: &mut Deserializer<'de, '_, F>,
    ) -> Result<NewLine, F::Error> {
        NewLine::deserialize_owned(alloc, from)
    }
}
