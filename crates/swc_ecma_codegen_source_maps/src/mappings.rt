//! Mappings, and the text that says them (`Mapping`, `encode_mappings`).

ghost use Rattle.std.specs.Prelude.{◌≡◌, ◌≤◌, ◌<◌, ◌+◌, ◌&&◌, nat_le, true, false, ◌∷◌, ◌++◌, [], List, length, drop, Some, IfSome, IfOk, OnOk};
ghost use Rattle.std.specs.List.{list_all};
ghost use Rattle.std.specs.String.{string_bytes};
ghost use Rattle.swc_ecma_codegen_source_maps.specs.Encodable as encodable;
ghost use Rattle.swc_ecma_codegen_source_maps.specs.Encodable.{fields, is_small, original_fields};
ghost use Rattle.swc_ecma_codegen_source_maps.specs.Mappings.{decoded};
ghost use Rattle.swc_ecma_codegen_source_maps.specs.Pieces.{comma, distance, fields_before, AreSmall, Grows, IsMappingSmall, IsOriginalSmall, Leads, SaysFields, SaysMapping, SaysNumber};

use crate::numbers::{distance, push_number};
use std::alloc::{AllocError, Global};
use swc_ecma_codegen_common::LineCol;

/// Where something stands in a text, and where it came from. Lines and columns are counted from 0,
/// columns in UTF-16 units.
#[derive(Debug, Clone, Copy, PartialEq, Eq)]
pub struct Mapping {
    pub generated: LineCol,
    /// None: it came from no source.
    pub original: Option<Original>,
}

/// Where something came from.
#[derive(Debug, Clone, Copy, PartialEq, Eq)]
pub struct Original {
    /// The number of its source in the list `sources` of the map.
    pub source: u32,
    pub place: LineCol,
    /// The number of its name there in the list `names`, if it has one.
    pub name: Option<u32>,
}

/// What the next segment is counted from.
#[derive(Debug, Clone, Copy, PartialEq, Eq)]
struct Reached {
    line: u32,
    /// Whether a segment stands on this line.
    has_begun: bool,
    column: u32,
    source: u32,
    line_there: u32,
    column_there: u32,
    name: u32,
}

/// Whether each line is the last one's or a later one, and each number is below 2^31: then
/// `encode_mappings` writes them.
pub fn is_encodable(mappings: &[Mapping]) -> bool
    ensures { result ≡ encodable.is_encodable mappings.now }
{
    let mut line = 0;
    for mapping in mappings {
        let fits = fits_behind(line, mapping);
        if !fits {
            return false;
        }
        line = mapping.generated.line;
    }
    true
}

/// Whether a mapping may stand behind one of a line.
fn fits_behind(line: u32, mapping: &Mapping) -> bool
    ensures { result ≡ (nat_le line mapping.now.generated.line
        && list_all is_small (fields mapping.now)) }
{
    line <= mapping.generated.line && has_small_fields(mapping)
}

/// Whether each number of a mapping is below 2^31, its line in the text aside.
fn has_small_fields(mapping: &Mapping) -> bool
    ensures { result ≡ list_all is_small (fields mapping.now) }
{
    is_small(mapping.generated.col)
        && match mapping.original {
            Some(original) => {
                is_small(original.source)
                    && is_small(original.place.line)
                    && is_small(original.place.col)
                    && has_small_name(original.name)
            }
            None => true,
        }
}

fn has_small_name(name: Option<u32>) -> bool
    ensures { result ≡ list_all is_small (encodable.name_fields name) }
{
    match name {
        Some(name) => is_small(name),
        None => true,
    }
}

fn is_small(number: u32) -> bool
    ensures { result ≡ is_small number }
{
    number < 2147483648
}

/// The text of mappings: the field `mappings` of a source map, version 3. `AAAA,CACC;AACA` are
/// three. It decodes as exactly these.
pub fn encode_mappings(alloc: Global, mappings: &[Mapping]) -> Result<String, AllocError>
    requires { encodable.is_encodable mappings.now ≡ true }
    ensures { IfOk result (λ text. decoded (string_bytes text) ≡ Some mappings.now) }
{
    let mut text = String::new(alloc);
    let mut reached = Reached::start();
    for mapping in mappings {
        reached = push_mapping(&mut text, reached, mapping)?;
    }
    Ok(text)
}

/// Writes a mapping behind others: the ends of lines before it, a `,` if its line has begun, and
/// its segment.
fn push_mapping(
    text: &mut String,
    reached: Reached,
    mapping: &Mapping,
) -> Result<Reached, AllocError>
    requires order { reached.line ≤ mapping.now.generated.line }
    requires small { AreSmall reached }
    requires fields { list_all is_small (fields mapping.now) ≡ true }
    ensures says { IfOk result (λ next. Grows (SaysMapping reached mapping.now next)
        (string_bytes text.old) (string_bytes text.new)) }
    ensures line { IfOk result (λ next. next.line ≡ mapping.now.generated.line) }
    ensures small { IfOk result (λ next. AreSmall next) }
{
    let on_line = push_lines(text, reached, mapping.generated.line)?;
    push_comma(text, on_line.has_begun)?;
    push_segment(text, on_line, mapping)?;
    Ok(on_line.after(mapping))
}

/// Ends lines, up to one.
fn push_lines(text: &mut String, reached: Reached, line: u32) -> Result<Reached, AllocError>
    requires order { reached.line ≤ line }
    requires small { AreSmall reached }
    ensures leads { IfOk result (λ next. Grows (Leads reached next) (string_bytes text.old)
        (string_bytes text.new)) }
    ensures line { IfOk result (λ next. next.line ≡ line) }
    ensures small { IfOk result (λ next. AreSmall next) }
{
    let mut next = reached;
    while next.line < line {
        text.push(';')?;
        next = next.on_next_line();
    }
    Ok(next)
}

/// Writes a `,` behind a segment.
fn push_comma(text: &mut String, has_begun: bool) -> Result<(), AllocError>
    ensures { OnOk result (string_bytes text.new ≡ string_bytes text.old ++ comma has_begun) }
{
    if has_begun { text.push(',') } else { Ok(()) }
}

/// Writes the segment of a mapping.
fn push_segment(text: &mut String, reached: Reached, mapping: &Mapping) -> Result<(), AllocError>
    requires small { AreSmall reached }
    requires fields { IsMappingSmall mapping.now }
    ensures { OnOk result (Grows (SaysFields (fields_before reached) (fields mapping.now))
        (string_bytes text.old) (string_bytes text.new)) }
{
    push_field(text, reached.column, mapping.generated.col)?;
    match mapping.original {
        Some(original) => push_original(text, reached, original),
        None => Ok(()),
    }
}

/// Writes where something came from.
fn push_original(text: &mut String, reached: Reached, original: Original) -> Result<(), AllocError>
    requires small { AreSmall reached }
    requires fields { IsOriginalSmall original }
    ensures { OnOk result (Grows (SaysFields (drop 1 (fields_before reached))
        (original_fields (Some original))) (string_bytes text.old) (string_bytes text.new)) }
{
    push_field(text, reached.source, original.source)?;
    push_field(text, reached.line_there, original.place.line)?;
    push_field(text, reached.column_there, original.place.col)?;
    push_name(text, reached.name, original.name)
}

/// Writes the number of a name, if there is one.
fn push_name(text: &mut String, from: u32, name: Option<u32>) -> Result<(), AllocError>
    requires from { from < 2147483648 }
    requires name { IfSome name (λ to. to < 2147483648) }
    ensures { OnOk result (Grows (SaysFields (from ∷ []) (encodable.name_fields name))
        (string_bytes text.old) (string_bytes text.new)) }
{
    match name {
        Some(name) => push_field(text, from, name),
        None => Ok(()),
    }
}

/// Writes a field, by its distance from that before.
fn push_field(text: &mut String, from: u32, to: u32) -> Result<(), AllocError>
    requires from { from < 2147483648 }
    requires to { to < 2147483648 }
    ensures { OnOk result (Grows (SaysNumber (distance from to)) (string_bytes text.old)
        (string_bytes text.new)) }
{
    push_number(text, distance(from, to))
}

impl Reached {
    /// Where a text of mappings begins.
    fn start() -> Reached
        ensures line { result.line ≡ 0 }
        ensures begun { result.has_begun ≡ false }
        ensures fields { fields_before result ≡ 0 ∷ 0 ∷ 0 ∷ 0 ∷ 0 ∷ [] }
        ensures small { AreSmall result }
    {
        Reached {
            line: 0,
            has_begun: false,
            column: 0,
            source: 0,
            line_there: 0,
            column_there: 0,
            name: 0,
        }
    }

    /// At the begin of the next line.
    fn on_next_line(self) -> Reached
        requires { self.line < 4294967295 }
        ensures line { result.line ≡ self.line + 1 }
        ensures begun { result.has_begun ≡ false }
        ensures fields { fields_before result ≡ 0 ∷ drop 1 (fields_before self) }
        ensures small { AreSmall self → AreSmall result }
    {
        Reached {
            line: self.line + 1,
            has_begun: false,
            column: 0,
            ..self
        }
    }

    /// Behind the segment of a mapping.
    fn after(self, mapping: &Mapping) -> Reached
        requires { list_all is_small (fields mapping.now) ≡ true }
        ensures line { result.line ≡ self.line }
        ensures begun { result.has_begun ≡ true }
        ensures fields { fields_before result ≡ fields mapping.now
            ++ drop (length (fields mapping.now)) (fields_before self) }
        ensures small { AreSmall self → AreSmall result }
    {
        let on_line = Reached {
            has_begun: true,
            column: mapping.generated.col,
            ..self
        };
        match mapping.original {
            Some(original) => Reached {
                source: original.source,
                line_there: original.place.line,
                column_there: original.place.col,
                name: original.name.unwrap_or(self.name),
                ..on_line
            },
            None => on_line,
        }
    }
}
