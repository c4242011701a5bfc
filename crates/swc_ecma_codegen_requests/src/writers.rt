//! Writers of tokens, by the lines that they make.

ghost use Rattle.std.specs.Prelude.{◌≡◌};
ghost use Rattle.swc_ecma_codegen_text_writer.specs.View.{sheet_of};
ghost use Rattle.swc_ecma_codegen_requests.specs.Sheets.{sheet_by};

use crate::layouts::Layout;
use std::alloc::Global;
use swc_ecma_codegen_text_writer::PositionsWriter;

/// A writer that has written nothing, whose lines begin and end so.
pub(crate) fn new_writer<S>(
    alloc: Global,
    layout: Layout,
    source: &S,
) -> PositionsWriter<'static, Vec<u8>>
    ensures { sheet_of result ≡ sheet_by layout }
{
    let new_line = layout.new_line.text();
    let mut writer = PositionsWriter::keeping_positions(alloc, source, new_line, Vec::new(alloc));
    writer.set_indent_str(layout.indent.text());
    writer
}
