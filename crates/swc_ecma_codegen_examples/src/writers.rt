//! Calls of writers, and of what writes tokens, that ask for a level of indentation or for a text
//! of some form.

use bitflags::Flags;
use swc_ecma_codegen_common::{Answer, Result};
use swc_ecma_codegen_grammar::ListFormat;
use swc_ecma_codegen_settings::config::Config;
use swc_ecma_codegen_text_writer::WriteJs;
use swc_ecma_codegen_tokens::LowerEmitter;

/// A level of indentation more, and one less.
#[tactic(auto, unfolding(swc_ecma_codegen_text_writer::specs::Sheet::Writes, swc_ecma_codegen_text_writer::specs::Sheet::effect))]
pub fn there_and_back<W: WriteJs>(wr: &mut W) -> Result {
    wr.increase_indent()?;
    wr.decrease_indent()
}

/// Whether `a` is written, where no semicolon is held back.
#[tactic(auto, unfolding(swc_ecma_codegen_text_writer::specs::Reach::is_one_column))]
pub fn writes_where_settled<W: WriteJs>(wr: &mut W) -> bool {
    wr.is_settled() && wr.writes_in_line("a")
}

/// `var in`, and a level of indentation more and less.
pub fn write_tokens<W: WriteJs>(e: &mut LowerEmitter, cfg: &Config, wr: &mut W) -> Answer {
    e.keyword(cfg, wr, None, "var")?;
    e.word_operator(cfg, wr, "in")?;
    e.deeper(cfg, wr)?;
    e.shallower(cfg, wr)
}

/// What stands before and after the children of an indented list, whose first and last line end.
pub fn write_list<W: WriteJs>(e: &mut LowerEmitter, cfg: &Config, wr: &mut W) -> Answer {
    let format = ListFormat::MultiLine.union(ListFormat::Indented);
    e.list_opening(cfg, wr, format, true)?;
    e.list_closing(cfg, wr, format, true)
}
