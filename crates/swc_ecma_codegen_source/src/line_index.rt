//! The line ends of a text, and which of them stand between two places.

ghost use Rattle.std.specs.Prelude.{◌≡◌, IfOk, IfErr};
ghost use Rattle.std.specs.List.{list_any};
ghost use Rattle.std.specs.List.Sorted.{IsNonDecreasing};
ghost use Rattle.std.specs.Str.{chars};
ghost use Rattle.swc_ecma_codegen_common.specs.declared.errors.Error.TheVariants.{OutOfMemory};
ghost use Rattle.swc_ecma_codegen_source.specs.SourceTexts as texts;

use std::alloc::Global;
use swc_ecma_codegen_common::Error;
use swc_ecma_codegen_grammar::characters::is_line_end;
use swc_ecma_codegen_grammar::texts::split_first;

/// Whether a text begins with LF.
#[tactic(auto, unfolding(crate::specs::SourceTexts::begins_line_feed))]
fn begins_line_feed(text: &str) -> bool
    ensures { result ≡ texts.begins_line_feed (chars text.now) }
{
    match split_first(text) {
        Some((c, _)) => c == '\n',
        None => false,
    }
}

/// Whether a character is the last one of a line end, with `rest` behind it: of CR LF only LF is.
#[tactic(auto, unfolding(crate::specs::SourceTexts::ends_line))]
fn ends_line(c: char, rest: &str) -> bool
    ensures { result ≡ texts.ends_line c (chars rest.now) }
{
    is_line_end(c) && !(c == '\r' && begins_line_feed(rest))
}

/// The places right behind the line ends of a text, in bytes from its start.
pub(crate) fn line_ends(alloc: Global, text: &str) -> Result<Vec<usize>, Error>
    ensures exactly { IfOk result (λ ends. ends.items ≡ texts.line_ends 0 (chars text.now)) }
    ensures no_memory { IfErr result (λ error. error ≡ OutOfMemory) }
{
    let mut ends = Vec::new(alloc);
    let mut rest = text;
    while let Some((c, more)) = split_first(rest) {
        if ends_line(c, more) {
            ends.push(text.len() - more.len())?;
        }
        rest = more;
    }
    Ok(ends)
}

/// Whether one of these line ends, which stand in order, is between two places.
#[tactic(auto, unfolding(crate::specs::SourceTexts::is_between))]
pub(crate) fn has_between(ends: &[usize], left: usize, right: usize) -> bool
    requires { IsNonDecreasing ends.now }
    ensures { result ≡ list_any (texts.is_between left right) ends.now }
{
    let low = left.min(right);
    let high = left.max(right);
    let next = ends.partition_point(|end| *end <= low);
    match ends.get(next) {
        Some(end) => *end <= high,
        None => false,
    }
}
