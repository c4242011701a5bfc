//! A source text at each of its positions.

use crate::SourceText;
use std::alloc::Global;
use swc_ecma_codegen_common::{BytePos, Error, Span};
use swc_ecma_codegen_grammar::mapper::SourceMapper;

/// Lines that end with LF, CR, CR LF, U+2028, U+2029, and one that ends with the text.
const TEXT: &str = "a\nb\rc\r\nd\u{2028}e\u{2029}f";

/// The line of each position from 10 on, where the text begins. That between CR and LF is on the
/// line that they end.
const LINES: [u32; 17] = [1, 1, 2, 2, 3, 3, 3, 4, 4, 4, 4, 5, 5, 5, 5, 6, 6];

fn snippet(
    alloc: Global,
    source: &SourceText<'_>,
    lo: u32,
    hi: u32,
) -> Result<Option<String>, Error> {
    let lo = BytePos(lo);
    let hi = BytePos(hi);
    source.span_to_snippet(alloc, Span { lo, hi })
}

#[test]
fn positions_are_on_the_lines_of_ecma_262(rt: HostRuntime) -> Result<(), Error> {
    let source = SourceText::new(rt.alloc(), TEXT, BytePos(10))?;
    for (left, line) in LINES.iter().enumerate() {
        for (right, other) in LINES.iter().enumerate() {
            let lo = BytePos(left as u32 + 10);
            let hi = BytePos(right as u32 + 10);
            assert!(rt; source.is_on_same_line(lo, hi) == (line == other));
        }
        // neither before the text nor behind its end
        let lo = BytePos(left as u32 + 10);
        assert!(rt; !source.is_on_same_line(BytePos(9), lo));
        assert!(rt; !source.is_on_same_line(lo, BytePos(27)));
    }
    Ok(())
}

#[test]
fn snippets_are_between_characters_of_the_text(rt: HostRuntime) -> Result<(), Error> {
    let alloc = rt.alloc();
    let source = SourceText::new(alloc, TEXT, BytePos(10))?;
    for (lo, hi, text) in [
        (10, 26, Some(TEXT)),
        (14, 17, Some("c\r\n")),
        (17, 21, Some("d\u{2028}")),
        (25, 26, Some("f")),
        (26, 26, Some("")),
        (18, 19, None),
        (19, 21, None),
        (21, 17, None),
        (25, 27, None),
        (9, 11, None),
    ] {
        let found = snippet(alloc, &source, lo, hi)?;
        match (&found, text) {
            (Some(found), Some(text)) => assert!(rt; found.as_str() == text),
            (None, None) => {}
            _ => assert!(rt; false),
        }
    }
    Ok(())
}
