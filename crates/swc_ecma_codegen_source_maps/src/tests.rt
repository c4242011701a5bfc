//! Texts of mappings, as other programs write them.

use crate::{Mapping, Original, encode_mappings, is_encodable};
use std::alloc::{AllocError, Global};
use swc_ecma_codegen_common::LineCol;

fn place(line: u32, col: u32) -> LineCol {
    LineCol { line, col }
}

/// A mapping of a place to one of a source, with the number of a name.
fn mapped(generated: LineCol, source: u32, place: LineCol, name: Option<u32>) -> Mapping {
    Mapping {
        generated,
        original: Some(Original {
            source,
            place,
            name,
        }),
    }
}

fn text_of(alloc: Global, mappings: &[Mapping]) -> Result<Option<String>, AllocError> {
    if is_encodable(mappings) {
        Ok(Some(encode_mappings(alloc, mappings)?))
    } else {
        Ok(None)
    }
}

fn is_text(text: &Option<String>, wanted: &str) -> bool {
    match text {
        Some(text) => text.as_str() == wanted,
        None => false,
    }
}

#[test]
fn no_mappings_are_no_text(rt: HostRuntime) -> Result<(), AllocError> {
    let mappings: [Mapping; 0] = [];
    assert!(rt; is_text(&text_of(rt.alloc(), &mappings)?, ""));
    Ok(())
}

/// Two sources, two names, an empty line, steps back, and a place that came from none. The text is
/// that of the library source-map.
#[test]
fn mappings_are_written_as_source_map_does(rt: HostRuntime) -> Result<(), AllocError> {
    let mappings = [
        mapped(place(0, 0), 0, place(0, 0), None),
        mapped(place(0, 4), 0, place(2, 0), Some(0)),
        mapped(place(0, 9), 0, place(2, 4), None),
        mapped(place(2, 0), 1, place(1000000, 5), None),
        mapped(place(2, 17), 0, place(3, 70000), Some(1)),
        Mapping {
            generated: place(3, 1),
            original: None,
        },
        mapped(place(3, 2), 0, place(0, 0), Some(0)),
        mapped(place(3, 15), 0, place(0, 16), Some(1)),
        mapped(place(3, 31), 1, place(15, 31), Some(0)),
    ];
    let text = text_of(rt.alloc(), &mappings)?;
    assert!(rt;
        is_text(
            &text,
            "AAAA,IAEAA,KAAI;;AC8jh9BC,iBD7jh9B22oEC;C,CAHh3oED,aAAgBC,gBCeeD"
        )
    );
    Ok(())
}

/// The largest numbers, and steps back from them, as source-map writes them; larger ones are
/// refused, and lines that fall.
#[test]
fn numbers_are_below_two_to_the_31(rt: HostRuntime) -> Result<(), AllocError> {
    let alloc = rt.alloc();
    let most = 2147483647;
    let mappings = [
        mapped(place(0, most), 0, place(most, 0), None),
        mapped(place(1, 0), 0, place(0, most), None),
        mapped(place(1, 1073741824), 0, place(1073741823, 1), Some(0)),
    ];
    let text = text_of(alloc, &mappings)?;
    assert!(rt;
        is_text(
            &text,
            "+/////DA+/////DA;AA//////D+/////D,ggggggCA+/////B9/////DA"
        )
    );
    let larger = [mapped(place(0, 0), 0, place(0, most + 1), None)];
    assert!(rt; text_of(alloc, &larger)?.is_none());
    let falling = [
        mapped(place(1, 0), 0, place(0, 0), None),
        mapped(place(0, 0), 0, place(0, 0), None),
    ];
    assert!(rt; text_of(alloc, &falling)?.is_none());
    Ok(())
}
