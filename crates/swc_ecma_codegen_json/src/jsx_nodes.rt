//! Nodes of the sorts of JSX, as links hold them. A function each, since a check of one that names
//! the readers of many sorts is dear.

use crate::part;
use crate::reading::{JSXPartSort, Make};
use crate::source::{Failed, Source};
use swc_ecma_codegen_tree::{JSXElement, JSXFragment, JSXObject, JSXPart};

fn jsx_element<N: Drop, S: Source, M: Make<N>>(
    source: &mut S,
    make: &M,
) -> Result<JSXPart<N>, Failed> {
    part!(JSXElement, source, make)
}

fn jsx_fragment<N: Drop, S: Source, M: Make<N>>(
    source: &mut S,
    make: &M,
) -> Result<JSXPart<N>, Failed> {
    part!(JSXFragment, source, make)
}

fn jsx_object<N: Drop, S: Source, M: Make<N>>(
    source: &mut S,
    make: &M,
) -> Result<JSXPart<N>, Failed> {
    part!(JSXObject, source, make)
}

/// A part of JSX by its sort, and all that lies below it.
pub fn read_jsx_part<N: Drop, S: Source, M: Make<N>>(
    sort: JSXPartSort,
    source: &mut S,
    make: &M,
) -> Result<JSXPart<N>, Failed> {
    match sort {
        JSXPartSort::JSXElement => jsx_element(source, make),
        JSXPartSort::JSXFragment => jsx_fragment(source, make),
        JSXPartSort::JSXObject => jsx_object(source, make),
    }
}
