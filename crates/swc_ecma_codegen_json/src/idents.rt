//! Names.

use crate::reading::{Make, ReadFrom, Whole, members};
use crate::source::{Failed, Source};
use crate::{made, names, values};
use serde::Name;
use swc_ecma_codegen_common::Span;
use swc_ecma_codegen_tree::{BindingIdent, Ident, IdentName, Invalid, PrivateName};

impl<N: Drop> ReadFrom<N> for Ident {
    type Parts = Whole;

    fn of<S: Source, M: Make<N>>(_whole: Whole, source: &mut S, make: &M) -> Result<Ident, Failed> {
        let values!(span, sym, optional) = members(names!(span, sym, optional), source, make)?;
        Ok(Ident {
            span,
            sym,
            optional,
        })
    }
}

impl<N: Drop> ReadFrom<N> for IdentName {
    type Parts = Whole;

    fn of<S: Source, M: Make<N>>(
        _whole: Whole,
        source: &mut S,
        make: &M,
    ) -> Result<IdentName, Failed> {
        let values!(span, sym) = members(names!(span, sym), source, make)?;
        Ok(IdentName { span, sym })
    }
}

impl<N: Drop> ReadFrom<N> for PrivateName {
    type Parts = Whole;

    fn of<S: Source, M: Make<N>>(
        _whole: Whole,
        source: &mut S,
        make: &M,
    ) -> Result<PrivateName, Failed> {
        let values!(span, name) = members(names!(span, name), source, make)?;
        Ok(PrivateName { span, name })
    }
}

impl<N: Drop> ReadFrom<N> for BindingIdent<N> {
    type Parts = Whole;

    fn of<S: Source, M: Make<N>>(
        _whole: Whole,
        source: &mut S,
        make: &M,
    ) -> Result<BindingIdent<N>, Failed> {
        let values!(id, type_ann) = members(names!(id, type_ann), source, make)?;
        Ok(BindingIdent { id, type_ann })
    }
}

impl<N: Drop> ReadFrom<N> for Invalid {
    type Parts = (Span, ());

    fn names() -> &'static [Name<'static>] {
        names!(span)
    }

    fn of<S: Source, M: Make<N>>(
        values: Self::Parts,
        _source: &mut S,
        _make: &M,
    ) -> Result<Invalid, Failed> {
        made!(values => Invalid { span })
    }
}
