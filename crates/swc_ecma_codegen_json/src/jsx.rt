//! JSX.

use crate::reading::{Make, ReadFrom, Variant, Whole, members};
use crate::source::{Failed, Source};
use crate::{held, made, names, values};
use serde::Name;
use swc_ecma_codegen_common::Span;
use swc_ecma_codegen_tree::{
    ExprBox, IdentName, JSXAttr, JSXAttrName, JSXAttrOrSpread, JSXAttrValue, JSXClosingElement,
    JSXClosingFragment, JSXElement, JSXElementChild, JSXElementName, JSXEmptyExpr, JSXExpr,
    JSXExprContainer, JSXFragment, JSXMemberExpr, JSXNamespacedName, JSXObject, JSXObjectBox,
    JSXOpeningElement, JSXOpeningFragment, JSXSpreadChild,
};

impl<N: Drop> ReadFrom<N> for JSXElement<N> {
    type Parts = (
        Span,
        (
            JSXOpeningElement<N>,
            (Vec<JSXElementChild<N>>, (Option<JSXClosingElement<N>>, ())),
        ),
    );

    fn names() -> &'static [Name<'static>] {
        names!(span, opening, children, closing)
    }

    fn of<S: Source, M: Make<N>>(
        values: Self::Parts,
        _source: &mut S,
        _make: &M,
    ) -> Result<JSXElement<N>, Failed> {
        made!(values => JSXElement { span, opening, children, closing })
    }
}

impl<N: Drop> ReadFrom<N> for JSXOpeningElement<N> {
    type Parts = Whole;

    fn of<S: Source, M: Make<N>>(
        _whole: Whole,
        source: &mut S,
        make: &M,
    ) -> Result<JSXOpeningElement<N>, Failed> {
        let values!(span, name, attrs, self_closing, type_args) = members(
            names!(span, name, attrs, self_closing, type_args),
            source,
            make,
        )?;
        Ok(JSXOpeningElement {
            span,
            name,
            attrs,
            self_closing,
            type_args,
        })
    }
}

impl<N: Drop> ReadFrom<N> for JSXClosingElement<N> {
    type Parts = Whole;

    fn of<S: Source, M: Make<N>>(
        _whole: Whole,
        source: &mut S,
        make: &M,
    ) -> Result<JSXClosingElement<N>, Failed> {
        let values!(span, name) = members(names!(span, name), source, make)?;
        Ok(JSXClosingElement { span, name })
    }
}

impl<N: Drop> ReadFrom<N> for JSXFragment<N> {
    type Parts = (
        Span,
        (
            JSXOpeningFragment,
            (Vec<JSXElementChild<N>>, (JSXClosingFragment, ())),
        ),
    );

    fn names() -> &'static [Name<'static>] {
        names!(span, opening, children, closing)
    }

    fn of<S: Source, M: Make<N>>(
        values: Self::Parts,
        _source: &mut S,
        _make: &M,
    ) -> Result<JSXFragment<N>, Failed> {
        made!(values => JSXFragment { span, opening, children, closing })
    }
}

impl<N: Drop> ReadFrom<N> for JSXOpeningFragment {
    type Parts = Whole;

    fn of<S: Source, M: Make<N>>(
        _whole: Whole,
        source: &mut S,
        make: &M,
    ) -> Result<JSXOpeningFragment, Failed> {
        let values!(span) = members(names!(span), source, make)?;
        Ok(JSXOpeningFragment { span })
    }
}

impl<N: Drop> ReadFrom<N> for JSXClosingFragment {
    type Parts = Whole;

    fn of<S: Source, M: Make<N>>(
        _whole: Whole,
        source: &mut S,
        make: &M,
    ) -> Result<JSXClosingFragment, Failed> {
        let values!(span) = members(names!(span), source, make)?;
        Ok(JSXClosingFragment { span })
    }
}

impl<N: Drop> ReadFrom<N> for JSXElementName<N> {
    type Parts = Variant;

    fn names() -> &'static [Name<'static>] {
        names!(Ident, JSXMemberExpr, JSXNamespacedName)
    }

    fn of<S: Source, M: Make<N>>(
        variant: Variant,
        source: &mut S,
        make: &M,
    ) -> Result<JSXElementName<N>, Failed> {
        held!(variant, source, make => JSXElementName {
            Ident, JSXMemberExpr, JSXNamespacedName,
        })
    }
}

impl<N: Drop> ReadFrom<N> for JSXMemberExpr<N> {
    type Parts = (JSXObjectBox<N>, (IdentName, ()));

    fn names() -> &'static [Name<'static>] {
        names!(obj, prop)
    }

    fn of<S: Source, M: Make<N>>(
        values: Self::Parts,
        _source: &mut S,
        _make: &M,
    ) -> Result<JSXMemberExpr<N>, Failed> {
        made!(values => JSXMemberExpr { obj, prop })
    }
}

impl<N: Drop> ReadFrom<N> for JSXObject<N> {
    type Parts = Variant;

    fn names() -> &'static [Name<'static>] {
        names!(JSXMemberExpr, Ident)
    }

    fn of<S: Source, M: Make<N>>(
        variant: Variant,
        source: &mut S,
        make: &M,
    ) -> Result<JSXObject<N>, Failed> {
        held!(variant, source, make => JSXObject { JSXMemberExpr, Ident })
    }
}

impl<N: Drop> ReadFrom<N> for JSXNamespacedName {
    type Parts = (IdentName, (IdentName, ()));

    fn names() -> &'static [Name<'static>] {
        names!(ns, name)
    }

    fn of<S: Source, M: Make<N>>(
        values: Self::Parts,
        _source: &mut S,
        _make: &M,
    ) -> Result<JSXNamespacedName, Failed> {
        made!(values => JSXNamespacedName { ns, name })
    }
}

impl<N: Drop> ReadFrom<N> for JSXAttrOrSpread<N> {
    type Parts = Variant;

    fn names() -> &'static [Name<'static>] {
        names!(JSXAttr, SpreadElement)
    }

    fn of<S: Source, M: Make<N>>(
        variant: Variant,
        source: &mut S,
        make: &M,
    ) -> Result<JSXAttrOrSpread<N>, Failed> {
        held!(variant, source, make => JSXAttrOrSpread { JSXAttr, SpreadElement })
    }
}

impl<N: Drop> ReadFrom<N> for JSXAttr<N> {
    type Parts = (Span, (JSXAttrName, (Option<JSXAttrValue<N>>, ())));

    fn names() -> &'static [Name<'static>] {
        names!(span, name, value)
    }

    fn of<S: Source, M: Make<N>>(
        values: Self::Parts,
        _source: &mut S,
        _make: &M,
    ) -> Result<JSXAttr<N>, Failed> {
        made!(values => JSXAttr { span, name, value })
    }
}

impl<N: Drop> ReadFrom<N> for JSXAttrName {
    type Parts = Variant;

    fn names() -> &'static [Name<'static>] {
        names!(Ident, JSXNamespacedName)
    }

    fn of<S: Source, M: Make<N>>(
        variant: Variant,
        source: &mut S,
        make: &M,
    ) -> Result<JSXAttrName, Failed> {
        held!(variant, source, make => JSXAttrName { Ident, JSXNamespacedName })
    }
}

impl<N: Drop> ReadFrom<N> for JSXAttrValue<N> {
    type Parts = Variant;

    fn names() -> &'static [Name<'static>] {
        names!(Lit, JSXExprContainer, JSXElement, JSXFragment)
    }

    fn of<S: Source, M: Make<N>>(
        variant: Variant,
        source: &mut S,
        make: &M,
    ) -> Result<JSXAttrValue<N>, Failed> {
        held!(variant, source, make => JSXAttrValue {
            Lit, JSXExprContainer, JSXElement, JSXFragment,
        })
    }
}

impl<N: Drop> ReadFrom<N> for JSXElementChild<N> {
    type Parts = Variant;

    fn names() -> &'static [Name<'static>] {
        names!(
            JSXText,
            JSXExprContainer,
            JSXSpreadChild,
            JSXElement,
            JSXFragment
        )
    }

    fn of<S: Source, M: Make<N>>(
        variant: Variant,
        source: &mut S,
        make: &M,
    ) -> Result<JSXElementChild<N>, Failed> {
        held!(variant, source, make => JSXElementChild {
            JSXText, JSXExprContainer, JSXSpreadChild, JSXElement, JSXFragment,
        })
    }
}

impl<N: Drop> ReadFrom<N> for JSXExprContainer<N> {
    type Parts = (Span, (JSXExpr<N>, ()));

    fn names() -> &'static [Name<'static>] {
        names!(span, expr)
    }

    fn of<S: Source, M: Make<N>>(
        values: Self::Parts,
        _source: &mut S,
        _make: &M,
    ) -> Result<JSXExprContainer<N>, Failed> {
        made!(values => JSXExprContainer { span, expr })
    }
}

impl<N: Drop> ReadFrom<N> for JSXExpr<N> {
    type Parts = Variant;

    fn names() -> &'static [Name<'static>] {
        names!(JSXEmptyExpr, Expr)
    }

    fn of<S: Source, M: Make<N>>(
        variant: Variant,
        source: &mut S,
        make: &M,
    ) -> Result<JSXExpr<N>, Failed> {
        held!(variant, source, make => JSXExpr { JSXEmptyExpr, Expr })
    }
}

impl<N: Drop> ReadFrom<N> for JSXEmptyExpr {
    type Parts = (Span, ());

    fn names() -> &'static [Name<'static>] {
        names!(span)
    }

    fn of<S: Source, M: Make<N>>(
        values: Self::Parts,
        _source: &mut S,
        _make: &M,
    ) -> Result<JSXEmptyExpr, Failed> {
        made!(values => JSXEmptyExpr { span })
    }
}

impl<N: Drop> ReadFrom<N> for JSXSpreadChild<N> {
    type Parts = (Span, (ExprBox<N>, ()));

    fn names() -> &'static [Name<'static>] {
        names!(span, expr)
    }

    fn of<S: Source, M: Make<N>>(
        values: Self::Parts,
        _source: &mut S,
        _make: &M,
    ) -> Result<JSXSpreadChild<N>, Failed> {
        made!(values => JSXSpreadChild { span, expr })
    }
}
