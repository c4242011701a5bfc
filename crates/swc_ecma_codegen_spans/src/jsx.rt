//! Where nodes of JSX stand.

ghost use Rattle.swc_ecma_codegen_spans.specs.Spans.{jsx_element_name_span, jsx_member_expr_span, jsx_object_span, jsx_namespaced_name_span, jsx_attr_or_spread_span, jsx_attr_name_span, jsx_attr_value_span, jsx_element_child_span, jsx_expr_span};

use crate::spanned::Spanned;
use swc_ecma_codegen_common::Span;
use swc_ecma_codegen_tree::{
    JSXAttr, JSXAttrName, JSXAttrOrSpread, JSXAttrValue, JSXClosingElement, JSXClosingFragment,
    JSXElement, JSXElementChild, JSXElementName, JSXEmptyExpr, JSXExpr, JSXExprContainer,
    JSXFragment, JSXMemberExpr, JSXNamespacedName, JSXObject, JSXOpeningElement,
    JSXOpeningFragment, JSXSpreadChild,
};

impl<N> Spanned for JSXElement<N> {
    ghost place = { λ n. n.span };

    fn span(&self) -> Span {
        self.span
    }
}

impl<N> Spanned for JSXOpeningElement<N> {
    ghost place = { λ n. n.span };

    fn span(&self) -> Span {
        self.span
    }
}

impl<N> Spanned for JSXClosingElement<N> {
    ghost place = { λ n. n.span };

    fn span(&self) -> Span {
        self.span
    }
}

impl<N> Spanned for JSXFragment<N> {
    ghost place = { λ n. n.span };

    fn span(&self) -> Span {
        self.span
    }
}

impl Spanned for JSXOpeningFragment {
    ghost place = { λ n. n.span };

    fn span(&self) -> Span {
        self.span
    }
}

impl Spanned for JSXClosingFragment {
    ghost place = { λ n. n.span };

    fn span(&self) -> Span {
        self.span
    }
}

impl<N: Spanned> Spanned for JSXElementName<N> {
    ghost place = { jsx_element_name_span N.place };

    #[tactic(auto, unfolding(crate::specs::Spans::jsx_element_name_span))]
    fn span(&self) -> Span {
        match self {
            JSXElementName::Ident(node) => node.span(),
            JSXElementName::JSXMemberExpr(node) => node.span(),
            JSXElementName::JSXNamespacedName(node) => node.span(),
        }
    }
}

impl<N: Spanned> Spanned for JSXMemberExpr<N> {
    ghost place = { jsx_member_expr_span N.place };

    #[tactic(auto, unfolding(crate::specs::Spans::jsx_member_expr_span))]
    fn span(&self) -> Span {
        Span {
            lo: self.obj.span().lo,
            hi: self.prop.span().hi,
        }
    }
}

impl<N: Spanned> Spanned for JSXObject<N> {
    ghost place = { jsx_object_span N.place };

    #[tactic(auto, unfolding(crate::specs::Spans::jsx_object_span))]
    fn span(&self) -> Span {
        match self {
            JSXObject::JSXMemberExpr(node) => node.span(),
            JSXObject::Ident(node) => node.span(),
        }
    }
}

impl Spanned for JSXNamespacedName {
    ghost place = { jsx_namespaced_name_span };

    #[tactic(auto, unfolding(crate::specs::Spans::jsx_namespaced_name_span))]
    fn span(&self) -> Span {
        Span {
            lo: self.ns.span().lo,
            hi: self.name.span().hi,
        }
    }
}

impl<N: Spanned> Spanned for JSXAttrOrSpread<N> {
    ghost place = { jsx_attr_or_spread_span N.place };

    #[tactic(auto, unfolding(crate::specs::Spans::jsx_attr_or_spread_span))]
    fn span(&self) -> Span {
        match self {
            JSXAttrOrSpread::JSXAttr(node) => node.span(),
            JSXAttrOrSpread::SpreadElement(node) => node.span(),
        }
    }
}

impl<N> Spanned for JSXAttr<N> {
    ghost place = { λ n. n.span };

    fn span(&self) -> Span {
        self.span
    }
}

impl Spanned for JSXAttrName {
    ghost place = { jsx_attr_name_span };

    #[tactic(auto, unfolding(crate::specs::Spans::jsx_attr_name_span))]
    fn span(&self) -> Span {
        match self {
            JSXAttrName::Ident(node) => node.span(),
            JSXAttrName::JSXNamespacedName(node) => node.span(),
        }
    }
}

impl<N: Spanned> Spanned for JSXAttrValue<N> {
    ghost place = { jsx_attr_value_span N.place };

    #[tactic(auto, unfolding(crate::specs::Spans::jsx_attr_value_span))]
    fn span(&self) -> Span {
        match self {
            JSXAttrValue::Lit(node) => node.span(),
            JSXAttrValue::JSXExprContainer(node) => node.span(),
            JSXAttrValue::JSXElement(node) => node.span(),
            JSXAttrValue::JSXFragment(node) => node.span(),
        }
    }
}

impl<N: Spanned> Spanned for JSXElementChild<N> {
    ghost place = { jsx_element_child_span N.place };

    #[tactic(auto, unfolding(crate::specs::Spans::jsx_element_child_span))]
    fn span(&self) -> Span {
        match self {
            JSXElementChild::JSXText(node) => node.span(),
            JSXElementChild::JSXExprContainer(node) => node.span(),
            JSXElementChild::JSXSpreadChild(node) => node.span(),
            JSXElementChild::JSXElement(node) => node.span(),
            JSXElementChild::JSXFragment(node) => node.span(),
        }
    }
}

impl<N> Spanned for JSXExprContainer<N> {
    ghost place = { λ n. n.span };

    fn span(&self) -> Span {
        self.span
    }
}

impl<N: Spanned> Spanned for JSXExpr<N> {
    ghost place = { jsx_expr_span N.place };

    #[tactic(auto, unfolding(crate::specs::Spans::jsx_expr_span))]
    fn span(&self) -> Span {
        match self {
            JSXExpr::JSXEmptyExpr(node) => node.span(),
            JSXExpr::Expr(node) => node.span(),
        }
    }
}

impl Spanned for JSXEmptyExpr {
    ghost place = { λ n. n.span };

    fn span(&self) -> Span {
        self.span
    }
}

impl<N> Spanned for JSXSpreadChild<N> {
    ghost place = { λ n. n.span };

    fn span(&self) -> Span {
        self.span
    }
}
