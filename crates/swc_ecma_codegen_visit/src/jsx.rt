//! Links and names of JSX. Made by scripts/dev/make-visit-files.

ghost use Rattle.swc_ecma_codegen_visit.specs.MappedJsx.{map_jsx_element_name, map_jsx_expr};
ghost use Rattle.swc_ecma_codegen_visit.specs.MappedJsx.{map_jsx_expr_container};
ghost use Rattle.swc_ecma_codegen_visit.specs.MappedJsx.{map_jsx_attr_value, map_jsx_attr};
ghost use Rattle.swc_ecma_codegen_visit.specs.MappedJsx.{map_jsx_attr_or_spread};
ghost use Rattle.swc_ecma_codegen_visit.specs.MappedJsx.{map_jsx_opening_element};
ghost use Rattle.swc_ecma_codegen_visit.specs.MappedJsx.{map_jsx_spread_child};
ghost use Rattle.swc_ecma_codegen_visit.specs.MappedJsx.{map_jsx_element_child};
ghost use Rattle.swc_ecma_codegen_visit.specs.MappedJsx.{map_jsx_closing_element, map_jsx_element};
ghost use Rattle.swc_ecma_codegen_visit.specs.MappedJsx.{map_jsx_fragment, map_jsx_object};

use crate::below::{Below, Links, Stop};
use swc_ecma_codegen_tree::{
    JSXAttr, JSXAttrOrSpread, JSXAttrValue, JSXClosingElement, JSXElement, JSXElementChild,
    JSXElementName, JSXExpr, JSXExprContainer, JSXFragment, JSXObject, JSXOpeningElement,
    JSXSpreadChild,
};

impl<N> Links<N> for JSXElementName<N> {
    ghost mapped = { map_jsx_element_name };

    fn links_mut<C, B: Below<N, C>>(&mut self, below: &B, change: &mut C) -> Result<(), Stop> {
        match self {
            JSXElementName::Ident(node) => node.links_mut(below, change),
            JSXElementName::JSXMemberExpr(node) => node.links_mut(below, change),
            JSXElementName::JSXNamespacedName(_) => Ok(()),
        }
    }
}

impl<N> Links<N> for JSXExpr<N> {
    ghost mapped = { map_jsx_expr };

    fn links_mut<C, B: Below<N, C>>(&mut self, below: &B, change: &mut C) -> Result<(), Stop> {
        match self {
            JSXExpr::Expr(node) => node.links_mut(below, change),
            JSXExpr::JSXEmptyExpr(_) => Ok(()),
        }
    }
}

impl<N> Links<N> for JSXExprContainer<N> {
    ghost mapped = { map_jsx_expr_container };

    fn links_mut<C, B: Below<N, C>>(&mut self, below: &B, change: &mut C) -> Result<(), Stop> {
        self.expr.links_mut(below, change)
    }
}

impl<N> Links<N> for JSXAttrValue<N> {
    ghost mapped = { map_jsx_attr_value };

    fn links_mut<C, B: Below<N, C>>(&mut self, below: &B, change: &mut C) -> Result<(), Stop> {
        match self {
            JSXAttrValue::JSXExprContainer(node) => node.links_mut(below, change),
            JSXAttrValue::JSXElement(node) => node.links_mut(below, change),
            JSXAttrValue::JSXFragment(node) => node.links_mut(below, change),
            JSXAttrValue::Lit(_) => Ok(()),
        }
    }
}

impl<N> Links<N> for JSXAttr<N> {
    ghost mapped = { map_jsx_attr };

    fn links_mut<C, B: Below<N, C>>(&mut self, below: &B, change: &mut C) -> Result<(), Stop> {
        self.value.links_mut(below, change)
    }
}

impl<N> Links<N> for JSXAttrOrSpread<N> {
    ghost mapped = { map_jsx_attr_or_spread };

    fn links_mut<C, B: Below<N, C>>(&mut self, below: &B, change: &mut C) -> Result<(), Stop> {
        match self {
            JSXAttrOrSpread::JSXAttr(node) => node.links_mut(below, change),
            JSXAttrOrSpread::SpreadElement(node) => node.links_mut(below, change),
        }
    }
}

impl<N> Links<N> for JSXOpeningElement<N> {
    ghost mapped = { map_jsx_opening_element };

    fn links_mut<C, B: Below<N, C>>(&mut self, below: &B, change: &mut C) -> Result<(), Stop> {
        self.name.links_mut(below, change)?;
        self.attrs.links_mut(below, change)?;
        self.type_args.links_mut(below, change)
    }
}

impl<N> Links<N> for JSXSpreadChild<N> {
    ghost mapped = { map_jsx_spread_child };

    fn links_mut<C, B: Below<N, C>>(&mut self, below: &B, change: &mut C) -> Result<(), Stop> {
        self.expr.links_mut(below, change)
    }
}

impl<N> Links<N> for JSXElementChild<N> {
    ghost mapped = { map_jsx_element_child };

    fn links_mut<C, B: Below<N, C>>(&mut self, below: &B, change: &mut C) -> Result<(), Stop> {
        match self {
            JSXElementChild::JSXExprContainer(node) => node.links_mut(below, change),
            JSXElementChild::JSXSpreadChild(node) => node.links_mut(below, change),
            JSXElementChild::JSXElement(node) => node.links_mut(below, change),
            JSXElementChild::JSXFragment(node) => node.links_mut(below, change),
            JSXElementChild::JSXText(_) => Ok(()),
        }
    }
}

impl<N> Links<N> for JSXClosingElement<N> {
    ghost mapped = { map_jsx_closing_element };

    fn links_mut<C, B: Below<N, C>>(&mut self, below: &B, change: &mut C) -> Result<(), Stop> {
        self.name.links_mut(below, change)
    }
}

impl<N> Links<N> for JSXElement<N> {
    ghost mapped = { map_jsx_element };

    fn links_mut<C, B: Below<N, C>>(&mut self, below: &B, change: &mut C) -> Result<(), Stop> {
        self.opening.links_mut(below, change)?;
        self.children.links_mut(below, change)?;
        self.closing.links_mut(below, change)
    }
}

impl<N> Links<N> for JSXFragment<N> {
    ghost mapped = { map_jsx_fragment };

    fn links_mut<C, B: Below<N, C>>(&mut self, below: &B, change: &mut C) -> Result<(), Stop> {
        self.children.links_mut(below, change)
    }
}

impl<N> Links<N> for JSXObject<N> {
    ghost mapped = { map_jsx_object };

    fn links_mut<C, B: Below<N, C>>(&mut self, below: &B, change: &mut C) -> Result<(), Stop> {
        match self {
            JSXObject::JSXMemberExpr(node) => node.links_mut(below, change),
            JSXObject::Ident(node) => node.links_mut(below, change),
        }
    }
}
