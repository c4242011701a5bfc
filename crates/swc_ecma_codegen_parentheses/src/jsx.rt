//! JSX.

ghost use Rattle.swc_ecma_codegen_parentheses.specs.SameJsx.{same_jsx_expr, same_jsx_expr_container, same_jsx_attr_value, same_jsx_attr, same_jsx_attr_or_spread, same_jsx_opening_element, same_jsx_spread_child, same_jsx_element_child, same_jsx_element, same_jsx_fragment};

use crate::mends::{Mend, Mends, Stop, mend_bracketed};
use crate::places::Place;
use std::alloc::Global;
use swc_ecma_codegen_syntax::{Answers, Nonterminal};
use swc_ecma_codegen_tree::{
    JSXAttr, JSXAttrOrSpread, JSXAttrValue, JSXElement, JSXElementChild, JSXExpr, JSXExprContainer,
    JSXFragment, JSXOpeningElement, JSXSpreadChild,
};

impl<N: Answers, M: Mends<N>> Mend<N, M> for JSXExpr<N> {
    ghost same = { same_jsx_expr };

    #[tactic(auto, unfolding(crate::specs::SameJsx::same_jsx_expr))]
    fn mend(&mut self, mender: &M, alloc: Global, place: Place) -> Result<(), Stop> {
        match self {
            JSXExpr::Expr(node) => {
                mend_bracketed(mender, alloc, node, place, Nonterminal::Expression)
            }
            _ => Ok(()),
        }
    }
}

impl<N: Answers, M: Mends<N>> Mend<N, M> for JSXExprContainer<N> {
    ghost same = { same_jsx_expr_container };

    #[tactic(auto, unfolding(crate::specs::SameJsx::same_jsx_expr_container))]
    fn mend(&mut self, mender: &M, alloc: Global, place: Place) -> Result<(), Stop> {
        self.expr.mend(mender, alloc, place)
    }
}

impl<N: Answers, M: Mends<N>> Mend<N, M> for JSXAttrValue<N> {
    ghost same = { same_jsx_attr_value };

    #[tactic(auto, unfolding(crate::specs::SameJsx::same_jsx_attr_value))]
    fn mend(&mut self, mender: &M, alloc: Global, place: Place) -> Result<(), Stop> {
        match self {
            JSXAttrValue::JSXExprContainer(node) => node.mend(mender, alloc, place),
            JSXAttrValue::JSXElement(node) => node.mend(mender, alloc, place),
            JSXAttrValue::JSXFragment(node) => node.mend(mender, alloc, place),
            _ => Ok(()),
        }
    }
}

impl<N: Answers, M: Mends<N>> Mend<N, M> for JSXAttr<N> {
    ghost same = { same_jsx_attr };

    #[tactic(auto, unfolding(crate::specs::SameJsx::same_jsx_attr))]
    fn mend(&mut self, mender: &M, alloc: Global, place: Place) -> Result<(), Stop> {
        self.value.mend(mender, alloc, place)
    }
}

impl<N: Answers, M: Mends<N>> Mend<N, M> for JSXAttrOrSpread<N> {
    ghost same = { same_jsx_attr_or_spread };

    #[tactic(auto, unfolding(crate::specs::SameJsx::same_jsx_attr_or_spread))]
    fn mend(&mut self, mender: &M, alloc: Global, place: Place) -> Result<(), Stop> {
        match self {
            JSXAttrOrSpread::JSXAttr(node) => node.mend(mender, alloc, place),
            JSXAttrOrSpread::SpreadElement(node) => node.mend(mender, alloc, place),
        }
    }
}

impl<N: Answers, M: Mends<N>> Mend<N, M> for JSXOpeningElement<N> {
    ghost same = { same_jsx_opening_element };

    #[tactic(auto, unfolding(crate::specs::SameJsx::same_jsx_opening_element))]
    fn mend(&mut self, mender: &M, alloc: Global, place: Place) -> Result<(), Stop> {
        self.attrs.mend(mender, alloc, place)
    }
}

impl<N: Answers, M: Mends<N>> Mend<N, M> for JSXSpreadChild<N> {
    ghost same = { same_jsx_spread_child };

    #[tactic(auto, unfolding(crate::specs::SameJsx::same_jsx_spread_child))]
    fn mend(&mut self, mender: &M, alloc: Global, place: Place) -> Result<(), Stop> {
        mend_bracketed(
            mender,
            alloc,
            &mut self.expr,
            place,
            Nonterminal::Expression,
        )
    }
}

impl<N: Answers, M: Mends<N>> Mend<N, M> for JSXElementChild<N> {
    ghost same = { same_jsx_element_child };

    #[tactic(auto, unfolding(crate::specs::SameJsx::same_jsx_element_child))]
    fn mend(&mut self, mender: &M, alloc: Global, place: Place) -> Result<(), Stop> {
        match self {
            JSXElementChild::JSXExprContainer(node) => node.mend(mender, alloc, place),
            JSXElementChild::JSXSpreadChild(node) => node.mend(mender, alloc, place),
            JSXElementChild::JSXElement(node) => node.mend(mender, alloc, place),
            JSXElementChild::JSXFragment(node) => node.mend(mender, alloc, place),
            _ => Ok(()),
        }
    }
}

impl<N: Answers, M: Mends<N>> Mend<N, M> for JSXElement<N> {
    ghost same = { same_jsx_element };

    #[tactic(auto, unfolding(crate::specs::SameJsx::same_jsx_element))]
    fn mend(&mut self, mender: &M, alloc: Global, place: Place) -> Result<(), Stop> {
        self.opening.mend(mender, alloc, place)?;
        self.children.mend(mender, alloc, place)
    }
}

impl<N: Answers, M: Mends<N>> Mend<N, M> for JSXFragment<N> {
    ghost same = { same_jsx_fragment };

    #[tactic(auto, unfolding(crate::specs::SameJsx::same_jsx_fragment))]
    fn mend(&mut self, mender: &M, alloc: Global, place: Place) -> Result<(), Stop> {
        self.children.mend(mender, alloc, place)
    }
}
