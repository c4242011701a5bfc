//! How `JSXPart` holds its sorts.

ghost use Rattle.swc_ecma_codegen_tree.specs.Boxes.{jsx_element_box_in, jsx_element_is_boxed};
ghost use Rattle.swc_ecma_codegen_tree.specs.LinkTargets.{jsx_element_in, jsx_fragment_in, jsx_object_in};

use crate::holds::{Holds, HoldsBox, HoldsMut, node_in_box_mut};
use crate::jsx::{JSXElement, JSXFragment, JSXObject};
use crate::parts::JSXPart;
use std::alloc::{AllocError, Global};

impl<N: Drop> Holds<JSXElement<N>> for JSXPart<N> {
    ghost node_in = { jsx_element_in };

    fn hold(alloc: Global, node: JSXElement<N>) -> Result<JSXPart<N>, AllocError> {
        Ok(JSXPart::JSXElement(Box::new(alloc, node)?))
    }

    fn node(&self) -> Option<&JSXElement<N>> {
        match self {
            JSXPart::JSXElement(node) => Some(node),
            _ => None,
        }
    }

    fn into_node(self) -> Result<JSXElement<N>, JSXPart<N>> {
        match self {
            JSXPart::JSXElement(node) => Ok(Box::into_inner(node)),
            other => Err(other),
        }
    }
}

impl<N: Drop> HoldsBox<JSXElement<N>> for JSXPart<N> {
    ghost box_in = { jsx_element_box_in };

    fn box_mut(&mut self) -> Option<&mut Box<JSXElement<N>>> {
        match self {
            JSXPart::JSXElement(node) => Some(node),
            _ => None,
        }
    }

    ghost node_is_boxed = { jsx_element_is_boxed };
}

impl<N: Drop> HoldsMut<JSXElement<N>> for JSXPart<N> {
    fn node_mut(&mut self) -> Option<&mut JSXElement<N>> {
        node_in_box_mut(self)
    }
}

impl<N: Drop> Holds<JSXFragment<N>> for JSXPart<N> {
    ghost node_in = { jsx_fragment_in };

    fn hold(_: Global, node: JSXFragment<N>) -> Result<JSXPart<N>, AllocError> {
        Ok(JSXPart::JSXFragment(node))
    }

    fn node(&self) -> Option<&JSXFragment<N>> {
        match self {
            JSXPart::JSXFragment(node) => Some(node),
            _ => None,
        }
    }

    fn into_node(self) -> Result<JSXFragment<N>, JSXPart<N>> {
        match self {
            JSXPart::JSXFragment(node) => Ok(node),
            other => Err(other),
        }
    }
}

impl<N: Drop> HoldsMut<JSXFragment<N>> for JSXPart<N> {
    fn node_mut(&mut self) -> Option<&mut JSXFragment<N>> {
        match self {
            JSXPart::JSXFragment(node) => Some(node),
            _ => None,
        }
    }
}

impl<N: Drop> Holds<JSXObject<N>> for JSXPart<N> {
    ghost node_in = { jsx_object_in };

    fn hold(_: Global, node: JSXObject<N>) -> Result<JSXPart<N>, AllocError> {
        Ok(JSXPart::JSXObject(node))
    }

    fn node(&self) -> Option<&JSXObject<N>> {
        match self {
            JSXPart::JSXObject(node) => Some(node),
            _ => None,
        }
    }

    fn into_node(self) -> Result<JSXObject<N>, JSXPart<N>> {
        match self {
            JSXPart::JSXObject(node) => Ok(node),
            other => Err(other),
        }
    }
}

impl<N: Drop> HoldsMut<JSXObject<N>> for JSXPart<N> {
    fn node_mut(&mut self) -> Option<&mut JSXObject<N>> {
        match self {
            JSXPart::JSXObject(node) => Some(node),
            _ => None,
        }
    }
}
