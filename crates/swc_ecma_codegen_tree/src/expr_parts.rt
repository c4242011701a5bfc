//! How `ExprPart` holds its sorts.

ghost use Rattle.swc_ecma_codegen_tree.specs.LinkTargets.{pat_in, tpl_in, object_lit_in, prop_name_in, opt_call_in, assign_target_in};

use crate::exprs::{ObjectLit, OptCall, PropName, Tpl};
use crate::holds::{Holds, HoldsMut};
use crate::parts::ExprPart;
use crate::pats::{AssignTarget, Pat};
use std::alloc::{AllocError, Global};

impl<N: Drop> Holds<Pat<N>> for ExprPart<N> {
    ghost node_in = { pat_in };

    fn hold(_: Global, node: Pat<N>) -> Result<ExprPart<N>, AllocError> {
        Ok(ExprPart::Pat(node))
    }

    fn node(&self) -> Option<&Pat<N>> {
        match self {
            ExprPart::Pat(node) => Some(node),
            _ => None,
        }
    }

    fn into_node(self) -> Result<Pat<N>, ExprPart<N>> {
        match self {
            ExprPart::Pat(node) => Ok(node),
            other => Err(other),
        }
    }
}

impl<N: Drop> HoldsMut<Pat<N>> for ExprPart<N> {
    fn node_mut(&mut self) -> Option<&mut Pat<N>> {
        match self {
            ExprPart::Pat(node) => Some(node),
            _ => None,
        }
    }
}

impl<N: Drop> Holds<Tpl<N>> for ExprPart<N> {
    ghost node_in = { tpl_in };

    fn hold(_: Global, node: Tpl<N>) -> Result<ExprPart<N>, AllocError> {
        Ok(ExprPart::Tpl(node))
    }

    fn node(&self) -> Option<&Tpl<N>> {
        match self {
            ExprPart::Tpl(node) => Some(node),
            _ => None,
        }
    }

    fn into_node(self) -> Result<Tpl<N>, ExprPart<N>> {
        match self {
            ExprPart::Tpl(node) => Ok(node),
            other => Err(other),
        }
    }
}

impl<N: Drop> HoldsMut<Tpl<N>> for ExprPart<N> {
    fn node_mut(&mut self) -> Option<&mut Tpl<N>> {
        match self {
            ExprPart::Tpl(node) => Some(node),
            _ => None,
        }
    }
}

impl<N: Drop> Holds<ObjectLit<N>> for ExprPart<N> {
    ghost node_in = { object_lit_in };

    fn hold(_: Global, node: ObjectLit<N>) -> Result<ExprPart<N>, AllocError> {
        Ok(ExprPart::ObjectLit(node))
    }

    fn node(&self) -> Option<&ObjectLit<N>> {
        match self {
            ExprPart::ObjectLit(node) => Some(node),
            _ => None,
        }
    }

    fn into_node(self) -> Result<ObjectLit<N>, ExprPart<N>> {
        match self {
            ExprPart::ObjectLit(node) => Ok(node),
            other => Err(other),
        }
    }
}

impl<N: Drop> HoldsMut<ObjectLit<N>> for ExprPart<N> {
    fn node_mut(&mut self) -> Option<&mut ObjectLit<N>> {
        match self {
            ExprPart::ObjectLit(node) => Some(node),
            _ => None,
        }
    }
}

impl<N: Drop> Holds<PropName<N>> for ExprPart<N> {
    ghost node_in = { prop_name_in };

    fn hold(_: Global, node: PropName<N>) -> Result<ExprPart<N>, AllocError> {
        Ok(ExprPart::PropName(node))
    }

    fn node(&self) -> Option<&PropName<N>> {
        match self {
            ExprPart::PropName(node) => Some(node),
            _ => None,
        }
    }

    fn into_node(self) -> Result<PropName<N>, ExprPart<N>> {
        match self {
            ExprPart::PropName(node) => Ok(node),
            other => Err(other),
        }
    }
}

impl<N: Drop> HoldsMut<PropName<N>> for ExprPart<N> {
    fn node_mut(&mut self) -> Option<&mut PropName<N>> {
        match self {
            ExprPart::PropName(node) => Some(node),
            _ => None,
        }
    }
}

impl<N: Drop> Holds<OptCall<N>> for ExprPart<N> {
    ghost node_in = { opt_call_in };

    fn hold(_: Global, node: OptCall<N>) -> Result<ExprPart<N>, AllocError> {
        Ok(ExprPart::OptCall(node))
    }

    fn node(&self) -> Option<&OptCall<N>> {
        match self {
            ExprPart::OptCall(node) => Some(node),
            _ => None,
        }
    }

    fn into_node(self) -> Result<OptCall<N>, ExprPart<N>> {
        match self {
            ExprPart::OptCall(node) => Ok(node),
            other => Err(other),
        }
    }
}

impl<N: Drop> HoldsMut<OptCall<N>> for ExprPart<N> {
    fn node_mut(&mut self) -> Option<&mut OptCall<N>> {
        match self {
            ExprPart::OptCall(node) => Some(node),
            _ => None,
        }
    }
}

impl<N: Drop> Holds<AssignTarget<N>> for ExprPart<N> {
    ghost node_in = { assign_target_in };

    fn hold(_: Global, node: AssignTarget<N>) -> Result<ExprPart<N>, AllocError> {
        Ok(ExprPart::AssignTarget(node))
    }

    fn node(&self) -> Option<&AssignTarget<N>> {
        match self {
            ExprPart::AssignTarget(node) => Some(node),
            _ => None,
        }
    }

    fn into_node(self) -> Result<AssignTarget<N>, ExprPart<N>> {
        match self {
            ExprPart::AssignTarget(node) => Ok(node),
            other => Err(other),
        }
    }
}

impl<N: Drop> HoldsMut<AssignTarget<N>> for ExprPart<N> {
    fn node_mut(&mut self) -> Option<&mut AssignTarget<N>> {
        match self {
            ExprPart::AssignTarget(node) => Some(node),
            _ => None,
        }
    }
}
