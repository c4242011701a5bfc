//! How `TsPart` holds its sorts.

ghost use Rattle.swc_ecma_codegen_tree.specs.LinkTargets.{ts_type_in, ts_namespace_body_in, ts_type_ann_in, ts_type_param_decl_in, ts_type_param_instantiation_in, ts_fn_param_in, ts_interface_body_in, ts_entity_name_in};

use crate::holds::{Holds, HoldsMut};
use crate::parts::TsPart;
use crate::ts_decls::TsNamespaceBody;
use crate::ts_members::TsInterfaceBody;
use crate::ts_types::{
    TsEntityName, TsFnParam, TsType, TsTypeAnn, TsTypeParamDecl, TsTypeParamInstantiation,
};
use std::alloc::{AllocError, Global};

impl<N: Drop> Holds<TsType<N>> for TsPart<N> {
    ghost node_in = { ts_type_in };

    fn hold(_: Global, node: TsType<N>) -> Result<TsPart<N>, AllocError> {
        Ok(TsPart::TsType(node))
    }

    fn node(&self) -> Option<&TsType<N>> {
        match self {
            TsPart::TsType(node) => Some(node),
            _ => None,
        }
    }

    fn into_node(self) -> Result<TsType<N>, TsPart<N>> {
        match self {
            TsPart::TsType(node) => Ok(node),
            other => Err(other),
        }
    }
}

impl<N: Drop> HoldsMut<TsType<N>> for TsPart<N> {
    fn node_mut(&mut self) -> Option<&mut TsType<N>> {
        match self {
            TsPart::TsType(node) => Some(node),
            _ => None,
        }
    }
}

impl<N: Drop> Holds<TsNamespaceBody<N>> for TsPart<N> {
    ghost node_in = { ts_namespace_body_in };

    fn hold(_: Global, node: TsNamespaceBody<N>) -> Result<TsPart<N>, AllocError> {
        Ok(TsPart::TsNamespaceBody(node))
    }

    fn node(&self) -> Option<&TsNamespaceBody<N>> {
        match self {
            TsPart::TsNamespaceBody(node) => Some(node),
            _ => None,
        }
    }

    fn into_node(self) -> Result<TsNamespaceBody<N>, TsPart<N>> {
        match self {
            TsPart::TsNamespaceBody(node) => Ok(node),
            other => Err(other),
        }
    }
}

impl<N: Drop> HoldsMut<TsNamespaceBody<N>> for TsPart<N> {
    fn node_mut(&mut self) -> Option<&mut TsNamespaceBody<N>> {
        match self {
            TsPart::TsNamespaceBody(node) => Some(node),
            _ => None,
        }
    }
}

impl<N: Drop> Holds<TsTypeAnn<N>> for TsPart<N> {
    ghost node_in = { ts_type_ann_in };

    fn hold(_: Global, node: TsTypeAnn<N>) -> Result<TsPart<N>, AllocError> {
        Ok(TsPart::TsTypeAnn(node))
    }

    fn node(&self) -> Option<&TsTypeAnn<N>> {
        match self {
            TsPart::TsTypeAnn(node) => Some(node),
            _ => None,
        }
    }

    fn into_node(self) -> Result<TsTypeAnn<N>, TsPart<N>> {
        match self {
            TsPart::TsTypeAnn(node) => Ok(node),
            other => Err(other),
        }
    }
}

impl<N: Drop> HoldsMut<TsTypeAnn<N>> for TsPart<N> {
    fn node_mut(&mut self) -> Option<&mut TsTypeAnn<N>> {
        match self {
            TsPart::TsTypeAnn(node) => Some(node),
            _ => None,
        }
    }
}

impl<N: Drop> Holds<TsTypeParamDecl<N>> for TsPart<N> {
    ghost node_in = { ts_type_param_decl_in };

    fn hold(_: Global, node: TsTypeParamDecl<N>) -> Result<TsPart<N>, AllocError> {
        Ok(TsPart::TsTypeParamDecl(node))
    }

    fn node(&self) -> Option<&TsTypeParamDecl<N>> {
        match self {
            TsPart::TsTypeParamDecl(node) => Some(node),
            _ => None,
        }
    }

    fn into_node(self) -> Result<TsTypeParamDecl<N>, TsPart<N>> {
        match self {
            TsPart::TsTypeParamDecl(node) => Ok(node),
            other => Err(other),
        }
    }
}

impl<N: Drop> HoldsMut<TsTypeParamDecl<N>> for TsPart<N> {
    fn node_mut(&mut self) -> Option<&mut TsTypeParamDecl<N>> {
        match self {
            TsPart::TsTypeParamDecl(node) => Some(node),
            _ => None,
        }
    }
}

impl<N: Drop> Holds<TsTypeParamInstantiation<N>> for TsPart<N> {
    ghost node_in = { ts_type_param_instantiation_in };

    fn hold(_: Global, node: TsTypeParamInstantiation<N>) -> Result<TsPart<N>, AllocError> {
        Ok(TsPart::TsTypeParamInstantiation(node))
    }

    fn node(&self) -> Option<&TsTypeParamInstantiation<N>> {
        match self {
            TsPart::TsTypeParamInstantiation(node) => Some(node),
            _ => None,
        }
    }

    fn into_node(self) -> Result<TsTypeParamInstantiation<N>, TsPart<N>> {
        match self {
            TsPart::TsTypeParamInstantiation(node) => Ok(node),
            other => Err(other),
        }
    }
}

impl<N: Drop> HoldsMut<TsTypeParamInstantiation<N>> for TsPart<N> {
    fn node_mut(&mut self) -> Option<&mut TsTypeParamInstantiation<N>> {
        match self {
            TsPart::TsTypeParamInstantiation(node) => Some(node),
            _ => None,
        }
    }
}

impl<N: Drop> Holds<TsFnParam<N>> for TsPart<N> {
    ghost node_in = { ts_fn_param_in };

    fn hold(_: Global, node: TsFnParam<N>) -> Result<TsPart<N>, AllocError> {
        Ok(TsPart::TsFnParam(node))
    }

    fn node(&self) -> Option<&TsFnParam<N>> {
        match self {
            TsPart::TsFnParam(node) => Some(node),
            _ => None,
        }
    }

    fn into_node(self) -> Result<TsFnParam<N>, TsPart<N>> {
        match self {
            TsPart::TsFnParam(node) => Ok(node),
            other => Err(other),
        }
    }
}

impl<N: Drop> HoldsMut<TsFnParam<N>> for TsPart<N> {
    fn node_mut(&mut self) -> Option<&mut TsFnParam<N>> {
        match self {
            TsPart::TsFnParam(node) => Some(node),
            _ => None,
        }
    }
}

impl<N: Drop> Holds<TsInterfaceBody<N>> for TsPart<N> {
    ghost node_in = { ts_interface_body_in };

    fn hold(_: Global, node: TsInterfaceBody<N>) -> Result<TsPart<N>, AllocError> {
        Ok(TsPart::TsInterfaceBody(node))
    }

    fn node(&self) -> Option<&TsInterfaceBody<N>> {
        match self {
            TsPart::TsInterfaceBody(node) => Some(node),
            _ => None,
        }
    }

    fn into_node(self) -> Result<TsInterfaceBody<N>, TsPart<N>> {
        match self {
            TsPart::TsInterfaceBody(node) => Ok(node),
            other => Err(other),
        }
    }
}

impl<N: Drop> HoldsMut<TsInterfaceBody<N>> for TsPart<N> {
    fn node_mut(&mut self) -> Option<&mut TsInterfaceBody<N>> {
        match self {
            TsPart::TsInterfaceBody(node) => Some(node),
            _ => None,
        }
    }
}

impl<N: Drop> Holds<TsEntityName<N>> for TsPart<N> {
    ghost node_in = { ts_entity_name_in };

    fn hold(_: Global, node: TsEntityName<N>) -> Result<TsPart<N>, AllocError> {
        Ok(TsPart::TsEntityName(node))
    }

    fn node(&self) -> Option<&TsEntityName<N>> {
        match self {
            TsPart::TsEntityName(node) => Some(node),
            _ => None,
        }
    }

    fn into_node(self) -> Result<TsEntityName<N>, TsPart<N>> {
        match self {
            TsPart::TsEntityName(node) => Ok(node),
            other => Err(other),
        }
    }
}

impl<N: Drop> HoldsMut<TsEntityName<N>> for TsPart<N> {
    fn node_mut(&mut self) -> Option<&mut TsEntityName<N>> {
        match self {
            TsPart::TsEntityName(node) => Some(node),
            _ => None,
        }
    }
}
