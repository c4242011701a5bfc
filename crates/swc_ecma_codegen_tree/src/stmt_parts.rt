//! How `StmtPart` holds its sorts.

ghost use Rattle.swc_ecma_codegen_tree.specs.Boxes.{function_box_in, function_is_boxed, class_box_in, class_is_boxed, module_decl_box_in, module_decl_is_boxed, class_member_box_in, class_member_is_boxed};
ghost use Rattle.swc_ecma_codegen_tree.specs.LinkTargets.{function_in, class_in, block_stmt_in, decl_in, module_decl_in, var_decl_in, class_member_in};

use crate::classes::{Class, ClassMember};
use crate::decls::{Decl, Function, VarDecl};
use crate::holds::{Holds, HoldsBox, HoldsMut, node_in_box_mut};
use crate::parts::StmtPart;
use crate::programs::ModuleDecl;
use crate::stmts::BlockStmt;
use std::alloc::{AllocError, Global};

impl<N: Drop> Holds<Function<N>> for StmtPart<N> {
    ghost node_in = { function_in };

    fn hold(alloc: Global, node: Function<N>) -> Result<StmtPart<N>, AllocError> {
        Ok(StmtPart::Function(Box::new(alloc, node)?))
    }

    fn node(&self) -> Option<&Function<N>> {
        match self {
            StmtPart::Function(node) => Some(node),
            _ => None,
        }
    }

    fn into_node(self) -> Result<Function<N>, StmtPart<N>> {
        match self {
            StmtPart::Function(node) => Ok(Box::into_inner(node)),
            other => Err(other),
        }
    }
}

impl<N: Drop> HoldsBox<Function<N>> for StmtPart<N> {
    ghost box_in = { function_box_in };

    fn box_mut(&mut self) -> Option<&mut Box<Function<N>>> {
        match self {
            StmtPart::Function(node) => Some(node),
            _ => None,
        }
    }

    ghost node_is_boxed = { function_is_boxed };
}

impl<N: Drop> HoldsMut<Function<N>> for StmtPart<N> {
    fn node_mut(&mut self) -> Option<&mut Function<N>> {
        node_in_box_mut(self)
    }
}

impl<N: Drop> Holds<Class<N>> for StmtPart<N> {
    ghost node_in = { class_in };

    fn hold(alloc: Global, node: Class<N>) -> Result<StmtPart<N>, AllocError> {
        Ok(StmtPart::Class(Box::new(alloc, node)?))
    }

    fn node(&self) -> Option<&Class<N>> {
        match self {
            StmtPart::Class(node) => Some(node),
            _ => None,
        }
    }

    fn into_node(self) -> Result<Class<N>, StmtPart<N>> {
        match self {
            StmtPart::Class(node) => Ok(Box::into_inner(node)),
            other => Err(other),
        }
    }
}

impl<N: Drop> HoldsBox<Class<N>> for StmtPart<N> {
    ghost box_in = { class_box_in };

    fn box_mut(&mut self) -> Option<&mut Box<Class<N>>> {
        match self {
            StmtPart::Class(node) => Some(node),
            _ => None,
        }
    }

    ghost node_is_boxed = { class_is_boxed };
}

impl<N: Drop> HoldsMut<Class<N>> for StmtPart<N> {
    fn node_mut(&mut self) -> Option<&mut Class<N>> {
        node_in_box_mut(self)
    }
}

impl<N: Drop> Holds<BlockStmt<N>> for StmtPart<N> {
    ghost node_in = { block_stmt_in };

    fn hold(_: Global, node: BlockStmt<N>) -> Result<StmtPart<N>, AllocError> {
        Ok(StmtPart::BlockStmt(node))
    }

    fn node(&self) -> Option<&BlockStmt<N>> {
        match self {
            StmtPart::BlockStmt(node) => Some(node),
            _ => None,
        }
    }

    fn into_node(self) -> Result<BlockStmt<N>, StmtPart<N>> {
        match self {
            StmtPart::BlockStmt(node) => Ok(node),
            other => Err(other),
        }
    }
}

impl<N: Drop> HoldsMut<BlockStmt<N>> for StmtPart<N> {
    fn node_mut(&mut self) -> Option<&mut BlockStmt<N>> {
        match self {
            StmtPart::BlockStmt(node) => Some(node),
            _ => None,
        }
    }
}

impl<N: Drop> Holds<Decl<N>> for StmtPart<N> {
    ghost node_in = { decl_in };

    fn hold(_: Global, node: Decl<N>) -> Result<StmtPart<N>, AllocError> {
        Ok(StmtPart::Decl(node))
    }

    fn node(&self) -> Option<&Decl<N>> {
        match self {
            StmtPart::Decl(node) => Some(node),
            _ => None,
        }
    }

    fn into_node(self) -> Result<Decl<N>, StmtPart<N>> {
        match self {
            StmtPart::Decl(node) => Ok(node),
            other => Err(other),
        }
    }
}

impl<N: Drop> HoldsMut<Decl<N>> for StmtPart<N> {
    fn node_mut(&mut self) -> Option<&mut Decl<N>> {
        match self {
            StmtPart::Decl(node) => Some(node),
            _ => None,
        }
    }
}

impl<N: Drop> Holds<ModuleDecl<N>> for StmtPart<N> {
    ghost node_in = { module_decl_in };

    fn hold(alloc: Global, node: ModuleDecl<N>) -> Result<StmtPart<N>, AllocError> {
        Ok(StmtPart::ModuleDecl(Box::new(alloc, node)?))
    }

    fn node(&self) -> Option<&ModuleDecl<N>> {
        match self {
            StmtPart::ModuleDecl(node) => Some(node),
            _ => None,
        }
    }

    fn into_node(self) -> Result<ModuleDecl<N>, StmtPart<N>> {
        match self {
            StmtPart::ModuleDecl(node) => Ok(Box::into_inner(node)),
            other => Err(other),
        }
    }
}

impl<N: Drop> HoldsBox<ModuleDecl<N>> for StmtPart<N> {
    ghost box_in = { module_decl_box_in };

    fn box_mut(&mut self) -> Option<&mut Box<ModuleDecl<N>>> {
        match self {
            StmtPart::ModuleDecl(node) => Some(node),
            _ => None,
        }
    }

    ghost node_is_boxed = { module_decl_is_boxed };
}

impl<N: Drop> HoldsMut<ModuleDecl<N>> for StmtPart<N> {
    fn node_mut(&mut self) -> Option<&mut ModuleDecl<N>> {
        node_in_box_mut(self)
    }
}

impl<N: Drop> Holds<VarDecl<N>> for StmtPart<N> {
    ghost node_in = { var_decl_in };

    fn hold(_: Global, node: VarDecl<N>) -> Result<StmtPart<N>, AllocError> {
        Ok(StmtPart::VarDecl(node))
    }

    fn node(&self) -> Option<&VarDecl<N>> {
        match self {
            StmtPart::VarDecl(node) => Some(node),
            _ => None,
        }
    }

    fn into_node(self) -> Result<VarDecl<N>, StmtPart<N>> {
        match self {
            StmtPart::VarDecl(node) => Ok(node),
            other => Err(other),
        }
    }
}

impl<N: Drop> HoldsMut<VarDecl<N>> for StmtPart<N> {
    fn node_mut(&mut self) -> Option<&mut VarDecl<N>> {
        match self {
            StmtPart::VarDecl(node) => Some(node),
            _ => None,
        }
    }
}

impl<N: Drop> Holds<ClassMember<N>> for StmtPart<N> {
    ghost node_in = { class_member_in };

    fn hold(alloc: Global, node: ClassMember<N>) -> Result<StmtPart<N>, AllocError> {
        Ok(StmtPart::ClassMember(Box::new(alloc, node)?))
    }

    fn node(&self) -> Option<&ClassMember<N>> {
        match self {
            StmtPart::ClassMember(node) => Some(node),
            _ => None,
        }
    }

    fn into_node(self) -> Result<ClassMember<N>, StmtPart<N>> {
        match self {
            StmtPart::ClassMember(node) => Ok(Box::into_inner(node)),
            other => Err(other),
        }
    }
}

impl<N: Drop> HoldsBox<ClassMember<N>> for StmtPart<N> {
    ghost box_in = { class_member_box_in };

    fn box_mut(&mut self) -> Option<&mut Box<ClassMember<N>>> {
        match self {
            StmtPart::ClassMember(node) => Some(node),
            _ => None,
        }
    }

    ghost node_is_boxed = { class_member_is_boxed };
}

impl<N: Drop> HoldsMut<ClassMember<N>> for StmtPart<N> {
    fn node_mut(&mut self) -> Option<&mut ClassMember<N>> {
        node_in_box_mut(self)
    }
}
