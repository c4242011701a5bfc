//! Links and names of declarations and functions. Made by scripts/dev/make-visit-files.

ghost use Rattle.swc_ecma_codegen_visit.specs.MappedDecls.{map_decorator, map_param};
ghost use Rattle.swc_ecma_codegen_visit.specs.MappedDecls.{map_class_decl, map_fn_decl};
ghost use Rattle.swc_ecma_codegen_visit.specs.MappedDecls.{map_var_declarator, map_var_decl};
ghost use Rattle.swc_ecma_codegen_visit.specs.MappedDecls.{map_using_decl, map_decl, map_function};

use crate::below::{Below, Links, Stop};
use swc_ecma_codegen_tree::{
    ClassDecl, Decl, Decorator, FnDecl, Function, Param, UsingDecl, VarDecl, VarDeclarator,
};

impl<N> Links<N> for Decorator<N> {
    ghost mapped = { map_decorator };

    fn links_mut<C, B: Below<N, C>>(&mut self, below: &B, change: &mut C) -> Result<(), Stop> {
        self.expr.links_mut(below, change)
    }
}

impl<N> Links<N> for Param<N> {
    ghost mapped = { map_param };

    fn links_mut<C, B: Below<N, C>>(&mut self, below: &B, change: &mut C) -> Result<(), Stop> {
        self.decorators.links_mut(below, change)?;
        self.pat.links_mut(below, change)
    }
}

impl<N> Links<N> for ClassDecl<N> {
    ghost mapped = { map_class_decl };

    fn links_mut<C, B: Below<N, C>>(&mut self, below: &B, change: &mut C) -> Result<(), Stop> {
        self.ident.links_mut(below, change)?;
        self.class.links_mut(below, change)
    }
}

impl<N> Links<N> for FnDecl<N> {
    ghost mapped = { map_fn_decl };

    fn links_mut<C, B: Below<N, C>>(&mut self, below: &B, change: &mut C) -> Result<(), Stop> {
        self.ident.links_mut(below, change)?;
        self.function.links_mut(below, change)
    }
}

impl<N> Links<N> for VarDeclarator<N> {
    ghost mapped = { map_var_declarator };

    fn links_mut<C, B: Below<N, C>>(&mut self, below: &B, change: &mut C) -> Result<(), Stop> {
        self.name.links_mut(below, change)?;
        self.init.links_mut(below, change)
    }
}

impl<N> Links<N> for VarDecl<N> {
    ghost mapped = { map_var_decl };

    fn links_mut<C, B: Below<N, C>>(&mut self, below: &B, change: &mut C) -> Result<(), Stop> {
        self.decls.links_mut(below, change)
    }
}

impl<N> Links<N> for UsingDecl<N> {
    ghost mapped = { map_using_decl };

    fn links_mut<C, B: Below<N, C>>(&mut self, below: &B, change: &mut C) -> Result<(), Stop> {
        self.decls.links_mut(below, change)
    }
}

impl<N> Links<N> for Decl<N> {
    ghost mapped = { map_decl };

    fn links_mut<C, B: Below<N, C>>(&mut self, below: &B, change: &mut C) -> Result<(), Stop> {
        match self {
            Decl::Class(node) => node.links_mut(below, change),
            Decl::Fn(node) => node.links_mut(below, change),
            Decl::Var(node) => node.links_mut(below, change),
            Decl::Using(node) => node.links_mut(below, change),
            Decl::TsInterface(node) => node.links_mut(below, change),
            Decl::TsTypeAlias(node) => node.links_mut(below, change),
            Decl::TsEnum(node) => node.links_mut(below, change),
            Decl::TsModule(node) => node.links_mut(below, change),
        }
    }
}

impl<N> Links<N> for Function<N> {
    ghost mapped = { map_function };

    fn links_mut<C, B: Below<N, C>>(&mut self, below: &B, change: &mut C) -> Result<(), Stop> {
        self.params.links_mut(below, change)?;
        self.decorators.links_mut(below, change)?;
        self.body.links_mut(below, change)?;
        self.type_params.links_mut(below, change)?;
        self.return_type.links_mut(below, change)
    }
}
