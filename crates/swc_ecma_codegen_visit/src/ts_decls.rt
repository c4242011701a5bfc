//! Links and names of declarations of TypeScript. Made by scripts/dev/make-visit-files.

ghost use Rattle.swc_ecma_codegen_visit.specs.MappedTsDecls.{map_ts_expr_with_type_args};
ghost use Rattle.swc_ecma_codegen_visit.specs.MappedTsDecls.{map_ts_interface_decl};
ghost use Rattle.swc_ecma_codegen_visit.specs.MappedTsDecls.{map_ts_type_alias_decl};
ghost use Rattle.swc_ecma_codegen_visit.specs.MappedTsDecls.{map_ts_enum_member_id};
ghost use Rattle.swc_ecma_codegen_visit.specs.MappedTsDecls.{map_ts_enum_member, map_ts_enum_decl};
ghost use Rattle.swc_ecma_codegen_visit.specs.MappedTsDecls.{map_ts_module_name};
ghost use Rattle.swc_ecma_codegen_visit.specs.MappedTsDecls.{map_ts_module_decl, map_ts_module_ref};
ghost use Rattle.swc_ecma_codegen_visit.specs.MappedTsDecls.{map_ts_import_equals_decl};
ghost use Rattle.swc_ecma_codegen_visit.specs.MappedTsDecls.{map_ts_export_assignment};
ghost use Rattle.swc_ecma_codegen_visit.specs.MappedTsDecls.{map_ts_namespace_export_decl};

use crate::below::{Below, Links, Stop};
use swc_ecma_codegen_tree::{
    TsEnumDecl, TsEnumMember, TsEnumMemberId, TsExportAssignment, TsExprWithTypeArgs,
    TsImportEqualsDecl, TsInterfaceDecl, TsModuleDecl, TsModuleName, TsModuleRef,
    TsNamespaceExportDecl, TsTypeAliasDecl,
};

impl<N> Links<N> for TsExprWithTypeArgs<N> {
    ghost mapped = { map_ts_expr_with_type_args };

    fn links_mut<C, B: Below<N, C>>(&mut self, below: &B, change: &mut C) -> Result<(), Stop> {
        self.expr.links_mut(below, change)?;
        self.type_args.links_mut(below, change)
    }
}

impl<N> Links<N> for TsInterfaceDecl<N> {
    ghost mapped = { map_ts_interface_decl };

    fn links_mut<C, B: Below<N, C>>(&mut self, below: &B, change: &mut C) -> Result<(), Stop> {
        self.id.links_mut(below, change)?;
        self.type_params.links_mut(below, change)?;
        self.extends.links_mut(below, change)?;
        self.body.links_mut(below, change)
    }
}

impl<N> Links<N> for TsTypeAliasDecl<N> {
    ghost mapped = { map_ts_type_alias_decl };

    fn links_mut<C, B: Below<N, C>>(&mut self, below: &B, change: &mut C) -> Result<(), Stop> {
        self.id.links_mut(below, change)?;
        self.type_params.links_mut(below, change)?;
        self.type_ann.links_mut(below, change)
    }
}

impl<N> Links<N> for TsEnumMemberId {
    ghost mapped = { λ g f. map_ts_enum_member_id g };

    fn links_mut<C, B: Below<N, C>>(&mut self, below: &B, change: &mut C) -> Result<(), Stop> {
        match self {
            TsEnumMemberId::Ident(node) => node.links_mut(below, change),
            TsEnumMemberId::Str(_) => Ok(()),
        }
    }
}

impl<N> Links<N> for TsEnumMember<N> {
    ghost mapped = { map_ts_enum_member };

    fn links_mut<C, B: Below<N, C>>(&mut self, below: &B, change: &mut C) -> Result<(), Stop> {
        self.id.links_mut(below, change)?;
        self.init.links_mut(below, change)
    }
}

impl<N> Links<N> for TsEnumDecl<N> {
    ghost mapped = { map_ts_enum_decl };

    fn links_mut<C, B: Below<N, C>>(&mut self, below: &B, change: &mut C) -> Result<(), Stop> {
        self.id.links_mut(below, change)?;
        self.members.links_mut(below, change)
    }
}

impl<N> Links<N> for TsModuleName {
    ghost mapped = { λ g f. map_ts_module_name g };

    fn links_mut<C, B: Below<N, C>>(&mut self, below: &B, change: &mut C) -> Result<(), Stop> {
        match self {
            TsModuleName::Ident(node) => node.links_mut(below, change),
            TsModuleName::Str(_) => Ok(()),
        }
    }
}

impl<N> Links<N> for TsModuleDecl<N> {
    ghost mapped = { map_ts_module_decl };

    fn links_mut<C, B: Below<N, C>>(&mut self, below: &B, change: &mut C) -> Result<(), Stop> {
        self.id.links_mut(below, change)?;
        self.body.links_mut(below, change)
    }
}

impl<N> Links<N> for TsModuleRef<N> {
    ghost mapped = { map_ts_module_ref };

    fn links_mut<C, B: Below<N, C>>(&mut self, below: &B, change: &mut C) -> Result<(), Stop> {
        match self {
            TsModuleRef::TsEntityName(node) => node.links_mut(below, change),
            TsModuleRef::TsExternalModuleRef(_) => Ok(()),
        }
    }
}

impl<N> Links<N> for TsImportEqualsDecl<N> {
    ghost mapped = { map_ts_import_equals_decl };

    fn links_mut<C, B: Below<N, C>>(&mut self, below: &B, change: &mut C) -> Result<(), Stop> {
        self.id.links_mut(below, change)?;
        self.module_ref.links_mut(below, change)
    }
}

impl<N> Links<N> for TsExportAssignment<N> {
    ghost mapped = { map_ts_export_assignment };

    fn links_mut<C, B: Below<N, C>>(&mut self, below: &B, change: &mut C) -> Result<(), Stop> {
        self.expr.links_mut(below, change)
    }
}

impl<N> Links<N> for TsNamespaceExportDecl {
    ghost mapped = { λ g f. map_ts_namespace_export_decl g };

    fn links_mut<C, B: Below<N, C>>(&mut self, below: &B, change: &mut C) -> Result<(), Stop> {
        self.id.links_mut(below, change)
    }
}
