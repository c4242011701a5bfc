//! Links and names of modules, scripts and namespaces. Made by scripts/dev/make-visit-files.

ghost use Rattle.swc_ecma_codegen_visit.specs.MappedModules.{map_module_export_name};
ghost use Rattle.swc_ecma_codegen_visit.specs.MappedModules.{map_import_named_specifier};
ghost use Rattle.swc_ecma_codegen_visit.specs.MappedModules.{map_import_default_specifier};
ghost use Rattle.swc_ecma_codegen_visit.specs.MappedModules.{map_import_star_as_specifier};
ghost use Rattle.swc_ecma_codegen_visit.specs.MappedModules.{map_import_specifier, map_import_decl};
ghost use Rattle.swc_ecma_codegen_visit.specs.MappedModules.{map_export_decl};
ghost use Rattle.swc_ecma_codegen_visit.specs.MappedModules.{map_export_namespace_specifier};
ghost use Rattle.swc_ecma_codegen_visit.specs.MappedModules.{map_export_default_specifier};
ghost use Rattle.swc_ecma_codegen_visit.specs.MappedModules.{map_export_named_specifier};
ghost use Rattle.swc_ecma_codegen_visit.specs.MappedModules.{map_export_specifier};
ghost use Rattle.swc_ecma_codegen_visit.specs.MappedModules.{map_named_export, map_default_decl};
ghost use Rattle.swc_ecma_codegen_visit.specs.MappedModules.{map_export_default_decl};
ghost use Rattle.swc_ecma_codegen_visit.specs.MappedModules.{map_export_default_expr};
ghost use Rattle.swc_ecma_codegen_visit.specs.MappedModules.{map_export_all, map_module_decl};
ghost use Rattle.swc_ecma_codegen_visit.specs.MappedModules.{map_module_item, map_ts_module_block};
ghost use Rattle.swc_ecma_codegen_visit.specs.MappedModules.{map_ts_namespace_decl};
ghost use Rattle.swc_ecma_codegen_visit.specs.MappedModules.{map_ts_namespace_body, map_module};
ghost use Rattle.swc_ecma_codegen_visit.specs.MappedModules.{map_script, map_program};

use crate::below::{Below, Links, Stop};
use swc_ecma_codegen_tree::{
    DefaultDecl, ExportAll, ExportDecl, ExportDefaultDecl, ExportDefaultExpr,
    ExportDefaultSpecifier, ExportNamedSpecifier, ExportNamespaceSpecifier, ExportSpecifier,
    ImportDecl, ImportDefaultSpecifier, ImportNamedSpecifier, ImportSpecifier,
    ImportStarAsSpecifier, Module, ModuleDecl, ModuleExportName, ModuleItem, NamedExport, Program,
    Script, TsModuleBlock, TsNamespaceBody, TsNamespaceDecl,
};

impl<N> Links<N> for ModuleExportName {
    ghost mapped = { λ g f. map_module_export_name g };

    fn links_mut<C, B: Below<N, C>>(&mut self, below: &B, change: &mut C) -> Result<(), Stop> {
        match self {
            ModuleExportName::Ident(node) => node.links_mut(below, change),
            ModuleExportName::Str(_) => Ok(()),
        }
    }
}

impl<N> Links<N> for ImportNamedSpecifier {
    ghost mapped = { λ g f. map_import_named_specifier g };

    fn links_mut<C, B: Below<N, C>>(&mut self, below: &B, change: &mut C) -> Result<(), Stop> {
        self.local.links_mut(below, change)?;
        self.imported.links_mut(below, change)
    }
}

impl<N> Links<N> for ImportDefaultSpecifier {
    ghost mapped = { λ g f. map_import_default_specifier g };

    fn links_mut<C, B: Below<N, C>>(&mut self, below: &B, change: &mut C) -> Result<(), Stop> {
        self.local.links_mut(below, change)
    }
}

impl<N> Links<N> for ImportStarAsSpecifier {
    ghost mapped = { λ g f. map_import_star_as_specifier g };

    fn links_mut<C, B: Below<N, C>>(&mut self, below: &B, change: &mut C) -> Result<(), Stop> {
        self.local.links_mut(below, change)
    }
}

impl<N> Links<N> for ImportSpecifier {
    ghost mapped = { λ g f. map_import_specifier g };

    fn links_mut<C, B: Below<N, C>>(&mut self, below: &B, change: &mut C) -> Result<(), Stop> {
        match self {
            ImportSpecifier::Named(node) => node.links_mut(below, change),
            ImportSpecifier::Default(node) => node.links_mut(below, change),
            ImportSpecifier::Namespace(node) => node.links_mut(below, change),
        }
    }
}

impl<N> Links<N> for ImportDecl<N> {
    ghost mapped = { map_import_decl };

    fn links_mut<C, B: Below<N, C>>(&mut self, below: &B, change: &mut C) -> Result<(), Stop> {
        self.specifiers.links_mut(below, change)?;
        self.with.links_mut(below, change)
    }
}

impl<N> Links<N> for ExportDecl<N> {
    ghost mapped = { map_export_decl };

    fn links_mut<C, B: Below<N, C>>(&mut self, below: &B, change: &mut C) -> Result<(), Stop> {
        self.decl.links_mut(below, change)
    }
}

impl<N> Links<N> for ExportNamespaceSpecifier {
    ghost mapped = { λ g f. map_export_namespace_specifier g };

    fn links_mut<C, B: Below<N, C>>(&mut self, below: &B, change: &mut C) -> Result<(), Stop> {
        self.name.links_mut(below, change)
    }
}

impl<N> Links<N> for ExportDefaultSpecifier {
    ghost mapped = { λ g f. map_export_default_specifier g };

    fn links_mut<C, B: Below<N, C>>(&mut self, below: &B, change: &mut C) -> Result<(), Stop> {
        self.exported.links_mut(below, change)
    }
}

impl<N> Links<N> for ExportNamedSpecifier {
    ghost mapped = { λ g f. map_export_named_specifier g };

    fn links_mut<C, B: Below<N, C>>(&mut self, below: &B, change: &mut C) -> Result<(), Stop> {
        self.orig.links_mut(below, change)?;
        self.exported.links_mut(below, change)
    }
}

impl<N> Links<N> for ExportSpecifier {
    ghost mapped = { λ g f. map_export_specifier g };

    fn links_mut<C, B: Below<N, C>>(&mut self, below: &B, change: &mut C) -> Result<(), Stop> {
        match self {
            ExportSpecifier::Namespace(node) => node.links_mut(below, change),
            ExportSpecifier::Default(node) => node.links_mut(below, change),
            ExportSpecifier::Named(node) => node.links_mut(below, change),
        }
    }
}

impl<N> Links<N> for NamedExport<N> {
    ghost mapped = { map_named_export };

    fn links_mut<C, B: Below<N, C>>(&mut self, below: &B, change: &mut C) -> Result<(), Stop> {
        self.specifiers.links_mut(below, change)?;
        self.with.links_mut(below, change)
    }
}

impl<N> Links<N> for DefaultDecl<N> {
    ghost mapped = { map_default_decl };

    fn links_mut<C, B: Below<N, C>>(&mut self, below: &B, change: &mut C) -> Result<(), Stop> {
        match self {
            DefaultDecl::Class(node) => node.links_mut(below, change),
            DefaultDecl::Fn(node) => node.links_mut(below, change),
            DefaultDecl::TsInterfaceDecl(node) => node.links_mut(below, change),
        }
    }
}

impl<N> Links<N> for ExportDefaultDecl<N> {
    ghost mapped = { map_export_default_decl };

    fn links_mut<C, B: Below<N, C>>(&mut self, below: &B, change: &mut C) -> Result<(), Stop> {
        self.decl.links_mut(below, change)
    }
}

impl<N> Links<N> for ExportDefaultExpr<N> {
    ghost mapped = { map_export_default_expr };

    fn links_mut<C, B: Below<N, C>>(&mut self, below: &B, change: &mut C) -> Result<(), Stop> {
        self.expr.links_mut(below, change)
    }
}

impl<N> Links<N> for ExportAll<N> {
    ghost mapped = { map_export_all };

    fn links_mut<C, B: Below<N, C>>(&mut self, below: &B, change: &mut C) -> Result<(), Stop> {
        self.with.links_mut(below, change)
    }
}

impl<N> Links<N> for ModuleDecl<N> {
    ghost mapped = { map_module_decl };

    fn links_mut<C, B: Below<N, C>>(&mut self, below: &B, change: &mut C) -> Result<(), Stop> {
        match self {
            ModuleDecl::Import(node) => node.links_mut(below, change),
            ModuleDecl::ExportDecl(node) => node.links_mut(below, change),
            ModuleDecl::ExportNamed(node) => node.links_mut(below, change),
            ModuleDecl::ExportDefaultDecl(node) => node.links_mut(below, change),
            ModuleDecl::ExportDefaultExpr(node) => node.links_mut(below, change),
            ModuleDecl::ExportAll(node) => node.links_mut(below, change),
            ModuleDecl::TsImportEquals(node) => node.links_mut(below, change),
            ModuleDecl::TsExportAssignment(node) => node.links_mut(below, change),
            ModuleDecl::TsNamespaceExport(node) => node.links_mut(below, change),
        }
    }
}

impl<N> Links<N> for ModuleItem<N> {
    ghost mapped = { map_module_item };

    fn links_mut<C, B: Below<N, C>>(&mut self, below: &B, change: &mut C) -> Result<(), Stop> {
        match self {
            ModuleItem::ModuleDecl(node) => node.links_mut(below, change),
            ModuleItem::Stmt(node) => node.links_mut(below, change),
        }
    }
}

impl<N> Links<N> for TsModuleBlock<N> {
    ghost mapped = { map_ts_module_block };

    fn links_mut<C, B: Below<N, C>>(&mut self, below: &B, change: &mut C) -> Result<(), Stop> {
        self.body.links_mut(below, change)
    }
}

impl<N> Links<N> for TsNamespaceDecl<N> {
    ghost mapped = { map_ts_namespace_decl };

    fn links_mut<C, B: Below<N, C>>(&mut self, below: &B, change: &mut C) -> Result<(), Stop> {
        self.id.links_mut(below, change)?;
        self.body.links_mut(below, change)
    }
}

impl<N> Links<N> for TsNamespaceBody<N> {
    ghost mapped = { map_ts_namespace_body };

    fn links_mut<C, B: Below<N, C>>(&mut self, below: &B, change: &mut C) -> Result<(), Stop> {
        match self {
            TsNamespaceBody::TsModuleBlock(node) => node.links_mut(below, change),
            TsNamespaceBody::TsNamespaceDecl(node) => node.links_mut(below, change),
        }
    }
}

impl<N> Links<N> for Module<N> {
    ghost mapped = { map_module };

    fn links_mut<C, B: Below<N, C>>(&mut self, below: &B, change: &mut C) -> Result<(), Stop> {
        self.body.links_mut(below, change)
    }
}

impl<N> Links<N> for Script<N> {
    ghost mapped = { map_script };

    fn links_mut<C, B: Below<N, C>>(&mut self, below: &B, change: &mut C) -> Result<(), Stop> {
        self.body.links_mut(below, change)
    }
}

impl<N> Links<N> for Program<N> {
    ghost mapped = { map_program };

    fn links_mut<C, B: Below<N, C>>(&mut self, below: &B, change: &mut C) -> Result<(), Stop> {
        match self {
            Program::Module(node) => node.links_mut(below, change),
            Program::Script(node) => node.links_mut(below, change),
        }
    }
}
