//! Programs, and the items of modules.

use crate::reading::{Make, ReadFrom, Variant};
use crate::source::{Failed, Source};
use crate::{held, made, names};
use serde::Name;
use swc_ecma_codegen_common::Span;
use swc_ecma_codegen_tree::{Module, ModuleDecl, ModuleItem, Program, Script, Stmt};

impl<N: Drop> ReadFrom<N> for Program<N> {
    type Parts = Variant;

    fn names() -> &'static [Name<'static>] {
        names!(Module, Script)
    }

    fn of<S: Source, M: Make<N>>(
        variant: Variant,
        source: &mut S,
        make: &M,
    ) -> Result<Program<N>, Failed> {
        held!(variant, source, make => Program { Module, Script })
    }
}

impl<N: Drop> ReadFrom<N> for Module<N> {
    type Parts = (Span, (Vec<ModuleItem<N>>, (Option<String>, ())));

    fn names() -> &'static [Name<'static>] {
        names!(span, body, shebang)
    }

    fn of<S: Source, M: Make<N>>(
        values: Self::Parts,
        _source: &mut S,
        _make: &M,
    ) -> Result<Module<N>, Failed> {
        made!(values => Module { span, body, shebang })
    }
}

impl<N: Drop> ReadFrom<N> for Script<N> {
    type Parts = (Span, (Vec<Stmt<N>>, (Option<String>, ())));

    fn names() -> &'static [Name<'static>] {
        names!(span, body, shebang)
    }

    fn of<S: Source, M: Make<N>>(
        values: Self::Parts,
        _source: &mut S,
        _make: &M,
    ) -> Result<Script<N>, Failed> {
        made!(values => Script { span, body, shebang })
    }
}

impl<N: Drop> ReadFrom<N> for ModuleItem<N> {
    type Parts = Variant;

    fn names() -> &'static [Name<'static>] {
        names!(ModuleDecl, Stmt)
    }

    fn of<S: Source, M: Make<N>>(
        variant: Variant,
        source: &mut S,
        make: &M,
    ) -> Result<ModuleItem<N>, Failed> {
        held!(variant, source, make => ModuleItem { ModuleDecl, Stmt })
    }
}

impl<N: Drop> ReadFrom<N> for ModuleDecl<N> {
    type Parts = Variant;

    fn names() -> &'static [Name<'static>] {
        names!(
            Import,
            ExportDecl,
            ExportNamed,
            ExportDefaultDecl,
            ExportDefaultExpr,
            ExportAll,
            TsImportEquals,
            TsExportAssignment,
            TsNamespaceExport
        )
    }

    fn of<S: Source, M: Make<N>>(
        variant: Variant,
        source: &mut S,
        make: &M,
    ) -> Result<ModuleDecl<N>, Failed> {
        held!(variant, source, make => ModuleDecl {
            Import, ExportDecl, ExportNamed, ExportDefaultDecl,
        } else other_module_decls)
    }
}

/// The other imports and exports.
#[inline(always)]
fn other_module_decls<N: Drop, S: Source, M: Make<N>>(
    variant: Variant,
    source: &mut S,
    make: &M,
) -> Result<ModuleDecl<N>, Failed> {
    held!(variant, source, make => ModuleDecl {
        ExportDefaultExpr, ExportAll, TsImportEquals, TsExportAssignment,
        TsNamespaceExport,
    })
}
