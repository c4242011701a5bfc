//! Imports and exports.

use crate::objects::Both;
use crate::reading::{Make, ReadFrom, Variant};
use crate::source::{Failed, Source};
use crate::{held, made, names};
use serde::Name;
use swc_ecma_codegen_common::Span;
use swc_ecma_codegen_tree::{
    DeclBox, DefaultDecl, ExportAll, ExportDecl, ExportDefaultDecl, ExportDefaultExpr,
    ExportDefaultSpecifier, ExportNamedSpecifier, ExportNamespaceSpecifier, ExportSpecifier,
    ExprBox, Ident, ImportDecl, ImportDefaultSpecifier, ImportNamedSpecifier, ImportPhase,
    ImportSpecifier, ImportStarAsSpecifier, ModuleExportName, NamedExport, ObjectLitBox, Str,
};

impl<N: Drop> ReadFrom<N> for ImportDecl<N> {
    type Parts = Both<
        (Span, (Vec<ImportSpecifier>, (Str, ()))),
        (bool, (Option<ObjectLitBox<N>>, (ImportPhase, ()))),
    >;

    fn names() -> &'static [Name<'static>] {
        names!(span, specifiers, src, type_only, with, phase)
    }

    fn of<S: Source, M: Make<N>>(
        values: Self::Parts,
        _source: &mut S,
        _make: &M,
    ) -> Result<ImportDecl<N>, Failed> {
        made!(values => ImportDecl { span, specifiers, src; type_only, with, phase })
    }
}

impl<N: Drop> ReadFrom<N> for ImportSpecifier {
    type Parts = Variant;

    fn names() -> &'static [Name<'static>] {
        names!(Named, Default, Namespace)
    }

    fn of<S: Source, M: Make<N>>(
        variant: Variant,
        source: &mut S,
        make: &M,
    ) -> Result<ImportSpecifier, Failed> {
        held!(variant, source, make => ImportSpecifier { Named, Default, Namespace })
    }
}

impl<N: Drop> ReadFrom<N> for ImportNamedSpecifier {
    type Parts = (Span, (Ident, (Option<ModuleExportName>, (bool, ()))));

    fn names() -> &'static [Name<'static>] {
        names!(span, local, imported, is_type_only)
    }

    fn of<S: Source, M: Make<N>>(
        values: Self::Parts,
        _source: &mut S,
        _make: &M,
    ) -> Result<ImportNamedSpecifier, Failed> {
        made!(values => ImportNamedSpecifier { span, local, imported, is_type_only })
    }
}

impl<N: Drop> ReadFrom<N> for ImportDefaultSpecifier {
    type Parts = (Span, (Ident, ()));

    fn names() -> &'static [Name<'static>] {
        names!(span, local)
    }

    fn of<S: Source, M: Make<N>>(
        values: Self::Parts,
        _source: &mut S,
        _make: &M,
    ) -> Result<ImportDefaultSpecifier, Failed> {
        made!(values => ImportDefaultSpecifier { span, local })
    }
}

impl<N: Drop> ReadFrom<N> for ImportStarAsSpecifier {
    type Parts = (Span, (Ident, ()));

    fn names() -> &'static [Name<'static>] {
        names!(span, local)
    }

    fn of<S: Source, M: Make<N>>(
        values: Self::Parts,
        _source: &mut S,
        _make: &M,
    ) -> Result<ImportStarAsSpecifier, Failed> {
        made!(values => ImportStarAsSpecifier { span, local })
    }
}

impl<N: Drop> ReadFrom<N> for ExportDecl<N> {
    type Parts = (Span, (DeclBox<N>, ()));

    fn names() -> &'static [Name<'static>] {
        names!(span, decl)
    }

    fn of<S: Source, M: Make<N>>(
        values: Self::Parts,
        _source: &mut S,
        _make: &M,
    ) -> Result<ExportDecl<N>, Failed> {
        made!(values => ExportDecl { span, decl })
    }
}

impl<N: Drop> ReadFrom<N> for NamedExport<N> {
    type Parts = Both<
        (Span, (Vec<ExportSpecifier>, (Option<Str>, ()))),
        (bool, (Option<ObjectLitBox<N>>, ())),
    >;

    fn names() -> &'static [Name<'static>] {
        names!(span, specifiers, src, type_only, with)
    }

    fn of<S: Source, M: Make<N>>(
        values: Self::Parts,
        _source: &mut S,
        _make: &M,
    ) -> Result<NamedExport<N>, Failed> {
        made!(values => NamedExport { span, specifiers, src; type_only, with })
    }
}

impl<N: Drop> ReadFrom<N> for ExportSpecifier {
    type Parts = Variant;

    fn names() -> &'static [Name<'static>] {
        names!(Namespace, Default, Named)
    }

    fn of<S: Source, M: Make<N>>(
        variant: Variant,
        source: &mut S,
        make: &M,
    ) -> Result<ExportSpecifier, Failed> {
        held!(variant, source, make => ExportSpecifier { Namespace, Default, Named })
    }
}

impl<N: Drop> ReadFrom<N> for ExportNamespaceSpecifier {
    type Parts = (Span, (ModuleExportName, ()));

    fn names() -> &'static [Name<'static>] {
        names!(span, name)
    }

    fn of<S: Source, M: Make<N>>(
        values: Self::Parts,
        _source: &mut S,
        _make: &M,
    ) -> Result<ExportNamespaceSpecifier, Failed> {
        made!(values => ExportNamespaceSpecifier { span, name })
    }
}

impl<N: Drop> ReadFrom<N> for ExportDefaultSpecifier {
    type Parts = (Span, (Ident, ()));

    fn names() -> &'static [Name<'static>] {
        names!(span, exported)
    }

    fn of<S: Source, M: Make<N>>(
        values: Self::Parts,
        _source: &mut S,
        _make: &M,
    ) -> Result<ExportDefaultSpecifier, Failed> {
        made!(values => ExportDefaultSpecifier { span, exported })
    }
}

impl<N: Drop> ReadFrom<N> for ExportNamedSpecifier {
    type Parts = (
        Span,
        (ModuleExportName, (Option<ModuleExportName>, (bool, ()))),
    );

    fn names() -> &'static [Name<'static>] {
        names!(span, orig, exported, is_type_only)
    }

    fn of<S: Source, M: Make<N>>(
        values: Self::Parts,
        _source: &mut S,
        _make: &M,
    ) -> Result<ExportNamedSpecifier, Failed> {
        made!(values => ExportNamedSpecifier { span, orig, exported, is_type_only })
    }
}

impl<N: Drop> ReadFrom<N> for ModuleExportName {
    type Parts = Variant;

    fn names() -> &'static [Name<'static>] {
        names!(Ident, Str)
    }

    fn of<S: Source, M: Make<N>>(
        variant: Variant,
        source: &mut S,
        make: &M,
    ) -> Result<ModuleExportName, Failed> {
        held!(variant, source, make => ModuleExportName { Ident, Str })
    }
}

impl<N: Drop> ReadFrom<N> for ExportDefaultDecl<N> {
    type Parts = (Span, (DefaultDecl<N>, ()));

    fn names() -> &'static [Name<'static>] {
        names!(span, decl)
    }

    fn of<S: Source, M: Make<N>>(
        values: Self::Parts,
        _source: &mut S,
        _make: &M,
    ) -> Result<ExportDefaultDecl<N>, Failed> {
        made!(values => ExportDefaultDecl { span, decl })
    }
}

impl<N: Drop> ReadFrom<N> for DefaultDecl<N> {
    type Parts = Variant;

    fn names() -> &'static [Name<'static>] {
        names!(Class, Fn, TsInterfaceDecl)
    }

    fn of<S: Source, M: Make<N>>(
        variant: Variant,
        source: &mut S,
        make: &M,
    ) -> Result<DefaultDecl<N>, Failed> {
        held!(variant, source, make => DefaultDecl {
            Class, Fn, TsInterfaceDecl,
        })
    }
}

impl<N: Drop> ReadFrom<N> for ExportDefaultExpr<N> {
    type Parts = (Span, (ExprBox<N>, ()));

    fn names() -> &'static [Name<'static>] {
        names!(span, expr)
    }

    fn of<S: Source, M: Make<N>>(
        values: Self::Parts,
        _source: &mut S,
        _make: &M,
    ) -> Result<ExportDefaultExpr<N>, Failed> {
        made!(values => ExportDefaultExpr { span, expr })
    }
}

impl<N: Drop> ReadFrom<N> for ExportAll<N> {
    type Parts = (Span, (Str, (bool, (Option<ObjectLitBox<N>>, ()))));

    fn names() -> &'static [Name<'static>] {
        names!(span, src, type_only, with)
    }

    fn of<S: Source, M: Make<N>>(
        values: Self::Parts,
        _source: &mut S,
        _make: &M,
    ) -> Result<ExportAll<N>, Failed> {
        made!(values => ExportAll { span, src, type_only, with })
    }
}
