//! Declarations of TypeScript.

use crate::objects::Both;
use crate::reading::{Make, ReadFrom, Variant, Whole, members};
use crate::source::{Failed, Source};
use crate::{held, made, names, values};
use serde::Name;
use swc_ecma_codegen_common::Span;
use swc_ecma_codegen_tree::{
    ExprBox, Ident, ModuleItem, Str, TsEnumDecl, TsEnumMember, TsEnumMemberId, TsExportAssignment,
    TsExprWithTypeArgs, TsExternalModuleRef, TsImportEqualsDecl, TsInterfaceBodyBox,
    TsInterfaceDecl, TsModuleBlock, TsModuleDecl, TsModuleName, TsModuleRef, TsNamespaceBody,
    TsNamespaceBodyBox, TsNamespaceDecl, TsNamespaceExportDecl, TsTypeAliasDecl, TsTypeBox,
    TsTypeParamDeclBox,
};

impl<N: Drop> ReadFrom<N> for TsInterfaceDecl<N> {
    type Parts = Both<
        (Span, (Ident, (bool, ()))),
        (
            Option<TsTypeParamDeclBox<N>>,
            (Vec<TsExprWithTypeArgs<N>>, (TsInterfaceBodyBox<N>, ())),
        ),
    >;

    fn names() -> &'static [Name<'static>] {
        names!(span, id, declare, type_params, extends, body)
    }

    fn of<S: Source, M: Make<N>>(
        values: Self::Parts,
        _source: &mut S,
        _make: &M,
    ) -> Result<TsInterfaceDecl<N>, Failed> {
        made!(values => TsInterfaceDecl { span, id, declare; type_params, extends, body })
    }
}

impl<N: Drop> ReadFrom<N> for TsTypeAliasDecl<N> {
    type Parts = Both<
        (Span, (bool, (Ident, ()))),
        (Option<TsTypeParamDeclBox<N>>, (TsTypeBox<N>, ())),
    >;

    fn names() -> &'static [Name<'static>] {
        names!(span, declare, id, type_params, type_ann)
    }

    fn of<S: Source, M: Make<N>>(
        values: Self::Parts,
        _source: &mut S,
        _make: &M,
    ) -> Result<TsTypeAliasDecl<N>, Failed> {
        made!(values => TsTypeAliasDecl { span, declare, id; type_params, type_ann })
    }
}

impl<N: Drop> ReadFrom<N> for TsEnumDecl<N> {
    type Parts = Both<(Span, (bool, (bool, ()))), (Ident, (Vec<TsEnumMember<N>>, ()))>;

    fn names() -> &'static [Name<'static>] {
        names!(span, declare, is_const, id, members)
    }

    fn of<S: Source, M: Make<N>>(
        values: Self::Parts,
        _source: &mut S,
        _make: &M,
    ) -> Result<TsEnumDecl<N>, Failed> {
        made!(values => TsEnumDecl { span, declare, is_const; id, members })
    }
}

impl<N: Drop> ReadFrom<N> for TsEnumMember<N> {
    type Parts = Whole;

    fn of<S: Source, M: Make<N>>(
        _whole: Whole,
        source: &mut S,
        make: &M,
    ) -> Result<TsEnumMember<N>, Failed> {
        let values!(span, id, init) = members(names!(span, id, init), source, make)?;
        Ok(TsEnumMember { span, id, init })
    }
}

impl<N: Drop> ReadFrom<N> for TsEnumMemberId {
    type Parts = Variant;

    fn names() -> &'static [Name<'static>] {
        names!(Ident, Str)
    }

    fn of<S: Source, M: Make<N>>(
        variant: Variant,
        source: &mut S,
        make: &M,
    ) -> Result<TsEnumMemberId, Failed> {
        held!(variant, source, make => TsEnumMemberId { Ident, Str })
    }
}

impl<N: Drop> ReadFrom<N> for TsModuleDecl<N> {
    type Parts = Both<
        (Span, (bool, (bool, ()))),
        (TsModuleName, (Option<TsNamespaceBodyBox<N>>, ())),
    >;

    fn names() -> &'static [Name<'static>] {
        names!(span, declare, global, id, body)
    }

    fn of<S: Source, M: Make<N>>(
        values: Self::Parts,
        _source: &mut S,
        _make: &M,
    ) -> Result<TsModuleDecl<N>, Failed> {
        made!(values => TsModuleDecl { span, declare, global; id, body })
    }
}

impl<N: Drop> ReadFrom<N> for TsModuleName {
    type Parts = Variant;

    fn names() -> &'static [Name<'static>] {
        names!(Ident, Str)
    }

    fn of<S: Source, M: Make<N>>(
        variant: Variant,
        source: &mut S,
        make: &M,
    ) -> Result<TsModuleName, Failed> {
        held!(variant, source, make => TsModuleName { Ident, Str })
    }
}

impl<N: Drop> ReadFrom<N> for TsNamespaceBody<N> {
    type Parts = Variant;

    fn names() -> &'static [Name<'static>] {
        names!(TsModuleBlock, TsNamespaceDecl)
    }

    fn of<S: Source, M: Make<N>>(
        variant: Variant,
        source: &mut S,
        make: &M,
    ) -> Result<TsNamespaceBody<N>, Failed> {
        held!(variant, source, make => TsNamespaceBody {
            TsModuleBlock, TsNamespaceDecl,
        })
    }
}

impl<N: Drop> ReadFrom<N> for TsModuleBlock<N> {
    type Parts = (Span, (Vec<ModuleItem<N>>, ()));

    fn names() -> &'static [Name<'static>] {
        names!(span, body)
    }

    fn of<S: Source, M: Make<N>>(
        values: Self::Parts,
        _source: &mut S,
        _make: &M,
    ) -> Result<TsModuleBlock<N>, Failed> {
        made!(values => TsModuleBlock { span, body })
    }
}

impl<N: Drop> ReadFrom<N> for TsNamespaceDecl<N> {
    type Parts = (Span, (bool, (Ident, (TsNamespaceBodyBox<N>, ()))));

    fn names() -> &'static [Name<'static>] {
        names!(span, declare, id, body)
    }

    fn of<S: Source, M: Make<N>>(
        values: Self::Parts,
        _source: &mut S,
        _make: &M,
    ) -> Result<TsNamespaceDecl<N>, Failed> {
        made!(values => TsNamespaceDecl { span, declare, id, body })
    }
}

impl<N: Drop> ReadFrom<N> for TsImportEqualsDecl<N> {
    type Parts = Both<(Span, (bool, (bool, ()))), (Ident, (TsModuleRef<N>, ()))>;

    fn names() -> &'static [Name<'static>] {
        names!(span, is_export, is_type_only, id, module_ref)
    }

    fn of<S: Source, M: Make<N>>(
        values: Self::Parts,
        _source: &mut S,
        _make: &M,
    ) -> Result<TsImportEqualsDecl<N>, Failed> {
        made!(values => TsImportEqualsDecl { span, is_export, is_type_only; id, module_ref })
    }
}

impl<N: Drop> ReadFrom<N> for TsModuleRef<N> {
    type Parts = Variant;

    fn names() -> &'static [Name<'static>] {
        names!(TsEntityName, TsExternalModuleRef)
    }

    fn of<S: Source, M: Make<N>>(
        variant: Variant,
        source: &mut S,
        make: &M,
    ) -> Result<TsModuleRef<N>, Failed> {
        held!(variant, source, make => TsModuleRef { TsEntityName, TsExternalModuleRef })
    }
}

impl<N: Drop> ReadFrom<N> for TsExternalModuleRef {
    type Parts = (Span, (Str, ()));

    fn names() -> &'static [Name<'static>] {
        names!(span, expr)
    }

    fn of<S: Source, M: Make<N>>(
        values: Self::Parts,
        _source: &mut S,
        _make: &M,
    ) -> Result<TsExternalModuleRef, Failed> {
        made!(values => TsExternalModuleRef { span, expr })
    }
}

impl<N: Drop> ReadFrom<N> for TsExportAssignment<N> {
    type Parts = (Span, (ExprBox<N>, ()));

    fn names() -> &'static [Name<'static>] {
        names!(span, expr)
    }

    fn of<S: Source, M: Make<N>>(
        values: Self::Parts,
        _source: &mut S,
        _make: &M,
    ) -> Result<TsExportAssignment<N>, Failed> {
        made!(values => TsExportAssignment { span, expr })
    }
}

impl<N: Drop> ReadFrom<N> for TsNamespaceExportDecl {
    type Parts = (Span, (Ident, ()));

    fn names() -> &'static [Name<'static>] {
        names!(span, id)
    }

    fn of<S: Source, M: Make<N>>(
        values: Self::Parts,
        _source: &mut S,
        _make: &M,
    ) -> Result<TsNamespaceExportDecl, Failed> {
        made!(values => TsNamespaceExportDecl { span, id })
    }
}
