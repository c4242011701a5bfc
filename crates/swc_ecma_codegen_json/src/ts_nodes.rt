//! Nodes of the sorts of TypeScript, as links hold them. A function each, since a check of one that
//! names the readers of many sorts is dear.

use crate::part;
use crate::reading::{Make, TsPartSort};
use crate::source::{Failed, Source};
use swc_ecma_codegen_tree::{
    TsEntityName, TsFnParam, TsInterfaceBody, TsNamespaceBody, TsPart, TsType, TsTypeAnn,
    TsTypeParamDecl, TsTypeParamInstantiation,
};

fn ts_type<N: Drop, S: Source, M: Make<N>>(source: &mut S, make: &M) -> Result<TsPart<N>, Failed> {
    part!(TsType, source, make)
}

fn ts_namespace_body<N: Drop, S: Source, M: Make<N>>(
    source: &mut S,
    make: &M,
) -> Result<TsPart<N>, Failed> {
    part!(TsNamespaceBody, source, make)
}

fn ts_type_ann<N: Drop, S: Source, M: Make<N>>(
    source: &mut S,
    make: &M,
) -> Result<TsPart<N>, Failed> {
    part!(TsTypeAnn, source, make)
}

fn ts_type_param_decl<N: Drop, S: Source, M: Make<N>>(
    source: &mut S,
    make: &M,
) -> Result<TsPart<N>, Failed> {
    part!(TsTypeParamDecl, source, make)
}

fn ts_type_param_instantiation<N: Drop, S: Source, M: Make<N>>(
    source: &mut S,
    make: &M,
) -> Result<TsPart<N>, Failed> {
    part!(TsTypeParamInstantiation, source, make)
}

fn ts_fn_param<N: Drop, S: Source, M: Make<N>>(
    source: &mut S,
    make: &M,
) -> Result<TsPart<N>, Failed> {
    part!(TsFnParam, source, make)
}

fn ts_interface_body<N: Drop, S: Source, M: Make<N>>(
    source: &mut S,
    make: &M,
) -> Result<TsPart<N>, Failed> {
    part!(TsInterfaceBody, source, make)
}

fn ts_entity_name<N: Drop, S: Source, M: Make<N>>(
    source: &mut S,
    make: &M,
) -> Result<TsPart<N>, Failed> {
    part!(TsEntityName, source, make)
}

/// A part of TypeScript by its sort, and all that lies below it.
pub fn read_ts_part<N: Drop, S: Source, M: Make<N>>(
    sort: TsPartSort,
    source: &mut S,
    make: &M,
) -> Result<TsPart<N>, Failed> {
    match sort {
        TsPartSort::TsType => ts_type(source, make),
        TsPartSort::TsNamespaceBody => ts_namespace_body(source, make),
        TsPartSort::TsTypeAnn => ts_type_ann(source, make),
        TsPartSort::TsTypeParamDecl => ts_type_param_decl(source, make),
        TsPartSort::TsTypeParamInstantiation => ts_type_param_instantiation(source, make),
        TsPartSort::TsFnParam => ts_fn_param(source, make),
        TsPartSort::TsInterfaceBody => ts_interface_body(source, make),
        TsPartSort::TsEntityName => ts_entity_name(source, make),
    }
}
