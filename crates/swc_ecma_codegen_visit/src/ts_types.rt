//! Links and names of types of TypeScript. Made by scripts/dev/make-visit-files.

ghost use Rattle.swc_ecma_codegen_visit.specs.MappedTsTypes.{map_ts_index_signature};
ghost use Rattle.swc_ecma_codegen_visit.specs.MappedTsTypes.{map_ts_fn_type};
ghost use Rattle.swc_ecma_codegen_visit.specs.MappedTsTypes.{map_ts_constructor_type};
ghost use Rattle.swc_ecma_codegen_visit.specs.MappedTsTypes.{map_ts_fn_or_constructor_type};
ghost use Rattle.swc_ecma_codegen_visit.specs.MappedTsTypes.{map_ts_type_ref, map_ts_import_type};
ghost use Rattle.swc_ecma_codegen_visit.specs.MappedTsTypes.{map_ts_type_query_expr};
ghost use Rattle.swc_ecma_codegen_visit.specs.MappedTsTypes.{map_ts_type_query};
ghost use Rattle.swc_ecma_codegen_visit.specs.MappedTsTypes.{map_ts_call_signature_decl};
ghost use Rattle.swc_ecma_codegen_visit.specs.MappedTsTypes.{map_ts_construct_signature_decl};
ghost use Rattle.swc_ecma_codegen_visit.specs.MappedTsTypes.{map_ts_property_signature};
ghost use Rattle.swc_ecma_codegen_visit.specs.MappedTsTypes.{map_ts_getter_signature};
ghost use Rattle.swc_ecma_codegen_visit.specs.MappedTsTypes.{map_ts_setter_signature};
ghost use Rattle.swc_ecma_codegen_visit.specs.MappedTsTypes.{map_ts_method_signature};
ghost use Rattle.swc_ecma_codegen_visit.specs.MappedTsTypes.{map_ts_type_element, map_ts_type_lit};
ghost use Rattle.swc_ecma_codegen_visit.specs.MappedTsTypes.{map_ts_array_type};
ghost use Rattle.swc_ecma_codegen_visit.specs.MappedTsTypes.{map_ts_tuple_element};
ghost use Rattle.swc_ecma_codegen_visit.specs.MappedTsTypes.{map_ts_tuple_type};
ghost use Rattle.swc_ecma_codegen_visit.specs.MappedTsTypes.{map_ts_optional_type};
ghost use Rattle.swc_ecma_codegen_visit.specs.MappedTsTypes.{map_ts_rest_type, map_ts_union_type};
ghost use Rattle.swc_ecma_codegen_visit.specs.MappedTsTypes.{map_ts_intersection_type};
ghost use Rattle.swc_ecma_codegen_visit.specs.MappedTsTypes.{map_ts_union_or_intersection_type};
ghost use Rattle.swc_ecma_codegen_visit.specs.MappedTsTypes.{map_ts_conditional_type};
ghost use Rattle.swc_ecma_codegen_visit.specs.MappedTsTypes.{map_ts_type_param, map_ts_infer_type};
ghost use Rattle.swc_ecma_codegen_visit.specs.MappedTsTypes.{map_ts_parenthesized_type};
ghost use Rattle.swc_ecma_codegen_visit.specs.MappedTsTypes.{map_ts_type_operator};
ghost use Rattle.swc_ecma_codegen_visit.specs.MappedTsTypes.{map_ts_indexed_access_type};
ghost use Rattle.swc_ecma_codegen_visit.specs.MappedTsTypes.{map_ts_mapped_type};
ghost use Rattle.swc_ecma_codegen_visit.specs.MappedTsTypes.{map_ts_tpl_lit_type, map_ts_lit};
ghost use Rattle.swc_ecma_codegen_visit.specs.MappedTsTypes.{map_ts_lit_type};
ghost use Rattle.swc_ecma_codegen_visit.specs.MappedTsTypes.{map_ts_this_type_or_ident};
ghost use Rattle.swc_ecma_codegen_visit.specs.MappedTsTypes.{map_ts_type_predicate, map_ts_type};
ghost use Rattle.swc_ecma_codegen_visit.specs.MappedTsTypes.{map_ts_type_ann};
ghost use Rattle.swc_ecma_codegen_visit.specs.MappedTsTypes.{map_ts_type_param_decl};
ghost use Rattle.swc_ecma_codegen_visit.specs.MappedTsTypes.{map_ts_type_param_instantiation};
ghost use Rattle.swc_ecma_codegen_visit.specs.MappedTsTypes.{map_ts_fn_param};
ghost use Rattle.swc_ecma_codegen_visit.specs.MappedTsTypes.{map_ts_interface_body};
ghost use Rattle.swc_ecma_codegen_visit.specs.MappedTsTypes.{map_ts_qualified_name};
ghost use Rattle.swc_ecma_codegen_visit.specs.MappedTsTypes.{map_ts_entity_name};

use crate::below::{Below, Links, Stop};
use swc_ecma_codegen_tree::{
    TsArrayType, TsCallSignatureDecl, TsConditionalType, TsConstructSignatureDecl,
    TsConstructorType, TsEntityName, TsFnOrConstructorType, TsFnParam, TsFnType, TsGetterSignature,
    TsImportType, TsIndexSignature, TsIndexedAccessType, TsInferType, TsInterfaceBody,
    TsIntersectionType, TsLit, TsLitType, TsMappedType, TsMethodSignature, TsOptionalType,
    TsParenthesizedType, TsPropertySignature, TsQualifiedName, TsRestType, TsSetterSignature,
    TsThisTypeOrIdent, TsTplLitType, TsTupleElement, TsTupleType, TsType, TsTypeAnn, TsTypeElement,
    TsTypeLit, TsTypeOperator, TsTypeParam, TsTypeParamDecl, TsTypeParamInstantiation,
    TsTypePredicate, TsTypeQuery, TsTypeQueryExpr, TsTypeRef, TsUnionOrIntersectionType,
    TsUnionType,
};

impl<N> Links<N> for TsIndexSignature<N> {
    ghost mapped = { map_ts_index_signature };

    fn links_mut<C, B: Below<N, C>>(&mut self, below: &B, change: &mut C) -> Result<(), Stop> {
        self.params.links_mut(below, change)?;
        self.type_ann.links_mut(below, change)
    }
}

impl<N> Links<N> for TsFnType<N> {
    ghost mapped = { map_ts_fn_type };

    fn links_mut<C, B: Below<N, C>>(&mut self, below: &B, change: &mut C) -> Result<(), Stop> {
        self.params.links_mut(below, change)?;
        self.type_params.links_mut(below, change)?;
        self.type_ann.links_mut(below, change)
    }
}

impl<N> Links<N> for TsConstructorType<N> {
    ghost mapped = { map_ts_constructor_type };

    fn links_mut<C, B: Below<N, C>>(&mut self, below: &B, change: &mut C) -> Result<(), Stop> {
        self.params.links_mut(below, change)?;
        self.type_params.links_mut(below, change)?;
        self.type_ann.links_mut(below, change)
    }
}

impl<N> Links<N> for TsFnOrConstructorType<N> {
    ghost mapped = { map_ts_fn_or_constructor_type };

    fn links_mut<C, B: Below<N, C>>(&mut self, below: &B, change: &mut C) -> Result<(), Stop> {
        match self {
            TsFnOrConstructorType::TsFnType(node) => node.links_mut(below, change),
            TsFnOrConstructorType::TsConstructorType(node) => node.links_mut(below, change),
        }
    }
}

impl<N> Links<N> for TsTypeRef<N> {
    ghost mapped = { map_ts_type_ref };

    fn links_mut<C, B: Below<N, C>>(&mut self, below: &B, change: &mut C) -> Result<(), Stop> {
        self.type_name.links_mut(below, change)?;
        self.type_params.links_mut(below, change)
    }
}

impl<N> Links<N> for TsImportType<N> {
    ghost mapped = { map_ts_import_type };

    fn links_mut<C, B: Below<N, C>>(&mut self, below: &B, change: &mut C) -> Result<(), Stop> {
        self.qualifier.links_mut(below, change)?;
        self.type_args.links_mut(below, change)
    }
}

impl<N> Links<N> for TsTypeQueryExpr<N> {
    ghost mapped = { map_ts_type_query_expr };

    fn links_mut<C, B: Below<N, C>>(&mut self, below: &B, change: &mut C) -> Result<(), Stop> {
        match self {
            TsTypeQueryExpr::TsEntityName(node) => node.links_mut(below, change),
            TsTypeQueryExpr::Import(node) => node.links_mut(below, change),
        }
    }
}

impl<N> Links<N> for TsTypeQuery<N> {
    ghost mapped = { map_ts_type_query };

    fn links_mut<C, B: Below<N, C>>(&mut self, below: &B, change: &mut C) -> Result<(), Stop> {
        self.expr_name.links_mut(below, change)?;
        self.type_args.links_mut(below, change)
    }
}

impl<N> Links<N> for TsCallSignatureDecl<N> {
    ghost mapped = { map_ts_call_signature_decl };

    fn links_mut<C, B: Below<N, C>>(&mut self, below: &B, change: &mut C) -> Result<(), Stop> {
        self.params.links_mut(below, change)?;
        self.type_ann.links_mut(below, change)?;
        self.type_params.links_mut(below, change)
    }
}

impl<N> Links<N> for TsConstructSignatureDecl<N> {
    ghost mapped = { map_ts_construct_signature_decl };

    fn links_mut<C, B: Below<N, C>>(&mut self, below: &B, change: &mut C) -> Result<(), Stop> {
        self.params.links_mut(below, change)?;
        self.type_ann.links_mut(below, change)?;
        self.type_params.links_mut(below, change)
    }
}

impl<N> Links<N> for TsPropertySignature<N> {
    ghost mapped = { map_ts_property_signature };

    fn links_mut<C, B: Below<N, C>>(&mut self, below: &B, change: &mut C) -> Result<(), Stop> {
        self.key.links_mut(below, change)?;
        self.type_ann.links_mut(below, change)
    }
}

impl<N> Links<N> for TsGetterSignature<N> {
    ghost mapped = { map_ts_getter_signature };

    fn links_mut<C, B: Below<N, C>>(&mut self, below: &B, change: &mut C) -> Result<(), Stop> {
        self.key.links_mut(below, change)?;
        self.type_ann.links_mut(below, change)
    }
}

impl<N> Links<N> for TsSetterSignature<N> {
    ghost mapped = { map_ts_setter_signature };

    fn links_mut<C, B: Below<N, C>>(&mut self, below: &B, change: &mut C) -> Result<(), Stop> {
        self.key.links_mut(below, change)?;
        self.param.links_mut(below, change)
    }
}

impl<N> Links<N> for TsMethodSignature<N> {
    ghost mapped = { map_ts_method_signature };

    fn links_mut<C, B: Below<N, C>>(&mut self, below: &B, change: &mut C) -> Result<(), Stop> {
        self.key.links_mut(below, change)?;
        self.params.links_mut(below, change)?;
        self.type_ann.links_mut(below, change)?;
        self.type_params.links_mut(below, change)
    }
}

impl<N> Links<N> for TsTypeElement<N> {
    ghost mapped = { map_ts_type_element };

    fn links_mut<C, B: Below<N, C>>(&mut self, below: &B, change: &mut C) -> Result<(), Stop> {
        match self {
            TsTypeElement::TsCallSignatureDecl(node) => node.links_mut(below, change),
            TsTypeElement::TsConstructSignatureDecl(node) => node.links_mut(below, change),
            TsTypeElement::TsPropertySignature(node) => node.links_mut(below, change),
            TsTypeElement::TsGetterSignature(node) => node.links_mut(below, change),
            TsTypeElement::TsSetterSignature(node) => node.links_mut(below, change),
            TsTypeElement::TsMethodSignature(node) => node.links_mut(below, change),
            TsTypeElement::TsIndexSignature(node) => node.links_mut(below, change),
        }
    }
}

impl<N> Links<N> for TsTypeLit<N> {
    ghost mapped = { map_ts_type_lit };

    fn links_mut<C, B: Below<N, C>>(&mut self, below: &B, change: &mut C) -> Result<(), Stop> {
        self.members.links_mut(below, change)
    }
}

impl<N> Links<N> for TsArrayType<N> {
    ghost mapped = { map_ts_array_type };

    fn links_mut<C, B: Below<N, C>>(&mut self, below: &B, change: &mut C) -> Result<(), Stop> {
        self.elem_type.links_mut(below, change)
    }
}

impl<N> Links<N> for TsTupleElement<N> {
    ghost mapped = { map_ts_tuple_element };

    fn links_mut<C, B: Below<N, C>>(&mut self, below: &B, change: &mut C) -> Result<(), Stop> {
        self.label.links_mut(below, change)?;
        self.ty.links_mut(below, change)
    }
}

impl<N> Links<N> for TsTupleType<N> {
    ghost mapped = { map_ts_tuple_type };

    fn links_mut<C, B: Below<N, C>>(&mut self, below: &B, change: &mut C) -> Result<(), Stop> {
        self.elem_types.links_mut(below, change)
    }
}

impl<N> Links<N> for TsOptionalType<N> {
    ghost mapped = { map_ts_optional_type };

    fn links_mut<C, B: Below<N, C>>(&mut self, below: &B, change: &mut C) -> Result<(), Stop> {
        self.type_ann.links_mut(below, change)
    }
}

impl<N> Links<N> for TsRestType<N> {
    ghost mapped = { map_ts_rest_type };

    fn links_mut<C, B: Below<N, C>>(&mut self, below: &B, change: &mut C) -> Result<(), Stop> {
        self.type_ann.links_mut(below, change)
    }
}

impl<N> Links<N> for TsUnionType<N> {
    ghost mapped = { map_ts_union_type };

    fn links_mut<C, B: Below<N, C>>(&mut self, below: &B, change: &mut C) -> Result<(), Stop> {
        self.types.links_mut(below, change)
    }
}

impl<N> Links<N> for TsIntersectionType<N> {
    ghost mapped = { map_ts_intersection_type };

    fn links_mut<C, B: Below<N, C>>(&mut self, below: &B, change: &mut C) -> Result<(), Stop> {
        self.types.links_mut(below, change)
    }
}

impl<N> Links<N> for TsUnionOrIntersectionType<N> {
    ghost mapped = { map_ts_union_or_intersection_type };

    fn links_mut<C, B: Below<N, C>>(&mut self, below: &B, change: &mut C) -> Result<(), Stop> {
        match self {
            TsUnionOrIntersectionType::TsUnionType(node) => node.links_mut(below, change),
            TsUnionOrIntersectionType::TsIntersectionType(node) => node.links_mut(below, change),
        }
    }
}

impl<N> Links<N> for TsConditionalType<N> {
    ghost mapped = { map_ts_conditional_type };

    fn links_mut<C, B: Below<N, C>>(&mut self, below: &B, change: &mut C) -> Result<(), Stop> {
        self.check_type.links_mut(below, change)?;
        self.extends_type.links_mut(below, change)?;
        self.true_type.links_mut(below, change)?;
        self.false_type.links_mut(below, change)
    }
}

impl<N> Links<N> for TsTypeParam<N> {
    ghost mapped = { map_ts_type_param };

    fn links_mut<C, B: Below<N, C>>(&mut self, below: &B, change: &mut C) -> Result<(), Stop> {
        self.name.links_mut(below, change)?;
        self.constraint.links_mut(below, change)?;
        self.default.links_mut(below, change)
    }
}

impl<N> Links<N> for TsInferType<N> {
    ghost mapped = { map_ts_infer_type };

    fn links_mut<C, B: Below<N, C>>(&mut self, below: &B, change: &mut C) -> Result<(), Stop> {
        self.type_param.links_mut(below, change)
    }
}

impl<N> Links<N> for TsParenthesizedType<N> {
    ghost mapped = { map_ts_parenthesized_type };

    fn links_mut<C, B: Below<N, C>>(&mut self, below: &B, change: &mut C) -> Result<(), Stop> {
        self.type_ann.links_mut(below, change)
    }
}

impl<N> Links<N> for TsTypeOperator<N> {
    ghost mapped = { map_ts_type_operator };

    fn links_mut<C, B: Below<N, C>>(&mut self, below: &B, change: &mut C) -> Result<(), Stop> {
        self.type_ann.links_mut(below, change)
    }
}

impl<N> Links<N> for TsIndexedAccessType<N> {
    ghost mapped = { map_ts_indexed_access_type };

    fn links_mut<C, B: Below<N, C>>(&mut self, below: &B, change: &mut C) -> Result<(), Stop> {
        self.obj_type.links_mut(below, change)?;
        self.index_type.links_mut(below, change)
    }
}

impl<N> Links<N> for TsMappedType<N> {
    ghost mapped = { map_ts_mapped_type };

    fn links_mut<C, B: Below<N, C>>(&mut self, below: &B, change: &mut C) -> Result<(), Stop> {
        self.type_param.links_mut(below, change)?;
        self.name_type.links_mut(below, change)?;
        self.type_ann.links_mut(below, change)
    }
}

impl<N> Links<N> for TsTplLitType<N> {
    ghost mapped = { map_ts_tpl_lit_type };

    fn links_mut<C, B: Below<N, C>>(&mut self, below: &B, change: &mut C) -> Result<(), Stop> {
        self.types.links_mut(below, change)
    }
}

impl<N> Links<N> for TsLit<N> {
    ghost mapped = { map_ts_lit };

    fn links_mut<C, B: Below<N, C>>(&mut self, below: &B, change: &mut C) -> Result<(), Stop> {
        match self {
            TsLit::Tpl(node) => node.links_mut(below, change),
            TsLit::Number(_) | TsLit::Str(_) | TsLit::Bool(_) | TsLit::BigInt(_) => Ok(()),
        }
    }
}

impl<N> Links<N> for TsLitType<N> {
    ghost mapped = { map_ts_lit_type };

    fn links_mut<C, B: Below<N, C>>(&mut self, below: &B, change: &mut C) -> Result<(), Stop> {
        self.lit.links_mut(below, change)
    }
}

impl<N> Links<N> for TsThisTypeOrIdent {
    ghost mapped = { λ g f. map_ts_this_type_or_ident g };

    fn links_mut<C, B: Below<N, C>>(&mut self, below: &B, change: &mut C) -> Result<(), Stop> {
        match self {
            TsThisTypeOrIdent::Ident(node) => node.links_mut(below, change),
            TsThisTypeOrIdent::TsThisType(_) => Ok(()),
        }
    }
}

impl<N> Links<N> for TsTypePredicate<N> {
    ghost mapped = { map_ts_type_predicate };

    fn links_mut<C, B: Below<N, C>>(&mut self, below: &B, change: &mut C) -> Result<(), Stop> {
        self.param_name.links_mut(below, change)?;
        self.type_ann.links_mut(below, change)
    }
}

impl<N> Links<N> for TsType<N> {
    ghost mapped = { map_ts_type };

    fn links_mut<C, B: Below<N, C>>(&mut self, below: &B, change: &mut C) -> Result<(), Stop> {
        match self {
            TsType::TsFnOrConstructorType(node) => node.links_mut(below, change),
            TsType::TsTypeRef(node) => node.links_mut(below, change),
            TsType::TsTypeQuery(node) => node.links_mut(below, change),
            TsType::TsTypeLit(node) => node.links_mut(below, change),
            TsType::TsArrayType(node) => node.links_mut(below, change),
            TsType::TsTupleType(node) => node.links_mut(below, change),
            TsType::TsOptionalType(node) => node.links_mut(below, change),
            TsType::TsRestType(node) => node.links_mut(below, change),
            TsType::TsUnionOrIntersectionType(node) => node.links_mut(below, change),
            TsType::TsConditionalType(node) => node.links_mut(below, change),
            TsType::TsInferType(node) => node.links_mut(below, change),
            TsType::TsParenthesizedType(node) => node.links_mut(below, change),
            TsType::TsTypeOperator(node) => node.links_mut(below, change),
            TsType::TsIndexedAccessType(node) => node.links_mut(below, change),
            TsType::TsMappedType(node) => node.links_mut(below, change),
            TsType::TsLitType(node) => node.links_mut(below, change),
            TsType::TsTypePredicate(node) => node.links_mut(below, change),
            TsType::TsImportType(node) => node.links_mut(below, change),
            TsType::TsKeywordType(_) | TsType::TsThisType(_) => Ok(()),
        }
    }
}

impl<N> Links<N> for TsTypeAnn<N> {
    ghost mapped = { map_ts_type_ann };

    fn links_mut<C, B: Below<N, C>>(&mut self, below: &B, change: &mut C) -> Result<(), Stop> {
        self.type_ann.links_mut(below, change)
    }
}

impl<N> Links<N> for TsTypeParamDecl<N> {
    ghost mapped = { map_ts_type_param_decl };

    fn links_mut<C, B: Below<N, C>>(&mut self, below: &B, change: &mut C) -> Result<(), Stop> {
        self.params.links_mut(below, change)
    }
}

impl<N> Links<N> for TsTypeParamInstantiation<N> {
    ghost mapped = { map_ts_type_param_instantiation };

    fn links_mut<C, B: Below<N, C>>(&mut self, below: &B, change: &mut C) -> Result<(), Stop> {
        self.params.links_mut(below, change)
    }
}

impl<N> Links<N> for TsFnParam<N> {
    ghost mapped = { map_ts_fn_param };

    fn links_mut<C, B: Below<N, C>>(&mut self, below: &B, change: &mut C) -> Result<(), Stop> {
        match self {
            TsFnParam::Ident(node) => node.links_mut(below, change),
            TsFnParam::Array(node) => node.links_mut(below, change),
            TsFnParam::Rest(node) => node.links_mut(below, change),
            TsFnParam::Object(node) => node.links_mut(below, change),
        }
    }
}

impl<N> Links<N> for TsInterfaceBody<N> {
    ghost mapped = { map_ts_interface_body };

    fn links_mut<C, B: Below<N, C>>(&mut self, below: &B, change: &mut C) -> Result<(), Stop> {
        self.body.links_mut(below, change)
    }
}

impl<N> Links<N> for TsQualifiedName<N> {
    ghost mapped = { map_ts_qualified_name };

    fn links_mut<C, B: Below<N, C>>(&mut self, below: &B, change: &mut C) -> Result<(), Stop> {
        self.left.links_mut(below, change)
    }
}

impl<N> Links<N> for TsEntityName<N> {
    ghost mapped = { map_ts_entity_name };

    fn links_mut<C, B: Below<N, C>>(&mut self, below: &B, change: &mut C) -> Result<(), Stop> {
        match self {
            TsEntityName::TsQualifiedName(node) => node.links_mut(below, change),
            TsEntityName::Ident(node) => node.links_mut(below, change),
        }
    }
}
