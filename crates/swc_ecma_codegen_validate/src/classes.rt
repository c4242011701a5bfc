//! Classes and their members.

ghost use Rattle.std.specs.Prelude.{◌≡◌};
ghost use Rattle.swc_ecma_codegen_grammar.specs.Phrases.{is_possible};
ghost use Rattle.swc_ecma_codegen_grammar.specs.AnnotationPhrases.{field_annotation};
ghost use Rattle.swc_ecma_codegen_grammar.specs.ClassPhrases.{class_head, heritage, class_tail, class_decl, class_expr, ts_param_prop_param, ts_param_prop, constructor_param, class_constructor, method_decorators, method_tail, accessor_tail, tail_role, kind_head, class_method, private_method, prop_value, class_prop, private_prop, accessor_key, auto_accessor, static_block, class_member};

use crate::forms::{Fits, WellFormed, all_well_formed};
use crate::functions::{is_body, is_optional_name};
use crate::pats::is_initializer;
use swc_ecma_codegen_grammar::roles::Role;
use swc_ecma_codegen_tree::{
    AutoAccessor, Class, ClassDecl, ClassExpr, ClassMember, ClassMethod, ClassProp, Constructor,
    ExprBox, Function, FunctionBox, Key, MethodKind, ParamOrTsParamProp, PrivateMethod,
    PrivateProp, StaticBlock, TsParamProp, TsParamPropParam, TsTypeAnnBox,
    TsTypeParamInstantiationBox,
};

/// Whether what stands before the word of a class is well-formed.
#[tactic(auto, using(crate::proofs::ClassesPossible::class_head_possible))]
pub(crate) fn is_class_head<N: Fits>(node: &Class<N>) -> bool
    ensures { result ≡ is_possible (class_head N.reads node.now) }
{
    all_well_formed(&node.decorators)
}

/// Whether the class that is extended is well-formed with its arguments, or there is none.
#[tactic(auto, using(crate::proofs::ClassesPossible::none_extended, crate::proofs::ClassesPossible::one_extended))]
fn is_heritage<N: Fits>(
    super_class: &Option<ExprBox<N>>,
    args: &Option<TsTypeParamInstantiationBox<N>>,
) -> bool
    ensures { result ≡ is_possible (heritage N.reads super_class.now args.now) }
{
    match super_class {
        Some(super_class) => super_class.is_well_formed() && args.is_well_formed(),
        None => args.is_none(),
    }
}

impl<N: Fits> WellFormed for Class<N> {
    ghost phrase = { class_tail N.reads };

    #[tactic(auto, using(crate::proofs::ClassesPossible::class_tail_possible))]
    fn is_well_formed(&self) -> bool {
        self.type_params.is_well_formed()
            && is_heritage(&self.super_class, &self.super_type_params)
            && all_well_formed(&self.implements)
            && all_well_formed(&self.body)
    }
}

impl<N: Fits> WellFormed for ClassDecl<N> {
    ghost phrase = { class_decl N.reads };

    #[tactic(auto, using(crate::proofs::ClassesPossible::class_decl_possible))]
    fn is_well_formed(&self) -> bool {
        self.class.target().fits(Role::ClassHead)
            && self.class.target().fits(Role::ClassWord)
            && self.ident.is_well_formed()
            && self.class.target().fits(Role::ClassTail)
    }
}

impl<N: Fits> WellFormed for ClassExpr<N> {
    ghost phrase = { class_expr N.reads };

    #[tactic(auto, unfolding(swc_ecma_codegen_grammar::specs::ClassPhrases::class_expr, swc_ecma_codegen_grammar::specs::Phrases::is_possible))]
    fn is_well_formed(&self) -> bool {
        self.class.target().fits(Role::ClassHead)
            && self.class.target().fits(Role::ClassWord)
            && is_optional_name(&self.ident)
            && self.class.target().fits(Role::ClassTail)
    }
}

impl<N: Fits> WellFormed for ParamOrTsParamProp<N> {
    ghost phrase = { constructor_param N.reads };

    #[tactic(auto, unfolding(swc_ecma_codegen_grammar::specs::ClassPhrases::constructor_param, swc_ecma_codegen_grammar::specs::Phrases::is_possible))]
    fn is_well_formed(&self) -> bool {
        match self {
            ParamOrTsParamProp::Param(node) => node.is_well_formed(),
            ParamOrTsParamProp::TsParamProp(node) => node.is_well_formed(),
        }
    }
}

impl<N: Fits> WellFormed for TsParamPropParam<N> {
    ghost phrase = { ts_param_prop_param N.reads };

    #[tactic(auto, unfolding(swc_ecma_codegen_grammar::specs::ClassPhrases::ts_param_prop_param))]
    fn is_well_formed(&self) -> bool {
        match self {
            TsParamPropParam::Ident(node) => node.is_well_formed(),
            TsParamPropParam::Assign(node) => node.is_well_formed(),
        }
    }
}

impl<N: Fits> WellFormed for TsParamProp<N> {
    ghost phrase = { ts_param_prop N.reads };

    #[tactic(auto, using(crate::proofs::ClassesPossible::param_prop_possible))]
    fn is_well_formed(&self) -> bool {
        all_well_formed(&self.decorators) && self.param.is_well_formed()
    }
}

impl<N: Fits> WellFormed for Constructor<N> {
    ghost phrase = { class_constructor N.reads };

    #[tactic(auto, using(crate::proofs::ClassesPossible::constructor_possible))]
    fn is_well_formed(&self) -> bool {
        all_well_formed(&self.params) && is_body(&self.body)
    }
}

/// Whether the decorators of a method are well-formed.
#[tactic(auto, using(crate::proofs::ClassesPossible::method_decorators_possible))]
pub(crate) fn are_method_decorators<N: Fits>(node: &Function<N>) -> bool
    ensures { result ≡ is_possible (method_decorators N.reads node.now) }
{
    all_well_formed(&node.decorators)
}

/// Whether the rest of a method is well-formed.
#[tactic(auto, using(crate::proofs::ClassesPossible::method_tail_possible))]
pub(crate) fn is_method_tail<N: Fits>(node: &Function<N>) -> bool
    ensures { result ≡ is_possible (method_tail N.reads node.now) }
{
    node.type_params.is_well_formed()
        && all_well_formed(&node.params)
        && node.return_type.is_well_formed()
        && is_body(&node.body)
}

/// Whether the rest of a getter or a setter, which is neither async nor a generator, is
/// well-formed.
#[tactic(auto, using(crate::proofs::ClassesPossible::accessor_tail_possible))]
pub(crate) fn is_accessor_tail<N: Fits>(node: &Function<N>) -> bool
    ensures { result ≡ is_possible (accessor_tail N.reads node.now) }
{
    !node.is_async && !node.is_generator && is_method_tail(node)
}

/// Whether what stands behind the key of a method, a getter or a setter is well-formed.
#[tactic(auto, unfolding(swc_ecma_codegen_grammar::specs::ClassPhrases::tail_role))]
fn is_tail<N: Fits>(kind: MethodKind, function: &FunctionBox<N>) -> bool
    ensures { result ≡ is_possible (N.reads function.now.node.value (tail_role kind)) }
{
    match kind {
        MethodKind::Method => function.target().fits(Role::MethodTail),
        MethodKind::Getter | MethodKind::Setter => function.target().fits(Role::AccessorTail),
    }
}

/// Whether what stands before the key of a method is well-formed.
#[tactic(auto, unfolding(swc_ecma_codegen_grammar::specs::ClassPhrases::kind_head, swc_ecma_codegen_grammar::specs::Phrases::is_possible))]
fn is_kind_head<N: Fits>(kind: MethodKind, function: &FunctionBox<N>) -> bool
    ensures { result ≡ is_possible (kind_head N.reads kind function.now) }
{
    match kind {
        MethodKind::Method => function.target().fits(Role::MethodHead),
        MethodKind::Getter | MethodKind::Setter => true,
    }
}

impl<N: Fits> WellFormed for ClassMethod<N> {
    ghost phrase = { class_method N.reads };

    #[tactic(auto, using(crate::proofs::ClassesPossible::method_possible))]
    fn is_well_formed(&self) -> bool {
        self.function.target().fits(Role::MethodDecorators)
            && is_kind_head(self.kind, &self.function)
            && self.key.is_well_formed()
            && is_tail(self.kind, &self.function)
    }
}

impl<N: Fits> WellFormed for PrivateMethod<N> {
    ghost phrase = { private_method N.reads };

    #[tactic(auto, using(crate::proofs::ClassesPossible::private_method_possible))]
    fn is_well_formed(&self) -> bool {
        self.function.target().fits(Role::MethodDecorators)
            && is_kind_head(self.kind, &self.function)
            && self.key.is_well_formed()
            && is_tail(self.kind, &self.function)
    }
}

/// Whether the value of a field is well-formed, or there is none.
#[tactic(auto, unfolding(swc_ecma_codegen_grammar::specs::ClassPhrases::prop_value, swc_ecma_codegen_grammar::specs::Phrases::is_possible))]
fn is_prop_value<N: Fits>(value: &Option<ExprBox<N>>) -> bool
    ensures { result ≡ is_possible (prop_value N.reads value.now) }
{
    match value {
        Some(value) => value.target().fits(Role::FieldValue),
        None => true,
    }
}

/// Whether the type of a field is well-formed, or there is none: one that is said to have a value
/// has a type.
#[tactic(auto, using(crate::proofs::Annotations::field_none_possible, crate::proofs::Annotations::field_some_possible))]
fn is_field_annotation<N: Fits>(definite: bool, ty: &Option<TsTypeAnnBox<N>>) -> bool
    ensures { result ≡ is_possible (field_annotation N.reads definite ty.now) }
{
    match ty {
        Some(node) => node.is_well_formed(),
        None => !definite,
    }
}

impl<N: Fits> WellFormed for ClassProp<N> {
    ghost phrase = { class_prop N.reads };

    #[tactic(auto, using(crate::proofs::ClassesPossible::prop_possible))]
    fn is_well_formed(&self) -> bool {
        all_well_formed(&self.decorators)
            && self.key.is_well_formed()
            && is_field_annotation(self.definite, &self.type_ann)
            && is_prop_value(&self.value)
    }
}

impl<N: Fits> WellFormed for PrivateProp<N> {
    ghost phrase = { private_prop N.reads };

    #[tactic(auto, using(crate::proofs::ClassesPossible::private_prop_possible))]
    fn is_well_formed(&self) -> bool {
        all_well_formed(&self.decorators)
            && self.key.is_well_formed()
            && is_field_annotation(self.definite, &self.type_ann)
            && is_prop_value(&self.value)
    }
}

impl<N: Fits> WellFormed for Key<N> {
    ghost phrase = { accessor_key N.reads };

    #[tactic(auto, unfolding(swc_ecma_codegen_grammar::specs::ClassPhrases::accessor_key, swc_ecma_codegen_grammar::specs::Phrases::is_possible))]
    fn is_well_formed(&self) -> bool {
        match self {
            Key::Public(node) => node.is_well_formed(),
            Key::Private(node) => node.is_well_formed(),
        }
    }
}

impl<N: Fits> WellFormed for AutoAccessor<N> {
    ghost phrase = { auto_accessor N.reads };

    #[tactic(auto, using(crate::proofs::ClassesPossible::accessor_possible))]
    fn is_well_formed(&self) -> bool {
        all_well_formed(&self.decorators)
            && self.key.is_well_formed()
            && is_field_annotation(self.definite, &self.type_ann)
            && is_initializer(&self.value)
    }
}

impl<N: Fits> WellFormed for StaticBlock<N> {
    ghost phrase = { static_block N.reads };

    #[tactic(auto, unfolding(swc_ecma_codegen_grammar::specs::ClassPhrases::static_block, swc_ecma_codegen_grammar::specs::Phrases::is_possible))]
    fn is_well_formed(&self) -> bool {
        self.body.is_well_formed()
    }
}

impl<N: Fits> WellFormed for ClassMember<N> {
    ghost phrase = { class_member N.reads };

    #[tactic(auto, using(crate::proofs::ClassesPossible::index_member_possible), unfolding(swc_ecma_codegen_grammar::specs::ClassPhrases::class_member, swc_ecma_codegen_grammar::specs::Phrases::is_possible))]
    fn is_well_formed(&self) -> bool {
        match self {
            ClassMember::Constructor(node) => node.is_well_formed(),
            ClassMember::Method(node) => node.is_well_formed(),
            ClassMember::PrivateMethod(node) => node.is_well_formed(),
            ClassMember::ClassProp(node) => node.is_well_formed(),
            ClassMember::PrivateProp(node) => node.is_well_formed(),
            ClassMember::Empty(_) => true,
            ClassMember::StaticBlock(node) => node.is_well_formed(),
            ClassMember::AutoAccessor(node) => node.is_well_formed(),
            ClassMember::TsIndexSignature(node) => node.is_well_formed(),
        }
    }
}
