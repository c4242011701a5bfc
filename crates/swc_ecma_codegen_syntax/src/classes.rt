//! Classes.

ghost use Rattle.std.specs.Prelude.{◌≡◌, false};
ghost use Rattle.swc_ecma_codegen_syntax.specs.Forms.{Part, judge, ending_listed};
ghost use Rattle.swc_ecma_codegen_syntax.specs.declared.nonterminals.Nonterminal.TheVariants.{DecoratorList, ClassElement, PatternElement};
ghost use Rattle.swc_ecma_codegen_grammar.specs.ClassPhrases.{tail_role};
ghost use Rattle.swc_ecma_codegen_grammar.specs.declared.roles.Role.TheVariants.{Member, MethodDecorators};
ghost use Rattle.swc_ecma_codegen_syntax.specs.ClassForms.{accessor_key_form, accessor_value_form, auto_accessor_form, heritage_form, implements_form, members_form, plain_params_form, class_tail_form, class_decl_form, class_rest_form, class_expr_form, is_constructor_name, prop_name_nonterminal, key_of, accessibility_form, constructor_param_form, constructor_form, accessor_nonterminal, rest_of_accessor, accessor_form, tail_of, method_kind_form, method_form, private_method_form, field_value_form, field_type_form, field_form, private_field_form, static_block_form, member_of_class_form};

use crate::calls::type_args;
use crate::forms::{Answers, Stands, all};
use crate::functions::{
    block_body, body, bound_name, decorators, is_none_listed, optional_name, param, params,
    type_params,
};
use crate::names::is;
use crate::nonterminals::Nonterminal;
use crate::parameters::{
    Parameters, of_class, of_field, of_function, of_parameters, of_static_block,
};
use crate::pats::annotation;
use crate::verdicts::Verdict;
use swc_ecma_codegen_grammar::roles::Role;
use swc_ecma_codegen_tree::{
    Accessibility, AutoAccessor, Class, ClassDecl, ClassExpr, ClassMember, ClassMemberBox,
    ClassMethod, ClassProp, Constructor, ExprBox, Function, FunctionBox, Key, MethodKind, Param,
    ParamOrTsParamProp, PrivateMethod, PrivateProp, PropName, StaticBlock, TsExprWithTypeArgs,
    TsTypeAnnBox, TsTypeParamInstantiationBox,
};

impl<N: Answers> Stands for ClassMemberBox<N> {
    ghost judged = { λ c n v. judge N.answers v (Part ClassElement c Member n.node.value) };

    #[tactic(auto, unfolding(crate::specs::Forms::judge))]
    fn judge(&self, so_far: Verdict, parameters: Parameters) -> Verdict {
        so_far.part(self, Nonterminal::ClassElement, parameters, Role::Member)
    }
}

/// What a class extends.
#[tactic(auto, unfolding(crate::specs::ClassForms::heritage_form, crate::specs::Forms::judge, crate::specs::Forms::asked))]
fn heritage<N: Answers>(
    so_far: Verdict,
    super_class: &Option<ExprBox<N>>,
    args: &Option<TsTypeParamInstantiationBox<N>>,
    parameters: Parameters,
) -> Verdict
    ensures { result ≡ judge N.answers so_far (heritage_form parameters super_class.now args.now) }
{
    match super_class {
        Some(class) => {
            let verdict = so_far.part(
                class,
                Nonterminal::LeftHandSideExpression,
                parameters,
                Role::Expression,
            );
            type_args(verdict, args, parameters)
        }
        None => so_far.by_scope(args.is_none()),
    }
}

/// What a class implements, which is of TypeScript.
#[tactic(auto, using(crate::proofs::ClassesJudged::implements_judged))]
fn implements<N: Answers>(so_far: Verdict, nodes: &[TsExprWithTypeArgs<N>]) -> Verdict
    ensures { result ≡ judge N.answers so_far (implements_form nodes.now) }
{
    so_far.by_scope(is_none_listed(nodes))
}

/// The members of a class.
#[tactic(auto, using(crate::proofs::ClassesJudged::members_judged))]
fn members<N: Answers>(
    so_far: Verdict,
    nodes: &[ClassMemberBox<N>],
    parameters: Parameters,
) -> Verdict
    ensures { result ≡ judge N.answers so_far (members_form parameters nodes.now) }
{
    all(so_far, nodes, parameters)
}

impl<N: Answers> Stands for Class<N> {
    ghost judged = { λ c n v. judge N.answers v (class_tail_form c n) };

    #[tactic(auto, unfolding(crate::specs::ClassForms::class_tail_form, crate::specs::Forms::judge))]
    fn judge(&self, so_far: Verdict, parameters: Parameters) -> Verdict {
        let verdict = type_params(so_far, &self.type_params, parameters);
        let own = of_class(parameters);
        let verdict = heritage(verdict, &self.super_class, &self.super_type_params, own);
        let verdict = implements(verdict, &self.implements);
        members(verdict, &self.body, own)
    }
}

impl<N: Answers> Stands for ClassDecl<N> {
    ghost judged = { λ c n v. judge N.answers v (class_decl_form c n) };

    #[tactic(auto, unfolding(crate::specs::ClassForms::class_decl_form, crate::specs::Forms::judge, crate::specs::Forms::asked))]
    fn judge(&self, so_far: Verdict, parameters: Parameters) -> Verdict {
        let verdict = so_far
            .by_scope(!self.declare)
            .part(
                &self.class,
                Nonterminal::DecoratorList,
                parameters,
                Role::ClassHead,
            )
            .part(
                &self.class,
                Nonterminal::ClassHead,
                parameters,
                Role::ClassWord,
            );
        bound_name::<N>(verdict, &self.ident, of_class(parameters)).part(
            &self.class,
            Nonterminal::ClassTail,
            parameters,
            Role::ClassTail,
        )
    }
}

/// What of a declaration of a class stands behind `export`.
#[tactic(auto, unfolding(crate::specs::ClassForms::class_rest_form, crate::specs::Forms::judge, crate::specs::Forms::asked))]
pub(crate) fn class_rest<N: Answers>(
    so_far: Verdict,
    decl: &ClassDecl<N>,
    parameters: Parameters,
) -> Verdict
    ensures { result ≡ judge N.answers so_far (class_rest_form parameters decl.now) }
{
    let verdict = so_far.by_scope(!decl.declare).part(
        &decl.class,
        Nonterminal::ClassHead,
        parameters,
        Role::ClassWord,
    );
    bound_name::<N>(verdict, &decl.ident, of_class(parameters)).part(
        &decl.class,
        Nonterminal::ClassTail,
        parameters,
        Role::ClassTail,
    )
}

impl<N: Answers> Stands for ClassExpr<N> {
    ghost judged = { λ c n v. judge N.answers v (class_expr_form c n) };

    #[tactic(auto, unfolding(crate::specs::ClassForms::class_expr_form, crate::specs::Forms::judge))]
    fn judge(&self, so_far: Verdict, parameters: Parameters) -> Verdict {
        let verdict = so_far
            .part(
                &self.class,
                Nonterminal::DecoratorList,
                parameters,
                Role::ClassHead,
            )
            .part(
                &self.class,
                Nonterminal::ClassHead,
                parameters,
                Role::ClassWord,
            );
        optional_name::<N>(verdict, &self.ident, of_class(parameters)).part(
            &self.class,
            Nonterminal::ClassTail,
            parameters,
            Role::ClassTail,
        )
    }
}

/// Whether a property has the name `constructor`.
#[tactic(auto, unfolding(crate::specs::ClassForms::is_constructor_name))]
fn is_constructor_name<N>(name: &PropName<N>) -> bool
    ensures { result ≡ is_constructor_name name.now }
{
    match name {
        PropName::Ident(name) => is(&name.sym, "constructor"),
        PropName::Str(name) => is(&name.value, "constructor"),
        _ => false,
    }
}

/// What a name of a property is.
#[tactic(auto, unfolding(crate::specs::ClassForms::prop_name_nonterminal))]
pub(crate) fn prop_name_nonterminal<N>(name: &PropName<N>) -> Nonterminal
    ensures { result ≡ prop_name_nonterminal name.now }
{
    if is_constructor_name(name) {
        Nonterminal::ConstructorName
    } else {
        Nonterminal::PropertyName
    }
}

/// Which names a method may have.
fn key_of(is_static: bool) -> Nonterminal
    ensures { result ≡ key_of is_static }
{
    if is_static {
        Nonterminal::AnyPropertyName
    } else {
        Nonterminal::PropertyName
    }
}

/// A parameter of a constructor.
#[tactic(auto, unfolding(crate::specs::ClassForms::constructor_param_form, crate::specs::Forms::judge, crate::specs::Forms::asked))]
fn constructor_param<N: Answers>(
    so_far: Verdict,
    place: Nonterminal,
    node: &ParamOrTsParamProp<N>,
    parameters: Parameters,
) -> Verdict
    ensures { result ≡ judge N.answers so_far (constructor_param_form parameters place node.now) }
{
    match node {
        ParamOrTsParamProp::Param(node) => param(so_far, place, node, parameters),
        ParamOrTsParamProp::TsParamProp(_) => so_far.by_scope(false),
    }
}

/// One that isn't last.
impl<N: Answers> Stands for ParamOrTsParamProp<N> {
    ghost judged = { λ c n v. judge N.answers v (constructor_param_form c PatternElement n) };

    fn judge(&self, so_far: Verdict, parameters: Parameters) -> Verdict {
        constructor_param(so_far, Nonterminal::PatternElement, self, parameters)
    }
}

/// Parameters of a constructor, of which the last may be a rest.
#[tactic(auto, using(crate::proofs::ClassesJudged::constructor_params_judged, crate::proofs::ClassesJudged::no_constructor_params_judged, crate::proofs::ClassesJudged::nil_constructor_params_judged))]
fn constructor_params<N: Answers>(
    so_far: Verdict,
    params: &[ParamOrTsParamProp<N>],
    parameters: Parameters,
) -> Verdict
    ensures { result
        ≡ judge N.answers so_far (ending_listed (constructor_param_form parameters) params.now) }
{
    match params.split_last() {
        Some((last, front)) => constructor_param(
            all(so_far, front, parameters),
            Nonterminal::LastElement,
            last,
            parameters,
        ),
        None => so_far,
    }
}

impl<N: Answers> Stands for Constructor<N> {
    ghost judged = { λ c n v. judge N.answers v (constructor_form c n) };

    #[tactic(auto, unfolding(crate::specs::ClassForms::constructor_form, crate::specs::ClassForms::accessibility_form, crate::specs::Forms::judge, crate::specs::Forms::asked))]
    fn judge(&self, so_far: Verdict, parameters: Parameters) -> Verdict {
        let verdict = so_far.by_scope(self.accessibility.is_none());
        let listed = of_parameters(false, false, parameters);
        let verdict = constructor_params(verdict, &self.params, listed);
        body(verdict, &self.body, of_function(false, false, parameters))
    }
}

/// What parameters and body of a getter or a setter are.
#[tactic(auto, unfolding(crate::specs::ClassForms::accessor_nonterminal))]
pub(crate) fn accessor_nonterminal<N>(params: &[Param<N>]) -> Nonterminal
    ensures { result ≡ accessor_nonterminal params.now }
{
    match params {
        [] => Nonterminal::GetterTail,
        [_] => Nonterminal::SetterTail,
        [_, _, ..] => Nonterminal::FunctionTail,
    }
}

/// Parameters, of which none is a rest.
#[tactic(auto, using(crate::proofs::ClassesJudged::plain_params_judged))]
fn plain_params<N: Answers>(so_far: Verdict, params: &[Param<N>], parameters: Parameters) -> Verdict
    ensures { result ≡ judge N.answers so_far (plain_params_form parameters params.now) }
{
    all(so_far, params, parameters)
}

/// Parameters and body of a getter or a setter.
#[tactic(auto, unfolding(crate::specs::ClassForms::rest_of_accessor, crate::specs::Forms::judge))]
fn rest_of_accessor<N: Answers>(
    so_far: Verdict,
    function: &Function<N>,
    parameters: Parameters,
) -> Verdict
    ensures { result ≡ judge N.answers so_far (rest_of_accessor parameters function.now) }
{
    let listed = of_parameters(function.is_generator, function.is_async, parameters);
    let own = of_function(function.is_generator, function.is_async, parameters);
    let verdict = type_params(so_far, &function.type_params, parameters);
    let verdict = plain_params(verdict, &function.params, listed);
    let verdict = annotation(verdict, &function.return_type, parameters);
    body(verdict, &function.body, own)
}

/// Parameters and body of a function that is neither async nor a generator.
#[tactic(auto, using(crate::proofs::ClassesJudged::plain_accessor_judged, crate::proofs::ClassesJudged::other_accessor_judged))]
pub(crate) fn accessor<N: Answers>(
    so_far: Verdict,
    function: &Function<N>,
    parameters: Parameters,
) -> Verdict
    ensures { result ≡ judge N.answers so_far (accessor_form parameters function.now) }
{
    let is_other = function.is_async || function.is_generator;
    if is_other {
        so_far.by_rule(false)
    } else {
        rest_of_accessor(so_far, function, parameters)
    }
}

/// What parameters and body of a method have to be.
#[tactic(auto, unfolding(crate::specs::ClassForms::tail_of))]
fn tail_of(kind: MethodKind) -> Nonterminal
    ensures { result ≡ tail_of kind }
{
    match kind {
        MethodKind::Method => Nonterminal::FunctionTail,
        MethodKind::Getter => Nonterminal::GetterTail,
        MethodKind::Setter => Nonterminal::SetterTail,
    }
}

/// The verdict so far, and of parameters and body of a method.
#[tactic(auto, unfolding(swc_ecma_codegen_grammar::specs::ClassPhrases::tail_role, crate::specs::Forms::judge))]
fn tail<N: Answers>(
    so_far: Verdict,
    kind: MethodKind,
    function: &FunctionBox<N>,
    parameters: Parameters,
) -> Verdict
    ensures { result ≡ judge N.answers so_far
        (Part (tail_of kind) parameters (tail_role kind) function.now.node.value) }
{
    let role = match kind {
        MethodKind::Method => Role::MethodTail,
        MethodKind::Getter | MethodKind::Setter => Role::AccessorTail,
    };
    so_far.part(function, tail_of(kind), parameters, role)
}

/// What stands before the name of a method.
#[tactic(auto, unfolding(crate::specs::ClassForms::method_kind_form, crate::specs::ClassForms::kind_form, crate::specs::Forms::judge, crate::specs::Forms::asked))]
fn method_kind<N: Answers>(
    so_far: Verdict,
    flags: (bool, bool, bool),
    kind: MethodKind,
    function: &FunctionBox<N>,
    parameters: Parameters,
) -> Verdict
    ensures { result ≡ judge N.answers so_far
        (method_kind_form parameters flags.0 flags.1 flags.2 kind function.now) }
{
    let verdict = so_far.by_scope(!flags.1).by_scope(!flags.2);
    match kind {
        MethodKind::Method => verdict.part(
            function,
            Nonterminal::MethodHead,
            parameters,
            Role::MethodHead,
        ),
        MethodKind::Getter | MethodKind::Setter => verdict,
    }
}

/// The decorators of a method, and what makes it one of TypeScript.
#[tactic(auto, unfolding(crate::specs::ClassForms::accessibility_form, crate::specs::Forms::judge, crate::specs::Forms::asked))]
fn method_start<N: Answers>(
    so_far: Verdict,
    function: &FunctionBox<N>,
    accessibility: &Option<Accessibility>,
    parameters: Parameters,
) -> Verdict
    ensures { result ≡ judge N.answers
        (judge N.answers so_far
        (Part DecoratorList parameters MethodDecorators function.now.node.value))
        (accessibility_form accessibility.now) }
{
    so_far
        .part(
            function,
            Nonterminal::DecoratorList,
            parameters,
            Role::MethodDecorators,
        )
        .by_scope(accessibility.is_none())
}

impl<N: Answers> Stands for ClassMethod<N> {
    ghost judged = { λ c n v. judge N.answers v (method_form c n) };

    #[tactic(auto, unfolding(crate::specs::ClassForms::method_form, crate::specs::ClassForms::optional_mark_form, crate::specs::Forms::judge, crate::specs::Forms::asked))]
    fn judge(&self, so_far: Verdict, parameters: Parameters) -> Verdict {
        let verdict = method_start(so_far, &self.function, &self.accessibility, parameters);
        let flags = (self.is_static, self.is_abstract, self.is_override);
        let verdict = method_kind(verdict, flags, self.kind, &self.function, parameters)
            .part(
                &self.key,
                key_of(self.is_static),
                parameters,
                Role::PropertyName,
            )
            .by_scope(!self.is_optional);
        tail(verdict, self.kind, &self.function, parameters)
    }
}

impl<N: Answers> Stands for PrivateMethod<N> {
    ghost judged = { λ c n v. judge N.answers v (private_method_form c n) };

    #[tactic(auto, unfolding(crate::specs::ClassForms::private_method_form, crate::specs::ClassForms::optional_mark_form, crate::specs::Forms::judge, crate::specs::Forms::asked))]
    fn judge(&self, so_far: Verdict, parameters: Parameters) -> Verdict {
        let verdict = method_start(so_far, &self.function, &self.accessibility, parameters);
        let flags = (self.is_static, self.is_abstract, self.is_override);
        let verdict = method_kind(verdict, flags, self.kind, &self.function, parameters).by_scope(
            !self.is_optional,
        );
        tail(verdict, self.kind, &self.function, parameters)
    }
}

/// The value of a field.
#[tactic(auto, unfolding(crate::specs::ClassForms::field_value_form, crate::specs::Forms::judge))]
fn field_value<N: Answers>(
    so_far: Verdict,
    value: &Option<ExprBox<N>>,
    parameters: Parameters,
) -> Verdict
    ensures { result ≡ judge N.answers so_far (field_value_form parameters value.now) }
{
    match value {
        Some(value) => so_far.part(
            value,
            Nonterminal::AssignmentExpression,
            of_field(parameters),
            Role::FieldValue,
        ),
        None => so_far,
    }
}

/// The type of a field, which has no production here.
#[tactic(auto, unfolding(crate::specs::ClassForms::field_type_form, crate::specs::Forms::judge, crate::specs::Forms::asked))]
fn field_type<N: Answers>(
    so_far: Verdict,
    definite: bool,
    type_ann: &Option<TsTypeAnnBox<N>>,
    parameters: Parameters,
) -> Verdict
    ensures { result ≡ judge N.answers so_far (field_type_form parameters definite type_ann.now) }
{
    match type_ann {
        Some(type_ann) => so_far.by_scope(false).part(
            type_ann,
            Nonterminal::Uncovered,
            parameters,
            Role::Annotation,
        ),
        None => so_far.by_scope(!definite),
    }
}

impl<N: Answers> Stands for ClassProp<N> {
    ghost judged = { λ c n v. judge N.answers v (field_form c n) };

    #[tactic(auto, unfolding(crate::specs::ClassForms::field_form, crate::specs::ClassForms::plain_modifiers, crate::specs::ClassForms::optional_mark_form, crate::specs::Forms::judge, crate::specs::Forms::asked))]
    fn judge(&self, so_far: Verdict, parameters: Parameters) -> Verdict {
        let plain = !self.declare
            && self.accessibility.is_none()
            && !self.is_abstract
            && !self.is_override
            && !self.readonly;
        let verdict = decorators(so_far, &self.decorators, parameters)
            .by_scope(plain)
            .part(
                &self.key,
                Nonterminal::PropertyName,
                parameters,
                Role::PropertyName,
            )
            .by_scope(!self.is_optional);
        let verdict = field_type(verdict, self.definite, &self.type_ann, parameters);
        field_value(verdict, &self.value, parameters)
    }
}

impl<N: Answers> Stands for PrivateProp<N> {
    ghost judged = { λ c n v. judge N.answers v (private_field_form c n) };

    #[tactic(auto, unfolding(crate::specs::ClassForms::private_field_form, crate::specs::ClassForms::plain_private_modifiers, crate::specs::ClassForms::optional_mark_form, crate::specs::Forms::judge, crate::specs::Forms::asked))]
    fn judge(&self, so_far: Verdict, parameters: Parameters) -> Verdict {
        let plain = self.accessibility.is_none() && !self.is_override && !self.readonly;
        let verdict = decorators(so_far, &self.decorators, parameters)
            .by_scope(plain)
            .by_scope(!self.is_optional);
        let verdict = field_type(verdict, self.definite, &self.type_ann, parameters);
        field_value(verdict, &self.value, parameters)
    }
}

/// The name behind `accessor`.
#[tactic(auto, unfolding(crate::specs::ClassForms::accessor_key_form, crate::specs::Forms::judge))]
fn accessor_key<N: Answers>(so_far: Verdict, key: &Key<N>, parameters: Parameters) -> Verdict
    ensures { result ≡ judge N.answers so_far (accessor_key_form parameters key.now) }
{
    match key {
        Key::Public(link) => {
            let place = Nonterminal::PropertyName;
            so_far.part(link, place, parameters, Role::PropertyName)
        }
        Key::Private(_) => so_far,
    }
}

/// Its value.
#[tactic(auto, unfolding(crate::specs::ClassForms::accessor_value_form, crate::specs::Forms::judge))]
fn accessor_value<N: Answers>(
    so_far: Verdict,
    value: &Option<ExprBox<N>>,
    parameters: Parameters,
) -> Verdict
    ensures { result ≡ judge N.answers so_far (accessor_value_form parameters value.now) }
{
    match value {
        Some(value) => {
            let place = Nonterminal::AssignmentExpression;
            let inside = of_field(parameters);
            so_far.part(value, place, inside, Role::Expression)
        }
        None => so_far,
    }
}

impl<N: Answers> Stands for AutoAccessor<N> {
    ghost judged = { λ c n v. judge N.answers v (auto_accessor_form c n) };

    #[tactic(auto, unfolding(crate::specs::ClassForms::auto_accessor_form, crate::specs::ClassForms::plain_accessor_modifiers, crate::specs::Forms::judge, crate::specs::Forms::asked))]
    fn judge(&self, so_far: Verdict, parameters: Parameters) -> Verdict {
        let plain = self.accessibility.is_none() && !self.is_abstract && !self.is_override;
        let verdict = decorators(so_far, &self.decorators, parameters).by_scope(plain);
        let verdict = accessor_key(verdict, &self.key, parameters);
        let verdict = field_type(verdict, self.definite, &self.type_ann, parameters);
        accessor_value(verdict, &self.value, parameters)
    }
}

impl<N: Answers> Stands for StaticBlock<N> {
    ghost judged = { λ c n v. judge N.answers v (static_block_form c n) };

    #[tactic(auto, unfolding(crate::specs::ClassForms::static_block_form, crate::specs::Forms::judge))]
    fn judge(&self, so_far: Verdict, parameters: Parameters) -> Verdict {
        block_body(so_far, &self.body, of_static_block(parameters))
    }
}

impl<N: Answers> Stands for ClassMember<N> {
    ghost judged = { λ c n v. judge N.answers v (member_of_class_form c n) };

    #[tactic(auto, unfolding(crate::specs::ClassForms::member_of_class_form, crate::specs::Forms::judge, crate::specs::Forms::asked))]
    fn judge(&self, so_far: Verdict, parameters: Parameters) -> Verdict {
        match self {
            ClassMember::Constructor(node) => node.judge(so_far, parameters),
            ClassMember::Method(node) => node.judge(so_far, parameters),
            ClassMember::PrivateMethod(node) => node.judge(so_far, parameters),
            ClassMember::ClassProp(node) => node.judge(so_far, parameters),
            ClassMember::PrivateProp(node) => node.judge(so_far, parameters),
            ClassMember::StaticBlock(node) => node.judge(so_far, parameters),
            ClassMember::Empty(_) => so_far,
            ClassMember::AutoAccessor(node) => node.judge(so_far.by_core(false), parameters),
            ClassMember::TsIndexSignature(_) => so_far.by_scope(false),
        }
    }
}
