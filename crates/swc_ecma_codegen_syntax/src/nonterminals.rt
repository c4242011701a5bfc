//! The nonterminals of the syntactic grammar, and which of them derive others by productions of one
//! nonterminal alone.

ghost use Rattle.std.specs.Prelude.{◌≡◌, ◌||◌};
ghost use Rattle.swc_ecma_codegen_syntax.specs.Nonterminals.{is_member, is_new, is_call, is_left_hand_side, is_update, is_unary, is_exponentiation, is_multiplicative, is_additive, is_shift, is_relational, is_in_left, is_equality, is_bitwise_and, is_bitwise_xor, is_bitwise_or, is_logical_and, is_logical_or, is_coalesce_head, is_short_circuit, is_conditional, is_assignment, is_expression, is_callee, is_chained, is_assignment_target, is_pattern_target, is_pattern_element, is_last_element, is_coalesce, is_private, is_optional, is_primary, is_template, is_property_name, is_chain_link, is_assignment_pattern, is_pattern_name, is_rest, is_statement, is_hoistable_declaration, is_declaration, is_block, is_statement_list_item, is_variable_declarations, is_labelled_item, is_module_declaration, is_exported_head, is_function_head, is_generator_head, is_async_function_head, is_async_generator_head, is_function_tail, is_getter_tail, is_setter_tail, is_method_head, is_decorator_list, is_class_head, is_class_tail, is_class_element, is_constructor_name, is_any_function_head, is_head_without_yield, is_head_without_await, is_any_property_name, is_jsx_element, is_jsx_object, is_uncovered, takes};

use crate::unit_productions::{
    is_any_function_head, is_any_property_name, is_async_function_head, is_async_generator_head,
    is_block, is_class_element, is_class_head, is_class_tail, is_constructor_name, is_declaration,
    is_decorator_list, is_exported_head, is_function_head, is_function_tail, is_generator_head,
    is_getter_tail, is_head_without_await, is_head_without_yield, is_hoistable_declaration,
    is_jsx_element, is_jsx_object, is_labelled_item, is_method_head, is_module_declaration,
    is_setter_tail, is_statement, is_statement_list_item, is_variable_declarations,
};

/// A nonterminal of ECMA-262. Those that its grammar writes as alternatives of one place have a
/// name here too.
#[derive(Clone, Copy, Debug, PartialEq, Eq)]
pub enum Nonterminal {
    /// Section 13.16.
    Expression,
    /// Section 13.15, and `yield`, section 15.5.
    AssignmentExpression,
    /// Section 13.14.
    ConditionalExpression,
    /// Section 13.13.
    ShortCircuitExpression,
    CoalesceExpression,
    CoalesceExpressionHead,
    LogicalOrExpression,
    LogicalAndExpression,
    /// Section 13.12.
    BitwiseOrExpression,
    BitwiseXorExpression,
    BitwiseAndExpression,
    /// Section 13.11.
    EqualityExpression,
    /// Section 13.10.
    RelationalExpression,
    /// RelationalExpression or PrivateIdentifier: what stands before `in`.
    InLeft,
    PrivateIdentifier,
    /// Section 13.9.
    ShiftExpression,
    /// Section 13.8.
    AdditiveExpression,
    /// Section 13.7.
    MultiplicativeExpression,
    /// Section 13.6.
    ExponentiationExpression,
    /// Section 13.5, and `await`, section 15.8.
    UnaryExpression,
    /// Section 13.4.
    UpdateExpression,
    /// Section 13.3.
    LeftHandSideExpression,
    NewExpression,
    CallExpression,
    OptionalExpression,
    MemberExpression,
    /// MemberExpression or CallExpression: what is called, has a property or is a tag.
    CallOrMember,
    /// MemberExpression, CallExpression or OptionalExpression: what stands before `?.`.
    ChainBase,
    /// Section 13.2.
    PrimaryExpression,
    TemplateLiteral,
    /// Section 13.2.5.
    PropertyName,
    /// A link of OptionalChain, section 13.3.9, with what stands before it.
    OptionalChain,
    /// LeftHandSideExpression or AssignmentPattern: what stands before `=`. Section 13.15.
    AssignmentTarget,
    AssignmentPattern,
    /// A name, or in an assignment another target: `a` and `b.c` of `[a, b.c] = d`.
    PatternName,
    /// That, or a pattern: DestructuringAssignmentTarget of section 13.15.5, and a name or
    /// BindingPattern of 14.3.3.
    PatternTarget,
    /// That, with or without a value: AssignmentElement and BindingElement.
    PatternElement,
    /// AssignmentRestElement and BindingRestElement.
    RestElement,
    /// What stands last among elements: PatternElement or RestElement.
    LastElement,
    /// Section 14.
    Statement,
    HoistableDeclaration,
    Declaration,
    /// Section 14.2.
    Block,
    StatementListItem,
    /// VariableDeclarationList, LexicalDeclaration without its semicolon, ForBinding or
    /// ForDeclaration: section 14.3, and 14.7.5.
    VariableDeclarations,
    /// Section 14.13.
    LabelledItem,
    /// ImportDeclaration and ExportDeclaration: sections 16.2.2 and 16.2.3.
    ModuleDeclaration,
    /// What stands before `export`: decorators, which are a proposal, or nothing.
    ExportedHead,
    /// `function`: the words before a FunctionDeclaration. Section 15.2.
    FunctionHead,
    /// `function *`. Section 15.5.
    GeneratorHead,
    /// `async function`. Section 15.8.
    AsyncFunctionHead,
    /// `async function *`. Section 15.6.
    AsyncGeneratorHead,
    /// `( FormalParameters ) { FunctionBody }`. Section 15.2.
    FunctionTail,
    /// `() { FunctionBody }`, as a getter has it. Section 15.4.
    GetterTail,
    /// `( PropertySetParameterList ) { FunctionBody }`, as a setter has it. Section 15.4.
    SetterTail,
    /// `async *` of a method, or a part of it, or none of it. Section 15.4.
    MethodHead,
    /// Decorators, a proposal, of which none has a production here.
    DecoratorList,
    /// `class`. Section 15.7.
    ClassHead,
    /// Section 15.7.
    ClassTail,
    /// Section 15.7.
    ClassElement,
    /// A PropertyName that is `constructor`. Section 15.7.1.
    ConstructorName,
    /// The words before any function.
    AnyFunctionHead,
    /// Those before a function that is no generator: its name may be `yield`.
    HeadWithoutYield,
    /// Those before a function that isn't async: its name may be `await`.
    HeadWithoutAwait,
    /// PropertyName, whichever it is. Section 13.2.5.
    AnyPropertyName,
    /// JSXElement and JSXFragment of the JSX specification.
    JSXElement,
    /// What has a property in the name of a tag, as `a` of `<a.b />`: JSXIdentifier or
    /// JSXMemberExpression.
    JSXObject,
    /// TypeScript, and what has no production here.
    Uncovered,
}

#[tactic(auto, unfolding(crate::specs::Nonterminals::is_member))]
fn is_member(n: Nonterminal) -> bool
    ensures { result ≡ is_member n }
{
    matches!(
        n,
        Nonterminal::MemberExpression | Nonterminal::PrimaryExpression
    )
}

#[tactic(auto, unfolding(crate::specs::Nonterminals::is_new))]
fn is_new(n: Nonterminal) -> bool
    ensures { result ≡ is_new n }
{
    matches!(n, Nonterminal::NewExpression) || is_member(n)
}

#[tactic(auto, unfolding(crate::specs::Nonterminals::is_call))]
pub(crate) fn is_call(n: Nonterminal) -> bool
    ensures { result ≡ is_call n }
{
    matches!(n, Nonterminal::CallExpression)
}

#[tactic(auto, unfolding(crate::specs::Nonterminals::is_callee))]
fn is_callee(n: Nonterminal) -> bool
    ensures { result ≡ is_callee n }
{
    matches!(n, Nonterminal::CallOrMember | Nonterminal::CallExpression) || is_member(n)
}

#[tactic(auto, unfolding(crate::specs::Nonterminals::is_chained))]
fn is_chained(n: Nonterminal) -> bool
    ensures { result ≡ is_chained n }
{
    matches!(
        n,
        Nonterminal::ChainBase | Nonterminal::OptionalExpression | Nonterminal::CallExpression
    ) || is_member(n)
}

#[tactic(auto, unfolding(crate::specs::Nonterminals::is_left_hand_side))]
fn is_left_hand_side(n: Nonterminal) -> bool
    ensures { result ≡ is_left_hand_side n }
{
    matches!(
        n,
        Nonterminal::LeftHandSideExpression
            | Nonterminal::CallExpression
            | Nonterminal::OptionalExpression
    ) || is_new(n)
}

#[tactic(auto, unfolding(crate::specs::Nonterminals::is_update))]
fn is_update(n: Nonterminal) -> bool
    ensures { result ≡ is_update n }
{
    matches!(n, Nonterminal::UpdateExpression) || is_left_hand_side(n)
}

#[tactic(auto, unfolding(crate::specs::Nonterminals::is_unary))]
fn is_unary(n: Nonterminal) -> bool
    ensures { result ≡ is_unary n }
{
    matches!(n, Nonterminal::UnaryExpression) || is_update(n)
}

#[tactic(auto, unfolding(crate::specs::Nonterminals::is_exponentiation))]
fn is_exponentiation(n: Nonterminal) -> bool
    ensures { result ≡ is_exponentiation n }
{
    matches!(n, Nonterminal::ExponentiationExpression) || is_unary(n)
}

#[tactic(auto, unfolding(crate::specs::Nonterminals::is_multiplicative))]
fn is_multiplicative(n: Nonterminal) -> bool
    ensures { result ≡ is_multiplicative n }
{
    matches!(n, Nonterminal::MultiplicativeExpression) || is_exponentiation(n)
}

#[tactic(auto, unfolding(crate::specs::Nonterminals::is_additive))]
fn is_additive(n: Nonterminal) -> bool
    ensures { result ≡ is_additive n }
{
    matches!(n, Nonterminal::AdditiveExpression) || is_multiplicative(n)
}

#[tactic(auto, unfolding(crate::specs::Nonterminals::is_shift))]
fn is_shift(n: Nonterminal) -> bool
    ensures { result ≡ is_shift n }
{
    matches!(n, Nonterminal::ShiftExpression) || is_additive(n)
}

#[tactic(auto, unfolding(crate::specs::Nonterminals::is_relational))]
fn is_relational(n: Nonterminal) -> bool
    ensures { result ≡ is_relational n }
{
    matches!(n, Nonterminal::RelationalExpression) || is_shift(n)
}

#[tactic(auto, unfolding(crate::specs::Nonterminals::is_in_left))]
fn is_in_left(n: Nonterminal) -> bool
    ensures { result ≡ is_in_left n }
{
    matches!(n, Nonterminal::InLeft | Nonterminal::PrivateIdentifier) || is_relational(n)
}

#[tactic(auto, unfolding(crate::specs::Nonterminals::is_equality))]
fn is_equality(n: Nonterminal) -> bool
    ensures { result ≡ is_equality n }
{
    matches!(n, Nonterminal::EqualityExpression) || is_relational(n)
}

#[tactic(auto, unfolding(crate::specs::Nonterminals::is_bitwise_and))]
fn is_bitwise_and(n: Nonterminal) -> bool
    ensures { result ≡ is_bitwise_and n }
{
    matches!(n, Nonterminal::BitwiseAndExpression) || is_equality(n)
}

#[tactic(auto, unfolding(crate::specs::Nonterminals::is_bitwise_xor))]
fn is_bitwise_xor(n: Nonterminal) -> bool
    ensures { result ≡ is_bitwise_xor n }
{
    matches!(n, Nonterminal::BitwiseXorExpression) || is_bitwise_and(n)
}

#[tactic(auto, unfolding(crate::specs::Nonterminals::is_bitwise_or))]
fn is_bitwise_or(n: Nonterminal) -> bool
    ensures { result ≡ is_bitwise_or n }
{
    matches!(n, Nonterminal::BitwiseOrExpression) || is_bitwise_xor(n)
}

#[tactic(auto, unfolding(crate::specs::Nonterminals::is_logical_and))]
fn is_logical_and(n: Nonterminal) -> bool
    ensures { result ≡ is_logical_and n }
{
    matches!(n, Nonterminal::LogicalAndExpression) || is_bitwise_or(n)
}

#[tactic(auto, unfolding(crate::specs::Nonterminals::is_logical_or))]
fn is_logical_or(n: Nonterminal) -> bool
    ensures { result ≡ is_logical_or n }
{
    matches!(n, Nonterminal::LogicalOrExpression) || is_logical_and(n)
}

#[tactic(auto, unfolding(crate::specs::Nonterminals::is_coalesce_head))]
fn is_coalesce_head(n: Nonterminal) -> bool
    ensures { result ≡ is_coalesce_head n }
{
    matches!(
        n,
        Nonterminal::CoalesceExpressionHead | Nonterminal::CoalesceExpression
    ) || is_bitwise_or(n)
}

#[tactic(auto, unfolding(crate::specs::Nonterminals::is_short_circuit))]
fn is_short_circuit(n: Nonterminal) -> bool
    ensures { result ≡ is_short_circuit n }
{
    matches!(
        n,
        Nonterminal::ShortCircuitExpression | Nonterminal::CoalesceExpression
    ) || is_logical_or(n)
}

#[tactic(auto, unfolding(crate::specs::Nonterminals::is_conditional))]
fn is_conditional(n: Nonterminal) -> bool
    ensures { result ≡ is_conditional n }
{
    matches!(n, Nonterminal::ConditionalExpression) || is_short_circuit(n)
}

#[tactic(auto, unfolding(crate::specs::Nonterminals::is_assignment))]
fn is_assignment(n: Nonterminal) -> bool
    ensures { result ≡ is_assignment n }
{
    matches!(n, Nonterminal::AssignmentExpression) || is_conditional(n)
}

#[tactic(auto, unfolding(crate::specs::Nonterminals::is_expression))]
fn is_expression(n: Nonterminal) -> bool
    ensures { result ≡ is_expression n }
{
    matches!(n, Nonterminal::Expression) || is_assignment(n)
}

#[tactic(auto, unfolding(crate::specs::Nonterminals::is_assignment_target))]
fn is_assignment_target(n: Nonterminal) -> bool
    ensures { result ≡ is_assignment_target n }
{
    matches!(
        n,
        Nonterminal::AssignmentTarget | Nonterminal::AssignmentPattern
    ) || is_left_hand_side(n)
}

#[tactic(auto, unfolding(crate::specs::Nonterminals::is_pattern_target))]
fn is_pattern_target(n: Nonterminal) -> bool
    ensures { result ≡ is_pattern_target n }
{
    matches!(n, Nonterminal::PatternTarget | Nonterminal::PatternName)
}

#[tactic(auto, unfolding(crate::specs::Nonterminals::is_pattern_element))]
fn is_pattern_element(n: Nonterminal) -> bool
    ensures { result ≡ is_pattern_element n }
{
    matches!(n, Nonterminal::PatternElement) || is_pattern_target(n)
}

#[tactic(auto, unfolding(crate::specs::Nonterminals::is_last_element))]
fn is_last_element(n: Nonterminal) -> bool
    ensures { result ≡ is_last_element n }
{
    matches!(n, Nonterminal::LastElement | Nonterminal::RestElement) || is_pattern_element(n)
}

#[tactic(auto, unfolding(crate::specs::Nonterminals::is_coalesce))]
fn is_coalesce(n: Nonterminal) -> bool
    ensures { result ≡ is_coalesce n }
{
    matches!(n, Nonterminal::CoalesceExpression)
}

#[tactic(auto, unfolding(crate::specs::Nonterminals::is_private))]
fn is_private(n: Nonterminal) -> bool
    ensures { result ≡ is_private n }
{
    matches!(n, Nonterminal::PrivateIdentifier)
}

#[tactic(auto, unfolding(crate::specs::Nonterminals::is_optional))]
fn is_optional(n: Nonterminal) -> bool
    ensures { result ≡ is_optional n }
{
    matches!(n, Nonterminal::OptionalExpression)
}

#[tactic(auto, unfolding(crate::specs::Nonterminals::is_primary))]
fn is_primary(n: Nonterminal) -> bool
    ensures { result ≡ is_primary n }
{
    matches!(n, Nonterminal::PrimaryExpression)
}

#[tactic(auto, unfolding(crate::specs::Nonterminals::is_template))]
fn is_template(n: Nonterminal) -> bool
    ensures { result ≡ is_template n }
{
    matches!(n, Nonterminal::TemplateLiteral)
}

#[tactic(auto, unfolding(crate::specs::Nonterminals::is_property_name))]
fn is_property_name(n: Nonterminal) -> bool
    ensures { result ≡ is_property_name n }
{
    matches!(n, Nonterminal::PropertyName)
}

#[tactic(auto, unfolding(crate::specs::Nonterminals::is_chain_link))]
fn is_chain_link(n: Nonterminal) -> bool
    ensures { result ≡ is_chain_link n }
{
    matches!(n, Nonterminal::OptionalChain)
}

#[tactic(auto, unfolding(crate::specs::Nonterminals::is_assignment_pattern))]
fn is_assignment_pattern(n: Nonterminal) -> bool
    ensures { result ≡ is_assignment_pattern n }
{
    matches!(n, Nonterminal::AssignmentPattern)
}

#[tactic(auto, unfolding(crate::specs::Nonterminals::is_pattern_name))]
fn is_pattern_name(n: Nonterminal) -> bool
    ensures { result ≡ is_pattern_name n }
{
    matches!(n, Nonterminal::PatternName)
}

#[tactic(auto, unfolding(crate::specs::Nonterminals::is_rest))]
fn is_rest(n: Nonterminal) -> bool
    ensures { result ≡ is_rest n }
{
    matches!(n, Nonterminal::RestElement)
}

#[tactic(auto, unfolding(crate::specs::Nonterminals::is_uncovered))]
fn is_uncovered(n: Nonterminal) -> bool
    ensures { result ≡ is_uncovered n }
{
    matches!(n, Nonterminal::Uncovered)
}

/// Whether the first derives the second by productions of one nonterminal alone, or is the second.
#[tactic(auto, unfolding(crate::specs::Nonterminals::takes))]
pub fn takes(place: Nonterminal, part: Nonterminal) -> bool
    ensures { result ≡ takes place part }
{
    match place {
        Nonterminal::Expression => is_expression(part),
        Nonterminal::AssignmentExpression => is_assignment(part),
        Nonterminal::ConditionalExpression => is_conditional(part),
        Nonterminal::ShortCircuitExpression => is_short_circuit(part),
        Nonterminal::CoalesceExpression => is_coalesce(part),
        Nonterminal::CoalesceExpressionHead => is_coalesce_head(part),
        Nonterminal::LogicalOrExpression => is_logical_or(part),
        Nonterminal::LogicalAndExpression => is_logical_and(part),
        Nonterminal::BitwiseOrExpression => is_bitwise_or(part),
        Nonterminal::BitwiseXorExpression => is_bitwise_xor(part),
        Nonterminal::BitwiseAndExpression => is_bitwise_and(part),
        Nonterminal::EqualityExpression => is_equality(part),
        Nonterminal::RelationalExpression => is_relational(part),
        Nonterminal::InLeft => is_in_left(part),
        Nonterminal::PrivateIdentifier => is_private(part),
        Nonterminal::ShiftExpression => is_shift(part),
        Nonterminal::AdditiveExpression => is_additive(part),
        Nonterminal::MultiplicativeExpression => is_multiplicative(part),
        Nonterminal::ExponentiationExpression => is_exponentiation(part),
        Nonterminal::UnaryExpression => is_unary(part),
        Nonterminal::UpdateExpression => is_update(part),
        Nonterminal::LeftHandSideExpression => is_left_hand_side(part),
        Nonterminal::NewExpression => is_new(part),
        Nonterminal::CallExpression => is_call(part),
        Nonterminal::OptionalExpression => is_optional(part),
        Nonterminal::MemberExpression => is_member(part),
        Nonterminal::CallOrMember => is_callee(part),
        Nonterminal::ChainBase => is_chained(part),
        Nonterminal::PrimaryExpression => is_primary(part),
        Nonterminal::TemplateLiteral => is_template(part),
        Nonterminal::PropertyName => is_property_name(part),
        Nonterminal::OptionalChain => is_chain_link(part),
        Nonterminal::AssignmentTarget => is_assignment_target(part),
        Nonterminal::AssignmentPattern => is_assignment_pattern(part),
        Nonterminal::PatternName => is_pattern_name(part),
        Nonterminal::PatternTarget => is_pattern_target(part),
        Nonterminal::PatternElement => is_pattern_element(part),
        Nonterminal::RestElement => is_rest(part),
        Nonterminal::LastElement => is_last_element(part),
        Nonterminal::Statement => is_statement(part),
        Nonterminal::HoistableDeclaration => is_hoistable_declaration(part),
        Nonterminal::Declaration => is_declaration(part),
        Nonterminal::Block => is_block(part),
        Nonterminal::StatementListItem => is_statement_list_item(part),
        Nonterminal::VariableDeclarations => is_variable_declarations(part),
        Nonterminal::LabelledItem => is_labelled_item(part),
        Nonterminal::ModuleDeclaration => is_module_declaration(part),
        Nonterminal::ExportedHead => is_exported_head(part),
        Nonterminal::FunctionHead => is_function_head(part),
        Nonterminal::GeneratorHead => is_generator_head(part),
        Nonterminal::AsyncFunctionHead => is_async_function_head(part),
        Nonterminal::AsyncGeneratorHead => is_async_generator_head(part),
        Nonterminal::FunctionTail => is_function_tail(part),
        Nonterminal::GetterTail => is_getter_tail(part),
        Nonterminal::SetterTail => is_setter_tail(part),
        Nonterminal::MethodHead => is_method_head(part),
        Nonterminal::DecoratorList => is_decorator_list(part),
        Nonterminal::ClassHead => is_class_head(part),
        Nonterminal::ClassTail => is_class_tail(part),
        Nonterminal::ClassElement => is_class_element(part),
        Nonterminal::ConstructorName => is_constructor_name(part),
        Nonterminal::AnyFunctionHead => is_any_function_head(part),
        Nonterminal::HeadWithoutYield => is_head_without_yield(part),
        Nonterminal::HeadWithoutAwait => is_head_without_await(part),
        Nonterminal::AnyPropertyName => is_any_property_name(part),
        Nonterminal::JSXElement => is_jsx_element(part),
        Nonterminal::JSXObject => is_jsx_object(part),
        Nonterminal::Uncovered => is_uncovered(part),
    }
}
