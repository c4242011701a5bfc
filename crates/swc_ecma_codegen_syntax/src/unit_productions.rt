//! What the nonterminals of statements, declarations, functions, classes and JSX derive by
//! productions of one nonterminal alone.

ghost use Rattle.std.specs.Prelude.{◌≡◌, ◌||◌};
ghost use Rattle.swc_ecma_codegen_syntax.specs.Nonterminals.{is_statement, is_hoistable_declaration, is_declaration, is_block, is_statement_list_item, is_variable_declarations, is_labelled_item, is_module_declaration, is_exported_head, is_function_head, is_generator_head, is_async_function_head, is_async_generator_head, is_function_tail, is_getter_tail, is_setter_tail, is_method_head, is_decorator_list, is_class_head, is_class_tail, is_class_element, is_constructor_name, is_any_function_head, is_head_without_yield, is_head_without_await, is_any_property_name, is_jsx_element, is_jsx_object};

use crate::nonterminals::Nonterminal;

#[tactic(auto, unfolding(crate::specs::Nonterminals::is_statement))]
pub(crate) fn is_statement(n: Nonterminal) -> bool
    ensures { result ≡ is_statement n }
{
    matches!(n, Nonterminal::Statement)
}

#[tactic(auto, unfolding(crate::specs::Nonterminals::is_hoistable_declaration))]
pub(crate) fn is_hoistable_declaration(n: Nonterminal) -> bool
    ensures { result ≡ is_hoistable_declaration n }
{
    matches!(n, Nonterminal::HoistableDeclaration)
}

#[tactic(auto, unfolding(crate::specs::Nonterminals::is_declaration))]
pub(crate) fn is_declaration(n: Nonterminal) -> bool
    ensures { result ≡ is_declaration n }
{
    matches!(n, Nonterminal::Declaration) || is_hoistable_declaration(n)
}

#[tactic(auto, unfolding(crate::specs::Nonterminals::is_block))]
pub(crate) fn is_block(n: Nonterminal) -> bool
    ensures { result ≡ is_block n }
{
    matches!(n, Nonterminal::Block)
}

#[tactic(auto, unfolding(crate::specs::Nonterminals::is_statement_list_item))]
pub(crate) fn is_statement_list_item(n: Nonterminal) -> bool
    ensures { result ≡ is_statement_list_item n }
{
    matches!(n, Nonterminal::StatementListItem | Nonterminal::Statement) || is_declaration(n)
}

#[tactic(auto, unfolding(crate::specs::Nonterminals::is_variable_declarations))]
pub(crate) fn is_variable_declarations(n: Nonterminal) -> bool
    ensures { result ≡ is_variable_declarations n }
{
    matches!(n, Nonterminal::VariableDeclarations)
}

#[tactic(auto, unfolding(crate::specs::Nonterminals::is_labelled_item))]
pub(crate) fn is_labelled_item(n: Nonterminal) -> bool
    ensures { result ≡ is_labelled_item n }
{
    matches!(n, Nonterminal::LabelledItem | Nonterminal::Statement) || is_hoistable_declaration(n)
}

#[tactic(auto, unfolding(crate::specs::Nonterminals::is_module_declaration))]
pub(crate) fn is_module_declaration(n: Nonterminal) -> bool
    ensures { result ≡ is_module_declaration n }
{
    matches!(n, Nonterminal::ModuleDeclaration)
}

#[tactic(auto, unfolding(crate::specs::Nonterminals::is_exported_head))]
pub(crate) fn is_exported_head(n: Nonterminal) -> bool
    ensures { result ≡ is_exported_head n }
{
    matches!(n, Nonterminal::ExportedHead)
}

#[tactic(auto, unfolding(crate::specs::Nonterminals::is_function_head))]
pub(crate) fn is_function_head(n: Nonterminal) -> bool
    ensures { result ≡ is_function_head n }
{
    matches!(n, Nonterminal::FunctionHead)
}

#[tactic(auto, unfolding(crate::specs::Nonterminals::is_generator_head))]
pub(crate) fn is_generator_head(n: Nonterminal) -> bool
    ensures { result ≡ is_generator_head n }
{
    matches!(n, Nonterminal::GeneratorHead)
}

#[tactic(auto, unfolding(crate::specs::Nonterminals::is_async_function_head))]
pub(crate) fn is_async_function_head(n: Nonterminal) -> bool
    ensures { result ≡ is_async_function_head n }
{
    matches!(n, Nonterminal::AsyncFunctionHead)
}

#[tactic(auto, unfolding(crate::specs::Nonterminals::is_async_generator_head))]
pub(crate) fn is_async_generator_head(n: Nonterminal) -> bool
    ensures { result ≡ is_async_generator_head n }
{
    matches!(n, Nonterminal::AsyncGeneratorHead)
}

#[tactic(auto, unfolding(crate::specs::Nonterminals::is_function_tail))]
pub(crate) fn is_function_tail(n: Nonterminal) -> bool
    ensures { result ≡ is_function_tail n }
{
    matches!(n, Nonterminal::FunctionTail)
}

#[tactic(auto, unfolding(crate::specs::Nonterminals::is_getter_tail))]
pub(crate) fn is_getter_tail(n: Nonterminal) -> bool
    ensures { result ≡ is_getter_tail n }
{
    matches!(n, Nonterminal::GetterTail)
}

#[tactic(auto, unfolding(crate::specs::Nonterminals::is_setter_tail))]
pub(crate) fn is_setter_tail(n: Nonterminal) -> bool
    ensures { result ≡ is_setter_tail n }
{
    matches!(n, Nonterminal::SetterTail)
}

#[tactic(auto, unfolding(crate::specs::Nonterminals::is_method_head))]
pub(crate) fn is_method_head(n: Nonterminal) -> bool
    ensures { result ≡ is_method_head n }
{
    matches!(n, Nonterminal::MethodHead)
}

#[tactic(auto, unfolding(crate::specs::Nonterminals::is_decorator_list))]
pub(crate) fn is_decorator_list(n: Nonterminal) -> bool
    ensures { result ≡ is_decorator_list n }
{
    matches!(n, Nonterminal::DecoratorList)
}

#[tactic(auto, unfolding(crate::specs::Nonterminals::is_class_head))]
pub(crate) fn is_class_head(n: Nonterminal) -> bool
    ensures { result ≡ is_class_head n }
{
    matches!(n, Nonterminal::ClassHead)
}

#[tactic(auto, unfolding(crate::specs::Nonterminals::is_class_tail))]
pub(crate) fn is_class_tail(n: Nonterminal) -> bool
    ensures { result ≡ is_class_tail n }
{
    matches!(n, Nonterminal::ClassTail)
}

#[tactic(auto, unfolding(crate::specs::Nonterminals::is_class_element))]
pub(crate) fn is_class_element(n: Nonterminal) -> bool
    ensures { result ≡ is_class_element n }
{
    matches!(n, Nonterminal::ClassElement)
}

#[tactic(auto, unfolding(crate::specs::Nonterminals::is_constructor_name))]
pub(crate) fn is_constructor_name(n: Nonterminal) -> bool
    ensures { result ≡ is_constructor_name n }
{
    matches!(n, Nonterminal::ConstructorName)
}

#[tactic(auto, unfolding(crate::specs::Nonterminals::is_any_function_head))]
pub(crate) fn is_any_function_head(n: Nonterminal) -> bool
    ensures { result ≡ is_any_function_head n }
{
    matches!(
        n,
        Nonterminal::AnyFunctionHead
            | Nonterminal::FunctionHead
            | Nonterminal::GeneratorHead
            | Nonterminal::AsyncFunctionHead
            | Nonterminal::AsyncGeneratorHead
    )
}

#[tactic(auto, unfolding(crate::specs::Nonterminals::is_head_without_yield))]
pub(crate) fn is_head_without_yield(n: Nonterminal) -> bool
    ensures { result ≡ is_head_without_yield n }
{
    matches!(
        n,
        Nonterminal::HeadWithoutYield | Nonterminal::FunctionHead | Nonterminal::AsyncFunctionHead
    )
}

#[tactic(auto, unfolding(crate::specs::Nonterminals::is_head_without_await))]
pub(crate) fn is_head_without_await(n: Nonterminal) -> bool
    ensures { result ≡ is_head_without_await n }
{
    matches!(
        n,
        Nonterminal::HeadWithoutAwait | Nonterminal::FunctionHead | Nonterminal::GeneratorHead
    )
}

#[tactic(auto, unfolding(crate::specs::Nonterminals::is_any_property_name))]
pub(crate) fn is_any_property_name(n: Nonterminal) -> bool
    ensures { result ≡ is_any_property_name n }
{
    matches!(
        n,
        Nonterminal::AnyPropertyName | Nonterminal::PropertyName | Nonterminal::ConstructorName
    )
}

#[tactic(auto, unfolding(crate::specs::Nonterminals::is_jsx_element))]
pub(crate) fn is_jsx_element(n: Nonterminal) -> bool
    ensures { result ≡ is_jsx_element n }
{
    matches!(n, Nonterminal::JSXElement)
}

#[tactic(auto, unfolding(crate::specs::Nonterminals::is_jsx_object))]
pub(crate) fn is_jsx_object(n: Nonterminal) -> bool
    ensures { result ≡ is_jsx_object n }
{
    matches!(n, Nonterminal::JSXObject)
}
