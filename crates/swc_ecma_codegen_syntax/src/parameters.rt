//! The parameters of nonterminals.

ghost use Rattle.std.specs.Prelude.{◌≡◌, true, false};
ghost use Rattle.swc_ecma_codegen_syntax.specs.Parameters.{of_script, of_module, with_in, to_end, before_operator, of_targets, of_bindings, of_declarations, of_for, of_loop, in_list, in_block, before, in_statement, in_do_while, in_branch, in_if_else, labelled, behind_label, of_parameters, of_function, of_function_name, of_arrow_parameters, of_arrow_value, of_arrow_block, of_class, of_field, of_static_block, may_yield, may_await};

/// Where a statement stands.
#[derive(Clone, Copy, Debug, PartialEq, Eq)]
pub enum Position {
    /// In a list, as in a block: a declaration may stand there.
    Item,
    /// Behind a label, in a list: of declarations only a function may stand there, in code that
    /// isn't strict. ECMA-262, section 14.13.
    Labelled,
    /// In another statement, as `b;` of `while (a) b;`: no declaration may stand there.
    Inner,
    /// In an `if`, as `b;` of `if (a) b;`: of declarations only a function may stand there, in code
    /// that isn't strict. ECMA-262, section B.3.3.
    Branch,
}

/// What a place gives the nonterminals that stand there. ECMA-262, section 5.1.5.
#[derive(Clone, Copy, Debug, PartialEq, Eq)]
pub struct Parameters {
    /// `[In]`: `in` is an operator here. It is none in the head of `for (a; b; c) {}`.
    pub has_in: bool,
    /// `[Yield]`: inside a generator, where `yield` is no name.
    pub has_yield: bool,
    /// `[Await]`: inside an async function, in a module outside functions, and in a static block of
    /// a class, where `await` is no name.
    pub has_await: bool,
    /// `[Return]`: inside a function. No expression by itself asks for it.
    pub has_return: bool,
    /// In strict code. Section 11.2.2.
    pub is_strict: bool,
    /// `await` is no name here: in a module. Section 13.1.1.
    pub reserves_await: bool,
    /// No `yield a` and no `await a` stands here, whatever `[Yield]` and `[Await]` are: among the
    /// parameters of a function (sections 15.3.1, 15.5.1, 15.6.1, 15.8.1 and 15.9.1), and in a
    /// static block of a class, but not in a function there (section 15.7.1).
    pub bars_operators: bool,
    /// No `using` declaration stands here: in a script, outside blocks, functions and classes. A
    /// proposal, explicit resource management.
    pub bars_using: bool,
    /// A pattern here is one of a binding, as in `let [a] = b`, and not one of an assignment, as
    /// `[a.b] = c`.
    pub is_binding: bool,
    /// Variables that are declared here get their values of a loop, as `a` of
    /// `for (let a of b) {}`.
    pub is_loop_head: bool,
    /// A `var` may have a value there: in `for (var a = b in c)`, in code that isn't strict.
    /// ECMA-262, section B.3.5.
    pub initializes: bool,
    /// Where a statement stands.
    pub position: Position,
    /// `else` stands right behind the statement. It would belong to an `if` without one that ends
    /// it.
    pub before_else: bool,
    /// An empty statement stands right behind the statement. A `do a; while (b)` that ends it would
    /// take its semicolon.
    pub before_empty: bool,
    /// The operator `<` stands right behind the expression. Parsers take an element of JSX that
    /// ends it for one that stands beside another.
    pub before_less: bool,
    /// The emission is to minify: it leaves `()` away from `new A()`.
    pub minify: bool,
}

impl Parameters {
    /// Those of an expression of a script, outside functions.
    pub fn script() -> Parameters
        ensures { result ≡ of_script }
    {
        Parameters {
            has_in: true,
            has_yield: false,
            has_await: false,
            has_return: false,
            is_strict: false,
            reserves_await: false,
            bars_operators: false,
            bars_using: true,
            is_binding: false,
            is_loop_head: false,
            initializes: false,
            position: Position::Item,
            before_else: false,
            before_empty: false,
            before_less: false,
            minify: false,
        }
    }

    /// Those of an expression of a module, outside functions.
    pub fn module() -> Parameters
        ensures { result ≡ of_module }
    {
        Parameters {
            has_await: true,
            is_strict: true,
            reserves_await: true,
            bars_using: false,
            ..Parameters::script()
        }
    }
}

/// Those of a list of statements in braces.
pub(crate) fn in_block(parameters: Parameters) -> Parameters
    ensures { result ≡ in_block parameters }
{
    Parameters {
        bars_using: false,
        ..parameters
    }
}

/// These parameters with `[+In]`, as between brackets.
pub(crate) fn with_in(parameters: Parameters) -> Parameters
    ensures { result ≡ with_in parameters }
{
    Parameters {
        has_in: true,
        before_less: false,
        ..parameters
    }
}

/// These parameters with `[+In]`, for what ends the expression.
pub(crate) fn to_end(parameters: Parameters) -> Parameters
    ensures { result ≡ to_end parameters }
{
    Parameters {
        has_in: true,
        ..parameters
    }
}

/// Those of what stands before an operator.
pub(crate) fn before_operator(less: bool, parameters: Parameters) -> Parameters
    ensures { result ≡ before_operator less parameters }
{
    Parameters {
        before_less: less,
        ..parameters
    }
}

/// Those of what is assigned to.
pub(crate) fn of_targets(parameters: Parameters) -> Parameters
    ensures { result ≡ of_targets parameters }
{
    Parameters {
        has_in: true,
        before_less: false,
        is_binding: false,
        ..parameters
    }
}

/// Those of names that are bound.
pub(crate) fn of_bindings(parameters: Parameters) -> Parameters
    ensures { result ≡ of_bindings parameters }
{
    Parameters {
        is_binding: true,
        ..parameters
    }
}

/// Those of what a statement declares.
pub(crate) fn of_declarations(parameters: Parameters) -> Parameters
    ensures { result ≡ of_declarations parameters }
{
    Parameters {
        has_in: true,
        is_loop_head: false,
        ..parameters
    }
}

/// Those of what stands first in `for (a; b; c) {}`.
pub(crate) fn of_for(parameters: Parameters) -> Parameters
    ensures { result ≡ of_for parameters }
{
    Parameters {
        has_in: false,
        is_loop_head: false,
        ..parameters
    }
}

/// Those of what is declared in `for (a of b) {}`.
pub(crate) fn of_loop(initializes: bool, parameters: Parameters) -> Parameters
    ensures { result ≡ of_loop initializes parameters }
{
    Parameters {
        has_in: false,
        is_loop_head: true,
        initializes,
        ..parameters
    }
}

/// Those of an item of a list of statements.
pub(crate) fn in_list(before_empty: bool, parameters: Parameters) -> Parameters
    ensures { result ≡ in_list before_empty parameters }
{
    Parameters {
        position: Position::Item,
        before_else: false,
        before_empty,
        before_less: false,
        ..parameters
    }
}

/// These parameters, by whether an empty statement stands right behind.
pub(crate) fn before(empty: bool, parameters: Parameters) -> Parameters
    ensures { result ≡ before empty parameters }
{
    Parameters {
        before_empty: empty,
        ..parameters
    }
}

/// Those of the statement of `do a; while (b)`.
pub(crate) fn in_do_while(parameters: Parameters) -> Parameters
    ensures { result ≡ in_do_while parameters }
{
    Parameters {
        position: Position::Inner,
        before_else: false,
        before_empty: false,
        ..parameters
    }
}

/// Those of a statement that ends an `if`.
pub(crate) fn in_branch(parameters: Parameters) -> Parameters
    ensures { result ≡ in_branch parameters }
{
    Parameters {
        position: Position::Branch,
        ..parameters
    }
}

/// Those of the statement before `else`.
pub(crate) fn in_if_else(parameters: Parameters) -> Parameters
    ensures { result ≡ in_if_else parameters }
{
    Parameters {
        position: Position::Branch,
        before_else: true,
        before_empty: false,
        ..parameters
    }
}

/// Those of the statement that ends another.
pub(crate) fn in_statement(parameters: Parameters) -> Parameters
    ensures { result ≡ in_statement parameters }
{
    Parameters {
        position: Position::Inner,
        ..parameters
    }
}

/// Where the statement behind a label stands.
#[tactic(auto, unfolding(crate::specs::Parameters::labelled))]
fn labelled(position: Position) -> Position
    ensures { result ≡ labelled position }
{
    match position {
        Position::Inner | Position::Branch => Position::Inner,
        Position::Item | Position::Labelled => Position::Labelled,
    }
}

/// Those of the statement behind a label.
pub(crate) fn behind_label(parameters: Parameters) -> Parameters
    ensures { result ≡ behind_label parameters }
{
    Parameters {
        position: labelled(parameters.position),
        ..parameters
    }
}

/// Those of the parameters of a function.
pub(crate) fn of_parameters(
    is_generator: bool,
    is_async: bool,
    parameters: Parameters,
) -> Parameters
    ensures { result ≡ of_parameters is_generator is_async parameters }
{
    Parameters {
        has_return: parameters.has_return,
        bars_operators: true,
        ..of_function(is_generator, is_async, parameters)
    }
}

/// Those of the body of a function.
pub(crate) fn of_function(is_generator: bool, is_async: bool, parameters: Parameters) -> Parameters
    ensures { result ≡ of_function is_generator is_async parameters }
{
    Parameters {
        has_in: true,
        has_yield: is_generator,
        has_await: is_async,
        has_return: true,
        bars_operators: false,
        is_binding: true,
        ..parameters
    }
}

/// Those of the name of a function expression.
pub(crate) fn of_function_name(parameters: Parameters) -> Parameters
    ensures { result ≡ of_function_name parameters }
{
    Parameters {
        has_yield: false,
        has_await: false,
        ..parameters
    }
}

/// Those of the parameters of an arrow function.
pub(crate) fn of_arrow_parameters(is_async: bool, parameters: Parameters) -> Parameters
    ensures { result ≡ of_arrow_parameters is_async parameters }
{
    Parameters {
        has_in: true,
        has_await: is_async || parameters.has_await,
        bars_operators: true,
        is_binding: true,
        ..parameters
    }
}

/// Those of an expression that is the body of an arrow function.
pub(crate) fn of_arrow_value(is_async: bool, parameters: Parameters) -> Parameters
    ensures { result ≡ of_arrow_value is_async parameters }
{
    Parameters {
        has_yield: false,
        has_await: is_async,
        bars_operators: false,
        ..parameters
    }
}

/// Those of a block that is the body of an arrow function.
pub(crate) fn of_arrow_block(is_async: bool, parameters: Parameters) -> Parameters
    ensures { result ≡ of_arrow_block is_async parameters }
{
    Parameters {
        has_in: true,
        has_yield: false,
        has_await: is_async,
        has_return: true,
        bars_operators: false,
        ..parameters
    }
}

/// Those of what stands in a class.
pub(crate) fn of_class(parameters: Parameters) -> Parameters
    ensures { result ≡ of_class parameters }
{
    Parameters {
        has_in: true,
        before_less: false,
        is_strict: true,
        ..parameters
    }
}

/// Those of the value of a field.
pub(crate) fn of_field(parameters: Parameters) -> Parameters
    ensures { result ≡ of_field parameters }
{
    Parameters {
        has_in: true,
        has_yield: false,
        has_await: false,
        bars_operators: false,
        ..parameters
    }
}

/// Those of a static block.
pub(crate) fn of_static_block(parameters: Parameters) -> Parameters
    ensures { result ≡ of_static_block parameters }
{
    Parameters {
        has_in: true,
        has_yield: false,
        has_await: true,
        has_return: false,
        bars_operators: true,
        ..parameters
    }
}

/// Whether `yield a` may stand there.
pub(crate) fn may_yield(parameters: Parameters) -> bool
    ensures { result ≡ may_yield parameters }
{
    parameters.has_yield && !parameters.bars_operators
}

/// Whether `await a` may stand there, and `for await (a of b) {}`.
pub(crate) fn may_await(parameters: Parameters) -> bool
    ensures { result ≡ may_await parameters }
{
    parameters.has_await && !parameters.bars_operators
}
