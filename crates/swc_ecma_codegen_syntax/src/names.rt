//! Names and literals.

ghost use Rattle.std.specs.Prelude.{◌≡◌, bytes_eq};
ghost use Rattle.swc_ecma_codegen_syntax.specs.Forms.{judge};
ghost use Rattle.swc_ecma_codegen_syntax.specs.NameForms.{is_one_of, statement_words, declaration_words, expression_words, is_reserved, strict_words, is_free, is_assignable, has_no_escape, name_form, is_literal_value, is_literal_number, is_literal, lit_form};

use crate::forms::Answers;
use crate::parameters::Parameters;
use crate::verdicts::Verdict;
use swc_ecma_codegen_tree::{Ident, Lit, Number, NumberValue};

/// Whether a text is this word.
pub(crate) fn is(text: &str, word: &str) -> bool
    ensures { result ≡ bytes_eq text.now word.now }
{
    text == word
}

/// Whether a text is a reserved word of statements. ECMA-262, section 12.7.2.
#[tactic(auto, unfolding(crate::specs::NameForms::is_one_of))]
fn is_statement_word(text: &str) -> bool
    ensures { result ≡ is_one_of statement_words text.now }
{
    is(text, "break")
        || is(text, "case")
        || is(text, "catch")
        || is(text, "continue")
        || is(text, "debugger")
        || is(text, "default")
        || is(text, "do")
        || is(text, "else")
        || is(text, "finally")
        || is(text, "for")
        || is(text, "if")
        || is(text, "return")
        || is(text, "switch")
        || is(text, "throw")
        || is(text, "try")
        || is(text, "while")
        || is(text, "with")
}

/// Whether it is one of declarations.
#[tactic(auto, unfolding(crate::specs::NameForms::is_one_of))]
fn is_declaration_word(text: &str) -> bool
    ensures { result ≡ is_one_of declaration_words text.now }
{
    is(text, "class")
        || is(text, "const")
        || is(text, "enum")
        || is(text, "export")
        || is(text, "extends")
        || is(text, "function")
        || is(text, "import")
        || is(text, "var")
}

/// Whether it is one of expressions.
#[tactic(auto, unfolding(crate::specs::NameForms::is_one_of))]
fn is_expression_word(text: &str) -> bool
    ensures { result ≡ is_one_of expression_words text.now }
{
    is(text, "delete")
        || is(text, "false")
        || is(text, "in")
        || is(text, "instanceof")
        || is(text, "new")
        || is(text, "null")
        || is(text, "super")
        || is(text, "this")
        || is(text, "true")
        || is(text, "typeof")
        || is(text, "void")
}

/// Whether a text is a reserved word, but for `await` and `yield`.
#[tactic(auto, unfolding(crate::specs::NameForms::is_reserved))]
fn is_reserved(text: &str) -> bool
    ensures { result ≡ is_reserved text.now }
{
    is_statement_word(text) || is_declaration_word(text) || is_expression_word(text)
}

/// Whether a text is no name in strict code. ECMA-262, section 13.1.1.
#[tactic(auto, unfolding(crate::specs::NameForms::is_one_of))]
fn is_strict_word(text: &str) -> bool
    ensures { result ≡ is_one_of strict_words text.now }
{
    is(text, "implements")
        || is(text, "interface")
        || is(text, "let")
        || is(text, "package")
        || is(text, "private")
        || is(text, "protected")
        || is(text, "public")
        || is(text, "static")
        || is(text, "yield")
}

/// Whether a text is a name here.
#[tactic(auto, unfolding(crate::specs::NameForms::is_free))]
pub(crate) fn is_free(text: &str, parameters: Parameters) -> bool
    ensures { result ≡ is_free parameters text.now }
{
    !is_reserved(text)
        && !(parameters.is_strict && is_strict_word(text))
        && !(parameters.has_yield && is(text, "yield"))
        && !((parameters.has_await || parameters.reserves_await) && is(text, "await"))
}

/// Whether a name may be assigned to, or bound: not `eval` and `arguments` in strict code.
/// ECMA-262, section 13.1.3.
#[tactic(auto, unfolding(crate::specs::NameForms::is_assignable))]
pub(crate) fn is_assignable(text: &str, is_strict: bool) -> bool
    ensures { result ≡ is_assignable is_strict text.now }
{
    !(is_strict && (is(text, "eval") || is(text, "arguments")))
}

/// Whether a name is spelled without escapes.
#[tactic(auto, unfolding(crate::specs::NameForms::has_no_escape))]
pub(crate) fn has_no_escape(text: &str) -> bool
    ensures { result ≡ has_no_escape text.now }
{
    for byte in text.as_bytes() {
        if *byte == b'\\' {
            return false;
        }
    }
    true
}

/// The verdict so far, and of a name.
#[tactic(auto, unfolding(crate::specs::NameForms::name_form, crate::specs::Forms::judge, crate::specs::Forms::asked))]
pub(crate) fn name<N: Answers>(so_far: Verdict, name: &Ident, parameters: Parameters) -> Verdict
    ensures { result ≡ judge N.answers so_far (name_form parameters name.now) }
{
    so_far
        .by_rule(is_free(&name.sym, parameters))
        .by_scope(has_no_escape(&name.sym) && !name.optional)
}

#[tactic(auto, unfolding(crate::specs::NameForms::is_literal_value))]
pub(crate) fn is_literal_number(number: &Number) -> bool
    ensures { result ≡ is_literal_number number.now }
{
    match &number.value {
        NumberValue::Finite(decimal) => !decimal.negative(),
        NumberValue::Infinity => number.raw.is_some(),
        NumberValue::NegInfinity | NumberValue::NaN => false,
    }
}

/// Whether a literal is one: `-1` is an operator and a number.
#[tactic(auto, unfolding(crate::specs::NameForms::is_literal))]
fn is_literal(lit: &Lit) -> bool
    ensures { result ≡ is_literal lit.now }
{
    match lit {
        Lit::Num(number) => is_literal_number(number),
        Lit::BigInt(number) => !number.negative,
        _ => true,
    }
}

/// The verdict so far, and of a literal.
#[tactic(auto, unfolding(crate::specs::NameForms::lit_form, crate::specs::Forms::judge, crate::specs::Forms::asked))]
pub(crate) fn lit<N: Answers>(so_far: Verdict, lit: &Lit) -> Verdict
    ensures { result ≡ judge N.answers so_far (lit_form lit.now) }
{
    so_far.by_rule(is_literal(lit))
}
