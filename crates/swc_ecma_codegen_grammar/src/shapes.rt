//! Which texts are tokens of each kind, as plain programs.

ghost use Rattle.std.specs.Prelude.{◌≡◌};
ghost use Rattle.swc_ecma_codegen_grammar.specs.Chars as chars;
ghost use Rattle.swc_ecma_codegen_grammar.specs.Texts as texts;
ghost use Rattle.swc_ecma_codegen_grammar.specs.Strings as strings;
ghost use Rattle.swc_ecma_codegen_grammar.specs.RegularExpressions as regexes;
ghost use Rattle.swc_ecma_codegen_grammar.specs.Templates as templates;
ghost use Rattle.swc_ecma_codegen_grammar.specs.Jsx as jsx;
ghost use Rattle.swc_ecma_codegen_grammar.specs.Hashbangs as hashbangs;

use crate::characters::{is_line_end, is_part, is_quote, is_start};
use crate::kinds::TemplatePart;
use crate::names::all_part;
use crate::string_values::has_string_value;
use crate::template_values::has_cooked_value;

/// Whether one text is another.
#[tactic(auto, unfolding(crate::specs::Texts::is_same))]
pub fn is_same(text: &[char], other: &[char]) -> bool
    ensures { result ≡ texts.is_same text.now other.now }
{
    match text {
        [] => other.is_empty(),
        [c, rest @ ..] => match other {
            [] => false,
            [d, more @ ..] => *c == *d && is_same(rest, more),
        },
    }
}

/// Whether the second text begins with the first.
#[tactic(auto, unfolding(crate::specs::Texts::begins))]
pub fn begins(front: &[char], text: &[char]) -> bool
    ensures { result ≡ texts.begins front.now text.now }
{
    match front {
        [] => true,
        [c, rest @ ..] => match text {
            [] => false,
            [d, more @ ..] => *c == *d && begins(rest, more),
        },
    }
}

/// A string. Sections 12.9.4 and B.1.2.
#[tactic(auto, unfolding(crate::specs::Strings::is_string))]
pub fn is_string(text: &[char]) -> bool
    ensures { result ≡ strings.is_string text.now }
{
    has_string_value(true, text)
}

#[tactic(auto, unfolding(crate::specs::RegularExpressions::class_after))]
fn class_after(inside: bool, c: char) -> bool
    ensures { result ≡ regexes.class_after inside c }
{
    match c {
        '[' => true,
        ']' => false,
        _ => inside,
    }
}

#[tactic(auto, unfolding(crate::specs::RegularExpressions::ends_regex))]
fn ends_regex(inside: bool, escaped: bool, text: &[char]) -> bool
    ensures { result ≡ regexes.ends_regex inside escaped text.now }
{
    match text {
        [] => false,
        [c, rest @ ..] if escaped => !is_line_end(*c) && ends_regex(inside, false, rest),
        [c, rest @ ..] if *c == '/' && !inside => all_part(rest),
        [c, rest @ ..] => {
            !is_line_end(*c) && ends_regex(class_after(inside, *c), *c == '\\', rest)
        }
    }
}

#[tactic(auto, unfolding(crate::specs::RegularExpressions::regex_body))]
fn regex_body(text: &[char]) -> bool
    ensures { result ≡ regexes.regex_body text.now }
{
    match text {
        [] => false,
        [c, ..] => *c != '*' && *c != '/' && ends_regex(false, false, text),
    }
}

/// A regular expression. Section 12.9.5.
#[tactic(auto, unfolding(crate::specs::RegularExpressions::is_regex))]
pub fn is_regex(text: &[char]) -> bool
    ensures { result ≡ regexes.is_regex text.now }
{
    match text {
        [] => false,
        [c, rest @ ..] => *c == '/' && regex_body(rest),
    }
}

#[tactic(auto, unfolding(crate::specs::Templates::ends_template, crate::specs::Texts::is_empty, crate::specs::Texts::is_same, crate::specs::Texts::begins))]
fn ends_template(opens: bool, escaped: bool, text: &[char]) -> bool
    ensures { result ≡ templates.ends_template opens escaped text.now }
{
    match text {
        [] => false,
        [_, rest @ ..] if escaped => ends_template(opens, false, rest),
        [c, rest @ ..] if *c == '`' => !opens && rest.is_empty(),
        [c, rest @ ..] if *c == '$' && begins(&['{'], rest) => opens && is_same(rest, &['{']),
        [c, rest @ ..] => ends_template(opens, *c == '\\', rest),
    }
}

/// What stands before the end, in the rest of a part of a template.
#[tactic(auto, unfolding(crate::specs::Templates::before_end, crate::specs::Templates::part_end))]
fn before_end(part: TemplatePart, rest: &[char]) -> &[char]
    ensures { result.now ≡ templates.before_end part rest.now }
{
    let end = if part.opens { 2 } else { 1 };
    rest.get(..rest.len().saturating_sub(end)).unwrap_or(rest)
}

#[tactic(auto, unfolding(crate::specs::Templates::goes_on_as))]
fn goes_on_as(part: TemplatePart, rest: &[char]) -> bool
    ensures { result ≡ templates.goes_on_as part rest.now }
{
    ends_template(part.opens, false, rest)
        && (part.tagged || has_cooked_value(before_end(part, rest)))
}

/// A template up to its first substitution or its end. Section 12.9.6.
#[tactic(auto, unfolding(crate::specs::Templates::is_template))]
pub fn is_template(part: TemplatePart, text: &[char]) -> bool
    ensures { result ≡ templates.is_template part text.now }
{
    match text {
        [] => false,
        [c, rest @ ..] => *c == '`' && goes_on_as(part, rest),
    }
}

/// A template from a substitution on. Section 12.9.6.
#[tactic(auto, unfolding(crate::specs::Templates::is_template_rest))]
pub fn is_template_rest(part: TemplatePart, text: &[char]) -> bool
    ensures { result ≡ templates.is_template_rest part text.now }
{
    match text {
        [] => false,
        [c, rest @ ..] => *c == '}' && goes_on_as(part, rest),
    }
}

#[tactic(auto, unfolding(crate::specs::Jsx::all_tag))]
fn all_tag(text: &[char]) -> bool
    ensures { result ≡ jsx.all_tag text.now }
{
    match text {
        [] => true,
        [c, rest @ ..] => (is_part(*c) || '-' == *c) && all_tag(rest),
    }
}

/// A name in a tag. JSX specification, JSXIdentifier.
#[tactic(auto, unfolding(crate::specs::Jsx::is_jsx_name))]
pub fn is_jsx_name(text: &[char]) -> bool
    ensures { result ≡ jsx.is_jsx_name text.now }
{
    match text {
        [] => false,
        [c, rest @ ..] => is_start(*c) && all_tag(rest),
    }
}

#[tactic(auto, unfolding(crate::specs::Jsx::ends_jsx_string, crate::specs::Texts::is_empty))]
fn ends_jsx_string(quote: char, text: &[char]) -> bool
    ensures { result ≡ jsx.ends_jsx_string quote text.now }
{
    match text {
        [] => false,
        [c, rest @ ..] if *c == quote => rest.is_empty(),
        [_, rest @ ..] => ends_jsx_string(quote, rest),
    }
}

/// The string of an attribute. JSX specification, JSXString.
#[tactic(auto, unfolding(crate::specs::Jsx::is_jsx_string))]
pub fn is_jsx_string(text: &[char]) -> bool
    ensures { result ≡ jsx.is_jsx_string text.now }
{
    match text {
        [] => false,
        [quote, rest @ ..] => is_quote(*quote) && ends_jsx_string(*quote, rest),
    }
}

#[tactic(auto, unfolding(crate::specs::Jsx::all_bare, crate::specs::Jsx::is_bare))]
fn all_bare(text: &[char]) -> bool
    ensures { result ≡ jsx.all_bare text.now }
{
    match text {
        [] => true,
        [c, rest @ ..] => *c != '{' && *c != '}' && *c != '<' && *c != '>' && all_bare(rest),
    }
}

/// Text between tags. JSX specification, JSXText.
#[tactic(auto, unfolding(crate::specs::Jsx::is_jsx_text, crate::specs::Texts::is_empty))]
pub fn is_jsx_text(text: &[char]) -> bool
    ensures { result ≡ jsx.is_jsx_text text.now }
{
    !text.is_empty() && all_bare(text)
}

/// The `{` or `<` that begins a child of a JSX element, or its closing tag.
#[tactic(auto, unfolding(crate::specs::Jsx::is_jsx_open, crate::specs::Texts::is_among))]
pub fn is_jsx_open(text: &[char]) -> bool
    ensures { result ≡ jsx.is_jsx_open text.now }
{
    is_same(text, &['{']) || is_same(text, &['<'])
}

/// Whether a text holds no line terminator. Section 12.3.
#[tactic(auto, unfolding(crate::specs::Chars::is_one_line))]
pub fn is_one_line(text: &[char]) -> bool
    ensures { result ≡ chars.is_one_line text.now }
{
    match text {
        [] => true,
        [c, rest @ ..] => !is_line_end(*c) && is_one_line(rest),
    }
}

/// A hashbang. Section 12.5.
#[tactic(auto, unfolding(crate::specs::Hashbangs::is_hashbang))]
pub fn is_hashbang(text: &[char]) -> bool
    ensures { result ≡ hashbangs.is_hashbang text.now }
{
    match text {
        [] => false,
        [c, rest @ ..] => *c == '#' && begins(&['!'], rest) && is_one_line(rest),
    }
}
