//! Regular expressions.

ghost use Rattle.std.specs.Prelude.{◌≡◌, ℕ, List, [], ◌∷◌, false, IfSome, IfNone};
ghost use Rattle.std.specs.Str.{chars};
ghost use Rattle.swc_ecma_codegen_grammar.specs.LitPhrases.{regex_text};
ghost use Rattle.swc_ecma_codegen_grammar.specs.Names.{all_part};
ghost use Rattle.swc_ecma_codegen_grammar.specs.RegularExpressions.{is_regex};
ghost use Rattle.swc_ecma_codegen_validate.specs.RegexStates.{goes_on};

use swc_ecma_codegen_grammar::characters::{is_line_end, is_part};
use swc_ecma_codegen_grammar::texts::split_first;

/// Where the reading of a body stands.
#[derive(Clone, Copy)]
pub(crate) struct RegexState {
    /// In a class, as after the `[` of `[/]`.
    inside: bool,
    /// A backslash came last.
    escaped: bool,
}

/// After one more character, or `None` where no body goes on like this.
#[tactic(auto, using(crate::proofs::Slashes::slash_ends), unfolding(crate::specs::RegexStates::goes_on, swc_ecma_codegen_grammar::specs::RegularExpressions::ends_regex, swc_ecma_codegen_grammar::specs::RegularExpressions::class_after))]
fn next(state: RegexState, c: char) -> Option<RegexState>
    ensures some { IfSome result (λ s. (rest : List ℕ) →
        goes_on state (c ∷ rest) ≡ goes_on s rest) }
    ensures none { IfNone result ((rest : List ℕ) → goes_on state (c ∷ rest) ≡ false) }
{
    let RegexState { inside, escaped } = state;
    match c {
        _ if is_line_end(c) => None,
        _ if escaped => Some(RegexState {
            inside,
            escaped: false,
        }),
        '/' if !inside => None,
        _ => Some(RegexState {
            inside: c == '[' || (inside && c != ']'),
            escaped: c == '\\',
        }),
    }
}

/// Whether the slash after a body is the one that ends it: not after `[`, nor after a backslash.
#[tactic(auto, unfolding(crate::specs::RegexStates::goes_on, swc_ecma_codegen_grammar::specs::RegularExpressions::ends_regex, swc_ecma_codegen_grammar::specs::Names::all_part))]
fn is_closed(body: &str) -> bool
    ensures { result ≡ goes_on (record { inside = false; escaped = false }) (chars body.now) }
{
    let mut rest = body;
    let mut state = RegexState {
        inside: false,
        escaped: false,
    };
    while let Some((c, more)) = split_first(rest) {
        match next(state, c) {
            Some(after) => state = after,
            None => return false,
        }
        rest = more;
    }
    !state.inside && !state.escaped
}

/// Whether it is the body of a regular expression. ECMA-262, section 12.9.5.
#[tactic(auto, unfolding(crate::specs::RegexStates::goes_on, swc_ecma_codegen_grammar::specs::LitPhrases::regex_text, swc_ecma_codegen_grammar::specs::RegularExpressions::is_regex, swc_ecma_codegen_grammar::specs::RegularExpressions::regex_body))]
pub(crate) fn is_body(body: &str) -> bool
    ensures { result ≡ is_regex (regex_text (chars body.now) []) }
{
    match split_first(body) {
        None => false,
        Some((c, _)) => c != '*' && is_closed(body),
    }
}

/// Whether they are flags.
#[tactic(auto, unfolding(swc_ecma_codegen_grammar::specs::Names::all_part))]
pub(crate) fn are_flags(flags: &str) -> bool
    ensures { result ≡ all_part (chars flags.now) }
{
    let mut rest = flags;
    while let Some((c, more)) = split_first(rest) {
        if !is_part(c) {
            return false;
        }
        rest = more;
    }
    true
}
