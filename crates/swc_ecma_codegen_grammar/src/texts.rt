//! Texts in place, one character after another: whether they may stand between tags of JSX.

ghost use Rattle.std.specs.Prelude.{◌≡◌, [], ◌∷◌, IfSome, IfNone};
ghost use Rattle.std.specs.Str.{chars};
ghost use Rattle.swc_ecma_codegen_grammar.specs.Jsx as jsx;
ghost use Rattle.swc_ecma_codegen_grammar.specs.Texts as texts;

/// The first character of a text, and what follows it.
pub fn split_first(text: &str) -> Option<(char, &str)>
    ensures some { IfSome result (λ r. chars text.now ≡ r.0 ∷ chars r.1.now) }
    ensures none { IfNone result (chars text.now ≡ []) }
{
    let mut chars = text.chars();
    let c = chars.next()?;
    Some((c, chars.as_str()))
}

/// Whether a text has no character.
#[tactic(auto, unfolding(crate::specs::Texts::is_empty))]
pub fn is_empty(text: &str) -> bool
    ensures { result ≡ texts.is_empty (chars text.now) }
{
    split_first(text).is_none()
}

/// Whether each character of a text may stand between tags.
#[tactic(auto, unfolding(crate::specs::Jsx::all_bare, crate::specs::Jsx::is_bare))]
fn all_bare(text: &str) -> bool
    ensures { result ≡ jsx.all_bare (chars text.now) }
{
    let mut rest = text;
    while let Some((c, more)) = split_first(rest) {
        if matches!(c, '{' | '}' | '<' | '>') {
            return false;
        }
        rest = more;
    }
    true
}

/// Whether it is text between tags: `a "b` is, `a {b` isn't, and no text isn't.
#[tactic(auto, unfolding(crate::specs::Jsx::is_jsx_text))]
pub fn is_jsx_text(text: &str) -> bool
    ensures { result ≡ jsx.is_jsx_text (chars text.now) }
{
    !is_empty(text) && all_bare(text)
}
