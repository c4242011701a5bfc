//! What is said of a node.

ghost use Rattle.std.specs.Prelude.{◌≡◌, ◌&&◌, true, false};
ghost use Rattle.swc_ecma_codegen_syntax.specs.Verdicts.{unasked, meet, by_place, by_rule, by_scope, by_core, standing, holds};

use crate::nonterminals::{Nonterminal, takes};

/// Whether a tree is a derivation, and what it lacks where it isn't.
#[derive(Clone, Copy, Debug, PartialEq, Eq)]
pub struct Verdict {
    /// Each node has a production here.
    pub covered: bool,
    /// Nothing is wrong with it but what parentheses mend.
    pub curable: bool,
    /// Each part stands in parentheses where its place wants them.
    pub parenthesized: bool,
    /// Each production is one of the core: of ECMA-262, 2024, of its section B.3.3, and of JSX.
    pub core: bool,
}

/// What a node tells the one above it.
#[derive(Clone, Copy, Debug, PartialEq, Eq)]
pub struct Facts {
    /// The nonterminal of its production.
    pub nonterminal: Nonterminal,
    /// Its AssignmentTargetType is simple, as that of `a`, `a.b` and `(a)`. ECMA-262, section
    /// 8.6.4.
    pub is_simple: bool,
    /// It is a name.
    pub is_name: bool,
    pub verdict: Verdict,
}

/// What a node looks like, where a place asks for more than a nonterminal.
#[derive(Clone, Copy, Debug, PartialEq, Eq)]
pub enum Shape {
    /// Names with dots between, as `a.b.c`.
    Path,
    /// A call of such, `a.b(c)`, or an expression in parentheses: with Path what stands behind `@`.
    /// A proposal, decorators.
    Decorator,
    /// A string, or an object of import attributes: `{ type: 'json' }`. ECMA-262, 2025, section
    /// 16.2.2.
    Attribute,
    /// Anything else, as `a + b` or `a[b]`.
    Other,
}

impl Verdict {
    /// Of what has nothing to ask.
    pub(crate) fn unasked() -> Verdict
        ensures { result ≡ unasked }
    {
        Verdict {
            covered: true,
            curable: true,
            parenthesized: true,
            core: true,
        }
    }

    /// What holds of both.
    #[tactic(auto, unfolding(crate::specs::Verdicts::meet))]
    pub(crate) fn meet(self, other: Verdict) -> Verdict
        ensures { result ≡ meet self other }
    {
        Verdict {
            covered: self.covered && other.covered,
            curable: self.curable && other.curable,
            parenthesized: self.parenthesized && other.parenthesized,
            core: self.core && other.core,
        }
    }

    /// Where this isn't so, parentheses mend it.
    #[tactic(auto, unfolding(crate::specs::Verdicts::by_place))]
    pub(crate) fn by_place(self, is_so: bool) -> Verdict
        ensures { result ≡ by_place self is_so }
    {
        Verdict {
            parenthesized: self.parenthesized && is_so,
            ..self
        }
    }

    /// Where this isn't so, nothing mends it.
    #[tactic(auto, unfolding(crate::specs::Verdicts::by_rule))]
    pub(crate) fn by_rule(self, is_so: bool) -> Verdict
        ensures { result ≡ by_rule self is_so }
    {
        Verdict {
            curable: self.curable && is_so,
            ..self
        }
    }

    /// Where this isn't so, there is no production here.
    #[tactic(auto, unfolding(crate::specs::Verdicts::by_scope))]
    pub(crate) fn by_scope(self, is_so: bool) -> Verdict
        ensures { result ≡ by_scope self is_so }
    {
        Verdict {
            covered: self.covered && is_so,
            ..self
        }
    }

    /// Where this isn't so, the production lies outside the core.
    #[tactic(auto, unfolding(crate::specs::Verdicts::by_core))]
    pub(crate) fn by_core(self, is_so: bool) -> Verdict
        ensures { result ≡ by_core self is_so }
    {
        Verdict {
            core: self.core && is_so,
            ..self
        }
    }

    /// Whether a part of one nonterminal stands where another does.
    #[tactic(auto, unfolding(crate::specs::Verdicts::standing, crate::specs::Verdicts::is_mended))]
    pub(crate) fn standing(self, place: Nonterminal, part: Nonterminal) -> Verdict
        ensures { result ≡ standing self place part }
    {
        if takes(place, part) {
            self
        } else if takes(place, Nonterminal::PrimaryExpression)
            && takes(Nonterminal::Expression, part)
        {
            self.by_place(false)
        } else {
            self.by_rule(false)
        }
    }

    /// Whether the tree is a derivation.
    #[tactic(auto, unfolding(crate::specs::Verdicts::holds))]
    pub fn is_derivation(self) -> bool
        ensures { result ≡ holds true self }
    {
        self.covered && self.curable && self.parenthesized
    }

    /// Whether it is one, or would be with parentheses more.
    #[tactic(auto, unfolding(crate::specs::Verdicts::holds))]
    pub fn is_curable(self) -> bool
        ensures { result ≡ holds false self }
    {
        self.covered && self.curable
    }
}
