//! What is asked of a node.

ghost use Rattle.std.specs.Prelude.{◌≡◌, true, false, Option};
ghost use Rattle.swc_ecma_codegen_grammar.specs.declared.roles.Role.{Role as InRole};
ghost use Rattle.swc_ecma_codegen_grammar.specs.declared.roles.Role.TheVariants.{Statement};
ghost use Rattle.swc_ecma_codegen_syntax.specs.declared.parameters.Parameters.{Parameters as Given};
ghost use Rattle.swc_ecma_codegen_syntax.specs.Summary.{Summary, shape_in};
ghost use Rattle.swc_ecma_codegen_syntax.specs.declared.verdicts.Verdict.{Verdict as Judged};
ghost use Rattle.swc_ecma_codegen_syntax.specs.Parameters.{of_script};
ghost use Rattle.swc_ecma_codegen_syntax.specs.Forms.{Part, Simple, Shaped, Restricted, Followed, of_part, judge, verdict_all, verdict_of};
ghost use Rattle.swc_ecma_codegen_syntax.specs.MemberForms.{expr_part};

use crate::lookahead::{Beginning, Lookahead};
use crate::nonterminals::Nonterminal;
use crate::parameters::{Parameters, before};
use crate::verdicts::{Facts, Shape, Verdict};
use swc_ecma_codegen_grammar::roles::Role;
use swc_ecma_codegen_tree::{ExprBox, Link, PatBox, StmtBox};

/// What a link holds.
pub trait Answers {
    ghost answers: { Self → InRole → Given → Summary };

    /// Its facts, as a node in this role.
    fn answer(&self, role: Role, parameters: Parameters) -> Facts
        ensures { result ≡ (answers self.now role parameters).facts };

    /// Whether it is an empty statement.
    fn is_empty(&self) -> bool
        ensures { result ≡ (answers self.now Statement of_script).is_empty };

    /// What it looks like.
    fn shape(&self) -> Shape
        ensures { result ≡ shape_in answers self.now };

    /// What its text begins with, as a node in this role.
    fn begins(&self, role: Role) -> Beginning
        ensures { result ≡ (answers self.now role of_script).begins };
}

/// A node.
pub trait Stands {
    ghost judged: { Given → Self → Judged → Judged };

    /// The verdict so far, and of this node.
    fn judge(&self, so_far: Verdict, parameters: Parameters) -> Verdict
        ensures { result ≡ judged parameters self.now so_far };
}

impl Verdict {
    /// The verdict so far, and of a part, by its facts.
    #[inline]
    pub(crate) fn of_part(self, place: Nonterminal, facts: Facts) -> Verdict
        ensures { result ≡ of_part place self facts }
    {
        self.standing(place, facts.nonterminal).meet(facts.verdict)
    }

    /// The verdict so far, and of what a link holds.
    #[tactic(auto, unfolding(crate::specs::Forms::judge))]
    pub(crate) fn part<K, N: Answers>(
        self,
        link: &Link<K, N>,
        place: Nonterminal,
        parameters: Parameters,
        role: Role,
    ) -> Verdict
        ensures { result ≡ judge N.answers self (Part place parameters role link.now.node.value) }
    {
        self.of_part(place, link.target().answer(role, parameters))
    }

    /// The verdict so far, and of an expression whose AssignmentTargetType is simple, and which is
    /// no name unless `named`.
    #[tactic(auto, unfolding(crate::specs::Forms::judge))]
    pub(crate) fn simple<N: Answers>(
        self,
        link: &ExprBox<N>,
        named: bool,
        place: Nonterminal,
        parameters: Parameters,
    ) -> Verdict
        ensures { result
            ≡ judge N.answers self (Simple named place parameters link.now.node.value) }
    {
        let facts = link.target().answer(Role::Expression, parameters);
        self.by_rule(facts.is_simple && (named || !facts.is_name))
            .of_part(place, facts)
    }

    /// The same of a part of a shape; where it isn't, parentheses mend a decorator alone.
    #[tactic(auto, unfolding(crate::specs::Forms::judge, crate::specs::Forms::asked, crate::specs::Forms::cure_of))]
    pub(crate) fn shaped<K, N: Answers>(
        self,
        link: &Link<K, N>,
        shape: Shape,
        place: Nonterminal,
        parameters: Parameters,
        role: Role,
    ) -> Verdict
        ensures { result
            ≡ judge N.answers self (Shaped shape place parameters role link.now.node.value) }
    {
        let is_so = shape.fits(link.target().shape());
        let verdict = match shape {
            Shape::Decorator => self.by_place(is_so),
            _ => self.by_rule(is_so),
        };
        verdict.part(link, place, parameters, role)
    }

    /// The verdict so far, and of an expression whose text may not begin with what a restriction
    /// names.
    #[tactic(auto, unfolding(crate::specs::Forms::judge, crate::specs::Forms::asked))]
    pub(crate) fn restricted_expr<N: Answers>(
        self,
        link: &ExprBox<N>,
        lookahead: Lookahead,
        place: Nonterminal,
        parameters: Parameters,
    ) -> Verdict
        ensures { result ≡ judge N.answers self
            (Restricted lookahead place parameters false link.now.node.value) }
    {
        let beginning = link.target().begins(Role::Expression);
        self.by_place(!lookahead.excludes(beginning))
            .part(link, place, parameters, Role::Expression)
    }

    /// The verdict so far, and of a statement, by what stands right behind it.
    #[tactic(auto, unfolding(crate::specs::Forms::judge))]
    pub(crate) fn followed<N: Answers>(
        self,
        link: &StmtBox<N>,
        next: &StmtBox<N>,
        place: Nonterminal,
        parameters: Parameters,
    ) -> Verdict
        ensures { result ≡ judge N.answers self
            (Followed place parameters link.now.node.value next.now.node.value) }
    {
        let parameters = before(next.target().is_empty(), parameters);
        self.part(link, place, parameters, Role::Statement)
    }

    /// The verdict so far, and of a pattern whose text may not begin with what a restriction names.
    #[tactic(auto, unfolding(crate::specs::Forms::judge, crate::specs::Forms::asked))]
    pub(crate) fn restricted_pat<N: Answers>(
        self,
        link: &PatBox<N>,
        lookahead: Lookahead,
        place: Nonterminal,
        parameters: Parameters,
    ) -> Verdict
        ensures { result ≡ judge N.answers self
            (Restricted lookahead place parameters true link.now.node.value) }
    {
        let beginning = link.target().begins(Role::Pattern);
        self.by_place(!lookahead.excludes(beginning))
            .part(link, place, parameters, Role::Pattern)
    }
}

/// The verdict so far, and of each.
#[tactic(auto, unfolding(crate::specs::Forms::verdict_all))]
pub(crate) fn all<T: Stands>(so_far: Verdict, nodes: &[T], parameters: Parameters) -> Verdict
    ensures { result ≡ verdict_all (T.judged parameters) so_far nodes.now }
{
    let mut verdict = so_far;
    for node in nodes {
        verdict = node.judge(verdict, parameters);
    }
    verdict
}

/// The verdict so far, and of each expression.
#[tactic(auto, unfolding(crate::specs::Forms::verdict_all, crate::specs::Forms::judge))]
pub(crate) fn all_exprs<N: Answers>(
    so_far: Verdict,
    exprs: &[ExprBox<N>],
    place: Nonterminal,
    parameters: Parameters,
) -> Verdict
    ensures { result
        ≡ verdict_all (λ n v. judge N.answers v (expr_part place parameters n)) so_far exprs.now }
{
    let mut verdict = so_far;
    for expr in exprs {
        verdict = verdict.part(expr, place, parameters, Role::Expression);
    }
    verdict
}

/// A hole among elements is nothing.
impl<T: Stands> Stands for Option<T> {
    ghost judged = { λ c n v. verdict_of (T.judged c) n v };

    #[tactic(auto, unfolding(crate::specs::Forms::verdict_of))]
    fn judge(&self, so_far: Verdict, parameters: Parameters) -> Verdict {
        match self {
            Some(node) => node.judge(so_far, parameters),
            None => so_far,
        }
    }
}
