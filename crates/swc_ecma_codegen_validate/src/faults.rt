//! The first fault of a program: the way to its node, and the rule that is broken.

ghost use Rattle.std.specs.Prelude.{◌≡◌, ◌||◌, ◌∷◌, [], false, codes, IfOk, IfSome, not};
ghost use Rattle.std.specs.Option.{is_none, is_some};
ghost use Rattle.swc_ecma_codegen_grammar.specs.declared.roles.Role.{Role as InRole};
ghost use Rattle.swc_ecma_codegen_grammar.specs.TreePhrases.{is_well_formed};
ghost use Rattle.swc_ecma_codegen_validate.specs.Rules.{Findings, Finds, Named, below, by_rule, in_each, in_some, in_turn as turn, path_of, place_of};
ghost use Rattle.swc_ecma_codegen_validate.specs.TreeRules.{IsTold};

mod decls;
mod exprs;
mod jsx;
mod names;
mod parts;
mod pats;
mod stmts;
mod ts;
mod types;

use crate::forms::LinkRole;
use crate::recursion::is_well_formed;
use std::alloc::{AllocError, Global};
use swc_ecma_codegen_grammar::roles::Role;
use swc_ecma_codegen_tree::{Link, Program};

/// A step from a node to one below it, as in the JSON of a tree: `body`, or the fourth of a list,
/// counted from 0.
#[derive(Clone, Copy, Debug, PartialEq, Eq)]
pub enum Step {
    Field(&'static str),
    Element(usize),
}

/// A node whose own rule is broken: the way to it from the program, and the rule.
#[derive(Drop)]
pub struct Fault {
    /// As in the JSON of a tree, without the names of variants: `body`, 3, `expr`, `left`.
    pub path: Vec<Step>,
    /// In plain words: `a name holds a character that no name may`.
    pub rule: &'static str,
}

/// A rule that is broken, and the way from its node up to where the search stands: the last step
/// comes first.
#[derive(Drop)]
pub(crate) struct Broken {
    way_up: Vec<Step>,
    rule: &'static str,
}

impl Broken {
    /// A rule of the node itself.
    pub(crate) fn here(alloc: Global, rule: &'static str) -> Broken
        ensures path { path_of result ≡ [] }
        ensures rule { result.rule ≡ rule.entry }
    {
        Broken {
            way_up: Vec::new(alloc),
            rule,
        }
    }

    /// The broken rule, as seen from the node that this step leads from.
    pub(crate) fn below(self, step: Step) -> Result<Broken, AllocError>
        ensures path { IfOk result (λ b. path_of b ≡ place_of step ∷ path_of self) }
        ensures rule { IfOk result (λ b. b.rule ≡ self.rule) }
    {
        let Broken { mut way_up, rule } = self;
        way_up.push(step)?;
        Ok(Broken { way_up, rule })
    }
}

/// The first rule that is broken, if one is.
pub(crate) type Found = Result<Option<Broken>, AllocError>;

/// What finds the first fault in it.
pub(crate) trait FindsFault {
    ghost found: { Self → Findings };

    fn fault(&self, alloc: Global) -> Found
        ensures { IfOk result (Finds (found self.now)) };
}

/// What a link holds.
pub(crate) trait FaultIn {
    ghost found_as: { Self → InRole → Findings };

    /// The first fault of what stands in this role.
    fn fault_as(&self, role: Role, alloc: Global) -> Found
        ensures { IfOk result (Finds (found_as self.now role)) };
}

/// The fault of a node whose rule doesn't hold.
pub(crate) fn broken_unless(alloc: Global, holds: bool, rule: &'static str) -> Found
    ensures { IfOk result (Finds (by_rule holds rule.now)) }
{
    if holds {
        return Ok(None);
    }
    Ok(Some(Broken::here(alloc, rule)))
}

/// The fault of a node that isn't well-formed wherever it stands, or may not stand where it does.
pub(crate) fn not_here(alloc: Global) -> Found
    ensures { IfOk result (Finds (by_rule false (codes "a node of this kind may not stand here"))) }
{
    broken_unless(alloc, false, "a node of this kind may not stand here")
}

/// Whether there is the second only where the first is.
pub(crate) fn stands_with<A, B>(first: &Option<A>, second: &Option<B>) -> bool
    ensures { result ≡ (is_some first.now || is_none second.now) }
{
    first.is_some() || second.is_none()
}

/// The first fault of a field.
pub(crate) fn under<T: FindsFault>(alloc: Global, name: &'static str, node: &T) -> Found
    ensures { IfOk result (Finds (below (Named name.now) (T.found node.now))) }
{
    match node.fault(alloc)? {
        Some(broken) => Ok(Some(broken.below(Step::Field(name))?)),
        None => Ok(None),
    }
}

/// The first fault of a link, to what stands in this role.
pub(crate) fn under_as<K, N: FaultIn>(
    alloc: Global,
    name: &'static str,
    link: &Link<K, N>,
    role: Role,
) -> Found
    ensures { IfOk result (Finds (below (Named name.now) (N.found_as link.now.node.value role))) }
{
    match link.target().fault_as(role, alloc)? {
        Some(broken) => Ok(Some(broken.below(Step::Field(name))?)),
        None => Ok(None),
    }
}

/// The first fault of two fields, in their order.
pub(crate) fn under_two<A: FindsFault, B: FindsFault>(
    alloc: Global,
    node_name: &'static str,
    node: &A,
    second_name: &'static str,
    second: &B,
) -> Found
    ensures { IfOk result (Finds (turn (below (Named node_name.now) (A.found node.now))
        (below (Named second_name.now) (B.found second.now)))) }
{
    match under(alloc, node_name, node) {
        Ok(None) => under(alloc, second_name, second),
        found => found,
    }
}

/// The first fault of three fields, in their order.
pub(crate) fn under_three<A: FindsFault, B: FindsFault, C: FindsFault>(
    alloc: Global,
    node_name: &'static str,
    node: &A,
    second_name: &'static str,
    second: &B,
    third_name: &'static str,
    third: &C,
) -> Found
    ensures { IfOk result (Finds (turn (below (Named node_name.now) (A.found node.now))
        (turn (below (Named second_name.now) (B.found second.now))
        (below (Named third_name.now) (C.found third.now))))) }
{
    match under(alloc, node_name, node) {
        Ok(None) => under_two(alloc, second_name, second, third_name, third),
        found => found,
    }
}

/// The first fault of four fields, in their order.
pub(crate) fn under_four<A: FindsFault, B: FindsFault, C: FindsFault, D: FindsFault>(
    alloc: Global,
    node_name: &'static str,
    node: &A,
    second_name: &'static str,
    second: &B,
    third_name: &'static str,
    third: &C,
    fourth_name: &'static str,
    fourth: &D,
) -> Found
    ensures { IfOk result (Finds (turn (below (Named node_name.now) (A.found node.now))
        (turn (below (Named second_name.now) (B.found second.now))
        (turn (below (Named third_name.now) (C.found third.now))
        (below (Named fourth_name.now) (D.found fourth.now)))))) }
{
    match under(alloc, node_name, node) {
        Ok(None) => under_three(
            alloc,
            second_name,
            second,
            third_name,
            third,
            fourth_name,
            fourth,
        ),
        found => found,
    }
}

/// The first fault that one of these finds, in their order. None is looked for behind the first one
/// that is found.
macro_rules! in_turn {
    ($found:expr,) => {
        $found
    };
    ($found:expr, $($later:expr,)+) => {
        match $found {
            Ok(None) => crate::faults::in_turn! { $($later,)+ },
            found => found,
        }
    };
}

pub(crate) use in_turn;

/// The first fault of these fields, in their order.
macro_rules! within {
    ($node:ident, $alloc:ident; $a:ident) => {
        crate::faults::under($alloc, stringify!($a), &$node.$a)
    };
    ($node:ident, $alloc:ident; $a:ident $b:ident) => {
        crate::faults::under_two(
            $alloc,
            stringify!($a), &$node.$a, stringify!($b), &$node.$b,
        )
    };
    ($node:ident, $alloc:ident; $a:ident $b:ident $c:ident) => {
        crate::faults::under_three(
            $alloc,
            stringify!($a), &$node.$a, stringify!($b), &$node.$b, stringify!($c), &$node.$c,
        )
    };
    ($node:ident, $alloc:ident; $a:ident $b:ident $c:ident $d:ident) => {
        crate::faults::under_four(
            $alloc,
            stringify!($a), &$node.$a, stringify!($b), &$node.$b, stringify!($c), &$node.$c, stringify!($d), &$node.$d,
        )
    };
}

pub(crate) use within;

impl<K: LinkRole, N: FaultIn> FindsFault for Link<K, N> {
    ghost found = { λ n. N.found_as n.node.value K.ROLE };

    fn fault(&self, alloc: Global) -> Found {
        self.target().fault_as(K::ROLE, alloc)
    }
}

impl<T: FindsFault> FindsFault for Option<T> {
    ghost found = { λ n. in_some T.found n };

    #[tactic(auto, unfolding(crate::specs::Rules::in_some))]
    fn fault(&self, alloc: Global) -> Found {
        match self {
            Some(node) => node.fault(alloc),
            None => Ok(None),
        }
    }
}

impl<T: FindsFault> FindsFault for Box<T> {
    ghost found = { λ n. T.found n.value };

    fn fault(&self, alloc: Global) -> Found {
        (**self).fault(alloc)
    }
}

impl<T: FindsFault> FindsFault for Vec<T> {
    ghost found = { λ n. in_each T.found 0 n.items };

    fn fault(&self, alloc: Global) -> Found {
        for (index, node) in self.iter().enumerate() {
            if let Some(broken) = node.fault(alloc)? {
                return Ok(Some(broken.below(Step::Element(index))?));
            }
        }
        Ok(None)
    }
}

/// Why a program isn't well-formed: the way to the first node whose own rule is broken, and that
/// rule. `None` where the program is well-formed.
///
/// Of `a + (b c)`, where `b c` is one name, the path is `body`, 0, `expr`, `right`, and the rule is
/// `a name holds a character that no name may`. A node's own rules are looked at before its fields,
/// and these in the order in which they are written. Takes memory for the path alone, and fails
/// only where this is refused.
#[tactic(auto, using(crate::proofs::FitsTree::program_is_well_formed), unfolding(crate::specs::TreeRules::found_in_program))]
pub fn first_fault(alloc: Global, program: &Program) -> Result<Option<Fault>, AllocError>
    ensures exact { IfOk result (λ found. is_some found ≡ not (is_well_formed program.now)) }
    ensures place { IfOk result (λ found. IfSome found (IsTold program.now)) }
{
    if is_well_formed(program) {
        return Ok(None);
    }
    match program.fault(alloc)? {
        Some(Broken { mut way_up, rule }) => {
            way_up.reverse();
            Ok(Some(Fault { path: way_up, rule }))
        }
        // A program in which no rule is broken is well-formed, and has been answered.
        None => Ok(None),
    }
}
