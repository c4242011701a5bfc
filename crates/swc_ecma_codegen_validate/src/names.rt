//! Names.

ghost use Rattle.std.specs.Prelude.{◌≡◌, ℕ, List, [], ◌∷◌, false, IfSome, IfNone};
ghost use Rattle.swc_ecma_codegen_grammar.specs.Names.{IsSmall};
ghost use Rattle.swc_ecma_codegen_grammar.specs.SpelledNames.{is_well_formed_name};
ghost use Rattle.swc_ecma_codegen_grammar.specs.NamePhrases.{ident, ident_name, binding_ident, private_name};
ghost use Rattle.swc_ecma_codegen_validate.specs.NameStates.{goes_on, IsNext};

use crate::forms::{Fits, WellFormed};
use swc_ecma_codegen_grammar::names::{NameTurn, Place, turn};
use swc_ecma_codegen_grammar::texts::split_first;
use swc_ecma_codegen_tree::{BindingIdent, Ident, IdentName, PrivateName};

/// Where the reading of a name in a tree stands.
#[derive(Clone, Copy)]
pub(crate) struct NameState {
    /// No character came so far.
    first: bool,
    place: Place,
    /// A backslash came last.
    after: bool,
}

/// After one more character, or `None` where no name goes on like this.
#[tactic(auto, unfolding(crate::specs::NameStates::goes_on, crate::specs::NameStates::IsNext, swc_ecma_codegen_grammar::specs::ValidNames::turned_after, swc_ecma_codegen_grammar::specs::NameTurns::IsNameTurn, swc_ecma_codegen_grammar::specs::NameTurns::LeadsOn, swc_ecma_codegen_grammar::specs::Names::IsSmall))]
fn next(state: NameState, c: char) -> Option<NameState>
    requires { IsSmall state.place }
    ensures some { IfSome result (λ s. IsNext state c s) }
    ensures none { IfNone result ((rest : List ℕ) → goes_on state (c ∷ rest) ≡ false) }
{
    if state.after && c == '\0' {
        return Some(NameState {
            first: state.first,
            place: state.place,
            after: false,
        });
    }
    let after = c == '\\';
    match turn(state.first, state.place, c) {
        NameTurn::Unfit => None,
        NameTurn::Goes(place) => Some(NameState {
            first: state.first,
            place,
            after,
        }),
        NameTurn::Gives(_) => Some(NameState {
            first: false,
            place: Place::Between,
            after,
        }),
    }
}

/// Whether a name may end here.
#[tactic(auto, unfolding(crate::specs::NameStates::goes_on, swc_ecma_codegen_grammar::specs::ValidNames::turned_after, swc_ecma_codegen_grammar::specs::Names::name_rest))]
fn may_end(state: NameState) -> bool
    ensures { result ≡ goes_on state [] }
{
    matches!(state.place, Place::Between) && !state.first
}

/// Whether it is a name.
#[tactic(auto, unfolding(crate::specs::NameStates::goes_on, crate::specs::NameStates::IsNext, swc_ecma_codegen_grammar::specs::Names::is_name, swc_ecma_codegen_grammar::specs::Names::IsSmall))]
pub(crate) fn is_name(name: &str) -> bool
    ensures { result ≡ is_well_formed_name name.now }
{
    let mut rest = name;
    let mut state = NameState {
        first: true,
        place: Place::Between,
        after: false,
    };
    while let Some((c, more)) = split_first(rest) {
        match next(state, c) {
            Some(after) => state = after,
            None => return false,
        }
        rest = more;
    }
    may_end(state)
}

impl WellFormed for Ident {
    ghost phrase = { ident };

    #[tactic(auto, unfolding(swc_ecma_codegen_grammar::specs::NamePhrases::ident, swc_ecma_codegen_grammar::specs::Phrases::is_possible))]
    fn is_well_formed(&self) -> bool {
        is_name(&self.sym)
    }
}

impl WellFormed for IdentName {
    ghost phrase = { ident_name };

    #[tactic(auto, unfolding(swc_ecma_codegen_grammar::specs::NamePhrases::ident_name, swc_ecma_codegen_grammar::specs::Phrases::is_possible))]
    fn is_well_formed(&self) -> bool {
        is_name(&self.sym)
    }
}

impl<N: Fits> WellFormed for BindingIdent<N> {
    ghost phrase = { binding_ident N.reads };

    #[tactic(auto, using(crate::proofs::Annotations::binding_possible))]
    fn is_well_formed(&self) -> bool {
        self.id.is_well_formed() && self.type_ann.is_well_formed()
    }
}

impl WellFormed for PrivateName {
    ghost phrase = { private_name };

    #[tactic(auto, unfolding(swc_ecma_codegen_grammar::specs::NamePhrases::private_name, swc_ecma_codegen_grammar::specs::Phrases::is_possible))]
    fn is_well_formed(&self) -> bool {
        is_name(&self.name)
    }
}
