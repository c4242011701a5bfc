//! Objects and the names of properties.

ghost use Rattle.std.specs.Result.{OnOk};
ghost use Rattle.swc_ecma_codegen_parentheses.specs.SameObjects.{same_spread_element, same_computed_prop_name, same_prop_name, same_key_value_prop, same_assign_prop, same_getter_prop, same_setter_prop, same_method_prop, same_prop, same_prop_or_spread, same_object_lit};

use crate::mends::{Mend, Mends, Stop, mend_bracketed};
use crate::places::Place;
use std::alloc::Global;
use swc_ecma_codegen_syntax::{Answers, Nonterminal};
use swc_ecma_codegen_tree::{
    AssignProp, ComputedPropName, GetterProp, KeyValueProp, MethodProp, ObjectLit, Prop, PropName,
    PropOrSpread, SetterProp, SpreadElement,
};

impl<N: Answers, M: Mends<N>> Mend<N, M> for SpreadElement<N> {
    ghost same = { same_spread_element };

    #[tactic(auto, unfolding(crate::specs::SameObjects::same_spread_element))]
    fn mend(&mut self, mender: &M, alloc: Global, place: Place) -> Result<(), Stop> {
        let nonterminal = Nonterminal::AssignmentExpression;
        mend_bracketed(mender, alloc, &mut self.expr, place, nonterminal)
    }
}

/// Goes on to a name in brackets, where this nonterminal stands in them: `[a]` of `{ [a]: b }` and
/// of `b[a]`.
#[tactic(auto, unfolding(crate::specs::SameObjects::same_computed_prop_name))]
pub(crate) fn mend_computed<N, M: Mends<N>>(
    mender: &M,
    alloc: Global,
    name: &mut ComputedPropName<N>,
    place: Place,
    nonterminal: Nonterminal,
) -> Result<(), Stop>
    ensures { OnOk result
        (same_computed_prop_name nonterminal (M.mended mender.now) name.old name.new) }
{
    mend_bracketed(mender, alloc, &mut name.expr, place, nonterminal)
}

impl<N: Answers, M: Mends<N>> Mend<N, M> for PropName<N> {
    ghost same = { same_prop_name };

    #[tactic(auto, unfolding(crate::specs::SameObjects::same_prop_name))]
    fn mend(&mut self, mender: &M, alloc: Global, place: Place) -> Result<(), Stop> {
        match self {
            PropName::Computed(node) => mend_computed(
                mender,
                alloc,
                node,
                place,
                Nonterminal::AssignmentExpression,
            ),
            _ => Ok(()),
        }
    }
}

impl<N: Answers, M: Mends<N>> Mend<N, M> for KeyValueProp<N> {
    ghost same = { same_key_value_prop };

    #[tactic(auto, unfolding(crate::specs::SameObjects::same_key_value_prop))]
    fn mend(&mut self, mender: &M, alloc: Global, place: Place) -> Result<(), Stop> {
        self.key.mend(mender, alloc, place)?;
        let nonterminal = Nonterminal::AssignmentExpression;
        mend_bracketed(mender, alloc, &mut self.value, place, nonterminal)
    }
}

impl<N: Answers, M: Mends<N>> Mend<N, M> for AssignProp<N> {
    ghost same = { same_assign_prop };

    #[tactic(auto, unfolding(crate::specs::SameObjects::same_assign_prop))]
    fn mend(&mut self, mender: &M, alloc: Global, place: Place) -> Result<(), Stop> {
        let nonterminal = Nonterminal::AssignmentExpression;
        mend_bracketed(mender, alloc, &mut self.value, place, nonterminal)
    }
}

impl<N: Answers, M: Mends<N>> Mend<N, M> for GetterProp<N> {
    ghost same = { same_getter_prop };

    #[tactic(auto, unfolding(crate::specs::SameObjects::same_getter_prop))]
    fn mend(&mut self, mender: &M, alloc: Global, place: Place) -> Result<(), Stop> {
        self.key.mend(mender, alloc, place)?;
        self.body.mend(mender, alloc, place)
    }
}

impl<N: Answers, M: Mends<N>> Mend<N, M> for SetterProp<N> {
    ghost same = { same_setter_prop };

    #[tactic(auto, unfolding(crate::specs::SameObjects::same_setter_prop))]
    fn mend(&mut self, mender: &M, alloc: Global, place: Place) -> Result<(), Stop> {
        self.key.mend(mender, alloc, place)?;
        self.this_param.mend(mender, alloc, place)?;
        self.param.mend(mender, alloc, place)?;
        self.body.mend(mender, alloc, place)
    }
}

impl<N: Answers, M: Mends<N>> Mend<N, M> for MethodProp<N> {
    ghost same = { same_method_prop };

    #[tactic(auto, unfolding(crate::specs::SameObjects::same_method_prop))]
    fn mend(&mut self, mender: &M, alloc: Global, place: Place) -> Result<(), Stop> {
        self.key.mend(mender, alloc, place)?;
        self.function.mend(mender, alloc, place)
    }
}

impl<N: Answers, M: Mends<N>> Mend<N, M> for Prop<N> {
    ghost same = { same_prop };

    #[tactic(auto, unfolding(crate::specs::SameObjects::same_prop))]
    fn mend(&mut self, mender: &M, alloc: Global, place: Place) -> Result<(), Stop> {
        match self {
            Prop::KeyValue(node) => node.mend(mender, alloc, place),
            Prop::Assign(node) => node.mend(mender, alloc, place),
            Prop::Getter(node) => node.mend(mender, alloc, place),
            Prop::Setter(node) => node.mend(mender, alloc, place),
            Prop::Method(node) => node.mend(mender, alloc, place),
            _ => Ok(()),
        }
    }
}

impl<N: Answers, M: Mends<N>> Mend<N, M> for PropOrSpread<N> {
    ghost same = { same_prop_or_spread };

    #[tactic(auto, unfolding(crate::specs::SameObjects::same_prop_or_spread))]
    fn mend(&mut self, mender: &M, alloc: Global, place: Place) -> Result<(), Stop> {
        match self {
            PropOrSpread::Spread(node) => node.mend(mender, alloc, place),
            PropOrSpread::Prop(node) => node.mend(mender, alloc, place),
        }
    }
}

impl<N: Answers, M: Mends<N>> Mend<N, M> for ObjectLit<N> {
    ghost same = { same_object_lit };

    #[tactic(auto, unfolding(crate::specs::SameObjects::same_object_lit))]
    fn mend(&mut self, mender: &M, alloc: Global, place: Place) -> Result<(), Stop> {
        self.props.mend(mender, alloc, place)
    }
}
