//! Names and literals.

ghost use Rattle.std.specs.Prelude.{IfOk};
ghost use Rattle.swc_ecma_codegen_validate.specs.Rules.{findings, no_links, Finds};
ghost use Rattle.swc_ecma_codegen_validate.specs.NameRules.{ident, ident_name, binding_ident, private_name, str_lit, bool_lit, null_lit, number, big_int, regex, lit, name_rules};

use crate::big_integers::are_digits;
use crate::faults::{FaultIn, FindsFault, Found, broken_unless, in_turn, not_here, within};
use crate::forms::WellFormed;
use crate::names::is_name;
use crate::regexes::{are_flags, is_body};
use std::alloc::Global;
use swc_ecma_codegen_tree::{
    BigInt, BindingIdent, Bool, Ident, IdentName, Lit, Null, Number, PrivateName, Regex, Str,
};

impl FindsFault for Ident {
    ghost found = { λ n. findings no_links (ident n) };

    #[tactic(auto, unfolding(crate::specs::NameRules::ident, crate::specs::Rules::findings))]
    fn fault(&self, alloc: Global) -> Found {
        name_fault(alloc, &self.sym)
    }
}

impl FindsFault for IdentName {
    ghost found = { λ n. findings no_links (ident_name n) };

    #[tactic(auto, unfolding(crate::specs::NameRules::ident_name, crate::specs::Rules::findings))]
    fn fault(&self, alloc: Global) -> Found {
        name_fault(alloc, &self.sym)
    }
}

impl<N: FaultIn> FindsFault for BindingIdent<N> {
    ghost found = { λ n. findings N.found_as (binding_ident n) };

    #[tactic(auto, unfolding(crate::specs::NameRules::binding_ident, crate::specs::Rules::findings))]
    fn fault(&self, alloc: Global) -> Found {
        within!(self, alloc; id type_ann)
    }
}

impl FindsFault for PrivateName {
    ghost found = { λ n. findings no_links (private_name n) };

    #[tactic(auto, unfolding(crate::specs::NameRules::private_name, crate::specs::Rules::findings))]
    fn fault(&self, alloc: Global) -> Found {
        name_fault(alloc, &self.name)
    }
}

impl FindsFault for Str {
    ghost found = { λ n. findings no_links (str_lit n) };

    #[tactic(auto, unfolding(crate::specs::NameRules::str_lit, crate::specs::Rules::findings))]
    fn fault(&self, alloc: Global) -> Found {
        broken_unless(
            alloc,
            self.is_well_formed(),
            "the raw of a string spells another string",
        )
    }
}

impl FindsFault for Bool {
    ghost found = { λ n. findings no_links (bool_lit n) };

    #[tactic(auto, unfolding(crate::specs::NameRules::bool_lit, crate::specs::Rules::findings))]
    fn fault(&self, _alloc: Global) -> Found {
        Ok(None)
    }
}

impl FindsFault for Null {
    ghost found = { λ n. findings no_links (null_lit n) };

    #[tactic(auto, unfolding(crate::specs::NameRules::null_lit, crate::specs::Rules::findings))]
    fn fault(&self, _alloc: Global) -> Found {
        Ok(None)
    }
}

impl FindsFault for Number {
    ghost found = { λ n. findings no_links (number n) };

    #[tactic(auto, unfolding(crate::specs::NameRules::number, crate::specs::Rules::findings))]
    fn fault(&self, alloc: Global) -> Found {
        broken_unless(
            alloc,
            self.is_well_formed(),
            "the raw of a number spells another number",
        )
    }
}

impl FindsFault for BigInt {
    ghost found = { λ n. findings no_links (big_int n) };

    #[tactic(auto, unfolding(crate::specs::NameRules::big_int, crate::specs::Rules::findings))]
    fn fault(&self, alloc: Global) -> Found {
        in_turn! {
            broken_unless(alloc, are_digits(self.radix, &self.digits), "a big integer has a digit that isn't one of its radix, or a zero too many"),
            broken_unless(alloc, self.is_well_formed(), "the raw of a big integer spells another one"),
        }
    }
}

impl FindsFault for Regex {
    ghost found = { λ n. findings no_links (regex n) };

    #[tactic(auto, unfolding(crate::specs::NameRules::regex, crate::specs::Rules::findings))]
    fn fault(&self, alloc: Global) -> Found {
        in_turn! {
            broken_unless(alloc, is_body(&self.exp), "the pattern of a regular expression ends before its end"),
            broken_unless(alloc, are_flags(&self.flags), "a flag of a regular expression is no letter"),
        }
    }
}

impl FindsFault for Lit {
    ghost found = { λ n. findings no_links (lit n) };

    #[tactic(auto, unfolding(crate::specs::NameRules::lit, crate::specs::Rules::findings))]
    fn fault(&self, alloc: Global) -> Found {
        match self {
            Lit::Str(node) => node.fault(alloc),
            Lit::Bool(node) => node.fault(alloc),
            Lit::Null(node) => node.fault(alloc),
            Lit::Num(node) => node.fault(alloc),
            Lit::BigInt(node) => node.fault(alloc),
            Lit::Regex(node) => node.fault(alloc),
            Lit::JSXText(_) => not_here(alloc),
        }
    }
}

/// What is wrong with a name.
#[tactic(auto, unfolding(crate::specs::NameRules::name_rules, crate::specs::Rules::findings))]
fn name_fault(alloc: Global, name: &str) -> Found
    ensures { IfOk result (Finds (findings no_links (name_rules name.now))) }
{
    in_turn! {
        broken_unless(alloc, !name.is_empty(), "a name is empty"),
        broken_unless(
            alloc,
            is_name(name),
            "a name holds a character that no name may",
        ),
    }
}
