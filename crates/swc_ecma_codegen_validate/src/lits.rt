//! Literals.

ghost use Rattle.swc_ecma_codegen_grammar.specs.LitPhrases.{str_lit, bool_lit, null_lit, number, big_int, regex, lit};

use crate::big_integers::{are_digits, spells_digits};
use crate::forms::WellFormed;
use crate::numbers::spells_size;
use crate::numerals::is_number;
use crate::regexes::{are_flags, is_body};
use crate::strings::spells_units;
use swc_ecma_codegen_tree::{BigInt, Bool, Lit, Null, Number, NumberValue, Regex, Str};

impl WellFormed for Str {
    ghost phrase = { str_lit };

    #[tactic(auto, using(crate::proofs::Possible::where_possible), unfolding(swc_ecma_codegen_grammar::specs::LitPhrases::str_lit, swc_ecma_codegen_grammar::specs::LitPhrases::raw_passes, swc_ecma_codegen_grammar::specs::Phrases::is_possible))]
    fn is_well_formed(&self) -> bool {
        match &self.raw {
            Some(raw) => spells_units(&self.value, raw),
            None => true,
        }
    }
}

impl WellFormed for Bool {
    ghost phrase = { bool_lit };

    #[tactic(auto, unfolding(swc_ecma_codegen_grammar::specs::LitPhrases::bool_lit, swc_ecma_codegen_grammar::specs::Phrases::is_possible))]
    fn is_well_formed(&self) -> bool {
        true
    }
}

impl WellFormed for Null {
    ghost phrase = { null_lit };

    #[tactic(auto, unfolding(swc_ecma_codegen_grammar::specs::LitPhrases::null_lit, swc_ecma_codegen_grammar::specs::Phrases::is_possible))]
    fn is_well_formed(&self) -> bool {
        true
    }
}

impl WellFormed for Number {
    ghost phrase = { number };

    #[tactic(auto, using(crate::proofs::Possible::where_possible, crate::proofs::Possible::sign_possible), unfolding(swc_ecma_codegen_grammar::specs::LitPhrases::number, swc_ecma_codegen_grammar::specs::LitPhrases::number_of, swc_ecma_codegen_grammar::specs::LitPhrases::finite, swc_ecma_codegen_grammar::specs::LitPhrases::infinity, swc_ecma_codegen_grammar::specs::LitPhrases::without_raw, swc_ecma_codegen_grammar::specs::Phrases::is_possible))]
    fn is_well_formed(&self) -> bool {
        match &self.raw {
            None => true,
            Some(raw) => match &self.value {
                NumberValue::Finite(number) => !number.negative() && spells_size(number, raw),
                NumberValue::Infinity => is_number(raw),
                NumberValue::NegInfinity | NumberValue::NaN => false,
            },
        }
    }
}

impl WellFormed for BigInt {
    ghost phrase = { big_int };

    #[tactic(auto, using(crate::proofs::Possible::where_possible, crate::proofs::Possible::sign_possible), unfolding(swc_ecma_codegen_grammar::specs::LitPhrases::big_int, swc_ecma_codegen_grammar::specs::LitPhrases::is_big_int, swc_ecma_codegen_grammar::specs::LitPhrases::raw_passes, swc_ecma_codegen_grammar::specs::Phrases::is_possible))]
    fn is_well_formed(&self) -> bool {
        are_digits(self.radix, &self.digits)
            && match &self.raw {
                Some(raw) => spells_digits(self.radix, &self.digits, raw) && !self.negative,
                None => true,
            }
    }
}

impl WellFormed for Regex {
    ghost phrase = { regex };

    #[tactic(auto, using(crate::proofs::Slashes::by_parts, crate::proofs::Possible::where_possible), unfolding(swc_ecma_codegen_grammar::specs::LitPhrases::regex, swc_ecma_codegen_grammar::specs::Phrases::is_possible))]
    fn is_well_formed(&self) -> bool {
        is_body(&self.exp) && are_flags(&self.flags)
    }
}

impl WellFormed for Lit {
    ghost phrase = { lit };

    #[tactic(auto, unfolding(swc_ecma_codegen_grammar::specs::LitPhrases::lit, swc_ecma_codegen_grammar::specs::Phrases::is_possible))]
    fn is_well_formed(&self) -> bool {
        match self {
            Lit::Str(node) => node.is_well_formed(),
            Lit::Bool(node) => node.is_well_formed(),
            Lit::Null(node) => node.is_well_formed(),
            Lit::Num(node) => node.is_well_formed(),
            Lit::BigInt(node) => node.is_well_formed(),
            Lit::Regex(node) => node.is_well_formed(),
            Lit::JSXText(_) => false,
        }
    }
}
