//! One character in a string, a template or a name, at a place where the call asks for what a
//! reading has come to.

use swc_ecma_codegen_grammar::names::{self, NameTurn};
use swc_ecma_codegen_grammar::string_values::string_turn;
use swc_ecma_codegen_grammar::turns::{Turn, braced_turn, due_turn, escape_turn};
use swc_ecma_codegen_grammar::units::Place;

/// What `f` does in `\u00ff`, where it is the third digit of four: `\u00f` stands for nothing yet.
#[tactic(auto, unfolding(swc_ecma_codegen_grammar::specs::Turns::IsDue))]
pub fn digit_turn() -> Turn {
    due_turn(2, 0, 'f')
}

/// What the last brace of `\u{ff}` does: it gives the code point 255.
pub fn brace_turn() -> Turn {
    braced_turn(true, 0xff, '}')
}

/// What `n` does in `\n`: it gives LF.
#[tactic(auto, unfolding(swc_ecma_codegen_grammar::specs::Chars::is_digit))]
pub fn escaped_turn() -> Turn {
    escape_turn('n', None)
}

/// What `1` does in the string `"\101"`, at its end: it gives `A`.
#[tactic(auto, unfolding(swc_ecma_codegen_grammar::specs::Turns::IsReached, swc_ecma_codegen_grammar::specs::Turns::IsOctalDue, swc_ecma_codegen_grammar::specs::StringValues::begins_octal, swc_ecma_codegen_grammar::specs::Numbers::is_octal))]
pub fn octal_turn() -> Turn {
    let place = Place::Octal { more: 0, value: 8 };
    string_turn('"', true, place, '1', Some('"'))
}

/// What the last digit of `\u0061` does at the beginning of a name: it gives `a`.
#[tactic(auto, unfolding(swc_ecma_codegen_grammar::specs::Names::IsSmall))]
pub fn name_turn() -> NameTurn {
    names::turn(true, names::Place::Three(6), '1')
}
