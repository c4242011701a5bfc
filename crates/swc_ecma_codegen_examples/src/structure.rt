//! A caller that prints no program whose text would be read as another one.

ghost use Rattle.std.specs.Prelude.{◌≡◌, List, [], true, false, IfOk, IsErrOf, string_bytes};
ghost use Rattle.swc_ecma_codegen_grammar.specs.Phrases.{Generates};
ghost use Rattle.swc_ecma_codegen_grammar.specs.Settings.{Settings};
ghost use Rattle.swc_ecma_codegen_grammar.specs.Tokens.{Token};
ghost use Rattle.swc_ecma_codegen_grammar.specs.TreePhrases.{program_phrase};
ghost use Rattle.swc_ecma_codegen_syntax.specs.Derives.{DerivesProgram, bare_phrase, program_verdict};
ghost use Rattle.swc_ecma_codegen_syntax.specs.Verdicts.{holds};
ghost use Rattle.swc_ecma_codegen_tokens.specs.Written.{ReadsAs};
ghost use Rattle.swc_ecma_codegen_settings.specs.Defaults.{default_config};

use crate::{NoText, checked_text};
use std::alloc::Global;
use swc_ecma_codegen_syntax::keeps_structure;
use swc_ecma_codegen_tree::Program;
use thiserror::Error as ThisError;

/// Why no text was made that means its program.
#[derive(Debug, Drop, ThisError)]
pub enum NoMeaning {
    /// The text would be read as another program, or as none: parentheses are missing, say.
    #[error("the text would mean another program")]
    OtherStructure,
    #[error("{0}")]
    NoText(NoText),
}

/// The text of a program that keeps its structure: it reads as one of the program's token lists,
/// and the grammar of ECMA-262 derives these lists with this very tree, but for what syntax leaves
/// open. `(a + b) * c` without its parentheses is refused.
pub fn text_that_keeps_structure(alloc: Global, program: &Program) -> Result<String, NoMeaning>
    ensures reads { IfOk result (λ text.
        ReadsAs default_config false (program_phrase program.now) [] (string_bytes text)) }
    ensures derived { IfOk result (λ text. (s : Settings) (ts : List Token)
        → Generates s (bare_phrase (program_phrase program.now)) ts
        → DerivesProgram true s program.now ts) }
    ensures other { holds true (program_verdict program.now) ≡ false →
        IsErrOf result NoMeaning.OtherStructure }
{
    if !keeps_structure(program) {
        return Err(NoMeaning::OtherStructure);
    }
    match checked_text(alloc, program) {
        Ok(text) => Ok(text),
        Err(why) => Err(NoMeaning::NoText(why)),
    }
}
