//! Why calls were refused.

ghost use Rattle.std.specs.Prelude.{◌≡◌};
ghost use Rattle.swc_ecma_codegen_text_writer.specs.Sheet.{answered};
ghost use Rattle.swc_ecma_codegen_emit.specs.Standing.{refusal_after};

use swc_ecma_codegen_common::{Answer, Refusal};
use swc_ecma_codegen_tokens::LowerEmitter;

/// Keeps why a call was refused, if it was.
#[inline(always)]
#[tactic(auto, unfolding(crate::specs::Standing::refusal_after))]
pub(crate) fn keep(kept: &mut Option<Refusal>, answer: Answer)
    ensures { kept.new ≡ refusal_after kept.old answer }
{
    if let Err(refusal) = answer {
        *kept = Some(refusal);
    }
}

/// Keeps why a call was refused that only says whether it was.
#[inline(always)]
#[tactic(auto, unfolding(crate::specs::Standing::refusal_after))]
pub(crate) fn keep_reason(kept: &mut Option<Refusal>, done: bool, lower: &LowerEmitter)
    ensures { kept.new ≡ refusal_after kept.old (answered done lower.now.reason) }
{
    if !done {
        *kept = Some(lower.reason());
    }
}
