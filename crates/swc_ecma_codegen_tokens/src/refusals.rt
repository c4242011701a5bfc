//! Nodes that can't be printed.

ghost use Rattle.std.specs.Prelude.{◌≡◌};
ghost use Rattle.swc_ecma_codegen_tokens.specs.Run.{Does, refuse, refusal_of};
ghost use Rattle.swc_ecma_codegen_tokens.specs.View.{state_of};

use crate::LowerEmitter;
use crate::guard::REFUSED;
use swc_ecma_codegen_common::{Answer, Refusal};
use swc_ecma_codegen_settings::config::Config;
use swc_ecma_codegen_text_writer::WriteJs;

/// Why a node can't be printed.
#[derive(Debug, Clone, Copy, PartialEq, Eq)]
pub enum Unprintable {
    /// A node that has no text.
    UnsupportedNode,
    /// A tree whose shape has no text.
    BadShape,
    /// A name that can't be spelled in ASCII for the target.
    NameOutOfTarget,
}

impl Unprintable {
    #[tactic(auto, unfolding(crate::specs::Run::refusal_of))]
    fn refusal(self) -> Refusal
        ensures { result ≡ refusal_of self }
    {
        match self {
            Unprintable::UnsupportedNode => Refusal::UnsupportedNode,
            Unprintable::BadShape => Refusal::BadShape,
            Unprintable::NameOutOfTarget => Refusal::NameOutOfTarget,
        }
    }
}

impl LowerEmitter {
    /// Comes to a node that can't be printed: nothing more is written.
    #[tactic(auto, using(crate::proofs::Emission::Emitting::does_refusal, crate::proofs::Emission::Emitting::does_failed))]
    pub fn refuse<W: WriteJs>(&mut self, cfg: &Config, wr: &W, why: Unprintable) -> Answer
        ensures items { Does (refuse why) (state_of cfg.now (W.sheet wr.now) self.old)
            (state_of cfg.now (W.sheet wr.now) self.new) result }
    {
        let _ = cfg;
        let _ = wr;
        if self.failed {
            return Err(Refusal::Failed);
        }
        self.failed = true;
        self.row = REFUSED;
        Err(why.refusal())
    }
}
