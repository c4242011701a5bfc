//! The lower emitter: it writes tokens, and what stands between them, and never calls a node's function.
#![tactic(auto)]

ghost use Rattle.std.specs.Prelude.{◌≡◌, true, false};
ghost use Rattle.swc_ecma_codegen_common.specs.Refusals.{reason_of};
ghost use Rattle.swc_ecma_codegen_tokens.specs.Classes.{IsRowOf};
ghost use Rattle.swc_ecma_codegen_tokens.specs.PreviousToken.{class_of};

mod answers;
mod attributes;
mod between;
mod calls;
mod comments;
mod guard;
mod keys;
pub mod laws;
mod lines;
mod list_commas;
mod lists;
mod literals;
mod lits;
mod names;
mod numbers;
mod previous;
mod private_names;
mod raws;
mod refusals;
mod short_names;
mod shortest;
mod starts;
mod tags;
mod templates;
mod tokens;

pub use crate::comments::{leads, trails};
pub use crate::guard::blank_due;
use crate::guard::row;
pub use crate::previous::PreviousToken;
pub use crate::refusals::Unprintable;
pub use crate::starts::{StartClass, begins_name};
use std::alloc::Global;
use std::io;
use std::snapshot::Snapshot;
use swc_ecma_codegen_common::{Error, Refusal};
use swc_ecma_codegen_literals::TokenClass;

/// What an emission keeps from one call to the next: the allocator, the class of the last token with its row in the table of
/// blanks, which the next token asks for, whether a call was refused, and the error that the writer gave. Proofs see the last
/// token itself. Once a call was refused the row is all ones, so one test tells that a token may follow at once. No class is asked
/// for then, and it may be that of the token that wasn't written.
#[derive(Drop)]
pub struct LowerEmitter {
    alloc: Global,
    last: TokenClass,
    row: u32,
    token: Snapshot<PreviousToken>,
    failed: bool,
    fault: Option<io::Error>,
    // Why the last call was refused that only says whether it was.
    reason: Refusal,
    ghost class: { failed ≡ false → class_of token.value ≡ last },
    ghost of_class: { failed ≡ false → IsRowOf last row },
    ghost refused: { failed ≡ true → row ≡ 4294967295 },
}

impl LowerEmitter {
    /// One that has written nothing.
    #[tactic(auto, unfolding(crate::specs::PreviousToken::class_of))]
    pub fn new(alloc: Global) -> LowerEmitter
        ensures token { result.token.value ≡ PreviousToken.Start }
        ensures failed { result.failed ≡ false }
    {
        LowerEmitter {
            alloc,
            last: TokenClass::Rest,
            row: row(TokenClass::Rest),
            token: Snapshot::of(&PreviousToken::Start),
            failed: false,
            fault: None,
            reason: Refusal::Failed,
        }
    }

    /// Whether a call was refused.
    pub fn is_failed(&self) -> bool
        ensures { result ≡ self.now.failed }
    {
        self.failed
    }

    /// Why the last call was refused that only says whether it was.
    #[inline(always)]
    pub fn reason(&self) -> Refusal
        ensures { result ≡ self.now.reason }
    {
        self.reason
    }

    /// The error of a refusal, with the one that the writer gave.
    pub fn error(&mut self, refusal: Refusal) -> Error
        ensures reason { reason_of result ≡ refusal }
        ensures token { self.new.token.value ≡ self.old.token.value }
        ensures failed { self.new.failed ≡ self.old.failed }
    {
        refusal.with_fault(self.fault.take())
    }
}
