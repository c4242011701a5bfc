//! The emitter.

ghost use Rattle.std.specs.Prelude.{◌≡◌, true, OnErr, OnOk, Err, Some};
ghost use Rattle.swc_ecma_codegen_common.specs.Refusals.{in_short};
ghost use Rattle.swc_ecma_codegen_tokens.specs.Run.{Follows, nothing, start};

use crate::node::Node;
use crate::nodes::{Context, EmitAt};
use std::alloc::Global;
use swc_ecma_codegen_common::{Error, Refusal, Result};
use swc_ecma_codegen_grammar::comments::Comments;
use swc_ecma_codegen_grammar::mapper::SourceMapper;
use swc_ecma_codegen_settings::config::Config;
use swc_ecma_codegen_text_writer::WriteJs;
use swc_ecma_codegen_tokens::LowerEmitter;
use swc_ecma_codegen_tree::{Module, ModuleExportName, ModuleItem, Program, Script};

/// Prints nodes to a writer. Once a call was refused, each further call that gives a `Result`
/// answers `Failed`.
#[derive(Drop)]
pub struct Emitter<'a, W, S, C> {
    /// The settings.
    pub cfg: Config,
    /// The source text.
    pub cm: &'a S,
    /// The comments that are to be printed.
    pub comments: Option<C>,
    /// Where the text goes.
    pub wr: W,
    pub(crate) lower: LowerEmitter,
    /// Why a call was refused since the last call of a caller began, if one was: the calls after it
    /// do nothing.
    pub(crate) refusal: Option<Refusal>,
}

impl<'a, W: WriteJs, S: SourceMapper, C: Comments> Emitter<'a, W, S, C> {
    ghost use Rattle.swc_ecma_codegen_emit.specs.View.{state_of};
    ghost use Rattle.swc_ecma_codegen_grammar.specs.Comments.{maps_in};
    ghost use Rattle.swc_ecma_codegen_emit.specs.Standing.{outcome, Performs};
    ghost use Rattle.swc_ecma_codegen_emit.specs.Modules.{module_export_name};
    ghost use Rattle.swc_ecma_codegen_emit.specs.Roots.{OfItem, OfModule, OfProgram, OfScript, root_items};
    ghost use Rattle.swc_ecma_codegen_emit.specs.Places.{Whole, alone, by_itself};
    ghost use Rattle.swc_ecma_codegen_emit.specs.Emission.{Emission, IsMadeUnhindered, IsRefusedForCause, SendsFront};

    /// An emitter that has written nothing. Takes no memory.
    pub fn new(alloc: Global, cfg: Config, cm: &'a S, comments: Option<C>, wr: W) -> Self
        ensures state { state_of S.lines C.maps W.sheet result
            ≡ start (S.lines cm.now) (maps_in C.maps comments) cfg (W.sheet wr) }
        ensures wr { result.wr ≡ wr }
    {
        Emitter {
            cfg,
            cm,
            comments,
            wr,
            lower: LowerEmitter::new(alloc),
            refusal: None,
        }
    }

    /// Prints a node, unless a call was refused before.
    #[tactic(auto, using(swc_ecma_codegen_tokens::proofs::Emission::Emitting::emits_nothing, swc_ecma_codegen_tokens::proofs::Emission::Fronts::follows_failed, swc_ecma_codegen_tokens::proofs::Emission::Fronts::follows_front, swc_ecma_codegen_tokens::proofs::Emission::Fronts::follows_marked, swc_ecma_codegen_tokens::proofs::Emission::Fronts::follows_cause, swc_ecma_codegen_tokens::proofs::Emission::Fronts::follows_succeeds))]
    pub(crate) fn emit<T: EmitAt>(&mut self, node: &T) -> Result
        // The steps of the tree are made, and it comes to no node that can't be printed; or it
        // halts.
        ensures items { Follows (by_itself (T.items node.now) nothing)
            (state_of S.lines C.maps W.sheet self.old)
            (state_of S.lines C.maps W.sheet self.new) (in_short result) }
        ensures front { SendsFront (by_itself (T.items node.now))
            (state_of S.lines C.maps W.sheet self.old) (state_of S.lines C.maps W.sheet self.new) }
        ensures cause { IsRefusedForCause (by_itself (T.items node.now))
            (state_of S.lines C.maps W.sheet self.old)
            (state_of S.lines C.maps W.sheet self.new) result }
        ensures succeeds { IsMadeUnhindered (by_itself (T.items node.now))
            (state_of S.lines C.maps W.sheet self.old)
            (state_of S.lines C.maps W.sheet self.new) result }
        ensures marked { OnErr result ((state_of S.lines C.maps W.sheet self.new).failed ≡ true) }
        ensures failed { (state_of S.lines C.maps W.sheet self.old).failed ≡ true →
            result ≡ Err Error.Failed }
        // The indentation is what it was.
        ensures level { OnOk result ((W.sheet self.new.wr).indentation
            ≡ (W.sheet self.old.wr).indentation) }
    {
        if self.lower.is_failed() {
            return Err(Error::Failed);
        }
        self.refusal = None;
        self.emit_by_itself(node);
        self.answer()
    }

    /// Prints a node by itself, unless a call was refused before.
    fn emit_by_itself<T: EmitAt>(&mut self, node: &T)
        ensures items { Performs (by_itself (T.items node.now))
            S.lines C.maps W.sheet self.old self.new }
    {
        let context = self.context_alone();
        let max_line = self.cfg.max_line;
        self.cfg.max_line = None;
        node.emit_at(self, context);
        self.cfg.max_line = max_line;
    }

    /// Where a node stands by itself: the greatest length of lines acts in a module or script that
    /// is minified.
    fn context_alone(&self) -> Context
        ensures { Whole result ≡ alone (state_of S.lines C.maps W.sheet self.now).env }
    {
        match self.cfg.max_line {
            Some(max) if self.cfg.minify => Context::ByItself(max),
            _ => Context::Plain,
        }
    }

    /// Why a call was refused, if one was, with the error that the writer gave.
    #[tactic(auto, unfolding(crate::specs::Standing::outcome))]
    fn answer(&mut self) -> Result
        ensures answer { in_short result ≡ outcome self.old.refusal }
        ensures state { state_of S.lines C.maps W.sheet self.new ≡ state_of
            S.lines C.maps W.sheet self.old }
        ensures wr { self.new.wr ≡ self.old.wr }
    {
        match self.refusal {
            None => Ok(()),
            Some(refusal) => Err(self.lower.error(refusal)),
        }
    }

    /// Prints a program. swc's `emit_program`.
    pub fn emit_program(&mut self, node: &Program) -> Result
        ensures { Emission (root_items (OfProgram node.now))
            (state_of S.lines C.maps W.sheet self.old) (state_of S.lines C.maps W.sheet self.new)
            result }
    {
        node.emit_with(self)
    }

    /// Prints a module: its hashbang, the text of each item, and then a semicolon that is held
    /// back, unless the settings leave it out. swc's `emit_module`.
    pub fn emit_module(&mut self, node: &Module) -> Result
        ensures { Emission (root_items (OfModule node.now))
            (state_of S.lines C.maps W.sheet self.old) (state_of S.lines C.maps W.sheet self.new)
            result }
    {
        node.emit_with(self)
    }

    /// Prints a script: its hashbang, the text of each statement, and then a semicolon that is held
    /// back, unless the settings leave it out. swc's `emit_script`.
    pub fn emit_script(&mut self, node: &Script) -> Result
        ensures { Emission (root_items (OfScript node.now))
            (state_of S.lines C.maps W.sheet self.old) (state_of S.lines C.maps W.sheet self.new)
            result }
    {
        node.emit_with(self)
    }

    /// Prints an item of a module: an import, an export or a statement. swc's `emit_module_item`.
    pub fn emit_module_item(&mut self, node: &ModuleItem) -> Result
        ensures { Emission (root_items (OfItem node.now))
            (state_of S.lines C.maps W.sheet self.old) (state_of S.lines C.maps W.sheet self.new)
            result }
    {
        node.emit_with(self)
    }

    /// Prints the name of what a module imports or exports: a name, or a string. swc's
    /// `emit_module_export_name`.
    pub fn emit_module_export_name(&mut self, node: &ModuleExportName) -> Result
        ensures { Emission (by_itself (λ _. module_export_name node.now))
            (state_of S.lines C.maps W.sheet self.old) (state_of S.lines C.maps W.sheet self.new)
            result }
    {
        node.emit_with(self)
    }
}

impl<W, S, C: Drop> Emitter<'_, W, S, C> {
    /// The writer.
    pub(crate) fn into_writer(self) -> W
        ensures { result ≡ self.entry.wr }
    {
        let Emitter {
            cfg: _,
            cm: _,
            comments: _,
            wr,
            lower: _,
            refusal: _,
        } = self;
        wr
    }
}
