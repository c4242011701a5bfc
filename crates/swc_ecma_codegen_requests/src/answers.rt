//! Answers: what is printed of a program as its request asks, or why there is no text.

ghost use Rattle.std.specs.Prelude.{◌≡◌, ℕ, false, List, Option, IfOk, IfErr, OnOk, option_map, string_bytes};
ghost use Rattle.swc_ecma_codegen_tree.specs.declared.links.AnyNode.{AnyNode};
ghost use Rattle.swc_ecma_codegen_tree.specs.declared.programs.Program.{Program};
ghost use Rattle.swc_ecma_codegen_requests.specs.Answers.{program_part, AnswersLine, AnswersProgram, AnswersRequest, IsAnswer, IsBroken, IsFaultLine, IsPrepared, IsUnprepared, IsUnread, IsWhy, MayPrint};
ghost use Rattle.swc_ecma_codegen_requests.specs.Ids.{IsKnownIn};
ghost use Rattle.swc_ecma_codegen_requests.specs.Prints.{IsPrintedBy};
ghost use Rattle.swc_ecma_codegen_requests.specs.declared.faults.Fault.{Fault as AnyFault};

use crate::emissions::{Manner, Printed, print};
use crate::faults::Fault;
use crate::ids::text_in;
use crate::members::{fault_members, line_of, text_members};
use crate::objects::Object;
use crate::remarks::Placed;
use crate::requests::Request;
use crate::unread::fault_of;
use std::alloc::{AllocError, Global};
use swc_ecma_codegen_fix::{Unmendable, mended};
use swc_ecma_codegen_json::{FlatTree, Short, Tree};
use swc_ecma_codegen_tree::Program;
use swc_ecma_codegen_validate::first_fault;

/// How many links may lie below one another in a flat form: 8 MiB of stack print so many levels of
/// any kind.
const LEVELS: u32 = 8000;

/// A request to print a program.
type Asked = Request<Short<Tree>, Short<FlatTree<LEVELS>>>;

/// The answer to a line, with an LF at its end. Want of memory for the answer itself is the only
/// error.
pub(crate) fn answer_to(alloc: Global, line: &[u8]) -> Result<Vec<u8>, AllocError>
    ensures { IfOk result (λ answer. IsAnswer line.now answer.items) }
{
    match serde_json::from_slice::<Object<Asked>>(alloc, line) {
        Ok(Object(request)) => answer_in(alloc, line, request),
        Err(error) => refusal(alloc, line, &error),
    }
}

/// The answer to a request, which a line is.
fn answer_in(alloc: Global, line: &[u8], request: Asked) -> Result<Vec<u8>, AllocError>
    ensures { IfOk result (λ answer. AnswersLine line.now request answer.items) }
{
    let id = request.id.text(alloc, line)?;
    answer_of(alloc, id, request)
}

/// The answer to a line that is no request.
fn refusal(alloc: Global, line: &[u8], error: &serde_json::Error) -> Result<Vec<u8>, AllocError>
    ensures { IfOk result (λ answer. (id : Option (List ℕ)) × (fault : AnyFault)
        × IsKnownIn line.now id × IsUnread fault × IsFaultLine id fault answer.items) }
{
    let id = text_in(alloc, line)?;
    let fault = fault_of(alloc, line, error)?;
    fault_line(alloc, id, fault)
}

/// What is done with a program before it is printed.
#[derive(Debug, Clone, Copy, PartialEq, Eq)]
pub(crate) struct Preparation {
    /// One that isn't well-formed, or isn't a derivation, is printed too.
    any: bool,
    /// Missing parentheses are put in.
    parenthesize: bool,
}

/// The answer to a request.
fn answer_of(alloc: Global, id: Option<String>, request: Asked) -> Result<Vec<u8>, AllocError>
    ensures { IfOk result (λ answer. AnswersRequest (option_map string_bytes id) request
        answer.items) }
{
    let preparation = Preparation {
        any: request.any,
        parenthesize: request.parenthesize,
    };
    let manner = Manner {
        config: request.config.0.config(),
        layout: request.config.0.layout(),
        source: request.source,
        first: request.first.unwrap_or(1),
        comments: placed_in(request.comments),
        positions: request.positions,
    };
    match (request.tree, request.flat) {
        (Some(tree), None) => text_line(alloc, id, preparation, manner, tree_in(tree)),
        (None, Some(flat)) => text_line(alloc, id, preparation, manner, tree_of(flat)),
        _ => fault_line(alloc, id, Fault::NotOneProgram),
    }
}

/// A program in its short form.
fn tree_in(tree: Short<Tree>) -> Tree
    ensures { result.0 ≡ tree.0.0 }
{
    tree.into_inner()
}

/// A program in its flat form.
fn tree_of(flat: Short<FlatTree<LEVELS>>) -> Tree
    ensures { result.0 ≡ flat.0.0 }
{
    Tree(flat.into_inner().into_program())
}

/// The comments of a request, where it has some.
fn placed_in(comments: Option<Object<Placed>>) -> Option<Placed>
    ensures { result ≡ option_map (λ c. c.0) comments }
{
    match comments {
        Some(Object(placed)) => Some(placed),
        None => None,
    }
}

/// The answer with the text of a program, if it may be printed; or with what is wrong with it.
fn text_line(
    alloc: Global,
    id: Option<String>,
    preparation: Preparation,
    manner: Manner,
    tree: Tree,
) -> Result<Vec<u8>, AllocError>
    ensures { IfOk result (λ answer. AnswersProgram (option_map string_bytes id) preparation
        manner tree.0 answer.items) }
{
    match checked(alloc, preparation, manner, tree) {
        Ok(made) => {
            let Printed {
                code,
                positions,
                left,
            } = made;
            let members = text_members(alloc, code, &positions, left)?;
            line_of(alloc, id, members)
        }
        Err(fault) => fault_line(alloc, id, fault),
    }
}

/// What is printed of a program.
fn checked(
    alloc: Global,
    preparation: Preparation,
    manner: Manner,
    tree: Tree,
) -> Result<Printed, Fault>
    ensures made { IfOk result (λ made. (r : Program AnyNode)
        × IsPrepared preparation tree.0 r × IsPrintedBy manner (program_part r) made) }
    ensures why { IfErr result (IsWhy preparation manner tree.0) }
{
    let prepared = prepare(alloc, preparation, tree)?;
    match print(alloc, manner, &prepared.0) {
        Ok(made) => Ok(made),
        Err(error) => Err(Fault::Refused(error)),
    }
}

/// A program as it is printed: if it is well-formed or any is to be printed, with its parentheses
/// where they are asked for.
#[tactic(auto, unfolding(crate::specs::Answers::Becomes))]
fn prepare(alloc: Global, preparation: Preparation, tree: Tree) -> Result<Tree, Fault>
    ensures prepared { IfOk result (λ r. IsPrepared preparation tree.0 r.0) }
    ensures why { IfErr result (IsUnprepared preparation tree.0) }
{
    let Preparation { any, parenthesize } = preparation;
    check(alloc, any, &tree.0)?;
    if !parenthesize {
        return Ok(tree);
    }
    match mended(alloc, any, tree) {
        Ok(tree) => Ok(tree),
        Err(Unmendable::OutOfMemory) => Err(Fault::Memory),
        Err(Unmendable::NotADerivation) => Err(Fault::NotADerivation),
        Err(Unmendable::TooDeep) => Err(Fault::TooDeep),
    }
}

/// Whether a program may be printed, since it is well-formed or any is to be; and else why it isn't
/// well-formed.
fn check(alloc: Global, any: bool, program: &Program) -> Result<(), Fault>
    ensures fine { OnOk result (MayPrint any program.now) }
    ensures why { IfErr result (λ fault. (any ≡ false) × IsBroken program.now fault) }
{
    if any {
        return Ok(());
    }
    match first_fault(alloc, program) {
        Ok(None) => Ok(()),
        Ok(Some(fault)) => Err(Fault::NotWellFormed(fault)),
        Err(AllocError) => Err(Fault::Memory),
    }
}

/// The answer with what is wrong.
fn fault_line(alloc: Global, id: Option<String>, fault: Fault) -> Result<Vec<u8>, AllocError>
    ensures { IfOk result (λ answer. IsFaultLine (option_map string_bytes id) fault answer.items) }
{
    let told = fault.value(alloc)?;
    let members = fault_members(alloc, told)?;
    line_of(alloc, id, members)
}
