//! Why a request has no text.

ghost use Rattle.std.specs.Prelude.{◌≡◌, IfOk, codes};
ghost use Rattle.serde_json.specs.View.{view};
ghost use Rattle.swc_ecma_codegen_common.specs.Refusals.{reason_of};
ghost use Rattle.swc_ecma_codegen_requests.specs.Faults.{cause_of, key_data, keys_data, path_data, step_data, tree_fault_data, unread_data, Tells};

use crate::places::Key;
use serde_json::{Value, json};
use std::alloc::{AllocError, Global};
use swc_ecma_codegen_common::Error;
use swc_ecma_codegen_validate::{Fault as TreeFault, Step};

/// Why a request has no text.
#[derive(Drop)]
pub(crate) enum Fault {
    /// The line is no JSON.
    BadJson(Unread),
    /// It is no request, its program aside.
    BadRequest(Unread),
    /// Its `tree` or its `flat` is no program.
    BadTree(Unread),
    /// It has no program, or both `tree` and `flat`.
    NotOneProgram,
    /// No memory for the request.
    Memory,
    /// The program isn't well-formed, and should be.
    NotWellFormed(TreeFault),
    /// The program's text would be read as another tree, or as none, and should not: no parentheses
    /// mend it.
    NotADerivation,
    /// The program lacks parentheses, and is deeper than these are put in.
    TooDeep,
    /// The emission was refused.
    Refused(Error),
}

/// What is wrong with a line that isn't read, and where.
#[derive(Drop)]
pub(crate) struct Unread {
    pub(crate) message: String,
    /// The way from the request to what is wrong.
    pub(crate) path: Vec<Key>,
    pub(crate) line: usize,
    pub(crate) column: usize,
}

impl Fault {
    /// What an answer tells of it.
    pub(crate) fn value(&self, alloc: Global) -> Result<Value, AllocError>
        ensures { IfOk result (λ value. Tells self.now (view value)) }
    {
        match self {
            Fault::BadJson(error) => unread_value(alloc, "bad JSON", error),
            Fault::BadRequest(error) => unread_value(alloc, "bad request", error),
            Fault::BadTree(error) => unread_value(alloc, "bad tree", error),
            Fault::NotOneProgram => {
                json!(in alloc; {"kind": "bad request", "message": "one of `tree` and `flat` is wanted"})
            }
            Fault::Memory => json!(in alloc; {"kind": "refused", "cause": "memory"}),
            Fault::NotWellFormed(fault) => tree_fault(alloc, fault),
            Fault::NotADerivation => json!(in alloc; {"kind": "not a derivation"}),
            Fault::TooDeep => json!(in alloc; {"kind": "too deep"}),
            Fault::Refused(error) => {
                let cause = cause_of(error);
                json!(in alloc; {"kind": "refused", "cause": cause})
            }
        }
    }
}

/// What is told of a program that isn't well-formed: which rule is broken, and where.
fn tree_fault(alloc: Global, fault: &TreeFault) -> Result<Value, AllocError>
    ensures { IfOk result (λ value. view value ≡ tree_fault_data fault.now) }
{
    let path = path_value(alloc, &fault.path)?;
    json!(in alloc; {"kind": "not well-formed", "path": path, "rule": fault.rule})
}

/// The way to a node.
fn path_value(alloc: Global, path: &[Step]) -> Result<Value, AllocError>
    ensures { IfOk result (λ value. view value ≡ path_data path.now) }
{
    let mut items = Vec::with_capacity(alloc, path.len())?;
    for step in path {
        items.push(step_value(alloc, *step)?)?;
    }
    Ok(Value::Array(items))
}

/// A step to a node.
fn step_value(alloc: Global, step: Step) -> Result<Value, AllocError>
    ensures { IfOk result (λ value. view value ≡ step_data step) }
{
    match step {
        Step::Field(name) => json!(in alloc; name),
        Step::Element(index) => json!(in alloc; index),
    }
}

/// What is told of a line that isn't read, and where.
fn unread_value(alloc: Global, kind: &'static str, unread: &Unread) -> Result<Value, AllocError>
    ensures { IfOk result (λ value. view value ≡ unread_data kind.now unread.now) }
{
    let path = keys_value(alloc, &unread.path)?;
    json!(in alloc; {
        "kind": kind,
        "message": &unread.message,
        "path": path,
        "line": unread.line,
        "column": unread.column
    })
}

/// The way to a part of a request.
fn keys_value(alloc: Global, path: &[Key]) -> Result<Value, AllocError>
    ensures { IfOk result (λ value. view value ≡ keys_data path.now) }
{
    let mut items = Vec::with_capacity(alloc, path.len())?;
    for key in path {
        items.push(key_value(alloc, key)?)?;
    }
    Ok(Value::Array(items))
}

/// A step on this way.
fn key_value(alloc: Global, key: &Key) -> Result<Value, AllocError>
    ensures { IfOk result (λ value. view value ≡ key_data key.now) }
{
    match key {
        Key::Name(name) => json!(in alloc; name),
        Key::Index(index) => {
            let index = *index;
            json!(in alloc; index)
        }
    }
}

/// The cause of a refusal. A text is made in memory, so a fault of its writer is want of memory.
fn cause_of(error: &Error) -> &'static str
    ensures { result.now ≡ cause_of (reason_of error.now) }
{
    match error {
        Error::Writer(_) | Error::OutOfMemory => "memory",
        Error::UnsupportedNode => "unsupported node",
        Error::BadShape => "bad shape",
        Error::NameOutOfTarget => "name out of target",
        Error::PositionTooLarge => "position too large",
        Error::Failed => "failed",
    }
}
