//! What a tree is read from.

use serde::Name;
use std::alloc::Global;

/// A read has failed. Why, its source keeps.
#[derive(Debug, Clone, Copy, PartialEq, Eq)]
pub struct Failed;

/// The forms that a tree is read in.
#[derive(Debug, Clone, Copy, PartialEq, Eq)]
pub enum Form {
    /// All members stand there, and others are passed over.
    Whole,
    /// Members that have a default may be left out, and others are refused.
    Short,
}

/// What is wrong with what was read.
#[derive(Debug, Clone, Copy, PartialEq, Eq)]
pub enum Fault<'a> {
    /// A member is missing.
    Missing(&'a str),
    /// A member comes a second time.
    Duplicate(&'a str),
    /// A member stands there that isn't wanted.
    UnknownMember,
    /// No variant has this name.
    UnknownVariant,
    /// Something else stands where an object or its end was wanted.
    Invalid,
    /// A number isn't in its one form.
    NotInItsForm,
    /// A growth was refused.
    NoMemory,
    /// Too many links lie below one another.
    TooDeep,
    /// A link in the flat form has the number of a node that doesn't stand before it.
    NoSuchNode(u32),
    /// A second link leads to the node of this number.
    LinkedTwice(u32),
    /// A link leads to the node of this number, which isn't of its sort.
    OtherSort(u32),
    /// No link leads to the node of this number.
    NeverLinked(u32),
    /// A list of nodes ends without a program.
    NoProgram,
    /// A node stands behind the program.
    PastProgram,
}

/// A text that is read once, from its beginning to its end. Once a call has failed, so does each
/// later one.
pub trait Source {
    /// Where what is read is kept.
    fn alloc(&self) -> Global;

    /// The form that it is in.
    fn form(&self) -> Form;

    fn flag(&mut self) -> Result<bool, Failed>;

    fn text(&mut self) -> Result<String, Failed>;

    fn signed(&mut self) -> Result<i32, Failed>;

    fn unsigned(&mut self) -> Result<u32, Failed>;

    /// Skips `null`, and says whether it stood there.
    fn skip_if_null(&mut self) -> Result<bool, Failed>;

    /// Whether a text comes.
    fn is_at_text(&mut self) -> Result<bool, Failed>;

    fn begin_list(&mut self) -> Result<(), Failed>;

    /// Whether an item comes. The end of the list is taken.
    fn next_item(&mut self) -> Result<bool, Failed>;

    fn begin_object(&mut self) -> Result<(), Failed>;

    /// Where among the names the next member's stands, or past them; none at the end of the object,
    /// which is taken.
    fn next_member(&mut self, names: &[Name<'_>]) -> Result<Option<usize>, Failed>;

    /// Takes the end of an object. Where another member comes, this fails, which the next call
    /// tells.
    fn end_object(&mut self);

    /// Where among the names a text stands, or past them.
    fn word(&mut self, names: &[Name<'_>]) -> Result<usize, Failed>;

    /// Passes over the value of a member that isn't wanted. In the short form it fails.
    fn skip_unwanted(&mut self) -> Result<(), Failed>;

    /// Fails. Of several faults the first is kept.
    fn fail(&mut self, fault: Fault<'_>) -> Failed;
}
