//! serde's formats as sources.

use crate::source::{Failed, Fault, Form, Source};
use serde::{DeserializeOwned, Deserializer, Format, Kind, Name};
use std::alloc::Global;

/// What one of serde's formats reads, until it fails.
#[derive(Drop)]
pub struct Input<'a, 'de, 's, F: Format> {
    alloc: Global,
    from: &'a mut Deserializer<'de, 's, F>,
    form: Form,
    error: Option<F::Error>,
}

impl<'a, 'de, 's, F: Format> Input<'a, 'de, 's, F> {
    pub fn new(
        alloc: Global,
        from: &'a mut Deserializer<'de, 's, F>,
        form: Form,
    ) -> Input<'a, 'de, 's, F> {
        Input {
            alloc,
            from,
            form,
            error: None,
        }
    }

    pub fn has_failed(&self) -> bool {
        self.error.is_some()
    }

    /// Why it failed.
    pub fn error(&mut self) -> F::Error {
        match self.error.take() {
            Some(error) => error,
            None => self.from.invalid(),
        }
    }

    /// What is wrong with the node of this number.
    fn of_node(&self, before: &str, number: u32, after: &str) -> F::Error {
        match format!(in self.alloc; "{before} {number}{after}") {
            Ok(message) => self.from.custom(&message),
            Err(_) => self.from.no_memory(),
        }
    }

    /// What was read, or the error is kept: the first.
    #[inline(always)]
    fn keep<T: Drop>(&mut self, read: Result<T, F::Error>) -> Result<T, Failed> {
        if self.has_failed() {
            return Err(Failed);
        }
        match read {
            Ok(value) => Ok(value),
            Err(error) => {
                self.error = Some(error);
                Err(Failed)
            }
        }
    }
}

impl<'a, 'de, 's, F: Format> Source for Input<'a, 'de, 's, F> {
    #[inline(always)]
    fn alloc(&self) -> Global {
        self.alloc
    }

    #[inline(always)]
    fn form(&self) -> Form {
        self.form
    }

    #[inline(always)]
    fn flag(&mut self) -> Result<bool, Failed> {
        let read = self.from.bool();
        self.keep(read)
    }

    #[inline(always)]
    fn text(&mut self) -> Result<String, Failed> {
        let read = self.from.string(self.alloc);
        self.keep(read)
    }

    #[inline(always)]
    fn signed(&mut self) -> Result<i32, Failed> {
        let read = i32::deserialize_owned(self.alloc, self.from);
        self.keep(read)
    }

    #[inline(always)]
    fn unsigned(&mut self) -> Result<u32, Failed> {
        let read = u32::deserialize_owned(self.alloc, self.from);
        self.keep(read)
    }

    #[inline(always)]
    fn skip_if_null(&mut self) -> Result<bool, Failed> {
        let read = self.from.take_none();
        self.keep(read)
    }

    #[inline(always)]
    fn is_at_text(&mut self) -> Result<bool, Failed> {
        let read = self.from.peek();
        let kind = self.keep(read)?;
        Ok(kind == Kind::Str)
    }

    #[inline(always)]
    fn begin_list(&mut self) -> Result<(), Failed> {
        let read = self.from.begin_seq();
        self.keep(read)
    }

    #[inline(always)]
    fn next_item(&mut self) -> Result<bool, Failed> {
        let read = self.from.next_item();
        self.keep(read)
    }

    #[inline(always)]
    fn begin_object(&mut self) -> Result<(), Failed> {
        let read = self.from.begin_struct();
        if self.keep(read)? {
            return Err(self.fail(Fault::Invalid));
        }
        Ok(())
    }

    #[inline(always)]
    fn next_member(&mut self, names: &[Name<'_>]) -> Result<Option<usize>, Failed> {
        let read = self.from.next_key(names);
        self.keep(read)
    }

    #[inline(always)]
    fn end_object(&mut self) {
        if let Ok(Some(_)) = self.next_member(&[]) {
            self.fail(Fault::Invalid);
        }
    }

    #[inline(always)]
    fn word(&mut self, names: &[Name<'_>]) -> Result<usize, Failed> {
        let read = self.from.variant(names);
        self.keep(read)
    }

    #[inline(always)]
    fn skip_unwanted(&mut self) -> Result<(), Failed> {
        if self.form == Form::Short {
            return Err(self.fail(Fault::UnknownMember));
        }
        let read = self.from.skip();
        self.keep(read)
    }

    fn fail(&mut self, fault: Fault<'_>) -> Failed {
        if self.has_failed() {
            return Failed;
        }
        self.error = Some(match fault {
            Fault::Missing(name) => self.from.missing(name),
            Fault::Duplicate(name) => self.from.duplicate(name),
            Fault::UnknownMember => self.from.unknown_key(),
            Fault::UnknownVariant => self.from.unknown_variant(),
            Fault::Invalid => self.from.invalid(),
            Fault::NotInItsForm => self.from.custom("a number that isn't in its one form"),
            Fault::NoMemory => self.from.no_memory(),
            Fault::TooDeep => self.from.custom("recursion limit exceeded"),
            // (serde_json keeps 32 bytes of a message)
            Fault::NoSuchNode(number) => self.of_node("no earlier node", number, ""),
            Fault::LinkedTwice(number) => self.of_node("node", number, " linked twice"),
            Fault::OtherSort(number) => self.of_node("node", number, " of another sort"),
            Fault::NeverLinked(number) => self.of_node("node", number, " never linked"),
            Fault::NoProgram => self.from.custom("no program at the end"),
            Fault::PastProgram => self.from.custom("a node behind the program"),
        });
        Failed
    }
}
