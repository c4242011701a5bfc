//! Where in a request something stands.

use json::{Reader, Scratch, Token};
use std::alloc::{AllocError, Global};

/// A step from a value to a part of it.
#[derive(Debug, Drop, PartialEq, Eq)]
pub(crate) enum Key {
    Name(String),
    Index(u32),
}

/// The way to what stands at a place of a text.
#[derive(Drop)]
pub(crate) struct Place {
    pub(crate) path: Vec<Key>,
    /// The name of the member, or the text, that begins there.
    pub(crate) word: Option<String>,
    /// Whether a member's name begins there.
    pub(crate) is_name: bool,
}

impl Place {
    /// A place in no text.
    pub(crate) fn nowhere(alloc: Global) -> Place {
        Place {
            path: Vec::new(alloc),
            word: None,
            is_name: false,
        }
    }

    /// Whether it lies in the program of a request.
    pub(crate) fn is_of_tree(&self) -> bool {
        match self.path.first() {
            Some(Key::Name(name)) => {
                matches!(name.as_str(), "tree" | "flat") && !(self.is_name && self.path.len() == 1)
            }
            _ => false,
        }
    }
}

/// The way to what begins at a byte of a text, or holds it. Of a member's name it is the way to the
/// member.
pub(crate) fn place_of(alloc: Global, text: &str, at: usize) -> Result<Place, AllocError> {
    let mut scratch = Scratch::new(alloc);
    let mut reader = Reader::new(text, &mut scratch)?;
    let mut path = Path::new(alloc);
    for _ in 0..u64::MAX {
        let from = reader.offset();
        let Some(token) = reader.next() else {
            break;
        };
        if from >= at {
            return path.place_at(alloc, token);
        }
        path.pass(alloc, token)?;
    }
    Ok(Place {
        path: path.keys()?,
        word: None,
        is_name: false,
    })
}

/// An object or an array that isn't at its end, and what comes next in it.
#[derive(Drop)]
enum Open {
    Object(Option<String>),
    Array(u32),
}

/// The objects and arrays that a place lies in, one in another.
#[derive(Drop)]
struct Path {
    alloc: Global,
    open: Vec<Open>,
}

impl Path {
    fn new(alloc: Global) -> Path {
        Path {
            alloc,
            open: Vec::new(alloc),
        }
    }

    /// Passes a token.
    fn pass(&mut self, alloc: Global, token: Token<'_>) -> Result<(), AllocError> {
        match token {
            Token::BeginObject => self.open.push(Open::Object(None))?,
            Token::BeginArray => self.open.push(Open::Array(0))?,
            Token::Key(name) => self.begin_member(String::from_str(alloc, name)?),
            Token::EndObject | Token::EndArray => {
                self.open.pop();
                self.end_value();
            }
            _ => self.end_value(),
        }
        Ok(())
    }

    /// A member of the innermost object begins.
    fn begin_member(&mut self, name: String) {
        if let Some(Open::Object(member)) = self.open.last_mut() {
            *member = Some(name);
        }
    }

    /// A value ends in the innermost of them.
    fn end_value(&mut self) {
        match self.open.last_mut() {
            Some(Open::Array(index)) => *index = index.saturating_add(1),
            Some(Open::Object(member)) => *member = None,
            None => {}
        }
    }

    /// The way to the place before a token.
    fn place_at(mut self, alloc: Global, token: Token<'_>) -> Result<Place, AllocError> {
        let (word, is_name) = match token {
            Token::Key(name) => (Some(String::from_str(alloc, name)?), true),
            Token::String(text) => (Some(String::from_str(alloc, text)?), false),
            _ => (None, false),
        };
        match token {
            Token::Key(name) => self.begin_member(String::from_str(alloc, name)?),
            // what ends is itself at fault, and no part of it
            Token::EndObject | Token::EndArray => {
                self.open.pop();
            }
            _ => {}
        }
        Ok(Place {
            path: self.keys()?,
            word,
            is_name,
        })
    }

    fn keys(self) -> Result<Vec<Key>, AllocError> {
        let mut keys = Vec::with_capacity(self.alloc, self.open.len())?;
        for open in self.open {
            match open {
                Open::Object(Some(name)) => keys.push(Key::Name(name))?,
                Open::Array(index) => keys.push(Key::Index(index))?,
                Open::Object(None) => {}
            }
        }
        Ok(keys)
    }
}
