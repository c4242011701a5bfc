//! What answers are known by.

ghost use Rattle.std.specs.Prelude.{◌≡◌, ◌≢◌, ◌≤◌, All, Some, IfOk, IfSome, option_map, string_bytes};
ghost use Rattle.serde_json.specs.Data.{depth};
ghost use Rattle.serde_json.specs.Read.{read, max_depth};
ghost use Rattle.serde_json.specs.View.{view};
ghost use Rattle.swc_ecma_codegen_requests.specs.Ids.{IsKnownBy, IsKnownIn, IsPartOf, IsTextOf};

use json::{Reader, Scratch, Token};
use memchr::memchr;
use serde::{Deserialize, DeserializeOwned, Deserializer, Format};
use serde_json::Value;
use std::alloc::{AllocError, Global};

/// How deep values nest that are passed over.
const LEVELS: usize = 127;

/// What a request is known by, if it is: any value, `null` too.
#[derive(Default, Drop)]
pub(crate) struct Known(pub(crate) Option<Value>);

impl DeserializeOwned for Known {
    fn deserialize_owned<F: Format>(
        alloc: Global,
        from: &mut Deserializer<'_, '_, F>,
    ) -> Result<Known, F::Error> {
        match Value::deserialize_owned(alloc, from) {
            Ok(value) => Ok(Known(Some(value))),
            Err(error) => Err(error),
        }
    }
}

impl<'de> Deserialize<'de> for Known {
    fn deserialize<F: Format>(
        alloc: Global,
        from: &mut Deserializer<'de, '_, F>,
    ) -> Result<Known, F::Error> {
        Known::deserialize_owned(alloc, from)
    }
}

impl Known {
    /// The text of the value, as it stands in the line that the request is.
    pub(crate) fn text(&self, alloc: Global, line: &[u8]) -> Result<Option<String>, AllocError>
        ensures { IfOk result (λ text. IsKnownBy line.now (option_map view self.now.0)
            (option_map string_bytes text)) }
    {
        match &self.0 {
            Some(id) => Ok(Some(text_of(alloc, line, id)?)),
            None => Ok(None),
        }
    }
}

/// The text of the value of `id` in a line, which isn't read as a request, if it is JSON.
pub(crate) fn text_in(alloc: Global, line: &[u8]) -> Result<Option<String>, AllocError>
    ensures { IfOk result (λ text. IsKnownIn line.now (option_map string_bytes text)) }
{
    match found_in(alloc, line)? {
        Some(found) => Ok(Some(String::from_str(alloc, found.text)?)),
        None => Ok(None),
    }
}

/// The text of an id: that of the line if it reads as this value, and else the value's own.
fn text_of(alloc: Global, line: &[u8], id: &Value) -> Result<String, AllocError>
    ensures { IfOk result (λ text. IsTextOf line.now (view id.now) (string_bytes text)) }
{
    let own = id.to_string(alloc)?;
    if let Some(found) = found_in(alloc, line)? {
        let again = found.value.to_string(alloc)?;
        if again.as_str() == own.as_str() {
            return String::from_str(alloc, found.text);
        }
    }
    Ok(own)
}

/// A part of a line, and the value that it reads as.
#[derive(Drop)]
struct Found<'a> {
    text: &'a str,
    value: Value,
}

/// What stands for `id` in a line, if it is JSON without an LF.
fn found_in<'a>(alloc: Global, line: &'a [u8]) -> Result<Option<Found<'a>>, AllocError>
    ensures part { IfOk result (λ found. IfSome found (λ found.
        IsPartOf line.now found.text.now)) }
    ensures in_line { IfOk result (λ found. IfSome found (λ found.
        All (λ x. x ≢ 10) found.text.now)) }
    ensures reads { IfOk result (λ found. IfSome found (λ found.
        read found.text.now ≡ Some (view found.value))) }
    ensures nests { IfOk result (λ found. IfSome found (λ found.
        depth (view found.value) ≤ max_depth)) }
{
    let Some(text) = member_text(alloc, line)? else {
        return Ok(None);
    };
    match value_in(alloc, text)? {
        Some(value) => Ok(Some(Found { text, value })),
        None => Ok(None),
    }
}

/// The value that a text in one line is.
#[tactic(auto, using(crate::proofs::Bytes::none_found))]
fn value_in(alloc: Global, text: &str) -> Result<Option<Value>, AllocError>
    ensures reads { IfOk result (λ value. IfSome value (λ value.
        read text.now ≡ Some (view value))) }
    ensures nests { IfOk result (λ value. IfSome value (λ value. depth (view value) ≤ max_depth)) }
    ensures in_line { IfOk result (λ value. IfSome value (λ _. All (λ x. x ≢ 10) text.now)) }
{
    if memchr(b'\n', text.as_bytes()).is_some() {
        return Ok(None);
    }
    match Value::from_str(alloc, text) {
        Ok(value) => Ok(Some(value)),
        Err(error) if error.is_memory() => Err(AllocError),
        Err(_) => Ok(None),
    }
}

/// The text of the value of `id` in the object that a line is; none where the line is no text, or
/// breaks before it.
fn member_text<'a>(alloc: Global, line: &'a [u8]) -> Result<Option<&'a str>, AllocError>
    ensures { IfOk result (λ part. IfSome part (λ part. IsPartOf line.now part.now)) }
{
    match std::str::from_utf8(line) {
        Ok(line) => member_in(alloc, line, "id"),
        Err(_) => Ok(None),
    }
}

/// The text of the value of a member of the object that a text is: the first of this name.
fn member_in<'a>(alloc: Global, text: &'a str, name: &str) -> Result<Option<&'a str>, AllocError>
    ensures { IfOk result (λ part. IfSome part (λ part. IsPartOf text.now part.now)) }
{
    let mut scratch = Scratch::new(alloc);
    let mut reader = Reader::new(text, &mut scratch)?;
    let Some(Token::BeginObject) = reader.next() else {
        return Ok(None);
    };
    for _ in 0..u64::MAX {
        let Ok(Some(key)) = reader.next_key() else {
            break;
        };
        let is_it = key == name;
        let from = reader.offset();
        if reader.skip_value(LEVELS).is_err() {
            break;
        }
        if is_it {
            return Ok(within(text, from, reader.offset()));
        }
    }
    Ok(None)
}

/// The text between two places, without the comma and the blanks round it.
fn within(text: &str, from: usize, to: usize) -> Option<&str>
    ensures { IfSome result (λ part. IsPartOf text.now part.now) }
{
    let (front, _) = text.split_at_checked(to)?;
    let (_, found) = front.split_at_checked(from)?;
    let blanks = [' ', '\t', '\r', '\n', ','];
    let ended = found.trim_end_matches(blanks);
    Some(ended.trim_start_matches(blanks))
}
