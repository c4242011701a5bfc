//! What is wrong with a line of which no request was read.

ghost use Rattle.std.specs.Prelude.{IfOk};
ghost use Rattle.swc_ecma_codegen_requests.specs.Answers.{IsUnread};

use crate::faults::{Fault, Unread};
use crate::objects::Presence;
use crate::places::{Key, Place, place_of};
use std::alloc::{AllocError, Global};

/// What is wrong with a line, of which no request was read for this reason.
pub(crate) fn fault_of(
    alloc: Global,
    line: &[u8],
    error: &serde_json::Error,
) -> Result<Fault, AllocError>
    ensures { IfOk result IsUnread }
{
    if error.is_memory() {
        return Ok(Fault::Memory);
    }
    let told = format!(in alloc; "{error}")?;
    let told = without_place(&told);
    let place = match std::str::from_utf8(line) {
        Ok(text) => place_of(alloc, text, error.column().saturating_sub(1))?,
        Err(_) => Place::nowhere(alloc),
    };
    let is_json = error.is_data() || told == TOO_DEEP || is_json(alloc, line);
    let is_of_tree = place.is_of_tree();
    let unread = Unread {
        message: message_of(alloc, told, &place)?,
        path: place.path,
        // a line has one LF, at its end
        line: 1,
        column: if error.line() > 1 {
            line.len().saturating_sub(1)
        } else {
            error.column()
        },
    };
    if !is_json {
        Ok(Fault::BadJson(unread))
    } else if is_of_tree {
        Ok(Fault::BadTree(unread))
    } else {
        Ok(Fault::BadRequest(unread))
    }
}

/// What serde_json says of a value that nests deeper than it reads.
const TOO_DEEP: &str = "recursion limit exceeded";

/// Whether a line is JSON.
fn is_json(alloc: Global, line: &[u8]) -> bool {
    serde_json::from_slice::<Presence>(alloc, line).is_ok()
}

/// What serde_json says is wrong, without the place that it tells behind it.
fn without_place(told: &str) -> &str {
    match told.rsplit_once(" at line ") {
        Some((message, _)) => message,
        None => told,
    }
}

/// What is wrong at a place, with the word that stands there, and with what may stand there.
fn message_of(alloc: Global, told: &str, place: &Place) -> Result<String, AllocError> {
    let mut message = String::new(alloc);
    message.push_str(match told {
        "unknown field" => "unknown member",
        _ => told,
    })?;
    if let ("unknown field" | "unknown variant" | "invalid value", Some(word)) = (
        told,
        &place.word,
    ) {
        message.push_str(" `")?;
        message.push_str(word)?;
        message.push('`')?;
    }
    if let Some(wanted) = wanted_at(told, place) {
        message.push_str("; ")?;
        message.push_str(wanted)?;
    }
    Ok(message)
}

/// What may stand at a place of a request, besides its program.
fn wanted_at(told: &str, place: &Place) -> Option<&'static str> {
    let is_of_objects = matches!(told, "unknown field" | "missing field");
    match place.path.as_slice() {
        [] => Some("a request is an object with `tree` or `flat`"),
        [Key::Name(_)] if told == "unknown field" => Some(REQUEST),
        [Key::Name(name)] => Some(match name.as_str() {
            "config" => "`config` is an object",
            "comments" => "`comments` is an object with `leading` and `trailing`",
            "source" => "`source` is a string",
            "first" => "`first` is a number from 0 to 4294967295",
            "positions" | "any" | "parenthesize" => "true or false",
            _ => return None,
        }),
        [Key::Name(outer), Key::Name(_)] if outer.as_str() == "config" && is_of_objects => Some(
            CONFIG,
        ),
        [Key::Name(outer), Key::Name(name)] if outer.as_str() == "config" => Some(
            match name.as_str() {
                "target" => TARGETS,
                "indent" => INDENTS,
                "new_line" => "`new_line` is \"\\n\" or \"\\r\\n\"",
                "max_line" => "`max_line` is a number from 0 to 4294967295",
                _ => "true or false",
            },
        ),
        [Key::Name(outer), ..] if outer.as_str() == "comments" => Some(COMMENTS),
        _ => None,
    }
}

const REQUEST: &str =
    "a request has `tree` or `flat`, and may have `source`, `first`, `comments`, `config`, `positions`, `parenthesize`, `any` and `id`";

const CONFIG: &str =
    "`config` may have `minify`, `ascii_only`, `omit_last_semi`, `emit_assert_for_import_attributes`, `inline_script`, `target`, `max_line`, `indent` and `new_line`";

const TARGETS: &str = "`target` is \"es3\", \"es5\", \"es2015\" to \"es2022\", or \"esnext\"";

const INDENTS: &str =
    "`indent` is a number of blanks from 0 to 10, or a text of as many blanks or tabs";

const COMMENTS: &str =
    "`leading` and `trailing` have lists by positions, of comments as {\"kind\":\"Line\",\"text\":\" a\",\"span\":{\"lo\":1,\"hi\":5}}, or of the kind \"Block\"";
