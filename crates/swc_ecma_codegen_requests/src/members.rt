//! Members of objects, and the lines that answers are.

ghost use Rattle.std.specs.Prelude.{◌≡◌, drop, IfOk, OnOk, string_bytes, option_map};
ghost use Rattle.serde_json.specs.View.{view, members_view};
ghost use Rattle.swc_ecma_codegen_requests.specs.Members as answer;

use serde_json::{Map, Value, json, put};
use std::alloc::{AllocError, Global};
use swc_ecma_codegen_common::{BytePos, LineCol};

/// Puts a member into an object, where there is one.
#[tactic(auto, unfolding(crate::specs::Members::with_member))]
pub(crate) fn put_some(
    members: &mut Map<String, Value>,
    alloc: Global,
    name: &str,
    value: Option<Value>,
) -> Result<(), AllocError>
    ensures { OnOk result (members_view members.new.entries
        ≡ answer.with_member name.now (option_map view value) (members_view members.old.entries)) }
{
    match value {
        Some(value) => put(members, alloc, name, value),
        None => Ok(()),
    }
}

/// The members of an answer with a text.
pub(crate) fn text_members(
    alloc: Global,
    code: String,
    positions: &Option<Vec<(BytePos, LineCol)>>,
    left: Option<Value>,
) -> Result<Map<String, Value>, AllocError>
    ensures { IfOk result (λ made. members_view made.entries
        ≡ answer.text_members (string_bytes code) (option_map (λ list. list.items) positions.now)
        (option_map view left)) }
{
    let positions = positions_in(alloc, positions)?;
    let mut members = Map::new(alloc);
    put(&mut members, alloc, "code", Value::String(code))?;
    put_some(&mut members, alloc, "positions", positions)?;
    put_some(&mut members, alloc, "left", left)?;
    Ok(members)
}

/// What was recorded, if anything was to be.
fn positions_in(
    alloc: Global,
    positions: &Option<Vec<(BytePos, LineCol)>>,
) -> Result<Option<Value>, AllocError>
    ensures { IfOk result (λ value. option_map view value
        ≡ option_map (λ list. answer.positions_data list.items) positions.now) }
{
    match positions {
        Some(list) => Ok(Some(positions_value(alloc, list)?)),
        None => Ok(None),
    }
}

/// What was recorded: each position of the source with a line and a column.
fn positions_value(alloc: Global, positions: &[(BytePos, LineCol)]) -> Result<Value, AllocError>
    ensures { IfOk result (λ value. view value ≡ answer.positions_data positions.now) }
{
    let mut items = Vec::with_capacity(alloc, positions.len())?;
    for pair in positions {
        items.push(position_value(alloc, *pair)?)?;
    }
    Ok(Value::Array(items))
}

/// A position of the source, with the line and the column.
fn position_value(alloc: Global, pair: (BytePos, LineCol)) -> Result<Value, AllocError>
    ensures { IfOk result (λ value. view value ≡ answer.position_data pair) }
{
    let (pos, place) = pair;
    json!(in alloc; [pos.0, place.line, place.col])
}

/// The members of an answer without a text.
pub(crate) fn fault_members(alloc: Global, fault: Value) -> Result<Map<String, Value>, AllocError>
    ensures { IfOk result (λ made. members_view made.entries ≡ answer.fault_members (view fault)) }
{
    let mut members = Map::new(alloc);
    put(&mut members, alloc, "error", fault)?;
    Ok(members)
}

/// The line of an answer: its members, and first what its request is known by, if that is known:
/// `{"id":7,"code":"a;\n"}`.
pub(crate) fn line_of(
    alloc: Global,
    id: Option<String>,
    members: Map<String, Value>,
) -> Result<Vec<u8>, AllocError>
    ensures { IfOk result (λ line. answer.IsLineOf (option_map string_bytes id)
        (members_view members.entries) line.items) }
{
    let json = Value::Object(members).to_string(alloc)?;
    let mut line = with_id(alloc, &id, json.as_bytes())?;
    line.push(b'\n')?;
    Ok(line)
}

/// The text of an object with members, in which what its request is known by comes first.
#[tactic(auto, unfolding(crate::specs::Members::with_id))]
fn with_id(alloc: Global, id: &Option<String>, json: &[u8]) -> Result<Vec<u8>, AllocError>
    ensures { IfOk result (λ line. line.items
        ≡ answer.with_id (option_map string_bytes id.now) json.now) }
{
    match id {
        Some(id) => {
            let mut line = Vec::with_capacity(alloc, json.len().saturating_add(id.len()))?;
            line.extend_from_slice(b"{\"id\":")?;
            line.extend_from_slice(id.as_bytes())?;
            line.push(b',')?;
            line.extend_from_slice(behind_first(json))?;
            Ok(line)
        }
        None => Vec::from_slice(alloc, json),
    }
}

/// The bytes behind the first one.
fn behind_first(bytes: &[u8]) -> &[u8]
    ensures { result.now ≡ drop 1 bytes.now }
{
    match bytes.split_first() {
        Some((_, rest)) => rest,
        None => bytes,
    }
}
