//! Comments, as requests have them, and answers those that are left.

ghost use Rattle.std.specs.Prelude.{◌≡◌, ℕ, map, option_map, codes, IfOk, OnOk};
ghost use Rattle.serde_json.specs.View.{view, members_view};
ghost use Rattle.std.specs.Fmt.{decimal};
ghost use Rattle.swc_ecma_codegen_grammar.specs.CommentMaps.{without};
ghost use Rattle.swc_ecma_codegen_requests.specs.Members as answer;
ghost use Rattle.swc_ecma_codegen_requests.specs.Remarks as remarks;

use crate::members::put_some;
use crate::objects::Object;
use serde::Deserialize;
use serde_json::{Map, Value, json};
use std::alloc::{AllocError, Global};
use std::collections::BTreeMap;
use swc_ecma_codegen_common::{BytePos, Span};
use swc_ecma_codegen_grammar::comments::{Comment, CommentKind, CommentMaps, Comments};

/// Comments by the positions that they stand before, and after.
#[derive(Drop, Deserialize)]
#[serde(deny_unknown_fields)]
pub(crate) struct Placed {
    pub(crate) leading: Lists,
    pub(crate) trailing: Lists,
}

/// Lists of comments by their positions, each of which comes once.
#[derive(Drop)]
pub(crate) struct Lists(pub(crate) BTreeMap<u32, Vec<Remark>>);

/// A comment, without the characters that open and close it.
#[derive(Drop, Deserialize)]
#[serde(deny_unknown_fields)]
pub(crate) struct Remark {
    pub(crate) kind: Kind,
    pub(crate) text: String,
    #[serde(default)]
    span: Object<Place>,
}

#[derive(Debug, Clone, Copy, PartialEq, Eq, Deserialize)]
pub(crate) enum Kind {
    Line,
    Block,
}

#[derive(Debug, Clone, Copy, Default, PartialEq, Eq, Deserialize)]
#[serde(deny_unknown_fields)]
struct Place {
    lo: u32,
    hi: u32,
}

impl Remark {
    fn into_comment(self) -> Comment
        ensures { result ≡ remarks.comment_of self }
    {
        let kind = match self.kind {
            Kind::Line => CommentKind::Line,
            Kind::Block => CommentKind::Block,
        };
        let (lo, hi) = (BytePos(self.span.0.lo), BytePos(self.span.0.hi));
        Comment {
            kind,
            span: Span { lo, hi },
            text: self.text,
        }
    }
}

/// The side of a position on which comments stand.
#[derive(Debug, Clone, Copy, PartialEq, Eq)]
enum Side {
    Before,
    After,
}

impl Side {
    /// Puts a comment behind those that stand there.
    #[tactic(auto, unfolding(crate::specs::Remarks::with_comment))]
    fn add(self, maps: &mut CommentMaps, pos: BytePos, comment: Comment) -> Result<(), AllocError>
        ensures { OnOk result (⟦<CommentMaps as Comments>⟧.maps maps.new
            ≡ remarks.with_comment self pos.0 comment (⟦<CommentMaps as Comments>⟧.maps maps.old)) }
    {
        let added = match self {
            Side::Before => maps.add_leading(pos, comment),
            Side::After => maps.add_trailing(pos, comment),
        };
        added.map_err(|_| AllocError)
    }

    /// The comments that stand there, taken out.
    #[tactic(auto, unfolding(crate::specs::Remarks::entries, swc_ecma_codegen_grammar::specs::CommentMaps::without_leading, swc_ecma_codegen_grammar::specs::CommentMaps::without_trailing))]
    fn take(self, maps: &mut CommentMaps, pos: BytePos) -> Option<Vec<Comment>>
        ensures taken { option_map (λ list. list.items) result
            ≡ remarks.entries self (⟦<CommentMaps as Comments>⟧.maps maps.old) pos.0 }
        ensures removed { remarks.entries self (⟦<CommentMaps as Comments>⟧.maps maps.new)
            ≡ without pos.0 (remarks.entries self (⟦<CommentMaps as Comments>⟧.maps maps.old)) }
        ensures others { remarks.entries (remarks.other self)
            (⟦<CommentMaps as Comments>⟧.maps maps.new)
            ≡ remarks.entries (remarks.other self) (⟦<CommentMaps as Comments>⟧.maps maps.old) }
    {
        match self {
            Side::Before => maps.take_leading(pos),
            Side::After => maps.take_trailing(pos),
        }
    }
}

/// The positions that have comments.
#[derive(Drop)]
pub(crate) struct Places {
    pub(crate) leading: Vec<BytePos>,
    pub(crate) trailing: Vec<BytePos>,
}

/// The maps of comments, and the positions that have some.
pub(crate) fn maps_of(alloc: Global, comments: Placed) -> Result<(CommentMaps, Places), AllocError>
    ensures maps { IfOk result (λ made. ⟦<CommentMaps as Comments>⟧.maps made.0
        ≡ remarks.placed_maps comments) }
    ensures places { IfOk result (λ made. remarks.places_of made.1 ≡ remarks.places_in comments) }
{
    let mut maps = CommentMaps::new(alloc);
    let leading = add_all(alloc, &mut maps, Side::Before, comments.leading)?;
    let trailing = add_all(alloc, &mut maps, Side::After, comments.trailing)?;
    Ok((maps, Places { leading, trailing }))
}

/// Puts comments into maps, each at its position, and gives the positions.
fn add_all(
    alloc: Global,
    maps: &mut CommentMaps,
    side: Side,
    lists: Lists,
) -> Result<Vec<BytePos>, AllocError>
    ensures maps { OnOk result (⟦<CommentMaps as Comments>⟧.maps maps.new
        ≡ remarks.with_all side lists.0.entries (⟦<CommentMaps as Comments>⟧.maps maps.old)) }
    ensures places { IfOk result (λ places. places.items ≡ remarks.positions lists.0.entries) }
{
    let mut places = Vec::new(alloc);
    for (pos, list) in lists.0 {
        add_list(maps, side, BytePos(pos), list)?;
        places.push(BytePos(pos))?;
    }
    Ok(places)
}

/// Puts the comments of a position into maps.
fn add_list(
    maps: &mut CommentMaps,
    side: Side,
    pos: BytePos,
    list: Vec<Remark>,
) -> Result<(), AllocError>
    ensures { OnOk result (⟦<CommentMaps as Comments>⟧.maps maps.new
        ≡ remarks.with_list side pos.0 list.items (⟦<CommentMaps as Comments>⟧.maps maps.old)) }
{
    for remark in list {
        side.add(maps, pos, remark.into_comment())?;
    }
    Ok(())
}

/// The comments of these positions that are left in maps, as requests have comments.
pub(crate) fn left_in(alloc: Global, maps: CommentMaps, places: Places) -> Result<Value, AllocError>
    ensures { IfOk result (λ value. view value
        ≡ remarks.left_at (remarks.places_of places) (⟦<CommentMaps as Comments>⟧.maps maps)) }
{
    let mut maps = maps;
    let leading = left_on(alloc, Side::Before, &mut maps, places.leading)?;
    let trailing = left_on(alloc, Side::After, &mut maps, places.trailing)?;
    sides_value(alloc, leading, trailing)
}

/// Comments on both sides, as requests have them.
fn sides_value(
    alloc: Global,
    leading: Map<String, Value>,
    trailing: Map<String, Value>,
) -> Result<Value, AllocError>
    ensures { IfOk result (λ value. view value ≡ remarks.sides_data
        (members_view leading.entries) (members_view trailing.entries)) }
{
    json!(in alloc; {"leading": leading, "trailing": trailing})
}

/// The comments on one side of these positions, taken out: a member for each position that has
/// some.
fn left_on(
    alloc: Global,
    side: Side,
    maps: &mut CommentMaps,
    places: Vec<BytePos>,
) -> Result<Map<String, Value>, AllocError>
    ensures members { IfOk result (λ members. members_view members.entries
        ≡ remarks.left_members places.items
        (remarks.entries side (⟦<CommentMaps as Comments>⟧.maps maps.old))) }
    ensures others { remarks.entries (remarks.other side)
        (⟦<CommentMaps as Comments>⟧.maps maps.new)
        ≡ remarks.entries (remarks.other side) (⟦<CommentMaps as Comments>⟧.maps maps.old) }
{
    let mut members = Map::new(alloc);
    for pos in places {
        left_at(alloc, side, maps, pos, &mut members)?;
    }
    Ok(members)
}

/// The comments on one side of a position, taken out: a member under its number, if it has some.
fn left_at(
    alloc: Global,
    side: Side,
    maps: &mut CommentMaps,
    pos: BytePos,
    members: &mut Map<String, Value>,
) -> Result<(), AllocError>
    ensures members { OnOk result (members_view members.new.entries
        ≡ answer.with_member (decimal pos.0) (option_map remarks.list_data
        (remarks.entries side (⟦<CommentMaps as Comments>⟧.maps maps.old) pos.0))
        (members_view members.old.entries)) }
    ensures removed { remarks.entries side (⟦<CommentMaps as Comments>⟧.maps maps.new)
        ≡ without pos.0 (remarks.entries side (⟦<CommentMaps as Comments>⟧.maps maps.old)) }
    ensures others { remarks.entries (remarks.other side)
        (⟦<CommentMaps as Comments>⟧.maps maps.new)
        ≡ remarks.entries (remarks.other side) (⟦<CommentMaps as Comments>⟧.maps maps.old) }
{
    let list = side.take(maps, pos);
    let value = list_value(alloc, &list)?;
    let number = pos.0.to_string(alloc)?;
    put_some(members, alloc, &number, value)
}

/// The comments of a position, if it has some.
fn list_value(alloc: Global, list: &Option<Vec<Comment>>) -> Result<Option<Value>, AllocError>
    ensures { IfOk result (λ value. option_map view value
        ≡ option_map (λ list. remarks.list_data list.items) list.now) }
{
    match list {
        Some(list) => Ok(Some(comments_value(alloc, list)?)),
        None => Ok(None),
    }
}

/// Comments, as requests have them.
fn comments_value(alloc: Global, comments: &[Comment]) -> Result<Value, AllocError>
    ensures { IfOk result (λ value. view value ≡ remarks.list_data comments.now) }
{
    let mut items = Vec::with_capacity(alloc, comments.len())?;
    for comment in comments {
        items.push(comment_value(alloc, comment)?)?;
    }
    Ok(Value::Array(items))
}

/// A comment, as requests have it.
fn comment_value(alloc: Global, comment: &Comment) -> Result<Value, AllocError>
    ensures { IfOk result (λ value. view value ≡ remarks.comment_data comment.now) }
{
    let span = span_value(alloc, comment.span)?;
    let kind = kind_name(comment.kind);
    json!(in alloc; {"kind": kind, "text": &comment.text, "span": span})
}

/// A span, as requests have it.
fn span_value(alloc: Global, span: Span) -> Result<Value, AllocError>
    ensures { IfOk result (λ value. view value ≡ remarks.span_data span) }
{
    json!(in alloc; {"lo": span.lo.0, "hi": span.hi.0})
}

/// The name of a kind of comment.
fn kind_name(kind: CommentKind) -> &'static str
    ensures { result.now ≡ remarks.kind_name kind }
{
    match kind {
        CommentKind::Line => "Line",
        CommentKind::Block => "Block",
    }
}
