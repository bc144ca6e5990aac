// The members of a document.
ghost use Rattle.std.specs.Prelude.{◌≡◌, ◌⊎◌, IfOk, IfErr, MatchResult, map, string_bytes, Some, None, Ok, Err};
ghost use Rattle.std.specs.List.{list_all};
ghost use Rattle.serde_json.specs.View.{view};
ghost use Rattle.rail_model.specs.Turns.{AnswersAs, in_turn};
ghost use Rattle.document_shapes.specs.Reading.{reading};
ghost use Rattle.document_shapes.specs.Shape.{list_of, pair, text};
ghost use Rattle.document_shapes.specs.Shape as shape;
ghost use Rattle.document_shapes.specs.Values.{is_object};
ghost use Rattle.document_shapes.specs.Members.{need};
ghost use Rattle.document_shapes.specs.Raw.{doc_members, members_of, known_version};
ghost use Rattle.document_shapes.specs.Seen.{seen_document, names_seen};

use crate::from_value::whole;
use crate::members::needed;
use crate::table::read_tables;
use crate::token_document::read_tokens;
use crate::{Member, ShapeRefused, TableMembers};
use serde_json::Value;
use std::alloc::Global;

/// The latest version of documents; the first is 1.
pub(crate) const LATEST_VERSION: u32 = 3;

/// A document's members: points with their zones, links by the names of their points.
#[derive(Drop)]
pub struct DocMembers {
    pub version: u32,
    pub points: Vec<(String, u32)>,
    pub links: Vec<(String, String)>,
    pub zones: u32,
    pub trains: Vec<String>,
    pub start: Vec<u32>,
    pub tables: Vec<TableMembers>,
}

// The value that the bytes are.
fn read_value(alloc: Global, bytes: &[u8]) -> Result<Value, ShapeRefused>
    ensures ok { IfOk result (λ v. reading bytes.now ≡ Some (view v)) }
    ensures not_json { result ≡ Err ShapeRefused.NotJson → reading bytes.now ≡ None }
    ensures errors { IfErr result (λ e. (e ≡ ShapeRefused.Memory) ⊎ (e ≡ ShapeRefused.NotJson)) }
{
    match Value::from_slice(alloc, bytes) {
        Ok(value) => Ok(value),
        Err(error) => if error.is_memory() {
            Err(ShapeRefused::Memory)
        } else {
            Err(ShapeRefused::NotJson)
        },
    }
}

// A whole number that has to be there.
fn number(value: &Value, member: Member) -> Result<u32, ShapeRefused>
    ensures { result ≡ need None member shape.whole (view value.now) }
{
    let refused = ShapeRefused::Shape {
        table: None,
        member,
    };
    value.get(member.name()).and_then(whole).ok_or(refused)
}

// The version, where it is known.
fn version(value: &Value) -> Result<u32, ShapeRefused>
    ensures { result ≡ in_turn (need None Member.Version shape.whole (view value.now)) known_version }
{
    let version = number(value, Member::Version)?;
    if 1 <= version && version <= LATEST_VERSION {
        Ok(version)
    } else {
        Err(ShapeRefused::Version { value: version })
    }
}

fn points(alloc: Global, value: &Value) -> Result<Vec<(String, u32)>, ShapeRefused>
    ensures { AnswersAs ShapeRefused.Memory (λ v. map (λ p. (string_bytes p.0, p.1)) v.items) result
        (need None Member.Points (list_of (pair text shape.whole)) (view value.now)) }
{
    needed(alloc, value, None, Member::Points)
}

fn links(alloc: Global, value: &Value) -> Result<Vec<(String, String)>, ShapeRefused>
    ensures { AnswersAs ShapeRefused.Memory (λ v. map (λ l. (string_bytes l.0, string_bytes l.1)) v.items) result
        (need None Member.Links (list_of (pair text text)) (view value.now)) }
{
    needed(alloc, value, None, Member::Links)
}

fn trains(alloc: Global, value: &Value) -> Result<Vec<String>, ShapeRefused>
    ensures { AnswersAs ShapeRefused.Memory names_seen result (need None Member.Trains (list_of text) (view value.now)) }
{
    needed(alloc, value, None, Member::Trains)
}

fn start(alloc: Global, value: &Value) -> Result<Vec<u32>, ShapeRefused>
    ensures { AnswersAs ShapeRefused.Memory (λ v. v.items) result
        (need None Member.Start (list_of shape.whole) (view value.now)) }
{
    needed(alloc, value, None, Member::Start)
}

// Whether each of the values is an object.
fn are_objects(values: &[Value]) -> bool
    ensures { result ≡ list_all (λ v. is_object (view v)) values.now }
{
    values.iter().all(|value| value.is_object())
}

// The tables, each of them an object.
fn table_objects(value: &Value) -> Result<&[Value], ShapeRefused>
    ensures ok { IfOk result (λ vs. need None Member.Tables (list_of shape.object) (view value.now) ≡ Ok (map view vs.now)) }
    ensures err { IfErr result (λ e. need None Member.Tables (list_of shape.object) (view value.now) ≡ Err e) }
{
    let refused = ShapeRefused::Shape {
        table: None,
        member: Member::Tables,
    };
    let tables = value.get(Member::Tables.name()).ok_or(refused)?;
    let tables = tables.as_array().ok_or(refused)?.as_slice();
    if are_objects(tables) {
        Ok(tables)
    } else {
        Err(refused)
    }
}

/// The members of a document, in their order.
pub(crate) fn read_members(alloc: Global, value: &Value) -> Result<DocMembers, ShapeRefused>
    ensures { AnswersAs ShapeRefused.Memory seen_document result (doc_members (view value.now)) }
{
    if !value.is_object() {
        return Err(ShapeRefused::Shape {
            table: None,
            member: Member::Document,
        });
    }
    let version = version(value)?;
    let points = points(alloc, value)?;
    let links = links(alloc, value)?;
    let zones = number(value, Member::Zones)?;
    let trains = trains(alloc, value)?;
    let start = start(alloc, value)?;
    let tables = read_tables(alloc, table_objects(value)?, version)?;
    Ok(DocMembers {
        version,
        points,
        links,
        zones,
        trains,
        start,
        tables,
    })
}

/// The members of the document that the bytes are.
///
/// # Errors
///
/// Out of memory, or the first refusal: the bytes are no JSON, no object; the version has another shape or is not
/// known; a member is missing or has another shape, in the order of [`DocMembers`] and, table by table, of
/// [`TableMembers`].
pub fn read_document(alloc: Global, bytes: &[u8]) -> Result<DocMembers, ShapeRefused>
    ensures { AnswersAs ShapeRefused.Memory seen_document result (members_of bytes.now) }
{
    if let Some(members) = read_tokens(alloc, bytes) {
        return Ok(members);
    }
    let value = read_value(alloc, bytes)?;
    read_members(alloc, &value)
}
