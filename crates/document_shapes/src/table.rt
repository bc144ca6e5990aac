// The members of a table.
ghost use Rattle.std.specs.Prelude.{◌≡◌, map, string_bytes, option_map, Some};
ghost use Rattle.serde_json.specs.View.{view};
ghost use Rattle.rail_model.specs.Turns.{AnswersAs};
ghost use Rattle.document_shapes.specs.Shape.{list_of, text, truth};
ghost use Rattle.document_shapes.specs.Shape as shape;
ghost use Rattle.document_shapes.specs.Parts as part;
ghost use Rattle.document_shapes.specs.Members.{need, may, since};
ghost use Rattle.document_shapes.specs.Raw.{table_members};
ghost use Rattle.document_shapes.specs.Each.{each_from};
ghost use Rattle.document_shapes.specs.Seen.{seen_table, names_seen};

use crate::members::{given, needed};
use crate::{Member, ShapeRefused};
use rail_model::{Connection, Node, Section, TrainTimes};
use serde_json::Value;
use std::alloc::Global;

/// A table's members; all but `missions` may be missing.
#[derive(Drop)]
pub struct TableMembers {
    pub missions: Vec<Vec<String>>,
    pub exits: Option<Vec<bool>>,
    pub sections: Option<Vec<Section>>,
    pub connections: Option<Vec<Connection>>,
    pub certificate: Option<Vec<Node>>,
    pub times: Option<Vec<TrainTimes>>,
    pub after: Option<u32>,
}

fn missions(alloc: Global, value: &Value, table: usize) -> Result<Vec<Vec<String>>, ShapeRefused>
    ensures { AnswersAs ShapeRefused.Memory (λ v. map names_seen v.items) result
        (need (Some table) Member.Missions (list_of (list_of text)) (view value.now)) }
{
    needed(alloc, value, Some(table), Member::Missions)
}

fn exits(
    alloc: Global,
    value: &Value,
    table: usize,
    version: u32,
) -> Result<Option<Vec<bool>>, ShapeRefused>
    ensures { AnswersAs ShapeRefused.Memory (option_map (λ v. v.items)) result
        (since 2 version (may table Member.Exits (list_of truth) (view value.now))) }
{
    if version < 2 {
        return Ok(None);
    }
    given(alloc, value, table, Member::Exits)
}

fn sections(
    alloc: Global,
    value: &Value,
    table: usize,
) -> Result<Option<Vec<Section>>, ShapeRefused>
    ensures { AnswersAs ShapeRefused.Memory (option_map (λ v. v.items)) result
        (may table Member.Sections (list_of part.section) (view value.now)) }
{
    given(alloc, value, table, Member::Sections)
}

fn connections(
    alloc: Global,
    value: &Value,
    table: usize,
    version: u32,
) -> Result<Option<Vec<Connection>>, ShapeRefused>
    ensures { AnswersAs ShapeRefused.Memory (option_map (λ v. v.items)) result
        (since 3 version (may table Member.Connections (list_of part.connection) (view value.now))) }
{
    if version < 3 {
        return Ok(None);
    }
    given(alloc, value, table, Member::Connections)
}

fn certificate(
    alloc: Global,
    value: &Value,
    table: usize,
) -> Result<Option<Vec<Node>>, ShapeRefused>
    ensures { AnswersAs ShapeRefused.Memory (option_map (λ v. v.items)) result
        (may table Member.Certificate (list_of part.node) (view value.now)) }
{
    given(alloc, value, table, Member::Certificate)
}

fn times(
    alloc: Global,
    value: &Value,
    table: usize,
) -> Result<Option<Vec<TrainTimes>>, ShapeRefused>
    ensures { AnswersAs ShapeRefused.Memory (option_map (λ v. v.items)) result
        (may table Member.Times (list_of (list_of shape.whole)) (view value.now)) }
{
    given(alloc, value, table, Member::Times)
}

fn after(alloc: Global, value: &Value, table: usize) -> Result<Option<u32>, ShapeRefused>
    ensures { AnswersAs ShapeRefused.Memory (λ n. n) result (may table Member.After shape.whole (view value.now)) }
{
    given(alloc, value, table, Member::After)
}

// The members of a table, in their order.
fn read_table(
    alloc: Global,
    value: &Value,
    table: usize,
    version: u32,
) -> Result<TableMembers, ShapeRefused>
    ensures { AnswersAs ShapeRefused.Memory seen_table result (table_members version table (view value.now)) }
{
    let missions = missions(alloc, value, table)?;
    let exits = exits(alloc, value, table, version)?;
    let sections = sections(alloc, value, table)?;
    let connections = connections(alloc, value, table, version)?;
    let certificate = certificate(alloc, value, table)?;
    let times = times(alloc, value, table)?;
    let after = after(alloc, value, table)?;
    Ok(TableMembers {
        missions,
        exits,
        sections,
        connections,
        certificate,
        times,
        after,
    })
}

/// The members of all tables, table by table.
pub(crate) fn read_tables(
    alloc: Global,
    values: &[Value],
    version: u32,
) -> Result<Vec<TableMembers>, ShapeRefused>
    ensures { AnswersAs ShapeRefused.Memory (λ v. map seen_table v.items) result
        (each_from (table_members version) 0 (map view values.now)) }
{
    let mut found = Vec::new(alloc);
    for (table, value) in values.iter().enumerate() {
        found.push(read_table(alloc, value, table, version)?)?;
    }
    Ok(found)
}
