// Documents read, and made of their members.
ghost use Rattle.std.specs.Prelude.{◌≡◌, ◌<◌, ℕ, List, All, IfOk, OnOk, length, map, string_bytes, Ok};
ghost use Rattle.rail_model.specs.State.{Legal};
ghost use Rattle.rail_model.specs.Table.{IsTable, trains};
ghost use Rattle.rail_model.specs.Turns.{AnswersAs, unless};
ghost use Rattle.track_layout.specs.Making.{layout_from};
ghost use Rattle.track_layout.specs.Seen.{points_seen, links_seen};
ghost use Rattle.mission_table.specs.Roster.{trains_from};
ghost use Rattle.mission_table.specs.Seen.{names_seen};
ghost use Rattle.document_shapes.specs.Raw.{members_of, IsRead};
ghost use Rattle.document_shapes.specs.Seen.{seen_document, seen_table};
ghost use Rattle.document_shapes.specs.Written.{text_of};
ghost use Rattle.document_json.specs.Doc.{doc_table};
ghost use Rattle.document_json.specs.Members.{members_in};
ghost use Rattle.document_json.specs.Reading.{doc_of, doc_from, tables_refusal};
ghost use Rattle.document_json.specs.Start.{start_refusal};
ghost use Rattle.document_json.specs.Tables.{refused_as};

use crate::checks::{check_count, check_start};
use crate::tables::made_tables;
use crate::{Doc, DocRefused};
use document_shapes::{DocMembers, ShapeRefused, TableMembers, read_document};
use mission_table::{TrainRefused, Trains, names, trains};
use rail_model::{Layout, State, Table, Times};
use std::alloc::Global;
use track_layout::{LayoutRefused, layout};

// The members of the document that the bytes are.
fn read_members(alloc: Global, bytes: &[u8]) -> Result<DocMembers, DocRefused>
    ensures { AnswersAs DocRefused.Memory seen_document result (refused_as DocRefused.Shape (members_of bytes.now)) }
{
    match read_document(alloc, bytes) {
        Ok(members) => Ok(members),
        Err(ShapeRefused::Memory) => Err(DocRefused::Memory),
        Err(refused) => Err(DocRefused::Shape(refused)),
    }
}

fn made_layout(
    alloc: Global,
    points: Vec<(String, u32)>,
    links: Vec<(String, String)>,
    zones: u32,
) -> Result<Layout, DocRefused>
    ensures { AnswersAs DocRefused.Memory (λ l. l) result
        (refused_as DocRefused.Layout (layout_from (points_seen points.items) (links_seen links.items) zones)) }
{
    match layout(alloc, points, &links, zones) {
        Ok(layout) => Ok(layout),
        Err(LayoutRefused::Memory) => Err(DocRefused::Memory),
        Err(refused) => Err(DocRefused::Layout(refused)),
    }
}

fn made_trains(alloc: Global, names: Vec<String>) -> Result<Trains, DocRefused>
    ensures { AnswersAs DocRefused.Memory (λ t. t) result (refused_as DocRefused.Trains (trains_from (names_seen names.items))) }
{
    match trains(alloc, names) {
        Ok(trains) => Ok(trains),
        Err(TrainRefused::Memory) => Err(DocRefused::Memory),
        Err(refused) => Err(DocRefused::Trains(refused)),
    }
}

// So many tables as there may be.
fn counted(tables: Vec<TableMembers>) -> Result<Vec<TableMembers>, DocRefused>
    ensures { AnswersAs DocRefused.Memory (λ v. map seen_table v.items) result
        (unless (tables_refusal (length (map seen_table tables.items))) (map seen_table tables.items)) }
{
    check_count(tables.len())?;
    Ok(tables)
}

// A start that is legal.
fn legal_start(table: &Table, positions: Vec<u32>) -> Result<State, DocRefused>
    ensures start { AnswersAs DocRefused.Memory (λ s. s) result (unless (start_refusal table.now positions.items) positions.items) }
    ensures legal { IfOk result (Legal table.now) }
{
    let start = State::from(positions);
    check_start(table, &start)?;
    Ok(start)
}

/// The document of these members.
pub(crate) fn checked(alloc: Global, members: DocMembers) -> Result<Doc, DocRefused>
    requires { IsRead (seen_document members) }
    ensures { AnswersAs DocRefused.Memory (λ d. d) result (doc_from (seen_document members)) }
{
    let DocMembers {
        version,
        points,
        links,
        zones,
        trains,
        start,
        tables,
    } = members;
    let layout = made_layout(alloc, points, links, zones)?;
    let trains = made_trains(alloc, trains)?;
    let tables = counted(tables)?;
    let (tables, times) = made_tables(alloc, version, &layout, &trains, tables)?;
    let start = legal_start(tables[0].table(), start)?;
    let names = names(alloc, &layout, &trains)?;
    let times = Times::from(times);
    Ok(Doc::new(alloc, version, layout, names, tables, times, start)?)
}

/// The document that the bytes are.
///
/// # Errors
///
/// The first thing wrong with it, in the order of [`DocRefused`]; running out of memory likewise.
pub fn document(alloc: Global, bytes: &[u8]) -> Result<Doc, DocRefused>
    ensures { AnswersAs DocRefused.Memory (λ d. d) result (doc_of bytes.now) }
{
    checked(alloc, read_members(alloc, bytes)?)
}

/// The document that the text of these members is, made of them with no text between.
///
/// # Errors
///
/// As [`document`] has them for that text.
pub fn document_from(alloc: Global, members: DocMembers) -> Result<Doc, DocRefused>
    requires { members_of (text_of (seen_document members)) ≡ Ok (seen_document members) }
    ensures { AnswersAs DocRefused.Memory (λ d. d) result (doc_of (text_of (seen_document members))) }
{
    checked(alloc, members)
}
