// What differs first between two tables.
ghost use Rattle.std.specs.Prelude.{◌≡◌, ◌<◌, ◌≤◌, ◌↔◌, IsTrue, MatchOption, Some, length, slice_get};
ghost use Rattle.rail_model.specs.Table.{trains};
ghost use Rattle.document_json.specs.Doc.{table_at};
ghost use Rattle.document_origin.specs.Origin.{AreTrainsCompared, BeginWith, IsMissing, IsTableCompared, IsTrainCompared, times_at};

use crate::Part;
use crate::lists::{are_same_connections, are_same_numbers, are_same_routes};
use document_json::{Doc, after_of, layout_of, table_of, times_of};
use rail_model::{Section, trains_of};

// The times of a train under a table.
fn times_at(doc: &Doc, table: u32, train: u32) -> &[u32]
    ensures { result.now ≡ times_at doc.now table train }
{
    match times_of(doc).as_slice().get(table as usize) {
        Some(trains) => match trains.as_slice().get(train as usize) {
            Some(times) => times.as_slice(),
            None => &[],
        },
        None => &[],
    }
}

// What differs first of a train.
fn part_of_train(doc: &Doc, plan: &Doc, table: u32, train: u32) -> Option<Part>
    requires document { table < length doc.now.tables }
    requires plan { table < length plan.now.tables }
    requires there { train < trains (table_at doc.now table) }
    requires planned { train < trains (table_at plan.now table) }
    ensures { IsTrainCompared doc.now plan.now table train result }
{
    let mission = table_of(doc, table).missions().mission(train);
    let planned = table_of(plan, table).missions().mission(train);
    if !are_same_routes(
        layout_of(doc),
        mission.as_slice(),
        layout_of(plan),
        planned.as_slice(),
    ) {
        return Some(Part::Route { train });
    }
    if mission.exits() != planned.exits() {
        return Some(Part::Exit { train });
    }
    if are_same_numbers(times_at(doc, table, train), times_at(plan, table, train)) {
        None
    } else {
        Some(Part::Times { train })
    }
}

// What differs first of the trains.
fn part_of_trains(doc: &Doc, plan: &Doc, table: u32) -> Option<Part>
    requires document { table < length doc.now.tables }
    requires plan { table < length plan.now.tables }
    requires trains { trains (table_at doc.now table) ≡ trains (table_at plan.now table) }
    ensures { AreTrainsCompared doc.now plan.now table result }
{
    for train in 0..trains_of(table_of(plan, table)) {
        if let Some(part) = part_of_train(doc, plan, table, train) {
            return Some(part);
        }
    }
    None
}

// Whether a section is at this place among sections.
fn is_at(sections: &[Section], section: &Section, at: usize) -> bool
    ensures { IsTrue result ↔ (slice_get sections.now at ≡ Some section.now) }
{
    match sections.get(at) {
        Some(other) => other.is_same(section),
        None => false,
    }
}

// The first of the plan's sections that is not at its place among sections.
fn missing_in(sections: &[Section], planned: &[Section]) -> Option<u32>
    requires { length planned.now ≤ 64 }
    ensures { MatchOption result (BeginWith planned.now sections.now) (IsMissing sections.now planned.now) }
{
    for at in 0..planned.len() {
        if !is_at(sections, &planned[at], at) {
            return Some(at as u32);
        }
    }
    None
}

/// What differs first between a table of a document and that of a plan.
pub(crate) fn part_of(doc: &Doc, plan: &Doc, table: u32) -> Option<Part>
    requires document { table < length doc.now.tables }
    requires plan { table < length plan.now.tables }
    requires trains { trains (table_at doc.now table) ≡ trains (table_at plan.now table) }
    ensures { IsTableCompared doc.now plan.now table result }
{
    if let Some(part) = part_of_trains(doc, plan, table) {
        return Some(part);
    }
    let there = table_of(doc, table);
    let planned = table_of(plan, table);
    if !are_same_connections(there.connections(), planned.connections()) {
        return Some(Part::Connections);
    }
    if after_of(doc, table) != after_of(plan, table) {
        return Some(Part::After);
    }
    match missing_in(there.sections(), planned.sections()) {
        Some(section) => Some(Part::Section { section }),
        None => None,
    }
}
