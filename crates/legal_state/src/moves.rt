// What a train that asks to move is told.
ghost use Rattle.std.specs.Prelude.{◌≡◌, ℕ, ◌+◌, ◌<◌, ◌≤◌, length, MatchOption, IsTrue, ◌↔◌, Some, slice_get};
ghost use Rattle.rail_model.specs.Table.{IsTable, trains, last, place};
ghost use Rattle.rail_model.specs.State.{Legal};
ghost use Rattle.rail_model.specs.Move.{advance, Answers, Blocks, IsHeldBy, IsOver, IsFirstOrNone};

use crate::count_of;
use rail_model::{
    Ask, Mission, State, Table, change_at, connection_of, connections_of, last_of, limit_of,
    point_of, sections_of, trains_of,
};

// Whether a mission has a point at a place.
fn is_at(mission: &Mission, place: u32, point: u32) -> bool
    ensures { IsTrue result ↔ (slice_get mission.now.points place ≡ Some point) }
{
    mission.point(place) == Some(point)
}

// The other train at a train's next point, if there is one.
fn blocker(table: &Table, state: &State, train: u32) -> Option<u32>
    requires legal { Legal table.now state.now }
    requires train { train < trains table.now }
    requires unfinished { place state.now train < last table.now train }
    ensures { MatchOption result ((by : ℕ) → Blocks table.now state.now train by → ⊥) (λ by. Blocks table.now state.now train by) }
{
    let missions = table.missions();
    let next = point_of(table, train, state.place(train) + 1)?;
    // The train itself isn't there: each of its steps leads to another point.
    for other in 0..missions.len() as u32 {
        if is_at(missions.mission(other), state.place(other), next) {
            return Some(other);
        }
    }
    None
}

// Whether a train's move to its next place takes a section over its limit.
fn is_full(table: &Table, state: &State, train: u32, next: u32, section: u32) -> bool
    requires legal { Legal table.now state.now }
    requires train { train < trains table.now }
    requires next { (next ≡ place state.now train + 1) × (next ≤ last table.now train) }
    requires section { section < length table.now.sections }
    ensures { IsTrue result ↔ IsOver table.now (advance state.now train) section }
{
    let count = count_of(table, state, section) as i32;
    let change = change_at(table, train, section, next);
    let limit = limit_of(table, section) as i32;
    limit < count + change
}

// Whether a section has no room for a train's move to its next place. The trains are counted only if the move adds to the count, which is within
// the limit before.
fn lacks_room(table: &Table, state: &State, train: u32, next: u32, section: u32) -> bool
    requires legal { Legal table.now state.now }
    requires train { train < trains table.now }
    requires next { (next ≡ place state.now train + 1) × (next ≤ last table.now train) }
    requires section { section < length table.now.sections }
    ensures { IsTrue result ↔ IsOver table.now (advance state.now train) section }
{
    if change_at(table, train, section, next) <= 0 {
        return false;
    }
    is_full(table, state, train, next, section)
}

// The first section without room for a train's move.
fn full_section(table: &Table, state: &State, train: u32) -> Option<u32>
    requires legal { Legal table.now state.now }
    requires train { train < trains table.now }
    requires unfinished { place state.now train < last table.now train }
    ensures { IsFirstOrNone (IsOver table.now (advance state.now train)) result }
{
    let sections = sections_of(table);
    let next = state.place(train) + 1;
    for section in 0..sections {
        if lacks_room(table, state, train, next, section) {
            return Some(section);
        }
    }
    None
}

// Whether a connection holds a train.
fn holds(table: &Table, state: &State, train: u32, number: u32) -> bool
    requires legal { Legal table.now state.now }
    requires train { train < trains table.now }
    requires connection { number < length table.now.connections }
    ensures { IsTrue result ↔ IsHeldBy table.now state.now train number }
{
    let connection = connection_of(table, number);
    connection.train() == train
        && connection.place() == state.place(train)
        && state.place(connection.other()) < connection.reached()
}

// The first connection that holds a train.
fn holder(table: &Table, state: &State, train: u32) -> Option<u32>
    requires legal { Legal table.now state.now }
    requires train { train < trains table.now }
    ensures { IsFirstOrNone (IsHeldBy table.now state.now train) result }
{
    for number in 0..connections_of(table) {
        if holds(table, state, train, number) {
            return Some(number);
        }
    }
    None
}

/// What a train is told that asks to move: `Arrived` at its last place; else who occupies its next point; else the
/// first section that has no room for the move, with its count as it is now; else the first connection that holds
/// the train; else `Yes`.
pub fn can_move(table: &Table, state: &State, train: u32) -> Ask
    requires legal { Legal table.now state.now }
    requires train { train < trains table.now }
    ensures answer { Answers table.now state.now train result }
    ensures formed { IsTable table.now }
{
    if state.place(train) == last_of(table, train) {
        return Ask::Arrived;
    }
    if let Some(by) = blocker(table, state, train) {
        return Ask::Occupied { by };
    }
    if let Some(section) = full_section(table, state, train) {
        let count = count_of(table, state, section);
        return Ask::Full { section, count };
    }
    match holder(table, state, train) {
        Some(connection) => Ask::Waits { connection },
        None => Ask::Yes,
    }
}
