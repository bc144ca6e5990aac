// What a train is told that asks for its next place.
ghost use Rattle.std.specs.Prelude.{◌≡◌, ◌↔◌, ℕ, ◌+◌, ◌*◌, ◌<◌, ◌≤◌, ◌≤ℤ◌, pos, length, IsTrue, Some};
ghost use Rattle.rail_model.specs.Move.{IsFirstOrNone, Move, advance};
ghost use Rattle.rail_model.specs.State.{Legal};
ghost use Rattle.rail_model.specs.Table.{IsTable, trains, last, place};
ghost use Rattle.live_yard.specs.Telling.{greatest_of, HasPassed, IsClearing, IsLeaving, Reports, Tells, taken};

use crate::Told;
use legal_state::can_move;
use rail_model::{
    Ask, State, Table, change_at, has_point, limit_of, point_of, sections_of, trains_of,
};
use state_boxes::{Span, greatest_share};

// Whether a train has a point at a place from one on and before another.
fn has_passed(table: &Table, train: u32, from: u32, to: u32, point: u32) -> bool
    requires { train < trains table.now }
    ensures { IsTrue result ↔ HasPassed table.now train from to point }
{
    for place in from..to {
        if has_point(table, train, place, point) {
            return true;
        }
    }
    false
}

// The first train that was granted away from a train's next point, and hasn't reported that it is clear of it.
fn leaver(table: &Table, state: &State, there: &State, train: u32) -> Option<u32>
    requires legal { Legal table.now state.now }
    requires reports { Reports state.now there.now }
    requires train { train < trains table.now }
    requires unfinished { place state.now train < last table.now train }
    ensures { IsFirstOrNone (IsLeaving table.now state.now there.now train) result }
{
    let trains = trains_of(table);
    let next = point_of(table, train, state.place(train) + 1)?;
    for other in 0..trains {
        if has_passed(table, other, there.place(other), state.place(other), next) {
            return Some(other);
        }
    }
    None
}

// The greatest share of a train from the place that it has reported to the one that it was granted.
fn greatest_of(table: &Table, state: &State, there: &State, section: u32, train: u32) -> i32
    requires legal { Legal table.now state.now }
    requires reports { Reports state.now there.now }
    requires train { train < trains table.now }
    requires section { section < length table.now.sections }
    ensures greatest { result ≡ greatest_of table.now state.now there.now section train }
    ensures low { pos 0 ≤ℤ result }
    ensures high { result ≤ℤ pos 4 }
    ensures formed { IsTable table.now }
{
    let span = Span::new(there.place(train), state.place(train));
    greatest_share(table, train, section, span)
}

// The sum of all trains' greatest shares of a section.
fn taken_of(table: &Table, state: &State, there: &State, section: u32) -> u32
    requires legal { Legal table.now state.now }
    requires reports { Reports state.now there.now }
    requires section { section < length table.now.sections }
    ensures taken { taken table.now state.now there.now section ≡ pos result }
    ensures small { result ≤ 4 * trains table.now }
    ensures formed { IsTable table.now }
{
    let mut sum: i32 = 0;
    for train in 0..trains_of(table) {
        sum += greatest_of(table, state, there, section, train);
    }
    sum as u32
}

// Whether a section has no room for a train's move beside the greatest shares of all trains.
fn is_clearing(
    table: &Table,
    state: &State,
    there: &State,
    train: u32,
    next: u32,
    section: u32,
) -> bool
    requires legal { Legal table.now state.now }
    requires reports { Reports state.now there.now }
    requires train { train < trains table.now }
    requires next { (next ≡ place state.now train + 1) × (next ≤ last table.now train) }
    requires section { section < length table.now.sections }
    ensures { IsTrue result ↔ IsClearing table.now state.now there.now train section }
{
    let more = change_at(table, train, section, next);
    if more <= 0 {
        return false;
    }
    let taken = taken_of(table, state, there, section) as i32;
    let limit = limit_of(table, section) as i32;
    limit < taken + more
}

// The first section that isn't clear for a train's move.
fn clearing_section(table: &Table, state: &State, there: &State, train: u32) -> Option<u32>
    requires legal { Legal table.now state.now }
    requires reports { Reports state.now there.now }
    requires train { train < trains table.now }
    requires unfinished { place state.now train < last table.now train }
    ensures { IsFirstOrNone (IsClearing table.now state.now there.now train) result }
{
    let sections = sections_of(table);
    let next = state.place(train) + 1;
    for section in 0..sections {
        if is_clearing(table, state, there, train, next, section) {
            return Some(section);
        }
    }
    None
}

// What the reports say of a train that the yard lets go.
fn cleared(table: &Table, state: &State, there: &State, train: u32) -> Told
    requires moves { Move table.now state.now train (advance state.now train) }
    requires reports { Reports state.now there.now }
    requires unfinished { place state.now train < last table.now train }
    ensures { Tells table.now state.now there.now train result }
{
    if there.place(train) != state.place(train) {
        return Told::Away;
    }
    if let Some(by) = leaver(table, state, there, train) {
        return Told::Leaving { by };
    }
    match clearing_section(table, state, there, train) {
        Some(section) => Told::Clearing {
            section,
            count: taken_of(table, state, there, section),
        },
        None => Told::May,
    }
}

/// What a train is told at these positions and reports: the yard's own cause, first in its order; then that it hasn't
/// reported; then who is leaving its next point; then the first section that isn't clear; else that it may go on.
pub fn tell(table: &Table, state: &State, there: &State, train: u32) -> Told
    requires legal { Legal table.now state.now }
    requires reports { Reports state.now there.now }
    requires train { train < trains table.now }
    ensures told { Tells table.now state.now there.now train result }
    ensures formed { IsTable table.now }
{
    match can_move(table, state, train) {
        Ask::Yes => cleared(table, state, there, train),
        Ask::Arrived => Told::Arrived,
        Ask::Occupied { by } => Told::Occupied { by },
        Ask::Full { section, count } => Told::Full { section, count },
        Ask::Waits { connection } => Told::Waits { connection },
    }
}
