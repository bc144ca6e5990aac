// What keeps a train where it is within a group: a train at its next point, a section without room, or a connection.
ghost use Rattle.std.specs.Prelude.{◌≡◌, ◌+◌, ◌<◌, ◌≤◌, ◌&&◌, pos, ◌≤ℤ◌, if◌then◌else◌, IfSome, find, length};
ghost use Rattle.rail_model.specs.Table.{IsTable, IsConnection, trains, last, place, share};
ghost use Rattle.rail_model.specs.Checks.{blocks as blocks_train, is_held_by};
ghost use Rattle.state_core.specs.Core.{has as has_train, count_within as count_within_group, shuts as shuts_of};
ghost use Rattle.state_core.specs.Keeper.{blocker as blocker_of, full_section as full_section_of, holding as holding_of, keeper, IsKeeperOf};
ghost use Rattle.state_core.specs.Trap.{IsPlaced};

use crate::Group;
use rail_model::{
    Connection, State, Table, change_at, has_point, limit_of, point_of, sections_of, share_at,
    trains_of,
};

/// What keeps a train where it is.
#[derive(Clone, Copy)]
pub enum Keeper {
    /// A train at its next point.
    Train { train: u32 },
    /// A section that has no room for it beside the group's shares.
    Section { section: u32 },
    /// A connection, until the other train has come to a place.
    Connection { other: u32, reached: u32 },
}

// Whether another train stands at the next point of a train.
fn blocks(table: &Table, state: &State, train: u32, other: u32) -> bool
    requires formed { IsTable table.now }
    requires placed { IsPlaced table.now state.now }
    requires train { train < trains table.now }
    requires other { other < trains table.now }
    requires unfinished { place state.now train < last table.now train }
    ensures { result ≡ blocks_train table.now state.now train other }
{
    if other == train {
        return false;
    }
    match point_of(table, train, state.place(train) + 1) {
        Some(next) => has_point(table, other, state.place(other), next),
        None => false,
    }
}

// The first train of the group at the next point of a train.
fn blocker(table: &Table, state: &State, group: &Group, train: u32) -> Option<u32>
    requires placed { IsPlaced table.now state.now }
    requires train { train < trains table.now }
    requires unfinished { place state.now train < last table.now train }
    ensures first { result ≡ blocker_of table.now state.now group.now train }
    ensures within { IfSome result (λ other. other < trains table.now) }
{
    for other in 0..trains_of(table) {
        if group.has(other) && blocks(table, state, train, other) {
            return Some(other);
        }
    }
    None
}

// A train's share of a section, if it is in the group.
fn share_within(table: &Table, state: &State, group: &Group, section: u32, train: u32) -> i32
    requires placed { IsPlaced table.now state.now }
    requires train { train < trains table.now }
    requires section { section < length table.now.sections }
    ensures share { result ≡ (if has_train group.now train
        then share table.now train section (place state.now train) else pos 0) }
    ensures low { pos 0 ≤ℤ result }
    ensures high { result ≤ℤ pos 4 }
{
    if group.has(train) {
        share_at(table, train, section, state.place(train))
    } else {
        0
    }
}

// What a section counts of the group's trains.
pub(crate) fn count_within(table: &Table, state: &State, group: &Group, section: u32) -> i32
    requires placed { IsPlaced table.now state.now }
    requires section { section < length table.now.sections }
    ensures count { result ≡ count_within_group table.now group.now section state.now }
    ensures low { pos 0 ≤ℤ result }
    ensures high { result ≤ℤ pos 128 }
{
    let mut sum: i32 = 0;
    for train in 0..trains_of(table) {
        sum += share_within(table, state, group, section, train);
    }
    sum
}

// Whether a section has no room for a train beside the group.
fn shuts(table: &Table, state: &State, group: &Group, train: u32, section: u32) -> bool
    requires formed { IsTable table.now }
    requires placed { IsPlaced table.now state.now }
    requires train { train < trains table.now }
    requires unfinished { place state.now train < last table.now train }
    requires section { section < length table.now.sections }
    ensures { result ≡ shuts_of table.now state.now group.now train section }
{
    let change = change_at(table, train, section, state.place(train) + 1);
    if change <= 0 {
        return false;
    }
    let limit = limit_of(table, section) as i32;
    limit < count_within(table, state, group, section) + change
}

// The first section that has no room for a train beside the group.
fn full_section(table: &Table, state: &State, group: &Group, train: u32) -> Option<u32>
    requires placed { IsPlaced table.now state.now }
    requires train { train < trains table.now }
    requires unfinished { place state.now train < last table.now train }
    ensures first { result ≡ full_section_of table.now state.now group.now train }
    ensures within { IfSome result (λ section. section < length table.now.sections) }
{
    for section in 0..sections_of(table) {
        if shuts(table, state, group, train, section) {
            return Some(section);
        }
    }
    None
}

// Whether a connection holds a train until one of the group is further.
fn holds(table: &Table, state: &State, group: &Group, train: u32, connection: Connection) -> bool
    requires placed { IsPlaced table.now state.now }
    requires train { train < trains table.now }
    requires formed { IsConnection table.now connection }
    ensures { result ≡ (is_held_by state.now train connection && has_train group.now connection.other) }
{
    connection.train() == train
        && connection.place() == state.place(train)
        && state.place(connection.other()) < connection.reached()
        && group.has(connection.other())
}

// The first connection that holds a train until one of the group is further.
fn holding(table: &Table, state: &State, group: &Group, train: u32) -> Option<Connection>
    requires placed { IsPlaced table.now state.now }
    requires train { train < trains table.now }
    ensures first { result ≡ holding_of table.now state.now group.now train }
    ensures formed { IfSome result (IsConnection table.now) }
{
    for connection in table.connections() {
        if holds(table, state, group, train, *connection) {
            return Some(*connection);
        }
    }
    None
}

/// What keeps a train where it is within the group: the first of its trains at the train's next point; or else the first
/// section without room; or else the first connection. None if nothing does.
pub fn keeper_of(table: &Table, state: &State, group: &Group, train: u32) -> Option<Keeper>
    requires placed { IsPlaced table.now state.now }
    requires train { train < trains table.now }
    requires unfinished { place state.now train < last table.now train }
    ensures first { result ≡ keeper table.now state.now group.now train }
    ensures within { IfSome result (IsKeeperOf table.now) }
{
    if let Some(train) = blocker(table, state, group, train) {
        return Some(Keeper::Train { train });
    }
    if let Some(section) = full_section(table, state, group, train) {
        return Some(Keeper::Section { section });
    }
    let connection = holding(table, state, group, train)?;
    Some(Keeper::Connection {
        other: connection.other(),
        reached: connection.reached(),
    })
}
