// A table, as contracts see it: missions, sections and connections.
ghost use Rattle.std.specs.Prelude.{◌≡◌, ℕ, ◌<◌, ◌≤◌, [], length, List, Some, IsTrue, ◌↔◌, slice_get, slice_index_or};
ghost use Rattle.rail_model.specs.Table.{IsTable, trains, last, point, limit, change, share};

use crate::{Changes, Missions};
use std::marker::Model;

/// A limit, and for each train the changes of its share.
#[derive(Drop)]
pub struct Section {
    limit: u32,
    changes: Vec<Changes>,
}

impl Model for Section {
    ghost use Rattle.rail_model.specs.Table.{Section as SectionValue};

    ghost Value = { SectionValue };

    ghost view = { λ s. record { limit = s.limit; changes = s.changes.items } };
}

impl Section {
    pub fn new(limit: u32, changes: Vec<Changes>) -> Self
        ensures { result ≡ record { limit = limit; changes = changes.items } }
    {
        Section { limit, changes }
    }

    pub fn limit(&self) -> u32
        ensures { result ≡ self.now.limit }
    {
        self.limit
    }

    /// The changes of all trains, one list per train.
    pub fn all_changes(&self) -> &[Changes]
        ensures { result.now ≡ self.now.changes }
    {
        &self.changes
    }

    pub fn changes(&self, train: u32) -> &Changes
        requires { train < length self.now.changes }
        ensures { result.now ≡ slice_index_or self.now.changes train [] }
    {
        &self.changes[train as usize]
    }
}

/// A train may not leave a place before another train has reached a place.
#[derive(Clone, Copy, Debug, PartialEq, Eq)]
pub struct Connection {
    train: u32,
    place: u32,
    other: u32,
    reached: u32,
}

impl Model for Connection {
    ghost use Rattle.rail_model.specs.Table.{Connection as ConnectionValue};

    ghost Value = { ConnectionValue };

    ghost view = { λ c. record { train = c.train; place = c.place; other = c.other; reached = c.reached } };

    ghost inverse = { λ c. record { train = c.train; place = c.place; other = c.other; reached = c.reached } };
}

impl Connection {
    pub fn new(train: u32, place: u32, other: u32, reached: u32) -> Self
        ensures { result ≡ record { train = train; place = place; other = other; reached = reached } }
    {
        Connection {
            train,
            place,
            other,
            reached,
        }
    }

    pub fn train(&self) -> u32
        ensures { result ≡ self.now.train }
    {
        self.train
    }

    pub fn place(&self) -> u32
        ensures { result ≡ self.now.place }
    {
        self.place
    }

    pub fn other(&self) -> u32
        ensures { result ≡ self.now.other }
    {
        self.other
    }

    pub fn reached(&self) -> u32
        ensures { result ≡ self.now.reached }
    {
        self.reached
    }
}

/// For each train the points of its way, the sections, and the connections.
#[derive(Drop)]
pub struct Table {
    missions: Missions,
    sections: Vec<Section>,
    connections: Vec<Connection>,
}

impl Model for Table {
    ghost use Rattle.rail_model.specs.Table.{Table as TableValue, IsTable};

    ghost Value = { TableValue };

    ghost view = { λ t. record { missions = t.missions; sections = t.sections.items; connections = t.connections.items } };

    ghost invariant = { λ t. IsTable (record { missions = t.missions; sections = t.sections.items; connections = t.connections.items }) };
}

impl Table {
    ghost use Rattle.rail_model.specs.Table.{IsTable, IsConnection, Connection as ConnectionValue};

    pub fn new(missions: Missions, sections: Vec<Section>, connections: Vec<Connection>) -> Self
        requires { IsTable (record { missions = missions; sections = sections.items; connections = connections.items }) }
        ensures { result ≡ record { missions = missions; sections = sections.items; connections = connections.items } }
    {
        Table {
            missions,
            sections,
            connections,
        }
    }

    /// The table with these connections in place of its own.
    pub fn with_connections(self, connections: Vec<Connection>) -> Self
        requires few { length connections.items ≤ 32 }
        requires formed { (c : ℕ) (k : ConnectionValue) → slice_get connections.items c ≡ Some k → IsConnection self k }
        ensures { result ≡ record self { connections = connections.items } }
    {
        Table {
            missions: self.missions,
            sections: self.sections,
            connections,
        }
    }

    /// The missions, the sections and the connections, apart.
    pub fn into_parts(self) -> (Missions, Vec<Section>, Vec<Connection>)
        ensures missions { result.0 ≡ self.missions }
        ensures sections { result.1.items ≡ self.sections }
        ensures connections { result.2.items ≡ self.connections }
        ensures formed { IsTable self }
    {
        (self.missions, self.sections, self.connections)
    }

    /// The missions alone, by value.
    pub fn into_missions(self) -> Missions
        ensures missions { result ≡ self.missions }
        ensures formed { IsTable self }
    {
        self.missions
    }

    /// The missions, one per train.
    pub fn missions(&self) -> &Missions
        ensures missions { result.now ≡ self.now.missions }
        ensures formed { IsTable self.now }
    {
        &self.missions
    }

    pub fn sections(&self) -> &[Section]
        ensures sections { result.now ≡ self.now.sections }
        ensures formed { IsTable self.now }
    {
        &self.sections
    }

    pub fn connections(&self) -> &[Connection]
        ensures connections { result.now ≡ self.now.connections }
        ensures formed { IsTable self.now }
    {
        &self.connections
    }
}

/// The number of trains.
pub fn trains_of(table: &Table) -> u32
    ensures count { result ≡ trains table.now }
    ensures formed { IsTable table.now }
{
    table.missions.len() as u32
}

/// The number of sections.
pub fn sections_of(table: &Table) -> u32
    ensures count { result ≡ length table.now.sections }
    ensures formed { IsTable table.now }
{
    table.sections.len() as u32
}

/// The number of connections.
pub fn connections_of(table: &Table) -> u32
    ensures count { result ≡ length table.now.connections }
    ensures formed { IsTable table.now }
{
    table.connections.len() as u32
}

/// A train's last place.
pub fn last_of(table: &Table, train: u32) -> u32
    requires { train < trains table.now }
    ensures last { result ≡ last table.now train }
    ensures formed { IsTable table.now }
{
    let mission = table.missions.mission(train);
    if mission.exits() {
        mission.points() as u32
    } else {
        mission.points() as u32 - 1
    }
}

/// A train's point at a place; none at the last place of a train that leaves the layout.
pub fn point_of(table: &Table, train: u32, place: u32) -> Option<u32>
    requires { train < trains table.now }
    ensures { result ≡ point table.now train place }
{
    table.missions.mission(train).point(place)
}

/// Whether a train has this point at a place.
pub fn has_point(table: &Table, train: u32, place: u32, at: u32) -> bool
    requires { train < trains table.now }
    ensures { IsTrue result ↔ (point table.now train place ≡ Some at) }
{
    point_of(table, train, place) == Some(at)
}

/// A section's limit.
pub fn limit_of(table: &Table, section: u32) -> u32
    requires { section < length table.now.sections }
    ensures limit { result ≡ limit table.now section }
    ensures formed { IsTable table.now }
{
    table.sections[section as usize].limit()
}

/// By how much a train's share of a section rises at a place.
pub fn change_at(table: &Table, train: u32, section: u32, place: u32) -> i32
    requires train { train < trains table.now }
    requires section { section < length table.now.sections }
    requires place { place ≤ last table.now train }
    ensures change { result ≡ change table.now train section place }
    ensures formed { IsTable table.now }
{
    table.sections[section as usize]
        .changes(train)
        .change(place)
}

/// The sum of a train's changes for a section up to a place.
pub fn share_at(table: &Table, train: u32, section: u32, place: u32) -> i32
    requires train { train < trains table.now }
    requires section { section < length table.now.sections }
    requires place { place ≤ last table.now train }
    ensures share { result ≡ share table.now train section place }
    ensures formed { IsTable table.now }
{
    let mut share = change_at(table, train, section, 0);
    for k in 0..place {
        share += change_at(table, train, section, k + 1);
    }
    share
}

/// A connection by its number.
pub fn connection_of(table: &Table, connection: u32) -> Connection
    requires { connection < length table.now.connections }
    ensures connection { slice_get table.now.connections connection ≡ Some result }
    ensures formed { IsTable table.now }
{
    table.connections[connection as usize]
}
