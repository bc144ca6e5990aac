// The trains of a run with reports, as they are looked at.
ghost use Rattle.std.specs.Prelude.{◌≡◌, ◌==◌, ◌<◌, ◌≤◌};
ghost use Rattle.rail_model.specs.Table.{trains, last, place as place_of};

use live_yard::{Told, tell};
use rail_model::{State, Table, last_of, trains_of};
use std::marker::Model;

/// The table in force, the places that the trains were granted last, and those that they have reported.
#[derive(Drop)]
pub struct Scene<'a> {
    table: &'a Table,
    state: &'a State,
    there: &'a State,
}

impl<'a> Model for Scene<'a> {
    ghost use Rattle.live_answers.specs.Seen.{IsSeen, Seen};

    ghost Value = { Seen };

    ghost view = { λ s. record { table = s.table.now; positions = s.state.now; reported = s.there.now } };

    ghost invariant = { λ s. IsSeen (record { table = s.table.now; positions = s.state.now; reported = s.there.now }) };
}

impl<'a> Scene<'a> {
    ghost use Rattle.rail_model.specs.State.{Legal};
    ghost use Rattle.live_yard.specs.Telling.{Reports};
    ghost use Rattle.live_answers.specs.Seen.{IsTold};

    /// A legal state of a table, with the places that the trains have reported.
    pub fn new(table: &'a Table, state: &'a State, there: &'a State) -> Self
        requires legal { Legal table.now state.now }
        requires reports { Reports state.now there.now }
        ensures { result ≡ record { table = table.entry.now; positions = state.entry.now; reported = there.entry.now } }
    {
        // Read for the proof: the table is well formed.
        let _trains = trains_of(table);
        Scene {
            table,
            state,
            there,
        }
    }

    /// The table in force.
    pub fn table(&self) -> &'a Table
        ensures table { result.now ≡ self.now.table }
        ensures legal { Legal self.now.table self.now.positions }
    {
        self.table
    }

    /// The number of trains.
    pub fn trains(&self) -> u32
        ensures count { result ≡ trains self.now.table }
        ensures few { result ≤ 32 }
    {
        trains_of(self.table)
    }

    /// The place that a train was granted last, or where it began.
    pub fn place(&self, train: u32) -> u32
        requires { train < trains self.now.table }
        ensures place { result ≡ place_of self.now.positions train }
        ensures in_range { result ≤ last self.now.table train }
        ensures few { last self.now.table train ≤ 127 }
    {
        self.state.place(train)
    }

    /// The place that a train has reported.
    pub fn reported(&self, train: u32) -> u32
        requires { train < trains self.now.table }
        ensures place { result ≡ place_of self.now.reported train }
        ensures behind { result ≤ place_of self.now.positions train }
    {
        self.there.place(train)
    }

    /// Whether a train is at its last place.
    pub fn is_last(&self, train: u32) -> bool
        requires { train < trains self.now.table }
        ensures { result ≡ (place_of self.now.positions train == last self.now.table train) }
    {
        self.state.place(train) == last_of(self.table, train)
    }

    /// What a train is told that asks for its next place.
    pub fn told(&self, train: u32) -> Told
        requires { train < trains self.now.table }
        ensures { IsTold self.now train result }
    {
        tell(self.table, self.state, self.there, train)
    }
}
