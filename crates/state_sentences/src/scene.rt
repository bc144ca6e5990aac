// A legal state of a table, with the names of its trains and points.
ghost use Rattle.std.specs.Prelude.{◌≡◌, ◌<◌, ◌≤◌, option_map};
ghost use Rattle.rail_model.specs.Names.{train_name};
ghost use Rattle.rail_model.specs.Table.{IsTable, trains, last, place as place_of};
ghost use Rattle.rail_model.specs.State.{Legal};
ghost use Rattle.rail_model.specs.Move.{Answers};
ghost use Rattle.rail_model.specs.Checks.{ask};
ghost use Rattle.state_sentences.specs.Named.{HasNames, name_at};

use legal_state::can_move;
use rail_model::{Ask, Names, State, Table, point_of, trains_of};

/// A legal state of a table, with the names of its trains and points.
#[derive(Clone, Copy)]
pub struct Scene<'a> {
    pub names: &'a Names,
    pub table: &'a Table,
    pub state: &'a State,
    ghost formed: { IsTable table.now },
    ghost legal: { Legal table.now state.now },
    ghost named: { HasNames names.now table.now },
}

impl<'a> Scene<'a> {
    /// The number of trains.
    pub fn trains(&self) -> u32
        ensures { result ≡ trains self.now.table.now }
    {
        trains_of(self.table)
    }

    /// The name of a train.
    pub fn train(&self, train: u32) -> &'a str
        requires { train < trains self.now.table.now }
        ensures { result.now ≡ train_name self.now.names.now train }
    {
        self.names.train(train)
    }

    /// The position of a train.
    pub fn place(&self, train: u32) -> u32
        requires { train < trains self.now.table.now }
        ensures place { result ≡ place_of self.now.state.now train }
        ensures in_range { result ≤ last self.now.table.now train }
    {
        self.state.place(train)
    }

    /// The name of a train's point at a place; none where the train has left the layout.
    pub fn point(&self, train: u32, place: u32) -> Option<&'a str>
        requires { train < trains self.now.table.now }
        ensures { option_map (λ s. s.now) result ≡ name_at self.now.names.now self.now.table.now train place }
    {
        match point_of(self.table, train, place) {
            Some(point) => Some(self.names.point(point)),
            None => None,
        }
    }

    /// What a train that asks to move is told.
    pub fn told(&self, train: u32) -> Ask
        requires { train < trains self.now.table.now }
        ensures computed { result ≡ ask self.now.table.now self.now.state.now train }
        ensures answers { Answers self.now.table.now self.now.state.now train result }
    {
        can_move(self.table, self.state, train)
    }
}
