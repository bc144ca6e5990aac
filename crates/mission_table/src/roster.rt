// The trains of a document, by name.
ghost use Rattle.std.specs.Prelude.{◌≡◌, ◌↔◌, ◌<◌, IsTrue, [], length, map, string_bytes, slice_index_or};
ghost use Rattle.mission_table.specs.Roster.{AreTrains};

use std::marker::Model;

/// The names of at most 32 trains, no two of them the same.
#[derive(Drop)]
pub struct Trains {
    names: Vec<String>,
}

impl Model for Trains {
    ghost use Rattle.std.specs.Prelude.{ℕ, List, map, string_bytes};
    ghost use Rattle.mission_table.specs.Roster.{AreTrains};

    ghost Value = { List (List ℕ) };

    ghost view = { λ t. map string_bytes t.names.items };

    ghost invariant = { λ t. AreTrains (map string_bytes t.names.items) };
}

impl Trains {
    pub fn new(names: Vec<String>) -> Self
        requires { AreTrains (map string_bytes names.items) }
        ensures { result ≡ map string_bytes names.items }
    {
        Trains { names }
    }

    /// The number of trains.
    pub fn len(&self) -> usize
        ensures count { result ≡ length self.now }
        ensures formed { AreTrains self.now }
    {
        self.names.len()
    }

    pub fn is_empty(&self) -> bool
        ensures { IsTrue result ↔ (length self.now ≡ 0) }
    {
        self.names.is_empty()
    }

    /// The names in order.
    pub fn names(&self) -> &[String]
        ensures names { map string_bytes result.now ≡ self.now }
        ensures formed { AreTrains self.now }
    {
        &self.names
    }

    /// The name of a train.
    pub fn name(&self, train: u32) -> &str
        requires { train < length self.now }
        ensures { result.now ≡ slice_index_or self.now train [] }
    {
        self.names[train as usize].as_str()
    }
}
