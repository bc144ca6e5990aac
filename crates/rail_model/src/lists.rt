// Lists, each a type of its own that contracts see as a list.
ghost use Rattle.std.specs.Prelude.{◌≡◌, ◌↔◌, IsTrue, IfOk, MatchOption, ◌^◌, ◌+◌, slice_set, ℕ, ℤ, pos, ◌<◌, [], List, length, false, slice_get, slice_index, slice_index_or};
ghost use Rattle.rail_model.specs.declared.types.Node.{Node as NodeValue};

use crate::Node;
use crate::checked::are_missions;
use std::alloc::{AllocError, Global};
use std::marker::Model;

/// The points of one train's way, in order, and whether the train leaves the layout after the last one.
#[derive(Drop)]
pub struct Mission {
    points: Vec<u32>,
    exits: bool,
}

impl Model for Mission {
    ghost use Rattle.rail_model.specs.Table.{Mission as MissionValue};

    ghost Value = { MissionValue };

    ghost view = { λ m. record { points = m.points.items; exits = m.exits } };
}

impl Mission {
    ghost use Rattle.std.specs.Prelude.{vec_len};

    pub fn new(points: Vec<u32>, exits: bool) -> Self
        ensures { result ≡ record { points = points.items; exits = exits } }
    {
        Mission { points, exits }
    }

    /// The number of points.
    pub fn points(&self) -> usize
        ensures { result ≡ length self.now.points }
    {
        self.points.len()
    }

    /// Whether the train leaves the layout after its last point.
    pub fn exits(&self) -> bool
        ensures { result ≡ self.now.exits }
    {
        self.exits
    }

    /// The points in order.
    pub fn as_slice(&self) -> &[u32]
        ensures { result.now ≡ self.now.points }
    {
        &self.points
    }

    /// The point at a place, if there is one.
    pub fn point(&self, place: u32) -> Option<u32>
        ensures { result ≡ slice_get self.now.points place }
    {
        self.points.get(place as usize).copied()
    }

    /// The points in order, by value.
    pub fn into_points(self) -> Vec<u32>
        ensures { result.items ≡ self.points }
    {
        self.points
    }
}

/// One mission per train: at most 32, each with some point and at most 128 places, whose points are below 512 and differ from step to step.
#[derive(Drop)]
pub struct Missions {
    items: Vec<Mission>,
}

impl Model for Missions {
    ghost use Rattle.std.specs.Prelude.{List};
    ghost use Rattle.rail_model.specs.Table.{Mission as MissionValue, AreMissions};

    ghost Value = { List MissionValue };

    ghost view = { λ m. m.items.items };

    ghost invariant = { λ m. AreMissions m.items.items };
}

impl Missions {
    ghost use Rattle.rail_model.specs.Table.{AreMissions};

    pub fn new(items: Vec<Mission>) -> Self
        requires { AreMissions items.items }
        ensures { result ≡ items.items }
    {
        Missions { items }
    }

    /// The missions, where they are missions.
    pub fn checked(items: Vec<Mission>) -> Option<Self>
        ensures { MatchOption result (AreMissions items.items → ⊥) (λ made. (made ≡ items.items) × AreMissions made) }
    {
        if !are_missions(&items) {
            return None;
        }
        Some(Missions { items })
    }

    /// The number of trains.
    pub fn len(&self) -> usize
        ensures count { result ≡ length self.now }
        ensures formed { AreMissions self.now }
    {
        self.items.len()
    }

    pub fn is_empty(&self) -> bool
        ensures { IsTrue result ↔ (length self.now ≡ 0) }
    {
        self.items.is_empty()
    }

    pub fn as_slice(&self) -> &[Mission]
        ensures { result.now ≡ self.now }
    {
        &self.items
    }

    pub fn mission(&self, train: u32) -> &Mission
        requires { train < length self.now }
        ensures { result.now ≡ slice_index_or self.now train (record { points = []; exits = false }) }
    {
        &self.items[train as usize]
    }

    /// The missions in order, by value.
    pub fn into_vec(self) -> Vec<Mission>
        ensures { result.items ≡ self }
    {
        self.items
    }
}

/// One position per train.
#[derive(Drop)]
pub struct State {
    positions: Vec<u32>,
}

impl Model for State {
    ghost Value = { List ℕ };

    ghost view = { λ s. s.positions.items };
}

impl From<Vec<u32>> for State {
    ghost from_gives = { λ positions s. s ≡ positions.items };

    fn from(positions: Vec<u32>) -> Self {
        State { positions }
    }
}

impl State {
    pub fn len(&self) -> usize
        ensures { result ≡ length self.now }
    {
        self.positions.len()
    }

    pub fn is_empty(&self) -> bool
        ensures { IsTrue result ↔ (length self.now ≡ 0) }
    {
        self.positions.is_empty()
    }

    pub fn as_slice(&self) -> &[u32]
        ensures { result.now ≡ self.now }
    {
        &self.positions
    }

    /// The position of a train.
    pub fn place(&self, train: u32) -> u32
        requires { train < length self.now }
        ensures { result ≡ slice_index self.now train }
    {
        self.positions[train as usize]
    }

    /// The same positions again.
    pub fn copy(&self, alloc: Global) -> Result<State, AllocError>
        ensures { IfOk result (λ state. state ≡ self.now) }
    {
        let positions = Vec::from_slice(alloc, &self.positions)?;
        Ok(State { positions })
    }

    /// Moves a train by one place.
    pub fn advance(&mut self, train: u32)
        requires train { train < length self.old }
        requires room { slice_index self.old train < 2 ^ 31 }
        ensures { self.new ≡ slice_set self.old train (slice_index self.old train + 1) }
    {
        self.positions[train as usize] += 1;
    }

    /// Puts a train at a place.
    pub fn set(&mut self, train: u32, place: u32)
        requires { train < length self.old }
        ensures { self.new ≡ slice_set self.old train place }
    {
        self.positions[train as usize] = place;
    }

    /// The positions in order, by value.
    pub fn into_vec(self) -> Vec<u32>
        ensures { result.items ≡ self }
    {
        self.positions
    }
}

/// The changes of one train's share, one per place.
#[derive(Drop)]
pub struct Changes {
    items: Vec<i32>,
}

impl Model for Changes {
    ghost Value = { List ℤ };

    ghost view = { λ c. c.items.items };
}

impl From<Vec<i32>> for Changes {
    ghost from_gives = { λ items c. c ≡ items.items };

    fn from(items: Vec<i32>) -> Self {
        Changes { items }
    }
}

impl Changes {
    pub fn len(&self) -> usize
        ensures { result ≡ length self.now }
    {
        self.items.len()
    }

    pub fn is_empty(&self) -> bool
        ensures { IsTrue result ↔ (length self.now ≡ 0) }
    {
        self.items.is_empty()
    }

    pub fn as_slice(&self) -> &[i32]
        ensures { result.now ≡ self.now }
    {
        &self.items
    }

    pub fn change(&self, place: u32) -> i32
        requires { place < length self.now }
        ensures { result ≡ slice_index_or self.now place (pos 0) }
    {
        self.items[place as usize]
    }

    /// The changes in order, by value.
    pub fn into_vec(self) -> Vec<i32>
        ensures { result.items ≡ self }
    {
        self.items
    }
}

/// The nodes of a certificate.
#[derive(Drop)]
pub struct Nodes {
    items: Vec<Node>,
}

impl Model for Nodes {
    ghost Value = { List NodeValue };

    ghost view = { λ n. n.items.items };
}

impl From<Vec<Node>> for Nodes {
    ghost from_gives = { λ items n. n ≡ items.items };

    fn from(items: Vec<Node>) -> Self {
        Nodes { items }
    }
}

impl Nodes {
    pub fn as_slice(&self) -> &[Node]
        ensures { result.now ≡ self.now }
    {
        &self.items
    }

    /// The nodes in order, by value.
    pub fn into_vec(self) -> Vec<Node>
        ensures { result.items ≡ self }
    {
        self.items
    }
}
