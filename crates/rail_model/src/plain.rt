// States of the yard, and the lines that led to them.
ghost use Rattle.std.specs.Prelude.{◌≡◌, ℕ, ◌<◌, ◌^◌, length, slice_index, slice_set};
ghost use Rattle.rail_model.specs.Yard.{opening, moved, exchanged, kept_out};

use crate::{Line, State};
use std::marker::Model;

/// Positions, the table in force, the last table that has its answer, and the moves made.
#[derive(Drop)]
pub struct Standing {
    positions: State,
    table: u32,
    tried: u32,
    moves: u32,
}

impl Model for Standing {
    ghost use Rattle.rail_model.specs.Yard.{Yard};

    ghost Value = { Yard };

    ghost view = { λ s. record { positions = s.positions; table = s.table; tried = s.tried; moves = s.moves } };
}

impl Standing {
    pub fn new(positions: State, table: u32, tried: u32, moves: u32) -> Self
        ensures { result ≡ record { positions = positions; table = table; tried = tried; moves = moves } }
    {
        Standing {
            positions,
            table,
            tried,
            moves,
        }
    }

    /// One position per train.
    pub fn positions(&self) -> &State
        ensures { result.now ≡ self.now.positions }
    {
        &self.positions
    }

    /// The table in force.
    pub fn table(&self) -> u32
        ensures { result ≡ self.now.table }
    {
        self.table
    }

    /// The last table that has its answer; at first table 0.
    pub fn tried(&self) -> u32
        ensures { result ≡ self.now.tried }
    {
        self.tried
    }

    /// The moves made.
    pub fn moves(&self) -> u32
        ensures { result ≡ self.now.moves }
    {
        self.moves
    }

    /// A train makes a move.
    pub fn advance(&mut self, train: u32)
        requires train { train < length self.old.positions }
        requires room { slice_index self.old.positions train < 2 ^ 31 }
        requires moves { self.old.moves < 2 ^ 31 }
        ensures { self.new ≡ moved self.old train }
    {
        self.positions.advance(train);
        self.moves += 1;
    }

    /// Puts a train at a place. No move is counted.
    pub fn set(&mut self, train: u32, place: u32)
        requires { train < length self.old.positions }
        ensures { self.new ≡ record self.old { positions = slice_set self.old.positions train place } }
    {
        self.positions.set(train, place);
    }

    /// Puts a table in force, and sets which table has its answer last, and how many moves were made. No train moves.
    pub fn set_counts(&mut self, table: u32, tried: u32, moves: u32)
        ensures { self.new ≡ record self.old { table = table; tried = tried; moves = moves } }
    {
        self.table = table;
        self.tried = tried;
        self.moves = moves;
    }

    /// The next table takes over.
    pub fn exchange(&mut self)
        requires { self.old.tried < 2 ^ 31 }
        ensures { self.new ≡ exchanged self.old }
    {
        self.tried += 1;
        self.table = self.tried;
    }

    /// The next table is kept out.
    pub fn keep_out(&mut self)
        requires { self.old.tried < 2 ^ 31 }
        ensures { self.new ≡ kept_out self.old }
    {
        self.tried += 1;
    }
}

/// A state of the yard with the journal's lines that led to it.
#[derive(Drop)]
pub struct PlainState {
    yard: Standing,
    lines: Vec<Line>,
}

impl Model for PlainState {
    ghost use Rattle.rail_model.specs.Plain.{Plain};

    ghost Value = { Plain };

    ghost view = { λ s. record { yard = s.yard; lines = s.lines.items } };
}

impl PlainState {
    pub fn new(yard: Standing, lines: Vec<Line>) -> Self
        ensures { result ≡ record { yard = yard; lines = lines.items } }
    {
        PlainState { yard, lines }
    }

    /// The state of the yard: positions, tables and moves in one.
    pub fn yard(&self) -> &Standing
        ensures { result.now ≡ self.now.yard }
    {
        &self.yard
    }

    /// The positions, in order of the trains: each the place in the train's mission at which it stands, from 0 on.
    pub fn positions(&self) -> &State
        ensures { result.now ≡ self.now.yard.positions }
    {
        self.yard.positions()
    }

    /// The table in force, counted from 0.
    pub fn table(&self) -> u32
        ensures { result ≡ self.now.yard.table }
    {
        self.yard.table()
    }

    /// The last table that has its answer, counted from 0; at first table 0.
    pub fn tried(&self) -> u32
        ensures { result ≡ self.now.yard.tried }
    {
        self.yard.tried()
    }

    /// How many moves were made, of all trains under all tables.
    pub fn moves(&self) -> u32
        ensures { result ≡ self.now.yard.moves }
    {
        self.yard.moves()
    }

    /// The journal's lines so far.
    pub fn lines(&self) -> &[Line]
        ensures { result.now ≡ self.now.lines }
    {
        &self.lines
    }

    /// The state and its lines, apart.
    pub fn into_parts(self) -> (Standing, Vec<Line>)
        ensures yard { result.0 ≡ self.yard }
        ensures lines { result.1.items ≡ self.lines }
    {
        (self.yard, self.lines)
    }
}
