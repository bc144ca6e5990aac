// The yard on one thread.
ghost use Rattle.std.specs.Prelude.{◌≡◌, ◌-◌, ℕ, ◌<◌, ◌≤◌, ◌++◌, [], List, map, length, IfOk, IfErr};
ghost use Rattle.rail_model.specs.Journal.{IsDone};
ghost use Rattle.rail_model.specs.Move.{Answers, Live};
ghost use Rattle.rail_model.specs.Table.{IsTable, trains};
ghost use Rattle.rail_model.specs.Yard.{opening, offer, in_force as table_in_force, Tries};
ghost use Rattle.table_exchange.specs.Steps.{after_ask, after_tried};
ghost use Rattle.table_exchange.specs.Tables.{AreTables, Stands};
ghost use Rattle.plain_yard.specs.Keeps.{Keeps};
ghost use Rattle.plain_yard.specs.Lines.{asked_lines, most_lines, tried_lines};
ghost use Rattle.plain_yard.specs.Rounds.{Finishes};

use crate::CheckedTable;
use crate::lines::{ask_line, try_line};
use crate::rounds::{finish_lines, live_in_force};
use rail_model::{Ask, Line, PlainState, Standing, State, Table, Tried};
use std::alloc::{AllocError, Global};
use std::marker::Model;

/// Enough lines for any run: 32 trains make at most 127 moves each, and at most 15 tables are answered.
pub const MOST_LINES: usize = 4_079;

/// A run that begins: no moves yet, table 0, no lines.
pub fn begin(alloc: Global, start: &State) -> Result<PlainState, AllocError>
    ensures { IfOk result (λ begun. begun ≡ record { yard = opening start.now; lines = [] }) }
{
    let positions = start.copy(alloc)?;
    Ok(PlainState::new(Standing::new(positions, 0, 0, 0), Vec::new(alloc)))
}

/// A run of tables on one thread, with room for all the lines that it can still need.
#[derive(Drop)]
pub struct PlainYard<'a, A: CheckedTable> {
    tables: &'a [A],
    yard: Standing,
    lines: Vec<Line>,
}

impl<'a, A: CheckedTable> Model for PlainYard<'a, A> {
    ghost use Rattle.std.specs.Prelude.{map, ◌≤◌, vec_capacity};
    ghost use Rattle.plain_yard.specs.Keeps.{PlainRun, Keeps};
    ghost use Rattle.plain_yard.specs.Lines.{most_lines};

    ghost Value = { PlainRun };

    ghost view = { λ s. record { tables = map A.offer s.tables.now; yard = s.yard; lines = s.lines.items; room = vec_capacity s.lines } };

    ghost invariant = { λ s. Keeps (map A.offer s.tables.now) s.yard s.lines.items × (most_lines ≤ vec_capacity s.lines) };
}

impl<'a, A: CheckedTable> PlainYard<'a, A> {
    /// Takes a state of a legal run of the tables, with its lines, and reserves room for [`MOST_LINES`]. After that
    /// nothing here takes memory.
    ///
    /// # Errors
    ///
    /// Out of memory, and nothing else; the state comes back as it was.
    pub fn new(tables: &'a [A], state: PlainState) -> Result<Self, PlainState>
        requires { Keeps (map A.offer tables.now) state.yard state.lines }
        ensures ok { IfOk result (λ run. run ≡ record { tables = map A.offer tables.entry.now; yard = state.yard; lines = state.lines; room = run.room }) }
        ensures room { IfOk result (λ run. most_lines ≤ run.room) }
        ensures err { IfErr result (λ back. back ≡ state) }
    {
        let (yard, mut lines) = state.into_parts();
        let more = MOST_LINES.saturating_sub(lines.len());
        match lines.reserve(more) {
            Ok(()) => Ok(PlainYard {
                tables,
                yard,
                lines,
            }),
            Err(_) => Err(PlainState::new(yard, lines)),
        }
    }

    /// The tables.
    pub fn tables(&self) -> &[A]
        ensures { map A.offer result.now ≡ self.now.tables }
    {
        self.tables
    }

    /// The positions, the table in force, the last table that has its answer, and the moves made.
    pub fn yard(&self) -> &Standing
        ensures yard { result.now ≡ self.now.yard }
        ensures keeps { Keeps self.now.tables self.now.yard self.now.lines }
    {
        &self.yard
    }

    /// The table in force, of which no state is stuck.
    pub fn live_in_force(&self) -> &Table
        ensures given { result.now ≡ table_in_force self.now.tables self.now.yard }
        ensures formed { IsTable result.now }
        ensures live { Live result.now }
        ensures tables { AreTables self.now.tables }
        ensures stands { Stands self.now.tables self.now.yard }
        ensures few { length self.now.lines ≤ most_lines }
    {
        live_in_force(self.tables, &self.yard)
    }

    /// The journal's lines so far.
    pub fn lines(&self) -> &[Line]
        ensures { result.now ≡ self.now.lines }
    {
        &self.lines
    }

    /// Asks for a train, and moves it where it may. `Yes` means that the move is made.
    pub fn ask(&mut self, train: u32) -> Ask
        requires { train < trains (table_in_force self.old.tables self.old.yard) }
        ensures answer { Answers (table_in_force self.old.tables self.old.yard) self.old.yard.positions train result }
        ensures after { self.new.yard ≡ after_ask self.old.yard train result }
        ensures adds { self.new.lines ≡ self.old.lines ++ asked_lines self.old.tables self.old.yard train result }
        ensures tables { self.new.tables ≡ self.old.tables }
        ensures room { self.new.room ≡ self.old.room }
        ensures keeps { Keeps self.new.tables self.new.yard self.new.lines }
        ensures formed { IsTable (table_in_force self.new.tables self.new.yard) }
        ensures few { length self.new.lines ≤ most_lines }
    {
        ask_line(self.tables, &mut self.yard, &mut self.lines, train)
    }

    /// Tries the next table: it takes over, or is kept out for a first cause, or is early, or there is none.
    pub fn try_table(&mut self) -> Tried
        ensures answer { Tries self.old.tables self.old.yard result }
        ensures after { self.new.yard ≡ after_tried self.old.yard result }
        ensures adds { self.new.lines ≡ self.old.lines ++ tried_lines self.old.tables self.old.yard result }
        ensures tables { self.new.tables ≡ self.old.tables }
        ensures room { self.new.room ≡ self.old.room }
        ensures keeps { Keeps self.new.tables self.new.yard self.new.lines }
        ensures formed { IsTable (table_in_force self.new.tables self.new.yard) }
        ensures few { length self.new.lines ≤ most_lines }
    {
        try_line(self.tables, &mut self.yard, &mut self.lines)
    }

    /// Makes all that is left: as long as the next table is due, it is tried; else the next train is asked, round
    /// and round, beginning with train 0, until all trains have arrived and no table is open.
    pub fn finish(&mut self)
        ensures done { IsDone self.new.tables self.new.yard }
        ensures round { Finishes self.old.tables self.old.yard (trains (offer self.old.tables 0).table - 1) self.old.lines self.new.yard self.new.lines }
        ensures tables { self.new.tables ≡ self.old.tables }
        ensures room { self.new.room ≡ self.old.room }
        ensures keeps { Keeps self.new.tables self.new.yard self.new.lines }
    {
        finish_lines(self.tables, &mut self.yard, &mut self.lines);
    }

    /// The state and its lines.
    pub fn into_state(self) -> PlainState
        ensures state { result ≡ record { yard = self.entry.yard; lines = self.entry.lines } }
        ensures keeps { Keeps self.entry.tables self.entry.yard self.entry.lines }
    {
        let PlainYard { yard, lines, .. } = self;
        PlainState::new(yard, lines)
    }
}
