// A journal: its lines, and the two counts of its end line.
ghost use Rattle.std.specs.Prelude.{◌≡◌, ℕ, ◌^◌, ◌<◌, length, count_by};
ghost use Rattle.rail_model.specs.Journal.{is_move, is_table, with_counts};

use rail_model::Line;
use std::marker::Model;

/// The lines of a run, and the two counts that its end line names.
#[derive(Drop)]
pub struct Journal {
    lines: Vec<Line>,
    moves: u32,
    tables: u32,
}

impl Model for Journal {
    ghost use Rattle.rail_model.specs.Journal.{Journal as JournalValue};

    ghost Value = { JournalValue };

    ghost view = { λ j. record { lines = j.lines.items; moves = j.moves; tables = j.tables } };
}

impl Journal {
    /// A journal with any two counts.
    pub fn new(lines: Vec<Line>, moves: u32, tables: u32) -> Self
        ensures { result ≡ record { lines = lines.items; moves = moves; tables = tables } }
    {
        Journal {
            lines,
            moves,
            tables,
        }
    }

    /// The journal of these lines, with the counts of its moves and of its exchanged tables.
    pub fn from_lines(lines: Vec<Line>) -> Self
        requires { length lines.items < 2 ^ 32 }
        ensures { result ≡ with_counts lines.items }
    {
        let moves = moves_of(&lines) as u32;
        let tables = tables_of(&lines) as u32;
        Journal {
            lines,
            moves,
            tables,
        }
    }

    /// Its lines, in order.
    pub fn lines(&self) -> &[Line]
        ensures { result.now ≡ self.now.lines }
    {
        &self.lines
    }

    /// The number of moves that its end line names.
    pub fn moves(&self) -> u32
        ensures { result ≡ self.now.moves }
    {
        self.moves
    }

    /// The number of exchanged tables that its end line names.
    pub fn tables(&self) -> u32
        ensures { result ≡ self.now.tables }
    {
        self.tables
    }
}

/// What the bytes of a text are, with its end line or without one.
#[derive(Drop)]
pub enum Part {
    Whole(Journal),
    Open(Journal),
}

/// How many of the lines are moves.
pub(crate) fn moves_of(lines: &[Line]) -> usize
    ensures { result ≡ count_by is_move lines.now }
{
    lines
        .iter()
        .filter(|line| matches!(line, Line::Move { .. }))
        .count()
}

/// How many of the lines are tables that took over.
pub(crate) fn tables_of(lines: &[Line]) -> usize
    ensures { result ≡ count_by is_table lines.now }
{
    lines
        .iter()
        .filter(|line| matches!(line, Line::Table { .. }))
        .count()
}
