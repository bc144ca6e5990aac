// What is wrong with a text, or with a journal.
use rail_model::Ask;
use std::alloc::{AllocError, AllocFailed};

/// The first fault of a text. Lines are counted from 1.
#[derive(Clone, Copy)]
pub enum BadText {
    /// Neither a line nor an end line: another form, an unknown name, or no newline.
    Line { line: u64 },
    /// A line whose number isn't its place.
    Number { line: u64 },
    /// Bytes after the end line.
    After,
    /// No end line.
    NoEnd,
    Memory,
}

impl<T: Drop> From<AllocFailed<T>> for BadText {
    ghost use Rattle.std.specs.Prelude.{◌≡◌};
    ghost use Rattle.move_journal.specs.declared.faults.BadText.TheVariants.{Memory};

    ghost from_gives = { λ _ e. e ≡ Memory };

    fn from(_error: AllocFailed<T>) -> Self {
        BadText::Memory
    }
}

/// The first line that isn't right, counted from 1, or what a journal lacks at its end.
#[derive(Clone, Copy)]
pub enum BadLine {
    /// A move that the train can't make: the answer that it would get.
    Move { line: u64, ask: Ask },
    /// A move of no train, or not between the train's point and its next one.
    Place { line: u64 },
    /// Not the next table, or not its answer.
    Table { line: u64 },
    /// The first train that hasn't arrived.
    Unfinished { train: u32 },
    /// The first table without an answer.
    Open { table: u32 },
    /// A wrong count in the end line.
    Counts,
    Memory,
}

impl From<AllocError> for BadLine {
    ghost use Rattle.std.specs.Prelude.{◌≡◌};
    ghost use Rattle.move_journal.specs.declared.faults.BadLine.TheVariants.{Memory};

    ghost from_gives = { λ _ e. e ≡ Memory };

    fn from(_error: AllocError) -> Self {
        BadLine::Memory
    }
}
