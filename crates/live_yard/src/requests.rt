// What is asked of the dispatcher, and what it answers: plain data.
use crate::{Passed, Told};
use rail_model::Tried;

/// What a place of a train is that isn't its next one.
#[derive(Clone, Copy)]
pub enum Elsewhere {
    /// It is past the train's last place.
    Beyond { last: u32 },
    /// It is past the place after the one that the train was granted last.
    Ahead { at: u32 },
    /// The train has been there, or is there.
    Before { how: Passed },
}

/// A request. A train is its number, below the number of trains.
#[derive(Clone, Copy)]
pub enum Request {
    /// The train asks for its next place, or for this one.
    Ask { train: u32, place: Option<u32> },
    /// The same; where it has to wait, it is granted the place as soon as it can be.
    Want { train: u32, place: Option<u32> },
    /// The train no longer wants its next place.
    Drop { train: u32 },
    /// The train is wholly at the place, and all behind it is clear.
    At { train: u32, place: u32 },
    /// The next table, or this one, is tried.
    Table { table: Option<u32> },
}

/// The answer to a request. A line is a number of the journal, counted from 1.
#[derive(Clone, Copy)]
pub enum Reply {
    /// The train was granted its next place, by this line.
    Granted { line: u32 },
    /// The train has to wait, or has arrived.
    Held { told: Told },
    /// The place asked for isn't the next one.
    Elsewhere { place: Elsewhere },
    /// How many wants were dropped, 0 or 1.
    Dropped { wants: u32 },
    /// The place that the train has reported.
    There { place: u32 },
    /// The train can't be there: it was granted no more than this place.
    NotThere { at: u32 },
    /// Trains don't report.
    NoReports,
    /// The next table was tried.
    Tried { tried: Tried },
    /// The table had its answer before, by this line.
    TriedBefore { line: u32 },
    /// The table isn't the next one: this was tried last.
    TooSoon { tried: u32 },
    /// There is no such table.
    NoTable { tables: u32 },
}

/// What one request gave: its answer, and how many standing wants were granted after it. Their moves are the last lines
/// of the journal.
#[derive(Clone, Copy)]
pub struct Served {
    pub reply: Reply,
    pub granted: usize,
}
