// Lines with tickets.

use rail_model::Line;

/// A line of the journal, and the ticket of its entry: the entry's place in the history.
#[derive(Clone, Copy, Debug, PartialEq, Eq)]
pub struct TicketLine {
    pub ticket: u64,
    pub line: Line,
}
