// What a train is told, as plain data.

/// What a train that asks for its next place is told.
#[derive(Clone, Copy)]
pub enum Told {
    May,
    Arrived,
    /// Another train stands at its next point.
    Occupied { by: u32 },
    /// A section has no room for the move, and counts this much now.
    Full { section: u32, count: u32 },
    /// A connection holds it.
    Waits { connection: u32 },
    /// It hasn't reported the place that it was granted last.
    Away,
    /// A train was granted away from its next point, and hasn't reported that it is clear of it.
    Leaving { by: u32 },
    /// A section has no room beside the greatest shares of trains that haven't reported, which sum up to this much.
    Clearing { section: u32, count: u32 },
}
