// What a train is told, with all that the text names: plain data. A train is its number.

/// A train at one of its places, and the point there; none where it is out of the layout.
#[derive(Clone, Copy)]
pub struct Spot {
    pub train: u32,
    pub place: u32,
    pub point: Option<u32>,
}

/// A section without room for a move: what it counts now, what the move adds, its limit, and the trains that count
/// there.
#[derive(Clone, Copy)]
pub struct Room<'a> {
    pub section: u32,
    pub count: u32,
    pub more: u32,
    pub limit: u32,
    pub by: &'a [u32],
}

/// Why a train has to wait.
#[derive(Clone, Copy)]
pub enum Cause<'a> {
    /// A train stands at its next point.
    Occupied {
        by: u32,
    },
    /// A section has no room for the move.
    Full {
        room: Room<'a>,
    },
    /// A connection holds it until a train has reached a place.
    Connection {
        connection: u32,
        by: u32,
        reached: u32,
    },
    /// It hasn't reported the place that it was granted last.
    Away {
        place: u32,
    },
    /// A train was granted away from its next point, and hasn't reported that it is clear of it.
    Leaving {
        by: u32,
    },
    /// A section has no room beside trains that haven't reported.
    Clearing {
        room: Room<'a>,
    },
}

/// What a train is told that asks for its next place.
#[derive(Clone, Copy)]
pub enum Prospect<'a> {
    May { next: Spot },
    Waits { next: Spot, cause: Cause<'a> },
    Arrived { train: u32, place: u32 },
}
