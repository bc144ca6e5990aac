// What the calls of a shared yard answer.

use rail_model::Ask;

/// The answer to a request for one step. A ticket is the entry's place in the one history of the yard.
#[derive(Clone, Copy, Debug)]
pub enum Reply {
    Granted {
        ticket: u64,
    },
    Occupied {
        ticket: u64,
        by: u32,
    },
    Full {
        ticket: u64,
        section: u32,
        count: u32,
    },
    Waits {
        ticket: u64,
        connection: u32,
    },
    Arrived {
        ticket: u64,
    },
    /// The zone was held by another pass. No entry was made.
    Busy {
        zone: u32,
        holder: u32,
    },
    /// The pass has made all entries that it may make.
    Spent,
}

/// The answer to a request for a block of steps, which are granted whole or not at all.
#[derive(Clone, Copy, Debug)]
pub enum BlockReply {
    /// This many steps, at this ticket and those after it.
    Granted {
        ticket: u64,
        steps: u32,
    },
    /// The first `step` steps could be granted, and the one after them is answered `ask`.
    NotWhole {
        ticket: u64,
        step: u32,
        ask: Ask,
    },
    Occupied {
        ticket: u64,
        by: u32,
    },
    Full {
        ticket: u64,
        section: u32,
        count: u32,
    },
    Waits {
        ticket: u64,
        connection: u32,
    },
    Arrived {
        ticket: u64,
    },
    Busy {
        zone: u32,
        holder: u32,
    },
    Spent,
}

/// The answer to the control that tries the next table.
#[derive(Clone, Copy, Debug)]
pub enum Turn {
    Exchanged {
        ticket: u64,
    },
    Differs {
        ticket: u64,
        train: u32,
        place: u32,
    },
    Over {
        ticket: u64,
        section: u32,
        count: u32,
    },
    Early {
        ticket: u64,
        moves: u32,
    },
    /// Every table has its answer.
    NoMore,
    Spent,
}

/// Why a pass can't board.
#[derive(Clone, Copy, Debug)]
pub enum Board {
    /// It has boarded once.
    Taken,
    /// There was no memory for it.
    Memory,
}
