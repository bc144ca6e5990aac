// Who runs the trains.

/// How many workers run the trains at once, in how many rounds at most, and for how many steps a train asks at once.
#[derive(Clone, Copy, Debug, PartialEq, Eq)]
pub struct Crew {
    pub workers: u32,
    pub rounds: u32,
    pub block: u32,
}
