// What a search is asked for, and what it finds.
use cert_tree::Cert;
use rail_model::State;

/// How many ways of searching are tried, the ones of the lesser effort first.
#[derive(Clone, Copy)]
pub enum Effort {
    /// `Ahead` alone.
    Small,
    /// `Weighed` too.
    Usual,
    /// `Blind` and `Halves` too.
    Great,
}

/// A way of searching.
#[derive(Clone, Copy)]
pub enum Way {
    /// Asks first which trains have arrived; of up to 100 splits it takes the one whose halves shrink most.
    Ahead,
    /// Looks ahead too, but asks for splits of all kinds at once, and measures ranges by how often they can be halved.
    Weighed,
    /// Asks first which trains have arrived, and takes the split for which there are most reasons.
    Blind,
    /// The rule of `cert_maker`, which splits ranges in the middle.
    Halves,
}

/// A certificate, a state from which no train can move, or that nothing was found after so many nodes.
#[derive(Drop)]
pub enum Found {
    Cert(Cert),
    Stuck(State),
    GaveUp { nodes: u32 },
}

/// What a search came to: a certificate of so many nodes, a stuck state, or nothing after so many nodes.
#[derive(Clone, Copy)]
pub enum End {
    Cert { nodes: u32 },
    Stuck,
    GaveUp { nodes: u32 },
}

/// A search that was made.
#[derive(Clone, Copy)]
pub struct Searched {
    pub way: Way,
    pub end: End,
}

/// What was found, and the searches that were made, in order.
#[derive(Drop)]
pub struct Report {
    pub found: Found,
    pub searches: Vec<Searched>,
}
