// What a table becomes, and how the search for its certificate ended.
use cert_tree::Cert;
use forbidden_states::Stays;
use rail_model::{State, Table};

/// How the search ended.
#[derive(Drop)]
pub enum Ended {
    /// The table accepts this certificate.
    Certified(Cert),
    /// The search for a certificate gave up, after so many nodes.
    GaveUp { nodes: u32 },
    /// This state is stuck, and there is no room for a section more.
    Full { at: State },
    /// This state is stuck, and no more rounds were to be made.
    Spent { at: State },
}

/// A table with guards behind its own sections, the stays of each guard, and how the search ended.
#[derive(Drop)]
pub struct Protected {
    pub table: Table,
    pub guards: Vec<Stays>,
    pub ended: Ended,
}
