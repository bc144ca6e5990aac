// What a repair answers.
use cert_tree::Cert;
use rail_model::{State, Table};

/// How a repair ends, with the table of the sections that it made so far.
#[derive(Drop)]
pub enum Repair {
    /// The table with its certificate, and the number of rounds.
    Done {
        table: Table,
        cert: Cert,
        rounds: u32,
    },
    /// The budget of `nodes` was spent on the table.
    Spent {
        table: Table,
        nodes: u32,
    },
    /// All `rounds` were used, and a state of the table is stuck.
    Rounds {
        table: Table,
        rounds: u32,
        at: State,
    },
    /// The next section would have made `count` of them, more than a table has; the table is without it.
    Many {
        table: Table,
        count: u32,
    },
}
