// How many nodes a certificate may have.
ghost use Rattle.std.specs.Prelude.{◌≡◌, ◌≤◌, ◌↔◌, IsSome, IfSome};

use cert_tree::MOST_NODES;

/// How many nodes a certificate may have: 1 to 1,000,000. [`new`](Budget::new) tests any number; of one that is written
/// as `Budget { nodes }` it is proved.
#[derive(Clone, Copy)]
pub struct Budget {
    pub nodes: u32,
    pub ghost in_range: { (1 ≤ nodes) × (nodes ≤ 1000000) },
}

impl Budget {
    /// The budget of this many nodes, if they are 1 to 1,000,000.
    pub fn new(nodes: u32) -> Option<Budget>
        ensures in_range { IsSome result ↔ ((1 ≤ nodes) × (nodes ≤ 1000000)) }
        ensures nodes { IfSome result (λ budget. budget.nodes ≡ nodes) }
    {
        if (1..=MOST_NODES as u32).contains(&nodes) {
            Some(Budget { nodes })
        } else {
            None
        }
    }
}
