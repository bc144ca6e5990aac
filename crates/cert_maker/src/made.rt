// What a maker answers.
use cert_tree::Cert;
use rail_model::State;

/// A certificate, a state from which no train can move, or that the budget of nodes was spent.
#[derive(Drop)]
pub enum Made {
    Cert(Cert),
    Stuck(State),
    Spent { nodes: u32 },
}
