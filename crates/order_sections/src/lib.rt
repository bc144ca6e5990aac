//! Sections that forbid only what no run from the start reaches: the order in which the tracks keep two trains.
#![tactic(auto)]

mod closed;
mod keeping;
mod laws;
mod making;
mod ordering;
mod orders;
mod pairs;
mod refused;
mod whole;

pub use laws::{
    live_orders_complete_runs, orders_keep_runs, reached_pairs_are_in_closed_sets,
    whole_orders_are_kept,
};
pub use order_search::{Chain, Grid, Link, Order, Step, Two};
pub use ordering::{Ordered, order, order_by_run};
pub use refused::OrderRefused;
