//! The orders that the tracks or a run force on two trains, those of them for which there is room, and the chains of trains that keep them.
//! Nothing is promised of them: `order_sections` tests what it is given.
#![tactic(auto)]

mod chains;
mod choosing;
mod grid;
mod order;
mod packing;
mod search;
mod visits;

pub use chains::{Chain, Link, sections_of_chains};
pub use choosing::{Chosen, choose_orders};
pub use grid::Grid;
pub use order::{Order, Step};
pub use search::Two;
