//! Tells which states are legal, and what a train that asks to move is told.
#![tactic(auto)]

mod counts;
mod judges;
mod laws;
mod moves;

pub use counts::{count_of, remaining};
pub use judges::{Illegal, judge};
pub use laws::{each_ask_is_computed, each_state_has_one_verdict};
pub use moves::can_move;
