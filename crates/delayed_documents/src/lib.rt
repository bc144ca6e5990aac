//! A document in which a train comes to a point later than planned.
#![tactic(auto)]

mod copying;
mod delay;
mod delaying;
mod judging;
mod steps;

pub use delay::{Delay, NotDelayed};
pub use delaying::delayed;
