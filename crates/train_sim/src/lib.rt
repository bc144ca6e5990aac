//! Runs the yard on one thread in ticks: a train that moves asks again after its travel time, any other at the next tick.
#![tactic(auto)]

mod mover;
mod playing;
mod report;
mod watch;

pub use report::{SimReport, simulate};
