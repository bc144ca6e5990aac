//! The whole program over sources and sinks in memory: what it writes on worked examples, and where a device fails.
#![tactic(auto)]

mod calls;

pub use calls::{Faults, Played, play};
