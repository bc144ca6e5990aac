//! Sections made from the missions alone, until every state that can't be completed is excluded.
#![tactic(auto)]

mod cores;
mod groups;
mod joining;
mod laws;
mod repaired;
mod rounds;

pub use laws::{closures_are_least, each_repair_has_one_answer, each_round_loses_nothing};
pub use repaired::Repair;
pub use rounds::repair;
