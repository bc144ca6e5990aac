//! A run by workers: trains board a shared yard, are worked in groups beside each other, and leave.
#![tactic(auto)]

mod boarding;
mod crews;
mod groups;
mod leaving;
mod rounds;
mod working;

pub use crews::Crew;
pub use groups::{Group, run_groups};
pub use rounds::Round;
pub use working::work;
