//! Plans with crossings, scissors and ladders: sections that let in exactly the states in which ways agree, before the plan's own.
#![tactic(auto)]

mod adding;
mod entries;
mod numbers;
mod parts;
mod reading;
mod telling;

pub use reading::read_crossed_plan;
