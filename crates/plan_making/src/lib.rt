//! Plans made of the entries of a text, by names; all that is wrong with them is reported. Nothing is promised of such a plan: whether it is
//! what its text says is for `plan_reading` to find.
#![tactic(auto)]

mod connections;
mod ground;
mod laying;
mod lists;
mod names;
mod ranges;
mod routes;
mod sections;
mod shares;
mod tables;
mod timed;
mod times;
mod trains;

pub use tables::plan_of;
pub use timed::times_said;
