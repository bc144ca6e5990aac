//! Plans in TOML: a text becomes the plan of a document, or a list of all that is wrong with it, with lines and names.
#![tactic(auto)]

mod agreement;
mod held;
mod matching;
mod placed;
mod reading;
mod timed;
mod zoned;

pub use plan_entries::Fault;
pub use reading::{PlanRead, read_plan};
