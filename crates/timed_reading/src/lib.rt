//! Timed runs read: a document and the journal of its simulation become the steps of its trains with their ticks, or
//! one sentence says why they don't.
#![tactic(auto)]

mod faults;
mod parts;
mod reading;
mod running;
mod ticks;

pub use parts::cut;
pub use reading::{Timed, timed_document, timed_run};
