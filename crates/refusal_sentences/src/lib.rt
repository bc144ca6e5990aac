//! Explains by names what `ats` answers: what holds each train in a state, and what a line of it means for a document.
#![tactic(auto)]

mod explained;
mod explaining;
mod places;
mod state_lines;
mod states;

pub use explained::Explained;
pub use explaining::explain_line;
pub use places::places_of;
pub use states::{explain_places, explain_state, sections_named};
