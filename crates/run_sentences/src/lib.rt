//! Tells of a document whether a run from its start leads to given places: by the lines of one, or that there is none.
#![tactic(auto)]

mod apart;
mod known;
mod offering;
mod telling;

pub use offering::tables_offered;
pub use telling::runs_told;
