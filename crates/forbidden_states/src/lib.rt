//! Sections that forbid exactly the states in which all of some trains are in given spans of places.
#![tactic(auto)]

mod laws;
mod marking;
mod stays;

pub use laws::over_where_all_stay;
pub use marking::{last_of, marked};
pub use stays::{Stay, Stays};
