//! Certificates of tables, found by search and checked, with far fewer nodes than the maker's rule needs; or a state from which no train can move;
//! with a report of what was tried.
#![tactic(auto)]

mod finding;
mod found;
mod stuck;

pub use box_search::{Silent, Watcher};
pub use finding::find;
pub use found::{Effort, End, Found, Report, Searched, Way};
