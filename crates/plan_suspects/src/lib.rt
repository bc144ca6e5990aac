//! Points of routes that are probably mistyped, in plans without lines, and remarks on them.
#![tactic(auto)]

mod finding;
mod letters;
mod telling;

pub use finding::{Suspect, suspects};
pub use letters::is_one_letter_off;
pub use telling::remarks;
