//! The entries of a plan in TOML, each with its place in the text, and the faults in them, in the order of its lines.
#![tactic(auto)]

mod entries;
mod faults;
mod names;
mod origins;
mod source;
mod words;

pub use entries::{Entries, Entry, Kind, first_other, names_of};
pub use faults::{Fault, Faults};
pub use names::tell_no;
pub use origins::Origins;
pub use words::Part;
