//! A document with sections that keep trains in the order that its tracks force.
#![tactic(auto)]

mod keeping;
mod laws;
mod ordering;
mod refused;
mod telling;

pub use keeping::with_certs;
pub use laws::documents_are_offered;
pub use ordering::{OrderedDoc, has_no_room, ordered};
pub use refused::NotOrdered;
pub use telling::lines_of;
