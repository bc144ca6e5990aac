//! Sections that forbid exactly the clashes of stands. A stand is what a train occupies at a place of its route, as a way
//! through a crossing; two different trains on stands that clash must never be at once.
#![tactic(auto)]

mod choosing;
mod covering;
mod laws;
mod making;
mod meetings;
mod refused;
mod section;
mod tracks;

pub use laws::no_sections_for_what_is_free_of_itself;
pub use making::sections_of;
pub use meetings::{Clashes, Meeting};
pub use refused::Refused;
pub use section::StandSection;
