//! Crossings of a plan: ways over points, of which some are parallel, and sections that let in exactly the states in which
//! the ways agree that trains are on.
#![tactic(auto)]

mod checks;
mod crossing;
mod laws;
mod making;
mod refused;
mod route;
mod shapes;
mod shares;
mod stands;

pub use crossing::{Crossing, Group, Way};
pub use laws::trains_at_points_are_on_ways;
pub use making::sections_of_crossings;
pub use refused::{Fault, Refused};
pub use route::Route;
pub use shapes::{Track, ladder, scissors};
