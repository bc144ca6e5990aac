//! Circular waits of trains, and the sections that forbid them.
#![tactic(auto)]

mod chart;
mod laws;
mod leading;
mod levels;
mod marking;
mod placed;
mod refused;
mod ring;
mod search;
mod standing;
mod train_set;

pub use laws::{lists_just_the_rings, ring_sections_lose_nothing};
pub use marking::mark_rings;
pub use refused::Rings;
pub use ring::Ring;
pub use search::rings;
