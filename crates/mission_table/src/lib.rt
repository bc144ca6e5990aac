//! Each train gets a way of linked points through the layout, or the first thing wrong with the trains and their ways is named.
#![tactic(auto)]

mod laws;
mod making;
mod naming;
mod refused;
mod register;
mod roster;
mod tracks;

pub use laws::{exactly_missions_of_the_layout_are_taken, exactly_trains_are_taken};
pub use making::missions;
pub use naming::names;
pub use refused::{MissionRefused, TrainRefused};
pub use register::trains;
pub use roster::Trains;
