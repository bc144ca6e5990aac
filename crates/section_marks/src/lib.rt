//! Critical sections and connections are added to the missions, or the first thing wrong with them is named.
#![tactic(auto)]

mod connecting;
mod laws;
mod making;
mod marks;
mod refused;
mod shares;

pub use connecting::connections;
pub use laws::{
    exactly_connections_of_the_table_are_taken, exactly_sections_of_the_missions_are_taken,
};
pub use making::sections;
pub use marks::Marks;
pub use refused::MarkRefused;
