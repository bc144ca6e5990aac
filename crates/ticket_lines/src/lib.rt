//! The lines that passes were given, each with the ticket of its entry, and the journal that they come to.
#![tactic(auto)]

mod laws;
mod merging;
mod tickets;

pub use laws::{lines_of_histories, own_lines_of_histories};
pub use merging::merged;
pub use tickets::TicketLine;
