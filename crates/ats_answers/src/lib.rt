//! What each order that runs no trains answers on its input, why an input is refused, and how a refusal is told.
#![tactic(auto)]

mod checked;
mod checking;
mod drill;
mod failure;
mod from_rings;
mod generating;
mod journals;
mod lines;
mod making;
mod migrating;
mod repairing;
mod simulating;
mod starting;
mod status;
mod turns;
mod verifying;

pub use checked::check_document;
pub use checking::{check, nodes};
pub use drill::drill_document;
pub use failure::Failure;
pub use from_rings::derive;
pub use generating::generate;
pub use journals::cut;
pub use lines::{NO_MEMORY, fixed_line, line_of};
pub use making::make;
pub use migrating::migrate;
pub use repairing::repair;
pub use simulating::{simulate, simulate_alone};
pub use status::{Status, code};
pub use turns::state_after;
pub use verifying::verify;
