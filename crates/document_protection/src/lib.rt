//! Documents protected by guards: sections behind those of each table that forbid only states from which not all trains
//! can arrive, and certificates that are found by search.
#![tactic(auto)]

mod guards;
mod protecting;
mod telling;
mod unprotected;

pub use guards::Guards;
pub use protecting::{ProtectedDoc, protected};
pub use telling::{lines_of, lines_of_why};
pub use unprotected::{Unprotected, Why};
