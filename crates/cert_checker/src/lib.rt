//! The check that a certificate shuts all states of a table, so that no train is ever stuck, and tables that passed it.
#![tactic(auto)]

mod accepted;
mod checks;
mod ends;
mod faults;
mod good;
mod halves;
mod leaves;
mod loads;
mod par;
mod parts;
mod places;
mod shares;
mod walk;

pub use accepted::{Accepted, accept, accept_par};
pub use checks::check;
pub use faults::CheckFault;
pub use par::check_par;
