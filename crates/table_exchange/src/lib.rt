//! When the next table is due, whether it may take over, and the steps of the yard on one thread.
#![tactic(auto)]

mod exchange;
mod laws;
mod steps;

pub use exchange::{NotNow, admit, all_arrived, due, first_unfinished, is_due};
pub use laws::{admitted_stays_legal, each_admission_is_computed, histories_keep_standing};
pub use steps::{ask, in_force, try_table};
