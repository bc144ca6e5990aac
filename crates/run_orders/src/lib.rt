//! Documents with the orders of one run: a run that a journal gives or begins, or that is drawn, and sections that keep
//! trains in its order.
#![tactic(auto)]

mod drawing;
mod laws;
mod ordering;
mod reading;
mod refused;

pub use drawing::{run_from, verified};
pub use laws::whole_runs_stay_legal;
pub use ordering::ordered_by_run;
pub use reading::{RunOrdered, order_input};
pub use refused::{RunRefused, refused_lines};
