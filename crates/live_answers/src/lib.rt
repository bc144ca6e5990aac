//! Answers what clients ask of a live dispatcher that changes nothing: where trains are, what each waits for, directly
//! and through others, and whether a table fits.
#![tactic(auto)]

mod causes;
mod counts;
mod fitting;
mod prospects;
mod rows;
mod scene;
mod since;
mod tolds;
mod waiting;
mod why;

pub use causes::{connection, in_the_way};
pub use counts::counts_of;
pub use fitting::{fit_of, is_next_due, next_table};
pub use rows::{push_state, push_told, push_told_all};
pub use scene::Scene;
pub use since::push_since;
pub use tolds::tolds_of;
pub use waiting::awaited;
pub use why::push_why;
