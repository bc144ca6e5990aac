//! Why trains of a run wait: what keeps a train where it is until it leaves, by names.
#![tactic(auto)]

mod before;
mod causes;
mod departures;
mod finding;
mod laws;
mod wait;
mod waiting;
mod words;

pub use finding::cause_of;
pub use laws::{a_cause_keeps_the_train, each_wait_has_one_cause};
pub use wait::Wait;
pub use waiting::waits;
