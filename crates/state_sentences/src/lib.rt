//! Tells by names what holds each train in a state, which trains wait for one another, which never move, and whether the state is stuck.
#![tactic(auto)]

mod circles;
mod closing;
mod knots;
mod laws;
mod naming;
mod scene;
mod sentences;
mod telling;

pub use laws::stuck_states_have_knots;
pub use naming::push_section;
pub use scene::Scene;
pub use telling::text_of;
