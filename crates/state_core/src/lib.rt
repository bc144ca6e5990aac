//! Cores of states: trains that keep one another where they are, so that not all trains can arrive; and guards,
//! sections that forbid such states and no others.
#![tactic(auto)]

mod cores;
mod group;
mod guards;
mod keepers;
mod laws;
mod least;
mod traps;

pub use cores::{is_core, small_core};
pub use group::{Group, all_below};
pub use guards::{guarded, stays_of};
pub use keepers::{Keeper, keeper_of};
pub use laws::{
    cores_stay_for_ever, guards_lose_nothing, stuck_states_have_cores, traps_are_guards,
};
pub use least::least_core;
pub use traps::is_trap;
