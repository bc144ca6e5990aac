//! Plans with patterns, counts and ways, written out as plans without them.
#![tactic(auto)]

mod checks;
mod expanding;
mod laws;
mod lengths;
mod names;
mod numbered;
mod parts;
mod ways;
mod writing;

pub use expanding::expand;
pub use laws::plans_of_today_stay;
