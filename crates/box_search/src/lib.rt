//! Searches for certificates and for states from which no train can move. Boxes are peeled and split, with a look ahead at
//! what each split leads to, until leaves shut all of them. What is found is promised nothing of: who calls checks it.
#![tactic(auto)]

mod board;
mod choice;
mod facts;
mod growth;
mod numbers;
mod peel;
mod pile;
mod region;
mod spelling;
mod votes;
mod walking;
mod watcher;

pub use choice::{AHEAD, BLIND, Manner, WEIGHED};
pub use facts::Facts;
pub use walking::{Outcome, search};
pub use watcher::{Silent, Watcher};
