//! The words after `planner`: they ask for exactly one thing, or a text says what is wrong with them, or what there is to ask for.
#![tactic(auto)]

mod asking;
mod orders;
mod reading;

pub use ats_words::WordsAnswered;
pub use orders::{Effort, Order, Output};
pub use reading::words;
