//! A number in a word: each whole number up to 4,294,967,295 is written in one way, and read back as itself.
#![tactic(auto)]

mod laws;
mod reading;

pub use laws::each_number_has_one_word;
pub use reading::number_of;
