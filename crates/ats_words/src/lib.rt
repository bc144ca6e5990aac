//! The words after `ats`: they ask for exactly one order, or are refused. And what the words of the other programs share:
//! the number of an option, and what is answered to words that ask for help or for nothing that there is.
#![tactic(auto)]

mod answering;
mod options;
mod orders;
mod reading;
mod table;

pub use answering::{WordsAnswered, answer_to};
pub use options::{BUDGET, NumberOption, number};
pub use orders::{Order, WordsRefused};
pub use reading::words;
