//! The journal of a run: written as a text that is read back as itself, replayed line by line, and verified to be
//! whole; what is wrong with a text or a journal is named by its first cause.
#![tactic(auto)]

mod faults;
mod laws;
mod lines;
mod reading;
mod replaying;
mod verifying;
mod words;
mod writing;

pub use faults::{BadLine, BadText};
pub use laws::{
    longer_text_keeps_its_front, one_answer_per_text, one_journal_per_text, right_or_one_bad_line,
    whole_or_one_cause,
};
pub use lines::{Journal, Part};
pub use reading::{read, read_prefix};
pub use replaying::replay;
pub use verifying::verify;
pub use writing::{push_line, text};
