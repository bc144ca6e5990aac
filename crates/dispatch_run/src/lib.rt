//! A live session as one call: words, a header and lines come in; the answers to the lines go out, or one line that
//! names what is wrong.
#![tactic(auto)]

mod asking;
mod begun;
mod failure;
mod lines;
mod restoring;
mod serving;
mod session;
mod status;
mod telling;
mod top;

pub use asking::{Order, words};
pub use ats_words::WordsAnswered;
pub use failure::Failure;
pub use status::{Status, code};
pub use telling::{refuse, turn_down};
pub use top::dispatch;
