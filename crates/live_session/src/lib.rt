//! A session of a live dispatcher as a fold over lines: each line gives the next session and the text of its answer.
#![tactic(auto)]

mod answers;
mod calls;
mod laws;
mod lines;
mod news;
mod queries;
mod server;
mod serving;
mod session;
mod start;
mod status;
mod tags;

pub use laws::{the_last_line_tells_the_end, written_lines_are_the_journal};
pub use session::Session;
