//! Answers lines as they come: whenever more input is asked for, what was written is exactly the answers to the
//! complete lines so far.
#![tactic(auto)]

mod hearing;
mod laws;
mod pieces;
mod server;
mod service;

pub use hearing::MOST_BYTES;
pub use laws::{lines_are_heard, pieces_make_no_difference};
pub use server::{Course, LineServer, ServeFault};
pub use service::serve_lines;
