//! The whole program as one call: words and a document come in; a journal goes out, or one line that names what is wrong.
#![tactic(auto)]

mod answer;
mod drill;
mod finishing;
mod resume;
mod run;
mod tasks;
mod top;
mod weave;

pub use ats_answers::{Failure, Status, code};
pub use top::{ats, refuse, serve_alone};
