//! Runs the yard on one thread, and finishes any run train after train, without memory, until all have arrived.
#![tactic(auto)]

mod checked;
mod laws;
mod lines;
mod plain;
mod rounds;

pub use checked::CheckedTable;
pub use laws::{begun_keeps, finished_is_whole, histories_keep, replayed_keeps, run_is_whole};
pub use lines::table_line;
pub use plain::{MOST_LINES, PlainYard, begin};
pub use rounds::has_answer;
