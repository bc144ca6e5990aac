//! The lines of a live dispatcher: those that come in, as requests or the reason why they are none, and the text of
//! each answer, row and event that goes out.
#![tactic(auto)]

mod answers;
mod calls;
mod causes;
mod closing;
mod events;
mod hearing;
mod help;
mod laws;
mod lines;
mod page;
mod refusals;
mod rows;
mod session;
mod tables;
mod told;
mod trains;
mod verbs;
mod words;

pub use answers::Answer;
pub use calls::{Call, Fault, Heard};
pub use closing::push_close;
pub use events::{Event, push_event};
pub use hearing::{MOST_BYTES, hear};
pub use help::push_help;
pub use laws::{only_journal_lines_begin_with_digits, tags_begin_with_a_mark};
pub use lines::push_journal_line;
pub use page::Page;
pub use refusals::Refusal;
pub use rows::Row;
pub use session::{Counts, SessionAnswer};
pub use tables::{TableAnswer, TableLine};
pub use told::{Cause, Prospect, Room, Spot};
pub use trains::TrainAnswer;
