//! Timed runs: their steps with their ticks, and the timetable that they make.
#![tactic(auto)]

mod rows;
mod run;
mod table;
mod values;

pub use rows::{Row, rows_in, rows_of};
pub use run::{Run, Step, Takeover, point_name, train_name};
pub use table::columns;
pub use values::{csv, place_name, push_number, push_train};
