//! A page (HTML) on a document: whether trains can block one another, the layout, the graph and the timetable of a run, a script that plays it,
//! and remarks.
#![tactic(auto)]

mod cells;
mod markup;
mod script;
mod sections;
mod style;
mod timetable;
mod writing;

pub use writing::{Report, Verdict, page};
