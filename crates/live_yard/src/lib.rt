//! Answers requests for trains while they run: who may go on, who waits and why, and which wants are granted then.
//! Below that: what a train is told beside trains that haven't reported, which line granted what, and the queue of
//! wants.
#![tactic(auto)]

mod beginning;
mod granted_lines;
mod laws;
mod live;
mod passed_places;
mod queue;
mod reported;
mod requests;
mod serving;
mod settling;
mod table_lines;
mod telling;
mod told;

pub use granted_lines::{Passed, answer_of, each_table_has_a_line, passed_place};
pub use laws::{
    grants_where_it_may, lines_are_added, refusals_change_nothing, repeats_what_was_granted,
    reports_only_refuse, trains_can_arrive,
};
pub use live::LiveYard;
pub use queue::{MOST_TRAINS, WantQueue};
pub use reported::ReportedYard;
pub use requests::{Elsewhere, Reply, Request, Served};
pub use telling::tell;
pub use told::Told;
