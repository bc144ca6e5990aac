//! What the planner's program does: it reads its input to the end, and writes what an order asks for, or what is wrong, a line each.
#![tactic(auto)]

mod answer;
mod certifying;
mod comparing;
mod drawing;
mod entering;
mod explaining;
mod linting;
mod ordering;
mod planning;
mod protecting;
mod reporting;
mod running;
mod timing;
mod top;

pub use answer::{Answer, answer_to};
pub use cert_search::{Silent, Watcher};
pub use plan_input::PlanFile;
pub use top::{MOST_BYTES, Status, Stop, code, end_unread, serve, turn_down};
