//! Whether a document is of a plan: all of it is as in the plan's own document but sections behind the plan's and certificates; or what
//! differs first.
#![tactic(auto)]

mod comparing;
mod difference;
mod laws;
mod lists;
mod tables;
mod telling;

pub use comparing::difference_of;
pub use difference::{Difference, Part};
pub use laws::different_documents_are_none;
pub use telling::push_difference;
