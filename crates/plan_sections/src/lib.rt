//! The sections that a document has behind those of its plan, as entries of the plan: it is the document of the plan with them, since that
//! plan is read back and compared.
#![tactic(auto)]

mod entering;
mod entries;
mod holds;
mod refusing;
mod writing;

pub use entering::enter;
pub use entries::Adder;
pub use writing::{Written, with_sections};
