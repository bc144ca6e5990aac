//! Plans in place of documents: what an input says by a document, or by a plan, with the lines of a run behind either or without them; and
//! plans beside documents: what the sections of a document are called in the plan that it was made of, if it was.
#![tactic(auto)]

mod called;
mod compiling;
mod naming;
mod numbered;
mod origin;
mod standing;

pub use compiling::{Compiled, compile, fault_lines};
pub use naming::section_names;
pub use origin::{Own, PlanFile, own_of};
pub use standing::{Standing, document_for, is_document, parts};
