//! What each refusal of `ats` means for a document, where it is, and what to do about it: sentences with the document's names.
#![tactic(auto)]

mod causes;
mod faults;
mod field;
mod fields;
mod held_points;
mod illegal;
mod lines;
mod meanings;
mod names;
mod refusals;
mod section_points;
mod shapes;
mod text;

pub use faults::{no_document_text, no_table_text};
pub use illegal::{Placed, not_legal_text};
pub use meanings::meaning_of;
