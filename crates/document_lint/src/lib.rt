//! Remarks on a document: what it says that has no effect or is likely a mistake, each with its fact, the place of the member that it is
//! about, and words.
#![tactic(auto)]

mod linting;
mod member_words;
mod members;
mod place;
mod reading;
mod remark;
mod remarking;
mod section_words;
mod subject;
mod text;
mod words;

pub use document_facts::{Fact, MemberFact, Object};
pub use linting::{lint, lint_after};
pub use remark::Remark;
