//! The JSON of documents: its members are read, each in its shape, or the first that has another shape is named; and members are written.
#![tactic(auto)]

mod document;
mod from_kept;
mod from_members;
mod from_tokens;
mod from_value;
mod kept;
mod laws;
mod member;
mod members;
mod number_text;
mod parts;
mod refused;
mod table;
mod to_tokens;
mod token_document;
mod token_parts;
mod token_table;
mod token_text;
mod writing;

pub use document::{DocMembers, read_document};
pub use kept::{members_of, read_kept};
pub use laws::written_members_read_back;
pub use member::Member;
pub use refused::ShapeRefused;
pub use table::TableMembers;
pub use writing::write_document;
