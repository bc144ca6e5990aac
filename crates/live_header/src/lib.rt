//! The header of a live session: a document whose tables accept their certificates, and the journal of a run of it,
//! which goes on from there.
#![tactic(auto)]

mod hashing;
mod journals;
mod laws;
mod naming;
mod opening;
mod reading;
mod refused;
mod scanning;

pub use hashing::document_hash;
pub use laws::headers_are_read;
pub use opening::{Opened, open_header};
pub use reading::{MOST_BYTES, Unread, read_header};
pub use refused::Refused;
pub use scanning::{Header, Stage};
