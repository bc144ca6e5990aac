//! Documents whose tables accept their certificates, and the states that the journals of their runs lead to.
#![tactic(auto)]

mod accepting;
mod acceptors;
mod refused;
mod replaying;

pub use accepting::{Checked, check_document, check_document_par};
pub use refused::{BadJournal, Unaccepted};
pub use replaying::{Replayed, replay_text, verify_text};
