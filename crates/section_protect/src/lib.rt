//! Tables protected by guards: sections behind a table's own that forbid only states from which not all trains can
//! arrive, one after another until a certificate is found.
#![tactic(auto)]

mod finder;
mod joining;
mod laws;
mod protected;
mod rounds;
mod searching;

pub use finder::{Finder, Finding};
pub use laws::protected_tables_lose_nothing;
pub use protected::{Ended, Protected};
pub use rounds::protect;
pub use searching::Searching;
