//! Two timed runs, compared: which trains are earlier or later, where, and how long they wait.
#![tactic(auto)]

mod cells;
mod sides;
mod table;
mod times;
mod unchanged;
mod values;

pub use sides::Side;
pub use table::columns;
pub use values::csv;
