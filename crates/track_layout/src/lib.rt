//! A layout is made of points, links and zones that fit together, or the first thing wrong with them is named.
#![tactic(auto)]

mod laws;
mod lookup;
mod making;
mod numbers;
mod refused;

pub use laws::exactly_layouts_are_taken;
pub use lookup::number_of;
pub use making::layout;
pub use numbers::{NotNumbered, Numbers};
pub use refused::{LayoutRefused, What};
