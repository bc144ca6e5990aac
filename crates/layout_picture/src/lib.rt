//! Draws the layout of a document: its points and links, its sections as areas, and its trains as arrows.
#![tactic(auto)]

mod answers;
mod arrows;
mod circles;
mod insides;
mod laws;
mod layers;
mod picture;
mod reds;
mod sections;
mod shapes;
mod tracks;
mod trains;

pub use answers::{Drawn, layout_picture};
pub use laws::stuck_states_have_red;
