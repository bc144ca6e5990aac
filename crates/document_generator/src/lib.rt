//! Generated documents: pairs of trains that meet on rows of loops, drawn from a seed.
#![tactic(auto)]

mod draws;
mod generator;
mod layout;
mod names;
mod pairs;
mod sections;
mod ways;

pub use draws::Draws;
pub use generator::{generate, generate_members};
