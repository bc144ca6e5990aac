//! A certificate of a table, made by a fixed rule; or the first state from which no train can move.
#![tactic(auto)]

mod budget;
mod choice;
mod draft;
mod laws;
mod leaves;
mod made;
mod maker;
mod numbers;
mod path;
mod slack;
mod trail;

pub use budget::Budget;
pub use draft::{Draft, Remade};
pub use laws::{each_budget_has_one_answer, slack_keeps_the_rule};
pub use made::Made;
pub use maker::{make, remake};
