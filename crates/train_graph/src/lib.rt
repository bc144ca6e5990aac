//! Train graphs: a timed run drawn with ticks to the right and points down. Each move is exactly one line, between the
//! ticks and the points at which it begins and ends. Lines say what they are of when the pointer rests on them.
#![tactic(auto)]

mod blocks;
mod colours;
mod drawing;
mod grid;
mod labels;
mod layers;
mod legend;
mod levels;
mod marks;
mod order;
mod scale;
mod shapes;
mod sheet;
mod spacing;
mod titles;

pub use drawing::train_graph;
pub use scale::Axes;
pub use sheet::Wish;
