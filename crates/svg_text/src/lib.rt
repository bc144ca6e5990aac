//! Pictures as SVG text: a picture is made of groups, and a group of shapes. In the text each element that is opened
//! is closed, and all words and values of attributes are escaped.
#![tactic(auto)]

mod escaping;
mod shapes;
mod tree;
mod writing;

pub use escaping::{push_escaped, push_raw};
pub use shapes::{Spot, circle, label, line, polygon};
pub use tree::{Attribute, Group, Picture, Shape};
pub use writing::text;
