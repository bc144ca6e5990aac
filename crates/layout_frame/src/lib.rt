//! The frame of a picture of a layout: where its points lie and how its links bow; and its words, which are the names of
//! points and trains, the legend and the title, or why there is no picture. It promises that a frame has a size and a spot for
//! each point, and that the names of the points are written in order.
#![tactic(auto)]

mod areas;
mod bows;
mod captions;
mod cells;
mod directions;
mod filling;
mod frame;
mod laws;
mod legend;
mod looks;
mod numbers;
mod placing;
mod room;
mod shapes;
mod spine;
mod straightening;
mod titles;

pub use areas::{area_colour, area_stripes};
pub use bows::bow_between;
pub use captions::{push_point_names, push_train_names};
pub use directions::direction_of;
pub use frame::{Frame, Grid, View, frame_of, shifted};
pub use laws::areas_look_different;
pub use legend::push_legend;
pub use looks::Look;
pub use numbers::push_numbers;
pub use shapes::{push_label, push_painted, push_shape};
pub use titles::{cause_of, title_of};
