//! Ranges of places, one a train: where trains may meet in them, and the least and greatest that they fill of a section.
#![tactic(auto)]

mod bounds;
mod extremes;
mod firsts;
mod levels;
mod lists;
mod members;
mod moves;
mod places;
mod ranges;
mod rises;
mod share_rows;
mod shares;
mod sums;
mod ways;

pub use extremes::Extremes;
pub use firsts::{first_away, first_holder, is_at_end};
pub use levels::{Shares, TrainShares};
pub use lists::Lists;
pub use members::Members;
pub use moves::{Reason, surely_moves, surely_moves_past};
pub use places::stays_at;
pub use ranges::{Ranges, Span, full_box};
pub use rises::{PlaceRises, Rise, RiseAt, Rises, TrainRises, first_without_room_from_one};
pub use shares::{greatest_share, least_share};
pub use sums::{RangeSums, Sum, is_overfull};
pub use ways::{Block, Spot, Spots, Ways, first_in_way};
