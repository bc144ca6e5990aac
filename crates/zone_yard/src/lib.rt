//! A yard that threads share: trains ask for steps and the control tries tables at once, and all answers are in one legal history.
#![tactic(auto)]

mod asking;
mod blocks;
mod cells;
mod closing;
mod exchanging;
mod one_step;
mod opening;
mod passes;
mod receipts;
mod replies;
mod requests;
mod steps;
mod views;
mod yard;
mod zones;

pub use receipts::Receipts;
pub use replies::{BlockReply, Board, Reply, Turn};
pub use views::{
    Appending, Boards, Glancing, HowMany, Key, Law, Leaves, Looking, Paying, Place, Reading,
    ReadingTable, Releasing, Taking, View, Which, WhichCell,
};
pub use yard::{Control, Driver, Root, Yard};
