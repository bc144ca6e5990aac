// The least and the greatest of some shares, and the shares of one train at each of its places.
ghost use Rattle.std.specs.Prelude.{◌≡◌, ◌+◌, ◌*◌, ◌<◌, ◌≤◌, length, IfOk, vec_capacity};
ghost use Rattle.rail_model.specs.Table.{trains, last, share};
ghost use Rattle.state_boxes.specs.Cells.{AreSingle};

use rail_model::{Table, change_at, last_of, sections_of};
use std::alloc::{AllocError, Global};

/// The least and the greatest of some shares. Shares are small, and rows of them are to be short.
#[derive(Clone, Copy)]
pub struct Extremes {
    pub least: i8,
    pub greatest: i8,
}

impl Extremes {
    ghost use Rattle.std.specs.Prelude.{pos, ◌≤ℤ◌};
    ghost use Rattle.state_boxes.specs.Extremes.{joined as joined_of, single as single_of};

    /// The extremes of one share.
    pub(crate) fn single(share: i32) -> Extremes
        requires low { pos 0 ≤ℤ share }
        requires high { share ≤ℤ pos 4 }
        ensures { result ≡ single_of share }
    {
        Extremes {
            least: share as i8,
            greatest: share as i8,
        }
    }

    /// The extremes of two spans together.
    pub fn joined(self, other: Extremes) -> Extremes
        ensures { result ≡ joined_of self other }
    {
        Extremes {
            least: self.least.min(other.least),
            greatest: self.greatest.max(other.greatest),
        }
    }
}

// The share of a section at a place, where the shares before it are listed place by place, at each place section by section.
fn next_share(table: &Table, train: u32, section: u32, place: u32, shares: &[i8]) -> i8
    requires train { train < trains table.now }
    requires section { section < length table.now.sections }
    requires place { place ≤ last table.now train }
    requires shares { AreSingle table.now train shares.now }
    requires many { length shares.now ≡ place * length table.now.sections + section }
    ensures { result ≡ share table.now train section place }
{
    let change = change_at(table, train, section, place);
    if place == 0 {
        return change as i8;
    }
    let before = shares[shares.len() - sections_of(table) as usize];
    (i32::from(before) + change) as i8
}

// Adds the shares at a place, section by section.
fn add_place(table: &Table, train: u32, place: u32, shares: &mut Vec<i8>)
    requires train { train < trains table.now }
    requires place { place ≤ last table.now train }
    requires single { AreSingle table.now train shares.old.items }
    requires many { length shares.old.items ≡ place * length table.now.sections }
    requires room { (place + 1) * length table.now.sections ≤ vec_capacity shares.old }
    ensures single { AreSingle table.now train shares.new.items }
    ensures many { length shares.new.items ≡ (place + 1) * length table.now.sections }
    ensures room { vec_capacity shares.new ≡ vec_capacity shares.old }
{
    for section in 0..sections_of(table) {
        let share = next_share(table, train, section, place, shares);
        shares.push_reserved(share);
    }
}

/// The shares of a train, place by place, at each place section by section.
pub fn single_shares(alloc: Global, table: &Table, train: u32) -> Result<Vec<i8>, AllocError>
    requires { train < trains table.now }
    ensures single { IfOk result (λ shares. AreSingle table.now train shares.items) }
    ensures many { IfOk result (λ shares. length shares.items ≡ (last table.now train + 1) * length table.now.sections) }
{
    let places = last_of(table, train) + 1;
    let many = places as usize * sections_of(table) as usize;
    let mut shares = Vec::with_capacity(alloc, many)?;
    for place in 0..places {
        add_place(table, train, place, &mut shares);
    }
    Ok(shares)
}
