// Shares that are written where changes are wanted.
ghost use Rattle.std.specs.Prelude.{◌≡◌, ◌<◌, ◌≤ℤ◌, ◌<ℤ◌, ◌↔◌, ℕ, pos, length, slice_index_or, IsTrue};
ghost use Rattle.document_facts.specs.Adding.{Adds};
ghost use Rattle.document_facts.specs.Counting.{Counts};
ghost use Rattle.document_facts.specs.Facts.{AreLikeShares, AreShares, AreWithin, EndsAtNothing, Holds, IsShareOf, RiseOften, Rises, changes_of as changes, greatest_in};
ghost use Rattle.rail_model.specs.Table.{trains};
ghost use Rattle.document_facts.specs.Kinds.{OfShares};

use crate::fact::Fact;
use crate::found::Found;
use document_json::{Doc, table_of, version};
use rail_model::Table;

/// No train has more places.
pub const MAX_PLACES: usize = 129;

// The greatest share in a version.
fn most_share(version: u64) -> i32
    ensures { result ≡ greatest_in version }
{
    if version == 1 { 1 } else { 4 }
}

// Whether all numbers can be shares, none above the greatest one in a version.
fn are_within(numbers: &[i32], version: u64) -> bool
    ensures { IsTrue result ↔ AreWithin (greatest_in version) numbers.now }
{
    let most = most_share(version);
    for place in 0..numbers.len() {
        if numbers[place] < 0 || most < numbers[place] {
            return false;
        }
    }
    true
}

// How many numbers are above 0.
fn count_rises(numbers: &[i32]) -> usize
    ensures { Counts (Rises numbers.now) (length numbers.now) result }
{
    let mut rises: usize = 0;
    for place in 0..numbers.len() {
        if 0 < numbers[place] {
            rises += 1;
        }
    }
    rises
}

// Whether several numbers are above 0.
fn rises_often(numbers: &[i32]) -> bool
    ensures { IsTrue result ↔ RiseOften numbers.now }
{
    1 < count_rises(numbers)
}

/// Whether the numbers of a train can be shares in a version, and are unlikely changes: several rise, and none falls.
pub fn look_like_shares(numbers: &[i32], version: u64) -> bool
    ensures { IsTrue result ↔ AreLikeShares (greatest_in version) numbers.now }
{
    are_within(numbers, version) && rises_often(numbers) && numbers.len() <= MAX_PLACES
}

// Whether the last number is 0.
fn ends_at_nothing(numbers: &[i32]) -> bool
    ensures { IsTrue result ↔ EndsAtNothing numbers.now }
{
    !numbers.is_empty() && numbers[numbers.len() - 1] == 0
}

// Whether numbers look like shares, and end as at a place without a share.
fn are_shares(numbers: &[i32], version: u64) -> bool
    ensures { IsTrue result ↔ AreShares (greatest_in version) numbers.now }
{
    ends_at_nothing(numbers) && look_like_shares(numbers, version)
}

// A train's changes of a section.
fn changes_of(table: &Table, section: u32, train: u32) -> &[i32]
    requires section { section < length table.now.sections }
    requires train { train < trains table.now }
    ensures { result.now ≡ changes table.now section train }
{
    table.sections()[section as usize].changes(train).as_slice()
}

/// Finds that the changes of a train in a section look like shares, which end as at a place without a share, if they do.
pub(crate) fn find_shares(found: &mut Found, doc: &Doc, table: u32, section: u32, train: u32)
    requires { IsShareOf doc.now table section train }
    ensures { Adds (Holds doc.now) (OfShares doc.now table section train) found.old found.new }
{
    let numbers = changes_of(table_of(doc, table), section, train);
    found.add_if(
        are_shares(numbers, u64::from(version(doc))),
        Fact::LikeShares {
            table,
            section,
            train,
        },
    );
}
