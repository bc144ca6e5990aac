// Whether a section keeps a chain of trains: it has room for each two of them at each pair of a set.
ghost use Rattle.std.specs.Prelude.{◌≡◌, ◌<◌, ◌≤◌, ℕ, pos, ◌+ℤ◌, ◌≤ℤ◌, ◌<ℤ◌, true, IsTrue, length};
ghost use Rattle.rail_model.specs.Table.{trains, last, limit, share};
ghost use Rattle.order_sections.specs.Grids.{HasTrains, has_pair};
ghost use Rattle.order_sections.specs.Orders.{FitTwo, OthersHaveNone, member};

use crate::pairs::has_room;
use order_search::Grid;
use rail_model::{Table, last_of, share_at, trains_of};

// Whether a train has no share of a section.
fn has_no_share(table: &Table, train: u32, section: u32) -> bool
    requires train { train < trains table.now }
    requires section { section < length table.now.sections }
    ensures { IsTrue result → (a : ℕ) → a ≤ last table.now train → share table.now train section a ≡ pos 0 }
{
    for a in 0..=last_of(table, train) {
        if share_at(table, train, section, a) != 0 {
            return false;
        }
    }
    true
}

/// The train at a place of a chain.
pub(crate) fn member(chain: &[u32], m: usize) -> u32
    requires { m < length chain.now }
    ensures { result ≡ member chain.now m }
{
    chain[m]
}

// Whether a train is in a chain.
fn is_member(chain: &[u32], train: u32) -> bool
    ensures { IsTrue result → (m : ℕ) × (m < length chain.now) × (member chain.now m ≡ train) }
{
    for m in 0..chain.len() {
        if member(chain, m) == train {
            return true;
        }
    }
    false
}

/// Whether no train but those of a chain has a share of a section.
pub(crate) fn others_have_none(table: &Table, chain: &[u32], section: u32) -> bool
    requires section { section < length table.now.sections }
    ensures { IsTrue result → OthersHaveNone table.now chain.now section }
{
    for train in 0..trains_of(table) {
        if !is_member(chain, train) && !has_no_share(table, train, section) {
            return false;
        }
    }
    true
}

fn row_has_room(table: &Table, first: u32, second: u32, section: u32, grid: &Grid, a: u32) -> bool
    requires first { (first < trains table.now) × (a ≤ last table.now first) }
    requires second { second < trains table.now }
    requires section { section < length table.now.sections }
    ensures { IsTrue result → (b : ℕ) → b ≤ last table.now second → has_pair grid.now a b ≡ true
        → (share table.now first section a +ℤ share table.now second section b) ≤ℤ pos (limit table.now section) }
{
    for b in 0..=last_of(table, second) {
        if grid.has(a, b) && !has_room(table, first, second, a, b, section) {
            return false;
        }
    }
    true
}

// Whether a section has room at each pair of a set.
fn pairs_have_room(table: &Table, first: u32, second: u32, section: u32, grid: &Grid) -> bool
    requires trains { HasTrains table.now first second }
    requires section { section < length table.now.sections }
    ensures { IsTrue result → (a b : ℕ) → a ≤ last table.now first → b ≤ last table.now second → has_pair grid.now a b ≡ true
        → (share table.now first section a +ℤ share table.now second section b) ≤ℤ pos (limit table.now section) }
{
    for a in 0..=last_of(table, first) {
        if !row_has_room(table, first, second, section, grid, a) {
            return false;
        }
    }
    true
}

// Whether a train has no share of a section in any pair of a set with a place of another.
fn row_has_none(table: &Table, second: u32, section: u32, grid: &Grid, a: u32) -> bool
    requires second { second < trains table.now }
    requires section { section < length table.now.sections }
    ensures { IsTrue result → (b : ℕ) → b ≤ last table.now second → has_pair grid.now a b ≡ true
        → pos 0 <ℤ share table.now second section b → ⊥ }
{
    for b in 0..=last_of(table, second) {
        if grid.has(a, b) && share_at(table, second, section, b) > 0 {
            return false;
        }
    }
    true
}

// Whether in each pair of a set with a place of the first train one of two trains has no share of a section.
fn row_has_one(table: &Table, first: u32, second: u32, section: u32, grid: &Grid, a: u32) -> bool
    requires first { (first < trains table.now) × (a ≤ last table.now first) }
    requires second { second < trains table.now }
    requires section { section < length table.now.sections }
    ensures { IsTrue result → (b : ℕ) → b ≤ last table.now second → has_pair grid.now a b ≡ true
        → pos 0 <ℤ share table.now first section a → pos 0 <ℤ share table.now second section b → ⊥ }
{
    share_at(table, first, section, a) <= 0 || row_has_none(table, second, section, grid, a)
}

// Whether at each pair of a set one of two trains has no share of a section.
fn pairs_have_one(table: &Table, first: u32, second: u32, section: u32, grid: &Grid) -> bool
    requires trains { HasTrains table.now first second }
    requires section { section < length table.now.sections }
    ensures { IsTrue result → (a b : ℕ) → a ≤ last table.now first → b ≤ last table.now second → has_pair grid.now a b ≡ true
        → pos 0 <ℤ share table.now first section a → pos 0 <ℤ share table.now second section b → ⊥ }
{
    for a in 0..=last_of(table, first) {
        if !row_has_one(table, first, second, section, grid, a) {
            return false;
        }
    }
    true
}

/// Whether two trains of a chain fit into a section at each pair of a set.
pub(crate) fn two_fit(
    table: &Table,
    chain: &[u32],
    m: usize,
    n: usize,
    section: u32,
    grid: &Grid,
) -> bool
    requires chain { (m < n) × (n < length chain.now) }
    requires section { section < length table.now.sections }
    ensures { IsTrue result → FitTwo table.now chain.now section m n (has_pair grid.now) }
{
    let (first, second) = (member(chain, m), member(chain, n));
    first < trains_of(table)
        && second < trains_of(table)
        && pairs_have_room(table, first, second, section, grid)
        && (n - m == 1 || pairs_have_one(table, first, second, section, grid))
}
