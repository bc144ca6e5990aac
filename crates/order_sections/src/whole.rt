// Whether a table keeps the staircases of orders whole.
ghost use Rattle.std.specs.Prelude.{◌≡◌, ◌<◌, ◌≤◌, ℕ, true, false, IsTrue, length};
ghost use Rattle.rail_model.specs.Table.{trains, last};
ghost use Rattle.order_sections.specs.Found.{order_at};
ghost use Rattle.order_sections.specs.Grids.{HasTrains, has_pair, pairs_of};
ghost use Rattle.order_sections.specs.Whole.{AreWhole, KeepsWhole, NeverComes, Overfills};

use crate::making::chains_in;
use crate::pairs::{has_room, table_in};
use order_search::{Chain, Grid, Order};
use rail_model::{Table, last_of, sections_of, trains_of};

// Whether a pair of the set has the first train at a place, and the second at one from `from` to `last`.
fn has_from(grid: &Grid, a: u32, from: u32, last: u32) -> bool
    ensures some { IsTrue result → (b : ℕ) × (from ≤ b) × (b ≤ last) × (has_pair grid.now a b ≡ true) }
    ensures none { result ≡ false → (b : ℕ) → from ≤ b → b ≤ last → has_pair grid.now a b ≡ true → ⊥ }
{
    for b in from..=last {
        if grid.has(a, b) {
            return true;
        }
    }
    false
}

// A place before which the first train is in no pair of the set.
fn first_place(grid: &Grid, last: u32, second_last: u32) -> u32
    ensures { (a : ℕ) → a < result → a ≤ last → (b : ℕ) → b ≤ second_last → has_pair grid.now a b ≡ true → ⊥ }
{
    for a in 0..=last {
        if has_from(grid, a, 0, second_last) {
            return a;
        }
    }
    u32::MAX
}

// The sections of a table behind its own, with their chains, and the number of an order.
#[derive(Clone, Copy)]
struct Added<'a> {
    own: u32,
    chains: &'a [Chain],
    order: usize,
}

impl<'a> Added<'a> {
    // Whether a section keeps the order.
    fn keeps(self, section: u32) -> bool {
        match self.chains.get(section.saturating_sub(self.own) as usize) {
            Some(chain) => chain.keeps(self.order),
            None => false,
        }
    }
}

// Whether two trains at these places alone pass the limit of a section that keeps their order.
fn overfills(new: &Table, first: u32, second: u32, added: Added<'_>, a: u32, b: u32) -> bool
    requires first { (first < trains new.now) × (a ≤ last new.now first) }
    requires second { (second < trains new.now) × (b ≤ last new.now second) }
    ensures { IsTrue result → Overfills new.now first second a b }
{
    for section in added.own..sections_of(new) {
        if added.keeps(section) && !has_room(new, first, second, a, b, section) {
            return true;
        }
    }
    false
}

// Whether some sections keep the train that leads from all places, from one on, at which the other is too far.
fn column_is_whole(
    new: &Table,
    first: u32,
    second: u32,
    grid: &Grid,
    added: Added<'_>,
    least: u32,
    b: u32,
) -> bool
    requires trains { HasTrains new.now first second }
    requires place { b ≤ last new.now second }
    ensures { IsTrue result → (a : ℕ) → least ≤ a → a ≤ last new.now first → NeverComes new.now second (has_pair grid.now) a b
        → Overfills new.now first second a b }
{
    for a in least..=last_of(new, first) {
        if has_from(grid, a, b, last_of(new, second)) {
            return true;
        }
        if !overfills(new, first, second, added, a, b) {
            return false;
        }
    }
    true
}

// Whether some sections keep the staircase of a set whole.
fn is_whole(new: &Table, first: u32, second: u32, grid: &Grid, added: Added<'_>) -> bool
    requires { HasTrains new.now first second }
    ensures { IsTrue result → KeepsWhole new.now first second (has_pair grid.now) }
{
    let least = first_place(grid, last_of(new, first), last_of(new, second));
    for b in 0..=last_of(new, second) {
        if !column_is_whole(new, first, second, grid, added, least, b) {
            return false;
        }
    }
    true
}

// Whether some sections keep an order whole in a table.
fn order_is_whole(new: &Table, order: &Order, table: usize, added: Added<'_>) -> bool
    ensures { IsTrue result → KeepsWhole new.now order.now.first order.now.second (pairs_of order.now.grids table) }
{
    let trains = trains_of(new);
    table < order.grids().len()
        && order.first() < trains
        && order.second() < trains
        && is_whole(
            new,
            order.first(),
            order.second(),
            &order.grids()[table],
            added,
        )
}

// Whether a table keeps all orders whole, each by those sections behind its own whose chains have it.
fn orders_are_whole(new: &Table, own: u32, chains: &[Chain], orders: &[Order], table: usize) -> bool
    ensures { IsTrue result → (k : ℕ) → k < length orders.now
        → KeepsWhole new.now (order_at orders.now k).first (order_at orders.now k).second (pairs_of (order_at orders.now k).grids table) }
{
    for k in 0..orders.len() {
        let added = Added {
            own,
            chains,
            order: k,
        };
        if !order_is_whole(new, &orders[k], table, added) {
            return false;
        }
    }
    true
}

/// Whether each table keeps all orders whole.
pub(crate) fn all_are_whole(
    tables: &[Table],
    new: &[Table],
    orders: &[Order],
    chains: &[Vec<Chain>],
) -> bool
    requires { length new.now ≡ length tables.now }
    ensures { IsTrue result → AreWhole (length tables.now) new.now orders.now }
{
    for t in 0..tables.len() {
        let own = sections_of(table_in(tables, t));
        if !orders_are_whole(table_in(new, t), own, chains_in(chains, t), orders, t) {
            return false;
        }
    }
    true
}
