// When a table is due, and whether it may take over.
ghost use Rattle.std.specs.Prelude.{◌≡◌, ◌≤◌, ◌⊎◌, ◌↔◌, ℕ, ◌<◌, pos, length, IsTrue, MatchOption};
ghost use Rattle.rail_model.specs.Table.{IsTable, trains, last, place, count as count_in};
ghost use Rattle.rail_model.specs.State.{Legal, Arrived};
ghost use Rattle.rail_model.specs.Move.{IsOver, IsFirst, IsFirstOrNone};
ghost use Rattle.rail_model.specs.Exchange.{DiffersAt, Agrees, Admits, IsDue};
ghost use Rattle.table_exchange.specs.Admitted.{told, IsDifference};
ghost use Rattle.table_exchange.specs.Arrivals.{IsUnfinished};

use legal_state::count_of;
use rail_model::{State, Table, last_of, limit_of, point_of, sections_of, trains_of};

/// Why a table that is due is kept out: the first cause, in this order.
#[derive(Clone, Copy, Debug, PartialEq, Eq)]
pub enum NotNow {
    /// The train is the first that has passed a place at which the tables differ, and the place its first such one.
    Differs { train: u32, place: u32 },
    /// The section is the new table's first whose count passes its limit.
    Over { section: u32, count: u32 },
}

/// Whether a table is due: at least `after` moves were made, or all trains have arrived.
pub fn due(moves: u32, after: u32, all_arrived: bool) -> bool
    ensures { IsTrue result ↔ ((after ≤ moves) ⊎ IsTrue all_arrived) }
{
    after <= moves || all_arrived
}

/// Whether a table that is offered after `after` moves is due at a state of the table in force. The trains are looked at only where too
/// few moves were made.
pub fn is_due(table: &Table, state: &State, moves: u32, after: u32) -> bool
    requires { length state.now ≡ trains table.now }
    ensures { IsTrue result ↔ IsDue table.now state.now moves after }
{
    due(moves, after, false) || all_arrived(table, state)
}

/// The first train that hasn't arrived.
pub fn first_unfinished(table: &Table, state: &State) -> Option<u32>
    requires { length state.now ≡ trains table.now }
    ensures { IsFirstOrNone (IsUnfinished table.now state.now) result }
{
    for train in 0..trains_of(table) {
        if state.place(train) != last_of(table, train) {
            return Some(train);
        }
    }
    None
}

/// Whether every train is at its last place.
pub fn all_arrived(table: &Table, state: &State) -> bool
    requires { length state.now ≡ trains table.now }
    ensures { IsTrue result ↔ Arrived table.now state.now }
{
    first_unfinished(table, state).is_none()
}

// Whether the new table has no such place for the train, or another point there.
fn differs(old: &Table, new: &Table, state: &State, train: u32, at: u32) -> bool
    requires same { trains new.now ≡ trains old.now }
    requires train { train < trains old.now }
    requires passed { at ≤ place state.now train }
    ensures { IsTrue result ↔ DiffersAt old.now new.now state.now train at }
{
    last_of(new, train) < at || point_of(new, train, at) != point_of(old, train, at)
}

// The first place up to the train's own at which the tables differ.
fn first_other(old: &Table, new: &Table, state: &State, train: u32) -> Option<u32>
    requires same { trains new.now ≡ trains old.now }
    requires legal { Legal old.now state.now }
    requires train { train < trains old.now }
    ensures { IsFirstOrNone (DiffersAt old.now new.now state.now train) result }
{
    for place in 0..=state.place(train) {
        if differs(old, new, state, train, place) {
            return Some(place);
        }
    }
    None
}

// The first train that has passed a place at which the tables differ, with its first such place.
fn first_difference(old: &Table, new: &Table, state: &State) -> Option<(u32, u32)>
    requires same { trains new.now ≡ trains old.now }
    requires legal { Legal old.now state.now }
    ensures { MatchOption result (Agrees old.now new.now state.now) (λ found. IsDifference old.now new.now state.now found.0 found.1) }
{
    for train in 0..trains_of(old) {
        if let Some(place) = first_other(old, new, state, train) {
            return Some((train, place));
        }
    }
    None
}

// The first section of a table whose count passes its limit, with its count.
fn first_over(table: &Table, state: &State) -> Option<(u32, u32)>
    requires size { length state.now ≡ trains table.now }
    requires in_range { (i : ℕ) → i < trains table.now → place state.now i ≤ last table.now i }
    ensures { MatchOption result ((s : ℕ) → IsOver table.now state.now s → ⊥)
        (λ found. IsFirst (IsOver table.now state.now) found.0 × (count_in table.now found.0 state.now ≡ pos found.1)) }
{
    for section in 0..sections_of(table) {
        let count = count_of(table, state, section);
        if limit_of(table, section) < count {
            return Some((section, count));
        }
    }
    None
}

/// Whether a new table may take over from the old one at a state that is legal for the old one.
///
/// # Errors
///
/// `Differs` with the least train, and its least place up to its position, where the new table has another point or
/// no place; else `Over` with the new table's least section whose count passes its limit.
pub fn admit(old: &Table, new: &Table, state: &State) -> Result<(), NotNow>
    requires same { trains new.now ≡ trains old.now }
    requires legal { Legal old.now state.now }
    ensures { Admits old.now new.now state.now (told result) }
{
    if let Some((train, place)) = first_difference(old, new, state) {
        return Err(NotNow::Differs { train, place });
    }
    match first_over(new, state) {
        Some((section, count)) => Err(NotNow::Over { section, count }),
        None => Ok(()),
    }
}
