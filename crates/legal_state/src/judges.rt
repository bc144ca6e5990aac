// Legal states, and the first cause why a state is not one.
ghost use Rattle.std.specs.Prelude.{◌≡◌, ℕ, ◌<◌, ◌≤◌, length, OnOk, IfErr, IsTrue, ◌↔◌};
ghost use Rattle.rail_model.specs.Table.{IsTable, trains, last, point, place};
ghost use Rattle.rail_model.specs.State.{Legal, StandsAt};
ghost use Rattle.rail_model.specs.Move.{IsOver, IsFirstOrNone};
ghost use Rattle.legal_state.specs.Causes.{IsInRange, SharesPoint, HasPair};
ghost use Rattle.legal_state.specs.Illegal.{IsIllegal};

use crate::count_of;
use rail_model::{State, Table, has_point, last_of, limit_of, point_of, sections_of, trains_of};

/// Why a state is not legal: the first cause, in this order.
#[derive(Clone, Copy, Debug, PartialEq, Eq)]
pub enum Illegal {
    /// There are `count` positions, not one for each train.
    Length {
        count: usize,
    },
    /// The train is the first past its last place.
    Range {
        train: u32,
    },
    /// The two trains, `first` below `second`, are the first pair at one point.
    Clash {
        first: u32,
        second: u32,
        point: u32,
    },
    /// The section is the first whose count passes its limit.
    Over {
        section: u32,
        count: u32,
        limit: u32,
    },
}

// Refuses the first train past its last place.
fn check_range(table: &Table, state: &State) -> Result<(), Illegal>
    requires { length state.now ≡ trains table.now }
    ensures in_range { OnOk result (IsInRange table.now state.now) }
    ensures illegal { IfErr result (IsIllegal table.now state.now) }
{
    for train in 0..trains_of(table) {
        if last_of(table, train) < state.place(train) {
            return Err(Illegal::Range { train });
        }
    }
    Ok(())
}

// Whether a train stands at a point.
fn stands_at(table: &Table, state: &State, train: u32, point: u32) -> bool
    requires size { length state.now ≡ trains table.now }
    requires train { train < trains table.now }
    ensures { IsTrue result ↔ StandsAt table.now state.now train point }
{
    has_point(table, train, state.place(train), point)
}

// The first later train at the point of a train.
fn partner(table: &Table, state: &State, train: u32, point: u32) -> Option<u32>
    requires size { length state.now ≡ trains table.now }
    requires there { StandsAt table.now state.now train point }
    ensures { IsFirstOrNone (SharesPoint table.now state.now train) result }
{
    for other in 0..trains_of(table) {
        if train < other && stands_at(table, state, other, point) {
            return Some(other);
        }
    }
    None
}

// Refuses the first two trains at one point.
fn check_points(table: &Table, state: &State) -> Result<(), Illegal>
    requires size { length state.now ≡ trains table.now }
    requires in_range { IsInRange table.now state.now }
    ensures apart { OnOk result ((i : ℕ) → HasPair table.now state.now i → ⊥) }
    ensures illegal { IfErr result (IsIllegal table.now state.now) }
{
    for first in 0..trains_of(table) {
        if let Some(point) = point_of(table, first, state.place(first)) {
            if let Some(second) = partner(table, state, first, point) {
                return Err(Illegal::Clash {
                    first,
                    second,
                    point,
                });
            }
        }
    }
    Ok(())
}

// Refuses the first section whose count passes its limit.
fn check_counts(table: &Table, state: &State) -> Result<(), Illegal>
    requires size { length state.now ≡ trains table.now }
    requires in_range { IsInRange table.now state.now }
    requires apart { (i : ℕ) → HasPair table.now state.now i → ⊥ }
    ensures within { OnOk result ((s : ℕ) → IsOver table.now state.now s → ⊥) }
    ensures illegal { IfErr result (IsIllegal table.now state.now) }
{
    for section in 0..sections_of(table) {
        let count = count_of(table, state, section);
        let limit = limit_of(table, section);
        if limit < count {
            return Err(Illegal::Over {
                section,
                count,
                limit,
            });
        }
    }
    Ok(())
}

/// Whether a state is legal: one position per train, each in range, no two trains at one point, no count above
/// its limit.
///
/// # Errors
///
/// The first cause why not, in the order of [`Illegal`].
pub fn judge(table: &Table, state: &State) -> Result<(), Illegal>
    ensures legal { OnOk result (Legal table.now state.now) }
    ensures illegal { IfErr result (IsIllegal table.now state.now) }
{
    let count = state.len();
    if count != trains_of(table) as usize {
        return Err(Illegal::Length { count });
    }
    check_range(table, state)?;
    check_points(table, state)?;
    check_counts(table, state)
}
