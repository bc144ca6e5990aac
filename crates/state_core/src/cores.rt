// Whether trains are a core of a state, and a small core of a stuck state.
ghost use Rattle.std.specs.Prelude.{◌≡◌, ◌<◌, ◌&&◌, IfOk, IsTrue, ◌↔◌};
ghost use Rattle.std.specs.List.{list_any};
ghost use Rattle.rail_model.specs.Table.{trains, last, place};
ghost use Rattle.rail_model.specs.State.{Legal};
ghost use Rattle.rail_model.specs.Move.{Stuck};
ghost use Rattle.rail_model.specs.Checks.{below};
ghost use Rattle.state_core.specs.Core.{has as has_train, is_unfinished as is_unfinished_of};
ghost use Rattle.state_core.specs.Core.{is_kept as is_kept_of, is_loose as is_loose_of};
ghost use Rattle.state_core.specs.Core.{is_core as is_core_of, IsCore};
ghost use Rattle.state_core.specs.Trap.{IsPlaced};

use crate::Group;
use crate::group::all_below;
use crate::keepers::keeper_of;
use rail_model::{State, Table, last_of, trains_of};
use std::alloc::{AllocError, Global};

// Whether a train isn't at its last place.
fn is_unfinished(table: &Table, state: &State, train: u32) -> bool
    requires placed { IsPlaced table.now state.now }
    requires train { train < trains table.now }
    ensures { result ≡ is_unfinished_of table.now state.now train }
{
    state.place(train) < last_of(table, train)
}

// Whether the group keeps a train where it is.
pub(crate) fn is_kept(table: &Table, state: &State, group: &Group, train: u32) -> bool
    requires placed { IsPlaced table.now state.now }
    requires train { train < trains table.now }
    requires unfinished { place state.now train < last table.now train }
    ensures { result ≡ is_kept_of table.now state.now group.now train }
{
    keeper_of(table, state, group, train).is_some()
}

// Whether a train is one of the group that the group doesn't keep where it is.
pub(crate) fn is_loose(table: &Table, state: &State, group: &Group, train: u32) -> bool
    requires placed { IsPlaced table.now state.now }
    requires train { train < trains table.now }
    ensures { result ≡ is_loose_of table.now state.now group.now train }
{
    group.has(train) && is_unfinished(table, state, train) && !is_kept(table, state, group, train)
}

// Whether some train of the group is loose.
fn has_loose(table: &Table, state: &State, group: &Group) -> bool
    requires placed { IsPlaced table.now state.now }
    ensures { result ≡ list_any (is_loose_of table.now state.now group.now) (below (trains table.now)) }
{
    for train in 0..trains_of(table) {
        if is_loose(table, state, group, train) {
            return true;
        }
    }
    false
}

// Whether some train of the group hasn't arrived.
pub(crate) fn has_unfinished(table: &Table, state: &State, group: &Group) -> bool
    requires placed { IsPlaced table.now state.now }
    ensures { result ≡ list_any (λ i. has_train group.now i && is_unfinished_of table.now state.now i)
        (below (trains table.now)) }
{
    for train in 0..trains_of(table) {
        if group.has(train) && is_unfinished(table, state, train) {
            return true;
        }
    }
    false
}

// Whether the group passes the test of a core.
fn passes(table: &Table, state: &State, group: &Group) -> bool
    requires { IsPlaced table.now state.now }
    ensures { result ≡ is_core_of table.now state.now group.now }
{
    has_unfinished(table, state, group) && !has_loose(table, state, group)
}

/// Whether the group is a core of a legal state: one of its trains hasn't arrived, and each of those is kept where it
/// is by trains of the group alone, at its next point, in a section that rises there, or by a connection.
pub fn is_core(table: &Table, state: &State, group: &Group) -> bool
    requires { Legal table.now state.now }
    ensures { IsTrue result ↔ IsCore table.now state.now group.now }
{
    passes(table, state, group)
}

/// A core of a stuck state. It begins with all trains, and drops each in turn if the others are a core without it.
///
/// The only error is that there is no memory.
pub fn small_core(alloc: Global, table: &Table, state: &State) -> Result<Group, AllocError>
    requires { Stuck table.now state.now }
    ensures { IfOk result (IsCore table.now state.now) }
{
    let count = trains_of(table);
    let mut group = all_below(alloc, count)?;
    for train in 0..count {
        let rest = group.without(alloc, train)?;
        if is_core(table, state, &rest) {
            group = rest;
        }
    }
    Ok(group)
}
