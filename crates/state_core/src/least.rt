// A least core within a group of trains.
ghost use Rattle.std.specs.Prelude.{◌≡◌, ◌<◌, ℕ, List, false, true, IfOk, MatchOption};
ghost use Rattle.std.specs.List.{list_any};
ghost use Rattle.rail_model.specs.Table.{IsTable, trains};
ghost use Rattle.rail_model.specs.State.{Legal};
ghost use Rattle.rail_model.specs.Checks.{below};
ghost use Rattle.state_core.specs.Core.{is_loose as is_loose_of, IsCore};
ghost use Rattle.state_core.specs.Least.{IsWithin, HasNoCore, IsGreatestCore, IsLeastCore, IsNeeded};
ghost use Rattle.state_core.specs.Trap.{IsPlaced};

use crate::Group;
use crate::cores::{has_unfinished, is_loose};
use rail_model::{State, Table, trains_of};
use std::alloc::{AllocError, Global};

// The first train of the group that the group doesn't keep where it is.
fn first_loose(table: &Table, state: &State, group: &Group) -> Option<u32>
    requires { IsPlaced table.now state.now }
    ensures { MatchOption result
        (list_any (is_loose_of table.now state.now group.now) (below (trains table.now)) ≡ false)
        (λ train. is_loose_of table.now state.now group.now train ≡ true) }
{
    for train in 0..trains_of(table) {
        if is_loose(table, state, group, train) {
            return Some(train);
        }
    }
    None
}

// What is left of a group when trains that it doesn't keep are dropped, one after another.
fn kept_part(
    alloc: Global,
    table: &Table,
    state: &State,
    mut group: Group,
) -> Result<Group, AllocError>
    requires formed { IsTable table.now }
    requires placed { IsPlaced table.now state.now }
    ensures kept { IfOk result (λ part. list_any (is_loose_of table.now state.now part) (below (trains table.now)) ≡ false) }
    ensures inside { IfOk result (λ part. IsWithin table.now part group) }
    ensures cores { IfOk result (λ part. (core : List ℕ) → IsCore table.now state.now core →
        IsWithin table.now core group → IsWithin table.now core part) }
{
    while let Some(train) = first_loose(table, state, &group) {
        group = group.without(alloc, train)?;
    }
    Ok(group)
}

// The greatest core within a group, if there is one.
fn greatest_core(
    alloc: Global,
    table: &Table,
    state: &State,
    group: Group,
) -> Result<Option<Group>, AllocError>
    requires formed { IsTable table.now }
    requires placed { IsPlaced table.now state.now }
    ensures { IfOk result (λ found. MatchOption found
        (HasNoCore table.now state.now group)
        (λ core. IsGreatestCore table.now state.now group core)) }
{
    let part = kept_part(alloc, table, state, group)?;
    if has_unfinished(table, state, &part) {
        Ok(Some(part))
    } else {
        Ok(None)
    }
}

// A core within a core that does without the train; or the same one, if each has it.
fn spared(
    alloc: Global,
    table: &Table,
    state: &State,
    core: Group,
    train: u32,
) -> Result<Group, AllocError>
    requires formed { IsTable table.now }
    requires placed { IsPlaced table.now state.now }
    requires core { IsCore table.now state.now core }
    requires train { train < trains table.now }
    ensures core { IfOk result (IsCore table.now state.now) }
    ensures inside { IfOk result (λ left. IsWithin table.now left core) }
    ensures needed { IfOk result (λ left. IsNeeded table.now state.now left train) }
{
    let rest = core.without(alloc, train)?;
    match greatest_core(alloc, table, state, rest)? {
        Some(left) => Ok(left),
        None => Ok(core),
    }
}

// A least core within a core: each train in turn is dropped if it can be.
fn reduced(
    alloc: Global,
    table: &Table,
    state: &State,
    mut core: Group,
) -> Result<Group, AllocError>
    requires placed { IsPlaced table.now state.now }
    requires core { IsCore table.now state.now core }
    ensures least { IfOk result (IsLeastCore table.now state.now) }
    ensures inside { IfOk result (λ left. IsWithin table.now left core) }
{
    for train in 0..trains_of(table) {
        core = spared(alloc, table, state, core, train)?;
    }
    Ok(core)
}

/// A least core within a group of trains of a legal state; none exactly if no core is within it.
///
/// The only error is that there is no memory.
pub fn least_core(
    alloc: Global,
    table: &Table,
    state: &State,
    group: Group,
) -> Result<Option<Group>, AllocError>
    requires { Legal table.now state.now }
    ensures { IfOk result (λ found. MatchOption found
        (HasNoCore table.now state.now group)
        (λ core. IsLeastCore table.now state.now core × IsWithin table.now core group)) }
{
    let _trains = trains_of(table);
    match greatest_core(alloc, table, state, group)? {
        Some(core) => Ok(Some(reduced(alloc, table, state, core)?)),
        None => Ok(None),
    }
}
