// The core of a state: a smallest group of trains that wait for none but one another.
ghost use Rattle.std.specs.Prelude.{◌≡◌, ◌<◌, All, IfOk, length};
ghost use Rattle.rail_model.specs.Table.{IsTable, trains};
ghost use Rattle.rail_model.specs.State.{Legal};
ghost use Rattle.rail_model.specs.Checks.{ask};
ghost use Rattle.section_repair.specs.Core.{waits_for as waits_for_train, asks as asks_of, is_waited_for as is_waited_for_by, is_drawn_in as is_drawn_in_by, widened as widened_of, is_unfinished as is_unfinished_of, closure as closure_of, closures as closures_of, core as core_of};

use crate::groups::{Group, smallest};
use legal_state::can_move;
use rail_model::{Ask, State, Table, last_of, share_at, trains_of};
use std::alloc::{AllocError, Global};

// The answer to each train's request.
fn asks(alloc: Global, table: &Table, state: &State) -> Result<Vec<Ask>, AllocError>
    requires { Legal table.now state.now }
    ensures { IfOk result (λ asks. asks.items ≡ asks_of table.now state.now) }
{
    let mut asks = Vec::new(alloc);
    for train in 0..trains_of(table) {
        asks.push(can_move(table, state, train))?;
    }
    Ok(asks)
}

// Whether a train that gets this answer waits for another one.
fn waits_for(table: &Table, state: &State, train: u32, told: Ask, other: u32) -> bool
    requires formed { IsTable table.now }
    requires legal { Legal table.now state.now }
    requires train { train < trains table.now }
    requires other { other < trains table.now }
    requires told { told ≡ ask table.now state.now train }
    ensures { result ≡ waits_for_train table.now state.now train other }
{
    match told {
        Ask::Occupied { by } => other == by,
        Ask::Full { section, .. } => {
            other != train && share_at(table, other, section, state.place(other)) > 0
        }
        _ => false,
    }
}

// Whether a train of a group waits for a train.
fn is_waited_for(table: &Table, state: &State, asks: &[Ask], group: &Group, train: u32) -> bool
    requires formed { IsTable table.now }
    requires legal { Legal table.now state.now }
    requires asks { asks.now ≡ asks_of table.now state.now }
    requires group { All (λ i. i < trains table.now) group.now }
    requires train { train < trains table.now }
    ensures { result ≡ is_waited_for_by table.now state.now group.now train }
{
    for member in group.as_slice() {
        let told = asks[*member as usize];
        if waits_for(table, state, *member, told, train) {
            return true;
        }
    }
    false
}

// Whether a train is in a group, or a train of the group waits for it.
fn is_drawn_in(table: &Table, state: &State, asks: &[Ask], group: &Group, train: u32) -> bool
    requires formed { IsTable table.now }
    requires legal { Legal table.now state.now }
    requires asks { asks.now ≡ asks_of table.now state.now }
    requires group { All (λ i. i < trains table.now) group.now }
    requires train { train < trains table.now }
    ensures { result ≡ is_drawn_in_by table.now state.now group.now train }
{
    group.has(train) || is_waited_for(table, state, asks, group, train)
}

// A group with all that its trains wait for.
fn widened(
    alloc: Global,
    table: &Table,
    state: &State,
    asks: &[Ask],
    group: &Group,
) -> Result<Group, AllocError>
    requires legal { Legal table.now state.now }
    requires asks { asks.now ≡ asks_of table.now state.now }
    requires group { All (λ i. i < trains table.now) group.now }
    ensures { IfOk result (λ wider. wider ≡ widened_of table.now state.now group.now) }
{
    let mut members = Vec::new(alloc);
    for train in 0..trains_of(table) {
        if is_drawn_in(table, state, asks, group, train) {
            members.push(train)?;
        }
    }
    Ok(Group::from(members))
}

// The least group that holds a train and, with each member, all that it waits for. Each widening adds a member until
// none is wanting.
fn closure(
    alloc: Global,
    table: &Table,
    state: &State,
    asks: &[Ask],
    train: u32,
) -> Result<Group, AllocError>
    requires legal { Legal table.now state.now }
    requires asks { asks.now ≡ asks_of table.now state.now }
    requires train { train < trains table.now }
    ensures { IfOk result (λ group. group ≡ closure_of table.now state.now train) }
{
    let mut group = Group::from(vec![in alloc; train]?);
    for _turn in 0..trains_of(table) {
        let wider = widened(alloc, table, state, asks, &group)?;
        if wider.is_same(&group) {
            return Ok(group);
        }
        group = wider;
    }
    Ok(group)
}

// Whether a train isn't at its last place.
fn is_unfinished(table: &Table, state: &State, train: u32) -> bool
    requires legal { Legal table.now state.now }
    requires train { train < trains table.now }
    ensures { result ≡ is_unfinished_of table.now state.now train }
{
    state.place(train) != last_of(table, train)
}

// The closures of the unfinished trains.
fn closures(
    alloc: Global,
    table: &Table,
    state: &State,
    asks: &[Ask],
) -> Result<Vec<Group>, AllocError>
    requires legal { Legal table.now state.now }
    requires asks { asks.now ≡ asks_of table.now state.now }
    ensures { IfOk result (λ groups. groups.items ≡ closures_of table.now state.now) }
{
    let mut groups = Vec::new(alloc);
    for train in 0..trains_of(table) {
        if is_unfinished(table, state, train) {
            groups.push(closure(alloc, table, state, asks, train)?)?;
        }
    }
    Ok(groups)
}

/// The core: the first closure of an unfinished train that has the fewest members.
pub(crate) fn core(alloc: Global, table: &Table, state: &State) -> Result<Group, AllocError>
    requires { Legal table.now state.now }
    ensures { IfOk result (λ group. group ≡ core_of table.now state.now) }
{
    let asks = asks(alloc, table, state)?;
    let groups = closures(alloc, table, state, &asks)?;
    smallest(alloc, &groups)
}
