// Whether stays are a trap: ranges of places that some trains never leave.
ghost use Rattle.std.specs.Prelude.{◌≡◌, ◌<◌, IfOk, IsTrue, length, slice_set};
ghost use Rattle.rail_model.specs.Table.{trains};
ghost use Rattle.forbidden_states.specs.Forbid as model;
ghost use Rattle.forbidden_states.specs.Forbid.{AreStays, stay_of as stay_of_train};
ghost use Rattle.state_core.specs.Core.{has as has_train};
ghost use Rattle.state_core.specs.Guard.{IsGuard};
ghost use Rattle.state_core.specs.Trap.{IsPlaced, IsAmong, EndsEarly, IsKeptAtEnd, IsTrap, Meet, IsCrowded, IsOverWithin, Holds};
ghost use Rattle.state_core.specs.Trap.{EachCombination, group_of as trains_of_stays};

use crate::Group;
use crate::cores::is_kept;
use crate::keepers::count_within;
use forbidden_states::Stay;
use rail_model::{State, Table, has_point, last_of, limit_of, point_of, sections_of, trains_of};
use std::alloc::{AllocError, Global};

// The most combinations of places that are looked at.
const MOST_COMBINATIONS: u32 = 10_000;

// The trains of stays.
fn group_of(alloc: Global, stays: &[Stay]) -> Result<Group, AllocError>
    ensures { IfOk result (λ group. group ≡ trains_of_stays stays.now) }
{
    let trains: Vec<u32> = stays.iter().map(|stay| stay.train()).collect(alloc)?;
    Ok(Group::from(trains))
}

// The first stay of a train.
fn stay_of(stays: &[Stay], train: u32) -> Option<Stay>
    ensures { result ≡ stay_of_train stays.now train }
{
    stays.iter().copied().find(|stay| stay.train() == train)
}

// Whether these are stays of different trains, none of which is empty.
fn are_stays(stays: &[Stay], count: u32) -> bool
    ensures { IsTrue result → AreStays count stays.now }
{
    let [stay, later @ ..] = stays else {
        return true;
    };
    let train = stay.train();
    let span = stay.span();
    if train >= count || span.lo() > span.hi() {
        return false;
    }
    if let Some(_) = stay_of(later, train) {
        return false;
    }
    are_stays(later, count)
}

// Whether a stay ends before its train's last place.
fn ends_early(table: &Table, stay: Stay) -> bool
    ensures { IsTrue result → EndsEarly table.now stay }
{
    stay.train() < trains_of(table) && stay.span().hi() < last_of(table, stay.train())
}

// Whether some stay does.
fn one_ends_early(table: &Table, stays: &[Stay]) -> bool
    ensures { IsTrue result → (s : model.Stay) × IsAmong stays.now s × EndsEarly table.now s }
{
    match stays {
        [] => false,
        [stay, later @ ..] => ends_early(table, *stay) || one_ends_early(table, later),
    }
}

// Whether two trains stand at one point.
fn meet(table: &Table, state: &State, train: u32, other: u32) -> bool
    requires placed { IsPlaced table.now state.now }
    requires train { train < trains table.now }
    requires other { other < trains table.now }
    ensures { IsTrue result → Meet table.now state.now train other }
{
    match point_of(table, train, state.place(train)) {
        Some(point) => has_point(table, other, state.place(other), point),
        None => false,
    }
}

// Whether an earlier train of the group stands where this one does.
fn meets_earlier(table: &Table, state: &State, group: &Group, train: u32) -> bool
    requires placed { IsPlaced table.now state.now }
    requires train { train < trains table.now }
    requires member { IsTrue (has_train group.now train) }
    ensures { IsTrue result → IsCrowded table.now state.now group.now }
{
    for other in 0..train {
        if group.has(other) && meet(table, state, train, other) {
            return true;
        }
    }
    false
}

// Whether two trains of the group stand at one point.
fn is_crowded(table: &Table, state: &State, group: &Group) -> bool
    requires placed { IsPlaced table.now state.now }
    ensures { IsTrue result → IsCrowded table.now state.now group.now }
{
    for train in 0..trains_of(table) {
        if group.has(train) && meets_earlier(table, state, group, train) {
            return true;
        }
    }
    false
}

// Whether a section permits fewer than the group's shares.
fn is_over(table: &Table, state: &State, group: &Group) -> bool
    requires placed { IsPlaced table.now state.now }
    ensures { IsTrue result → IsOverWithin table.now state.now group.now }
{
    for section in 0..sections_of(table) {
        let limit = limit_of(table, section) as i32;
        if limit < count_within(table, state, group, section) {
            return true;
        }
    }
    false
}

// Whether the group keeps a train that is at the end of an early stay.
fn is_kept_at_end(table: &Table, state: &State, group: &Group, stay: Stay) -> bool
    requires placed { IsPlaced table.now state.now }
    requires train { stay.train < trains table.now }
    ensures { IsTrue result → IsKeptAtEnd table.now state.now group.now stay }
{
    let train = stay.train();
    state.place(train) != stay.span().hi()
        || last_of(table, train) <= stay.span().hi()
        || is_kept(table, state, group, train)
}

// Whether the group keeps each train that is at the end of one of these stays.
fn keeps_ends(table: &Table, state: &State, group: &Group, stays: &[Stay]) -> bool
    requires placed { IsPlaced table.now state.now }
    ensures { IsTrue result → (s : model.Stay) → IsAmong stays.now s → IsKeptAtEnd table.now state.now group.now s }
{
    let [stay, later @ ..] = stays else {
        return true;
    };
    if stay.train() >= trains_of(table) {
        return false;
    }
    if !is_kept_at_end(table, state, group, *stay) {
        return false;
    }
    keeps_ends(table, state, group, later)
}

// Whether trains can't be where they are, or are kept at the ends of their stays.
fn holds(table: &Table, state: &State, group: &Group, stays: &[Stay]) -> bool
    requires placed { IsPlaced table.now state.now }
    requires group { group.now ≡ trains_of_stays stays.now }
    ensures { IsTrue result → Holds table.now stays.now state.now }
{
    if keeps_ends(table, state, group, stays) {
        return true;
    }
    if is_crowded(table, state, group) {
        return true;
    }
    is_over(table, state, group)
}

// The same positions with a train at another place.
fn placed(alloc: Global, state: &State, train: u32, place: u32) -> Result<State, AllocError>
    requires { train < length state.now }
    ensures { IfOk result (λ next. next ≡ slice_set state.now train place) }
{
    let mut next = state.copy(alloc)?;
    next.set(train, place);
    Ok(next)
}

// Whether it is so of each combination of places in the stays that are left, with all other trains where they are.
fn each_holds(
    alloc: Global,
    table: &Table,
    stays: &[Stay],
    group: &Group,
    left: &[Stay],
    state: &State,
) -> Result<bool, AllocError>
    requires placed { IsPlaced table.now state.now }
    requires group { group.now ≡ trains_of_stays stays.now }
    ensures { IfOk result (λ all. IsTrue all → EachCombination (Holds table.now stays.now) left.now state.now) }
{
    let [stay, later @ ..] = left else {
        return Ok(holds(table, state, group, stays));
    };
    let train = stay.train();
    if trains_of(table) <= train || last_of(table, train) < stay.span().hi() {
        return Ok(false);
    }
    for place in stay.span().lo()..stay.span().hi() + 1 {
        let next = placed(alloc, state, train, place)?;
        let is_so = each_holds(alloc, table, stays, group, later, &next)?;
        if !is_so {
            return Ok(false);
        }
    }
    Ok(true)
}

// How many combinations of places there are, up to 2 ^ 32 - 1.
fn combinations(stays: &[Stay]) -> u32 {
    let mut count: u32 = 1;
    for stay in stays {
        let places = stay
            .span()
            .hi()
            .saturating_sub(stay.span().lo())
            .saturating_add(1);
        count = count.saturating_mul(places);
    }
    count
}

// All trains at their first places.
fn start(alloc: Global, table: &Table) -> Result<State, AllocError>
    ensures { IfOk result (IsPlaced table.now) }
{
    let positions = vec![in alloc; 0; trains_of(table) as usize]?;
    Ok(State::from(positions))
}

/// Whether the stays are a trap of the table, and so a guard: some of them ends before its train's last place, and from
/// no state with all their trains in them one of these can go on beyond its end. Stays with more than 10,000
/// combinations of places aren't looked at: then it is false.
///
/// The only error is that there is no memory.
pub fn is_trap(alloc: Global, table: &Table, stays: &[Stay]) -> Result<bool, AllocError>
    ensures trap { IfOk result (λ found. IsTrue found → IsTrap table.now stays.now) }
    ensures guard { IfOk result (λ found. IsTrue found → IsGuard table.now stays.now) }
{
    let count = trains_of(table);
    if combinations(stays) > MOST_COMBINATIONS || !are_stays(stays, count) {
        return Ok(false);
    }
    if !one_ends_early(table, stays) {
        return Ok(false);
    }
    let group = group_of(alloc, stays)?;
    let state = start(alloc, table)?;
    let is_so = each_holds(alloc, table, stays, &group, stays, &state)?;
    Ok(is_so)
}
