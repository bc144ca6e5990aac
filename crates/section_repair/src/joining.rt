// Sections of stays: of a core, and of two sections that join on.
ghost use Rattle.std.specs.Prelude.{◌≡◌, ◌<◌, All, IfOk, length};
ghost use Rattle.std.specs.List.{position_from};
ghost use Rattle.section_repair.specs.Joining.{stays_of as stays_of_trains, is_same_train as is_same_train_of, is_same_range as is_same_range_of, adjoins as adjoins_on, are_alike as are_alike_of, are_same_trains as are_same_trains_of, differences as differences_of, are_without_gap as are_without_gap_of, joins as joins_on, hull as hull_of, union as union_of, settled as settled_of};

use crate::groups::Group;
use forbidden_states::{Stay, Stays};
use rail_model::State;
use state_boxes::Span;
use std::alloc::{AllocError, Global};

/// The trains of a group, each at its place alone.
pub(crate) fn stays_of(alloc: Global, state: &State, group: &Group) -> Result<Stays, AllocError>
    requires { All (λ i. i < length state.now) group.now }
    ensures { IfOk result (λ stays. stays ≡ stays_of_trains state.now group.now) }
{
    let mut stays = Vec::new(alloc);
    for train in group.as_slice() {
        let place = state.place(*train);
        stays.push(Stay::new(*train, Span::new(place, place)))?;
    }
    Ok(Stays::from(stays))
}

// Whether both stays are of one train.
fn is_same_train(a: Stay, b: Stay) -> bool
    ensures { result ≡ is_same_train_of a b }
{
    a.train() == b.train()
}

// Whether both stays have the same places.
fn is_same_range(a: Stay, b: Stay) -> bool
    ensures { result ≡ is_same_range_of a b }
{
    a.span().lo() == b.span().lo() && a.span().hi() == b.span().hi()
}

// Whether the places of one stay begin directly after those of the other.
fn adjoins(a: Stay, b: Stay) -> bool
    ensures { result ≡ adjoins_on a b }
{
    u64::from(a.span().hi()) + 1 == u64::from(b.span().lo())
        || u64::from(b.span().hi()) + 1 == u64::from(a.span().lo())
}

// Whether each stay is of the same train as the one beside it.
fn are_alike(a: &[Stay], b: &[Stay]) -> bool
    ensures { result ≡ are_alike_of a.now b.now }
{
    a.iter().zip(b).all(|(x, y)| is_same_train(*x, *y))
}

// Whether two sections are of the same trains.
fn are_same_trains(a: &[Stay], b: &[Stay]) -> bool
    ensures { result ≡ are_same_trains_of a.now b.now }
{
    a.len() == b.len() && are_alike(a, b)
}

// How many trains have other places in one section than in the other.
fn differences(a: &[Stay], b: &[Stay]) -> usize
    ensures { result ≡ differences_of a.now b.now }
{
    let differing = a.iter().zip(b).filter(|(x, y)| !is_same_range(**x, **y));
    differing.count()
}

// Whether each train's places are the same or join on without a gap.
fn are_without_gap(a: &[Stay], b: &[Stay]) -> bool
    ensures { result ≡ are_without_gap_of a.now b.now }
{
    a.iter()
        .zip(b)
        .all(|(x, y)| is_same_range(*x, *y) || adjoins(*x, *y))
}

// Whether two sections have the same trains, and the same places but for one, and that one's join on without a gap.
fn joins(a: &[Stay], b: &[Stay]) -> bool
    ensures { result ≡ joins_on a.now b.now }
{
    are_same_trains(a, b) && differences(a, b) == 1 && are_without_gap(a, b)
}

// The places from the first of both to the last of both.
fn hull(a: Stay, b: Stay) -> Stay
    ensures { result ≡ hull_of a b }
{
    let lo = a.span().lo().min(b.span().lo());
    let hi = a.span().hi().max(b.span().hi());
    Stay::new(a.train(), Span::new(lo, hi))
}

// For each train of two sections the places from the first of both to the last of both.
fn hulls(alloc: Global, a: &[Stay], b: &[Stay]) -> Result<Vec<Stay>, AllocError>
    ensures { IfOk result (λ stays. stays.items ≡ union_of a.now b.now) }
{
    a.iter().zip(b).map(|(x, y)| hull(*x, *y)).collect(alloc)
}

// One section for two that join on.
fn union(alloc: Global, a: &[Stay], b: &[Stay]) -> Result<Stays, AllocError>
    ensures { IfOk result (λ stays. stays ≡ union_of a.now b.now) }
{
    Ok(Stays::from(hulls(alloc, a, b)?))
}

// The first section that the last one joins.
fn partner(others: &[Stays], last: &Stays) -> Option<usize>
    ensures { result ≡ position_from (λ a. joins_on a last.now) 0 others.now }
{
    others
        .iter()
        .position(|other| joins(other.as_slice(), last.as_slice()))
}

/// The sections with one more, which joins with the first that it can, again and again.
pub(crate) fn settled(
    alloc: Global,
    others: Vec<Stays>,
    last: Stays,
) -> Result<Vec<Stays>, AllocError>
    ensures { IfOk result (λ sections. sections.items ≡ settled_of others.items last) }
{
    let mut sections = others;
    let mut last = last;
    while let Some(index) = partner(&sections, &last) {
        let other = sections.remove(index);
        last = union(alloc, other.as_slice(), last.as_slice())?;
    }
    sections.push(last)?;
    Ok(sections)
}
