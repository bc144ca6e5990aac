// Stands of trains on a crossing, and what is known of each two of them.
ghost use Rattle.std.specs.Prelude.{◌≡◌, ℕ, ◌+◌, ◌<◌, IfOk, OnOk, length, map, true};
ghost use Rattle.plan_crossings.specs.Crossings.{below};
ghost use Rattle.plan_crossings.specs.Stands as spec;
ghost use Rattle.plan_crossings.specs.Stands.{KnowAll, stand_at, is_known, meetings};

use crate::{Crossing, Route};
use clash_sections::{Clashes, Meeting};
use std::alloc::{AllocError, Global};
use std::marker::Model;

/// For each way of a crossing whether a train is on it.
#[derive(Drop)]
pub(crate) struct Stand {
    ways: Vec<bool>,
}

impl Model for Stand {
    ghost use Rattle.std.specs.Prelude.{List, Bool};

    ghost Value = { List Bool };

    ghost view = { λ s. s.ways.items };
}

impl Stand {
    /// The stand of a train at a place of its route.
    pub(crate) fn at(
        alloc: Global,
        crossing: &Crossing,
        route: &[usize],
        place: usize,
    ) -> Result<Stand, AllocError>
        ensures { IfOk result (λ stand. stand ≡ spec.stand_at crossing.now route.now place) }
    {
        let ways = crossing.ways();
        let ways = ways
            .iter()
            .map(|way| way.is_on(route, place))
            .collect(alloc)?;
        Ok(Stand { ways })
    }

    fn has(&self, way: usize) -> bool
        ensures { result ≡ spec.has self.now way }
    {
        self.ways.get(way).copied().unwrap_or(false)
    }

    pub(crate) fn is_same(&self, other: &Stand) -> bool
        ensures { result ≡ spec.same self.now other.now }
    {
        self.ways.as_slice() == other.ways.as_slice()
    }
}

// Whether two ways aren't parallel.
fn excludes(crossing: &Crossing, one: usize, other: usize) -> bool
    ensures { result ≡ spec.excludes crossing.now one other }
{
    !crossing.are_parallel(one, other)
}

fn excludes_some(crossing: &Crossing, other: &Stand, way: usize) -> bool
    ensures { result ≡ spec.excludes_some crossing.now other.now way }
{
    let ways = crossing.ways();
    (0..ways.len()).any(|another| other.has(another) && excludes(crossing, way, another))
}

// Whether trains on two stands exclude one another: they have ways that aren't parallel.
fn exclude(crossing: &Crossing, one: &Stand, other: &Stand) -> bool
    ensures { result ≡ spec.exclude crossing.now one.now other.now }
{
    let ways = crossing.ways();
    (0..ways.len()).any(|way| one.has(way) && excludes_some(crossing, other, way))
}

// Whether a way has one point alone between its ends, and another way has the same one.
fn has_point_of(crossing: &Crossing, one: usize, other: usize) -> bool
    ensures { result ≡ spec.has_point_of crossing.now one other }
{
    let point = crossing.inner(one);
    point.len() == 1 && point == crossing.inner(other)
}

fn has_point_of_some(crossing: &Crossing, other: &Stand, way: usize) -> bool
    ensures { result ≡ spec.has_point_of_some crossing.now other.now way }
{
    let ways = crossing.ways();
    (0..ways.len()).any(|another| other.has(another) && has_point_of(crossing, way, another))
}

// Whether the tracks keep trains on two stands apart: they have ways with one and the same point.
fn have_one_point(crossing: &Crossing, one: &Stand, other: &Stand) -> bool
    ensures { result ≡ spec.have_one_point crossing.now one.now other.now }
{
    let ways = crossing.ways();
    (0..ways.len()).any(|way| one.has(way) && has_point_of_some(crossing, other, way))
}

// What is known of trains on two stands.
fn meet(crossing: &Crossing, one: &Stand, other: &Stand) -> Meeting
    ensures { result ≡ spec.meet crossing.now one.now other.now }
{
    if have_one_point(crossing, one, other) || have_one_point(crossing, other, one) {
        Meeting::Never
    } else if exclude(crossing, one, other) || exclude(crossing, other, one) {
        Meeting::Clash
    } else {
        Meeting::Free
    }
}

// What is known of a stand with each up to it.
fn row(
    alloc: Global,
    crossing: &Crossing,
    stands: &[Stand],
    stand: usize,
) -> Result<Vec<Meeting>, AllocError>
    requires { stand < length stands.now }
    ensures { IfOk result (λ row. row.items ≡ map (spec.meeting_of crossing.now stands.now stand) (below (stand + 1))) }
{
    let mut found = Vec::new(alloc);
    for other in 0..stand + 1 {
        found.push(meet(crossing, &stands[other], &stands[stand]))?;
    }
    Ok(found)
}

/// What is known of each two of the stands.
pub(crate) fn clashes(
    alloc: Global,
    crossing: &Crossing,
    stands: &[Stand],
) -> Result<Clashes, AllocError>
    ensures { IfOk result (λ clashes. clashes ≡ meetings crossing.now stands.now) }
{
    let mut found = Clashes::new(alloc);
    for stand in 0..stands.len() {
        found.push(row(alloc, crossing, stands, stand)?)?;
    }
    Ok(found)
}

// Whether a stand is one of these.
fn is_known(stands: &[Stand], stand: &Stand) -> bool
    ensures { result ≡ spec.is_known stands.now stand.now }
{
    stands.iter().any(|known| stand.is_same(known))
}

// Adds a stand, unless it is known.
fn add_stand(stands: &mut Vec<Stand>, stand: Stand) -> Result<(), AllocError>
    ensures added { OnOk result (spec.is_known stands.new.items stand ≡ true) }
    ensures kept { OnOk result (spec.AreKept stands.old.items stands.new.items) }
{
    if !is_known(stands, &stand) {
        stands.push(stand)?;
    }
    Ok(())
}

// Adds the stands of a train.
fn add_stands(
    alloc: Global,
    crossing: &Crossing,
    route: &[usize],
    stands: &mut Vec<Stand>,
) -> Result<(), AllocError>
    ensures added { OnOk result (spec.KnowRoute crossing.now route.now stands.new.items) }
    ensures kept { OnOk result (spec.AreKept stands.old.items stands.new.items) }
{
    for place in 0..route.len() {
        add_stand(stands, Stand::at(alloc, crossing, route, place)?)?;
    }
    Ok(())
}

/// The stands of all trains.
pub(crate) fn stands(
    alloc: Global,
    crossing: &Crossing,
    routes: &[Route],
) -> Result<Vec<Stand>, AllocError>
    ensures { IfOk result (λ stands. KnowAll crossing.now routes.now stands.items) }
{
    let mut found = Vec::new(alloc);
    for route in routes {
        add_stands(alloc, crossing, route.points(), &mut found)?;
    }
    Ok(found)
}
