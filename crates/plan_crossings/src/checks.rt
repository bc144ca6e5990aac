// What is wrong with a crossing: the first of each kind.
ghost use Rattle.std.specs.Prelude.{◌≡◌, ◌<◌, length};
ghost use Rattle.plan_crossings.specs.Crossings.{inner};
ghost use Rattle.plan_crossings.specs.Faults as spec;
ghost use Rattle.plan_crossings.specs.States.{points_of};

use crate::{Crossing, Fault, Route, Way};

// The first way that has no point between its ends.
fn first_bare(crossing: &Crossing) -> Option<usize>
    ensures { result ≡ spec.first_bare crossing.now }
{
    let ways = crossing.ways();
    ways.iter().position(|way| way.inner().is_empty())
}

fn no_inner(crossing: &Crossing) -> Option<Fault>
    ensures { result ≡ spec.no_inner crossing.now }
{
    match first_bare(crossing) {
        Some(way) => Some(Fault::NoInner { way }),
        None => None,
    }
}

// Whether two lists have a point in common.
fn have_common(one: &[usize], other: &[usize]) -> bool
    ensures { result ≡ spec.have_common one.now other.now }
{
    one.iter().any(|point| other.contains(point))
}

// Whether two ways are parallel and have a point between their ends in common.
fn is_crossed(crossing: &Crossing, one: usize, other: usize) -> bool
    ensures { result ≡ spec.is_crossed crossing.now one other }
{
    crossing.are_parallel(one, other) && have_common(crossing.inner(one), crossing.inner(other))
}

// The first way that is parallel to a way and has such a point in common with it.
fn first_crossed(crossing: &Crossing, way: usize) -> Option<usize>
    ensures { result ≡ spec.first_crossed crossing.now way }
{
    let ways = crossing.ways();
    (0..ways.len()).find(|other| is_crossed(crossing, way, *other))
}

// Whether there is one.
fn is_crossed_by_some(crossing: &Crossing, way: usize) -> bool
    ensures { result ≡ spec.is_crossed_by_some crossing.now way }
{
    let ways = crossing.ways();
    (0..ways.len()).any(|other| is_crossed(crossing, way, other))
}

// The first way for which there is one.
fn first_with_crossed(crossing: &Crossing) -> Option<usize>
    ensures { result ≡ spec.first_with_crossed crossing.now }
{
    let ways = crossing.ways();
    (0..ways.len()).find(|way| is_crossed_by_some(crossing, *way))
}

fn common(crossing: &Crossing) -> Option<Fault>
    ensures { result ≡ spec.common crossing.now }
{
    match first_with_crossed(crossing) {
        Some(way) => match first_crossed(crossing, way) {
            Some(other) => Some(Fault::Common { way, other }),
            None => None,
        },
        None => None,
    }
}

// Whether a point is one of a way's between its ends.
fn has_inner(way: &Way, point: usize) -> bool
    ensures { result ≡ spec.is_one_of (inner way.now) point }
{
    way.inner().contains(&point)
}

// Whether a point is one between the ends of a way of the crossing.
fn is_within(crossing: &Crossing, point: usize) -> bool
    ensures { result ≡ spec.is_within crossing.now point }
{
    crossing.ways().iter().any(|way| has_inner(way, point))
}

// Whether a train is on a way of the crossing at a place of its route.
fn is_on_some(crossing: &Crossing, route: &[usize], place: usize) -> bool
    ensures { result ≡ spec.is_on_some crossing.now route.now place }
{
    crossing.ways().iter().any(|way| way.is_on(route, place))
}

// Whether a route comes at a place to a point of the crossing by none of its ways.
fn strays_at(crossing: &Crossing, route: &[usize], place: usize) -> bool
    ensures { result ≡ spec.strays_at crossing.now route.now place }
{
    match route.get(place) {
        Some(point) => is_within(crossing, *point) && !is_on_some(crossing, route, place),
        None => false,
    }
}

// The first place at which it does.
fn stray_place(crossing: &Crossing, route: &[usize]) -> Option<usize>
    ensures { result ≡ spec.stray_place crossing.now route.now }
{
    (0..route.len()).find(|place| strays_at(crossing, route, *place))
}

// Whether it does at some place.
fn strays(crossing: &Crossing, route: &[usize]) -> bool
    ensures { result ≡ spec.strays crossing.now route.now }
{
    (0..route.len()).any(|place| strays_at(crossing, route, place))
}

// The first train whose route does.
fn first_stray(crossing: &Crossing, routes: &[Route]) -> Option<usize>
    ensures { result ≡ spec.first_stray crossing.now routes.now }
{
    routes
        .iter()
        .position(|route| strays(crossing, route.points()))
}

// The points of a train's route; none for a train that isn't there.
fn points_of(routes: &[Route], train: usize) -> &[usize]
    ensures { result.now ≡ points_of routes.now train }
{
    match routes.get(train) {
        Some(route) => route.points(),
        None => &[],
    }
}

fn stray(crossing: &Crossing, routes: &[Route]) -> Option<Fault>
    ensures { result ≡ spec.stray crossing.now routes.now }
{
    match first_stray(crossing, routes) {
        Some(train) => match stray_place(crossing, points_of(routes, train)) {
            Some(place) => Some(Fault::Stray { train, place }),
            None => None,
        },
        None => None,
    }
}

/// What is wrong with a crossing: first with its ways, then with parallel ones, then with routes.
pub(crate) fn fault(crossing: &Crossing, routes: &[Route]) -> Option<Fault>
    ensures { result ≡ spec.fault routes.now crossing.now }
{
    match no_inner(crossing) {
        Some(fault) => Some(fault),
        None => match common(crossing) {
            Some(fault) => Some(fault),
            None => stray(crossing, routes),
        },
    }
}
