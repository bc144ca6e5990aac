// Crossings and their ways.
ghost use Rattle.std.specs.Prelude.{◌≡◌, IfOk};
ghost use Rattle.plan_crossings.specs.Crossings as spec;
ghost use Rattle.plan_crossings.specs.Numbers as numbers;

use std::alloc::{AllocError, Global};
use std::marker::Model;

// Whether all these numbers are below one.
fn are_below(list: &[usize], end: usize) -> bool
    ensures { result ≡ numbers.are_below end list.now }
{
    list.iter().all(|number| *number < end)
}

/// A way over a crossing: points, one after another. Trains go along it in either direction.
#[derive(Drop)]
pub struct Way {
    points: Vec<usize>,
    back: Vec<usize>,
}

impl Model for Way {
    ghost use Rattle.std.specs.Prelude.{◌≡◌, List, ℕ, reverse};

    ghost Value = { List ℕ };

    ghost view = { λ w. w.points.items };

    ghost invariant = { λ w. w.back.items ≡ reverse w.points.items };
}

impl Way {
    pub fn new(alloc: Global, points: Vec<usize>) -> Result<Way, AllocError>
        ensures { IfOk result (λ way. way ≡ points.items) }
    {
        let back = points.iter().rev().copied().collect(alloc)?;
        Ok(Way { points, back })
    }

    /// The points between the first and the last.
    pub(crate) fn inner(&self) -> &[usize]
        ensures { result.now ≡ spec.inner self.now }
    {
        if self.points.len() < 2 {
            &[]
        } else {
            &self.points[1..self.points.len() - 1]
        }
    }

    fn is_of(&self, points: usize) -> bool
        ensures { result ≡ numbers.are_below points self.now }
    {
        are_below(&self.points, points)
    }

    /// Whether a train is on it at a place of its route: between its ends, going from one to the other.
    pub(crate) fn is_on(&self, route: &[usize], place: usize) -> bool
        ensures { result ≡ spec.is_on self.now route.now place }
    {
        is_inside(&self.points, route, place) || is_inside(&self.back, route, place)
    }
}

// Whether a route goes along these points from a place on, by one after another up to the last.
fn goes_along(points: &[usize], route: &[usize], from: usize) -> bool
    ensures { result ≡ spec.goes_along points.now route.now from }
{
    match route.get(from..) {
        Some(rest) => rest.starts_with(points),
        None => points.is_empty(),
    }
}

// Whether a place of a route lies between the first and the last of these points, where the route goes along them.
fn is_inside(points: &[usize], route: &[usize], place: usize) -> bool
    ensures { result ≡ spec.is_inside points.now route.now place }
{
    let last = points.len().saturating_sub(1);
    (0..place).any(|from| goes_along(points, route, from) && place.saturating_sub(from) < last)
}

/// Numbers of ways that are parallel: trains may be on them at once.
#[derive(Drop)]
pub struct Group {
    ways: Vec<usize>,
}

impl Model for Group {
    ghost use Rattle.std.specs.Prelude.{List, ℕ};

    ghost Value = { List ℕ };

    ghost view = { λ g. g.ways.items };
}

impl Group {
    pub fn new(ways: Vec<usize>) -> Self
        ensures { result ≡ ways.items }
    {
        Group { ways }
    }

    fn is_of(&self, ways: usize) -> bool
        ensures { result ≡ numbers.are_below ways self.now }
    {
        are_below(&self.ways, ways)
    }

    fn has_both(&self, one: usize, other: usize) -> bool
        ensures { result ≡ spec.has_both one other self.now }
    {
        self.ways.contains(&one) && self.ways.contains(&other)
    }
}

/// Ways over a crossing, numbered from 0 on, and groups of parallel ones.
#[derive(Drop)]
pub struct Crossing {
    ways: Vec<Way>,
    parallel: Vec<Group>,
}

impl Model for Crossing {
    ghost use Rattle.plan_crossings.specs.Crossings.{Crossing as CrossingValue};

    ghost Value = { CrossingValue };

    ghost view = { λ c. record { ways = c.ways.items; parallel = c.parallel.items } };
}

impl Crossing {
    pub fn new(ways: Vec<Way>, parallel: Vec<Group>) -> Self
        ensures { result ≡ record { ways = ways.items; parallel = parallel.items } }
    {
        Crossing { ways, parallel }
    }

    // Whether its ways have only points below this number.
    fn has_points_below(&self, end: usize) -> bool
        ensures { result ≡ numbers.has_points_below end self.now }
    {
        self.ways.iter().all(|way| way.is_of(end))
    }

    // Whether its groups have only ways below this number.
    fn has_groups_below(&self, end: usize) -> bool
        ensures { result ≡ numbers.has_groups_below end self.now }
    {
        self.parallel.iter().all(|group| group.is_of(end))
    }

    /// Whether it is one of so many points: its ways have only them, and its groups only its ways.
    pub fn is_of(&self, points: usize) -> bool
        ensures { result ≡ numbers.is_of points self.now }
    {
        self.has_points_below(points) && self.has_groups_below(self.ways.len())
    }

    pub(crate) fn ways(&self) -> &[Way]
        ensures { result.now ≡ self.now.ways }
    {
        self.ways.as_slice()
    }

    /// The points of a way between its ends; none of a way that isn't there.
    pub(crate) fn inner(&self, way: usize) -> &[usize]
        ensures { result.now ≡ spec.inner (spec.way self.now way) }
    {
        match self.ways.get(way) {
            Some(way) => way.inner(),
            None => &[],
        }
    }

    // Whether a group has two ways.
    fn are_together(&self, one: usize, other: usize) -> bool
        ensures { result ≡ spec.are_together self.now one other }
    {
        self.parallel.iter().any(|group| group.has_both(one, other))
    }

    /// Whether two ways are parallel: two different ones of a group.
    pub(crate) fn are_parallel(&self, one: usize, other: usize) -> bool
        ensures { result ≡ spec.are_parallel self.now one other }
    {
        one != other && self.are_together(one, other)
    }
}
