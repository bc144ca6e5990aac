// Crossings of usual shapes.
ghost use Rattle.std.specs.Prelude.{◌≡◌, ◌++◌, ◌∷◌, [], IfOk, OnOk, map};
ghost use Rattle.plan_crossings.specs.Shapes as spec;

use crate::{Crossing, Group, Way};
use std::alloc::{AllocError, Global};

/// A track through scissors: the points at its ends, and the one between them.
#[derive(Clone, Copy)]
pub struct Track {
    pub from: usize,
    pub over: usize,
    pub to: usize,
}

// Adds a way of three points.
fn add_way(
    alloc: Global,
    ways: &mut Vec<Way>,
    from: usize,
    over: usize,
    to: usize,
) -> Result<(), AllocError>
    ensures { OnOk result (ways.new.items ≡ ways.old.items ++ (from ∷ over ∷ to ∷ []) ∷ []) }
{
    let points = vec![in alloc; from, over, to]?;
    ways.push(Way::new(alloc, points)?)?;
    Ok(())
}

// Adds the ways from the beginning of a track to the end of another, over the point of each.
fn add_diagonals(
    alloc: Global,
    ways: &mut Vec<Way>,
    one: Track,
    other: Track,
) -> Result<(), AllocError>
    ensures { OnOk result (ways.new.items ≡ ways.old.items ++ spec.diagonals one other) }
{
    add_way(alloc, ways, one.from, one.over, other.to)?;
    add_way(alloc, ways, one.from, other.over, other.to)?;
    Ok(())
}

/// Scissors: two parallel tracks, and ways from each to the other over the point of either.
pub fn scissors(alloc: Global, one: Track, other: Track) -> Result<Crossing, AllocError>
    ensures { IfOk result (λ crossing. crossing ≡ spec.scissors one other) }
{
    let mut ways = Vec::new(alloc);
    add_way(alloc, &mut ways, one.from, one.over, one.to)?;
    add_way(alloc, &mut ways, other.from, other.over, other.to)?;
    add_diagonals(alloc, &mut ways, one, other)?;
    add_diagonals(alloc, &mut ways, other, one)?;
    let tracks = Group::new(vec![in alloc; 0, 1]?);
    let parallel = vec![in alloc; tracks]?;
    Ok(Crossing::new(ways, parallel))
}

// Adds the ways from a lead over a point to each road.
fn add_roads(
    alloc: Global,
    ways: &mut Vec<Way>,
    point: usize,
    lead: usize,
    roads: &[usize],
) -> Result<(), AllocError>
    ensures { OnOk result (ways.new.items ≡ ways.old.items ++ map (spec.road point lead) roads.now) }
{
    for road in roads {
        add_way(alloc, ways, lead, point, *road)?;
    }
    Ok(())
}

/// A ladder: a point, and a way over it from each lead to each road.
pub fn ladder(
    alloc: Global,
    point: usize,
    leads: &[usize],
    roads: &[usize],
) -> Result<Crossing, AllocError>
    ensures { IfOk result (λ crossing. crossing ≡ spec.ladder point leads.now roads.now) }
{
    let mut ways = Vec::new(alloc);
    for lead in leads {
        add_roads(alloc, &mut ways, point, *lead, roads)?;
    }
    Ok(Crossing::new(ways, Vec::new(alloc)))
}
