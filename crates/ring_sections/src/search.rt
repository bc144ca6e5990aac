// The search for circular waits: each from its least train on, pair by pair, in the order in which they are listed.
ghost use Rattle.std.specs.Prelude.{◌≡◌, ◌<◌, ◌≤◌, ◌-◌, ◌++◌, ◌∷◌, [], All, IfOk, length};
ghost use Rattle.rail_model.specs.Turns.{AnswersAs};
ghost use Rattle.ring_sections.specs.Ring.{pair_at, IsRing};
ghost use Rattle.ring_sections.specs.Search.{IsTrainPlace, ArePointsBelow, standing as standing_at_all, own_ring, rings_from};
ghost use Rattle.ring_sections.specs.Levels.{AreStepsBelow, IsChart};
ghost use Rattle.ring_sections.specs.Answer.{AddsRings, all_rings};

use crate::chart::Chart;
use crate::leading::may_follow;
use crate::levels::{Step, levels_of, steps_of};
use crate::placed::{is_ring, is_taken, next_point_of};
use crate::standing::{Standing, pairs_of, size_of, standing_of};
use crate::{Ring, Rings};
use rail_model::Missions;
use std::alloc::{AllocError, Global};

// The most circular waits that are listed.
const MOST_RINGS: usize = 64;

// Adds the pairs to the circular waits, if they are one.
fn keep_ring(
    alloc: Global,
    missions: &Missions,
    way: &[(u32, u32)],
    found: &mut Vec<Ring>,
) -> Result<(), Rings>
    requires way { All (IsTrainPlace missions.now) way.now }
    requires few { length found.old.items ≤ 64 }
    ensures { AddsRings found.old.items found.new.items (own_ring missions.now way.now) result }
{
    if !is_ring(missions, way) {
        return Ok(());
    }
    if found.len() == MOST_RINGS {
        return Err(Rings::Many {
            count: MOST_RINGS as u32 + 1,
        });
    }
    let pairs = Vec::from_slice(alloc, way)?;
    found.push(Ring::from(pairs))?;
    Ok(())
}

fn longer(
    alloc: Global,
    way: &[(u32, u32)],
    next: (u32, u32),
) -> Result<Vec<(u32, u32)>, AllocError>
    ensures { IfOk result (λ longer. longer.items ≡ way.now ++ next ∷ []) }
{
    let mut longer = Vec::with_capacity(alloc, way.len() + 1)?;
    longer.extend_from_slice(way)?;
    longer.push(next)?;
    Ok(longer)
}

// Adds the circular waits that begin with some pairs and have at most `left` more.
fn extend(
    alloc: Global,
    chart: &Chart<'_>,
    way: &[(u32, u32)],
    left: u32,
    found: &mut Vec<Ring>,
) -> Result<(), Rings>
    requires chart { IsChart chart.now.missions.now chart.now.standing.now chart.now.levels.now (pair_at way.now 0) }
    requires some { 0 < length way.now }
    requires way { All (IsTrainPlace chart.now.missions.now) way.now }
    requires few { length found.old.items ≤ 64 }
    ensures { AddsRings found.old.items found.new.items (rings_from chart.now.missions.now way.now left) result }
{
    let Some(wanted) = next_point_of(chart.missions, way[way.len() - 1]) else {
        return Ok(());
    };
    if chart.levels[wanted as usize] > left {
        return Ok(());
    }
    keep_ring(alloc, chart.missions, way, found)?;
    if left == 0 || is_taken(chart.missions, way, wanted) {
        return Ok(());
    }
    let mut lost = Vec::new(alloc);
    for &next in chart.standing.at(wanted) {
        if may_follow(chart, way, wanted, next, left - 1, &mut lost)? {
            let way = longer(alloc, way, next)?;
            extend(alloc, chart, &way, left - 1, found)?;
        }
    }
    Ok(())
}

// Adds the circular waits that begin with a pair: none where no later train is ever at the point that it wants.
fn add_from(
    alloc: Global,
    missions: &Missions,
    standing: &Standing,
    steps: &[Step],
    first: (u32, u32),
    most: u32,
    found: &mut Vec<Ring>,
) -> Result<(), Rings>
    requires trains { length missions.now ≤ 32 }
    requires points { ArePointsBelow missions.now (length standing.now) }
    requires standing { standing.now ≡ standing_at_all missions.now (length standing.now) }
    requires steps { AreStepsBelow missions.now (length standing.now) steps.now }
    requires first { IsTrainPlace missions.now first }
    requires few { length found.old.items ≤ 64 }
    requires most { 0 < most }
    ensures { AddsRings found.old.items found.new.items (rings_from missions.now (first ∷ []) (most - 1)) result }
{
    let Some(wanted) = next_point_of(missions, first) else {
        return Ok(());
    };
    if standing.latest(wanted) <= first.0 {
        return Ok(());
    }
    let levels = levels_of(alloc, missions, steps, standing.len(), first, most)?;
    let chart = Chart {
        missions,
        standing,
        levels: &levels,
    };
    extend(alloc, &chart, &[first], most - 1, found)
}

/// All circular waits of at most `most` trains, in the order of their pairs: train before place, and a list before those that
/// begin with it.
///
/// From each place of each train the search goes along later trains, and takes a pair only where others of different trains may lead
/// back to the first in time. It ends at the 65th. Where a point was reached in vain, the trains used until then are kept, at most 35
/// sets for a point and a number of pairs left, so that no document takes long; those take longest in which many steps are made by a
/// few trains each and none leads round.
///
/// # Errors
///
/// `Many` exactly where there are more than 64; out of memory.
pub fn rings(alloc: Global, missions: &Missions, most: u32) -> Result<Vec<Ring>, Rings>
    requires least { 2 ≤ most }
    requires greatest { most ≤ 8 }
    ensures rings { AnswersAs Rings.Memory (λ rings. rings.items) result (all_rings missions.now most) }

    ensures each { IfOk result (λ rings. All (IsRing missions.now) rings.items) }
    ensures few { IfOk result (λ rings. length rings.items ≤ 64) }
{
    let size = size_of(missions);
    let pairs = pairs_of(alloc, missions)?;
    let standing = standing_of(alloc, missions, &pairs, size, most)?;
    let steps = steps_of(alloc, missions, &standing)?;
    let mut found = Vec::new(alloc);
    for &first in &pairs {
        add_from(alloc, missions, &standing, &steps, first, most, &mut found)?;
    }
    Ok(found)
}
