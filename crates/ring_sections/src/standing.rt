// The pairs of trains and places, by their points.
ghost use Rattle.std.specs.Prelude.{◌≡◌, ℕ, ◌<◌, ◌≤◌, ◌++◌, ◌^◌, [], All, IfOk, OnOk, Some, None, length, map, filter, slice_index_or};
ghost use Rattle.rail_model.specs.Table.{IsMission};
ghost use Rattle.rail_model.specs.Checks.{same_point};
ghost use Rattle.ring_sections.specs.Ring.{point_at, train_pairs, pairs as all_pairs};
ghost use Rattle.ring_sections.specs.Search.{IsTrainPlace, AreUpTo, ArePointsBelow, stands_at as stands_at_point, standing as standing_at_all};

use crate::placed::{next_point_of, point_of};
use crate::train_set::MOST_TRAINS;
use forbidden_states::last_of;
use rail_model::{Mission, Missions};
use std::alloc::{AllocError, Global};
use std::marker::Model;

/// The pairs at one point.
#[derive(Drop)]
struct Standers {
    pairs: Vec<(u32, u32)>,
    // No pair is of a train after this one.
    latest: u32,
    // For each pair the least of the last `most - 1` trains that make its step; 0 where there are fewer.
    lasts: Vec<u32>,
}

impl Model for Standers {
    ghost use Rattle.std.specs.Prelude.{List};
    ghost use Rattle.ring_sections.specs.Ring.{Pair};
    ghost use Rattle.ring_sections.specs.Search.{AreUpTo};

    ghost Value = { List Pair };

    ghost view = { λ s. s.pairs.items };

    ghost invariant = { λ s. AreUpTo s.latest s.pairs.items };
}

/// For each point the pairs there, in order.
#[derive(Drop)]
pub(crate) struct Standing {
    points: Vec<Standers>,
}

impl Model for Standing {
    ghost use Rattle.std.specs.Prelude.{List};
    ghost use Rattle.ring_sections.specs.Ring.{Pair};

    ghost Value = { List (List Pair) };

    ghost view = { λ s. s.points.items };
}

impl Standing {
    // The number of points.
    pub(crate) fn len(&self) -> usize
        ensures { result ≡ length self.now }
    {
        self.points.len()
    }

    // The pairs at a point.
    pub(crate) fn at(&self, point: u32) -> &[(u32, u32)]
        requires { point < length self.now }
        ensures { result.now ≡ slice_index_or self.now point [] }
    {
        &self.points[point as usize].pairs
    }

    // No train after this one is ever at the point.
    pub(crate) fn latest(&self, point: u32) -> u32
        requires { point < length self.now }
        ensures { AreUpTo result (slice_index_or self.now point []) }
    {
        self.points[point as usize].latest
    }

    // Whether enough trains above the first make the step of the pair at an index, so that some train is left for it whichever
    // others are in a circular wait. It only saves time: what is found doesn't depend on it.
    pub(crate) fn are_many(&self, point: u32, index: usize, first: u32) -> bool {
        match self.points.get(point as usize) {
            Some(standers) => standers.lasts.get(index).copied().unwrap_or(0) > first,
            None => false,
        }
    }
}

// Adds the pairs of a train.
fn add_pairs(train: u32, mission: &Mission, pairs: &mut Vec<(u32, u32)>) -> Result<(), AllocError>
    requires { IsMission mission.now }
    ensures { OnOk result (pairs.new.items ≡ pairs.old.items ++ train_pairs train mission.now) }
{
    for place in 0..last_of(mission) {
        pairs.push((train, place))?;
    }
    Ok(())
}

// All pairs of a train and a place below its last.
pub(crate) fn pairs_of(alloc: Global, missions: &Missions) -> Result<Vec<(u32, u32)>, AllocError>
    ensures { IfOk result (λ pairs. pairs.items ≡ all_pairs missions.now) }
{
    let mut pairs = Vec::new(alloc);
    for train in 0..missions.len() as u32 {
        add_pairs(train, missions.mission(train), &mut pairs)?;
    }
    Ok(pairs)
}

// The points of pairs, in order.
fn points_of(
    alloc: Global,
    missions: &Missions,
    pairs: &[(u32, u32)],
) -> Result<Vec<Option<u32>>, AllocError>
    requires { All (IsTrainPlace missions.now) pairs.now }
    ensures { IfOk result (λ points. points.items ≡ map (point_at missions.now) pairs.now) }
{
    let mut points = Vec::new(alloc);
    for &pair in pairs {
        points.push(point_of(missions, pair))?;
    }
    Ok(points)
}

// Whether the pair at an index is at a point.
fn is_there(points: &[Option<u32>], index: usize, point: u32) -> bool
    requires { index < length points.now }
    ensures { result ≡ same_point (slice_index_or points.now index None) (Some point) }
{
    points[index] == Some(point)
}

// The least of the last `many` trains of the pairs that want a point; 0 where there are fewer.
fn last_of_many(missions: &Missions, pairs: &[(u32, u32)], to: Option<u32>, many: u32) -> u32
    requires { All (IsTrainPlace missions.now) pairs.now }
{
    let mut last = MOST_TRAINS;
    let mut left = many;
    for &pair in pairs.iter().rev() {
        if pair.0 < last && next_point_of(missions, pair) == to {
            if left <= 1 {
                return pair.0;
            }
            last = pair.0;
            left -= 1;
        }
    }
    0
}

// No train after this one has one of the pairs.
fn latest_of(pairs: &[(u32, u32)]) -> u32
    ensures { AreUpTo result pairs.now }
{
    let mut latest = 0;
    for &pair in pairs {
        latest = latest.max(pair.0);
    }
    latest
}

// Whether all pairs are of one train.
fn are_of_one(pairs: &[(u32, u32)]) -> bool {
    pairs.iter().all(|pair| pair.0 == pairs[0].0)
}

// For each pair the least of the last `many` trains that make its step; 0 where there are fewer.
fn lasts_of(
    alloc: Global,
    missions: &Missions,
    pairs: &[(u32, u32)],
    many: u32,
) -> Result<Vec<u32>, AllocError>
    requires { All (IsTrainPlace missions.now) pairs.now }
{
    if many > 1 && are_of_one(pairs) {
        return vec![in alloc; 0; pairs.len()];
    }
    let mut lasts = Vec::new(alloc);
    for &pair in pairs {
        lasts.push(last_of_many(missions, pairs, next_point_of(missions, pair), many))?;
    }
    Ok(lasts)
}

fn standers_at(
    alloc: Global,
    missions: &Missions,
    pairs: &[(u32, u32)],
    points: &[Option<u32>],
    point: u32,
    most: u32,
) -> Result<Standers, AllocError>
    requires pairs { All (IsTrainPlace missions.now) pairs.now }
    requires points { points.now ≡ map (point_at missions.now) pairs.now }
    ensures { IfOk result (λ standers. standers ≡ filter (stands_at_point missions.now point) pairs.now) }
{
    let mut standers = Vec::new(alloc);
    for index in 0..pairs.len() {
        if is_there(points, index, point) {
            standers.push(pairs[index])?;
        }
    }
    let lasts = lasts_of(alloc, missions, &standers, most.saturating_sub(1))?;
    let latest = latest_of(&standers);
    Ok(Standers {
        pairs: standers,
        latest,
        lasts,
    })
}

// The pairs at each point below `size`.
pub(crate) fn standing_of(
    alloc: Global,
    missions: &Missions,
    pairs: &[(u32, u32)],
    size: usize,
    most: u32,
) -> Result<Standing, AllocError>
    requires pairs { pairs.now ≡ all_pairs missions.now }
    requires size { size ≤ 512 }
    ensures { IfOk result (λ standing. standing ≡ standing_at_all missions.now size) }
{
    let points = points_of(alloc, missions, pairs)?;
    let mut all = Vec::new(alloc);
    for point in 0..size {
        all.push(standers_at(alloc, missions, pairs, &points, point as u32, most)?)?;
    }
    Ok(Standing { points: all })
}

// A number above all these points, and not below `least`.
fn above_points(points: &[u32], least: usize) -> usize
    requires least { least ≤ 512 }
    requires points { All (λ q. q < 512) points.now }
    ensures least { least ≤ result }
    ensures points { All (λ q. q < result) points.now }
    ensures most { result ≤ 512 }
{
    let mut bound = least;
    for &point in points {
        bound = bound.max(point as usize + 1);
    }
    bound
}

// A number above all points of the missions.
pub(crate) fn size_of(missions: &Missions) -> usize
    ensures points { ArePointsBelow missions.now result }
    ensures most { result ≤ 512 }
    ensures trains { length missions.now ≤ 32 }
{
    let mut bound = 0;
    for train in 0..missions.len() as u32 {
        bound = above_points(missions.mission(train).as_slice(), bound);
    }
    bound
}
