// Whether pairs can lead back to the first: what a search for circular waits goes on for.
ghost use Rattle.std.specs.Prelude.{◌≡◌, ◌≢◌, ℕ, ◌<◌, ◌≤◌, ◌^◌, ◌++◌, ◌∷◌, [], All, IfOk, IfSome, length, false, true};
ghost use Rattle.std.specs.Int.Bits.{bit_and};
ghost use Rattle.ring_sections.specs.Ring.{pair_at, point_at};
ghost use Rattle.ring_sections.specs.Search.{IsTrainPlace, rings_from};
ghost use Rattle.ring_sections.specs.Levels.{AreLevels, IsChart};
ghost use Rattle.ring_sections.specs.Leading.{IsLost, IsLostBy, IsBehind, IsKnown, IsCovered};

use crate::chart::Chart;
use crate::placed::{fits, is_taken, next_point_of, point_of};
use crate::train_set::{MOST_TRAINS, TrainSet};
use std::alloc::AllocError;

/// A point that was reached by some trains, and the number of pairs left to lead back from it. Not all of the trains need be known.
#[derive(Clone, Copy)]
pub(crate) struct Reach {
    pub point: u32,
    pub left: u32,
    pub used: TrainSet,
}

// The used trains of one that is known, none of which is hit; the newest first.
fn find_unhit(known: &[Reach], from: Reach, hit: TrainSet) -> Option<TrainSet>
    ensures known { IfSome result (λ used. IsKnown known.now from used) }
    ensures unhit { IfSome result (λ used. bit_and used.bits hit.bits ≡ 0) }
    ensures trains { IfSome result (λ used. used.bits < 2 ^ 32) }
{
    for &other in known.iter().rev() {
        if other.point == from.point && other.left >= from.left && !other.used.meets(hit) {
            return Some(other.used);
        }
    }
    None
}

// Whether what is known to be lost shows that one more is. So it does, if whatever trains come later, one of those that are known
// has used none of them: `hit` are trains that come later, and at most `left` more do, which this one hasn't used.
fn is_covered(known: &[Reach], from: Reach, hit: TrainSet, left: u32) -> bool
    ensures { result ≡ true → IsCovered known.now from hit left }
{
    let Some(used) = find_unhit(known, from, hit) else {
        return false;
    };
    if left == 0 {
        return true;
    }
    for train in 0..MOST_TRAINS {
        if used.has(train)
            && !from.used.has(train)
            && !is_covered(known, from, hit.with(train), left - 1)
        {
            return false;
        }
    }
    true
}

// Whether it is plain at once that nothing leads back from a point that isn't the first pair's.
fn is_lost(chart: &Chart<'_>, way: &[(u32, u32)], shut: u32, from: Reach, lost: &[Reach]) -> bool
    requires levels { AreLevels chart.now.missions.now (pair_at way.now 0) chart.now.levels.now }
    requires way { All (IsTrainPlace chart.now.missions.now) way.now }
    requires point { from.point < length chart.now.levels.now }
    requires away { point_at chart.now.missions.now (pair_at way.now 0) ≢ Some from.point }
    requires lost { All (IsLost chart.now.missions.now way.now shut) lost.now }
    ensures lost { result ≡ true → IsLost chart.now.missions.now way.now shut from }
    ensures left { result ≡ false → 0 < from.left }
{
    if from.left == 0
        || chart.levels[from.point as usize] > from.left
        || from.point == shut
        || is_taken(chart.missions, way, from.point)
    {
        return true;
    }
    is_covered(lost, from, TrainSet::none(), from.left)
}

// What is reached by one of the pairs at a point, if its train may be used. Where enough others make the same step, it
// isn't counted as used: then one of them is always left.
fn onward(
    chart: &Chart<'_>,
    way: &[(u32, u32)],
    from: Reach,
    index: usize,
    next: (u32, u32),
) -> Option<Reach>
    requires some { 0 < length way.now }
    requires trains { length chart.now.missions.now ≤ 32 }
    requires next { IsTrainPlace chart.now.missions.now next }
    requires left { 0 < from.left }
    ensures behind { IfSome result (λ behind. IsBehind chart.now.missions.now from next behind) }
    ensures none { (shut : ℕ) → result ≡ None → IsLostBy chart.now.missions.now way.now shut from next }
{
    if !fits(way, next) || from.used.has(next.0) {
        return None;
    }
    let point = next_point_of(chart.missions, next)?;
    let used = if chart.standing.are_many(from.point, index, way[0].0) {
        from.used
    } else {
        from.used.with(next.0)
    };
    let left = from.left - 1;
    Some(Reach { point, left, used })
}

// Whether pairs may lead back to the first of the way, at most as many as are left, none of them at a point of the way or the one
// that is shut. Adds what is found to be lost: for each point and number of pairs left at most 35, since none covers a later one.
fn may_lead(
    chart: &Chart<'_>,
    way: &[(u32, u32)],
    shut: u32,
    from: Reach,
    lost: &mut Vec<Reach>,
) -> Result<bool, AllocError>
    requires chart { IsChart chart.now.missions.now chart.now.standing.now chart.now.levels.now (pair_at way.now 0) }
    requires some { 0 < length way.now }
    requires way { All (IsTrainPlace chart.now.missions.now) way.now }
    requires point { from.point < length chart.now.levels.now }
    requires lost { All (IsLost chart.now.missions.now way.now shut) lost.old.items }
    ensures lost { IfOk result (λ _. All (IsLost chart.now.missions.now way.now shut) lost.new.items) }
    ensures answer { IfOk result (λ may. may ≡ false → IsLost chart.now.missions.now way.now shut from) }
{
    if point_of(chart.missions, way[0]) == Some(from.point) {
        return Ok(true);
    }
    if is_lost(chart, way, shut, from, lost) {
        return Ok(false);
    }
    for (index, &next) in chart.standing.at(from.point).iter().enumerate() {
        if let Some(behind) = onward(chart, way, from, index, next) {
            if may_lead(chart, way, shut, behind, lost)? {
                return Ok(true);
            }
        }
    }
    lost.push(from)?;
    Ok(false)
}

// Whether a circular wait may begin with a way and a pair at the point that it wants, which is then shut to others, with at most
// `left` more. Adds what is found to be lost.
pub(crate) fn may_follow(
    chart: &Chart<'_>,
    way: &[(u32, u32)],
    shut: u32,
    next: (u32, u32),
    left: u32,
    lost: &mut Vec<Reach>,
) -> Result<bool, AllocError>
    requires chart { IsChart chart.now.missions.now chart.now.standing.now chart.now.levels.now (pair_at way.now 0) }
    requires some { 0 < length way.now }
    requires way { All (IsTrainPlace chart.now.missions.now) way.now }
    requires next { IsTrainPlace chart.now.missions.now next }
    requires stands { point_at chart.now.missions.now next ≡ Some shut }
    requires lost { All (IsLost chart.now.missions.now way.now shut) lost.old.items }
    ensures lost { IfOk result (λ _. All (IsLost chart.now.missions.now way.now shut) lost.new.items) }
    ensures answer { IfOk result (λ may. may ≡ false → rings_from chart.now.missions.now (way.now ++ next ∷ []) left ≡ []) }
{
    if !fits(way, next) {
        return Ok(false);
    }
    let Some(point) = next_point_of(chart.missions, next) else {
        return Ok(false);
    };
    let used = TrainSet::none().with(next.0);
    let from = Reach { point, left, used };
    may_lead(chart, way, shut, from, lost)
}
