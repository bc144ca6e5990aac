// Whether pairs are a circular wait.
ghost use Rattle.std.specs.Prelude.{◌≡◌, ℕ, ◌+◌, ◌<◌, ◌≤◌, ◌==◌, ◌↔◌, ◌%◌, All, IsTrue, length, Some};
ghost use Rattle.std.specs.List.{list_any};
ghost use Rattle.ring_sections.specs.Ring.{point_at, next_point, pair_at, IsRing};
ghost use Rattle.ring_sections.specs.Search.{IsTrainPlace, WantsPointOf, AreApart, IsPlaced, IsPointTaken, fits as fits_after};

use rail_model::Missions;

// The point of a pair.
pub(crate) fn point_of(missions: &Missions, pair: (u32, u32)) -> Option<u32>
    requires { IsTrainPlace missions.now pair }
    ensures { result ≡ point_at missions.now pair }
{
    missions.mission(pair.0).point(pair.1)
}

// The point that a pair wants.
pub(crate) fn next_point_of(missions: &Missions, pair: (u32, u32)) -> Option<u32>
    requires { IsTrainPlace missions.now pair }
    ensures { result ≡ next_point missions.now pair }
{
    let points = missions.mission(pair.0).as_slice();
    points.get(pair.1 as usize + 1).copied()
}

// Whether a pair wants the point of another.
fn waits_for(missions: &Missions, pair: (u32, u32), other: (u32, u32)) -> bool
    requires pair { IsTrainPlace missions.now pair }
    requires other { IsTrainPlace missions.now other }
    ensures { IsTrue result ↔ WantsPointOf missions.now pair other }
{
    match next_point_of(missions, pair) {
        Some(wanted) => point_of(missions, other) == Some(wanted),
        None => false,
    }
}

// Whether two pairs are of two trains at two points.
fn are_apart(missions: &Missions, first: (u32, u32), second: (u32, u32)) -> bool
    requires first { IsTrainPlace missions.now first }
    requires second { IsTrainPlace missions.now second }
    ensures { IsTrue result ↔ AreApart missions.now first second }
{
    if first.0 == second.0 {
        return false;
    }
    match point_of(missions, first) {
        Some(point) => point_of(missions, second) != Some(point),
        None => true,
    }
}

// Whether a pair is apart from those before it.
fn is_new(missions: &Missions, way: &[(u32, u32)], index: usize) -> bool
    requires way { All (IsTrainPlace missions.now) way.now }
    requires index { index < length way.now }
    ensures { IsTrue result ↔ ((j : ℕ) → j < index → AreApart missions.now (pair_at way.now j) (pair_at way.now index)) }
{
    for earlier in 0..index {
        if !are_apart(missions, way[earlier], way[index]) {
            return false;
        }
    }
    true
}

// Whether a pair is as in a circular wait.
fn is_placed(missions: &Missions, way: &[(u32, u32)], index: usize) -> bool
    requires way { All (IsTrainPlace missions.now) way.now }
    requires index { index < length way.now }
    ensures { IsTrue result ↔ IsPlaced missions.now way.now index }
{
    let next = (index + 1) % way.len();
    waits_for(missions, way[index], way[next])
        && (index == 0 || way[0].0 < way[index].0)
        && is_new(missions, way, index)
}

fn has_train(way: &[(u32, u32)], train: u32) -> bool
    ensures { result ≡ list_any (λ v. v.0 == train) way.now }
{
    way.iter().any(|pair| pair.0 == train)
}

// Whether a pair may come next: its train is above the first, and none of these.
pub(crate) fn fits(way: &[(u32, u32)], next: (u32, u32)) -> bool
    requires { 0 < length way.now }
    ensures { result ≡ fits_after way.now next }
{
    way[0].0 < next.0 && !has_train(way, next.0)
}

// Whether one of the pairs is at a point.
pub(crate) fn is_taken(missions: &Missions, way: &[(u32, u32)], point: u32) -> bool
    requires { All (IsTrainPlace missions.now) way.now }
    ensures { IsTrue result ↔ IsPointTaken missions.now way.now point }
{
    for &pair in way {
        if point_of(missions, pair) == Some(point) {
            return true;
        }
    }
    false
}

// Whether the pairs are a circular wait. The last pair, which may not close it, is looked at first.
pub(crate) fn is_ring(missions: &Missions, way: &[(u32, u32)]) -> bool
    requires { All (IsTrainPlace missions.now) way.now }
    ensures { IsTrue result ↔ IsRing missions.now way.now }
{
    if way.len() < 2 {
        return false;
    }
    for index in (0..way.len()).rev() {
        if !is_placed(missions, way, index) {
            return false;
        }
    }
    true
}
