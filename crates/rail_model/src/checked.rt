// Tests of missions that nobody has looked at.
ghost use Rattle.std.specs.Prelude.{◌≡◌, ◌==◌, not, ◌&&◌, length, zip, nat_le, nat_lt};
ghost use Rattle.std.specs.List.{list_all};
ghost use Rattle.rail_model.specs.Checks.{steps_on, is_mission, are_missions};
ghost use Rattle.rail_model.specs.Table.{last_of};

use crate::Mission;

// The most trains and points, and the greatest place.
const MOST_TRAINS: usize = 32;

const MOST_POINTS: u32 = 512;

const LAST_PLACE: usize = 127;

// Whether these are missions, one per train.
pub(crate) fn are_missions(missions: &[Mission]) -> bool
    ensures { result ≡ are_missions missions.now }
{
    missions.len() <= MOST_TRAINS && are_each(missions)
}

fn are_each(missions: &[Mission]) -> bool
    ensures { result ≡ list_all is_mission missions.now }
{
    missions.iter().all(|mission| is_mission(mission))
}

fn is_mission(mission: &Mission) -> bool
    ensures { result ≡ is_mission mission.now }
{
    has_places(mission) && are_low(mission.as_slice()) && steps_on(mission.as_slice())
}

// Whether there is a point, and no place is too high.
fn has_places(mission: &Mission) -> bool
    ensures { result ≡ (nat_le 1 (length mission.now.points) && nat_le (last_of mission.now) 127) }
{
    let most = if mission.exits() {
        LAST_PLACE
    } else {
        LAST_PLACE + 1
    };
    1 <= mission.points() && mission.points() <= most
}

fn are_low(points: &[u32]) -> bool
    ensures { result ≡ list_all (λ q. nat_lt q 512) points.now }
{
    points.iter().all(|point| *point < MOST_POINTS)
}

// Whether each step leads to another point.
fn steps_on(points: &[u32]) -> bool
    ensures { result ≡ steps_on points.now }
{
    match points.split_first() {
        Some((_, later)) => differ(points, later),
        None => true,
    }
}

// Whether the points are different, place by place.
fn differ(points: &[u32], others: &[u32]) -> bool
    ensures { result ≡ list_all (λ pair. not (pair.0 == pair.1)) (zip points.now others.now) }
{
    points.iter().zip(others).all(|(a, b)| a != b)
}
