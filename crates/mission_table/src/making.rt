// The maker of missions.
ghost use Rattle.std.specs.Prelude.{◌≡◌, ◌<◌, ◌≤◌, [], ◌∷◌, length};
ghost use Rattle.std.specs.Result.{result_err};
ghost use Rattle.rail_model.specs.Layout.{point_names};
ghost use Rattle.rail_model.specs.Turns.{AnswersAs, first_of, unless};
ghost use Rattle.mission_table.specs.Ways.{missions_from, other_lists, other_exits, bad_length, is_cut, step_refusal, way_refusal, mission_refusal, mission_value, ways_refusal, missions_value, way_value};
ghost use Rattle.track_layout.specs.Making.{number_in};
ghost use Rattle.mission_table.specs.Seen.{names_seen, ways_seen};

use crate::tracks::Tracks;
use crate::{MissionRefused, Trains};
use rail_model::{Layout, Mission, Missions};
use std::alloc::Global;

// The most places of a mission; the one after the exit counts.
const MOST_PLACES: usize = 128;

/// The missions of these trains: for each the names of the points on its way, and whether it leaves the layout after the last one.
///
/// # Errors
///
/// The first thing wrong with them: the number of lists, the number of exits, then train by train the length, and place by place
/// the point and the link; out of memory.
pub fn missions(
    alloc: Global,
    layout: &Layout,
    trains: &Trains,
    lists: Vec<Vec<String>>,
    exits: Vec<bool>,
) -> Result<Missions, MissionRefused>
    ensures { AnswersAs MissionRefused.Memory (λ missions. missions) result (missions_from layout.now (length trains.now) (ways_seen lists.items) exits.items) }
{
    check_counts(trains.len(), lists.len(), exits.len())?;
    let tracks = Tracks::new(alloc, layout)?;
    let missions = each_mission(alloc, &tracks, &lists, &exits)?;
    Ok(Missions::new(missions))
}

fn check_counts(trains: usize, lists: usize, exits: usize) -> Result<(), MissionRefused>
    ensures { result_err result ≡ first_of (other_lists trains lists ∷ other_exits trains exits ∷ []) }
{
    if lists != trains {
        return Err(MissionRefused::Lists { count: lists });
    }
    if exits != trains {
        return Err(MissionRefused::Exits { count: exits });
    }
    Ok(())
}

// The missions, train by train.
fn each_mission(
    alloc: Global,
    tracks: &Tracks,
    lists: &[Vec<String>],
    exits: &[bool],
) -> Result<Vec<Mission>, MissionRefused>
    requires few { length lists.now ≤ 32 }
    requires one_each { length exits.now ≡ length lists.now }
    ensures { AnswersAs MissionRefused.Memory (λ missions. missions.items) result (unless (ways_refusal tracks.now (length lists.now) (ways_seen lists.now) exits.now) (missions_value tracks.now (ways_seen lists.now) exits.now)) }
{
    let mut missions = Vec::new(alloc);
    for (train, names) in lists.iter().enumerate() {
        missions.push(mission(alloc, tracks, train as u32, names, exits[train])?)?;
    }
    Ok(missions)
}

// The mission of a train.
fn mission(
    alloc: Global,
    tracks: &Tracks,
    train: u32,
    names: &[String],
    exits: bool,
) -> Result<Mission, MissionRefused>
    ensures { AnswersAs MissionRefused.Memory (λ mission. mission) result (unless (mission_refusal tracks.now train (names_seen names.now) exits) (mission_value tracks.now (names_seen names.now) exits)) }
{
    check_length(train, names.len(), exits)?;
    let points = way(alloc, tracks, train, names)?;
    Ok(Mission::new(points, exits))
}

fn check_length(train: u32, count: usize, exits: bool) -> Result<(), MissionRefused>
    ensures { result_err result ≡ bad_length train count exits }
{
    let most = if exits { MOST_PLACES - 1 } else { MOST_PLACES };
    if count == 0 || count > most {
        return Err(MissionRefused::Length { train, count });
    }
    Ok(())
}

// The points on a way, each linked to the one before.
fn way(
    alloc: Global,
    tracks: &Tracks,
    train: u32,
    names: &[String],
) -> Result<Vec<u32>, MissionRefused>
    requires { length names.now ≤ 128 }
    ensures { AnswersAs MissionRefused.Memory (λ points. points.items) result (unless (way_refusal tracks.now train (names_seen names.now)) (way_value tracks.now (names_seen names.now))) }
{
    let mut points = Vec::new(alloc);
    let mut before = None;
    for (place, name) in names.iter().enumerate() {
        let point = step(tracks, train, place as u32, before, name)?;
        points.push(point)?;
        before = Some(point);
    }
    Ok(points)
}

// The point at a place, by the point before it and its name.
fn step(
    tracks: &Tracks,
    train: u32,
    place: u32,
    before: Option<u32>,
    name: &str,
) -> Result<u32, MissionRefused>
    ensures { result ≡ unless (step_refusal tracks.now train place before name.now) (number_in (point_names tracks.now) name.now) }
{
    let Some(point) = tracks.number_of(name) else {
        return Err(MissionRefused::UnknownPoint { train, place });
    };
    if is_cut(tracks, before, point) {
        return Err(MissionRefused::NotLinked { train, place });
    }
    Ok(point)
}

// Whether there is a point before, and no link from it.
fn is_cut(tracks: &Tracks, before: Option<u32>, point: u32) -> bool
    requires { point < length tracks.now.points }
    ensures { result ≡ is_cut tracks.now before point }
{
    match before {
        Some(before) => !tracks.are_linked(before, point),
        None => false,
    }
}
