// The order of points from the top of a picture down.
ghost use Rattle.std.specs.Prelude.{◌≤◌, Contains, IfOk, IfSome, OnOk, vec_len};
ghost use Rattle.train_graph.specs.Rows.{HasRows, HasStarts, HasTargets, Adds, IsOnce};

use crate::scale::place_in;
use rail_model::{Layout, Point};
use run_timetable::{Run, Step};
use std::alloc::{AllocError, Global};

// The most rows of a picture: a layout has no more points.
const MOST_ROWS: usize = 512;

// How deep the first station lies, how much deeper the next one of a way, and how much deeper a way apart from the others.
const FIRST: u64 = 1 << 40;

const STEP: u64 = 1 << 20;

const APART: u64 = 1 << 30;

// Ways with so many known places, or more, go first.
const MOST_KNOWN: u64 = 8;

// A station, and how deep it lies.
#[derive(Clone, Copy)]
struct Depth {
    station: u32,
    depth: u64,
}

/// The points that trains come to, from the top down. The way of the chosen train, or of the one with the most places, goes
/// down; if it comes to a station again, it turns half way, and goes up from there. The other ways follow it, down or up,
/// from the points that they have in common with ways before them. A way that has just one goes up. Points whose names
/// differ only after the last `_`, where a letter follows, are one station, and lie side by side. A train that turns, but
/// comes to no station where it or another train has been, seems to go on.
pub(crate) fn rows_of(
    alloc: Global,
    layout: &Layout,
    run: &Run,
    chosen: Option<u32>,
) -> Result<Vec<u32>, AllocError>
    ensures few { IfOk result (λ rows. vec_len rows ≤ 512) }
    ensures rows { IfOk result (λ rows. HasRows run.now rows.items) }
    ensures once { IfOk result (λ rows. IsOnce rows.items) }
{
    let stations = stations_of(alloc, layout)?;
    let depths = depths_of(alloc, &stations, run, chosen)?;
    let mut rows = Vec::new(alloc);
    push_starts(&mut rows, &run.starts)?;
    push_targets(&mut rows, &run.steps)?;
    rows.sort_by_key(|point| {
        let station = station_of(&stations, *point);
        (depth_of(&depths, station).unwrap_or(0), station, *point)
    })?;
    rows.truncate(MOST_ROWS);
    Ok(rows)
}

// Adds the points at which trains begin.
fn push_starts(points: &mut Vec<u32>, starts: &[Option<u32>]) -> Result<(), AllocError>
    ensures adds { OnOk result (Adds points.old.items points.new.items) }
    ensures all { OnOk result (HasStarts points.new.items starts.now) }
{
    for start in starts {
        push_new(points, *start)?;
    }
    Ok(())
}

// Adds the points to which steps lead.
fn push_targets(points: &mut Vec<u32>, steps: &[Step]) -> Result<(), AllocError>
    ensures adds { OnOk result (Adds points.old.items points.new.items) }
    ensures all { OnOk result (HasTargets points.new.items steps.now) }
{
    for step in steps {
        push_new(points, step.to)?;
    }
    Ok(())
}

// Adds a point, if there is one, and it isn't there yet.
fn push_new(points: &mut Vec<u32>, point: Option<u32>) -> Result<(), AllocError>
    ensures adds { OnOk result (Adds points.old.items points.new.items) }
    ensures there { OnOk result (IfSome point (Contains points.new.items)) }
{
    if let Some(point) = point
        && !points.contains(&point)
    {
        points.push(point)?;
    }
    Ok(())
}

/// What the names of one station begin with: all before the last `_`, if a letter follows.
pub(crate) fn stem_of(name: &str) -> &str {
    if let Some((stem, track)) = name.rsplit_once("_")
        && matches!(track.as_bytes().first(), Some(b'A'..=b'Z' | b'a'..=b'z'))
    {
        stem
    } else {
        name
    }
}

// The first point whose name has this stem.
fn first_of(points: &[Point], stem: &str) -> u32 {
    for (number, point) in points.iter().enumerate() {
        if stem_of(point.name()) == stem {
            return number.min(MOST_ROWS) as u32;
        }
    }
    0
}

// The stations of all points. A station has the number of its first point.
fn stations_of(alloc: Global, layout: &Layout) -> Result<Vec<u32>, AllocError> {
    let points = layout.points();
    let mut stations = Vec::new(alloc);
    for point in points {
        stations.push(first_of(points, stem_of(point.name())))?;
    }
    Ok(stations)
}

// The station of a point.
fn station_of(stations: &[u32], point: u32) -> u32 {
    stations.get(point as usize).copied().unwrap_or(point)
}

// How deep the stations of all ways lie: first those of the chosen train or of the longest way, then those of ways with many
// known places, and at last those of all others.
fn depths_of(
    alloc: Global,
    stations: &[u32],
    run: &Run,
    chosen: Option<u32>,
) -> Result<Vec<Depth>, AllocError> {
    let mut depths = Vec::new(alloc);
    let first = chosen.unwrap_or(longest(run));
    push_train(alloc, &mut depths, stations, run, first, 0)?;
    for known in (0..=MOST_KNOWN).rev() {
        push_trains(alloc, &mut depths, stations, run, known)?;
    }
    Ok(depths)
}

// Adds the ways with so many known places.
fn push_trains(
    alloc: Global,
    depths: &mut Vec<Depth>,
    stations: &[u32],
    run: &Run,
    known: u64,
) -> Result<(), AllocError> {
    for train in 0..run.trains() {
        push_train(alloc, depths, stations, run, train, known)?;
    }
    Ok(())
}

// Adds the way of a train, if it has so many known places: what follows a known place, and then, from its end, what is before.
fn push_train(
    alloc: Global,
    depths: &mut Vec<Depth>,
    stations: &[u32],
    run: &Run,
    train: u32,
    known: u64,
) -> Result<(), AllocError> {
    let mut way = way_of(alloc, stations, run, train)?;
    let places = known_in(depths, &way);
    if places < known || places == way.len() as u64 {
        return Ok(());
    }
    if places == 0 {
        push_fresh(depths, &way)?;
    }
    push_along(depths, &way)?;
    way.reverse();
    push_along(depths, &way)
}

// How many steps a train makes.
fn steps_of(run: &Run, train: u32) -> u64 {
    let mut steps: u64 = 0;
    for step in &run.steps {
        if step.train == train {
            steps = steps.saturating_add(1);
        }
    }
    steps
}

// The train with the most steps, the first of several.
fn longest(run: &Run) -> u32 {
    let mut first = 0;
    for train in 0..run.trains() {
        if steps_of(run, first) < steps_of(run, train) {
            first = train;
        }
    }
    first
}

// The stations that a train comes to, in order.
fn way_of(alloc: Global, stations: &[u32], run: &Run, train: u32) -> Result<Vec<u32>, AllocError> {
    let mut way = Vec::new(alloc);
    if let Some(point) = run.start(train) {
        way.push(station_of(stations, point))?;
    }
    for step in &run.steps {
        if step.train == train
            && let Some(point) = step.to
        {
            way.push(station_of(stations, point))?;
        }
    }
    Ok(way)
}

// How deep a station lies, if that is known.
fn depth_of(depths: &[Depth], station: u32) -> Option<u64> {
    for known in depths {
        if known.station == station {
            return Some(known.depth);
        }
    }
    None
}

// At how many places of a way the depth is known.
fn known_in(depths: &[Depth], way: &[u32]) -> u64 {
    let mut places: u64 = 0;
    for station in way {
        if depth_of(depths, *station).is_some() {
            places = places.saturating_add(1);
        }
    }
    places
}

// How many places a way has up to where it turns: half way from a station to where it comes back there from another one.
fn first_leg(way: &[u32]) -> usize {
    let mut last = None;
    for (place, station) in way.iter().enumerate() {
        if last != Some(*station)
            && let Some(first) = place_in(way.get(..place).unwrap_or(&[]), *station)
        {
            return first.saturating_add(place) / 2 + 1;
        }
        last = Some(*station);
    }
    way.len()
}

// Adds a way without known places below all others, up to where it turns.
fn push_fresh(depths: &mut Vec<Depth>, way: &[u32]) -> Result<(), AllocError> {
    let mut depth = FIRST.saturating_add(APART.saturating_mul(depths.len() as u64));
    for station in way.get(..first_leg(way)).unwrap_or(way) {
        if depth_of(depths, *station).is_none() {
            depths.push(Depth {
                station: *station,
                depth,
            })?;
            depth = depth.saturating_add(STEP);
        }
    }
    Ok(())
}

// Whether a way goes down where it is known first. Without two depths it goes up.
fn goes_down(depths: &[Depth], way: &[u32]) -> bool {
    let mut first = None;
    for station in way {
        if let Some(depth) = depth_of(depths, *station) {
            let before = first.unwrap_or(depth);
            if depth != before {
                return depth > before;
            }
            first = Some(before);
        }
    }
    false
}

// Adds the places after the first known one.
fn push_along(depths: &mut Vec<Depth>, way: &[u32]) -> Result<(), AllocError> {
    let mut down = goes_down(depths, way);
    let mut before: Option<u64> = None;
    for (place, station) in way.iter().enumerate() {
        let depth = match (depth_of(depths, *station), before) {
            (Some(depth), _) => depth,
            (None, Some(before)) => {
                let next = next_known(depths, way.get(place..).unwrap_or(&[]));
                let depth = depth_behind(before, next, down);
                depths.push(Depth {
                    station: *station,
                    depth,
                })?;
                depth
            }
            (None, None) => continue,
        };
        if let Some(before) = before
            && depth != before
        {
            down = depth > before;
        }
        before = Some(depth);
    }
    Ok(())
}

// How deep the next known place lies, and how many steps it is away.
#[derive(Clone, Copy)]
struct Next {
    depth: u64,
    steps: u64,
}

// The next known place of the rest of a way.
fn next_known(depths: &[Depth], rest: &[u32]) -> Option<Next> {
    let mut steps: u64 = 0;
    for station in rest {
        if let Some(depth) = depth_of(depths, *station) {
            return Some(Next { depth, steps });
        }
        steps = steps.saturating_add(1);
    }
    None
}

// How deep a place lies that follows another: further in the same direction, if no known place follows, or if the next one
// lies behind and there are steps enough to turn later; else on the way to that one.
fn depth_behind(before: u64, next: Option<Next>, down: bool) -> u64 {
    let onward = if down {
        before.saturating_add(STEP)
    } else {
        before.saturating_sub(STEP)
    };
    let Some(next) = next else {
        return onward;
    };
    let far = before.abs_diff(next.depth);
    let ahead = far > 0 && (next.depth > before) == down;
    if !ahead && far.saturating_add(STEP) <= next.steps.saturating_mul(STEP) {
        return onward;
    }
    let part = far / next.steps.saturating_add(1).max(1);
    if next.depth > before {
        before.saturating_add(part)
    } else {
        before.saturating_sub(part)
    }
}
