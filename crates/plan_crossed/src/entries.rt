// The crossings, scissors and ladders that a text says.
ghost use Rattle.std.specs.Prelude.{◌≡◌, IfOk, bytes_eq, codes, map, option_map, position, slice_get, slice_index_or, string_bytes};
ghost use Rattle.std.specs.List.{list_all};
ghost use Rattle.toml.specs.View.{table_view, view};
ghost use Rattle.plan_crossings.specs.Numbers.{is_of};
ghost use Rattle.plan_crossed.specs.Numbered.{number_of as number_in};
ghost use Rattle.plan_crossed.specs.Said as spec;

use crate::numbers::number_of;
use crate::parts::{entries_at, list_of, table_of, text_of, value_at};
use crate::telling::{tell_no_point, tell_no_way};
use plan_crossings::{Crossing, Group, Track, Way, ladder, scissors};
use plan_document::Plan;
use plan_entries::{Entries, Entry, Faults, Kind};
use std::alloc::{AllocError, Global};
use toml::{Table, Value};

/// What an entry says: a crossing by its ways, scissors by their tracks, or a ladder by its roads.
#[derive(Clone, Copy)]
pub(crate) enum Shape {
    Ways,
    Tracks,
    Roads,
}

impl Shape {
    // The kind of the entry.
    fn kind(self) -> Kind {
        match self {
            Shape::Ways => Kind::Crossing,
            Shape::Tracks => Kind::Scissors,
            Shape::Roads => Kind::Ladder,
        }
    }
}

// The number of a point; told, if there is none.
fn point(faults: &mut Faults, at: &Entry, plan: &Plan, name: &str) -> Result<usize, AllocError>
    ensures { IfOk result (λ number. number ≡ number_in plan.now.points.items name.now) }
{
    let number = number_of(&plan.points, name);
    if number == plan.points.len() {
        tell_no_point(faults, at, plan, name)?;
    }
    Ok(number)
}

// Points by their numbers.
fn points(
    faults: &mut Faults,
    at: &Entry,
    plan: &Plan,
    names: &[Value],
) -> Result<Vec<usize>, AllocError>
    ensures { IfOk result (λ found. found.items ≡ map (spec.point_said plan.now.points.items) (map view names.now)) }
{
    let mut found = Vec::new(faults.alloc());
    for name in names {
        found.push(point(faults, at, plan, text_of(Some(name)))?)?;
    }
    Ok(found)
}

// The points that a value says.
fn points_of(
    faults: &mut Faults,
    at: &Entry,
    plan: &Plan,
    names: Option<&Value>,
) -> Result<Vec<usize>, AllocError>
    ensures { IfOk result (λ found. found.items ≡ spec.points_said plan.now.points.items (option_map (λ v. view v.now) names.entry)) }
{
    points(faults, at, plan, list_of(names))
}

fn way(faults: &mut Faults, at: &Entry, plan: &Plan, names: &Value) -> Result<Way, AllocError>
    ensures { IfOk result (λ way. way ≡ spec.way_said plan.now.points.items (view names.now)) }
{
    let points = points_of(faults, at, plan, Some(names))?;
    Way::new(faults.alloc(), points)
}

// The ways of a table.
fn ways(faults: &mut Faults, at: &Entry, plan: &Plan, table: &Table) -> Result<Vec<Way>, AllocError>
    ensures { IfOk result (λ ways. ways.items ≡ map (spec.way_said plan.now.points.items) (spec.values_of (table_view table.now))) }
{
    let mut found = Vec::new(faults.alloc());
    for (_, names) in table.iter() {
        found.push(way(faults, at, plan, names)?)?;
    }
    Ok(found)
}

// The names of the ways of a table.
fn way_names(alloc: Global, table: &Table) -> Result<Vec<String>, AllocError>
    ensures { IfOk result (λ names. map string_bytes names.items ≡ spec.names_of (table_view table.now)) }
{
    let mut found = Vec::new(alloc);
    for (name, _) in table.iter() {
        found.push(name.clone()?)?;
    }
    Ok(found)
}

// Whether a way has this name.
fn is_called(known: &String, name: &str) -> bool
    ensures { result ≡ bytes_eq name.now (string_bytes known.now) }
{
    name == known.as_str()
}

// The place of a name among those of ways.
fn place_among(names: &[String], name: &str) -> Option<usize>
    ensures { result ≡ position (λ known. bytes_eq name.now (string_bytes known)) names.now }
{
    names.iter().position(|known| is_called(known, name))
}

// The number of a way; how many there are, if it is none of them.
#[tactic(auto, using(crate::proofs::Carried::number_named))]
fn number_among(names: &[String], name: &str) -> usize
    ensures { result ≡ spec.number_among name.now (map string_bytes names.now) }
{
    match place_among(names, name) {
        Some(number) => number,
        None => names.len(),
    }
}

// The number of a way; told, if there is none.
fn way_number(
    faults: &mut Faults,
    at: &Entry,
    names: &[String],
    name: &str,
) -> Result<usize, AllocError>
    ensures { IfOk result (λ number. number ≡ spec.number_among name.now (map string_bytes names.now)) }
{
    let number = number_among(names, name);
    if number == names.len() {
        tell_no_way(faults, at, names, name)?;
    }
    Ok(number)
}

// The numbers of ways.
fn way_numbers(
    faults: &mut Faults,
    at: &Entry,
    names: &[String],
    values: &[Value],
) -> Result<Vec<usize>, AllocError>
    ensures { IfOk result (λ found. found.items ≡ map (spec.number_said (map string_bytes names.now)) (map view values.now)) }
{
    let mut found = Vec::new(faults.alloc());
    for value in values {
        found.push(way_number(faults, at, names, text_of(Some(value)))?)?;
    }
    Ok(found)
}

fn group(
    faults: &mut Faults,
    at: &Entry,
    names: &[String],
    value: &Value,
) -> Result<Group, AllocError>
    ensures { IfOk result (λ group. group ≡ spec.group_said (map string_bytes names.now) (view value.now)) }
{
    let found = way_numbers(faults, at, names, list_of(Some(value)))?;
    Ok(Group::new(found))
}

// Groups of ways.
fn groups(
    faults: &mut Faults,
    at: &Entry,
    names: &[String],
    values: &[Value],
) -> Result<Vec<Group>, AllocError>
    ensures { IfOk result (λ found. found.items ≡ map (spec.group_said (map string_bytes names.now)) (map view values.now)) }
{
    let mut found = Vec::new(faults.alloc());
    for value in values {
        found.push(group(faults, at, names, value)?)?;
    }
    Ok(found)
}

// A crossing with these ways and these groups of parallel ones.
fn crossing_by(
    faults: &mut Faults,
    entry: &Entry,
    plan: &Plan,
    table: &Table,
    values: &[Value],
) -> Result<Crossing, AllocError>
    ensures { IfOk result (λ made. made ≡ spec.crossing_by plan.now.points.items (table_view table.now) (map view values.now)) }
{
    let found = ways(faults, &entry.at("ways"), plan, table)?;
    let names = way_names(faults.alloc(), table)?;
    let parallel = groups(faults, &entry.at("parallel"), &names, values)?;
    Ok(Crossing::new(found, parallel))
}

// What an entry says of a crossing.
fn crossing(
    faults: &mut Faults,
    entry: &Entry,
    plan: &Plan,
    value: &Value,
) -> Result<Crossing, AllocError>
    ensures { IfOk result (λ made. made ≡ spec.crossing_said plan.now.points.items (view value.now)) }
{
    let groups = list_of(value_at(value, "parallel"));
    match table_of(value_at(value, "ways")) {
        Some(table) => crossing_by(faults, entry, plan, table, groups),
        None => {
            let none = Table::new(faults.alloc());
            crossing_by(faults, entry, plan, &none, groups)
        }
    }
}

// One of these numbers; or another one, if it isn't there.
fn number_at(numbers: &[usize], index: usize, none: usize) -> usize
    ensures { result ≡ slice_index_or numbers.now index none }
{
    match numbers.get(index) {
        Some(number) => *number,
        None => none,
    }
}

// A track of scissors.
fn track(
    faults: &mut Faults,
    at: &Entry,
    plan: &Plan,
    names: Option<&Value>,
) -> Result<Track, AllocError>
    ensures { IfOk result (λ track. track ≡ spec.track_said plan.now.points.items (option_map (λ v. view v.now) names.entry)) }
{
    let points = points_of(faults, at, plan, names)?;
    let none = plan.points.len();
    Ok(Track {
        from: number_at(&points, 0, none),
        over: number_at(&points, 1, none),
        to: number_at(&points, 2, none),
    })
}

// The value at a place of a list.
fn item_at(values: &[Value], index: usize) -> Option<&Value>
    ensures { option_map (λ v. view v.now) result ≡ slice_get (map view values.now) index }
{
    values.get(index)
}

// Whether a list has three items.
#[tactic(auto, using(crate::proofs::Carried::length_view))]
fn has_three(names: &Value) -> bool
    ensures { result ≡ spec.has_three (view names.now) }
{
    list_of(Some(names)).len() == 3
}

// Whether lists have three items each.
fn have_three(lists: &[Value]) -> bool
    ensures { result ≡ list_all (λ names. spec.has_three (view names)) lists.now }
{
    lists.iter().all(|names| has_three(names))
}

// Whether there are two lists, and both have three items.
#[tactic(auto, using(crate::proofs::Carried::length_view, crate::proofs::Carried::all_view))]
fn are_tracks(tracks: &[Value]) -> bool
    ensures { result ≡ spec.are_tracks (map view tracks.now) }
{
    tracks.len() == 2 && have_three(tracks)
}

// Whether an entry of scissors has two tracks of three points.
fn has_tracks(entry: &Value) -> bool
    ensures { result ≡ spec.has_tracks (view entry.now) }
{
    are_tracks(list_of(value_at(entry, "tracks")))
}

// Scissors of the first two of these tracks.
fn scissors_by(
    faults: &mut Faults,
    at: &Entry,
    plan: &Plan,
    tracks: &[Value],
) -> Result<Crossing, AllocError>
    ensures { IfOk result (λ made. made ≡ spec.scissors_by plan.now.points.items (map view tracks.now)) }
{
    let one = track(faults, at, plan, item_at(tracks, 0))?;
    let other = track(faults, at, plan, item_at(tracks, 1))?;
    scissors(faults.alloc(), one, other)
}

// What an entry says of scissors.
fn scissors_of(
    faults: &mut Faults,
    entry: &Entry,
    plan: &Plan,
    value: &Value,
) -> Result<Crossing, AllocError>
    ensures { IfOk result (λ made. made ≡ spec.scissors_said plan.now.points.items (view value.now)) }
{
    let at = entry.at("tracks");
    if !has_tracks(value) {
        faults.tell(&at, "scissors have two tracks of three points", &[]);
    }
    scissors_by(faults, &at, plan, list_of(value_at(value, "tracks")))
}

// What an entry says of a ladder.
fn ladder_of(
    faults: &mut Faults,
    entry: &Entry,
    plan: &Plan,
    value: &Value,
) -> Result<Crossing, AllocError>
    ensures { IfOk result (λ made. made ≡ spec.ladder_said plan.now.points.items (view value.now)) }
{
    let over = point(
        faults,
        &entry.at("name"),
        plan,
        text_of(value_at(value, "name")),
    )?;
    let leads = points_of(faults, &entry.at("leads"), plan, value_at(value, "leads"))?;
    let roads = points_of(faults, &entry.at("roads"), plan, value_at(value, "roads"))?;
    let made = ladder(faults.alloc(), over, &leads, &roads)?;
    Ok(made)
}

// What an entry says.
fn made(
    faults: &mut Faults,
    entry: &Entry,
    plan: &Plan,
    shape: Shape,
    value: &Value,
) -> Result<Crossing, AllocError>
    ensures { IfOk result (λ made. made ≡ spec.said shape plan.now.points.items (view value.now)) }
{
    match shape {
        Shape::Ways => crossing(faults, entry, plan, value),
        Shape::Tracks => scissors_of(faults, entry, plan, value),
        Shape::Roads => ladder_of(faults, entry, plan, value),
    }
}

// What entries say.
fn all_made(
    faults: &mut Faults,
    plan: &Plan,
    shape: Shape,
    values: &[Value],
) -> Result<Vec<Crossing>, AllocError>
    ensures { IfOk result (λ found. found.items ≡ map (spec.said shape plan.now.points.items) (map view values.now)) }
{
    let entries = Entries {
        kind: shape.kind(),
        table: None,
        values,
    };
    let mut found = Vec::new(faults.alloc());
    for value in values {
        let entry = entries.entry(found.len());
        found.push(made(faults, &entry, plan, shape, value)?)?;
    }
    Ok(found)
}

/// All crossings of a text: crossings, then scissors, then ladders.
pub(crate) fn crossings(
    faults: &mut Faults,
    plan: &Plan,
    text: &Table,
) -> Result<Vec<Crossing>, AllocError>
    ensures { IfOk result (λ found. found.items ≡ spec.crossings_said plan.now.points.items (table_view text.now)) }
{
    let mut found = all_made(faults, plan, Shape::Ways, entries_at(text, "crossing"))?;
    let mut scissors = all_made(faults, plan, Shape::Tracks, entries_at(text, "scissors"))?;
    let mut ladders = all_made(faults, plan, Shape::Roads, entries_at(text, "ladder"))?;
    found.append(&mut scissors)?;
    found.append(&mut ladders)?;
    Ok(found)
}

/// Whether each of these crossings is one of so many points.
pub(crate) fn are_known(crossings: &[Crossing], points: usize) -> bool
    ensures { result ≡ list_all (is_of points) crossings.now }
{
    crossings.iter().all(|crossing| crossing.is_of(points))
}

// Whether entries of scissors have two tracks of three points.
fn all_have_tracks(entries: &[Value]) -> bool
    ensures { result ≡ list_all (λ entry. spec.has_tracks (view entry)) entries.now }
{
    entries.iter().all(|entry| has_tracks(entry))
}

/// Whether all scissors of a text have two tracks of three points.
pub(crate) fn have_tracks(text: &Table) -> bool
    ensures { result ≡ list_all spec.has_tracks (spec.entries_at (codes "scissors") (table_view text.now)) }
{
    all_have_tracks(entries_at(text, "scissors"))
}
