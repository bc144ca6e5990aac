// The maker of sections that forbid stays.
ghost use Rattle.std.specs.Prelude.{◌≡◌, ◌<◌, ◌≤◌, All, IfOk, length, map};
ghost use Rattle.rail_model.specs.Table.{IsMission, last_of as last_place_of};
ghost use Rattle.forbidden_states.specs.Forbid.{AreStays, stay_of as stay_of_train, change_of as change_in_span, change_at as change_of_stay, changes_of as changes_under, all_changes as changes_of_all, forbidding as section_forbidding, marked as marked_of};

use crate::{Stay, Stays};
use rail_model::{Changes, Mission, Missions, Section, Table};
use state_boxes::Span;
use std::alloc::{AllocError, Global};

// The first stay of a train.
fn stay_of(stays: &[Stay], train: u32) -> Option<Stay>
    ensures { result ≡ stay_of_train stays.now train }
{
    stays.iter().copied().find(|stay| stay.train() == train)
}

// The change at a place of a share that is 1 in a span and 0 elsewhere.
fn change_of(span: Span, place: u32) -> i32
    ensures { result ≡ change_in_span span place }
{
    if place == span.lo() {
        1
    } else if u64::from(place) == u64::from(span.hi()) + 1 {
        -1
    } else {
        0
    }
}

fn change_at(stay: &Option<Stay>, place: u32) -> i32
    ensures { result ≡ change_of_stay stay.now place }
{
    match stay {
        Some(stay) => change_of(stay.span(), place),
        None => 0,
    }
}

/// The last place of a train with this way.
pub fn last_of(mission: &Mission) -> u32
    requires { IsMission mission.now }
    ensures { result ≡ last_place_of mission.now }
{
    let points = mission.points() as u32;
    if mission.exits() { points } else { points - 1 }
}

// The changes of a train that may have a stay, one per place.
fn changes_of(alloc: Global, mission: &Mission, stay: &Option<Stay>) -> Result<Changes, AllocError>
    requires { IsMission mission.now }
    ensures { IfOk result (λ changes. changes ≡ changes_under mission.now stay.now) }
{
    let places = last_of(mission) + 1;
    let mut changes = Vec::new(alloc);
    changes.reserve(places as usize)?;
    for place in 0..places {
        changes.push_reserved(change_at(stay, place));
    }
    Ok(Changes::from(changes))
}

// The changes of all trains.
fn all_changes(
    alloc: Global,
    missions: &Missions,
    stays: &[Stay],
) -> Result<Vec<Changes>, AllocError>
    ensures { IfOk result (λ changes. changes.items ≡ changes_of_all missions.now stays.now) }
{
    let mut changes = Vec::new(alloc);
    for train in 0..missions.len() as u32 {
        let stay = stay_of(stays, train);
        changes.push(changes_of(alloc, missions.mission(train), &stay)?)?;
    }
    Ok(changes)
}

// The section that lets one train fewer than all into their spans.
fn forbidding(alloc: Global, missions: &Missions, stays: &[Stay]) -> Result<Section, AllocError>
    requires { length stays.now ≤ 32 }
    ensures { IfOk result (λ section. section ≡ section_forbidding missions.now stays.now) }
{
    let limit = stays.len().saturating_sub(1) as u32;
    Ok(Section::new(limit, all_changes(alloc, missions, stays)?))
}

fn sections(alloc: Global, missions: &Missions, all: &[Stays]) -> Result<Vec<Section>, AllocError>
    requires { All (λ stays. length stays ≤ 32) all.now }
    ensures { IfOk result (λ sections. sections.items ≡ map (section_forbidding missions.now) all.now) }
{
    let mut sections = Vec::new(alloc);
    for stays in all {
        sections.push(forbidding(alloc, missions, stays.as_slice())?)?;
    }
    Ok(sections)
}

/// The missions with a section for each list of stays, in the lists' order. A section's limit is one less than the number of its
/// stays, and a train's share is 1 in its span. The only error is that there is no memory; the missions are dropped then.
pub fn marked(alloc: Global, missions: Missions, all: &[Stays]) -> Result<Table, AllocError>
    requires few { length all.now ≤ 64 }
    requires stays { All (AreStays (length missions)) all.now }
    ensures { IfOk result (λ table. table ≡ marked_of missions all.now) }
{
    let sections = sections(alloc, &missions, all)?;
    Ok(Table::new(missions, sections, Vec::new(alloc)))
}
