// Faults of crossings in words.
use crate::parts::{entries_at, table_of};
use plan_crossings::{Fault, Refused};
use plan_document::{Plan, TablePlan};
use plan_entries::{Entries, Entry, Faults, Kind, Part, tell_no};
use std::alloc::AllocError;
use toml::Table;

/// Tells that there is no point of this name.
pub(crate) fn tell_no_point(
    faults: &mut Faults,
    at: &Entry,
    plan: &Plan,
    name: &str,
) -> Result<(), AllocError> {
    let mut known = Vec::new(faults.alloc());
    for point in &plan.points {
        known.push(point.0.as_str())?;
    }
    tell_no(faults, at, "point", name, &known);
    Ok(())
}

/// Tells that there is no way of this name.
pub(crate) fn tell_no_way(
    faults: &mut Faults,
    at: &Entry,
    names: &[String],
    name: &str,
) -> Result<(), AllocError> {
    let mut known = Vec::new(faults.alloc());
    for name in names {
        known.push(name.as_str())?;
    }
    tell_no(faults, at, "way", name, &known);
    Ok(())
}

// An entry of a list.
fn entry_in(text: &Table, kind: Kind, index: usize) -> Entry {
    Entries {
        kind,
        table: None,
        values: entries_at(text, kind.word()),
    }
    .entry(index)
}

// The entry of a crossing: crossings come first, then scissors, then ladders.
fn entry_of(text: &Table, crossing: usize) -> Entry {
    let crossings = entries_at(text, "crossing").len();
    if crossing < crossings {
        return entry_in(text, Kind::Crossing, crossing);
    }
    let later = crossing.saturating_sub(crossings);
    let scissors = entries_at(text, "scissors").len();
    if later < scissors {
        return entry_in(text, Kind::Scissors, later);
    }
    entry_in(text, Kind::Ladder, later.saturating_sub(scissors))
}

// The name of a way of an entry.
fn way_name<'t>(entry: &Entry<'t>, way: usize) -> &'t str {
    let Some(ways) = table_of(entry.value("ways")) else {
        return "";
    };
    for (index, name) in ways.keys().enumerate() {
        if index == way {
            return name.as_str();
        }
    }
    ""
}

// Tells that two parallel ways have a point in common, or the tracks of scissors, which are all the parallel ways that these have.
fn tell_common(faults: &mut Faults, entry: &Entry, way: usize, other: usize) {
    if entry.value("tracks").is_some() {
        return faults.tell(
            &entry.at("tracks"),
            "the tracks have a point between their ends in common",
            &[],
        );
    }
    let parts = [
        Part::Name(way_name(entry, way)),
        Part::Name(way_name(entry, other)),
    ];
    let form = "the parallel ways {} and {} have a point between their ends in common";
    faults.tell(&entry.at("parallel"), form, &parts);
}

// Tells what is wrong with a crossing in a table.
fn tell_fault<'x>(
    faults: &mut Faults,
    entry: &Entry,
    plan: &'x Plan,
    number: usize,
    table: &'x TablePlan,
    fault: Fault,
) {
    match fault {
        Fault::NoInner { way } => {
            let parts = [Part::Name(way_name(entry, way))];
            faults.tell(
                &entry.at("ways"),
                "the way {} has no point between its ends",
                &parts,
            );
        }
        Fault::Common { way, other } => tell_common(faults, entry, way, other),
        Fault::Stray { train, place } => {
            let parts = [
                Part::Name(plan.trains.get(train).map_or("", |name| name.as_str())),
                Part::Name(
                    table
                        .route(train)
                        .get(place)
                        .map_or("", |name| name.as_str()),
                ),
                Part::InTable(number),
            ];
            faults.tell(entry, "train {} comes to {} by no way of it{}", &parts);
        }
    }
}

/// Tells why a table has no sections of crossings.
pub(crate) fn tell_refused(
    faults: &mut Faults,
    text: &Table,
    plan: &Plan,
    number: usize,
    table: &TablePlan,
    refused: Refused,
) -> Result<(), AllocError> {
    match refused {
        Refused::Memory => return Err(AllocError),
        Refused::Faulty { crossing, fault } => {
            tell_fault(
                faults,
                &entry_of(text, crossing),
                plan,
                number,
                table,
                fault,
            );
        }
        Refused::Many { crossing, count } => {
            let parts = [
                Part::Count(count),
                Part::InTable(number),
                Part::Count(table.sections.len()),
            ];
            let form =
                "no room for the sections of the crossings up to it: {}{}, beside {} others; a table has at most 64";
            faults.tell(&entry_of(text, crossing), form, &parts);
        }
    }
    Ok(())
}
