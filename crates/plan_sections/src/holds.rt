// What an entry says of the shares of a section, by names of trains and places. What is written is read back before it is given, so that
// no clause says what it is.
use document_json::{Doc, layout_of, names_of, table_of, tables_of};
use rail_model::{Changes, Layout};
use std::alloc::AllocError;

// The name of the place after the exit.
const AFTER_EXIT: &str = "-";

// The name of the first place of a route; a point that is called so has to be counted.
const START: &str = "start";

// The points of a train's route under the first table.
fn route_of(doc: &Doc, train: usize) -> &[u32] {
    if tables_of(doc) == 0 {
        return &[];
    }
    match table_of(doc, 0).missions().as_slice().get(train) {
        Some(mission) => mission.as_slice(),
        None => &[],
    }
}

// The name of a train; no letters for a number that no train has.
fn train_name(doc: &Doc, train: usize) -> &str {
    let names = names_of(doc);
    if train < names.trains() {
        names.train(train as u32)
    } else {
        ""
    }
}

// The name of a point; no letters for a number that no point has.
fn point_name(layout: &Layout, point: u32) -> &str {
    match layout.points().get(point as usize) {
        Some(point) => point.name(),
        None => "",
    }
}

// How many times a point comes on a part of a route.
fn times(part: &[u32], point: u32) -> usize {
    let mut times = 0usize;
    for other in part {
        if *other == point {
            times = times.saturating_add(1);
        }
    }
    times
}

// A route up to a place, and with it.
fn up_to(route: &[u32], place: usize) -> &[u32] {
    if place < route.len() {
        &route[..place + 1]
    } else {
        route
    }
}

// Adds the name of a place: its point, with how many times it has come up to there if it comes again, or is called as the first place is.
fn push_place(
    out: &mut String,
    layout: &Layout,
    route: &[u32],
    place: usize,
) -> Result<(), AllocError> {
    let Some(point) = route.get(place).copied() else {
        return write!(out, "\"{AFTER_EXIT}\"");
    };
    let name = point_name(layout, point);
    if times(route, point) == 1 && name != START {
        return out.push_str(name);
    }
    let count = times(up_to(route, place), point);
    write!(out, "\"{name}#{count}\"")
}

// Whether a place of a route has to be named: a share holds until the next place that is named, but not after the exit.
fn is_named(route: &[u32], place: usize, change: i32, share: i32) -> bool {
    if place < route.len() {
        change != 0
    } else {
        share != 0
    }
}

// Adds the shares of a train by the names of places.
fn push_shares(
    out: &mut String,
    layout: &Layout,
    route: &[u32],
    changes: &[i32],
) -> Result<(), AllocError> {
    let mut share = 0i32;
    let mut before = "{ ";
    for (place, change) in changes.iter().enumerate() {
        share = share.saturating_add(*change);
        if is_named(route, place, *change, share) {
            out.push_str(before)?;
            push_place(out, layout, route, place)?;
            write!(out, " = {share}")?;
            before = ", ";
        }
    }
    out.push_str(" }")
}

// Whether a train has a share anywhere.
fn has_shares(changes: &[i32]) -> bool {
    for change in changes {
        if *change != 0 {
            return true;
        }
    }
    false
}

// Adds the shares of a train behind its name, with what goes before.
fn push_train(
    out: &mut String,
    doc: &Doc,
    before: &str,
    train: usize,
    changes: &[i32],
) -> Result<(), AllocError> {
    let name = train_name(doc, train);
    write!(out, "{before}{name} = ")?;
    push_shares(out, layout_of(doc), route_of(doc, train), changes)
}

/// Adds the shares of all trains that have any.
pub(crate) fn push_holds(
    out: &mut String,
    doc: &Doc,
    changes: &[Changes],
) -> Result<(), AllocError> {
    let mut before = "{ ";
    for (train, changes) in changes.iter().enumerate() {
        if has_shares(changes.as_slice()) {
            push_train(out, doc, before, train, changes.as_slice())?;
            before = ", ";
        }
    }
    out.push_str(if before == ", " { " }" } else { "{}" })
}
