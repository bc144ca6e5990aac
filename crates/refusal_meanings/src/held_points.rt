// The points at which trains have shares of a section of a table.
ghost use Rattle.std.specs.Prelude.{◌≡◌, ◌<◌, ◌≤◌, ◌+◌, ◌++◌, All, IfOk, OnOk, length, string_bytes};
ghost use Rattle.rail_model.specs.Table.{trains, last};
ghost use Rattle.refusal_meanings.specs.HeldPoints.{held_at, with_point, held_before, held_points as held_points_of, listed_point, end_words, points_words};

use rail_model::{Names, Table, last_of, point_of, share_at, trains_of};
use std::alloc::{AllocError, Global};

// Adds the point of a train at a place, if the train has a share of a section there, unless the list has the point.
fn push_held(
    points: &mut Vec<u32>,
    table: &Table,
    section: u32,
    train: u32,
    place: u32,
) -> Result<(), AllocError>
    requires section { section < length table.now.sections }
    requires train { train < trains table.now }
    requires place { place ≤ last table.now train }
    ensures { OnOk result (points.new.items ≡ with_point points.old.items (held_at table.now section train place)) }
{
    if 0 < share_at(table, train, section, place) {
        if let Some(point) = point_of(table, train, place) {
            if !points.contains(&point) {
                points.push(point)?;
            }
        }
    }
    Ok(())
}

// Adds the points at which a train has a share of a section, each unless the list has it.
fn push_all_held(
    points: &mut Vec<u32>,
    table: &Table,
    section: u32,
    train: u32,
) -> Result<(), AllocError>
    requires section { section < length table.now.sections }
    requires train { train < trains table.now }
    ensures { OnOk result (points.new.items ≡ held_before table.now section train points.old.items (last table.now train + 1)) }
{
    for place in 0..last_of(table, train) + 1 {
        push_held(points, table, section, train, place)?;
    }
    Ok(())
}

/// The points at which trains have shares of a section, each once, in the order of trains and places.
pub(crate) fn held_points(
    alloc: Global,
    table: &Table,
    section: u32,
) -> Result<Vec<u32>, AllocError>
    requires { section < length table.now.sections }
    ensures { IfOk result (λ points. points.items ≡ held_points_of table.now section (trains table.now)) }
{
    let mut points = Vec::new(alloc);
    for train in 0..trains_of(table) {
        push_all_held(&mut points, table, section, train)?;
    }
    Ok(points)
}

// Adds a point to a list in brackets.
fn write_listed(
    out: &mut String,
    names: &Names,
    points: &[u32],
    index: usize,
) -> Result<(), AllocError>
    requires index { index < length points.now }
    requires points { All (λ q. q < length names.now.points) points.now }
    ensures { OnOk result (string_bytes out.new ≡ string_bytes out.old ++ listed_point names.now points.now index) }
{
    out.push_str(if index == 0 { " (" } else { ", " })?;
    out.push_str(names.point(points[index]))
}

// Closes a list of points.
fn write_end(out: &mut String, points: usize) -> Result<(), AllocError>
    ensures { OnOk result (string_bytes out.new ≡ string_bytes out.old ++ end_words points) }
{
    if points == 0 {
        Ok(())
    } else if points <= 6 {
        out.push_str(")")
    } else {
        out.push_str(" and others)")
    }
}

/// Adds up to six points in brackets.
pub(crate) fn write_points(
    out: &mut String,
    names: &Names,
    points: &[u32],
) -> Result<(), AllocError>
    requires { All (λ q. q < length names.now.points) points.now }
    ensures { OnOk result (string_bytes out.new ≡ string_bytes out.old ++ points_words names.now points.now) }
{
    for index in 0..points.len().min(6) {
        write_listed(out, names, points, index)?;
    }
    write_end(out, points.len())
}
