// Routes whose ways are written out as points.
ghost use Rattle.std.specs.Prelude.{◌≡◌, ◌∷◌, [], map, option_and_then, option_copied, option_map, IfOk, OnOk};
ghost use Rattle.std.specs.List.{flat_map};
ghost use Rattle.toml.specs.Data.{as_str};
ghost use Rattle.toml.specs.View.{table_view, view};
ghost use Rattle.plan_patterns.specs.Ways as spec;

use crate::parts::{member, replace};
use std::alloc::{AllocError, Global};
use toml::{Table, Value};

// The text behind an `@`, if it begins with it.
fn behind_at(text: &str) -> Option<&str>
    ensures { option_copied result ≡ spec.behind 64 text.now }
{
    text.strip_prefix("@")
}

// The text behind a `-`, if it begins with it.
fn behind_minus(text: &str) -> Option<&str>
    ensures { option_copied result ≡ spec.behind 45 text.now }
{
    text.strip_prefix("-")
}

// What an item of a route says behind an `@`.
fn said_by(value: &Value) -> Option<&str>
    ensures { option_copied result ≡ option_and_then (spec.behind 64) (as_str (view value.now)) }
{
    match value.as_str() {
        Some(text) => behind_at(text),
        None => None,
    }
}

/// The name of the way that an item of a route stands for, if it is one.
pub(crate) fn name_in(value: &Value) -> Option<&str> {
    let said = said_by(value)?;
    match behind_minus(said) {
        Some(name) => Some(name),
        None => Some(said),
    }
}

// The list of the way of a name.
fn way_at<'t>(ways: &'t Table, name: &str) -> Option<&'t [Value]>
    ensures { option_map (λ items. map view items.now) result ≡ spec.way_at (table_view ways.now) name.now }
{
    match member(ways, name) {
        Some(value) => match value.as_array() {
            Some(values) => Some(values.as_slice()),
            None => None,
        },
        None => None,
    }
}

// A list of a copy of one value.
fn alone(alloc: Global, value: &Value) -> Result<Vec<Value>, AllocError>
    ensures { IfOk result (λ v. map view v.items ≡ view value.now ∷ []) }
{
    let mut list = Vec::new(alloc);
    list.push(value.clone()?)?;
    Ok(list)
}

// The points that an item of a route stands for.
#[cycle(points)]
fn points_of(
    alloc: Global,
    ways: &Table,
    steps: usize,
    value: &Value,
) -> Result<Vec<Value>, AllocError>
    ensures { IfOk result (λ v. map view v.items ≡ spec.points_of steps (table_view ways.now) (view value.now)) }
{
    if steps == 0 {
        return alone(alloc, value);
    }
    match said_by(value) {
        Some(said) => match along(alloc, ways, steps - 1, said)? {
            Some(points) => Ok(points),
            None => alone(alloc, value),
        },
        None => alone(alloc, value),
    }
}

// The points along a way: with `-` before its name, from its end to its beginning.
#[cycle(points)]
fn along(
    alloc: Global,
    ways: &Table,
    steps: usize,
    said: &str,
) -> Result<Option<Vec<Value>>, AllocError>
    ensures { IfOk result (λ r. option_map (λ v. map view v.items) r ≡ spec.along (table_view ways.now) (flat_map (spec.points_of steps (table_view ways.now))) said.now) }
{
    match behind_minus(said) {
        Some(name) => match way_at(ways, name) {
            Some(items) => {
                let mut points = points_along(alloc, ways, steps, items)?;
                points.reverse();
                Ok(Some(points))
            }
            None => Ok(None),
        },
        None => match way_at(ways, said) {
            Some(items) => Ok(Some(points_along(alloc, ways, steps, items)?)),
            None => Ok(None),
        },
    }
}

// The points that the items of a route or a way stand for.
#[cycle(points)]
fn points_along(
    alloc: Global,
    ways: &Table,
    steps: usize,
    items: &[Value],
) -> Result<Vec<Value>, AllocError>
    ensures { IfOk result (λ v. map view v.items ≡ flat_map (λ v. spec.points_of steps (table_view ways.now) (view v)) items.now) }
{
    let mut all = Vec::new(alloc);
    for item in items {
        let mut points = points_of(alloc, ways, steps, item)?;
        all.append(&mut points)?;
    }
    Ok(all)
}

// A route with its ways as points.
fn laid_route(alloc: Global, ways: &Table, route: &Value) -> Result<Value, AllocError>
    ensures { IfOk result (λ v. view v ≡ spec.laid_route (table_view ways.now) (view route.now)) }
{
    match route.as_array() {
        Some(items) => {
            let points = points_along(alloc, ways, ways.len(), items.as_slice())?;
            Ok(Value::Array(points))
        }
        None => route.clone(),
    }
}

/// Puts the points of ways into the route of an entry, if it has one.
pub(crate) fn lay(alloc: Global, ways: &Table, entry: &mut Table) -> Result<(), AllocError>
    ensures { OnOk result (table_view entry.new ≡ spec.laid (table_view ways.now) (table_view entry.old)) }
{
    if let Some(route) = member(entry, "route") {
        let laid = laid_route(alloc, ways, route)?;
        replace(entry, "route", laid);
    }
    Ok(())
}
