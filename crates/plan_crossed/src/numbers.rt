// Points and routes by their numbers.
ghost use Rattle.std.specs.Prelude.{◌≡◌, IfOk, position};
ghost use Rattle.plan_crossed.specs.Numbered as spec;

use plan_crossings::Route;
use plan_document::TablePlan;
use std::alloc::{AllocError, Global};

// Whether a point has this name.
fn is_called(point: &(String, u32), name: &str) -> bool
    ensures { result ≡ spec.is_called name.now point.now }
{
    point.0.as_str() == name
}

// The place of a name among points.
fn place_of(points: &[(String, u32)], name: &str) -> Option<usize>
    ensures { result ≡ position (spec.is_called name.now) points.now }
{
    points.iter().position(|point| is_called(point, name))
}

/// The number of a point: its place among the points of the plan; how many there are, if it is none of them.
pub(crate) fn number_of(points: &[(String, u32)], name: &str) -> usize
    ensures { result ≡ spec.number_of points.now name.now }
{
    match place_of(points, name) {
        Some(number) => number,
        None => points.len(),
    }
}

// A route by the numbers of its points.
fn route_by_numbers(
    alloc: Global,
    points: &[(String, u32)],
    route: &[String],
    exits: bool,
) -> Result<Route, AllocError>
    ensures { IfOk result (λ made. made ≡ spec.route_by_numbers points.now route.now exits) }
{
    let mut numbers = Vec::new(alloc);
    for name in route {
        numbers.push(number_of(points, name.as_str()))?;
    }
    Ok(Route::new(numbers, exits))
}

/// The routes of a table by the numbers of their points.
pub(crate) fn routes_by_numbers(
    alloc: Global,
    points: &[(String, u32)],
    table: &TablePlan,
) -> Result<Vec<Route>, AllocError>
    ensures { IfOk result (λ routes. routes.items ≡ spec.routes_by_numbers points.now table.now) }
{
    let mut found = Vec::new(alloc);
    for train in 0..table.routes.len() {
        let exits = table.exits_at(train);
        found.push(route_by_numbers(alloc, points, table.route(train), exits)?)?;
    }
    Ok(found)
}
