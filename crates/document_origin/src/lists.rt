// Whether lists are the same.
ghost use Rattle.std.specs.Prelude.{◌≡◌, ◌↔◌, IsTrue, map};
ghost use Rattle.document_origin.specs.Origin.{point_in};

use rail_model::{Connection, Layout, Link, Names, Point, State, zones_of};

fn is_same_point(first: &Point, second: &Point) -> bool
    ensures { IsTrue result ↔ (first.now ≡ second.now) }
{
    first.name() == second.name() && first.zone() == second.zone()
}

fn are_same_points(first: &[Point], second: &[Point]) -> bool
    ensures { IsTrue result ↔ (first.now ≡ second.now) }
{
    if first.len() != second.len() {
        return false;
    }
    for i in 0..first.len() {
        if !is_same_point(&first[i], &second[i]) {
            return false;
        }
    }
    true
}

fn is_same_link(first: &Link, second: &Link) -> bool
    ensures { IsTrue result ↔ (first.now ≡ second.now) }
{
    first.first() == second.first() && first.second() == second.second()
}

fn are_same_links(first: &[Link], second: &[Link]) -> bool
    ensures { IsTrue result ↔ (first.now ≡ second.now) }
{
    if first.len() != second.len() {
        return false;
    }
    for i in 0..first.len() {
        if !is_same_link(&first[i], &second[i]) {
            return false;
        }
    }
    true
}

/// Whether two layouts have the same points, zones and links.
pub(crate) fn is_same_layout(first: &Layout, second: &Layout) -> bool
    ensures { IsTrue result ↔ (first.now ≡ second.now) }
{
    zones_of(first) == zones_of(second)
        && are_same_points(first.points(), second.points())
        && are_same_links(first.links(), second.links())
}

// The name of a point, or no letters for a number that no point has.
fn name_of(layout: &Layout, point: u32) -> &str
    ensures { result.now ≡ point_in layout.now point }
{
    match layout.points().get(point as usize) {
        Some(point) => point.name(),
        None => "",
    }
}

/// Whether two routes go by points of the same names, each in its own layout.
pub(crate) fn are_same_routes(
    layout: &Layout,
    route: &[u32],
    planned_layout: &Layout,
    planned: &[u32],
) -> bool
    ensures { IsTrue result ↔ (map (point_in layout.now) route.now ≡ map (point_in planned_layout.now) planned.now) }
{
    if route.len() != planned.len() {
        return false;
    }
    for i in 0..route.len() {
        if name_of(layout, route[i]) != name_of(planned_layout, planned[i]) {
            return false;
        }
    }
    true
}

/// Whether trains have the same names, in order.
pub(crate) fn are_same_trains(first: &Names, second: &Names) -> bool
    ensures { IsTrue result ↔ (first.now.trains ≡ second.now.trains) }
{
    if first.trains() != second.trains() {
        return false;
    }
    for i in 0..first.trains() as u32 {
        if first.train(i) != second.train(i) {
            return false;
        }
    }
    true
}

/// Whether trains are at the same places.
pub(crate) fn is_same_state(first: &State, second: &State) -> bool
    ensures { IsTrue result ↔ (first.now ≡ second.now) }
{
    are_same_numbers(first.as_slice(), second.as_slice())
}

/// Whether numbers are the same, in order.
pub(crate) fn are_same_numbers(first: &[u32], second: &[u32]) -> bool
    ensures { IsTrue result ↔ (first.now ≡ second.now) }
{
    first == second
}

fn is_same_connection(first: &Connection, second: &Connection) -> bool
    ensures { IsTrue result ↔ (first.now ≡ second.now) }
{
    first.train() == second.train()
        && first.place() == second.place()
        && first.other() == second.other()
        && first.reached() == second.reached()
}

/// Whether connections are the same, in order.
pub(crate) fn are_same_connections(first: &[Connection], second: &[Connection]) -> bool
    ensures { IsTrue result ↔ (first.now ≡ second.now) }
{
    if first.len() != second.len() {
        return false;
    }
    for i in 0..first.len() {
        if !is_same_connection(&first[i], &second[i]) {
            return false;
        }
    }
    true
}
