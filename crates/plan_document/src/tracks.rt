// The tracks that lines lay, and whether a route keeps to them.
ghost use Rattle.std.specs.Prelude.{◌≡◌, ◌+◌, option_copied, slice_get};
ghost use Rattle.plan_document.specs.Tracks as spec;

use crate::shares::{is_among, is_called};

// What is wanted beside a point of a line.
#[derive(Clone, Copy)]
enum Beside<'a> {
    // Anything, also the end of the line.
    Any,
    // The end of the line.
    End,
    // The point of this name.
    Point(&'a str),
}

/// The point at a place, if there is one.
pub fn point_at(line: &[String], place: usize) -> Option<&String>
    ensures { option_copied result ≡ slice_get line.now place }
{
    line.get(place)
}

/// The point before a place, if there is one.
pub fn before(line: &[String], place: usize) -> Option<&String>
    ensures { option_copied result ≡ spec.before line.now place }
{
    if place == 0 {
        None
    } else {
        point_at(line, place - 1)
    }
}

/// The point behind a place, if there is one.
pub fn behind(line: &[String], place: usize) -> Option<&String>
    ensures { option_copied result ≡ slice_get line.now (place + 1) }
{
    if place < line.len() {
        point_at(line, place + 1)
    } else {
        None
    }
}

// Whether there is a point, and this is its name.
fn names(point: &str, there: Option<&String>) -> bool
    ensures { result ≡ spec.names point.now (option_copied there.entry) }
{
    match there {
        Some(there) => is_called(there, point),
        None => false,
    }
}

// Whether what stands beside a point, if anything does, is what is wanted there.
fn is_beside(wanted: Beside<'_>, there: Option<&String>) -> bool
    ensures { result ≡ spec.is_beside wanted.entry (option_copied there.entry) }
{
    match wanted {
        Beside::Any => true,
        Beside::End => there.is_none(),
        Beside::Point(point) => names(point, there),
    }
}

// Whether a line has a point at a place, between two that are wanted there.
fn is_between(line: &[String], one: Beside<'_>, here: &str, other: Beside<'_>, place: usize) -> bool
    ensures { result ≡ spec.is_between line.now (spec.is_beside one.entry) here.now (spec.is_beside other.entry) place }
{
    names(here, point_at(line, place))
        && is_beside(one, before(line, place))
        && is_beside(other, behind(line, place))
}

// Whether a line comes by a point, from the one that is wanted beside it to the other, or back.
fn comes_by(line: &[String], one: Beside<'_>, here: &str, other: Beside<'_>) -> bool
    ensures { result ≡ spec.comes_by line.now (spec.is_beside one.entry) here.now (spec.is_beside other.entry) }
{
    (0..line.len()).any(|place| {
        is_between(line, one, here, other, place) || is_between(line, other, here, one, place)
    })
}

// Whether one of some lines comes by a point, from the one that is wanted beside it to the other, or back.
fn is_laid(lines: &[Vec<String>], one: Beside<'_>, here: &str, other: Beside<'_>) -> bool
    ensures { result ≡ spec.is_laid lines.now (spec.is_beside one.entry) here.now (spec.is_beside other.entry) }
{
    lines.iter().any(|line| comes_by(line, one, here, other))
}

/// Whether a train that goes from a point over another to a third one goes as lines do: as one of them, or from the end of one
/// to the end of one.
pub fn goes(lines: &[Vec<String>], one: &str, here: &str, other: &str) -> bool
    ensures { result ≡ spec.goes lines.now one.now here.now other.now }
{
    let from = Beside::Point(one);
    let to = Beside::Point(other);
    one != other
        && (is_laid(lines, from, here, to)
            || (is_laid(lines, from, here, Beside::End) && is_laid(lines, to, here, Beside::End)))
}

/// Whether a line has two points side by side.
pub fn is_linked(lines: &[Vec<String>], one: &str, here: &str) -> bool
    ensures { result ≡ spec.is_linked lines.now one.now here.now }
{
    is_laid(lines, Beside::Point(one), here, Beside::Any)
}

// Whether a line has a point, and beside it the one from which a train comes, if it comes from one.
fn is_track(lines: &[Vec<String>], one: Option<&String>, here: &str) -> bool
    ensures { result ≡ spec.is_track lines.now (option_copied one.entry) here.now }
{
    match one {
        Some(one) => is_linked(lines, one.as_str(), here),
        None => is_laid(lines, Beside::Any, here, Beside::Any),
    }
}

// Whether a train that goes from a point over another to a third one passes it right: over a switch as lines do.
fn passes_over(
    lines: &[Vec<String>],
    switches: &[String],
    one: &str,
    here: &str,
    other: &str,
) -> bool
    ensures { result ≡ spec.passes_over lines.now switches.now one.now here.now other.now }
{
    !is_among(switches, here) || goes(lines, one, here, other)
}

// Whether a train passes a point right, if it comes from one and goes on to another.
fn passes(
    lines: &[Vec<String>],
    switches: &[String],
    one: Option<&String>,
    here: &str,
    other: Option<&String>,
) -> bool
    ensures { result ≡ spec.passes lines.now switches.now (option_copied one.entry) here.now (option_copied other.entry) }
{
    let Some(one) = one else {
        return true;
    };
    match other {
        Some(other) => {
            let from = one.as_str();
            let to = other.as_str();
            passes_over(lines, switches, from, here, to)
        }
        None => true,
    }
}

// Whether a route that comes to a point, from one and on to another if there are any, keeps to lines there.
fn keeps_there(
    lines: &[Vec<String>],
    switches: &[String],
    one: Option<&String>,
    here: Option<&String>,
    other: Option<&String>,
) -> bool
    ensures { result ≡ spec.keeps_there lines.now switches.now (option_copied one.entry) (option_copied here.entry) (option_copied other.entry) }
{
    match here {
        Some(here) => {
            let here = here.as_str();
            is_track(lines, one, here) && passes(lines, switches, one, here, other)
        }
        None => true,
    }
}

// Whether a route keeps to lines at a place: its point and the link to it are those of a line, and it passes a switch as lines do.
fn keeps_at(lines: &[Vec<String>], switches: &[String], route: &[String], place: usize) -> bool
    ensures { result ≡ spec.keeps_at lines.now switches.now route.now place }
{
    let one = before(route, place);
    let here = point_at(route, place);
    keeps_there(lines, switches, one, here, behind(route, place))
}

/// Whether a route keeps to lines at each place.
pub fn keeps(lines: &[Vec<String>], switches: &[String], route: &[String]) -> bool
    ensures { result ≡ spec.keeps lines.now switches.now route.now }
{
    (0..route.len()).all(|place| keeps_at(lines, switches, route, place))
}

/// Whether a point, if there is one, is no switch.
pub fn is_no_switch(switches: &[String], point: Option<&String>) -> bool
    ensures { result ≡ spec.is_no_switch switches.now (option_copied point.entry) }
{
    match point {
        Some(point) => !is_among(switches, point.as_str()),
        None => true,
    }
}

/// Whether a route neither begins nor ends at a switch.
pub fn has_free_ends(switches: &[String], route: &[String]) -> bool
    ensures { result ≡ spec.has_free_ends switches.now route.now }
{
    let last = before(route, route.len());
    is_no_switch(switches, point_at(route, 0)) && is_no_switch(switches, last)
}
