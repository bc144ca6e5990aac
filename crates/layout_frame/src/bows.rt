// Bows of links that would else go over other points.

use crate::frame::{Frame, Grid};
use rail_model::Link;
use svg_text::Spot;

// Whether a number is one of two others, or between them.
fn is_within(number: u64, a: u64, b: u64) -> bool {
    a.min(b) <= number && number <= a.max(b)
}

/// How far a distance is above another one.
pub(crate) fn difference(to: u64, from: u64) -> i64 {
    let to = i64::try_from(to).unwrap_or(i64::MAX);
    let from = i64::try_from(from).unwrap_or(i64::MAX);
    to.saturating_sub(from)
}

/// On which side of the line between two spots a place is: above 0 on one side, below 0 on the other.
pub(crate) fn side_of(from: Spot, to: Spot, x: u64, y: u64) -> i64 {
    let right = difference(to.x, from.x).saturating_mul(difference(y, from.y));
    let left = difference(x, from.x).saturating_mul(difference(to.y, from.y));
    right.saturating_sub(left)
}

// Whether a spot is on the line between two others, and is neither of them.
fn is_on_line(from: Spot, to: Spot, other: Spot) -> bool {
    let is_end = is_same(other, from) || is_same(other, to);
    side_of(from, to, other.x, other.y) == 0
        && is_within(other.x, from.x, to.x)
        && is_within(other.y, from.y, to.y)
        && !is_end
}

fn is_same(a: Spot, b: Spot) -> bool {
    a.x == b.x && a.y == b.y
}

// Whether a line between two spots goes over another point.
fn is_barred(spots: &[Spot], from: Spot, to: Spot) -> bool {
    for other in spots {
        if is_on_line(from, to, *other) {
            return true;
        }
    }
    false
}

// A spot beside the line between two others: below it, or on the right; or else above it, or on the left.
fn spot_beside(grid: &Grid, from: Spot, to: Spot, below: bool) -> Spot {
    let Spot { x, y } = middle_of(from, to);
    match (from.x == to.x, below) {
        (false, true) => Spot {
            x,
            y: y.saturating_add(grid.down),
        },
        (false, false) => Spot {
            x,
            y: y.saturating_sub(grid.down),
        },
        (true, true) => Spot {
            x: x.saturating_add(grid.across),
            y,
        },
        (true, false) => Spot {
            x: x.saturating_sub(grid.across),
            y,
        },
    }
}

/// The spot in the middle between two others.
pub(crate) fn middle_of(from: Spot, to: Spot) -> Spot {
    Spot {
        x: (from.x / 2).saturating_add(to.x / 2),
        y: (from.y / 2).saturating_add(to.y / 2),
    }
}

// Whether two spots are on different sides of the line between two others.
fn is_between(from: Spot, to: Spot, first: Spot, second: Spot) -> bool {
    let first = side_of(from, to, first.x, first.y);
    let second = side_of(from, to, second.x, second.y);
    (first < 0 && 0 < second) || (second < 0 && 0 < first)
}

// Whether the lines between two spots and two others cross.
fn is_crossed(from: Spot, to: Spot, first: Spot, second: Spot) -> bool {
    is_between(from, to, first, second) && is_between(first, second, from, to)
}

// How many links, if they are straight, cross a line from a spot to the middle of a bow, and one from there to another spot.
fn crossings(frame: &Frame, links: &[Link], from: Spot, toward: Spot, to: Spot) -> u32 {
    let middle = middle_of(middle_of(from, to), toward);
    let mut count: u32 = 0;
    for link in links {
        let first = frame.spot(link.first());
        let second = frame.spot(link.second());
        if is_crossed(from, middle, first, second) || is_crossed(middle, to, first, second) {
            count = count.saturating_add(1);
        }
    }
    count
}

/// The spot toward which a link between two spots bows, if a straight line would go over another point: below, or else above
/// it, where the bow crosses fewer links.
pub fn bow_between(frame: &Frame, links: &[Link], from: Spot, to: Spot) -> Option<Spot> {
    if !is_barred(&frame.spots, from, to) {
        return None;
    }
    let below = spot_beside(&frame.grid, from, to, true);
    let above = spot_beside(&frame.grid, from, to, false);
    let fewer = crossings(frame, links, from, above, to) < crossings(frame, links, from, below, to);
    Some(if fewer { above } else { below })
}
