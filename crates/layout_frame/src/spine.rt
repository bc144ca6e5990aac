// The base line of a picture: the stretch of the longest route between the two of its points that are farthest apart.

use crate::cells::Cells;
use crate::placing::place_route;
use rail_model::{Layout, Link, Mission, are_linked, points_of};

/// Farther than any point.
const FAR: u32 = 100_000;

// How many links each point is away from one of them.
type Distances = [u32; 512];

// The number of different points of a route.
fn size_of(route: &[u32]) -> u32 {
    let mut size: u32 = 0;
    for point in 0..512 {
        if route.contains(&point) {
            size = size.saturating_add(1);
        }
    }
    size
}

// The route with the most points, the first of several.
fn longest(missions: &[Mission]) -> &[u32] {
    let mut best: &[u32] = &[];
    for mission in missions {
        if size_of(best) < size_of(mission.as_slice()) {
            best = mission.as_slice();
        }
    }
    best
}

fn distance_of(distances: &Distances, point: u32) -> u32 {
    distances.get(point as usize).copied().unwrap_or(FAR)
}

// Brings a point's distance down to that of a neighbour and one more; says whether it was farther.
fn bring_down(distances: &mut Distances, near: u32, far: u32) -> bool {
    let through = distance_of(distances, near).saturating_add(1);
    match distances.get_mut(far as usize) {
        Some(distance) if through < *distance => {
            *distance = through;
            true
        }
        _ => false,
    }
}

// Brings down the distances of both ends of a link, if they are points of a route; says whether one was farther.
fn bring_ends_down(distances: &mut Distances, route: &[u32], link: &Link) -> bool {
    let first = link.first();
    let second = link.second();
    if !route.contains(&first) || !route.contains(&second) {
        return false;
    }
    let forth = bring_down(distances, first, second);
    let back = bring_down(distances, second, first);
    forth || back
}

// Brings down the distances of the points of a route; says whether one was farther.
fn bring_all_down(distances: &mut Distances, layout: &Layout, route: &[u32]) -> bool {
    let mut farther = false;
    for link in layout.links() {
        farther = bring_ends_down(distances, route, link) || farther;
    }
    farther
}

// How many links each point of a route is away from one of them.
fn distances_from(layout: &Layout, route: &[u32], from: u32) -> Distances {
    let mut distances = [FAR; 512];
    if let Some(distance) = distances.get_mut(from as usize) {
        *distance = 0;
    }
    for _ in 0..points_of(layout) {
        if !bring_all_down(&mut distances, layout, route) {
            break;
        }
    }
    distances
}

// The point of a route that is farthest from one of its points.
fn farthest(layout: &Layout, route: &[u32], from: u32) -> u32 {
    let distances = distances_from(layout, route, from);
    let mut best = from;
    for point in route {
        let distance = distance_of(&distances, *point);
        if distance_of(&distances, best) < distance && distance < FAR {
            best = *point;
        }
    }
    best
}

// Whether a route's last point is its first or leads on to it.
fn is_round(layout: &Layout, route: &[u32]) -> bool {
    let first = route.first().copied().unwrap_or(0);
    let last = route.last().copied().unwrap_or(0);
    first == last || are_linked(layout, first, last)
}

// A way of this many points.
#[derive(Clone, Copy)]
struct Way {
    points: [u32; 256],
    count: usize,
}

impl Way {
    fn add(&mut self, route: &[u32]) {
        for point in route {
            if let Some(slot) = self.points.get_mut(self.count) {
                *slot = *point;
                self.count = self.count.saturating_add(1);
            }
        }
    }

    fn as_slice(&self) -> &[u32] {
        match self.points.get(..self.count) {
            Some(points) => points,
            None => &[],
        }
    }
}

// A route, twice if its last point leads on to its first.
fn rounds(layout: &Layout, route: &[u32]) -> Way {
    let mut rounds = Way {
        points: [0; 256],
        count: 0,
    };
    rounds.add(route);
    if is_round(layout, route) {
        rounds.add(route);
    }
    rounds
}

// The first stretch of a route from one of two points to the other.
fn stretch_of(route: &[u32], ends: [u32; 2]) -> &[u32] {
    let mut begin = route.len();
    for (number, point) in route.iter().enumerate() {
        if ends.contains(point) {
            match route.get(begin) {
                Some(first) if first != point => {
                    return route.get(begin..=number).unwrap_or(&[]);
                }
                _ => begin = number,
            }
        }
    }
    route.get(begin..).unwrap_or(&[])
}

/// Places the base line, and then all other points of the route that it is a stretch of.
pub(crate) fn place_spine(cells: &mut Cells, layout: &Layout, missions: &[Mission]) {
    let route = longest(missions);
    let first = farthest(layout, route, route.first().copied().unwrap_or(0));
    let second = farthest(layout, route, first);
    let rounds = rounds(layout, route);
    place_route(cells, stretch_of(rounds.as_slice(), [first, second]));
    place_route(cells, rounds.as_slice());
}
