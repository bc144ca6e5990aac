// Room for words: what is taken already, as areas and as lines.

use crate::bows::side_of;
use crate::frame::shifted;
use std::alloc::{AllocError, Global};
use svg_text::Spot;

/// An area between its upper corner on the left and its lower one on the right.
#[derive(Clone, Copy)]
pub(crate) struct Area {
    pub(crate) first: Spot,
    pub(crate) last: Spot,
}

impl Area {
    // Whether two areas have a place in common.
    fn meets(&self, other: &Area) -> bool {
        self.first.x < other.last.x
            && other.first.x < self.last.x
            && self.first.y < other.last.y
            && other.first.y < self.last.y
    }
}

// A straight line.
#[derive(Clone, Copy)]
struct Line {
    from: Spot,
    to: Spot,
}

impl Line {
    // The smallest area that it is in, and a little more.
    fn bounds(&self) -> Area {
        let first = Spot {
            x: self.from.x.min(self.to.x),
            y: self.from.y.min(self.to.y),
        };
        let last = Spot {
            x: self.from.x.max(self.to.x),
            y: self.from.y.max(self.to.y),
        };
        Area {
            first: shifted(first, -2, -2),
            last: shifted(last, 2, 2),
        }
    }

    fn side(&self, x: u64, y: u64) -> i64 {
        side_of(self.from, self.to, x, y)
    }

    // Whether an area has corners on both of its sides.
    fn divides(&self, area: &Area) -> bool {
        let a = self.side(area.first.x, area.first.y);
        let b = self.side(area.last.x, area.first.y);
        let c = self.side(area.first.x, area.last.y);
        let d = self.side(area.last.x, area.last.y);
        a.min(b).min(c).min(d) <= 0 && 0 <= a.max(b).max(c).max(d)
    }

    // Whether it goes through an area.
    fn meets(&self, area: &Area) -> bool {
        self.bounds().meets(area) && self.divides(area)
    }
}

/// What is taken.
#[derive(Drop)]
pub(crate) struct Room {
    areas: Vec<Area>,
    lines: Vec<Line>,
}

impl Room {
    /// Room of which nothing is taken.
    pub(crate) fn new(alloc: Global) -> Room {
        Room {
            areas: Vec::new(alloc),
            lines: Vec::new(alloc),
        }
    }

    /// Takes an area.
    pub(crate) fn push_area(&mut self, area: Area) -> Result<(), AllocError> {
        Ok(self.areas.push(area)?)
    }

    /// Takes a line.
    pub(crate) fn push_line(&mut self, from: Spot, to: Spot) -> Result<(), AllocError> {
        Ok(self.lines.push(Line { from, to })?)
    }

    // Whether an area keeps clear of the areas that are taken.
    fn is_clear_of_areas(&self, area: &Area) -> bool {
        for other in &self.areas {
            if other.meets(area) {
                return false;
            }
        }
        true
    }

    // Whether an area keeps clear of the lines that are taken.
    fn is_clear_of_lines(&self, area: &Area) -> bool {
        for line in &self.lines {
            if line.meets(area) {
                return false;
            }
        }
        true
    }

    /// Whether an area is free.
    pub(crate) fn is_free(&self, area: &Area) -> bool {
        self.is_clear_of_areas(area) && self.is_clear_of_lines(area)
    }
}
