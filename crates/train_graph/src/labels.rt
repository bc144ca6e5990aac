// Labels that keep clear of one another.
use std::alloc::{AllocError, Global};
use svg_text::Spot;

// How high a label is, and how wide one of its letters is at most.
const HEIGHT: u64 = 11;

const LETTER: u64 = 7;

/// How wide words are at most.
pub(crate) fn text_width(words: &str) -> u64 {
    (words.len() as u64).saturating_mul(LETTER)
}

// What a label covers.
#[derive(Clone, Copy)]
struct Area {
    left: u64,
    top: u64,
    right: u64,
    bottom: u64,
}

impl Area {
    // Whether two areas have a place in common.
    fn meets(&self, other: &Area) -> bool {
        self.left < other.right
            && other.left < self.right
            && self.top < other.bottom
            && other.top < self.bottom
    }
}

// A line that goes to the right.
#[derive(Clone, Copy)]
struct Segment {
    from: Spot,
    to: Spot,
}

impl Segment {
    // How far down it is at a place between its ends.
    fn y(&self, x: u64) -> u64 {
        let whole = self.to.x.saturating_sub(self.from.x).max(1);
        let part = x.saturating_sub(self.from.x).min(whole);
        let down = self.to.y.saturating_sub(self.from.y);
        let up = self.from.y.saturating_sub(self.to.y);
        let fallen = self
            .from
            .y
            .saturating_add(down.saturating_mul(part) / whole);
        fallen.saturating_sub(up.saturating_mul(part) / whole)
    }

    // Whether it goes through an area.
    fn meets(&self, area: &Area) -> bool {
        let left = self.from.x.max(area.left);
        let right = self.to.x.min(area.right);
        let first = self.y(left);
        let last = self.y(right);
        left <= right && first.min(last) < area.bottom && area.top < first.max(last)
    }
}

/// What the labels so far cover, and the lines that labels are to keep clear of.
#[derive(Drop)]
pub(crate) struct Labels {
    areas: Vec<Area>,
    lines: Vec<Segment>,
}

impl Labels {
    pub(crate) fn new(alloc: Global) -> Labels {
        Labels {
            areas: Vec::new(alloc),
            lines: Vec::new(alloc),
        }
    }

    /// Adds a line to keep clear of.
    pub(crate) fn push_line(&mut self, from: Spot, to: Spot) -> Result<(), AllocError> {
        self.lines.push(Segment { from, to })?;
        Ok(())
    }

    /// The first of some spots at which a label keeps clear of all, or else the first of all.
    pub(crate) fn place(&mut self, spots: &[Spot], width: u64) -> Result<Spot, AllocError> {
        let first = spots.first().copied().unwrap_or(Spot { x: 0, y: 0 });
        let spot = self.clear_spot(spots, width).unwrap_or(first);
        self.areas.push(area_at(&spot, width))?;
        Ok(spot)
    }

    fn clear_spot(&self, spots: &[Spot], width: u64) -> Option<Spot> {
        for spot in spots {
            let area = area_at(spot, width);
            if !self.meets_label(&area) && !self.meets_line(&area) {
                return Some(*spot);
            }
        }
        None
    }

    fn meets_label(&self, area: &Area) -> bool {
        for other in &self.areas {
            if other.meets(area) {
                return true;
            }
        }
        false
    }

    fn meets_line(&self, area: &Area) -> bool {
        for line in &self.lines {
            if line.meets(area) {
                return true;
            }
        }
        false
    }
}

// What a label that begins at a spot covers.
fn area_at(spot: &Spot, width: u64) -> Area {
    Area {
        left: spot.x,
        top: spot.y.saturating_sub(HEIGHT),
        right: spot.x.saturating_add(width),
        bottom: spot.y,
    }
}
