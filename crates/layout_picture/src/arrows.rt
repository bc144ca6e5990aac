// Arrows that head from one spot to another.
ghost use Rattle.std.specs.Prelude.{◌≡◌, ◌+ℤ◌, ◌-ℤ◌, IfOk};
ghost use Rattle.layout_picture.specs.Arrows.{times as product, thousandths, sixths as sixths_of};

use layout_frame::shifted;
use std::alloc::{AllocError, Global};
use svg_text::{Shape, Spot, polygon};

/// A direction: how far to the right and down, in thousandths.
#[derive(Clone, Copy)]
pub(crate) struct Heading {
    pub(crate) right: i64,
    pub(crate) down: i64,
}

/// A corner of a mark: how far ahead of its middle, and how far to the right, in sixths of its size.
#[derive(Clone, Copy)]
pub(crate) struct Corner {
    ahead: i64,
    aside: i64,
}

/// The corners of a mark, one after another.
#[derive(Clone, Copy)]
pub(crate) struct Outline {
    first: Corner,
    second: Corner,
    third: Corner,
    fourth: Corner,
}

/// The corners of an arrow.
pub(crate) const ARROW: Outline = Outline {
    first: Corner { ahead: 3, aside: 0 },
    second: Corner {
        ahead: -2,
        aside: 2,
    },
    third: Corner {
        ahead: -1,
        aside: 0,
    },
    fourth: Corner {
        ahead: -2,
        aside: -2,
    },
};

/// The corners of a square, for a train that has arrived.
pub(crate) const SQUARE: Outline = Outline {
    first: Corner { ahead: 2, aside: 2 },
    second: Corner {
        ahead: -2,
        aside: 2,
    },
    third: Corner {
        ahead: -2,
        aside: -2,
    },
    fourth: Corner {
        ahead: 2,
        aside: -2,
    },
};

// A product that stays within 64 bits.
fn times(a: i64, b: i64) -> i64
    ensures { result ≡ product a b }
{
    a.saturating_mul(b)
}

// The difference of two numbers of thousandths.
fn difference_of(a: i64, b: i64) -> i64
    ensures { result ≡ thousandths (a -ℤ b) }
{
    a.saturating_sub(b) / 1000
}

// The sum of two numbers of thousandths.
fn sum_of(a: i64, b: i64) -> i64
    ensures { result ≡ thousandths (a +ℤ b) }
{
    a.saturating_add(b) / 1000
}

// So many sixths of a size.
fn sixths(size: i64, number: i64) -> i64
    ensures { result ≡ sixths_of size number }
{
    times(size, number) / 6
}

impl Heading {
    ghost use Rattle.layout_picture.specs.Arrows.{turned, corner_of, mark_of};

    // The spot so far ahead of another one, and so far to the right.
    fn turned(&self, at: Spot, ahead: i64, aside: i64) -> Spot
        ensures { result ≡ turned self.now at ahead aside }
    {
        let right = difference_of(times(self.right, ahead), times(self.down, aside));
        let down = sum_of(times(self.down, ahead), times(self.right, aside));
        shifted(at, right, down)
    }

    // The corner of a mark of this size at a spot.
    fn corner(&self, at: Spot, size: i64, corner: Corner) -> Spot
        ensures { result ≡ corner_of self.now at size corner }
    {
        self.turned(at, sixths(size, corner.ahead), sixths(size, corner.aside))
    }

    /// A mark at a spot.
    pub(crate) fn mark(
        &self,
        alloc: Global,
        at: Spot,
        size: i64,
        outline: Outline,
    ) -> Result<Shape, AllocError>
        ensures { IfOk result (λ shape. shape ≡ mark_of self.now at size outline) }
    {
        let spots = [
            self.corner(at, size, outline.first),
            self.corner(at, size, outline.second),
            self.corner(at, size, outline.third),
            self.corner(at, size, outline.fourth),
        ];
        polygon(alloc, &spots)
    }
}
