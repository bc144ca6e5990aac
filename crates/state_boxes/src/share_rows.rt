// Rows of cells: for each section the least and the greatest share of one train at the places of a span. The least shares are in one list
// and the greatest in another, so that the processor can compare and add many at once.
use crate::bounds::{Greatest, Halves, Least, bounds};
use crate::extremes::Extremes;
use std::alloc::{AllocError, Global};
use std::marker::Model;

/// Cells that stand row after row.
#[derive(Drop)]
pub struct Cells {
    least: Vec<i8>,
    greatest: Vec<i8>,
}

impl Model for Cells {
    ghost use Rattle.std.specs.Prelude.{◌≡◌, List, length};
    ghost use Rattle.state_boxes.specs.declared.extremes.Extremes.{Extremes as ExtremesValue};
    ghost use Rattle.state_boxes.specs.Cells.{cells_of};

    ghost Value = { List ExtremesValue };

    ghost view = { λ c. cells_of c.least.items c.greatest.items };

    ghost invariant = { λ c. length c.greatest.items ≡ length c.least.items };
}

impl Cells {
    ghost use Rattle.std.specs.Prelude.{◌≡◌, ◌+◌, ◌≤◌, length, IfOk};
    ghost use Rattle.std.specs.List.{slice_range};
    ghost use Rattle.state_boxes.specs.Cells.{cells_of};
    ghost use Rattle.state_boxes.specs.Extremes.{IsJoinedRow};

    /// The cells of single places: in each the least share is the greatest.
    pub fn single(alloc: Global, shares: Vec<i8>) -> Result<Cells, AllocError>
        ensures { IfOk result (λ cells. cells ≡ cells_of shares.items shares.items) }
    {
        let greatest = shares.to_vec(alloc)?;
        Ok(Cells {
            least: shares,
            greatest,
        })
    }

    /// Cell by cell the extremes of two spans together.
    pub fn joined(alloc: Global, first: &Row<'_>, second: &Row<'_>) -> Result<Cells, AllocError>
        requires { length second.now ≡ length first.now }
        ensures { IfOk result (λ cells. IsJoinedRow first.now second.now cells) }
    {
        let least = bounds::<Least>(alloc, first.least, second.least)?;
        let greatest = bounds::<Greatest>(alloc, first.greatest, second.greatest)?;
        Ok(Cells { least, greatest })
    }

    /// Some of the cells.
    pub fn row(&self, start: usize, end: usize) -> Row<'_>
        requires order { start ≤ end }
        requires within { end ≤ length self.now }
        ensures { result ≡ slice_range self.now start end }
    {
        Row {
            least: &self.least[start..end],
            greatest: &self.greatest[start..end],
        }
    }
}

/// A row of cells.
#[derive(Drop)]
pub struct Row<'a> {
    least: &'a [i8],
    greatest: &'a [i8],
}

impl<'a> Model for Row<'a> {
    ghost use Rattle.std.specs.Prelude.{◌≡◌, List, length};
    ghost use Rattle.state_boxes.specs.declared.extremes.Extremes.{Extremes as ExtremesValue};
    ghost use Rattle.state_boxes.specs.Cells.{cells_of};

    ghost Value = { List ExtremesValue };

    ghost view = { λ r. cells_of r.least.now r.greatest.now };

    ghost invariant = { λ r. length r.greatest.now ≡ length r.least.now };
}

impl<'a> Row<'a> {
    ghost use Rattle.std.specs.Prelude.{◌≡◌, ◌<◌, length, slice_index_or};
    ghost use Rattle.state_boxes.specs.Bounds.{IsSide};
    ghost use Rattle.state_boxes.specs.Extremes.{nothing};

    // The least shares.
    fn least(&self) -> &'a [i8]
        ensures { IsSide (λ cell. cell.least) self.now result.now }
    {
        self.least
    }

    // The greatest shares.
    fn greatest(&self) -> &'a [i8]
        ensures { IsSide (λ cell. cell.greatest) self.now result.now }
    {
        self.greatest
    }

    /// The cell of a section.
    pub fn at(&self, section: u32) -> Extremes
        requires { section < length self.now }
        ensures { result ≡ slice_index_or self.now section nothing }
    {
        Extremes {
            least: self.least[section as usize],
            greatest: self.greatest[section as usize],
        }
    }
}

/// The row of a span: cell by cell the extremes of two rows, whose spans cover it.
#[derive(Drop)]
pub struct SpanRow<'a> {
    front: Row<'a>,
    back: Row<'a>,
}

impl<'a> Model for SpanRow<'a> {
    ghost use Rattle.std.specs.Prelude.{◌≡◌, List, length};
    ghost use Rattle.state_boxes.specs.declared.extremes.Extremes.{Extremes as ExtremesValue};
    ghost use Rattle.state_boxes.specs.Cells.{joined_row};

    ghost Value = { List ExtremesValue };

    ghost view = { λ r. joined_row r.front r.back };

    ghost invariant = { λ r. length r.back ≡ length r.front };
}

impl<'a> SpanRow<'a> {
    ghost use Rattle.std.specs.Prelude.{◌≡◌, ◌<◌, length, slice_index_or};
    ghost use Rattle.std.specs.Int.{int_min, int_max};
    ghost use Rattle.state_boxes.specs.Bounds.{AreHalves};
    ghost use Rattle.state_boxes.specs.Cells.{joined_row};
    ghost use Rattle.state_boxes.specs.Extremes.{nothing};

    /// Two rows together.
    pub fn new(front: Row<'a>, back: Row<'a>) -> SpanRow<'a>
        requires { length back ≡ length front }
        ensures { result ≡ joined_row front.entry back.entry }
    {
        SpanRow { front, back }
    }

    /// The cell of a section.
    pub fn at(&self, section: u32) -> Extremes
        requires { section < length self.now }
        ensures { result ≡ slice_index_or self.now section nothing }
    {
        self.front.at(section).joined(self.back.at(section))
    }
    /// The two lists of least shares.
    pub fn least(&self) -> Halves<'a>
        ensures { AreHalves int_min (λ cell. cell.least) self.now result.first.now result.second.now }
    {
        Halves {
            first: self.front.least(),
            second: self.back.least(),
        }
    }

    /// The two lists of greatest shares.
    pub fn greatest(&self) -> Halves<'a>
        ensures { AreHalves int_max (λ cell. cell.greatest) self.now result.first.now result.second.now }
    {
        Halves {
            first: self.front.greatest(),
            second: self.back.greatest(),
        }
    }
}
