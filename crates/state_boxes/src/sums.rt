// A box of ranges, with the sums of the least and the greatest shares of each section in it.
ghost use Rattle.std.specs.Prelude.{◌≡◌, ℕ, ◌+◌, ◌-◌, ◌<◌, ◌≤◌, pos, ◌+ℤ◌, ◌-ℤ◌, ◌≤ℤ◌, length, IfOk, IsTrue, ◌↔◌, slice_set, slice_index_or};
ghost use Rattle.rail_model.specs.declared.types.Node.TheVariants.{Overfull as OverfullNode};
ghost use Rattle.rail_model.specs.Table.{trains, last};
ghost use Rattle.rail_model.specs.Certificate.{range, IsBox, IsGood, full_box as full_box_of};
ghost use Rattle.state_boxes.specs.Each.{IsEach};
ghost use Rattle.state_boxes.specs.Extremes.{IsShares};
ghost use Rattle.state_boxes.specs.Sums.{no_sum, IsSum, IsFew, IsSmallSum, AreSums};

use crate::bounds::{Greatest, Least, move_sums};
use crate::share_rows::SpanRow;
use crate::shares::extremes_in;
use crate::{Ranges, Shares, Span, full_box};
use rail_model::{Table, limit_of, sections_of, trains_of};
use std::alloc::{AllocError, Global};
use std::marker::Model;

/// The sum of the least shares of a section, and of the greatest.
#[derive(Clone, Copy)]
pub struct Sum {
    pub least: i32,
    pub greatest: i32,
}

/// The sums of each section, the least ones in one list and the greatest in another.
#[derive(Drop)]
pub(crate) struct Sums {
    least: Vec<i16>,
    greatest: Vec<i16>,
}

impl Model for Sums {
    ghost use Rattle.std.specs.Prelude.{◌≡◌, List, length};
    ghost use Rattle.state_boxes.specs.declared.sums.Sum.{Sum as SumValue};
    ghost use Rattle.state_boxes.specs.Sums.{sums_of};

    ghost Value = { List SumValue };

    ghost view = { λ s. sums_of s.least.items s.greatest.items };

    ghost invariant = { λ s. length s.greatest.items ≡ length s.least.items };
}

impl Sums {
    ghost use Rattle.std.specs.Prelude.{◌≡◌, ℕ, ◌<◌, length, slice_index_or};
    ghost use Rattle.state_boxes.specs.Each.{IsEach};
    ghost use Rattle.state_boxes.specs.Extremes.{nothing};
    ghost use Rattle.state_boxes.specs.Sums.{no_sum, moved, IsFew, IsSmallSum};

    fn at(&self, section: u32) -> Sum
        requires { section < length self.now }
        ensures { result ≡ slice_index_or self.now section no_sum }
    {
        Sum {
            least: i32::from(self.least[section as usize]),
            greatest: i32::from(self.greatest[section as usize]),
        }
    }

    // Moves the sums from one row of a train to another.
    fn shift(&mut self, old: &SpanRow<'_>, new: &SpanRow<'_>)
        requires old { length old.now ≡ length self.old }
        requires new { length new.now ≡ length self.old }
        requires old_few { (s : ℕ) → s < length self.old → IsFew (slice_index_or old.now s nothing) }
        requires new_few { (s : ℕ) → s < length self.old → IsFew (slice_index_or new.now s nothing) }
        requires small { (s : ℕ) → s < length self.old → IsSmallSum (slice_index_or self.old s no_sum) }
        ensures { IsEach (λ s sum. sum ≡ moved (slice_index_or self.old s no_sum) (slice_index_or old.now s nothing) (slice_index_or new.now s nothing))
            (length self.old) no_sum self.new }
    {
        move_sums::<Least>(&mut self.least, old.least(), new.least());
        move_sums::<Greatest>(&mut self.greatest, old.greatest(), new.greatest());
    }
}

/// A box, and the sums of each section in it.
#[derive(Drop)]
pub struct RangeSums {
    ranges: Ranges,
    sums: Sums,
}

impl Model for RangeSums {
    ghost use Rattle.state_boxes.specs.Sums.{Summed};

    ghost Value = { Summed };

    ghost view = { λ s. record { ranges = s.ranges; sums = s.sums } };
}

// The sums of a section in a box.
fn sum_of(table: &Table, ranges: &Ranges, section: u32) -> Sum
    requires boxed { IsBox table.now ranges.now }
    requires section { section < length table.now.sections }
    ensures { IsSum table.now ranges.now section result }
{
    let mut least: i32 = 0;
    let mut greatest: i32 = 0;
    for train in 0..trains_of(table) {
        let extremes = extremes_in(table, train, section, ranges.span(train));
        least += i32::from(extremes.least);
        greatest += i32::from(extremes.greatest);
    }
    Sum { least, greatest }
}

impl RangeSums {
    ghost use Rattle.std.specs.Prelude.{◌≡◌, ◌<◌, ◌≤◌, length, IfOk, slice_set, slice_index_or};
    ghost use Rattle.rail_model.specs.Table.{IsTable, trains, last};
    ghost use Rattle.rail_model.specs.Certificate.{IsBox, full_box as full_box_of};
    ghost use Rattle.state_boxes.specs.Extremes.{IsShares};
    ghost use Rattle.state_boxes.specs.Sums.{no_sum, AreSums};

    /// All places of all trains, with the sums there.
    pub fn full(alloc: Global, table: &Table) -> Result<RangeSums, AllocError>
        ensures ranges { IfOk result (λ s. s.ranges ≡ full_box_of table.now) }
        ensures sums { IfOk result (AreSums table.now) }
        ensures formed { IsTable table.now }
    {
        let ranges = full_box(alloc, table)?;
        RangeSums::new(alloc, table, ranges)
    }

    /// A box with its sums.
    pub fn new(alloc: Global, table: &Table, ranges: Ranges) -> Result<RangeSums, AllocError>
        requires { IsBox table.now ranges }
        ensures ranges { IfOk result (λ s. s.ranges ≡ ranges) }
        ensures sums { IfOk result (AreSums table.now) }
    {
        let sums = all_sums(alloc, table, &ranges)?;
        Ok(RangeSums { ranges, sums })
    }

    /// The box.
    pub fn ranges(&self) -> &Ranges
        ensures { result.now ≡ self.now.ranges }
    {
        &self.ranges
    }

    /// The sums of a section.
    pub fn sum(&self, section: u32) -> Sum
        requires { section < length self.now.sums }
        ensures { result ≡ slice_index_or self.now.sums section no_sum }
    {
        self.sums.at(section)
    }

    /// Changes the span of one train.
    pub fn narrow(&mut self, table: &Table, shares: &Shares, train: u32, span: Span)
        requires shares { IsShares table.now shares.now }
        requires sums { AreSums table.now self.old }
        requires train { train < trains table.now }
        requires some { span.lo ≤ span.hi }
        requires in_range { span.hi ≤ last table.now train }
        ensures ranges { self.new.ranges ≡ slice_set self.old.ranges train span }
        ensures sums { AreSums table.now self.new }
    {
        let rows = shares.train(train);
        let old = rows.row(table, train, self.ranges.span(train));
        let new = rows.row(table, train, span);
        self.sums.shift(&old, &new);
        self.ranges.set(train, span);
    }
}

// The sums of each section in a box.
fn all_sums(alloc: Global, table: &Table, ranges: &Ranges) -> Result<Sums, AllocError>
    requires { IsBox table.now ranges.now }
    ensures { IfOk result (λ sums. IsEach (IsSum table.now ranges.now) (length table.now.sections) no_sum sums) }
{
    let sections = sections_of(table);
    let mut least = Vec::with_capacity(alloc, sections as usize)?;
    let mut greatest = Vec::with_capacity(alloc, sections as usize)?;
    for section in 0..sections {
        let sum = sum_of(table, ranges, section);
        least.push_reserved(sum.least as i16);
        greatest.push_reserved(sum.greatest as i16);
    }
    Ok(Sums { least, greatest })
}

/// Whether a section is over its limit at all positions.
pub fn is_overfull(table: &Table, sums: &RangeSums, section: u32) -> bool
    requires sums { AreSums table.now sums.now }
    requires section { section < length table.now.sections }
    ensures { IsTrue result ↔ IsGood table.now sums.now.ranges (OverfullNode section) }
{
    let limit = limit_of(table, section) as i32;
    limit < sums.sum(section).least
}
