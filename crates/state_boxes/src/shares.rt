// The least and the greatest share of a train in a span.
ghost use Rattle.std.specs.Prelude.{◌≡◌, ◌-◌, ◌<◌, ◌≤◌, pos, ◌≤ℤ◌, length};
ghost use Rattle.rail_model.specs.Sums.{least, greatest};
ghost use Rattle.rail_model.specs.Table.{IsTable, trains, last, share};
ghost use Rattle.state_boxes.specs.Extremes.{IsExtremes};
ghost use Rattle.state_boxes.specs.Sums.{IsFew};

use crate::{Extremes, Span};
use rail_model::{Table, change_at, share_at};

/// The least and the greatest share of a train in a span, looked up place by place.
pub(crate) fn extremes_in(table: &Table, train: u32, section: u32, span: Span) -> Extremes
    requires train { train < trains table.now }
    requires section { section < length table.now.sections }
    requires some { span.lo ≤ span.hi }
    requires in_range { span.hi ≤ last table.now train }
    ensures extremes { IsExtremes (share table.now train section) span.lo (span.hi - span.lo) result }
    ensures few { IsFew result }
    ensures formed { IsTable table.now }
{
    let mut share = share_at(table, train, section, span.lo());
    let mut extremes = Extremes::single(share);
    for place in span.lo()..span.hi() {
        share += change_at(table, train, section, place + 1);
        extremes = extremes.joined(Extremes::single(share));
    }
    extremes
}

/// The least share of a train in a span.
pub fn least_share(table: &Table, train: u32, section: u32, span: Span) -> i32
    requires train { train < trains table.now }
    requires section { section < length table.now.sections }
    requires some { span.lo ≤ span.hi }
    requires in_range { span.hi ≤ last table.now train }
    ensures least { result ≡ least (share table.now train section) span.lo (span.hi - span.lo) }
    ensures low { pos 0 ≤ℤ result }
    ensures high { result ≤ℤ pos 4 }
    ensures formed { IsTable table.now }
{
    let extremes = extremes_in(table, train, section, span);
    i32::from(extremes.least)
}

/// The greatest share of a train in a span.
pub fn greatest_share(table: &Table, train: u32, section: u32, span: Span) -> i32
    requires train { train < trains table.now }
    requires section { section < length table.now.sections }
    requires some { span.lo ≤ span.hi }
    requires in_range { span.hi ≤ last table.now train }
    ensures greatest { result ≡ greatest (share table.now train section) span.lo (span.hi - span.lo) }
    ensures low { pos 0 ≤ℤ result }
    ensures high { result ≤ℤ pos 4 }
    ensures formed { IsTable table.now }
{
    let extremes = extremes_in(table, train, section, span);
    i32::from(extremes.greatest)
}
