// Tests of a box that leaves make.
ghost use Rattle.std.specs.Prelude.{◌≡◌, ◌≢◌, ℕ, ◌+◌, ◌<◌, ◌≤◌, Some, length, IsTrue, ◌↔◌};
ghost use Rattle.rail_model.specs.Table.{IsTable, trains, last, point};
ghost use Rattle.rail_model.specs.Certificate.{range, IsIn, IsBox, IsSplit, IsClash, MayBlock, MayBeFull};
ghost use Rattle.state_boxes.specs.Places.{IsAhead};
ghost use Rattle.cert_checker.specs.Places.{Passes};

use crate::shares::others_count;
use rail_model::{Table, change_at, has_point, limit_of, point_of, share_at, trains_of};
use state_boxes::{Ranges, Span, stays_at};

// Whether a train has the point at some place of a span.
fn passes(table: &Table, train: u32, span: Span, at: u32) -> bool
    requires train { train < trains table.now }
    ensures { IsTrue result ↔ Passes table.now train span at }
{
    for place in span.lo()..=span.hi() {
        if has_point(table, train, place, at) {
            return true;
        }
    }
    false
}

/// Whether a train is one of the table's, and a place parts its range in two.
pub(crate) fn splits(table: &Table, ranges: &Ranges, train: u32, place: u32) -> bool
    requires boxed { IsBox table.now ranges.now }
    ensures { IsTrue result ↔ IsSplit table.now ranges.now train place }
{
    if train >= trains_of(table) {
        return false;
    }
    let span = ranges.span(train);
    span.lo() <= place && place < span.hi()
}

/// Whether two trains have one point at all places of their ranges.
pub(crate) fn clashes(table: &Table, ranges: &Ranges, first: u32, second: u32) -> bool
    requires boxed { IsBox table.now ranges.now }
    requires first { first < trains table.now }
    requires second { second < trains table.now }
    ensures { IsTrue result ↔ IsClash table.now ranges.now first second }
{
    if first == second {
        return false;
    }
    let one = ranges.span(first);
    match point_of(table, first, one.lo()) {
        Some(at) => {
            stays_at(table, first, one, at) && stays_at(table, second, ranges.span(second), at)
        }
        None => false,
    }
}

// Whether another train may stand at the point after a train's place.
fn is_ahead(table: &Table, ranges: &Ranges, train: u32, other: u32, place: u32) -> bool
    requires formed { IsTable table.now }
    requires boxed { IsBox table.now ranges.now }
    requires train { train < trains table.now }
    requires other { other < trains table.now }
    requires place { place ≤ last table.now train }
    ensures { IsTrue result ↔ IsAhead table.now ranges.now train other place }
{
    match point_of(table, train, place + 1) {
        Some(next) => passes(table, other, ranges.span(other), next),
        None => false,
    }
}

/// Whether another train may stand at a train's next point.
pub(crate) fn may_block(table: &Table, ranges: &Ranges, train: u32, other: u32) -> bool
    requires formed { IsTable table.now }
    requires boxed { IsBox table.now ranges.now }
    requires train { train < trains table.now }
    requires other { other < trains table.now }
    ensures { IsTrue result ↔ MayBlock table.now ranges.now train other }
{
    if other == train {
        return false;
    }
    let span = ranges.span(train);
    for place in span.lo()..=span.hi() {
        if is_ahead(table, ranges, train, other, place) {
            return true;
        }
    }
    false
}

/// Whether a section may have no room for a train's move.
pub(crate) fn may_be_full(table: &Table, ranges: &Ranges, train: u32, section: u32) -> bool
    requires boxed { IsBox table.now ranges.now }
    requires train { train < trains table.now }
    requires unfinished { (range ranges.now train).hi < last table.now train }
    requires section { section < length table.now.sections }
    ensures { IsTrue result ↔ MayBeFull table.now ranges.now train section }
{
    let span = ranges.span(train);
    let others = others_count(table, ranges, section, train);
    let limit = limit_of(table, section) as i32;
    for place in span.lo()..=span.hi() {
        if change_at(table, train, section, place + 1) > 0
            && limit < others + share_at(table, train, section, place + 1)
        {
            return true;
        }
    }
    false
}
