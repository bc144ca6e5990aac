// Whether a train stays at a point, and whether a connection may hold it.
ghost use Rattle.std.specs.Prelude.{◌≡◌, ◌<◌, length, IsTrue, ◌↔◌};
ghost use Rattle.rail_model.specs.Table.{trains};
ghost use Rattle.rail_model.specs.Certificate.{MayBeHeld};
ghost use Rattle.state_boxes.specs.Places.{StaysAt};

use crate::{Ranges, Span};
use rail_model::{Table, connection_of, has_point};

/// Whether a train has one point at all places of a span.
pub fn stays_at(table: &Table, train: u32, span: Span, at: u32) -> bool
    requires train { train < trains table.now }
    ensures { IsTrue result ↔ StaysAt table.now train span at }
{
    for place in span.lo()..=span.hi() {
        if !has_point(table, train, place, at) {
            return false;
        }
    }
    true
}

/// Whether a connection may hold a train.
pub(crate) fn may_be_held(table: &Table, ranges: &Ranges, train: u32, number: u32) -> bool
    requires size { length ranges.now ≡ trains table.now }
    requires train { train < trains table.now }
    requires connection { number < length table.now.connections }
    ensures { IsTrue result ↔ MayBeHeld table.now ranges.now train number }
{
    let connection = connection_of(table, number);
    let span = ranges.span(train);
    connection.train() == train
        && span.contains(connection.place())
        && ranges.span(connection.other()).lo() < connection.reached()
}
