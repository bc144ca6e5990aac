// The first train that is not at its end, and the first connection that may hold a train.
ghost use Rattle.std.specs.Prelude.{◌≡◌, ◌<◌, length, IsTrue, ◌↔◌};
ghost use Rattle.rail_model.specs.Table.{trains};
ghost use Rattle.rail_model.specs.Move.{IsFirstOrNone};
ghost use Rattle.rail_model.specs.Certificate.{IsAtEnd, MayBeHeld};
ghost use Rattle.state_boxes.specs.Places.{IsAway};

use crate::Ranges;
use crate::places::may_be_held;
use rail_model::{Table, connections_of, last_of, trains_of};

/// Whether a train is at its last place alone.
pub fn is_at_end(table: &Table, ranges: &Ranges, train: u32) -> bool
    requires size { length ranges.now ≡ trains table.now }
    requires train { train < trains table.now }
    ensures { IsTrue result ↔ IsAtEnd table.now ranges.now train }
{
    let last = last_of(table, train);
    let span = ranges.span(train);
    span.lo() == last && span.hi() == last
}

/// The first train that isn't at its last place alone.
pub fn first_away(table: &Table, ranges: &Ranges) -> Option<u32>
    requires { length ranges.now ≡ trains table.now }
    ensures { IsFirstOrNone (IsAway table.now ranges.now) result }
{
    for train in 0..trains_of(table) {
        if !is_at_end(table, ranges, train) {
            return Some(train);
        }
    }
    None
}

/// The first connection that may hold a train.
pub fn first_holder(table: &Table, ranges: &Ranges, train: u32) -> Option<u32>
    requires size { length ranges.now ≡ trains table.now }
    requires train { train < trains table.now }
    ensures { IsFirstOrNone (MayBeHeld table.now ranges.now train) result }
{
    for number in 0..connections_of(table) {
        if may_be_held(table, ranges, train, number) {
            return Some(number);
        }
    }
    None
}
