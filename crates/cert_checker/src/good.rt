// Whether a node is good in a box, by its sums and by what is listed of the table.
ghost use Rattle.std.specs.Prelude.{◌<◌, ◌↔◌, IsTrue};
ghost use Rattle.rail_model.specs.Certificate.{IsGood};
ghost use Rattle.state_boxes.specs.Sums.{AreLists, AreSums};

use crate::places::{clashes, splits};
use rail_model::{Node, Table, sections_of, trains_of};
use state_boxes::{Lists, RangeSums, first_away, is_overfull, surely_moves};

/// Whether a node is good in the box.
pub(crate) fn is_good(table: &Table, lists: &Lists, sums: &RangeSums, node: Node) -> bool
    requires lists { AreLists table.now lists.now }
    requires sums { AreSums table.now sums.now }
    ensures { IsTrue result ↔ IsGood table.now sums.now.ranges node }
{
    let ranges = sums.ranges();
    match node {
        Node::Split { train, place } => splits(table, ranges, train, place),
        Node::Clash { first, second } => {
            first < trains_of(table)
                && second < trains_of(table)
                && clashes(table, ranges, first, second)
        }
        Node::Overfull { section } => {
            section < sections_of(table) && is_overfull(table, sums, section)
        }
        Node::Arrived => first_away(table, ranges).is_none(),
        Node::Move { train } => {
            train < trains_of(table) && surely_moves(table, lists, sums, train)
        }
    }
}
