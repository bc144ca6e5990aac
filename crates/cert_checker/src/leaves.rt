// Whether a node is good in a box; else why not.
ghost use Rattle.std.specs.Prelude.{◌≡◌, ℕ, ◌+◌, ◌<◌, ◌≤◌, length, IsTrue, ◌↔◌};
ghost use Rattle.rail_model.specs.declared.types.Node.TheVariants.{Move as MoveNode, Overfull as OverfullNode};
ghost use Rattle.rail_model.specs.Table.{IsTable, trains, last};
ghost use Rattle.rail_model.specs.Move.{IsFirstOrNone};
ghost use Rattle.rail_model.specs.Certificate.{range, IsBox, MayBlock, MayBeFull, MayBeHeld};
ghost use Rattle.state_boxes.specs.Places.{IsAway};
ghost use Rattle.cert_checker.specs.Faults.{Judges};

use crate::places::{clashes, may_be_full, may_block, splits};
use crate::shares::least_count;
use rail_model::{Bad, Node, Table, last_of, limit_of, sections_of, trains_of};
use state_boxes::{Ranges, first_away, first_holder};

// The first train that may block a train's move.
fn first_blocker(table: &Table, ranges: &Ranges, train: u32) -> Option<u32>
    requires boxed { IsBox table.now ranges.now }
    requires train { train < trains table.now }
    ensures { IsFirstOrNone (MayBlock table.now ranges.now train) result }
{
    for other in 0..trains_of(table) {
        if may_block(table, ranges, train, other) {
            return Some(other);
        }
    }
    None
}

// The first section that may be full.
fn first_full(table: &Table, ranges: &Ranges, train: u32) -> Option<u32>
    requires boxed { IsBox table.now ranges.now }
    requires train { train < trains table.now }
    requires unfinished { (range ranges.now train).hi < last table.now train }
    ensures { IsFirstOrNone (MayBeFull table.now ranges.now train) result }
{
    for section in 0..sections_of(table) {
        if may_be_full(table, ranges, train, section) {
            return Some(section);
        }
    }
    None
}

// Whether a section is overfull in a box; else why not.
fn check_overfull(table: &Table, ranges: &Ranges, section: u32, index: u32) -> Result<(), Bad>
    requires boxed { IsBox table.now ranges.now }
    ensures { Judges table.now ranges.now (OverfullNode section) index result }
{
    if section >= sections_of(table) {
        return Err(Bad::Name { index });
    }
    let least = least_count(table, ranges, section);
    if least <= limit_of(table, section) {
        return Err(Bad::Overfull {
            index,
            section,
            least,
        });
    }
    Ok(())
}

// Whether a train surely moves in a box; else why not.
fn check_move(table: &Table, ranges: &Ranges, train: u32, index: u32) -> Result<(), Bad>
    requires boxed { IsBox table.now ranges.now }
    ensures { Judges table.now ranges.now (MoveNode train) index result }
{
    if train >= trains_of(table) {
        return Err(Bad::Name { index });
    }
    if ranges.span(train).hi() >= last_of(table, train) {
        return Err(Bad::MoveEnd { index, train });
    }
    if let Some(other) = first_blocker(table, ranges, train) {
        return Err(Bad::MovePoint {
            index,
            train,
            other,
        });
    }
    if let Some(section) = first_full(table, ranges, train) {
        return Err(Bad::MoveRoom {
            index,
            train,
            section,
        });
    }
    if let Some(connection) = first_holder(table, ranges, train) {
        return Err(Bad::MoveWait {
            index,
            train,
            connection,
        });
    }
    Ok(())
}

/// Whether a node is good in a box; else why not.
pub(crate) fn check_node(table: &Table, ranges: &Ranges, node: Node, index: u32) -> Result<(), Bad>
    requires boxed { IsBox table.now ranges.now }
    ensures { Judges table.now ranges.now node index result }
{
    match node {
        Node::Split { train, place } => {
            if splits(table, ranges, train, place) {
                Ok(())
            } else {
                Err(Bad::Split { index })
            }
        }
        Node::Clash { first, second } => {
            if first >= trains_of(table) || second >= trains_of(table) {
                Err(Bad::Name { index })
            } else if clashes(table, ranges, first, second) {
                Ok(())
            } else {
                Err(Bad::Clash { index })
            }
        }
        Node::Overfull { section } => check_overfull(table, ranges, section, index),
        Node::Arrived => match first_away(table, ranges) {
            Some(train) => Err(Bad::Arrived { index, train }),
            None => Ok(()),
        },
        Node::Move { train } => check_move(table, ranges, train, index),
    }
}
