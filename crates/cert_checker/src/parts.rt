// A tree cut into parts with boxes of their own.
ghost use Rattle.std.specs.Prelude.{◌≡◌, List, ◌∷◌, ◌++◌, [], ◌<◌, ◌≤◌, length, drop, reverse, All, IfOk, IfSome, OnOk};
ghost use Rattle.rail_model.specs.Table.{IsTable, trains};
ghost use Rattle.rail_model.specs.Certificate.{IsBox, full_box as full_box_of};
ghost use Rattle.cert_checker.specs.Cut.{AreEnds, IsPart, IsCut, IsCutFurther, IsDivided, part_visits};
ghost use Rattle.cert_checker.specs.Walked.{walked};

use crate::ends::ends_of;
use crate::halves::halves;
use crate::places::splits;
use rail_model::{Node, Table};
use state_boxes::{Ranges, full_box};
use std::alloc::{AllocError, Global};

/// A part that is a split is divided if it has more than this share of the nodes.
const SHARE: usize = 64;

/// A subtree: the index of its first node, and its box.
#[derive(Drop)]
pub(crate) struct Part {
    pub first: usize,
    pub ranges: Ranges,
}

// The nodes of a tree of a table, where the subtree of each ends, and how many nodes a part may have.
#[derive(Clone, Copy)]
struct Spelled<'a> {
    table: &'a Table,
    nodes: &'a [Node],
    ends: &'a [u32],
    most: usize,
}

// The train and the place at which a part's first node splits it, if it does and the part is large.
fn division(tree: &Spelled<'_>, part: &Part) -> Option<(u32, u32)>
    requires ends { AreEnds tree.now.nodes.now tree.now.ends.now }
    requires part { IsPart tree.now.table.now tree.now.nodes.now part.now }
    ensures { IfSome result (λ split. IsDivided tree.now.table.now tree.now.nodes.now part.now split.0 split.1) }
{
    let first = part.first;
    if first >= tree.nodes.len() || (tree.ends[first] as usize).saturating_sub(first) <= tree.most {
        return None;
    }
    let Node::Split { train, place } = tree.nodes[first] else {
        return None;
    };
    if splits(tree.table, &part.ranges, train, place) {
        Some((train, place))
    } else {
        None
    }
}

// Adds a part to the others; or if it is large, opens its two halves, the first of which comes next.
fn divide(
    alloc: Global,
    tree: &Spelled<'_>,
    part: Part,
    pending: &mut Vec<Part>,
    parts: &mut Vec<Part>,
) -> Result<(), AllocError>
    requires ends { AreEnds tree.now.nodes.now tree.now.ends.now }
    requires part { IsPart tree.now.table.now tree.now.nodes.now part }
    requires pending { All (λ p. IsPart tree.now.table.now tree.now.nodes.now p) pending.old.items }
    requires parts { All (λ p. IsPart tree.now.table.now tree.now.nodes.now p) parts.old.items }
    ensures further { OnOk result (IsCutFurther tree.now.table.now tree.now.nodes.now
        (parts.old.items ++ part ∷ reverse pending.old.items) (parts.new.items ++ reverse pending.new.items)) }
    ensures pending { OnOk result (All (λ p. IsPart tree.now.table.now tree.now.nodes.now p) pending.new.items) }
    ensures parts { OnOk result (All (λ p. IsPart tree.now.table.now tree.now.nodes.now p) parts.new.items) }
{
    let Some((train, place)) = division(tree, &part) else {
        return Ok(parts.push(part)?);
    };
    let first = part.first + 1;
    let (left, right) = halves(alloc, part.ranges, train, place)?;
    let left = Part {
        first,
        ranges: left,
    };
    let right = Part {
        first: tree.ends[first] as usize,
        ranges: right,
    };
    open(pending, left, right)
}

// Adds the two halves of a part to the pending parts, the first of which comes next.
fn open(pending: &mut Vec<Part>, left: Part, right: Part) -> Result<(), AllocError>
    ensures { OnOk result (pending.new.items ≡ (pending.old.items ++ right ∷ []) ++ left ∷ []) }
{
    pending.push(right)?;
    pending.push(left)?;
    Ok(())
}

// Adds the pending parts, the last one first.
fn add_pending(pending: &mut Vec<Part>, parts: &mut Vec<Part>) -> Result<(), AllocError>
    ensures added { OnOk result (parts.new.items ≡ parts.old.items ++ reverse pending.old.items) }
{
    while let Some(part) = pending.pop() {
        parts.push(part)?;
    }
    Ok(())
}

// Divides the pending parts until each has few of the nodes, or one alone, and adds them to the others.
fn divide_all(
    alloc: Global,
    tree: &Spelled<'_>,
    pending: &mut Vec<Part>,
    parts: &mut Vec<Part>,
) -> Result<(), AllocError>
    requires ends { AreEnds tree.now.nodes.now tree.now.ends.now }
    requires pending { All (λ p. IsPart tree.now.table.now tree.now.nodes.now p) pending.old.items }
    requires parts { All (λ p. IsPart tree.now.table.now tree.now.nodes.now p) parts.old.items }
    ensures further { OnOk result (IsCutFurther tree.now.table.now tree.now.nodes.now
        (parts.old.items ++ reverse pending.old.items) parts.new.items) }
    ensures parts { OnOk result (All (λ p. IsPart tree.now.table.now tree.now.nodes.now p) parts.new.items) }
{
    for _node in 0..tree.nodes.len() {
        let Some(part) = pending.pop() else {
            return Ok(());
        };
        divide(alloc, tree, part, pending, parts)?;
    }
    add_pending(pending, parts)
}

// The parts of a tree, of which this is the whole.
fn cut_whole(alloc: Global, tree: &Spelled<'_>, whole: Part) -> Result<Vec<Part>, AllocError>
    requires ends { AreEnds tree.now.nodes.now tree.now.ends.now }
    requires whole { IsPart tree.now.table.now tree.now.nodes.now whole }
    requires first { whole.first ≡ 0 }
    ensures cut { IfOk result (λ parts. IsCut tree.now.table.now tree.now.nodes.now 0 parts.items (part_visits tree.now.nodes.now whole)) }
    ensures parts { IfOk result (λ parts. All (λ p. IsPart tree.now.table.now tree.now.nodes.now p) parts.items) }
{
    let mut pending = Vec::new(alloc);
    pending.push(whole)?;
    let mut parts = Vec::new(alloc);
    divide_all(alloc, tree, &mut pending, &mut parts)?;
    Ok(parts)
}

/// The parts of a tree, in preorder. Each has few of the nodes, or one alone.
pub(crate) fn cut(alloc: Global, table: &Table, nodes: &[Node]) -> Result<Vec<Part>, AllocError>
    requires few { length nodes.now ≤ 1000000 }
    ensures cut { IfOk result (λ parts. IsCut table.now nodes.now 0 parts.items (walked (full_box_of table.now ∷ []) (drop 0 nodes.now))) }
    ensures parts { IfOk result (λ parts. All (λ p. IsPart table.now nodes.now p) parts.items) }
    ensures formed { IsTable table.now }
{
    let ranges = full_box(alloc, table)?;
    let ends = ends_of(alloc, nodes)?;
    let tree = Spelled {
        table,
        nodes,
        ends: &ends,
        most: nodes.len() / SHARE,
    };
    cut_whole(alloc, &tree, Part { first: 0, ranges })
}
