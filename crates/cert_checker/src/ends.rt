// Where the subtree of each node ends.
ghost use Rattle.std.specs.Prelude.{◌≡◌, ◌≤◌, ◌<◌, ◌+◌, length, IfOk};
ghost use Rattle.cert_checker.specs.Cut.{IsEnd, AreEnds, AreEndsFrom};

use rail_model::Node;
use std::alloc::{AllocError, Global};

// The index after the subtree that begins at an index, from those of the later nodes.
fn end_at(nodes: &[Node], ends: &[u32], index: usize) -> u32
    requires few { length nodes.now ≤ 1000000 }
    requires index { index < length nodes.now }
    requires later { AreEndsFrom (index + 1) nodes.now ends.now }
    ensures end { IsEnd nodes.now index result }
    ensures within { result ≤ length nodes.now }
{
    let next = index + 1;
    match nodes[index] {
        Node::Split { .. } => ends[ends[next] as usize],
        _ => next as u32,
    }
}

/// For each index the one after the subtree that begins there; for the number of nodes itself.
pub(crate) fn ends_of(alloc: Global, nodes: &[Node]) -> Result<Vec<u32>, AllocError>
    requires few { length nodes.now ≤ 1000000 }
    ensures { IfOk result (λ ends. AreEnds nodes.now ends.items) }
{
    let mut ends = vec![in alloc; nodes.len() as u32; nodes.len() + 1]?;
    for index in (0..nodes.len()).rev() {
        ends[index] = end_at(nodes, &ends, index);
    }
    Ok(ends)
}
