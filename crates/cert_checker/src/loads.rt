// Parts dealt out, so that each thread has about as many nodes to check.
ghost use Rattle.std.specs.Prelude.{◌≡◌, IfOk};
ghost use Rattle.cert_checker.specs.Cut.{parts_of};

use crate::parts::Part;
use std::alloc::{AllocError, Global};

/// Parts that one thread checks, one after the other.
#[derive(Clone, Copy)]
pub(crate) struct Load<'a> {
    pub parts: &'a [Part],
}

/// The parts in loads, in order. A load is full if the next part begins at least this many nodes after its first.
pub(crate) fn loads_of(
    alloc: Global,
    parts: &[Part],
    full: usize,
) -> Result<Vec<Load<'_>>, AllocError>
    ensures { IfOk result (λ loads. parts_of loads.items ≡ parts.now) }
{
    let mut loads = Vec::new(alloc);
    let mut begin = 0;
    let mut first = 0;
    for index in 0..parts.len() {
        if parts[index].first.saturating_sub(first) >= full {
            loads.push(Load {
                parts: &parts[begin..index],
            })?;
            begin = index;
            first = parts[index].first;
        }
    }
    loads.push(Load {
        parts: &parts[begin..],
    })?;
    Ok(loads)
}
