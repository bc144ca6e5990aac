// A box parted in two.
ghost use Rattle.std.specs.Prelude.{◌≡◌, ◌<◌, length, IfOk};
ghost use Rattle.rail_model.specs.Certificate.{range, left_half, right_half};

use state_boxes::{Ranges, Span};
use std::alloc::{AllocError, Global};

/// A box parted at a place of a train.
pub(crate) fn halves(
    alloc: Global,
    ranges: Ranges,
    train: u32,
    place: u32,
) -> Result<(Ranges, Ranges), AllocError>
    requires train { train < length ranges }
    requires place { place < (range ranges train).hi }
    ensures { IfOk result (λ parts. (parts.0 ≡ left_half ranges train place) × (parts.1 ≡ right_half ranges train place)) }
{
    let span = ranges.span(train);
    let mut right = ranges.copy(alloc)?;
    let mut left = ranges;
    left.set(train, Span::new(span.lo(), place));
    right.set(train, Span::new(place + 1, span.hi()));
    Ok((left, right))
}
