// The names of a pair's points.
ghost use Rattle.std.specs.Prelude.{◌≡◌, IfOk, string_bytes};
ghost use Rattle.document_generator.specs.Pieces as piece;

use crate::pairs::Pair;
use std::alloc::{AllocError, Global};

/// A point of a pair: a joint, or the point of a track in a loop.
#[derive(Clone, Copy)]
pub(crate) enum Spot {
    Joint(u32),
    Upper(u32),
    Lower(u32),
}

/// The name of a point.
pub(crate) fn name(alloc: Global, pair: &Pair, spot: Spot) -> Result<String, AllocError>
    ensures { IfOk result (λ s. string_bytes s ≡ piece.name pair.now spot) }
{
    match spot {
        Spot::Joint(number) => joint(alloc, pair, number),
        Spot::Upper(place) => upper(alloc, pair, place),
        Spot::Lower(place) => lower(alloc, pair, place),
    }
}

/// The joint of this number.
pub(crate) fn joint(alloc: Global, pair: &Pair, joint: u32) -> Result<String, AllocError>
    ensures { IfOk result (λ s. string_bytes s ≡ piece.joint pair.now joint) }
{
    let number = pair.number();
    format!(in alloc; "P{number}J{joint}")
}

/// The point of the upper track in this loop.
pub(crate) fn upper(alloc: Global, pair: &Pair, place: u32) -> Result<String, AllocError>
    ensures { IfOk result (λ s. string_bytes s ≡ piece.upper pair.now place) }
{
    let number = pair.number();
    format!(in alloc; "P{number}U{place}")
}

/// The point of the lower track in this loop.
pub(crate) fn lower(alloc: Global, pair: &Pair, place: u32) -> Result<String, AllocError>
    ensures { IfOk result (λ s. string_bytes s ≡ piece.lower pair.now place) }
{
    let number = pair.number();
    format!(in alloc; "P{number}L{place}")
}
