// The ways of the trains, by the names of their points.
ghost use Rattle.std.specs.Prelude.{◌≡◌, ◌++◌, IfOk, OnOk, map, flat_map};
ghost use Rattle.document_shapes.specs.Seen.{names_seen};
ghost use Rattle.document_generator.specs.Pieces as piece;
ghost use Rattle.document_generator.specs.Pieces.{ways_of};

use crate::names::{joint, lower, upper};
use crate::pairs::Pair;
use std::alloc::{AllocError, Global};

// Along the upper track.
fn way_up(alloc: Global, pair: &Pair) -> Result<Vec<String>, AllocError>
    ensures { IfOk result (λ v. names_seen v ≡ piece.way_up pair.now) }
{
    let mut found = Vec::new(alloc);
    let loops = pair.loops();
    for place in 0..loops {
        found.push(joint(alloc, pair, place)?)?;
        found.push(upper(alloc, pair, place)?)?;
    }
    found.push(joint(alloc, pair, loops)?)?;
    Ok(found)
}

// Back along the lower track, from the last joint.
fn way_back(alloc: Global, pair: &Pair) -> Result<Vec<String>, AllocError>
    ensures { IfOk result (λ v. names_seen v ≡ piece.way_back pair.now) }
{
    let mut found = Vec::new(alloc);
    let loops = pair.loops();
    for step in 0..loops {
        found.push(joint(alloc, pair, loops - step)?)?;
        found.push(lower(alloc, pair, loops - step - 1)?)?;
    }
    found.push(joint(alloc, pair, 0)?)?;
    Ok(found)
}

// Adds the ways of a pair's trains: the first goes up, and the second comes back.
fn add_ways(alloc: Global, pair: &Pair, found: &mut Vec<Vec<String>>) -> Result<(), AllocError>
    ensures { OnOk result (map names_seen found.new.items ≡ map names_seen found.old.items ++ ways_of pair.now) }
{
    match pair.times() {
        [] => Ok(()),
        [_only] => {
            found.push(way_up(alloc, pair)?)?;
            Ok(())
        }
        _ => {
            found.push(way_up(alloc, pair)?)?;
            found.push(way_back(alloc, pair)?)?;
            Ok(())
        }
    }
}

/// The ways of all trains.
pub(crate) fn ways(alloc: Global, pairs: &[Pair]) -> Result<Vec<Vec<String>>, AllocError>
    ensures { IfOk result (λ v. map names_seen v.items ≡ flat_map ways_of pairs.now) }
{
    let mut found = Vec::new(alloc);
    for pair in pairs {
        add_ways(alloc, pair, &mut found)?;
    }
    Ok(found)
}
