// Points and links.
ghost use Rattle.std.specs.Prelude.{◌≡◌, ◌<◌, ◌++◌, ◌∷◌, [], IfOk, OnOk, map, flat_map};
ghost use Rattle.document_generator.specs.Pieces as piece;
ghost use Rattle.document_generator.specs.Pieces.{loop_points, points_of, loop_links, links_of};
ghost use Rattle.document_generator.specs.Seen.{point_seen, link_seen};

use crate::names::{Spot, name};
use crate::pairs::Pair;
use std::alloc::{AllocError, Global};

/// How many zones there are.
pub(crate) const ZONES: u32 = 4;

// Adds the point of this number in the document.
fn add_point(
    alloc: Global,
    pair: &Pair,
    spot: Spot,
    number: u32,
    found: &mut Vec<(String, u32)>,
) -> Result<(), AllocError>
    ensures { OnOk result (map point_seen found.new.items ≡ map point_seen found.old.items ++ (piece.name pair.now spot, piece.zone number) ∷ []) }
{
    found.push((name(alloc, pair, spot)?, number % ZONES))?;
    Ok(())
}

// Adds the points of a loop after its first joint.
fn add_loop_points(
    alloc: Global,
    pair: &Pair,
    place: u32,
    found: &mut Vec<(String, u32)>,
) -> Result<(), AllocError>
    requires { place < 8 }
    ensures { OnOk result (map point_seen found.new.items ≡ map point_seen found.old.items ++ loop_points pair.now place) }
{
    let start = pair.first_point() + 3 * place;
    add_point(alloc, pair, Spot::Upper(place), start + 1, found)?;
    add_point(alloc, pair, Spot::Lower(place), start + 2, found)?;
    add_point(alloc, pair, Spot::Joint(place + 1), start + 3, found)
}

// Adds the points of a pair.
fn add_points(alloc: Global, pair: &Pair, found: &mut Vec<(String, u32)>) -> Result<(), AllocError>
    ensures { OnOk result (map point_seen found.new.items ≡ map point_seen found.old.items ++ points_of pair.now) }
{
    add_point(alloc, pair, Spot::Joint(0), pair.first_point(), found)?;
    for place in 0..pair.loops() {
        add_loop_points(alloc, pair, place, found)?;
    }
    Ok(())
}

/// The points of all pairs, with their zones.
pub(crate) fn points(alloc: Global, pairs: &[Pair]) -> Result<Vec<(String, u32)>, AllocError>
    ensures { IfOk result (λ v. map point_seen v.items ≡ flat_map points_of pairs.now) }
{
    let mut found = Vec::new(alloc);
    for pair in pairs {
        add_points(alloc, pair, &mut found)?;
    }
    Ok(found)
}

// Adds a link from one point of a pair to another.
fn add_link(
    alloc: Global,
    pair: &Pair,
    from: Spot,
    to: Spot,
    found: &mut Vec<(String, String)>,
) -> Result<(), AllocError>
    ensures { OnOk result (map link_seen found.new.items ≡ map link_seen found.old.items ++ (piece.name pair.now from, piece.name pair.now to) ∷ []) }
{
    found.push((name(alloc, pair, from)?, name(alloc, pair, to)?))?;
    Ok(())
}

// Adds the links of a loop.
fn add_loop_links(
    alloc: Global,
    pair: &Pair,
    place: u32,
    found: &mut Vec<(String, String)>,
) -> Result<(), AllocError>
    requires { place < 8 }
    ensures { OnOk result (map link_seen found.new.items ≡ map link_seen found.old.items ++ loop_links pair.now place) }
{
    let (here, next) = (Spot::Joint(place), Spot::Joint(place + 1));
    add_link(alloc, pair, here, Spot::Upper(place), found)?;
    add_link(alloc, pair, Spot::Upper(place), next, found)?;
    add_link(alloc, pair, next, Spot::Lower(place), found)?;
    add_link(alloc, pair, Spot::Lower(place), here, found)
}

// Adds the links of a pair.
fn add_links(
    alloc: Global,
    pair: &Pair,
    found: &mut Vec<(String, String)>,
) -> Result<(), AllocError>
    ensures { OnOk result (map link_seen found.new.items ≡ map link_seen found.old.items ++ links_of pair.now) }
{
    for place in 0..pair.loops() {
        add_loop_links(alloc, pair, place, found)?;
    }
    Ok(())
}

/// The links of all pairs, by the names of their points.
pub(crate) fn links(alloc: Global, pairs: &[Pair]) -> Result<Vec<(String, String)>, AllocError>
    ensures { IfOk result (λ v. map link_seen v.items ≡ flat_map links_of pairs.now) }
{
    let mut found = Vec::new(alloc);
    for pair in pairs {
        add_links(alloc, pair, &mut found)?;
    }
    Ok(found)
}
