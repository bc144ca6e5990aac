// The sections: one for each pair that has a train.
ghost use Rattle.std.specs.Prelude.{◌≡◌, ◌++◌, ◌≤◌, IfOk, OnOk, flat_map};
ghost use Rattle.document_generator.specs.Pieces as piece;
ghost use Rattle.document_generator.specs.Pieces.{changes_in, pair_changes, section_of, sections_of};

use crate::pairs::Pair;
use rail_model::{Changes, Section};
use std::alloc::{AllocError, Global};

// How many trains may be in the section of a pair: both of the pair.
const LIMIT: u32 = 2;

// The change at a place of a way: in at place 1, and out at the last.
fn change_at(steps: u32, place: u32) -> i32
    ensures { result ≡ piece.change_at steps place }
{
    if place == 1 {
        1
    } else if place == steps {
        -1
    } else {
        0
    }
}

// The change at a place of a way of a pair in the section of its own.
fn change_in(own: &Pair, pair: &Pair, place: u32) -> i32
    ensures { result ≡ piece.change_in own.now pair.now place }
{
    if own.number() == pair.number() {
        change_at(2 * pair.loops(), place)
    } else {
        0
    }
}

// The changes of a train of the pair in the section of the pair `own`.
fn changes(alloc: Global, own: &Pair, pair: &Pair) -> Result<Changes, AllocError>
    ensures { IfOk result (λ c. c ≡ changes_in own.now pair.now) }
{
    let mut found = Vec::new(alloc);
    for place in 0..2 * pair.loops() + 1 {
        found.push(change_in(own, pair, place))?;
    }
    Ok(Changes::from(found))
}

// Adds the same for each train of the pair.
fn add_changes(
    alloc: Global,
    own: &Pair,
    pair: &Pair,
    found: &mut Vec<Changes>,
) -> Result<(), AllocError>
    ensures { OnOk result (found.new.items ≡ found.old.items ++ pair_changes own.now pair.now) }
{
    for _train in 0..pair.times().len() {
        found.push(changes(alloc, own, pair)?)?;
    }
    Ok(())
}

// The section of a pair among all pairs.
fn section(alloc: Global, pairs: &[Pair], own: &Pair) -> Result<Section, AllocError>
    ensures { IfOk result (λ s. s ≡ section_of pairs.now own.now) }
{
    let mut changes = Vec::new(alloc);
    for pair in pairs {
        add_changes(alloc, own, pair, &mut changes)?;
    }
    Ok(Section::new(LIMIT, changes))
}

// Adds the section of a pair, where it has a train.
fn add_section(
    alloc: Global,
    pairs: &[Pair],
    own: &Pair,
    found: &mut Vec<Section>,
) -> Result<(), AllocError>
    ensures { OnOk result (found.new.items ≡ found.old.items ++ sections_of pairs.now own.now) }
{
    if !own.times().is_empty() {
        found.push(section(alloc, pairs, own)?)?;
    }
    Ok(())
}

/// The sections of all pairs.
pub(crate) fn sections(alloc: Global, pairs: &[Pair]) -> Result<Vec<Section>, AllocError>
    ensures { IfOk result (λ v. v.items ≡ flat_map (sections_of pairs.now) pairs.now) }
{
    let mut found = Vec::new(alloc);
    for own in pairs {
        add_section(alloc, pairs, own, &mut found)?;
    }
    Ok(found)
}
