// The places of all trains by their points, listed once for a table, and where another train may stand in a train's way.
ghost use Rattle.std.specs.Prelude.{MatchOption, Some, ◌≡◌, ℕ, ◌+◌, ◌<◌, ◌≤◌, ◌++◌, ◌==◌, ◌^◌, ◌∷◌, if◌then◌else◌, [], find, length, All, AllPairs, IfOk, OnOk, IsTrue, ◌↔◌, option_map, slice_index_or};
ghost use Rattle.rail_model.specs.Table.{IsTable, trains, last, point};
ghost use Rattle.rail_model.specs.Move.{IsFirstOrNone};
ghost use Rattle.rail_model.specs.Certificate.{IsBox, MayBlock};
ghost use Rattle.state_boxes.specs.Each.{IsEach};
ghost use Rattle.state_boxes.specs.Ways.{column, is_at, AreWays, AreLonger, is_covered as is_covered_of, is_rival as is_rival_of, IsInWay};

use crate::Ranges;
use rail_model::{Table, has_point, last_of, point_of, trains_of};
use std::alloc::{AllocError, Global};
use std::marker::Model;

/// A place of a train.
#[derive(Clone, Copy)]
pub struct Spot {
    pub train: u32,
    pub place: u32,
}

/// Spots in order of their trains.
#[derive(Drop)]
pub struct Spots {
    items: Vec<Spot>,
}

impl Model for Spots {
    ghost use Rattle.std.specs.Prelude.{List};
    ghost use Rattle.state_boxes.specs.declared.ways.Spot.{Spot as SpotValue};

    ghost Value = { List SpotValue };

    ghost view = { λ s. s.items.items };
}

/// For each point the spots at it.
#[derive(Drop)]
pub struct Ways {
    points: Vec<Spots>,
}

impl Model for Ways {
    ghost use Rattle.std.specs.Prelude.{List};
    ghost use Rattle.state_boxes.specs.declared.ways.Spot.{Spot as SpotValue};

    ghost Value = { List (List SpotValue) };

    ghost view = { λ w. w.points.items };
}

impl Ways {
    ghost use Rattle.std.specs.Prelude.{length, slice_index_or, []};

    // The spots at a point.
    fn at(&self, point: u32) -> &[Spot]
        requires { point < length self.now }
        ensures { result.now ≡ slice_index_or self.now point [] }
    {
        &self.points[point as usize].items
    }
}

// For each point no spots.
fn no_spots(alloc: Global) -> Result<Vec<Spots>, AllocError>
    ensures { IfOk result (λ points. IsEach (λ _ row. row ≡ []) 512 [] points.items) }
{
    let mut points = Vec::new(alloc);
    for _point in 0..512u32 {
        points.push(Spots {
            items: Vec::new(alloc),
        })?;
    }
    Ok(points)
}

// Adds a place of a train to the spots at its point.
fn add_spot(table: &Table, train: u32, place: u32, points: &mut [Spots]) -> Result<(), AllocError>
    requires formed { IsTable table.now }
    requires train { train < trains table.now }
    requires many { length points.old ≡ 512 }
    ensures { OnOk result (AreLonger (λ q. if is_at table.now q train place then record { train = train; place = place } ∷ [] else []) points.old points.new) }
{
    match point_of(table, train, place) {
        Some(at) => {
            let spots = &mut points[at as usize];
            spots.items.push(Spot { train, place })?;
            Ok(())
        }
        None => Ok(()),
    }
}

// Adds the places of a train.
fn add_train(table: &Table, train: u32, points: &mut [Spots]) -> Result<(), AllocError>
    requires train { train < trains table.now }
    requires many { length points.old ≡ 512 }
    ensures { OnOk result (AreLonger (λ q. column table.now q train (last table.now train + 1)) points.old points.new) }
{
    let places = last_of(table, train) + 1;
    for place in 0..places {
        add_spot(table, train, place, points)?;
    }
    Ok(())
}

/// The spots at each point.
pub(crate) fn ways_of(alloc: Global, table: &Table) -> Result<Ways, AllocError>
    ensures { IfOk result (AreWays table.now) }
{
    let mut points = no_spots(alloc)?;
    for train in 0..trains_of(table) {
        add_train(table, train, &mut points)?;
    }
    Ok(Ways { points })
}

// Whether a spot is in the range of its train.
fn is_covered(ranges: &Ranges, spot: Spot) -> bool
    requires { spot.train < length ranges.now }
    ensures { result ≡ is_covered_of ranges.now spot }
{
    ranges.span(spot.train).contains(spot.place)
}

// Whether a spot is one of another train, in that train's range.
fn is_rival(ranges: &Ranges, train: u32, spot: Spot) -> bool
    requires { spot.train < length ranges.now }
    ensures { result ≡ is_rival_of ranges.now train spot }
{
    spot.train != train && is_covered(ranges, spot)
}

// Whether all spots are of one train: of spots in order the first and the last tell.
fn are_of(spots: &[Spot], train: u32) -> bool
    requires { AllPairs (λ a b. a.train ≤ b.train) spots.now }
    ensures { IsTrue result → All (λ s. s.train ≡ train) spots.now }
{
    let count = spots.len();
    if count == 0 {
        return true;
    }
    spots[0].train == train && spots[count - 1].train == train
}

// The first spot of another train that is in that train's range.
fn first_covered(spots: &[Spot], ranges: &Ranges, train: u32) -> Option<Spot>
    requires known { All (λ s. s.train < length ranges.now) spots.now }
    requires ordered { AllPairs (λ a b. a.train ≤ b.train) spots.now }
    ensures { result ≡ find (is_rival_of ranges.now train) spots.now }
{
    if are_of(spots, train) {
        return None;
    }
    for &spot in spots {
        if is_rival(ranges, train, spot) {
            return Some(spot);
        }
    }
    None
}

// The first spot at which another train may stand at the point after a place of a train.
fn first_spot(ways: &Ways, table: &Table, ranges: &Ranges, train: u32, place: u32) -> Option<Spot>
    requires ways { AreWays table.now ways.now }
    requires boxed { IsBox table.now ranges.now }
    requires train { train < trains table.now }
    requires place { place ≤ last table.now train }
    ensures { IsFirstOrNone (IsInWay table.now ranges.now train place) (option_map (λ s. s.train) result) }
{
    match point_of(table, train, place + 1) {
        Some(at) => first_covered(ways.at(at), ranges, train),
        None => None,
    }
}

/// The first other train that may stand at the point after a place of a train.
pub fn first_in_way(
    ways: &Ways,
    table: &Table,
    ranges: &Ranges,
    train: u32,
    place: u32,
) -> Option<u32>
    requires ways { AreWays table.now ways.now }
    requires boxed { IsBox table.now ranges.now }
    requires train { train < trains table.now }
    requires place { place ≤ last table.now train }
    ensures { IsFirstOrNone (IsInWay table.now ranges.now train place) result }
{
    let spot = first_spot(ways, table, ranges, train, place)?;
    Some(spot.train)
}

/// A place of a train, and a spot at the point after it at which another train may stand in some box.
#[derive(Clone, Copy)]
pub struct Block {
    pub place: u32,
    pub spot: Spot,
}

/// The first block of a train from its first place on.
pub(crate) fn first_block(ways: &Ways, table: &Table, ranges: &Ranges, train: u32) -> Option<Block>
    requires ways { AreWays table.now ways.now }
    requires boxed { IsBox table.now ranges.now }
    requires train { train < trains table.now }
    ensures { MatchOption result ((j : ℕ) → MayBlock table.now ranges.now train j → ⊥) (λ block. MayBlock table.now ranges.now train block.spot.train) }
{
    let span = ranges.span(train);
    for place in span.lo()..=span.hi() {
        if let Some(spot) = first_spot(ways, table, ranges, train, place) {
            return Some(Block { place, spot });
        }
    }
    None
}

// Whether a spot has the point after a place of a train.
fn is_ahead(table: &Table, train: u32, place: u32, spot: Spot) -> bool
    requires train { train < trains table.now }
    requires place { place < 2 ^ 31 }
    requires spot { spot.train < trains table.now }
    ensures { IsTrue result ↔ ((q : ℕ) × (point table.now train (place + 1) ≡ Some q) × (point table.now spot.train spot.place ≡ Some q)) }
{
    match point_of(table, train, place + 1) {
        Some(at) => has_point(table, spot.train, spot.place, at),
        None => false,
    }
}

/// Whether a block that was found in some box is one in this box too.
pub(crate) fn is_block(table: &Table, ranges: &Ranges, train: u32, block: Block) -> bool
    requires boxed { IsBox table.now ranges.now }
    requires train { train < trains table.now }
    ensures { IsTrue result → MayBlock table.now ranges.now train block.spot.train }
{
    let spot = block.spot;
    let own = Spot {
        train,
        place: block.place,
    };
    spot.train != train
        && spot.train < trains_of(table)
        && is_covered(ranges, own)
        && is_covered(ranges, spot)
        && is_ahead(table, train, block.place, spot)
}
