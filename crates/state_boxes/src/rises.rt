// Where a train's step adds to a section, listed once for a table.
ghost use Rattle.std.specs.Prelude.{◌≡◌, ℕ, ◌+◌, ◌<◌, ◌≤◌, ◌++◌, ◌∷◌, [], pos, int_lt, if◌then◌else◌, find, length, All, IfOk, OnOk, MatchOption, None, IsTrue, ◌↔◌, ◌<ℤ◌, option_map, slice_index_or};
ghost use Rattle.rail_model.specs.Table.{IsTable, trains, last, limit, change, share};
ghost use Rattle.rail_model.specs.Move.{IsFirstOrNone};
ghost use Rattle.rail_model.specs.Certificate.{range, most_with, MayBeFull};
ghost use Rattle.state_boxes.specs.Extremes.{IsRow, IsShares, IsTrainShares};
ghost use Rattle.state_boxes.specs.Sums.{AreSums, AreRises, AreSteps, IsRise, rises_at as rises_at_place, is_tight as is_tight_of};

use crate::share_rows::Row;
use crate::{RangeSums, Shares, TrainShares};
use rail_model::{Table, last_of, limit_of, sections_of, trains_of};
use std::alloc::{AllocError, Global};
use std::marker::Model;

/// A place from which a train's step adds to a section, its share after the step, and by how much that is more.
#[derive(Clone, Copy)]
pub struct Rise {
    pub section: u32,
    pub place: u32,
    pub share: i32,
    pub by: i32,
}

/// The rises of one train at one place, in order of their sections.
#[derive(Drop)]
pub struct PlaceRises {
    items: Vec<Rise>,
}

impl Model for PlaceRises {
    ghost use Rattle.std.specs.Prelude.{List};
    ghost use Rattle.state_boxes.specs.declared.rises.Rise.{Rise as RiseValue};

    ghost Value = { List RiseValue };

    ghost view = { λ r. r.items.items };
}

/// The rises of one train, place by place.
#[derive(Drop)]
pub struct TrainRises {
    places: Vec<PlaceRises>,
}

impl Model for TrainRises {
    ghost use Rattle.std.specs.Prelude.{List};
    ghost use Rattle.state_boxes.specs.declared.rises.Rise.{Rise as RiseValue};

    ghost Value = { List (List RiseValue) };

    ghost view = { λ r. r.places.items };
}

/// The rises of all trains.
#[derive(Drop)]
pub struct Rises {
    trains: Vec<TrainRises>,
}

impl Model for Rises {
    ghost use Rattle.std.specs.Prelude.{List};
    ghost use Rattle.state_boxes.specs.declared.rises.Rise.{Rise as RiseValue};

    ghost Value = { List (List (List RiseValue)) };

    ghost view = { λ r. r.trains.items };
}

impl Rises {
    ghost use Rattle.std.specs.Prelude.{length, slice_index_or, []};

    // The rises of a train at a place.
    fn at(&self, train: u32, place: u32) -> &[Rise]
        requires train { train < length self.now }
        requires place { place < length (slice_index_or self.now train []) }
        ensures { result.now ≡ slice_index_or (slice_index_or self.now train []) place [] }
    {
        &self.trains[train as usize].places[place as usize].items
    }
}

// A train's share of a section, by the row of its place.
fn share_in(table: &Table, train: u32, section: u32, place: u32, row: &Row<'_>) -> i32
    requires section { section < length table.now.sections }
    requires row { IsRow table.now train place 0 row.now }
    ensures { result ≡ share table.now train section place }
{
    i32::from(row.at(section).least)
}

// By how much a train's step from a place raises its share of a section, by the rows of both places.
fn change_between(
    table: &Table,
    train: u32,
    section: u32,
    place: u32,
    here: &Row<'_>,
    next: &Row<'_>,
) -> i32
    requires section { section < length table.now.sections }
    requires here { IsRow table.now train place 0 here.now }
    requires next { IsRow table.now train (place + 1) 0 next.now }
    ensures { result ≡ change table.now train section (place + 1) }
{
    let before = i32::from(here.at(section).least);
    let after = i32::from(next.at(section).least);
    after - before
}

// Adds a rise, where a train's step from a place adds to the section; by the rows of both places.
fn add_rise(
    table: &Table,
    train: u32,
    section: u32,
    place: u32,
    here: &Row<'_>,
    next: &Row<'_>,
    rises: &mut Vec<Rise>,
) -> Result<(), AllocError>
    requires formed { IsTable table.now }
    requires train { train < trains table.now }
    requires section { section < length table.now.sections }
    requires place { place < last table.now train }
    requires here { IsRow table.now train place 0 here.now }
    requires next { IsRow table.now train (place + 1) 0 next.now }
    ensures { OnOk result (rises.new.items ≡ rises.old.items
        ++ (if int_lt (pos 0) (change table.now train section (place + 1)) then record { section = section; place = place; share = share table.now train section (place + 1); by = change table.now train section (place + 1) } ∷ [] else [])) }
{
    let by = change_between(table, train, section, place, here, next);
    if by <= 0 {
        return Ok(());
    }
    let share = share_in(table, train, section, place + 1, next);
    rises.push(Rise {
        section,
        place,
        share,
        by,
    })?;
    Ok(())
}

// The rises of a train at a place.
fn place_rises(
    alloc: Global,
    table: &Table,
    shares: &TrainShares,
    train: u32,
    place: u32,
) -> Result<PlaceRises, AllocError>
    requires shares { IsTrainShares table.now train shares.now }
    requires train { train < trains table.now }
    requires place { place < last table.now train }
    ensures { IfOk result (λ rises. rises ≡ rises_at_place table.now train place (length table.now.sections)) }
{
    let here = shares.single(table, train, place);
    let next = shares.single(table, train, place + 1);
    let mut items = Vec::new(alloc);
    for section in 0..sections_of(table) {
        add_rise(table, train, section, place, &here, &next, &mut items)?;
    }
    Ok(PlaceRises { items })
}

// The rises of a train.
fn train_rises(
    alloc: Global,
    table: &Table,
    shares: &TrainShares,
    train: u32,
) -> Result<TrainRises, AllocError>
    requires shares { IsTrainShares table.now train shares.now }
    requires train { train < trains table.now }
    ensures { IfOk result (AreSteps table.now train) }
{
    let last = last_of(table, train);
    let mut places = Vec::with_capacity(alloc, last as usize)?;
    for place in 0..last {
        places.push(place_rises(alloc, table, shares, train, place)?)?;
    }
    Ok(TrainRises { places })
}

/// The rises of all trains of a table.
pub(crate) fn rises_of(alloc: Global, table: &Table, shares: &Shares) -> Result<Rises, AllocError>
    requires { IsShares table.now shares.now }
    ensures { IfOk result (AreRises table.now) }
{
    let mut all = Vec::new(alloc);
    for train in 0..trains_of(table) {
        all.push(train_rises(alloc, table, shares.train(train), train)?)?;
    }
    Ok(Rises { trains: all })
}

// A train's share after a rise and the other trains' greatest shares, by the rows of its range.
fn most_by_rows(table: &Table, shares: &Shares, sums: &RangeSums, train: u32, rise: Rise) -> i32
    requires formed { IsTable table.now }
    requires shares { IsShares table.now shares.now }
    requires sums { AreSums table.now sums.now }
    requires train { train < trains table.now }
    requires rise { IsRise table.now train rise }
    ensures { result ≡ most_with table.now sums.now.ranges rise.section train (rise.place + 1) }
{
    let span = sums.ranges().span(train);
    let own = shares
        .train(train)
        .extremes(table, train, span, rise.section);
    sums.sum(rise.section).greatest - i32::from(own.greatest) + rise.share
}

// A train's share after a rise at its only place and the other trains' greatest shares: all that they have now, and the rise.
fn most_from_one(table: &Table, sums: &RangeSums, train: u32, rise: Rise) -> i32
    requires formed { IsTable table.now }
    requires sums { AreSums table.now sums.now }
    requires train { train < trains table.now }
    requires rise { IsRise table.now train rise }
    requires low { (range sums.now.ranges train).lo ≡ rise.place }
    requires high { (range sums.now.ranges train).hi ≡ rise.place }
    ensures { result ≡ most_with table.now sums.now.ranges rise.section train (rise.place + 1) }
{
    sums.sum(rise.section).greatest + rise.by
}

// A train's share after a rise and the other trains' greatest shares.
fn most_behind(table: &Table, shares: &Shares, sums: &RangeSums, train: u32, rise: Rise) -> i32
    requires formed { IsTable table.now }
    requires shares { IsShares table.now shares.now }
    requires sums { AreSums table.now sums.now }
    requires train { train < trains table.now }
    requires rise { IsRise table.now train rise }
    ensures { result ≡ most_with table.now sums.now.ranges rise.section train (rise.place + 1) }
{
    let ranges = sums.ranges();
    let span = ranges.span(train);
    if span.lo() == rise.place && span.hi() == rise.place {
        return most_from_one(table, sums, train, rise);
    }
    most_by_rows(table, shares, sums, train, rise)
}

// Whether a train's share after a rise and the other trains' greatest shares may pass the limit.
fn lacks_room(table: &Table, shares: &Shares, sums: &RangeSums, train: u32, rise: Rise) -> bool
    requires shares { IsShares table.now shares.now }
    requires sums { AreSums table.now sums.now }
    requires train { train < trains table.now }
    requires rise { IsRise table.now train rise }
    ensures { IsTrue result ↔ (pos (limit table.now rise.section) <ℤ most_with table.now sums.now.ranges rise.section train (rise.place + 1)) }
{
    let limit = limit_of(table, rise.section) as i32;
    limit < most_behind(table, shares, sums, train, rise)
}

// Whether a section may have no room for a train's step from the place of a rise.
fn is_tight(table: &Table, shares: &Shares, sums: &RangeSums, train: u32, rise: Rise) -> bool
    requires shares { IsShares table.now shares.now }
    requires sums { AreSums table.now sums.now }
    requires train { train < trains table.now }
    requires rise { IsRise table.now train rise }
    ensures { result ≡ is_tight_of table.now sums.now.ranges train rise }
{
    let span = sums.ranges().span(train);
    span.contains(rise.place) && lacks_room(table, shares, sums, train, rise)
}

// The section of the first rise at which there may be no room.
fn first_tight(
    table: &Table,
    shares: &Shares,
    sums: &RangeSums,
    train: u32,
    rises: &[Rise],
) -> Option<u32>
    requires shares { IsShares table.now shares.now }
    requires sums { AreSums table.now sums.now }
    requires train { train < trains table.now }
    requires known { All (IsRise table.now train) rises.now }
    ensures { result ≡ option_map (λ r. r.section) (find (is_tight_of table.now sums.now.ranges train) rises.now) }
{
    for &rise in rises {
        if is_tight(table, shares, sums, train, rise) {
            return Some(rise.section);
        }
    }
    None
}

/// The first section that may have no room for a train's step from its only place.
pub fn first_without_room_from_one(
    table: &Table,
    rises: &Rises,
    shares: &Shares,
    sums: &RangeSums,
    train: u32,
) -> Option<u32>
    requires rises { AreRises table.now rises.now }
    requires shares { IsShares table.now shares.now }
    requires sums { AreSums table.now sums.now }
    requires train { train < trains table.now }
    requires unfinished { (range sums.now.ranges train).hi < last table.now train }
    requires single { (range sums.now.ranges train).lo ≡ (range sums.now.ranges train).hi }
    ensures { IsFirstOrNone (MayBeFull table.now sums.now.ranges train) result }
{
    let ranges = sums.ranges();
    let place = ranges.span(train).lo();
    first_tight(table, shares, sums, train, rises.at(train, place))
}

/// A rise of a train: its place, and its number among the rises there.
#[derive(Clone, Copy)]
pub struct RiseAt {
    pub place: u32,
    pub number: usize,
}

// Whether a rise has this number, and there may be no room at it.
fn is_tight_at(
    table: &Table,
    shares: &Shares,
    sums: &RangeSums,
    train: u32,
    rises: &[Rise],
    number: usize,
) -> bool
    requires shares { IsShares table.now shares.now }
    requires sums { AreSums table.now sums.now }
    requires train { train < trains table.now }
    requires known { All (IsRise table.now train) rises.now }
    ensures { IsTrue result → (s : ℕ) × MayBeFull table.now sums.now.ranges train s }
{
    number < rises.len() && is_tight(table, shares, sums, train, rises[number])
}

// The number of the first rise at which there may be no room.
fn tight_number(
    table: &Table,
    shares: &Shares,
    sums: &RangeSums,
    train: u32,
    rises: &[Rise],
) -> Option<usize>
    requires shares { IsShares table.now shares.now }
    requires sums { AreSums table.now sums.now }
    requires train { train < trains table.now }
    requires known { All (IsRise table.now train) rises.now }
    ensures { MatchOption result (find (is_tight_of table.now sums.now.ranges train) rises.now ≡ None) (λ _. (s : ℕ) × MayBeFull table.now sums.now.ranges train s) }
{
    for number in 0..rises.len() {
        if is_tight(table, shares, sums, train, rises[number]) {
            return Some(number);
        }
    }
    None
}

/// Whether there may be no room at a rise of a train.
pub(crate) fn is_full_at(
    table: &Table,
    rises: &Rises,
    shares: &Shares,
    sums: &RangeSums,
    train: u32,
    known: RiseAt,
) -> bool
    requires rises { AreRises table.now rises.now }
    requires shares { IsShares table.now shares.now }
    requires sums { AreSums table.now sums.now }
    requires train { train < trains table.now }
    ensures { IsTrue result → (s : ℕ) × MayBeFull table.now sums.now.ranges train s }
{
    if known.place >= last_of(table, train) {
        return false;
    }
    let here = rises.at(train, known.place);
    is_tight_at(table, shares, sums, train, here, known.number)
}

/// The first rise in a train's range at which there may be no room.
pub(crate) fn first_full(
    table: &Table,
    rises: &Rises,
    shares: &Shares,
    sums: &RangeSums,
    train: u32,
) -> Option<RiseAt>
    requires rises { AreRises table.now rises.now }
    requires shares { IsShares table.now shares.now }
    requires sums { AreSums table.now sums.now }
    requires train { train < trains table.now }
    requires unfinished { (range sums.now.ranges train).hi < last table.now train }
    ensures { MatchOption result ((s : ℕ) → MayBeFull table.now sums.now.ranges train s → ⊥) (λ _. (s : ℕ) × MayBeFull table.now sums.now.ranges train s) }
{
    let ranges = sums.ranges();
    let span = ranges.span(train);
    for place in span.lo()..=span.hi() {
        let here = rises.at(train, place);
        if let Some(number) = tight_number(table, shares, sums, train, here) {
            return Some(RiseAt { place, number });
        }
    }
    None
}
