// Boxes: a range of places for each train.
ghost use Rattle.std.specs.Prelude.{◌≡◌, ◌<◌, List, length, IfOk, map, slice_set};
ghost use Rattle.rail_model.specs.Table.{IsTable};
ghost use Rattle.rail_model.specs.Certificate.{range, full_box as full_box_of};

use rail_model::{State, Table, last_of, trains_of};
use std::alloc::{AllocError, Global};
use std::marker::Model;

/// The places from `lo` to `hi`.
#[derive(Clone, Copy)]
pub struct Span {
    lo: u32,
    hi: u32,
}

impl Model for Span {
    ghost use Rattle.rail_model.specs.Certificate.{Range};

    ghost Value = { Range };

    ghost view = { λ s. record { lo = s.lo; hi = s.hi } };

    ghost inverse = { λ r. record { lo = r.lo; hi = r.hi } };
}

impl Span {
    ghost use Rattle.std.specs.Prelude.{◌≡◌, IsTrue, ◌↔◌};
    ghost use Rattle.rail_model.specs.Certificate.{IsIn};

    pub fn new(lo: u32, hi: u32) -> Self
        ensures { result ≡ record { lo = lo; hi = hi } }
    {
        Span { lo, hi }
    }

    pub fn lo(self) -> u32
        ensures { result ≡ self.lo }
    {
        self.lo
    }

    pub fn hi(self) -> u32
        ensures { result ≡ self.hi }
    {
        self.hi
    }

    /// Whether a place is one of them.
    pub fn contains(self, place: u32) -> bool
        ensures { IsTrue result ↔ IsIn place self }
    {
        self.lo <= place && place <= self.hi
    }
}

/// One span per train.
#[derive(Drop)]
pub struct Ranges {
    items: Vec<Span>,
}

impl Model for Ranges {
    ghost use Rattle.std.specs.Prelude.{List};
    ghost use Rattle.rail_model.specs.Certificate.{Range};

    ghost Value = { List Range };

    ghost view = { λ r. r.items.items };
}

impl Ranges {
    pub fn span(&self, train: u32) -> Span
        requires { train < length self.now }
        ensures { result ≡ range self.now train }
    {
        self.items[train as usize]
    }

    /// The first place of each train.
    pub fn starts(&self, alloc: Global) -> Result<State, AllocError>
        ensures { IfOk result (λ state. state ≡ map (λ r. r.lo) self.now) }
    {
        let positions: Vec<u32> = self.items.iter().map(|span| span.lo()).collect(alloc)?;
        Ok(positions.into())
    }

    pub fn set(&mut self, train: u32, span: Span)
        requires { train < length self.old }
        ensures { self.new ≡ slice_set self.old train span }
    {
        self.items[train as usize] = span;
    }

    pub fn copy(&self, alloc: Global) -> Result<Ranges, AllocError>
        ensures { IfOk result (λ copy. copy ≡ self.now) }
    {
        Ok(Ranges {
            items: Vec::from_slice(alloc, &self.items)?,
        })
    }
}

/// All places of all trains.
pub fn full_box(alloc: Global, table: &Table) -> Result<Ranges, AllocError>
    ensures full { IfOk result (λ ranges. ranges ≡ full_box_of table.now) }
    ensures formed { IsTable table.now }
{
    let mut items = Vec::new(alloc);
    for train in 0..trains_of(table) {
        items.push(Span::new(0, last_of(table, train)))?;
    }
    Ok(Ranges { items })
}
