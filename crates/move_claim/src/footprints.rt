// What the next steps of a train need.
ghost use Rattle.std.specs.Prelude.{◌≡◌};

use crate::cell_lists::Cells;
use crate::claims::Claim;
use crate::deciding::decide_steps;
use crate::filling::{list_cells, zones_needed};
use crate::granting::owe_effects;
use crate::{Cell, Known, Owed};
use rail_model::{Ask, BlockAsk, Layout, Table, last_of};
use std::marker::Model;
use zone_locks::ZoneSet;

/// The zones and the cells that the next steps of a train need, under one table.
#[derive(Drop)]
pub struct Footprint<'a> {
    table: Option<&'a Table>,
    claim: Claim,
    zones: ZoneSet,
    cells: Cells,
}

impl<'a> Model for Footprint<'a> {
    ghost use Rattle.std.specs.Prelude.{◌≡◌};
    ghost use Rattle.move_claim.specs.Claims.{Footprint as FootprintValue, IsClaim, cells_of};
    ghost use Rattle.move_claim.specs.Given.{table_of};

    ghost Value = { FootprintValue };

    ghost view = { λ f. record { table = table_of f.table; claim = f.claim; zones = f.zones } };

    ghost invariant = { λ f. (f.cells ≡ cells_of (table_of f.table) f.claim)
        × IsClaim (table_of f.table) f.claim };
}

impl<'a> Footprint<'a> {
    ghost use Rattle.std.specs.Prelude.{◌≡◌, ◌<◌, ◌≤◌};
    ghost use Rattle.rail_model.specs.Table.{trains};
    ghost use Rattle.rail_model.specs.declared.types.BlockAsk.TheVariants.{Yes};
    ghost use Rattle.move_claim.specs.Cells.{number_in};
    ghost use Rattle.move_claim.specs.Claims.{cells_of, claim_of, footprint_of, nothing_claimed};
    ghost use Rattle.rail_model.specs.Ways.{IsOn};
    ghost use Rattle.move_claim.specs.Deciding.{decided, one_ask, effects};
    ghost use Rattle.move_claim.specs.Small.{AreSmall};

    /// Nothing is claimed yet.
    pub fn new() -> Self
        ensures { result ≡ nothing_claimed }
    {
        let mut cells = Cells::new();
        cells.push(Cell::Table);
        let claim = Claim {
            train: 0,
            place: 0,
            steps: 0,
        };
        Footprint {
            table: None,
            claim,
            zones: ZoneSet::none(),
            cells,
        }
    }

    /// Becomes what the next step of a train needs.
    pub fn fill(&mut self, layout: &Layout, table: &'a Table, train: u32, place: u32)
        requires points { IsOn layout.now table.now }
        requires train { train < trains table.now }
        ensures { self.new ≡ footprint_of layout.now table.now (claim_of table.now train place 1) }
    {
        self.fill_block(layout, table, train, place, 1);
    }

    /// Becomes what the next steps of a train need, this many or all that remain.
    pub fn fill_block(
        &mut self,
        layout: &Layout,
        table: &'a Table,
        train: u32,
        place: u32,
        steps: u32,
    )
        requires points { IsOn layout.now table.now }
        requires train { train < trains table.now }
        requires steps { steps ≤ 4 }
        ensures { self.new ≡ footprint_of layout.now table.now (claim_of table.now train place steps) }
    {
        let claim = Claim {
            train,
            place,
            steps: steps.min(last_of(table, train).saturating_sub(place)),
        };
        list_cells(table, claim, &mut self.cells);
        self.zones = zones_needed(layout, table, claim, self.cells.as_slice());
        self.table = Some(table);
        self.claim = claim;
    }

    /// How many steps are claimed.
    pub fn steps(&self) -> u32
        ensures { result ≡ self.now.claim.steps }
    {
        self.claim.steps
    }

    /// The zones to hold.
    pub fn zones(&self) -> &ZoneSet
        ensures { result.now ≡ self.now.zones }
    {
        &self.zones
    }

    /// The cells to know, in the order in which they are read.
    pub fn cells(&self) -> &[Cell]
        ensures { result.now ≡ cells_of self.now.table self.now.claim }
    {
        self.cells.as_slice()
    }

    /// The answer to all the steps over known numbers.
    pub fn decide_block(&self, known: &Known) -> BlockAsk
        requires { AreSmall self.now.table self.now.claim known.now }
        ensures { result ≡ decided self.now.table self.now.claim (number_in known.now) }
    {
        match self.table {
            Some(table) => decide_steps(table, self.claim, known),
            None => BlockAsk::First { ask: Ask::Arrived },
        }
    }

    /// The answer to one step over known numbers: the yard's, where the numbers are true of a legal state.
    pub fn decide(&self, known: &Known) -> Ask
        requires small { AreSmall self.now.table self.now.claim known.now }
        requires one { self.now.claim.steps ≤ 1 }
        ensures { result ≡ one_ask (decided self.now.table self.now.claim (number_in known.now)) }
    {
        match self.decide_block(known) {
            BlockAsk::Yes => Ask::Yes,
            BlockAsk::First { ask } | BlockAsk::NotWhole { ask, .. } => ask,
        }
    }

    /// Owes the cells that a grant of all the steps writes, with their new numbers, in the order in which they are paid.
    pub fn effects(&self, known: &Known, owed: &mut Owed)
        requires small { AreSmall self.now.table self.now.claim known.now }
        requires granted { decided self.now.table self.now.claim (number_in known.now) ≡ Yes }
        ensures { owed.new ≡ effects self.now.table self.now.claim (number_in known.now) }
    {
        let Some(table) = self.table else {
            unreachable!();
        };
        owe_effects(table, self.claim, known, owed);
    }
}
