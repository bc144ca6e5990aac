// The cells of a request are read, and those of a grant are written.
ghost use Rattle.std.specs.Prelude.{◌≡◌, ◌≢◌, ◌+◌, ◌<◌, ◌≤◌, [], length, slice_get, None, Some, true, false, ℕ};
ghost use Rattle.move_claim.specs.declared.cells.Cell.{Cell as CellValue};
ghost use Rattle.move_claim.specs.Cells.{number_of, first_unknown, AreDistinct};
ghost use Rattle.zone_yard.specs.Setup.{core};
ghost use Rattle.zone_yard.specs.Tells.{IsOurs};
ghost use Rattle.zone_yard.specs.Holding.{AreAllSmall, Knows, AreReadable, AreCells, StillOwes as PaysAll};

use crate::steps::{pay, read, word_of};
use crate::views::Place;
use crate::yard::Yard;
use move_claim::{Cell, Known, Owed};
use std::marker::Brand;

// Reads these cells, each under its guard.
pub(crate) fn read_all(yard: &Yard<'_>, seat: &mut Place, cells: &[Cell], known: &mut Known)
    requires ours { IsOurs yard.now seat.old.table_id seat.old.me.view }
    requires aboard { (seat.old.me.view.aboard ≡ true) × (seat.old.me.view.actor.closing ≡ false) }
    requires guard { AreReadable (core yard.now.setup) seat.old.me.view.actor.held cells.now }
    requires known { (known.old ≡ seat.old.me.view.actor.known) × AreAllSmall known.old }
    requires room { length known.old + length cells.now ≤ 609 }
    ensures same { (seat.new.table_id ≡ seat.old.table_id) × (seat.new.id ≡ seat.old.id) }
    ensures knows { Knows seat.old.me seat.new.me known.new }
    ensures small { AreAllSmall known.new }
    ensures all { first_unknown cells.now known.new ≡ None }
    ensures others { (c : CellValue) → ((k : ℕ) (d : CellValue) → slice_get cells.now k ≡ Some d → d ≢ c) → number_of c known.new ≡ number_of c known.old }
{
    for &cell in cells {
        let number = read::<Brand>(yard, seat, cell, word_of(yard, cell));
        known.put(cell, number as u32);
    }
}

// Writes all that is owed, in its order.
pub(crate) fn pay_all(yard: &Yard<'_>, seat: &mut Place, owed: &Owed)
    requires ours { IsOurs yard.now seat.old.table_id seat.old.me.view }
    requires aboard { seat.old.me.view.aboard ≡ true }
    requires owed { (owed.now ≡ seat.old.me.view.actor.owed) × AreDistinct owed.now }
    requires cells { AreCells (core yard.now.setup) owed.now }
    ensures same { (seat.new.table_id ≡ seat.old.table_id) × (seat.new.id ≡ seat.old.id) }
    ensures pays { PaysAll seat.old.me [] seat.new.me }
{
    for &(cell, number) in owed.items() {
        pay::<Brand>(yard, seat, cell, word_of(yard, cell), number);
    }
}
