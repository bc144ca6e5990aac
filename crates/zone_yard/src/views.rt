// What a seat at the shared table knows, the table's rule, and what each kind of step tells.
ghost use Rattle.std.specs.Prelude.{ℕ};
ghost use Rattle.move_claim.specs.declared.cells.Cell.{Cell as CellValue};

use atomic_table::{Join, Play, Seat, Split, TableRule};
use cert_checker::Accepted;
use rail_model::{HasTable, Layout, PlainState, Table};
use std::marker::{Brand, Model, PhantomData};

/// What the rule is given once, when the table is made.
#[derive(Drop)]
pub struct Key<'a> {
    pub(crate) layout: &'a Layout,
    pub(crate) tables: &'a [Accepted],
    pub(crate) opening: PlainState,
    pub(crate) calls: u32,
}

impl<'a> Model for Key<'a> {
    ghost use Rattle.zone_yard.specs.Setup.{Setup};

    ghost Value = { Setup };

    ghost view = { λ k. record { layout = k.layout.now; tables = k.tables.now; opening = k.opening; calls = k.calls } };
}

impl<'a> Key<'a> {
    ghost use Rattle.std.specs.Prelude.{◌≡◌, ◌<◌, length};
    ghost use Rattle.rail_model.specs.Table.{place};
    ghost use Rattle.rail_model.specs.Yard.{offer};

    // The table of this number.
    pub(crate) fn table(&self, number: u32) -> &Table
        requires { number < length self.now.tables }
        ensures { result.now ≡ (offer self.now.tables number).table }
    {
        self.tables[number as usize].table()
    }

    // Where a train stands as the yard opens.
    pub(crate) fn place(&self, train: u32) -> u32
        requires { train < length self.now.opening.yard.positions }
        ensures { result ≡ place self.now.opening.yard.positions train }
    {
        self.opening.positions().place(train)
    }
}

/// What a seat knows. No value of it is made.
pub struct View;

impl Model for View {
    ghost use Rattle.zone_yard.specs.Views.{View as SeatView, gone_view};

    ghost Value = { SeatView };

    ghost view = { λ _. gone_view };
}

/// A seat at a yard's table, which has no slots.
#[derive(Drop)]
pub struct Place {
    pub(crate) seat: Seat<(), View>,
}

impl Model for Place {
    ghost use Rattle.zone_yard.specs.Views.{Place as PlaceValue, seat_of};

    ghost Value = { PlaceValue };

    ghost view = { λ p. record { table_id = p.seat.table_id; id = p.seat.id; me = seat_of p.seat.me } };
}

/// The rule of a yard's table.
pub struct Law;

impl<'a> TableRule<(), View, Key<'a>> for Law {
    ghost use Rattle.std.specs.Prelude.{[]};
    ghost use Rattle.zone_yard.specs.Kept.{KeepsRule};
    ghost use Rattle.zone_yard.specs.Views.{root_view};

    ghost holds = { KeepsRule };

    ghost first = { λ S. root_view S [] };
}

/// One try at a zone.
pub struct Taking;

impl Play<(), View> for Taking {
    ghost use Rattle.zone_yard.specs.Tells.{TakesZone};
    ghost use Rattle.zone_yard.specs.Views.{seat_of};

    ghost then = { λ step m found after. TakesZone step (seat_of m) found (seat_of after) };
}

/// A zone is given back.
pub struct Releasing;

impl Play<(), View> for Releasing {
    ghost use Rattle.zone_yard.specs.Tells.{Releases};
    ghost use Rattle.zone_yard.specs.Views.{seat_of};

    ghost then = { λ step m stored after. Releases step (seat_of m) stored (seat_of after) };
}

/// A look at the table in force, without a zone.
pub struct Glancing;

impl Play<(), View> for Glancing {
    ghost use Rattle.zone_yard.specs.Tells.{Glances};
    ghost use Rattle.zone_yard.specs.Views.{seat_of};

    ghost then = { λ step m found after. Glances step (seat_of m) found (seat_of after) };
}

/// A cell. Each call picks its own.
pub trait WhichCell {
    ghost cell: { CellValue };
}

impl WhichCell for Brand {
    ghost use Rattle.move_claim.specs.declared.cells.Cell.TheVariants.{Table};

    ghost cell = { Table };
}

/// A cell is read under its guard.
pub struct Reading<J: WhichCell> {
    of: PhantomData<J>,
}

impl<J: WhichCell> Play<(), View> for Reading<J> {
    ghost use Rattle.zone_yard.specs.Tells.{ReadsCell};
    ghost use Rattle.zone_yard.specs.Views.{seat_of};

    ghost then = { λ step m found after. ReadsCell J.cell (seat_of m) found (seat_of after) };
}

/// The table in force is read under a zone.
pub struct ReadingTable;

impl Play<(), View> for ReadingTable {
    ghost use Rattle.zone_yard.specs.Tells.{ReadsInForce};
    ghost use Rattle.zone_yard.specs.Views.{seat_of};

    ghost then = { λ step m found after. ReadsInForce step (seat_of m) found (seat_of after) };
}

/// An owed cell is written.
pub struct Paying<J: WhichCell> {
    of: PhantomData<J>,
}

impl<J: WhichCell> Play<(), View> for Paying<J> {
    ghost use Rattle.zone_yard.specs.Tells.{PaysCell};
    ghost use Rattle.zone_yard.specs.Views.{seat_of};

    ghost then = { λ step m stored after. PaysCell J.cell (seat_of m) (seat_of after) };
}

/// How many steps a driver asks for; of the control one. Each call picks its own.
pub trait HowMany {
    ghost steps: { ℕ };
}

impl HowMany for Brand {
    ghost steps = { 1 };
}

/// Entries are added to the history: of a driver one to four, of the control one.
pub struct Appending<J: HowMany> {
    of: PhantomData<J>,
}

impl<J: HowMany> Play<(), View> for Appending<J> {
    ghost use Rattle.zone_yard.specs.Tells.{Appends};
    ghost use Rattle.zone_yard.specs.Views.{seat_of};

    ghost then = { λ step m found after. Appends J.steps (seat_of m) found (seat_of after) };
}

/// A look of the root's at the history.
pub struct Looking;

impl Play<(), View> for Looking {
    ghost use Rattle.zone_yard.specs.Tells.{Looks};
    ghost use Rattle.zone_yard.specs.Views.{seat_of};

    ghost then = { λ step m found after. Looks (seat_of m) found (seat_of after) };
}

/// The number of the pass that boards. Each call picks its own.
pub trait Which {
    ghost number: { ℕ };
}

impl Which for Brand {
    ghost number = { 0 };
}

/// A pass boards.
pub struct Boards<J: Which> {
    of: PhantomData<J>,
}

impl<J: Which> Split<View> for Boards<J> {
    ghost use Rattle.zone_yard.specs.Views.{boarding, pass_view};

    ghost left = { boarding J.number };

    ghost right = { pass_view J.number };
}

/// A pass leaves.
pub struct Leaves;

impl Join<View> for Leaves {
    ghost use Rattle.zone_yard.specs.Views.{leaving, gone_view};

    ghost both = { leaving };

    ghost spent = { gone_view };
}
