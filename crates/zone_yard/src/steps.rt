// Single steps on the shared table, in which a word of the core lies eight times as far on.
ghost use Rattle.std.specs.Prelude.{◌≡◌, ◌≢◌, suc, ◌+◌, ◌<◌, ◌≤◌, ◌^◌, [], length, true, false, Some};
ghost use Rattle.zone_locks.specs.Zones.{has};
ghost use Rattle.move_claim.specs.declared.cells.Cell.TheVariants.{Table as TableCell};
ghost use Rattle.zone_machine.specs.Steps.{is_above};
ghost use Rattle.move_claim.specs.Cells.{number_of};
ghost use Rattle.zone_machine.specs.World.{word_of as word_at, is_cell, may_read};
ghost use Rattle.zone_machine.specs.Sound.{IsSetup};
ghost use Rattle.zone_yard.specs.Core.{MayEnter};
ghost use Rattle.zone_yard.specs.Setup.{core, most_passes};
ghost use Rattle.zone_yard.specs.Views.{took, tried_at, gave, glanced, read, read_table, paid, boarding, pass_view, leaving, new_entries};
ghost use Rattle.zone_yard.specs.Kept.{IsPassNumber};
ghost use Rattle.zone_yard.specs.Tells.{Appends, Looks, IsOurs};

use crate::views::{
    Appending, Boards, Glancing, HowMany, Leaves, Looking, Paying, Place, Reading, ReadingTable,
    Releasing, Taking, Which, WhichCell,
};
use crate::yard::Yard;
use move_claim::Cell;
use rail_model::{points_of, zones_of};

// One try at a zone: the word that was found.
pub(crate) fn take(yard: &Yard<'_>, seat: &mut Place, pass: u32, zone: u32) -> u64
    requires ours { IsOurs yard.now seat.old.table_id seat.old.me.view }
    requires pass { (seat.old.me.view.aboard ≡ true) × (seat.old.me.view.number ≡ pass) }
    requires zone { (zone < yard.now.setup.layout.zones) × (is_above zone seat.old.me.view.actor.held ≡ true) }
    requires still { seat.old.me.view.actor.closing ≡ false }
    ensures same { (seat.new.table_id ≡ seat.old.table_id) × (seat.new.id ≡ seat.old.id) }
    ensures free { result ≡ 0 → seat.new.me ≡ record seat.old.me { view = took zone seat.old.me.view } }
    ensures held { result ≢ 0 → (seat.new.me ≡ record seat.old.me { view = tried_at zone result seat.old.me.view }) × (result ≢ suc pass) × (result ≤ most_passes) }
{
    yard.table.shared.compare_exchange::<Taking>(
        &mut seat.seat,
        8 * (zone as usize + 1),
        0,
        pass as u64 + 1,
    )
}

// A zone that is held is given back.
pub(crate) fn release(yard: &Yard<'_>, seat: &mut Place, zone: u32)
    requires ours { IsOurs yard.now seat.old.table_id seat.old.me.view }
    requires zone { (zone < yard.now.setup.layout.zones) × (has zone seat.old.me.view.actor.held ≡ true) }
    requires paid { (seat.old.me.view.aboard ≡ true) × (seat.old.me.view.actor.owed ≡ []) }
    ensures same { (seat.new.table_id ≡ seat.old.table_id) × (seat.new.id ≡ seat.old.id) }
    ensures gave { seat.new.me ≡ record seat.old.me { view = gave zone seat.old.me.view } }
{
    yard.table
        .shared
        .store::<Releasing>(&mut seat.seat, 8 * (zone as usize + 1), 0)
}

// The seat of the pass that the caller picks, cut from the root's.
pub(crate) fn board_seat<J: Which>(yard: &Yard<'_>, root: &mut Place, number: u32) -> Place
    requires which { number ≡ J.number }
    requires root { IsOurs yard.now root.old.table_id root.old.me.view × (root.old.id ≡ 0) }
    requires pass { IsPassNumber yard.now.setup number × (has number root.old.me.view.boarded ≡ false) }
    ensures root { (root.new.table_id ≡ root.old.table_id) × (root.new.id ≡ root.old.id) × (root.new.me ≡ record root.old.me { view = boarding number root.old.me.view }) }
    ensures seat { (result.table_id ≡ root.old.table_id) × (result.me ≡ record { view = pass_view number root.old.me.view; slots = [] }) }
{
    let seat = yard.table.shared.split_seat::<Boards<J>>(&mut root.seat);
    Place { seat }
}

// A pass's seat is joined to the root's.
pub(crate) fn join(yard: &Yard<'_>, root: &mut Place, seat: Place)
    requires root { IsOurs yard.now root.old.table_id root.old.me.view × (root.old.id ≡ 0) }
    requires seat { IsOurs yard.now seat.table_id seat.me.view × (seat.me.slots ≡ []) }
    requires free { (seat.me.view.aboard ≡ true) × (seat.me.view.actor.held ≡ []) }
    ensures root { (root.new.table_id ≡ root.old.table_id) × (root.new.id ≡ root.old.id) × (root.new.me ≡ record root.old.me { view = leaving root.old.me.view seat.me.view }) }
{
    yard.table
        .shared
        .join_seat::<Leaves>(&mut root.seat, seat.seat)
}

// The root looks at the history: how long it is.
pub(crate) fn look(yard: &Yard<'_>, root: &mut Place) -> u64
    requires { IsOurs yard.now root.old.table_id root.old.me.view × (root.old.id ≡ 0) }
    ensures root { (root.new.table_id ≡ root.old.table_id) × (root.new.id ≡ root.old.id) }
    ensures looks { Looks root.old.me result root.new.me }
{
    yard.table.shared.load::<Looking>(&mut root.seat, 0)
}

// A look at the table in force, without a zone.
pub(crate) fn glance(yard: &Yard<'_>, seat: &mut Place, word: usize) -> u64
    requires ours { IsOurs yard.now seat.old.table_id seat.old.me.view }
    requires word { word ≡ word_at (core yard.now.setup) TableCell }
    requires free { (seat.old.me.view.aboard ≡ true) × (seat.old.me.view.actor.held ≡ []) }
    ensures same { (seat.new.table_id ≡ seat.old.table_id) × (seat.new.id ≡ seat.old.id) }
    ensures sees { (seat.old.me.view.noted ≤ result) × (result < length seat.old.me.view.setup.tables) }
    ensures glanced { seat.new.me ≡ record seat.old.me { view = glanced result seat.old.me.view } }
{
    yard.table.shared.load::<Glancing>(&mut seat.seat, 8 * word)
}

// The word of a cell.
pub(crate) fn word_of(yard: &Yard<'_>, cell: Cell) -> usize
    ensures word { result ≡ word_at (core yard.now.setup) cell }
    ensures formed { IsSetup (core yard.now.setup) }
{
    let zones = zones_of(yard.key.layout) as usize;
    let points = points_of(yard.key.layout) as usize;
    let place = match cell {
        Cell::Point { point } => point as usize,
        Cell::Count { section } => points + section as usize,
        Cell::Position { train } => points + 64 + train as usize,
        Cell::Table => points + 96,
    };
    zones + place + 1
}

// The table in force is read under a zone.
pub(crate) fn read_table(yard: &Yard<'_>, seat: &mut Place, word: usize) -> u64
    requires ours { IsOurs yard.now seat.old.table_id seat.old.me.view }
    requires word { word ≡ word_at (core yard.now.setup) TableCell }
    requires aboard { (seat.old.me.view.aboard ≡ true) × (seat.old.me.view.actor.closing ≡ false) }
    requires guard { may_read (core yard.now.setup) seat.old.me.view.actor.held TableCell ≡ true }
    ensures same { (seat.new.table_id ≡ seat.old.table_id) × (seat.new.id ≡ seat.old.id) }
    ensures sees { (seat.old.me.view.noted ≤ result) × (result < length seat.old.me.view.setup.tables) }
    ensures reads { seat.new.me ≡ record seat.old.me { view = read_table result seat.old.me.view } }
{
    yard.table
        .shared
        .load::<ReadingTable>(&mut seat.seat, 8 * word)
}

// A cell is read under its guard.
pub(crate) fn read<J: WhichCell>(yard: &Yard<'_>, seat: &mut Place, cell: Cell, word: usize) -> u64
    requires ours { IsOurs yard.now seat.old.table_id seat.old.me.view }
    requires cell { cell ≡ J.cell }
    requires word { word ≡ word_at (core yard.now.setup) cell }
    requires aboard { (seat.old.me.view.aboard ≡ true) × (seat.old.me.view.actor.closing ≡ false) }
    requires guard { (is_cell (core yard.now.setup) cell ≡ true) × (may_read (core yard.now.setup) seat.old.me.view.actor.held cell ≡ true) }
    ensures same { (seat.new.table_id ≡ seat.old.table_id) × (seat.new.id ≡ seat.old.id) }
    ensures small { result < 2 ^ 31 }
    ensures reads { seat.new.me ≡ record seat.old.me { view = read cell result seat.old.me.view } }
{
    yard.table
        .shared
        .load::<Reading<J>>(&mut seat.seat, 8 * word)
}

// An owed cell is written.
pub(crate) fn pay<J: WhichCell>(
    yard: &Yard<'_>,
    seat: &mut Place,
    cell: Cell,
    word: usize,
    number: u32,
)
    requires ours { IsOurs yard.now seat.old.table_id seat.old.me.view }
    requires cell { (cell ≡ J.cell) × (is_cell (core yard.now.setup) cell ≡ true) }
    requires word { word ≡ word_at (core yard.now.setup) cell }
    requires aboard { seat.old.me.view.aboard ≡ true }
    requires due { number_of cell seat.old.me.view.actor.owed ≡ Some number }
    ensures same { (seat.new.table_id ≡ seat.old.table_id) × (seat.new.id ≡ seat.old.id) }
    ensures paid { seat.new.me ≡ record seat.old.me { view = paid cell seat.old.me.view } }
{
    yard.table
        .shared
        .store::<Paying<J>>(&mut seat.seat, 8 * word, number as u64)
}

// This many entries are added to the history: the place of the first.
pub(crate) fn append<J: HowMany>(yard: &Yard<'_>, seat: &mut Place, steps: u32, entries: u64) -> u64
    requires ours { IsOurs yard.now seat.old.table_id seat.old.me.view }
    requires steps { steps ≡ J.steps }
    requires entries { entries ≡ length (new_entries steps seat.old.me.view) }
    requires may { MayEnter yard.now.setup steps seat.old.me.view }
    requires aboard { seat.old.me.view.aboard ≡ true }
    ensures same { (seat.new.table_id ≡ seat.old.table_id) × (seat.new.id ≡ seat.old.id) }
    ensures appends { Appends steps seat.old.me result seat.new.me }
{
    yard.table
        .shared
        .fetch_add::<Appending<J>>(&mut seat.seat, 0, entries)
}
