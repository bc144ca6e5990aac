// A request for a block of steps, under the zones that it needs.
ghost use Rattle.std.specs.Prelude.{◌≡◌, ◌≢◌, suc, ◌+◌, ◌<◌, ◌≤◌, [], length, IfSome, None, Some, true, false};
ghost use Rattle.move_claim.specs.declared.cells.Cell.TheVariants.{Table as TableCell};
ghost use Rattle.move_claim.specs.Cells.{number_of, number_in, first_unknown, AreDistinct};
ghost use Rattle.move_claim.specs.Claims.{cells_of};
ghost use Rattle.move_claim.specs.Deciding.{decided};
ghost use Rattle.move_claim.specs.Small.{AreSmall};
ghost use Rattle.zone_yard.specs.Passes.{told};
ghost use Rattle.zone_yard.specs.Blocks.{needs, replies_of, granted_steps, CanAnswer};
ghost use Rattle.zone_yard.specs.Lines.{AreLines};
ghost use Rattle.zone_yard.specs.Views.{new_entries};
ghost use Rattle.zone_yard.specs.Holding.{span, Learns, StillOwes, AreCells, owing};
ghost use Rattle.zone_yard.specs.Aboard.{IsIdle};
ghost use Rattle.zone_yard.specs.Asked.{FoundNoZoneHeld};
ghost use Rattle.zone_yard.specs.Attempts.{Attempts};
ghost use Rattle.zone_yard.specs.Setup.{core, most_passes};
ghost use Rattle.zone_yard.specs.Tells.{Appends, IsOurs};

use crate::cells::{pay_all, read_all};
use crate::receipts::{Receipts, enter_answer};
use crate::steps::{read_table, word_of};
use crate::views::Place;
use crate::yard::{Asker, Yard};
use crate::zones::{HowToTake, release_all, zones};
use ats_io::{Gate, Moment};
use move_claim::{Cell, Claim, Footprint, Known, Owed};
use rail_model::BlockAsk;
use std::marker::Brand;

/// The steps that a train asks for from its place, one to four, under the table of this number.
#[derive(Clone, Copy)]
pub struct Wanted {
    pub train: u32,
    pub place: u32,
    pub table: u32,
    pub steps: u32,
}

/// What came of asking for a block of steps.
#[derive(Clone, Copy)]
pub enum Attempt {
    /// The answer to as many of the steps as remain, and the place of its first entry in the history.
    Told {
        answer: BlockAsk,
        steps: u32,
        ticket: u64,
    },
    /// The zone was held by this pass.
    Busy {
        zone: u32,
        holder: u32,
    },
}

// All zones that the steps need are held. Reads the table in force and, where it is the one that the steps are wanted under, all
// other cells that they need: whether it is.
pub(crate) fn know_all(
    yard: &Yard<'_>,
    seat: &mut Place,
    wanted: Wanted,
    footprint: &Footprint<'_>,
    known: &mut Known,
) -> bool
    requires ours { IsOurs yard.now seat.old.table_id seat.old.me.view }
    requires train { wanted.train < 32 }
    requires aboard { (seat.old.me.view.aboard ≡ true) × (seat.old.me.view.actor.closing ≡ false) }
    requires listed { wanted.table < length yard.now.setup.tables }
    requires steps { wanted.steps ≤ 4 }
    requires footprint { footprint.now ≡ needs yard.now.setup wanted seat.old.me.view.actor.position }
    requires held { seat.old.me.view.actor.held ≡ span footprint.now.zones 0 yard.now.setup.layout.zones }
    requires nothing { seat.old.me.view.actor.known ≡ [] }
    ensures same { (seat.new.table_id ≡ seat.old.table_id) × (seat.new.id ≡ seat.old.id) }
    ensures learns { Learns seat.old.me seat.new.me }
    ensures known { result ≡ true → (known.new ≡ seat.new.me.view.actor.known) × AreSmall footprint.now.table footprint.now.claim known.new }
    ensures table { result ≡ true → number_of TableCell known.new ≡ Some wanted.table }
    ensures cells { result ≡ true → first_unknown (cells_of footprint.now.table footprint.now.claim) known.new ≡ None }
    ensures moved { result ≡ false → seat.new.me.view.noted ≢ wanted.table }
    ensures some { seat.new.me.view.actor.held ≢ [] }
{
    let word = word_of(yard, Cell::Table);
    if read_table(yard, seat, word) != wanted.table as u64 {
        return false;
    }
    known.clear();
    known.put(Cell::Table, wanted.table);
    read_all(yard, seat, &footprint.cells()[1..], known);
    true
}

// All zones that the steps need are held and all their cells are known: the answer, which is entered, and the ticket of its first entry.
pub(crate) fn enter(
    yard: &Yard<'_>,
    seat: &mut Place,
    receipts: &mut Receipts,
    wanted: Wanted,
    footprint: &Footprint<'_>,
    known: &Known,
) -> (BlockAsk, u64)
    requires ours { IsOurs yard.now seat.old.table_id seat.old.me.view }
    requires train { (wanted.train < 32) × (seat.old.me.view.number ≡ wanted.train) }
    requires aboard { (seat.old.me.view.aboard ≡ true) × (seat.old.me.view.actor.closing ≡ false) }
    requires place { wanted.place ≡ seat.old.me.view.actor.position }
    requires listed { wanted.table < length yard.now.setup.tables }
    requires steps { (1 ≤ wanted.steps) × (wanted.steps ≤ 4) }
    requires footprint { footprint.now ≡ needs yard.now.setup wanted seat.old.me.view.actor.position }
    requires known { (known.now ≡ seat.old.me.view.actor.known) × AreSmall footprint.now.table footprint.now.claim known.now }
    requires table { number_of TableCell known.now ≡ Some wanted.table }
    requires cells { first_unknown (cells_of footprint.now.table footprint.now.claim) known.now ≡ None }
    requires held { seat.old.me.view.actor.held ≡ span footprint.now.zones 0 yard.now.setup.layout.zones }
    requires room { length seat.old.me.view.mine + wanted.steps ≤ yard.now.setup.calls }
    requires lines { AreLines seat.old.me.view receipts.old }
    ensures same { (seat.new.table_id ≡ seat.old.table_id) × (seat.new.id ≡ seat.old.id) }
    ensures lines { AreLines seat.new.me.view receipts.new }
    ensures appends { Appends wanted.steps seat.old.me result.1 seat.new.me }
    ensures told { new_entries wanted.steps seat.old.me.view ≡ told wanted.train (replies_of footprint.now.claim.steps result.0) }
    ensures answer { result.0 ≡ decided footprint.now.table footprint.now.claim (number_in known.now) }
    ensures can { CanAnswer footprint.now.claim.steps result.0 }
    ensures owes { seat.new.me.view.actor.owed ≡ owing footprint.now.table footprint.now.claim (number_in known.now) result.0 }
    ensures keeps { (seat.new.me.view.setup ≡ seat.old.me.view.setup) × (seat.new.me.view.aboard ≡ true) × (seat.new.me.view.actor.held ≡ seat.old.me.view.actor.held) }
    ensures cells { AreCells (core yard.now.setup) seat.new.me.view.actor.owed }
    ensures stands { seat.new.me.view.actor.position ≡ seat.old.me.view.actor.position + granted_steps footprint.now.claim.steps result.0 }
    ensures stage { (seat.new.me.view.actor.stage ≡ seat.old.me.view.actor.stage) × (seat.new.me.slots ≡ seat.old.me.slots) }
{
    let answer = footprint.decide_block(known);
    let claim = Claim {
        train: wanted.train,
        place: wanted.place,
        steps: footprint.steps(),
    };
    let ticket = enter_answer::<Brand>(
        yard,
        seat,
        receipts,
        wanted.table,
        claim,
        answer,
        wanted.steps,
    );
    (answer, ticket)
}

// After the entries: what a grant owes is written.
pub(crate) fn pay_due(
    yard: &Yard<'_>,
    seat: &mut Place,
    footprint: &Footprint<'_>,
    known: &Known,
    owed: &mut Owed,
    answer: BlockAsk,
)
    requires ours { IsOurs yard.now seat.old.table_id seat.old.me.view }
    requires aboard { seat.old.me.view.aboard ≡ true }
    requires known { AreSmall footprint.now.table footprint.now.claim known.now }
    requires answer { answer ≡ decided footprint.now.table footprint.now.claim (number_in known.now) }
    requires owes { seat.old.me.view.actor.owed ≡ owing footprint.now.table footprint.now.claim (number_in known.now) answer }
    requires once { AreDistinct seat.old.me.view.actor.owed }
    requires cells { AreCells (core yard.now.setup) seat.old.me.view.actor.owed }
    ensures same { (seat.new.table_id ≡ seat.old.table_id) × (seat.new.id ≡ seat.old.id) }
    ensures pays { StillOwes seat.old.me [] seat.new.me }
{
    if let BlockAsk::Yes = answer {
        footprint.effects(known, owed);
        pay_all(yard, seat, owed);
    }
}

// The pass that a held zone's word names.
fn holder_of(word: u64) -> u32
    requires { (word ≢ 0) × (word ≤ most_passes) }
    ensures { suc result ≡ word }
{
    word as u32 - 1
}

// The steps are asked for under the table that was glanced: takes the zones, reads, enters the answer, pays, and gives all zones back.
// `None` where another table is in force.
pub(crate) fn ask_once<T: HowToTake, G: Gate>(
    yard: &Yard<'_>,
    asker: &mut Asker,
    wanted: Wanted,
    footprint: &Footprint<'_>,
    how: &T,
    gate: &G,
) -> Option<Attempt>
    requires ours { IsOurs yard.now asker.old.seat.table_id asker.old.seat.me.view }
    requires train { (wanted.train < 32) × (asker.old.seat.me.view.number ≡ wanted.train) }
    requires aboard { asker.old.seat.me.view.aboard ≡ true }
    requires idle { IsIdle asker.old.seat.me.view.actor.position asker.old.seat.me.view.actor }
    requires listed { wanted.table < length yard.now.setup.tables }
    requires place { wanted.place ≡ asker.old.seat.me.view.actor.position }
    requires steps { (1 ≤ wanted.steps) × (wanted.steps ≤ 4) }
    requires footprint { footprint.now ≡ needs yard.now.setup wanted asker.old.seat.me.view.actor.position }
    requires room { length asker.old.seat.me.view.mine + wanted.steps ≤ yard.now.setup.calls }
    requires lines { AreLines asker.old.seat.me.view asker.old.receipts }
    ensures same { (asker.new.seat.table_id ≡ asker.old.seat.table_id) × (asker.new.seat.id ≡ asker.old.seat.id) }
    ensures lines { AreLines asker.new.seat.me.view asker.new.receipts }
    ensures attempts { Attempts asker.old.seat.table_id wanted yard.now.setup.layout.zones footprint.now.zones asker.old.seat.me result asker.new.seat.me }
    ensures waits { T.waits ≡ true → IfSome result FoundNoZoneHeld }
{
    let needed = footprint.zones();
    if let Some((zone, found)) = how.take_zones(yard, &mut asker.seat, wanted.train, needed) {
        release_all(yard, &mut asker.seat, needed, zone);
        if needed.first_from(0) != Some(zone) {
            gate.at(wanted.train, Moment::Released);
        }
        let holder = holder_of(found);
        return Some(Attempt::Busy { zone, holder });
    }
    gate.at(wanted.train, Moment::Taken);
    if !know_all(yard, &mut asker.seat, wanted, footprint, &mut asker.known) {
        release_all(yard, &mut asker.seat, needed, zones(yard));
        gate.at(wanted.train, Moment::Released);
        return None;
    }
    gate.at(wanted.train, Moment::Read);
    let (answer, ticket) = enter(
        yard,
        &mut asker.seat,
        &mut asker.receipts,
        wanted,
        footprint,
        &asker.known,
    );
    gate.at(wanted.train, Moment::Appended);
    pay_due(
        yard,
        &mut asker.seat,
        footprint,
        &asker.known,
        &mut asker.owed,
        answer,
    );
    if let BlockAsk::Yes = answer {
        gate.at(wanted.train, Moment::Paid);
    }
    release_all(yard, &mut asker.seat, needed, zones(yard));
    gate.at(wanted.train, Moment::Released);
    Some(Attempt::Told {
        answer,
        steps: footprint.steps(),
        ticket,
    })
}
