// A driver asks for its next steps.
ghost use Rattle.std.specs.Prelude.{◌≡◌, ◌+◌, ◌<◌, ◌≤◌, length, true};
ghost use Rattle.rail_model.specs.Table.{trains};
ghost use Rattle.rail_model.specs.Yard.{offer};
ghost use Rattle.zone_machine.specs.Sound.{IsSetup};
ghost use Rattle.zone_yard.specs.Aboard.{IsIdle};
ghost use Rattle.zone_yard.specs.Asked.{Attempted, FoundNoZoneHeld};
ghost use Rattle.zone_yard.specs.Attempts.{Asks};
ghost use Rattle.zone_yard.specs.Blocks.{granted_steps};
ghost use Rattle.zone_yard.specs.Entering.{IsSamePass};
ghost use Rattle.zone_yard.specs.Lines.{AreLines};
ghost use Rattle.zone_yard.specs.Passes.{IsFree};
ghost use Rattle.zone_yard.specs.Setup.{core};
ghost use Rattle.zone_yard.specs.Tells.{IsOurs};

use crate::receipts::entries_of;
use crate::requests::{Attempt, Wanted, ask_once};
use crate::steps::{glance, word_of};
use crate::yard::{Asker, Driver, Yard};
use crate::zones::HowToTake;
use ats_io::{Gate, Moment};
use move_claim::{Cell, Claim, Footprint};
use rail_model::BlockAsk;

// Asks for a block of steps, and asks again where another table came into force meanwhile: each round sees a later one.
pub(crate) fn ask_on<T: HowToTake, G: Gate>(
    yard: &Yard<'_>,
    asker: &mut Asker,
    claim: Claim,
    how: &T,
    gate: &G,
) -> Attempt
    requires ours { IsOurs yard.now asker.old.seat.table_id asker.old.seat.me.view }
    requires train { (claim.train < trains (offer yard.now.setup.tables 0).table) × (asker.old.seat.me.view.number ≡ claim.train) }
    requires aboard { asker.old.seat.me.view.aboard ≡ true }
    requires idle { IsIdle claim.place asker.old.seat.me.view.actor }
    requires steps { (1 ≤ claim.steps) × (claim.steps ≤ 4) }
    requires room { length asker.old.seat.me.view.mine + claim.steps ≤ yard.now.setup.calls }
    requires lines { AreLines asker.old.seat.me.view asker.old.receipts }
    ensures same { (asker.new.seat.table_id ≡ asker.old.seat.table_id) × (asker.new.seat.id ≡ asker.old.seat.id) }
    ensures lines { AreLines asker.new.seat.me.view asker.new.receipts }
    ensures asks { Asks asker.old.seat.table_id claim.steps asker.old.seat.me result asker.new.seat.me }
    ensures waits { T.waits ≡ true → FoundNoZoneHeld result }
    ensures formed { IsSetup (core yard.now.setup) }
{
    let word = word_of(yard, Cell::Table);
    let mut footprint = Footprint::new();
    'rounds: loop {
        let table = glance(yard, &mut asker.seat, word) as u32;
        gate.at(claim.train, Moment::Glanced);
        footprint.fill_block(
            yard.key.layout,
            yard.key.table(table),
            claim.train,
            claim.place,
            claim.steps,
        );
        let wanted = Wanted {
            train: claim.train,
            place: claim.place,
            table,
            steps: claim.steps,
        };
        if let Some(attempt) = ask_once(yard, asker, wanted, &footprint, how, gate) {
            return attempt;
        }
    }
}

// How many of this many steps the answer grants.
fn count_granted(answer: BlockAsk, steps: u32) -> u32
    ensures { result ≡ granted_steps steps answer }
{
    match answer {
        BlockAsk::Yes => steps,
        BlockAsk::First { .. } | BlockAsk::NotWhole { .. } => 0,
    }
}

// How many entries the driver may make yet.
pub(crate) fn entries_left(yard: &Yard<'_>, driver: &Driver) -> u32
    requires { driver.now.yard ≡ yard.now }
    ensures left { length driver.now.mine + result ≡ yard.now.setup.calls }
    ensures free { IsFree driver.now }
{
    yard.key.calls - driver.entries
}

// A driver asks for a block of steps, and goes on by those that are granted.
pub(crate) fn ask_steps<T: HowToTake, G: Gate>(
    yard: &Yard<'_>,
    driver: &mut Driver,
    steps: u32,
    how: &T,
    gate: &G,
) -> Attempt
    requires ours { driver.old.yard ≡ yard.now }
    requires steps { (1 ≤ steps) × (steps ≤ 4) }
    requires room { length driver.old.mine + steps ≤ yard.now.setup.calls }
    ensures asked { Attempted steps driver.old result driver.new }
    ensures waits { T.waits ≡ true → FoundNoZoneHeld result }
    ensures same { IsSamePass driver.old driver.new }
{
    let claim = Claim {
        train: driver.train,
        place: driver.position,
        steps,
    };
    let attempt = ask_on(yard, &mut driver.asker, claim, how, gate);
    if let Attempt::Told { answer, steps, .. } = attempt {
        driver.position += count_granted(answer, steps);
        driver.entries += entries_of(answer, steps);
    }
    attempt
}
