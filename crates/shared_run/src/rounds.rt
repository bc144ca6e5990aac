// Rounds of drivers, and turns of the control.
ghost use Rattle.std.specs.Prelude.{◌≡◌, ◌≤◌, ◌↔◌, IsTrue};
ghost use Rattle.zone_yard.specs.Entering.{IsSamePass};
ghost use Rattle.shared_run.specs.Rounds.{GoesRound, HasNoMore, IsLastTurn, AllOurs, AllAsked, Worked, Turned};

use ats_io::Gate;
use rail_model::Ask;
use std::sync::Wait;
use std::thread;
use zone_yard::{BlockReply, Control, Driver, Reply, Turn, Yard};

/// What a driver was told in one round: one request's answer, a block's answer, or that the block can't be made whole and then the answer
/// to a request for one step.
#[derive(Clone, Copy)]
pub enum Round {
    One(Reply),
    Block(BlockReply),
    Halved {
        ticket: u64,
        step: u32,
        ask: Ask,
        reply: Reply,
    },
}

// Whether a driver has no more to ask for: it has arrived, or its entries are spent.
fn is_end(round: Round) -> bool
    ensures { IsTrue result ↔ HasNoMore round }
{
    matches!(
        round,
        Round::One(Reply::Arrived { .. } | Reply::Spent)
            | Round::Block(BlockReply::Arrived { .. } | BlockReply::Spent)
    )
}

// One round of a driver.
fn go_round<R: Wait, G: Gate>(
    rt: &R,
    yard: &Yard<'_>,
    driver: &mut Driver,
    block: u32,
    gate: &G,
) -> Round
    requires ours { driver.old.yard ≡ yard.now }
    requires block { (1 ≤ block) × (block ≤ 4) }
    ensures round { GoesRound block result driver.old driver.new }
    ensures same { IsSamePass driver.old driver.new }
{
    if block == 1 {
        return Round::One(yard.request(rt, driver, gate));
    }
    match yard.request_block(rt, driver, block, gate) {
        BlockReply::NotWhole { ticket, step, ask } => Round::Halved {
            ticket,
            step,
            ask,
            reply: yard.request(rt, driver, gate),
        },
        reply => Round::Block(reply),
    }
}

// Whether a driver was granted steps.
fn is_granted(round: Round) -> bool {
    matches!(
        round,
        Round::One(Reply::Granted { .. })
            | Round::Block(BlockReply::Granted { .. })
            | Round::Halved {
                reply: Reply::Granted { .. },
                ..
            }
    )
}

// One round of each driver, in order. True where none of them has more to ask for. Where nobody was granted a step, other threads go first:
// one of them has the train that these wait for.
fn go_all<R: Wait, G: Gate>(
    rt: &R,
    yard: &Yard<'_>,
    drivers: &mut [Driver],
    block: u32,
    gate: &G,
) -> bool
    requires ours { AllOurs yard.now drivers.old }
    requires block { (1 ≤ block) × (block ≤ 4) }
    ensures ours { AllOurs yard.now drivers.new }
    ensures asked { AllAsked block result drivers.old drivers.new }
{
    let mut all = true;
    let mut waits = true;
    for driver in drivers.iter_mut() {
        let round = go_round(rt, yard, driver, block, gate);
        if !is_end(round) {
            all = false;
        }
        if is_granted(round) {
            waits = false;
        }
    }
    if waits {
        thread::yield_now();
    }
    all
}

/// Rounds of all drivers. They end early after the first one in which no driver has more to ask for.
pub(crate) fn drive<R: Wait, G: Gate>(
    rt: &R,
    yard: &Yard<'_>,
    drivers: &mut [Driver],
    rounds: u32,
    block: u32,
    gate: &G,
)
    requires ours { AllOurs yard.now drivers.old }
    requires block { (1 ≤ block) × (block ≤ 4) }
    ensures ours { AllOurs yard.now drivers.new }
    ensures worked { Worked rounds block drivers.old drivers.new }
{
    for _round in 0..rounds {
        if go_all(rt, yard, drivers, block, gate) {
            return;
        }
    }
}

// Whether the control has no more to try: every table has its answer, or its entries are spent.
fn is_last(turn: Turn) -> bool
    ensures { IsTrue result ↔ IsLastTurn turn }
{
    matches!(turn, Turn::NoMore | Turn::Spent)
}

/// Turns of the control. They end early with the first one that had nothing to try.
pub(crate) fn exchange<R: Wait, G: Gate>(
    rt: &R,
    yard: &Yard<'_>,
    control: &mut Control,
    rounds: u32,
    gate: &G,
)
    requires { control.old.yard ≡ yard.now }
    ensures same { IsSamePass control.old control.new }
    ensures turned { Turned rounds control.old control.new }
{
    for _round in 0..rounds {
        let turn = yard.exchange(rt, control, gate);
        if is_last(turn) {
            return;
        }
    }
}
