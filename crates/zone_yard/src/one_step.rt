// A driver asks for one step.
ghost use Rattle.std.specs.Prelude.{◌≡◌};
ghost use Rattle.move_claim.specs.Deciding.{one_ask};
ghost use Rattle.zone_yard.specs.Asked.{reply_of as answered_by};
ghost use Rattle.zone_yard.specs.Replies.{reply_to};

use crate::asking::{ask_steps, entries_left};
use crate::replies::Reply;
use crate::requests::Attempt;
use crate::yard::{Driver, Yard};
use crate::zones::{TryOnce, WaitForEach};
use ats_io::Gate;
use rail_model::{Ask, BlockAsk};
use std::sync::Wait;

// The answer to one step.
fn ask_of(answer: BlockAsk) -> Ask
    ensures { result ≡ one_ask answer }
{
    match answer {
        BlockAsk::Yes => Ask::Yes,
        BlockAsk::First { ask } | BlockAsk::NotWhole { ask, .. } => ask,
    }
}

// The reply to a request for one step that is answered so.
fn reply_to_step(ask: Ask, ticket: u64) -> Reply
    ensures { result ≡ reply_to ticket ask }
{
    match ask {
        Ask::Yes => Reply::Granted { ticket },
        Ask::Arrived => Reply::Arrived { ticket },
        Ask::Occupied { by } => Reply::Occupied { ticket, by },
        Ask::Full { section, count } => Reply::Full {
            ticket,
            section,
            count,
        },
        Ask::Waits { connection } => Reply::Waits { ticket, connection },
    }
}

// The reply to a request of which this came.
fn reply_of(attempt: Attempt) -> Reply
    ensures { result ≡ answered_by attempt }
{
    match attempt {
        Attempt::Told { answer, ticket, .. } => reply_to_step(ask_of(answer), ticket),
        Attempt::Busy { zone, holder } => Reply::Busy { zone, holder },
    }
}

impl<'a> Yard<'a> {
    ghost use Rattle.std.specs.Prelude.{◌≡◌};
    ghost use Rattle.zone_yard.specs.Entering.{IsSamePass};
    ghost use Rattle.zone_yard.specs.Replies.{Replies, IsUnhindered};

    /// Asks for one step, and waits for nobody: where a zone is held it answers `Busy`, and holds nothing.
    pub fn try_request<G: Gate>(&self, driver: &mut Driver, gate: &G) -> Reply
        requires { driver.old.yard ≡ self.now }
        ensures reply { Replies driver.old result driver.new }
        ensures same { IsSamePass driver.old driver.new }
    {
        let left = entries_left(self, driver);
        if left == 0 {
            return Reply::Spent;
        }
        reply_of(ask_steps(self, driver, 1, &TryOnce, gate))
    }

    /// Asks for one step. It may wait for zones.
    pub fn request<R: Wait, G: Gate>(&self, rt: &R, driver: &mut Driver, gate: &G) -> Reply
        requires { driver.old.yard ≡ self.now }
        ensures reply { Replies driver.old result driver.new }
        ensures served { IsUnhindered result }
        ensures same { IsSamePass driver.old driver.new }
    {
        let left = entries_left(self, driver);
        if left == 0 {
            return Reply::Spent;
        }
        reply_of(ask_steps(self, driver, 1, &WaitForEach { rt }, gate))
    }
}
