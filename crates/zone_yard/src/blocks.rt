// A driver asks for a block of steps.
ghost use Rattle.std.specs.Prelude.{◌≡◌};
ghost use Rattle.zone_yard.specs.Asked.{block_reply_of as answered_by};
ghost use Rattle.zone_yard.specs.Replies.{block_reply_to};

use crate::asking::{ask_steps, entries_left};
use crate::replies::BlockReply;
use crate::requests::Attempt;
use crate::yard::{Driver, Yard};
use crate::zones::{TryOnce, WaitForEach};
use ats_io::Gate;
use rail_model::{Ask, BlockAsk};
use std::sync::Wait;

// The reply to a block of this many steps that is answered so. `First` never holds `Yes`: where the first step could be granted, the
// answer is `Yes` or `NotWhole`. That arm is only there because the match names every `Ask`.
fn reply_to_block(answer: BlockAsk, steps: u32, ticket: u64) -> BlockReply
    ensures { result ≡ block_reply_to ticket steps answer }
{
    match answer {
        BlockAsk::Yes => BlockReply::Granted { ticket, steps },
        BlockAsk::NotWhole { step, ask } => BlockReply::NotWhole { ticket, step, ask },
        BlockAsk::First { ask } => match ask {
            Ask::Yes => BlockReply::Granted { ticket, steps },
            Ask::Arrived => BlockReply::Arrived { ticket },
            Ask::Occupied { by } => BlockReply::Occupied { ticket, by },
            Ask::Full { section, count } => BlockReply::Full {
                ticket,
                section,
                count,
            },
            Ask::Waits { connection } => BlockReply::Waits { ticket, connection },
        },
    }
}

// The reply to a block of which this came.
fn block_reply_of(attempt: Attempt) -> BlockReply
    ensures { result ≡ answered_by attempt }
{
    match attempt {
        Attempt::Told {
            answer,
            steps,
            ticket,
        } => reply_to_block(answer, steps, ticket),
        Attempt::Busy { zone, holder } => BlockReply::Busy { zone, holder },
    }
}

impl<'a> Yard<'a> {
    ghost use Rattle.std.specs.Prelude.{◌≡◌, ◌≤◌};
    ghost use Rattle.zone_yard.specs.Entering.{IsSamePass};
    ghost use Rattle.zone_yard.specs.Replies.{BlockReplies, IsBlockServed};

    /// Asks for up to four steps at once, which are granted whole or not at all, and waits for nobody.
    pub fn try_block<G: Gate>(&self, driver: &mut Driver, want: u32, gate: &G) -> BlockReply
        requires ours { driver.old.yard ≡ self.now }
        requires want { (1 ≤ want) × (want ≤ 4) }
        ensures reply { BlockReplies want driver.old result driver.new }
        ensures same { IsSamePass driver.old driver.new }
    {
        let left = entries_left(self, driver);
        if left == 0 {
            return BlockReply::Spent;
        }
        block_reply_of(ask_steps(self, driver, want.min(left), &TryOnce, gate))
    }

    /// Asks for up to four steps at once. It may wait for zones.
    pub fn request_block<R: Wait, G: Gate>(
        &self,
        rt: &R,
        driver: &mut Driver,
        want: u32,
        gate: &G,
    ) -> BlockReply
        requires ours { driver.old.yard ≡ self.now }
        requires want { (1 ≤ want) × (want ≤ 4) }
        ensures reply { BlockReplies want driver.old result driver.new }
        ensures served { IsBlockServed result }
        ensures same { IsSamePass driver.old driver.new }
    {
        let left = entries_left(self, driver);
        if left == 0 {
            return BlockReply::Spent;
        }
        block_reply_of(ask_steps(self, driver, want.min(left), &WaitForEach { rt }, gate))
    }
}
