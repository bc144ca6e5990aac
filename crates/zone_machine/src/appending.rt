// A driver's entries.
ghost use Rattle.std.specs.Prelude.{◌≡◌, ℕ, ◌+◌, ◌<◌, ◌≤◌, ◌^◌, ◌++◌, length, replicate, None, vec_capacity};
ghost use Rattle.rail_model.specs.declared.types.Ask.TheVariants.{Yes as YesAsk};
ghost use Rattle.rail_model.specs.declared.types.Reply.TheVariants.{Driver as DriverReply};
ghost use Rattle.move_claim.specs.Cells.{number_in};
ghost use Rattle.move_claim.specs.Deciding.{decided, one_ask as one_answer};
ghost use Rattle.move_claim.specs.Small.{AreSmall};
ghost use Rattle.zone_machine.specs.Entered.{driver_told};
ghost use Rattle.rail_model.specs.Blocks.{block_entries};
ghost use Rattle.move_claim.specs.Claims.{claim_of, footprint_of};
ghost use Rattle.zone_machine.specs.Entries.{answer, known_table};
ghost use Rattle.zone_machine.specs.Keeping.{AreKept};
ghost use Rattle.zone_machine.specs.Needs.{table_of};
ghost use Rattle.zone_machine.specs.declared.steps.Step.TheVariants.{Block as BlockStep};
ghost use Rattle.zone_machine.specs.Steps.{after_driver, refusal as cause_of};
ghost use Rattle.zone_machine.specs.World.{actor};

use crate::Core;
use crate::kept_needs::{Kept, kept_for};
use crate::machine::Row;
use move_claim::{Cell, Footprint};
use rail_model::{Ask, BlockAsk, Entry, HasTable, Reply};
use std::mem::replace;

/// The answer to a block of one step, as one to a single step.
pub(crate) fn one_ask(reply: BlockAsk) -> Ask
    ensures { result ≡ one_answer reply }
{
    match reply {
        BlockAsk::Yes => Ask::Yes,
        BlockAsk::First { ask } | BlockAsk::NotWhole { ask, .. } => ask,
    }
}

// Adds the entries of steps that are granted.
fn push_grants(history: &mut Vec<Entry>, who: u32, steps: u32)
    requires room { length history.old.items + steps ≤ vec_capacity history.old }
    ensures entries { history.new.items ≡ history.old.items ++ replicate steps (record { who = who; reply = DriverReply YesAsk }) }
    ensures room { vec_capacity history.new ≡ vec_capacity history.old }
{
    for _step in 0..steps {
        history.push_reserved(Entry {
            who,
            reply: Reply::Driver(Ask::Yes),
        });
    }
}

// Adds the entries of a block: one for each step that is granted, else one.
fn push_entries(history: &mut Vec<Entry>, who: u32, steps: u32, told: BlockAsk)
    requires room { length history.old.items + length (block_entries who steps told) ≤ vec_capacity history.old }
    ensures entries { history.new.items ≡ history.old.items ++ block_entries who steps told }
    ensures room { vec_capacity history.new ≡ vec_capacity history.old }
{
    match told {
        BlockAsk::Yes => push_grants(history, who, steps),
        BlockAsk::First { ask } => history.push_reserved(Entry {
            who,
            reply: Reply::Driver(ask),
        }),
        BlockAsk::NotWhole { step, ask } => history.push_reserved(Entry {
            who,
            reply: Reply::NotWhole { step, ask },
        }),
    }
}

// This is the answer to a driver's steps: where they are granted it is further on, and owes what changed.
fn tell_driver(row: &mut Row, needs: &Footprint, told: BlockAsk)
    requires small { AreSmall needs.now.table needs.now.claim row.old.known }
    requires told { told ≡ decided needs.now.table needs.now.claim (number_in row.old.known) }
    requires room { row.old.position + needs.now.claim.steps < 2 ^ 32 }
    ensures { row.new ≡ driver_told needs.now told row.old }
{
    row.closing = true;
    row.claimed = needs.zones().copy();
    match told {
        BlockAsk::Yes => {
            row.position += needs.steps();
            needs.effects(&row.known, &mut row.owed);
        }
        _ => row.owed.clear(),
    }
}

impl<'a, A: HasTable> Core<'a, A> {
    // Adds the entries of a driver's next steps under this table, which need this, and gives the answer.
    fn enter(&mut self, number: u32, steps: u32, table: u32, needs: &Footprint) -> BlockAsk
        requires cause { cause_of self.old.setup number self.old.world (BlockStep steps) ≡ None }
        requires table { table ≡ known_table (actor self.old.world number) }
        requires needs { needs.now ≡ footprint_of self.old.setup.layout (table_of self.old.setup table) (claim_of (table_of self.old.setup table) number (actor self.old.world number).position steps) }
        ensures told { result ≡ answer self.old.setup number (actor self.old.world number) steps }
        ensures world { self.new.world ≡ after_driver self.old.setup number self.old.world (actor self.old.world number) steps }
        ensures setup { self.new.setup ≡ self.old.setup }
    {
        let row = &self.rows[number as usize];
        let told = needs.decide_block(&row.known);
        push_entries(&mut self.history, number, needs.steps(), told);
        self.words[0] = self.history.len() as u64;
        tell_driver(&mut self.rows[number as usize], needs, told);
        told
    }

    // The same, by what is kept for the driver, or else by what its steps need.
    fn enter_by(&mut self, kept: &[Kept<'a>], number: u32, steps: u32) -> BlockAsk
        requires kept { AreKept self.old.setup kept.now }
        requires cause { cause_of self.old.setup number self.old.world (BlockStep steps) ≡ None }
        ensures told { result ≡ answer self.old.setup number (actor self.old.world number) steps }
        ensures world { self.new.world ≡ after_driver self.old.setup number self.old.world (actor self.old.world number) steps }
        ensures setup { self.new.setup ≡ self.old.setup }
    {
        let row = &self.rows[number as usize];
        let place = row.position;
        let table = row.known.number(Cell::Table).unwrap_or(0);
        if let Some(needs) = kept_for(kept, number, table, place, steps) {
            return self.enter(number, steps, table, needs);
        }
        let needs = self.needs(number, place, table, steps);
        self.enter(number, steps, table, &needs)
    }

    /// Adds the entries of a driver's next steps, and gives the answer.
    pub(crate) fn enter_steps(&mut self, number: u32, steps: u32) -> BlockAsk
        requires { cause_of self.old.setup number self.old.world (BlockStep steps) ≡ None }
        ensures told { result ≡ answer self.old.setup number (actor self.old.world number) steps }
        ensures world { self.new.world ≡ after_driver self.old.setup number self.old.world (actor self.old.world number) steps }
        ensures setup { self.new.setup ≡ self.old.setup }
    {
        let kept = replace(&mut self.kept, Vec::new(self.alloc));
        let told = self.enter_by(&kept, number, steps);
        self.kept = kept;
        told
    }
}
