// Each step: refused with its first cause, or made.
ghost use Rattle.std.specs.Prelude.{◌≡◌, ℕ, None, Some, true, slice_get, option_map, ◌∷◌, [], not, ◌==◌, ◌||◌, nat_lt};
ghost use Rattle.rail_model.specs.Turns.{first_of};
ghost use Rattle.zone_machine.specs.Calls.{Steps};
ghost use Rattle.zone_machine.specs.Sound.{IsActor, IsSetup, Sound};
ghost use Rattle.zone_machine.specs.declared.steps.Step.TheVariants.{Append as AppendStep, Block as BlockStep, Glance as GlanceStep};
ghost use Rattle.zone_machine.specs.declared.steps.NotAllowed.TheVariants.{Held};
ghost use Rattle.zone_machine.specs.Steps.{checks, first_zone as least, is_in_place as in_place, outcome, refusal as cause_of, step_of};
ghost use Rattle.zone_machine.specs.World.{Setup, actor};

use crate::appending::one_ask;
use crate::machine::Row;
use crate::refusals::first_zone;
use crate::{CONTROL, Core, NotAllowed, Seen, Stage, Step};
use rail_model::{HasTable, Reply};

// Whether an actor is where a step asks: who boards is away, and who makes any other step is aboard.
fn is_in_place(row: &Row, step: Step) -> bool
    ensures { (S : Setup) (p : ℕ) → result ≡ in_place S p row.now step }
{
    match step {
        Step::Board => matches!(row.stage, Stage::Away),
        _ => matches!(row.stage, Stage::Aboard),
    }
}

// Whether this many steps may be asked for at once.
fn is_block(steps: u32) -> bool
    ensures { result ≡ not ((steps == 0) || nat_lt 4 steps) }
{
    0 < steps && steps <= 4
}

// Why an actor that holds zones may not make a step that asks for none.
fn held_refusal(row: &Row) -> Option<NotAllowed>
    ensures { result ≡ first_of (option_map (λ z. Held z) (least row.now.held) ∷ []) }
{
    first_zone(&row.held).map(|zone| NotAllowed::Held { zone })
}

impl<'a, A: HasTable> Core<'a, A> {
    // Why an actor may not add an entry.
    fn append_refusal(&self, number: u32, row: &Row) -> Option<NotAllowed>
        requires there { slice_get self.now.world.actors number ≡ Some row.now }
        requires actor { IsActor self.now.setup number }
        ensures { result ≡ first_of (checks self.now.setup number self.now.world row.now AppendStep) }
    {
        if number == CONTROL {
            self.control_refusal(row)
        } else {
            self.driver_refusal(number, row, 1)
        }
    }

    // Why an actor may not add the entries of a block.
    fn block_refusal(&self, number: u32, row: &Row, steps: u32) -> Option<NotAllowed>
        requires there { slice_get self.now.world.actors number ≡ Some row.now }
        requires actor { IsActor self.now.setup number }
        ensures { result ≡ first_of (checks self.now.setup number self.now.world row.now (BlockStep steps)) }
    {
        if number == CONTROL {
            return Some(NotAllowed::Actor { actor: number });
        }
        if !is_block(steps) {
            return Some(NotAllowed::Steps { steps });
        }
        self.driver_refusal(number, row, steps)
    }

    // Why an actor that is where the step asks may not make it.
    fn kind_refusal(&self, number: u32, row: &Row, step: Step) -> Option<NotAllowed>
        requires there { slice_get self.now.world.actors number ≡ Some row.now }
        requires actor { IsActor self.now.setup number }
        requires place { in_place self.now.setup number row.now step ≡ true }
        ensures { result ≡ first_of (checks self.now.setup number self.now.world row.now step) }
    {
        match step {
            Step::Board => None,
            Step::Glance | Step::Leave => held_refusal(row),
            Step::Take { zone } => self.take_refusal(row, zone),
            Step::Read { cell } => self.read_refusal(row, cell),
            Step::Append => self.append_refusal(number, row),
            Step::Block { steps } => self.block_refusal(number, row, steps),
            Step::Pay { cell } => self.pay_refusal(row, cell),
            Step::Release { zone } => self.release_refusal(number, row, zone),
        }
    }

    // The first cause why an actor may not make a step, if there is one.
    fn refusal(&self, number: u32, step: Step) -> Option<NotAllowed>
        ensures cause { result ≡ cause_of self.now.setup number self.now.world step }
        ensures formed { IsSetup self.now.setup }
        ensures sound { Sound self.now.setup self.now.world }
    {
        let actor = NotAllowed::Actor { actor: number };
        let Some(row) = self.rows.get(number as usize) else {
            return Some(actor);
        };
        if !is_in_place(row, step) {
            return Some(actor);
        }
        self.kind_refusal(number, row, step)
    }

    // An actor adds its entry.
    fn append(&mut self, number: u32) -> Seen
        requires { cause_of self.old.setup number self.old.world AppendStep ≡ None }
        ensures seen { result ≡ (outcome self.old.setup number self.old.world (actor self.old.world number) AppendStep).0 }
        ensures world { self.new.world ≡ (outcome self.old.setup number self.old.world (actor self.old.world number) AppendStep).1 }
        ensures setup { self.new.setup ≡ self.old.setup }
    {
        let ticket = self.history().len() as u64;
        if number == CONTROL {
            let reply = Reply::Control(self.enter_table());
            return Seen::Entry { ticket, reply };
        }
        let reply = Reply::Driver(one_ask(self.enter_steps(number, 1)));
        Seen::Entry { ticket, reply }
    }

    // A driver adds the entries of a block.
    fn block(&mut self, number: u32, steps: u32) -> Seen
        requires { cause_of self.old.setup number self.old.world (BlockStep steps) ≡ None }
        ensures seen { result ≡ (outcome self.old.setup number self.old.world (actor self.old.world number) (BlockStep steps)).0 }
        ensures world { self.new.world ≡ (outcome self.old.setup number self.old.world (actor self.old.world number) (BlockStep steps)).1 }
        ensures setup { self.new.setup ≡ self.old.setup }
    {
        let ticket = self.history().len() as u64;
        let reply = self.enter_steps(number, steps);
        Seen::Block { ticket, reply }
    }

    // An actor glances at the table's number, and what a driver needs under that table is kept.
    fn glance_and_keep(&mut self, number: u32) -> Seen
        requires { cause_of self.old.setup number self.old.world GlanceStep ≡ None }
        ensures seen { result ≡ (outcome self.old.setup number self.old.world (actor self.old.world number) GlanceStep).0 }
        ensures world { self.new.world ≡ (outcome self.old.setup number self.old.world (actor self.old.world number) GlanceStep).1 }
        ensures setup { self.new.setup ≡ self.old.setup }
    {
        let seen = self.glance(number);
        self.keep(number);
        seen
    }

    // Makes a step that is allowed.
    fn make(&mut self, number: u32, step: Step) -> Seen
        requires { cause_of self.old.setup number self.old.world step ≡ None }
        ensures seen { result ≡ (outcome self.old.setup number self.old.world (actor self.old.world number) step).0 }
        ensures world { self.new.world ≡ (outcome self.old.setup number self.old.world (actor self.old.world number) step).1 }
        ensures setup { self.new.setup ≡ self.old.setup }
    {
        match step {
            Step::Board => self.board(number),
            Step::Glance => self.glance_and_keep(number),
            Step::Take { zone } => self.take(number, zone),
            Step::Read { cell } => self.read(number, cell),
            Step::Append => self.append(number),
            Step::Block { steps } => self.block(number, steps),
            Step::Pay { cell } => self.pay(number, cell),
            Step::Release { zone } => self.release(number, zone),
            Step::Leave => self.leave(number),
        }
    }

    /// Makes a step. A step that isn't allowed changes nothing.
    ///
    /// # Errors
    ///
    /// The first cause why the step isn't allowed.
    pub fn step(&mut self, actor: u32, step: Step) -> Result<Seen, NotAllowed>
        ensures steps { Steps (step_of self.old.setup actor self.old.world step) self.old.world result self.new.world }
        ensures setup { self.new.setup ≡ self.old.setup }
        ensures sound { Sound self.new.setup self.new.world }
    {
        match self.refusal(actor, step) {
            Some(cause) => Err(cause),
            None => Ok(self.make(actor, step)),
        }
    }
}
