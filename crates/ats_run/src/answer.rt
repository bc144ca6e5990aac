// What an order comes to on the bytes of its input.
ghost use Rattle.std.specs.Prelude.{◌≡◌, ◌⊎◌, Ok, Err, MatchResult};
ghost use Rattle.ats_words.specs.Subcommands.{HasItsNumbers};
ghost use Rattle.ats_run.specs.Command.{Comes};
ghost use Rattle.ats_run.specs.Orders.{crew_in, IsAlone};
ghost use Rattle.ats_run.specs.Tasks.{TaskLeads};
ghost use Rattle.ats_answers.specs.declared.failure.Failure.TheVariants.{Memory as NoMemory};

use crate::drill::begin_drill;
use crate::finishing::{end_alone, end_by};
use crate::resume::resume;
use crate::run::begin_run;
use crate::tasks::Task;
use crate::weave::weave;
use ats_answers::{Failure, check, derive, generate, make, migrate, repair, simulate, verify};
use ats_io::Gate;
use ats_words::Order;
use std::alloc::Global;
use std::sync::Wait;
use std::thread::Threads;

/// The bytes that an order without workers prints for its input, or why there are none. An order that reads nothing has the empty input.
pub(crate) fn answer_alone(
    rt: &(impl Threads + Sync),
    alloc: Global,
    order: Order,
    input: &[u8],
) -> Result<Vec<u8>, Failure>
    requires numbers { HasItsNumbers order }
    requires alone { IsAlone order }
    ensures { MatchResult result (λ text. Comes order input.now (Ok text.items))
        (λ e. (e ≡ NoMemory) ⊎ Comes order input.now (Err e)) }
{
    match begin_task(rt, alloc, order, input)? {
        Task::Goes { checked, run } => end_alone(alloc, &checked, run),
        Task::Printed(text) => Ok(text),
    }
}

/// The bytes that any order prints for its input, or why there are none. It may wait where workers run the order's trains.
pub(crate) fn answer_by<R: Threads + Wait + Sync, G: Gate>(
    rt: &R,
    alloc: Global,
    order: Order,
    input: &[u8],
    gate: &G,
) -> Result<Vec<u8>, Failure>
    requires { HasItsNumbers order }
    ensures { MatchResult result (λ text. Comes order input.now (Ok text.items))
        (λ e. (e ≡ NoMemory) ⊎ Comes order input.now (Err e)) }
{
    match begin_task(rt, alloc, order, input)? {
        Task::Goes { checked, run } => end_by(rt, alloc, &checked, run, gate),
        Task::Printed(text) => Ok(text),
    }
}

// What an order comes to on its input: a run that is to be ended, or bytes that are printed already.
fn begin_task(
    rt: &(impl Threads + Sync),
    alloc: Global,
    order: Order,
    input: &[u8],
) -> Result<Task, Failure>
    requires { HasItsNumbers order }
    ensures { MatchResult result (TaskLeads (crew_in order) (λ written. Comes order input.now (Ok written)))
        (λ e. (e ≡ NoMemory) ⊎ Comes order input.now (Err e)) }
{
    match order {
        Order::Run {
            workers,
            rounds,
            block,
        } => begin_run(rt, alloc, input, workers, rounds, block),
        Order::Resume {
            workers,
            rounds,
            block,
        } => resume(rt, alloc, input, workers, rounds, block),
        Order::Drill {
            seed,
            trains,
            workers,
        } => begin_drill(alloc, seed, trains, workers),
        Order::Check => Ok(Task::Printed(check(rt, alloc, input)?)),
        Order::Verify => Ok(Task::Printed(verify(rt, alloc, input)?)),
        Order::Simulate => Ok(Task::Printed(simulate(rt, alloc, input)?)),
        Order::Weave { seed, steps } => Ok(Task::Printed(weave(rt, alloc, input, seed, steps)?)),
        Order::Migrate => Ok(Task::Printed(migrate(alloc, input)?)),
        Order::Make { budget } => Ok(Task::Printed(make(alloc, input, budget)?)),
        Order::Derive { most, budget } => Ok(Task::Printed(derive(alloc, input, most, budget)?)),
        Order::Repair { budget, rounds } => Ok(Task::Printed(repair(
            alloc, input, budget, rounds,
        )?)),
        Order::Generate { seed, trains } => Ok(Task::Printed(generate(alloc, seed, trains)?)),
    }
}
