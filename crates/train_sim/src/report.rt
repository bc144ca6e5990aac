// A run that is simulated to its end.
ghost use Rattle.std.specs.Prelude.{◌≡◌, ◌-◌, length, IfOk, IfErr};
ghost use Rattle.rail_model.specs.Journal.{IsDone};
ghost use Rattle.plain_yard.specs.Keeps.{Keeps};
ghost use Rattle.train_sim.specs.Report.{HaveTimes, IsSoon, Simulates};

use crate::playing::play;
use crate::watch::Watch;
use plain_yard::{CheckedTable, PlainYard};
use rail_model::{PlainState, Times, trains_of};
use std::alloc::Global;

/// What a simulation gives: a tick for each line of the state, and the tick of the last move made, or 0.
#[derive(Drop)]
pub struct SimReport {
    pub ticks: Vec<u32>,
    pub last_tick: u32,
    pub state: PlainState,
}

/// Runs a yard to its end in ticks. At tick 0 all trains are due; at each tick the trains that are due ask, train 0
/// first. One that moves asks again after the time of its step in the table in force, any other at the next tick.
/// Tables are tried as soon as they are due. Lines from before have tick 0, a table's line the tick of the ask
/// before it. With m moves and no step longer than w ticks, the last move comes at tick (m - 1) * w at most.
///
/// # Errors
///
/// Out of memory, and nothing else; the run comes back as it was.
pub fn simulate<'a, A: CheckedTable>(
    alloc: Global,
    mut run: PlainYard<'a, A>,
    times: &Times,
) -> Result<SimReport, PlainYard<'a, A>>
    requires { HaveTimes run.tables times.now }
    ensures simulates { IfOk result (λ report. Simulates run.entry.tables times.now run.entry.yard run.entry.lines
        report.state.lines report.ticks.items report.last_tick report.state.yard) }
    ensures one_each { IfOk result (λ report. length report.ticks.items ≡ length report.state.lines) }
    ensures done { IfOk result (λ report. IsDone run.entry.tables report.state.yard) }
    ensures keeps { IfOk result (λ report. Keeps run.entry.tables report.state.yard report.state.lines) }
    ensures soon { IfOk result (λ report. IsSoon run.entry.tables times.now (report.state.yard.moves - run.entry.yard.moves) report.last_tick) }
    ensures err { IfErr result (λ back. back ≡ run.entry) }
{
    let trains = trains_of(run.live_in_force()) as usize;
    let Ok(mut watch) = Watch::begin(alloc, trains, run.lines().len()) else {
        return Err(run);
    };
    play(&mut run, &mut watch, times);
    let (ticks, last_tick) = watch.into_parts();
    Ok(SimReport {
        ticks,
        last_tick,
        state: run.into_state(),
    })
}
