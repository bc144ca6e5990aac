// The simulation, turn by turn.
ghost use Rattle.std.specs.Prelude.{◌≡◌, ◌⊎◌, ◌≤◌, ◌↔◌, ℕ, ◌+◌, ◌<◌, ◌∷◌, ◌++◌, [], length, List, IsTrue, MatchOption, if◌then◌else◌, false};
ghost use Rattle.rail_model.specs.Journal.{IsDone};
ghost use Rattle.rail_model.specs.Lines.{move_line};
ghost use Rattle.rail_model.specs.Move.{Live, Move, advance};
ghost use Rattle.rail_model.specs.Table.{IsTable, place};
ghost use Rattle.rail_model.specs.Times.{time};
ghost use Rattle.rail_model.specs.Yard.{in_force, moved, IsNextDue};
ghost use Rattle.table_exchange.specs.Tables.{Stands};
ghost use Rattle.plain_yard.specs.Keeps.{Keeps};
ghost use Rattle.plain_yard.specs.Lines.{most_lines};
ghost use Rattle.train_sim.specs.Report.{HaveTimes};
ghost use Rattle.train_sim.specs.Steps.{IsTimedSoFar, Leads, MovesNext};

use crate::mover::first_mover;
use crate::watch::Watch;
use plain_yard::{CheckedTable, PlainYard, has_answer};
use rail_model::{Ask, Times};

// Tries the next table, and says whether it was due.
fn try_next<A: CheckedTable>(run: &mut PlainYard<'_, A>, watch: &mut Watch) -> bool
    requires { IsTimedSoFar run.old.tables run.old.yard watch.old run.old.lines }
    ensures due { IsTrue result ↔ IsNextDue run.old.tables run.old.yard }
    ensures tried { run.new.yard.tried ≡ run.old.yard.tried + (if result then 1 else 0) }
    ensures stays { result ≡ false → run.new.yard ≡ run.old.yard }
    ensures leads { (times : List (List (List ℕ))) → Leads run.old.tables times run.old.yard watch.old run.old.lines run.new.yard watch.new run.new.lines }
    ensures formed { IsTable (in_force run.new.tables run.new.yard) }
    ensures stands { Stands run.new.tables run.new.yard }
    ensures kept { IsTimedSoFar run.new.tables run.new.yard watch.new run.new.lines }
    ensures tables { run.new.tables ≡ run.old.tables }
{
    if !has_answer(run.try_table()) {
        return false;
    }
    watch.note_table();
    true
}

// Tries tables as long as the next one is due.
fn try_due<A: CheckedTable>(run: &mut PlainYard<'_, A>, watch: &mut Watch)
    requires { IsTimedSoFar run.old.tables run.old.yard watch.old run.old.lines }
    ensures moved { (run.new.yard ≡ run.old.yard) ⊎ (run.old.yard.tried < run.new.yard.tried) }
    ensures leads { (times : List (List (List ℕ))) → Leads run.old.tables times run.old.yard watch.old run.old.lines run.new.yard watch.new run.new.lines }
    ensures none { IsNextDue run.new.tables run.new.yard → ⊥ }
    ensures formed { IsTable (in_force run.new.tables run.new.yard) }
    ensures stands { Stands run.new.tables run.new.yard }
    ensures kept { IsTimedSoFar run.new.tables run.new.yard watch.new run.new.lines }
    ensures tables { run.new.tables ≡ run.old.tables }
{
    while try_next(run, watch) {}
}

// The train that moves next; none where no train may move.
fn next_mover<A: CheckedTable>(run: &PlainYard<'_, A>, watch: &Watch) -> Option<u32>
    requires { IsTimedSoFar run.now.tables run.now.yard watch.now run.now.lines }
    ensures next { MatchOption result ((i : ℕ) → Move (in_force run.now.tables run.now.yard) run.now.yard.positions i (advance run.now.yard.positions i) → ⊥)
        (λ train. MovesNext (in_force run.now.tables run.now.yard) run.now.yard.positions watch.now.due train) }
    ensures live { Live (in_force run.now.tables run.now.yard) }
    ensures stands { Stands run.now.tables run.now.yard }
{
    first_mover(run.live_in_force(), run.yard().positions(), watch.due())
}

// How long the step of a train that moves takes.
fn step_time<A: CheckedTable>(run: &PlainYard<'_, A>, times: &Times, train: u32) -> u32
    requires formed { IsTable (in_force run.now.tables run.now.yard) }
    requires times { HaveTimes run.now.tables times.now }
    requires may_move { Move (in_force run.now.tables run.now.yard) run.now.yard.positions train (advance run.now.yard.positions train) }
    ensures takes { result ≡ time times.now run.now.yard.table train (place run.now.yard.positions train) }
    ensures short { result ≤ 1000 }
    ensures keeps { Keeps run.now.tables run.now.yard run.now.lines }
{
    let yard = run.yard();
    times.time(yard.table(), train, yard.positions().place(train))
}

// A train that may move asks, and so it has moved.
fn move_train<A: CheckedTable>(run: &mut PlainYard<'_, A>, train: u32)
    requires { Move (in_force run.old.tables run.old.yard) run.old.yard.positions train (advance run.old.yard.positions train) }
    ensures moved { run.new.yard ≡ moved run.old.yard train }
    ensures adds { run.new.lines ≡ run.old.lines ++ move_line run.old.tables run.old.yard train ∷ [] }
    ensures few { length run.new.lines ≤ most_lines }
    ensures tables { run.new.tables ≡ run.old.tables }
{
    match run.ask(train) {
        Ask::Yes => {}
        _ => unreachable!(),
    }
}

// A train moves at its due tick, and asks again after the time that its step takes.
fn move_next<A: CheckedTable>(
    run: &mut PlainYard<'_, A>,
    watch: &mut Watch,
    times: &Times,
    train: u32,
)
    requires kept { IsTimedSoFar run.old.tables run.old.yard watch.old run.old.lines }
    requires times { HaveTimes run.old.tables times.now }
    requires next { MovesNext (in_force run.old.tables run.old.yard) run.old.yard.positions watch.old.due train }
    requires undue { IsNextDue run.old.tables run.old.yard → ⊥ }
    requires formed { IsTable (in_force run.old.tables run.old.yard) }
    ensures moved { run.new.yard ≡ moved run.old.yard train }
    ensures leads { Leads run.old.tables times.now run.old.yard watch.old run.old.lines run.new.yard watch.new run.new.lines }
    ensures kept { IsTimedSoFar run.new.tables run.new.yard watch.new run.new.lines }
    ensures tables { run.new.tables ≡ run.old.tables }
{
    let takes = step_time(run, times, train);
    move_train(run, train);
    watch.grant(train, takes);
}

/// Makes all that is left: tables as soon as they are due, and else the train that moves next.
pub(crate) fn play<A: CheckedTable>(run: &mut PlainYard<'_, A>, watch: &mut Watch, times: &Times)
    requires kept { IsTimedSoFar run.old.tables run.old.yard watch.old run.old.lines }
    requires times { HaveTimes run.old.tables times.now }
    ensures done { IsDone run.new.tables run.new.yard }
    ensures leads { Leads run.old.tables times.now run.old.yard watch.old run.old.lines run.new.yard watch.new run.new.lines }
    ensures tables { run.new.tables ≡ run.old.tables }
{
    try_due(run, watch);
    while let Some(train) = next_mover(run, watch) {
        move_next(run, watch, times, train);
        try_due(run, watch);
    }
}
