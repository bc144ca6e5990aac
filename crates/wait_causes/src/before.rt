// Where a run is when a tick begins.
ghost use Rattle.std.specs.Prelude.{◌≡◌, ◌<◌, ◌≤◌, ℕ, IfOk, MatchOption, length};
ghost use Rattle.wait_causes.specs.Before as spec;

use document_json::{Doc, names_of, start_of};
use rail_model::State;
use run_timetable::{Run, Step, Takeover};
use std::alloc::{AllocError, Global};

/// The table in force when a tick begins.
pub(crate) fn table_before(takeovers: &[Takeover], tick: u64) -> u32
    ensures { result ≡ spec.table_before takeovers.now tick }
{
    let mut table = 0;
    for takeover in takeovers {
        if u64::from(takeover.tick) < tick {
            table = takeover.table;
        }
    }
    table
}

// How many steps of a train began before a tick.
fn steps_before(steps: &[Step], train: u32, tick: u64) -> usize
    ensures { result ≡ spec.steps_before steps.now train tick }
{
    steps
        .iter()
        .filter(|step| step.train == train && u64::from(step.tick) < tick)
        .count()
}

// The place of a train when a tick begins; none for one that no way has.
fn place_before(doc: &Doc, run: &Run, tick: u64, train: u32) -> Option<u32>
    requires { train < length doc.now.trains }
    ensures { MatchOption result (128 ≤ spec.place_before doc.now run.now tick train) (λ place. place ≡ spec.place_before doc.now run.now tick train) }
{
    let start = start_of(doc).place(train);
    let steps = steps_before(&run.steps, train, tick);
    if 128 <= start || 128 <= steps {
        return None;
    }
    Some(start + steps as u32)
}

/// The positions of all trains when a tick begins; none, if a train has a place that no way has.
pub(crate) fn positions_before(
    alloc: Global,
    doc: &Doc,
    run: &Run,
    tick: u64,
) -> Result<Option<State>, AllocError>
    ensures { IfOk result (λ found. MatchOption found
        ((i : ℕ) × (i < length doc.now.trains) × (128 ≤ spec.place_before doc.now run.now tick i))
        (λ state. state ≡ spec.positions_before doc.now run.now tick)) }
{
    let mut places = Vec::new(alloc);
    for train in 0..names_of(doc).trains() as u32 {
        match place_before(doc, run, tick, train) {
            Some(place) => places.push(place)?,
            None => return Ok(None),
        }
    }
    Ok(Some(State::from(places)))
}
