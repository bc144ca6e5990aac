// Travel times with a delay.
ghost use Rattle.std.specs.Prelude.{◌≡◌, ◌<◌, ◌≤◌, ◌+◌, IfOk, length, map, slice_index};
ghost use Rattle.document_json.specs.Doc.{doc_table};
ghost use Rattle.delayed_documents.specs.Delayed.{Fits, FitsAll, longer, with_delay_under};

use crate::Delay;
use crate::steps::step_to;
use document_json::{Doc, tables_of, times_of};
use rail_model::{TableTimes, Times, TrainTimes};
use std::alloc::{AllocError, Global};

fn copied(alloc: Global, times: &[TrainTimes]) -> Result<Vec<TrainTimes>, AllocError>
    ensures { IfOk result (λ v. v.items ≡ times.now) }
{
    let mut found = Vec::new(alloc);
    for steps in times {
        let steps = Vec::from_slice(alloc, steps.as_slice())?;
        found.push(TrainTimes::from(steps))?;
    }
    Ok(found)
}

// The times of a train, one step of which takes some more ticks.
fn longer(alloc: Global, steps: &[u32], step: u32, ticks: u32) -> Result<TrainTimes, AllocError>
    requires step { step < length steps.now }
    requires fits { slice_index steps.now step + ticks ≤ 1000 }
    ensures { IfOk result (λ v. v ≡ longer steps.now step ticks) }
{
    let mut steps = Vec::from_slice(alloc, steps)?;
    steps[step as usize] += ticks;
    Ok(TrainTimes::from(steps))
}

// The times under a table, with a delay.
fn times_under(
    alloc: Global,
    doc: &Doc,
    table: u32,
    train: u32,
    delay: &Delay<'_>,
) -> Result<TableTimes, AllocError>
    requires table { table < length doc.now.tables }
    requires train { train < length doc.now.trains }
    requires fits { Fits doc.now train delay.now table }
    ensures { IfOk result (λ v. v ≡ (with_delay_under doc.now.layout train delay.now (doc_table doc.now table)).times) }
{
    let times = times_of(doc).as_slice()[table as usize].as_slice();
    let mut found = copied(alloc, times)?;
    if let Some(step) = step_to(doc, table, train, delay.point) {
        let steps = times[train as usize].as_slice();
        found[train as usize] = longer(alloc, steps, step, delay.ticks)?;
    }
    Ok(TableTimes::from(found))
}

/// The times of a document with a delay.
pub(crate) fn times_with(
    alloc: Global,
    doc: &Doc,
    train: u32,
    delay: &Delay<'_>,
) -> Result<Times, AllocError>
    requires train { train < length doc.now.trains }
    requires fits { FitsAll doc.now train delay.now }
    ensures { IfOk result (λ v. v ≡ map (λ t. (with_delay_under doc.now.layout train delay.now t).times) doc.now.tables) }
{
    let mut found = Vec::new(alloc);
    for table in 0..tables_of(doc) {
        found.push(times_under(alloc, doc, table, train, delay)?)?;
    }
    Ok(Times::from(found))
}
