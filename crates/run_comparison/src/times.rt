// When trains end, and how long they wait in all.
ghost use Rattle.std.specs.Prelude.{◌≡◌, IfOk};
ghost use Rattle.run_comparison.specs.Times as spec;

use crate::Side;
use crate::sides::same_train;
use run_timetable::{Row, Run, rows_in};
use std::alloc::{AllocError, Global};

/// When a train ends, and how long it waits in all, in ticks; or all trains of a run.
#[derive(Clone, Copy)]
pub(crate) struct Times {
    pub ends: u64,
    pub waits: u64,
}

// The last of all arrivals, or 0.
fn end_of_rows(rows: &[Row]) -> u64
    ensures { result ≡ spec.end_of_rows rows.now }
{
    rows.iter()
        .fold(0, |end: u64, row| end.max(row.arrives.unwrap_or(0)))
}

// The sum of all waits.
fn waits_of_rows(rows: &[Row]) -> u64
    ensures { result ≡ spec.waits_of_rows rows.now }
{
    rows.iter().fold(0, |sum: u64, row| {
        sum.saturating_add(row.wait().unwrap_or(0))
    })
}

/// The times of a train of a run.
pub(crate) fn train_times(alloc: Global, run: &Run, train: u32) -> Result<Times, AllocError>
    ensures { IfOk result (λ times. times ≡ spec.train_times run.now train) }
{
    let rows = rows_in(alloc, run, train)?;
    let ends = end_of_rows(&rows);
    let waits = waits_of_rows(&rows);
    Ok(Times { ends, waits })
}

/// The times in the second run of the train that is called as a train of the first.
pub(crate) fn same_times(
    alloc: Global,
    first: Side<'_>,
    second: Side<'_>,
    train: u32,
) -> Result<Option<Times>, AllocError>
    ensures { IfOk result (λ times. times ≡ spec.same_times first.entry second.entry train) }
{
    match same_train(first, second, train) {
        Some(same) => {
            let times = train_times(alloc, second.run, same)?;
            Ok(Some(times))
        }
        None => Ok(None),
    }
}

/// The times of all trains of a run: when the last step ends, and the sum of all waits.
pub(crate) fn all_times(alloc: Global, run: &Run) -> Result<Times, AllocError>
    ensures { IfOk result (λ times. times ≡ spec.all_times run.now) }
{
    let ends = run.end();
    let mut waits: u64 = 0;
    for train in 0..run.trains() {
        let times = train_times(alloc, run, train)?;
        waits = waits.saturating_add(times.waits);
    }
    Ok(Times { ends, waits })
}
