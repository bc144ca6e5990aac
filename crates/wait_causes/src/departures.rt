// When trains leave after a wait.
ghost use Rattle.std.specs.Prelude.{◌≡◌, ◌++◌, flat_map, IfOk, OnOk};
ghost use Rattle.wait_causes.specs.Waits as spec;

use run_timetable::{Row, Run, rows_in};
use std::alloc::{AllocError, Global};

/// A train that leaves a point at which it has waited, and the tick.
#[derive(Clone, Copy)]
pub(crate) struct Departure {
    pub train: u32,
    pub leaves: u64,
}

// Whether a train waits at the point of a row.
fn is_wait(row: &Row) -> bool
    ensures { result ≡ spec.is_wait row.now }
{
    0 < row.wait().unwrap_or(0)
}

// Adds the departure of a row, if its train waits there.
fn push_departure(out: &mut Vec<Departure>, row: &Row) -> Result<(), AllocError>
    ensures { OnOk result (out.new.items ≡ out.old.items ++ spec.departures_at row.now) }
{
    match row.leaves {
        Some(leaves) if is_wait(row) => {
            let train = row.train;
            out.push(Departure { train, leaves })?;
            Ok(())
        }
        _ => Ok(()),
    }
}

// Adds the departures of rows.
fn push_departures(out: &mut Vec<Departure>, rows: &[Row]) -> Result<(), AllocError>
    ensures { OnOk result (out.new.items ≡ out.old.items ++ flat_map spec.departures_at rows.now) }
{
    for row in rows {
        push_departure(out, row)?;
    }
    Ok(())
}

// Adds the departures of a train.
fn push_train(
    alloc: Global,
    out: &mut Vec<Departure>,
    run: &Run,
    train: u32,
) -> Result<(), AllocError>
    ensures { OnOk result (out.new.items ≡ out.old.items ++ spec.departures_in run.now train) }
{
    let rows = rows_in(alloc, run, train)?;
    push_departures(out, &rows)
}

/// The departures of all trains, train by train.
pub(crate) fn departures(alloc: Global, run: &Run) -> Result<Vec<Departure>, AllocError>
    ensures { IfOk result (λ found. found.items ≡ spec.departures run.now) }
{
    let mut found = Vec::new(alloc);
    for train in 0..run.trains() {
        push_train(alloc, &mut found, run, train)?;
    }
    Ok(found)
}
