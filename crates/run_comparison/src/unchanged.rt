// Which trains only one run has, and whether both runs are the same.
ghost use Rattle.std.specs.Prelude.{◌≡◌, IfOk, string_bytes};
ghost use Rattle.run_timetable.specs.Csv.{csv_train};
ghost use Rattle.run_comparison.specs.Unchanged as spec;

use crate::Side;
use crate::sides::same_train;
use run_timetable::push_train;
use std::alloc::{AllocError, Global};

// The rows of a train in the timetable of its run.
fn rows_of_train(alloc: Global, side: Side<'_>, train: u32) -> Result<String, AllocError>
    ensures { IfOk result (λ text. string_bytes text ≡ csv_train side.entry.layout.now side.entry.names.now side.entry.run.now train) }
{
    let mut out = String::new(alloc);
    push_train(alloc, &mut out, side.layout, side.names, side.run, train)?;
    Ok(out)
}

// Whether the train has the same rows in both timetables.
fn is_unchanged(
    alloc: Global,
    first: Side<'_>,
    second: Side<'_>,
    train: u32,
) -> Result<bool, AllocError>
    ensures { IfOk result (λ same. same ≡ spec.is_unchanged first.entry second.entry train) }
{
    match same_train(first, second, train) {
        Some(same) => {
            let rows = rows_of_train(alloc, first, train)?;
            let others = rows_of_train(alloc, second, same)?;
            Ok(rows.as_str() == others.as_str())
        }
        None => Ok(false),
    }
}

/// Whether each train of the first run has the same rows in both timetables.
pub(crate) fn are_unchanged(
    alloc: Global,
    first: Side<'_>,
    second: Side<'_>,
) -> Result<bool, AllocError>
    ensures { IfOk result (λ same. same ≡ spec.are_unchanged first.entry second.entry) }
{
    let mut all = true;
    for train in 0..first.run.trains() {
        let same = is_unchanged(alloc, first, second, train)?;
        all = all && same;
    }
    Ok(all)
}

/// The trains of the second run that the first has not.
pub(crate) fn only_in_second(
    alloc: Global,
    first: Side<'_>,
    second: Side<'_>,
) -> Result<Vec<u32>, AllocError>
    ensures { IfOk result (λ trains. trains.items ≡ spec.only_in_second first.entry second.entry) }
{
    let mut trains = Vec::new(alloc);
    for train in 0..second.run.trains() {
        if same_train(second, first, train).is_none() {
            trains.push(train)?;
        }
    }
    Ok(trains)
}
