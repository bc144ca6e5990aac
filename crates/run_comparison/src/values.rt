// The comparison of two runs as comma-separated values.
ghost use Rattle.std.specs.Prelude.{◌≡◌, ◌++◌, IfOk, OnOk, string_bytes};
ghost use Rattle.run_comparison.specs.Csv as spec;

use crate::Side;
use crate::sides::{counterpart, same_rows};
use rail_model::{Layout, Names};
use run_timetable::{Row, place_name, push_number, rows_in, train_name};
use std::alloc::{AllocError, Global};

/// Adds how much later the second tick is, with a minus if it is earlier.
pub(crate) fn push_difference(out: &mut String, first: u64, second: u64) -> Result<(), AllocError>
    ensures { OnOk result (string_bytes out.new ≡ string_bytes out.old ++ spec.difference_text first second) }
{
    if second < first {
        let earlier = first - second;
        write!(out, "-{earlier}")
    } else {
        let later = second - first;
        write!(out, "{later}")
    }
}

// Adds how much later the second one is, if there are both.
fn push_later(out: &mut String, first: Option<u64>, second: Option<u64>) -> Result<(), AllocError>
    ensures { OnOk result (string_bytes out.new ≡ string_bytes out.old ++ spec.later_text first second) }
{
    match (first, second) {
        (Some(first), Some(second)) => push_difference(out, first, second),
        _ => Ok(()),
    }
}

// Adds a cell for each of the two, and one for how much later the second one is.
#[tactic(auto, unfolding(crate::specs::Csv::cells))]
fn push_cells(out: &mut String, first: Option<u64>, second: Option<u64>) -> Result<(), AllocError>
    ensures { OnOk result (string_bytes out.new ≡ string_bytes out.old ++ spec.cells first second) }
{
    out.push_str(",")?;
    push_number(out, first)?;
    out.push_str(",")?;
    push_number(out, second)?;
    out.push_str(",")?;
    push_later(out, first, second)
}

// When the train arrives there, if there is such a row.
fn arrival_at(row: Option<Row>) -> Option<u64>
    ensures { result ≡ spec.arrival_at row }
{
    match row {
        Some(row) => row.arrives,
        None => None,
    }
}

// How long the train waits there, if there is such a row.
fn wait_at(row: Option<Row>) -> Option<u64>
    ensures { result ≡ spec.wait_at row }
{
    match row {
        Some(row) => row.wait(),
        None => None,
    }
}

// Adds a row, beside the one that it is compared with.
#[tactic(auto, unfolding(crate::specs::Csv::row_text))]
fn push_row(
    out: &mut String,
    layout: &Layout,
    names: &Names,
    row: &Row,
    other: Option<Row>,
) -> Result<(), AllocError>
    ensures { OnOk result (string_bytes out.new ≡ string_bytes out.old ++ spec.row_text layout.now names.now row.now other) }
{
    let train = train_name(names, row.train);
    let point = place_name(layout, row.point);
    write!(out, "{train},{point}")?;
    push_cells(out, row.arrives, arrival_at(other))?;
    push_cells(out, row.wait(), wait_at(other))?;
    out.push_str("\n")
}

// Adds a row, beside the other row of its number.
#[tactic(auto, unfolding(crate::specs::Csv::row_beside))]
fn push_row_beside(
    out: &mut String,
    first: Side<'_>,
    second: Side<'_>,
    others: &[Row],
    k: usize,
    row: &Row,
) -> Result<(), AllocError>
    ensures { OnOk result (string_bytes out.new ≡ string_bytes out.old ++ spec.row_beside first.entry second.entry others.now k row.now) }
{
    let other = counterpart(first, second, row, others.get(k).copied());
    push_row(out, first.layout, first.names, row, other)
}

// Adds rows, each beside the other row of its number.
fn push_rows(
    out: &mut String,
    first: Side<'_>,
    second: Side<'_>,
    rows: &[Row],
    others: &[Row],
) -> Result<(), AllocError>
    ensures { OnOk result (string_bytes out.new ≡ string_bytes out.old ++ spec.rows_text first.entry second.entry others.now 0 rows.now) }
{
    for (k, row) in rows.iter().enumerate() {
        push_row_beside(out, first, second, others, k, row)?;
    }
    Ok(())
}

// Adds the rows of a train of the first run.
fn push_train(
    alloc: Global,
    out: &mut String,
    first: Side<'_>,
    second: Side<'_>,
    train: u32,
) -> Result<(), AllocError>
    ensures { OnOk result (string_bytes out.new ≡ string_bytes out.old ++ spec.train_text first.entry second.entry train) }
{
    let rows = rows_in(alloc, first.run, train)?;
    let others = same_rows(alloc, first, second, train)?;
    push_rows(out, first, second, &rows, &others)
}

/// The rows of all trains of the first run as comma-separated values (RFC 4180), each beside its row in the second run.
/// Where there is none at the same place, its cells are empty.
pub fn csv(alloc: Global, first: Side<'_>, second: Side<'_>) -> Result<String, AllocError>
    ensures { IfOk result (λ text. string_bytes text ≡ spec.csv_text first.entry second.entry) }
{
    let mut out = String::from_str(
        alloc,
        "train,point,arrives,arrives then,later,waits,waits then,longer\n",
    )?;
    for train in 0..first.run.trains() {
        push_train(alloc, &mut out, first, second, train)?;
    }
    Ok(out)
}
