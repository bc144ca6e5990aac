// A timetable as comma-separated values.
ghost use Rattle.std.specs.Prelude.{◌≡◌, ◌++◌, IfOk, OnOk, string_bytes};
ghost use Rattle.run_timetable.specs.Csv as spec;

use crate::rows::rows_in;
use crate::{Row, Run, point_name, train_name};
use rail_model::{Layout, Names};
use std::alloc::{AllocError, Global};

/// Adds a number, if there is one.
pub fn push_number(out: &mut String, number: Option<u64>) -> Result<(), AllocError>
    ensures { OnOk result (string_bytes out.new ≡ string_bytes out.old ++ spec.number_text number) }
{
    match number {
        Some(number) => write!(out, "{number}"),
        None => Ok(()),
    }
}

/// The name of a point, or a dash for a train that is out of the layout.
pub fn place_name(layout: &Layout, point: Option<u32>) -> &str
    ensures { result.now ≡ spec.place_text layout.now point }
{
    match point {
        Some(point) => point_name(layout, point),
        None => "-",
    }
}

// Adds a row.
#[tactic(auto, unfolding(crate::specs::Csv::csv_row))]
fn push_row(out: &mut String, layout: &Layout, names: &Names, row: &Row) -> Result<(), AllocError>
    ensures { OnOk result (string_bytes out.new ≡ string_bytes out.old ++ spec.csv_row layout.now names.now row.now) }
{
    let train = train_name(names, row.train);
    let point = place_name(layout, row.point);
    write!(out, "{train},{point},")?;
    push_number(out, row.arrives)?;
    out.push_str(",")?;
    push_number(out, row.leaves)?;
    out.push_str(",")?;
    push_number(out, row.wait())?;
    out.push_str("\n")
}

// Adds rows.
fn push_rows(
    out: &mut String,
    layout: &Layout,
    names: &Names,
    rows: &[Row],
) -> Result<(), AllocError>
    ensures { OnOk result (string_bytes out.new ≡ string_bytes out.old ++ spec.csv_rows layout.now names.now rows.now) }
{
    for row in rows {
        push_row(out, layout, names, row)?;
    }
    Ok(())
}

/// Adds the rows of a train.
pub fn push_train(
    alloc: Global,
    out: &mut String,
    layout: &Layout,
    names: &Names,
    run: &Run,
    train: u32,
) -> Result<(), AllocError>
    ensures { OnOk result (string_bytes out.new ≡ string_bytes out.old ++ spec.csv_train layout.now names.now run.now train) }
{
    let rows = rows_in(alloc, run, train)?;
    push_rows(out, layout, names, &rows)
}

/// The timetable of a run as comma-separated values (RFC 4180): a row of names, and then the rows of each train. What there isn't is empty.
pub fn csv(alloc: Global, layout: &Layout, names: &Names, run: &Run) -> Result<String, AllocError>
    ensures { IfOk result (λ text. string_bytes text ≡ spec.csv_text layout.now names.now run.now) }
{
    let mut out = String::from_str(alloc, "train,point,arrives,leaves,waits\n")?;
    for train in 0..run.trains() {
        push_train(alloc, &mut out, layout, names, run, train)?;
    }
    Ok(out)
}
