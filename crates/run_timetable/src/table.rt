// A timetable as text: columns.
use crate::rows::rows_in;
use crate::values::place_name;
use crate::{Row, Run, Takeover, point_name, train_name};
use rail_model::{Layout, Names};
use std::alloc::{AllocError, Global};

/// The timetable of a run: columns of text, and under them when each train ends, and when all have ended.
pub fn columns(
    alloc: Global,
    layout: &Layout,
    names: &Names,
    run: &Run,
) -> Result<String, AllocError> {
    let mut out = String::new(alloc);
    push_text(alloc, &mut out, layout, names, run)?;
    Ok(out)
}

// How wide the columns of names are.
#[derive(Clone, Copy)]
struct Widths {
    train: usize,
    point: usize,
}

fn widths_of(layout: &Layout, names: &Names, run: &Run) -> Widths {
    let mut widths = Widths { train: 5, point: 5 };
    for train in 0..run.trains() {
        widths.train = widths.train.max(train_name(names, train).len());
    }
    for step in &run.steps {
        widths.point = widths.point.max(point_name(layout, step.from).len());
        widths.point = widths.point.max(place_name(layout, step.to).len());
    }
    widths
}

// Adds spaces, up to a width.
fn pad(out: &mut String, taken: usize, width: usize) -> Result<(), AllocError> {
    for _ in taken..width {
        out.push_str(" ")?;
    }
    Ok(())
}

fn push_left(out: &mut String, word: &str, width: usize) -> Result<(), AllocError> {
    out.push_str(word)?;
    pad(out, word.len(), width)
}

// Adds a column of numbers: a number, or a dash if there is none.
fn push_right(out: &mut String, value: Option<u64>, width: usize) -> Result<(), AllocError> {
    match value {
        Some(value) => write!(out, "  {value:>width$}"),
        None => write!(out, "  {:>width$}", "-"),
    }
}

fn push_text(
    alloc: Global,
    out: &mut String,
    layout: &Layout,
    names: &Names,
    run: &Run,
) -> Result<(), AllocError> {
    let widths = widths_of(layout, names, run);
    push_heading(out, widths)?;
    for train in 0..run.trains() {
        push_train(alloc, out, layout, names, widths, run, train)?;
    }
    push_takeovers(out, &run.takeovers)?;
    push_ends(alloc, out, names, run)?;
    let end = run.end();
    write!(out, "end of the last step: {end}\n")
}

fn push_heading(out: &mut String, widths: Widths) -> Result<(), AllocError> {
    let Widths { train, point } = widths;
    write!(
        out,
        "{:<train$}  {:<point$}  arrives  leaves  waits\n",
        "train", "point"
    )
}

// Adds the rows of a train.
fn push_train(
    alloc: Global,
    out: &mut String,
    layout: &Layout,
    names: &Names,
    widths: Widths,
    run: &Run,
    train: u32,
) -> Result<(), AllocError> {
    let rows = rows_in(alloc, run, train)?;
    push_rows(out, layout, names, widths, &rows)
}

fn push_rows(
    out: &mut String,
    layout: &Layout,
    names: &Names,
    widths: Widths,
    rows: &[Row],
) -> Result<(), AllocError> {
    for row in rows {
        push_row(out, layout, names, widths, row)?;
    }
    Ok(())
}

fn push_row(
    out: &mut String,
    layout: &Layout,
    names: &Names,
    widths: Widths,
    row: &Row,
) -> Result<(), AllocError> {
    push_left(out, train_name(names, row.train), widths.train)?;
    out.push_str("  ")?;
    push_left(out, place_name(layout, row.point), widths.point)?;
    push_right(out, row.arrives, 7)?;
    push_right(out, row.leaves, 6)?;
    push_right(out, row.wait(), 5)?;
    out.push_str("\n")
}

fn push_takeovers(out: &mut String, takeovers: &[Takeover]) -> Result<(), AllocError> {
    for takeover in takeovers {
        let table = takeover.table;
        let tick = takeover.tick;
        write!(out, "table {table} takes over at {tick}\n")?;
    }
    Ok(())
}

// Adds when each train ends, and how long it waits in all.
fn push_ends(alloc: Global, out: &mut String, names: &Names, run: &Run) -> Result<(), AllocError> {
    for train in 0..run.trains() {
        let rows = rows_in(alloc, run, train)?;
        push_end(out, train_name(names, train), &rows)?;
    }
    Ok(())
}

// Adds when the train of these rows ends, and how long it waits in all.
fn push_end(out: &mut String, name: &str, rows: &[Row]) -> Result<(), AllocError> {
    let mut waits: u64 = 0;
    let mut end: u64 = 0;
    for row in rows {
        waits = waits.saturating_add(row.wait().unwrap_or(0));
        end = end.max(row.arrives.unwrap_or(0));
    }
    write!(out, "{name} ends at {end}, and waits {waits} in all\n")
}
