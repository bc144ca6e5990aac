// The timetable of a page.
ghost use Rattle.std.specs.Prelude.{◌≡◌, ◌++◌, OnOk, flat_map};
ghost use Rattle.run_timetable.specs.Csv.{number_text, place_text};
ghost use Rattle.run_timetable.specs.Timetable.{trains_of, wait_of};
ghost use Rattle.report_page.specs.Markup.{cell};
ghost use Rattle.report_page.specs.Page as spec;

use crate::Report;
use crate::cells::{push_number, push_words};
use crate::markup::{Part, markup};
use rail_model::Layout;
use run_timetable::{Row, Run, point_name, rows_of, train_name};
use std::alloc::{AllocError, Global};
use svg_text::push_raw;
use wait_causes::{Wait, cause_of};

// The name of a point, or a dash for a train that is out of the layout.
fn place_name(layout: &Layout, point: Option<u32>) -> &str
    ensures { result.now ≡ place_text layout.now point }
{
    match point {
        Some(point) => point_name(layout, point),
        None => "-",
    }
}

// What the train of a row waits for at its point, if it is known.
fn cause_in<'a>(waits: &'a [Wait], row: &Row) -> &'a str
    ensures { result.now ≡ spec.cause_text waits.now row.now }
{
    match row.leaves {
        Some(tick) => cause_of(waits, row.train, tick).unwrap_or(""),
        None => "",
    }
}

// Adds a row.
#[tactic(auto, unfolding(crate::specs::Page::row_text))]
fn push_row(
    alloc: Global,
    out: &mut Vec<u8>,
    report: &Report<'_>,
    row: &Row,
) -> Result<(), AllocError>
    ensures { OnOk result (out.new.items ≡ out.old.items ++ spec.row_text report.now row.now) }
{
    push_raw(out, "<tr>")?;
    push_words(out, train_name(report.trains, row.train))?;
    push_words(out, place_name(report.layout, row.point))?;
    push_times(alloc, out, row)?;
    push_words(out, cause_in(report.waits, row))?;
    push_raw(out, "</tr>\n")
}

// Adds when the train of a row arrives and leaves, and how long it waits.
fn push_times(alloc: Global, out: &mut Vec<u8>, row: &Row) -> Result<(), AllocError>
    ensures { OnOk result (out.new.items ≡ out.old.items
        ++ cell (number_text row.now.arrives) ++ cell (number_text row.now.leaves) ++ cell (number_text (wait_of row.now))) }
{
    push_number(alloc, out, row.arrives)?;
    push_number(alloc, out, row.leaves)?;
    push_number(alloc, out, row.wait())
}

// Adds rows.
fn push_rows(
    alloc: Global,
    out: &mut Vec<u8>,
    report: &Report<'_>,
    rows: &[Row],
) -> Result<(), AllocError>
    ensures { OnOk result (out.new.items ≡ out.old.items ++ flat_map (spec.row_text report.now) rows.now) }
{
    for row in rows {
        push_row(alloc, out, report, row)?;
    }
    Ok(())
}

// Adds the rows of a train.
fn push_train(
    alloc: Global,
    out: &mut Vec<u8>,
    report: &Report<'_>,
    run: &Run,
    train: u32,
) -> Result<(), AllocError>
    ensures { OnOk result (out.new.items ≡ out.old.items ++ spec.train_text report.now run.now train) }
{
    let rows = rows_of(alloc, &run.steps, train, run.start(train))?;
    push_rows(alloc, out, report, &rows)
}

// Adds the rows of all trains.
fn push_trains(
    alloc: Global,
    out: &mut Vec<u8>,
    report: &Report<'_>,
    run: &Run,
) -> Result<(), AllocError>
    ensures { OnOk result (out.new.items ≡ out.old.items ++ spec.trains_text report.now run.now (trains_of run.now.starts.items)) }
{
    for train in 0..run.trains() {
        push_train(alloc, out, report, run, train)?;
    }
    Ok(())
}

/// Adds the timetable of a run.
pub(crate) fn push_timetable(
    alloc: Global,
    out: &mut Vec<u8>,
    report: &Report<'_>,
    run: &Run,
) -> Result<(), AllocError>
    ensures { OnOk result (out.new.items ≡ out.old.items ++ spec.timetable_text report.now run.now) }
{
    push_raw(out, markup(Part::Timetable))?;
    push_trains(alloc, out, report, run)?;
    push_raw(out, markup(Part::AfterRows))
}
