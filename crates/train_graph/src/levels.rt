// Trains that stand, and their names.
ghost use Rattle.std.specs.Prelude.{◌≡◌, ◌++◌, ◌∷◌, [], OnOk, flat_map};
ghost use Rattle.train_graph.specs.Marks.{all_levels, level_at, level_line, level_of, levels_of, titled};
ghost use Rattle.train_graph.specs.Subject.{subject_of};
ghost use Rattle.train_graph.specs.Titles.{level_title as title_of};

use crate::Axes;
use crate::labels::{Labels, text_width};
use crate::marks::{set_train, titled_line};
use crate::sheet::Sheet;
use crate::titles::level_title;
use rail_model::Names;
use run_timetable::{Row, Run, Step, rows_in, train_name};
use std::alloc::{AllocError, Global};
use svg_text::{Shape, Spot, label};

/// Adds the level lines of all trains: where they wait, or where they stay.
pub(crate) fn push_levels(
    alloc: Global,
    shapes: &mut Vec<Shape>,
    sheet: &Sheet,
    stay: bool,
) -> Result<(), AllocError>
    ensures { OnOk result (shapes.new.items ≡ shapes.old.items ++ all_levels (subject_of sheet.now) stay) }
{
    for train in 0..sheet.run.trains() {
        push_train_levels(alloc, shapes, sheet, train, stay)?;
    }
    Ok(())
}

// Adds the level lines of a train.
fn push_train_levels(
    alloc: Global,
    shapes: &mut Vec<Shape>,
    sheet: &Sheet,
    train: u32,
    stay: bool,
) -> Result<(), AllocError>
    ensures { OnOk result (shapes.new.items ≡ shapes.old.items ++ levels_of (subject_of sheet.now) stay train) }
{
    let rows = rows_in(alloc, sheet.run, train)?;
    push_rows(alloc, shapes, sheet, &rows, stay)
}

// Adds the level lines of these rows that a train leaves, or of those where it stays.
fn push_rows(
    alloc: Global,
    shapes: &mut Vec<Shape>,
    sheet: &Sheet,
    rows: &[Row],
    stay: bool,
) -> Result<(), AllocError>
    ensures { OnOk result (shapes.new.items ≡ shapes.old.items ++ flat_map (level_of (subject_of sheet.now) stay) rows.now) }
{
    for row in rows {
        push_row(alloc, shapes, sheet, row, stay)?;
    }
    Ok(())
}

// Adds the level line of a row that a train leaves, or of one where it stays.
fn push_row(
    alloc: Global,
    shapes: &mut Vec<Shape>,
    sheet: &Sheet,
    row: &Row,
    stay: bool,
) -> Result<(), AllocError>
    ensures { OnOk result (shapes.new.items ≡ shapes.old.items ++ level_of (subject_of sheet.now) stay row.now) }
{
    if row.leaves.is_none() == stay {
        push_level(alloc, shapes, sheet, row)
    } else {
        Ok(())
    }
}

// Adds the line of a train at a point, if it stands there.
fn push_level(
    alloc: Global,
    shapes: &mut Vec<Shape>,
    sheet: &Sheet,
    row: &Row,
) -> Result<(), AllocError>
    ensures { OnOk result (shapes.new.items ≡ shapes.old.items ++ level_at (subject_of sheet.now) row.now row.now.point) }
{
    let Some(point) = row.point else {
        return Ok(());
    };
    let from = row.arrives.unwrap_or(0);
    let until = row.leaves.unwrap_or(sheet.axes.span);
    if from < until {
        return push_line(alloc, shapes, sheet, row, point, from, until);
    }
    Ok(())
}

// Adds the line of a train between two ticks at a point.
fn push_line(
    alloc: Global,
    shapes: &mut Vec<Shape>,
    sheet: &Sheet,
    row: &Row,
    point: u32,
    from: u64,
    until: u64,
) -> Result<(), AllocError>
    ensures { OnOk result (shapes.new.items ≡ shapes.old.items
        ++ titled (title_of sheet.now.layout.now sheet.now.names.now sheet.now.waits.now row.now point)
        (level_line sheet.now.axes.now row.now.train from until point)
        ∷ []) }
{
    let start = sheet.axes.spot(from, point);
    let end = sheet.axes.spot(until, point);
    let title = level_title(alloc, sheet.layout, sheet.names, sheet.waits, row, point)?;
    shapes.push(titled_line(alloc, row.train, title.as_str(), start, end)?)?;
    Ok(())
}

/// Adds the names of the trains where they begin: left of the picture, each in its own row.
pub(crate) fn push_first_names(
    alloc: Global,
    shapes: &mut Vec<Shape>,
    axes: &Axes,
    names: &Names,
    run: &Run,
) -> Result<(), AllocError> {
    for train in 0..run.trains() {
        if let Some(point) = run.start(train) {
            let spot = start_spot(axes, point);
            push_name(alloc, shapes, train, spot, train_name(names, train))?;
        }
    }
    Ok(())
}

// Where the name of a train stands that begins at a point.
fn start_spot(axes: &Axes, point: u32) -> Spot {
    let at = axes.spot(0, point);
    Spot {
        x: at.x.saturating_sub(6),
        y: at.y.saturating_add(4),
    }
}

// Adds the name of a train.
fn push_name(
    alloc: Global,
    shapes: &mut Vec<Shape>,
    train: u32,
    spot: Spot,
    name: &str,
) -> Result<(), AllocError> {
    let mut words = label(alloc, spot, name)?;
    set_train(&mut words, alloc, train)?;
    Ok(shapes.push(words)?)
}

/// Adds the names of the trains where they end: right of the picture if they stay, or else where they leave.
pub(crate) fn push_last_names(
    alloc: Global,
    shapes: &mut Vec<Shape>,
    labels: &mut Labels,
    axes: &Axes,
    names: &Names,
    run: &Run,
) -> Result<(), AllocError> {
    push_steps(labels, axes, &run.steps)?;
    for train in 0..run.trains() {
        let name = train_name(names, train);
        let spot = last_spot(labels, axes, run, train, text_width(name))?;
        push_name(alloc, shapes, train, spot, name)?;
    }
    Ok(())
}

// Adds the lines of the steps, which labels keep clear of.
fn push_steps(labels: &mut Labels, axes: &Axes, steps: &[Step]) -> Result<(), AllocError> {
    for step in steps {
        let start = axes.spot(u64::from(step.tick), step.from);
        labels.push_line(start, end_of(axes, step))?;
    }
    Ok(())
}

// Where the line of a step ends.
fn end_of(axes: &Axes, step: &Step) -> Spot {
    Spot {
        x: axes.x(step.arrival()),
        y: axes.target(step.from, step.to),
    }
}

// Where the name of a train stands at the end of its way.
fn last_spot(
    labels: &mut Labels,
    axes: &Axes,
    run: &Run,
    train: u32,
    width: u64,
) -> Result<Spot, AllocError> {
    match last_step(&run.steps, train) {
        Some(step) => labels.place(&end_spots(axes, &step, width), width),
        None => Ok(stay_spot(axes, run.start(train).unwrap_or(0))),
    }
}

// The last step of a train, if it makes one.
fn last_step(steps: &[Step], train: u32) -> Option<Step> {
    let mut last: Option<Step> = None;
    for step in steps {
        if step.train == train {
            last = Some(*step);
        }
    }
    last
}

// Where the name of a train stands that stays at a point.
fn stay_spot(axes: &Axes, point: u32) -> Spot {
    let at = axes.spot(axes.span, point);
    Spot {
        x: at.x.saturating_add(6),
        y: at.y.saturating_add(4),
    }
}

// Where the name of a train may stand after its last step: after the end of its line, or beyond it on either side.
fn end_spots(axes: &Axes, step: &Step, width: u64) -> [Spot; 5] {
    if let Some(point) = step.to {
        return [stay_spot(axes, point); 5];
    }
    let end = axes.x(step.arrival());
    let y = axes.out(step.from);
    let (near, far) = if y < axes.y(step.from) {
        (y.saturating_sub(3), y.saturating_sub(15))
    } else {
        (y.saturating_add(12), y.saturating_add(24))
    };
    let before = end.saturating_sub(width);
    [
        Spot {
            x: end.saturating_add(6),
            y: y.saturating_add(4),
        },
        Spot { x: before, y: near },
        Spot { x: end, y: near },
        Spot { x: before, y: far },
        Spot { x: end, y: far },
    ]
}
