// How long points are taken.
ghost use Rattle.std.specs.Prelude.{◌≡◌, ◌++◌, IfOk, OnOk};
ghost use Rattle.train_graph.specs.Blocks as spec;
ghost use Rattle.train_graph.specs.Subject.{subject_of};

use crate::Axes;
use crate::shapes::push_train_line;
use crate::sheet::Sheet;
use run_timetable::{Run, Step};
use std::alloc::{AllocError, Global};
use svg_text::Shape;

/// Adds a bar for each point that a train takes, if bars are wished.
pub(crate) fn push_wished_blocks(
    alloc: Global,
    shapes: &mut Vec<Shape>,
    sheet: &Sheet,
) -> Result<(), AllocError>
    ensures { OnOk result (shapes.new.items ≡ shapes.old.items ++ spec.wished_blocks (subject_of sheet.now)) }
{
    if sheet.blocks {
        push_blocks(alloc, shapes, sheet.axes, sheet.run)
    } else {
        Ok(())
    }
}

// Adds the bars of all trains.
fn push_blocks(
    alloc: Global,
    shapes: &mut Vec<Shape>,
    axes: &Axes,
    run: &Run,
) -> Result<(), AllocError>
    ensures { OnOk result (shapes.new.items ≡ shapes.old.items ++ spec.all_blocks axes.now run.now) }
{
    for train in 0..run.trains() {
        push_train_blocks(alloc, shapes, axes, run, train)?;
    }
    Ok(())
}

// Adds the bars of a train.
fn push_train_blocks(
    alloc: Global,
    shapes: &mut Vec<Shape>,
    axes: &Axes,
    run: &Run,
    train: u32,
) -> Result<(), AllocError>
    ensures { OnOk result (shapes.new.items ≡ shapes.old.items ++ spec.blocks_of axes.now run.now train) }
{
    let steps = steps_of(alloc, &run.steps, train)?;
    push_bars(alloc, shapes, axes, train, run.start(train), &steps)
}

// The steps of a train.
fn steps_of(alloc: Global, steps: &[Step], train: u32) -> Result<Vec<Step>, AllocError>
    ensures { IfOk result (λ own. own.items ≡ spec.steps_of train steps.now) }
{
    steps
        .iter()
        .filter(|step| step.train == train)
        .copied()
        .collect(alloc)
}

// Adds the bars of a train that begins at a point and makes these steps.
fn push_bars(
    alloc: Global,
    shapes: &mut Vec<Shape>,
    axes: &Axes,
    train: u32,
    start: Option<u32>,
    steps: &[Step],
) -> Result<(), AllocError>
    ensures { OnOk result (shapes.new.items ≡ shapes.old.items ++ spec.bars_of axes.now train start steps.now) }
{
    let mut point = start;
    let mut since: u64 = 0;
    for step in steps {
        let until = u64::from(step.tick);
        push_bar(alloc, shapes, axes, train, point, since, until)?;
        point = step.to;
        since = until;
    }
    push_bar(alloc, shapes, axes, train, point, since, axes.span)
}

// Adds a bar of a train between two ticks at a point, unless it is out of the layout.
fn push_bar(
    alloc: Global,
    shapes: &mut Vec<Shape>,
    axes: &Axes,
    train: u32,
    point: Option<u32>,
    from: u64,
    until: u64,
) -> Result<(), AllocError>
    ensures { OnOk result (shapes.new.items ≡ shapes.old.items ++ spec.bar_at axes.now train point from until) }
{
    match point {
        Some(point) => {
            let start = axes.spot(from, point);
            let end = axes.spot(until, point);
            push_train_line(alloc, shapes, train, start, end)
        }
        None => Ok(()),
    }
}
