// The marks of moves.
ghost use Rattle.std.specs.Prelude.{◌≡◌, ◌++◌, IfOk, OnOk, map};
ghost use Rattle.svg_text.specs.Shapes.{line_of};
ghost use Rattle.train_graph.specs.Marks.{mark_of, of_train as marked, titled};
ghost use Rattle.train_graph.specs.Subject.{subject_of};

use crate::sheet::Sheet;
use crate::titles::move_title;
use run_timetable::Step;
use std::alloc::{AllocError, Global};
use svg_text::{Shape, Spot, line};

/// Gives a shape the class of its train.
pub(crate) fn set_train(shape: &mut Shape, alloc: Global, train: u32) -> Result<(), AllocError>
    ensures { OnOk result (shape.new ≡ marked train shape.old) }
{
    let class = format!(in alloc; "t{train}")?;
    shape.set(alloc, "class", class.as_str())
}

/// A line of a train.
pub(crate) fn train_line(
    alloc: Global,
    train: u32,
    from: Spot,
    to: Spot,
) -> Result<Shape, AllocError>
    ensures { IfOk result (λ shape. shape ≡ marked train (line_of from to)) }
{
    let mut shape = line(alloc, from, to)?;
    set_train(&mut shape, alloc, train)?;
    Ok(shape)
}

/// A line of a train with a title.
pub(crate) fn titled_line(
    alloc: Global,
    train: u32,
    title: &str,
    from: Spot,
    to: Spot,
) -> Result<Shape, AllocError>
    ensures { IfOk result (λ shape. shape ≡ titled title.now (marked train (line_of from to))) }
{
    let mut shape = train_line(alloc, train, from, to)?;
    shape.set_title(alloc, title)?;
    Ok(shape)
}

// The mark of a step.
fn mark(alloc: Global, sheet: &Sheet, step: &Step) -> Result<Shape, AllocError>
    ensures { IfOk result (λ shape. shape ≡ mark_of (subject_of sheet.now) step.now) }
{
    let axes = sheet.axes;
    let from = Spot {
        x: axes.x(u64::from(step.tick)),
        y: axes.y(step.from),
    };
    let to = Spot {
        x: axes.x(step.arrival()),
        y: axes.target(step.from, step.to),
    };
    let title = move_title(alloc, sheet.layout, sheet.names, step)?;
    titled_line(alloc, step.train, title.as_str(), from, to)
}

/// Adds the marks of steps, in order.
pub(crate) fn push_marks(
    alloc: Global,
    shapes: &mut Vec<Shape>,
    sheet: &Sheet,
    steps: &[Step],
) -> Result<(), AllocError>
    ensures { OnOk result (shapes.new.items ≡ shapes.old.items ++ map (mark_of (subject_of sheet.now)) steps.now) }
{
    for step in steps {
        shapes.push(mark(alloc, sheet, step)?)?;
    }
    Ok(())
}
