// Trains as arrows toward their next points.
ghost use Rattle.std.specs.Prelude.{◌≡◌, ◌+◌, ◌<◌, OnOk};
ghost use Rattle.rail_model.specs.Table.{trains, point, place};
ghost use Rattle.layout_frame.specs.Spots.{spot_at as spot_of};
ghost use Rattle.layout_picture.specs.Arrows.{IsMark, IsArrow, outline_of as train_outline};
ghost use Rattle.layout_picture.specs.Drawn.{AddsShapes, AreLinkLines, AreOfTrains, IsWait, step_between};

use crate::arrows::{ARROW, Heading, Outline, SQUARE};
use crate::reds::{colour_of, is_red};
use crate::tracks::push_line;
use layout_frame::{View, direction_of, push_painted};
use rail_model::{last_of, point_of};
use std::alloc::AllocError;
use svg_text::{Shape, Spot};

// A train's next point, if it has one.
fn next_point(view: &View, train: u32) -> Option<u32>
    requires { train < trains view.now.scene.now.table.now }
    ensures { result ≡ point view.now.scene.now.table.now train (place view.now.scene.now.state.now train + 1) }
{
    point_of(
        view.scene.table,
        train,
        view.scene.place(train).saturating_add(1),
    )
}

// Where a train heads from a spot.
fn heading_of(view: &View, train: u32, at: Spot) -> Heading
    requires { train < trains view.now.scene.now.table.now }
{
    let (right, down) = direction_of(view, train, at);
    Heading { right, down }
}

// The outline of an arrow, or of a square for a train that has arrived.
fn outline_of(view: &View, train: u32) -> Outline
    requires { train < trains view.now.scene.now.table.now }
    ensures { result ≡ train_outline view.now.scene.now.table.now view.now.scene.now.state.now train }
{
    if view.scene.place(train) == last_of(view.scene.table, train) {
        SQUARE
    } else {
        ARROW
    }
}

// Adds the arrow of a train at a point, or a square where it has arrived.
fn push_mark(shapes: &mut Vec<Shape>, view: &View, train: u32, point: u32) -> Result<(), AllocError>
    requires { train < trains view.now.scene.now.table.now }
    ensures { OnOk result (AddsShapes
        (IsMark view.now.scene.now.table.now view.now.scene.now.state.now view.now.knot.now train
        (spot_of view.now.frame.now.spots.items point))
        shapes.old.items shapes.new.items) }
{
    let at = view.frame.spot(point);
    let size = view.frame.grid.across.max(26).min(40) as i64;
    let heading = heading_of(view, train, at);
    let mark = heading.mark(view.alloc, at, size, outline_of(view, train))?;
    push_painted(
        shapes,
        view.alloc,
        mark,
        "fill",
        colour_of(view.scene, view.knot, train),
    )
}

// Adds the arrow of a train, if it is in the layout.
fn push_arrow(shapes: &mut Vec<Shape>, view: &View, train: u32) -> Result<(), AllocError>
    requires { train < trains view.now.scene.now.table.now }
    ensures { OnOk result (AddsShapes
        (IsArrow view.now.scene.now.table.now view.now.scene.now.state.now view.now.knot.now view.now.frame.now.spots.items train)
        shapes.old.items shapes.new.items) }
{
    match point_of(view.scene.table, train, view.scene.place(train)) {
        Some(point) => push_mark(shapes, view, train, point),
        None => Ok(()),
    }
}

/// Adds an arrow for each train that is in the layout.
pub(crate) fn push_arrows(shapes: &mut Vec<Shape>, view: &View) -> Result<(), AllocError>
    ensures { OnOk result (AddsShapes (AreOfTrains
        (IsArrow view.now.scene.now.table.now view.now.scene.now.state.now view.now.knot.now view.now.frame.now.spots.items)
        (trains view.now.scene.now.table.now)) shapes.old.items shapes.new.items) }
{
    for train in 0..view.scene.trains() {
        push_arrow(shapes, view, train)?;
    }
    Ok(())
}

// Adds the line of a step between two points, if there are both.
fn push_step(
    shapes: &mut Vec<Shape>,
    view: &View,
    here: Option<u32>,
    next: Option<u32>,
) -> Result<(), AllocError>
    ensures { OnOk result (AddsShapes (AreLinkLines view.now.frame.now.spots.items (step_between here next))
        shapes.old.items shapes.new.items) }
{
    match here {
        None => Ok(()),
        Some(here) => match next {
            None => Ok(()),
            Some(next) => push_line(shapes, view, here, next),
        },
    }
}

// Adds a line from a train to its next point, if the train is red.
fn push_wait(shapes: &mut Vec<Shape>, view: &View, train: u32) -> Result<(), AllocError>
    requires { train < trains view.now.scene.now.table.now }
    ensures { OnOk result (AddsShapes
        (IsWait view.now.scene.now.table.now view.now.scene.now.state.now view.now.knot.now view.now.frame.now.spots.items train)
        shapes.old.items shapes.new.items) }
{
    if !is_red(view.scene, view.knot, train) {
        return Ok(());
    }
    let here = point_of(view.scene.table, train, view.scene.place(train));
    push_step(shapes, view, here, next_point(view, train))
}

/// Adds a line from each red train to its next point.
pub(crate) fn push_waits(shapes: &mut Vec<Shape>, view: &View) -> Result<(), AllocError>
    ensures { OnOk result (AddsShapes (AreOfTrains
        (IsWait view.now.scene.now.table.now view.now.scene.now.state.now view.now.knot.now view.now.frame.now.spots.items)
        (trains view.now.scene.now.table.now)) shapes.old.items shapes.new.items) }
{
    for train in 0..view.scene.trains() {
        push_wait(shapes, view, train)?;
    }
    Ok(())
}
