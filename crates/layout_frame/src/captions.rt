// The names of points and of trains.
ghost use Rattle.std.specs.Prelude.{◌≡◌, ◌<◌, ◌++◌, ◌∷◌, [], IfOk, OnOk, slice_index_or};
ghost use Rattle.rail_model.specs.Layout.{point_names};
ghost use Rattle.rail_model.specs.Table.{trains};
ghost use Rattle.layout_frame.specs.Spots.{words_of};

use crate::frame::{View, point_name, shifted};
use crate::looks::look_of;
use crate::shapes::{push_painted, push_shape};
use rail_model::{point_of, points_of};
use std::alloc::{AllocError, Global};
use svg_text::{Shape, Spot, label};

// Where words begin beside a spot, and by which angle they are turned; without one they are level and in the middle.
#[derive(Clone, Copy)]
struct Side {
    right: i64,
    down: i64,
    angle: Option<i32>,
}

// The names of points rise, or stand above them.
const RISING: Side = Side {
    right: 4,
    down: -18,
    angle: Some(-45),
};

const ABOVE: Side = Side {
    right: 0,
    down: -20,
    angle: None,
};

// The names of trains fall, or stand below their points.
const FALLING: Side = Side {
    right: 2,
    down: 24,
    angle: Some(45),
};

const BELOW: Side = Side {
    right: 0,
    down: 29,
    angle: None,
};

// Turns words round their spot, or has them in its middle.
fn turn(shape: &mut Shape, alloc: Global, at: Spot, angle: Option<i32>) -> Result<(), AllocError>
    ensures { OnOk result (shape.new.words ≡ shape.old.words) }
{
    match angle {
        Some(angle) => turn_by(shape, alloc, at, angle),
        None => shape.set(alloc, "text-anchor", "middle"),
    }
}

// Turns a shape round a spot.
fn turn_by(shape: &mut Shape, alloc: Global, at: Spot, angle: i32) -> Result<(), AllocError>
    ensures { OnOk result (shape.new.words ≡ shape.old.words) }
{
    let Spot { x, y } = at;
    let turn = format!(in alloc; "rotate({angle} {x} {y})")?;
    shape.set(alloc, "transform", turn.as_str())
}

// Words beside a spot.
fn caption(alloc: Global, at: Spot, words: &str, side: Side) -> Result<Shape, AllocError>
    ensures { IfOk result (λ shape. shape.words ≡ words.now) }
{
    let foot = shifted(at, side.right, side.down);
    let mut shape = label(alloc, foot, words)?;
    turn(&mut shape, alloc, foot, side.angle)?;
    Ok(shape)
}

// Adds the name of a point.
fn push_point_name(shapes: &mut Vec<Shape>, view: &View, point: u32) -> Result<(), AllocError>
    ensures { OnOk result (words_of shapes.new.items
        ≡ words_of shapes.old.items ++ slice_index_or (point_names view.now.layout.now) point [] ∷ []) }
{
    let side = if view.frame.grid.rise { RISING } else { ABOVE };
    let name = point_name(view.layout, point);
    push_shape(
        shapes,
        caption(view.alloc, view.frame.spot(point), name, side)?,
    )
}

/// Adds the name of each point.
pub fn push_point_names(shapes: &mut Vec<Shape>, view: &View) -> Result<(), AllocError>
    ensures { OnOk result (words_of shapes.new.items ≡ words_of shapes.old.items ++ point_names view.now.layout.now) }
{
    for point in 0..points_of(view.layout) {
        push_point_name(shapes, view, point)?;
    }
    Ok(())
}

/// The spot of a train's point at a place.
pub(crate) fn spot_at(view: &View, train: u32, place: u32) -> Option<Spot>
    requires { train < trains view.now.scene.now.table.now }
{
    match point_of(view.scene.table, train, place) {
        Some(point) => Some(view.frame.spot(point)),
        None => None,
    }
}

// Adds the name of a train beside a spot.
fn push_name(shapes: &mut Vec<Shape>, view: &View, train: u32, at: Spot) -> Result<(), AllocError>
    requires { train < trains view.now.scene.now.table.now }
{
    let side = if view.frame.grid.fall { FALLING } else { BELOW };
    let name = caption(view.alloc, at, view.scene.train(train), side)?;
    push_painted(
        shapes,
        view.alloc,
        name,
        "fill",
        look_of(view.looks, train).colour,
    )
}

// Adds the name of a train, if it is in the layout.
fn push_train_name(shapes: &mut Vec<Shape>, view: &View, train: u32) -> Result<(), AllocError>
    requires { train < trains view.now.scene.now.table.now }
{
    match spot_at(view, train, view.scene.place(train)) {
        Some(at) => push_name(shapes, view, train, at),
        None => Ok(()),
    }
}

/// Adds the name of each train that is in the layout.
pub fn push_train_names(shapes: &mut Vec<Shape>, view: &View) -> Result<(), AllocError> {
    for train in 0..view.scene.trains() {
        push_train_name(shapes, view, train)?;
    }
    Ok(())
}
