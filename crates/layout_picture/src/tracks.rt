// Points as dots, and links as lines.
ghost use Rattle.std.specs.Prelude.{◌≡◌, ◌++◌, Some, IfOk, OnOk, codes, map, string_bytes};
ghost use Rattle.layout_picture.specs.Drawn.{AddsShapes, AreLinkLines, step_between};
ghost use Rattle.layout_picture.specs.Marks.{dot_at, pair_of, bow_of, stroke_of, ends_of, ends_at};

use crate::shapes::path;
use layout_frame::{View, bow_between, push_shape};
use rail_model::Link;
use std::alloc::{AllocError, Global};
use svg_text::{Shape, Spot, circle, line};

/// Adds a dot for each point.
pub(crate) fn push_dots(
    shapes: &mut Vec<Shape>,
    alloc: Global,
    spots: &[Spot],
) -> Result<(), AllocError>
    ensures { OnOk result (shapes.new.items ≡ shapes.old.items ++ map dot_at spots.now) }
{
    for at in spots {
        push_shape(shapes, circle(alloc, *at, 5)?)?;
    }
    Ok(())
}

/// A way between two spots: straight, or in a bow toward a third one.
#[derive(Clone, Copy)]
pub(crate) struct Way {
    pub(crate) from: Spot,
    pub(crate) toward: Option<Spot>,
    pub(crate) to: Spot,
}

// The way between two points that goes over no third one.
fn way_between(view: &View, first: u32, second: u32) -> Way
    ensures { ends_of result ≡ ends_at view.now.frame.now.spots.items first second }
{
    let from = view.frame.spot(first);
    let to = view.frame.spot(second);
    Way {
        from,
        toward: bow_between(view.frame, view.layout.links(), from, to),
        to,
    }
}

// Adds the words of a bow.
fn write_bow(words: &mut String, from: Spot, toward: Spot, to: Spot) -> Result<(), AllocError>
    ensures { OnOk result (string_bytes words.new ≡ string_bytes words.old
        ++ codes "M" ++ pair_of from ++ codes " Q" ++ pair_of toward ++ codes " " ++ pair_of to) }
{
    let Spot { x, y } = from;
    let Spot {
        x: aside,
        y: beside,
    } = toward;
    let Spot { x: right, y: down } = to;
    write!(words, "M{x},{y} Q{aside},{beside} {right},{down}")
}

// A bow.
fn bow(alloc: Global, from: Spot, toward: Spot, to: Spot) -> Result<Shape, AllocError>
    ensures { IfOk result (λ shape. shape ≡ bow_of from toward to) }
{
    let mut words = String::new(alloc);
    write_bow(&mut words, from, toward, to)?;
    path(alloc, words.as_str())
}

// The line of a way.
fn stroke(alloc: Global, way: Way) -> Result<Shape, AllocError>
    ensures { IfOk result (λ shape. shape ≡ stroke_of way) }
{
    match way.toward {
        Some(toward) => bow(alloc, way.from, toward, way.to),
        None => line(alloc, way.from, way.to),
    }
}

/// Adds a line between two points.
pub(crate) fn push_line(
    shapes: &mut Vec<Shape>,
    view: &View,
    first: u32,
    second: u32,
) -> Result<(), AllocError>
    ensures { OnOk result (AddsShapes
        (AreLinkLines view.now.frame.now.spots.items (step_between (Some first) (Some second)))
        shapes.old.items shapes.new.items) }
{
    let way = way_between(view, first, second);
    push_shape(shapes, stroke(view.alloc, way)?)
}

/// Adds a line for each link.
pub(crate) fn push_links(
    shapes: &mut Vec<Shape>,
    view: &View,
    links: &[Link],
) -> Result<(), AllocError>
    ensures { OnOk result (AddsShapes (AreLinkLines view.now.frame.now.spots.items links.now)
        shapes.old.items shapes.new.items) }
{
    for link in links {
        push_line(shapes, view, link.first(), link.second())?;
    }
    Ok(())
}
