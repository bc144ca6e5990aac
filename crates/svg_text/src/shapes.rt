// Shapes at places.
ghost use Rattle.std.specs.Prelude.{◌≡◌, ◌++◌, ◌∷◌, [], OnOk, IfOk, decimal, flat_map, string_bytes};
ghost use Rattle.svg_text.specs.Shapes.{line_of, circle_of, label_of, corner_text, polygon_of};

use crate::Shape;
use std::alloc::{AllocError, Global};

/// A place in a picture, from its left and from its top.
#[derive(Clone, Copy)]
pub struct Spot {
    pub x: u64,
    pub y: u64,
}

// Adds a place as two attributes.
fn set_spot(shape: &mut Shape, alloc: Global, x: &str, y: &str, at: Spot) -> Result<(), AllocError>
    ensures { OnOk result (shape.new ≡ record shape.old {
      attributes = shape.old.attributes
          ++ record { name = x.now; value = decimal at.x }
          ∷ record { name = y.now; value = decimal at.y }
          ∷ [];
    }) }
{
    shape.set_number(alloc, x, at.x)?;
    shape.set_number(alloc, y, at.y)
}

/// A line between two places.
pub fn line(alloc: Global, from: Spot, to: Spot) -> Result<Shape, AllocError>
    ensures { IfOk result (λ shape. shape ≡ line_of from to) }
{
    let mut shape = Shape::new(alloc, "line", "")?;
    set_spot(&mut shape, alloc, "x1", "y1", from)?;
    set_spot(&mut shape, alloc, "x2", "y2", to)?;
    Ok(shape)
}

/// A circle round a place.
pub fn circle(alloc: Global, at: Spot, radius: u64) -> Result<Shape, AllocError>
    ensures { IfOk result (λ shape. shape ≡ circle_of at radius) }
{
    let mut shape = Shape::new(alloc, "circle", "")?;
    set_spot(&mut shape, alloc, "cx", "cy", at)?;
    shape.set_number(alloc, "r", radius)?;
    Ok(shape)
}

/// Words that begin at a place.
pub fn label(alloc: Global, at: Spot, words: &str) -> Result<Shape, AllocError>
    ensures { IfOk result (λ shape. shape ≡ label_of at words.now) }
{
    let mut shape = Shape::new(alloc, "text", words)?;
    set_spot(&mut shape, alloc, "x", "y", at)?;
    Ok(shape)
}

// The corners of an area, one after another.
fn corners_text(alloc: Global, corners: &[Spot]) -> Result<String, AllocError>
    ensures { IfOk result (λ text. string_bytes text ≡ flat_map corner_text corners.now) }
{
    let mut text = String::new(alloc);
    for corner in corners {
        let x = corner.x;
        let y = corner.y;
        write!(text, "{x},{y} ")?;
    }
    Ok(text)
}

/// A closed area with these corners.
pub fn polygon(alloc: Global, corners: &[Spot]) -> Result<Shape, AllocError>
    ensures { IfOk result (λ shape. shape ≡ polygon_of corners.now) }
{
    let points = corners_text(alloc, corners)?;
    let mut shape = Shape::new(alloc, "polygon", "")?;
    shape.set(alloc, "points", points.as_str())?;
    Ok(shape)
}
