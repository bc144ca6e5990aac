// Shapes that are added to others.
ghost use Rattle.std.specs.Prelude.{◌≡◌, ◌++◌, ◌∷◌, [], OnOk};
ghost use Rattle.svg_text.specs.Shapes.{label_of};
ghost use Rattle.layout_frame.specs.Spots.{painted};

use std::alloc::{AllocError, Global};
use svg_text::{Shape, Spot, label};

/// Adds a shape.
pub fn push_shape(shapes: &mut Vec<Shape>, shape: Shape) -> Result<(), AllocError>
    ensures { OnOk result (shapes.new.items ≡ shapes.old.items ++ shape ∷ []) }
{
    Ok(shapes.push(shape)?)
}

/// Adds a shape with a colour as its fill or its stroke.
pub fn push_painted(
    shapes: &mut Vec<Shape>,
    alloc: Global,
    mut shape: Shape,
    name: &str,
    colour: &str,
) -> Result<(), AllocError>
    ensures { OnOk result (shapes.new.items ≡ shapes.old.items ++ painted shape name.now colour.now ∷ []) }
{
    shape.set(alloc, name, colour)?;
    push_shape(shapes, shape)
}

/// Adds words.
pub fn push_label(
    shapes: &mut Vec<Shape>,
    alloc: Global,
    at: Spot,
    words: &str,
) -> Result<(), AllocError>
    ensures { OnOk result (shapes.new.items ≡ shapes.old.items ++ label_of at words.now ∷ []) }
{
    push_shape(shapes, label(alloc, at, words)?)
}
