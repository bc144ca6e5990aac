// Shapes that are added to others.
ghost use Rattle.std.specs.Prelude.{◌≡◌, ◌++◌, ◌∷◌, [], OnOk};
ghost use Rattle.svg_text.specs.Shapes.{label_of, line_of};
ghost use Rattle.train_graph.specs.Marks.{of_train};

use crate::marks::train_line;
use std::alloc::{AllocError, Global};
use svg_text::{Shape, Spot, label, line};

/// Adds a line.
pub(crate) fn push_line(
    alloc: Global,
    shapes: &mut Vec<Shape>,
    from: Spot,
    to: Spot,
) -> Result<(), AllocError>
    ensures { OnOk result (shapes.new.items ≡ shapes.old.items ++ line_of from to ∷ []) }
{
    shapes.push(line(alloc, from, to)?)?;
    Ok(())
}

/// Adds a line of a train.
pub(crate) fn push_train_line(
    alloc: Global,
    shapes: &mut Vec<Shape>,
    train: u32,
    from: Spot,
    to: Spot,
) -> Result<(), AllocError>
    ensures { OnOk result (shapes.new.items ≡ shapes.old.items ++ of_train train (line_of from to) ∷ []) }
{
    shapes.push(train_line(alloc, train, from, to)?)?;
    Ok(())
}

/// Adds words.
pub(crate) fn push_label(
    alloc: Global,
    shapes: &mut Vec<Shape>,
    at: Spot,
    words: &str,
) -> Result<(), AllocError>
    ensures { OnOk result (shapes.new.items ≡ shapes.old.items ++ label_of at words.now ∷ []) }
{
    shapes.push(label(alloc, at, words)?)?;
    Ok(())
}
