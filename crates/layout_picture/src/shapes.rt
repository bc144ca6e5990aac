// Paths.
ghost use Rattle.std.specs.Prelude.{◌≡◌, IfOk};
ghost use Rattle.layout_picture.specs.Areas.{path_along};

use std::alloc::{AllocError, Global};
use svg_text::Shape;

/// A path along a way.
pub(crate) fn path(alloc: Global, way: &str) -> Result<Shape, AllocError>
    ensures { IfOk result (λ shape. shape ≡ path_along way.now) }
{
    let mut shape = Shape::new(alloc, "path", "")?;
    shape.set(alloc, "d", way)?;
    Ok(shape)
}
